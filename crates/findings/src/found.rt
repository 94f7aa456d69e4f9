//! The text of what a search found.

ghost use Rattle.std.specs.Prelude.{◌≡◌, IfOk, string_bytes};
ghost use Rattle.std.specs.Int.{from_bool};
ghost use Rattle.lattice.specs.Scores.{standing};
ghost use Rattle.solver.specs.Solving.{is_finished, meaning, solved_of};
ghost use Rattle.findings.specs.Findings.{coded, value_text, counts_text, found_text, solved_text};

use analyst::Refusal;
use answers::shown::Shown;
use lattice::Lattice;
use solver::Solved;
use std::alloc::{AllocError, Global};

/// The text of a value: U where there is none.
fn value_text<S: Shown>(heap: Global, value: Option<S>) -> Result<String, AllocError>
    ensures { IfOk result (λ s. string_bytes s ≡ value_text S.Shown.shown (coded S.Lattice.scoring (standing S.Lattice.stands value))) }
{
    match value {
        Some(score) => score.shown(heap),
        None => String::from_str(heap, "U"),
    }
}

/// entered,used,steps,finished
// Stays a format, as the lines below: an impl of Display would say its output twice, as the text and in a ghost member.
#[tactic(auto, using(crate::proofs::Told::finished_still))]
fn counts<S: Lattice>(heap: Global, found: &Solved<S>) -> Result<String, AllocError>
    ensures { IfOk result (λ s. string_bytes s
        ≡ counts_text found.now.ended.entered found.now.ended.used found.now.steps (from_bool (is_finished (meaning S.Lattice.stands found.now)))) }
{
    let entered = found.ended.entered;
    let used = found.ended.used;
    let steps = found.steps;
    let finished = u8::from(found.is_finished());
    format!(in heap; "{entered},{used},{steps},{finished}")
}

/// The line for what a search found.
fn of_found<S: Shown>(heap: Global, number: u64, found: Solved<S>) -> Result<String, AllocError>
    ensures { IfOk result (λ s. string_bytes s
        ≡ found_text S.Lattice.scoring S.Shown.letter S.Shown.shown number (meaning S.Lattice.stands found)) }
{
    let kind = S::letter();
    let counts = counts(heap, &found)?;
    let value = value_text(heap, found.ended.value)?;
    format!(in heap; "{number},{kind},{value},{counts}")
}

/// The line for what a search found, or for its refusal.
pub(crate) fn told<S: Shown>(
    heap: Global,
    number: u64,
    solved: Result<Solved<S>, Refusal>,
) -> Result<String, AllocError>
    ensures { IfOk result (λ s. string_bytes s
        ≡ solved_text S.Lattice.scoring S.Shown.letter S.Shown.shown number (solved_of S.Lattice.stands solved)) }
{
    match solved {
        Ok(found) => of_found(heap, number, found),
        Err(refusal) => {
            let kind = S::letter();
            let refusal = refusal.number();
            format!(in heap; "{number},{kind},R,{refusal}")
        }
    }
}
