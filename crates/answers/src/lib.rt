//! Answer lines: what is printed for each line of an input.

#![tactic(auto)]

ghost use Rattle.std.specs.Prelude.{◌≡◌, IfOk, string_bytes};
ghost use Rattle.answers.specs.Answers.{line_text, fault_text, value_text, open_text, tricks_answer, plan_answer, answer_text};
ghost use Rattle.lines.specs.Deals.{tricks, plan};
ghost use Rattle.lines.specs.Faults.{fault_number};
ghost use Rattle.lines.specs.Reading.{read_line};
ghost use Rattle.lines.specs.Told.{deal_of};

use deals::plans::beaten_sets;
use deals::{PlanGame, TrickGame};
use games::evaluate::{Evaluation, evaluate};
use lattice::family::Family;
use lattice::tricks::Tricks;
use lines::{Fault, Goal, Problem};
use std::alloc::{AllocError, Global};

pub mod hex;
pub mod input;
pub mod shown;

use input::Answering;
use shown::Shown;

/// The most cards of a hand for which every line of play is gone through.
const SMALL: u32 = 4;

/// A line of an input without the line feed that ends it.
pub fn without_line_feed(line: &[u8]) -> &[u8]
    ensures { result.now ≡ line_text line.now }
{
    match line {
        [text @ .., b'\n'] => text,
        _ => line,
    }
}

/// The text for a line with a fault: its number, E, and the fault's number, field and byte.
pub fn fault_line(heap: Global, number: u64, fault: Fault) -> Result<String, AllocError>
    ensures { IfOk result (λ s. string_bytes s ≡ fault_text number (fault_number fault.kind) fault.place.field fault.place.byte) }
{
    format!(in heap; "{number},E,{fault}")
}

/// The line for a game whose hands are small: its number, the letter of its scores, the value of its present position and
/// the number of positions.
fn of_found<S: Shown>(heap: Global, number: u64, found: Evaluation<S>) -> Result<String, AllocError>
    ensures { IfOk result (λ s. string_bytes s ≡ value_text number S.Shown.letter (S.Shown.shown (S.Lattice.scoring.code (S.Lattice.stands found.value))) found.positions) }
{
    let letter = S::letter();
    let value = found.value.shown(heap)?;
    let positions = found.positions;
    format!(in heap; "{number},{letter},{value},{positions}")
}

/// The line for a game whose hands are not small.
fn left_open<S: Shown>(heap: Global, number: u64) -> Result<String, AllocError>
    ensures { IfOk result (λ s. string_bytes s ≡ open_text number S.Shown.letter) }
{
    let letter = S::letter();
    format!(in heap; "{number},{letter},U,0")
}

/// The line for a problem that asks for tricks.
fn by_tricks(heap: Global, number: u64, problem: Problem) -> Result<String, AllocError>
    requires { (deal_of problem).asked ≡ tricks }
    ensures { IfOk result (λ s. string_bytes s ≡ tricks_answer number (deal_of problem)) }
{
    // The game is made only where it is played: it is large.
    if problem.cards() > SMALL {
        return left_open::<Tricks>(heap, number);
    }
    let mut game = TrickGame::new(problem).unwrap();
    of_found(heap, number, evaluate(&mut game))
}

/// The line for a problem that asks for a plan, with the family of the sets of layouts that one plan beats.
fn by_plan(heap: Global, number: u64, problem: Problem, target: u8) -> Result<String, AllocError>
    requires { (deal_of problem).asked ≡ plan target }
    ensures { IfOk result (λ s. string_bytes s ≡ plan_answer number target (deal_of problem)) }
{
    if problem.cards() > SMALL {
        return left_open::<Family>(heap, number);
    }
    let mut game = PlanGame::new(problem).unwrap();
    of_found(heap, number, beaten_sets(&mut game))
}

/// The answer to a problem line: its number, the kind, the value of its deal and the number of positions, or U and 0
/// where a hand has more than four cards; or its number, E, and the fault's number, field and byte.
pub fn answer(heap: Global, number: u64, line: &[u8]) -> Result<String, AllocError>
    ensures { IfOk result (λ s. string_bytes s ≡ answer_text number (read_line line.now)) }
{
    let problem = match lines::read(line) {
        Ok(problem) => problem,
        Err(fault) => return fault_line(heap, number, fault),
    };
    // Stays a match in each crate that takes problems: the two games are two types, and no closure takes both.
    match problem.goal() {
        Goal::Tricks => by_tricks(heap, number, problem),
        Goal::Plan(target) => by_plan(heap, number, problem, target.0),
    }
}

/// Answers problem lines by playing every line of play.
#[derive(Clone, Copy)]
pub struct ByPlay;

impl Answering for ByPlay {
    ghost text = { λ n line. answer_text n (read_line line) };

    fn answer(&self, heap: Global, number: u64, line: &[u8]) -> Result<String, AllocError> {
        answer(heap, number, line)
    }
}

#[cfg(test)]
mod tests {
    use super::ByPlay;
    use super::input::answer_all;

    #[test]
    fn answers_each_line(rt: HostRuntime) {
        let heap = rt.alloc();
        let mut input: &[u8] =
            b"D,N,0,SA,SK,SQ,SJ\nD,X,0,SA,SK,SQ,SJ\n\nP,N,0,1,SA,S2,2,SK,H2,H2,SK";
        let mut output = Vec::new(heap);
        let done = answer_all(heap, &mut input, &mut output, &ByPlay);
        assert!(rt; done.is_ok());
        let text: &[u8] = b"1,D,1,5\n2,E,13,2,3\n3,E,11,1,1\n4,P,0xffffffffffffffff,8\n";
        assert!(rt; output.as_slice() == text);
    }
}
