//! Lines for what the search of each line of an input finds.

#![tactic(auto)]

ghost use Rattle.std.specs.Prelude.{◌≡◌, IfOk, string_bytes};
ghost use Rattle.findings.specs.Findings.{deal_text, answer_text};
ghost use Rattle.findings.specs.Right.{AnswerRight};
ghost use Rattle.lines.specs.Deals.{tricks, plan};
ghost use Rattle.lines.specs.Reading.{read_line};
ghost use Rattle.lines.specs.Told.{deal_of};

use answers::fault_line;
use answers::input::Answering;
use deals::{PlanGame, TrickGame};
use lines::{Goal, Problem};
use search::Frame;
use std::alloc::{AllocError, Global};

mod found;
mod searched;

use searched::searched;

/// The steps that a search is granted.
const STEPS: u32 = 1_000_000;

/// The line for the search of a problem that asks for tricks.
fn by_tricks(heap: Global, number: u64, problem: Problem) -> Result<String, AllocError>
    requires { (deal_of problem).asked ≡ tricks }
    ensures { IfOk result (λ s. string_bytes s ≡ deal_text number tricks (deal_of problem)) }
{
    let game = TrickGame::new(problem).unwrap();
    searched(heap, number, game, &mut [Frame::blank(); 65], STEPS)
}

/// The line for the search of a problem that asks for a plan.
fn by_plan(heap: Global, number: u64, problem: Problem, target: u8) -> Result<String, AllocError>
    requires { (deal_of problem).asked ≡ plan target }
    ensures { IfOk result (λ s. string_bytes s ≡ deal_text number (plan target) (deal_of problem)) }
{
    let game = PlanGame::new(problem).unwrap();
    searched(heap, number, game, &mut [Frame::blank(); 65], STEPS)
}

/// The text alone; `answer` adds that what it says is right.
fn text(heap: Global, number: u64, line: &[u8]) -> Result<String, AllocError>
    ensures { IfOk result (λ s. string_bytes s ≡ answer_text number (read_line line.now)) }
{
    let problem = match lines::read(line) {
        Ok(problem) => problem,
        Err(fault) => return fault_line(heap, number, fault),
    };
    // Stays a match in each crate that takes problems: the two games are two types, and no closure takes both.
    // Each has a function of its own, since a function clears all its memory at its beginning, faulty line or not.
    match problem.goal() {
        Goal::Tricks => by_tricks(heap, number, problem),
        Goal::Plan(target) => by_plan(heap, number, problem, target.0),
    }
}

/// The answer to a problem line: its number, the kind, the value of its deal, the positions entered, the claims used, the
/// steps done and whether the search is finished; or its number, E, and the fault's number, field and byte.
///
/// The value is there exactly if the search is finished. It is then the number of tricks in best play, or the family that
/// holds a set of layouts exactly when one plan makes the target in each of them.
pub fn answer(heap: Global, number: u64, line: &[u8]) -> Result<String, AllocError>
    ensures text { IfOk result (λ s. string_bytes s ≡ answer_text number (read_line line.now)) }
    ensures right { AnswerRight number (read_line line.now) }
{
    text(heap, number, line)
}

/// Answers problem lines by searching their first positions.
#[derive(Clone, Copy)]
pub struct BySearch;

impl Answering for BySearch {
    ghost text = { λ n line. answer_text n (read_line line) };

    fn answer(&self, heap: Global, number: u64, line: &[u8]) -> Result<String, AllocError> {
        answer(heap, number, line)
    }
}

#[cfg(test)]
mod tests {
    use super::BySearch;
    use answers::input::answer_all;

    #[test]
    fn answers_each_line(rt: HostRuntime) {
        let heap = rt.alloc();
        let mut input: &[u8] = b"D,X,0,SA,SK,SQ,SJ\nP,N,0,1,SA,S2,2,SK,H2,H2,SK\n";
        let mut output = Vec::new(heap);
        let done = answer_all(heap, &mut input, &mut output, &BySearch);
        assert!(rt; done.is_ok());
        let first: &[u8] = b"1,E,13,2,3\n2,P,0xffffffffffffffff,";
        assert!(rt; output.as_slice().starts_with(first));
    }
}
