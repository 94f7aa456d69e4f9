//! Searches the problem of each line of standard input and prints what the search found and how it went:
//! line,kind,value,entered,used,steps,finished.

#![tactic(auto)]

ghost use Rattle.std.specs.Prelude.{◌≡◌};
ghost use Rattle.lines.specs.Deals.{tricks, plan};
ghost use Rattle.lines.specs.Told.{deal_of};

use answers::fault_line;
use answers::input::answer_lines;
use answers::shown::Shown;
use deals::{Aim, CardGame, PlanGame, TrickGame};
use lattice::Lattice;
use lattice::bracket::Bracket;
use lines::{Goal, Problem};
use policies::{Highest, Recent};
use search::engine::run::is_finished;
use search::{Engine, Frame, Hand, Progress, SearchStack};
use std::alloc::{AllocError, Global};
use std::io;
use std::io::{BufReader, BufWriter};
use tables::{Direct, Front};

/// The steps that a search is granted.
const STEPS: u32 = 1_000_000;

/// The value that a search has in hand, if it is finished.
fn value<S: Lattice>(stack: &SearchStack<'_, S>, progress: &Progress<S>) -> Option<S> {
    match progress.hand {
        Hand::Holding(bracket) if is_finished(stack, progress) => Some(Bracket::whole().clamp(
            bracket.lo,
        )),
        _ => None,
    }
}

/// The line for the search of a game with Front over Direct with 61 places, Recent over Highest, and a stack over frames.
fn searched<A: Aim>(
    heap: Global,
    number: u64,
    game: CardGame<A>,
    frames: &mut [Frame<A::Score>],
) -> Result<String, AllocError>
where
    A::Score: Shown,
{
    let mut places = [None; 61];
    let mut engine = Engine {
        game,
        table: Front::new(Direct::new(&mut places)),
        policy: Recent::new(Highest),
    };
    let mut stack = SearchStack::new(frames);
    let mut progress = Progress::new(Bracket::whole());
    let steps = engine.run(&mut stack, &mut progress, STEPS);
    let found = value(&stack, &progress);
    let finished = u8::from(found.is_some());
    let value = match found {
        Some(score) => score.shown(heap)?,
        None => String::from_str(heap, "U")?,
    };
    let kind = A::Score::letter();
    let entered = progress.entered;
    let used = progress.used;
    format!(in heap; "{number},{kind},{value},{entered},{used},{steps},{finished}")
}

/// The line for the search of a problem that asks for tricks.
fn by_tricks(heap: Global, number: u64, problem: Problem) -> Result<String, AllocError>
    requires { (deal_of problem).asked ≡ tricks }
{
    let game = TrickGame::new(problem).unwrap();
    searched(heap, number, game, &mut [Frame::blank(); 65])
}

/// The line for the search of a problem that asks for a plan.
fn by_plan(heap: Global, number: u64, problem: Problem, target: u8) -> Result<String, AllocError>
    requires { (deal_of problem).asked ≡ plan target }
{
    let game = PlanGame::new(problem).unwrap();
    searched(heap, number, game, &mut [Frame::blank(); 65])
}

/// The line for a line of the input.
fn line(heap: Global, number: u64, text: &[u8]) -> Result<String, AllocError> {
    let problem = match lines::read(text) {
        Ok(problem) => problem,
        Err(fault) => return fault_line(heap, number, fault),
    };
    // Stays a match in each crate that takes problems: the two games are two types, and no closure takes both.
    // Each has a function of its own, since a function clears all its memory at its beginning, faulty line or not.
    match problem.goal() {
        Goal::Tricks => by_tricks(heap, number, problem),
        Goal::Plan(target) => by_plan(heap, number, problem, target.0),
    }
}

fn main(rt: HostRuntime) -> io::Result<()> {
    let heap = rt.alloc();
    let mut input = BufReader::new(heap, rt.stdin())?;
    let mut output = BufWriter::new(heap, rt.stdout())?;
    answer_lines(heap, &mut input, &mut output, |number, text| {
        Ok(Some(line(heap, number, text)?))
    })
}
