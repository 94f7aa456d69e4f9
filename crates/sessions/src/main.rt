//! Takes one analyst through a session of many calls for each problem line of standard input, and prints for each
//! line,refusals,.. with the numbers of the calls that were refused, and line,stops,value,searches,agreed: the value
//! without a table, the searches that were stopped, and whether every search with a table had that value.

#![tactic(auto)]

use analyst::Analyst;
use answers::hex::hex;
use answers::input::answer_lines;
use deals::{Aim, CardGame, MostTricks};
use lines::{Problem, Target};
use policies::{Highest, Lowest, Policy, Recent};
use search::{Frame, SearchStack};
use session::{Answer, Stops, code, refusals, stop_everywhere};
use solver::solve;
use std::alloc::{AllocError, Global};
use std::io;
use std::io::{BufReader, BufWriter};
use tables::{Claim, Direct, Empty, Front};

mod own;
mod session;
mod tickets;

/// What a line's session comes to: the code of the value without a table, what the calls answered, and the stops.
#[derive(Drop)]
struct Report {
    code: Option<u64>,
    first: [Answer; 7],
    open: [Answer; 8],
    stops: Stops,
}

/// The session of a problem, over places for two tables and frames for three stacks; none where it sets another aim.
fn session_of<A: Aim, P: Policy + Copy + Drop>(
    problem: &Problem,
    policy: P,
    (places, more): (&mut [Option<Claim>], &mut [Option<Claim>]),
    frames: &mut [Frame<A::Score>],
    others: &mut [Frame<A::Score>],
    few: &mut [Frame<A::Score>],
) -> Option<Report> {
    let plain = CardGame::<A>::new(*problem).ok()?;
    let offered = CardGame::<A>::new(*problem).ok()?;
    let analysed = CardGame::<A>::new(*problem).ok()?;
    let second = CardGame::<A>::new(*problem).ok()?;
    let table = Front::new(Direct::new(places));
    let mut analyst = Analyst::new(analysed, table, Recent::new(policy));
    let below = Front::new(Direct::new(more));
    let mut other = Analyst::new(second, below, Recent::new(policy));
    let mut stack = SearchStack::new(frames);
    let (code, steps) = match solve(plain, Empty, Lowest, 1, &mut stack, u32::MAX) {
        Ok(found) => (code(found.ended.value), found.steps),
        Err(_) => (None, 0),
    };
    let (first, open) = refusals(
        &mut analyst,
        &mut other,
        offered,
        &mut stack,
        &mut SearchStack::new(others),
        &mut SearchStack::new(few),
    );
    let stops = stop_everywhere(&mut analyst, &mut stack, steps, code);
    Some(Report {
        code,
        first,
        open,
        stops,
    })
}

/// The session of a line; none where it is no problem.
fn of_line(line: &[u8]) -> Option<Report> {
    let Ok(problem) = lines::read(line) else {
        return None;
    };
    session_of::<MostTricks, Highest>(
        &problem,
        Highest,
        (&mut [None; 7], &mut [None; 7]),
        &mut [Frame::blank(); 65],
        &mut [Frame::blank(); 65],
        &mut [Frame::blank(); 4],
    )
    .or_else(|| {
        session_of::<Target, Lowest>(
            &problem,
            Lowest,
            (&mut [None; 61], &mut [None; 61]),
            &mut [Frame::blank(); 65],
            &mut [Frame::blank(); 65],
            &mut [Frame::blank(); 4],
        )
    })
}

/// Some answers, each with a comma before it: the number of the refusal, or 0.
// Stays a function, as the one below: the lines are this program's alone, and a Display would be longer.
fn listed(heap: Global, answers: &[Answer]) -> Result<String, AllocError> {
    let mut text = String::new(heap);
    for answer in answers {
        let number = match answer {
            Ok(()) => 0,
            Err(refusal) => refusal.number(),
        };
        let one = format!(in heap; ",{number}")?;
        text.push_str(one.as_str())?;
    }
    Ok(text)
}

/// The lines for a report.
fn told(heap: Global, number: u64, report: &Report) -> Result<String, AllocError> {
    let first = listed(heap, &report.first)?;
    let open = listed(heap, &report.open)?;
    let value = match report.code {
        Some(code) => hex(heap, code)?,
        None => String::from_str(heap, "U")?,
    };
    let count = report.stops.count;
    let agreed = if report.stops.agreed {
        "agreed"
    } else {
        "differed"
    };
    format!(in heap; "{number},refusals{first}{open}\n{number},stops,{value},{count},{agreed}")
}

fn main(rt: HostRuntime) -> io::Result<()> {
    let heap = rt.alloc();
    let mut input = BufReader::new(heap, rt.stdin())?;
    let mut output = BufWriter::new(heap, rt.stdout())?;
    answer_lines(heap, &mut input, &mut output, |number, line| {
        Ok(match of_line(line) {
            Some(report) => Some(told(heap, number, &report)?),
            None => None,
        })
    })
}
