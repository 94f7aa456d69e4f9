//! Sessions of many calls on one analyst.

use crate::own::{Own, end};
use crate::tickets;
use analyst::{Analyst, Refusal};
use games::Game;
use lattice::Lattice;
use lattice::bracket::Bracket;
use policies::Policy;
use search::SearchStack;
use tables::Table;

/// What a call answers: nothing where it is accepted.
pub(crate) type Answer = Result<(), Refusal>;

/// What begin answers; a search that is accepted is ended at once.
fn begin<G: Game + Drop, T: Table, P: Policy>(
    analyst: &mut Analyst<G, T, P>,
    job: u64,
    window: Bracket<G::Score>,
    stack: &mut SearchStack<'_, G::Score>,
) -> Answer {
    let (analyst, ticket, stack) = Own::begin(analyst, job, window, stack)?.parts();
    end(analyst, ticket, stack);
    Ok(())
}

/// What calls answer while a search is open, and a begin after it.
fn while_open<G: Game + Drop, T: Table, P: Policy>(
    analyst: &mut Analyst<G, T, P>,
    second: &mut Analyst<G, T, P>,
    offered: G,
    stack: &mut SearchStack<'_, G::Score>,
    other: &mut SearchStack<'_, G::Score>,
) -> [Answer; 8] {
    let all = Bracket::whole();
    let mut search = match Own::begin(analyst, 1, all, stack) {
        Ok(search) => search,
        Err(refusal) => return [Err(refusal); 8],
    };
    let load = search.load(offered);
    let play = search.play();
    let back = search.take_back();
    let again = Err(search.begin_again(2, all, other));
    let busy = search.begin_on_busy(second, all);
    let run = search.run_elsewhere(other);
    let ended = if other.job() != search.job() {
        let (refusal, mut handed_back) = search.end_elsewhere(other);
        handed_back.run(5);
        let (analyst, ticket, stack) = handed_back.parts();
        end(analyst, ticket, stack);
        Err(refusal)
    } else {
        let (analyst, ticket, stack) = search.parts();
        end(analyst, ticket, stack);
        Ok(())
    };
    let after = begin(analyst, 1, all, stack);
    [load, play, back, again, busy, run, ended, after]
}

/// What calls answer, in the order made: take back and play at the loaded position, a play and its taking back, begin
/// with job 0, with a window that is not ordered and with a stack that is too small; then eight while a search is open
/// and after it.
pub(crate) fn refusals<G: Game + Drop, T: Table, P: Policy>(
    analyst: &mut Analyst<G, T, P>,
    second: &mut Analyst<G, T, P>,
    offered: G,
    stack: &mut SearchStack<'_, G::Score>,
    other: &mut SearchStack<'_, G::Score>,
    small: &mut SearchStack<'_, G::Score>,
) -> ([Answer; 7], [Answer; 8]) {
    let all: Bracket<G::Score> = Bracket::whole();
    let shut = Bracket {
        lo: all.hi,
        hi: all.lo,
    };
    let first = [
        analyst.take_back(),
        analyst.play(64),
        analyst.play(0),
        analyst.take_back(),
        begin(analyst, 0, all, stack),
        begin(analyst, 1, shut, stack),
        begin(analyst, 1, all, small),
    ];
    (first, while_open(analyst, second, offered, stack, other))
}

/// What a session of stops comes to: how many searches were stopped, and whether every value was the one expected.
// Stays a count beside a flag: both are printed, whatever the other says.
#[derive(Clone, Copy)]
pub(crate) struct Stops {
    pub count: u32,
    pub agreed: bool,
}

/// The code of a value.
pub(crate) fn code<S: Lattice>(value: Option<S>) -> Option<u64> {
    value.map(|score| score.code())
}

/// Stops a search after each number of steps up to a last one, and begins it again each time with the table as it is.
pub(crate) fn stop_everywhere<G: Game + Drop, T: Table, P: Policy>(
    analyst: &mut Analyst<G, T, P>,
    stack: &mut SearchStack<'_, G::Score>,
    last: u32,
    expected: Option<u64>,
) -> Stops {
    let mut stops = Stops {
        count: 0,
        agreed: true,
    };
    for steps in 0..last {
        let job = 12 + 2 * u64::from(steps);
        match tickets::begins_again(analyst, job, Bracket::whole(), stack, steps) {
            Ok((stopped, ended)) => {
                stops.count = stops.count.saturating_add(1);
                let early = code(stopped.value);
                if early.is_some() && early != expected || code(ended.value) != expected {
                    stops.agreed = false;
                }
            }
            Err(_) => stops.agreed = false,
        }
    }
    let job = 12 + 2 * u64::from(last);
    match tickets::ends_late(analyst, job, Bracket::whole(), stack) {
        Ok(ended) if code(ended.value) == expected => {}
        _ => stops.agreed = false,
    }
    stops
}
