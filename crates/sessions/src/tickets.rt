//! Two programs that use their tickets as they must. The gate also tries two that do not: one that drops its ticket after
//! a finished run, and one that runs on an ended ticket.

use crate::own::{Own, end};
use analyst::{Analyst, Ended, Refusal};
use games::Game;
use lattice::Lattice;
use lattice::bracket::Bracket;
use policies::Policy;
use search::SearchStack;
use tables::Table;

/// Ends late: after the run that finishes the search, the table is cleared first, and another run does nothing.
pub(crate) fn ends_late<G: Game + Drop, T: Table, P: Policy>(
    analyst: &mut Analyst<G, T, P>,
    job: u64,
    window: Bracket<G::Score>,
    stack: &mut SearchStack<'_, G::Score>,
) -> Result<Ended<G::Score>, Refusal> {
    let mut search = Own::begin(analyst, job, window, stack)?;
    search.run(u32::MAX);
    search.clear();
    search.run(1);
    let (analyst, ticket, stack) = search.parts();
    Ok(end(analyst, ticket, stack))
}

/// Begins again: a search that is stopped early, and one to its end.
pub(crate) fn begins_again<G: Game + Drop, T: Table, P: Policy>(
    analyst: &mut Analyst<G, T, P>,
    job: u64,
    window: Bracket<G::Score>,
    stack: &mut SearchStack<'_, G::Score>,
    steps: u32,
) -> Result<(Ended<G::Score>, Ended<G::Score>), Refusal> {
    let mut search = Own::begin(analyst, job, window, stack)?;
    search.run(steps);
    let (analyst, ticket, stack) = search.parts();
    let stopped = end(analyst, ticket, stack);
    let mut next = Own::begin(analyst, job.saturating_add(1), window, stack)?;
    next.run(u32::MAX);
    let (analyst, ticket, stack) = next.parts();
    Ok((stopped, end(analyst, ticket, stack)))
}
