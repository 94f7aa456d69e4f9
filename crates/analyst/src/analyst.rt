//! The analyst.

ghost use Rattle.std.specs.Prelude.{◌≡◌};
ghost use Rattle.analyst.specs.Calls.{open_job};

use games::Game;
use lattice::Lattice;
use lattice::bracket::Bracket;
use policies::Policy;
use search::{Engine, Progress};
use tables::Table;

mod calls;
mod kept;
pub mod ticket;

/// What an analyst keeps of its open search: its job and window, how far it has come, and of its stack the places and
/// the open positions that the last call left. The open positions themselves are on the stack.
#[derive(Clone, Copy)]
pub struct Open<S: Lattice> {
    pub(crate) job: u64,
    pub(crate) window: Bracket<S>,
    pub(crate) progress: Progress<S>,
    pub(crate) places: u32,
    pub(crate) depth: u32,
}

/// A game, with a table and a policy to search it with, the greatest job accepted so far, and the open search, which
/// has that job.
#[derive(Drop)]
pub struct Analyst<G: Game + Drop, T: Table, P: Policy> {
    pub(crate) engine: Engine<G, T, P>,
    pub(crate) jobs: u64,
    pub(crate) search: Option<Open<G::Score>>,
    ghost latest: { open_job search jobs ≡ jobs },
}
