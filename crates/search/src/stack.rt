//! The stack of a search, over memory handed in.

ghost use Rattle.std.specs.Prelude.{◌≤◌, length};

use crate::frame::Frame;
use lattice::Lattice;

mod frames;

/// The open frames stand in the first `count` of the places, the newest last.
/// The job is that of the search which keeps the stack busy; 0 where it is free.
// Stays lent places with a count: a search takes no memory of its own.
#[derive(Drop)]
pub struct SearchStack<'a, S: Lattice> {
    places: &'a mut [Frame<S>],
    count: u32,
    job: u64,
    ghost fits: { count ≤ length places.now },
}
