//! A game with the table and the policy that it is searched with, and the steps of a search of it.

use games::Game;
use policies::Policy;
use tables::Table;

pub mod rewind;
pub mod run;
mod step;

/// A game, the table that a search of it asks and fills, and the policy that says which child comes next.
#[derive(Drop)]
pub struct Engine<G: Game, T: Table, P: Policy> {
    pub game: G,
    pub table: T,
    pub policy: P,
}
