//! The course of play: the present state and those before it.

ghost use Rattle.cardplay.specs.Deals.{Played};
ghost use Rattle.deals.specs.Dealing.{dealt_of};
ghost use Rattle.deals.specs.States.{play_of};

use crate::state::State;
use lines::Problem;
use past::Past;

pub mod moves;
pub mod past;

/// The play of a problem's deal from its first state to the present one: each state but the first came by a legal card
/// from the one before it.
// Stays a struct with a ghost field: the law of a game needs the fact of every value, and the value of a model has none.
#[derive(Drop)]
pub struct Course {
    problem: Problem,
    present: State,
    past: Past,
    ghost legal: { ∥ Played (dealt_of problem) (play_of present) past ∥₁ },
}
