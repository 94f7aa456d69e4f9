//! What is dealt and what is asked.

ghost use Rattle.std.specs.Prelude.{◌≤◌};

use cards::{CardSet, Suit};

pub mod turns;

/// The seats 0 to 3, which play in turn. North and South are one side, East and West the other.
#[derive(Clone, Copy, PartialEq, Eq, Debug)]
pub enum Seat {
    North,
    East,
    South,
    West,
}

/// The number of tricks that a plan has to make, 1 to 13.
#[derive(Clone, Copy, PartialEq, Eq, Debug)]
pub struct Target(pub u8);

/// What is asked of a problem.
#[derive(Clone, Copy, PartialEq, Eq, Debug)]
pub enum Goal {
    /// How many tricks North and South make, all four hands known.
    Tricks,
    /// Which sets of layouts one plan of North and South beats, making the target in each.
    Plan(Target),
}

/// The hands of seats 1 and 3 in one layout.
#[derive(Clone, Copy)]
pub struct Layout {
    pub hand1: CardSet,
    pub hand3: CardSet,
}

/// What a line says, as it is read: the first `count` of the layouts are in use.
// Stays an array with a count: a problem is Copy and in no memory of its own, which neither a Vec nor an ArrayVec is.
#[derive(Clone, Copy)]
pub(crate) struct Parts {
    pub(crate) goal: Goal,
    pub(crate) trump: Option<Suit>,
    pub(crate) leader: Seat,
    pub(crate) hand0: CardSet,
    pub(crate) hand2: CardSet,
    pub(crate) layouts: [Layout; 6],
    pub(crate) count: usize,
    ghost within: { count ≤ 6 },
}
