//! A small game, as an example of a game of one's own and for tests.

ghost use Rattle.games.specs.Examples.{line_at};
ghost use Rattle.games.specs.ExampleLaw.{example_lawful};

use crate::{Game, Key, Side};
use lattice::tricks::Tricks;

/// Max takes three, or leaves it to Min to give five or two. A position's number in this order is its key.
#[derive(Clone, Copy)]
pub enum Example {
    Start,
    Three,
    Left,
    Five,
    Two,
}

impl Game for Example {
    type Score = Tricks;

    ghost line = { line_at };

    ghost lawful = { example_lawful };

    fn side(&self) -> Option<Side> {
        match self {
            Example::Start => Some(Side::Max),
            Example::Left => Some(Side::Min),
            Example::Three | Example::Five | Example::Two => None,
        }
    }

    fn children(&self) -> u32 {
        match self {
            Example::Start | Example::Left => 2,
            Example::Three | Example::Five | Example::Two => 0,
        }
    }

    fn score(&self) -> Option<Tricks> {
        match self {
            Example::Three => Some(Tricks(3)),
            Example::Five => Some(Tricks(5)),
            Example::Two => Some(Tricks(2)),
            Example::Start | Example::Left => None,
        }
    }

    fn key(&self) -> Key {
        Key {
            first: *self as u64,
            second: 0,
        }
    }

    fn height(&self) -> u32 {
        match self {
            Example::Start => 2,
            Example::Left => 1,
            Example::Three | Example::Five | Example::Two => 0,
        }
    }

    fn play(&mut self, place: u32) -> bool {
        let next = match (*self, place) {
            (Example::Start, 0) => Example::Three,
            (Example::Start, 1) => Example::Left,
            (Example::Left, 0) => Example::Five,
            (Example::Left, 1) => Example::Two,
            _ => return false,
        };
        *self = next;
        true
    }

    fn take_back(&mut self) -> bool {
        let before = match *self {
            Example::Start => return false,
            Example::Three | Example::Left => Example::Start,
            Example::Five | Example::Two => Example::Left,
        };
        *self = before;
        true
    }
}
