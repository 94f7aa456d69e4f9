//! What can be asked of a problem.

ghost use Rattle.std.specs.Prelude.{◌≡◌, map, length};
ghost use Rattle.std.specs.Option.{option_map};
ghost use Rattle.cards.specs.Numbers.{bits_of};
ghost use Rattle.lines.specs.Deals.{Valid, seat_hand, hand_in};
ghost use Rattle.lines.specs.Problems.{defence, deal};
ghost use Rattle.lines.specs.Seats.{seat_number};
ghost use Rattle.lines.specs.Spelling.{size};
ghost use Rattle.lines.specs.Told.{deal_of, goal_of, trump_suit_of, first_leader_of};

use super::Problem;
use crate::deal::{Goal, Layout, Parts, Seat};
use cards::{CardSet, Suit};

impl Layout {
    /// A place for a layout.
    pub(crate) const NONE: Layout = Layout {
        hand1: CardSet::EMPTY,
        hand3: CardSet::EMPTY,
    };
}

impl Problem {
    /// The problem that has these parts.
    pub(crate) fn new(parts: Parts) -> Problem
        requires { Valid (deal parts) }
        ensures { deal_of result ≡ deal parts }
    {
        Problem { parts }
    }

    /// What is asked.
    pub fn goal(&self) -> Goal
        ensures { result ≡ goal_of self.now }
    {
        self.parts.goal
    }

    /// The trump suit, if there is one.
    pub fn trump(&self) -> Option<Suit>
        ensures { result ≡ trump_suit_of self.now }
    {
        self.parts.trump
    }

    /// The seat that leads to the first trick.
    pub fn leader(&self) -> Seat
        ensures { result ≡ first_leader_of self.now }
    {
        self.parts.leader
    }

    /// The number of cards in each hand.
    pub fn cards(&self) -> u32
        ensures { result ≡ size (deal_of self.now).hand0 }
    {
        self.parts.hand0.len()
    }

    /// The layouts: the hands of seats 1 and 3 in each.
    pub fn layouts(&self) -> &[Layout]
        ensures hands { map defence result.now ≡ (deal_of self.now).layouts }
        ensures len { length result.now ≡ length (deal_of self.now).layouts }
    {
        let places = &self.parts.layouts[..];
        &places[..self.parts.count]
    }

    /// The hand of a seat beside a layout.
    fn beside(&self, layout: Layout, seat: Seat) -> CardSet
        ensures { bits_of result ≡ seat_hand (deal_of self.now) (defence layout) (seat_number seat) }
    {
        match seat {
            Seat::North => self.parts.hand0,
            Seat::East => layout.hand1,
            Seat::South => self.parts.hand2,
            Seat::West => layout.hand3,
        }
    }

    /// The hand of a seat in a layout, from 0; none past the last layout.
    pub fn hand(&self, layout: usize, seat: Seat) -> Option<CardSet>
        ensures { option_map bits_of result ≡ hand_in (deal_of self.now) layout (seat_number seat) }
    {
        if layout >= self.parts.count {
            return None;
        }
        let listed = self.parts.layouts[layout];
        Some(self.beside(listed, seat))
    }
}
