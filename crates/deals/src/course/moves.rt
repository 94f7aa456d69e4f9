//! What can be asked of the course of play, and how it goes on and back.

ghost use Rattle.std.specs.Prelude.{◌≡◌, ◌<◌, ◌≤◌, true, length, ◌==◌, count_ones};
ghost use Rattle.cards.specs.Codes.{card_code};
ghost use Rattle.cards.specs.Numbers.{bits_of};
ghost use Rattle.cardplay.specs.Cards.{legal_set, card_key};
ghost use Rattle.deals.specs.Dealing.{dealt_of};
ghost use Rattle.deals.specs.Courses.{After};
ghost use Rattle.deals.specs.Stands.{stand_of, first_stand, choices, can_choose, CardAt, PlaceOf, next_side, after_legal, can_go_on, after_place, can_go_back, after_back};

use super::Course;
use super::past::Past;
use crate::state::State;
use bitsets::BitSet;
use cards::{Card, CardSet};
use games::{Key, Side};
use lines::Problem;

impl Course {
    /// The course of play at the first state of a problem's deal.
    #[inline(always)]
    pub fn new(problem: Problem) -> Course
        ensures { stand_of result ≡ first_stand (dealt_of problem) }
    {
        let present = State::first(&problem);
        let past = Past::new(present);
        Course {
            problem,
            present,
            past,
        }
    }

    /// The side to play; none where all cards are played.
    pub fn side(&self) -> Option<Side>
        ensures { result ≡ next_side (stand_of self.now) }
    {
        self.present.side()
    }

    /// Whether all cards are played.
    pub fn is_over(&self) -> bool
        ensures { result ≡ ((stand_of self.now).present.unplayed == 0) }
    {
        self.present.unplayed.is_empty()
    }

    /// The number of cards that are not played.
    pub fn height(&self) -> u32
        ensures { result ≡ count_ones (stand_of self.now).present.unplayed }
    {
        self.present.height()
    }

    /// The number of tricks that seats 0 and 2 have won.
    pub fn won(&self) -> u8
        ensures value { result ≡ (stand_of self.now).present.won }
        ensures bound { result ≤ 13 }
    {
        self.present.won
    }

    /// The layouts in which each card so far was legal.
    pub fn live(&self) -> BitSet
        ensures value { result.0 ≡ (stand_of self.now).present.live }
        ensures bound { result.0 < 64 }
    {
        self.present.live
    }

    /// The legal cards.
    pub fn legal(&self) -> CardSet
        ensures { bits_of result ≡ legal_set (stand_of self.now).deal (stand_of self.now).present }
    {
        self.present.legal(&self.problem)
    }

    /// The number of legal cards.
    #[tactic(auto, using(crate::proofs::Choices::listed_members))]
    pub fn children(&self) -> u32
        ensures { result ≡ length (choices (stand_of self.now)) }
    {
        self.legal().len()
    }

    /// The legal card at a place, in rising code from 0; none past the last.
    pub fn card(&self, place: u32) -> Option<Card>
        ensures { CardAt (stand_of self.now) place result }
    {
        self.legal().nth(place)
    }

    /// The place of a card among the legal ones; none if it is not legal.
    pub fn place(&self, card: Card) -> Option<u32>
        ensures { PlaceOf (stand_of self.now) (card_code card) result }
    {
        self.legal().place(card)
    }

    /// The key of the present state.
    pub fn key(&self) -> Key
        ensures { result ≡ card_key (stand_of self.now).deal (stand_of self.now).present }
    {
        self.present.key()
    }

    /// The state once a legal card is played.
    fn state_after(&self, card: Card) -> State
        requires { can_choose (stand_of self.now) (card_code card) ≡ true }
        ensures { After self.now (card_code card) result }
    {
        self.present.after(&self.problem, card)
    }

    /// Plays a legal card.
    fn put(&mut self, card: Card)
        requires { can_choose (stand_of self.old) (card_code card) ≡ true }
        ensures { stand_of self.new ≡ after_legal (stand_of self.old) (card_code card) }
    {
        let next = self.state_after(card);
        let before = self.present;
        self.past.push(before);
        self.present = next;
    }

    /// Plays the legal card at a place; false, and nothing changes, where there is none.
    // Stays a bool, here and below, as a game's `play`, which it answers: there is one way to refuse.
    pub fn play(&mut self, place: u32) -> bool
        ensures told { result ≡ can_go_on (stand_of self.old) place }
        ensures goes { stand_of self.new ≡ after_place (stand_of self.old) place }
    {
        match self.card(place) {
            Some(card) => {
                self.put(card);
                true
            }
            None => false,
        }
    }

    /// Takes the last card back; false, and nothing changes, at the first state.
    pub fn take_back(&mut self) -> bool
        ensures told { result ≡ can_go_back (stand_of self.old) }
        ensures goes { stand_of self.new ≡ after_back (stand_of self.old) }
    {
        let Some(before) = self.past.pop() else {
            return false;
        };
        self.present = before;
        true
    }
}
