//! The rules of play: which cards are legal, and what a card leads to.

ghost use Rattle.std.specs.Prelude.{◌≡◌, ℕ, ◌+◌, ◌-◌, ◌%◌, ◌^◌, ◌<◌, ◌≤◌, true, false, ◌||◌, ◌&&◌, ◌==◌, nat_lt, length, if◌then◌else◌, Some, None, count_ones, nat_eq};
ghost use Rattle.bitsets.specs.Sets.{has};
ghost use Rattle.games.specs.declared.side.Side.TheVariants.{Max, Min};
ghost use Rattle.cards.specs.Codes.{card_code};
ghost use Rattle.cards.specs.Numbers.{bits_of};
ghost use Rattle.lines.specs.Seats.{seat_number};
ghost use Rattle.cardplay.specs.Cards.{Dealt, hand as hand_of, may_play, to_play, legal_set, live_after, after_card, card_key, side as side_to_play};
ghost use Rattle.cardplay.specs.Deals.{layout, first_play};
ghost use Rattle.deals.specs.Dealing.{dealt_of};
ghost use Rattle.deals.specs.Tricks.{trick_codes};
ghost use Rattle.deals.specs.States.{play_of, legal_there};

use super::State;
use crate::trick;
use crate::trick::Trick;
use bitsets::BitSet;
use cards::{Card, CardSet};
use games::{Key, Side};
use lines::{Problem, Seat};

/// The most layouts that a problem has.
const LAYOUTS: u32 = 6;

/// The hand that a seat was dealt in a layout, from 0; no cards past the last layout.
#[tactic(auto, using(crate::proofs::Layouts::dealt_hand))]
fn dealt(problem: &Problem, place: u32, seat: Seat) -> CardSet
    ensures { bits_of result ≡ hand_of (layout (dealt_of problem.now) place) (seat_number seat) }
{
    problem.hand(place as usize, seat).unwrap_or(CardSet::EMPTY)
}

/// The cards of a hand that may be played to a trick: those of the suit led, or any if there are none.
fn following(hand: CardSet, trick: Trick) -> CardSet
    ensures { bits_of result ≡ may_play (bits_of hand) (trick_codes trick) }
{
    match trick.led() {
        Some(suit) => {
            let cards = hand.of_suit(suit);
            if cards.is_empty() { hand } else { cards }
        }
        None => hand,
    }
}

/// A set of cards without one of them.
fn removed(cards: CardSet, card: Card) -> CardSet
    requires { has (bits_of cards) (card_code card) ≡ true }
    ensures { bits_of result ≡ bits_of cards - 2 ^ card_code card }
{
    cards.without(card)
}

/// The side of a seat.
fn side_of(seat: Seat) -> Side
    ensures { result ≡ (if nat_eq (seat_number seat % 2) 0 then Max else Min) }
{
    match seat {
        Seat::North | Seat::South => Side::Max,
        Seat::East | Seat::West => Side::Min,
    }
}

/// What a trick counts that a seat takes: one if the seat is 0 or 2.
fn counted(taker: Seat) -> u8
    ensures value { result ≡ 1 - seat_number taker % 2 }
    ensures bound { result ≤ 1 }
{
    match taker {
        Seat::North | Seat::South => 1,
        Seat::East | Seat::West => 0,
    }
}

/// Every layout of a problem.
fn every_layout(problem: &Problem) -> BitSet
    ensures { result.0 ≡ 2 ^ length (dealt_of problem.now).layouts - 1 }
{
    BitSet((1 << problem.layouts().len()) - 1)
}

/// A set of layouts with one layout more if a card is among those that are legal in it.
fn with_legal(live: BitSet, place: u32, legal: CardSet, card: Card) -> BitSet
    ensures added { has (bits_of legal) (card_code card) ≡ true → (k : ℕ) → has result.0 k ≡ (has live.0 k || (k == place && nat_lt k 64)) }
    ensures same { has (bits_of legal) (card_code card) ≡ false → result.0 ≡ live.0 }
{
    if legal.contains(card) {
        live.with(place)
    } else {
        live
    }
}

impl State {
    /// The state before the first card.
    pub fn first(problem: &Problem) -> State
        ensures { play_of result ≡ first_play (dealt_of problem.now) }
    {
        let ours = dealt(problem, 0, Seat::North).union(dealt(problem, 0, Seat::South));
        let theirs = dealt(problem, 0, Seat::East).union(dealt(problem, 0, Seat::West));
        State {
            unplayed: ours.union(theirs),
            leader: problem.leader(),
            trick: Trick::Empty,
            won: 0,
            live: every_layout(problem),
        }
    }

    /// The seat that plays next.
    pub fn to_play(&self) -> Seat
        ensures { (d : Dealt) → seat_number result ≡ to_play d (play_of self.now) }
    {
        self.leader.later(self.trick.len())
    }

    /// The side of the seat that plays next; none where all cards are played.
    pub fn side(&self) -> Option<Side>
        ensures { (d : Dealt) → result ≡ (if nat_eq (play_of self.now).unplayed 0 then None else Some (side_to_play d (play_of self.now))) }
    {
        if self.unplayed.is_empty() {
            return None;
        }
        Some(side_of(self.to_play()))
    }

    /// The number of cards that are not played.
    #[tactic(auto, using(bitsets::proofs::Members::members_length))]
    pub fn height(&self) -> u32
        ensures { result ≡ count_ones (play_of self.now).unplayed }
    {
        self.unplayed.len()
    }

    /// The key: what is not played, the leader, the tricks won and the live layouts in one word, and the trick in another.
    pub(crate) fn key(&self) -> Key
        requires { (self.now.won ≤ 13) × (self.now.live.0 < 64) }
        ensures { (d : Dealt) → result ≡ card_key d (play_of self.now) }
    {
        let leader = u64::from(self.leader.number());
        Key {
            first: self.unplayed.bits()
                + (leader << 52)
                + (u64::from(self.won) << 54)
                + (self.live.0 << 58),
            second: self.trick.word(),
        }
    }

    /// The cards that are legal in a layout, from 0; none where it is not live.
    fn legal_in(&self, problem: &Problem, place: u32) -> CardSet
        ensures { bits_of result ≡ legal_there (dealt_of problem.now) (play_of self.now) place }
    {
        if !self.live.contains(place) {
            return CardSet::EMPTY;
        }
        let hand = dealt(problem, place, self.to_play());
        following(hand.intersection(self.unplayed), self.trick)
    }

    /// The legal cards: those that are legal in a live layout.
    #[tactic(auto, using(crate::proofs::Layouts::more_hands))]
    pub fn legal(&self, problem: &Problem) -> CardSet
        ensures { bits_of result ≡ legal_set (dealt_of problem.now) (play_of self.now) }
    {
        // A copy, as the loop would read the state behind the reference anew for each layout.
        let state = *self;
        let mut cards = CardSet::EMPTY;
        for place in 0..LAYOUTS {
            cards = cards.union(state.legal_in(problem, place));
        }
        cards
    }

    /// The live layouts in which a card is legal.
    fn live_after(&self, problem: &Problem, card: Card) -> BitSet
        ensures { result.0 ≡ live_after (dealt_of problem.now) (play_of self.now) (card_code card) }
    {
        // A copy, as above.
        let state = *self;
        let mut live = BitSet::EMPTY;
        for place in 0..LAYOUTS {
            live = with_legal(live, place, state.legal_in(problem, place), card);
        }
        live
    }

    /// The state once a card is played.
    pub(crate) fn after(&self, problem: &Problem, card: Card) -> State
        requires { (has (bits_of self.now.unplayed) (card_code card) ≡ true) × (self.now.won ≤ 13) }
        ensures { play_of result ≡ after_card (dealt_of problem.now) (play_of self.now) (card_code card) }
    {
        let unplayed = removed(self.unplayed, card);
        let live = self.live_after(problem, card);
        let trick = match self.trick {
            Trick::Empty => Trick::One(card),
            Trick::One(first) => Trick::Two(first, card),
            Trick::Two(first, second) => Trick::Three(first, second, card),
            Trick::Three(first, second, third) => {
                let winner = trick::winner(problem, first, second, third, card);
                let leader = self.leader.later(winner);
                let won = self.won + counted(leader);
                return State {
                    unplayed,
                    leader,
                    trick: Trick::Empty,
                    won,
                    live,
                };
            }
        };
        State {
            unplayed,
            trick,
            live,
            ..*self
        }
    }
}
