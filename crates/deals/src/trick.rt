//! Tricks: the cards that have been played to one, and the card that wins it.

ghost use Rattle.std.specs.Prelude.{◌≡◌, ◌<◌, [], ◌∷◌, length};
ghost use Rattle.std.specs.Option.{option_map};
ghost use Rattle.cards.specs.Codes.{suit_code, card_code};
ghost use Rattle.cardplay.specs.Cards.{beats, winner as winning_place};
ghost use Rattle.deals.specs.Tricks.{trick_codes, led_suit, trick_word};
ghost use Rattle.deals.specs.Dealing.{dealt_of};

use cards::{Card, Suit};
use lines::Problem;

/// The cards of a trick that is not complete, in the order in which they were played.
#[derive(Clone, Copy)]
pub enum Trick {
    Empty,
    One(Card),
    Two(Card, Card),
    Three(Card, Card, Card),
}

impl Trick {
    /// The number of cards.
    pub fn len(self) -> u32
        ensures value { result ≡ length (trick_codes self) }
        ensures bound { result < 4 }
    {
        match self {
            Trick::Empty => 0,
            Trick::One(_) => 1,
            Trick::Two(_, _) => 2,
            Trick::Three(_, _, _) => 3,
        }
    }

    /// The suit led, if a card has been played.
    pub fn led(self) -> Option<Suit>
        ensures { option_map suit_code result ≡ led_suit (trick_codes self) }
    {
        match self {
            Trick::Empty => None,
            Trick::One(first) => Some(first.suit),
            Trick::Two(first, _) => Some(first.suit),
            Trick::Three(first, _, _) => Some(first.suit),
        }
    }

    /// The trick as a number: how many cards, and 6 bits for each of them.
    pub fn word(self) -> u64
        ensures value { result ≡ trick_word (trick_codes self) }
    {
        let [first, second, third] = match self {
            Trick::Empty => [0, 0, 0],
            Trick::One(first) => [u8::from(first), 0, 0],
            Trick::Two(first, second) => [u8::from(first), u8::from(second), 0],
            Trick::Three(first, second, third) => [
                u8::from(first),
                u8::from(second),
                u8::from(third),
            ],
        };
        u64::from(self.len())
            + 4 * u64::from(first)
            + 256 * u64::from(second)
            + 16384 * u64::from(third)
    }
}

/// Whether a card beats the best one before it in its trick.
#[tactic(auto, using(crate::proofs::Beats::higher_rank, crate::proofs::Beats::trumped))]
pub(crate) fn beats(problem: &Problem, card: Card, best: Card) -> bool
    ensures { result ≡ beats (dealt_of problem.now) (card_code card) (card_code best) }
{
    if card.suit == best.suit {
        return card.rank > best.rank;
    }
    problem.trump() == Some(card.suit)
}

/// The place of the card that wins a trick, from 0.
pub(crate) fn winner(problem: &Problem, first: Card, second: Card, third: Card, fourth: Card) -> u32
    ensures value { result ≡ winning_place (dealt_of problem.now) (card_code first ∷ card_code second ∷ card_code third ∷ card_code fourth ∷ []) }
    ensures bound { result < 4 }
{
    // Stays three tests in a row: a loop over the later cards was proved, but its invariant and lemmas are no plainer.
    let mut best = first;
    let mut place = 0;
    if beats(problem, second, best) {
        best = second;
        place = 1;
    }
    if beats(problem, third, best) {
        best = third;
        place = 2;
    }
    if beats(problem, fourth, best) {
        place = 3;
    }
    place
}
