//! The values that a field can spell.

ghost use Rattle.std.specs.Prelude.{◌≡◌, ℕ, ◌<◌, ◌≤◌, true, List, IfSome, MatchOption, Option, nat_lt};
ghost use Rattle.cards.specs.Codes.{suit_code, rank_code, card_code};
ghost use Rattle.cards.specs.Numbers.{bits_of};
ghost use Rattle.lines.specs.Seats.{seat_number};
ghost use Rattle.lines.specs.Spelling.{suit_letters, rank_letters, place_of, leader_of, trump_of, digit_of, number_of, target_of, count_of, card_of, cards_of, hand_of};
ghost use Rattle.std.specs.Option.{option_map};

use crate::deal::{Seat, Target};
use cards::{Card, CardSet, Rank, Suit};

/// A value that a field can spell.
// Stays a trait of its own: Option<Suit> and CardSet are other crates' types, and get no further TryFrom here.
pub trait Spelled: Sized {
    /// What is told of a value: numbers in the place of suits and seats.
    ghost Told: { Type 0 };

    ghost told: { Self → Told };
    /// The value that a text spells.
    ghost spells: { List ℕ → Option Told };

    fn read(text: &[u8]) -> Option<Self>
        ensures { option_map told result ≡ spells text.now };
}

/// How many layouts a line lists, from 1 to 6.
#[derive(Clone, Copy, PartialEq, Eq, Debug)]
pub struct LayoutCount {
    count: usize,
    ghost some: { 1 ≤ count },
    ghost few: { count ≤ 6 },
}

impl LayoutCount {
    ghost use Rattle.lines.specs.Counts.{listed};

    /// The number.
    // Stays a method, as std's numbers that are not 0 have it.
    pub fn get(self) -> usize
        ensures value { result ≡ listed self }
        ensures some { 1 ≤ result }
        ensures few { result ≤ 6 }
    {
        self.count
    }
}

fn suit(letter: u8) -> Option<Suit>
    ensures { option_map suit_code result ≡ place_of suit_letters letter }
{
    match letter as char {
        'C' => Some(Suit::Clubs),
        'D' => Some(Suit::Diamonds),
        'H' => Some(Suit::Hearts),
        'S' => Some(Suit::Spades),
        _ => None,
    }
}

fn rank(letter: u8) -> Option<Rank>
    ensures { option_map rank_code result ≡ place_of rank_letters letter }
{
    match letter as char {
        '2' => Some(Rank::Two),
        '3' => Some(Rank::Three),
        '4' => Some(Rank::Four),
        '5' => Some(Rank::Five),
        '6' => Some(Rank::Six),
        '7' => Some(Rank::Seven),
        '8' => Some(Rank::Eight),
        '9' => Some(Rank::Nine),
        'T' => Some(Rank::Ten),
        'J' => Some(Rank::Jack),
        'Q' => Some(Rank::Queen),
        'K' => Some(Rank::King),
        'A' => Some(Rank::Ace),
        _ => None,
    }
}

fn card(first: u8, second: u8) -> Option<Card>
    ensures { option_map card_code result ≡ card_of first second }
{
    let suit = suit(first)?;
    let rank = rank(second)?;
    Some(Card { suit, rank })
}

fn digit(byte: u8) -> Option<u8>
    ensures value { result ≡ digit_of byte }
    ensures bound { IfSome result (λ d. d < 10) }
{
    match byte as char {
        '0'..='9' => Some(byte - b'0'),
        _ => None,
    }
}

/// One or two digits, with no leading zero.
fn number(text: &[u8]) -> Option<u8>
    ensures { result ≡ number_of text.now }
{
    match text {
        [units] => digit(*units),
        [b'0', _] => None,
        [tens, units] => Some(10 * digit(*tens)? + digit(*units)?),
        _ => None,
    }
}

/// Whether a card's code is above that of the last card, if there is one.
// Codes are compared, as two cards take longer to compare.
fn rises(last: Option<u8>, code: u8) -> bool
    ensures { MatchOption last (result ≡ true) (λ before. result ≡ nat_lt before code) }
{
    last.is_none_or(|before| before < code)
}

/// The cards that a text spells in strictly rising code, suit and rank letters in turn.
fn cards(text: &[u8]) -> Option<CardSet>
    ensures { option_map bits_of result ≡ cards_of text.now }
{
    let mut rest = text;
    let mut last = None;
    let mut cards = CardSet::EMPTY;
    while let [first, second, more @ ..] = rest {
        let card = card(*first, *second)?;
        let code = u8::from(card);
        if !rises(last, code) {
            return None;
        }
        last = Some(code);
        cards = cards.with(card);
        rest = more;
    }
    if rest.is_empty() { Some(cards) } else { None }
}

impl Spelled for Seat {
    ghost Told = { ℕ };

    ghost told = { seat_number };

    ghost spells = { leader_of };

    fn read(text: &[u8]) -> Option<Seat> {
        match text {
            [b'0'] => Some(Seat::North),
            [b'1'] => Some(Seat::East),
            [b'2'] => Some(Seat::South),
            [b'3'] => Some(Seat::West),
            _ => None,
        }
    }
}

impl Spelled for Option<Suit> {
    ghost Told = { Option ℕ };

    ghost told = { option_map suit_code };

    ghost spells = { trump_of };

    fn read(text: &[u8]) -> Option<Option<Suit>> {
        match text {
            [b'N'] => Some(None),
            [letter] => suit(*letter).map(Some),
            _ => None,
        }
    }
}

impl Spelled for Target {
    ghost Told = { ℕ };

    ghost told = { λ t. t.0 };

    ghost spells = { target_of };

    fn read(text: &[u8]) -> Option<Target> {
        match number(text) {
            Some(tricks @ 1..=13) => Some(Target(tricks)),
            _ => None,
        }
    }
}

impl Spelled for LayoutCount {
    ghost use Rattle.lines.specs.Counts.{listed};

    ghost Told = { ℕ };

    ghost told = { listed };

    ghost spells = { count_of };

    fn read(text: &[u8]) -> Option<LayoutCount> {
        match number(text) {
            Some(count @ 1..=6) => Some(LayoutCount {
                count: count as usize,
            }),
            _ => None,
        }
    }
}

/// A hand is 1 to 13 cards.
impl Spelled for CardSet {
    ghost Told = { ℕ };

    ghost told = { bits_of };

    ghost spells = { hand_of };

    fn read(text: &[u8]) -> Option<CardSet> {
        let hand = cards(text)?;
        match hand.len() {
            1..=13 => Some(hand),
            _ => None,
        }
    }
}
