//! What a set of cards tells, and the sets that are made of it.

ghost use Rattle.std.specs.Prelude.{◌≡◌, ℕ, ◌/◌, ◌^◌, ◌<◌, ◌≤◌, false, not, ◌&&◌, ◌||◌, length, MatchOption, ◌==◌, bit_and, bit_or, slice_index};
ghost use Rattle.bitsets.specs.Sets.{has, members};
ghost use Rattle.cards.specs.Codes.{suit_code, card_code, suit_cards};
ghost use Rattle.cards.specs.Numbers.{bits_of};

use crate::card::{Card, Suit};
use crate::set::CardSet;
use bitsets::BitSet;

impl CardSet {
    pub const EMPTY: CardSet = CardSet { bits: 0 };

    /// The set as a number: the sum of 2^c over the codes c of its cards.
    pub fn bits(self) -> u64
        ensures value { result ≡ bits_of self }
        ensures bound { result < 2 ^ 52 }
    {
        self.bits
    }

    /// Whether the set has a card.
    pub fn contains(self, card: Card) -> bool
        ensures { result ≡ has (bits_of self) (card_code card) }
    {
        BitSet(self.bits).contains(u8::from(card) as u32)
    }

    /// The set with one card more.
    pub fn with(self, card: Card) -> CardSet
        ensures members { (k : ℕ) → has (bits_of result) k ≡ (has (bits_of self) k || k == card_code card) }
        ensures bound { bits_of result < 2 ^ 52 }
    {
        CardSet {
            bits: BitSet(self.bits).with(u8::from(card) as u32).0,
        }
    }

    /// The set without a card.
    pub fn without(self, card: Card) -> CardSet
        ensures members { (k : ℕ) → has (bits_of result) k ≡ (has (bits_of self) k && not (k == card_code card)) }
        ensures bound { bits_of result < 2 ^ 52 }
    {
        CardSet {
            bits: BitSet(self.bits).without(u8::from(card) as u32).0,
        }
    }

    /// The cards of either set.
    #[tactic(auto, using(crate::proofs::Sets::union_small))]
    pub fn union(self, other: CardSet) -> CardSet
        ensures value { bits_of result ≡ bit_or (bits_of self) (bits_of other) }
        ensures members { (k : ℕ) → has (bits_of result) k ≡ (has (bits_of self) k || has (bits_of other) k) }
        ensures bound { bits_of result < 2 ^ 52 }
    {
        CardSet {
            bits: BitSet(self.bits).union(BitSet(other.bits)).0,
        }
    }

    /// The cards of both sets.
    pub fn intersection(self, other: CardSet) -> CardSet
        ensures value { bits_of result ≡ bit_and (bits_of self) (bits_of other) }
        ensures members { (k : ℕ) → has (bits_of result) k ≡ (has (bits_of self) k && has (bits_of other) k) }
        ensures bound { bits_of result < 2 ^ 52 }
    {
        CardSet {
            bits: BitSet(self.bits).intersection(BitSet(other.bits)).0,
        }
    }

    /// All cards of a suit.
    #[tactic(auto, using(crate::proofs::Sets::has_suit))]
    pub fn suit(suit: Suit) -> CardSet
        ensures value { bits_of result ≡ suit_cards (suit_code suit) }
        ensures members { (k : ℕ) → has (bits_of result) k ≡ (k / 13 == suit_code suit) }
        ensures bound { bits_of result < 2 ^ 52 }
    {
        CardSet {
            bits: 0x1fff << (13 * u8::from(suit)),
        }
    }

    /// The cards of the set that are of a suit.
    pub fn of_suit(self, suit: Suit) -> CardSet
        ensures value { bits_of result ≡ bit_and (bits_of self) (suit_cards (suit_code suit)) }
        ensures members { (k : ℕ) → has (bits_of result) k ≡ (has (bits_of self) k && k / 13 == suit_code suit) }
        ensures bound { bits_of result < 2 ^ 52 }
    {
        self.intersection(CardSet::suit(suit))
    }

    /// Whether the set has no card.
    pub fn is_empty(self) -> bool
        ensures { result ≡ (bits_of self == 0) }
    {
        self.bits == 0
    }

    /// The number of cards.
    pub fn len(self) -> u32
        ensures value { result ≡ length (members 52 (bits_of self)) }
        ensures bound { bits_of self < 2 ^ 52 }
    {
        BitSet(self.bits).len()
    }

    /// The place of a card among the cards of the set in rising code, from 0.
    pub fn place(self, card: Card) -> Option<u32>
        ensures { MatchOption result (has (bits_of self) (card_code card) ≡ false)
            (λ n. (n < length (members 52 (bits_of self))) × (slice_index (members 52 (bits_of self)) n ≡ card_code card)) }
    {
        BitSet(self.bits).place(u8::from(card) as u32)
    }

    /// The card at a place, in rising code from 0.
    pub fn nth(self, place: u32) -> Option<Card>
        ensures { MatchOption result (length (members 52 (bits_of self)) ≤ place)
            (λ c. (place < length (members 52 (bits_of self))) × (slice_index (members 52 (bits_of self)) place ≡ card_code c)) }
    {
        let code = BitSet(self.bits).nth(place)?;
        Card::try_from(code as u8).ok()
    }
}
