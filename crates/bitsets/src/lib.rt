//! Sets of numbers from 0 to 63, one bit of a word for each: cards, layouts and places of children are such numbers.

#![tactic(auto)]

ghost use Rattle.std.specs.Prelude.{◌≡◌, ℕ, ◌^◌, ◌<◌, ◌≤◌, false, not, ◌&&◌, ◌||◌, length, MatchOption, ◌==◌, bit_and, bit_or, nat_lt, slice_index};
ghost use Rattle.bitsets.specs.Sets.{has, members};

/// A set of numbers from 0 to 63: bit i of the word is set when i is a member.
/// In the contracts n is any bound of the members, such as 64: the word is then below 2^n.
#[derive(Clone, Copy, PartialEq, Eq, Debug)]
pub struct BitSet(pub u64);

impl BitSet {
    pub const EMPTY: BitSet = BitSet(0);

    /// Whether the set has a member; it has none from 64 on.
    pub fn contains(self, member: u32) -> bool
        ensures { result ≡ has self.0 member }
    {
        member < 64 && (self.0 >> member) & 1 == 1
    }

    /// The set with one member more; the same set where the number is 64 or above.
    #[tactic(auto, using(crate::proofs::Words::insert_has, crate::proofs::Words::insert_small))]
    pub fn with(self, member: u32) -> BitSet
        ensures members { (k : ℕ) → has result.0 k ≡ (has self.0 k || (k == member && nat_lt k 64)) }
        ensures bound { (n : ℕ) → self.0 < 2 ^ n → member < n → result.0 < 2 ^ n }
    {
        if member < 64 {
            BitSet(self.0 | (1 << member))
        } else {
            self
        }
    }

    /// The set without a member.
    #[tactic(auto, using(crate::proofs::Words::remove_has, crate::proofs::Words::remove_none, std::proofs::lemmas::Nat::and_le_l))]
    pub fn without(self, member: u32) -> BitSet
        ensures members { (k : ℕ) → has result.0 k ≡ (has self.0 k && not (k == member)) }
        ensures bound { result.0 ≤ self.0 }
    {
        if member < 64 {
            BitSet(self.0 & !(1 << member))
        } else {
            self
        }
    }

    /// The members of either set.
    #[tactic(auto, using(crate::proofs::Digits::has_or, std::proofs::lemmas::Nat::or_lt))]
    pub fn union(self, other: BitSet) -> BitSet
        ensures value { result.0 ≡ bit_or self.0 other.0 }
        ensures members { (k : ℕ) → has result.0 k ≡ (has self.0 k || has other.0 k) }
        ensures bound { (n : ℕ) → self.0 < 2 ^ n → other.0 < 2 ^ n → result.0 < 2 ^ n }
    {
        BitSet(self.0 | other.0)
    }

    /// The members of both sets.
    #[tactic(auto, using(crate::proofs::Digits::has_and))]
    pub fn intersection(self, other: BitSet) -> BitSet
        ensures value { result.0 ≡ bit_and self.0 other.0 }
        ensures members { (k : ℕ) → has result.0 k ≡ (has self.0 k && has other.0 k) }
        ensures bound { result.0 ≤ self.0 }
    {
        BitSet(self.0 & other.0)
    }

    /// Whether the set has no member.
    pub fn is_empty(self) -> bool
        ensures { result ≡ (self.0 == 0) }
    {
        self.0 == 0
    }

    /// The number of members.
    #[tactic(auto, using(crate::proofs::Members::members_length))]
    pub fn len(self) -> u32
        ensures { (n : ℕ) → self.0 < 2 ^ n → result ≡ length (members n self.0) }
    {
        self.0.count_ones()
    }

    /// The place of a member among the members in rising order, from 0: how many members are below it.
    #[tactic(auto, using(crate::proofs::Placed::member_fits, crate::proofs::Placed::one_shifted, crate::proofs::Placed::placed_within, crate::proofs::Placed::placed_at))]
    pub fn place(self, member: u32) -> Option<u32>
        ensures { MatchOption result (has self.0 member ≡ false)
            (λ p. ((n : ℕ) → self.0 < 2 ^ n → (p < length (members n self.0)) × (slice_index (members n self.0) p ≡ member))) }
    {
        if self.contains(member) {
            Some((self.0 & ((1 << member) - 1)).count_ones())
        } else {
            None
        }
    }

    /// The member at a place, in rising order from 0.
    pub fn nth(self, place: u32) -> Option<u32>
        ensures { MatchOption result ((n : ℕ) → self.0 < 2 ^ n → length (members n self.0) ≤ place)
            (λ m. ((n : ℕ) → self.0 < 2 ^ n → (place < length (members n self.0)) × (slice_index (members n self.0) place ≡ m) × (m < n))) }
    {
        let mut rest = self.0;
        for _passed in 0..place {
            if rest == 0 {
                return None;
            }
            rest &= rest - 1;
        }
        if rest == 0 {
            None
        } else {
            Some(rest.trailing_zeros())
        }
    }
}
