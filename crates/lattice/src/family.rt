//! Scores of the plan game: families of sets of layouts.
//! Layout i + 1 has the bit i in a set, and the set s has the bit s in a family.

ghost use Rattle.std.specs.Prelude.{◌≡◌, ◌+◌, ◌<◌, true, ◌↔◌, bit_and, bit_or};
ghost use Rattle.bitsets.specs.Sets.{has};
ghost use Rattle.lattice.specs.Scores.{standing};
ghost use Rattle.bitsets.specs.Families.{IsFamily, parts_below, without_one};
ghost use Rattle.lattice.specs.FamilyScores.{FamilyScore, family_scoring, family_of, subsets_of, AllParts};
ghost use Rattle.lattice.specs.FamilyLaws.{family_laws};

use crate::Lattice;
use bitsets::BitSet;

/// The sets that have each layout, layout 1 first.
const WITH: [u64; 6] = [
    0xaaaa_aaaa_aaaa_aaaa,
    0xcccc_cccc_cccc_cccc,
    0xf0f0_f0f0_f0f0_f0f0,
    0xff00_ff00_ff00_ff00,
    0xffff_0000_ffff_0000,
    0xffff_ffff_0000_0000,
];

/// The family of just the empty set.
const EMPTY: u64 = 1;

/// The sets of a family, each without one of its layouts.
#[tactic(auto, using(crate::proofs::FamilyMasks::one_more_less, crate::proofs::FamilyDoubling::layout_shift))]
fn lessened(sets: u64) -> u64
    ensures { result ≡ without_one sets 6 }
{
    let mut less = 0;
    for (layout, with) in WITH.iter().enumerate() {
        less |= (sets & *with) >> (1u8 << layout);
    }
    less
}

/// The parts of a set whose layouts are among those up to this one, from those whose layouts are below it:
/// if the set has the layout, each of them with it is one more.
#[tactic(auto, using(crate::proofs::FamilyDoubling::parts_with, crate::proofs::FamilyDoubling::parts_without, crate::proofs::FamilyDoubling::layout_shift))]
fn grown(parts: u64, set: u8, layout: u8) -> u64
    requires { (layout < 6) × (parts ≡ parts_below set layout) }
    ensures { result ≡ parts_below set (layout + 1) }
{
    if BitSet(set as u64).contains(layout as u32) {
        parts | parts << (1u8 << layout)
    } else {
        parts
    }
}

/// A family: it has the empty set and each part of a set that it has.
/// A number that is no family stands for the family of just the empty set.
#[derive(Clone, Copy)]
pub struct Family(pub u64);

impl Family {
    /// The value that stands for the score with this number.
    fn of(number: u64) -> Family
        ensures { (a : FamilyScore) → number ≡ a.number → family_of result ≡ a }
    {
        Family(number)
    }

    /// The sets of either family.
    fn union(self, other: Family) -> u64
        ensures { result ≡ bit_or (family_of self).number (family_of other).number }
    {
        self.code() | other.code()
    }

    /// The sets of both families.
    fn intersection(self, other: Family) -> u64
        ensures { result ≡ bit_and (family_of self).number (family_of other).number }
    {
        self.code() & other.code()
    }

    /// Whether the number is a family. It has to have the empty set, and each of its sets without any one layout.
    #[tactic(auto, using(crate::proofs::FamilyMasks::masks_test, crate::proofs::FamilyMasks::empty_test))]
    pub fn is_family(self) -> bool
        ensures { (result ≡ true) ↔ IsFamily self.0 }
    {
        self.0 & EMPTY == EMPTY && lessened(self.0) & !self.0 == 0
    }

    /// Whether the family has the set with this code; it has none from 64 on.
    pub fn holds(self, set: u8) -> bool
        ensures { result ≡ has (family_of self).number set }
    {
        BitSet(self.code()).contains(set as u32)
    }

    /// The family of all parts of a set of layouts, or none if the number is no set: the codes of sets are below 64.
    #[tactic(auto, unfolding(bitsets::specs::Families::parts_below))]
    pub fn subsets(set: u8) -> Option<Family>
        ensures score { standing family_of result ≡ subsets_of set }
        ensures parts { AllParts set result }
    {
        if set >= 64 {
            return None;
        }
        let mut parts = EMPTY;
        for layout in 0..6 {
            parts = grown(parts, set, layout);
        }
        Some(Family(parts))
    }
}

impl Lattice for Family {
    ghost Score = { FamilyScore };

    ghost scoring = { family_scoring };

    ghost stands = { family_of };

    ghost laws = { family_laws };

    fn bottom() -> Family {
        Family::of(EMPTY)
    }

    fn top() -> Family {
        Family::of(u64::MAX)
    }

    fn join(self, other: Family) -> Family {
        Family::of(self.union(other))
    }

    fn meet(self, other: Family) -> Family {
        Family::of(self.intersection(other))
    }

    fn at_or_below(self, other: Family) -> bool {
        let sets = other.code();
        self.code() | sets == sets
    }

    fn code(self) -> u64 {
        if self.is_family() { self.0 } else { EMPTY }
    }

    fn read(code: u64) -> Option<Family> {
        let family = Family(code);
        // Stays a branch: with `then_some` the proof does not split on the test, and does not close.
        if family.is_family() {
            Some(family)
        } else {
            None
        }
    }
}
