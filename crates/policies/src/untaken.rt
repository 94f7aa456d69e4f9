//! The untaken places below the number of children, and the lowest and the highest of them.

ghost use Rattle.std.specs.Prelude.{◌≡◌, ℕ};
ghost use Rattle.bitsets.specs.Sets.{has};
ghost use Rattle.policies.specs.Policies.{free, lowest_with, highest_with, LowestOf, HighestOf};

use bitsets::BitSet;

/// The places that may be chosen.
fn untaken(taken: BitSet, children: u32) -> BitSet
    ensures { (k : ℕ) → has result.0 k ≡ free taken.0 children k }
{
    if children == 0 || children > 64 {
        BitSet::EMPTY
    } else {
        BitSet(!taken.0 & (u64::MAX >> (64 - children)))
    }
}

/// Whether a place may be chosen.
pub fn is_free(place: u32, taken: BitSet, children: u32) -> bool
    ensures { result ≡ free taken.0 children place }
{
    untaken(taken, children).contains(place)
}

/// The lowest place that may be chosen.
// Stays beside `highest`: each counts zeros from its own end, and one function would take that count as a closure.
pub fn lowest(taken: BitSet, children: u32) -> Option<u32>
    ensures value { result ≡ lowest_with (free taken.0 children) children }
    ensures lowest { LowestOf (free taken.0 children) result }
{
    let places = untaken(taken, children);
    if places.is_empty() {
        None
    } else {
        Some(places.0.trailing_zeros())
    }
}

/// The highest place that may be chosen.
pub fn highest(taken: BitSet, children: u32) -> Option<u32>
    ensures value { result ≡ highest_with (free taken.0 children) children }
    ensures highest { HighestOf (free taken.0 children) result }
{
    let places = untaken(taken, children);
    if places.is_empty() {
        None
    } else {
        Some(63 - places.0.leading_zeros())
    }
}
