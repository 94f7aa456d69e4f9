//! The policy that goes upwards.

ghost use Rattle.policies.specs.Policies.{lowest_ops};
ghost use Rattle.policies.specs.Laws.{lowest_laws};

use crate::{Policy, untaken};
use bitsets::BitSet;

/// Chooses the lowest untaken place, and keeps nothing.
// Stays beside Highest: a trait for the choice, with an impl for each of the two, would be longer than both files.
#[derive(Clone, Copy)]
pub struct Lowest;

impl Policy for Lowest {
    ghost Model = { Unit {0} };

    ghost model = { λ _. tt };

    ghost ops = { lowest_ops };

    ghost laws = { lowest_laws };

    fn choose(&self, depth: u32, taken: BitSet, children: u32) -> Option<u32> {
        untaken::lowest(taken, children)
    }

    fn notice(&mut self, depth: u32, place: u32) {}
}
