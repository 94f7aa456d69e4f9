//! The policy that goes downwards.

ghost use Rattle.policies.specs.Policies.{highest_ops};
ghost use Rattle.policies.specs.Laws.{highest_laws};

use crate::{Policy, untaken};
use bitsets::BitSet;

/// Chooses the highest untaken place, and keeps nothing.
// Stays beside Lowest: a trait for the choice, with an impl for each of the two, would be longer than both files.
#[derive(Clone, Copy)]
pub struct Highest;

impl Policy for Highest {
    ghost Model = { Unit {0} };

    ghost model = { λ _. tt };

    ghost ops = { highest_ops };

    ghost laws = { highest_laws };

    fn choose(&self, depth: u32, taken: BitSet, children: u32) -> Option<u32> {
        untaken::highest(taken, children)
    }

    fn notice(&mut self, depth: u32, place: u32) {}
}
