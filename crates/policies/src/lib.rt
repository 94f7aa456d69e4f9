//! Policies: which child of a position a search takes next. Whatever the policy, the search gives the same value; a good one makes it short.

#![tactic(auto)]

ghost use Rattle.std.specs.Prelude.{◌≡◌};
ghost use Rattle.policies.specs.Policies.{PolicyOps, PolicyLaws, Chosen, free};

use bitsets::BitSet;

pub mod highest;
pub mod lowest;
pub mod recent;
mod untaken;

pub use highest::Highest;
pub use lowest::Lowest;
pub use recent::Recent;

/// A policy. Its meaning is a model, with what it chooses, and what a notice makes of it.
pub trait Policy: Sized {
    ghost Model: { Type 0 };

    ghost model: { Self → Model };

    ghost ops: { PolicyOps Model };

    ghost laws: { PolicyLaws ops };

    /// The place of the child to take next, from the depth, the places taken and the number of children.
    /// It is an untaken place below that number, or none if all are taken; none too where the number is not from 1 to 64.
    /// Choosing changes nothing.
    fn choose(&self, depth: u32, taken: BitSet, children: u32) -> Option<u32>
        ensures { result ≡ ops.choose (model self.now) depth taken.0 children };

    /// Tells the policy that the child at a place closed its parent, at this depth, by a cut.
    fn notice(&mut self, depth: u32, place: u32)
        ensures { model self.new ≡ ops.notice (model self.old) depth place };
}

/// The place to take next. Whatever the policy, it is untaken and below the number of children, which is from 1 to 64;
/// there is none only where no such place is.
pub fn next<P: Policy>(policy: &P, depth: u32, taken: BitSet, children: u32) -> Option<u32>
    ensures value { result ≡ P.Policy.ops.choose (P.Policy.model policy.now) depth taken.0 children }
    ensures chosen { Chosen (free taken.0 children) result }
{
    policy.choose(depth, taken, children)
}

#[cfg(test)]
mod tests {
    use super::{Highest, Lowest, Policy, Recent};
    use bitsets::BitSet;

    // The bits 0 and 3.
    const TAKEN: BitSet = BitSet(9);

    #[test]
    fn recent_over_lowest(rt: HostRuntime) {
        let mut policy = Recent::new(Lowest);
        assert_eq!(rt; policy.choose(2, TAKEN, 4), Some(1));
        policy.notice(2, 2);
        policy.notice(64, 2);
        assert_eq!(rt; policy.choose(2, TAKEN, 4), Some(2));
        assert_eq!(rt; policy.choose(3, TAKEN, 4), Some(1));
        assert_eq!(rt; policy.choose(64, TAKEN, 4), Some(1));
        assert_eq!(rt; policy.choose(2, TAKEN, 2), Some(1));
    }

    #[test]
    fn recent_over_highest(rt: HostRuntime) {
        let mut policy = Recent::new(Highest);
        assert_eq!(rt; policy.choose(2, TAKEN, 4), Some(2));
        policy.notice(2, 3);
        assert_eq!(rt; policy.choose(2, TAKEN, 4), Some(2));
        assert_eq!(rt; policy.choose(2, BitSet(0), 64), Some(3));
        assert_eq!(rt; policy.choose(5, BitSet(0), 64), Some(63));
        assert_eq!(rt; policy.choose(5, BitSet(15), 4), None);
        assert_eq!(rt; policy.choose(5, BitSet(0), 65), None);
    }
}
