//! The policy that comes back to what served before.

ghost use Rattle.std.specs.Prelude.{◌≡◌, replicate, None};
ghost use Rattle.policies.specs.Policies.{Layered, last_at, noted, recent_ops};
ghost use Rattle.policies.specs.Laws.{recent_laws};

use crate::{Policy, untaken};
use bitsets::BitSet;

/// The place last noticed at each depth from 0 to 63.
#[derive(Drop)]
struct Noticed {
    places: [Option<u32>; 64],
}

impl Noticed {
    fn new() -> Noticed
        ensures { result.places ≡ replicate 64 None }
    {
        Noticed { places: [None; 64] }
    }

    fn at(&self, depth: u32) -> Option<u32>
        ensures { result ≡ last_at self.now.places depth }
    {
        *self.places.get(depth as usize)?
    }

    fn keep(&mut self, depth: u32, place: u32)
        ensures { self.new.places ≡ noted self.old.places depth place }
    {
        // Stays a test of the depth: through get_mut the proof did not close.
        if depth < 64 {
            self.places[depth as usize] = Some(place);
        }
    }
}

/// Chooses the place last noticed at the depth, if it may be chosen, and else what the policy below chooses.
/// It keeps a notice at depths 0 to 63, over the one before, and hands every notice on.
#[derive(Drop)]
pub struct Recent<P: Policy> {
    noticed: Noticed,
    below: P,
}

impl<P: Policy> Recent<P> {
    ghost use Rattle.policies.specs.Recents.{below_of};

    /// A policy that has noticed nothing yet.
    pub fn new(below: P) -> Recent<P>
        ensures meaning { ⟦<Recent<P> as Policy>⟧.model result ≡ record { noticed = replicate 64 None; below = P.Policy.model below } }
        ensures below { below_of result ≡ below }
    {
        Recent {
            noticed: Noticed::new(),
            below,
        }
    }
}

impl<P: Policy> Policy for Recent<P> {
    ghost Model = { Layered P.Policy.Model };

    ghost model = { λ s. record { noticed = s.noticed.places; below = P.Policy.model s.below } };

    ghost ops = { recent_ops P.Policy.ops };

    ghost laws = { recent_laws P.Policy.ops P.Policy.laws };

    fn choose(&self, depth: u32, taken: BitSet, children: u32) -> Option<u32> {
        self.noticed
            .at(depth)
            .filter(|place| untaken::is_free(*place, taken, children))
            .or_else(|| self.below.choose(depth, taken, children))
    }

    fn notice(&mut self, depth: u32, place: u32) {
        self.noticed.keep(depth, place);
        self.below.notice(depth, place);
    }
}
