//! A table over places of its own.

ghost use Rattle.std.specs.Prelude.{◌≡◌, List, replicate, None, Option};
ghost use Rattle.tables.specs.declared.claim.Claim.{Claim};
ghost use Rattle.tables.specs.Places.{place_ops};
ghost use Rattle.tables.specs.Laws.{place_laws};

use crate::{Claim, Table, places};
use games::Key;

/// Keeps each claim at the one of its places that the claim's key has, over the claim that stood there.
#[derive(Drop)]
pub struct Held<const PLACES: usize> {
    places: [Option<Claim>; PLACES],
}

impl<const PLACES: usize> Held<PLACES> {
    /// The table that holds nothing.
    pub fn new() -> Held<PLACES>
        ensures { ⟦<Held<PLACES> as Table>⟧.model result ≡ replicate PLACES None }
    {
        Held {
            places: [None; PLACES],
        }
    }
}

impl<const PLACES: usize> Table for Held<PLACES> {
    ghost Model = { List (Option Claim) };

    ghost model = { λ s. s.places };

    ghost ops = { place_ops };

    ghost laws = { place_laws };

    fn ask(&self, key: Key) -> Option<Claim> {
        places::ask(&self.places, key)
    }

    fn put(&mut self, claim: Claim) {
        places::put(&mut self.places, claim)
    }

    fn clear(&mut self) {
        places::clear(&mut self.places)
    }
}
