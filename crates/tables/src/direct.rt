//! A table over places that the caller lends.

ghost use Rattle.std.specs.Prelude.{◌≡◌, List, Option};
ghost use Rattle.tables.specs.declared.claim.Claim.{Claim};
ghost use Rattle.tables.specs.Places.{place_ops};
ghost use Rattle.tables.specs.Laws.{place_laws};

use crate::{Claim, Table, places};
use games::Key;

/// Keeps each claim at the one place that its key has among those lent, over the claim that stood there.
/// With no places it holds nothing. A prime number of places serves best.
#[derive(Drop)]
pub struct Direct<'a> {
    places: &'a mut [Option<Claim>],
}

impl<'a> Direct<'a> {
    /// The table of the claims that stand in the places.
    pub fn new(places: &'a mut [Option<Claim>]) -> Direct<'a>
        ensures { ⟦<Direct<'a> as Table>⟧.model result ≡ places.old }
    {
        Direct { places }
    }
}

impl<'a> Table for Direct<'a> {
    ghost Model = { List (Option Claim) };

    ghost model = { λ s. s.places.now };

    ghost ops = { place_ops };

    ghost laws = { place_laws };

    fn ask(&self, key: Key) -> Option<Claim> {
        places::ask(self.places, key)
    }

    fn put(&mut self, claim: Claim) {
        places::put(self.places, claim)
    }

    fn clear(&mut self) {
        places::clear(self.places)
    }
}
