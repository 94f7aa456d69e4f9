//! A small table in front of another.

ghost use Rattle.std.specs.Prelude.{◌≡◌, List, replicate, None, Option};
ghost use Rattle.tables.specs.declared.claim.Claim.{Claim};
ghost use Rattle.tables.specs.Tables.{Layered, layered_ops};
ghost use Rattle.tables.specs.Places.{place_ops};
ghost use Rattle.tables.specs.Laws.{place_laws, layered_laws};

use crate::held::Held;
use crate::{Claim, Table};
use games::Key;

/// Keeps each claim in the table below and at a place of its own as well, and answers from its own places first.
#[derive(Drop)]
pub struct Front<T: Table> {
    own: Held<32>,
    below: T,
}

impl<T: Table> Front<T> {
    ghost use Rattle.tables.specs.Fronts.{below_of};

    /// A front whose own places are empty.
    pub fn new(below: T) -> Front<T>
        ensures meaning { ⟦<Front<T> as Table>⟧.model result ≡ record { own = replicate 32 None; below = T.Table.model below } }
        ensures below { below_of result ≡ below }
    {
        Front {
            own: Held::new(),
            below,
        }
    }
}

impl<T: Table> Table for Front<T> {
    ghost Model = { Layered (List (Option Claim)) T.Table.Model };

    ghost model = { λ s. record { own = ⟦<Held<32> as Table>⟧.model s.own; below = T.Table.model s.below } };

    ghost ops = { layered_ops place_ops T.Table.ops };

    ghost laws = { layered_laws place_ops T.Table.ops place_laws T.Table.laws };

    fn ask(&self, key: Key) -> Option<Claim> {
        self.own.ask(key).or_else(|| self.below.ask(key))
    }

    fn put(&mut self, claim: Claim) {
        self.own.put(claim);
        self.below.put(claim);
    }

    fn clear(&mut self) {
        self.own.clear();
        self.below.clear();
    }
}
