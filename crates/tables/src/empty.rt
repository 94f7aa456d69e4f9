//! The table that holds nothing.

ghost use Rattle.tables.specs.Tables.{empty_ops};
ghost use Rattle.tables.specs.Laws.{empty_laws};

use crate::{Claim, Table};
use games::Key;

/// A table that forgets what is put.
#[derive(Clone, Copy)]
pub struct Empty;

impl Table for Empty {
    ghost Model = { Unit {0} };

    ghost model = { λ _. tt };

    ghost ops = { empty_ops };

    ghost laws = { empty_laws };

    fn ask(&self, key: Key) -> Option<Claim> {
        None
    }

    fn put(&mut self, claim: Claim) {}

    fn clear(&mut self) {}
}
