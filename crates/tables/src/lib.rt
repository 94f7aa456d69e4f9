//! Tables: what a search remembers of positions that it has valued. A table may lose claims, but it holds none that was not put.

#![tactic(auto)]

ghost use Rattle.std.specs.Prelude.{◌≡◌, None, Option};
ghost use Rattle.games.specs.declared.key.Key.{Key};
ghost use Rattle.tables.specs.Tables.{TableOps, TableLaws, Remembered};

use games::Key;

pub mod claim;
pub mod direct;
pub mod empty;
pub mod front;
mod held;
mod places;

pub use claim::Claim;
pub use direct::Direct;
pub use empty::Empty;
pub use front::Front;

/// A table of claims. Its meaning is a model, with what it holds and answers, and what a put and a clear make of it.
pub trait Table: Sized {
    ghost Model: { Type 0 };

    ghost model: { Self → Model };

    ghost ops: { TableOps Model };

    ghost laws: { TableLaws ops };

    /// The claim that the table has for a key, if it has one. Asking changes nothing.
    fn ask(&self, key: Key) -> Option<Claim>
        ensures { result ≡ ops.answer (model self.now) key };

    /// Puts a claim; claims held before may go.
    fn put(&mut self, claim: Claim)
        ensures { model self.new ≡ ops.put (model self.old) claim };

    /// Drops every claim.
    fn clear(&mut self)
        ensures { model self.new ≡ ops.clear (model self.old) };
}

/// Puts a claim. Every answer is then a claim for the key asked, which the table held before or which is the new one.
fn remember<T: Table>(table: &mut T, claim: Claim)
    ensures leaves { T.Table.model table.new ≡ T.Table.ops.put (T.Table.model table.old) claim }
    ensures answers { (k : Key) → Remembered T.Table.ops (T.Table.model table.old) claim k (T.Table.ops.answer (T.Table.model table.new) k) }
{
    table.put(claim)
}

/// Clears a table. There is then no answer for any key.
fn forget<T: Table>(table: &mut T)
    ensures leaves { T.Table.model table.new ≡ T.Table.ops.clear (T.Table.model table.old) }
    ensures answers { (k : Key) → T.Table.ops.answer (T.Table.model table.new) k ≡ None }
{
    table.clear()
}

/// Puts a claim and asks for a key. Whatever the table, the answer is a claim for that key,
/// which the table held before or which is the new one.
pub fn put_then_ask<T: Table>(table: &mut T, claim: Claim, key: Key) -> Option<Claim>
    ensures value { result ≡ T.Table.ops.answer (T.Table.model table.new) key }
    ensures leaves { T.Table.model table.new ≡ T.Table.ops.put (T.Table.model table.old) claim }
    ensures sound { Remembered T.Table.ops (T.Table.model table.old) claim key result }
{
    remember(table, claim);
    table.ask(key)
}

/// Clears a table and asks for a key. Whatever the table, there is no answer.
pub fn clear_then_ask<T: Table>(table: &mut T, key: Key) -> Option<Claim>
    ensures value { result ≡ None }
    ensures leaves { T.Table.model table.new ≡ T.Table.ops.clear (T.Table.model table.old) }
{
    forget(table);
    table.ask(key)
}

#[cfg(test)]
mod tests {
    use super::{Claim, Direct, Empty, Front, Table};
    use games::Key;

    fn claim(first: u64) -> Claim {
        Claim {
            key: Key { first, second: 5 },
            lo: first % 5,
            hi: first % 7,
        }
    }

    // 3 and 35 have one place in a front; 3 and 10 have one among 7, and 3 and 64 among 61.
    #[test]
    fn front_over_empty(rt: HostRuntime) {
        let mut table = Front::new(Empty);
        table.put(claim(3));
        assert_eq!(rt; table.ask(claim(3).key), Some(claim(3)));
        table.put(claim(35));
        assert_eq!(rt; table.ask(claim(3).key), None);
        assert_eq!(rt; table.ask(claim(35).key), Some(claim(35)));
        table.clear();
        assert_eq!(rt; table.ask(claim(35).key), None);
    }

    #[test]
    fn front_over_seven_places(rt: HostRuntime) {
        let mut places = [None; 7];
        let mut table = Front::new(Direct::new(&mut places));
        table.put(claim(3));
        table.put(claim(35));
        assert_eq!(rt; table.ask(claim(3).key), Some(claim(3)));
        assert_eq!(rt; table.ask(claim(35).key), Some(claim(35)));
        table.put(claim(10));
        assert_eq!(rt; table.ask(claim(3).key), None);
    }

    #[test]
    fn front_over_sixty_one_places(rt: HostRuntime) {
        let mut places = [None; 61];
        let mut table = Front::new(Direct::new(&mut places));
        table.put(claim(3));
        table.put(claim(10));
        table.put(claim(35));
        assert_eq!(rt; table.ask(claim(3).key), Some(claim(3)));
        table.put(claim(64));
        assert_eq!(rt; table.ask(claim(3).key), None);
    }
}
