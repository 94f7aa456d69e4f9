//! The way back to where a search began.

ghost use Rattle.std.specs.Prelude.{◌≡◌, length};
ghost use Rattle.search.specs.Promises.{backs, plays as plays_since};
ghost use Rattle.search.specs.Bounds.{search_of, HomeOf};
ghost use Rattle.search.specs.Stacks.{frames};

use crate::engine::Engine;
use crate::frame::{Hand, Progress};
use crate::stack::SearchStack;
use games::Game;
use lattice::Lattice;
use policies::Policy;
use tables::Table;

/// The number of plays from where a search began to the present position.
fn plays<S: Lattice>(stack: &SearchStack<'_, S>, progress: &Progress<S>) -> u32
    ensures { result ≡ plays_since progress.now.hand (length (frames stack.now)) }
{
    match progress.hand {
        Hand::Enter(_) | Hand::Holding(_) => stack.len(),
        Hand::Nothing => stack.depth(),
    }
}

impl<G: Game, T: Table, P: Policy> Engine<G, T, P> {
    /// Takes back a number of plays, or as many as there are.
    fn take_back(&mut self, plays: u32)
        ensures game { G.Game.line self.new.game ≡ backs plays (G.Game.line self.old.game) }
        ensures table { self.new.table ≡ self.old.table }
        ensures policy { self.new.policy ≡ self.old.policy }
    {
        for _ in 0..plays {
            self.game.take_back();
        }
    }

    /// Takes back all the plays of a search, so that the game stands where the search began.
    pub fn rewind(&mut self, stack: &SearchStack<'_, G::Score>, progress: &Progress<G::Score>)
        ensures game { G.Game.line self.new.game
            ≡ backs (plays_since progress.now.hand (length (frames stack.now))) (G.Game.line self.old.game) }
        ensures home { HomeOf G.Score.Lattice T.Table (search_of G.Game T.Table P.Policy self.old stack.now progress.now)
            (G.Game.line self.new.game) }
        ensures table { self.new.table ≡ self.old.table }
        ensures policy { self.new.policy ≡ self.old.policy }
    {
        self.take_back(plays(stack, progress))
    }
}
