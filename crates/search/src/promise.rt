//! What every search promises, whatever its game, its table and its policy.

ghost use Rattle.search.specs.Bounds.{PromiseOf};

use games::Game;
use lattice::Lattice;
use policies::Policy;
use tables::Table;

/// Each step keeps the invariant of a search, each bracket in hand and each claim put is true of its position,
/// a search comes to its end within four steps for each position, and its bracket then decides its window.
pub fn holds<G: Game, T: Table, P: Policy>()
    ensures { PromiseOf G.Score.Lattice T.Table P.Policy }
{}
