//! What every sequence of calls is promised, whatever the game, the table and the policy.

ghost use Rattle.analyst.specs.Bounds.{PromiseOf};

use games::Game;
use lattice::Lattice;
use policies::Policy;
use tables::Table;

/// Take any calls in any order and number, those refused too, on one analyst. Every end answers a value exactly if a run
/// of its search said finished, the clamp of the plain value of the position where the search began; every search enters
/// at most as many positions as that position's tree has, and is finished once four steps are granted for each of them;
/// and every claim in the table is true.
pub fn holds<G: Game, T: Table, P: Policy>()
    ensures { PromiseOf G.Score.Lattice G.Game T.Table P.Policy }
{}
