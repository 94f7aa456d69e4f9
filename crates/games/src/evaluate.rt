//! The plain value of a position, found by playing every line: a reference for tests and for small endings.

ghost use Rattle.std.specs.Prelude.{◌≡◌, ◌+◌, ◌<◌};
ghost use Rattle.games.specs.Trees.{children_of, count, child, plain, size};
ghost use Rattle.games.specs.Evaluations.{capped, at_first, chosen};

use crate::{Game, Side};
use lattice::Lattice;

/// What a position is worth, and how many positions its tree has.
#[derive(Clone, Copy)]
pub struct Evaluation<S: Lattice> {
    pub value: S,
    /// The number of positions, the first one too; the largest u64 where there are more.
    pub positions: u64,
}

impl<S: Lattice> Evaluation<S> {
    /// One position that is worth this score.
    fn single(value: S) -> Evaluation<S>
        ensures value { result.value ≡ value }
        ensures positions { result.positions ≡ 1 }
    {
        Evaluation {
            value,
            positions: 1,
        }
    }

    /// A turn of this side before any child is looked at.
    fn childless(side: Side) -> Evaluation<S>
        ensures value { S.Lattice.stands result.value ≡ at_first S.Lattice.scoring side }
        ensures positions { result.positions ≡ 1 }
    {
        Evaluation::single(side.start())
    }

    /// The same turn of this side with one more child.
    fn with_child(self, side: Side, child: Evaluation<S>) -> Evaluation<S>
        ensures value { S.Lattice.stands result.value ≡ chosen S.Lattice.scoring side (S.Lattice.stands child.value) (S.Lattice.stands self.value) }
        ensures positions { result.positions ≡ capped (self.positions + child.positions) }
    {
        Evaluation {
            value: side.better(child.value, self.value),
            positions: self.positions.saturating_add(child.positions),
        }
    }
}

/// Plays every line from the present position, and leaves the game as it was.
#[cycle(evaluate_evaluate_child)]
#[tactic(auto, using(crate::proofs::TakenIn::taken_in))]
pub fn evaluate<G: Game>(game: &mut G) -> Evaluation<G::Score>
    ensures value { G.Score.Lattice.stands result.value ≡ plain G.Score.Lattice.scoring G.Score.Lattice.stands (G.Game.line game.old).present }
    ensures positions { result.positions ≡ capped (size (G.Game.line game.old).present) }
    ensures same { G.Game.line game.new ≡ G.Game.line game.old }
{
    if let Some(score) = game.score() {
        return Evaluation::single(score);
    }
    // A position that is not over is a turn of a side.
    let Some(side) = game.side() else {
        return Evaluation::single(G::Score::bottom());
    };
    let mut found = Evaluation::childless(side);
    for place in (0..game.children()).rev() {
        found = found.with_child(side, evaluate_child(game, place));
    }
    found
}

/// The same from the child at a place.
#[cycle(evaluate_evaluate_child)]
#[tactic(auto, using(crate::proofs::Falls::lower))]
fn evaluate_child<G: Game>(game: &mut G, place: u32) -> Evaluation<G::Score>
    requires { place < count (children_of (G.Game.line game.old).present) }
    ensures value { G.Score.Lattice.stands result.value ≡ plain G.Score.Lattice.scoring G.Score.Lattice.stands (child (G.Game.line game.old).present place) }
    ensures positions { result.positions ≡ capped (size (child (G.Game.line game.old).present place)) }
    ensures same { G.Game.line game.new ≡ G.Game.line game.old }
{
    game.play(place);
    let evaluation = evaluate(game);
    game.take_back();
    evaluation
}
