//! The two sides of a game.

ghost use Rattle.std.specs.Prelude.{◌≡◌};

use lattice::Lattice;

/// Max moves to the join of what the children are worth, Min to their meet.
#[derive(Clone, Copy, PartialEq, Eq, Debug)]
pub enum Side {
    Max,
    Min,
}

impl Side {
    ghost use Rattle.games.specs.Evaluations.{at_first, chosen};

    /// What a turn of this side is worth before any child is looked at.
    pub fn start<S: Lattice>(self) -> S
        ensures { S.Lattice.stands result ≡ at_first S.Lattice.scoring self }
    {
        match self {
            Side::Max => S::bottom(),
            Side::Min => S::top(),
        }
    }

    /// What this side makes of two values.
    pub fn better<S: Lattice>(self, a: S, b: S) -> S
        ensures { S.Lattice.stands result ≡ chosen S.Lattice.scoring self (S.Lattice.stands a) (S.Lattice.stands b) }
    {
        match self {
            Side::Max => a.join(b),
            Side::Min => a.meet(b),
        }
    }
}
