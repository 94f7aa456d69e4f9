//! Games: what a search needs to know of one, by its meaning as a line of finite trees.

#![tactic(auto)]

ghost use Rattle.std.specs.Prelude.{◌≡◌};
ghost use Rattle.games.specs.Trees.{Line, Lawful, side_of, score_of, key_of, height_of, children_of, count, can_play, after_play, can_take_back, after_take_back};

use lattice::Lattice;

pub mod evaluate;
pub mod example;
pub mod key;
pub mod side;

pub use key::Key;
pub use side::Side;

/// A game in progress. Its meaning is the line of positions from the present one back to the loaded one.
pub trait Game: Sized {
    /// The score type that the game ends in.
    type Score: Lattice;

    ghost line: { Self → Line Self.Score };

    /// The side to move; none where the game is over.
    fn side(&self) -> Option<Side>
        ensures { result ≡ side_of (line self.now).present };

    /// The number of children of the present position.
    fn children(&self) -> u32
        ensures { result ≡ count (children_of (line self.now).present) };

    /// The score, where the game is over.
    fn score(&self) -> Option<Self::Score>
        ensures { result ≡ score_of (line self.now).present };

    /// The key by which a table knows the present position.
    fn key(&self) -> Key
        ensures { result ≡ key_of (line self.now).present };

    /// The height of the present position, which falls with each play.
    fn height(&self) -> u32
        ensures { result ≡ height_of (line self.now).present };

    /// Goes to the child at a place; false, and nothing changes, where there is none.
    // Stays a bool, here and below, as of a set's `insert`: there is one way to refuse, so it is the whole answer.
    fn play(&mut self, place: u32) -> bool
        ensures told { result ≡ can_play (line self.old) place }
        ensures goes { line self.new ≡ after_play (line self.old) place };

    /// Goes back to the position before; false, and nothing changes, at the loaded one.
    fn take_back(&mut self) -> bool
        ensures told { result ≡ can_take_back (line self.old) }
        ensures goes { line self.new ≡ after_take_back (line self.old) };

    ghost lawful: { (g : Self) → Lawful (line g) };
}

#[cfg(test)]
mod tests {
    use super::evaluate::evaluate;
    use super::example::Example;
    use super::{Game, Side};
    use lattice::Lattice;
    use lattice::tricks::Tricks;

    #[test]
    fn evaluates_the_example(rt: HostRuntime) {
        let mut game = Example::Start;
        let start = evaluate(&mut game);
        assert_eq!(rt; start.value.code(), 3);
        assert_eq!(rt; start.positions, 5);
        assert!(rt; game.play(1));
        let left = evaluate(&mut game);
        assert_eq!(rt; left.value.code(), 2);
        assert_eq!(rt; left.positions, 3);
    }

    #[test]
    fn chooses_by_side(rt: HostRuntime) {
        let lowest: Tricks = Side::Max.start();
        let highest: Tricks = Side::Min.start();
        assert_eq!(rt; lowest.code(), 0);
        assert_eq!(rt; highest.code(), 13);
        assert_eq!(rt; Side::Max.better(Tricks(4), Tricks(9)).code(), 9);
        assert_eq!(rt; Side::Min.better(Tricks(4), Tricks(9)).code(), 4);
    }
}
