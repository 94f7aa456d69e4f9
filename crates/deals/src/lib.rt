//! Card play over the deal of a problem, and the two games that are played over it.

#![tactic(auto)]

pub mod aim;
pub mod card_game;
pub mod course;
pub mod plan_game;
pub mod plans;
pub mod state;
pub mod trick;
pub mod trick_game;
pub mod wrong;

pub use aim::Aim;
pub use card_game::CardGame;
pub use course::Course;
pub use plan_game::PlanGame;
pub use state::State;
pub use trick::Trick;
pub use trick_game::{MostTricks, TrickGame};
pub use wrong::WrongGoal;

#[cfg(test)]
mod tests {
    use super::{Aim, CardGame, MostTricks};
    use games::Game;
    use lattice::Lattice;
    use lines::{Target, read};
    use std::test::Fail;

    // The game of a line's problem, if the line is accepted and sets such an aim.
    fn game<A: Aim>(line: &[u8]) -> Option<CardGame<A>> {
        match read(line) {
            Ok(problem) => CardGame::new(problem).ok(),
            Err(_) => None,
        }
    }

    // Plays the legal card with the lowest code so many times; false where there is none.
    fn play_lowest<G: Game>(game: &mut G, times: u32) -> bool {
        (0..times).all(|_| game.play(0))
    }

    #[test]
    fn counts_tricks(rt: HostRuntime) -> Result<(), Fail> {
        let mut game = game::<MostTricks>(b"D,N,1,HASA,HKSK,HQSQ,HJSJ").ok_or("no game")?;
        assert!(rt; play_lowest(&mut game, 8));
        assert_eq!(rt; game.score().map(|score| score.code()), Some(2));
        Ok(())
    }

    #[test]
    fn makes_keys(rt: HostRuntime) -> Result<(), Fail> {
        let mut game = game::<MostTricks>(b"D,N,1,HASA,HKSK,HQSQ,HJSJ").ok_or("no game")?;
        assert!(rt; !game.take_back());
        assert!(rt; play_lowest(&mut game, 3));
        assert_eq!(rt; game.key().second, 3 + 4 * 37 + 256 * 36 + 16384 * 35);
        assert!(rt; game.play(0));
        assert_eq!(rt; game.key().first, 0xf << 48 | 1 << 54 | 1 << 58);
        Ok(())
    }

    #[test]
    fn beats_layouts(rt: HostRuntime) -> Result<(), Fail> {
        let mut game = game::<Target>(b"P,N,1,1,H2,H3,2,SA,SK,SK,SA").ok_or("no game")?;
        assert_eq!(rt; game.children(), 2);
        assert!(rt; play_lowest(&mut game, 4));
        let score = game.score().ok_or("no score")?;
        assert!(rt; score.holds(61) && !score.holds(2));
        Ok(())
    }
}
