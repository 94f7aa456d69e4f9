//! The trick game: how many tricks seats 0 and 2 make, all hands known.

ghost use Rattle.deals.specs.Scores.{tricks_won};
ghost use Rattle.deals.specs.Opened.{tricks_aimed};

use crate::aim::Aim;
use crate::card_game::CardGame;
use crate::course::Course;
use crate::wrong::WrongGoal;
use lattice::tricks::Tricks;
use lines::Goal;

/// The aim to win as many tricks as can be won.
#[derive(Clone, Copy, PartialEq, Eq, Debug)]
pub struct MostTricks;

/// The course of play of a problem that asks for tricks.
pub type TrickGame = CardGame<MostTricks>;

impl Aim for MostTricks {
    type Score = Tricks;

    ghost worth = { λ _. tricks_won };

    ghost aimed = { tricks_aimed };

    fn of(goal: Goal) -> Result<MostTricks, WrongGoal> {
        match goal {
            Goal::Tricks => Ok(MostTricks),
            Goal::Plan(_) => Err(WrongGoal::Plan),
        }
    }

    fn score(self, course: &Course) -> Tricks {
        Tricks(course.won())
    }
}
