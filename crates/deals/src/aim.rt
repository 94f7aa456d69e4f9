//! What the players of a card game are after.

ghost use Rattle.std.specs.Prelude.{◌≡◌, Result};
ghost use Rattle.lines.specs.Deals.{Asked};
ghost use Rattle.lines.specs.Problems.{asked_by};
ghost use Rattle.cardplay.specs.Cards.{Play};
ghost use Rattle.deals.specs.declared.wrong.WrongGoal.{WrongGoal};
ghost use Rattle.deals.specs.Stands.{stand_of};

use crate::course::Course;
use crate::wrong::WrongGoal;
use lattice::Lattice;
use lines::Goal;

/// An aim that a problem can set: it says what is scored where all cards are played.
pub trait Aim: Sized + Copy {
    /// The score type.
    type Score: Lattice;

    // What the last state scores, and the aim that is set by what a problem asks.
    ghost worth: { Self → Play → Self.Score };

    ghost aimed: { Asked → Result Self WrongGoal };

    /// The aim that a goal sets; refused where it sets another.
    fn of(goal: Goal) -> Result<Self, WrongGoal>
        ensures { result ≡ aimed (asked_by goal) };

    /// What the present state scores as the last one.
    fn score(self, course: &Course) -> Self::Score
        ensures { result ≡ worth self (stand_of course.now).present };
}
