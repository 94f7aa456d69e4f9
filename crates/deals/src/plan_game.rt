//! The plan game: the sets of layouts in each of which one plan of seats 0 and 2 makes a target.

ghost use Rattle.deals.specs.Scores.{sets_made};
ghost use Rattle.deals.specs.Opened.{plan_aimed};

use crate::aim::Aim;
use crate::card_game::CardGame;
use crate::course::Course;
use crate::wrong::WrongGoal;
use lattice::Lattice;
use lattice::family::Family;
use lines::{Goal, Target};

/// The course of play of a problem that asks for a plan, and the tricks that the plan has to make.
pub type PlanGame = CardGame<Target>;

/// Every set of layouts.
const ALL: Family = Family(u64::MAX);

// The family of all sets of layouts if the target is won, else of those without a live layout.
impl Aim for Target {
    type Score = Family;

    ghost worth = { λ t. sets_made t.0 };

    ghost aimed = { plan_aimed };

    fn of(goal: Goal) -> Result<Target, WrongGoal> {
        match goal {
            Goal::Tricks => Err(WrongGoal::Tricks),
            Goal::Plan(target) => Ok(target),
        }
    }

    fn score(self, course: &Course) -> Family {
        if self.0 <= course.won() {
            return ALL;
        }
        let family = Family::subsets(63 - course.live().0 as u8).unwrap();
        Family(family.code())
    }
}
