//! Card play: whist tricks over one to six layouts, as definitions and theorems about them.
//! Each function here states a theorem by its contract.

#![tactic(auto)]

ghost use Rattle.std.specs.Prelude.{◌≡◌, true};
ghost use Rattle.cardplay.specs.Checked.{checked, every};
ghost use Rattle.cardplay.specs.PlanTheorem.{PlanTheorem};
ghost use Rattle.cardplay.specs.Winning.{WinnerTheorem, TrickTheorem};

/// The winner that is found in a trick is the highest trump or, with no trump there, the highest card of the suit led;
/// and so it is in every trick that play comes to.
pub fn winner_is_right()
    ensures alone { WinnerTheorem }
    ensures played { TrickTheorem }
{}

/// The plain value of a position of the plan game holds a set of layouts exactly when one plan makes the target in each.
pub fn value_tells_plans()
    ensures { PlanTheorem }
{}

/// The worked positions come out as they should.
pub fn worked_positions()
    ensures { every checked ≡ true }
{}
