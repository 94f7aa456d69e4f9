//! What a plan can make: the plan theorem on the value that is found.

ghost use Rattle.std.specs.Prelude.{◌≡◌};
ghost use Rattle.lattice.specs.FamilyScores.{family_of};
ghost use Rattle.games.specs.Trees.{size};
ghost use Rattle.games.specs.Evaluations.{capped};
ghost use Rattle.cardplay.specs.PlanScores.{plan_family};
ghost use Rattle.deals.specs.Plans.{Beaten};
ghost use Rattle.deals.specs.Games.{game_stand};
ghost use Rattle.deals.specs.PlanGames.{target_of, plan_line};

use crate::plan_game::PlanGame;
use games::evaluate::{Evaluation, evaluate};
use lattice::family::Family;

/// The family of the sets of layouts that one plan beats from the present position: it holds a set exactly when one
/// plan makes the target in each of the set's layouts. It is found by playing every line, and the game is left as it was.
pub fn beaten_sets(game: &mut PlanGame) -> Evaluation<Family>
    ensures value { family_of result.value ≡ plan_family (game_stand game.old).deal (target_of game.old) (game_stand game.old).present }
    ensures plans { Beaten (game_stand game.old) (target_of game.old) (family_of result.value) }
    ensures positions { result.positions ≡ capped (size (plan_line game.old).present) }
    ensures same { plan_line game.new ≡ plan_line game.old }
{
    evaluate(game)
}
