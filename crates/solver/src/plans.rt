//! What the value of a plan game says of plans.

ghost use Rattle.solver.specs.PlanCalls.{PlanPromise};

use policies::Policy;
use tables::Table;

/// Take any calls in any order and number, those refused too, on an analyst of plan games. The value that an end answers
/// of a search with the whole window holds a set of layouts exactly when one plan, from the position where the search
/// began, makes the target in each of them.
pub fn value_tells_plans<T: Table, P: Policy>()
    ensures { PlanPromise T.Table.ops P.Policy.ops }
{}
