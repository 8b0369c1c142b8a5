//! A plan, installed.
ghost use Rattle.edit_plan.specs.Plan.{IsPlanFor, facts_after};
ghost use Rattle.cube_state.specs.State.{HasFacts};

use crate::Plan;
use crate::plan_change::PlanChange;
use cell_weight::WeightPolicy;
use cube_state::State;

/// Does what a plan does. It takes no memory. The plan fits the state as it stands, as `plan` promises of the state that it
/// leaves, and `plan_all` of the state that it looks at.
pub fn install<P: WeightPolicy + Drop>(state: &mut State<P>, plan: Plan)
    requires { IsPlanFor P.weigh state.old plan }
    ensures { HasFacts (facts_after plan.change state.old.facts) state.old state.new }
{
    let Plan {
        change,
        count: _,
        lists,
    } = plan;
    drop(lists);
    match change {
        PlanChange::Edit { edit, sets, rows } => state.set(edit, sets, rows),
        PlanChange::All { new, all } => {
            drop(new);
            state.replace(Box::into_inner(all));
        }
    }
}
