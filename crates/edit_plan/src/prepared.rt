//! A plan.
ghost use Rattle.std.specs.Prelude.{◌≡◌};
ghost use Rattle.cube_state.specs.State.{withdrawn};

use crate::PlanLists;
use crate::plan_change::PlanChange;
use cube_model::Edit;
use std::marker::Model;

/// An edit that was judged and prepared, or all facts at once: how many facts it refreshes, their ids and what it changes in a store
/// where these were asked for, and what it will set in the state. It is installed by `install`.
#[derive(Drop)]
pub struct Plan {
    pub(crate) change: PlanChange,
    pub(crate) count: u64,
    pub(crate) lists: Option<PlanLists>,
}

impl Model for Plan {
    ghost use Rattle.edit_plan.specs.Plan.{PlanValue};

    ghost Value = { PlanValue };

    ghost view = { λ p. record {
      change = p.change;
      count = p.count;
      lists = p.lists;
    } };
}

impl Plan {
    ghost use Rattle.std.specs.Prelude.{◌≡◌, None};
    ghost use Rattle.std.specs.Option.{option_copied};
    ghost use Rattle.edit_plan.specs.Plan.{withdrawn_in};

    /// How many facts are new or have an allocation that changed. It takes no memory.
    pub fn count(&self) -> u64
        ensures { result ≡ self.now.count }
    {
        self.count
    }

    /// The ids of these facts, and what the plan changes in a store, where they were asked for. It takes no memory.
    pub fn lists(&self) -> Option<&PlanLists>
        ensures { option_copied result ≡ self.now.lists }
    {
        self.lists.as_ref()
    }

    /// The same, taken out of the plan, which has none then. It takes no memory.
    pub fn take_lists(&mut self) -> Option<PlanLists>
        ensures lists { result ≡ self.old.lists }
        ensures rest { self.new ≡ record self.old { lists = None } }
    {
        self.lists.take()
    }

    /// The id that the plan withdraws, if it is of an edit that withdraws one. It takes no memory.
    pub fn removed(&self) -> Option<u64>
        ensures { result ≡ withdrawn_in self.now.change }
    {
        match &self.change {
            PlanChange::Edit { edit, .. } => withdrawn_id(edit),
            PlanChange::All { .. } => None,
        }
    }
}

/// The id that an edit withdraws, if it withdraws one.
fn withdrawn_id(edit: &Edit) -> Option<u64>
    ensures { result ≡ withdrawn edit.now }
{
    match edit {
        Edit::Put(_) | Edit::Change(_) => None,
        Edit::Withdraw(id) => Some(*id),
    }
}
