//! Carrying a plan out.
ghost use Rattle.std.specs.Prelude.{◌≡◌, ◌++◌, ◌∷◌, [], None, IfOk, IfSome, IsTrue, OnErr, OnOk, option_map};
ghost use Rattle.edit_plan.specs.Plan.{IsPlanFor, facts_after};
ghost use Rattle.edit_plan.specs.declared.plan_lists.Detail.TheVariants as detail;
ghost use Rattle.cube_state.specs.State.{HasFacts};
ghost use Rattle.fact_keeper.specs.Batch.{apply_batch};
ghost use Rattle.fact_keeper.specs.Keeper.{CountsKeepFault, StaysOpen};

use cell_weight::WeightPolicy;
use cube_state::State;
use edit_plan::{Detail, Plan, PlanLists, install};
use fact_keeper::{KeepError, Keeper};

/// How much a plan must tell so that it can be carried out: a keeper that keeps nothing needs no lists. It takes no memory.
pub(crate) fn detail_for<K: Keeper>(keeper: &K) -> Detail
    ensures content { result ≡ detail.Number → (K.tells keeper.now).content ≡ None }
    ensures journal { result ≡ detail.Number → (K.tells keeper.now).journal ≡ None }
{
    if keeper.keeps() {
        Detail::Lists
    } else {
        Detail::Number
    }
}

/// Commits what a plan lists to the keeper, which must be open, as one batch, and then sets what was planned, which takes no
/// memory. Where the plan has no lists, nothing is committed. The lists are answered. On an error the state, and what the keeper
/// holds, are as they were.
pub(crate) fn carry_out<P: WeightPolicy + Drop, K: Keeper>(
    state: &mut State<P>,
    mut plan: Plan,
    keeper: &mut K,
) -> Result<Option<PlanLists>, KeepError>
    requires fits { IsPlanFor P.weigh state.old plan }
    requires open { IsTrue (K.tells keeper.old).is_open }
    ensures facts { OnOk result (HasFacts (facts_after plan.change state.old.facts) state.old state.new) }
    ensures lists { IfOk result (λ lists. lists ≡ plan.lists) }
    ensures content { OnOk result (IfSome plan.lists (λ lists. (K.tells keeper.new).content ≡ option_map (apply_batch lists.batch) (K.tells keeper.old).content)) }
    ensures journal { OnOk result (IfSome plan.lists (λ lists. (K.tells keeper.new).journal ≡ option_map (λ batches. batches ++ lists.batch ∷ []) (K.tells keeper.old).journal)) }
    ensures untouched { plan.lists ≡ None → K.tells keeper.new ≡ K.tells keeper.old }
    ensures stays_open { StaysOpen (K.tells keeper.old) (K.tells keeper.new) }
    ensures count { CountsKeepFault (K.tells keeper.old).faults (K.tells keeper.new).faults result }
    ensures same { OnErr result (state.new ≡ state.old) }
    ensures same_content { OnErr result ((K.tells keeper.new).content ≡ (K.tells keeper.old).content) }
    ensures same_journal { OnErr result ((K.tells keeper.new).journal ≡ (K.tells keeper.old).journal) }
{
    if let Err(fault) = commit(&plan, keeper) {
        drop(plan);
        return Err(fault);
    }
    let lists = plan.take_lists();
    install(state, plan);
    Ok(lists)
}

/// Commits what a plan lists, if it does.
fn commit<K: Keeper>(plan: &Plan, keeper: &mut K) -> Result<(), KeepError>
    requires open { IsTrue (K.tells keeper.old).is_open }
    ensures content { OnOk result (IfSome plan.now.lists (λ lists. (K.tells keeper.new).content ≡ option_map (apply_batch lists.batch) (K.tells keeper.old).content)) }
    ensures journal { OnOk result (IfSome plan.now.lists (λ lists. (K.tells keeper.new).journal ≡ option_map (λ batches. batches ++ lists.batch ∷ []) (K.tells keeper.old).journal)) }
    ensures untouched { plan.now.lists ≡ None → K.tells keeper.new ≡ K.tells keeper.old }
    ensures stays_open { StaysOpen (K.tells keeper.old) (K.tells keeper.new) }
    ensures count { CountsKeepFault (K.tells keeper.old).faults (K.tells keeper.new).faults result }
    ensures same_content { OnErr result ((K.tells keeper.new).content ≡ (K.tells keeper.old).content) }
    ensures same_journal { OnErr result ((K.tells keeper.new).journal ≡ (K.tells keeper.old).journal) }
{
    match plan.lists() {
        Some(lists) => keeper.commit(&lists.batch),
        None => Ok(()),
    }
}
