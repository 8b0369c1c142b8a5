//! New facts, planned all at once.
ghost use Rattle.std.specs.Prelude.{◌≡◌, ◌++◌, ◌∷◌, ◌≤◌, [], true, Some, IfErr, IfOk, OnOk, length, option_map};
ghost use Rattle.std.specs.Option.{option_copied};
ghost use Rattle.cube_model.specs.Allocation.{allocation, row_count};
ghost use Rattle.cube_model.specs.Ascending.{ascends_from};
ghost use Rattle.cube_model.specs.Limits.{MAX_ROWS};
ghost use Rattle.fact_records.specs.New.{AreNew};
ghost use Rattle.region_algebra.specs.Space.{IsRegion, code_of};
ghost use Rattle.staged_map.specs.Staged.{value_at};
ghost use Rattle.cube_state.specs.Sets.{AreAllFor};
ghost use Rattle.edit_plan.specs.Plan.{IsPlanFor, facts_after, lists_for, new_in};
ghost use Rattle.cube_state.specs.State.{policy_in};
ghost use Rattle.edit_plan.specs.Whole.{IsAllFaultOf, batch_otherwise, difference_with, facts_with_new, ids_otherwise, lay_so, new_kept, refreshed_by, rows_otherwise, rows_with_new};

use crate::plan_change::PlanChange;
use crate::spread::is_same_spread;
use crate::storing::kept_fact;
use crate::{Detail, Plan, PlanAllFault, PlanLists, Refreshed};
use alloc_rows::Alloc;
use cell_weight::WeightPolicy;
use cube_base::{Ids, Memory};
use cube_model::Fact;
use cube_state::State;
use fact_indexes::FactsKept;
use fact_keeper::{Batch, KeptFacts, KeptRowsList};
use fact_records::FactRun;
use std::alloc::Global;
use std::snapshot::Snapshot;

/// Prepares that all of the facts are put, so that this can be installed without memory. In their order, each must be one that a put
/// accepts over the state's facts and those before it, the number of rows aside. All that is kept of the facts is made anew, with one
/// spread for each region that facts have. `Rows` is answered where they would have more than 2^21 rows, with their number, unless
/// it is out of memory. The plan tells how many facts are new or have an allocation that changed. It lists these, and what changes
/// in a store, where the detail asks for it, and makes no list where not.
pub fn plan_all<P: WeightPolicy + Drop>(
    alloc: Global,
    state: &State<P>,
    facts: &FactRun,
    detail: Detail,
) -> Result<Plan, PlanAllFault>
    requires { AreNew state.now.shape state.now.dims state.now.facts facts.now }
    ensures new { IfOk result (λ plan. new_in plan.change ≡ Some facts.now) }
    ensures facts { IfOk result (λ plan. facts_after plan.change state.now.facts ≡ facts_with_new state.now facts.now) }
    ensures fits { IfOk result (IsPlanFor P.weigh state.now) }
    ensures count { IfOk result (λ plan. plan.count ≡ length (refreshed_by P.weigh state.now facts.now)) }
    ensures lists { IfOk result (λ plan. plan.lists ≡ lists_for detail (refreshed_by P.weigh state.now facts.now) (difference_with (policy_in P.weigh state.now) state.now.dims facts.now state.now.facts)) }
    ensures ascending { OnOk result (ascends_from (λ id. id) 1 (refreshed_by P.weigh state.now facts.now) ≡ true) }
    ensures accepted { OnOk result (row_count (rows_with_new P.weigh state.now facts.now) ≤ MAX_ROWS) }
    ensures fault { IfErr result (IsAllFaultOf P.weigh state.now facts.now) }
{
    let _ = state.facts();
    let all = state.kept_with(facts.as_slice())?;
    let (count, lists) = match tell_all(alloc, state, &all, detail) {
        Ok(told) => told,
        Err(fault) => {
            drop(all);
            return Err(PlanAllFault::from(fault));
        }
    };
    let all = match in_box(alloc, all) {
        Ok(all) => all,
        Err(fault) => {
            drop(lists);
            return Err(PlanAllFault::from(fault));
        }
    };
    Ok(Plan {
        change: PlanChange::All {
            new: Snapshot::of(facts),
            all,
        },
        count,
        lists,
    })
}

/// What is kept, in a box: so the plan of an edit needs no room for it.
fn in_box(alloc: Global, all: FactsKept) -> Result<Box<FactsKept>, Memory>
    ensures { IfOk result (λ boxed. boxed.value ≡ all) }
{
    Ok(Box::new(alloc, all)?)
}

/// How many of all facts are new or have an allocation that changed, and the lists of a plan, where the detail asks for them.
fn tell_all<P: WeightPolicy + Drop>(
    alloc: Global,
    state: &State<P>,
    all: &FactsKept,
    detail: Detail,
) -> Result<(u64, Option<PlanLists>), Memory>
    requires { AreAllFor P.weigh state.now all.now }
    ensures count { IfOk result (λ told. told.0 ≡ length (ids_otherwise (policy_in P.weigh state.now) state.now.dims state.now.facts all.now.facts.facts all.now.facts.facts)) }
    ensures lists { IfOk result (λ told. told.1 ≡ lists_for detail (ids_otherwise (policy_in P.weigh state.now) state.now.dims state.now.facts all.now.facts.facts all.now.facts.facts) (batch_otherwise (policy_in P.weigh state.now) state.now.dims state.now.facts all.now.facts.facts)) }
{
    match detail {
        Detail::Number => Ok((count_all(state, all), None)),
        Detail::Lists => {
            let lists = list_all(alloc, state, all)?;
            Ok((lists.refreshed.as_slice().len() as u64, Some(lists)))
        }
    }
}

/// How many of all facts are new or have an allocation that changed. It takes no memory.
fn count_all<P: WeightPolicy + Drop>(state: &State<P>, all: &FactsKept) -> u64
    requires { AreAllFor P.weigh state.now all.now }
    ensures { result ≡ length (ids_otherwise (policy_in P.weigh state.now) state.now.dims state.now.facts all.now.facts.facts all.now.facts.facts) }
{
    let _ = state.facts();
    let mut count = 0;
    for fact in all.facts.iter() {
        count += count_one(state, all, &fact);
    }
    count
}

/// One, where one of all facts is new or its allocation changed, and else none.
fn count_one<P: WeightPolicy + Drop>(state: &State<P>, all: &FactsKept, fact: &Fact) -> u64
    requires region { IsRegion state.now.dims fact.now.region }
    requires spread { option_map (λ g. g.spread) (value_at all.now.groups (code_of state.now.dims fact.now.region)) ≡ Some (allocation (policy_in P.weigh state.now) state.now.dims all.now.facts.facts fact.now) }
    ensures count { result ≡ length (ids_otherwise (policy_in P.weigh state.now) state.now.dims state.now.facts all.now.facts.facts (fact.now ∷ [])) }
    ensures few { result ≤ 1 }
{
    if lay_so(state, fact.id, spread_of(state, all, fact)) {
        0
    } else {
        1
    }
}

/// Of all facts the ids of those that are new or whose allocation changed, and what they change in a store.
fn list_all<P: WeightPolicy + Drop>(
    alloc: Global,
    state: &State<P>,
    all: &FactsKept,
) -> Result<PlanLists, Memory>
    requires { AreAllFor P.weigh state.now all.now }
    ensures refreshed { IfOk result (λ lists. lists.refreshed ≡ ids_otherwise (policy_in P.weigh state.now) state.now.dims state.now.facts all.now.facts.facts all.now.facts.facts) }
    ensures batch { IfOk result (λ lists. lists.batch ≡ batch_otherwise (policy_in P.weigh state.now) state.now.dims state.now.facts all.now.facts.facts) }
{
    let Refreshed { ids, rows } = refreshed_among(alloc, state, all)?;
    let facts = new_among(alloc, state, all)?;
    Ok(PlanLists {
        refreshed: ids,
        batch: Batch {
            schema: None,
            gone: Ids::new(alloc),
            facts,
            rows,
        },
    })
}

/// Of all facts those that are new or whose allocation changed, in order.
fn refreshed_among<P: WeightPolicy + Drop>(
    alloc: Global,
    state: &State<P>,
    all: &FactsKept,
) -> Result<Refreshed, Memory>
    requires { AreAllFor P.weigh state.now all.now }
    ensures ids { IfOk result (λ r. r.ids ≡ ids_otherwise (policy_in P.weigh state.now) state.now.dims state.now.facts all.now.facts.facts all.now.facts.facts) }
    ensures rows { IfOk result (λ r. r.rows ≡ rows_otherwise (policy_in P.weigh state.now) state.now.dims state.now.facts all.now.facts.facts all.now.facts.facts) }
{
    let _ = state.facts();
    let mut refreshed = Refreshed {
        ids: Ids::new(alloc),
        rows: KeptRowsList::new(alloc),
    };
    for fact in all.facts.iter() {
        refresh(state, all, &fact, &mut refreshed)?;
    }
    Ok(refreshed)
}

/// Holds one of all facts, where it is new or its allocation changed.
fn refresh<P: WeightPolicy + Drop>(
    state: &State<P>,
    all: &FactsKept,
    fact: &Fact,
    refreshed: &mut Refreshed,
) -> Result<(), Memory>
    requires region { IsRegion state.now.dims fact.now.region }
    requires spread { option_map (λ g. g.spread) (value_at all.now.groups (code_of state.now.dims fact.now.region)) ≡ Some (allocation (policy_in P.weigh state.now) state.now.dims all.now.facts.facts fact.now) }
    ensures ids { OnOk result (refreshed.new.ids ≡ refreshed.old.ids ++ ids_otherwise (policy_in P.weigh state.now) state.now.dims state.now.facts all.now.facts.facts (fact.now ∷ [])) }
    ensures rows { OnOk result (refreshed.new.rows ≡ refreshed.old.rows ++ rows_otherwise (policy_in P.weigh state.now) state.now.dims state.now.facts all.now.facts.facts (fact.now ∷ [])) }
{
    let spread = spread_of(state, all, fact);
    if lay_so(state, fact.id, spread) {
        return Ok(());
    }
    refreshed.hold(fact.id, spread)
}

/// Whether the fact of an id is there, and is spread so.
fn lay_so<P: WeightPolicy + Drop>(state: &State<P>, id: u64, spread: &Alloc) -> bool
    ensures { result ≡ lay_so (policy_in P.weigh state.now) state.now.dims state.now.facts id spread.now }
{
    let _ = state.facts();
    match state.fact(id) {
        Some(fact) => { is_same_spread(state.spread_at(state.code(fact.region)), Some(spread)) }
        None => false,
    }
}

/// Of all facts those whose ids are not there, in order, as they are kept.
fn new_among<P: WeightPolicy + Drop>(
    alloc: Global,
    state: &State<P>,
    all: &FactsKept,
) -> Result<KeptFacts, Memory>
    requires { AreAllFor P.weigh state.now all.now }
    ensures { IfOk result (λ facts. facts ≡ new_kept state.now.facts all.now.facts.facts) }
{
    let mut kept = KeptFacts::new(alloc);
    for fact in all.facts.iter() {
        keep_new(alloc, state, &fact, &mut kept)?;
    }
    Ok(kept)
}

/// Adds a fact as it is kept, where its id is not there.
fn keep_new<P: WeightPolicy + Drop>(
    alloc: Global,
    state: &State<P>,
    fact: &Fact,
    kept: &mut KeptFacts,
) -> Result<(), Memory>
    requires { IsRegion state.now.dims fact.now.region }
    ensures { OnOk result (kept.new ≡ kept.old ++ new_kept state.now.facts (fact.now ∷ [])) }
{
    if state.fact(fact.id).is_some() {
        return Ok(());
    }
    kept.push(kept_fact(alloc, state.space(), *fact)?)?;
    Ok(())
}

/// How one of all facts is spread.
fn spread_of<'a, P: WeightPolicy + Drop>(
    state: &State<P>,
    all: &'a FactsKept,
    fact: &Fact,
) -> &'a Alloc
    requires region { IsRegion state.now.dims fact.now.region }
    requires spread { option_map (λ g. g.spread) (value_at all.now.groups (code_of state.now.dims fact.now.region)) ≡ Some (allocation (policy_in P.weigh state.now) state.now.dims all.now.facts.facts fact.now) }
    ensures { result.now ≡ allocation (policy_in P.weigh state.now) state.now.dims all.now.facts.facts fact.now }
{
    let Some(spread) = spread_in(all, state.code(fact.region)) else {
        unreachable!()
    };
    spread
}

/// How the facts of a code are spread, None where there is none.
fn spread_in(all: &FactsKept, code: u64) -> Option<&Alloc>
    ensures { option_copied result ≡ option_map (λ g. g.spread) (value_at all.now.groups code) }
{
    let group = all.groups.get(code)?;
    Some(&group.spread)
}
