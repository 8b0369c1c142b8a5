//! The facts of a state, spread anew over another space.
ghost use Rattle.std.specs.Prelude.{◌≡◌, ◌++◌, ◌∷◌, [], All, None, Some, true, IfErr, IfOk, OnOk};
ghost use Rattle.cube_model.specs.Ascending.{ascends_from};
ghost use Rattle.cube_state.specs.State.{policy_in};
ghost use Rattle.fact_records.specs.FactList.{fact_of};
ghost use Rattle.region_algebra.specs.Space.{IsRegion};
ghost use Rattle.cube_core.specs.Growth.{has_large_region, moved};
ghost use Rattle.cube_core.specs.Respread.{IsRespreadFault, IsStateOver, KeepRegions, all_moved, facts_refusal, ids_moved, rows_moved};

use crate::EditFault;
use cell_weight::WeightPolicy;
use cube_base::{Code, Ids, Memory};
use cube_model::Fact;
use cube_state::{State, look_up};
use edit_plan::{Detail, Refreshed, install, plan_all};
use fact_keeper::KeptRowsList;
use fact_records::{FactList, FactRun, check_region};
use region_algebra::Space;
use std::alloc::Global;
use std::marker::Brand;
use std::sync::ledger::Blank;

/// The state of the same facts over another space, of which all their regions are. All that is kept of them is made anew. The first of
/// these that holds is answered: `Code` with `Region`, a fact has more than 2^20 cells; `Rows`, they have more than 2^21 rows, with their
/// number. The only other error is running out of memory.
pub(crate) fn state_over<P: WeightPolicy + Drop + Copy>(
    alloc: Global,
    state: &State<P>,
    space: &Space,
) -> Result<State<P>, EditFault>
    requires { KeepRegions state.now.dims space.now }
    ensures over { IfOk result (IsStateOver space.now state.now) }
    ensures accepted { OnOk result (facts_refusal (policy_in P.weigh state.now) space.now state.now.facts ≡ None) }
    ensures fault { IfErr result (IsRespreadFault P.weigh state.now space.now) }
{
    let facts = state.facts();
    if has_large_region(space, facts) {
        return Err(EditFault::Code(Code::Region));
    }
    let all = run_of(alloc, facts)?;
    let mut later = state.fresh(space.copy()?)?;
    let plan = match plan_all(alloc, &later, &all, Detail::Number) {
        Ok(plan) => plan,
        Err(fault) => {
            drop(later);
            return Err(EditFault::from(fault));
        }
    };
    install(&mut later, plan);
    Ok(later)
}

/// Whether a fact has more than 2^20 cells.
fn has_large_region(space: &Space, facts: &FactList) -> bool
    requires { All (λ f. IsRegion space.now f.region) facts.now.facts }
    ensures { result ≡ has_large_region space.now facts.now.facts }
{
    for fact in facts.iter() {
        if check_region(space, fact.region).is_err() {
            return true;
        }
    }
    false
}

/// The facts in order.
fn run_of(alloc: Global, facts: &FactList) -> Result<FactRun, Memory>
    ensures { IfOk result (λ run. run ≡ facts.now.facts) }
{
    let mut run = FactRun::new(alloc);
    for fact in facts.iter() {
        run.push(fact)?;
    }
    Ok(run)
}

/// The facts of a state whose allocation changed in another, which is the same over another space.
pub(crate) fn moved_between<P: WeightPolicy + Drop>(
    alloc: Global,
    state: &State<P>,
    later: &State<P>,
) -> Result<Refreshed, Memory>
    requires { IsStateOver later.now.dims state.now later.now }
    ensures ids { IfOk result (λ held. held.ids ≡ moved (policy_in P.weigh state.now) state.now.dims later.now.dims state.now.facts) }
    ensures rows { IfOk result (λ held. held.rows ≡ all_moved (policy_in P.weigh state.now) state.now.dims later.now.dims state.now.facts) }
    ensures ascending { IfOk result (λ held. ascends_from (λ id. id) 1 held.ids ≡ true) }
{
    let mut held = Refreshed {
        ids: Ids::new(alloc),
        rows: KeptRowsList::new(alloc),
    };
    for fact in state.facts().iter() {
        hold_moved(state, later, &fact, &mut held)?;
    }
    Ok(held)
}

/// Holds a fact, where its allocation changed.
fn hold_moved<P: WeightPolicy + Drop>(
    state: &State<P>,
    later: &State<P>,
    fact: &Fact,
    held: &mut Refreshed,
) -> Result<(), Memory>
    requires over { IsStateOver later.now.dims state.now later.now }
    requires there { fact_of fact.now.id state.now.facts ≡ Some fact.now }
    ensures ids { OnOk result (held.new.ids ≡ held.old.ids ++ ids_moved (policy_in P.weigh state.now) state.now.dims later.now.dims state.now.facts (fact.now ∷ [])) }
    ensures rows { OnOk result (held.new.rows ≡ held.old.rows ++ rows_moved (policy_in P.weigh state.now) state.now.dims later.now.dims state.now.facts (fact.now ∷ [])) }
{
    let Some(before) = look_up::<Brand, P>(state, fact.id, Blank::new(1)) else {
        unreachable!()
    };
    let Some(spread) = look_up::<Brand, P>(later, fact.id, Blank::new(1)) else {
        unreachable!()
    };
    if before.is_same(spread) {
        return Ok(());
    }
    held.hold(fact.id, spread)
}
