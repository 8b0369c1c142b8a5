//! The rows of a stored content put right.
ghost use Rattle.std.specs.Prelude.{◌≡◌, ◌∷◌, ◌++◌, [], Some, true, IfErr, IfOk, OnOk, filter, length, map};
ghost use Rattle.std.specs.List.{list_any};
ghost use Rattle.cube_model.specs.Allocation.{allocation, row_count};
ghost use Rattle.cube_model.specs.Ascending.{ascends_from};
ghost use Rattle.cube_state.specs.State.{policy_in, rows_in};
ghost use Rattle.edit_plan.specs.Plan.{kept_rows};
ghost use Rattle.fact_keeper.specs.Batch.{rows_id};
ghost use Rattle.fact_records.specs.FactList.{fact_of};
ghost use Rattle.fact_records.specs.Shape.{policy_over};
ghost use Rattle.store_audit.specs.Loading.{rows_told};
ghost use Rattle.store_audit.specs.Mending.{IsMendFault, IsMendable, batch_beside, gone_beside, is_equal, is_wanting, mended_batch};
ghost use Rattle.store_audit.specs.Sound.{rows_counted};

use crate::LoadFault;
use crate::facts::read_facts;
use crate::rows::{are_rows_of, rows_of};
use alloc_rows::Alloc;
use cell_weight::WeightPolicy;
use cube_base::{Ids, Memory};
use cube_model::Fact;
use cube_state::{State, look_up};
use fact_keeper::{Batch, KeptFacts, KeptRows, KeptRowsList, Stored};
use fact_records::Shape;
use region_algebra::Space;
use std::alloc::Global;
use std::marker::Brand;
use std::sync::ledger::Blank;

/// What puts the rows of a stored content right.
#[derive(Debug, Drop)]
pub struct Mending {
    /// The ids of kept rows of which no fact has the id, and the rows to put. It is empty where the content is sound.
    pub batch: Batch,
    /// The number of the facts.
    pub facts: u64,
    /// The number of rows that the facts have in all.
    pub rows: u64,
}

/// What puts the rows of a content over a space and measures right: after its batch the content is sound. Where the
/// kept entries ascend by id, each id once, only those are put that are not kept as the facts make them, and else all.
/// What is not sound in the facts is answered by what is found first. The only other error is running out of memory.
/// The text of the schema is not looked at. Each region that facts have is spread once. Each fact is searched for once
/// among the kept entries, and each of these among the facts.
pub fn mend_rows<P: WeightPolicy + Drop>(
    alloc: Global,
    space: Space,
    shape: Shape,
    policy: P,
    stored: &Stored,
) -> Result<Mending, LoadFault>
    ensures batch { IfOk result (λ m. m.batch ≡ mended_batch (policy_over (P.weigh policy) shape) space stored.now) }
    ensures facts { IfOk result (λ m. m.facts ≡ length stored.now.facts) }
    ensures rows { IfOk result (λ m. m.rows ≡ rows_counted (policy_over (P.weigh policy) shape) space stored.now) }
    ensures mendable { OnOk result (IsMendable (policy_over (P.weigh policy) shape) shape space stored.now) }
    ensures fault { IfErr result (IsMendFault (policy_over (P.weigh policy) shape) shape space stored.now) }
{
    let facts = read_facts(alloc, &space, &shape, stored.facts.as_slice())?;
    let state = State::of_facts(alloc, space, shape, policy, &[], facts)?;
    let mending = mending_beside(alloc, &state, stored.rows.as_slice());
    drop(state);
    Ok(mending?)
}

/// What puts kept rows right beside the facts of a state. No row is copied.
fn mending_beside<P: WeightPolicy + Drop>(
    alloc: Global,
    state: &State<P>,
    kept: &[KeptRows],
) -> Result<Mending, Memory>
    ensures batch { IfOk result (λ m. m.batch ≡ batch_beside state.now.facts (map kept_rows (rows_in P.weigh state.now)) kept.now) }
    ensures facts { IfOk result (λ m. m.facts ≡ length state.now.facts) }
    ensures rows { IfOk result (λ m. m.rows ≡ row_count (rows_in P.weigh state.now)) }
{
    let batch = Batch {
        schema: None,
        gone: gone_beside(alloc, state, kept)?,
        facts: KeptFacts::new(alloc),
        rows: rows_to_put(alloc, state, kept)?,
    };
    Ok(Mending {
        batch,
        facts: state.facts().len(),
        rows: state.row_count(),
    })
}

/// The ids of kept rows of which no fact of a state has the id, one for each such entry, in their order.
fn gone_beside<P: WeightPolicy + Drop>(
    alloc: Global,
    state: &State<P>,
    kept: &[KeptRows],
) -> Result<Ids, Memory>
    ensures { IfOk result (λ ids. ids ≡ gone_beside state.now.facts kept.now) }
{
    let mut gone = Ids::new(alloc);
    for rows in kept {
        put_gone(state, rows, &mut gone)?;
    }
    Ok(gone)
}

/// Puts the id of kept rows after others, where no fact of a state has it.
fn put_gone<P: WeightPolicy + Drop>(
    state: &State<P>,
    rows: &KeptRows,
    gone: &mut Ids,
) -> Result<(), Memory>
    ensures { OnOk result (gone.new ≡ gone.old ++ gone_beside state.now.facts (rows.now ∷ [])) }
{
    if state.fact(rows.id).is_some() {
        return Ok(());
    }
    gone.push(rows.id)
}

/// The rows of a state's facts that are to be put beside kept ones, in order.
fn rows_to_put<P: WeightPolicy + Drop>(
    alloc: Global,
    state: &State<P>,
    kept: &[KeptRows],
) -> Result<KeptRowsList, Memory>
    ensures { IfOk result (λ rows. rows ≡ filter (is_wanting kept.now) (map kept_rows (rows_in P.weigh state.now))) }
{
    let are_in_order = ascend(kept);
    let mut rows = KeptRowsList::new(alloc);
    for fact in state.facts().iter() {
        put_wanting(state, &fact, kept, are_in_order, &mut rows)?;
    }
    Ok(rows)
}

/// Puts the rows of a fact of a state after others, where they are to be put.
fn put_wanting<P: WeightPolicy + Drop>(
    state: &State<P>,
    fact: &Fact,
    kept: &[KeptRows],
    are_in_order: bool,
    rows: &mut KeptRowsList,
) -> Result<(), Memory>
    requires there { fact_of fact.now.id state.now.facts ≡ Some fact.now }
    requires order { are_in_order ≡ ascends_from rows_id 0 kept.now }
    ensures { OnOk result (rows.new ≡ rows.old ++ filter (is_wanting kept.now) (rows_told fact.now.id (allocation (policy_in P.weigh state.now) state.now.dims state.now.facts fact.now) ∷ [])) }
{
    let Some(spread) = look_up::<Brand, P>(state, fact.id, Blank::new(1)) else {
        unreachable!()
    };
    if !is_wanting(kept, are_in_order, fact.id, spread) {
        return Ok(());
    }
    rows.push(rows_of(fact.id, spread)?)
}

/// Whether the rows of a fact of this id, which is spread so, are to be put beside kept ones.
fn is_wanting(kept: &[KeptRows], are_in_order: bool, id: u64, spread: &Alloc) -> bool
    requires { are_in_order ≡ ascends_from rows_id 0 kept.now }
    ensures { result ≡ is_wanting kept.now (rows_told id spread.now) }
{
    !are_in_order || !is_among(kept, id, spread)
}

/// Whether kept rows ascend by id, each id once.
fn ascend(kept: &[KeptRows]) -> bool
    ensures { result ≡ ascends_from rows_id 0 kept.now }
{
    kept.is_sorted_by(|a, b| a.id < b.id)
}

/// Whether among kept rows that ascend by id there are those of a fact of this id, which is spread so.
fn is_among(kept: &[KeptRows], id: u64, spread: &Alloc) -> bool
    requires { ascends_from rows_id 0 kept.now ≡ true }
    ensures { result ≡ list_any (λ k. is_equal k (rows_told id spread.now)) kept.now }
{
    match kept.binary_search_by_key(&id, |rows| rows.id) {
        Ok(place) => are_rows_of(&kept[place], id, spread),
        Err(_) => false,
    }
}
