//! The growth of a dimension of a cube.
ghost use Rattle.std.specs.Prelude.{◌≡◌, ◌++◌, ◌∷◌, [], None, true, option_map, IfErr, IfOk, IsTrue, OnErr, OnOk};
ghost use Rattle.cube_model.specs.Ascending.{ascends_from};
ghost use Rattle.cube_state.specs.State.{policy_in};
ghost use Rattle.fact_keeper.specs.Batch.{apply_batch};
ghost use Rattle.fact_keeper.specs.Keeper.{StaysOpen};
ghost use Rattle.schema_text.specs.Growth.{IsGrowOf, dims_with};
ghost use Rattle.schema_text.specs.Schema.{over_dims};
ghost use Rattle.cube_core.specs.Cube.{CountsEditFault};
ghost use Rattle.cube_core.specs.Growth.{IsGrowthFaultOf, grown_cube, growth_difference_in, judge_growth_in, moved, moved_in, space_refusal};
ghost use Rattle.cube_core.specs.Respread.{IsRespreadFault, IsSpaceFault, IsStateOver, KeepRegions, batch_to, facts_refusal};

use crate::EditFault;
use crate::cube::{Cube, Receipt};
use crate::respread::{moved_between, state_over};
use cell_weight::WeightPolicy;
use cube_base::Ids;
use cube_state::State;
use edit_plan::Refreshed;
use fact_keeper::{Batch, Keeper, KeptFacts};
use region_algebra::Grow;
use schema_text::{Schema, write_schema};
use std::alloc::Global;
use std::mem::replace;

impl<P: WeightPolicy + Drop + Copy> Cube<P> {
    /// Gives a dimension a leaf: its dimension and the parent must be there, and no node of the dimension may have its name. What is kept
    /// of the facts is made anew over the grown space, which takes time in proportion to the facts and their rows. To the keeper, which
    /// must be open, one batch is committed: the one text of the schema as it is then, and the rows of the facts whose allocation changed. No
    /// kept fact changes. `Code` is answered for the first of these that holds: `Depth`, the parent has depth 8; `Limit`, the dimension
    /// has 65,536 nodes; `Cells` and `Nodes`, the product of the numbers of leaves, or of nodes, would be 2^62 or more; `Region`, a fact
    /// would have more than 2^20 cells; and then `Rows`, all facts would have more than 2^21 rows, with their number. `KeepFault` comes
    /// at a fault of the keeper alone, which it counts, and where nothing refuses the growth. The only other error is running out of memory. On
    /// every error the cube, and what the keeper holds, are as they were.
    pub fn grow<K: Keeper>(&mut self, grow: &Grow, keeper: &mut K) -> Result<Receipt, EditFault>
        requires there { IsGrowOf self.old.schema.dims grow.now }
        requires open { IsTrue (K.tells keeper.old).is_open }
        ensures grown { OnOk result (self.new ≡ grown_cube grow.now self.old) }
        ensures accepted { OnOk result (judge_growth_in P.weigh self.old grow.now ≡ None) }
        ensures refreshed { IfOk result (λ receipt. receipt.refreshed ≡ moved_in P.weigh self.old grow.now) }
        ensures ascending { IfOk result (λ receipt. ascends_from (λ id. id) 1 receipt.refreshed ≡ true) }
        ensures removed { IfOk result (λ receipt. receipt.removed ≡ None) }
        ensures content { OnOk result ((K.tells keeper.new).content ≡ option_map (apply_batch (growth_difference_in P.weigh self.old grow.now)) (K.tells keeper.old).content) }
        ensures journal { OnOk result ((K.tells keeper.new).journal ≡ option_map (λ batches. batches ++ growth_difference_in P.weigh self.old grow.now ∷ []) (K.tells keeper.old).journal) }
        ensures stays_open { StaysOpen (K.tells keeper.old) (K.tells keeper.new) }
        ensures count { CountsEditFault (K.tells keeper.old).faults (K.tells keeper.new).faults result }
        ensures fault { IfErr result (IsGrowthFaultOf P.weigh self.old grow.now) }
        ensures same { OnErr result (self.new ≡ self.old) }
        ensures same_content { OnErr result ((K.tells keeper.new).content ≡ (K.tells keeper.old).content) }
        ensures same_journal { OnErr result ((K.tells keeper.new).journal ≡ (K.tells keeper.old).journal) }
    {
        let schema = schema_with(self.alloc, &self.schema, grow)?;
        let growth = growth_to(self.alloc, &self.state, schema)?;
        if let Err(fault) = keeper.commit(&growth.batch) {
            drop(growth);
            return Err(EditFault::from(fault));
        }
        let Growth {
            schema,
            state,
            refreshed,
            batch,
        } = growth;
        drop(batch);
        drop(replace(&mut self.schema, schema));
        drop(replace(&mut self.state, state));
        Ok(Receipt {
            refreshed,
            removed: None,
        })
    }
}

/// The schema with a leaf more, or why its space does not get one.
fn schema_with(alloc: Global, schema: &Schema, grow: &Grow) -> Result<Schema, EditFault>
    requires { IsGrowOf schema.now.dims grow.now }
    ensures schema { IfOk result (λ later. later ≡ over_dims schema.now (dims_with grow.now schema.now.dims)) }
    ensures regions { OnOk result (KeepRegions schema.now.dims (dims_with grow.now schema.now.dims)) }
    ensures accepted { OnOk result (space_refusal schema.now.dims grow.now ≡ None) }
    ensures fault { IfErr result (IsSpaceFault schema.now.dims grow.now) }
{
    let name = grow.name.copy()?;
    let space = schema.space().grown(grow.dim, grow.parent, name)?;
    Ok(schema.over(alloc, space)?)
}

/// What a cube becomes by a growth, with what is refreshed and what changes in a store.
#[derive(Drop)]
struct Growth<P: WeightPolicy + Drop> {
    schema: Schema,
    state: State<P>,
    refreshed: Ids,
    batch: Batch,
}

/// The growth of a state to a schema over whose space its facts may be, or why they may not.
fn growth_to<P: WeightPolicy + Drop + Copy>(
    alloc: Global,
    state: &State<P>,
    schema: Schema,
) -> Result<Growth<P>, EditFault>
    requires { KeepRegions state.now.dims schema.dims }
    ensures schema { IfOk result (λ growth. growth.schema ≡ schema) }
    ensures over { IfOk result (λ growth. IsStateOver schema.dims state.now growth.state) }
    ensures refreshed { IfOk result (λ growth. growth.refreshed ≡ moved (policy_in P.weigh state.now) state.now.dims schema.dims state.now.facts) }
    ensures ascending { IfOk result (λ growth. ascends_from (λ id. id) 1 growth.refreshed ≡ true) }
    ensures batch { IfOk result (λ growth. growth.batch ≡ batch_to (policy_in P.weigh state.now) state.now.dims schema state.now.facts) }
    ensures accepted { OnOk result (facts_refusal (policy_in P.weigh state.now) schema.dims state.now.facts ≡ None) }
    ensures fault { IfErr result (IsRespreadFault P.weigh state.now schema.dims) }
{
    let text = match write_schema(alloc, &schema) {
        Ok(text) => text,
        Err(fault) => {
            drop(schema);
            return Err(EditFault::from(fault));
        }
    };
    let later = match state_over(alloc, state, schema.space()) {
        Ok(later) => later,
        Err(fault) => {
            drop(schema);
            return Err(fault);
        }
    };
    let Refreshed { ids, rows } = match moved_between(alloc, state, &later) {
        Ok(moved) => moved,
        Err(fault) => {
            drop(later);
            drop(schema);
            return Err(EditFault::from(fault));
        }
    };
    Ok(Growth {
        schema,
        state: later,
        refreshed: ids,
        batch: Batch {
            schema: Some(text),
            gone: Ids::new(alloc),
            facts: KeptFacts::new(alloc),
            rows,
        },
    })
}
