//! The cube.
ghost use Rattle.std.specs.Prelude.{◌≡◌, ◌+◌, ◌++◌, ◌∷◌, ◌<◌, ◌≤◌, [], None, true, All, length, option_map, IfErr, IfOk, IfSome, IsSome, IsTrue, OnErr, OnOk};
ghost use Rattle.std.specs.Option.{option_copied};
ghost use Rattle.alloc_rows.specs.Alloc.{IsAllocation};
ghost use Rattle.cube_model.specs.Allocation.{allocation_of, row_count};
ghost use Rattle.cube_model.specs.Ascending.{ascends_from};
ghost use Rattle.cube_model.specs.Cells.{AreRows};
ghost use Rattle.cube_model.specs.Limits.{MAX_ROWS};
ghost use Rattle.cube_state.specs.State.{rows_in, withdrawn};
ghost use Rattle.exact_fraction.specs.Moderate.{IsModerate};
ghost use Rattle.fact_keeper.specs.Batch.{apply_batch};
ghost use Rattle.fact_keeper.specs.Keeper.{StaysOpen};
ghost use Rattle.fact_records.specs.Outcomes.{AllAddUp};
ghost use Rattle.fact_records.specs.Shape.{width_of_all};
ghost use Rattle.fact_records.specs.Valid.{IsEditOver, IsPlaced};
ghost use Rattle.region_algebra.specs.Space.{IsRegion};
ghost use Rattle.schema_text.specs.Schema.{schema_policy, shape_of, view_named};
ghost use Rattle.store_audit.specs.Sound.{IsLoadFault, IsSound, facts_told};
ghost use Rattle.world_law.specs.Additive.{AddUpOverChildren};
ghost use Rattle.world_law.specs.Placed.{fault_of};
ghost use Rattle.cube_core.specs.Cube.{AreFactsOf, CountsEditFault, IsBounded, IsFaultOf, cube_answer, cube_judgement, cube_refreshed, cube_rows, difference_in, edited, step_bound_in};
ghost use Rattle.cube_core.specs.Import.{CountsImportFault, IsImportFaultOf, import_difference_in, import_refreshed_in, imported, refused_in_cube};
ghost use Rattle.cube_core.specs.Expected.{AreExpected};
ghost use Rattle.cube_core.specs.View.{view_in};
ghost use Rattle.cube_core.specs.WorldSums.{IsWorldFault, placed_in, world_sum_in};

use crate::carrying::{carry_out, detail_for};
use crate::place::{PlacedList, place};
use crate::{EditFault, ImportFault};
use alloc_rows::Alloc;
use cell_weight::WeightPolicy;
use cube_base::{Ids, Memory};
use cube_model::{Edit, Region};
use cube_state::{State, look_up};
use edit_plan::{Detail, PlanLists, plan, plan_all};
use fact_keeper::{Keeper, Stored};
use fact_records::{FactList, FactSeq, judge_seq};
use group_sum::Terms;
use region_index::Steps;
use schema_text::Schema;
use std::alloc::Global;
use std::marker::{Brand, Model};
use std::sync::ledger::{Blank, Ledger};
use store_audit::{LoadFault, load_state};
use view_store::ViewList;
use world_law::{WorldFault, WorldSum, enumerate};

/// What an accepted edit or import did.
#[derive(Debug, Drop)]
pub struct Receipt {
    /// The ids of the facts that are new or whose allocation changed, ascending.
    pub refreshed: Ids,
    /// The id that was withdrawn, if the edit withdrew one.
    pub removed: Option<u64>,
}

/// The receipt of a plan that has lists.
fn receipt_of(lists: Option<PlanLists>, removed: Option<u64>) -> Receipt
    requires { IsSome lists }
    ensures refreshed { IfSome lists (λ lists. result.refreshed ≡ lists.refreshed) }
    ensures removed { result.removed ≡ removed }
{
    let Some(PlanLists { refreshed, batch }) = lists else {
        unreachable!()
    };
    drop(batch);
    Receipt { refreshed, removed }
}

/// A schema with the state of a cube over it: a policy, and facts with all that is kept of them, so that an edit costs what it touches.
/// Contracts see the policy, the schema and the list of the facts; all else is what the facts make it.
///
/// There are at most 2^20 facts, with at most 2^21 rows together. Each has an id of its own from 1 to 2^63 - 1, values that
/// the measures allow, and a region of the space with at most 2^20 cells.
#[derive(Drop)]
pub struct Cube<P: WeightPolicy + Drop> {
    pub(crate) alloc: Global,
    pub(crate) schema: Schema,
    pub(crate) state: State<P>,
}

impl<P: WeightPolicy + Drop> Model for Cube<P> {
    ghost use Rattle.cube_core.specs.Cube.{CubeValue, IsStateOf};

    ghost Value = { CubeValue P };

    ghost view = { λ c. record { policy = c.state.policy; schema = c.schema; facts = c.state.facts } };

    ghost invariant = { λ c. IsStateOf c.schema c.state };
}

impl<P: WeightPolicy + Drop> Cube<P> {
    /// A cube without facts, which weighs cells by this policy. The only error is running out of memory.
    pub fn new(alloc: Global, schema: Schema, policy: P) -> Result<Self, Memory>
        ensures schema { IfOk result (λ cube. cube.schema ≡ schema) }
        ensures policy { IfOk result (λ cube. cube.policy ≡ policy) }
        ensures facts { IfOk result (λ cube. cube.facts ≡ []) }
    {
        let space = match schema.space().copy() {
            Ok(space) => space,
            Err(fault) => {
                drop(schema);
                return Err(fault);
            }
        };
        let shape = match schema.shape().copy() {
            Ok(shape) => shape,
            Err(fault) => {
                drop(space);
                drop(schema);
                return Err(fault);
            }
        };
        let state = match State::new(alloc, space, shape, policy, schema.views()) {
            Ok(state) => state,
            Err(fault) => {
                drop(schema);
                return Err(fault);
            }
        };
        Ok(Cube {
            alloc,
            schema,
            state,
        })
    }

    /// The cube of the facts of a stored content, which weighs cells by this policy. `Bad` is answered exactly where the facts or the
    /// rows of the content are not sound over the schema, with what is found first, and the only other error is running out of memory. The
    /// text of the content's schema, which must read as this one, is not looked at. It takes time in proportion to the facts and rows.
    pub fn from_stored(
        alloc: Global,
        schema: Schema,
        stored: &Stored,
        policy: P,
    ) -> Result<Self, LoadFault>
        ensures schema { IfOk result (λ cube. cube.schema ≡ schema) }
        ensures policy { IfOk result (λ cube. cube.policy ≡ policy) }
        ensures facts { IfOk result (λ cube. cube.facts ≡ facts_told stored.now) }
        ensures sound { OnOk result (IsSound (schema_policy (P.weigh policy) schema) (shape_of schema) schema.dims stored.now) }
        ensures fault { IfErr result (IsLoadFault (schema_policy (P.weigh policy) schema) (shape_of schema) schema.dims stored.now) }
    {
        let space = match schema.space().copy() {
            Ok(space) => space,
            Err(fault) => {
                drop(schema);
                return Err(LoadFault::from(fault));
            }
        };
        let shape = match schema.shape().copy() {
            Ok(shape) => shape,
            Err(fault) => {
                drop(space);
                drop(schema);
                return Err(LoadFault::from(fault));
            }
        };
        let state = match load_state(alloc, space, shape, policy, schema.views(), stored) {
            Ok(state) => state,
            Err(fault) => {
                drop(schema);
                return Err(fault);
            }
        };
        Ok(Cube {
            alloc,
            schema,
            state,
        })
    }

    /// The schema. It takes no memory.
    pub fn schema(&self) -> &Schema
        ensures { result.now ≡ self.now.schema }
    {
        &self.schema
    }

    /// The facts in order of their ids. It takes no memory.
    pub fn facts(&self) -> &FactList
        ensures facts { result.now.facts ≡ self.now.facts }
        ensures valid { AreFactsOf self.now.schema self.now.facts }
        ensures few_rows { row_count (cube_rows P.weigh self.now) ≤ MAX_ROWS }
    {
        self.state.facts()
    }

    /// The number of rows of all facts. It takes no memory.
    pub fn row_count(&self) -> u64
        ensures rows { result ≡ row_count (cube_rows P.weigh self.now) }
        ensures few { result ≤ MAX_ROWS }
    {
        self.state.row_count()
    }

    /// The allocation of the fact of an id: None exactly where there is none. It takes no memory.
    pub fn rows(&self, id: u64) -> Option<&Alloc>
        ensures rows { option_copied result ≡ allocation_of id (cube_rows P.weigh self.now) }
        ensures cells { IfSome (option_copied result) (λ a. AreRows self.now.schema.dims a.rows) }
    {
        look_up::<Brand, P>(&self.state, id, Blank::new(1))
    }

    /// Does an edit, of which the id must be from 1 to 2^63 - 1 and the region of the fact, if it has one, a region of the
    /// space: plans it, commits what it changes to the keeper, which must be open, as one batch, and then sets what was planned. The
    /// first of these that holds refuses it: `Code` with `Value` or `Parts`, the values of the fact are none of the measures;
    /// `Exists`, a put's id is there; `Missing`, the id of a change or a withdrawal is not; `Region`, the region has more than 2^20
    /// cells; `Facts`, a put finds 2^20 facts; and `Rows`, the facts after the edit have more than 2^21 rows, with their number.
    /// `KeepFault` comes at a fault of the keeper alone, which it counts, and where nothing refuses the edit. `Memory` is running out of
    /// memory: no code that is judged before the rows refuses the edit. On every error the cube, and what the keeper holds, are as
    /// they were.
    ///
    /// A step is one look at a region of the index, or one id that it hands out. With P the product over the dimensions of the largest
    /// depth and one, and f the number of pairs of a cell whose statistics the edit changes and an imprecise fact before it
    /// that covers the cell, there are at most 2P + 2f + 2, on an error too.
    pub fn edit<K: Keeper, L: Ledger>(
        &mut self,
        edit: &Edit,
        keeper: &mut K,
        steps: &mut Steps<L>,
    ) -> Result<Receipt, EditFault>
        requires over { IsEditOver self.old.schema.dims edit.now }
        requires open { IsTrue (K.tells keeper.old).is_open }
        ensures facts { OnOk result (self.new ≡ edited edit.now self.old) }
        ensures accepted { OnOk result (cube_judgement P.weigh self.old edit.now ≡ None) }
        ensures refreshed { IfOk result (λ receipt. receipt.refreshed ≡ cube_refreshed P.weigh self.old edit.now) }
        ensures ascending { IfOk result (λ receipt. ascends_from (λ id. id) 1 receipt.refreshed ≡ true) }
        ensures removed { IfOk result (λ receipt. receipt.removed ≡ withdrawn edit.now) }
        ensures content { OnOk result ((K.tells keeper.new).content ≡ option_map (apply_batch (difference_in P.weigh self.old edit.now)) (K.tells keeper.old).content) }
        ensures journal { OnOk result ((K.tells keeper.new).journal ≡ option_map (λ batches. batches ++ difference_in P.weigh self.old edit.now ∷ []) (K.tells keeper.old).journal) }
        ensures stays_open { StaysOpen (K.tells keeper.old) (K.tells keeper.new) }
        ensures count { CountsEditFault (K.tells keeper.old).faults (K.tells keeper.new).faults result }
        ensures fault { IfErr result (IsFaultOf P.weigh self.old edit.now) }
        ensures same { OnErr result (self.new ≡ self.old) }
        ensures same_content { OnErr result ((K.tells keeper.new).content ≡ (K.tells keeper.old).content) }
        ensures same_journal { OnErr result ((K.tells keeper.new).journal ≡ (K.tells keeper.old).journal) }
        ensures steps { steps.new ≤ steps.old + step_bound_in P.weigh self.old edit.now }
    {
        let plan = plan(self.alloc, &mut self.state, edit, Detail::Lists, steps)?;
        let removed = plan.removed();
        let lists = carry_out(&mut self.state, plan, keeper)?;
        Ok(receipt_of(lists, removed))
    }

    /// Does an edit as `edit` does, and answers only how many facts are new or have an allocation that changed. Where the keeper keeps
    /// nothing, neither their ids nor a batch is made.
    pub fn edit_and_count<K: Keeper, L: Ledger>(
        &mut self,
        edit: &Edit,
        keeper: &mut K,
        steps: &mut Steps<L>,
    ) -> Result<u64, EditFault>
        requires over { IsEditOver self.old.schema.dims edit.now }
        requires open { IsTrue (K.tells keeper.old).is_open }
        ensures facts { OnOk result (self.new ≡ edited edit.now self.old) }
        ensures accepted { OnOk result (cube_judgement P.weigh self.old edit.now ≡ None) }
        ensures refreshed { IfOk result (λ refreshed. refreshed ≡ length (cube_refreshed P.weigh self.old edit.now)) }
        ensures content { OnOk result ((K.tells keeper.new).content ≡ option_map (apply_batch (difference_in P.weigh self.old edit.now)) (K.tells keeper.old).content) }
        ensures journal { OnOk result ((K.tells keeper.new).journal ≡ option_map (λ batches. batches ++ difference_in P.weigh self.old edit.now ∷ []) (K.tells keeper.old).journal) }
        ensures stays_open { StaysOpen (K.tells keeper.old) (K.tells keeper.new) }
        ensures count { CountsEditFault (K.tells keeper.old).faults (K.tells keeper.new).faults result }
        ensures fault { IfErr result (IsFaultOf P.weigh self.old edit.now) }
        ensures same { OnErr result (self.new ≡ self.old) }
        ensures same_content { OnErr result ((K.tells keeper.new).content ≡ (K.tells keeper.old).content) }
        ensures same_journal { OnErr result ((K.tells keeper.new).journal ≡ (K.tells keeper.old).journal) }
        ensures steps { steps.new ≤ steps.old + step_bound_in P.weigh self.old edit.now }
    {
        let detail = detail_for(keeper);
        let plan = plan(self.alloc, &mut self.state, edit, detail, steps)?;
        let refreshed = plan.count();
        let lists = carry_out(&mut self.state, plan, keeper)?;
        drop(lists);
        Ok(refreshed)
    }

    /// Puts the facts of a file, all or none: judges them in the order of the file, plans them together, commits what they change to
    /// the keeper, which must be open, as one batch, also where there are none, and then sets what was planned. Each fact must have an
    /// id from 1 to 2^63 - 1 and a region of the space. `BadRecord` is answered where a record is refused, with the
    /// first. The facts before it, those of the cube and those of the file, refuse the put of a fact by the first that
    /// holds of `Value`, `Parts`, `Exists`, `Region` and `Facts`. The record that could not be read comes after all
    /// facts. Else `Rows` is answered where all facts then have more than 2^21 rows, with their number. `KeepFault`
    /// comes at a fault of the keeper alone, which it counts, and where nothing refuses the file. The only other error
    /// is running out of memory. On every error the cube, and what the keeper holds, are as they were. It takes time in
    /// proportion to the facts and rows of the cube and the file.
    pub fn import<K: Keeper>(
        &mut self,
        seq: &FactSeq,
        keeper: &mut K,
    ) -> Result<Receipt, ImportFault>
        requires placed { All (IsPlaced self.old.schema.dims) seq.now.facts }
        requires open { IsTrue (K.tells keeper.old).is_open }
        ensures facts { OnOk result (self.new ≡ imported seq.now.facts self.old) }
        ensures accepted { OnOk result (refused_in_cube self.old seq.now ≡ None) }
        ensures few { OnOk result (row_count (cube_rows P.weigh (imported seq.now.facts self.old)) ≤ MAX_ROWS) }
        ensures refreshed { IfOk result (λ receipt. receipt.refreshed ≡ import_refreshed_in P.weigh self.old seq.now.facts) }
        ensures ascending { IfOk result (λ receipt. ascends_from (λ id. id) 1 receipt.refreshed ≡ true) }
        ensures removed { IfOk result (λ receipt. receipt.removed ≡ None) }
        ensures content { OnOk result ((K.tells keeper.new).content ≡ option_map (apply_batch (import_difference_in P.weigh self.old seq.now.facts)) (K.tells keeper.old).content) }
        ensures journal { OnOk result ((K.tells keeper.new).journal ≡ option_map (λ batches. batches ++ import_difference_in P.weigh self.old seq.now.facts ∷ []) (K.tells keeper.old).journal) }
        ensures stays_open { StaysOpen (K.tells keeper.old) (K.tells keeper.new) }
        ensures count { CountsImportFault (K.tells keeper.old).faults (K.tells keeper.new).faults result }
        ensures fault { IfErr result (IsImportFaultOf P.weigh self.old seq.now) }
        ensures same { OnErr result (self.new ≡ self.old) }
        ensures same_content { OnErr result ((K.tells keeper.new).content ≡ (K.tells keeper.old).content) }
        ensures same_journal { OnErr result ((K.tells keeper.new).journal ≡ (K.tells keeper.old).journal) }
    {
        let space = self.schema.space();
        let shape = self.schema.shape();
        let facts = self.state.facts();
        if let Some(bad) = judge_seq(self.alloc, shape, space, facts, seq)? {
            return Err(ImportFault::BadRecord(bad));
        }
        let plan = plan_all(self.alloc, &self.state, &seq.facts, Detail::Lists)?;
        let lists = carry_out(&mut self.state, plan, keeper)?;
        Ok(receipt_of(lists, None))
    }

    /// What the facts add up to inside `r`, which must be a region of the space: for each denominator among the
    /// allocations, ascending, the sums over the facts of each column times the weight inside, the count first; where the
    /// count is 0 there is no term. At each term the sums of a distribution's outcomes add up to its scale times the count. The
    /// first view that serves the region is asked, and where none does each region that has facts. The only error is running out of memory.
    ///
    /// These are the exact expectations over all worlds of the facts, in each of which every fact stands in one cell of its
    /// allocation; and where a node of the region has children, the answers at the regions with each child in its place merge
    /// to this one.
    pub fn answer(&self, r: Region) -> Result<Terms, Memory>
        requires { IsRegion self.now.schema.dims r }
        ensures columns { IfOk result (λ terms. terms.columns ≡ width_of_all self.now.schema.measures + 1) }
        ensures terms { IfOk result (λ terms. terms.terms ≡ cube_answer P.weigh self.now r) }
        ensures moderate { IfOk result (λ terms. IsModerate terms.terms) }
        ensures distributions { IfOk result (λ terms. AllAddUp self.now.schema.measures terms.terms) }
        ensures bounded { IfOk result (λ terms. All IsBounded terms.terms) }
        ensures expectations { IfOk result (λ terms. AreExpected (width_of_all self.now.schema.measures) self.now.schema.dims r (cube_rows P.weigh self.now) terms.terms) }
        ensures children { IfOk result (λ terms. AddUpOverChildren (width_of_all self.now.schema.measures) self.now.schema.dims r (cube_rows P.weigh self.now) terms.terms) }
    {
        let _ = self.schema.space();
        let _ = self.state.facts();
        self.state.answer(r)
    }

    /// The place of the view of a name: None exactly where no view has it. It takes no memory.
    pub fn view(&self, name: &str) -> Option<u32>
        ensures named { result ≡ view_named self.now.schema.views name.now }
        ensures within { IfSome result (λ view. view < length self.now.schema.views) }
    {
        self.schema.view_named(name)
    }

    /// The view at a place, of which there must be one: each region of the product of its cuts in which the facts have terms,
    /// with these, the first dimension slowest and the nodes of each dimension in their order. It is a copy of what is kept. The one
    /// error is running out of memory.
    pub fn view_list(&self, view: u32) -> Result<ViewList, Memory>
        requires { view < length self.now.schema.views }
        ensures entries { IfOk result (λ entries. entries ≡ view_in P.weigh self.now view) }
        ensures regions { IfOk result (All (λ entry. IsRegion self.now.schema.dims entry.0)) }
    {
        self.state.view_list(view)
    }

    /// The facts with their allocations, in order of their ids, as worlds are made of them: the ids are left out. The one
    /// error is running out of memory.
    pub fn placed(&self) -> Result<PlacedList, Memory>
        ensures placed { IfOk result (λ placed. placed ≡ placed_in P.weigh self.now) }
        ensures allocations { IfOk result (All (λ p. IsAllocation (record { den = p.den; rows = p.rows }))) }
    {
        let mut placed = PlacedList::new(self.alloc);
        for fact in self.facts().iter() {
            let Some(a) = self.rows(fact.id) else {
                unreachable!()
            };
            placed.push(place(self.alloc, &fact, a)?)?;
        }
        Ok(placed)
    }

    /// What all worlds of the facts add up to in `r`, which must be a region of the space. These are their number, the
    /// sum of their weights, and for each column, the count first, the total over all worlds of what stands in the
    /// region. `Many` is answered exactly where there are more than 65,536 worlds. Else `Wide` is answered exactly
    /// where their weights add up to more than 2^60. Running out of memory is the only other error. It goes through all
    /// worlds for each column, and takes memory for the rows of the facts, whatever the number of worlds.
    pub fn worlds(&self, r: Region) -> Result<WorldSum, WorldFault>
        requires { IsRegion self.now.schema.dims r }
        ensures sum { IfOk result (λ sum. sum ≡ world_sum_in P.weigh self.now r) }
        ensures accepted { OnOk result (fault_of (placed_in P.weigh self.now) ≡ None) }
        ensures refused { IfErr result (IsWorldFault (placed_in P.weigh self.now)) }
    {
        let _ = self.facts();
        let placed = self.placed()?;
        let space = self.schema.space();
        let columns = self.schema.shape().columns();
        enumerate(self.alloc, placed.as_slice(), space, r, columns)
    }
}
