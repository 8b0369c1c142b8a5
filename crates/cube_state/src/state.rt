//! The state of a cube.
ghost use Rattle.std.specs.Prelude.{◌≡◌, ◌+◌, ◌≤◌, [], true, All, IfErr, IfOk, IfSome, OnOk, length, map};
ghost use Rattle.std.specs.Option.{option_copied, option_map};
ghost use Rattle.cube_model.specs.Allocation.{allocation_of, extended, row_count};
ghost use Rattle.cube_model.specs.Cells.{AreRows};
ghost use Rattle.cube_model.specs.Facts.{after};
ghost use Rattle.cube_model.specs.Limits.{MAX_ROWS};
ghost use Rattle.cube_model.specs.Tree.{IsTree};
ghost use Rattle.region_algebra.specs.Space.{IsRegion, code_of};
ghost use Rattle.fact_records.specs.FactList.{fact_of};
ghost use Rattle.fact_records.specs.Shape.{policy_over, width_of_all};
ghost use Rattle.fact_records.specs.Valid.{AreValid};
ghost use Rattle.fact_indexes.specs.Anew.{IsTooMany};
ghost use Rattle.fact_groups.specs.Groups.{group_at};
ghost use Rattle.cube_state.specs.Sets.{AreAllFor, IsEditFor, has_room};
ghost use Rattle.cube_state.specs.State.{HasFacts, ids_with, policy_in, rows_in};

use crate::Group;
use crate::noting::{note_given, patterns_of};
use crate::sets::Sets;
use alloc_rows::Alloc;
use cell_weight::{StatIndex, WeightPolicy};
use cube_base::Memory;
use cube_model::{Edit, Fact, Region};
use fact_indexes::{FactsKept, TooMany, keep_all};
use fact_records::{FactList, Shape};
use region_algebra::{Space, ViewDef};
use region_index::{DepthPatterns, RegionIndex, Steps};
use staged_map::Staged;
use std::alloc::Global;
use std::marker::Model;
use std::sync::ledger::Ledger;
use view_store::Views;

/// A policy, a space, measures, and facts with all that is kept of them: the statistics of cells, the imprecise facts by region,
/// for each region that facts have how they are spread, and the number of rows. Contracts see the policy, the dimensions,
/// the measures and the list of facts; beside these, the maps beneath, which are what the facts make them.
///
/// There are at most 2^20 facts, with at most 2^21 rows together. Each has an id of its own from 1 to 2^63 - 1, values that
/// the measures allow, and a region of the space with at most 2^20 cells.
#[derive(Drop)]
pub struct State<P: WeightPolicy + Drop> {
    pub(crate) alloc: Global,
    pub(crate) space: Space,
    pub(crate) shape: Shape,
    pub(crate) policy: P,
    pub(crate) facts: FactList,
    pub(crate) stats: StatIndex,
    // The ids of the imprecise facts, by the code of their region.
    pub(crate) index: RegionIndex,
    // The patterns of depths of the imprecise facts' regions, and of such as were there.
    pub(crate) patterns: DepthPatterns,
    // For each region that a fact has, by its code, the facts there.
    pub(crate) groups: Staged<Group>,
    pub(crate) views: Views,
    // The number of rows of all facts.
    pub(crate) rows: u64,
}

impl<P: WeightPolicy + Drop> Model for State<P> {
    ghost use Rattle.std.specs.Prelude.{map};
    ghost use Rattle.cube_state.specs.Knowing.{IsKnowingState};
    ghost use Rattle.cube_state.specs.State.{StateValue};
    ghost use Rattle.fact_records.specs.Shape.{policy_over};

    ghost Value = { StateValue P };

    ghost view = { λ s. record {
      policy = s.policy;
      dims = s.space;
      shape = s.shape;
      cuts = map (λ view. view.depths) s.views.views;
      facts = s.facts.facts;
      kept = record { spare = s.facts.spare; stats = s.stats; index = s.index; groups = s.groups; views = s.views; rows = s.rows };
    } };

    ghost invariant = { λ s. IsKnowingState (policy_over (P.weigh s.policy) s.shape) s.shape s.space (map (λ view. view.depths) s.views.views) s.facts.facts
        (record { spare = s.facts.spare; stats = s.stats; index = s.index; groups = s.groups; views = s.views; rows = s.rows }) s.patterns };
}

impl<P: WeightPolicy + Drop> State<P> {
    /// A state without facts, with these views, each of which has a depth for each dimension of the space. The only error is running out of
    /// memory.
    pub fn new(
        alloc: Global,
        space: Space,
        shape: Shape,
        policy: P,
        defs: &[ViewDef],
    ) -> Result<Self, Memory>
        requires { All (λ def. length def.depths ≡ length space) defs.now }
        ensures policy { IfOk result (λ state. state.policy ≡ policy) }
        ensures dims { IfOk result (λ state. state.dims ≡ space) }
        ensures shape { IfOk result (λ state. state.shape ≡ shape) }
        ensures cuts { IfOk result (λ state. state.cuts ≡ map (λ def. def.depths) defs.now) }
        ensures facts { IfOk result (λ state. state.facts ≡ []) }
    {
        let _ = space.dims();
        let views = Views::new(alloc, defs, shape.columns())?;
        Ok(State {
            alloc,
            space,
            shape,
            policy,
            facts: FactList::new(alloc),
            stats: StatIndex::new(alloc),
            index: RegionIndex::new(alloc),
            patterns: DepthPatterns::new(),
            groups: Staged::new(alloc),
            views,
            rows: 0,
        })
    }

    /// The state of these facts, with these views, each of which has a depth for each dimension of the space. It is made in one go: each
    /// region that facts have is spread once. `Rows` is answered exactly where they have more than 2^21 rows, with their
    /// number, unless it runs out of memory.
    pub fn of_facts(
        alloc: Global,
        space: Space,
        shape: Shape,
        policy: P,
        defs: &[ViewDef],
        facts: FactList,
    ) -> Result<Self, TooMany>
        requires depths { All (λ def. length def.depths ≡ length space) defs.now }
        requires valid { AreValid shape space facts.facts }
        ensures policy { IfOk result (λ state. state.policy ≡ policy) }
        ensures dims { IfOk result (λ state. state.dims ≡ space) }
        ensures shape { IfOk result (λ state. state.shape ≡ shape) }
        ensures cuts { IfOk result (λ state. state.cuts ≡ map (λ def. def.depths) defs.now) }
        ensures facts { IfOk result (λ state. state.facts ≡ facts.facts) }
        ensures few { OnOk result (row_count (extended (policy_over (P.weigh policy) shape) space facts.facts) ≤ MAX_ROWS) }
        ensures fault { IfErr result (IsTooMany (policy_over (P.weigh policy) shape) space facts.facts) }
    {
        let views = Views::new(alloc, defs, shape.columns())?;
        let FactsKept {
            facts,
            stats,
            index,
            groups,
            views,
            rows,
        } = keep_all(alloc, &space, &shape, &policy, views, facts)?;
        let patterns = patterns_of(&space, &facts);
        Ok(State {
            alloc,
            space,
            shape,
            policy,
            facts,
            stats,
            index,
            patterns,
            groups,
            views,
            rows,
        })
    }

    /// The space. It takes no memory.
    pub fn space(&self) -> &Space
        ensures { result.now ≡ self.now.dims }
    {
        &self.space
    }

    /// The measures. It takes no memory.
    pub fn shape(&self) -> &Shape
        ensures { result.now ≡ self.now.shape }
    {
        &self.shape
    }

    /// The facts in order of their ids. It takes no memory.
    pub fn facts(&self) -> &FactList
        ensures facts { result.now.facts ≡ self.now.facts }
        ensures valid { AreValid self.now.shape self.now.dims self.now.facts }
        ensures trees { All IsTree self.now.dims }
        ensures few_rows { row_count (rows_in P.weigh self.now) ≤ MAX_ROWS }
    {
        &self.facts
    }

    /// The fact of an id: None exactly where there is none. It takes no memory.
    pub fn fact(&self, id: u64) -> Option<Fact>
        ensures { result ≡ fact_of id self.now.facts }
    {
        self.facts.get(id)
    }

    /// The code of a region, which must be one of the space. It takes no memory.
    pub fn code(&self, r: Region) -> u64
        requires { IsRegion self.now.dims r }
        ensures { result ≡ code_of self.now.dims r }
    {
        self.space.code(r)
    }

    /// The number of rows of all facts. It takes no memory.
    pub fn row_count(&self) -> u64
        ensures rows { result ≡ row_count (rows_in P.weigh self.now) }
        ensures few { result ≤ MAX_ROWS }
    {
        self.rows
    }

    /// The allocation of the fact of an id: None exactly where there is none. It is one step, and takes no memory.
    pub fn lookup<L: Ledger>(&self, id: u64, steps: &mut Steps<L>) -> Option<&Alloc>
        ensures rows { option_copied result ≡ allocation_of id (rows_in P.weigh self.now) }
        ensures cells { IfSome (option_copied result) (λ a. AreRows self.now.dims a.rows) }
        ensures steps { steps.new ≡ steps.old + 1 }
    {
        steps.tick();
        let fact = self.facts.get(id)?;
        let group = self.groups.get(self.space.code(fact.region))?;
        Some(&group.spread)
    }

    /// How the facts whose region has a code are spread: None where there are none. It takes no memory.
    pub fn spread_at(&self, code: u64) -> Option<&Alloc>
        ensures { option_copied result ≡ option_map (λ g. g.spread) (group_at (policy_in P.weigh self.now) (width_of_all self.now.shape.measures) self.now.dims self.now.facts code) }
    {
        let group = self.groups.get(code)?;
        Some(&group.spread)
    }

    /// The ids of the imprecise facts whose region has a code, ascending. It is one step, and takes no memory.
    pub fn imprecise_ids<L: Ledger>(&self, code: u64, steps: &mut Steps<L>) -> &[u64]
        ensures ids { result.now ≡ ids_with self.now.dims self.now.facts code }
        ensures steps { steps.new ≡ steps.old + 1 }
    {
        steps.add(1);
        self.ids_at(code)
    }

    /// The same, uncounted.
    pub(crate) fn ids_at(&self, code: u64) -> &[u64]
        ensures { result.now ≡ ids_with self.now.dims self.now.facts code }
    {
        self.index.ids(code)
    }

    /// Does an edit, for which this is to be set in the state as it stands: what `stage_all` answered for it, and the number of rows
    /// after it. It takes no memory.
    pub fn set(&mut self, edit: Edit, sets: Sets, rows: u64)
        requires { IsEditFor P.weigh self.old edit sets rows }
        ensures { HasFacts (after edit self.old.facts) self.old self.new }
    {
        let Sets {
            stats,
            index,
            groups,
            views,
        } = sets;
        note_given(&mut self.patterns, &self.space, &edit);
        apply(&mut self.facts, edit);
        self.stats.install(stats.as_slice());
        self.index.install(index);
        self.groups.put_all(groups.into_vec());
        self.views.install(views);
        self.rows = rows;
    }

    /// Puts all facts, with what is kept of them, in the place of those that are there. It takes no memory.
    pub fn replace(&mut self, all: FactsKept)
        requires { AreAllFor P.weigh self.old all }
        ensures { HasFacts all.facts.facts self.old self.new }
    {
        let FactsKept {
            facts,
            stats,
            index,
            groups,
            views,
            rows,
        } = all;
        let patterns = patterns_of(&self.space, &facts);
        drop(std::mem::replace(&mut self.facts, facts));
        drop(std::mem::replace(&mut self.stats, stats));
        drop(std::mem::replace(&mut self.index, index));
        drop(std::mem::replace(&mut self.patterns, patterns));
        drop(std::mem::replace(&mut self.groups, groups));
        drop(std::mem::replace(&mut self.views, views));
        self.rows = rows;
    }
}

impl<P: WeightPolicy + Drop + Copy> State<P> {
    /// A state without facts over another space, of as many dimensions, with equal measures, views and an equal policy. The only error
    /// is running out of memory.
    pub fn fresh(&self, space: Space) -> Result<Self, Memory>
        requires { length space ≡ length self.now.dims }
        ensures policy { IfOk result (λ state. state.policy ≡ self.now.policy) }
        ensures dims { IfOk result (λ state. state.dims ≡ space) }
        ensures shape { IfOk result (λ state. state.shape ≡ self.now.shape) }
        ensures cuts { IfOk result (λ state. state.cuts ≡ self.now.cuts) }
        ensures facts { IfOk result (λ state. state.facts ≡ []) }
    {
        let _ = space.dims();
        let shape = self.shape.copy()?;
        let views = self.views.without_entries()?;
        Ok(State {
            alloc: self.alloc,
            space,
            shape,
            policy: self.policy,
            facts: FactList::new(self.alloc),
            stats: StatIndex::new(self.alloc),
            index: RegionIndex::new(self.alloc),
            patterns: DepthPatterns::new(),
            groups: Staged::new(self.alloc),
            views,
            rows: 0,
        })
    }
}

/// Does an edit, for which there is room. It takes no memory.
fn apply(facts: &mut FactList, edit: Edit)
    requires { has_room edit facts.old.facts facts.old.spare ≡ true }
    ensures { facts.new.facts ≡ after edit facts.old.facts }
{
    match edit {
        Edit::Put(fact) | Edit::Change(fact) => {
            let _ = facts.put(fact);
        }
        Edit::Withdraw(id) => {
            let _ = facts.take(id);
        }
    }
}
