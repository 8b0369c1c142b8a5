//! What a region's sum may be at least and at most, and where imprecise facts stand for it.
ghost use Rattle.std.specs.Prelude.{◌≡◌, ◌<◌, ◌≤◌, ◌+ℤ◌, ◌^◌, All, IfOk, Some, if◌then◌else◌, length, nat_abs, not, pos};
ghost use Rattle.cube_model.specs.Allocation.{allocation};
ghost use Rattle.cube_model.specs.Cells.{all_cells, cells_of, is_among};
ghost use Rattle.cube_model.specs.Facts.{is_precise};
ghost use Rattle.cube_state.specs.State.{policy_in, rows_in};
ghost use Rattle.fact_records.specs.FactList.{fact_of};
ghost use Rattle.fact_records.specs.Shape.{width_of_all};
ghost use Rattle.region_algebra.specs.Inside.{cells_inside};
ghost use Rattle.region_algebra.specs.Space.{IsRegion};
ghost use Rattle.world_range.specs.Ends.{AreEnds};
ghost use Rattle.world_range.specs.Picks.{end_of};
ghost use Rattle.world_range.specs.declared.extreme.Extreme.TheVariants.{Greatest, Least};
ghost use Rattle.cube_core.specs.Cube.{cube_rows};
ghost use Rattle.cube_core.specs.Ranging.{picks_in, picks_over};

use crate::Cube;
use alloc_rows::Alloc;
use cell_weight::WeightPolicy;
use cube_base::{Memory, Pairs};
use cube_model::{Fact, Region};
use cube_state::{Ends, State, column_of};
use region_algebra::Inside;
use std::alloc::Global;
use world_range::{Extreme, pick};

/// An end of a region's sum, with where the imprecise facts stand for it.
#[derive(Debug, Drop)]
pub struct Picks {
    /// The sum.
    pub sum: i128,
    /// The id of each imprecise fact, ascending, and the cell in which it stands.
    pub picks: Pairs,
}

impl<P: WeightPolicy + Drop> Cube<P> {
    /// The least and the greatest that the sum of a column in `r` may be over all possible worlds of the facts. In each world every
    /// fact stands in one cell of its allocation. `r` must be a region of the space. Column 0 is the count, and those of the values
    /// follow. The only error is running out of memory.
    ///
    /// By the law of the ends some world has the least sum, some world has the greatest, and the sum of every world lies between.
    pub fn ends(&self, r: Region, column: u32) -> Result<Ends, Memory>
        requires region { IsRegion self.now.schema.dims r }
        requires column { column ≤ width_of_all self.now.schema.measures }
        ensures least { IfOk result (λ ends. ends.least ≡ end_of Least (cells_of self.now.schema.dims r) column (cube_rows P.weigh self.now)) }
        ensures greatest { IfOk result (λ ends. ends.greatest ≡ end_of Greatest (cells_of self.now.schema.dims r) column (cube_rows P.weigh self.now)) }
        ensures law { AreEnds self.now.schema.dims r column (cube_rows P.weigh self.now) }
    {
        let _ = self.schema.space();
        let _ = self.state.facts();
        self.state.ends(r, column)
    }

    /// An end of what the sum of a column in `r` may be over all possible worlds of the facts, and where each imprecise fact stands
    /// in a world that has it. That is the cell of the first of its rows that is wanted there, or of its first row where none is.
    /// `r` must be a region of the space. Column 0 is the count, and those of the values follow. The only error is running out of memory.
    /// It takes time in proportion to the facts and rows.
    pub fn picks(&self, extreme: Extreme, r: Region, column: u32) -> Result<Picks, Memory>
        requires region { IsRegion self.now.schema.dims r }
        requires column { column ≤ width_of_all self.now.schema.measures }
        ensures sum { IfOk result (λ picked. picked.sum ≡ end_of extreme (cells_of self.now.schema.dims r) column (cube_rows P.weigh self.now)) }
        ensures picks { IfOk result (λ picked. picked.picks ≡ picks_over (P.weigh self.now.policy) self.now.schema self.now.facts extreme r column) }
        ensures cells { IfOk result (λ picked. All (λ pick. pick.1 < length (all_cells self.now.schema.dims)) picked.picks) }
    {
        picks_of(self.alloc, &self.state, extreme, r, column)
    }
}

/// The same over the facts of a state.
fn picks_of<P: WeightPolicy + Drop>(
    alloc: Global,
    state: &State<P>,
    extreme: Extreme,
    r: Region,
    column: u32,
) -> Result<Picks, Memory>
    requires region { IsRegion state.now.dims r }
    requires column { column ≤ width_of_all state.now.shape.measures }
    ensures sum { IfOk result (λ picked. picked.sum ≡ end_of extreme (cells_of state.now.dims r) column (rows_in P.weigh state.now)) }
    ensures picks { IfOk result (λ picked. picked.picks ≡ picks_in P.weigh state.now extreme r column) }
    ensures cells { IfOk result (λ picked. All (λ pick. pick.1 < length (all_cells state.now.dims)) picked.picks) }
{
    let inside = state.space().inside(r);
    let mut sum = 0;
    let mut picks = Pairs::new(alloc);
    for fact in state.facts().iter() {
        let spread = spread_of(state, &fact);
        let value = column_of(&fact, column);
        let cell = pick(extreme, value, spread.rows(), &inside);
        sum = with_own(sum, value, cell, &inside);
        if is_imprecise(state, &fact) {
            picks.push((fact.id, cell))?;
        }
    }
    Ok(Picks { sum, picks })
}

/// How a fact of a state is spread.
fn spread_of<'a, P: WeightPolicy + Drop>(state: &'a State<P>, fact: &Fact) -> &'a Alloc
    requires { fact_of fact.now.id state.now.facts ≡ Some fact.now }
    ensures { result.now ≡ allocation (policy_in P.weigh state.now) state.now.dims state.now.facts fact.now }
{
    let _ = state.facts();
    let Some(spread) = state.spread_at(state.code(fact.region)) else {
        unreachable!()
    };
    spread
}

/// Whether a fact of a state is imprecise: its region has several cells, however many rows it has.
fn is_imprecise<P: WeightPolicy + Drop>(state: &State<P>, fact: &Fact) -> bool
    requires there { fact_of fact.now.id state.now.facts ≡ Some fact.now }
    requires region { IsRegion state.now.dims fact.now.region }
    ensures { result ≡ not (is_precise state.now.dims fact.now) }
{
    state.space().cell_count(fact.region) > 1
}

/// The sum with that of a fact that stands at a cell: its value if the cell is the region's.
fn with_own(sum: i128, value: i64, cell: u64, inside: &Inside<'_>) -> i128
    requires { nat_abs sum ≤ 2 ^ 126 }
    ensures { result ≡ sum +ℤ (if is_among (cells_inside inside.now) cell then value else pos 0) }
{
    if inside.holds(cell) {
        sum + i128::from(value)
    } else {
        sum
    }
}
