//! The statistics of cells, made from facts.
ghost use Rattle.std.specs.Prelude.{◌≡◌, ◌<◌, ◌≤◌, ℕ, IfOk, IfSome, OnOk};
ghost use Rattle.cube_model.specs.Limits.{MAX_FACTS, MAX_VALUE};
ghost use Rattle.cell_weight.specs.Stats.{stat_at};
ghost use Rattle.fact_records.specs.Valid.{AreValid};
ghost use Rattle.fact_indexes.specs.Anew.{AreStatsOf};
ghost use Rattle.fact_indexes.specs.Counted.{stat_with};

use cell_weight::{CellStat, StatIndex};
use cube_base::Memory;
use fact_records::{FactList, Shape};
use region_algebra::Space;
use std::alloc::Global;
use touched_cells::cell_of_fact;

/// The statistics of the cells on which facts lie: for each the number of its precise facts, and the sum that they add.
pub(crate) fn stats_of(
    alloc: Global,
    space: &Space,
    shape: &Shape,
    facts: &FactList,
) -> Result<StatIndex, Memory>
    requires { AreValid shape.now space.now facts.now.facts }
    ensures { IfOk result (λ stats. AreStatsOf shape.now space.now facts.now.facts stats) }
{
    let _ = shape.columns();
    let mut stats = StatIndex::new(alloc);
    for fact in facts.iter() {
        count_in(&mut stats, cell_of_fact(space, shape, Some(fact)))?;
    }
    Ok(stats)
}

/// Counts a fact in at the cell on which it lies, if it lies on one.
fn count_in(stats: &mut StatIndex, lying: Option<(u64, u64)>) -> Result<(), Memory>
    requires few { IfSome lying (λ l. (stat_at stats.old l.0).count < MAX_FACTS) }
    requires light { IfSome lying (λ l. l.1 ≤ MAX_VALUE) }
    ensures { OnOk result ((cell : ℕ) → stat_at stats.new cell ≡ stat_with lying cell (stat_at stats.old cell)) }
{
    let Some((cell, added)) = lying else {
        return Ok(());
    };
    let stat = stats.stat(cell);
    let counted = CellStat {
        count: stat.count + 1,
        sum: stat.sum + added,
    };
    let changes = [(cell, counted)];
    stats.stage(&changes)?;
    stats.install(&changes);
    Ok(())
}
