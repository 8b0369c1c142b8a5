//! What is counted of facts: all that is kept of them but the views.
ghost use Rattle.std.specs.Prelude.{◌≡◌, ◌≤◌, IfErr, IfOk};
ghost use Rattle.cube_model.specs.Allocation.{extended, row_count};
ghost use Rattle.cube_model.specs.Limits.{MAX_ROWS};
ghost use Rattle.fact_records.specs.Shape.{policy_over};
ghost use Rattle.fact_records.specs.Valid.{AreValid};
ghost use Rattle.fact_indexes.specs.Anew.{AreGroupsOf, AreStatsOf, IsTooMany};
ghost use Rattle.region_index.specs.Indexed.{Indexes};

use crate::grouping::{groups_of, rows_of};
use crate::indexing::index_of;
use crate::statistics::stats_of;
use crate::{Group, TooMany};
use cell_weight::{StatIndex, WeightPolicy};
use cube_model::MAX_ROWS;
use fact_records::{FactList, Shape};
use region_algebra::Space;
use region_index::RegionIndex;
use staged_map::Staged;
use std::alloc::Global;

/// The statistics, the index, the groups and the number of rows of facts.
#[derive(Drop)]
pub(crate) struct Tally {
    pub(crate) stats: StatIndex,
    pub(crate) index: RegionIndex,
    pub(crate) groups: Staged<Group>,
    pub(crate) rows: u64,
}

/// Those of these facts.
pub(crate) fn count_all<P: WeightPolicy>(
    alloc: Global,
    space: &Space,
    shape: &Shape,
    policy: &P,
    facts: &FactList,
) -> Result<Tally, TooMany>
    requires { AreValid shape.now space.now facts.now.facts }
    ensures stats { IfOk result (λ tally. AreStatsOf shape.now space.now facts.now.facts tally.stats) }
    ensures index { IfOk result (λ tally. Indexes space.now facts.now.facts tally.index) }
    ensures groups { IfOk result (λ tally. AreGroupsOf (policy_over (P.weigh policy.now) shape.now) shape.now space.now facts.now.facts tally.groups) }
    ensures rows { IfOk result (λ tally. tally.rows ≡ row_count (extended (policy_over (P.weigh policy.now) shape.now) space.now facts.now.facts)) }
    ensures few { IfOk result (λ tally. tally.rows ≤ MAX_ROWS) }
    ensures fault { IfErr result (IsTooMany (policy_over (P.weigh policy.now) shape.now) space.now facts.now.facts) }
{
    let stats = stats_of(alloc, space, shape, facts)?;
    let (groups, rows) = few_groups(alloc, space, shape, policy, &stats, facts)?;
    let index = index_of(alloc, space, shape, facts)?;
    Ok(Tally {
        stats,
        index,
        groups,
        rows,
    })
}

/// The groups of facts and the number of their rows, unless these are too many. The statistics are those of the facts.
fn few_groups<P: WeightPolicy>(
    alloc: Global,
    space: &Space,
    shape: &Shape,
    policy: &P,
    stats: &StatIndex,
    facts: &FactList,
) -> Result<(Staged<Group>, u64), TooMany>
    requires valid { AreValid shape.now space.now facts.now.facts }
    requires stats { AreStatsOf shape.now space.now facts.now.facts stats.now }
    ensures groups { IfOk result (λ few. AreGroupsOf (policy_over (P.weigh policy.now) shape.now) shape.now space.now facts.now.facts few.0) }
    ensures rows { IfOk result (λ few. few.1 ≡ row_count (extended (policy_over (P.weigh policy.now) shape.now) space.now facts.now.facts)) }
    ensures few { IfOk result (λ few. few.1 ≤ MAX_ROWS) }
    ensures fault { IfErr result (IsTooMany (policy_over (P.weigh policy.now) shape.now) space.now facts.now.facts) }
{
    let groups = groups_of(alloc, space, shape, policy, stats, facts)?;
    let rows = rows_of(space, shape, policy, facts, &groups);
    if rows > MAX_ROWS {
        return Err(TooMany::Rows { would: rows });
    }
    Ok((groups, rows))
}
