//! The groups of facts, and their rows.
ghost use Rattle.std.specs.Prelude.{◌≡◌, ◌==◌, ◌+ℤ◌, ◌*◌, ◌<◌, ◌≤◌, ℕ, IfOk, IfSome, OnOk, Some, if◌then◌else◌, length, nat_abs};
ghost use Rattle.std.specs.Option.{option_copied};
ghost use Rattle.alloc_rows.specs.Alloc.{AreFewAt};
ghost use Rattle.cell_weight.specs.Stats.{stat_at};
ghost use Rattle.cube_model.specs.Allocation.{extended, row_count, spread};
ghost use Rattle.cube_model.specs.Cells.{cells_of};
ghost use Rattle.cube_model.specs.Limits.{MAX_CELLS, MAX_FACTS, MAX_VALUE};
ghost use Rattle.fact_records.specs.Shape.{policy_over};
ghost use Rattle.fact_records.specs.Valid.{AreValid};
ghost use Rattle.fact_indexes.specs.Anew.{AreGroupsOf, AreStatsOf};
ghost use Rattle.fact_indexes.specs.Grouping.{CanBeAdded, group_alone, group_joined, group_with, sums_with};
ghost use Rattle.region_algebra.specs.Space.{IsRegion};
ghost use Rattle.staged_map.specs.Staged.{value_at};

use crate::Group;
use alloc_rows::allocate_at;
use cell_weight::{StatIndex, WeightPolicy};
use cube_base::{Cols, MAX_COLS, Memory};
use cube_model::Fact;
use fact_records::{FactList, Shape};
use region_algebra::Space;
use staged_map::Staged;
use std::alloc::Global;

/// For each region that a fact has, by its code, the facts there. The statistics are those of the facts.
pub(crate) fn groups_of<P: WeightPolicy>(
    alloc: Global,
    space: &Space,
    shape: &Shape,
    policy: &P,
    stats: &StatIndex,
    facts: &FactList,
) -> Result<Staged<Group>, Memory>
    requires valid { AreValid shape.now space.now facts.now.facts }
    requires stats { AreStatsOf shape.now space.now facts.now.facts stats.now }
    ensures { IfOk result (λ groups. AreGroupsOf (policy_over (P.weigh policy.now) shape.now) shape.now space.now facts.now.facts groups) }
{
    let _ = shape.columns();
    let mut groups = Staged::new(alloc);
    for fact in facts.iter() {
        let code = space.code(fact.region);
        let group = group_joined(alloc, space, policy, stats, groups.get(code), &fact)?;
        put_group(&mut groups, code, group)?;
    }
    Ok(groups)
}

/// The group of the facts of a region, if there is one, with a fact more: where there is none, that alone.
fn group_joined<P: WeightPolicy>(
    alloc: Global,
    space: &Space,
    policy: &P,
    stats: &StatIndex,
    group: Option<&Group>,
    fact: &Fact,
) -> Result<Group, Memory>
    requires region { IsRegion space.now fact.now.region }
    requires few_cells { length (cells_of space.now fact.now.region) ≤ MAX_CELLS }
    requires counted { AreFewAt space.now stats.now fact.now.region }
    requires few { IfSome (option_copied group) (λ g. g.count ≤ MAX_FACTS) }
    requires added { IfSome (option_copied group) (λ g. CanBeAdded g.sums fact.now.cols) }
    ensures { IfOk result (λ joined. joined ≡ group_joined (spread (λ cell. P.weigh policy.now (stat_at stats.now cell)) (cells_of space.now fact.now.region)) (option_copied group.entry) fact.now) }
{
    match group {
        Some(group) => group_with(group, fact),
        None => group_alone(alloc, space, policy, stats, fact),
    }
}

/// A fact alone as a group.
fn group_alone<P: WeightPolicy>(
    alloc: Global,
    space: &Space,
    policy: &P,
    stats: &StatIndex,
    fact: &Fact,
) -> Result<Group, Memory>
    requires region { IsRegion space.now fact.now.region }
    requires few { length (cells_of space.now fact.now.region) ≤ MAX_CELLS }
    requires counted { AreFewAt space.now stats.now fact.now.region }
    ensures { IfOk result (λ group. group ≡ group_alone (spread (λ cell. P.weigh policy.now (stat_at stats.now cell)) (cells_of space.now fact.now.region)) fact.now) }
{
    let spread = allocate_at(alloc, space, policy, stats, fact.region)?;
    Ok(Group {
        spread,
        members: 1,
        sums: fact.cols,
    })
}

/// A group with a fact of its region more, which is spread as the others. No row is copied.
fn group_with(group: &Group, fact: &Fact) -> Result<Group, Memory>
    requires few { group.now.count ≤ MAX_FACTS }
    requires added { CanBeAdded group.now.sums fact.now.cols }
    ensures { IfOk result (λ more. more ≡ group_with group.now fact.now) }
{
    let spread = group.spread.share()?;
    Ok(Group {
        spread,
        members: group.members + 1,
        sums: sums_with(group.sums, fact.cols),
    })
}

/// The sums of columns, with the values of a fact more.
fn sums_with(sums: Cols, values: Cols) -> Cols
    requires { CanBeAdded sums values }
    ensures { result ≡ sums_with sums values }
{
    let columns = sums.len();
    let mut added = [0; MAX_COLS];
    for column in 0..columns {
        added[column as usize] = sum_with(sums.get(column), values.get(column));
    }
    let Some(added) = Cols::new(&added[..columns as usize]) else {
        unreachable!()
    };
    added
}

/// A sum with one value more.
fn sum_with(sum: i64, value: i64) -> i64
    requires sum { nat_abs sum ≤ MAX_FACTS * MAX_VALUE }
    requires value { nat_abs value ≤ MAX_VALUE }
    ensures { result ≡ sum +ℤ value }
{
    sum + value
}

/// Gives a code a group.
fn put_group(groups: &mut Staged<Group>, code: u64, group: Group) -> Result<(), Memory>
    ensures { OnOk result ((k : ℕ) → value_at groups.new k ≡ (if code == k then Some group else value_at groups.old k)) }
{
    groups.reserve(&[code])?;
    let _ = groups.set(code, group);
    Ok(())
}

/// The number of rows of all facts, of which these are the groups.
pub(crate) fn rows_of<P: WeightPolicy>(
    space: &Space,
    shape: &Shape,
    policy: &P,
    facts: &FactList,
    groups: &Staged<Group>,
) -> u64
    requires valid { AreValid shape.now space.now facts.now.facts }
    requires groups { AreGroupsOf (policy_over (P.weigh policy.now) shape.now) shape.now space.now facts.now.facts groups.now }
    ensures { result ≡ row_count (extended (policy_over (P.weigh policy.now) shape.now) space.now facts.now.facts) }
{
    let _ = space.dims();
    let _ = groups.count();
    let mut rows = 0;
    for i in 0..groups.count() {
        if let Some((_, group)) = groups.at(i) {
            rows += rows_in(group);
        }
    }
    rows
}

/// The number of rows of the facts of a group.
fn rows_in(group: &Group) -> u64
    requires { group.now.count * length group.now.spread.rows ≤ MAX_FACTS * MAX_CELLS }
    ensures { result ≡ group.now.count * length group.now.spread.rows }
{
    group.members * group.spread.rows().len() as u64
}
