//! Comparing the base of a feed with what a store holds.
ghost use Rattle.std.specs.Prelude.{◌≡◌, ◌==◌, ◌&&◌, length, map};
ghost use Rattle.std.specs.Cmp.Lexicographic.{pointwise};
ghost use Rattle.std.specs.Ordering.{int_eq};
ghost use Rattle.region_algebra.specs.Space.{IsRegion};
ghost use Rattle.store_audit.specs.Sound.{fact_told};
ghost use Rattle.feed_run.specs.BeginTurn.{ComparesBase, HaveRegions};
ghost use Rattle.feed_run.specs.Following.{are_same, first_difference};

use crate::part_stop::PartStop;
use crate::{Base, FeedStop};
use cube_base::Cols;
use cube_model::{Fact, Region};
use fact_keeper::KeptFact;
use region_algebra::Space;
use schema_text::{Schema, write_schema};
use std::alloc::Global;

/// Compares the base of a feed with what a store holds.
pub(crate) fn compare_base(
    alloc: Global,
    base: &Base,
    schema: &Schema,
    facts: &[Fact],
) -> Result<(), PartStop>
    requires { HaveRegions schema.now.dims facts.now }
    ensures { ComparesBase base.now schema.now facts.now result }
{
    let text = write_schema(alloc, schema)?;
    if base.text() != text.as_slice() {
        return Err(PartStop::Feed(FeedStop::Base { place: None }));
    }
    match first_difference(schema.space(), base.facts(), facts) {
        None => Ok(()),
        place => Err(PartStop::Feed(FeedStop::Base { place })),
    }
}

/// The first place at which kept facts and others differ, if there is one.
fn first_difference(space: &Space, kept: &[KeptFact], facts: &[Fact]) -> Option<u64>
    requires { HaveRegions space.now facts.now }
    ensures { result ≡ first_difference (map fact_told kept.now) facts.now }
{
    let count = kept.len().min(facts.len());
    for place in 0..count {
        if !are_same(space, &kept[place], &facts[place]) {
            return Some(place as u64);
        }
    }
    if kept.len() == facts.len() {
        None
    } else {
        Some(count as u64)
    }
}

/// Whether a kept fact is another one.
fn are_same(space: &Space, kept: &KeptFact, fact: &Fact) -> bool
    requires { IsRegion space.now fact.now.region }
    ensures { result ≡ are_same (fact_told kept.now) fact.now }
{
    kept.id == fact.id
        && are_nodes(space, kept.nodes.as_slice(), fact.region)
        && are_values(kept.cols.as_slice(), &fact.cols)
}

/// Whether these are the nodes of a region of the space.
fn are_nodes(space: &Space, nodes: &[u32], region: Region) -> bool
    requires { IsRegion space.now region }
    ensures { result ≡ pointwise (λ m n. m == n) nodes.now region }
{
    let count = space.dims();
    if nodes.len() != count as usize {
        return false;
    }
    for d in 0..count {
        if nodes[d as usize] != region.node(d) {
            return false;
        }
    }
    true
}

/// Whether these are the values of columns.
fn are_values(values: &[i64], cols: &Cols) -> bool
    ensures { result ≡ pointwise int_eq values.now cols.now }
{
    let count = cols.len();
    if values.len() != count as usize {
        return false;
    }
    for i in 0..count {
        if !is_value(values[i as usize], cols.get(i)) {
            return false;
        }
    }
    true
}

/// Whether a value is another one.
fn is_value(value: i64, other: i64) -> bool
    ensures { result ≡ int_eq value other }
{
    value == other
}
