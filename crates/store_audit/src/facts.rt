//! The facts of a stored content, judged one after another.
ghost use Rattle.std.specs.Prelude.{◌≡◌, ◌++◌, ◌+◌, ◌<◌, ◌≤◌, ◌∷◌, [], All, IfErr, IfOk, OnOk, length, map, min, nat_le, nat_lt, ◌||◌};
ghost use Rattle.std.specs.Result.{result_err};
ghost use Rattle.cube_model.specs.Limits.{MAX_FACTS, MAX_ID};
ghost use Rattle.fact_records.specs.Accepted.{cols_refusal};
ghost use Rattle.fact_records.specs.Valid.{AreValid};
ghost use Rattle.store_audit.specs.Loading.{IsFactFault};
ghost use Rattle.store_audit.specs.Sound.{AreGood, fact_fault, fact_told};

use crate::{Finding, LoadFault};
use cube_base::{Code, Cols};
use cube_model::{Fact, MAX_FACTS, MAX_ID};
use fact_keeper::KeptFact;
use fact_records::{FactList, Shape, check_cols, check_region};
use region_algebra::Space;
use std::alloc::Global;

/// The facts that kept ones tell, in order, or the first of these that is refused. The room for all is made once, and none is
/// searched for.
pub(crate) fn read_facts(
    alloc: Global,
    space: &Space,
    shape: &Shape,
    kept: &[KeptFact],
) -> Result<FactList, LoadFault>
    ensures facts { IfOk result (λ list. list.facts ≡ map fact_told kept.now) }
    ensures valid { IfOk result (λ list. AreValid shape.now space.now list.facts) }
    ensures good { OnOk result (AreGood shape.now space.now kept.now) }
    ensures fault { IfErr result (IsFactFault shape.now space.now kept.now) }
{
    let mut facts = FactList::new(alloc);
    facts.reserve((kept.len() as u64).min(MAX_FACTS))?;
    read_all(space, shape, kept, &mut facts)?;
    let _ = facts.len();
    Ok(facts)
}

/// Puts the facts that kept ones tell into a list without facts. There is room for as many as there are, or may be.
fn read_all(
    space: &Space,
    shape: &Shape,
    kept: &[KeptFact],
    facts: &mut FactList,
) -> Result<(), LoadFault>
    requires empty { facts.old.facts ≡ [] }
    requires room { min (length kept.now) MAX_FACTS ≤ facts.old.spare }
    ensures facts { OnOk result (facts.new.facts ≡ map fact_told kept.now) }
    ensures good { OnOk result (AreGood shape.now space.now kept.now) }
    ensures fault { IfErr result (IsFactFault shape.now space.now kept.now) }
{
    let mut before = 0;
    for (place, fact) in kept.iter().enumerate() {
        if let Err(code) = read_one(space, shape, place as u64, before, fact, facts) {
            return Err(LoadFault::Bad(Finding::Fact {
                place: place as u64,
                id: fact.id,
                code,
            }));
        }
        before = fact.id;
    }
    Ok(())
}

/// Puts the fact that a kept one tells after the others, where it is not refused. It stands at a place after the id
/// before, and there is room for it where there may be so many.
fn read_one(
    space: &Space,
    shape: &Shape,
    place: u64,
    before: u64,
    kept: &KeptFact,
    facts: &mut FactList,
) -> Result<(), Code>
    requires order { All (λ f. f.id ≤ before) facts.old.facts }
    requires room { place < MAX_FACTS → 1 ≤ facts.old.spare }
    ensures judged { result_err result ≡ fact_fault shape.now space.now place before kept.now }
    ensures put { OnOk result (facts.new.facts ≡ facts.old.facts ++ fact_told kept.now ∷ []) }
    ensures order { OnOk result (All (λ f. f.id ≤ kept.now.id) facts.new.facts) }
    ensures spare { facts.old.spare ≤ facts.new.spare + 1 }
{
    let fact = judge(space, shape, place, before, kept)?;
    let _ = facts.put(fact);
    Ok(())
}

/// The fact that a kept one tells, which stands at a place after one of the id before, or why it is refused.
fn judge(
    space: &Space,
    shape: &Shape,
    place: u64,
    before: u64,
    kept: &KeptFact,
) -> Result<Fact, Code>
    ensures told { IfOk result (λ fact. fact ≡ fact_told kept.now) }
    ensures judged { result_err result ≡ fact_fault shape.now space.now place before kept.now }
    ensures above { OnOk result (before < kept.now.id) }
    ensures room { OnOk result (place < MAX_FACTS) }
{
    if has_wrong_id(before, kept.id) {
        return Err(Code::Id);
    }
    let Some(region) = space.region(kept.nodes.as_slice()) else {
        return Err(Code::Node);
    };
    let cols = read_cols(shape, kept.cols.as_slice())?;
    check_region(space, region)?;
    if place >= MAX_FACTS {
        return Err(Code::Facts);
    }
    Ok(Fact {
        id: kept.id,
        region,
        cols,
    })
}

/// Whether a fact after one of the id before may not have this id.
fn has_wrong_id(before: u64, id: u64) -> bool
    ensures { result ≡ (nat_le id before || nat_lt MAX_ID id) }
{
    id <= before || id > MAX_ID
}

/// The values of a fact, or why they are refused.
fn read_cols(shape: &Shape, values: &[i64]) -> Result<Cols, Code>
    ensures held { IfOk result (λ cols. cols ≡ values.now) }
    ensures judged { result_err result ≡ cols_refusal shape.now values.now }
{
    let _ = shape.columns();
    let Some(cols) = Cols::new(values) else {
        return Err(Code::Value);
    };
    check_cols(shape, cols)?;
    Ok(cols)
}
