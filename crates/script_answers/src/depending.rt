//! Answers about facts that are shared round after round, and which of them depend on each other.
ghost use Rattle.std.specs.Prelude.{◌≡◌, ◌≤◌, ◌∷◌, length, map, pos, IfOk};
ghost use Rattle.fact_records.specs.Valid.{AreValid};
ghost use Rattle.region_algebra.specs.Space.{IsRegion};
ghost use Rattle.schema_text.specs.Schema.{shape_of};
ghost use Rattle.script_text.specs.Reply.{NamesPlaces};
ghost use Rattle.script_text.specs.ScriptLine.{MIN_ROUNDS};
ghost use Rattle.script_answers.specs.Answers.{component_answer, rounds_answer};

use cube_base::{Code, Memory, Nums};
use cube_model::Region;
use fact_records::FactList;
use iter_alloc::{IterFault, component, iterate};
use schema_text::Schema;
use script_text::Answer;
use std::alloc::Global;

/// What is in a region after so many rounds: `many` where imprecise facts may lie in too many cells.
pub fn rounds_answer(
    alloc: Global,
    schema: &Schema,
    facts: &FactList,
    rounds: u32,
    region: Region,
) -> Result<Result<Answer, Code>, Memory>
    requires facts { AreValid (shape_of schema.now) schema.now.dims facts.now.facts }
    requires rounds { MIN_ROUNDS ≤ rounds }
    requires region { IsRegion schema.now.dims region }
    ensures answer { IfOk result (λ told. told ≡ rounds_answer schema.now (record { dims = schema.now.dims; facts = facts.now.facts }) rounds region) }
    ensures places { IfOk result (λ told. IfOk told (NamesPlaces schema.now.dims)) }
{
    let columns = schema.shape().columns();
    match iterate(alloc, schema.space(), facts, rounds, region, columns) {
        Ok(totals) => Ok(Ok(Answer::Numbers(totals))),
        Err(IterFault::Many { .. }) => Ok(Err(Code::Many)),
        Err(IterFault::Memory) => Err(Memory),
    }
}

/// How many facts are in the component of that of an id, and their ids: `missing` where there is no such fact, and else `many`
/// where imprecise facts may lie in too many cells.
pub fn component_answer(
    alloc: Global,
    schema: &Schema,
    facts: &FactList,
    id: u64,
) -> Result<Result<Answer, Code>, Memory>
    requires facts { AreValid (shape_of schema.now) schema.now.dims facts.now.facts }
    ensures answer { IfOk result (λ told. told ≡ component_answer (record { dims = schema.now.dims; facts = facts.now.facts }) id) }
    ensures places { IfOk result (λ told. IfOk told (NamesPlaces schema.now.dims)) }
{
    if !facts.has(id) {
        return Ok(Err(Code::Missing));
    }
    match component(alloc, schema.space(), facts, id) {
        Ok(ids) => Ok(Ok(Answer::Numbers(count_and_ids(alloc, ids.as_slice())?))),
        Err(IterFault::Many { .. }) => Ok(Err(Code::Many)),
        Err(IterFault::Memory) => Err(Memory),
    }
}

/// The number of ids, and the ids.
fn count_and_ids(alloc: Global, ids: &[u64]) -> Result<Nums, Memory>
    ensures { IfOk result (λ numbers. numbers ≡ pos (length ids.now) ∷ map (λ id. pos id) ids.now) }
{
    let mut numbers = Nums::new(alloc);
    numbers.push(ids.len() as i128)?;
    for id in ids {
        numbers.push(i128::from(*id))?;
    }
    Ok(numbers)
}
