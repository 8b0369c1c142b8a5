//! Answers about what sums may be in possible worlds.
ghost use Rattle.std.specs.Prelude.{◌≡◌, ◌+◌, ◌<◌, ◌∷◌, [], IfOk};
ghost use Rattle.fact_records.specs.Shape.{width_of_all};
ghost use Rattle.region_algebra.specs.Space.{IsRegion};
ghost use Rattle.schema_text.specs.Schema.{weigh_of};
ghost use Rattle.script_text.specs.Reply.{NamesPlaces};
ghost use Rattle.script_answers.specs.Answers.{picks_answer, range_answer, state_of};

use cube_base::{Code, Memory, Nums};
use cube_core::Cube;
use cube_model::Region;
use schema_text::PolicyWord;
use script_text::Answer;
use std::alloc::Global;
use world_range::Extreme;

/// The least and the greatest that a column may add up to in a region.
pub fn range_answer(
    alloc: Global,
    cube: &Cube<PolicyWord>,
    region: Region,
    column: u32,
) -> Result<Result<Answer, Code>, Memory>
    requires region { IsRegion cube.now.schema.dims region }
    requires column { column < width_of_all cube.now.schema.measures + 1 }
    ensures answer { IfOk result (λ told. told ≡ range_answer (weigh_of cube.now.policy) cube.now.schema (state_of cube.now) region column) }
    ensures places { IfOk result (λ told. IfOk told (NamesPlaces cube.now.schema.dims)) }
{
    let ends = cube.ends(region, column)?;
    let numbers = two_numbers(alloc, ends.least, ends.greatest)?;
    Ok(Ok(Answer::Numbers(numbers)))
}

/// Two numbers.
fn two_numbers(alloc: Global, first: i128, second: i128) -> Result<Nums, Memory>
    ensures { IfOk result (λ numbers. numbers ≡ first ∷ second ∷ []) }
{
    let mut numbers = Nums::new(alloc);
    numbers.push(first)?;
    numbers.push(second)?;
    Ok(numbers)
}

/// The least or the greatest that a column may add up to in a region, and where imprecise facts stand in a world that has it.
pub fn picks_answer(
    cube: &Cube<PolicyWord>,
    extreme: Extreme,
    region: Region,
    column: u32,
) -> Result<Result<Answer, Code>, Memory>
    requires region { IsRegion cube.now.schema.dims region }
    requires column { column < width_of_all cube.now.schema.measures + 1 }
    ensures answer { IfOk result (λ told. told ≡ picks_answer extreme (weigh_of cube.now.policy) cube.now.schema (state_of cube.now) region column) }
    ensures places { IfOk result (λ told. IfOk told (NamesPlaces cube.now.schema.dims)) }
{
    let picked = cube.picks(extreme, region, column)?;
    Ok(Ok(Answer::Picks {
        sum: picked.sum,
        picks: picked.picks,
    }))
}
