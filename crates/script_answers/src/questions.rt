//! Answering the questions of a script.
ghost use Rattle.std.specs.Prelude.{◌≡◌, ◌+◌, ◌<◌, ◌∷◌, length, pos, IfOk};
ghost use Rattle.std.specs.Option.{option_copied};
ghost use Rattle.fact_records.specs.Shape.{width_of_all};
ghost use Rattle.region_algebra.specs.Space.{IsRegion};
ghost use Rattle.schema_text.specs.Schema.{weigh_of};
ghost use Rattle.script_text.specs.LineOf.{IsMeasureOver, IsQuestionOf};
ghost use Rattle.script_text.specs.Reply.{NamesCells, NamesPlaces};
ghost use Rattle.script_text.specs.ScriptWord.{kind_of};
ghost use Rattle.cube_core.specs.Cube.{cube_rows};
ghost use Rattle.script_answers.specs.Answers.{answer_to, id_answer, measure_answer, region_answer, reply_to, rows_answer, state_of, worlds_answer};

use crate::depending::{component_answer, rounds_answer};
use crate::ends::{picks_answer, range_answer};
use crate::figures::{COUNT, Figure, figure_answer, first_col};
use crate::tables::{each_figure, table_answer};
use alloc_rows::Alloc;
use cube_base::{Code, Memory, Nums, Pairs};
use cube_core::Cube;
use cube_model::Region;
use schema_text::PolicyWord;
use script_text::{
    Answer, IdWord, MeasureWord, Question, RegionWord, Reply, RoundsWord, TableWord, ViewWord,
};
use std::alloc::Global;
use world_law::{WorldFault, WorldSum};
use world_range::Extreme;

/// What a cube answers a question, or the code by which it refuses it. The only error is running out of memory.
pub fn answer(
    alloc: Global,
    cube: &Cube<PolicyWord>,
    question: &Question,
) -> Result<Result<Answer, Code>, Memory>
    requires { IsQuestionOf cube.now.schema question.now }
    ensures answer { IfOk result (λ told. told ≡ answer_to (weigh_of cube.now.policy) cube.now.schema (state_of cube.now) question.now) }
    ensures places { IfOk result (λ told. IfOk told (NamesPlaces cube.now.schema.dims)) }
{
    match question {
        Question::OfRegion { word, region } => answer_of_region(alloc, cube, *word, *region),
        Question::OfMeasure {
            word,
            measure,
            region,
        } => answer_of_measure(alloc, cube, *word, *measure, *region),
        Question::OfId { word, id } => answer_of_id(alloc, cube, *word, *id),
        Question::OfView {
            word: ViewWord::View,
            view,
        } => Ok(Ok(Answer::View(cube.view_list(*view)?))),
        Question::OfRounds {
            word: RoundsWord::Iterate,
            rounds,
            region,
        } => rounds_answer(alloc, cube.schema(), cube.facts(), *rounds, *region),
        Question::OfTable {
            word: TableWord::Counts,
            depths,
            region,
        } => table_answer(alloc, cube, Figure::Count, depths, *region),
        Question::OfMeasureTable {
            word,
            measure,
            depths,
            region,
        } => {
            let figure = each_figure(*word, *measure);
            table_answer(alloc, cube, figure, depths, *region)
        }
    }
}

/// The reply to a question: its word with the answer, or the refusal.
pub fn reply(alloc: Global, cube: &Cube<PolicyWord>, question: &Question) -> Result<Reply, Memory>
    requires { IsQuestionOf cube.now.schema question.now }
    ensures reply { IfOk result (λ reply. reply ≡ reply_to (weigh_of cube.now.policy) cube.now.schema (state_of cube.now) question.now) }
    ensures cells { IfOk result (NamesCells cube.now.schema.dims) }
{
    match answer(alloc, cube, question)? {
        Ok(fields) => Ok(Reply::Told {
            word: question.word(),
            fields,
        }),
        Err(code) => Ok(Reply::Refused(code)),
    }
}

/// What is answered about a region.
fn answer_of_region(
    alloc: Global,
    cube: &Cube<PolicyWord>,
    word: RegionWord,
    region: Region,
) -> Result<Result<Answer, Code>, Memory>
    requires { IsRegion cube.now.schema.dims region }
    ensures answer { IfOk result (λ told. told ≡ region_answer word (weigh_of cube.now.policy) cube.now.schema (state_of cube.now) region) }
    ensures places { IfOk result (λ told. IfOk told (NamesPlaces cube.now.schema.dims)) }
{
    match word {
        RegionWord::Count => figure_answer(alloc, cube, Figure::Count, region),
        RegionWord::Terms => Ok(Ok(Answer::Terms(cube.answer(region)?))),
        RegionWord::Worlds => worlds_answer(alloc, cube, region),
        RegionWord::RangeCount => range_answer(alloc, cube, region, COUNT),
    }
}

/// What is answered about a measure over a region.
fn answer_of_measure(
    alloc: Global,
    cube: &Cube<PolicyWord>,
    word: MeasureWord,
    measure: u32,
    region: Region,
) -> Result<Result<Answer, Code>, Memory>
    requires { IsMeasureOver cube.now.schema (kind_of word) measure region }
    ensures answer { IfOk result (λ told. told ≡ measure_answer word (weigh_of cube.now.policy) cube.now.schema (state_of cube.now) measure region) }
    ensures places { IfOk result (λ told. IfOk told (NamesPlaces cube.now.schema.dims)) }
{
    match word {
        MeasureWord::Sum => figure_answer(alloc, cube, Figure::Sum(measure), region),
        MeasureWord::Avg => figure_answer(alloc, cube, Figure::Average(measure), region),
        MeasureWord::Pool => figure_answer(alloc, cube, Figure::Pool(measure), region),
        MeasureWord::Range => range_answer(alloc, cube, region, first_col(cube.schema(), measure)),
        MeasureWord::Least => picks_answer(
            cube,
            Extreme::Least,
            region,
            first_col(cube.schema(), measure),
        ),
        MeasureWord::Greatest => picks_answer(
            cube,
            Extreme::Greatest,
            region,
            first_col(cube.schema(), measure),
        ),
    }
}

/// What is answered about a fact.
fn answer_of_id(
    alloc: Global,
    cube: &Cube<PolicyWord>,
    word: IdWord,
    id: u64,
) -> Result<Result<Answer, Code>, Memory>
    ensures answer { IfOk result (λ told. told ≡ id_answer word (weigh_of cube.now.policy) cube.now.schema (state_of cube.now) id) }
    ensures places { IfOk result (λ told. IfOk told (NamesPlaces cube.now.schema.dims)) }
{
    match word {
        IdWord::Rows => rows_answer(alloc, cube.rows(id)),
        IdWord::Component => component_answer(alloc, cube.schema(), cube.facts(), id),
    }
}

/// How a fact is spread: `missing` where there is none.
fn rows_answer(alloc: Global, allocation: Option<&Alloc>) -> Result<Result<Answer, Code>, Memory>
    ensures { IfOk result (λ told. told ≡ rows_answer (option_copied allocation.entry)) }
{
    let Some(allocation) = allocation else {
        return Ok(Err(Code::Missing));
    };
    Ok(Ok(Answer::Rows {
        den: allocation.den(),
        rows: Pairs::from(allocation.rows().to_vec(alloc)?),
    }))
}

/// What all possible worlds of the facts add up to in a region. The answer is `many` where there are too many to be
/// listed, and `wide` where their weights add up to too much.
fn worlds_answer(
    alloc: Global,
    cube: &Cube<PolicyWord>,
    region: Region,
) -> Result<Result<Answer, Code>, Memory>
    requires { IsRegion cube.now.schema.dims region }
    ensures answer { IfOk result (λ told. told ≡ worlds_answer (width_of_all cube.now.schema.measures + 1) cube.now.schema.dims region (cube_rows weigh_of cube.now)) }
    ensures places { IfOk result (λ told. IfOk told (NamesPlaces cube.now.schema.dims)) }
{
    match cube.worlds(region) {
        Ok(sum) => Ok(Ok(Answer::Numbers(numbers_of(alloc, &sum)?))),
        Err(WorldFault::Many { .. }) => Ok(Err(Code::Many)),
        Err(WorldFault::Wide) => Ok(Err(Code::Wide)),
        Err(WorldFault::Memory) => Err(Memory),
    }
}

/// The number of listed worlds, the sum of their weights, and the totals.
fn numbers_of(alloc: Global, sum: &WorldSum) -> Result<Nums, Memory>
    ensures { IfOk result (λ numbers. numbers ≡ pos sum.now.worlds ∷ pos sum.now.mass ∷ sum.now.totals) }
{
    let mut numbers = Vec::new(alloc);
    numbers.push(i128::from(sum.worlds))?;
    numbers.push(i128::from(sum.mass))?;
    numbers.extend_from_slice(sum.totals.as_slice())?;
    Ok(Nums::from(numbers))
}
