//! The figures that are given for terms.
ghost use Rattle.std.specs.Prelude.{◌≡◌, ◌+◌, ◌<◌, length, IfOk};
ghost use Rattle.fact_records.specs.declared.measure_reader.MeasureKind.TheVariants as kind;
ghost use Rattle.fact_records.specs.MeasureFields.{IsMeasureOf};
ghost use Rattle.fact_records.specs.Shape.{width_of_all};
ghost use Rattle.region_algebra.specs.Space.{IsRegion};
ghost use Rattle.schema_text.specs.Schema.{shape_of, weigh_of};
ghost use Rattle.script_text.specs.Reply.{NamesPlaces};
ghost use Rattle.script_answers.specs.Answers.{AreTermsOver, IsFigureOf, figure_answer, figure_of, first_col_at, pool_answer, quotient_answer, state_of};

use cube_base::{Code, Memory};
use cube_core::Cube;
use cube_model::Region;
use exact_fraction::{Quotient, one, ratio};
use group_sum::Terms;
use linear_pool::{PoolFault, pool};
use schema_text::{PolicyWord, Schema};
use script_text::Answer;
use std::alloc::Global;

/// The column of the count.
pub const COUNT: u32 = 0;

/// What terms are asked.
#[derive(Clone, Copy, Debug)]
pub enum Figure {
    /// How much they count.
    Count,
    /// The sum of a number measure.
    Sum(u32),
    /// That sum divided by the count.
    Average(u32),
    /// The pooled distribution of a parts measure.
    Pool(u32),
}

/// A figure of the terms of a region.
pub fn figure_answer(
    alloc: Global,
    cube: &Cube<PolicyWord>,
    figure: Figure,
    region: Region,
) -> Result<Result<Answer, Code>, Memory>
    requires known { IsFigureOf cube.now.schema figure }
    requires region { IsRegion cube.now.schema.dims region }
    ensures answer { IfOk result (λ told. told ≡ figure_answer figure (weigh_of cube.now.policy) cube.now.schema (state_of cube.now) region) }
    ensures places { IfOk result (λ told. IfOk told (NamesPlaces cube.now.schema.dims)) }
{
    let Ok(terms) = cube.answer(region) else {
        return Err(Memory);
    };
    let told = figure_of(alloc, cube.schema(), figure, &terms);
    drop(terms);
    told
}

/// A figure of terms: `undefined` where there is no term to divide by.
pub fn figure_of(
    alloc: Global,
    schema: &Schema,
    figure: Figure,
    terms: &Terms,
) -> Result<Result<Answer, Code>, Memory>
    requires known { IsFigureOf schema.now figure }
    requires terms { AreTermsOver schema.now terms.now }
    ensures answer { IfOk result (λ told. told ≡ figure_of schema.now figure terms.now.terms) }
    ensures places { IfOk result (λ told. IfOk told (NamesPlaces schema.now.dims)) }
{
    match figure {
        Figure::Count => Ok(Ok(Answer::Value(one(terms, COUNT)))),
        Figure::Sum(measure) => Ok(Ok(Answer::Value(one(terms, first_col(schema, measure))))),
        Figure::Average(measure) => {
            Ok(quotient_answer(ratio(terms, first_col(schema, measure), 1)))
        }
        Figure::Pool(measure) => pool_answer(alloc, schema, measure, terms),
    }
}

/// A quotient is given where it is defined.
fn quotient_answer(quotient: Quotient) -> Result<Answer, Code>
    ensures { result ≡ quotient_answer quotient }
{
    match quotient {
        Quotient::Undefined => Err(Code::Undefined),
        Quotient::Is { .. } => Ok(Answer::Quotient(quotient)),
    }
}

/// The pooled distribution of a parts measure over terms.
fn pool_answer(
    alloc: Global,
    schema: &Schema,
    measure: u32,
    terms: &Terms,
) -> Result<Result<Answer, Code>, Memory>
    requires known { IsMeasureOf (shape_of schema.now) kind.Parts measure }
    requires terms { AreTermsOver schema.now terms.now }
    ensures { IfOk result (λ told. told ≡ pool_answer schema.now measure terms.now.terms) }
{
    match pool(alloc, terms, schema.shape(), measure) {
        Ok(pooled) => Ok(Ok(Answer::Quotients(pooled))),
        Err(PoolFault::Undefined) => Ok(Err(Code::Undefined)),
        Err(PoolFault::Memory) => Err(Memory),
    }
}

/// The first column of a measure.
pub fn first_col(schema: &Schema, measure: u32) -> u32
    requires { measure < length schema.now.measures }
    ensures column { result ≡ first_col_at schema.now measure }
    ensures within { result < width_of_all schema.now.measures + 1 }
{
    schema.shape().measure(measure).first_col
}
