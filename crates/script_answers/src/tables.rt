//! Answers about tables.
ghost use Rattle.std.specs.Prelude.{◌≡◌, ◌∷◌, [], All, IfOk, map};
ghost use Rattle.schema_text.specs.Schema.{weigh_of};
ghost use Rattle.script_text.specs.Decimals.{quotient_of};
ghost use Rattle.script_text.specs.LineOf.{IsTable};
ghost use Rattle.script_text.specs.Reply.{NamesPlaces};
ghost use Rattle.script_answers.specs.Answers.{AreTermsOver, IsFigureOf, each_figure, figure_of, quotients_in, state_of, table_answer, table_entry};

use crate::figures::{Figure, figure_of};
use cube_base::{Code, Memory};
use cube_core::Cube;
use cube_model::Region;
use exact_fraction::{Quotient, Value};
use group_sum::Terms;
use linear_pool::Pooled;
use schema_text::{PolicyWord, Schema};
use script_text::{Answer, CutDepths, MeasureTableWord, TableList};
use std::alloc::Global;

/// The regions of a table in which there are facts, each with a figure of its terms.
pub fn table_answer(
    alloc: Global,
    cube: &Cube<PolicyWord>,
    figure: Figure,
    depths: &CutDepths,
    region: Region,
) -> Result<Result<Answer, Code>, Memory>
    requires known { IsFigureOf cube.now.schema figure }
    requires table { IsTable cube.now.schema.dims depths.now region }
    ensures answer { IfOk result (λ told. told ≡ table_answer figure (weigh_of cube.now.policy) cube.now.schema (state_of cube.now) depths.now region) }
    ensures places { IfOk result (λ told. IfOk told (NamesPlaces cube.now.schema.dims)) }
{
    let Ok(entries) = cube.table(depths.as_slice(), region) else {
        return Err(Memory);
    };
    let told = table_entries(alloc, cube.schema(), figure, entries.as_slice());
    drop(entries);
    Ok(Ok(Answer::Table(told?)))
}

/// Regions, each with a figure of its terms.
fn table_entries(
    alloc: Global,
    schema: &Schema,
    figure: Figure,
    entries: &[(Region, Terms)],
) -> Result<TableList, Memory>
    requires known { IsFigureOf schema.now figure }
    requires terms { All (λ entry. AreTermsOver schema.now entry.1) entries.now }
    ensures { IfOk result (λ told. told ≡ map (table_entry schema.now figure) entries.now) }
{
    let mut told = TableList::new(alloc);
    for entry in entries {
        let quotients = entry_quotients(alloc, schema, figure, &entry.1)?;
        told.push((entry.0, quotients))?;
    }
    Ok(told)
}

/// The quotients of a figure of terms.
fn entry_quotients(
    alloc: Global,
    schema: &Schema,
    figure: Figure,
    terms: &Terms,
) -> Result<Pooled, Memory>
    requires known { IsFigureOf schema.now figure }
    requires terms { AreTermsOver schema.now terms.now }
    ensures { IfOk result (λ quotients. quotients ≡ quotients_in (figure_of schema.now figure terms.now.terms)) }
{
    match figure_of(alloc, schema, figure, terms)? {
        Ok(Answer::Value(value)) => one_quotient(alloc, quotient_of(value)),
        Ok(Answer::Quotient(quotient)) => one_quotient(alloc, quotient),
        Ok(Answer::Quotients(quotients)) => Ok(quotients),
        _ => Ok(Pooled::new(alloc)),
    }
}

/// A list of one quotient.
fn one_quotient(alloc: Global, quotient: Quotient) -> Result<Pooled, Memory>
    ensures { IfOk result (λ quotients. quotients ≡ quotient ∷ []) }
{
    let mut quotients = Vec::with_capacity(alloc, 1)?;
    quotients.push(quotient)?;
    Ok(Pooled::from(quotients))
}

/// The quotient that a number is, over no count.
fn quotient_of(value: Value) -> Quotient
    ensures { result ≡ quotient_of value }
{
    Quotient::Is {
        lo: Some(value.lo),
        hi: Some(value.hi),
        exact: value.exact,
    }
}

/// The figure of a measure that the word of a table asks for.
pub fn each_figure(word: MeasureTableWord, measure: u32) -> Figure
    ensures { result ≡ each_figure word measure }
{
    match word {
        MeasureTableWord::Sums => Figure::Sum(measure),
        MeasureTableWord::Avgs => Figure::Average(measure),
        MeasureTableWord::Pools => Figure::Pool(measure),
    }
}
