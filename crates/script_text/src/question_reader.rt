//! Reading what a question asks of.
ghost use Rattle.std.specs.Prelude.{◌≡◌, ◌+◌, ◌<◌, ◌≤◌, All, drop, length, IfOk, OnOk};
ghost use Rattle.cube_model.specs.Limits.{MAX_DEPTH};
ghost use Rattle.schema_text.specs.SchemaText.{depth_in};
ghost use Rattle.script_text.specs.LineOf.{IsQuestionOf, IsTable};
ghost use Rattle.script_text.specs.declared.word.ScriptWord.TheVariants as asked;
ghost use Rattle.script_text.specs.ScriptLine.{MAX_ROUNDS, MIN_ROUNDS, depths_given, field_count_of, measure_question_given, measure_table_given, question_given, rounds_given, rounds_question_given, table_given, table_question_given, view_given};

use crate::depths::CutDepths;
use crate::line::Question;
use crate::word::{AskWord, MeasureTableWord, MeasureWord, RoundsWord, TableWord};
use cube_base::Code;
use cube_model::{MAX_DEPTH, MAX_DIMS, Region};
use fact_records::{read_id, read_measure, read_region};
use region_algebra::Space;
use schema_text::Schema;
use text_lines::{FieldWalk, Fields, number_in};

/// The fewest and the most rounds that may be asked for.
const MIN_ROUNDS: u64 = 1;

const MAX_ROUNDS: u64 = 32;

/// What the fields after the word of a question ask.
pub fn read_question(
    schema: &Schema,
    word: AskWord,
    fields: &mut FieldWalk<'_>,
) -> Result<Question, Code>
    requires { length fields.old + 1 ≡ field_count_of schema.now (asked.Asks word) }
    ensures asked { result ≡ question_given schema.now word fields.old }
    ensures within { IfOk result (IsQuestionOf schema.now) }
{
    match word {
        AskWord::OfRegion(word) => {
            let region = read_region(schema.space(), fields)?;
            Ok(Question::OfRegion { word, region })
        }
        AskWord::OfMeasure(word) => read_of_measure(schema, word, fields),
        AskWord::OfId(word) => {
            let id = read_id(fields)?;
            Ok(Question::OfId { word, id })
        }
        AskWord::OfView(word) => {
            let view = read_view(schema, fields.next_field())?;
            Ok(Question::OfView { word, view })
        }
        AskWord::OfRounds(word) => read_of_rounds(schema, word, fields),
        AskWord::OfTable(word) => read_of_table(schema, word, fields),
        AskWord::OfMeasureTable(word) => read_of_measure_table(schema, word, fields),
    }
}

/// What a measure and the nodes after it ask. The nodes are judged first.
fn read_of_measure(
    schema: &Schema,
    word: MeasureWord,
    fields: &mut FieldWalk<'_>,
) -> Result<Question, Code>
    requires { length fields.old ≡ 1 + length schema.now.dims }
    ensures asked { result ≡ measure_question_given schema.now word fields.old }
    ensures within { IfOk result (IsQuestionOf schema.now) }
{
    let name = fields.next_field();
    let region = read_region(schema.space(), fields)?;
    let measure = read_measure(schema.shape(), word.kind(), name)?;
    Ok(Question::OfMeasure {
        word,
        measure,
        region,
    })
}

/// What a number of rounds and the nodes after it ask.
fn read_of_rounds(
    schema: &Schema,
    word: RoundsWord,
    fields: &mut FieldWalk<'_>,
) -> Result<Question, Code>
    requires { length fields.old ≡ 1 + length schema.now.dims }
    ensures asked { result ≡ rounds_question_given schema.now word fields.old }
    ensures within { IfOk result (IsQuestionOf schema.now) }
{
    let rounds = read_rounds(fields.next_field())?;
    let region = read_region(schema.space(), fields)?;
    Ok(Question::OfRounds {
        word,
        rounds,
        region,
    })
}

/// The number of rounds that a field says.
fn read_rounds(field: &str) -> Result<u32, Code>
    ensures rounds { result ≡ rounds_given field.now }
    ensures some { IfOk result (λ rounds. MIN_ROUNDS ≤ rounds) }
    ensures few { IfOk result (λ rounds. rounds ≤ MAX_ROUNDS) }
{
    match number_in(field.as_bytes(), MIN_ROUNDS, MAX_ROUNDS) {
        Some(rounds) => Ok(rounds as u32),
        None => Err(Code::Number),
    }
}

/// What the depths and the nodes of a table ask.
fn read_of_table(
    schema: &Schema,
    word: TableWord,
    fields: &mut FieldWalk<'_>,
) -> Result<Question, Code>
    requires { length fields.old ≡ length schema.now.dims + length schema.now.dims }
    ensures asked { result ≡ table_question_given schema.now word fields.old }
    ensures within { IfOk result (IsQuestionOf schema.now) }
{
    let (depths, region) = read_table(schema.space(), fields)?;
    Ok(Question::OfTable {
        word,
        depths,
        region,
    })
}

/// What a measure and the depths and the nodes of a table after it ask. The measure is judged last.
fn read_of_measure_table(
    schema: &Schema,
    word: MeasureTableWord,
    fields: &mut FieldWalk<'_>,
) -> Result<Question, Code>
    requires { length fields.old ≡ 1 + length schema.now.dims + length schema.now.dims }
    ensures asked { result ≡ measure_table_given schema.now word fields.old }
    ensures within { IfOk result (IsQuestionOf schema.now) }
{
    let name = fields.next_field();
    let (depths, region) = read_table(schema.space(), fields)?;
    let measure = read_measure(schema.shape(), word.each().kind(), name)?;
    Ok(Question::OfMeasureTable {
        word,
        measure,
        depths,
        region,
    })
}

/// The depths of a table, and its region after them.
fn read_table(space: &Space, fields: &mut FieldWalk<'_>) -> Result<(CutDepths, Region), Code>
    requires { length fields.old ≡ length space.now + length space.now }
    ensures table { result ≡ table_given space.now fields.old }
    ensures within { IfOk result (λ table. IsTable space.now table.0 table.1) }
{
    let depths = read_depths(space, fields)?;
    let region = read_region(space, fields)?;
    Ok((depths, region))
}

/// The depths that fields say, one for each dimension.
fn read_depths(space: &Space, fields: &mut FieldWalk<'_>) -> Result<CutDepths, Code>
    requires { length space.now ≤ length fields.old }
    ensures depths { result ≡ depths_given space.now fields.old }
    ensures rest { OnOk result (fields.new ≡ drop (length space.now) fields.old) }
    ensures each { IfOk result (λ depths. length depths ≡ length space.now) }
    ensures shallow { IfOk result (All (λ depth. depth ≤ MAX_DEPTH)) }
{
    let mut depths = [0; MAX_DIMS];
    let count = space.dims();
    for d in 0..count {
        let Some(depth) = depth_in(fields.next_field()) else {
            return Err(Code::Number);
        };
        depths[d as usize] = depth;
    }
    Ok(CutDepths::new(&depths[..count as usize]).unwrap())
}

/// The depth that a field says.
fn depth_in(field: &str) -> Option<u8>
    ensures { result ≡ depth_in field.now }
{
    match number_in(field.as_bytes(), 0, u64::from(MAX_DEPTH)) {
        Some(depth) => Some(depth as u8),
        None => None,
    }
}

/// The view that a name says.
fn read_view(schema: &Schema, name: &str) -> Result<u32, Code>
    ensures view { result ≡ view_given schema.now name.now }
    ensures within { IfOk result (λ view. view < length schema.now.views) }
{
    match schema.view_named(name) {
        Some(view) => Ok(view),
        None => Err(Code::Name),
    }
}
