//! Reading a line of a script.
ghost use Rattle.std.specs.Prelude.{◌≡◌, ◌+◌, ◌<◌, is_ok, length, position, slice_get, true, Ok, IfErr, IfOk, IfSome};
ghost use Rattle.std.specs.Str.{bytes_eq};
ghost use Rattle.cube_base.specs.Name.{is_name};
ghost use Rattle.text_lines.specs.LineText.{field_at};
ghost use Rattle.text_lines.specs.Text.{fields_of};
ghost use Rattle.script_text.specs.LineOf.{IsLineFaultOf, IsLineOf};
ghost use Rattle.script_text.specs.LineSteps.{IsReadOf};
ghost use Rattle.script_text.specs.ScriptLine.{command_line, dim_given, field_count_of, growth_given, line_given, line_of, new_name_given, parent_given};
ghost use Rattle.script_text.specs.ScriptWord.{word_spelled};

use crate::line::{Line, LineFault};
use crate::question_reader::read_question;
use crate::word::{AskWord, ScriptWord, word_spelled};
use cube_base::{Code, Memory, Name, is_name};
use cube_model::Edit;
use fact_records::{read_fact, read_id};
use region_algebra::{Grow, Space};
use schema_text::Schema;
use std::alloc::Global;
use text_lines::{FieldWalk, Fields, clean_text, is_long, is_skipped, without_cr};

/// What a line of a script says over a schema. A line that without its final CR is empty or begins with `#` says
/// nothing. Else the first of these that holds refuses it: `Long`, it has more than 4,096 bytes; `Text`, it is not
/// UTF-8 or has a byte below 32 but TAB, or 127; `Command`, the first field is no word of a script; `Fields`, their number
/// is wrong; `Number`, the rounds are not a number from 1 to 32, or a depth is none from 0 to 8; `Id`, the id is not a number
/// from 1 to 2^63 - 1; `Node`, a field is not the name of a node of its dimension; `Measure`, a field is not the name of a
/// measure, or of one that the word does not take: `pool` and `pools` take a measure of distributions, all others one of
/// numbers; `Value`, the field of a number measure gives no value; `Parts`, that of a parts measure; `Name`, no view has the
/// name. A line that lets a dimension grow is judged so, after its number of fields: `Node`, no
/// dimension has the name, or no node of it that of the parent; `Name`, the last field is no name, or a node of the dimension has it.
/// No other line takes memory.
pub fn read_line(alloc: Global, schema: &Schema, line: &[u8]) -> Result<Line, LineFault>
    ensures line { IfOk result (λ read. line_of schema.now line.now ≡ Ok read) }
    ensures refused { IfErr result (IsLineFaultOf schema.now line.now) }
    ensures within { IfOk result (IsLineOf schema.now) }
{
    if is_skipped(line) {
        return Ok(Line::Nothing);
    }
    if is_long(line) {
        return Err(LineFault::Code(Code::Long));
    }
    let Some(text) = clean_text(without_cr(line)) else {
        return Err(LineFault::Code(Code::Text));
    };
    let mut fields = FieldWalk::new(text);
    let count = fields.len();
    let Some(word) = word_spelled(fields.next_field()) else {
        return Err(LineFault::Code(Code::Command));
    };
    if count != count_of(schema, word) {
        return Err(LineFault::Code(Code::Fields));
    }
    // At once, since a fact is large, and each call that hands it on moves it.
    if let ScriptWord::OfFact(word) = word {
        return match read_fact(schema.space(), schema.shape(), &mut fields) {
            Ok(fact) => Ok(word.line(fact)),
            Err(code) => Err(LineFault::Code(code)),
        };
    }
    read_fields(alloc, schema, word, &mut fields)
}

/// The number of fields of a line of a word.
fn count_of(schema: &Schema, word: ScriptWord) -> usize
    ensures { result ≡ field_count_of schema.now word }
{
    let nodes = schema.space().dims() as usize;
    let values = schema.shape().len() as usize;
    match word {
        ScriptWord::OfFact(_) => 2 + nodes + values,
        ScriptWord::Withdraw => 2,
        ScriptWord::Grow => 4,
        ScriptWord::Asks(AskWord::OfRegion(_)) => 1 + nodes,
        ScriptWord::Asks(AskWord::OfMeasure(_) | AskWord::OfRounds(_)) => 2 + nodes,
        ScriptWord::Asks(AskWord::OfId(_) | AskWord::OfView(_)) => 2,
        ScriptWord::Asks(AskWord::OfTable(_)) => 1 + nodes + nodes,
        ScriptWord::Asks(AskWord::OfMeasureTable(_)) => 2 + nodes + nodes,
    }
}

/// What is read of the fields after a word.
fn read_fields(
    alloc: Global,
    schema: &Schema,
    word: ScriptWord,
    fields: &mut FieldWalk<'_>,
) -> Result<Line, LineFault>
    requires { length fields.old + 1 ≡ field_count_of schema.now word }
    ensures line { IsReadOf (line_given schema.now word fields.old) result }
    ensures within { IfOk result (IsLineOf schema.now) }
{
    match word {
        ScriptWord::OfFact(word) => Ok(word.line(read_fact(
            schema.space(),
            schema.shape(),
            fields,
        )?)),
        ScriptWord::Withdraw => Ok(Line::Edit(Edit::Withdraw(read_id(fields)?))),
        ScriptWord::Grow => read_growth(alloc, schema, fields),
        ScriptWord::Asks(word) => Ok(Line::Ask(read_question(schema, word, fields)?)),
    }
}

/// The leaf that a dimension, a node of it and a name say. Memory is asked for once all three are accepted.
fn read_growth(
    alloc: Global,
    schema: &Schema,
    fields: &mut FieldWalk<'_>,
) -> Result<Line, LineFault>
    requires { length fields.old ≡ 3 }
    ensures line { IsReadOf (growth_given schema.now fields.old) result }
    ensures within { IfOk result (IsLineOf schema.now) }
{
    let dim = read_dim(schema, fields.next_field())?;
    let (parent, name) = (fields.next_field(), fields.next_field());
    let space = schema.space();
    let parent = read_parent(space, dim, parent)?;
    if !is_new_name(space, dim, name) {
        return Err(LineFault::Code(Code::Name));
    }
    let name = name_of(alloc, name)?;
    Ok(Line::Grow(Grow { dim, parent, name }))
}

/// The dimension that a name says, by its place.
fn read_dim(schema: &Schema, name: &str) -> Result<u32, Code>
    ensures dim { result ≡ dim_given schema.now name.now }
    ensures within { IfOk result (λ dim. dim < length schema.now.dims) }
{
    // There are at most six dimensions: the place fits.
    let _ = schema.space().dims();
    match place_of(schema.dim_names(), name) {
        Some(dim) => Ok(dim as u32),
        None => Err(Code::Node),
    }
}

/// The place of a name among names.
fn place_of(names: &[Name], name: &str) -> Option<usize>
    ensures place { result ≡ position (λ other. bytes_eq other name.now) names.now }
    ensures within { IfSome result (λ place. place < length names.now) }
{
    names.iter().position(|other| has_text(other, name))
}

/// Whether a name has this text.
fn has_text(name: &Name, text: &str) -> bool
    ensures { result ≡ bytes_eq name.now text.now }
{
    name.text() == text
}

/// The node of a dimension that a name says.
fn read_parent(space: &Space, dim: u32, name: &str) -> Result<u32, Code>
    requires { dim < length space.now }
    ensures parent { result ≡ parent_given space.now dim name.now }
    ensures within { IfOk result (λ parent. IfSome (slice_get space.now dim) (λ tree. parent < length tree)) }
{
    space.dim(dim).find(name).ok_or(Code::Node)
}

/// Whether a text may be the name of a new node of a dimension: it is a name, and no node's.
fn is_new_name(space: &Space, dim: u32, text: &str) -> bool
    requires { dim < length space.now }
    ensures { result ≡ is_ok (new_name_given space.now dim text.now) }
{
    is_name(text) && space.dim(dim).find(text).is_none()
}

/// The name that a text is.
fn name_of(alloc: Global, text: &str) -> Result<Name, Memory>
    requires { is_name text.now ≡ true }
    ensures { IfOk result (λ name. name ≡ text.now) }
{
    Ok(Name::new(alloc, text)?.unwrap())
}
