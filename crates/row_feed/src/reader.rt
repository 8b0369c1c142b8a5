//! Reading a line of a feed.
ghost use Rattle.std.specs.Prelude.{◌≡◌, ◌≢◌, ◌∷◌, ◌++◌, All, false, true, IfErr, IfNone, IfOk, IfSome, IsOkAnd, OnErr};
ghost use Rattle.text_lines.specs.LineText.{is_clean, is_long};
ghost use Rattle.text_lines.specs.Text.{fields_of};
ghost use Rattle.script_text.specs.LineOf.{IsGrowth};
ghost use Rattle.row_feed.specs.FeedLine.{IsFeedFaultOf, IsFeedLineOf, batch_given, fact_line_given, feed_fields_given, feed_line_of, is_said_word, rest_given};
ghost use Rattle.row_feed.specs.ReadSteps.{IsChangeRead, IsFeedRead};

use crate::feed_line::FeedLine;
use cube_base::{Code, Memory};
use fact_records::read_fact;
use memchr::memchr;
use schema_text::Schema;
use script_text::{Line, LineFault, read_line};
use std::alloc::Global;
use text_lines::{
    FieldWalk, Fields, clean_text, field_at, field_count, is_long, is_text, number_in,
};

/// What a line of a feed says over a schema, where it stands neither in the schema nor after the line of a batch. The
/// first of these that holds refuses it: `Long`, it has more than 4,096 bytes; `Text`, it is not UTF-8 or has a byte
/// below 32 but TAB, or 127: no final CR is taken off. Then, after the word `fact`: `Fields`, their number is wrong;
/// `Id`, `Node`, `Value` and `Parts`, as in a line of a script. After `based`: `Fields`, there are others. After
/// `batch`: `Fields`, there are fewer than two others; `Number`, the first of them is not a number from 0 to 2^64 - 1.
///
/// What stands after that number is given with it: the edit or the growth that it says, as `read_line` reads it, or the
/// code by which it is refused. That is `Command` where its first field is none of `insert`, `change`, `withdraw` and
/// `grow`. No line but a growth's takes memory.
pub fn read_feed_line(alloc: Global, schema: &Schema, line: &[u8]) -> Result<FeedLine, LineFault>
    ensures line { IfOk result (λ read. feed_line_of schema.now line.now ≡ Ok read) }
    ensures refused { IfErr result (IsFeedFaultOf schema.now line.now) }
    ensures within { IfOk result (IsFeedLineOf schema.now) }
{
    read_over(alloc, schema, line)
}

/// What is read of a line.
fn read_over(alloc: Global, schema: &Schema, line: &[u8]) -> Result<FeedLine, LineFault>
    ensures line { IsFeedRead (feed_line_of schema.now line.now) result }
    ensures within { IfOk result (IsFeedLineOf schema.now) }
{
    if is_long(line) {
        return Err(LineFault::Code(Code::Long));
    }
    match clean_text(line) {
        Some(text) => read_text(alloc, schema, text),
        None => Err(LineFault::Code(Code::Text)),
    }
}

/// What is read of a line that is not long.
fn read_text(alloc: Global, schema: &Schema, text: &str) -> Result<FeedLine, LineFault>
    requires short { is_long text.now ≡ false }
    requires clean { is_clean text.now ≡ true }
    ensures line { IsFeedRead (feed_fields_given schema.now (fields_of text.now)) result }
    ensures within { IfOk result (IsFeedLineOf schema.now) }
{
    let line = text.as_bytes();
    let word = field_at(line, 0);
    if is_text(word, "fact") {
        return Ok(read_fact_line(schema, text)?);
    }
    if is_text(word, "based") {
        return if field_count(line) == 1 {
            Ok(FeedLine::Based)
        } else {
            Err(LineFault::Code(Code::Fields))
        };
    }
    if is_text(word, "batch") {
        return read_batch(alloc, schema, line);
    }
    Ok(FeedLine::Other)
}

/// The fact of a line whose first field is its word.
fn read_fact_line(schema: &Schema, text: &str) -> Result<FeedLine, Code>
    ensures line { result ≡ fact_line_given schema.now (fields_of text.now) }
    ensures within { IfOk result (IsFeedLineOf schema.now) }
{
    let (space, shape) = (schema.space(), schema.shape());
    if field_count(text.as_bytes()) != 2 + space.dims() as usize + shape.len() as usize {
        return Err(Code::Fields);
    }
    let mut fields = FieldWalk::new(text);
    fields.next_field();
    Ok(FeedLine::Fact(read_fact(space, shape, &mut fields)?))
}

/// The batch of a line whose first field is its word.
fn read_batch(alloc: Global, schema: &Schema, line: &[u8]) -> Result<FeedLine, LineFault>
    requires short { is_long line.now ≡ false }
    requires clean { is_clean line.now ≡ true }
    ensures line { IsFeedRead (batch_given schema.now (fields_of line.now)) result }
    ensures within { IfOk result (IsFeedLineOf schema.now) }
{
    let Some((_, behind)) = cut(line) else {
        return Err(LineFault::Code(Code::Fields));
    };
    let Some((number, rest)) = cut(behind) else {
        return Err(LineFault::Code(Code::Fields));
    };
    let Some(number) = number_in(number, 0, u64::MAX) else {
        return Err(LineFault::Code(Code::Number));
    };
    let line = read_rest(alloc, schema, rest)?;
    Ok(FeedLine::Batch { number, line })
}

/// The edit or the growth that the fields after a batch's number say, or why they say none.
fn read_rest(alloc: Global, schema: &Schema, rest: &[u8]) -> Result<Result<Line, Code>, Memory>
    requires short { is_long rest.now ≡ false }
    requires clean { is_clean rest.now ≡ true }
    ensures line { IfOk result (λ read. rest_given schema.now (fields_of rest.now) ≡ read) }
    ensures memory { OnErr result (IsOkAnd (rest_given schema.now (fields_of rest.now)) IsGrowth) }
    ensures within { IfOk result (IsChangeRead schema.now) }
{
    if !is_said_word(field_at(rest, 0)) {
        return Ok(Err(Code::Command));
    }
    match read_line(alloc, schema, rest) {
        Ok(line) => Ok(Ok(line)),
        Err(LineFault::Code(code)) => Ok(Err(code)),
        Err(LineFault::Memory) => Err(Memory),
    }
}

/// Whether a field is the word of an edit or of a growth.
fn is_said_word(field: &[u8]) -> bool
    ensures { result ≡ is_said_word field.now }
{
    is_text(field, "insert")
        || is_text(field, "change")
        || is_text(field, "withdraw")
        || is_text(field, "grow")
}

/// What stands before the first TAB of a line, and what after it: None exactly where there is none.
fn cut(line: &[u8]) -> Option<(&[u8], &[u8])>
    ensures none { IfNone result (All (λ b. b ≢ 9) line.now) }
    ensures parts { IfSome result (λ parts. line.now ≡ parts.0.now ++ 9 ∷ parts.1.now) }
    ensures first { IfSome result (λ parts. All (λ b. b ≢ 9) parts.0.now) }
{
    let place = memchr(b'\t', line)?;
    Some((&line[..place], &line[place + 1..]))
}
