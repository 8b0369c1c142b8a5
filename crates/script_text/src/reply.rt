//! Replies over a schema, whose cells they name.
ghost use Rattle.std.specs.Prelude.{◌≡◌, ◌++◌, List, IfOk, OnOk, OnErr};
ghost use Rattle.cube_model.specs.Tree.{Dimension};
ghost use Rattle.script_text.specs.declared.reply.Reply.TheVariants.{Refused};
ghost use Rattle.script_text.specs.Reply.{NamesCells, NamesPlaces, fields_of_answer, fields_of_reply, reply_text, word_of_reply};
ghost use Rattle.script_text.specs.ReplySteps.{Keeps, fields_text};

use crate::reply_fields::{append_field, append_number, append_numbers};
use crate::reply_numbers::{append_quotient, append_quotients, append_value};
use crate::reply_picks::append_picks;
use crate::reply_rows::append_rows;
use crate::reply_table::append_table;
use crate::reply_terms::append_terms;
use crate::reply_view::append_view;
use crate::word::{AskWord, ScriptWord};
use cube_base::{Bytes, Code, Memory, Nums, Pairs, PlainList};
use cube_model::Region;
use exact_fraction::{Quotient, Value};
use group_sum::{Terms, ViewList};
use linear_pool::Pooled;
use region_algebra::Space;
use schema_text::Schema;
use std::alloc::Global;

/// Regions, each with the quotients that are given for it.
pub type TableList = PlainList<(Region, Pooled)>;

/// The reply to a line.
#[derive(Debug, Drop)]
pub enum Reply {
    /// An edit or a growth that was done, with the number of facts that are new or whose allocation changed.
    Done(u64),
    /// A refusal.
    Refused(Code),
    /// What a question is answered, under its word.
    Told { word: AskWord, fields: Answer },
}

/// What a question is answered, by the kind of its fields.
#[derive(Debug, Drop)]
pub enum Answer {
    /// A number: its bounds and its fraction.
    Value(Value),
    /// A quotient: the same, and nothing where there is no count to divide by.
    Quotient(Quotient),
    /// Quotients, as one for each outcome of a distribution.
    Quotients(Pooled),
    /// What facts add up to: how many terms there are and then, for each, its denominator and its numerators, the count first.
    Terms(Terms),
    /// How a fact is spread: the denominator, how many rows there are and then, for each, the names of the cell's leaves, one of
    /// each dimension, and the weight.
    Rows { den: u64, rows: Pairs },
    /// Regions, each with what the facts in it add up to: how many there are and then, for each, the names of its nodes and the
    /// fields of its terms.
    View(ViewList),
    /// Whole numbers.
    Numbers(Nums),
    /// A sum in a possible world, and where facts lie in it: how many facts there are and then, for each, its id and the names of
    /// its cell's leaves, one of each dimension.
    Picks { sum: i128, picks: Pairs },
    /// The regions of a table: how many there are and then, for each, the names of its nodes and the fields of its quotients.
    Table(TableList),
}

/// Appends the text of a reply over a schema: the word and its fields with TABs between, and LF. `ok` has the number of
/// refreshed facts, `error` the word of the code, and the word of a question the fields of its answer.
///
/// A bound has nine digits after the point, and is `-` where there is none; read back, it is the bound itself
/// (`printed_bounds_read_back`). A fraction is `NUM/DEN`, `NUM` over 1, and `wide` where there is none. A quotient that is
/// not defined has no fields. An error leaves the text as it was.
pub fn append_reply(text: &mut Vec<u8>, schema: &Schema, reply: &Reply) -> Result<(), Memory>
    requires { NamesCells schema.now.dims reply.now }
    ensures ok { OnOk result (text.new.items ≡ text.old.items ++ reply_text schema.now.dims reply.now) }
    ensures err { OnErr result (text.new.items ≡ text.old.items) }
{
    // At once: a refusal is one text, and a long script may be refused line by line.
    if let Reply::Refused(code) = reply {
        text.extend_from_slice(refusal_text(*code).as_bytes())?;
        return Ok(());
    }
    let len = text.len();
    let appended = append_line(text, schema.space(), reply);
    if appended.is_err() {
        text.truncate(len);
    }
    appended
}

/// The text of a refusal.
fn refusal_text(code: Code) -> &'static str
    ensures { (dims : List Dimension) → result.now ≡ reply_text dims (Refused code) }
{
    match code {
        Code::Long => "error\tlong\n",
        Code::Text => "error\ttext\n",
        Code::Command => "error\tcommand\n",
        Code::Fields => "error\tfields\n",
        Code::Id => "error\tid\n",
        Code::Node => "error\tnode\n",
        Code::Measure => "error\tmeasure\n",
        Code::Value => "error\tvalue\n",
        Code::Parts => "error\tparts\n",
        Code::Exists => "error\texists\n",
        Code::Missing => "error\tmissing\n",
        Code::Region => "error\tregion\n",
        Code::Facts => "error\tfacts\n",
        Code::Rows => "error\trows\n",
        Code::Undefined => "error\tundefined\n",
        Code::Many => "error\tmany\n",
        Code::Wide => "error\twide\n",
        Code::Name => "error\tname\n",
        Code::Order => "error\torder\n",
        Code::Policy => "error\tpolicy\n",
        Code::Number => "error\tnumber\n",
        Code::Depth => "error\tdepth\n",
        Code::Limit => "error\tlimit\n",
        Code::Cells => "error\tcells\n",
        Code::Nodes => "error\tnodes\n",
        Code::Cut => "error\tcut\n",
        Code::Tail => "error\ttail\n",
        Code::Header => "error\theader\n",
    }
}

/// The text of a reply over a schema.
pub fn write_reply(alloc: Global, schema: &Schema, reply: &Reply) -> Result<Bytes, Memory>
    requires { NamesCells schema.now.dims reply.now }
    ensures { IfOk result (λ text. text ≡ reply_text schema.now.dims reply.now) }
{
    let mut text = Vec::new(alloc);
    append_reply(&mut text, schema, reply)?;
    Ok(Bytes::from(text))
}

/// Appends the line of a reply.
fn append_line(text: &mut Vec<u8>, space: &Space, reply: &Reply) -> Result<(), Memory>
    requires { NamesCells space.now reply.now }
    ensures ok { OnOk result (text.new.items ≡ text.old.items ++ reply_text space.now reply.now) }
    ensures err { OnErr result (Keeps text.old.items text.new.items) }
{
    text.extend_from_slice(word_of(reply).as_bytes())?;
    append_fields(text, space, reply)?;
    text.push(b'\n')?;
    Ok(())
}

/// The first field of a reply.
fn word_of(reply: &Reply) -> &'static str
    ensures { result.now ≡ word_of_reply reply.now }
{
    match reply {
        Reply::Done(_) => "ok",
        Reply::Refused(_) => "error",
        Reply::Told { word, .. } => ScriptWord::Asks(*word).spelling(),
    }
}

/// Appends the further fields of a reply.
fn append_fields(text: &mut Vec<u8>, space: &Space, reply: &Reply) -> Result<(), Memory>
    requires { NamesCells space.now reply.now }
    ensures ok { OnOk result (text.new.items ≡ text.old.items ++ fields_text (fields_of_reply space.now reply.now)) }
    ensures err { OnErr result (Keeps text.old.items text.new.items) }
{
    match reply {
        Reply::Done(refreshed) => append_number(text, *refreshed),
        Reply::Refused(code) => append_field(text, code.word().as_bytes()),
        Reply::Told { fields, .. } => append_answer(text, space, fields),
    }
}

/// Appends the fields of an answer.
fn append_answer(text: &mut Vec<u8>, space: &Space, answer: &Answer) -> Result<(), Memory>
    requires { NamesPlaces space.now answer.now }
    ensures ok { OnOk result (text.new.items ≡ text.old.items ++ fields_text (fields_of_answer space.now answer.now)) }
    ensures err { OnErr result (Keeps text.old.items text.new.items) }
{
    match answer {
        Answer::Value(value) => append_value(text, value),
        Answer::Quotient(quotient) => append_quotient(text, quotient),
        Answer::Quotients(quotients) => append_quotients(text, quotients.as_slice()),
        Answer::Terms(terms) => append_terms(text, terms),
        Answer::Rows { den, rows } => append_rows(text, space, *den, rows.as_slice()),
        Answer::View(entries) => append_view(text, space, entries.as_slice()),
        Answer::Numbers(numbers) => append_numbers(text, numbers.as_slice()),
        Answer::Picks { sum, picks } => append_picks(text, space, *sum, picks.as_slice()),
        Answer::Table(entries) => append_table(text, space, entries.as_slice()),
    }
}
