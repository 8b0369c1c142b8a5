//! Writing what a feed begins with.
ghost use Rattle.std.specs.Prelude.{◌≡◌, [], ◌∷◌, ◌++◌, All, IfOk, OnOk, map};
ghost use Rattle.fact_records.specs.Valid.{IsFactOf};
ghost use Rattle.schema_text.specs.Schema.{shape_of};
ghost use Rattle.row_feed.specs.FeedText.{base_lines, fact_line, feed_bytes};

use cube_base::{Bytes, Memory};
use fact_fields::append_fact;
use fact_records::{Fact, FactList};
use schema_text::{Schema, write_schema};
use std::alloc::Global;

/// The lines with which a feed over a schema and facts begins, each ended by LF: its version, the text of the schema as
/// `write_schema` writes it, the line of each fact in order of their ids, and `based`.
pub fn write_base(alloc: Global, schema: &Schema, facts: &FactList) -> Result<Bytes, Memory>
    requires { All (IsFactOf (shape_of schema.now) schema.now.dims) facts.now.facts }
    ensures { IfOk result (λ text. text ≡ feed_bytes (base_lines schema.now facts.now.facts)) }
{
    let mut text = Vec::new(alloc);
    text.extend_from_slice(b"feed\t1\n")?;
    text.extend_from_slice(write_schema(alloc, schema)?.as_slice())?;
    append_facts(&mut text, schema, facts)?;
    text.extend_from_slice(b"based\n")?;
    Ok(Bytes::from(text))
}

/// Appends the lines of facts.
fn append_facts(text: &mut Vec<u8>, schema: &Schema, facts: &FactList) -> Result<(), Memory>
    requires { All (IsFactOf (shape_of schema.now) schema.now.dims) facts.now.facts }
    ensures { OnOk result (text.new.items ≡ text.old.items ++ feed_bytes (map (fact_line schema.now) facts.now.facts)) }
{
    for fact in facts.iter() {
        append_fact_line(text, schema, &fact)?;
    }
    Ok(())
}

/// Appends the line of a fact, and LF.
fn append_fact_line(text: &mut Vec<u8>, schema: &Schema, fact: &Fact) -> Result<(), Memory>
    requires { IsFactOf (shape_of schema.now) schema.now.dims fact.now }
    ensures { OnOk result (text.new.items ≡ text.old.items ++ feed_bytes (fact_line schema.now fact.now ∷ [])) }
{
    text.extend_from_slice(b"fact")?;
    append_fact(text, schema, fact)?;
    text.push(b'\n')?;
    Ok(())
}
