//! The file of the rows of all facts, written as it is made.
ghost use Rattle.std.specs.Prelude.{◌≡◌, ◌≤◌, ◌++◌, ◌∷◌, [], List, ℕ, length, IfErr, IfOk, OnOk};
ghost use Rattle.cube_base.specs.Outside.{SinkTold};
ghost use Rattle.cube_base.specs.declared.fault.SinkError.TheVariants as sink_error;
ghost use Rattle.cube_core.specs.Cube.{cube_rows};
ghost use Rattle.cube_model.specs.Allocation.{ExtendedFact};
ghost use Rattle.csv_facts.specs.ExtendedRow.{extended_text};
ghost use Rattle.fact_records.specs.Valid.{IsFactOf};
ghost use Rattle.schema_text.specs.Schema.{shape_of, weigh_of};
ghost use Rattle.script_run.specs.Seen.{sink_seen};
ghost use Rattle.cube_cli.specs.Rows.{Gathers, IsRowsOf, MakesRoomForMore, OnItsWay, since};
ghost use Rattle.cube_cli.specs.Steps.{WritesText};

use crate::saying::write_line;
use csv_facts::{write_rows, write_rows_header};
use cube_base::{Bytes, Memory, Sink, SinkError, write_whole};
use cube_core::Cube;
use fact_records::Fact;
use schema_text::PolicyWord;
use std::alloc::Global;

/// So many bytes are gathered at most before they are written, unless one part has more.
const GATHERED: usize = 65_536;

/// So many rows of a fact are made at a time.
const ROWS_AT_ONCE: usize = 1_024;

/// Writes the header and the rows of all facts, in order of their ids and cells. Its text is never held whole.
pub fn write_all_rows<K: Sink>(
    alloc: Global,
    cube: &Cube<PolicyWord>,
    out: &mut K,
) -> Result<(), SinkError>
    ensures { WritesText (extended_text cube.now.schema (cube_rows weigh_of cube.now)) (sink_seen K.tells out.old out.new) result }
{
    let mut text = Vec::new(alloc);
    let header = write_rows_header(alloc, cube.schema());
    if let Err(error) = gather(&mut text, header, out) {
        return Err(error);
    }
    match gather_all(alloc, cube, &mut text, out) {
        Ok(()) => write_whole(out, &text),
        Err(error) => Err(error),
    }
}

// Adds the rows of all facts to the text that waits after the header.
fn gather_all<K: Sink>(
    alloc: Global,
    cube: &Cube<PolicyWord>,
    text: &mut Vec<u8>,
    out: &mut K,
) -> Result<(), SinkError>
    ensures { (start : SinkTold) → OnItsWay (extended_text cube.now.schema []) text.old.items (since start (K.tells out.old)) →
        Gathers (extended_text cube.now.schema (cube_rows weigh_of cube.now)) text.new.items (since start (K.tells out.new)) result }
{
    for fact in cube.facts().iter() {
        if let Err(error) = gather_fact(alloc, cube, &fact, text, out) {
            return Err(error);
        }
    }
    Ok(())
}

// Adds the rows of a fact to the text that waits after those of others.
fn gather_fact<K: Sink>(
    alloc: Global,
    cube: &Cube<PolicyWord>,
    fact: &Fact,
    text: &mut Vec<u8>,
    out: &mut K,
) -> Result<(), SinkError>
    requires { IsFactOf (shape_of cube.now.schema) cube.now.schema.dims fact.now }
    ensures { (start : SinkTold) (before : List ExtendedFact) (whole : ExtendedFact) → IsRowsOf (cube_rows weigh_of cube.now) fact.now whole
        → OnItsWay (extended_text cube.now.schema before) text.old.items (since start (K.tells out.old)) →
        Gathers (extended_text cube.now.schema (before ++ whole ∷ [])) text.new.items (since start (K.tells out.new)) result }
{
    let Some(spread) = cube.rows(fact.id) else {
        return Ok(());
    };
    let count = spread.rows().len();
    let mut from = 0;
    while from < count {
        let part = write_rows(alloc, cube.schema(), fact, spread, from, ROWS_AT_ONCE);
        match gather(text, part, out) {
            Ok(()) => from += ROWS_AT_ONCE,
            Err(error) => return Err(error),
        }
    }
    Ok(())
}

// Adds a part to the text that waits. Where that would be long, what waited is written first.
fn gather<K: Sink>(
    text: &mut Vec<u8>,
    part: Result<Bytes, Memory>,
    out: &mut K,
) -> Result<(), SinkError>
    ensures { (start : SinkTold) (made next : List ℕ) → IfOk part (λ bytes. bytes ≡ next) → 1 ≤ length next
        → OnItsWay made text.old.items (since start (K.tells out.old)) →
        Gathers (made ++ next) text.new.items (since start (K.tells out.new)) result }
{
    let Ok(part) = part else {
        return Err(SinkError::Memory);
    };
    let part = part.as_slice();
    match make_room(text, part.len(), out) {
        Ok(()) => push_part(text, part),
        Err(error) => Err(error),
    }
}

// Writes what waits where it would be long with so many bytes more.
fn make_room<K: Sink>(text: &mut Vec<u8>, more: usize, out: &mut K) -> Result<(), SinkError>
    ensures { (start : SinkTold) (made next : List ℕ) → 1 ≤ length next → OnItsWay made text.old.items (since start (K.tells out.old)) →
        MakesRoomForMore made next text.new.items (since start (K.tells out.new)) result }
{
    if text.len().saturating_add(more) <= GATHERED {
        return Ok(());
    }
    match write_line(out, text) {
        Ok(()) => {
            text.clear();
            Ok(())
        }
        Err(error) => Err(error),
    }
}

// Adds bytes to the text that waits.
fn push_part(text: &mut Vec<u8>, part: &[u8]) -> Result<(), SinkError>
    ensures ok { OnOk result (text.new.items ≡ text.old.items ++ part.now) }
    ensures err { IfErr result (λ error. error ≡ sink_error.Memory) }
{
    match text.extend_from_slice(part) {
        Ok(()) => Ok(()),
        Err(_) => Err(SinkError::Memory),
    }
}
