//! The measures of a schema, read from their lines.
ghost use Rattle.std.specs.Prelude.{◌≡◌, ◌≤◌, ◌+◌, [], ◌∷◌, ◌++◌, true, false, length, map, Some, None, if◌then◌else◌, IfOk, IfErr, OnOk};
ghost use Rattle.std.specs.List.{list_any};
ghost use Rattle.std.specs.Str.{bytes_eq};
ghost use Rattle.cube_base.specs.Name.{is_name};
ghost use Rattle.cube_model.specs.Limits.{MAX_COLS};
ghost use Rattle.text_lines.specs.LineText.{field_at};
ghost use Rattle.text_lines.specs.Text.{fields_of};
ghost use Rattle.fact_records.specs.declared.shape.Kind.TheVariants as kind;
ghost use Rattle.fact_records.specs.Shape.{width_of_all};
ghost use Rattle.schema_text.specs.Draft.{kind_fault, number_fault, parts_fault};
ghost use Rattle.schema_text.specs.Fault.{IsCause};
ghost use Rattle.schema_text.specs.SchemaText.{has_wrong_names, is_wrong_name, measure_behind, outcomes_of, parts_kind};

use crate::fault::LineFault;
use crate::name::{has_bytes, is_name, is_wrong_name, name_of};
use cube_base::{Code, MAX_COLS, Memory, Names};
use cube_model::{MAX_SCALE, MIN_SCALE};
use fact_records::{Kind, Measure};
use std::alloc::Global;
use text_lines::{field_at, field_count, number_in};

/// Takes the number measure of a line with two fields after measures of so many columns.
pub fn take_number(
    alloc: Global,
    measures: &mut Vec<Measure>,
    columns: &mut usize,
    line: &[u8],
) -> Result<(), LineFault>
    requires width { columns.old ≡ width_of_all measures.old.items }
    requires few { columns.old ≤ MAX_COLS }
    ensures made { OnOk result (measures.new.items ≡ measures.old.items ++ measure_behind measures.old.items (field_at (fields_of line.now) 1) kind.Number ∷ []) }
    ensures width { OnOk result (columns.new ≡ width_of_all measures.new.items) }
    ensures accepted { OnOk result (number_fault measures.old.items (fields_of line.now) ≡ None) }
    ensures refused { IfErr result (IsCause (number_fault measures.old.items (fields_of line.now))) }
{
    let name = field_at(line, 1);
    if is_wrong_measure(name, measures) {
        return Err(LineFault::Refused(Code::Name));
    }
    if *columns + 1 > MAX_COLS {
        return Err(LineFault::Refused(Code::Limit));
    }
    push_measure(alloc, measures, name, Kind::Number, *columns as u32 + 1)?;
    *columns += 1;
    Ok(())
}

/// Takes the measure of distributions of a line with 5 to 10 fields, likewise.
pub fn take_parts(
    alloc: Global,
    measures: &mut Vec<Measure>,
    columns: &mut usize,
    line: &[u8],
) -> Result<(), LineFault>
    requires width { columns.old ≡ width_of_all measures.old.items }
    requires few { columns.old ≤ MAX_COLS }
    requires least { 5 ≤ length (fields_of line.now) }
    requires most { length (fields_of line.now) ≤ 10 }
    ensures made { OnOk result (measures.new.items ≡ measures.old.items ++ measure_behind measures.old.items (field_at (fields_of line.now) 1) (parts_kind (fields_of line.now)) ∷ []) }
    ensures width { OnOk result (columns.new ≡ width_of_all measures.new.items) }
    ensures accepted { OnOk result (parts_fault measures.old.items (fields_of line.now) ≡ None) }
    ensures refused { IfErr result (IsCause (parts_fault measures.old.items (fields_of line.now))) }
{
    let name = field_at(line, 1);
    if is_wrong_measure(name, measures) {
        return Err(LineFault::Refused(Code::Name));
    }
    let kind = read_kind(alloc, line)?;
    let first = *columns;
    *columns += field_count(line) - 3;
    if *columns > MAX_COLS {
        return Err(LineFault::Refused(Code::Limit));
    }
    Ok(push_measure(alloc, measures, name, kind, first as u32 + 1)?)
}

/// The distribution of a line with 5 to 10 fields.
fn read_kind(alloc: Global, line: &[u8]) -> Result<Kind, LineFault>
    requires least { 5 ≤ length (fields_of line.now) }
    ensures read { IfOk result (λ kind. kind ≡ parts_kind (fields_of line.now)) }
    ensures accepted { OnOk result (kind_fault (fields_of line.now) ≡ None) }
    ensures refused { IfErr result (IsCause (kind_fault (fields_of line.now))) }
{
    let scale = number_in(
        field_at(line, 2),
        u64::from(MIN_SCALE),
        u64::from(MAX_SCALE),
    );
    match (read_outcomes(alloc, line)?, scale) {
        (None, _) => Err(LineFault::Refused(Code::Name)),
        (Some(_), None) => Err(LineFault::Refused(Code::Number)),
        (Some(outcomes), Some(scale)) => Ok(Kind::Parts {
            scale: scale as u32,
            outcomes,
        }),
    }
}

/// Appends a measure.
fn push_measure(
    alloc: Global,
    measures: &mut Vec<Measure>,
    name: &[u8],
    kind: Kind,
    first_col: u32,
) -> Result<(), Memory>
    requires { is_name name.now ≡ true }
    ensures { OnOk result (measures.new.items ≡ measures.old.items ++ (record { name = name.now; kind = kind; first_col = first_col }) ∷ []) }
{
    let name = name_of(alloc, name)?;
    measures.push(Measure {
        name,
        kind,
        first_col,
    })?;
    Ok(())
}

/// The outcomes of a distribution: None where one of them is no name, or is a repeat.
fn read_outcomes(alloc: Global, line: &[u8]) -> Result<Option<Names>, Memory>
    requires { 3 ≤ length (fields_of line.now) }
    ensures { IfOk result (λ outcomes. outcomes ≡ (if has_wrong_names [] (outcomes_of (fields_of line.now)) then None else Some (outcomes_of (fields_of line.now)))) }
{
    let mut outcomes = Names::new(alloc);
    for place in 3..field_count(line) {
        let name = field_at(line, place);
        if is_wrong_name(name, outcomes.as_slice()) {
            return Ok(None);
        }
        outcomes.push(name_of(alloc, name)?)?;
    }
    Ok(Some(outcomes))
}

/// Whether bytes are no name, or that of one of these measures.
fn is_wrong_measure(name: &[u8], before: &[Measure]) -> bool
    ensures { result ≡ is_wrong_name name.now (map (λ m. m.name) before.now) }
{
    !is_name(name) || is_among_measures(name, before)
}

/// Whether bytes are the name of one of these measures.
fn is_among_measures(bytes: &[u8], measures: &[Measure]) -> bool
    ensures { result ≡ list_any (λ m. bytes_eq m.name bytes.now) measures.now }
{
    measures.iter().any(|measure| has_name(measure, bytes))
}

/// Whether a measure has a name of these bytes.
pub fn has_name(measure: &Measure, bytes: &[u8]) -> bool
    ensures { result ≡ bytes_eq measure.now.name bytes.now }
{
    has_bytes(&measure.name, bytes)
}
