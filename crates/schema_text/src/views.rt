//! The views of a schema, read from their lines.
ghost use Rattle.std.specs.Prelude.{◌≡◌, ◌<◌, ◌≤◌, ◌∷◌, ◌++◌, [], true, false, length, map, Some, None, if◌then◌else◌, IfOk, IfErr, IfSome, OnOk};
ghost use Rattle.std.specs.List.{list_any};
ghost use Rattle.std.specs.Str.{bytes_eq};
ghost use Rattle.text_lines.specs.LineText.{field_at};
ghost use Rattle.text_lines.specs.Text.{fields_of};
ghost use Rattle.schema_text.specs.Draft.{room_fault, view_fields_fault};
ghost use Rattle.schema_text.specs.Fault.{IsCause};
ghost use Rattle.schema_text.specs.Schema.{view_named};
ghost use Rattle.schema_text.specs.SchemaText.{depth_fields, depths_in, has_wrong_depths, is_wrong_name, view_of_fields};

use crate::fault::LineFault;
use crate::name::{has_bytes, is_name, name_of};
use cube_base::{Code, Memory};
use cube_model::MAX_DEPTH;
use region_algebra::{Depths, ViewDef};
use std::alloc::Global;
use text_lines::{field_at, field_count, number_in};

/// The most views of a schema.
const MAX_VIEWS: usize = 4;

/// The view of a line with two fields or more, or the first of the conditions on its name and its depths that refuse it.
pub fn read_view(alloc: Global, before: &[ViewDef], line: &[u8]) -> Result<ViewDef, LineFault>
    requires { 2 ≤ length (fields_of line.now) }
    ensures read { IfOk result (λ view. view ≡ view_of_fields (fields_of line.now)) }
    ensures accepted { OnOk result (view_fields_fault before.now (fields_of line.now) ≡ None) }
    ensures refused { IfErr result (IsCause (view_fields_fault before.now (fields_of line.now))) }
{
    let name = field_at(line, 1);
    if is_wrong_view(name, before) {
        return Err(LineFault::Refused(Code::Name));
    }
    match read_depths(alloc, line)? {
        Some(depths) => Ok(ViewDef {
            name: name_of(alloc, name)?,
            depths,
        }),
        None => Err(LineFault::Refused(Code::Number)),
    }
}

/// Appends a view, where there is room for it.
pub fn push_view(views: &mut Vec<ViewDef>, view: ViewDef) -> Result<(), LineFault>
    ensures made { OnOk result (views.new.items ≡ views.old.items ++ view ∷ []) }
    ensures accepted { OnOk result (room_fault views.old.items ≡ None) }
    ensures refused { IfErr result (IsCause (room_fault views.old.items)) }
{
    if views.len() >= MAX_VIEWS {
        return Err(LineFault::Refused(Code::Limit));
    }
    views.push(view)?;
    Ok(())
}

/// The place of the view of a name.
pub fn place_of(views: &[ViewDef], name: &[u8]) -> Option<usize>
    ensures named { result ≡ view_named views.now name.now }
    ensures within { IfSome result (λ i. i < length views.now) }
{
    views.iter().position(|view| has_name(view, name))
}

/// The depths of a view: None where a field spells none.
fn read_depths(alloc: Global, line: &[u8]) -> Result<Option<Depths>, Memory>
    requires { 2 ≤ length (fields_of line.now) }
    ensures { IfOk result (λ depths. depths ≡ (if has_wrong_depths (depth_fields (fields_of line.now)) then None else Some (depths_in (depth_fields (fields_of line.now))))) }
{
    let mut depths = Depths::new(alloc);
    for place in 2..field_count(line) {
        let Some(depth) = number_in(field_at(line, place), 0, u64::from(MAX_DEPTH)) else {
            return Ok(None);
        };
        depths.push(depth as u8)?;
    }
    Ok(Some(depths))
}

/// Whether bytes are no name, or that of one of these views.
fn is_wrong_view(name: &[u8], before: &[ViewDef]) -> bool
    ensures { result ≡ is_wrong_name name.now (map (λ v. v.name) before.now) }
{
    !is_name(name) || is_among_views(name, before)
}

/// Whether bytes are the name of one of these views.
fn is_among_views(bytes: &[u8], views: &[ViewDef]) -> bool
    ensures { result ≡ list_any (λ v. bytes_eq v.name bytes.now) views.now }
{
    views.iter().any(|view| has_name(view, bytes))
}

/// Whether a view has a name of these bytes.
fn has_name(view: &ViewDef, bytes: &[u8]) -> bool
    ensures { result ≡ bytes_eq view.now.name bytes.now }
{
    has_bytes(&view.name, bytes)
}
