//! Writing a schema.
ghost use Rattle.std.specs.Prelude.{◌≡◌, ◌<◌, ◌+◌, ◌++◌, ◌∷◌, [], ℕ, List, Ok, Some, codes, length, map, slice_get, IfOk, OnOk};
ghost use Rattle.std.specs.Fmt.{decimal};
ghost use Rattle.std.specs.List.{flat_map, list_all};
ghost use Rattle.std.specs.Option.{option_map};
ghost use Rattle.cube_model.specs.Tree.{IsTree, entry_of};
ghost use Rattle.text_lines.specs.Text.{line_text};
ghost use Rattle.schema_text.specs.Schema.{IsSchema};
ghost use Rattle.schema_text.specs.SchemaText.{are_places_from, dims_text, measure_line, node_line, number_fields, policy_fields, policy_line, schema_of, schema_text, version_of, view_line};

use crate::schema::Schema;
use crate::word::{PolicyWord, Version, version_text};
use cube_base::{Bytes, Memory, Name, Names};
use dim_tree::Dim;
use fact_records::{Kind, Measure, Shape};
use itoa::Buffer;
use region_algebra::{Space, ViewDef};
use std::alloc::Global;

/// The one text of a schema that is written: its lines with LF alone, none of which is skipped. With anything after
/// it, it is read as the schema.
pub fn write_schema(alloc: Global, s: &Schema) -> Result<Bytes, Memory>
    ensures text { IfOk result (λ text. text ≡ schema_text s.now) }
    ensures reads { IfOk result (λ text. (rest : List ℕ) → schema_of (text ++ rest) ≡ Ok (record { schema = s.now; size = length text })) }
{
    let mut out = Vec::new(alloc);
    append_schema(&mut out, s)?;
    Ok(Bytes::from(out))
}

/// The version of the text: 1 where in each dimension each node's number is its place.
fn version_of(space: &Space) -> Version
    ensures { result ≡ version_of space.now }
{
    for d in 0..space.dims() {
        if !has_places(space.dim(d)) {
            return Version::Two;
        }
    }
    Version::One
}

/// Whether each node's number is its place.
fn has_places(dim: &Dim) -> bool
    ensures { result ≡ are_places_from 0 dim.now }
{
    for place in 0..dim.len() {
        if dim.at(place) != place {
            return false;
        }
    }
    true
}

// Each of the following appends what it says, or, where it runs out of memory, a part of it.

/// Appends the text of a schema.
fn append_schema(out: &mut Vec<u8>, s: &Schema) -> Result<(), Memory>
    ensures text { OnOk result (out.new.items ≡ out.old.items ++ schema_text s.now) }
    ensures schema { IsSchema s.now }
{
    let version = version_of(s.space());
    append_line(out, "cube", version_text(version).as_bytes())?;
    append_policy(out, s)?;
    append_measures(out, s.shape())?;
    append_dims(out, version, s.space(), s.dim_names())?;
    append_views(out, s.views())?;
    append_bytes(out, b"end\n")
}

/// Appends the line of the policy.
fn append_policy(out: &mut Vec<u8>, s: &Schema) -> Result<(), Memory>
    ensures { OnOk result (out.new.items ≡ out.old.items ++ policy_line s.now.measures s.now.policy) }
{
    match s.policy() {
        PolicyWord::Uniform => append_line(out, "policy", b"uniform"),
        PolicyWord::Count => append_line(out, "policy", b"count"),
        PolicyWord::Weight(place) => append_weight(out, s.shape().measure(place)),
    }
}

/// Appends the line of the policy by the sum of a measure.
fn append_weight(out: &mut Vec<u8>, measure: &Measure) -> Result<(), Memory>
    ensures { OnOk result (out.new.items ≡ out.old.items ++ line_text (codes "policy") (codes "weight" ∷ measure.now.name ∷ [])) }
{
    append_start(out, "policy", b"weight")?;
    append_field(out, measure.name.text().as_bytes())?;
    append_bytes(out, b"\n")
}

/// Appends the lines of the measures.
fn append_measures(out: &mut Vec<u8>, shape: &Shape) -> Result<(), Memory>
    ensures { OnOk result (out.new.items ≡ out.old.items ++ flat_map measure_line shape.now.measures) }
{
    for i in 0..shape.len() {
        append_measure(out, shape.measure(i))?;
    }
    Ok(())
}

/// Appends the line of a measure.
fn append_measure(out: &mut Vec<u8>, measure: &Measure) -> Result<(), Memory>
    ensures { OnOk result (out.new.items ≡ out.old.items ++ measure_line measure.now) }
{
    let name = measure.name.text().as_bytes();
    match &measure.kind {
        Kind::Number => append_line(out, "number", name),
        Kind::Parts { scale, outcomes } => append_parts(out, name, *scale, outcomes),
    }
}

/// Appends the line of a distribution.
fn append_parts(out: &mut Vec<u8>, name: &[u8], scale: u32, outcomes: &Names) -> Result<(), Memory>
    ensures { OnOk result (out.new.items ≡ out.old.items ++ line_text (codes "parts") (name.now ∷ decimal scale ∷ outcomes.now)) }
{
    append_start(out, "parts", name)?;
    append_number(out, scale)?;
    append_names(out, outcomes)?;
    append_bytes(out, b"\n")
}

/// Appends the lines of the dimensions and their nodes.
fn append_dims(
    out: &mut Vec<u8>,
    version: Version,
    space: &Space,
    names: &[Name],
) -> Result<(), Memory>
    requires { length names.now ≡ length space.now }
    ensures { OnOk result (out.new.items ≡ out.old.items ++ dims_text version names.now space.now) }
{
    for d in 0..space.dims() {
        append_line(out, "dimension", names[d as usize].text().as_bytes())?;
        append_nodes(out, version, space.dim(d))?;
    }
    Ok(())
}

/// Appends the lines of the nodes of a dimension.
fn append_nodes(out: &mut Vec<u8>, version: Version, dim: &Dim) -> Result<(), Memory>
    ensures { OnOk result (out.new.items ≡ out.old.items ++ flat_map (node_line version) dim.now) }
{
    for place in 0..dim.len() {
        append_node(out, version, dim, dim.at(place))?;
    }
    Ok(())
}

/// Appends the line of a node.
fn append_node(out: &mut Vec<u8>, version: Version, dim: &Dim, node: u32) -> Result<(), Memory>
    requires { node < length dim.now }
    ensures { OnOk result (option_map (λ e. out.old.items ++ node_line version e) (entry_of dim.now node) ≡ Some out.new.items) }
{
    append_bytes(out, b"node")?;
    append_number(out, u32::from(dim.depth(node)))?;
    append_field(out, dim.name_of(node).as_bytes())?;
    append_number_of(out, version, node)?;
    append_bytes(out, b"\n")
}

/// Appends the number of a node, where the version has it.
fn append_number_of(out: &mut Vec<u8>, version: Version, node: u32) -> Result<(), Memory>
    ensures { OnOk result (out.new.items ≡ out.old.items ++ flat_map (λ field. 9 ∷ field) (number_fields version node)) }
{
    match version {
        Version::One => Ok(()),
        Version::Two => append_number(out, node),
    }
}

/// Appends the lines of the views.
fn append_views(out: &mut Vec<u8>, views: &[ViewDef]) -> Result<(), Memory>
    ensures { OnOk result (out.new.items ≡ out.old.items ++ flat_map view_line views.now) }
{
    for view in views {
        append_view(out, view)?;
    }
    Ok(())
}

/// Appends the line of a view.
fn append_view(out: &mut Vec<u8>, view: &ViewDef) -> Result<(), Memory>
    ensures { OnOk result (out.new.items ≡ out.old.items ++ view_line view.now) }
{
    append_start(out, "view", view.name.text().as_bytes())?;
    append_depths(out, view.depths.as_slice())?;
    append_bytes(out, b"\n")
}

/// Appends a field for each depth.
fn append_depths(out: &mut Vec<u8>, depths: &[u8]) -> Result<(), Memory>
    ensures { OnOk result (out.new.items ≡ out.old.items ++ flat_map (λ field. 9 ∷ field) (map decimal depths.now)) }
{
    for depth in depths {
        append_number(out, u32::from(*depth))?;
    }
    Ok(())
}

/// Appends a line of a word and a field.
fn append_line(out: &mut Vec<u8>, word: &str, field: &[u8]) -> Result<(), Memory>
    ensures { OnOk result (out.new.items ≡ out.old.items ++ line_text word.now (field.now ∷ [])) }
{
    append_start(out, word, field)?;
    append_bytes(out, b"\n")
}

/// Appends the word and the first field of a line.
fn append_start(out: &mut Vec<u8>, word: &str, field: &[u8]) -> Result<(), Memory>
    ensures { OnOk result (out.new.items ≡ out.old.items ++ word.now ++ 9 ∷ field.now) }
{
    append_bytes(out, word.as_bytes())?;
    append_field(out, field)
}

/// Appends a field for each name.
fn append_names(out: &mut Vec<u8>, names: &Names) -> Result<(), Memory>
    ensures { OnOk result (out.new.items ≡ out.old.items ++ flat_map (λ name. 9 ∷ name) names.now) }
{
    for name in names.as_slice() {
        append_field(out, name.text().as_bytes())?;
    }
    Ok(())
}

/// Appends a field after those of the line.
fn append_field(out: &mut Vec<u8>, field: &[u8]) -> Result<(), Memory>
    ensures { OnOk result (out.new.items ≡ out.old.items ++ 9 ∷ field.now) }
{
    append_bytes(out, b"\t")?;
    append_bytes(out, field)
}

/// Appends a number as a field.
fn append_number(out: &mut Vec<u8>, number: u32) -> Result<(), Memory>
    ensures { OnOk result (out.new.items ≡ out.old.items ++ 9 ∷ decimal number) }
{
    append_field(out, Buffer::new().format(number).as_bytes())
}

/// Appends bytes.
fn append_bytes(out: &mut Vec<u8>, bytes: &[u8]) -> Result<(), Memory>
    ensures { OnOk result (out.new.items ≡ out.old.items ++ bytes.now) }
{
    out.extend_from_slice(bytes)?;
    Ok(())
}
