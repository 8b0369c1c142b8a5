//! Reading the lines of a dimension: each is judged, and its name is kept.
ghost use Rattle.std.specs.Prelude.{◌≡◌, ◌≤◌, ◌++◌, ◌∷◌, [], length, map, true, None, IfOk, OnOk, IfErr, string_bytes};
ghost use Rattle.std.specs.List.{list_all};
ghost use Rattle.std.specs.Option.{option_or};
ghost use Rattle.cube_base.specs.Name.{is_name};
ghost use Rattle.cube_model.specs.Limits.{MAX_NODES};
ghost use Rattle.cube_model.specs.Tree.{first_fault};
ghost use Rattle.cube_model.specs.declared.tree.NodeLine.{NodeLine};
ghost use Rattle.dim_tree.specs.Fault.{IsDimCause};
ghost use Rattle.dim_tree.specs.Outline.{depth_fault, line_of_node, name_fault};

use cube_base::Name;
use cube_model::{DimFault, MAX_DEPTH, NodeLine, NumberedLine};
use indexmap::IndexSet;
use std::alloc::{AllocError, Global};

/// What is judged of a node: how deep it lies, and its name.
pub trait Outlined {
    /// The node as a line, without a number.
    ghost line: { Self → NodeLine };

    /// The number of nodes above it.
    fn depth(&self) -> u8
        ensures { result ≡ (line self.now).depth };

    /// Its name.
    fn name(&self) -> &Name
        ensures { result.now ≡ (line self.now).name };
}

impl Outlined for NodeLine {
    ghost line = { λ l. l };

    fn depth(&self) -> u8 {
        self.depth
    }

    fn name(&self) -> &Name {
        &self.name
    }
}

impl Outlined for NumberedLine {
    ghost line = { line_of_node };

    fn depth(&self) -> u8 {
        self.depth
    }

    fn name(&self) -> &Name {
        &self.name
    }
}

/// Judges the nodes one after another, but not their numbers. Where they are a tree, their names, in order.
pub fn judged_names<L: Outlined>(alloc: Global, nodes: &[L]) -> Result<IndexSet<String>, DimFault>
    requires { length nodes.now ≤ MAX_NODES }
    ensures names { IfOk result (λ names. map string_bytes names.keys ≡ map (λ line. line.name) (map L.line nodes.now)) }
    ensures are_names { OnOk result (list_all (λ line. is_name line.name) (map L.line nodes.now) ≡ true) }
    ensures accepted { OnOk result (first_fault [] 0 (map L.line nodes.now) ≡ None) }
    ensures refused { IfErr result (IsDimCause (first_fault [] 0 (map L.line nodes.now))) }
{
    let mut names = IndexSet::with_capacity(alloc, nodes.len())?;
    let mut before = None;
    for (place, node) in nodes.iter().enumerate() {
        let depth = node.depth();
        judge_line(alloc, &mut names, before, place as u32, depth, node.name())?;
        before = Some(depth);
    }
    Ok(names)
}

/// Judges the line at a place, after a line of the depth `before`, and keeps its name.
fn judge_line(
    alloc: Global,
    names: &mut IndexSet<String>,
    before: Option<u8>,
    place: u32,
    depth: u8,
    name: &Name,
) -> Result<(), DimFault>
    ensures depth { OnOk result (depth_fault before place depth ≡ None) }
    ensures name { OnOk result (name_fault (map string_bytes names.old.keys) place name.now ≡ None) }
    ensures added { OnOk result (map string_bytes names.new.keys ≡ map string_bytes names.old.keys ++ name.now ∷ []) }
    ensures is_name { OnOk result (is_name name.now ≡ true) }
    ensures refused { IfErr result (IsDimCause (option_or (depth_fault before place depth) (name_fault (map string_bytes names.old.keys) place name.now))) }
{
    judge_depth(before, place, depth)?;
    add_name(alloc, names, place, name)
}

/// Judges the depth of the line at a place, after a line of the depth `before`.
fn judge_depth(before: Option<u8>, place: u32, depth: u8) -> Result<(), DimFault>
    ensures accepted { OnOk result (depth_fault before place depth ≡ None) }
    ensures refused { IfErr result (IsDimCause (depth_fault before place depth)) }
{
    match before {
        None if depth != 0 => Err(DimFault::Root),
        None => Ok(()),
        Some(before) if depth == 0 || depth > MAX_DEPTH || depth > before.saturating_add(1) => {
            Err(DimFault::Depth { line: place })
        }
        Some(_) => Ok(()),
    }
}

/// Keeps the name of the line at a place, if no line before it has it.
fn add_name(
    alloc: Global,
    names: &mut IndexSet<String>,
    place: u32,
    name: &Name,
) -> Result<(), DimFault>
    ensures accepted { OnOk result (name_fault (map string_bytes names.old.keys) place name.now ≡ None) }
    ensures added { OnOk result (map string_bytes names.new.keys ≡ map string_bytes names.old.keys ++ name.now ∷ []) }
    ensures is_name { is_name name.now ≡ true }
    ensures refused { IfErr result (IsDimCause (name_fault (map string_bytes names.old.keys) place name.now)) }
{
    let text = String::from_str(alloc, name.text())?;
    let added = names.insert(text)?;
    if added {
        Ok(())
    } else {
        Err(DimFault::Name { line: place })
    }
}

/// The depths of the nodes, in order.
pub fn depths_of<L: Outlined>(alloc: Global, nodes: &[L]) -> Result<Vec<u8>, AllocError>
    ensures { IfOk result (λ depths. depths.items ≡ map (λ node. (L.line node).depth) nodes.now) }
{
    nodes.iter().map(|node| node.depth()).collect(alloc)
}

/// Their numbers, in order.
pub fn numbers_of(alloc: Global, lines: &[NumberedLine]) -> Result<Vec<u32>, AllocError>
    ensures { IfOk result (λ numbers. numbers.items ≡ map (λ line. line.number) lines.now) }
{
    lines.iter().map(|line| line.number).collect(alloc)
}
