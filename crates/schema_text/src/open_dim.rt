//! The nodes so far of a dimension whose lines are read.
ghost use Rattle.std.specs.Prelude.{◌≡◌, ◌≤◌, ◌++◌, ◌∷◌, [], true, false, length, map, Some, None, if◌then◌else◌, IfOk, IfErr, OnOk, string_bytes, ◌==◌};
ghost use Rattle.cube_base.specs.declared.code.Code.TheVariants as code;
ghost use Rattle.cube_base.specs.Name.{is_name};
ghost use Rattle.cube_model.specs.Limits.{MAX_NODES};
ghost use Rattle.cube_model.specs.Tree.{is_numbered};
ghost use Rattle.std.specs.List.{list_any};
ghost use Rattle.std.specs.Option.{option_and_then};
ghost use Rattle.text_lines.specs.Text.{fields_of, number_in};
ghost use Rattle.text_lines.specs.LineText.{field_at};
ghost use Rattle.schema_text.specs.declared.word.Version.TheVariants as version;
ghost use Rattle.schema_text.specs.Draft.{AreNodes, IsFree, IsNextNumber, ended_fault, node_fault, taken_with, version_fault};
ghost use Rattle.schema_text.specs.Fault.{IsCause};
ghost use Rattle.schema_text.specs.Kept.{KnowsNodes};
ghost use Rattle.schema_text.specs.SchemaText.{MAX_NODE_NUMBER, ended, free_number, is_among_names, is_wrong_depth, is_wrong_name, node_of_fields, read_number, version_named};

use crate::fault::LineFault;
use crate::name::{name_of, text_of};
use crate::word::{Version, version_named};
use cube_base::{Code, Memory};
use cube_model::{MAX_DEPTH, MAX_NODES, NumberedLine};
use dim_tree::Dim;
use indexmap::IndexSet;
use std::alloc::Global;
use std::str;
use text_lines::{field_at, number_in};

/// The greatest number of a node.
const MAX_NUMBER: u64 = 65_535;

/// The nodes so far of the dimension that was named last. What a fault leaves is not said.
#[derive(Drop)]
pub struct OpenDim {
    pub version: Version,
    pub nodes: Vec<NumberedLine>,
    /// Their names, found by hash.
    pub known: IndexSet<String>,
    /// Their numbers, found by hash; none in version 1, where they are their places.
    pub taken: IndexSet<u32>,
}

impl OpenDim {
    /// No node, in version 1.
    pub fn new(alloc: Global) -> Self
        ensures version { result.version ≡ version.One }
        ensures nodes { result.nodes.items ≡ [] }
        ensures kept { KnowsNodes result }
    {
        OpenDim {
            version: Version::One,
            nodes: Vec::new(alloc),
            known: IndexSet::new(alloc),
            taken: IndexSet::new(alloc),
        }
    }

    /// Takes the version of a line, where there is no node.
    pub fn take_version(&mut self, line: &[u8]) -> Result<(), LineFault>
        requires none { self.old.nodes.items ≡ [] }
        requires kept { KnowsNodes self.old }
        ensures version { OnOk result (version_named (field_at (fields_of line.now) 1) ≡ Some self.new.version) }
        ensures nodes { self.new.nodes ≡ self.old.nodes }
        ensures kept { OnOk result (KnowsNodes self.new) }
        ensures accepted { OnOk result (version_fault (fields_of line.now) ≡ None) }
        ensures refused { IfErr result (IsCause (version_fault (fields_of line.now))) }
    {
        match version_named(field_at(line, 1)) {
            Some(version) => {
                self.version = version;
                Ok(())
            }
            None => Err(LineFault::Refused(Code::Number)),
        }
    }

    /// Takes the node of a line that has as many fields as it needs.
    pub fn take_node(&mut self, alloc: Global, line: &[u8]) -> Result<(), LineFault>
        requires few { length self.old.nodes.items ≤ MAX_NODES }
        requires kept { KnowsNodes self.old }
        ensures nodes { OnOk result (self.new.nodes.items ≡ self.old.nodes.items ++ node_of_fields self.old.version self.old.nodes.items (fields_of line.now) ∷ []) }
        ensures version { self.new.version ≡ self.old.version }
        ensures kept { OnOk result (KnowsNodes self.new) }
        ensures accepted { OnOk result (node_fault self.old.version self.old.nodes.items (fields_of line.now) ≡ None) }
        ensures refused { IfErr result (IsCause (node_fault self.old.version self.old.nodes.items (fields_of line.now))) }
    {
        match self.judge_node(line) {
            Ok((depth, number)) => Ok(self.push_node(alloc, depth, field_at(line, 2), number)?),
            Err(code) => Err(LineFault::Refused(code)),
        }
    }

    /// The depth and the number of the node of a line, or the first of the conditions that refuse it.
    fn judge_node(&self, line: &[u8]) -> Result<(u8, u32), Code>
        requires few { length self.now.nodes.items ≤ MAX_NODES }
        requires kept { KnowsNodes self.now }
        ensures read { IfOk result (λ read. node_of_fields self.now.version self.now.nodes.items (fields_of line.now) ≡ record { depth = read.0; name = field_at (fields_of line.now) 2; number = read.1 }) }
        ensures number { IfOk result (λ read. read_number self.now.version self.now.nodes.items (fields_of line.now) ≡ Some read.1) }
        ensures name { OnOk result (is_wrong_name (field_at (fields_of line.now) 2) (map (λ n. n.name) self.now.nodes.items) ≡ false) }
        ensures accepted { OnOk result (node_fault self.now.version self.now.nodes.items (fields_of line.now) ≡ None) }
        ensures refused { IfErr result (λ code. node_fault self.now.version self.now.nodes.items (fields_of line.now) ≡ Some code) }
    {
        if self.is_wrong_name(field_at(line, 2)) {
            return Err(Code::Name);
        }
        let Some(depth) = number_in(field_at(line, 1), 0, u64::from(MAX_DEPTH)) else {
            return Err(Code::Number);
        };
        let Some(number) = self.number_of(line) else {
            return Err(Code::Number);
        };
        if is_wrong_depth(&self.nodes, depth) {
            return Err(Code::Depth);
        }
        if self.nodes.len() >= MAX_NODES {
            return Err(Code::Limit);
        }
        Ok((depth as u8, number))
    }

    /// Whether bytes are no name, or that of a node.
    fn is_wrong_name(&self, name: &[u8]) -> bool
        requires { KnowsNodes self.now }
        ensures { result ≡ is_wrong_name name.now (map (λ n. n.name) self.now.nodes.items) }
    {
        match str::from_utf8(name) {
            Ok(name) => !cube_base::is_name(name) || self.known.contains(name),
            Err(_) => true,
        }
    }

    /// The number of the node that comes next: None where its field is none, or the number is taken.
    fn number_of(&self, line: &[u8]) -> Option<u32>
        requires few { length self.now.nodes.items ≤ MAX_NODES }
        requires kept { KnowsNodes self.now }
        ensures { result ≡ read_number self.now.version self.now.nodes.items (fields_of line.now) }
    {
        match self.version {
            Version::One => Some(self.nodes.len() as u32),
            Version::Two => self.free_number(field_at(line, 3)),
        }
    }

    /// The number that bytes spell, where it is not taken, in version 2.
    fn free_number(&self, bytes: &[u8]) -> Option<u32>
        requires two { self.now.version ≡ version.Two }
        requires kept { KnowsNodes self.now }
        ensures { result ≡ option_and_then (free_number self.now.nodes.items) (number_in 0 MAX_NODE_NUMBER bytes.now) }
    {
        let number = number_in(bytes, 0, MAX_NUMBER)? as u32;
        if self.taken.contains(&number) {
            None
        } else {
            Some(number)
        }
    }

    /// Puts a node after the others.
    fn push_node(
        &mut self,
        alloc: Global,
        depth: u8,
        name: &[u8],
        number: u32,
    ) -> Result<(), Memory>
        requires name { is_wrong_name name.now (map (λ n. n.name) self.old.nodes.items) ≡ false }
        requires number { IsNextNumber self.old.version self.old.nodes.items number }
        requires kept { KnowsNodes self.old }
        ensures nodes { OnOk result (self.new.nodes.items ≡ self.old.nodes.items ++ (record { depth = depth; name = name.now; number = number }) ∷ []) }
        ensures version { self.new.version ≡ self.old.version }
        ensures kept { OnOk result (KnowsNodes self.new) }
    {
        add_known(alloc, &mut self.known, name)?;
        add_taken(self.version, &mut self.taken, number)?;
        add_node(alloc, &mut self.nodes, depth, name, number)
    }

    /// Ends the dimension, where there are nodes: it is appended to those that are ended. Nodes that were accepted one by one
    /// are refused for their numbers alone.
    pub fn end_into(&mut self, alloc: Global, dims: &mut Vec<Dim>) -> Result<(), LineFault>
        requires nodes { AreNodes self.old.nodes.items }
        requires kept { KnowsNodes self.old }
        ensures dims { OnOk result (dims.new.items ≡ dims.old.items ++ ended self.old.nodes.items) }
        ensures nodes { OnOk result (self.new.nodes.items ≡ []) }
        ensures version { self.new.version ≡ self.old.version }
        ensures kept { OnOk result (KnowsNodes self.new) }
        ensures accepted { OnOk result (ended_fault self.old.nodes.items ≡ None) }
        ensures refused { IfErr result (IsCause (ended_fault self.old.nodes.items)) }
    {
        if self.nodes.is_empty() {
            return Ok(());
        }
        push_dim(alloc, dims, &self.nodes)?;
        self.clear();
        Ok(())
    }

    /// Takes all nodes away.
    fn clear(&mut self)
        ensures nodes { self.new.nodes.items ≡ [] }
        ensures version { self.new.version ≡ self.old.version }
        ensures kept { KnowsNodes self.new }
    {
        self.nodes.clear();
        self.known.clear();
        self.taken.clear();
    }
}

/// Whether a node of a depth may not come after these.
fn is_wrong_depth(nodes: &[NumberedLine], depth: u64) -> bool
    ensures { result ≡ is_wrong_depth nodes.now depth }
{
    match nodes.last() {
        None => depth != 0,
        Some(before) => depth == 0 || depth > u64::from(before.depth) + 1,
    }
}

/// Appends the dimension of nodes that were accepted one by one, of which there are some.
fn push_dim(alloc: Global, dims: &mut Vec<Dim>, nodes: &[NumberedLine]) -> Result<(), LineFault>
    requires nodes { AreNodes nodes.now }
    requires some { 1 ≤ length nodes.now }
    ensures made { OnOk result (dims.new.items ≡ dims.old.items ++ nodes.now ∷ []) }
    ensures accepted { OnOk result (is_numbered nodes.now ≡ true) }
    ensures refused { IfErr result (IsCause (if is_numbered nodes.now then None else Some code.Number)) }
{
    match Dim::build_numbered(alloc, nodes) {
        Ok(dim) => Ok(dims.push(dim)?),
        Err(fault) => Err(LineFault::of_numbers(fault)),
    }
}

/// Keeps a name that is none of these.
fn add_known(alloc: Global, known: &mut IndexSet<String>, name: &[u8]) -> Result<(), Memory>
    requires named { is_name name.now ≡ true }
    requires new { is_among_names name.now (map string_bytes known.old.keys) ≡ false }
    ensures { OnOk result (map string_bytes known.new.keys ≡ map string_bytes known.old.keys ++ name.now ∷ []) }
{
    let is_new = known.insert(String::from_str(alloc, text_of(name))?)?;
    prove!(is_new);
    Ok(())
}

/// Keeps a number that is none of these, where the version gives numbers.
fn add_taken(version: Version, taken: &mut IndexSet<u32>, number: u32) -> Result<(), Memory>
    requires { IsFree version taken.old.keys number }
    ensures { OnOk result (taken.new.keys ≡ taken_with version taken.old.keys number) }
{
    match version {
        Version::One => Ok(()),
        Version::Two => insert_number(taken, number),
    }
}

/// Keeps a number that is none of these.
fn insert_number(taken: &mut IndexSet<u32>, number: u32) -> Result<(), Memory>
    requires { list_any (λ n. n == number) taken.old.keys ≡ false }
    ensures { OnOk result (taken.new.keys ≡ taken.old.keys ++ number ∷ []) }
{
    let is_new = taken.insert(number)?;
    prove!(is_new);
    Ok(())
}

/// Appends a node.
fn add_node(
    alloc: Global,
    nodes: &mut Vec<NumberedLine>,
    depth: u8,
    name: &[u8],
    number: u32,
) -> Result<(), Memory>
    requires { is_name name.now ≡ true }
    ensures { OnOk result (nodes.new.items ≡ nodes.old.items ++ (record { depth = depth; name = name.now; number = number }) ∷ []) }
{
    let name = name_of(alloc, name)?;
    nodes.push(NumberedLine {
        depth,
        name,
        number,
    })?;
    Ok(())
}
