//! A dimension: its nodes in preorder, with what answers questions about them in a few steps.
ghost use Rattle.std.specs.Prelude.{◌≡◌, ◌↔◌, ◌+◌, ◌-◌, ◌<◌, ◌≤◌, ℕ, List, [], insert, length, map, slice_get, string_bytes, true, Some, None, Err, IsNone, IfOk, OnOk, IfErr, IfSome};
ghost use Rattle.std.specs.Option.{option_map};
ghost use Rattle.std.specs.List.{range_with_len};
ghost use Rattle.cube_model.specs.Tree.{IsTree, dim_fault, entry_of, is_leaf, is_under, leaves, node_named, numbered, parent, place_of, tree_fault};
ghost use Rattle.cube_model.specs.declared.tree.DimFault.TheVariants.{Empty, Many};
ghost use Rattle.cube_model.specs.Cells.{leaf_places};
ghost use Rattle.cube_model.specs.Cut.{first_child, in_cut, next_sibling};
ghost use Rattle.cube_model.specs.Growing.{grown};
ghost use Rattle.cube_model.specs.Limits.{MAX_DEPTH, MAX_NODES};
ghost use Rattle.dim_tree.specs.Fault.{IsDimCause};
ghost use Rattle.dim_tree.specs.Nodes.{ArePlaces, IsNode, entry};
ghost use Rattle.dim_tree.specs.Outline.{IsOutline, outline_nodes};

use crate::growing::{depths_with, names_with, numbers_with};
use crate::node::{Node, kept_nodes};
use crate::numbering::{count_up, judged_places, ordered_places};
use crate::outline::{depths_of, judged_names, numbers_of};
use crate::places::leaves_of;
use cube_base::{Memory, Name};
use cube_model::{DimFault, MAX_NODES, NodeLine, NumberedLine};
use indexmap::IndexSet;
use std::alloc::{AllocError, Global};
use std::marker::Model;

/// A dimension. A node goes by its number, which tells the order in which the nodes were made, from 0 for the root;
/// its place is its index in preorder; a leaf's index is its place among the leaves.
/// Contracts see the list of the nodes' depths, names and numbers.
#[derive(Drop)]
pub struct Dim {
    /// The names in preorder, found by hash.
    names: IndexSet<String>,
    /// The nodes in preorder.
    nodes: Vec<Node>,
    /// For each number the place of its node.
    places: Vec<u32>,
    /// The places of the leaves.
    leaves: Vec<u32>,
}

impl Model for Dim {
    ghost use Rattle.std.specs.Prelude.{map, string_bytes};
    ghost use Rattle.cube_model.specs.Tree.{Dimension};
    ghost use Rattle.dim_tree.specs.Nodes.{IsIndexed, depths_kept, numbers_kept};
    ghost use Rattle.dim_tree.specs.Outline.{outline_nodes};

    ghost Value = { Dimension };

    ghost view = { λ d. outline_nodes (depths_kept d.nodes.items) (map string_bytes d.names.keys) (numbers_kept d.nodes.items) };

    ghost invariant = { λ d. IsIndexed d.nodes.items (map string_bytes d.names.keys) d.places.items d.leaves.items };
}

impl Dim {
    /// The dimension of these lines, with their places as numbers. The first of these that holds is answered:
    /// `Empty`, there is no line; `Many`, there are more than 65,536; then, at the first faulty line, `Root`, the first
    /// line's depth is not 0, `Depth`, a later line's depth is 0, above 8 or above the line before by more than 1, or
    /// `Name`, an earlier line has the name; `Memory`.
    pub fn build(alloc: Global, lines: &[NodeLine]) -> Result<Self, DimFault>
        ensures built { IfOk result (λ dim. dim ≡ numbered lines.now) }
        ensures accepted { OnOk result (tree_fault lines.now ≡ None) }
        ensures refused { IfErr result (IsDimCause (tree_fault lines.now)) }
        ensures empty { tree_fault lines.now ≡ Some Empty → result ≡ Err Empty }
        ensures many { tree_fault lines.now ≡ Some Many → result ≡ Err Many }
    {
        if lines.is_empty() {
            return Err(DimFault::Empty);
        }
        if lines.len() > MAX_NODES {
            return Err(DimFault::Many);
        }
        Self::of_lines(alloc, lines)
    }

    /// The dimension of these nodes with numbers of their own. The first of these that holds is answered: what `build`
    /// refuses; `Number`, the numbers are not distinct, not below their count, or that of a node is not above that of
    /// its parent; `Memory`.
    pub fn build_numbered(alloc: Global, lines: &[NumberedLine]) -> Result<Self, DimFault>
        ensures built { IfOk result (λ dim. dim ≡ lines.now) }
        ensures accepted { OnOk result (dim_fault lines.now ≡ None) }
        ensures refused { IfErr result (IsDimCause (dim_fault lines.now)) }
        ensures empty { dim_fault lines.now ≡ Some Empty → result ≡ Err Empty }
        ensures many { dim_fault lines.now ≡ Some Many → result ≡ Err Many }
    {
        if lines.is_empty() {
            return Err(DimFault::Empty);
        }
        if lines.len() > MAX_NODES {
            return Err(DimFault::Many);
        }
        Self::of_numbered(alloc, lines)
    }

    /// `build` of 1 to 65,536 lines.
    fn of_lines(alloc: Global, lines: &[NodeLine]) -> Result<Self, DimFault>
        requires some { 1 ≤ length lines.now }
        requires few { length lines.now ≤ MAX_NODES }
        ensures built { IfOk result (λ dim. dim ≡ numbered lines.now) }
        ensures accepted { OnOk result (tree_fault lines.now ≡ None) }
        ensures refused { IfErr result (IsDimCause (tree_fault lines.now)) }
    {
        let names = judged_names(alloc, lines)?;
        let depths = depths_of(alloc, lines)?;
        let numbers = count_up(alloc, lines.len() as u32)?;
        let places = count_up(alloc, lines.len() as u32)?;
        let dim = Self::of_places(alloc, names, places, &depths, &numbers)?;
        Ok(dim)
    }

    /// `build_numbered` of 1 to 65,536 lines.
    fn of_numbered(alloc: Global, lines: &[NumberedLine]) -> Result<Self, DimFault>
        requires some { 1 ≤ length lines.now }
        requires few { length lines.now ≤ MAX_NODES }
        ensures built { IfOk result (λ dim. dim ≡ lines.now) }
        ensures accepted { OnOk result (dim_fault lines.now ≡ None) }
        ensures refused { IfErr result (IsDimCause (dim_fault lines.now)) }
    {
        let names = judged_names(alloc, lines)?;
        let depths = depths_of(alloc, lines)?;
        let numbers = numbers_of(alloc, lines)?;
        let places = judged_places(alloc, &depths, &numbers)?;
        let dim = Self::of_places(alloc, names, places, &depths, &numbers)?;
        Ok(dim)
    }

    /// The dimension of these depths, names and numbers.
    fn of_tree(
        alloc: Global,
        names: IndexSet<String>,
        depths: &[u8],
        numbers: &[u32],
    ) -> Result<Self, Memory>
        requires { IsOutline depths.now (map string_bytes names.keys) numbers.now }
        ensures { IfOk result (λ dim. dim ≡ outline_nodes depths.now (map string_bytes names.keys) numbers.now) }
    {
        let places = ordered_places(alloc, depths, numbers)?;
        let dim = Self::of_places(alloc, names, places, depths, numbers)?;
        Ok(dim)
    }

    /// The same, from the places of the numbers.
    fn of_places(
        alloc: Global,
        names: IndexSet<String>,
        places: Vec<u32>,
        depths: &[u8],
        numbers: &[u32],
    ) -> Result<Self, AllocError>
        requires outline { IsOutline depths.now (map string_bytes names.keys) numbers.now }
        requires places { ArePlaces numbers.now places.items }
        ensures { IfOk result (λ dim. dim ≡ outline_nodes depths.now (map string_bytes names.keys) numbers.now) }
    {
        let (leaves_before, leaves) = leaves_of(alloc, depths)?;
        let nodes = kept_nodes(alloc, depths, numbers, &leaves_before)?;
        Ok(Dim {
            names,
            nodes,
            places,
            leaves,
        })
    }

    /// An equal dimension, with nodes and names of its own.
    pub fn copy(&self) -> Result<Self, Memory>
        ensures { IfOk result (λ dim. dim ≡ self.now) }
    {
        Ok(Dim {
            names: self.names.clone()?,
            nodes: self.nodes.clone()?,
            places: self.places.clone()?,
            leaves: self.leaves.clone()?,
        })
    }

    /// This dimension with a leaf of this name more, as the last child of `parent`. Its number is how many nodes there
    /// were. `Memory` only when it runs out of memory.
    pub fn with_leaf(&self, parent: u32, name: &Name) -> Result<Self, Memory>
        requires parent { parent < length self.now }
        requires depth { IfSome (entry_of self.now parent) (λ e. e.depth < MAX_DEPTH) }
        requires few { length self.now < MAX_NODES }
        requires new { node_named self.now name.now ≡ None }
        ensures { IfOk result (λ dim. dim ≡ grown self.now parent name.now) }
    {
        let alloc = *self.names.allocator();
        let (place, depth) = self.new_child(parent);
        let names = names_with(&self.names, place, name)?;
        let depths = depths_with(alloc, &self.nodes, place, depth)?;
        let numbers = numbers_with(alloc, &self.nodes, place)?;
        Self::of_tree(alloc, names, &depths, &numbers)
    }

    /// The place and the depth of a leaf that is put in as the last child of a node.
    fn new_child(&self, parent: u32) -> (u32, u8)
        requires parent { parent < length self.now }
        requires depth { IfSome (entry_of self.now parent) (λ e. e.depth < MAX_DEPTH) }
        ensures grown { (name : List ℕ) → grown self.now parent name ≡ insert self.now result.0 (entry result.1 name (length self.now)) }
        ensures within { result.0 ≤ length self.now }
    {
        let above = self.node(self.place(parent));
        (above.end, above.depth + 1)
    }

    /// The place in preorder of a node.
    pub fn place(&self, n: u32) -> u32
        requires { n < length self.now }
        ensures place { place_of self.now n ≡ Some result }
        ensures within { result < length self.now }
    {
        self.places[n as usize]
    }

    /// The node at a place in preorder.
    pub fn at(&self, place: u32) -> u32
        requires { place < length self.now }
        ensures number { option_map (λ e. e.number) (slice_get self.now place) ≡ Some result }
        ensures within { result < length self.now }
    {
        self.nodes[place as usize].number
    }

    /// What is kept for the node at a place.
    fn node(&self, place: u32) -> &Node
        requires { place < length self.now }
        ensures { (n : ℕ) → place_of self.now n ≡ Some place → IsNode self.now n place result.now }
    {
        &self.nodes[place as usize]
    }

    /// The number of nodes, from 1 to 65,536.
    pub fn len(&self) -> u32
        ensures count { result ≡ length self.now }
        ensures some { 1 ≤ result }
        ensures most { result ≤ MAX_NODES }
        ensures tree { IsTree self.now }
    {
        self.nodes.len() as u32
    }

    /// The number of leaves, at least 1, and below that of the nodes where there are two or more.
    pub fn leaf_count(&self) -> u32
        ensures count { result ≡ length (leaves self.now) }
        ensures some { 1 ≤ result }
        ensures most { result ≤ length self.now }
        ensures fewer { 2 ≤ length self.now → result < length self.now }
    {
        self.leaves.len() as u32
    }

    /// The parent of a node: None for the root alone.
    pub fn parent(&self, n: u32) -> Option<u32>
        requires { n < length self.now }
        ensures parent { result ≡ parent self.now n }
        ensures root { IsNone result ↔ (n ≡ 0) }
        ensures before { IfSome result (λ p. p < n) }
    {
        let node = self.node(self.place(n));
        if n == 0 { None } else { Some(node.parent) }
    }

    /// The depth of a node, from 0 to 8.
    pub fn depth(&self, n: u32) -> u8
        requires { n < length self.now }
        ensures depth { option_map (λ e. e.depth) (entry_of self.now n) ≡ Some result }
        ensures most { result ≤ MAX_DEPTH }
    {
        self.node(self.place(n)).depth
    }

    /// Whether a node has no child.
    pub fn is_leaf(&self, n: u32) -> bool
        requires { n < length self.now }
        ensures { result ≡ is_leaf self.now n }
    {
        let place = self.place(n);
        self.node(place).end == place + 1
    }

    /// Whether climbing parents from `x`, `x` included, meets `y`.
    pub fn is_under(&self, x: u32, y: u32) -> bool
        requires lower { x < length self.now }
        requires upper { y < length self.now }
        ensures { result ≡ is_under self.now x y }
    {
        let place = self.place(x);
        let upper = self.place(y);
        let node = self.node(upper);
        upper <= place && place < node.end
    }

    /// The first of a node's children: None exactly for a leaf.
    pub fn first_child(&self, n: u32) -> Option<u32>
        requires { n < length self.now }
        ensures child { result ≡ first_child self.now n }
        ensures leaf { IsNone result ↔ (is_leaf self.now n ≡ true) }
        ensures within { IfSome result (λ c. c < length self.now) }
    {
        let place = self.place(n);
        let end = self.node(place).end;
        let next = place + 1;
        if next < end {
            Some(self.at(next))
        } else {
            None
        }
    }

    /// The next node with the same parent: None where there is none after it, as for the root.
    pub fn next_sibling(&self, n: u32) -> Option<u32>
        requires { n < length self.now }
        ensures sibling { result ≡ next_sibling self.now n }
        ensures within { IfSome result (λ s. s < length self.now) }
    {
        let node = self.node(self.place(n));
        let above = self.node(self.place(node.parent));
        if node.end < above.end {
            Some(self.at(node.end))
        } else {
            None
        }
    }

    /// Whether a node is in the cut at a depth: it has that depth, or is a leaf of smaller depth.
    pub fn in_cut(&self, n: u32, depth: u8) -> bool
        requires { n < length self.now }
        ensures { option_map (in_cut self.now depth) (entry_of self.now n) ≡ Some result }
    {
        let own = self.node(self.place(n)).depth;
        own == depth || (own < depth && self.is_leaf(n))
    }

    /// The leaves under a node, itself included: the first leaf index, and one past the last.
    pub fn leaf_range(&self, n: u32) -> (u32, u32)
        requires { n < length self.now }
        ensures leaves { leaf_places self.now n ≡ range_with_len result.0 (result.1 - result.0) }
        ensures some { result.0 < result.1 }
        ensures within { result.1 ≤ length (leaves self.now) }
    {
        let node = self.node(self.place(n));
        (node.first_leaf, node.leaves_end)
    }

    /// The node of a leaf index.
    pub fn leaf_node(&self, i: u32) -> u32
        requires { i < length (leaves self.now) }
        ensures leaf { slice_get (leaves self.now) i ≡ Some result }
        ensures within { result < length self.now }
    {
        self.at(self.leaves[i as usize])
    }

    /// The name of a node.
    pub fn name_of(&self, n: u32) -> &str
        requires { n < length self.now }
        ensures { option_map (λ e. e.name) (entry_of self.now n) ≡ Some result.now }
    {
        self.names[self.place(n) as usize].as_str()
    }

    /// The node of a name: None exactly where no node has it.
    pub fn find(&self, name: &str) -> Option<u32>
        ensures found { result ≡ node_named self.now name.now }
        ensures within { IfSome result (λ n. n < length self.now) }
    {
        let place = self.names.get_index_of(name)?;
        Some(self.at(place as u32))
    }
}
