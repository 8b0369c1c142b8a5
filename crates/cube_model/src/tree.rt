//! The lines of a dimension's tree, and why they may be no tree.
ghost use Rattle.std.specs.Prelude.{◌≡◌};
ghost use Rattle.cube_model.specs.declared.tree.DimFault.TheVariants as dim_fault;

use cube_base::Name;
use std::alloc::{AllocError, AllocFailed};

/// A node of a dimension: how deep it lies, the root at 0, and its name.
#[derive(Debug, Drop)]
pub struct NodeLine {
    /// The number of nodes above it.
    pub depth: u8,
    /// Its name, which no other node of the dimension has.
    pub name: Name,
}

/// A node of a dimension with the number by which regions name it.
#[derive(Debug, Drop)]
pub struct NumberedLine {
    /// The number of nodes above it.
    pub depth: u8,
    /// Its name, which no other node of the dimension has.
    pub name: Name,
    /// Its number, in order of creation from 0: no other node of the dimension has it, and that of its parent is smaller.
    pub number: u32,
}

/// A leaf to be put into a dimension as the last child of a node.
#[derive(Debug, Drop)]
pub struct Grow {
    /// The dimension, by its place.
    pub dim: u32,
    /// The number of the node that becomes the parent.
    pub parent: u32,
    /// The name of the leaf.
    pub name: Name,
}

/// Why lines are refused as a tree. Lines are counted from 0.
#[derive(Clone, Copy, Debug, PartialEq, Eq)]
pub enum DimFault {
    /// There is no line.
    Empty,
    /// There are more than 65,536 lines.
    Many,
    /// The first line has a depth other than 0.
    Root,
    /// A later line has depth 0, a depth above 8, or one above the line before by more than 1.
    Depth { line: u32 },
    /// An earlier line has the same name.
    Name { line: u32 },
    /// The numbers of the nodes are not distinct, not below their count, or one is not above that of the node's parent.
    Number,
    /// Out of memory.
    Memory,
}

impl From<AllocError> for DimFault {
    ghost from_gives = { λ _ fault. fault ≡ dim_fault.Memory };

    fn from(_: AllocError) -> Self {
        DimFault::Memory
    }
}

impl<T: Drop> From<AllocFailed<T>> for DimFault {
    ghost from_gives = { λ _ fault. fault ≡ dim_fault.Memory };

    fn from(_: AllocFailed<T>) -> Self {
        DimFault::Memory
    }
}
