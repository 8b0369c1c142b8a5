//! Why a dimension of a space does not get a leaf, and the dimensions with one more.
ghost use Rattle.std.specs.Prelude.{◌≡◌, ◌<◌, length, slice_get, IfOk, IfSome, None};
ghost use Rattle.region_algebra.specs.Growth.{child_fault, grown_dims, own_fault};

use crate::copies::copies_of;
use cube_base::{Memory, Name};
use cube_model::{MAX_DEPTH, MAX_NODES};
use dim_tree::Dim;
use std::alloc::Global;

/// Why a dimension of a space does not get a leaf.
#[derive(Clone, Copy, Debug, PartialEq, Eq)]
pub enum GrowFault {
    /// A node of the dimension has the name.
    Name,
    /// The parent has depth 8.
    Depth,
    /// The dimension has 65,536 nodes.
    Limit,
    /// The product of the numbers of leaves would be 2^62 or more.
    Cells,
    /// The product of the numbers of nodes would be 2^62 or more.
    Nodes,
    /// Out of memory.
    Memory,
}

impl From<Memory> for GrowFault {
    ghost use Rattle.std.specs.Prelude.{◌≡◌};
    ghost use Rattle.region_algebra.specs.declared.growth.GrowFault.TheVariants as grow_fault;

    ghost from_gives = { λ _ fault. fault ≡ grow_fault.Memory };

    fn from(_: Memory) -> Self {
        GrowFault::Memory
    }
}

/// Why a node of a dimension gets no child of this name.
fn child_fault(dim: &Dim, parent: u32, name: &Name) -> Option<GrowFault>
    requires { parent < length dim.now }
    ensures { result ≡ child_fault dim.now parent name.now }
{
    if dim.find(name.text()).is_some() {
        Some(GrowFault::Name)
    } else if dim.depth(parent) >= MAX_DEPTH {
        Some(GrowFault::Depth)
    } else if dim.len() as usize >= MAX_NODES {
        Some(GrowFault::Limit)
    } else {
        None
    }
}

/// Why a node of one of the dimensions gets no child of this name, where limits on all together are left out.
pub fn own_fault(dims: &[Dim], d: usize, parent: u32, name: &Name) -> Option<GrowFault>
    requires dim { d < length dims.now }
    requires parent { IfSome (slice_get dims.now d) (λ dim. parent < length dim) }
    ensures { result ≡ own_fault dims.now d parent name.now }
{
    child_fault(&dims[d], parent, name)
}

/// Dimensions equal to these, but that a node of one of them has a child more.
pub fn grown_dims(
    alloc: Global,
    dims: &[Dim],
    d: usize,
    parent: u32,
    name: &Name,
) -> Result<Vec<Dim>, Memory>
    requires dim { d < length dims.now }
    requires parent { IfSome (slice_get dims.now d) (λ dim. parent < length dim) }
    requires accepted { own_fault dims.now d parent name.now ≡ None }
    ensures { IfOk result (λ copies. copies.items ≡ grown_dims dims.now d parent name.now) }
{
    let grown = dims[d].with_leaf(parent, name)?;
    let mut copies = copies_of(alloc, dims)?;
    copies[d] = grown;
    Ok(copies)
}
