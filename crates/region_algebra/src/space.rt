//! The space over the dimensions of a cube.
ghost use Rattle.std.specs.Prelude.{◌≡◌, ◌≢◌, ◌↔◌, ◌<◌, ◌≤◌, ◌+◌, ℕ, List, [], true, All, None, Some, Err, drop, length, map, slice_get, slice_set, take, IsSome, IfOk, IfErr, IsNone, IfSome, OnOk};
ghost use Rattle.cube_model.specs.Tree.{Dimension, IsTree, parent};
ghost use Rattle.cube_model.specs.Cells.{all_cells, cells_of, is_among};
ghost use Rattle.cube_model.specs.Limits.{MAX_DIMS};
ghost use Rattle.region_algebra.specs.Fault.{space_fault};
ghost use Rattle.region_algebra.specs.Growth.{IsGrowCause, grow_fault, grown_dims, own_fault};
ghost use Rattle.region_algebra.specs.declared.growth.GrowFault.TheVariants as grow_faults;
ghost use Rattle.region_algebra.specs.Inside.{TellsInside, cells_inside};
ghost use Rattle.region_algebra.specs.Space.{IsRegion, all_regions, cells_left, code_of, common_cells, meet_of, only_cell, cell_total, region_total};
ghost use Rattle.region_algebra.specs.Wheels.{AreWheels};

use crate::cell_walk::CellWalk;
use crate::copies::copies_of;
use crate::growth::GrowFault;
use crate::inside::{Digit, Inside};
use crate::steps::{leaf_counts, node_counts, steps_of};
use crate::wheel::Wheel;
use crate::{cells, growth, regions};
use cube_base::{Memory, Name};
use cube_model::{MAX_DIMS, Region};
use dim_tree::Dim;
use std::alloc::Global;
use std::marker::Model;

/// Why dimensions are refused as a space.
#[derive(Clone, Copy, Debug, PartialEq, Eq)]
pub enum SpaceFault {
    /// Their number is not 1 to 6.
    Dims { n: u64 },
    /// The product of their numbers of leaves is 2^62 or more.
    Cells,
    /// The product of their numbers of nodes is 2^62 or more.
    Nodes,
}

/// The dimensions of a cube, in schema order. A region is one node number per dimension; a cell goes by its code,
/// its place among all tuples of one leaf per dimension, the first dimension slowest. Contracts see the list of
/// dimensions. No call but `copy` takes memory, and each costs a few operations a dimension.
#[derive(Drop)]
pub struct Space {
    dims: Vec<Dim>,
    // For each dimension the number of cells, and of regions, over the dimensions after it.
    cell_steps: [u64; MAX_DIMS],
    region_steps: [u64; MAX_DIMS],
}

impl Model for Space {
    ghost use Rattle.std.specs.Prelude.{List};
    ghost use Rattle.cube_model.specs.Tree.{Dimension};

    ghost Value = { List Dimension };

    ghost use Rattle.region_algebra.specs.Stepped.{IsSteppedSpace};

    ghost view = { λ s. s.dims.items };

    ghost invariant = { λ s. IsSteppedSpace s.dims.items s.cell_steps s.region_steps };
}

impl Space {
    /// The space over these dimensions. The first of these that holds is answered: `Dims`, their number is not 1 to 6;
    /// `Cells`, the product of the leaf counts is 2^62 or more; `Nodes`, the product of the node counts is.
    /// On a refusal the dimensions are dropped.
    pub fn new(alloc: Global, dims: Vec<Dim>) -> Result<Self, SpaceFault>
        ensures made { IfOk result (λ space. space ≡ dims.items) }
        ensures accepted { OnOk result (space_fault dims.items ≡ None) }
        ensures refused { IfErr result (λ fault. space_fault dims.items ≡ Some fault) }
    {
        let n = dims.len();
        if n == 0 || n > MAX_DIMS {
            return Err(SpaceFault::Dims { n: n as u64 });
        }
        Self::with_steps(dims)
    }

    /// `new` of 1 to 6 dimensions.
    fn with_steps(dims: Vec<Dim>) -> Result<Self, SpaceFault>
        requires some { 1 ≤ length dims.items }
        requires few { length dims.items ≤ MAX_DIMS }
        ensures made { IfOk result (λ space. space ≡ dims.items) }
        ensures accepted { OnOk result (space_fault dims.items ≡ None) }
        ensures refused { IfErr result (λ fault. space_fault dims.items ≡ Some fault) }
        ensures trees { All IsTree dims.items }
    {
        let n = dims.len();
        let leaves = leaf_counts(&dims);
        let nodes = node_counts(&dims);
        let Some(cell_steps) = steps_of(&leaves[..n]) else {
            return Err(SpaceFault::Cells);
        };
        let Some(region_steps) = steps_of(&nodes[..n]) else {
            return Err(SpaceFault::Nodes);
        };
        Ok(Space {
            dims,
            cell_steps,
            region_steps,
        })
    }

    /// The number of dimensions, from 1 to 6.
    pub fn dims(&self) -> u32
        ensures count { result ≡ length self.now }
        ensures accepted { space_fault self.now ≡ None }
        ensures trees { All IsTree self.now }
    {
        self.dims.len() as u32
    }

    /// A dimension.
    pub fn dim(&self, d: u32) -> &Dim
        requires { d < length self.now }
        ensures { slice_get self.now d ≡ Some result.now }
    {
        &self.dims[d as usize]
    }

    /// The region of these nodes: None exactly where their number is not that of the dimensions or a node is none.
    pub fn region(&self, nodes: &[u32]) -> Option<Region>
        ensures regions { IsSome result ↔ (IsRegion self.now nodes.now) }
        ensures held { IfSome result (λ region. region ≡ nodes.now) }
    {
        if regions::is_region(&self.dims, nodes) {
            Region::new(nodes)
        } else {
            None
        }
    }

    /// The number of cells of a region, at least 1.
    pub fn cell_count(&self, r: Region) -> u64
        requires { IsRegion self.now r }
        ensures count { result ≡ length (cells_of self.now r) }
        ensures some { 1 ≤ result }
    {
        cells::count(&self.dims, r)
    }

    /// Whether a cell is one of a region's.
    pub fn contains(&self, r: Region, cell: u64) -> bool
        requires region { IsRegion self.now r }
        requires cell { cell < length (all_cells self.now) }
        ensures { result ≡ is_among (cells_of self.now r) cell }
    {
        cells::contains(&self.dims, &self.cell_steps, r, cell)
    }

    /// The number of cells that two regions share.
    pub fn overlap_count(&self, a: Region, b: Region) -> u64
        requires first { IsRegion self.now a }
        requires second { IsRegion self.now b }
        ensures { result ≡ length (common_cells self.now a b) }
    {
        self.meet(a, b).map_or(0, |r| self.cell_count(r))
    }

    /// The region of the cells that two regions share, which has the lower node in each dimension: None exactly where
    /// no cell is shared, which is where in some dimension neither node is under the other.
    pub fn meet(&self, a: Region, b: Region) -> Option<Region>
        requires first { IsRegion self.now a }
        requires second { IsRegion self.now b }
        ensures meet { result ≡ meet_of self.now a b }
        ensures common { IfSome result (λ region. cells_of self.now region ≡ common_cells self.now a b) }
        ensures some { IfSome result (λ region. IsRegion self.now region) }
        ensures none { IsNone result ↔ (common_cells self.now a b ≡ []) }
    {
        regions::meet(&self.dims, a, b)
    }

    /// A region with a child of its node in a dimension.
    pub fn child(&self, r: Region, d: u32, node: u32) -> Region
        requires region { IsRegion self.now r }
        requires dim { d < length self.now }
        requires child { IfSome (slice_get self.now d) (λ dim. (node < length dim) × (parent dim node ≡ slice_get r d)) }
        ensures child { result ≡ slice_set r d node }
        ensures region { IsRegion self.now result }
    {
        regions::child(r, self.dims.len(), d as usize, node)
    }

    /// A region's code, which is its place among all regions: the places of its nodes in mixed radix, the first dimension
    /// slowest.
    pub fn code(&self, r: Region) -> u64
        requires { IsRegion self.now r }
        ensures code { result ≡ code_of self.now r }
        ensures place { slice_get (all_regions self.now) result ≡ Some r }
        ensures within { result < region_total self.now }
    {
        regions::code(&self.dims, &self.region_steps, r)
    }

    /// The region of a code: None exactly at or above the number of regions.
    pub fn uncode(&self, code: u64) -> Option<Region>
        ensures region { result ≡ slice_get (all_regions self.now) code }
        ensures none { IsSome result ↔ (code < region_total self.now) }
        ensures some { IfSome result (λ region. IsRegion self.now region) }
    {
        regions::uncode(&self.dims, &self.region_steps, code)
    }

    /// The code of a region's cell: None exactly where it has more than one.
    pub fn cell_code(&self, r: Region) -> Option<u64>
        requires { IsRegion self.now r }
        ensures only { result ≡ only_cell (cells_of self.now r) }
        ensures within { IfSome result (λ cell. cell < length (all_cells self.now)) }
    {
        if self.cell_count(r) == 1 {
            Some(self.first_cell(r))
        } else {
            None
        }
    }

    /// The region of a cell: its leaves.
    pub fn cell_at(&self, cell: u64) -> Region
        requires { cell < length (all_cells self.now) }
        ensures cell { slice_get (all_cells self.now) cell ≡ Some result }
        ensures region { IsRegion self.now result }
    {
        cells::cell_at(&self.dims, &self.cell_steps, cell)
    }

    /// The codes of a region's cells, ascending, each once.
    pub fn cells(&self, r: Region) -> CellWalk
        requires { IsRegion self.now r }
        ensures cells { cells_left result ≡ cells_of self.now r }
        ensures within { All (λ cell. cell < length (all_cells self.now)) (cells_left result) }
    {
        CellWalk::new(self, r)
    }

    /// A test for many cells, whether each is one of a region's.
    pub fn inside(&self, r: Region) -> Inside<'_>
        requires { IsRegion self.now r }
        ensures { cells_inside result ≡ cells_of self.now r }
    {
        Inside::new(self, r)
    }

    /// An equal space, with nodes and names of its own.
    pub fn copy(&self) -> Result<Self, Memory>
        ensures { IfOk result (λ space. space ≡ self.now) }
    {
        Ok(Space {
            dims: copies_of(*self.dims.allocator(), &self.dims)?,
            cell_steps: self.cell_steps,
            region_steps: self.region_steps,
        })
    }

    /// An equal space, but that a node of a dimension has a leaf of this name more, after its other children. The
    /// leaf's number is that of the dimension's nodes before. The first of these that holds is answered: `Name`, a node
    /// of the dimension has the name; `Depth`, the parent has depth 8; `Limit`, the dimension has 65,536 nodes;
    /// `Cells`, the product of the leaf counts would be 2^62 or more, which never comes; `Nodes`, the product of the
    /// node counts would be; `Memory`. The first three are found without memory.
    pub fn grown(&self, d: u32, parent: u32, name: Name) -> Result<Self, GrowFault>
        requires dim { d < length self.now }
        requires parent { IfSome (slice_get self.now d) (λ dim. parent < length dim) }
        ensures made { IfOk result (λ space. space ≡ grown_dims self.now d parent name) }
        ensures accepted { OnOk result (grow_fault self.now d parent name ≡ None) }
        ensures refused { IfErr result (IsGrowCause (grow_fault self.now d parent name)) }
        ensures sooner { IfSome (own_fault self.now d parent name) (λ fault. result ≡ Err fault) }
        ensures cells { IfErr result (λ fault. fault ≢ grow_faults.Cells) }
    {
        let d = d as usize;
        if let Some(fault) = growth::own_fault(&self.dims, d, parent, &name) {
            return Err(fault);
        }
        let dims = growth::grown_dims(*self.dims.allocator(), &self.dims, d, parent, &name)?;
        match Self::with_steps(dims) {
            Ok(space) => Ok(space),
            // The leaf's dimension has no more leaves than it had nodes, so the cells are no more than the regions were.
            Err(_) => Err(GrowFault::Nodes),
        }
    }

    /// How far apart the codes of regions lie whose nodes differ by one place in a dimension alone: the number of regions over the
    /// dimensions after it.
    pub fn region_step(&self, d: u32) -> u64
        requires { d < length self.now }
        ensures { result ≡ region_total (drop (d + 1) self.now) }
    {
        self.region_steps[d as usize]
    }

    /// The same of cells, whose leaves differ.
    pub fn cell_step(&self, d: u32) -> u64
        requires { d < length self.now }
        ensures { result ≡ cell_total (drop (d + 1) self.now) }
    {
        self.cell_steps[d as usize]
    }

    /// The first of a region's cells.
    pub(crate) fn first_cell(&self, r: Region) -> u64
        requires { IsRegion self.now r }
        ensures { slice_get (cells_of self.now r) 0 ≡ Some result }
    {
        cells::first(&self.dims, &self.cell_steps, r)
    }

    /// The wheels that go through a region's cells, in the first places. They stand at the first of these.
    pub(crate) fn wheels(&self, r: Region) -> [Wheel; MAX_DIMS]
        requires { IsRegion self.now r }
        ensures { AreWheels self.now r (take (length self.now) result) }
    {
        cells::wheels(&self.dims, &self.cell_steps, r)
    }

    /// The digits that tell a region's cells from others, in the first places, and how many there are.
    pub(crate) fn digits(&self, r: Region) -> ([Digit; MAX_DIMS], usize)
        requires { IsRegion self.now r }
        ensures { TellsInside self.now r result.0 result.1 }
    {
        cells::digits(&self.dims, &self.cell_steps, r)
    }

    /// The number of all cells.
    pub(crate) fn all_count(&self) -> u64
        ensures { result ≡ cell_total self.now }
    {
        cells::all_count(&self.dims, &self.cell_steps)
    }
}
