//! The cells of a region, each by its code.
ghost use Rattle.std.specs.Prelude.{◌≡◌, ◌<◌, ◌≤◌, All, Some, true, length, nat_le, nat_lt, slice_get, take, ◌&&◌};
ghost use Rattle.cube_model.specs.Cells.{all_cells, cells_of, is_among};
ghost use Rattle.cube_model.specs.Limits.{MAX_DIMS, SPACE_LIMIT};
ghost use Rattle.cube_model.specs.Tree.{IsTree};
ghost use Rattle.region_algebra.specs.Inside.{TellsInside};
ghost use Rattle.region_algebra.specs.Space.{IsRegion, cell_total};
ghost use Rattle.region_algebra.specs.Stepped.{IsStepped};
ghost use Rattle.region_algebra.specs.Wheels.{AreWheels};

use crate::inside::Digit;
use crate::wheel::Wheel;
use cube_model::{MAX_DIMS, Region};
use dim_tree::Dim;

/// The number of a region's cells.
pub fn count(dims: &[Dim], r: Region) -> u64
    requires trees { All IsTree dims.now }
    requires total { cell_total dims.now < SPACE_LIMIT }
    requires few { length dims.now ≤ MAX_DIMS }
    requires region { IsRegion dims.now r }
    ensures count { result ≡ length (cells_of dims.now r) }
    ensures some { 1 ≤ result }
{
    let mut count = 1;
    for d in (0..dims.len()).rev() {
        let (first, end) = dims[d].leaf_range(r.node(d as u32));
        count *= u64::from(end - first);
    }
    count
}

/// The first of a region's cells.
pub fn first(dims: &[Dim], steps: &[u64; MAX_DIMS], r: Region) -> u64
    requires steps { IsStepped cell_total dims.now steps.now }
    requires few { length dims.now ≤ MAX_DIMS }
    requires region { IsRegion dims.now r }
    ensures { slice_get (cells_of dims.now r) 0 ≡ Some result }
{
    let mut code = 0;
    for d in (0..dims.len()).rev() {
        let (first, _) = dims[d].leaf_range(r.node(d as u32));
        code += u64::from(first) * steps[d];
    }
    code
}

/// The wheels that go through a region's cells, in the first places. They stand at the first of these.
pub fn wheels(dims: &[Dim], steps: &[u64; MAX_DIMS], r: Region) -> [Wheel; MAX_DIMS]
    requires steps { IsStepped cell_total dims.now steps.now }
    requires few { length dims.now ≤ MAX_DIMS }
    requires region { IsRegion dims.now r }
    ensures { AreWheels dims.now r (take (length dims.now) result) }
{
    let mut wheels = [Wheel::UNUSED; MAX_DIMS];
    for d in (0..dims.len()).rev() {
        let (first, end) = dims[d].leaf_range(r.node(d as u32));
        wheels[d] = Wheel {
            first,
            end,
            leaf: first,
            step: steps[d],
        };
    }
    wheels
}

/// The digits that tell a region's cells from others, in the first places, and how many there are. In a dimension of which
/// the region has all leaves nothing is asked.
pub fn digits(dims: &[Dim], steps: &[u64; MAX_DIMS], r: Region) -> ([Digit; MAX_DIMS], usize)
    requires steps { IsStepped cell_total dims.now steps.now }
    requires few { length dims.now ≤ MAX_DIMS }
    requires region { IsRegion dims.now r }
    ensures { TellsInside dims.now r result.0 result.1 }
{
    let mut digits = [Digit::UNUSED; MAX_DIMS];
    let mut count = 0;
    for d in 0..dims.len() {
        let dim = &dims[d];
        let (first, end) = dim.leaf_range(r.node(d as u32));
        let digit = Digit {
            cells: u64::from(dim.leaf_count()) * steps[d],
            low: u64::from(first) * steps[d],
            high: u64::from(end) * steps[d],
        };
        if digit.is_asked() {
            digits[count] = digit;
            count += 1;
        }
    }
    (digits, count)
}

/// The number of all cells.
pub fn all_count(dims: &[Dim], steps: &[u64; MAX_DIMS]) -> u64
    requires steps { IsStepped cell_total dims.now steps.now }
    requires some { 1 ≤ length dims.now }
    requires few { length dims.now ≤ MAX_DIMS }
    ensures { result ≡ cell_total dims.now }
{
    u64::from(dims[0].leaf_count()) * steps[0]
}

/// Whether a leaf lies in a range.
fn is_within(leaf: u64, first: u32, end: u32) -> bool
    ensures { result ≡ (nat_le first leaf && nat_lt leaf end) }
{
    u64::from(first) <= leaf && leaf < u64::from(end)
}

/// Whether a cell is one of a region's.
pub fn contains(dims: &[Dim], steps: &[u64; MAX_DIMS], r: Region, cell: u64) -> bool
    requires steps { IsStepped cell_total dims.now steps.now }
    requires few { length dims.now ≤ MAX_DIMS }
    requires region { IsRegion dims.now r }
    ensures { result ≡ is_among (cells_of dims.now r) cell }
{
    let mut rest = cell;
    for d in 0..dims.len() {
        let (first, end) = dims[d].leaf_range(r.node(d as u32));
        if !is_within(rest / steps[d], first, end) {
            return false;
        }
        rest %= steps[d];
    }
    rest == 0
}

/// The leaves of a cell.
pub fn cell_at(dims: &[Dim], steps: &[u64; MAX_DIMS], cell: u64) -> Region
    requires steps { IsStepped cell_total dims.now steps.now }
    requires few { length dims.now ≤ MAX_DIMS }
    requires cell { cell < length (all_cells dims.now) }
    ensures cell { slice_get (all_cells dims.now) cell ≡ Some result }
    ensures region { IsRegion dims.now result }
{
    let mut nodes = [0; MAX_DIMS];
    let mut rest = cell;
    for d in 0..dims.len() {
        nodes[d] = dims[d].leaf_node((rest / steps[d]) as u32);
        rest %= steps[d];
    }
    first_nodes(&nodes, dims.len())
}

/// The region of the first of these nodes.
pub fn first_nodes(nodes: &[u32; MAX_DIMS], n: usize) -> Region
    requires { n ≤ MAX_DIMS }
    ensures { result ≡ take n nodes.now }
{
    Region::new(&nodes[..n]).unwrap()
}
