//! Regions, each by its nodes and by its code.
ghost use Rattle.std.specs.Prelude.{◌≡◌, ◌<◌, ◌≤◌, Some, true, length, slice_get, slice_set};
ghost use Rattle.cube_model.specs.Limits.{MAX_DIMS};
ghost use Rattle.cube_model.specs.Tree.{place_of};
ghost use Rattle.region_algebra.specs.Space.{IsRegion, all_regions, code_of, is_region, lower, meet_of, region_total};
ghost use Rattle.region_algebra.specs.Stepped.{IsStepped};

use crate::cells::first_nodes;
use cube_model::{MAX_DIMS, Region};
use dim_tree::Dim;

/// Whether these are one node of each dimension.
pub fn is_region(dims: &[Dim], nodes: &[u32]) -> bool
    ensures { result ≡ is_region dims.now nodes.now }
{
    if dims.len() != nodes.len() {
        return false;
    }
    for d in 0..dims.len() {
        if nodes[d] >= dims[d].len() {
            return false;
        }
    }
    true
}

/// The digit of a code for a node: its place.
fn digit(dim: &Dim, node: u32) -> u64
    requires { node < length dim.now }
    ensures { place_of dim.now node ≡ Some result }
{
    u64::from(dim.place(node))
}

/// A region's code: the places of its nodes in mixed radix.
pub fn code(dims: &[Dim], steps: &[u64; MAX_DIMS], r: Region) -> u64
    requires steps { IsStepped region_total dims.now steps.now }
    requires few { length dims.now ≤ MAX_DIMS }
    requires region { IsRegion dims.now r }
    ensures code { result ≡ code_of dims.now r }
    ensures place { slice_get (all_regions dims.now) result ≡ Some r }
    ensures within { result < region_total dims.now }
{
    let mut code = 0;
    for d in (0..dims.len()).rev() {
        code += digit(&dims[d], r.node(d as u32)) * steps[d];
    }
    code
}

/// The region of a code, if there is one.
pub fn uncode(dims: &[Dim], steps: &[u64; MAX_DIMS], code: u64) -> Option<Region>
    requires steps { IsStepped region_total dims.now steps.now }
    requires some { 1 ≤ length dims.now }
    requires few { length dims.now ≤ MAX_DIMS }
    ensures { result ≡ slice_get (all_regions dims.now) code }
{
    let mut nodes = [0; MAX_DIMS];
    let mut rest = code;
    for d in 0..dims.len() {
        let dim = &dims[d];
        let place = rest / steps[d];
        if place >= u64::from(dim.len()) {
            return None;
        }
        nodes[d] = dim.at(place as u32);
        rest %= steps[d];
    }
    Some(first_nodes(&nodes, dims.len()))
}

/// The lower of two nodes of which one is under the other.
fn lower(dim: &Dim, x: u32, y: u32) -> Option<u32>
    requires first { x < length dim.now }
    requires second { y < length dim.now }
    ensures { result ≡ lower dim.now x y }
{
    if dim.is_under(x, y) {
        Some(x)
    } else if dim.is_under(y, x) {
        Some(y)
    } else {
        None
    }
}

/// The region that has the lower node in each dimension.
pub fn meet(dims: &[Dim], a: Region, b: Region) -> Option<Region>
    requires few { length dims.now ≤ MAX_DIMS }
    requires first { IsRegion dims.now a }
    requires second { IsRegion dims.now b }
    ensures { result ≡ meet_of dims.now a b }
{
    let mut nodes = [0; MAX_DIMS];
    for d in 0..dims.len() {
        nodes[d] = lower(&dims[d], a.node(d as u32), b.node(d as u32))?;
    }
    Some(first_nodes(&nodes, dims.len()))
}

/// A region with another node in a dimension.
pub fn child(r: Region, dims: usize, d: usize, node: u32) -> Region
    requires dims { length r ≡ dims }
    requires few { dims ≤ MAX_DIMS }
    ensures { result ≡ slice_set r d node }
{
    let mut nodes = [0; MAX_DIMS];
    for i in 0..dims {
        nodes[i] = if i == d { node } else { r.node(i as u32) };
    }
    first_nodes(&nodes, dims)
}
