//! The regions of a product of cuts, by what lies in them.
ghost use Rattle.std.specs.Prelude.{◌≡◌, ◌<◌, ◌*◌, IfSome, is_some, true, length};
ghost use Rattle.cube_model.specs.Cells.{all_cells};
ghost use Rattle.cube_model.specs.Limits.{SPACE_LIMIT};
ghost use Rattle.cube_model.specs.Tree.{IsTree};
ghost use Rattle.region_algebra.specs.Space.{IsRegion};
ghost use Rattle.view_store.specs.Cuts.{HoldsCells, IsCodeOver, IsCutNode, IsShareOf, reaches_cut, reaches_cuts};

use cube_model::Region;
use dim_tree::Dim;
use region_algebra::Space;

/// Whether a node reaches the cut at a depth: it lies there or deeper, or is a leaf.
pub fn reaches_cut(dim: &Dim, node: u32, depth: u8) -> bool
    requires tree { IsTree dim.now }
    requires within { node < length dim.now }
    ensures { result ≡ reaches_cut dim.now depth node }
{
    dim.depth(node) >= depth || dim.is_leaf(node)
}

/// The node of the cut at a depth that a node is under, which reaches the cut.
pub fn cut_node(dim: &Dim, low: u32, depth: u8) -> u32
    requires tree { IsTree dim.now }
    requires within { low < length dim.now }
    requires reaches { reaches_cut dim.now depth low ≡ true }
    ensures { IsCutNode dim.now depth low result }
{
    let mut node = low;
    while dim.depth(node) > depth {
        node = dim.parent(node).unwrap();
    }
    node
}

/// What a node adds to the code of the region over it: the place of the node of the cut over it, `step` times. None where it does not
/// reach the cut.
pub fn share_over(dim: &Dim, node: u32, depth: u8, step: u64) -> Option<u64>
    requires tree { IsTree dim.now }
    requires within { node < length dim.now }
    requires small { length dim.now * step < SPACE_LIMIT }
    ensures { IsShareOf dim.now depth step node result }
{
    if !reaches_cut(dim, node, depth) {
        return None;
    }
    let over = dim.place(cut_node(dim, node, depth));
    Some(u64::from(over) * step)
}

/// The code of the region of the product of the cuts that holds a cell.
pub fn cut_code(space: &Space, depths: &[u8], cell: u64) -> u64
    requires depths { length depths.now ≡ length space.now }
    requires cell { cell < length (all_cells space.now) }
    ensures { IsCodeOver space.now depths.now cell result }
{
    let _ = space.dims();
    code_over(space, depths, space.cell_at(cell)).unwrap()
}

/// The code of the one region of the product of the cuts that holds all cells of a region: None exactly where in some dimension
/// the region's node lies above the cut and is no leaf.
pub fn code_over(space: &Space, depths: &[u8], r: Region) -> Option<u64>
    requires depths { length depths.now ≡ length space.now }
    requires region { IsRegion space.now r }
    ensures some { is_some result ≡ reaches_cuts space.now depths.now r }
    ensures over { IfSome result (HoldsCells space.now depths.now r) }
{
    let mut code = 0;
    for d in (0..space.dims()).rev() {
        code += share_over(
            space.dim(d),
            r.node(d),
            depths[d as usize],
            space.region_step(d),
        )?;
    }
    Some(code)
}
