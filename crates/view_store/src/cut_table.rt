//! The product of cuts, listed: what the nodes of each dimension add to the code of the region over them.
ghost use Rattle.std.specs.Prelude.{◌≡◌, ◌<◌, ◌≤◌, ◌*◌, ◌/◌, ◌%◌, IfOk, length};
ghost use Rattle.cube_model.specs.Limits.{SPACE_LIMIT};
ghost use Rattle.cube_model.specs.Tree.{leaves, numbers};
ghost use Rattle.view_store.specs.CutTables.{AreDigitsOf, AreShares, IsTable, share_sum};

use crate::cut::share_over;
use cube_base::{Memory, PlainList};
use dim_tree::Dim;
use region_algebra::Space;
use std::alloc::Global;

/// A dimension's digit of the codes of regions, or of cells.
#[derive(Drop)]
pub struct CutDigit {
    /// How far apart codes lie that differ by one place in this dimension alone.
    pub step: u64,
    /// By the place of a node, or of a leaf: what it adds to the code of the region over it. None where it lies above the cut and is
    /// no leaf.
    pub shares: PlainList<Option<u64>>,
}

/// For each dimension its digit of the codes of regions, and of those of cells.
#[derive(Drop)]
pub struct CutTable {
    pub regions: PlainList<CutDigit>,
    pub cells: PlainList<CutDigit>,
}

/// The table of the product of the cuts at these depths. It takes a step for each node.
pub fn table_of(alloc: Global, space: &Space, depths: &[u8]) -> Result<CutTable, Memory>
    requires { length depths.now ≡ length space.now }
    ensures { IfOk result (IsTable space.now depths.now) }
{
    let mut regions = PlainList::new(alloc);
    let mut cells = PlainList::new(alloc);
    for d in 0..space.dims() {
        let (dim, depth, step) = (space.dim(d), depths[d as usize], space.region_step(d));
        let nodes = node_shares(alloc, dim, depth, step)?;
        let leaves = leaf_shares(alloc, dim, depth, step)?;
        regions.push(CutDigit {
            step,
            shares: nodes,
        })?;
        cells.push(CutDigit {
            step: space.cell_step(d),
            shares: leaves,
        })?;
    }
    Ok(CutTable { regions, cells })
}

/// What the nodes of a dimension add, where its places are this far apart.
fn node_shares(
    alloc: Global,
    dim: &Dim,
    depth: u8,
    step: u64,
) -> Result<PlainList<Option<u64>>, Memory>
    requires { length dim.now * step < SPACE_LIMIT }
    ensures { IfOk result (AreShares dim.now depth step (numbers dim.now) (length (numbers dim.now))) }
{
    let mut shares = Vec::with_capacity(alloc, dim.len() as usize)?;
    for place in 0..dim.len() {
        shares.push(share_over(dim, dim.at(place), depth, step))?;
    }
    Ok(PlainList::from(shares))
}

/// What its leaves add.
fn leaf_shares(
    alloc: Global,
    dim: &Dim,
    depth: u8,
    step: u64,
) -> Result<PlainList<Option<u64>>, Memory>
    requires { length dim.now * step < SPACE_LIMIT }
    ensures { IfOk result (AreShares dim.now depth step (leaves dim.now) (length (leaves dim.now))) }
{
    let _ = dim.len();
    let mut shares = Vec::with_capacity(alloc, dim.leaf_count() as usize)?;
    for i in 0..dim.leaf_count() {
        shares.push(share_over(dim, dim.leaf_node(i), depth, step))?;
    }
    Ok(PlainList::from(shares))
}

/// What the nodes at the digits of a code add together: None where one of them adds nothing.
pub fn share_sum(digits: &[CutDigit], code: u64) -> Option<u64>
    requires { AreDigitsOf digits.now code }
    ensures { result ≡ share_sum digits.now code }
{
    let mut rest = code;
    let mut sum = 0;
    for digit in digits {
        let (place, behind) = parted(rest, digit.step);
        let Some(share) = digit.shares.as_slice()[place as usize] else {
            return None;
        };
        sum += share;
        rest = behind;
    }
    Some(sum)
}

/// The place of a code in its first dimension, and what the places behind it make. In the last one the codes are the places, which
/// saves a division.
fn parted(code: u64, step: u64) -> (u64, u64)
    requires { 1 ≤ step }
    ensures place { result.0 ≡ code / step }
    ensures behind { result.1 ≡ code % step }
{
    if step == 1 {
        (code, 0)
    } else {
        (code / step, code % step)
    }
}
