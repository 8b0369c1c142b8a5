//! The product of the cuts of a view, asked for the region over cells and regions.
ghost use Rattle.std.specs.Prelude.{◌≡◌, ◌<◌, [], IfOk, IfSome, is_some, length};
ghost use Rattle.cube_model.specs.Cells.{all_cells};
ghost use Rattle.region_algebra.specs.Space.{IsRegion, region_total};
ghost use Rattle.view_store.specs.Cuts.{HoldsCells, IsCodeOver, reaches_cuts};
ghost use Rattle.view_store.specs.Views.{region_at};

use crate::cut::{code_over, cut_code, reaches_cut};
use crate::cut_table::{CutTable, share_sum, table_of};
use cube_base::Memory;
use cube_model::Region;
use dim_tree::Dim;
use group_sum::Terms;
use region_algebra::Space;
use staged_map::Staged;
use std::alloc::Global;
use std::marker::Model;

/// For how many terms a region's first one makes room at most.
const MOST_ROOM: u64 = 8;

/// The product of the cuts of a space at depths, one for each dimension. Contracts see the dimensions and the depths.
#[derive(Drop)]
pub struct Cuts<'a> {
    space: &'a Space,
    depths: &'a [u8],
    // What is looked up; where there is none, nodes are climbed.
    table: Option<CutTable>,
    // For how many terms a region's first one makes room.
    room: usize,
    // No entries: over these the drafts of a view begin that is made.
    none: Staged<Terms>,
}

impl<'a> Model for Cuts<'a> {
    ghost use Rattle.view_store.specs.Cuts.{CutProduct};
    ghost use Rattle.view_store.specs.CutTables.{AreCuts};

    ghost Value = { CutProduct };

    ghost view = { λ c. record { dims = c.space.now; depths = c.depths.now } };

    ghost invariant = { λ c. AreCuts c.space.now c.depths.now c.table c.none };
}

impl<'a> Cuts<'a> {
    /// The product, of which nothing is listed: each question climbs from the nodes that it is asked. It takes no memory.
    pub fn climbed(alloc: Global, space: &'a Space, depths: &'a [u8]) -> Self
        requires { length depths.now ≡ length space.now }
        ensures { result ≡ record { dims = space.now; depths = depths.now } }
    {
        Cuts {
            space,
            depths,
            table: None,
            room: 0,
            none: Staged::new(alloc),
        }
    }

    /// The product for so many questions. What is over each node is listed at once where the nodes are no more than these, and a region's
    /// first term makes room for more of them.
    pub fn for_many(
        alloc: Global,
        space: &'a Space,
        depths: &'a [u8],
        questions: usize,
    ) -> Result<Self, Memory>
        requires { length depths.now ≡ length space.now }
        ensures { IfOk result (λ cuts. cuts ≡ record { dims = space.now; depths = depths.now }) }
    {
        let mut cuts = Cuts::climbed(alloc, space, depths);
        cuts.room = room_for(space, depths, questions);
        if node_count(space) <= questions as u64 {
            cuts.table = Some(table_of(alloc, space, depths)?);
        }
        Ok(cuts)
    }

    /// For how many terms a region's first one makes room.
    pub(crate) fn room(&self) -> usize {
        self.room
    }

    /// No entries.
    pub(crate) fn no_entries(&self) -> &Staged<Terms>
        ensures { result.now ≡ [] }
    {
        &self.none
    }

    /// The code of the region of the product that holds a cell.
    pub fn over_cell(&self, cell: u64) -> u64
        requires { cell < length (all_cells self.now.dims) }
        ensures { IsCodeOver self.now.dims self.now.depths cell result }
    {
        let _ = self.space.dims();
        match &self.table {
            Some(table) => share_sum(table.cells.as_slice(), cell).unwrap(),
            None => cut_code(self.space, self.depths, cell),
        }
    }

    /// The code of the one region of the product that holds all cells of a region, by the code of that: None exactly where in some
    /// dimension its node lies above the cut and is no leaf.
    pub fn over_code(&self, code: u64) -> Option<u64>
        requires { code < region_total self.now.dims }
        ensures some { is_some result ≡ reaches_cuts self.now.dims self.now.depths (region_at self.now.dims code) }
        ensures over { IfSome result (HoldsCells self.now.dims self.now.depths (region_at self.now.dims code)) }
    {
        let _ = self.space.dims();
        match &self.table {
            Some(table) => share_sum(table.regions.as_slice(), code),
            None => self.over_region(self.space.uncode(code).unwrap()),
        }
    }

    /// The same by the region itself.
    pub fn over_region(&self, r: Region) -> Option<u64>
        requires { IsRegion self.now.dims r }
        ensures some { is_some result ≡ reaches_cuts self.now.dims self.now.depths r }
        ensures over { IfSome result (HoldsCells self.now.dims self.now.depths r) }
    {
        code_over(self.space, self.depths, r)
    }
}

/// For how many terms a region's first one makes room, where so many questions are asked: no more in all than there are questions. A
/// view that is kept makes no room that it may never use; one that is made for a table copies fewer lists as they grow.
fn room_for(space: &Space, depths: &[u8], questions: usize) -> usize
    requires { length depths.now ≡ length space.now }
{
    let each = questions as u64 / region_count(space, depths).max(1);
    each.min(MOST_ROOM) as usize
}

/// The number of regions of the product, at most 2^64 - 1.
fn region_count(space: &Space, depths: &[u8]) -> u64
    requires { length depths.now ≡ length space.now }
{
    let mut count: u64 = 1;
    for d in 0..space.dims() {
        count = count.saturating_mul(cut_size(space.dim(d), depths[d as usize]));
    }
    count
}

/// The number of nodes of the cut of a dimension.
fn cut_size(dim: &Dim, depth: u8) -> u64 {
    let mut count: u64 = 0;
    for node in 0..dim.len() {
        if dim.depth(node) <= depth && reaches_cut(dim, node, depth) {
            count = count.saturating_add(1);
        }
    }
    count
}

/// The number of nodes of all dimensions.
fn node_count(space: &Space) -> u64 {
    let mut count = 0;
    for d in 0..space.dims() {
        count += u64::from(space.dim(d).len());
    }
    count
}
