//! A walk through the cells of a region.
ghost use Rattle.std.specs.Prelude.{◌≡◌};
ghost use Rattle.std.specs.Iterator.{YieldsFirst, item_count};
ghost use Rattle.region_algebra.specs.Space.{IsRegion, cells_left};
ghost use Rattle.cube_model.specs.Cells.{cells_of};

use crate::Space;
use crate::wheel::{Wheel, turn};
use cube_model::{MAX_DIMS, Region};
use std::marker::Model;

/// The codes of a region's cells, ascending, each once. The walk keeps its place in a fixed number of words, and goes on
/// by additions. Contracts see the list of the codes that are left.
#[derive(Drop)]
pub struct CellWalk {
    // One for each dimension, in the first places.
    wheels: [Wheel; MAX_DIMS],
    dims: usize,
    // The cell where they stand, and whether it is still to be given.
    cell: u64,
    has_more: bool,
}

impl Model for CellWalk {
    ghost use Rattle.std.specs.Prelude.{ℕ, List, take};
    ghost use Rattle.region_algebra.specs.Wheels.{IsWalk, cells_ahead};

    ghost Value = { List ℕ };

    ghost view = { λ w. cells_ahead (take w.dims w.wheels) w.has_more };

    ghost invariant = { λ w. IsWalk w.wheels w.dims w.cell };
}

impl CellWalk {
    /// The walk through the cells of a region.
    pub(crate) fn new(space: &Space, region: Region) -> Self
        requires { IsRegion space.now region }
        ensures { cells_left result ≡ cells_of space.now region }
    {
        CellWalk {
            wheels: space.wheels(region),
            dims: space.dims() as usize,
            cell: space.first_cell(region),
            has_more: true,
        }
    }
}

impl Iterator for CellWalk {
    type Item = u64;

    ghost next_gives = { YieldsFirst cells_left };

    ghost remaining = { item_count cells_left };

    fn next(&mut self) -> Option<u64> {
        if !self.has_more {
            return None;
        }
        let given = self.cell;
        let dims = self.dims;
        let (cell, has_more) = turn(&mut self.wheels, dims, given);
        self.cell = cell;
        self.has_more = has_more;
        Some(given)
    }
}
