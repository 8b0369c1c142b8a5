//! Whether cells are a region's, asked of many cells.
ghost use Rattle.std.specs.Prelude.{◌≡◌, ◌%◌, ◌<◌, All, nat_lt, ◌||◌};
ghost use Rattle.std.specs.List.{list_all};
ghost use Rattle.cube_model.specs.Cells.{cells_of, is_among};
ghost use Rattle.region_algebra.specs.Inside.{cells_inside, is_held};
ghost use Rattle.region_algebra.specs.Space.{IsRegion};

use crate::Space;
use cube_model::{MAX_DIMS, Region};
use std::marker::Model;

/// What is asked of a cell in a dimension. Its place among the cells over this dimension and those after it, of which
/// there are so many, is to be in a range.
#[derive(Clone, Copy)]
pub struct Digit {
    pub cells: u64,
    pub low: u64,
    pub high: u64,
}

impl Digit {
    /// In a place where nothing is asked.
    pub const UNUSED: Digit = Digit {
        cells: 1,
        low: 0,
        high: 1,
    };

    /// Whether some cell does not pass.
    pub fn is_asked(self) -> bool
        ensures { result ≡ (nat_lt 0 self.low || nat_lt self.high self.cells) }
    {
        0 < self.low || self.high < self.cells
    }

    /// Whether a cell passes.
    fn holds(self, cell: u64) -> bool
        requires { 0 < self.cells }
        ensures { result ≡ is_held cell self }
    {
        let place = rest_of(cell, self.cells);
        self.low <= place && place < self.high
    }
}

/// What a division leaves. A division takes long: it is spared where the number is the smaller one, as a cell is in the
/// first dimension.
fn rest_of(n: u64, by: u64) -> u64
    requires { 0 < by }
    ensures { result ≡ n % by }
{
    if n < by { n } else { n % by }
}

/// Tells of any cell whether it is one of a region's. What is looked up for a region is looked up once, and a dimension of
/// which the region has all leaves costs nothing. It keeps a fixed number of words. Contracts see the list of the region's
/// cells.
#[derive(Drop)]
pub struct Inside<'a> {
    space: &'a Space,
    region: Region,
    digits: [Digit; MAX_DIMS],
    count: usize,
    // The number of all cells.
    cells: u64,
}

impl<'a> Model for Inside<'a> {
    ghost use Rattle.std.specs.Prelude.{ℕ, List};
    ghost use Rattle.cube_model.specs.Cells.{cells_of};
    ghost use Rattle.region_algebra.specs.Inside.{IsInside};

    ghost Value = { List ℕ };

    ghost view = { λ i. cells_of i.space.now i.region };

    ghost invariant = { λ i. IsInside i.space.now i.region i.digits i.count i.cells };
}

impl<'a> Inside<'a> {
    /// The test for the cells of a region.
    pub(crate) fn new(space: &'a Space, region: Region) -> Self
        requires { IsRegion space.now region }
        ensures { cells_inside result ≡ cells_of space.now region }
    {
        let (digits, count) = space.digits(region);
        Inside {
            space,
            region,
            digits,
            count,
            cells: space.all_count(),
        }
    }

    /// Whether a cell is one of the region's.
    pub fn holds(&self, cell: u64) -> bool
        ensures { result ≡ is_among self.now cell }
    {
        cell < self.cells && all_hold(&self.digits[..self.count], cell)
    }
}

/// Whether a cell passes in each dimension.
fn all_hold(digits: &[Digit], cell: u64) -> bool
    requires { All (λ digit. 0 < digit.cells) digits.now }
    ensures { result ≡ list_all (is_held cell) digits.now }
{
    for digit in digits {
        if !digit.holds(cell) {
            return false;
        }
    }
    true
}
