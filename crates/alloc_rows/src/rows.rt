//! An allocation, and how much of it lies inside a region.
ghost use Rattle.std.specs.Prelude.{◌≡◌, ◌≤◌, [], ◌∷◌, IfOk};
ghost use Rattle.cube_model.specs.Answer.{weight_inside};
ghost use Rattle.cube_model.specs.Cells.{AreRows, cells_of};
ghost use Rattle.cube_model.specs.Difference.{is_same};
ghost use Rattle.region_algebra.specs.Inside.{cells_inside};
ghost use Rattle.region_algebra.specs.Space.{IsRegion};
ghost use Rattle.alloc_rows.specs.Alloc.{IsAllocation};

use cube_base::{Memory, SharedPairs};
use cube_model::Region;
use region_algebra::{Inside, Space};
use std::alloc::Global;
use std::marker::Model;

/// How a fact is spread: rows of a cell and its weight, ascending by cell, and the denominator, which is the sum of the
/// weights. It is at least 1 and below 2^60. Contracts see the denominator and the list of rows.
#[derive(Debug, Drop)]
pub struct Alloc {
    den: u64,
    rows: SharedPairs,
}

impl Model for Alloc {
    ghost use Rattle.cube_model.specs.Allocation.{Allocation};
    ghost use Rattle.alloc_rows.specs.Alloc.{IsAllocation};

    ghost Value = { Allocation };

    ghost view = { λ a. record { den = a.den; rows = a.rows } };

    ghost invariant = { λ a. IsAllocation (record { den = a.den; rows = a.rows }) };
}

impl Alloc {
    /// These rows over this denominator.
    pub(crate) fn of_rows(alloc: Global, den: u64, rows: Vec<(u64, u64)>) -> Result<Self, Memory>
        requires { IsAllocation (record { den = den; rows = rows.items }) }
        ensures { IfOk result (λ a. a ≡ record { den = den; rows = rows.items }) }
    {
        let rows = SharedPairs::from_vec(alloc, rows)?;
        Ok(Alloc { den, rows })
    }

    /// The row of one cell, which is all there is. It takes no memory.
    pub(crate) fn of_cell(alloc: Global, cell: u64) -> Self
        ensures { result ≡ record { den = 1; rows = (cell, 1) ∷ [] } }
    {
        Alloc {
            den: 1,
            rows: SharedPairs::one(alloc, (cell, 1)),
        }
    }

    /// The denominator: the sum of the rows' weights.
    pub fn den(&self) -> u64
        ensures den { result ≡ self.now.den }
        ensures kept { IsAllocation self.now }
    {
        self.den
    }

    /// The rows, each a cell and its weight.
    pub fn rows(&self) -> &[(u64, u64)]
        ensures rows { result.now ≡ self.now.rows }
        ensures kept { IsAllocation self.now }
    {
        self.rows.as_slice()
    }

    /// Whether another allocation has the same denominator and the same rows. It takes no memory.
    pub fn is_same(&self, other: &Alloc) -> bool
        ensures { result ≡ is_same self.now other.now }
    {
        self.den() == other.den() && self.rows() == other.rows()
    }

    /// The rows as a list of their own on the same storage: no row is copied.
    pub fn shared_rows(&self) -> Result<SharedPairs, Memory>
        ensures rows { IfOk result (λ rows. rows ≡ self.now.rows) }
        ensures kept { IsAllocation self.now }
    {
        self.rows.share()
    }

    /// An equal allocation on the same storage: no row is copied.
    pub fn share(&self) -> Result<Self, Memory>
        ensures { IfOk result (λ a. a ≡ self.now) }
    {
        Ok(Alloc {
            den: self.den,
            rows: self.rows.share()?,
        })
    }
}

/// How much of an allocation lies inside a region: the sum of the weights of the rows whose cells are the region's. The
/// region is one of the space, and so are the cells, as `allocate` gives them. It takes no memory; the region is looked up once,
/// and a row costs a division at most in each dimension of which the region has not all leaves.
pub fn inside(a: &Alloc, space: &Space, r: Region) -> u64
    requires region { IsRegion space.now r }
    requires cells { AreRows space.now a.now.rows }
    ensures sum { result ≡ weight_inside (cells_of space.now r) a.now }
    ensures most { result ≤ a.now.den }
{
    weight_in(a, &space.inside(r))
}

/// The same by a test for the region's cells, so that for many allocations the region is looked up once.
pub fn weight_in(a: &Alloc, region: &Inside<'_>) -> u64
    ensures sum { result ≡ weight_inside (cells_inside region.now) a.now }
    ensures most { result ≤ a.now.den }
{
    let mut sum = 0;
    for (cell, weight) in a.rows() {
        if region.holds(*cell) {
            sum += *weight;
        }
    }
    sum
}
