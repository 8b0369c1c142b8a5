//! On which sides of a region rows lie.
ghost use Rattle.std.specs.Prelude.{◌≡◌, not};
ghost use Rattle.std.specs.List.{list_any};
ghost use Rattle.cube_model.specs.Cells.{is_among};
ghost use Rattle.region_algebra.specs.Inside.{cells_inside};
ghost use Rattle.world_range.specs.Sides.{sides_of};

use region_algebra::Inside;

/// The sides of a region on which some rows lie.
#[derive(Clone, Copy, Debug, PartialEq, Eq)]
pub struct Sides {
    /// Whether some row is inside.
    pub inside: bool,
    /// Whether some row is outside.
    pub outside: bool,
}

/// The sides of a region on which these rows lie. It takes no memory, and reads rows up to the first on the other side than
/// the first of all.
pub fn sides_of(rows: &[(u64, u64)], region: &Inside<'_>) -> Sides
    ensures { result ≡ sides_of (cells_inside region.now) rows.now }
{
    Sides {
        inside: reaches_inside(rows, region),
        outside: reaches_outside(rows, region),
    }
}

// Whether some row is inside.
fn reaches_inside(rows: &[(u64, u64)], region: &Inside<'_>) -> bool
    ensures { result ≡ list_any (λ row. is_among (cells_inside region.now) row.0) rows.now }
{
    rows.iter().any(|row| region.holds(row.0))
}

// Whether some row is outside.
fn reaches_outside(rows: &[(u64, u64)], region: &Inside<'_>) -> bool
    ensures { result ≡ list_any (λ row. not (is_among (cells_inside region.now) row.0)) rows.now }
{
    rows.iter().any(|row| !region.holds(row.0))
}
