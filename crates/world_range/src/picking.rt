//! The row of a fact at an end.
ghost use Rattle.std.specs.Prelude.{◌≡◌, ◌≤◌, find, length};
ghost use Rattle.std.specs.Option.{option_copied};
ghost use Rattle.cube_model.specs.Cells.{is_among};
ghost use Rattle.region_algebra.specs.Inside.{cells_inside};
ghost use Rattle.world_range.specs.Picks.{is_wanted, pick_among};

use crate::Extreme;
use region_algebra::Inside;

/// The cell at which a fact with this value stands so that a region's sum is at its end: that of the first row that is
/// wanted, or of the first row where none is. A value that lowers the sum is wanted inside for the least and outside for the
/// greatest; one that raises it the other way round; of the value 0 each row is wanted. It takes no memory, and reads rows up
/// to that one.
pub fn pick(extreme: Extreme, value: i64, rows: &[(u64, u64)], inside: &Inside<'_>) -> u64
    requires { 1 ≤ length rows.now }
    ensures { result ≡ pick_among extreme (cells_inside inside.now) value rows.now }
{
    match first_wanted(extreme, value, rows, inside) {
        Some(row) => row.0,
        None => rows[0].0,
    }
}

// The first row that is wanted.
fn first_wanted<'a>(
    extreme: Extreme,
    value: i64,
    rows: &'a [(u64, u64)],
    inside: &Inside<'_>,
) -> Option<&'a (u64, u64)>
    ensures { option_copied result ≡ find (λ row. is_wanted extreme value (is_among (cells_inside inside.now) row.0)) rows.now }
{
    rows.iter()
        .find(|row| extreme.wants(value, inside.holds(row.0)))
}
