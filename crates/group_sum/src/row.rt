//! What is done to the numerators of one term, that of the count first.
ghost use Rattle.std.specs.Prelude.{◌≡◌, ◌≤◌, length, pos, ◌+ℤ◌, ◌-ℤ◌, ◌*ℤ◌, nat_abs};
ghost use Rattle.cube_model.specs.Limits.{WIDE};
ghost use Rattle.group_sum.specs.Heads.{AreWithin, Lists};
ghost use Rattle.group_sum.specs.Rows.{IsRow, difference_at, row_term, total_at};
ghost use Rattle.group_sum.specs.Share.{AddsScaled, RaisesTerm, SumsFit, TermFits};

use cube_base::Cols;

/// Adds units to the count, and the weight times each value to the sum at its place.
pub fn raise(row: &mut [i128], units: u128, weight: u64, cols: Cols)
    requires row { IsRow row.old }
    requires within { TermFits (row_term 0 row.old) units weight cols }
    ensures row { IsRow row.new }
    ensures raised { RaisesTerm (row_term 0 row.old) (row_term 0 row.new) units weight cols }
{
    row[0] += units as i128;
    add_scaled(&mut row[1..], weight, cols);
}

// Adds the weight times each value to the sum at its place.
fn add_scaled(sums: &mut [i128], weight: u64, cols: Cols)
    requires { SumsFit sums.old weight cols }
    ensures { AddsScaled sums.old sums.new weight cols }
{
    for (k, sum) in sums.iter_mut().enumerate() {
        *sum = plus_product(*sum, weight, cols.get(k as u32));
    }
}

// The sum with the weight times the value added.
fn plus_product(sum: i128, weight: u64, value: i64) -> i128
    requires { nat_abs (sum +ℤ pos weight *ℤ value) ≤ WIDE }
    ensures { result ≡ sum +ℤ pos weight *ℤ value }
{
    sum + i128::from(weight) * i128::from(value)
}

/// Adds the numerators of another row, place by place.
pub fn add_up(row: &mut [i128], other: &[i128])
    requires columns { length other.now ≡ length row.old }
    requires within { AreWithin (length row.old) (total_at row.old other.now) }
    ensures { Lists row.new (total_at row.old other.now) }
{
    for (k, place) in row.iter_mut().enumerate() {
        *place = plus(*place, other[k]);
    }
}

/// Takes away the numerators of another row, place by place.
pub fn take_away(row: &mut [i128], other: &[i128])
    requires columns { length other.now ≡ length row.old }
    requires within { AreWithin (length row.old) (difference_at row.old other.now) }
    ensures { Lists row.new (difference_at row.old other.now) }
{
    for (k, place) in row.iter_mut().enumerate() {
        *place = minus(*place, other[k]);
    }
}

// Two numerators added up.
fn plus(x: i128, y: i128) -> i128
    requires { nat_abs (x +ℤ y) ≤ WIDE }
    ensures { result ≡ x +ℤ y }
{
    x + y
}

// One numerator without another.
fn minus(x: i128, y: i128) -> i128
    requires { nat_abs (x -ℤ y) ≤ WIDE }
    ensures { result ≡ x -ℤ y }
{
    x - y
}
