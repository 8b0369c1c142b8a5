//! What is read of terms one by one: whether one has a denominator, and the numerators of one that may not be there.
ghost use Rattle.std.specs.Prelude.{◌≡◌, ◌<◌, MatchBool};
ghost use Rattle.std.specs.Bool.{OnTrue};
ghost use Rattle.std.specs.Option.{option_copied, option_map};
ghost use Rattle.group_sum.specs.Heads.{head_count, head_sum};
ghost use Rattle.group_sum.specs.Place.{IsAt};
ghost use Rattle.group_sum.specs.Rows.{row_term};

use crate::rows::Rows;

/// Whether a term is in front, and has the denominator.
pub fn is_ahead(terms: &Rows, at: usize, den: u64) -> bool
    ensures ahead { MatchBool result (IsAt terms.now.terms den at) (IsAt terms.now.terms den at → ⊥) }
    ensures next { OnTrue result (at < usize.MAX) }
{
    at < terms.len() && terms.den(at) == den
}

/// The count's numerator of a row, 0 where there is none.
pub fn count(row: Option<&[i128]>) -> u128
    ensures { result ≡ head_count (option_map (row_term 0) (option_copied row.entry)) }
{
    match row {
        Some(row) => row.first().copied().unwrap_or(0).unsigned_abs(),
        None => 0,
    }
}

/// The numerator of a further column, 0 where there is none.
pub fn sum(row: Option<&[i128]>, k: u32) -> i128
    ensures { result ≡ head_sum (option_map (row_term 0) (option_copied row.entry)) k }
{
    match row {
        Some(row) => row.get(k as usize + 1).copied().unwrap_or(0),
        None => 0,
    }
}
