//! Terms to which shares are added.
ghost use Rattle.std.specs.Prelude.{◌≡◌, ◌≤◌, [], ◌∷◌, IfOk, length};
ghost use Rattle.library_tests.specs.Small.{AreSmallLists};

use cube_base::Cols;
use group_sum::Terms;
use std::alloc::Global;
use std::test::Fail;

/// A denominator and a value, of weight 1.
type Share = (u64, i32);

/// A denominator, with the count and the sum there.
type Sum = (u64, i128, i128);

/// Shares, and what they add up to.
type Row = (&'static [Share], &'static [Sum]);

const ADDED: [Row; 3] = [
    (&[(1, 100), (1, 300), (3, 600)], &[(1, 2, 400), (3, 1, 600)]),
    (
        &[(1, 450), (1, 0), (2, -7), (3, 1200), (1, 0), (3, 0)],
        &[(1, 3, 450), (2, 1, -7), (3, 2, 1200)],
    ),
    (
        &[(1, -20), (1, 0), (7, 70), (6, 0), (5, 50), (3, 30)],
        &[(1, 2, -20), (3, 1, 30), (5, 1, 50), (6, 1, 0), (7, 1, 70)],
    ),
];

fn column(value: i32) -> Result<Cols, Fail>
    ensures { IfOk result (λ cols. cols ≡ value ∷ []) }
{
    Ok(Cols::new(&[i64::from(value)]).ok_or("one column")?)
}

/// The terms of some shares.
fn terms_of(alloc: Global, shares: &[Share]) -> Result<Terms, Fail>
    requires { length shares.now ≤ 8 }
    ensures { IfOk result (λ terms. terms.columns ≡ 2) }
{
    let mut terms = Terms::empty(alloc, 2);
    for (den, value) in shares {
        if *den == 0 {
            return Err("no denominator".into());
        }
        terms.add_term(*den, 1, column(*value)?)?;
    }
    Ok(terms)
}

/// Whether terms over two columns are these sums.
fn are_sums(terms: &Terms, sums: &[Sum]) -> bool {
    if terms.columns() != 2 || terms.len() != sums.len() as u64 {
        return false;
    }
    for i in 0..terms.len() {
        if (terms.den_at(i), terms.num_at(i, 0), terms.num_at(i, 1)) != sums[i as usize] {
            return false;
        }
    }
    true
}

/// Whether the shares of each row add up to its sums.
fn are_added(alloc: Global, rows: &[Row]) -> Result<bool, Fail> {
    for (shares, sums) in rows {
        if shares.len() > 8 || !are_sums(&terms_of(alloc, shares)?, sums) {
            return Ok(false);
        }
    }
    Ok(true)
}

#[test]
fn shares_are_added(rt: HostRuntime) -> Result<(), Fail> {
    assert!(rt; are_added(rt.alloc(), &ADDED)?);
    Ok(())
}
