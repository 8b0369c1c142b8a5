//! Whether worlds are few and light enough to be listed.
ghost use Rattle.std.specs.Prelude.{◌≡◌, ◌≤◌, ◌^◌, ◌<◌, All, length, nat_lt};
ghost use Rattle.cube_model.specs.Limits.{DEN_LIMIT, MAX_CELLS};
ghost use Rattle.region_algebra.specs.Space.{product};
ghost use Rattle.world_law.specs.Limits.{MAX_MASS, MAX_WORLDS};
ghost use Rattle.world_law.specs.Placed.{dens, fault_of, product_above, row_counts};

use crate::{Placed, WorldFault};

/// The most worlds that are listed.
pub const MAX_WORLDS: u64 = 65_536;

/// The most that the weights of all worlds may add up to.
pub const MAX_MASS: u64 = 1 << 60;

/// Why the worlds of these facts are not listed, if they are not.
pub fn judge(placed: &[Placed]) -> Option<WorldFault>
    requires few { All (λ p. length p.rows ≤ MAX_CELLS) placed.now }
    requires dens { All (λ p. (1 ≤ p.den) × (p.den < DEN_LIMIT)) placed.now }
    ensures { result ≡ fault_of placed.now }
{
    if let Some(product) = worlds_above(placed) {
        return Some(WorldFault::Many { product });
    }
    if is_wide(placed) {
        return Some(WorldFault::Wide);
    }
    None
}

// The first product of numbers of rows that is above the limit.
fn worlds_above(placed: &[Placed]) -> Option<u64>
    requires { All (λ p. length p.rows ≤ MAX_CELLS) placed.now }
    ensures { result ≡ product_above MAX_WORLDS 1 (row_counts placed.now) }
{
    let mut product = 1;
    for item in placed {
        product *= item.rows.as_slice().len() as u64;
        if product > MAX_WORLDS {
            return Some(product);
        }
    }
    None
}

// Whether the product of the denominators is above the limit.
fn is_wide(placed: &[Placed]) -> bool
    requires { All (λ p. (1 ≤ p.den) × (p.den < DEN_LIMIT)) placed.now }
    ensures { result ≡ nat_lt MAX_MASS (product (dens placed.now)) }
{
    let mut product = 1_u128;
    for item in placed {
        product *= u128::from(item.den);
        if product > u128::from(MAX_MASS) {
            return true;
        }
    }
    false
}
