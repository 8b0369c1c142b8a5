//! How far apart the codes of neighbours lie in each dimension.
ghost use Rattle.std.specs.Prelude.{◌↔◌, ◌≤◌, ◌*◌, ◌≡◌, All, IfSome, IsNone, length, map, take};
ghost use Rattle.cube_model.specs.Tree.{IsTree, leaves};
ghost use Rattle.cube_model.specs.Limits.{MAX_DIMS, SPACE_LIMIT};
ghost use Rattle.region_algebra.specs.Space.{product};
ghost use Rattle.region_algebra.specs.Stepped.{AreSteps};

use cube_model::{MAX_DIMS, SPACE_LIMIT};
use dim_tree::Dim;

/// The product, where it is below the limit.
fn product_within(total: u64, size: u32) -> Option<u64>
    ensures refused { IsNone result ↔ (SPACE_LIMIT ≤ size * total) }
    ensures product { IfSome result (λ product. product ≡ size * total) }
{
    let product = u128::from(size) * u128::from(total);
    if product < u128::from(SPACE_LIMIT) {
        Some(product as u64)
    } else {
        None
    }
}

/// For each of these numbers the product of those after it: None exactly where the product of all is 2^62 or more.
pub fn steps_of(sizes: &[u32]) -> Option<[u64; MAX_DIMS]>
    requires few { length sizes.now ≤ MAX_DIMS }
    requires some { All (λ size. 1 ≤ size) sizes.now }
    ensures refused { IsNone result ↔ (SPACE_LIMIT ≤ product sizes.now) }
    ensures steps { IfSome result (AreSteps sizes.now) }
{
    let mut steps = [0; MAX_DIMS];
    let mut total = 1;
    for d in (0..sizes.len()).rev() {
        steps[d] = total;
        total = product_within(total, sizes[d])?;
    }
    Some(steps)
}

/// The number of leaves of each dimension.
pub fn leaf_counts(dims: &[Dim]) -> [u32; MAX_DIMS]
    requires { length dims.now ≤ MAX_DIMS }
    ensures { take (length dims.now) result ≡ map (λ dim. length (leaves dim)) dims.now }
{
    let mut counts = [0; MAX_DIMS];
    for d in 0..dims.len() {
        counts[d] = dims[d].leaf_count();
    }
    counts
}

/// The number of nodes of each dimension.
pub fn node_counts(dims: &[Dim]) -> [u32; MAX_DIMS]
    requires { length dims.now ≤ MAX_DIMS }
    ensures counts { take (length dims.now) result ≡ map (λ dim. length dim) dims.now }
    ensures trees { All IsTree dims.now }
{
    let mut counts = [0; MAX_DIMS];
    for d in 0..dims.len() {
        counts[d] = dims[d].len();
    }
    counts
}
