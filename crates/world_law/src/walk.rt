//! The walk through the worlds of choices.
ghost use Rattle.std.specs.Prelude.{◌≡◌, ◌+◌, ◌*◌, ◌≤◌, [], ◌∷◌, ◌+ℤ◌, ◌*ℤ◌, nat_abs, pos};
ghost use Rattle.world_law.specs.Choices.{AddsWorlds, HasRoom, IsBoundedByMass};
ghost use Rattle.world_law.specs.Limits.{MAX_MASS};

use cube_base::PlainList;

/// For each row of a fact its weight, and what the fact adds to the sum of a column if it stands there.
pub type Choice = PlainList<(u64, i64)>;

/// What was found of the worlds that were walked through.
#[derive(Clone, Copy)]
pub struct Found {
    /// Their number.
    pub worlds: u64,
    /// The sum of their weights.
    pub mass: u64,
    /// The sum of the weight of each times its sum of the column.
    pub total: i128,
}

/// Adds the worlds of choices, where some facts stand already, with this weight and this sum of the column. It goes through
/// the worlds one by one and takes no memory. It calls itself as deep as there are choices: where each is of two rows or
/// more, these are at most 16, since there are at most 65,536 worlds.
pub fn walk(choices: &[Choice], weight: u64, sum: i64, found: Found) -> Found
    requires { HasRoom choices.now weight sum found }
    ensures added { AddsWorlds choices.now weight sum found result }
    ensures within { IsBoundedByMass result }
{
    let Some((first, rest)) = choices.split_first() else {
        return with_world(found, weight, sum);
    };
    let mut found = found;
    for (n, own) in first.as_slice() {
        found = walk(rest, weight * *n, plus(sum, *own), found);
    }
    found
}

// One world more.
fn with_world(found: Found, weight: u64, sum: i64) -> Found
    requires { HasRoom [] weight sum found }
    ensures added { AddsWorlds [] weight sum found result }
    ensures within { IsBoundedByMass result }
{
    Found {
        worlds: found.worlds + 1,
        mass: found.mass + weight,
        total: plus_product(found.total, sum, weight),
    }
}

// The sum with a value added.
pub fn plus(sum: i64, value: i64) -> i64
    requires { nat_abs (sum +ℤ value) ≤ MAX_MASS }
    ensures { result ≡ sum +ℤ value }
{
    sum + value
}

// The total with the sum times the weight added.
fn plus_product(total: i128, sum: i64, weight: u64) -> i128
    requires { nat_abs (total +ℤ sum *ℤ pos weight) ≤ MAX_MASS * MAX_MASS }
    ensures { result ≡ total +ℤ sum *ℤ pos weight }
{
    total + i128::from(sum) * i128::from(weight)
}
