//! Greatest common divisors and least common multiples.
ghost use Rattle.std.specs.Prelude.{◌≡◌, ◌*◌, ◌≤◌};
ghost use Rattle.std.specs.Int.{IsGcd};
ghost use Rattle.exact_fraction.specs.Number.{gcd, lcm, within};

use crate::division::{NARROW, quotient, remainder};
use cube_model::WIDE;

// The product of two numbers up to this one is within the limit.
const SHORT: u128 = 0x1000_0000_0000_0000;

/// The greatest common divisor of two numbers.
pub fn gcd(a: u128, b: u128) -> u128
    requires { 1 ≤ b }
    ensures { result ≡ gcd a b }
{
    if b == 1 {
        return 1;
    }
    let mut x = a;
    let mut y = b;
    while y > NARROW {
        let rest = x % y;
        x = y;
        y = rest;
    }
    if y == 0 {
        return x;
    }
    narrow_gcd(y as u64, remainder(x, y) as u64) as u128
}

// Euclid on numbers of 64 bits.
fn narrow_gcd(a: u64, b: u64) -> u64
    ensures { IsGcd a b result }
{
    let mut x = a;
    let mut y = b;
    while y != 0 {
        let rest = x % y;
        x = y;
        y = rest;
    }
    x
}

/// The product of two numbers, if it does not pass the limit.
pub fn product_within(x: u128, y: u128) -> Option<u128>
    ensures { result ≡ within (x * y) }
{
    if x <= SHORT && y <= SHORT {
        return Some(x * y);
    }
    if y == 0 {
        return Some(0);
    }
    if x > WIDE / y {
        return None;
    }
    Some(x * y)
}

/// The least common multiple of two numbers, if it does not pass the limit.
pub fn lcm_within(a: u128, b: u128) -> Option<u128>
    requires { 1 ≤ b }
    ensures { result ≡ within (lcm a b) }
{
    product_within(a, quotient(b, gcd(a, b)))
}
