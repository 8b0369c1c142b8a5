//! Division of numbers of 128 bits, most of which have 64 at most: a processor divides these many times faster.
ghost use Rattle.std.specs.Prelude.{◌≡◌, ◌/◌, ◌%◌, ◌≤◌};

/// The largest number of 64 bits.
pub(crate) const NARROW: u128 = 0xffff_ffff_ffff_ffff;

/// The quotient, rounded down.
pub fn quotient(x: u128, y: u128) -> u128
    requires { 1 ≤ y }
    ensures { result ≡ x / y }
{
    if y == 1 {
        x
    } else if x <= NARROW && y <= NARROW {
        u128::from(x as u64 / y as u64)
    } else {
        x / y
    }
}

/// What the quotient leaves over.
pub fn remainder(x: u128, y: u128) -> u128
    requires { 1 ≤ y }
    ensures { result ≡ x % y }
{
    if x <= NARROW && y <= NARROW {
        u128::from(x as u64 % y as u64)
    } else {
        x % y
    }
}
