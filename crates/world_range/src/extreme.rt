//! The two ends of a sum.
ghost use Rattle.std.specs.Prelude.{◌≡◌};
ghost use Rattle.world_range.specs.Picks.{is_wanted, wants_inside};

/// An end of what a sum may be.
#[derive(Clone, Copy, Debug, PartialEq, Eq)]
pub enum Extreme {
    /// The least.
    Least,
    /// The greatest.
    Greatest,
}

impl Extreme {
    /// Whether a value stands inside at this end, where it can: one below 0 for the least, and one above 0 for the greatest.
    pub fn wants_inside(self, value: i64) -> bool
        ensures { result ≡ wants_inside self value }
    {
        match self {
            Extreme::Least => value < 0,
            Extreme::Greatest => value > 0,
        }
    }

    /// Whether a row is wanted for a value at this end, if it lies inside or if it does not: any where the value is 0.
    pub(crate) fn wants(self, value: i64, inside: bool) -> bool
        ensures { result ≡ is_wanted self value inside }
    {
        value == 0 || self.wants_inside(value) == inside
    }
}
