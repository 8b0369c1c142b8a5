//! The stored values of a fact, without the count.
ghost use Rattle.std.specs.Prelude.{◌≡◌, ◌↔◌, ◌<◌, ◌≤◌, length, slice_get, Some, IsNone, IfSome};

use std::marker::Model;

/// The most values that a fact has beside the count.
pub const MAX_COLS: usize = 7;

/// 0 to 7 values, held in place. Contracts see their list.
#[derive(Clone, Copy, Debug)]
pub struct Cols {
    len: u32,
    values: [i64; MAX_COLS],
}

impl Model for Cols {
    ghost use Rattle.std.specs.Prelude.{List, length, take, ℤ, pos};
    ghost use Rattle.cube_base.specs.InPlace.{IsPadded, padded, length-take-places, padded-take-places};

    ghost Value = { List ℤ };

    ghost view = { λ c. take c.len c.values };

    ghost invariant = { λ c. IsPadded (pos 0) 7 c.len c.values };

    ghost inverse = { λ l. record { len = length l; values = padded (pos 0) 7 l } };

    ghost inverse_ok = { λ c h i. record {
      len = length-take-places h i;
      values = padded-take-places h i;
    } };
}

impl Cols {
    /// The values, in order: None exactly above seven of them.
    pub fn new(values: &[i64]) -> Option<Self>
        ensures refused { IsNone result ↔ (7 < length values.now) }
        ensures held { IfSome result (λ cols. cols ≡ values.now) }
    {
        if values.len() > MAX_COLS {
            return None;
        }
        let mut held = [0; MAX_COLS];
        held[..values.len()].copy_from_slice(values);
        Some(Cols {
            len: values.len() as u32,
            values: held,
        })
    }

    /// The values, in order.
    pub fn as_slice(&self) -> &[i64]
        ensures values { result.now ≡ self.now }
        ensures few { length self.now ≤ 7 }
    {
        &self.values[..self.len as usize]
    }

    /// The number of values.
    pub fn len(&self) -> u32
        ensures count { result ≡ length self.now }
        ensures most { length self.now ≤ 7 }
    {
        self.len
    }

    /// The value at a place.
    pub fn get(&self, i: u32) -> i64
        requires { i < length self.now }
        ensures { slice_get self.now i ≡ Some result }
    {
        self.values[i as usize]
    }
}
