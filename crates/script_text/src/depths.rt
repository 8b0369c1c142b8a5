//! The depths at which a table cuts the dimensions.
ghost use Rattle.std.specs.Prelude.{◌≡◌, ◌↔◌, ◌<◌, length, IsNone, IfSome};

use cube_model::MAX_DIMS;
use std::marker::Model;

/// A depth for each of at most six dimensions, held in place. Contracts see their list.
#[derive(Clone, Copy, Debug)]
pub struct CutDepths {
    len: u32,
    depths: [u8; MAX_DIMS],
}

impl Model for CutDepths {
    ghost use Rattle.std.specs.Prelude.{ℕ, List, length, take};
    ghost use Rattle.cube_base.specs.InPlace.{IsPadded, padded, length-take-places, padded-take-places};

    ghost Value = { List ℕ };

    ghost view = { λ c. take c.len c.depths };

    ghost invariant = { λ c. IsPadded 0 6 c.len c.depths };

    ghost inverse = { λ l. record { len = length l; depths = padded 0 6 l } };

    ghost inverse_ok = { λ c h i. record {
      len = length-take-places h i;
      depths = padded-take-places h i;
    } };
}

impl CutDepths {
    /// These depths, one per dimension: None exactly above six of them.
    pub fn new(depths: &[u8]) -> Option<Self>
        ensures refused { IsNone result ↔ (6 < length depths.now) }
        ensures held { IfSome result (λ cuts. cuts ≡ depths.now) }
    {
        if depths.len() > MAX_DIMS {
            return None;
        }
        let mut held = [0; MAX_DIMS];
        held[..depths.len()].copy_from_slice(depths);
        Some(CutDepths {
            len: depths.len() as u32,
            depths: held,
        })
    }

    /// The depths, in order.
    pub fn as_slice(&self) -> &[u8]
        ensures { result.now ≡ self.now }
    {
        &self.depths[..self.len as usize]
    }
}
