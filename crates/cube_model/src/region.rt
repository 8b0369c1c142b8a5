//! Regions of the space.
ghost use Rattle.std.specs.Prelude.{◌≡◌, ◌↔◌, ◌<◌, ◌≤◌, [], ◌∷◌, length, slice_get, Some, IsNone, IfSome};

use crate::MAX_DIMS;
use std::marker::Model;

/// A region: the number of one node per dimension, which contracts see as their list.
#[derive(Clone, Copy, Debug)]
pub struct Region {
    len: u32,
    nodes: [u32; 6],
}

impl Model for Region {
    ghost use Rattle.std.specs.Prelude.{ℕ, List, length, take};
    ghost use Rattle.cube_base.specs.InPlace.{IsPadded, padded, length-take-places, padded-take-places};

    ghost Value = { List ℕ };

    ghost view = { λ r. take r.len r.nodes };

    ghost invariant = { λ r. IsPadded 0 6 r.len r.nodes };

    ghost inverse = { λ l. record { len = length l; nodes = padded 0 6 l } };

    ghost inverse_ok = { λ r h i. record {
      len = length-take-places h i;
      nodes = padded-take-places h i;
    } };
}

impl Region {
    /// The region of these nodes, one per dimension: None exactly above six of them.
    pub fn new(nodes: &[u32]) -> Option<Self>
        ensures refused { IsNone result ↔ (6 < length nodes.now) }
        ensures held { IfSome result (λ region. region ≡ nodes.now) }
    {
        if nodes.len() > MAX_DIMS {
            return None;
        }
        let mut held = [0; 6];
        held[..nodes.len()].copy_from_slice(nodes);
        Some(Region {
            len: nodes.len() as u32,
            nodes: held,
        })
    }

    /// The region of a space of one dimension.
    pub fn of_node(node: u32) -> Self
        ensures { result ≡ node ∷ [] }
    {
        Region {
            len: 1,
            nodes: [node, 0, 0, 0, 0, 0],
        }
    }

    /// The nodes, in the order of the dimensions.
    pub fn nodes(&self) -> &[u32]
        ensures nodes { result.now ≡ self.now }
        ensures few { length self.now ≤ 6 }
    {
        &self.nodes[..self.len as usize]
    }

    /// The node of dimension `d`.
    pub fn node(self, d: u32) -> u32
        requires { d < length self }
        ensures { slice_get self d ≡ Some result }
    {
        self.nodes[d as usize]
    }
}
