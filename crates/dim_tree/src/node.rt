//! What is kept for each node.
ghost use Rattle.std.specs.Prelude.{◌≡◌, ◌≤◌, [], length, nat_le, true, IfOk};
ghost use Rattle.std.specs.List.{list_all};
ghost use Rattle.cube_model.specs.Limits.{MAX_DEPTH, MAX_NODES};
ghost use Rattle.dim_tree.specs.Nodes.{nodes_of};
ghost use Rattle.dim_tree.specs.Places.{ends_from, leaf_counts_from, parents_from};

use crate::places::{ends_of, parents_of};
use std::alloc::{AllocError, Global};

/// What is kept for a node beside its name.
#[derive(Clone, Copy)]
pub struct Node {
    /// Its depth.
    pub depth: u8,
    /// Its number.
    pub number: u32,
    /// The number of its parent; for the root its own.
    pub parent: u32,
    /// The place after the last node under it.
    pub end: u32,
    /// The number of leaves before it.
    pub first_leaf: u32,
    /// The number of leaves before its end.
    pub leaves_end: u32,
}

/// What is kept for the nodes, from the number of leaves before each and, after the last, of all.
pub fn kept_nodes(
    alloc: Global,
    depths: &[u8],
    numbers: &[u32],
    leaves_before: &[u32],
) -> Result<Vec<Node>, AllocError>
    requires few { length depths.now ≤ MAX_NODES }
    requires shallow { list_all (λ depth. nat_le depth MAX_DEPTH) depths.now ≡ true }
    requires same_length { length numbers.now ≡ length depths.now }
    requires leaves { leaves_before.now ≡ leaf_counts_from 0 depths.now }
    ensures { IfOk result (λ nodes. nodes.items ≡ nodes_of depths.now numbers.now) }
{
    let parents = parents_of(alloc, depths)?;
    let ends = ends_of(alloc, depths)?;
    nodes_of(alloc, depths, numbers, &parents, &ends, leaves_before)
}

/// The same, with the places of the parents and the ends.
fn nodes_of(
    alloc: Global,
    depths: &[u8],
    numbers: &[u32],
    parents: &[u32],
    ends: &[u32],
    leaves_before: &[u32],
) -> Result<Vec<Node>, AllocError>
    requires same_length { length numbers.now ≡ length depths.now }
    requires parents { parents.now ≡ parents_from [] depths.now }
    requires ends { ends.now ≡ ends_from 0 depths.now }
    requires leaves { leaves_before.now ≡ leaf_counts_from 0 depths.now }
    ensures { IfOk result (λ nodes. nodes.items ≡ nodes_of depths.now numbers.now) }
{
    let mut nodes = Vec::with_capacity(alloc, depths.len())?;
    for (place, depth) in depths.iter().enumerate() {
        let end = ends[place];
        nodes.push(Node {
            depth: *depth,
            number: numbers[place],
            parent: numbers[parents[place] as usize],
            end,
            first_leaf: leaves_before[place],
            leaves_end: leaves_before[end as usize],
        })?;
    }
    Ok(nodes)
}
