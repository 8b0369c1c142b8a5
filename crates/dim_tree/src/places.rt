//! What is kept for each node beside its depth and its name: its parent, the end of the nodes under it,
//! and the leaves before it.
ghost use Rattle.std.specs.Prelude.{◌≡◌, ◌+◌, ◌<◌, ◌≤◌, [], drop, length, nat_le, slice_index, true, IfOk};
ghost use Rattle.std.specs.List.{list_all};
ghost use Rattle.cube_model.specs.Limits.{MAX_DEPTH, MAX_NODES};
ghost use Rattle.dim_tree.specs.Places.{ends_from, is_childless, leaf_counts_from, leaves_from, parents_from};

use cube_model::MAX_DEPTH;
use std::alloc::{AllocError, Global};

/// How many depths there are: 0 to the greatest.
const DEPTHS: usize = MAX_DEPTH as usize + 1;

/// For each node the place of its parent, and 0 for the root.
pub fn parents_of(alloc: Global, depths: &[u8]) -> Result<Vec<u32>, AllocError>
    requires few { length depths.now ≤ MAX_NODES }
    requires shallow { list_all (λ depth. nat_le depth MAX_DEPTH) depths.now ≡ true }
    ensures { IfOk result (λ parents. parents.items ≡ parents_from [] depths.now) }
{
    let mut parents = Vec::with_capacity(alloc, depths.len())?;
    // The last node at each depth.
    let mut last = [0u32; DEPTHS];
    for (place, depth) in depths.iter().enumerate() {
        let depth = *depth as usize;
        let parent = if depth == 0 { 0 } else { last[depth - 1] };
        parents.push(parent)?;
        last[depth] = place as u32;
    }
    Ok(parents)
}

/// For each node the place after the last node under it.
pub fn ends_of(alloc: Global, depths: &[u8]) -> Result<Vec<u32>, AllocError>
    requires few { length depths.now ≤ MAX_NODES }
    requires shallow { list_all (λ depth. nat_le depth MAX_DEPTH) depths.now ≡ true }
    ensures { IfOk result (λ ends. ends.items ≡ ends_from 0 depths.now) }
{
    let mut ends = vec![in alloc; 0u32; depths.len()]?;
    // For each depth the next node that lies no deeper.
    let mut next = [depths.len() as u32; DEPTHS];
    for place in (0..depths.len()).rev() {
        let depth = depths[place] as usize;
        ends[place] = next[depth];
        next[depth..].fill(place as u32);
    }
    Ok(ends)
}

/// Whether the node at a place has no child: the next one lies no deeper.
fn is_childless(depths: &[u8], place: usize) -> bool
    requires { place < length depths.now }
    ensures { result ≡ is_childless (slice_index depths.now place) (drop (place + 1) depths.now) }
{
    place + 1 == depths.len() || depths[place + 1] <= depths[place]
}

/// For each node, and after the last, the number of leaves before it; and the leaves.
pub fn leaves_of(alloc: Global, depths: &[u8]) -> Result<(Vec<u32>, Vec<u32>), AllocError>
    requires { length depths.now ≤ MAX_NODES }
    ensures before { IfOk result (λ r. r.0.items ≡ leaf_counts_from 0 depths.now) }
    ensures leaves { IfOk result (λ r. r.1.items ≡ leaves_from 0 depths.now) }
{
    let mut before = Vec::with_capacity(alloc, depths.len() + 1)?;
    let mut leaves = Vec::new(alloc);
    for place in 0..depths.len() {
        before.push(leaves.len() as u32)?;
        if is_childless(depths, place) {
            leaves.push(place as u32)?;
        }
    }
    before.push(leaves.len() as u32)?;
    Ok((before, leaves))
}
