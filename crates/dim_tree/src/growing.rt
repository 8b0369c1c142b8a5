//! What is kept for nodes, with one node more at a place.
ghost use Rattle.std.specs.Prelude.{◌≡◌, ◌≤◌, false, insert, length, map, string_bytes, true, IfOk};
ghost use Rattle.std.specs.List.{list_any};
ghost use Rattle.std.specs.Str.{bytes_eq};
ghost use Rattle.cube_base.specs.Name.{is_name};
ghost use Rattle.cube_model.specs.Limits.{MAX_NODES};
ghost use Rattle.dim_tree.specs.Nodes.{depths_kept, numbers_kept};

use crate::node::Node;
use cube_base::{Memory, Name};
use indexmap::IndexSet;
use std::alloc::Global;

/// The depths of the nodes, and that of one more at a place.
pub fn depths_with(alloc: Global, nodes: &[Node], place: u32, depth: u8) -> Result<Vec<u8>, Memory>
    requires { place ≤ length nodes.now }
    ensures { IfOk result (λ depths. depths.items ≡ insert (depths_kept nodes.now) place depth) }
{
    let mut depths: Vec<u8> = nodes.iter().map(|node| node.depth).collect(alloc)?;
    depths.insert(place as usize, depth)?;
    Ok(depths)
}

/// The numbers of the nodes, and the next number for one more at a place.
pub fn numbers_with(alloc: Global, nodes: &[Node], place: u32) -> Result<Vec<u32>, Memory>
    requires within { place ≤ length nodes.now }
    requires few { length nodes.now ≤ MAX_NODES }
    ensures { IfOk result (λ numbers. numbers.items ≡ insert (numbers_kept nodes.now) place (length nodes.now)) }
{
    let mut numbers: Vec<u32> = nodes.iter().map(|node| node.number).collect(alloc)?;
    numbers.insert(place as usize, nodes.len() as u32)?;
    Ok(numbers)
}

/// The names, and one more at a place, which is none of them.
pub fn names_with(
    names: &IndexSet<String>,
    place: u32,
    name: &Name,
) -> Result<IndexSet<String>, Memory>
    requires within { place ≤ length names.now.keys }
    requires new { list_any (λ earlier. bytes_eq earlier name.now) (map string_bytes names.now.keys) ≡ false }
    ensures added { IfOk result (λ more. map string_bytes more.keys ≡ insert (map string_bytes names.now.keys) place name.now) }
    ensures is_name { is_name name.now ≡ true }
{
    let text = String::from_str(*names.allocator(), name.text())?;
    let mut more = names.clone()?;
    more.insert_before(place as usize, text)?;
    Ok(more)
}
