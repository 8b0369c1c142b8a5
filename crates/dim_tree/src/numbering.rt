//! The numbers of nodes: whether they are those of an order in which the nodes may have been made, and where each stands.
ghost use Rattle.std.specs.Prelude.{◌≡◌, ◌≤◌, length, true, None, Some, IfOk, OnOk, IfErr, if◌then◌else◌, nat_le, nat_lt};
ghost use Rattle.std.specs.List.{list_all, range_with_len};
ghost use Rattle.cube_model.specs.Limits.{MAX_DEPTH, MAX_NODES};
ghost use Rattle.cube_model.specs.declared.tree.DimFault.TheVariants.{Number};
ghost use Rattle.dim_tree.specs.Fault.{IsDimCause};
ghost use Rattle.dim_tree.specs.Nodes.{ArePlaces, are_above, are_in_order, are_numbers};

use crate::places::parents_of;
use cube_base::Memory;
use cube_model::DimFault;
use std::alloc::{AllocError, Global};

/// The numbers from 0 to before `count`.
pub fn count_up(alloc: Global, count: u32) -> Result<Vec<u32>, AllocError>
    ensures { IfOk result (λ numbers. numbers.items ≡ range_with_len 0 count) }
{
    let mut numbers = Vec::with_capacity(alloc, count as usize)?;
    for number in 0..count {
        numbers.push(number)?;
    }
    Ok(numbers)
}

/// For each number its place among the numbers: `Number` where they are not those of an order in which the nodes of
/// these depths may have been made.
pub fn judged_places(alloc: Global, depths: &[u8], numbers: &[u32]) -> Result<Vec<u32>, DimFault>
    requires few { length depths.now ≤ MAX_NODES }
    requires shallow { list_all (λ depth. nat_le depth MAX_DEPTH) depths.now ≡ true }
    requires same_length { length numbers.now ≡ length depths.now }
    ensures placed { IfOk result (λ places. ArePlaces numbers.now places.items) }
    ensures accepted { OnOk result (are_in_order numbers.now depths.now ≡ true) }
    ensures refused { IfErr result (IsDimCause (if are_in_order numbers.now depths.now then None else Some Number)) }
{
    let places = places_of(alloc, numbers)?;
    let parents = parents_of(alloc, depths)?;
    if are_above(numbers, &parents) {
        Ok(places)
    } else {
        Err(DimFault::Number)
    }
}

/// The same where they are.
pub fn ordered_places(alloc: Global, depths: &[u8], numbers: &[u32]) -> Result<Vec<u32>, Memory>
    requires few { length depths.now ≤ MAX_NODES }
    requires shallow { list_all (λ depth. nat_le depth MAX_DEPTH) depths.now ≡ true }
    requires same_length { length numbers.now ≡ length depths.now }
    requires order { are_in_order numbers.now depths.now ≡ true }
    ensures { IfOk result (λ places. ArePlaces numbers.now places.items) }
{
    match judged_places(alloc, depths, numbers) {
        Ok(places) => Ok(places),
        Err(DimFault::Memory) => Err(Memory),
        Err(_) => unreachable!(),
    }
}

/// For each number its place among the numbers: `Number` where they are not distinct or not below their count.
fn places_of(alloc: Global, numbers: &[u32]) -> Result<Vec<u32>, DimFault>
    requires { length numbers.now ≤ MAX_NODES }
    ensures placed { IfOk result (λ places. ArePlaces numbers.now places.items) }
    ensures accepted { OnOk result (are_numbers numbers.now ≡ true) }
    ensures refused { IfErr result (IsDimCause (if are_numbers numbers.now then None else Some Number)) }
{
    // Stands for the place of a number that has not been met.
    let none = numbers.len() as u32;
    let mut places = vec![in alloc; none; numbers.len()]?;
    for place in (0..numbers.len()).rev() {
        let number = numbers[place] as usize;
        if number >= numbers.len() || places[number] != none {
            return Err(DimFault::Number);
        }
        places[number] = place as u32;
    }
    Ok(places)
}

/// Whether each number but the first is above that at the place of its parent.
fn are_above(numbers: &[u32], parents: &[u32]) -> bool
    requires same_length { length parents.now ≡ length numbers.now }
    requires within { list_all (λ parent. nat_lt parent (length numbers.now)) parents.now ≡ true }
    ensures { result ≡ are_above numbers.now parents.now }
{
    for place in 0..numbers.len() {
        if place > 0 && numbers[parents[place] as usize] >= numbers[place] {
            return false;
        }
    }
    true
}
