//! Copies of facts.
ghost use Rattle.std.specs.Prelude.{◌≡◌, ◌+◌, ◌≤◌, [], IfOk, length};

use crate::FactList;
use cube_base::Memory;
use std::alloc::Global;

/// A copy of the facts with room for so many more. The only error is running out of memory.
pub fn copy_with_room(alloc: Global, facts: &FactList, more: u64) -> Result<FactList, Memory>
    ensures facts { IfOk result (λ copy. copy.facts ≡ facts.now.facts) }
    ensures room { IfOk result (λ copy. more ≤ copy.spare) }
{
    let count = facts.len();
    if more > u64::MAX - count {
        return Err(Memory);
    }
    let mut copy = FactList::new(alloc);
    copy.reserve(count + more)?;
    put_old(&mut copy, facts);
    Ok(copy)
}

/// Puts facts in order of their ids into a list without facts.
fn put_old(all: &mut FactList, facts: &FactList)
    requires empty { all.old.facts ≡ [] }
    requires room { length facts.now.facts ≤ all.old.spare }
    ensures facts { all.new.facts ≡ facts.now.facts }
    ensures room { all.old.spare ≤ all.new.spare + length facts.now.facts }
{
    let _ = facts.len();
    for fact in facts.iter() {
        let _ = all.put(fact);
    }
}
