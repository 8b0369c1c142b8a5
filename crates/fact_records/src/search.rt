//! Places of facts in blocks.
ghost use Rattle.std.specs.Prelude.{◌≡◌, ◌+◌, ◌<◌, ℕ, Some, length, slice_get, IfSome, IsNone, IfOk, IfErr};
ghost use Rattle.std.specs.Bool.{OnTrue};
ghost use Rattle.fact_records.specs.BlockList.{AllFilled, IsAtPlace, IsPlace, all_facts, place_in_all};
ghost use Rattle.fact_records.specs.Cut.{IsCut, IsGapAt, IsIdAt, id_at};
ghost use Rattle.fact_records.specs.FactList.{IsAscending};
ghost use Rattle.fact_records.specs.Starts.{IsStartBefore, starts_of};

use crate::block::Block;
use crate::starts;
use cube_model::Fact;

/// A place of a fact: which block, and where in it.
#[derive(Clone, Copy)]
pub(crate) struct Place {
    pub(crate) block: usize,
    pub(crate) at: usize,
}

/// Where the fact of an id is, or where it would go.
pub(crate) fn search(used: &[Block], id: u64) -> Result<Place, Place>
    requires ascending { IsAscending (all_facts used.now) }
    requires filled { AllFilled used.now }
    ensures found { IfOk result (λ p. IsAtPlace used.now p.block p.at) }
    ensures id { IfOk result (λ p. IsIdAt (all_facts used.now) id (place_in_all used.now p.block p.at)) }
    ensures absent { IfErr result (λ p. IsPlace used.now p.block p.at) }
    ensures gap { IfErr result (λ p. IsGapAt (all_facts used.now) id (place_in_all used.now p.block p.at)) }
{
    if used.is_empty() {
        return Err(Place { block: 0, at: 0 });
    }
    let block = block_of(used, id);
    match search_block(&used[block], id) {
        Ok(at) => Ok(Place { block, at }),
        Err(at) => Err(Place { block, at }),
    }
}

/// The same in one block.
fn search_block(block: &Block, id: u64) -> Result<usize, usize>
    requires { IsAscending block.now }
    ensures found { IfOk result (IsIdAt block.now id) }
    ensures absent { IfErr result (IsGapAt block.now id) }
{
    let ids = block.ids();
    if is_behind(block, id) {
        return Err(ids.len());
    }
    ids.binary_search_by_key(&id, |id| *id)
}

/// Whether an id is greater than all of a block's facts. Facts are often put in the order of their ids, so this is asked first.
fn is_behind(block: &Block, id: u64) -> bool
    requires { IsAscending block.now }
    ensures { OnTrue result ((k : ℕ) → k < length block.now → id_at block.now k < id) }
{
    let ids = block.ids();
    if ids.is_empty() {
        return true;
    }
    ids[ids.len() - 1] < id
}

/// The last block whose first fact has no greater id, or the first block.
fn block_of(used: &[Block], id: u64) -> usize
    requires ascending { IsAscending (all_facts used.now) }
    requires filled { AllFilled used.now }
    requires some { 0 < length used.now }
    ensures in_range { result < length used.now }
    ensures cut { IsCut (all_facts used.now) id (place_in_all used.now result 0) (place_in_all used.now (result + 1) 0) }
{
    let last = used.len() - 1;
    if first_id(&used[last]) < id {
        return last;
    }
    match used.binary_search_by_key(&id, |block| first_id(block)) {
        Ok(block) => block,
        Err(next) => next.saturating_sub(1),
    }
}

/// The first id of a block: 0 where it has no fact.
fn first_id(block: &Block) -> u64
    ensures { result ≡ id_at block.now 0 }
{
    match block.ids().first() {
        Some(id) => *id,
        None => 0,
    }
}

/// The fact at a place.
pub(crate) fn fact_at(used: &[Block], place: Place) -> Fact
    requires { IsAtPlace used.now place.block place.at }
    ensures { slice_get (all_facts used.now) (place_in_all used.now place.block place.at) ≡ Some result }
{
    used[place.block].get(place.at)
}

/// The last block before which there are no more facts than a number: None exactly where there is no block.
fn block_before(used: &[Block], starts: &[u64], i: u64) -> Option<usize>
    requires filled { AllFilled used.now }
    requires counted { starts.now ≡ starts_of used.now }
    ensures in_range { IfSome result (λ block. block < length used.now) }
    ensures found { IfSome result (λ block. IsStartBefore starts.now i block) }
    ensures none { IsNone result → length used.now ≡ 0 }
{
    starts::block_of(starts, i)
}

/// The fact at a place among all, by the number of facts before each block: None exactly from their number on.
pub(crate) fn nth(used: &[Block], starts: &[u64], i: u64) -> Option<Fact>
    requires filled { AllFilled used.now }
    requires counted { starts.now ≡ starts_of used.now }
    ensures { result ≡ slice_get (all_facts used.now) i }
{
    let block = block_before(used, starts, i)?;
    let at = i - starts[block];
    let facts = &used[block];
    if at < facts.len() as u64 {
        return Some(facts.get(at as usize));
    }
    None
}
