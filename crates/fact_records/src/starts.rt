//! For each block the number of facts before it.
ghost use Rattle.std.specs.Prelude.{◌≡◌, ◌+◌, ◌-◌, ◌^◌, ◌<◌, ◌≤◌, All, IfSome, IsNone, drop, length, slice_index, slice_set};
ghost use Rattle.std.specs.Vec.{vec_capacity, vec_len};
ghost use Rattle.fact_records.specs.BlockList.{all_facts};
ghost use Rattle.fact_records.specs.Starts.{IsRising, IsStartBefore, mapped_from, starts_of};

use crate::block::Block;

/// Counts one fact more before each block from one on.
pub(crate) fn raise(starts: &mut [u64], from: usize)
    requires { All (λ start. start + 1 < 2 ^ 64) starts.old }
    ensures { starts.new ≡ mapped_from (λ start. start + 1) from starts.old }
{
    for block in from..starts.len() {
        starts[block] += 1;
    }
}

/// Counts one fact fewer before each block from one on.
pub(crate) fn lower(starts: &mut [u64], from: usize)
    requires { All (λ start. 1 ≤ start) (drop from starts.old) }
    ensures { starts.new ≡ mapped_from (λ start. start - 1) from starts.old }
{
    for block in from..starts.len() {
        starts[block] -= 1;
    }
}

/// Writes the number of facts before the block after a block of so many.
pub(crate) fn start_behind(starts: &mut Vec<u64>, block: usize, len: u64)
    requires place { block + 1 < vec_len starts.old }
    requires few { slice_index starts.old.items block + len < 2 ^ 64 }
    ensures items { starts.new.items ≡ slice_set starts.old.items (block + 1) (slice_index starts.old.items block + len) }
    ensures capacity { vec_capacity starts.new ≡ vec_capacity starts.old }
{
    starts[block + 1] = starts[block] + len;
}

/// The number of all facts.
pub(crate) fn count_all(used: &[Block], starts: &[u64]) -> u64
    requires counted { starts.now ≡ starts_of used.now }
    requires few { length (all_facts used.now) < 2 ^ 64 }
    ensures { result ≡ length (all_facts used.now) }
{
    if used.is_empty() {
        return 0;
    }
    let last = used.len() - 1;
    starts[last] + used[last].len() as u64
}

/// The last block before which there are no more facts than a number: None exactly where there is no block.
pub(crate) fn block_of(starts: &[u64], i: u64) -> Option<usize>
    requires { IsRising starts.now }
    ensures found { IfSome result (λ block. IsStartBefore starts.now i block) }
    ensures none { IsNone result → length starts.now ≡ 0 }
{
    match starts.binary_search(&i) {
        Ok(block) => Some(block),
        Err(0) => None,
        Err(next) => Some(next - 1),
    }
}
