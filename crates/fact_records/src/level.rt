//! Facts moved between two blocks that stand next to each other, so that both have as many.
ghost use Rattle.std.specs.Prelude.{◌≡◌, ◌+◌, ◌*◌, ◌<◌, ◌≤◌, length};
ghost use Rattle.fact_records.specs.BlockList.{block_at};
ghost use Rattle.fact_records.specs.Leveling.{first_half, leveled, second_half};

use crate::block::{BLOCK, Block};

/// Levels a block with the one after it.
pub(crate) fn level_at(used: &mut [Block], block: usize)
    requires place { block + 1 < length used.old }
    requires few { length (block_at used.old block) + length (block_at used.old (block + 1)) ≤ 2 * BLOCK }
    ensures { used.new ≡ leveled used.old block }
{
    let (front, back) = used.split_at_mut(block + 1);
    level(&mut front[block], &mut back[0]);
}

/// Moves facts from the one that has more.
fn level(front: &mut Block, back: &mut Block)
    requires { length front.old + length back.old ≤ 2 * BLOCK }
    ensures front { front.new ≡ first_half front.old back.old }
    ensures back { back.new ≡ second_half front.old back.old }
{
    let there = front.len();
    let half = (there + back.len()) / 2;
    if half <= there {
        front.give_end(half, back);
    } else {
        front.take_front(half - there, back);
    }
}
