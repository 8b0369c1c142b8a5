//! Applying a batch: it is kept, and a line says so.
ghost use Rattle.std.specs.Prelude.{◌≡◌, ◌<◌, ◌^◌, IsTrue, OnOk};
ghost use Rattle.fact_keeper.specs.Keeper.{StaysOpen};
ghost use Rattle.script_run.specs.Seen.{keeper_seen, sink_seen};
ghost use Rattle.feed_run.specs.Following.{applied_text};
ghost use Rattle.feed_run.specs.Keeping.{AppliesBatch};

use crate::lead::keep;
use cube_base::{Memory, Sink, write_whole};
use fact_keeper::{Batch, Keeper};
use script_run::BreakOff;
use script_text::append_number;

/// Commits a batch to the keeper, which must be open, after so many that are applied, and writes the line that says so,
/// for which room is made before.
pub(crate) fn apply<K: Sink, Q: Keeper>(
    batch: &Batch,
    applied: u64,
    text: &mut Vec<u8>,
    out: &mut K,
    keeper: &mut Q,
) -> Result<(), BreakOff>
    requires few { applied < 2 ^ 62 }
    requires open { IsTrue (Q.tells keeper.old).is_open }
    ensures applies { AppliesBatch batch.now applied (sink_seen K.tells out.old out.new) (keeper_seen Q.tells keeper.old keeper.new) result }
    ensures stays_open { StaysOpen (Q.tells keeper.old) (Q.tells keeper.new) }
{
    if set_applied(text, applied + 1).is_err() {
        return Err(BreakOff::Memory { done: applied });
    }
    keep(batch, applied, keeper)?;
    match write_whole(out, text) {
        Ok(()) => Ok(()),
        Err(error) => Err(BreakOff::at(error, applied + 1)),
    }
}

/// Makes a text the line that says that the batch of a number is applied.
fn set_applied(text: &mut Vec<u8>, number: u64) -> Result<(), Memory>
    ensures { OnOk result (text.new.items ≡ applied_text number) }
{
    text.clear();
    text.extend_from_slice(b"applied")?;
    append_number(text, number)?;
    text.push(b'\n')?;
    Ok(())
}
