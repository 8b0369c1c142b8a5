//! The fields of a reply with picks.
ghost use Rattle.std.specs.Prelude.{◌≡◌, ◌++◌, ◌<◌, All, length, OnOk, OnErr};
ghost use Rattle.cube_model.specs.Cells.{all_cells};
ghost use Rattle.script_text.specs.Reply.{pick_fields, picks_fields};
ghost use Rattle.script_text.specs.ReplySteps.{Keeps, fields_text};

use crate::reply_fields::{append_number, append_signed};
use crate::reply_rows::append_cell;
use cube_base::Memory;
use region_algebra::Space;

/// Appends the fields of picks: the sum, how many there are, and those of each.
pub fn append_picks(
    text: &mut Vec<u8>,
    space: &Space,
    sum: i128,
    picks: &[(u64, u64)],
) -> Result<(), Memory>
    requires { All (λ pick. pick.1 < length (all_cells space.now)) picks.now }
    ensures ok { OnOk result (text.new.items ≡ text.old.items ++ fields_text (picks_fields space.now sum picks.now)) }
    ensures err { OnErr result (Keeps text.old.items text.new.items) }
{
    append_signed(text, sum)?;
    append_number(text, picks.len())?;
    for pick in picks {
        append_pick(text, space, *pick)?;
    }
    Ok(())
}

/// Appends the fields of a pick: the id, and the names of the cell's leaves.
fn append_pick(text: &mut Vec<u8>, space: &Space, pick: (u64, u64)) -> Result<(), Memory>
    requires { pick.1 < length (all_cells space.now) }
    ensures ok { OnOk result (text.new.items ≡ text.old.items ++ fields_text (pick_fields space.now pick)) }
    ensures err { OnErr result (Keeps text.old.items text.new.items) }
{
    append_number(text, pick.0)?;
    append_cell(text, space, pick.1)
}
