//! The fields of a reply with a table.
ghost use Rattle.std.specs.Prelude.{◌≡◌, ◌++◌, All, OnOk, OnErr};
ghost use Rattle.region_algebra.specs.Space.{IsRegion};
ghost use Rattle.script_text.specs.Reply.{table_fields, told_fields};
ghost use Rattle.script_text.specs.ReplySteps.{Keeps, fields_text};

use crate::reply_fields::append_number;
use crate::reply_numbers::append_quotients;
use crate::reply_rows::append_names;
use cube_base::Memory;
use cube_model::Region;
use linear_pool::Pooled;
use region_algebra::Space;

/// Appends the fields of a table: how many regions there are, and those of each.
pub fn append_table(
    text: &mut Vec<u8>,
    space: &Space,
    entries: &[(Region, Pooled)],
) -> Result<(), Memory>
    requires { All (λ entry. IsRegion space.now entry.0) entries.now }
    ensures ok { OnOk result (text.new.items ≡ text.old.items ++ fields_text (table_fields space.now entries.now)) }
    ensures err { OnErr result (Keeps text.old.items text.new.items) }
{
    append_number(text, entries.len())?;
    for entry in entries {
        append_told(text, space, entry)?;
    }
    Ok(())
}

/// Appends the fields of a region of a table: the names of its nodes, and its quotients.
fn append_told(text: &mut Vec<u8>, space: &Space, entry: &(Region, Pooled)) -> Result<(), Memory>
    requires { IsRegion space.now entry.now.0 }
    ensures ok { OnOk result (text.new.items ≡ text.old.items ++ fields_text (told_fields space.now entry.now)) }
    ensures err { OnErr result (Keeps text.old.items text.new.items) }
{
    append_names(text, space, entry.0)?;
    append_quotients(text, entry.1.as_slice())
}
