//! The fields of a reply with a view.
ghost use Rattle.std.specs.Prelude.{◌≡◌, ◌++◌, All, OnOk, OnErr};
ghost use Rattle.region_algebra.specs.Space.{IsRegion};
ghost use Rattle.script_text.specs.Reply.{entry_fields, view_fields};
ghost use Rattle.script_text.specs.ReplySteps.{Keeps, fields_text};

use crate::reply_fields::append_number;
use crate::reply_rows::append_names;
use crate::reply_terms::append_terms;
use cube_base::Memory;
use cube_model::Region;
use group_sum::Terms;
use region_algebra::Space;

/// Appends the fields of a view: how many entries there are, and those of each.
pub fn append_view(
    text: &mut Vec<u8>,
    space: &Space,
    entries: &[(Region, Terms)],
) -> Result<(), Memory>
    requires { All (λ entry. IsRegion space.now entry.0) entries.now }
    ensures ok { OnOk result (text.new.items ≡ text.old.items ++ fields_text (view_fields space.now entries.now)) }
    ensures err { OnErr result (Keeps text.old.items text.new.items) }
{
    append_number(text, entries.len())?;
    for entry in entries {
        append_entry(text, space, entry)?;
    }
    Ok(())
}

/// Appends the fields of an entry: the names of the region's nodes, and the terms.
fn append_entry(text: &mut Vec<u8>, space: &Space, entry: &(Region, Terms)) -> Result<(), Memory>
    requires { IsRegion space.now entry.now.0 }
    ensures ok { OnOk result (text.new.items ≡ text.old.items ++ fields_text (entry_fields space.now entry.now)) }
    ensures err { OnErr result (Keeps text.old.items text.new.items) }
{
    append_names(text, space, entry.0)?;
    append_terms(text, &entry.1)
}
