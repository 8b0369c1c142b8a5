//! The fields of an edit or a growth.
ghost use Rattle.std.specs.Prelude.{◌≡◌, ◌++◌, OnOk};
ghost use Rattle.script_text.specs.ReplySteps.{fields_text};
ghost use Rattle.row_feed.specs.FeedText.{HasParent, IsSaid, IsSaidEdit, edit_fields, growth_fields, said_fields};

use cube_base::Memory;
use cube_model::{Edit, Grow};
use fact_fields::append_fact;
use schema_text::Schema;
use script_text::{Line, append_field, append_number};

// Where it runs out of memory, each of these may have appended a part.

/// Appends the fields of a line that edits or grows, over the schema after it, a TAB before each.
pub(crate) fn append_said(text: &mut Vec<u8>, schema: &Schema, line: &Line) -> Result<(), Memory>
    requires { IsSaid schema.now line.now }
    ensures { OnOk result (text.new.items ≡ text.old.items ++ fields_text (said_fields schema.now line.now)) }
{
    match line {
        Line::Edit(edit) => append_edit(text, schema, edit),
        Line::Grow(grow) => append_growth(text, schema, grow),
        Line::Nothing | Line::Ask(_) => Ok(()),
    }
}

/// Appends the fields of an edit.
fn append_edit(text: &mut Vec<u8>, schema: &Schema, edit: &Edit) -> Result<(), Memory>
    requires { IsSaidEdit schema.now edit.now }
    ensures { OnOk result (text.new.items ≡ text.old.items ++ fields_text (edit_fields schema.now edit.now)) }
{
    match edit {
        Edit::Put(fact) => {
            append_field(text, b"insert")?;
            append_fact(text, schema, fact)
        }
        Edit::Change(fact) => {
            append_field(text, b"change")?;
            append_fact(text, schema, fact)
        }
        Edit::Withdraw(id) => {
            append_field(text, b"withdraw")?;
            append_number(text, *id)
        }
    }
}

/// Appends the fields of a growth.
fn append_growth(text: &mut Vec<u8>, schema: &Schema, grow: &Grow) -> Result<(), Memory>
    requires { HasParent schema.now.dims grow.now }
    ensures { OnOk result (text.new.items ≡ text.old.items ++ fields_text (growth_fields schema.now grow.now)) }
{
    append_field(text, b"grow")?;
    append_field(
        text,
        schema.dim_names()[grow.dim as usize].text().as_bytes(),
    )?;
    append_field(
        text,
        schema.space().dim(grow.dim).name_of(grow.parent).as_bytes(),
    )?;
    append_field(text, grow.name.text().as_bytes())
}
