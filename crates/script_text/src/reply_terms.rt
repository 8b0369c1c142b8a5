//! The fields of a reply with terms.
ghost use Rattle.std.specs.Prelude.{◌≡◌, ◌++◌, ◌<◌, length, OnOk, OnErr};
ghost use Rattle.group_sum.specs.Place.{term_at};
ghost use Rattle.script_text.specs.Reply.{term_fields, terms_fields};
ghost use Rattle.script_text.specs.ReplySteps.{Keeps, fields_text};

use crate::reply_fields::{append_number, append_signed};
use cube_base::Memory;
use group_sum::Terms;

/// Appends the fields of terms: how many there are, and those of each.
pub fn append_terms(text: &mut Vec<u8>, terms: &Terms) -> Result<(), Memory>
    ensures ok { OnOk result (text.new.items ≡ text.old.items ++ fields_text (terms_fields terms.now.terms)) }
    ensures err { OnErr result (Keeps text.old.items text.new.items) }
{
    append_number(text, terms.len())?;
    for i in 0..terms.len() {
        append_term(text, terms, i)?;
    }
    Ok(())
}

/// Appends the fields of the term at a place: its denominator and its numerators, the count first.
fn append_term(text: &mut Vec<u8>, terms: &Terms, i: u64) -> Result<(), Memory>
    requires { i < length terms.now.terms }
    ensures ok { OnOk result (text.new.items ≡ text.old.items ++ fields_text (term_fields (term_at terms.now.terms i))) }
    ensures err { OnErr result (Keeps text.old.items text.new.items) }
{
    let den = terms.den_at(i);
    append_number(text, den)?;
    for column in 0..terms.columns() {
        append_signed(text, terms.num_at(i, column))?;
    }
    Ok(())
}
