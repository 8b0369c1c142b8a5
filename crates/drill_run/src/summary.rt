//! The line that a drill writes.
ghost use Rattle.std.specs.Prelude.{◌≡◌, ◌∷◌, ◌++◌, IfOk, OnOk};
ghost use Rattle.std.specs.List.{flat_map};
ghost use Rattle.exact_fraction.specs.Moderate.{IsModerate};
ghost use Rattle.drill_run.specs.Summary.{count_fields, line_of_tally, total_fields};

use crate::drill::Drill;
use cube_base::{Bytes, Memory};
use exact_fraction::one;
use group_sum::Terms;
use script_text::{append_exact, append_number};
use std::alloc::Global;

/// The line of the drill of a number. The only error is running out of memory.
pub fn summary(alloc: Global, drill: &Drill, n: u64) -> Result<Bytes, Memory>
    ensures { IfOk result (λ line. line ≡ line_of_tally n drill.now) }
{
    let terms = drill.total()?;
    let mut text = Vec::new(alloc);
    text.extend_from_slice(b"drill")?;
    append_counts(&mut text, drill, n)?;
    append_total(&mut text, &terms)?;
    text.push(b'\n')?;
    Ok(Bytes::from(text))
}

// Appends the number that was drilled and what was counted, a TAB before each.
fn append_counts(text: &mut Vec<u8>, drill: &Drill, n: u64) -> Result<(), Memory>
    ensures { OnOk result (text.new.items ≡ text.old.items ++ flat_map (λ field. 9 ∷ field) (count_fields n drill.now)) }
{
    append_number(text, n)?;
    append_number(text, drill.fact_count())?;
    append_number(text, drill.row_count())?;
    append_number(text, drill.refreshed_count())?;
    Ok(())
}

// Appends the count and the sum, a TAB before each.
fn append_total(text: &mut Vec<u8>, terms: &Terms) -> Result<(), Memory>
    requires columns { terms.now.columns ≡ 2 }
    requires moderate { IsModerate terms.now.terms }
    ensures { OnOk result (text.new.items ≡ text.old.items ++ flat_map (λ field. 9 ∷ field) (total_fields terms.now.terms)) }
{
    append_exact(text, one(terms, 0).exact)?;
    append_exact(text, one(terms, 1).exact)?;
    Ok(())
}
