//! The old fact of an edit, and its new fact.
ghost use Rattle.std.specs.Prelude.{◌≡◌};
ghost use Rattle.fact_groups.specs.Edits.{edited_id, given, taken};

use cube_model::{Edit, Fact};
use fact_records::FactList;

/// The id that an edit is about.
pub fn edited_id(edit: &Edit) -> u64
    ensures { result ≡ edited_id edit.now }
{
    match edit {
        Edit::Put(fact) | Edit::Change(fact) => fact.id,
        Edit::Withdraw(id) => *id,
    }
}

/// The fact of that id, if there is one.
pub fn taken_fact(edit: &Edit, facts: &FactList) -> Option<Fact>
    ensures { result ≡ taken edit.now facts.now.facts }
{
    facts.get(edited_id(edit))
}

/// The new fact of an edit, if there is one.
pub fn given_fact(edit: &Edit) -> Option<Fact>
    ensures { result ≡ given edit.now }
{
    match edit {
        Edit::Put(fact) | Edit::Change(fact) => Some(*fact),
        Edit::Withdraw(_) => None,
    }
}
