//! The component of one fact.
ghost use Rattle.std.specs.Prelude.{◌≡◌, ◌≤◌, length, IfOk, IfErr, OnOk};
ghost use Rattle.iter_alloc.specs.BesideFacts.{ids_beside, label_beside};
ghost use Rattle.iter_alloc.specs.Components.{component_of};
ghost use Rattle.iter_alloc.specs.Counting.{ArePlacedIn, IsIterFault, cells_in_all};

use crate::counting::MOST_CELLS;
use crate::fault::IterFault;
use crate::labelling::components;
use cube_base::{Ids, Memory};
use fact_records::FactList;
use region_algebra::Space;
use std::alloc::Global;

/// The ids of the facts of the component in which the fact of an id is, ascending: none where no fact has the id. What the
/// facts are, when `Many` is answered and what it takes is as for [`components`].
pub fn component(alloc: Global, space: &Space, facts: &FactList, id: u64) -> Result<Ids, IterFault>
    requires { ArePlacedIn space.now facts.now.facts }
    ensures ids { IfOk result (λ ids. ids ≡ component_of space.now facts.now.facts id) }
    ensures few { OnOk result (cells_in_all space.now facts.now.facts ≤ MOST_CELLS) }
    ensures fault { IfErr result (IsIterFault space.now facts.now.facts) }
{
    let labels = components(alloc, space, facts)?;
    match label_of(facts, labels.as_slice(), id) {
        Some(label) => Ok(ids_labelled(alloc, facts, labels.as_slice(), label)?),
        None => Ok(Ids::new(alloc)),
    }
}

/// The label of the fact of an id.
fn label_of(facts: &FactList, labels: &[u64], id: u64) -> Option<u64>
    requires { length labels.now ≡ length facts.now.facts }
    ensures { result ≡ label_beside facts.now.facts labels.now id }
{
    let mut i = 0;
    for fact in facts.iter() {
        if fact.id == id {
            return Some(labels[i]);
        }
        i += 1;
    }
    None
}

/// The ids of the facts that have a label.
fn ids_labelled(alloc: Global, facts: &FactList, labels: &[u64], wanted: u64) -> Result<Ids, Memory>
    requires { length labels.now ≡ length facts.now.facts }
    ensures { IfOk result (λ ids. ids ≡ ids_beside facts.now.facts labels.now wanted) }
{
    let mut ids = Ids::new(alloc);
    let mut i = 0;
    for fact in facts.iter() {
        if labels[i] == wanted {
            ids.push(fact.id)?;
        }
        i += 1;
    }
    Ok(ids)
}
