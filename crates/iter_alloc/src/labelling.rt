//! The components of facts.
ghost use Rattle.std.specs.Prelude.{◌≡◌, ◌≤◌, ◌<◌, All, length, IfOk, IfErr, IfSome, OnOk};
ghost use Rattle.iter_alloc.specs.Components.{labels};
ghost use Rattle.iter_alloc.specs.Counting.{ArePlacedIn, IsIterFault, cells_in_all};
ghost use Rattle.iter_alloc.specs.Spotting.{labels_by};

use crate::claims::roots_of_spots;
use crate::counting::{MOST_CELLS, count_cells};
use crate::fault::IterFault;
use crate::spots::{Spots, spots_of};
use cube_base::{Ids, Memory};
use fact_records::FactList;
use region_algebra::Space;
use std::alloc::Global;

/// For each fact, in order of the ids, the least id of its component.
///
/// Two imprecise facts touch where their regions share a cell, and a component is all that a chain of facts that touch reaches.
/// A precise fact is a component by itself.
///
/// The facts are in order of their ids, and there are at most 2^20; the region of each is one of the space, of at most 2^20 cells.
///
/// `Many` is answered exactly where the cells of all imprecise facts, those of each fact counted, number more than
/// [`crate::MOST_CELLS`], with that number. Running out of memory is the only other error.
///
/// It takes memory for the cells and the regions of the imprecise facts, and a few operations for each cell.
pub fn components(alloc: Global, space: &Space, facts: &FactList) -> Result<Ids, IterFault>
    requires { ArePlacedIn space.now facts.now.facts }
    ensures labels { IfOk result (λ ids. ids ≡ labels space.now facts.now.facts) }
    ensures few { OnOk result (cells_in_all space.now facts.now.facts ≤ MOST_CELLS) }
    ensures fault { IfErr result (IsIterFault space.now facts.now.facts) }
{
    let cells = count_cells(space, facts);
    if cells > MOST_CELLS {
        return Err(IterFault::Many { cells });
    }
    Ok(labels_of(alloc, space, facts)?)
}

/// The labels of facts that are not judged.
fn labels_of(alloc: Global, space: &Space, facts: &FactList) -> Result<Ids, Memory>
    requires { ArePlacedIn space.now facts.now.facts }
    ensures { IfOk result (λ ids. ids ≡ labels space.now facts.now.facts) }
{
    let _ = space.dims();
    let all = spots_of(alloc, space, facts)?;
    let roots = roots_of_spots(alloc, space, &all.firsts)?;
    label_facts(alloc, facts, &all, &roots)
}

/// Each fact's label: its own id, or that of the first fact of its spot's root.
fn label_facts(alloc: Global, facts: &FactList, all: &Spots, roots: &[usize]) -> Result<Ids, Memory>
    requires as_many { length all.now.spots.items ≡ length facts.now.facts }
    requires spots { All (λ spot. IfSome spot (λ s. s < length roots.now)) all.now.spots.items }
    requires roots { All (λ root. root < length all.now.firsts.items) roots.now }
    ensures { IfOk result (λ ids. ids ≡ labels_by all.now.firsts.items roots.now facts.now.facts all.now.spots.items) }
{
    let mut labels = Ids::new(alloc);
    let mut i = 0;
    for fact in facts.iter() {
        let label = match all.spots[i] {
            Some(spot) => all.firsts[roots[spot]].id,
            None => fact.id,
        };
        labels.push(label)?;
        i += 1;
    }
    Ok(labels)
}
