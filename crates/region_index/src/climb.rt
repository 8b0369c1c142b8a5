//! A climb from the leaves of a cell to the nodes of given depths, and the walk over regions that it makes.
ghost use Rattle.std.specs.Prelude.{◌≡◌, ◌+◌, ◌<◌, ◌≤◌, OnErr, OnOk, length, option_to_list, slice_index};
ghost use Rattle.region_index.specs.Patterns.{codes_of_pattern, codes_of_patterns};
ghost use Rattle.region_index.specs.PlaceTable.{IsRow, IsTable};
ghost use Rattle.region_index.specs.Walk.{IsOnTheWay, Probes};

use crate::Steps;
use crate::walk::Walk;
use cube_base::Memory;
use cube_model::MAX_DIMS;
use dim_tree::Dim;
use std::sync::ledger::Ledger;

/// What stands for a place where there is no node of a depth.
const NO_PLACE: u32 = u32::MAX;

/// The number of depths, and of values of a pattern's digit.
const DEPTHS: usize = 9;

/// For each dimension and each depth, the place of a node.
type PlaceTable = [[u32; DEPTHS]; MAX_DIMS];

impl Walk<'_> {
    /// Finds the codes at which ids are held of the regions over the leaves that have one of these patterns. A step is a
    /// probe of such a region.
    pub fn of_patterns<L: Ledger>(
        &self,
        patterns: &[u64],
        found: &mut Vec<u64>,
        steps: &mut Steps<L>,
    ) -> Result<(), Memory>
        requires { IsOnTheWay self.now.space.now self.now.leaves 0 0 }
        ensures ok { OnOk result (Probes self.now.ids.now (codes_of_patterns self.now.space.now self.now.leaves patterns.now) found.old.items found.new.items steps.old steps.new) }
        ensures err { OnErr result (steps.new ≤ steps.old + length (codes_of_patterns self.now.space.now self.now.leaves patterns.now)) }
        ensures most { steps.new ≤ steps.old + length patterns.now }
    {
        let table = self.place_table();
        for pattern in patterns {
            self.of_pattern(&table, *pattern, found, steps)?;
        }
        Ok(())
    }

    /// The places of the nodes that the leaves are under.
    fn place_table(&self) -> PlaceTable
        requires { IsOnTheWay self.now.space.now self.now.leaves 0 0 }
        ensures { IsTable self.now.space.now self.now.leaves (length self.now.space.now) result }
    {
        let mut table = [[NO_PLACE; DEPTHS]; MAX_DIMS];
        for d in 0..self.space.dims() {
            note_places(
                self.space.dim(d),
                self.leaves.node(d),
                &mut table[d as usize],
            );
        }
        table
    }

    /// Probes the region of a pattern over the leaves, where there is one.
    fn of_pattern<L: Ledger>(
        &self,
        table: &PlaceTable,
        pattern: u64,
        found: &mut Vec<u64>,
        steps: &mut Steps<L>,
    ) -> Result<(), Memory>
        requires way { IsOnTheWay self.now.space.now self.now.leaves 0 0 }
        requires table { IsTable self.now.space.now self.now.leaves (length self.now.space.now) table.now }
        ensures ok { OnOk result (Probes self.now.ids.now (codes_of_pattern self.now.space.now self.now.leaves pattern) found.old.items found.new.items steps.old steps.new) }
        ensures err { OnErr result (steps.new ≤ steps.old + length (codes_of_pattern self.now.space.now self.now.leaves pattern)) }
        ensures most { steps.new ≤ steps.old + 1 }
    {
        match self.code_of(table, pattern) {
            Some(code) => self.probe(code, found, steps),
            None => Ok(()),
        }
    }

    /// The code of the region over the leaves that has a pattern. None where there is no such region.
    fn code_of(&self, table: &PlaceTable, pattern: u64) -> Option<u64>
        requires way { IsOnTheWay self.now.space.now self.now.leaves 0 0 }
        requires table { IsTable self.now.space.now self.now.leaves (length self.now.space.now) table.now }
        ensures { option_to_list result ≡ codes_of_pattern self.now.space.now self.now.leaves pattern }
    {
        let mut rest = pattern;
        let mut code = 0;
        for d in 0..self.space.dims() {
            let size = self.space.dim(d).len();
            let place = table[d as usize][(rest % 9) as usize];
            if place == NO_PLACE {
                return None;
            }
            code = code * u64::from(size) + u64::from(place);
            rest /= 9;
        }
        if rest == 0 { Some(code) } else { None }
    }
}

/// Writes at each depth the place of the node there that a node is under, itself included. Elsewhere a row stays.
fn note_places(dim: &Dim, node: u32, row: &mut [u32; DEPTHS])
    requires { node < length dim.now }
    ensures { IsRow dim.now node (slice_index row.old) row.new }
{
    let _ = dim.len();
    let parent = dim.parent(node);
    row[dim.depth(node) as usize] = dim.place(node);
    if let Some(parent) = parent {
        note_places(dim, parent, row);
    }
}
