//! The walk through the regions over a cell, which gathers the ids that an index holds there.
ghost use Rattle.std.specs.Prelude.{◌≡◌, ◌+◌, ◌*◌, ◌<◌, ◌≤◌, ◌∷◌, [], IfSome, OnErr, OnOk, drop, length, slice_get};
ghost use Rattle.cube_model.specs.Tree.{place_of};
ghost use Rattle.region_algebra.specs.Space.{region_total};
ghost use Rattle.cube_model.specs.Limits.{SPACE_LIMIT};
ghost use Rattle.region_index.specs.Walk.{IsOnTheWay, Probes, codes_above, codes_behind, codes_higher};
ghost use Rattle.std.specs.Option.{option_map_or};

use crate::Steps;
use crate::changes::holds_ids;
use cube_base::{Ids, Memory};
use dim_tree::Dim;
use region_algebra::{Region, Space};
use staged_map::Staged;
use std::sync::ledger::Ledger;

/// A walk through the regions over a cell. It goes through the dimensions in order, and in each from the root down to
/// the cell's leaf, so the regions come in the order of their codes.
#[derive(Drop)]
pub struct Walk<'a> {
    pub ids: &'a Staged<Ids>,
    pub space: &'a Space,
    /// The leaves of the cell.
    pub leaves: Region,
}

impl Walk<'_> {
    /// Probes the regions over the leaves from dimension `d` on, after nodes that make `code`.
    #[cycle(walk)]
    pub fn over<L: Ledger>(
        &self,
        d: u32,
        code: u64,
        found: &mut Vec<u64>,
        steps: &mut Steps<L>,
    ) -> Result<(), Memory>
        requires { IsOnTheWay self.now.space.now self.now.leaves d code }
        ensures ok { OnOk result (Probes self.now.ids.now (codes_behind (drop d self.now.space.now) (drop d self.now.leaves) code) found.old.items found.new.items steps.old steps.new) }
        ensures err { OnErr result (steps.new ≤ steps.old + length (codes_behind (drop d self.now.space.now) (drop d self.now.leaves) code)) }
    {
        if d == self.space.dims() {
            self.probe(code, found, steps)
        } else {
            self.above(d, self.leaves.node(d), code, found, steps)
        }
    }

    /// The same where in dimension `d` only the nodes count that `node` is under.
    #[cycle(walk)]
    fn above<L: Ledger>(
        &self,
        d: u32,
        node: u32,
        code: u64,
        found: &mut Vec<u64>,
        steps: &mut Steps<L>,
    ) -> Result<(), Memory>
        requires way { IsOnTheWay self.now.space.now self.now.leaves d code }
        requires dim { d < length self.now.space.now }
        requires node { IfSome (slice_get self.now.space.now d) (λ dim. node < length dim) }
        ensures ok { OnOk result (Probes self.now.ids.now (codes_above (drop d self.now.space.now) (drop (d + 1) self.now.leaves) node code) found.old.items found.new.items steps.old steps.new) }
        ensures err { OnErr result (steps.new ≤ steps.old + length (codes_above (drop d self.now.space.now) (drop (d + 1) self.now.leaves) node code)) }
    {
        self.higher(d, node, code, found, steps)?;
        let code = with_node(self.space.dim(d), node, code);
        self.over(d + 1, code, found, steps)
    }

    /// The same without `node` itself.
    #[cycle(walk)]
    fn higher<L: Ledger>(
        &self,
        d: u32,
        node: u32,
        code: u64,
        found: &mut Vec<u64>,
        steps: &mut Steps<L>,
    ) -> Result<(), Memory>
        requires way { IsOnTheWay self.now.space.now self.now.leaves d code }
        requires dim { d < length self.now.space.now }
        requires node { IfSome (slice_get self.now.space.now d) (λ dim. node < length dim) }
        ensures ok { OnOk result (Probes self.now.ids.now (codes_higher (drop d self.now.space.now) (drop (d + 1) self.now.leaves) node code) found.old.items found.new.items steps.old steps.new) }
        ensures err { OnErr result (steps.new ≤ steps.old + length (codes_higher (drop d self.now.space.now) (drop (d + 1) self.now.leaves) node code)) }
    {
        match self.space.dim(d).parent(node) {
            Some(parent) => self.above(d, parent, code, found, steps),
            None => Ok(()),
        }
    }

    /// Takes a code at which ids are held.
    pub fn probe<L: Ledger>(
        &self,
        code: u64,
        found: &mut Vec<u64>,
        steps: &mut Steps<L>,
    ) -> Result<(), Memory>
        ensures ok { OnOk result (Probes self.now.ids.now (code ∷ []) found.old.items found.new.items steps.old steps.new) }
        ensures most { steps.new ≤ steps.old + 1 }
    {
        steps.tick();
        if holds_ids(self.ids, code) {
            found.push(code)?;
        }
        Ok(())
    }
}

/// What nodes make with one more, of the next dimension: each dimension's nodes stand for as many codes as the places
/// of the next one tell apart.
pub fn with_node(dim: &Dim, node: u32, code: u64) -> u64
    requires node { node < length dim.now }
    requires small { (code + 1) * length dim.now < SPACE_LIMIT }
    ensures { result ≡ code * length dim.now + option_map_or (λ place. place) (place_of dim.now node) 0 }
{
    code * u64::from(dim.len()) + u64::from(dim.place(node))
}
