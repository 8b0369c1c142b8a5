//! What the facts add up to in each region of a table.
ghost use Rattle.std.specs.Prelude.{◌≡◌, ◌<◌, [], ◌∷◌, All, IfOk, IfSome, length, map};
ghost use Rattle.cube_model.specs.Answer.{merge_all};
ghost use Rattle.fact_records.specs.Shape.{width_of_all};
ghost use Rattle.region_algebra.specs.Examples.{small_space};
ghost use Rattle.region_algebra.specs.Space.{IsRegion};
ghost use Rattle.region_index.specs.Touching.{codes_touching};
ghost use Rattle.cube_state.specs.State.{terms_in};
ghost use Rattle.cube_state.specs.Tables.{IsListUnder, IsOneViewUnder, depth_under, depths_under, table_at, table_regions};

use crate::State;
use cell_weight::WeightPolicy;
use cube_base::Memory;
use cube_model::Region;
use dim_tree::Dim;
use fact_indexes::{puts_at, view_of};
use region_algebra::Space;
use region_index::codes_touching;
use std::alloc::Global;
use view_store::{Depths, ViewList, Views};

impl<P: WeightPolicy + Drop> State<P> {
    /// The table of `r`, which must be a region of the space, at a depth for each dimension. Its members in a dimension are the nodes of
    /// that depth under the region's node, and the leaves above that depth; or that node alone where it lies deeper. It
    /// has the regions of members where the facts have terms, with these, the first dimension slowest. All its terms
    /// merged are those of `r`. The only error is running out of memory.
    pub fn table(&self, depths: &[u8], r: Region) -> Result<ViewList, Memory>
        requires depths { length depths.now ≡ length self.now.dims }
        requires region { IsRegion self.now.dims r }
        ensures entries { IfOk result (λ list. list ≡ table_at P.weigh self.now depths.now r) }
        ensures regions { IfOk result (All (λ entry. IsRegion self.now.dims entry.0)) }
        ensures merged { IfOk result (λ list. merge_all (width_of_all self.now.shape.measures) (map (λ entry. entry.1.terms) list) ≡ (terms_in P.weigh self.now r).terms) }
    {
        let cuts = depths_under(self.alloc, &self.space, depths, r)?;
        self.list_of_cuts(cuts, r)
    }

    /// What a view of these cuts lists under `r`: a kept one where one has them, and else one that is made.
    fn list_of_cuts(&self, cuts: Depths, r: Region) -> Result<ViewList, Memory>
        requires depths { length cuts ≡ length self.now.dims }
        requires region { IsRegion self.now.dims r }
        ensures { IfOk result (IsListUnder P.weigh self.now cuts r) }
    {
        match self.list_kept(cuts.as_slice(), r)? {
            Some(list) => Ok(list),
            None => self.list_made(cuts, r),
        }
    }

    /// What the first kept view of these cuts lists under `r`: None where none has them.
    fn list_kept(&self, cuts: &[u8], r: Region) -> Result<Option<ViewList>, Memory>
        requires { IsRegion self.now.dims r }
        ensures { IfOk result (λ found. IfSome found (IsListUnder P.weigh self.now cuts.now r)) }
    {
        let _ = self.views.columns();
        self.views.list_with(&self.space, cuts, r)
    }

    /// What a view of these cuts that is made for it lists under `r`: a view of the facts whose regions have a cell in common with `r`,
    /// where these regions are few beside the groups, and else of all facts.
    fn list_made(&self, cuts: Depths, r: Region) -> Result<ViewList, Memory>
        requires depths { length cuts ≡ length self.now.dims }
        requires region { IsRegion self.now.dims r }
        ensures { IfOk result (IsListUnder P.weigh self.now cuts r) }
    {
        let few = self.groups.count() as u64 / 4;
        match codes_touching(self.alloc, &self.space, r, few)? {
            Some(codes) => self.list_near(cuts, r, codes.as_slice()),
            None => self.list_of_all(cuts, r),
        }
    }

    /// The same of the groups at the codes of the regions that have a cell in common with `r`: no other has a share.
    fn list_near(&self, cuts: Depths, r: Region, codes: &[u64]) -> Result<ViewList, Memory>
        requires depths { length cuts ≡ length self.now.dims }
        requires region { IsRegion self.now.dims r }
        requires codes { codes.now ≡ codes_touching self.now.dims r }
        ensures { IfOk result (IsListUnder P.weigh self.now cuts r) }
    {
        let view = self.view_near(cuts, r, codes)?;
        view.list_under(&self.space, 0, r)
    }

    /// A view of these cuts that has, under `r`, what the facts add up to. It is made from the groups at these codes.
    fn view_near(&self, cuts: Depths, r: Region, codes: &[u64]) -> Result<Views, Memory>
        requires depths { length cuts ≡ length self.now.dims }
        requires region { IsRegion self.now.dims r }
        requires codes { codes.now ≡ codes_touching self.now.dims r }
        ensures { IfOk result (IsOneViewUnder P.weigh self.now cuts r) }
    {
        let columns = self.shape.columns();
        let changes = puts_at(self.alloc, &self.space, &self.groups, codes)?;
        let mut view = Views::of_cuts(self.alloc, cuts, columns)?;
        let stage = view.stage(&self.space, &changes)?;
        view.install(stage);
        let _ = view.columns();
        Ok(view)
    }

    /// The same as `list_near` of all groups.
    fn list_of_all(&self, cuts: Depths, r: Region) -> Result<ViewList, Memory>
        requires depths { length cuts ≡ length self.now.dims }
        requires region { IsRegion self.now.dims r }
        ensures { IfOk result (IsListUnder P.weigh self.now cuts r) }
    {
        let view = view_of(
            self.alloc,
            &self.space,
            &self.shape,
            &self.policy,
            &self.facts,
            &self.groups,
            cuts.as_slice(),
        )?;
        view.into_list_under(&self.space, r)
    }
}

/// The depth of the cut in each dimension whose nodes under the node of a region are the members of a table.
fn depths_under(alloc: Global, space: &Space, depths: &[u8], r: Region) -> Result<Depths, Memory>
    requires depths { length depths.now ≡ length space.now }
    requires region { IsRegion space.now r }
    ensures { IfOk result (λ cuts. cuts ≡ depths_under space.now depths.now r) }
{
    let dims = space.dims();
    let mut cuts = Vec::with_capacity(alloc, dims as usize)?;
    for d in 0..dims {
        let cut = depth_under(space.dim(d), depths[d as usize], r.node(d));
        cuts.push(cut)?;
    }
    Ok(Depths::from(cuts))
}

/// The same in one dimension: the deeper one of the depth and the node's own.
fn depth_under(dim: &Dim, depth: u8, node: u32) -> u8
    requires { node < length dim.now }
    ensures { result ≡ depth_under dim.now depth node }
{
    let deep = dim.depth(node);
    if depth < deep { deep } else { depth }
}

/// Regions of tables that were worked out by hand: a leaf above the depth is a member, a node that lies deeper than the depth is the
/// only one, and no node is that does not lie under the region's.
pub fn worked_tables()
    ensures all { table_regions small_space (1 ∷ 0 ∷ []) (0 ∷ 0 ∷ []) ≡ (1 ∷ 0 ∷ []) ∷ (4 ∷ 0 ∷ []) ∷ (6 ∷ 0 ∷ []) ∷ [] }
    ensures leaves { table_regions small_space (2 ∷ 0 ∷ []) (0 ∷ 1 ∷ []) ≡ (2 ∷ 1 ∷ []) ∷ (3 ∷ 1 ∷ []) ∷ (5 ∷ 1 ∷ []) ∷ (6 ∷ 1 ∷ []) ∷ [] }
    ensures under { table_regions small_space (2 ∷ 1 ∷ []) (1 ∷ 0 ∷ []) ≡ (2 ∷ 1 ∷ []) ∷ (2 ∷ 2 ∷ []) ∷ (3 ∷ 1 ∷ []) ∷ (3 ∷ 2 ∷ []) ∷ [] }
    ensures deeper { table_regions small_space (1 ∷ 1 ∷ []) (5 ∷ 0 ∷ []) ≡ (5 ∷ 1 ∷ []) ∷ (5 ∷ 2 ∷ []) ∷ [] }
    ensures leaf { table_regions small_space (2 ∷ 0 ∷ []) (6 ∷ 2 ∷ []) ≡ (6 ∷ 2 ∷ []) ∷ [] }
{}
