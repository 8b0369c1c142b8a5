//! What the facts add up to in a region.
ghost use Rattle.std.specs.Prelude.{◌≡◌, IfOk};
ghost use Rattle.region_algebra.specs.Inside.{cells_inside};
ghost use Rattle.region_algebra.specs.Space.{IsRegion};
ghost use Rattle.region_index.specs.Touching.{codes_touching};
ghost use Rattle.cube_state.specs.Answering.{group_share, groups_found, groups_held, shares_of};
ghost use Rattle.cube_state.specs.State.{terms_in};

use crate::{Group, State};
use alloc_rows::weight_in;
use cell_weight::WeightPolicy;
use cube_base::Memory;
use cube_model::Region;
use group_sum::{Share, Terms, terms_of_shares};
use region_algebra::Inside;
use region_index::codes_touching;

impl<P: WeightPolicy + Drop> State<P> {
    /// What the facts add up to inside `r`, which must be a region of the space: for each denominator among the
    /// allocations, ascending, the sums over the facts of each column times the weight inside, the count first; where the count is
    /// 0 there is no term. A view that serves the region is asked, and else the groups of facts. The only error is running out of memory.
    pub fn answer(&self, r: Region) -> Result<Terms, Memory>
        requires { IsRegion self.now.dims r }
        ensures { IfOk result (λ terms. terms ≡ terms_in P.weigh self.now r) }
    {
        let _ = self.shape.columns();
        let _ = self.views.columns();
        match self.views.answer(&self.space, r)? {
            Some(terms) => Ok(terms),
            None => self.answer_of_groups(r),
        }
    }

    /// The same from the groups of facts: of the regions that have a cell in common with `r` where these are few beside the
    /// groups, and else of all.
    fn answer_of_groups(&self, r: Region) -> Result<Terms, Memory>
        requires { IsRegion self.now.dims r }
        ensures { IfOk result (λ terms. terms ≡ terms_in P.weigh self.now r) }
    {
        let few = self.groups.count() as u64 / 4;
        match codes_touching(self.alloc, &self.space, r, few)? {
            Some(codes) => self.answer_at(r, codes.as_slice()),
            None => self.answer_of_all(r),
        }
    }

    /// The same from the groups at the codes of the regions that have a cell in common with `r`: no other has a share.
    fn answer_at(&self, r: Region, codes: &[u64]) -> Result<Terms, Memory>
        requires region { IsRegion self.now.dims r }
        requires codes { codes.now ≡ codes_touching self.now.dims r }
        ensures { IfOk result (λ terms. terms ≡ terms_in P.weigh self.now r) }
    {
        let _ = self.groups.count();
        let columns = self.shape.columns();
        let mut shares = self.shares_at(&self.space.inside(r), codes)?;
        terms_of_shares(self.alloc, columns, &mut shares)
    }

    /// The same from all groups.
    fn answer_of_all(&self, r: Region) -> Result<Terms, Memory>
        requires { IsRegion self.now.dims r }
        ensures { IfOk result (λ terms. terms ≡ terms_in P.weigh self.now r) }
    {
        let _ = self.groups.count();
        let columns = self.shape.columns();
        let mut shares = self.shares_in(&self.space.inside(r))?;
        terms_of_shares(self.alloc, columns, &mut shares)
    }

    /// The shares of the groups at these codes that have something among the cells of a test.
    fn shares_at(&self, region: &Inside<'_>, codes: &[u64]) -> Result<Vec<Share>, Memory>
        ensures { IfOk result (λ shares. shares.items ≡ shares_of (cells_inside region.now) (groups_found self.now.kept.groups codes.now)) }
    {
        let mut shares = Vec::with_capacity(self.alloc, codes.len())?;
        for code in codes {
            if let Some(group) = self.groups.get(*code) {
                let share = share_in(group, region);
                if share.weight > 0 {
                    shares.push(share)?;
                }
            }
        }
        Ok(shares)
    }

    /// The shares of the groups that have something among the cells of a test.
    fn shares_in(&self, region: &Inside<'_>) -> Result<Vec<Share>, Memory>
        ensures { IfOk result (λ shares. shares.items ≡ shares_of (cells_inside region.now) (groups_held self.now.kept.groups)) }
    {
        let mut shares = Vec::new(self.alloc);
        for i in 0..self.groups.count() {
            if let Some((_, group)) = self.groups.at(i) {
                let share = share_in(group, region);
                if share.weight > 0 {
                    shares.push(share)?;
                }
            }
        }
        Ok(shares)
    }
}

/// What a group has among the cells of a test.
fn share_in(group: &Group, region: &Inside<'_>) -> Share
    ensures { result ≡ group_share (cells_inside region.now) group.now }
{
    Share {
        facts: group.members,
        den: group.spread.den(),
        weight: weight_in(&group.spread, region),
        cols: group.sums,
    }
}
