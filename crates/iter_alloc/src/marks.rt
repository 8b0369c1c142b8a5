//! Which spots are of components that a region touches, and how many facts each spot has.
ghost use Rattle.std.specs.Prelude.{◌≡◌, ◌≤◌, ◌<◌, All, length, IfOk, IfSome};
ghost use Rattle.cube_model.specs.Limits.{MAX_FACTS};
ghost use Rattle.region_algebra.specs.Space.{IsRegion};
ghost use Rattle.iter_alloc.specs.Marks.{AreMembers, AreRootMarks, AreTouched};

use crate::spots::First;
use cube_base::Memory;
use cube_model::Region;
use region_algebra::Space;
use std::alloc::Global;

/// Marks the spots that are joined to one whose region shares a cell with a region.
pub(crate) fn marks_of(
    alloc: Global,
    space: &Space,
    firsts: &[First],
    roots: &[usize],
    r: Region,
) -> Result<Vec<bool>, Memory>
    requires region { IsRegion space.now r }
    requires regions { All (λ first. IsRegion space.now first.region) firsts.now }
    requires as_many { length roots.now ≡ length firsts.now }
    requires roots { All (λ root. root < length firsts.now) roots.now }
    ensures { IfOk result (λ marks. AreRootMarks space.now firsts.now roots.now r marks.items) }
{
    let touched = touched_roots(alloc, space, firsts, roots, r)?;
    let mut marks = Vec::new(alloc);
    for root in roots {
        marks.push(touched[*root])?;
    }
    Ok(marks)
}

/// For each place whether it is the root of a spot whose region shares a cell with a region.
fn touched_roots(
    alloc: Global,
    space: &Space,
    firsts: &[First],
    roots: &[usize],
    r: Region,
) -> Result<Vec<bool>, Memory>
    requires region { IsRegion space.now r }
    requires regions { All (λ first. IsRegion space.now first.region) firsts.now }
    requires as_many { length roots.now ≡ length firsts.now }
    requires roots { All (λ root. root < length firsts.now) roots.now }
    ensures { IfOk result (λ touched. AreTouched space.now firsts.now roots.now r (length firsts.now) touched.items) }
{
    let mut touched = vec![in alloc; false; firsts.len()]?;
    for i in 0..firsts.len() {
        if space.meet(firsts[i].region, r).is_some() {
            touched[roots[i]] = true;
        }
    }
    Ok(touched)
}

/// The number of facts of each spot.
pub(crate) fn members_of(
    alloc: Global,
    spots: &[Option<usize>],
    count: usize,
) -> Result<Vec<u64>, Memory>
    requires few { length spots.now ≤ MAX_FACTS }
    requires within { All (λ spot. IfSome spot (λ s. s < count)) spots.now }
    ensures { IfOk result (λ members. AreMembers spots.now count members.items) }
{
    let mut members = vec![in alloc; 0; count]?;
    for spot in spots {
        if let Some(spot) = *spot {
            members[spot] += 1;
        }
    }
    Ok(members)
}
