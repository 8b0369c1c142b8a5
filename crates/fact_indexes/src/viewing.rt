//! The entries of views, made from the groups of facts.
ghost use Rattle.std.specs.Prelude.{◌≡◌, ◌+◌, ◌<◌, ◌∷◌, ◌++◌, [], true, IfOk, OnOk, length, map};
ghost use Rattle.std.specs.Option.{option_copied, option_to_list};
ghost use Rattle.cube_model.specs.Allocation.{extended};
ghost use Rattle.fact_records.specs.Shape.{policy_over, width_of_all};
ghost use Rattle.fact_records.specs.Valid.{AreValid};
ghost use Rattle.fact_indexes.specs.Anew.{AreEmpty, AreGroupsOf, cuts_of};
ghost use Rattle.fact_indexes.specs.Kept.{AreViewsOfFacts, IsCutView};
ghost use Rattle.fact_indexes.specs.ViewChanges.{AreOfRegions, IsOfRegion, group_change, group_changes, puts_at};
ghost use Rattle.region_algebra.specs.Space.{region_total};
ghost use Rattle.view_store.specs.Changes.{FitsView};
ghost use Rattle.view_store.specs.Facts.{AddsFacts};
ghost use Rattle.view_store.specs.Views.{IsViewOf, region_at};

use crate::Group;
use cell_weight::WeightPolicy;
use cube_base::Memory;
use cube_model::Region;
use fact_records::{FactList, Shape};
use region_algebra::Space;
use staged_map::Staged;
use std::alloc::Global;
use view_store::{Cuts, Depths, Share, View, ViewChange, Views};

/// The views with the entries that facts make, of which these are the groups.
pub(crate) fn views_of<P: WeightPolicy>(
    alloc: Global,
    space: &Space,
    shape: &Shape,
    policy: &P,
    facts: &FactList,
    groups: &Staged<Group>,
    mut views: Views,
) -> Result<Views, Memory>
    requires valid { AreValid shape.now space.now facts.now.facts }
    requires groups { AreGroupsOf (policy_over (P.weigh policy.now) shape.now) shape.now space.now facts.now.facts groups.now }
    requires empty { AreEmpty shape.now space.now views }
    ensures { IfOk result (AreViewsOfFacts space.now (cuts_of views) (width_of_all shape.now.measures + 1) (extended (policy_over (P.weigh policy.now) shape.now) space.now facts.now.facts)) }
{
    let _ = space.dims();
    let _ = shape.columns();
    let codes = groups.keys()?;
    let changes = puts_at(alloc, space, groups, codes.as_slice())?;
    let stage = views.stage(space, &changes)?;
    views.install(stage);
    Ok(views)
}

/// A view with these cuts of facts, of which these are the groups. They are put one after another in the order of their places, so
/// that neither a list of them is made nor a code looked up.
pub fn view_of<P: WeightPolicy>(
    alloc: Global,
    space: &Space,
    shape: &Shape,
    policy: &P,
    facts: &FactList,
    groups: &Staged<Group>,
    depths: &[u8],
) -> Result<View, Memory>
    requires valid { AreValid shape.now space.now facts.now.facts }
    requires groups { AreGroupsOf (policy_over (P.weigh policy.now) shape.now) shape.now space.now facts.now.facts groups.now }
    requires cuts { length depths.now ≡ length space.now }
    ensures { IfOk result (IsCutView space.now depths.now (width_of_all shape.now.measures + 1) (extended (policy_over (P.weigh policy.now) shape.now) space.now facts.now.facts)) }
{
    let _ = space.dims();
    let own = Vec::from_slice(alloc, depths)?;
    let mut view = View::new(alloc, shape.columns(), Depths::from(own));
    let cuts = Cuts::for_many(alloc, space, depths, groups.count())?;
    for i in 0..groups.count() {
        if let Some((code, group)) = groups.at(i) {
            put_group(&mut view, &cuts, code, group)?;
        }
    }
    Ok(view)
}

/// Puts the facts of the group of a region to those of a view.
fn put_group(view: &mut View, cuts: &Cuts, code: u64, group: &Group) -> Result<(), Memory>
    requires cuts { cuts.now.depths ≡ view.old.depths }
    requires view { IsViewOf cuts.now.dims view.old }
    requires code { code < region_total cuts.now.dims }
    requires fits { FitsView cuts.now.dims (group_change true (region_at cuts.now.dims code) group.now ∷ []) view.old }
    ensures { OnOk result (AddsFacts cuts.now.dims (group_change true (region_at cuts.now.dims code) group.now) view.old view.new) }
{
    let share = Share {
        facts: group.members,
        den: group.spread.den(),
        cols: group.sums,
    };
    view.put(cuts, code, &share, group.spread.rows())
}

/// The changes that put the groups that there are at these codes. No row is copied.
pub fn puts_at(
    alloc: Global,
    space: &Space,
    groups: &Staged<Group>,
    codes: &[u64],
) -> Result<Vec<ViewChange>, Memory>
    requires { AreOfRegions space.now groups.now }
    ensures { IfOk result (λ changes. changes.items ≡ puts_at space.now groups.now codes.now) }
{
    let mut changes = Vec::with_capacity(alloc, codes.len())?;
    for code in codes {
        push_change(&mut changes, true, space, *code, groups.get(*code))?;
    }
    Ok(changes)
}

/// Adds the change that puts the facts of the group at a code, or takes them away, where there is one.
fn push_change(
    changes: &mut Vec<ViewChange>,
    put: bool,
    space: &Space,
    code: u64,
    group: Option<&Group>,
) -> Result<(), Memory>
    requires { IsOfRegion space.now code (option_copied group) }
    ensures { OnOk result (changes.new.items ≡ changes.old.items ++ group_changes put space.now code (option_copied group.entry)) }
{
    match space.uncode(code) {
        Some(region) => push_group(changes, put, region, group),
        None => Ok(()),
    }
}

/// The same where the region of the code is known.
pub fn push_group(
    changes: &mut Vec<ViewChange>,
    put: bool,
    region: Region,
    group: Option<&Group>,
) -> Result<(), Memory>
    ensures { OnOk result (changes.new.items ≡ changes.old.items ++ map (group_change put region) (option_to_list (option_copied group.entry))) }
{
    if let Some(group) = group {
        changes.push(change_of(put, region, group)?)?;
    }
    Ok(())
}

/// The change that puts the facts of the group of a region, or takes them away. No row is copied.
fn change_of(put: bool, region: Region, group: &Group) -> Result<ViewChange, Memory>
    ensures { IfOk result (λ change. change ≡ group_change put region group.now) }
{
    Ok(ViewChange {
        put,
        facts: group.members,
        den: group.spread.den(),
        region,
        rows: group.spread.shared_rows()?,
        cols: group.sums,
    })
}
