//! All views of a cube.
ghost use Rattle.std.specs.Prelude.{◌==◌, ◌≡◌, ◌≤◌, ◌<◌, ◌+◌, [], ◌∷◌, All, List, IfOk, IfSome, OnOk, length, map, slice_get};
ghost use Rattle.std.specs.Option.{option_copied, option_map};
ghost use Rattle.cube_model.specs.Limits.{MAX_COLS};
ghost use Rattle.cube_model.specs.Tree.{Dimension};
ghost use Rattle.region_algebra.specs.Space.{IsRegion, code_of};
ghost use Rattle.staged_map.specs.Staged.{value_at};
ghost use Rattle.view_store.specs.declared.change.ViewChange.{ViewChange};
ghost use Rattle.view_store.specs.Changes.{AreAfter, AreAllSet, AreSame, AreSet, AreStaged, FitsView, FitsViews, HaveRooms, HaveRoomFor, HaveSameViews, AreStagedFor};
ghost use Rattle.view_store.specs.Rolling.{FitsUnder, listed_under, rolled_up, serving, view_with};
ghost use Rattle.view_store.specs.Views.{AreViewsOf, IsEntry, IsViewOf, listed, view_of, without_entries};

use crate::change::Entries;
use crate::view::View;
use crate::{ViewChange, ViewStage};
use cube_base::{Memory, PlainList};
use cube_model::Region;
use group_sum::{Terms, ViewList};
use region_algebra::{Depths, Space, ViewDef};
use std::alloc::Global;
use std::marker::Model;

/// The views of a cube, each the terms of the regions of a product of cuts that have any. Contracts see the number of columns,
/// and for each view the depths of its cuts and a map from region codes to terms.
///
/// All calls but `new`, `without_entries` and `install` are made with a space that has as many dimensions as each view has depths, and
/// in which the entries are of regions, as those are that `stage` makes with it.
#[derive(Drop)]
pub struct Views {
    alloc: Global,
    columns: u32,
    views: Vec<View>,
}

impl Model for Views {
    ghost use Rattle.std.specs.Prelude.{All, ◌≡◌};
    ghost use Rattle.view_store.specs.Views.{AreOfColumns, ViewMaps};

    ghost Value = { ViewMaps };

    ghost view = { λ v. record { columns = v.columns; views = v.views.items } };

    ghost invariant = { λ v. AreOfColumns v.columns v.views.items };
}

impl Views {
    /// These views, all without entries, over a number of columns, the count included.
    pub fn new(alloc: Global, defs: &[ViewDef], columns: u32) -> Result<Self, Memory>
        requires some { 1 ≤ columns }
        requires most { columns ≤ MAX_COLS + 1 }
        ensures { IfOk result (λ views. views ≡ record { columns = columns; views = map (view_of columns) defs.now }) }
    {
        let mut views = Vec::with_capacity(alloc, defs.len())?;
        for def in defs {
            let depths = Vec::from_slice(alloc, def.depths.as_slice())?;
            views.push(View::new(alloc, columns, Depths::from(depths)))?;
        }
        Ok(Views {
            alloc,
            columns,
            views,
        })
    }

    /// One view with these cuts, without entries, over a number of columns, the count included.
    pub fn of_cuts(alloc: Global, depths: Depths, columns: u32) -> Result<Self, Memory>
        requires some { 1 ≤ columns }
        requires most { columns ≤ MAX_COLS + 1 }
        ensures { IfOk result (λ views. views ≡ record { columns = columns; views = record { columns = columns; depths = depths; entries = [] } ∷ [] }) }
    {
        let mut views = Vec::with_capacity(alloc, 1)?;
        views.push(View::new(alloc, columns, depths))?;
        Ok(Views {
            alloc,
            columns,
            views,
        })
    }

    /// Views with the same cuts and columns, all without entries.
    pub fn without_entries(&self) -> Result<Self, Memory>
        ensures { IfOk result (λ views. views ≡ record { columns = self.now.columns; views = map without_entries self.now.views }) }
    {
        let mut views = Vec::with_capacity(self.alloc, self.views.len())?;
        for view in &self.views {
            views.push(view.without_entries()?)?;
        }
        Ok(Views {
            alloc: self.alloc,
            columns: self.columns,
            views,
        })
    }

    /// Whether there is no view.
    pub fn is_empty(&self) -> bool
        ensures { result ≡ (length self.now.views == 0) }
    {
        self.views.is_empty()
    }

    /// The number of columns of each view, from 1 to 8.
    pub fn columns(&self) -> u32
        ensures columns { result ≡ self.now.columns }
        ensures each { All (λ view. view.columns ≡ result) self.now.views }
        ensures some { 1 ≤ result }
        ensures most { result ≤ MAX_COLS + 1 }
    {
        self.columns
    }

    /// The terms of a region in a view: None exactly where it has no entry there. It takes no memory.
    pub fn get(&self, space: &Space, view: u32, r: Region) -> Option<&Terms>
        requires views { AreViewsOf space.now self.now }
        requires view { view < length self.now.views }
        requires region { IsRegion space.now r }
        ensures entry { IfSome (slice_get self.now.views view) (λ v. option_copied result ≡ value_at v.entries (code_of space.now r)) }
        ensures whole { IfSome result (λ terms. IsEntry self.now.columns terms.now) }
    {
        self.views[view as usize].get(space.code(r))
    }

    /// Makes the entries that changes change anew, ready to be installed: each of them once, less the shares that are taken
    /// away and with those that are put. The content stays, on an error too.
    ///
    /// The cells of each change are the space's, its denominator is at least 1, and it has a value for each column but the
    /// count. At each entry the shares taken away are part of it, and no numerator passes 2^120 on the way.
    pub fn stage(&mut self, space: &Space, changes: &[ViewChange]) -> Result<ViewStage, Memory>
        requires views { AreViewsOf space.now self.old }
        requires changes { FitsViews space.now changes.now self.old }
        ensures same { HaveSameViews self.old self.new }
        ensures staged { IfOk result (AreStagedFor space.now changes.now self.new) }
    {
        let stages = stage_all(self.alloc, &mut self.views, space, changes)?;
        Ok(ViewStage::of_views(PlainList::from(stages)))
    }

    /// Sets the entries that are staged. It takes no memory. Where they were staged for changes and the content is what it
    /// was then, each entry is what it was, an absent one being empty, less the shares taken away and with those put; all
    /// others stay.
    pub fn install(&mut self, s: ViewStage)
        requires { HaveRoomFor self.old s }
        ensures sets { AreSet self.old s self.new }
        ensures after { (dims : List Dimension) (changes : List ViewChange) → AreStagedFor dims changes self.old s → AreAfter dims changes self.old self.new }
    {
        install_all(&mut self.views, s.into_views());
    }

    /// The terms of a region from the first view that serves it: those of its entries under the region, merged. None exactly
    /// where no view serves it. A view serves a region where in every dimension the depth of the region's node is at most
    /// the view's.
    ///
    /// No numerator of any first of these entries merged, ascending by code, passes 2^120.
    pub fn answer(&self, space: &Space, r: Region) -> Result<Option<Terms>, Memory>
        requires views { AreViewsOf space.now self.now }
        requires region { IsRegion space.now r }
        requires within { IfSome (serving space.now self.now r) (FitsUnder space.now r) }
        ensures terms { IfOk result (λ found. option_map (λ list. list.terms) found ≡ option_map (λ view. rolled_up space.now view r) (serving space.now self.now r)) }
        ensures columns { IfOk result (λ found. IfSome found (λ list. list.columns ≡ self.now.columns)) }
    {
        match self.first_serving(space, r) {
            Some(view) => Ok(Some(view.roll_up(space, r)?)),
            None => Ok(None),
        }
    }

    /// The first view that serves a region.
    fn first_serving(&self, space: &Space, r: Region) -> Option<&View>
        requires views { AreViewsOf space.now self.now }
        requires region { IsRegion space.now r }
        ensures serving { option_copied result ≡ serving space.now self.now r }
        ensures columns { IfSome result (λ view. view.now.columns ≡ self.now.columns) }
        ensures view { IfSome result (λ view. IsViewOf space.now view.now) }
    {
        self.views.iter().find(|view| view.serves(space, r))
    }

    /// The regions of a view that have an entry, each with a copy of its terms, of which there are some, ascending by code.
    pub fn list(&self, space: &Space, view: u32) -> Result<ViewList, Memory>
        requires views { AreViewsOf space.now self.now }
        requires view { view < length self.now.views }
        ensures entries { IfOk result (λ list. IfSome (slice_get self.now.views view) (λ v. list ≡ listed space.now v)) }
        ensures whole { IfOk result (All (λ entry. 1 ≤ length entry.1.terms)) }
    {
        self.views[view as usize].list(space)
    }

    /// Those of them that lie under a region. Of the view it is told that each entry has a term.
    pub fn list_under(&self, space: &Space, view: u32, r: Region) -> Result<ViewList, Memory>
        requires views { AreViewsOf space.now self.now }
        requires view { view < length self.now.views }
        requires region { IsRegion space.now r }
        ensures entries { IfOk result (λ list. IfSome (slice_get self.now.views view) (λ v. list ≡ listed_under space.now v r)) }
        ensures whole { OnOk result (IfSome (slice_get self.now.views view) (λ v. All (λ entry. 1 ≤ length entry.1.terms) (listed space.now v))) }
    {
        self.views[view as usize].list_under(space, r)
    }

    /// The same of the first view with these depths. None exactly where no view has them.
    pub fn list_with(
        &self,
        space: &Space,
        depths: &[u8],
        r: Region,
    ) -> Result<Option<ViewList>, Memory>
        requires views { AreViewsOf space.now self.now }
        requires region { IsRegion space.now r }
        ensures entries { IfOk result (λ found. found ≡ option_map (λ view. listed_under space.now view r) (view_with self.now depths.now)) }
        ensures whole { OnOk result (IfSome (view_with self.now depths.now) (λ view. All (λ entry. 1 ≤ length entry.1.terms) (listed space.now view))) }
    {
        match self.first_with(depths) {
            Some(view) => Ok(Some(view.list_under(space, r)?)),
            None => Ok(None),
        }
    }

    /// The first view with these depths.
    fn first_with(&self, depths: &[u8]) -> Option<&View>
        ensures found { option_copied result ≡ view_with self.now depths.now }
        ensures view { (dims : List Dimension) → AreViewsOf dims self.now → IfSome result (λ view. IsViewOf dims view.now) }
    {
        self.views.iter().find(|view| view.has_depths(depths))
    }
}

/// Makes the entries of all views anew.
fn stage_all(
    alloc: Global,
    views: &mut [View],
    space: &Space,
    changes: &[ViewChange],
) -> Result<Vec<Entries>, Memory>
    requires views { All (IsViewOf space.now) views.old }
    requires changes { All (FitsView space.now changes.now) views.old }
    ensures same { AreSame views.old views.new }
    ensures staged { IfOk result (λ stages. AreStaged space.now changes.now views.new stages.items) }
{
    let mut stages = Vec::with_capacity(alloc, views.len())?;
    for v in 0..views.len() {
        let entries = views[v].stage(space, changes)?;
        stages.push(Entries::from(entries))?;
    }
    Ok(stages)
}

/// Sets the entries that are staged, view by view.
fn install_all(views: &mut [View], mut stages: Vec<Entries>)
    requires { HaveRooms views.old stages.items }
    ensures { AreAllSet views.old stages.items views.new }
{
    for v in (0..views.len()).rev() {
        let entries = stages.pop().unwrap();
        views[v].install(entries.into_vec());
    }
}
