//! One view: its entries by region code.
ghost use Rattle.std.specs.Prelude.{◌≡◌, ◌≤◌, ◌<◌, ◌+◌, ◌-◌, true, [], ◌∷◌, All, IfOk, IfSome, OnOk, length, map};
ghost use Rattle.std.specs.Option.{option_copied};
ghost use Rattle.cube_model.specs.Answer.{merge_all};
ghost use Rattle.cube_model.specs.Limits.{MAX_COLS};
ghost use Rattle.cube_model.specs.Tree.{Dimension};
ghost use Rattle.group_sum.specs.Terms.{TermList};
ghost use Rattle.region_algebra.specs.Space.{IsRegion, region_total};
ghost use Rattle.staged_map.specs.Staged.{PutsAll, value_at};
ghost use Rattle.view_store.specs.Changes.{FitsView, HasRoomFor, IsMadeFor, IsSameView};
ghost use Rattle.view_store.specs.Drafts.{put_at};
ghost use Rattle.view_store.specs.Facts.{AddsFacts};
ghost use Rattle.view_store.specs.Rolling.{AreCodes, FitsBelow, FitsUnder, has_depths, is_below, listed_under, rolled_up, serves, term_lists_below};
ghost use Rattle.view_store.specs.Views.{AreEntries, IsEntry, IsViewOf, listed, without_entries};

use crate::drafts::{add_spread, make_entries};
use crate::{Cuts, Share, ViewChange};
use cube_base::{Memory, PlainList};
use cube_model::Region;
use group_sum::{Terms, ViewList};
use region_algebra::{Depths, Space};
use staged_map::Staged;
use std::alloc::Global;
use std::marker::Model;

/// For each dimension the depth of a cut, and the terms of the regions that have any, by region code.
#[derive(Drop)]
pub struct View {
    alloc: Global,
    columns: u32,
    depths: Depths,
    entries: Staged<Terms>,
    // No more than room, in which the drafts of an edit's entries stand.
    drafts: Staged<Terms>,
}

impl Model for View {
    ghost use Rattle.view_store.specs.Views.{AreEntries, ViewMap};

    ghost Value = { ViewMap };

    ghost view = { λ v. record { columns = v.columns; depths = v.depths; entries = v.entries } };

    ghost invariant = { λ v. AreEntries v.columns v.entries };
}

impl View {
    /// A view without entries.
    pub fn new(alloc: Global, columns: u32, depths: Depths) -> Self
        requires some { 1 ≤ columns }
        requires most { columns ≤ MAX_COLS + 1 }
        ensures { result ≡ record { columns = columns; depths = depths; entries = [] } }
    {
        View {
            alloc,
            columns,
            depths,
            entries: Staged::new(alloc),
            drafts: Staged::new(alloc),
        }
    }

    /// A view with the same cuts and columns, without entries.
    pub fn without_entries(&self) -> Result<View, Memory>
        ensures { IfOk result (λ view. view ≡ without_entries self.now) }
    {
        let depths = Vec::from_slice(self.alloc, self.depths.as_slice())?;
        Ok(View::new(self.alloc, self.columns, Depths::from(depths)))
    }

    /// The terms of a region, by its code.
    pub fn get(&self, code: u64) -> Option<&Terms>
        ensures entry { option_copied result ≡ value_at self.now.entries code }
        ensures whole { IfSome result (λ terms. IsEntry self.now.columns terms.now) }
    {
        self.entries.get(code)
    }

    /// Adds facts of the region of a code, which have these rows, to those whose shares the entries are. `cuts` are its own over the
    /// space. On an error some of their shares may have been added.
    ///
    /// No numerator passes 2^120 with them.
    pub fn put(
        &mut self,
        cuts: &Cuts,
        code: u64,
        share: &Share,
        rows: &[(u64, u64)],
    ) -> Result<(), Memory>
        requires cuts { cuts.now.depths ≡ self.old.depths }
        requires view { IsViewOf cuts.now.dims self.old }
        requires code { code < region_total cuts.now.dims }
        requires fits { FitsView cuts.now.dims (put_at cuts.now.dims code share.now rows.now ∷ []) self.old }
        ensures { OnOk result (AddsFacts cuts.now.dims (put_at cuts.now.dims code share.now rows.now) self.old self.new) }
    {
        add_spread(
            self.alloc,
            cuts,
            self.columns,
            cuts.no_entries(),
            &mut self.entries,
            cuts.over_code(code),
            share,
            rows,
        )
    }

    /// Makes the entries that changes change anew, and gives their codes places. The content stays.
    pub fn stage(
        &mut self,
        space: &Space,
        changes: &[ViewChange],
    ) -> Result<Vec<(u64, Option<Terms>)>, Memory>
        requires view { IsViewOf space.now self.old }
        requires changes { FitsView space.now changes.now self.old }
        ensures same { IsSameView self.old self.new }
        ensures room { IfOk result (λ entries. HasRoomFor self.new entries.items) }
        ensures made { IfOk result (λ entries. IsMadeFor space.now changes.now self.new entries.items) }
    {
        let cuts = Cuts::climbed(self.alloc, space, self.depths.as_slice());
        let entries = make_entries(
            self.alloc,
            &cuts,
            self.columns,
            &self.entries,
            &mut self.drafts,
            changes,
        )?;
        self.entries.reserve_for(entries.as_slice())?;
        Ok(entries)
    }

    /// Sets the entries that are staged.
    pub fn install(&mut self, entries: Vec<(u64, Option<Terms>)>)
        requires { HasRoomFor self.old entries.items }
        ensures columns { self.new.columns ≡ self.old.columns }
        ensures depths { self.new.depths ≡ self.old.depths }
        ensures puts { PutsAll self.old.entries self.new.entries entries.items }
    {
        self.entries.put_all(entries);
    }

    /// The regions that have an entry, each with a copy of it, ascending by code.
    pub fn list(&self, space: &Space) -> Result<ViewList, Memory>
        requires { IsViewOf space.now self.now }
        ensures entries { IfOk result (λ list. list ≡ listed space.now self.now) }
        ensures whole { IfOk result (All (λ entry. 1 ≤ length entry.1.terms)) }
    {
        let codes = self.entries.keys()?;
        let mut list = Vec::with_capacity(self.alloc, codes.as_slice().len())?;
        for code in codes.as_slice() {
            let region = space.uncode(*code).unwrap();
            let terms = self.entries.get(*code).unwrap().copy()?;
            list.push((region, terms))?;
        }
        Ok(ViewList::from(list))
    }

    /// The regions under a region that have an entry, each with a copy of it, ascending by code.
    pub fn list_under(&self, space: &Space, r: Region) -> Result<ViewList, Memory>
        requires view { IsViewOf space.now self.now }
        requires region { IsRegion space.now r }
        ensures entries { IfOk result (λ list. list ≡ listed_under space.now self.now r) }
        ensures whole { OnOk result (All (λ entry. 1 ≤ length entry.1.terms) (listed space.now self.now)) }
    {
        let codes = self.entries.keys()?;
        let mut list = Vec::new(self.alloc);
        for code in codes.as_slice() {
            if is_below(space, r, *code) {
                let region = space.uncode(*code).unwrap();
                let terms = self.entries.get(*code).unwrap().copy()?;
                list.push((region, terms))?;
            }
        }
        Ok(ViewList::from(list))
    }

    /// The same of a view that is wanted no longer: its own terms are listed, and none is copied.
    pub fn into_list_under(self, space: &Space, r: Region) -> Result<ViewList, Memory>
        requires view { IsViewOf space.now self }
        requires region { IsRegion space.now r }
        ensures entries { IfOk result (λ list. list ≡ listed_under space.now self r) }
        ensures whole { OnOk result (All (λ entry. 1 ≤ length entry.1.terms) (listed space.now self)) }
    {
        let View {
            alloc,
            mut entries,
            ..
        } = self;
        let codes = entries.keys()?;
        let mut list = Vec::with_capacity(alloc, codes.as_slice().len())?;
        for code in codes.as_slice() {
            if is_below(space, r, *code) {
                let region = space.uncode(*code).unwrap();
                let terms = entries.remove(*code).unwrap();
                list.push((region, terms))?;
            }
        }
        Ok(ViewList::from(list))
    }

    /// Whether these are the depths of its cuts.
    pub fn has_depths(&self, depths: &[u8]) -> bool
        ensures { result ≡ has_depths depths.now self.now }
    {
        self.depths.as_slice() == depths
    }

    /// Whether in every dimension the depth of a region's node is at most the view's.
    pub fn serves(&self, space: &Space, r: Region) -> bool
        requires view { IsViewOf space.now self.now }
        requires region { IsRegion space.now r }
        ensures { result ≡ serves space.now self.now.depths r }
    {
        is_served(space, self.depths.as_slice(), r)
    }

    /// The terms of the entries under a region, merged.
    pub fn roll_up(&self, space: &Space, r: Region) -> Result<Terms, Memory>
        requires view { IsViewOf space.now self.now }
        requires region { IsRegion space.now r }
        requires within { FitsUnder space.now r self.now }
        ensures { IfOk result (λ terms. terms ≡ record { columns = self.now.columns; terms = rolled_up space.now self.now r }) }
    {
        let codes = self.entries.keys()?;
        merge_below(
            self.alloc,
            self.columns,
            space,
            r,
            &self.entries,
            codes.as_slice(),
        )
    }
}

/// Whether in every dimension the depth of a region's node is at most this one.
fn is_served(space: &Space, depths: &[u8], r: Region) -> bool
    requires depths { length depths.now ≡ length space.now }
    requires region { IsRegion space.now r }
    ensures { result ≡ serves space.now depths.now r }
{
    for d in 0..space.dims() {
        if space.dim(d).depth(r.node(d)) > depths[d as usize] {
            return false;
        }
    }
    true
}

/// The terms of those of the codes whose regions lie under a region, merged.
fn merge_below(
    alloc: Global,
    columns: u32,
    space: &Space,
    r: Region,
    entries: &Staged<Terms>,
    codes: &[u64],
) -> Result<Terms, Memory>
    requires region { IsRegion space.now r }
    requires entries { AreEntries columns entries.now }
    requires codes { AreCodes space.now entries.now codes.now }
    requires within { FitsBelow columns space.now r entries.now codes.now }
    ensures { IfOk result (λ terms. terms ≡ record { columns = columns; terms = merge_all (columns - 1) (term_lists_below columns space.now r entries.now codes.now) }) }
{
    let mut all = Terms::empty(alloc, columns);
    for code in codes {
        if is_below(space, r, *code) {
            all.add(entries.get(*code).unwrap())?;
        }
    }
    Ok(all)
}

/// Whether the region of a code lies under a region.
fn is_below(space: &Space, r: Region, code: u64) -> bool
    requires region { IsRegion space.now r }
    requires code { code < region_total space.now }
    ensures { result ≡ is_below space.now r code }
{
    let below = space.uncode(code).unwrap();
    for d in 0..space.dims() {
        if !space.dim(d).is_under(below.node(d), r.node(d)) {
            return false;
        }
    }
    true
}
