//! Drafts of entries: terms by region code, to which the shares of facts are added.
ghost use Rattle.std.specs.Prelude.{[], ◌≡◌, ◌≤◌, ◌+◌, ◌*◌, ◌==◌, ◌<◌, ℕ, true, false, IfOk, IfSome, OnOk, OnErr, All, Some, is_some, length, map, nat_eq, unwrap_or};
ghost use Rattle.std.specs.List.{IsDistinct};
ghost use Rattle.std.specs.Map.{keys_of};
ghost use Rattle.std.specs.Option.{option_copied};
ghost use Rattle.cube_model.specs.Limits.{MAX_COLS};
ghost use Rattle.group_sum.specs.Merge.{FitsDifference, HasDifference, IsDifference};
ghost use Rattle.group_sum.specs.Terms.{AddsUnits, AreTerms, FitsUnits};
ghost use Rattle.region_algebra.specs.Space.{IsRegion};
ghost use Rattle.staged_map.specs.Staged.{AreOfDifferentKeys, Reserves, Sets, key_of_place, value_at};
ghost use Rattle.view_store.specs.Changes.{AreWhole, FitsView, IsChange, IsMadeFor, facts_taken_away};
ghost use Rattle.view_store.specs.Cuts.{HoldsCells, HoldsRows};
ghost use Rattle.view_store.specs.Views.{AreEntries, held_at, is_in_view, IsOver, no_terms};
ghost use Rattle.view_store.specs.Drafts.{AddsChange, AddsRow, AddsSpread, AreKept, AreLeftOver, AreOver, AreRemade, AreWithout, BeginsDraft, CanTake, CanTakeAt, FitsChange, FitsShares, FitsSpread, IsSpread, HasShares, HoldsChanges, KeepsToView, LeavesAt, draft_at, facts_of_kind, kept, kept_entry, one_draft};

use crate::{Cuts, Share, ViewChange};
use cube_base::Memory;
use group_sum::{SubFault, Terms};
use staged_map::Staged;
use std::alloc::Global;
use std::mem::replace;

/// Equal terms, or none over the columns, with room for some, where there are none.
fn copy_or_none(
    alloc: Global,
    columns: u32,
    terms: Option<&Terms>,
    room: usize,
) -> Result<Terms, Memory>
    requires some { 1 ≤ columns }
    requires most { columns ≤ MAX_COLS + 1 }
    requires over { IfSome terms (λ list. list.now.columns ≡ columns) }
    ensures copy { IfOk result (λ list. list ≡ unwrap_or (option_copied terms.entry) (no_terms columns)) }
    ensures over { IfOk result (IsOver columns) }
{
    match terms {
        Some(terms) => terms.copy(),
        None => Terms::with_room(alloc, columns, room),
    }
}

/// Adds what a row of a weight brings to terms. An error leaves them as they were.
fn raise(terms: &mut Terms, share: &Share, weight: u64) -> Result<(), Memory>
    requires facts { 1 ≤ share.now.facts }
    requires den { 1 ≤ share.now.den }
    requires width { length share.now.cols + 1 ≡ terms.old.columns }
    requires within { FitsUnits terms.old.terms share.now.den (weight * share.now.facts) weight share.now.cols }
    ensures ok { OnOk result (AddsUnits terms.old terms.new share.now.den (weight * share.now.facts) weight share.now.cols) }
    ensures err { OnErr result (terms.new ≡ terms.old) }
    ensures terms { AreTerms terms.new }
{
    terms.add_units(share.den, share.units(weight), weight, share.cols)
}

/// Begins the draft of a code that has none: it is the entry there, with what a row of a weight brings. Without an entry there it has room
/// for so many terms. An error leaves the drafts as they were.
fn begin(
    alloc: Global,
    columns: u32,
    entries: &Staged<Terms>,
    drafts: &mut Staged<Terms>,
    code: u64,
    share: &Share,
    weight: u64,
    room: usize,
) -> Result<(), Memory>
    requires some { 1 ≤ columns }
    requires most { columns ≤ MAX_COLS + 1 }
    requires facts { 1 ≤ share.now.facts }
    requires den { 1 ≤ share.now.den }
    requires width { length share.now.cols + 1 ≡ columns }
    requires entries { AreOver columns entries.now }
    requires within { FitsUnits (held_at columns entries.now code).terms share.now.den (weight * share.now.facts) weight share.now.cols }
    ensures begins { OnOk result (BeginsDraft columns (held_at columns entries.now code) share.now code weight drafts.old drafts.new) }
    ensures same { OnErr result ((k : ℕ) → value_at drafts.new k ≡ value_at drafts.old k) }
{
    let mut terms = copy_or_none(alloc, columns, entries.get(code), room)?;
    raise(&mut terms, share, weight)?;
    drafts.reserve(&[code])?;
    let _ = drafts.set(code, terms);
    Ok(())
}

/// Adds what a row of a weight brings to the draft of a code: where there is none yet, that is the entry there, or none with room for
/// so many terms. An error leaves all entries whole, and so does a row without weight.
fn add_share(
    alloc: Global,
    columns: u32,
    entries: &Staged<Terms>,
    drafts: &mut Staged<Terms>,
    code: u64,
    share: &Share,
    weight: u64,
    room: usize,
) -> Result<(), Memory>
    requires some { 1 ≤ columns }
    requires most { columns ≤ MAX_COLS + 1 }
    requires facts { 1 ≤ share.now.facts }
    requires den { 1 ≤ share.now.den }
    requires width { length share.now.cols + 1 ≡ columns }
    requires entries { AreOver columns entries.now }
    requires drafts { AreOver columns drafts.old }
    requires within { FitsUnits (draft_at columns entries.now drafts.old code).terms share.now.den (weight * share.now.facts) weight share.now.cols }
    ensures adds { OnOk result (AddsRow columns entries.now share.now code weight drafts.old drafts.new) }
    ensures whole { AreEntries columns drafts.old → AreEntries columns drafts.new }
{
    if weight == 0 {
        return Ok(());
    }
    match drafts.get_mut(code) {
        Some(terms) => raise(terms, share, weight),
        None => begin(alloc, columns, entries, drafts, code, share, weight, room),
    }
}

/// Adds what facts with these rows have, row by row, to the drafts of the regions of the product of the cuts.
fn add_rows(
    alloc: Global,
    cuts: &Cuts,
    columns: u32,
    entries: &Staged<Terms>,
    drafts: &mut Staged<Terms>,
    share: &Share,
    rows: &[(u64, u64)],
) -> Result<(), Memory>
    requires some { 1 ≤ columns }
    requires most { columns ≤ MAX_COLS + 1 }
    requires spread { IsSpread cuts.now.dims columns share.now rows.now }
    requires entries { AreOver columns entries.now }
    requires drafts { AreOver columns drafts.old }
    requires within { (code : ℕ) → is_in_view cuts.now.dims cuts.now.depths code ≡ true
        → FitsSpread columns cuts.now.dims share.now rows.now code (draft_at columns entries.now drafts.old code) }
    ensures shares { OnOk result ((code : ℕ) → is_in_view cuts.now.dims cuts.now.depths code ≡ true
        → AddsSpread cuts.now.dims share.now rows.now code (draft_at columns entries.now drafts.old code) (draft_at columns entries.now drafts.new code)) }
    ensures keys { OnOk result (KeepsToView cuts.now.dims cuts.now.depths drafts.old drafts.new) }
    ensures over { OnOk result (AreOver columns drafts.new) }
    ensures whole { AreEntries columns drafts.old → AreEntries columns drafts.new }
{
    for (cell, weight) in rows {
        let code = cuts.over_cell(*cell);
        add_share(
            alloc,
            columns,
            entries,
            drafts,
            code,
            share,
            *weight,
            cuts.room(),
        )?;
    }
    Ok(())
}

/// The same. Where one region of the product holds all rows, it is told.
pub fn add_spread(
    alloc: Global,
    cuts: &Cuts,
    columns: u32,
    entries: &Staged<Terms>,
    drafts: &mut Staged<Terms>,
    over: Option<u64>,
    share: &Share,
    rows: &[(u64, u64)],
) -> Result<(), Memory>
    requires some { 1 ≤ columns }
    requires most { columns ≤ MAX_COLS + 1 }
    requires over { IfSome over (HoldsRows cuts.now.dims cuts.now.depths rows.now) }
    requires spread { IsSpread cuts.now.dims columns share.now rows.now }
    requires entries { AreOver columns entries.now }
    requires drafts { AreOver columns drafts.old }
    requires within { (code : ℕ) → is_in_view cuts.now.dims cuts.now.depths code ≡ true
        → FitsSpread columns cuts.now.dims share.now rows.now code (draft_at columns entries.now drafts.old code) }
    ensures shares { OnOk result ((code : ℕ) → is_in_view cuts.now.dims cuts.now.depths code ≡ true
        → AddsSpread cuts.now.dims share.now rows.now code (draft_at columns entries.now drafts.old code) (draft_at columns entries.now drafts.new code)) }
    ensures keys { OnOk result (KeepsToView cuts.now.dims cuts.now.depths drafts.old drafts.new) }
    ensures over { OnOk result (AreOver columns drafts.new) }
    ensures whole { AreEntries columns drafts.old → AreEntries columns drafts.new }
{
    match over {
        // Their weights need not be added up.
        Some(code) => add_share(
            alloc,
            columns,
            entries,
            drafts,
            code,
            share,
            share.den,
            cuts.room(),
        ),
        None => add_rows(alloc, cuts, columns, entries, drafts, share, rows),
    }
}

/// Adds the shares of a change to the drafts of the regions of the product of the cuts.
fn add_change(
    alloc: Global,
    cuts: &Cuts,
    columns: u32,
    entries: &Staged<Terms>,
    drafts: &mut Staged<Terms>,
    change: &ViewChange,
) -> Result<(), Memory>
    requires some { 1 ≤ columns }
    requires most { columns ≤ MAX_COLS + 1 }
    requires change { IsChange cuts.now.dims columns change.now }
    requires entries { AreOver columns entries.now }
    requires drafts { AreOver columns drafts.old }
    requires within { (code : ℕ) → is_in_view cuts.now.dims cuts.now.depths code ≡ true → FitsChange columns cuts.now.dims change.now code (draft_at columns entries.now drafts.old code) }
    ensures shares { OnOk result ((code : ℕ) → is_in_view cuts.now.dims cuts.now.depths code ≡ true
        → AddsChange cuts.now.dims change.now code (draft_at columns entries.now drafts.old code) (draft_at columns entries.now drafts.new code)) }
    ensures keys { OnOk result (KeepsToView cuts.now.dims cuts.now.depths drafts.old drafts.new) }
    ensures over { OnOk result (AreOver columns drafts.new) }
{
    let over = cuts.over_region(change.region);
    let rows = change.rows.as_slice();
    add_spread(
        alloc,
        cuts,
        columns,
        entries,
        drafts,
        over,
        &change.share(),
        rows,
    )
}

/// Adds the shares of the changes that put, or of those that take away, to the drafts of the regions of the product of the
/// cuts.
pub fn add_changes(
    alloc: Global,
    cuts: &Cuts,
    columns: u32,
    entries: &Staged<Terms>,
    drafts: &mut Staged<Terms>,
    changes: &[ViewChange],
    put: bool,
) -> Result<(), Memory>
    requires some { 1 ≤ columns }
    requires most { columns ≤ MAX_COLS + 1 }
    requires changes { All (IsChange cuts.now.dims columns) changes.now }
    requires entries { AreOver columns entries.now }
    requires drafts { AreOver columns drafts.old }
    requires within { (code : ℕ) → is_in_view cuts.now.dims cuts.now.depths code ≡ true
        → FitsShares columns cuts.now.dims put changes.now code (draft_at columns entries.now drafts.old code) }
    ensures shares { OnOk result ((code : ℕ) → is_in_view cuts.now.dims cuts.now.depths code ≡ true
        → HasShares columns cuts.now.dims (facts_of_kind put changes.now) code (draft_at columns entries.now drafts.old code) (draft_at columns entries.now drafts.new code)) }
    ensures keys { OnOk result (KeepsToView cuts.now.dims cuts.now.depths drafts.old drafts.new) }
    ensures over { OnOk result (AreOver columns drafts.new) }
{
    for change in changes {
        if change.put == put {
            add_change(alloc, cuts, columns, entries, drafts, change)?;
        }
    }
    Ok(())
}

/// What is left of an entry without what is taken away.
fn take_away(
    alloc: Global,
    columns: u32,
    entry: Option<&Terms>,
    part: &Terms,
) -> Result<Terms, Memory>
    requires some { 1 ≤ columns }
    requires most { columns ≤ MAX_COLS + 1 }
    requires columns { IfSome entry (λ list. list.now.columns ≡ columns) }
    requires width { part.now.columns ≡ columns }
    requires there { HasDifference (unwrap_or (option_copied entry) (no_terms columns)) part.now }
    requires within { FitsDifference (unwrap_or (option_copied entry) (no_terms columns)) part.now }
    ensures left { IfOk result (IsDifference (unwrap_or (option_copied entry.entry) (no_terms columns)) part.now) }
    ensures over { IfOk result (IsOver columns) }
{
    let none = Terms::empty(alloc, columns);
    let whole = entry.unwrap_or(&none);
    match whole.sub(part) {
        Ok(left) => Ok(left),
        Err(SubFault::Memory) => Err(Memory),
        Err(SubFault::Less { .. }) => unreachable!(),
    }
}

/// Puts in a place what is left of its code's entry without what stands there, if something does.
fn leave_at(
    alloc: Global,
    columns: u32,
    entries: &Staged<Terms>,
    parts: &mut Staged<Terms>,
    i: usize,
) -> Result<(), Memory>
    requires some { 1 ≤ columns }
    requires most { columns ≤ MAX_COLS + 1 }
    requires place { i < length parts.old }
    requires distinct { IsDistinct nat_eq (keys_of parts.old) }
    requires entries { AreOver columns entries.now }
    requires parts { AreOver columns parts.old }
    requires there { IfSome (value_at parts.old (key_of_place parts.old i)) (CanTakeAt columns entries.now (key_of_place parts.old i)) }
    ensures { OnOk result (LeavesAt columns entries.now (key_of_place parts.old i) parts.old parts.new) }
{
    if let Some((code, part)) = parts.at(i) {
        let rest = take_away(alloc, columns, entries.get(code), part)?;
        let _ = parts.set_at(i, rest);
    }
    Ok(())
}

/// Puts in each place what is left of its code's entry without what stands there.
fn leave_each(
    alloc: Global,
    columns: u32,
    entries: &Staged<Terms>,
    parts: &mut Staged<Terms>,
) -> Result<(), Memory>
    requires some { 1 ≤ columns }
    requires most { columns ≤ MAX_COLS + 1 }
    requires entries { AreOver columns entries.now }
    requires parts { AreOver columns parts.old }
    requires there { CanTake columns entries.now parts.old }
    ensures { OnOk result (AreWithout columns entries.now parts.old parts.new) }
{
    for i in 0..parts.count() {
        leave_at(alloc, columns, entries, parts, i)?;
    }
    Ok(())
}

/// What is left of the entries from which something is taken away.
pub fn take_all_away(
    alloc: Global,
    columns: u32,
    entries: &Staged<Terms>,
    mut parts: Staged<Terms>,
) -> Result<Staged<Terms>, Memory>
    requires some { 1 ≤ columns }
    requires most { columns ≤ MAX_COLS + 1 }
    requires entries { AreOver columns entries.now }
    requires parts { AreOver columns parts }
    requires there { CanTake columns entries.now parts }
    ensures { IfOk result (AreWithout columns entries.now parts) }
{
    leave_each(alloc, columns, entries, &mut parts)?;
    Ok(parts)
}

/// What is staged for a draft: no entry where it has no term.
fn entry_of(terms: Terms) -> Option<Terms>
    ensures { result ≡ kept (Some terms) }
{
    if terms.len() == 0 { None } else { Some(terms) }
}

/// Makes of a draft what is staged for it.
fn keep(entry: &mut (u64, Option<Terms>))
    ensures { entry.new ≡ kept_entry entry.old }
{
    if let Some(terms) = entry.1.take() {
        entry.1 = entry_of(terms);
    }
}

/// The same of drafts, in place.
fn keep_each(entries: &mut [(u64, Option<Terms>)])
    ensures { entries.new ≡ map kept_entry entries.old }
{
    for i in 0..entries.len() {
        keep(&mut entries[i]);
    }
}

/// What is staged for the drafts, each once. They are moved out.
fn entries_of(drafts: &mut Staged<Terms>) -> Result<Vec<(u64, Option<Terms>)>, Memory>
    ensures each { IfOk result (λ entries. AreKept drafts.old entries.items) }
    ensures distinct { IfOk result (λ entries. AreOfDifferentKeys entries.items) }
{
    let mut entries = drafts.take_entries()?;
    keep_each(entries.as_mut_slice());
    Ok(entries)
}

/// The shares that changes take away, by region code, in the room of a map whose content goes.
fn taken_away(
    alloc: Global,
    cuts: &Cuts,
    columns: u32,
    mut parts: Staged<Terms>,
    changes: &[ViewChange],
) -> Result<Staged<Terms>, Memory>
    requires some { 1 ≤ columns }
    requires most { columns ≤ MAX_COLS + 1 }
    requires changes { All (IsChange cuts.now.dims columns) changes.now }
    requires within { (code : ℕ) → is_in_view cuts.now.dims cuts.now.depths code ≡ true → FitsShares columns cuts.now.dims false changes.now code (no_terms columns) }
    ensures shares { IfOk result (λ parts. (code : ℕ) → is_in_view cuts.now.dims cuts.now.depths code ≡ true → HasShares columns cuts.now.dims (facts_taken_away changes.now) code (no_terms columns) (held_at columns parts code)) }
    ensures keys { IfOk result (KeepsToView cuts.now.dims cuts.now.depths []) }
    ensures over { IfOk result (AreOver columns) }
{
    let none = Staged::new(alloc);
    parts.clear();
    add_changes(alloc, cuts, columns, &none, &mut parts, changes, false)?;
    Ok(parts)
}

/// What is left of the entries of a view without the shares that changes take away, by region code; there is nothing where none
/// is taken away.
fn left_over(
    alloc: Global,
    cuts: &Cuts,
    columns: u32,
    entries: &Staged<Terms>,
    parts: Staged<Terms>,
    changes: &[ViewChange],
) -> Result<Staged<Terms>, Memory>
    requires entries { AreEntries columns entries.now }
    requires changes { FitsView cuts.now.dims changes.now (record { columns = columns; depths = cuts.now.depths; entries = entries.now }) }
    ensures { IfOk result (AreLeftOver cuts.now.dims changes.now (record { columns = columns; depths = cuts.now.depths; entries = entries.now })) }
{
    let parts = taken_away(alloc, cuts, columns, parts, changes)?;
    take_all_away(alloc, columns, entries, parts)
}

/// What changes make of the entries of a view that they change, by region code.
fn remake_entries(
    alloc: Global,
    cuts: &Cuts,
    columns: u32,
    entries: &Staged<Terms>,
    drafts: Staged<Terms>,
    changes: &[ViewChange],
) -> Result<Staged<Terms>, Memory>
    requires entries { AreEntries columns entries.now }
    requires changes { FitsView cuts.now.dims changes.now (record { columns = columns; depths = cuts.now.depths; entries = entries.now }) }
    ensures { IfOk result (AreRemade cuts.now.dims changes.now (record { columns = columns; depths = cuts.now.depths; entries = entries.now })) }
{
    let mut drafts = left_over(alloc, cuts, columns, entries, drafts, changes)?;
    add_changes(alloc, cuts, columns, entries, &mut drafts, changes, true)?;
    Ok(drafts)
}

/// Whether the region of a code, in the product of the cuts, holds all cells of the regions of changes. False may be said of a region
/// that lies above the cuts.
fn holds_all(cuts: &Cuts, changes: &[ViewChange], code: u64) -> bool
    requires { All (λ change. IsRegion cuts.now.dims change.region) changes.now }
    ensures { result ≡ true → All (λ change. HoldsCells cuts.now.dims cuts.now.depths change.region code) changes.now }
{
    for change in changes {
        let Some(over) = cuts.over_region(change.region) else {
            return false;
        };
        if over != code {
            return false;
        }
    }
    true
}

/// The code of the one region of the product of the cuts that holds all cells of the regions of changes, where there is one.
fn one_code(cuts: &Cuts, changes: &[ViewChange]) -> Option<u64>
    requires { All (λ change. IsRegion cuts.now.dims change.region) changes.now }
    ensures { IfSome result (HoldsChanges cuts.now.dims cuts.now.depths changes.now) }
{
    let (first, others) = changes.split_first()?;
    let code = cuts.over_region(first.region)?;
    if holds_all(cuts, others, code) {
        Some(code)
    } else {
        None
    }
}

/// Adds to terms what the changes that put, or those that take away, bring as a whole: one region holds them all.
fn raise_by_all(
    cuts: &Cuts,
    code: u64,
    terms: &mut Terms,
    changes: &[ViewChange],
    put: bool,
) -> Result<(), Memory>
    requires changes { All (IsChange cuts.now.dims terms.old.columns) changes.now }
    requires holds { HoldsChanges cuts.now.dims cuts.now.depths changes.now code }
    requires terms { AreTerms terms.old }
    requires within { FitsShares terms.old.columns cuts.now.dims put changes.now code terms.old }
    ensures shares { OnOk result (HasShares terms.old.columns cuts.now.dims (facts_of_kind put changes.now) code terms.old terms.new) }
    ensures over { OnOk result (IsOver terms.old.columns terms.new) }
{
    for change in changes {
        if change.put == put {
            raise(terms, &change.share(), change.den)?;
        }
    }
    Ok(())
}

/// What is left of an entry without the shares that changes take away: its region holds them all.
fn rest_of(
    alloc: Global,
    cuts: &Cuts,
    columns: u32,
    entries: &Staged<Terms>,
    code: u64,
    changes: &[ViewChange],
) -> Result<Terms, Memory>
    requires entries { AreEntries columns entries.now }
    requires changes { FitsView cuts.now.dims changes.now (record { columns = columns; depths = cuts.now.depths; entries = entries.now }) }
    requires holds { HoldsChanges cuts.now.dims cuts.now.depths changes.now code }
    ensures { IfOk result (λ rest. AreLeftOver cuts.now.dims changes.now (record { columns = columns; depths = cuts.now.depths; entries = entries.now }) (one_draft code rest)) }
{
    let mut part = Terms::empty(alloc, columns);
    raise_by_all(cuts, code, &mut part, changes, false)?;
    let entry = entries.get(code);
    if part.len() == 0 {
        return copy_or_none(alloc, columns, entry, cuts.room());
    }
    take_away(alloc, columns, entry, &part)
}

/// The entry that changes make of that of a region which holds them all, alone.
fn make_one(
    alloc: Global,
    cuts: &Cuts,
    columns: u32,
    entries: &Staged<Terms>,
    code: u64,
    changes: &[ViewChange],
) -> Result<Vec<(u64, Option<Terms>)>, Memory>
    requires entries { AreEntries columns entries.now }
    requires changes { FitsView cuts.now.dims changes.now (record { columns = columns; depths = cuts.now.depths; entries = entries.now }) }
    requires holds { HoldsChanges cuts.now.dims cuts.now.depths changes.now code }
    ensures made { IfOk result (λ made. IsMadeFor cuts.now.dims changes.now (record { columns = columns; depths = cuts.now.depths; entries = entries.now }) made.items) }
    ensures distinct { IfOk result (λ made. AreOfDifferentKeys made.items) }
    ensures whole { IfOk result (λ made. AreWhole columns made.items) }
{
    let mut terms = rest_of(alloc, cuts, columns, entries, code, changes)?;
    raise_by_all(cuts, code, &mut terms, changes, true)?;
    let mut made = Vec::with_capacity(alloc, 1)?;
    made.push((code, entry_of(terms)))?;
    Ok(made)
}

/// The entries that changes make of those of a view, each once. Their drafts stand in the room of a map, which is left empty; where one
/// region holds all changes, its entry is made alone.
pub fn make_entries(
    alloc: Global,
    cuts: &Cuts,
    columns: u32,
    entries: &Staged<Terms>,
    room: &mut Staged<Terms>,
    changes: &[ViewChange],
) -> Result<Vec<(u64, Option<Terms>)>, Memory>
    requires entries { AreEntries columns entries.now }
    requires changes { FitsView cuts.now.dims changes.now (record { columns = columns; depths = cuts.now.depths; entries = entries.now }) }
    ensures made { IfOk result (λ made. IsMadeFor cuts.now.dims changes.now (record { columns = columns; depths = cuts.now.depths; entries = entries.now }) made.items) }
    ensures distinct { IfOk result (λ made. AreOfDifferentKeys made.items) }
    ensures whole { IfOk result (λ made. AreWhole columns made.items) }
{
    if let Some(code) = one_code(cuts, changes) {
        return make_one(alloc, cuts, columns, entries, code, changes);
    }
    let drafts = replace(room, Staged::new(alloc));
    let mut drafts = remake_entries(alloc, cuts, columns, entries, drafts, changes)?;
    let made = entries_of(&mut drafts)?;
    *room = drafts;
    Ok(made)
}
