//! The index of the imprecise facts.
ghost use Rattle.std.specs.Prelude.{◌≡◌, ◌==◌, ◌+◌, ◌<◌, ◌≤◌, ◌||◌, ◌&&◌, ◌++◌, ℕ, List, [], IfOk, IfSome, OnErr, OnOk, Some, filter, length, map, not};
ghost use Rattle.std.specs.Option.{option_to_list};
ghost use Rattle.cube_model.specs.Cells.{all_cells, is_among};
ghost use Rattle.region_index.specs.Content.{AreAscending, AreIdsAt, held_codes, ids_at};
ghost use Rattle.region_index.specs.Changes.{Applies, AreByCode, HavePlacesForIds, IsStagedFor, IsUnchanged, Pair, changed_entry, names, some_ids, staging};
ghost use Rattle.region_index.specs.Over.{codes_over};
ghost use Rattle.region_index.specs.Patterns.{HasPatterns};

use crate::Steps;
use crate::changes::{
    ascending_copy, at_code, at_codes, by_code, change_ids, change_one, changed_codes,
    codes_of_two, copy_pairs, sort_distinct,
};
use crate::patterns::DepthPatterns;
use crate::short::Short;
use crate::walk::Walk;
use cube_base::{Ids, Memory};
use region_algebra::Space;
use staged_map::Staged;
use std::alloc::Global;
use std::marker::Model;
use std::sync::ledger::Ledger;

/// What `RegionIndex::stage` makes ready for `RegionIndex::install`: the changes, and the ids that it sets at the codes
/// that they name. Contracts see both.
#[derive(Drop)]
pub struct RegionStage {
    puts: Short<(u64, u64)>,
    drops: Short<(u64, u64)>,
    entries: Vec<(u64, Option<Ids>)>,
}

impl Model for RegionStage {
    ghost use Rattle.region_index.specs.Changes.{IsStaging, Staging};
    ghost use Rattle.region_index.specs.Short.{items_of};

    ghost Value = { Staging };

    ghost view = { λ s. record { puts = items_of s.puts; drops = items_of s.drops; entries = s.entries.items } };

    ghost invariant = { λ s. IsStaging (record { puts = items_of s.puts; drops = items_of s.drops; entries = s.entries.items }) };
}

/// The ids of the imprecise facts by the code of their region. No list without ids is kept: a code whose last id goes
/// loses its place. Contracts see the codes with their ids, as the places of the map beneath.
#[derive(Drop)]
pub struct RegionIndex {
    ids: Staged<Ids>,
    alloc: Global,
}

impl Model for RegionIndex {
    ghost use Rattle.region_index.specs.Content.{Content, IsContent};

    ghost Value = { Content };

    ghost view = { λ i. i.ids };

    ghost invariant = { λ i. IsContent i.ids };
}

impl RegionIndex {
    /// No id is held. It takes no memory.
    pub fn new(alloc: Global) -> Self
        ensures { result ≡ [] }
    {
        RegionIndex {
            ids: Staged::new(alloc),
            alloc,
        }
    }

    /// Whether no code has a place: then no id is held. It takes no memory.
    pub fn is_empty(&self) -> bool
        ensures { result ≡ (length self.now == 0) }
    {
        self.ids.count() == 0
    }

    /// The ids that are held at the regions over a cell, ascending, each once. A step is a probe of a region or an id
    /// that is handed out. Where it runs out of memory, the steps are no more than the regions.
    pub fn covering<L: Ledger>(
        &self,
        space: &Space,
        cell: u64,
        steps: &mut Steps<L>,
    ) -> Result<Ids, Memory>
        requires { cell < length (all_cells space.now) }
        ensures ids { IfOk result (AreIdsAt self.now (codes_over space.now cell)) }
        ensures steps { IfOk result (λ ids. steps.new ≡ steps.old + length (codes_over space.now cell) + length ids) }
        ensures err { OnErr result (steps.new ≤ steps.old + length (codes_over space.now cell)) }
    {
        let codes = self.held_codes_over(space, cell, steps)?;
        let ids = sort_distinct(at_codes(self.alloc, &self.ids, codes.as_slice())?);
        steps.add(ids.len() as u64);
        Ok(Ids::from(ids))
    }

    /// The codes of the regions over a cell at which ids are held, ascending. A step is a probe of a region over the
    /// cell, and where it runs out of memory, they are no more than these.
    pub fn held_codes_over<L: Ledger>(
        &self,
        space: &Space,
        cell: u64,
        steps: &mut Steps<L>,
    ) -> Result<Ids, Memory>
        requires { cell < length (all_cells space.now) }
        ensures codes { IfOk result (λ codes. codes ≡ held_codes self.now (codes_over space.now cell)) }
        ensures ascending { IfOk result AreAscending }
        ensures steps { IfOk result (λ _. steps.new ≡ steps.old + length (codes_over space.now cell)) }
        ensures err { OnErr result (steps.new ≤ steps.old + length (codes_over space.now cell)) }
    {
        let _ = space.dims();
        let walk = Walk {
            ids: &self.ids,
            space,
            leaves: space.cell_at(cell),
        };
        let mut found = Vec::new(self.alloc);
        walk.over(0, 0, &mut found, steps)?;
        Ok(Ids::from(found))
    }

    /// Adds the codes that `held_codes_over` answers to those of a list, in any order. Where not all patterns are known, they
    /// are found by way of the known ones. A step is a probe of the region over the cell of such a pattern, where there is one.
    pub fn held_codes_by_pattern<L: Ledger>(
        &self,
        space: &Space,
        patterns: &DepthPatterns,
        cell: u64,
        found: &mut Vec<u64>,
        steps: &mut Steps<L>,
    ) -> Result<(), Memory>
        requires cell { cell < length (all_cells space.now) }
        requires patterns { HasPatterns space.now self.now patterns.now }
        ensures codes { OnOk result ((code : ℕ) → is_among found.new.items code ≡ (is_among found.old.items code || is_among (held_codes self.now (codes_over space.now cell)) code)) }
        ensures patterns { IfSome patterns.now (λ listed. steps.new ≤ steps.old + length listed) }
        ensures regions { steps.new ≤ steps.old + length (codes_over space.now cell) }
    {
        let _ = space.dims();
        let walk = Walk {
            ids: &self.ids,
            space,
            leaves: space.cell_at(cell),
        };
        match patterns.listed() {
            Some(listed) => walk.of_patterns(listed, found, steps),
            None => walk.over(0, 0, found, steps),
        }
    }

    /// The ids at a code, ascending, none where none is held. It takes no memory.
    pub fn ids(&self, code: u64) -> &[u64]
        ensures ids { result.now ≡ ids_at self.now code }
        ensures ascending { AreAscending result.now }
    {
        at_code(&self.ids, code)
    }

    /// Makes changes of the ids ready, each a region's code and an id: the drops are taken away first, and then the puts
    /// are added. A drop that is not there changes nothing, and an id is held once at a code. What is held stays in
    /// every case.
    pub fn stage(
        &mut self,
        puts: &[(u64, u64)],
        drops: &[(u64, u64)],
    ) -> Result<RegionStage, Memory>
        ensures changes { IfOk result (λ stage. (stage.puts ≡ puts.now) × (stage.drops ≡ drops.now)) }
        ensures staged { IfOk result (IsStagedFor self.new) }
        ensures content { IsUnchanged self.old self.new }
    {
        if puts.is_empty() && drops.is_empty() {
            return Ok(nothing(self.alloc));
        }
        if puts.len() <= 1 && drops.len() <= 1 {
            return self.stage_few(only(puts), only(drops));
        }
        let codes = changed_codes(self.alloc, puts, drops)?;
        let stage = self.stage_at_codes(&codes, puts, drops)?;
        self.ids.reserve(&codes)?;
        Ok(stage)
    }

    /// The same where at most one id is put and at most one dropped, as by an edit: no list of codes or of changes is made.
    fn stage_few(
        &mut self,
        put: Option<(u64, u64)>,
        dropped: Option<(u64, u64)>,
    ) -> Result<RegionStage, Memory>
        ensures changes { IfOk result (λ stage. (stage.puts ≡ option_to_list put) × (stage.drops ≡ option_to_list dropped)) }
        ensures staged { IfOk result (IsStagedFor self.new) }
        ensures content { IsUnchanged self.old self.new }
    {
        let codes = codes_of_two(put, dropped);
        let stage = self.few_at_codes(codes.as_slice(), put, dropped)?;
        self.ids.reserve(codes.as_slice())?;
        Ok(stage)
    }

    /// These changes, with the ids that they make at the codes, which are those that they name.
    fn few_at_codes(
        &self,
        codes: &[u64],
        put: Option<(u64, u64)>,
        dropped: Option<(u64, u64)>,
    ) -> Result<RegionStage, Memory>
        requires { (code : ℕ) → is_among codes.now code ≡ names (option_to_list put ++ option_to_list dropped) code }
        ensures { IfOk result (λ stage. stage ≡ staging self.now codes.now (option_to_list put) (option_to_list dropped)) }
    {
        Ok(RegionStage {
            puts: Short::One(put),
            drops: Short::One(dropped),
            entries: self.few_entries(codes, put, dropped)?,
        })
    }

    /// The ids that these changes make at the codes.
    fn few_entries(
        &self,
        codes: &[u64],
        put: Option<(u64, u64)>,
        dropped: Option<(u64, u64)>,
    ) -> Result<Vec<(u64, Option<Ids>)>, Memory>
        ensures { IfOk result (λ entries. entries.items ≡ map (changed_entry self.now (option_to_list put) (option_to_list dropped)) codes.now) }
    {
        let mut entries = Vec::with_capacity(self.alloc, codes.len())?;
        for code in codes {
            entries.push(self.entry_of_few(*code, put, dropped)?)?;
        }
        Ok(entries)
    }

    /// A code with the ids that these changes make there.
    fn entry_of_few(
        &self,
        code: u64,
        put: Option<(u64, u64)>,
        dropped: Option<(u64, u64)>,
    ) -> Result<(u64, Option<Ids>), Memory>
        ensures { IfOk result (λ entry. entry ≡ changed_entry self.now (option_to_list put) (option_to_list dropped) code) }
    {
        let ids = self.changed_by_one(code, id_at(put, code), id_at(dropped, code))?;
        Ok((code, some_ids(ids)))
    }

    /// The ids at a code without one of them, and with one that is put, ascending.
    fn changed_by_one(
        &self,
        code: u64,
        put: Option<u64>,
        dropped: Option<u64>,
    ) -> Result<Vec<u64>, Memory>
        ensures ascending { IfOk result (λ ids. AreAscending ids.items) }
        ensures members { IfOk result (λ ids. (id : ℕ) → is_among ids.items id ≡ (is_among (option_to_list put) id || (is_among (ids_at self.now code) id && not (is_among (option_to_list dropped) id)))) }
        ensures before { AreAscending (ids_at self.now code) }
    {
        change_one(self.alloc, self.ids(code), put, dropped)
    }

    /// The changes, with the ids that they make at the codes, which are those that they name.
    fn stage_at_codes(
        &self,
        codes: &[u64],
        puts: &[(u64, u64)],
        drops: &[(u64, u64)],
    ) -> Result<RegionStage, Memory>
        requires { (code : ℕ) → is_among codes.now code ≡ names (puts.now ++ drops.now) code }
        ensures { IfOk result (λ stage. stage ≡ staging self.now codes.now puts.now drops.now) }
    {
        Ok(RegionStage {
            puts: Short::Many(copy_pairs(self.alloc, puts)?),
            drops: Short::Many(copy_pairs(self.alloc, drops)?),
            entries: self.entries(codes, puts, drops)?,
        })
    }

    /// The ids that changes make at the codes.
    fn entries(
        &self,
        codes: &[u64],
        puts: &[(u64, u64)],
        drops: &[(u64, u64)],
    ) -> Result<Vec<(u64, Option<Ids>)>, Memory>
        ensures { IfOk result (λ entries. entries.items ≡ map (changed_entry self.now puts.now drops.now) codes.now) }
    {
        let put = by_code(self.alloc, puts)?;
        let dropped = by_code(self.alloc, drops)?;
        self.entries_by(codes, &put, &dropped)
    }

    /// The same where the changes are given by their codes.
    fn entries_by(
        &self,
        codes: &[u64],
        put: &Staged<Ids>,
        dropped: &Staged<Ids>,
    ) -> Result<Vec<(u64, Option<Ids>)>, Memory>
        ensures { IfOk result (λ entries. (puts drops : List Pair) → AreByCode put.now puts → AreByCode dropped.now drops → entries.items ≡ map (changed_entry self.now puts drops) codes.now) }
    {
        let mut entries = Vec::new(self.alloc);
        for code in codes {
            entries.push(self.entry(*code, put, dropped)?)?;
        }
        Ok(entries)
    }

    /// A code with the ids that changes make there.
    fn entry(
        &self,
        code: u64,
        put: &Staged<Ids>,
        dropped: &Staged<Ids>,
    ) -> Result<(u64, Option<Ids>), Memory>
        ensures { IfOk result (λ entry. (puts drops : List Pair) → AreByCode put.now puts → AreByCode dropped.now drops → entry ≡ changed_entry self.now puts drops code) }
    {
        let ids = self.changed_at(code, at_code(put, code), at_code(dropped, code))?;
        Ok((code, some_ids(ids)))
    }

    /// The ids at a code but for those that are dropped, and with those that are put, ascending, each once.
    fn changed_at(&self, code: u64, put: &[u64], dropped: &[u64]) -> Result<Vec<u64>, Memory>
        ensures ascending { IfOk result (λ ids. AreAscending ids.items) }
        ensures members { IfOk result (λ ids. (id : ℕ) → is_among ids.items id ≡ (is_among put.now id || (is_among (ids_at self.now code) id && not (is_among dropped.now id)))) }
        ensures before { AreAscending (ids_at self.now code) }
    {
        let dropped = ascending_copy(self.alloc, dropped)?;
        change_ids(self.alloc, at_code(&self.ids, code), put, &dropped)
    }

    /// Carries out the changes. What is held is what they were staged for, and a code that they name has no place where
    /// no id is left. It takes no memory.
    pub fn install(&mut self, stage: RegionStage)
        requires { IsStagedFor self.old stage }
        ensures applies { Applies self.old self.new stage.puts stage.drops }
        ensures places { HavePlacesForIds self.new (stage.puts ++ stage.drops) }
    {
        let RegionStage {
            puts: _puts,
            drops: _drops,
            entries,
        } = stage;
        self.ids.put_all(entries);
    }
}

/// The one pair that there may be.
fn only(pairs: &[(u64, u64)]) -> Option<(u64, u64)>
    requires { length pairs.now ≤ 1 }
    ensures { option_to_list result ≡ pairs.now }
{
    pairs.first().copied()
}

/// The id of the pair that there may be, where it is of a code.
fn id_at(pair: Option<(u64, u64)>, code: u64) -> Option<u64>
    ensures { option_to_list result ≡ map (λ pair. pair.1) (filter (λ pair. pair.0 == code) (option_to_list pair)) }
{
    match pair {
        Some((at, id)) if at == code => Some(id),
        _ => None,
    }
}

/// What is staged for no changes. It takes no memory.
fn nothing(alloc: Global) -> RegionStage
    ensures { result ≡ record { puts = []; drops = []; entries = [] } }
{
    RegionStage {
        puts: Short::One(None),
        drops: Short::One(None),
        entries: Vec::new(alloc),
    }
}

/// The ids, where there are some: a code without ids takes no room.
fn some_ids(ids: Vec<u64>) -> Option<Ids>
    ensures { result ≡ some_ids ids.items }
{
    if ids.is_empty() {
        None
    } else {
        Some(Ids::from(ids))
    }
}
