//! A batch applied to a content in place: room is made first, so that nothing fails once something changed.
ghost use Rattle.std.specs.Prelude.{◌≡◌, ◌==◌, ◌+◌, ◌<◌, ◌≤◌, IfOk, IsTrue, OnErr, OnOk, filter, insert, length, nat_lt, not, position, vec_capacity, vec_len};
ghost use Rattle.std.specs.List.{list_any, position_or_len};
ghost use Rattle.fact_keeper.specs.Batch.{apply_batch, put, updated, without};
ghost use Rattle.fact_keeper.specs.Order.{AscendsBy};

use crate::entry::Entry;
use crate::order::search;
use crate::{Batch, Stored};
use cube_base::{Memory, PlainList};
use std::alloc::Global;
use std::mem;

impl Stored {
    ghost use Rattle.fact_keeper.specs.Order.{IsInOrder};

    /// Applies a copy of a batch. Its schema replaces the schema, and facts and rows of deleted ids are dropped. Then
    /// each fact and each entry of rows takes the place of those of its id, before the first of a greater id. An error
    /// leaves the content as it was. Where its entries are known to be in order, they are so afterwards, and each place
    /// is found by search.
    pub(crate) fn apply(
        &mut self,
        alloc: Global,
        batch: &Batch,
        is_in_order: bool,
    ) -> Result<(), Memory>
        requires { IsTrue is_in_order → IsInOrder self.old }
        ensures ok { OnOk result (self.new ≡ apply_batch batch.now self.old) }
        ensures order { IsTrue is_in_order → IsInOrder self.new }
        ensures err { OnErr result (self.new ≡ self.old) }
    {
        let copy = batch.copy(alloc)?;
        self.take_in(alloc, copy, is_in_order)
    }

    /// Applies a batch, which goes into the content.
    fn take_in(&mut self, alloc: Global, batch: Batch, is_in_order: bool) -> Result<(), Memory>
        requires { IsTrue is_in_order → IsInOrder self.old }
        ensures ok { OnOk result (self.new ≡ apply_batch batch self.old) }
        ensures order { IsTrue is_in_order → IsInOrder self.new }
        ensures err { OnErr result (self.new ≡ self.old) }
    {
        let Batch {
            schema,
            gone,
            facts,
            rows,
        } = batch;
        let old_facts = take_with_room(alloc, &mut self.facts, facts.as_slice().len())?;
        match take_with_room(alloc, &mut self.rows, rows.as_slice().len()) {
            Ok(old_rows) => {
                self.facts = update(old_facts, gone.as_slice(), facts.into_vec(), is_in_order);
                self.rows = update(old_rows, gone.as_slice(), rows.into_vec(), is_in_order);
                if let Some(text) = schema {
                    self.schema = text;
                }
                Ok(())
            }
            Err(error) => {
                self.facts = old_facts.into();
                Err(error)
            }
        }
    }
}

/// Takes the entries out of a list, with room for so many more. An error leaves them there.
fn take_with_room<T: Drop>(
    alloc: Global,
    list: &mut PlainList<T>,
    more: usize,
) -> Result<Vec<T>, Memory>
    ensures taken { IfOk result (λ entries. entries.items ≡ list.old) }
    ensures room { IfOk result (λ entries. vec_len entries + more ≤ vec_capacity entries) }
    ensures err { OnErr result (list.new ≡ list.old) }
{
    let mut entries = mem::replace(list, PlainList::new(alloc)).into_vec();
    match entries.reserve(more) {
        Ok(()) => Ok(entries),
        Err(_) => {
            *list = entries.into();
            Err(Memory)
        }
    }
}

/// The entries without those of deleted ids, and with each new one put in turn. Where they ascend, they do so
/// afterwards.
fn update<T: Entry>(mut entries: Vec<T>, gone: &[u64], new: Vec<T>, ascend: bool) -> PlainList<T>
    requires room { vec_len entries + length new.items ≤ vec_capacity entries }
    requires order { IsTrue ascend → AscendsBy T.id_of entries.items }
    ensures entries { result ≡ updated T.id_of gone.now new.items entries.items }
    ensures order { IsTrue ascend → AscendsBy T.id_of result }
{
    drop_gone(&mut entries, gone);
    'new: for entry in new {
        put(&mut entries, entry, ascend);
    }
    entries.into()
}

/// Drops the entries of deleted ids.
fn drop_gone<T: Entry>(entries: &mut Vec<T>, gone: &[u64])
    ensures items { entries.new.items ≡ without T.id_of gone.now entries.old.items }
    ensures len { vec_len entries.new ≤ vec_len entries.old }
    ensures capacity { vec_capacity entries.old ≤ vec_capacity entries.new }
{
    if gone.is_empty() {
        return;
    }
    entries.retain(|e| !is_among(e, gone));
}

/// Puts an entry in the place of those of its id, where there is room for one more.
fn put<T: Entry>(entries: &mut Vec<T>, entry: T, ascend: bool)
    requires room { vec_len entries.old < vec_capacity entries.old }
    requires order { IsTrue ascend → AscendsBy T.id_of entries.old.items }
    ensures items { entries.new.items ≡ put T.id_of entries.old.items entry }
    ensures len { vec_len entries.new ≤ vec_len entries.old + 1 }
    ensures capacity { vec_capacity entries.old ≤ vec_capacity entries.new }
{
    if ascend {
        put_by_search(entries, entry);
    } else {
        put_by_walk(entries, entry);
    }
}

/// The same among entries that ascend.
fn put_by_search<T: Entry>(entries: &mut Vec<T>, entry: T)
    requires room { vec_len entries.old < vec_capacity entries.old }
    requires order { AscendsBy T.id_of entries.old.items }
    ensures items { entries.new.items ≡ put T.id_of entries.old.items entry }
    ensures len { vec_len entries.new ≤ vec_len entries.old + 1 }
    ensures capacity { vec_capacity entries.old ≤ vec_capacity entries.new }
{
    match search(entries, &entry) {
        Ok(place) => entries[place] = entry,
        Err(place) => insert(entries, place, entry),
    }
}

/// The same among entries in any order.
fn put_by_walk<T: Entry>(entries: &mut Vec<T>, entry: T)
    requires { vec_len entries.old < vec_capacity entries.old }
    ensures items { entries.new.items ≡ put T.id_of entries.old.items entry }
    ensures len { vec_len entries.new ≤ vec_len entries.old + 1 }
    ensures capacity { vec_capacity entries.old ≤ vec_capacity entries.new }
{
    let id = entry.id();
    drop_same(entries, id);
    let place = place_for(entries, id);
    insert(entries, place, entry);
}

/// Drops the entries of an id.
fn drop_same<T: Entry>(entries: &mut Vec<T>, id: u64)
    ensures items { entries.new.items ≡ filter (λ e. not (T.id_of e == id)) entries.old.items }
    ensures len { vec_len entries.new ≤ vec_len entries.old }
    ensures capacity { vec_capacity entries.old ≤ vec_capacity entries.new }
{
    entries.retain(|e| !has_id(e, id));
}

/// The place of the first entry of a greater id, or after the last.
fn place_for<T: Entry>(entries: &[T], id: u64) -> usize
    ensures place { result ≡ position_or_len (λ e. nat_lt id (T.id_of e)) entries.now }
    ensures within { result ≤ length entries.now }
{
    first_above(entries, id).unwrap_or(entries.len())
}

/// The place of the first entry of a greater id.
fn first_above<T: Entry>(entries: &[T], id: u64) -> Option<usize>
    ensures { result ≡ position (λ e. nat_lt id (T.id_of e)) entries.now }
{
    entries.iter().position(|e| is_above(e, id))
}

/// Puts an entry at a place, where there is room for one more.
fn insert<T: Drop>(entries: &mut Vec<T>, place: usize, entry: T)
    requires within { place ≤ vec_len entries.old }
    requires room { vec_len entries.old < vec_capacity entries.old }
    ensures items { entries.new.items ≡ insert entries.old.items place entry }
    ensures len { vec_len entries.new ≡ vec_len entries.old + 1 }
    ensures capacity { vec_capacity entries.old ≤ vec_capacity entries.new }
{
    let _ = entries.insert(place, entry);
}

/// Whether the id of an entry is one of these.
fn is_among<T: Entry>(entry: &T, ids: &[u64]) -> bool
    ensures { result ≡ list_any (λ n. n == T.id_of entry.now) ids.now }
{
    ids.contains(&entry.id())
}

/// Whether an entry has the id.
fn has_id<T: Entry>(entry: &T, id: u64) -> bool
    ensures { result ≡ (T.id_of entry.now == id) }
{
    entry.id() == id
}

/// Whether an entry has a greater id.
fn is_above<T: Entry>(entry: &T, id: u64) -> bool
    ensures { result ≡ nat_lt id (T.id_of entry.now) }
{
    entry.id() > id
}
