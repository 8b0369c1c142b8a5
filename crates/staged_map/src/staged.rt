//! A map from numbers in which keys can have a place before they have a value.
ghost use Rattle.std.specs.Prelude.{◌≡◌, ◌∷◌, ◌++◌, [], ◌<◌, ◌≤◌, ◌+◌, ◌==◌, ℕ, true, false, length, map, filter, take, slice_get, is_some, nat_eq, option_and_then, option_to_list, All, IfSome, IfOk, Some, IsOk, OnOk, OnErr};
ghost use Rattle.std.specs.List.{IsDistinct};
ghost use Rattle.std.specs.Map.{keys_of, lookup};
ghost use Rattle.std.specs.Borrow.{sem};
ghost use Rattle.std.specs.Vec.{vec_capacity, vec_len};
ghost use Rattle.std.specs.Option.{option_copied, option_copied_mut, option_map};
ghost use Rattle.staged_map.specs.Hints.{AreNoted};
ghost use Rattle.staged_map.specs.Lends.{lends_value};
ghost use Rattle.staged_map.specs.Staged.{AreKeys, AreOfDifferentKeys, PutsAll, Removes, Reserves, ReservesSome, Sets, has_place, have_places, held, held_of, held_copied, key_of_place, place_of, staged_entry, value_at};

use crate::hints::{Hints, place_in};
use cube_base::{Ids, Memory};
use indexmap::IndexMap;
use std::alloc::{AllocError, Global};
use std::marker::Model;

/// A finite map from u64 in which a key may have a place before it has a value: an entry of the map beneath that holds
/// None. Contracts see the places with their values.
#[derive(Drop)]
pub struct Staged<V> {
    places: IndexMap<u64, Option<V>>,
    /// Where a key is looked for first.
    hints: Hints,
}

impl<V> Model for Staged<V> {
    ghost use Rattle.staged_map.specs.Staged.{Places};
    ghost use Rattle.staged_map.specs.Hints.{AreNoted};

    ghost Value = { Places V };

    ghost view = { λ s. s.places.entries };

    ghost invariant = { λ s. AreNoted s.hints s.places.entries };
}

impl<V: Drop> Staged<V> {
    /// No key has a place. It takes no memory.
    pub fn new(alloc: Global) -> Self
        ensures { result ≡ [] }
    {
        Staged {
            places: IndexMap::new(alloc),
            hints: Hints::new(alloc),
        }
    }

    /// The number of a key's place. It is searched for by hash only where its slot has another key's place.
    fn find(&self, key: u64) -> Option<usize>
        ensures found { is_some result ≡ has_place self.now key }
        ensures place { IfSome result (λ i. slice_get self.now i ≡ place_of self.now key) }
    {
        let mark = self.hints.noted(key).unwrap_or(1);
        if mark == 0 {
            return None;
        }
        let hint = place_in(mark);
        match self.places.get_index(hint) {
            Some((hinted, _)) if *hinted == key => Some(hint),
            _ => self.search(key),
        }
    }

    /// The same, and notes the place.
    fn find_noted(&mut self, key: u64) -> Option<usize>
        ensures same { self.new ≡ self.old }
        ensures found { is_some result ≡ has_place self.old key }
        ensures place { IfSome result (λ i. slice_get self.old i ≡ place_of self.old key) }
    {
        let i = self.find(key)?;
        self.hints.note(key, i);
        Some(i)
    }

    /// The same by hash, without a note.
    fn search(&self, key: u64) -> Option<usize>
        ensures found { is_some result ≡ has_place self.now key }
        ensures place { IfSome result (λ i. slice_get self.now i ≡ place_of self.now key) }
    {
        let (i, _, _) = self.places.get_full(&key)?;
        Some(i)
    }

    /// The value at a key. It takes no memory.
    pub fn get(&self, key: u64) -> Option<&V>
        ensures { option_copied result ≡ value_at self.now key }
    {
        let i = self.find(key)?;
        self.places.get_index(i)?.1.as_ref()
    }

    /// The value at a key, to be changed in place. It takes no memory.
    pub fn get_mut(&mut self, key: u64) -> Option<&mut V>
        ensures* lends { sem 𝓛 (lends_value V.row self.entry key result) }
        ensures value { option_copied_mut result ≡ value_at self.old key }
    {
        let i = self.find_noted(key)?;
        self.places.get_index_mut(i)?.as_mut()
    }

    /// How many keys have a place, with a value or without. It takes no memory.
    pub fn count(&self) -> usize
        ensures count { result ≡ length self.now }
        ensures distinct { IsDistinct nat_eq (keys_of self.now) }
        ensures once { IsDistinct nat_eq (keys_of (held self.now)) }
        ensures each { (key : ℕ) → lookup (λ k. key == k) (held self.now) ≡ value_at self.now key }
    {
        self.places.len()
    }

    /// The key and the value of a place, None where it has no value. Places are numbered from 0 to below `count`, and a
    /// walk over all of them meets each key that has a value once: what it met by place `i` is `held (take i self.now)`.
    /// It takes no memory.
    pub fn at(&self, i: usize) -> Option<(u64, &V)>
        requires { i < length self.now }
        ensures entry { held_copied result ≡ option_and_then held_of (slice_get self.now i) }
        ensures next { held (take (i + 1) self.now) ≡ held (take i self.now) ++ option_to_list (held_copied result) }
    {
        let (key, value) = self.places.get_index(i)?;
        Some((*key, value.as_ref()?))
    }

    /// Gives a key that has a place a value, and hands back the one that it had. It takes no memory.
    pub fn set(&mut self, key: u64, value: V) -> Option<V>
        requires { has_place self.old key ≡ true }
        ensures had { result ≡ value_at self.old key }
        ensures sets { Sets self.old self.new key value }
    {
        let i = self.find_noted(key).unwrap();
        self.set_at(i, value)
    }

    /// Gives the key of a place a value, and hands back the one that it had. It takes no memory.
    pub fn set_at(&mut self, i: usize, value: V) -> Option<V>
        requires { i < length self.old }
        ensures had { result ≡ value_at self.old (key_of_place self.old i) }
        ensures sets { Sets self.old self.new (key_of_place self.old i) value }
        ensures keys { keys_of self.new ≡ keys_of self.old }
    {
        self.places.get_index_mut(i).unwrap().replace(value)
    }

    /// Takes a key's value and its place away, and hands back the value. It takes no memory.
    pub fn remove(&mut self, key: u64) -> Option<V>
        ensures had { result ≡ value_at self.old key }
        ensures removes { Removes self.old self.new key }
    {
        let (i, _, removed) = self.places.swap_remove_full(&key)?;
        if let Some((moved, _)) = self.places.get_index(i) {
            self.hints.note(*moved, i);
        }
        removed
    }

    /// Gives each key of the entries its value, or takes its place away where the entry has none. All other keys keep what
    /// they have. The keys differ from one another, and each that gets a value has a place, as `reserve` gives them. It
    /// takes no memory.
    pub fn put_all(&mut self, mut entries: Vec<(u64, Option<V>)>)
        requires distinct { AreOfDifferentKeys entries.items }
        requires placed { have_places self.old entries.items ≡ true }
        ensures { PutsAll self.old self.new entries.items }
    {
        while let Some((key, value)) = entries.pop() {
            self.put(key, value);
        }
    }

    /// Gives a key that has a place a value, or takes its place away.
    fn put(&mut self, key: u64, value: Option<V>)
        requires { have_places self.old ((key, value) ∷ []) ≡ true }
        ensures { PutsAll self.old self.new ((key, value) ∷ []) }
    {
        match value {
            Some(value) => {
                let _ = self.set(key, value);
            }
            None => {
                let _ = self.remove(key);
            }
        }
    }

    /// Gives each of the keys a place. On an error some of them may have got one. It takes no memory where each has a
    /// place already.
    pub fn reserve(&mut self, keys: &[u64]) -> Result<(), Memory>
        ensures ok { OnOk result (Reserves self.old self.new keys.now) }
        ensures err { OnErr result (ReservesSome self.old self.new keys.now) }
        ensures placed { All (λ key. has_place self.old key ≡ true) keys.now → IsOk result }
    {
        for key in keys {
            self.give_place(*key)?;
        }
        Ok(())
    }

    /// Gives each key of the entries a place, as `reserve` does.
    pub fn reserve_for(&mut self, entries: &[(u64, Option<V>)]) -> Result<(), Memory>
        ensures ok { OnOk result (Reserves self.old self.new (keys_of entries.now)) }
        ensures err { OnErr result (ReservesSome self.old self.new (keys_of entries.now)) }
        ensures placed { All (λ key. has_place self.old key ≡ true) (keys_of entries.now) → IsOk result }
    {
        for (key, _) in entries {
            self.give_place(*key)?;
        }
        Ok(())
    }

    /// Gives a key a place. On an error it has none.
    fn give_place(&mut self, key: u64) -> Result<(), Memory>
        ensures ok { OnOk result (Reserves self.old self.new (key ∷ [])) }
        ensures err { OnErr result (self.new ≡ self.old) }
        ensures absent { OnErr result (has_place self.old key ≡ false) }
    {
        match self.find_noted(key) {
            Some(_) => Ok(()),
            None => self.add_place(key),
        }
    }

    /// The same of a key that has none.
    fn add_place(&mut self, key: u64) -> Result<(), Memory>
        requires { has_place self.old key ≡ false }
        ensures ok { OnOk result (Reserves self.old self.new (key ∷ [])) }
        ensures err { OnErr result (self.new ≡ self.old) }
    {
        self.widen_hints();
        self.hints.note(key, self.places.len());
        self.places.insert_full(key, None)?;
        Ok(())
    }

    /// Where there are few slots for one place more, makes more and notes each key's place in them. Without memory for them all stays.
    fn widen_hints(&mut self)
        ensures { self.new ≡ self.old }
    {
        if !self.hints.are_few_for(self.places.len()) {
            return;
        }
        if let Ok(mut hints) = self.hints.wider(*self.places.allocator()) {
            note_all(&self.places, &mut hints);
            self.hints = hints;
        }
    }

    /// The keys that have a value, ascending.
    pub fn keys(&self) -> Result<Ids, Memory>
        ensures { IfOk result (AreKeys self.now) }
    {
        let mut keys = self.keys_in_any_order()?;
        keys.sort_unstable();
        Ok(Ids::from(keys))
    }

    /// Moves the values out, each with its key, from the last place to the first. No key has a place afterwards, and the
    /// room stays. On an error all are still there.
    pub fn take_entries(&mut self) -> Result<Vec<(u64, Option<V>)>, Memory>
        ensures each { IfOk result (λ entries. (key : ℕ) → staged_entry entries.items key ≡ option_map Some (value_at self.old key)) }
        ensures distinct { IfOk result (λ entries. AreOfDifferentKeys entries.items) }
        ensures none { OnOk result (self.new ≡ []) }
        ensures same { OnErr result (self.new ≡ self.old) }
    {
        let count = self.places.len();
        let mut entries = Vec::with_capacity(*self.places.allocator(), count)?;
        while let Some((key, value)) = self.places.pop() {
            self.hints.forget(key);
            push_held(&mut entries, key, value);
        }
        Ok(entries)
    }

    /// Takes all places away. The room stays.
    pub fn clear(&mut self)
        ensures { self.new ≡ [] }
    {
        self.places.clear();
    }

    /// The keys that have a value.
    fn keys_in_any_order(&self) -> Result<Vec<u64>, AllocError>
        ensures keys { IfOk result (λ keys. keys.items ≡ map (λ place. place.0) (filter (λ place. is_some place.1) self.now)) }
        ensures places_of_different_keys { IsDistinct nat_eq (keys_of self.now) }
    {
        self.places
            .iter()
            .filter(|(_, value)| value.is_some())
            .map(|(key, _)| *key)
            .collect(*self.places.allocator())
    }
}

/// Notes the place of each key.
fn note_all<V>(places: &IndexMap<u64, Option<V>>, hints: &mut Hints)
    ensures { AreNoted hints.new places.now.entries }
{
    for i in 0..places.len() {
        let (key, _) = places.get_index(i).unwrap();
        hints.note(*key, i);
    }
}

/// Appends the entry of a place, where it has a value. There is room for it.
fn push_held<V: Drop>(entries: &mut Vec<(u64, Option<V>)>, key: u64, value: Option<V>)
    requires room { vec_len entries.old < vec_capacity entries.old }
    ensures items { entries.new.items ≡ entries.old.items ++ filter (λ place. is_some place.1) ((key, value) ∷ []) }
    ensures len { vec_len entries.new ≤ vec_len entries.old + 1 }
    ensures capacity { vec_capacity entries.old ≤ vec_capacity entries.new }
{
    if value.is_some() {
        let _ = entries.push((key, value));
    }
}
