//! Where keys were found last, by their last bits.
ghost use Rattle.std.specs.Prelude.{◌≡◌, ◌≤◌, ◌<◌, ℕ, true, length, slice_get, IfOk};
ghost use Rattle.staged_map.specs.Hints.{KeepsNotes, may_have, slot_of};

use std::alloc::{AllocError, Global};
use std::marker::Model;

/// How many slots there are at first, and how many times as many there are then.
const FIRST_SLOTS: usize = 16;

const WIDENING: usize = 4;

/// For keys the numbers of the places where they were found or made last, in slots by the last bits of the key. Two keys
/// can share a slot, and a place may be another key's by now: so who asks compares the key. Where a slot is empty no key
/// of it was noted. Contracts see what the slots hold: 0 for an empty one, else a number above 0.
#[derive(Drop)]
pub(crate) struct Hints {
    slots: Vec<u32>,
}

impl Model for Hints {
    ghost use Rattle.std.specs.Prelude.{ℕ, List};

    ghost Value = { List ℕ };

    ghost view = { λ h. h.slots.items };
}

impl Hints {
    /// There is no slot. It takes no memory.
    pub(crate) fn new(alloc: Global) -> Self {
        Hints {
            slots: Vec::new(alloc),
        }
    }

    /// What a key's slot holds: None where there are no slots.
    pub(crate) fn noted(&self, key: u64) -> Option<u32>
        ensures { result ≡ slice_get self.now (slot_of self.now key) }
    {
        self.slots.get(self.slot(key)).copied()
    }

    /// Notes a key's place.
    pub(crate) fn note(&mut self, key: u64, place: usize)
        ensures keeps { KeepsNotes self.old self.new }
        ensures noted { may_have self.new key ≡ true }
    {
        let slot = self.slot(key);
        if slot < self.slots.len() {
            self.slots[slot] = mark_of(place);
        }
    }

    /// Empties a key's slot.
    pub(crate) fn forget(&mut self, key: u64) {
        let slot = self.slot(key);
        if slot < self.slots.len() {
            self.slots[slot] = 0;
        }
    }

    /// Whether there should be more slots for so many places.
    pub(crate) fn are_few_for(&self, places: usize) -> bool {
        self.slots.len() / 2 < places
    }

    /// Several times as many slots, all empty.
    pub(crate) fn wider(&self, alloc: Global) -> Result<Self, AllocError> {
        let count = self.slots.len().saturating_mul(WIDENING).max(FIRST_SLOTS);
        Ok(Hints {
            slots: Vec::from_elem(alloc, 0, count)?,
        })
    }

    /// The slot of a key. Their number is a power of two, or 0.
    fn slot(&self, key: u64) -> usize
        ensures { result ≡ slot_of self.now key }
    {
        key as usize & self.slots.len().saturating_sub(1)
    }
}

/// What is noted for a place: a number above 0, of which `place_in` makes the place again, or another where that is large.
fn mark_of(place: usize) -> u32
    ensures { 1 ≤ result }
{
    match u32::try_from(place) {
        Ok(place) if place < u32::MAX => place + 1,
        _ => u32::MAX,
    }
}

/// The place that was noted so.
pub(crate) fn place_in(mark: u32) -> usize {
    (mark as usize).saturating_sub(1)
}
