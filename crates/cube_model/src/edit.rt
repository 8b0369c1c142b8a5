//! Facts, and what may be done to a list of them.
use crate::Region;
use cube_base::Cols;

/// A fact: what is known of one event.
#[derive(Clone, Copy, Debug)]
pub struct Fact {
    /// Its number, from 1 to 2^63 - 1, which no other fact has.
    pub id: u64,
    /// Where it lies: somewhere in this region.
    pub region: Region,
    /// Its values, in the user's unit, without the count.
    pub cols: Cols,
}

/// What a line of a script does to the facts.
#[derive(Clone, Copy, Debug)]
pub enum Edit {
    /// A new fact.
    Put(Fact),
    /// A fact in the place of the one with its id.
    Change(Fact),
    /// The fact of this id goes.
    Withdraw(u64),
}
