//! The facts whose rows an edit or a growth puts anew.
ghost use Rattle.std.specs.Prelude.{◌≡◌, ◌++◌, ◌∷◌, [], OnOk};

use alloc_rows::Alloc;
use cube_base::{Ids, Memory};
use fact_keeper::{KeptRows, KeptRowsList};

/// Of facts that are new or whose allocation changed, the ids and the rows.
#[derive(Drop)]
pub struct Refreshed {
    /// The ids, in the order in which the facts were held.
    pub ids: Ids,
    /// Their rows, in the same order.
    pub rows: KeptRowsList,
}

impl Refreshed {
    /// Holds a fact more, which is spread so. No row is copied. On an error the id may have been held without its rows.
    pub fn hold(&mut self, id: u64, spread: &Alloc) -> Result<(), Memory>
        ensures ids { OnOk result (self.new.ids ≡ self.old.ids ++ id ∷ []) }
        ensures rows { OnOk result (self.new.rows ≡ self.old.rows ++ record { id = id; den = spread.now.den; rows = spread.now.rows } ∷ []) }
    {
        self.ids.push(id)?;
        self.rows.push(KeptRows {
            id,
            den: spread.den(),
            rows: spread.shared_rows()?,
        })
    }
}
