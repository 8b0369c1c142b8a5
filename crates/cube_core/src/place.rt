//! A fact with its allocation, as worlds are made of it.
ghost use Rattle.std.specs.Prelude.{◌≡◌, IfOk};
ghost use Rattle.alloc_rows.specs.Alloc.{IsAllocation};

use alloc_rows::Alloc;
use cube_base::{Memory, Pairs, PlainList};
use cube_model::Fact;
use std::alloc::Global;
use world_law::Placed;

/// Facts with their allocations, without their ids.
pub type PlacedList = PlainList<Placed>;

/// A fact's values with its allocation, in memory of their own.
pub fn place(alloc: Global, fact: &Fact, a: &Alloc) -> Result<Placed, Memory>
    ensures placed { IfOk result (λ placed. placed ≡ record { den = a.now.den; rows = a.now.rows; cols = fact.now.cols }) }
    ensures allocation { IfOk result (λ placed. IsAllocation (record { den = placed.den; rows = placed.rows })) }
{
    Ok(Placed {
        den: a.den(),
        rows: Pairs::from(a.rows().to_vec(alloc)?),
        cols: fact.cols,
    })
}
