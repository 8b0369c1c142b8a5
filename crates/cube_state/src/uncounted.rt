//! A look at one fact's allocation whose step is not counted.
ghost use Rattle.std.specs.Prelude.{◌≡◌, ◌<◌, IfSome};
ghost use Rattle.std.specs.Option.{option_copied};
ghost use Rattle.cube_model.specs.Allocation.{allocation_of};
ghost use Rattle.cube_model.specs.Cells.{AreRows};
ghost use Rattle.cube_state.specs.State.{rows_in};

use crate::State;
use alloc_rows::Alloc;
use cell_weight::WeightPolicy;
use region_index::Steps;
use std::sync::ledger::{Blank, Ledger};

/// The allocation of the fact of an id, by a ledger of its own: no caller counts the step. None exactly where there is no such fact. It
/// takes no memory.
pub fn look_up<L: Ledger, P: WeightPolicy + Drop>(
    state: &State<P>,
    id: u64,
    blank: Blank,
) -> Option<&Alloc>
    requires name { blank.name ≡ L.name }
    requires parts { blank.parts ≡ L.parts }
    requires some { 0 < L.parts }
    ensures rows { option_copied result ≡ allocation_of id (rows_in P.weigh state.now) }
    ensures cells { IfSome (option_copied result) (λ a. AreRows state.now.dims a.rows) }
{
    let mut steps = Steps::<L>::new(blank);
    state.lookup(id, &mut steps)
}
