//! Doing an edit on a cube that keeps nothing.
ghost use Rattle.std.specs.Prelude.{◌≡◌, ◌<◌, ◌≤◌, IfOk, IfSome, OnOk};
ghost use Rattle.cube_model.specs.Allocation.{weigh_count};
ghost use Rattle.cube_model.specs.Limits.{MAX_FACTS};
ghost use Rattle.fact_records.specs.Valid.{IsEditOver};
ghost use Rattle.drill_run.specs.Doing.{cube_after, size_refreshed};

use cell_weight::ByCount;
use cube_base::Memory;
use cube_core::{Cube, EditFault};
use cube_model::Edit;
use fact_keeper::NoKeeper;
use region_index::Steps;
use std::sync::ledger::{Blank, Ledger};

/// Does an edit, and gives the number of the facts that it refreshed: none where it is refused. Its steps are counted in a ledger
/// of their own. The only error is running out of memory.
pub fn edit_cube<L: Ledger>(
    cube: &mut Cube<ByCount>,
    edit: &Edit,
    blank: Blank,
) -> Result<Option<u64>, Memory>
    requires over { IsEditOver cube.old.schema.dims edit.now }
    requires name { blank.name ≡ L.name }
    requires parts { blank.parts ≡ L.parts }
    requires some { 0 < L.parts }
    ensures refreshed { IfOk result (λ count. count ≡ size_refreshed (λ _. weigh_count) cube.old edit.now) }
    ensures cube { OnOk result (cube.new ≡ cube_after (λ _. weigh_count) cube.old edit.now) }
    ensures schema { cube.new.schema ≡ cube.old.schema }
    ensures few { IfOk result (λ count. IfSome count (λ size. size ≤ MAX_FACTS)) }
{
    let mut steps = Steps::<L>::new(blank);
    match cube.edit_and_count(edit, &mut NoKeeper::new(), &mut steps) {
        Ok(refreshed) => {
            let _ = cube.facts();
            Ok(Some(refreshed))
        }
        Err(EditFault::Code(_) | EditFault::Rows { .. }) => Ok(None),
        Err(EditFault::KeepFault) => unreachable!(),
        Err(EditFault::Memory) => Err(Memory),
    }
}
