//! Judging facts one after another.
ghost use Rattle.std.specs.Prelude.{◌≡◌, ◌≤◌, All, None, IfOk, length};
ghost use Rattle.fact_records.specs.New.{AreNew};
ghost use Rattle.fact_records.specs.Valid.{IsPlaced};
ghost use Rattle.fact_records.specs.RefusedRecord.{refused_among, refused_in};

use crate::list_copies::copy_with_room;
use crate::{BadRecord, FactList, FactSeq, Shape, judge_fact};
use cube_base::Memory;
use cube_model::{Edit, Fact};
use region_algebra::Space;
use std::alloc::Global;

/// The first record of a file that is refused, if its facts are put one after another over the facts that there are: the
/// first fact whose put is refused over these and those before it, by the first that holds of `Value`, `Parts`, `Exists`,
/// `Region`, `Facts`, the number of rows aside; where none is, the record that could not be read, if there is one. Each
/// fact must have an id from 1 to 2^63 - 1 and a region of the space. The facts stay as they are. The only error is running out of
/// memory.
pub fn judge_seq(
    alloc: Global,
    shape: &Shape,
    space: &Space,
    facts: &FactList,
    seq: &FactSeq,
) -> Result<Option<BadRecord>, Memory>
    requires { All (IsPlaced space.now) seq.now.facts }
    ensures refused { IfOk result (λ bad. bad ≡ refused_in shape.now space.now facts.now.facts seq.now) }
    ensures new { IfOk result (λ bad. bad ≡ None → AreNew shape.now space.now facts.now.facts seq.now.facts) }
{
    let new = seq.facts.as_slice();
    let mut all = copy_with_room(alloc, facts, new.len() as u64)?;
    Ok(judge_new(shape, space, &mut all, new).or(seq.bad))
}

/// Puts facts one after another, up to the first whose put is refused, which is answered with its place from 1.
fn judge_new(shape: &Shape, space: &Space, all: &mut FactList, new: &[Fact]) -> Option<BadRecord>
    requires placed { All (IsPlaced space.now) new.now }
    requires room { length new.now ≤ all.old.spare }
    ensures refused { result ≡ refused_among shape.now space.now 1 all.old.facts new.now }
    ensures new { result ≡ None → AreNew shape.now space.now all.old.facts new.now }
{
    for (place, fact) in new.iter().enumerate() {
        if let Err(code) = judge_fact(shape, space, &Edit::Put(*fact), all) {
            let index = place as u64 + 1;
            return Some(BadRecord { index, code });
        }
        let _ = all.put(*fact);
    }
    None
}
