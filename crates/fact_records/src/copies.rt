//! Equal measures in memory of their own.
ghost use Rattle.std.specs.Prelude.{◌≡◌, IfOk};

use crate::{Kind, Measure};
use cube_base::{Memory, Names};
use std::alloc::Global;

/// Equal names, in order.
fn copy_names(alloc: Global, names: &Names) -> Result<Names, Memory>
    ensures { IfOk result (λ copies. copies ≡ names.now) }
{
    let mut copies = Names::new(alloc);
    for name in names.as_slice() {
        copies.push(name.copy()?)?;
    }
    Ok(copies)
}

/// An equal kind.
fn copy_kind(alloc: Global, kind: &Kind) -> Result<Kind, Memory>
    ensures { IfOk result (λ copy. copy ≡ kind.now) }
{
    match kind {
        Kind::Number => Ok(Kind::Number),
        Kind::Parts { scale, outcomes } => Ok(Kind::Parts {
            scale: *scale,
            outcomes: copy_names(alloc, outcomes)?,
        }),
    }
}

/// An equal measure.
fn copy_measure(alloc: Global, measure: &Measure) -> Result<Measure, Memory>
    ensures { IfOk result (λ copy. copy ≡ measure.now) }
{
    Ok(Measure {
        name: measure.name.copy()?,
        kind: copy_kind(alloc, &measure.kind)?,
        first_col: measure.first_col,
    })
}

/// Equal measures, in order.
pub fn copy_measures(alloc: Global, measures: &[Measure]) -> Result<Vec<Measure>, Memory>
    ensures { IfOk result (λ copies. copies.items ≡ measures.now) }
{
    let mut copies = Vec::with_capacity(alloc, measures.len())?;
    for measure in measures {
        copies.push(copy_measure(alloc, measure)?)?;
    }
    Ok(copies)
}
