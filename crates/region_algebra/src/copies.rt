//! Equal dimensions.
ghost use Rattle.std.specs.Prelude.{◌≡◌, IfOk};

use cube_base::Memory;
use dim_tree::Dim;
use std::alloc::Global;

/// Dimensions equal to these, in order.
pub fn copies_of(alloc: Global, dims: &[Dim]) -> Result<Vec<Dim>, Memory>
    ensures { IfOk result (λ copies. copies.items ≡ dims.now) }
{
    let mut copies = Vec::with_capacity(alloc, dims.len())?;
    for dim in dims {
        copies.push(dim.copy()?)?;
    }
    Ok(copies)
}
