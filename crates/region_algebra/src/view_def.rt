//! A view of a space: where it cuts the dimensions.
ghost use Rattle.std.specs.Prelude.{◌≡◌, IfOk};

use cube_base::{Memory, Name, PlainList};
use std::alloc::Global;

/// A depth for each dimension, in schema order.
pub type Depths = PlainList<u8>;

/// Views, in schema order.
pub type ViewDefs = PlainList<ViewDef>;

/// A view by its name, with the depth at which it cuts each dimension: of a dimension it has the nodes of that depth and
/// the leaves that lie less deep.
#[derive(Debug, Drop)]
pub struct ViewDef {
    /// Its name, by which scripts ask for it.
    pub name: Name,
    /// The depth for each dimension.
    pub depths: Depths,
}

impl ViewDef {
    /// An equal view, with a name and depths of its own.
    pub fn copy(&self, alloc: Global) -> Result<Self, Memory>
        ensures { IfOk result (λ view. view ≡ self.now) }
    {
        Ok(ViewDef {
            name: self.name.copy()?,
            depths: Depths::from(self.depths.as_slice().to_vec(alloc)?),
        })
    }
}
