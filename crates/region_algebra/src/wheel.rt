//! The leaves that a walk goes through, dimension by dimension.
ghost use Rattle.std.specs.Prelude.{◌≡◌, ◌<◌, ◌≤◌, All, take};
ghost use Rattle.cube_model.specs.Limits.{MAX_DIMS, SPACE_LIMIT};
ghost use Rattle.region_algebra.specs.Wheels.{IsOnLeaf, IsTurned, cells_over, code_at};

use cube_model::MAX_DIMS;

/// In a dimension, the leaves under a region's node, the one where a walk stands, and how far apart the codes of
/// neighbours lie.
#[derive(Clone, Copy)]
pub struct Wheel {
    pub first: u32,
    pub end: u32,
    pub leaf: u32,
    pub step: u64,
}

impl Wheel {
    /// In the place of a dimension that is not there.
    pub const UNUSED: Wheel = Wheel {
        first: 0,
        end: 0,
        leaf: 0,
        step: 0,
    };
}

/// Turns the first wheels on to the next cell: where they stand then, and whether it is another cell. At the last cell
/// they are turned back to the first.
pub fn turn(wheels: &mut [Wheel; MAX_DIMS], dims: usize, cell: u64) -> (u64, bool)
    requires few { dims ≤ MAX_DIMS }
    requires stand { All IsOnLeaf (take dims wheels.old) }
    requires here { cell ≡ code_at (take dims wheels.old) }
    requires limit { All (λ c. c < SPACE_LIMIT) (cells_over (take dims wheels.old)) }
    ensures { IsTurned (take dims wheels.old) (take dims wheels.new) cell result.0 result.1 }
{
    let mut code = cell;
    for d in (0..dims).rev() {
        let wheel = wheels[d];
        if wheel.leaf + 1 < wheel.end {
            wheels[d].leaf += 1;
            return (code + wheel.step, true);
        }
        code -= u64::from(wheel.leaf - wheel.first) * wheel.step;
        wheels[d].leaf = wheel.first;
    }
    (code, false)
}
