//! Reading a fact from fields.
ghost use Rattle.std.specs.Prelude.{◌≡◌, ◌+◌, ◌≤◌, drop, length, IfOk, OnOk};
ghost use Rattle.cube_model.specs.Facts.{IsId};
ghost use Rattle.region_algebra.specs.Space.{IsRegion};
ghost use Rattle.fact_records.specs.Fields.{fact_given, id_given, region_given};
ghost use Rattle.fact_records.specs.Valid.{IsFactOf};

use crate::value_reader::read_values;
use crate::{Fact, Shape};
use cube_base::Code;
use cube_model::{MAX_DIMS, MAX_ID, MIN_ID, Region};
use region_algebra::Space;
use text_lines::{Fields, number_in};

/// The fact that fields give: an id, the name of a node of each dimension, and a field of each measure. The first of
/// these that holds is answered: `Id`, the id is not a number from 1 to 2^63 - 1; `Node`, a field is not the name of a
/// node of its dimension; `Value`, the field of a number measure gives no value; `Parts`, that of a parts measure. It
/// takes no memory.
pub fn read_fact<'a, F: Fields<'a>>(
    space: &Space,
    shape: &Shape,
    fields: &mut F,
) -> Result<Fact, Code>
    requires { length (F.left fields.old) ≡ 1 + length space.now + length shape.now.measures }
    ensures fact { result ≡ fact_given space.now shape.now (F.left fields.old) }
    ensures within { IfOk result (IsFactOf shape.now space.now) }
{
    let id = read_id(fields)?;
    let region = read_region(space, fields)?;
    let cols = read_values(shape, fields)?;
    Ok(Fact { id, region, cols })
}

/// The id that a field gives: a number from 1 to 2^63 - 1, or else `Id`. It takes no memory.
pub fn read_id<'a, F: Fields<'a>>(fields: &mut F) -> Result<u64, Code>
    requires { 1 ≤ length (F.left fields.old) }
    ensures id { result ≡ id_given (F.left fields.old) }
    ensures rest { F.left fields.new ≡ drop 1 (F.left fields.old) }
    ensures within { IfOk result IsId }
{
    number_in(fields.next_field().as_bytes(), MIN_ID, MAX_ID).ok_or(Code::Id)
}

/// The region of the nodes that fields name, one of each dimension: `Node` where a field is not the name of a node of
/// its dimension. It takes no memory.
pub fn read_region<'a, F: Fields<'a>>(space: &Space, fields: &mut F) -> Result<Region, Code>
    requires { length space.now ≤ length (F.left fields.old) }
    ensures region { result ≡ region_given space.now (F.left fields.old) }
    ensures rest { OnOk result (F.left fields.new ≡ drop (length space.now) (F.left fields.old)) }
    ensures within { IfOk result (IsRegion space.now) }
{
    let mut nodes = [0; MAX_DIMS];
    let count = space.dims();
    for d in 0..count {
        let Some(node) = space.dim(d).find(fields.next_field()) else {
            return Err(Code::Node);
        };
        nodes[d as usize] = node;
    }
    Ok(Region::new(&nodes[..count as usize]).unwrap())
}
