//! The schema of the drill.
ghost use Rattle.std.specs.Prelude.{◌≡◌, IfOk};
ghost use Rattle.drill_run.specs.Space.{drill_schema};

use cube_base::Memory;
use schema_text::{Schema, SchemaFault, read_schema};
use std::alloc::Global;

/// Its text.
const TEXT: &[u8] =
    b"cube\t1\npolicy\tcount\nnumber\tAmount\ndimension\tPlace\nnode\t0\tAll\nnode\t1\ts0\nnode\t2\ts0c0\n\
node\t2\ts0c1\nnode\t2\ts0c2\nnode\t2\ts0c3\nnode\t2\ts0c4\nnode\t2\ts0c5\nnode\t2\ts0c6\nnode\t2\ts0c7\n\
node\t1\ts1\nnode\t2\ts1c0\nnode\t2\ts1c1\nnode\t2\ts1c2\nnode\t2\ts1c3\nnode\t2\ts1c4\nnode\t2\ts1c5\n\
node\t2\ts1c6\nnode\t2\ts1c7\nnode\t1\ts2\nnode\t2\ts2c0\nnode\t2\ts2c1\nnode\t2\ts2c2\nnode\t2\ts2c3\n\
node\t2\ts2c4\nnode\t2\ts2c5\nnode\t2\ts2c6\nnode\t2\ts2c7\nnode\t1\ts3\nnode\t2\ts3c0\nnode\t2\ts3c1\n\
node\t2\ts3c2\nnode\t2\ts3c3\nnode\t2\ts3c4\nnode\t2\ts3c5\nnode\t2\ts3c6\nnode\t2\ts3c7\nnode\t1\ts4\n\
node\t2\ts4c0\nnode\t2\ts4c1\nnode\t2\ts4c2\nnode\t2\ts4c3\nnode\t2\ts4c4\nnode\t2\ts4c5\nnode\t2\ts4c6\n\
node\t2\ts4c7\nnode\t1\ts5\nnode\t2\ts5c0\nnode\t2\ts5c1\nnode\t2\ts5c2\nnode\t2\ts5c3\nnode\t2\ts5c4\n\
node\t2\ts5c5\nnode\t2\ts5c6\nnode\t2\ts5c7\nnode\t1\ts6\nnode\t2\ts6c0\nnode\t2\ts6c1\nnode\t2\ts6c2\n\
node\t2\ts6c3\nnode\t2\ts6c4\nnode\t2\ts6c5\nnode\t2\ts6c6\nnode\t2\ts6c7\nnode\t1\ts7\nnode\t2\ts7c0\n\
node\t2\ts7c1\nnode\t2\ts7c2\nnode\t2\ts7c3\nnode\t2\ts7c4\nnode\t2\ts7c5\nnode\t2\ts7c6\nnode\t2\ts7c7\n\
dimension\tTime\nnode\t0\tAll\nnode\t1\tq0\nnode\t2\tq0w0\nnode\t2\tq0w1\nnode\t2\tq0w2\nnode\t2\tq0w3\n\
node\t2\tq0w4\nnode\t2\tq0w5\nnode\t2\tq0w6\nnode\t2\tq0w7\nnode\t2\tq0w8\nnode\t2\tq0w9\nnode\t2\tq0w10\n\
node\t2\tq0w11\nnode\t2\tq0w12\nnode\t1\tq1\nnode\t2\tq1w0\nnode\t2\tq1w1\nnode\t2\tq1w2\nnode\t2\tq1w3\n\
node\t2\tq1w4\nnode\t2\tq1w5\nnode\t2\tq1w6\nnode\t2\tq1w7\nnode\t2\tq1w8\nnode\t2\tq1w9\nnode\t2\tq1w10\n\
node\t2\tq1w11\nnode\t2\tq1w12\nnode\t1\tq2\nnode\t2\tq2w0\nnode\t2\tq2w1\nnode\t2\tq2w2\nnode\t2\tq2w3\n\
node\t2\tq2w4\nnode\t2\tq2w5\nnode\t2\tq2w6\nnode\t2\tq2w7\nnode\t2\tq2w8\nnode\t2\tq2w9\nnode\t2\tq2w10\n\
node\t2\tq2w11\nnode\t2\tq2w12\nnode\t1\tq3\nnode\t2\tq3w0\nnode\t2\tq3w1\nnode\t2\tq3w2\nnode\t2\tq3w3\n\
node\t2\tq3w4\nnode\t2\tq3w5\nnode\t2\tq3w6\nnode\t2\tq3w7\nnode\t2\tq3w8\nnode\t2\tq3w9\nnode\t2\tq3w10\n\
node\t2\tq3w11\nnode\t2\tq3w12\nview\tstate\t1\t1\nend\n";

/// The schema of the drill. The only error is running out of memory.
pub fn read_drill_schema(alloc: Global) -> Result<Schema, Memory>
    ensures { IfOk result (λ schema. schema ≡ drill_schema) }
{
    match read_schema(alloc, TEXT) {
        Ok((schema, _)) => Ok(schema),
        Err(SchemaFault::Bad { .. }) => unreachable!(),
        Err(SchemaFault::Memory) => Err(Memory),
    }
}
