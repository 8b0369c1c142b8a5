//! The texts of replies.
ghost use Rattle.std.specs.Prelude.{IfOk};
ghost use Rattle.script_text.specs.Reply.{NamesCells};

use crate::allocations::spread_alone;
use crate::fixtures::schema_of;
use cell_weight::Uniform;
use cube_base::{Code, Pairs};
use group_sum::Terms;
use schema_text::Schema;
use script_text::{Answer, AskWord, IdWord, RegionWord, Reply, write_reply};
use std::alloc::Global;
use std::test::Fail;

/// One node with two leaves.
const TEXAS: &[u8] =
    b"cube\t1\npolicy\tuniform\ndimension\tPlace\nnode\t0\tTX\nnode\t1\tAustin\nnode\t1\tDallas\nend\n";

/// The rows of a fact somewhere in Texas.
fn rows_reply(alloc: Global, schema: &Schema) -> Result<Reply, Fail>
    ensures { IfOk result (NamesCells schema.now.dims) }
{
    let spread = spread_alone(alloc, schema.space(), &Uniform, 0)?;
    Ok(Reply::Told {
        word: AskWord::OfId(IdWord::Rows),
        fields: Answer::Rows {
            den: spread.den(),
            rows: Pairs::from(spread.rows().to_vec(alloc)?),
        },
    })
}

/// Whether this text is written of a reply.
fn is_written(alloc: Global, schema: &Schema, reply: &Reply, text: &str) -> Result<bool, Fail>
    requires { NamesCells schema.now.dims reply.now }
{
    let written = write_reply(alloc, schema, reply)?;
    Ok(written.as_slice() == text.as_bytes())
}

/// Whether replies of one field are written.
fn are_short_written(alloc: Global, schema: &Schema) -> Result<bool, Fail> {
    Ok(
        is_written(alloc, schema, &Reply::Done(12), "ok\t12\n")?
            && is_written(alloc, schema, &Reply::Refused(Code::Node), "error\tnode\n")?,
    )
}

/// Whether a reply without terms is written.
fn are_terms_written(alloc: Global, schema: &Schema) -> Result<bool, Fail> {
    let terms = Reply::Told {
        word: AskWord::OfRegion(RegionWord::Terms),
        fields: Answer::Terms(Terms::empty(alloc, 1)),
    };
    is_written(alloc, schema, &terms, "terms\t0\n")
}

/// Whether a reply with rows is written.
fn are_rows_written(alloc: Global, schema: &Schema) -> Result<bool, Fail> {
    let rows = rows_reply(alloc, schema)?;
    is_written(alloc, schema, &rows, "rows\t2\t2\tAustin\t1\tDallas\t1\n")
}

/// Whether a reply of each kind is written.
fn are_each_written(alloc: Global, schema: &Schema) -> Result<bool, Fail> {
    Ok(
        are_short_written(alloc, schema)?
            && are_terms_written(alloc, schema)?
            && are_rows_written(alloc, schema)?,
    )
}

fn are_written(alloc: Global) -> Result<bool, Fail> {
    let schema = schema_of(alloc, TEXAS)?;
    are_each_written(alloc, &schema)
}

#[test]
fn replies_are_written(rt: HostRuntime) -> Result<(), Fail> {
    assert!(rt; are_written(rt.alloc())?);
    Ok(())
}
