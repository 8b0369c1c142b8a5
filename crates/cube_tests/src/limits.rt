//! The limits on nodes, cells and rows.
use crate::runs::{Ending, WHOLE, join_texts, run};
use cube_base::Code;
use std::alloc::{AllocError, Global};
use std::fmt::Write;

/// Nodes of this depth, named by a letter and numbers from 1 on.
pub fn push_nodes(
    text: &mut String,
    depth: u32,
    letter: char,
    count: u32,
) -> Result<(), AllocError> {
    for number in 1..=count {
        write!(text, "node\t{depth}\t{letter}{number}\n")?;
    }
    Ok(())
}

/// A dimension of 1,024 leaves, and one of 1,025 of which 1,024 are under S. The line `end` is missing.
pub fn large_dimensions(alloc: Global) -> Result<String, AllocError> {
    let mut text = String::from_str(
        alloc,
        "cube\t1\npolicy\tcount\ndimension\tLeft\nnode\t0\tL\n",
    )?;
    push_nodes(&mut text, 1, 'l', 1024)?;
    text.push_str("dimension\tRight\nnode\t0\tR\nnode\t1\tS\n")?;
    push_nodes(&mut text, 2, 's', 1024)?;
    text.push_str("node\t1\tt\n")?;
    Ok(text)
}

/// The schema of these two.
pub fn large_schema(alloc: Global) -> Result<String, AllocError> {
    let mut text = large_dimensions(alloc)?;
    text.push_str("end\n")?;
    Ok(text)
}

/// Facts up to the most cells of one and the most rows of all.
const SCRIPT: &str =
    "insert\t1\tL\tR\ninsert\t1\tL\tS\ninsert\t2\tL\tS\ninsert\t3\tl1\tt\ninsert\t3\tl1\ts1\ninsert\t4\tL\tS\nwithdraw\t3\nwithdraw\t4\nwithdraw\t3\n";

const REPLIES: &str =
    "error\tregion\nok\t1\nok\t1\nerror\trows\nok\t3\nok\t1\nerror\trows\nok\t0\nok\t2\n";

/// Facts up to the most cells that are shared in rounds, those of each fact counted, one region more, and back. Each is drawn to
/// the one cell in which a fact is known to be.
const SHARED: &str =
    "insert\t9\tl1\ts1\ninsert\t1\tL\tS\ninsert\t2\tL\tS\ncomponent\t2\niterate\t1\tl1\ts1\niterate\t2\tL\tR\ninsert\t3\tl1\tR\ncomponent\t9\ncomponent\t3\ncomponent\t7\niterate\t1\tl1\ts1\niterate\t0\tl1\ts1\nwithdraw\t3\ncomponent\t9\n";

const SHARED_REPLIES: &str =
    "ok\t1\nok\t1\nok\t1\ncomponent\t2\t1\t2\niterate\t3145728\niterate\t3145728\nok\t1\nerror\tmany\nerror\tmany\nerror\tmissing\nerror\tmany\nerror\tnumber\nok\t0\ncomponent\t1\t9\n";

/// Whether a script over the large schema is answered so.
fn has_limits(
    alloc: Global,
    script: &str,
    replies: &str,
    refused: u64,
) -> Result<bool, AllocError> {
    let input = join_texts(alloc, &large_schema(alloc)?, script)?;
    let ran = run(alloc, &["try"], input.as_bytes(), &WHOLE)?;
    Ok(ran.is(Ending::Finished { refused }, replies))
}

#[test]
fn most_cells_and_rows(rt: HostRuntime) {
    assert!(rt; has_limits(rt.alloc(), SCRIPT, REPLIES, 3) == Ok(true));
}

#[test]
fn most_cells_that_are_shared(rt: HostRuntime) {
    assert!(rt; has_limits(rt.alloc(), SHARED, SHARED_REPLIES, 5) == Ok(true));
}

/// The first of the facts in a row, and the first id after them.
const IN_ROW: (u64, u64) = (100, 1124);

/// After them all cells that may be shared are; then one more is, and it is again as before.
const BEHIND_ROW: &str =
    "iterate\t1\tl1\ts1\nwithdraw\t100\ninsert\t100\tl1\tR\ncomponent\t1\ncomponent\t9\niterate\t1\tl1\ts1\nwithdraw\t100\ninsert\t100\tl1\tS\niterate\t32\tL\tR\n";

const BEHIND_ROW_REPLIES: &str =
    "iterate\t1075838976\nok\t0\nok\t1\nerror\tmany\nerror\tmany\nerror\tmany\nok\t0\nok\t1\niterate\t1075838976\n";

/// A fact of 2^20 cells, and 2^10 facts of 2^10 cells, all with the cell in which one fact is known to be.
fn shared_in_row(alloc: Global) -> Result<String, AllocError> {
    let mut script = String::from_str(alloc, "insert\t9\tl1\ts1\ninsert\t1\tL\tS\n")?;
    for id in IN_ROW.0..IN_ROW.1 {
        write!(script, "insert\t{id}\tl1\tS\n")?;
    }
    script.push_str(BEHIND_ROW)?;
    Ok(script)
}

/// Their replies.
fn replies_in_row(alloc: Global) -> Result<String, AllocError> {
    let mut replies = String::from_str(alloc, "ok\t1\nok\t1\n")?;
    for _ in IN_ROW.0..IN_ROW.1 {
        replies.push_str("ok\t1\n")?;
    }
    replies.push_str(BEHIND_ROW_REPLIES)?;
    Ok(replies)
}

fn has_one_above(alloc: Global) -> Result<bool, AllocError> {
    has_limits(alloc, &shared_in_row(alloc)?, &replies_in_row(alloc)?, 3)
}

#[test]
fn one_cell_more_than_are_shared(rt: HostRuntime) {
    assert!(rt; has_one_above(rt.alloc()) == Ok(true));
}

/// The number of leaves under a root, what is written of a script about them, and the end.
const WIDTHS: [(u32, &str, Ending); 2] = [
    (
        65_535,
        "ok\t1\nok\t1\nterms\t2\t1\t1\t65535\t1\n",
        Ending::Finished { refused: 0 },
    ),
    (
        65_536,
        "",
        Ending::Schema {
            line: 65_540,
            code: Code::Limit,
        },
    ),
];

/// Whether a dimension of so many leaves is taken so.
fn is_wide(alloc: Global, row: &(u32, &str, Ending)) -> Result<bool, AllocError> {
    let (leaves, replies, end) = *row;
    let mut input = String::from_str(
        alloc,
        "cube\t1\npolicy\tuniform\ndimension\tPlace\nnode\t0\tAll\n",
    )?;
    push_nodes(&mut input, 1, 'n', leaves)?;
    input.push_str("end\ninsert\t1\tn65535\ninsert\t2\tAll\nterms\tn65535\n")?;
    let ran = run(alloc, &["try"], input.as_bytes(), &WHOLE)?;
    Ok(ran.is(end, replies))
}

fn are_wide(alloc: Global, rows: &[(u32, &str, Ending)]) -> bool {
    rows.iter().all(|row| is_wide(alloc, row) == Ok(true))
}

#[test]
fn most_nodes(rt: HostRuntime) {
    assert!(rt; are_wide(rt.alloc(), &WIDTHS));
}

/// A table of all leaves of six dimensions, which are a product of more than 2^60 regions. One has facts.
const LARGE_TABLE: &str =
    "insert\t1\tn7\tn7\tn7\tn7\tn7\tn7\ncounts\t1\t1\t1\t1\t1\t1\tAll\tAll\tAll\tAll\tAll\tAll\n";

const LARGE_TABLE_REPLIES: &str =
    "ok\t1\ncounts\t1\tn7\tn7\tn7\tn7\tn7\tn7\t1.000000000\t1.000000000\t1\n";

/// How many dimensions there are, how many leaves each has under its root, a script after the schema, its replies, and
/// how the run ends.
type Product = (u32, u32, &'static str, &'static str, Ending);

const PRODUCTS: [Product; 5] = [
    (6, 1, "", "", Ending::Finished { refused: 0 }),
    (
        7,
        1,
        "",
        "",
        Ending::Schema {
            line: 21,
            code: Code::Limit,
        },
    ),
    (
        6,
        1289,
        LARGE_TABLE,
        LARGE_TABLE_REPLIES,
        Ending::Finished { refused: 0 },
    ),
    (
        6,
        1290,
        "",
        "",
        Ending::Schema {
            line: 7755,
            code: Code::Nodes,
        },
    ),
    (
        6,
        1291,
        "",
        "",
        Ending::Schema {
            line: 7761,
            code: Code::Cells,
        },
    ),
];

/// Whether a script over a schema of such dimensions is answered so.
fn is_product(alloc: Global, row: &Product) -> Result<bool, AllocError> {
    let (dims, leaves, script, replies, end) = *row;
    let mut input = String::from_str(alloc, "cube\t1\npolicy\tuniform\n")?;
    for dim in 0..dims {
        write!(input, "dimension\td{dim}\nnode\t0\tAll\n")?;
        push_nodes(&mut input, 1, 'n', leaves)?;
    }
    input.push_str("end\n")?;
    input.push_str(script)?;
    let ran = run(alloc, &["try"], input.as_bytes(), &WHOLE)?;
    Ok(ran.is(end, replies))
}

fn are_products(alloc: Global, rows: &[Product]) -> bool {
    rows.iter().all(|row| is_product(alloc, row) == Ok(true))
}

#[test]
fn products_of_dimensions(rt: HostRuntime) {
    assert!(rt; are_products(rt.alloc(), &PRODUCTS));
}
