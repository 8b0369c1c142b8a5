//! Scripts and their replies.
use crate::runs::{ALL, Case, Ending, Outside, REPAIRS, hold, join_texts, run};
use std::alloc::{AllocError, Global};

/// The same schema under the policy that weighs each cell alike.
const EVENLY: &str =
    "cube\t1\npolicy\tuniform\nnumber\tRepair\ndimension\tPlace\nnode\t0\tAll\nnode\t1\tTX\nnode\t2\tAustin\nnode\t2\tDallas\nnode\t2\tHouston\nnode\t1\tCA\nnode\t2\tLA\nnode\t2\tSF\ndimension\tAuto\nnode\t0\tAll\nnode\t1\tSedan\nnode\t2\tCamry\nnode\t2\tCivic\nnode\t1\tTruck\nnode\t2\tF150\nnode\t2\tSierra\nend\n";

/// A state with one city, and one with two.
pub const STATES: &str =
    "cube\t1\npolicy\tcount\ndimension\tPlace\nnode\t0\tAll\nnode\t1\tNV\nnode\t2\tReno\nnode\t1\tTX\nnode\t2\tAustin\nnode\t2\tDallas\nend\n";

/// A state with two cities, and a district without one, which is a leaf like them.
pub const UNEVEN: &str =
    "cube\t1\npolicy\tcount\ndimension\tPlace\nnode\t0\tAll\nnode\t1\tNV\nnode\t2\tReno\nnode\t2\tElko\nnode\t1\tDC\nview\tall\t0\nview\tdeep\t2\nview\tstates\t1\nend\n";

/// Two states, of which the first has the greater number.
pub const NUMBERED: &str =
    "cube\t2\npolicy\tcount\ndimension\tPlace\nnode\t0\tAll\t0\nnode\t1\tTX\t2\nnode\t1\tNV\t1\nview\tstates\t1\nend\n";

/// One node.
pub const ROOT: &str = "cube\t1\npolicy\tuniform\ndimension\tPlace\nnode\t0\tAll\nend\n";

/// Three repairs in cities, and one in some city of Texas.
pub const FOUR_REPAIRS: &str =
    "insert\t1\tAustin\tCamry\t100\ninsert\t2\tAustin\tCamry\t300\ninsert\t3\tDallas\tCamry\t50\ninsert\t4\tTX\tCamry\t600\n";

/// Each is new, and the allocation of no other fact changed for it.
const FOUR_OKS: &str = "ok\t1\nok\t1\nok\t1\nok\t1\n";

const CASES: [Case; 18] = [
    (
        REPAIRS,
        "insert\t1\tAustin\tCamry\t100\ninsert\t2\tAustin\tCamry\t300\ninsert\t3\tDallas\tCamry\t50\ninsert\t4\tTX\tCamry\t600\nrows\t4\n",
        "ok\t1\nok\t1\nok\t1\nok\t1\nrows\t3\t2\tAustin\tCamry\t2\tDallas\tCamry\t1\n",
        Ending::Finished { refused: 0 },
    ),
    // Without precise facts in Texas the fourth is spread evenly.
    (
        REPAIRS,
        "insert\t1\tAustin\tCamry\t100\ninsert\t2\tAustin\tCamry\t300\ninsert\t3\tDallas\tCamry\t50\ninsert\t4\tTX\tCamry\t600\nwithdraw\t1\nwithdraw\t2\nwithdraw\t3\nrows\t4\n",
        "ok\t1\nok\t1\nok\t1\nok\t1\nok\t1\nok\t1\nok\t1\nrows\t3\t3\tAustin\tCamry\t1\tDallas\tCamry\t1\tHouston\tCamry\t1\n",
        Ending::Finished { refused: 0 },
    ),
    (
        REPAIRS,
        "insert\t1\tAustin\tCamry\t100\ninsert\t2\tAustin\tCamry\t300\ninsert\t3\tDallas\tCamry\t50\ninsert\t4\tTX\tCamry\t600\nchange\t3\tHouston\tCamry\t50\nrows\t4\n",
        "ok\t1\nok\t1\nok\t1\nok\t1\nok\t2\nrows\t3\t2\tAustin\tCamry\t2\tHouston\tCamry\t1\n",
        Ending::Finished { refused: 0 },
    ),
    // The view has the one state by the one kind of autos where a fact lies.
    (
        REPAIRS,
        "insert\t1\tAustin\tCamry\t100\ninsert\t2\tAustin\tCamry\t300\ninsert\t3\tDallas\tCamry\t50\ninsert\t4\tTX\tCamry\t600\nview\tstate\nview\tnone\n",
        "ok\t1\nok\t1\nok\t1\nok\t1\nview\t1\tTX\tSedan\t2\t1\t3\t450\t3\t3\t1800\nerror\tname\n",
        Ending::Finished { refused: 1 },
    ),
    // Three facts of one region lie alike, and are spread anew by one more city; the view serves the first question alone.
    (
        REPAIRS,
        "insert\t1\tAustin\tCamry\t100\ninsert\t2\tAustin\tCamry\t300\ninsert\t3\tDallas\tCamry\t50\ninsert\t4\tTX\tCamry\t600\ninsert\t5\tTX\tCamry\t100\ninsert\t6\tTX\tCamry\t-90\ninsert\t7\tHouston\tCamry\t7\nterms\tAll\tSedan\nterms\tAustin\tCamry\nterms\tCA\tAll\nview\tstate\n",
        "ok\t1\nok\t1\nok\t1\nok\t1\nok\t1\nok\t1\nok\t4\nterms\t2\t1\t4\t457\t4\t12\t2440\nterms\t2\t1\t2\t400\t4\t6\t1220\nterms\t0\nview\t1\tTX\tSedan\t2\t1\t4\t457\t4\t12\t2440\n",
        Ending::Finished { refused: 0 },
    ),
    // The first dimension is slowest, and an entry goes with its last fact.
    (
        REPAIRS,
        "view\tstate\ninsert\t1\tLA\tF150\t7\ninsert\t2\tSF\tCivic\t5\ninsert\t3\tAustin\tSierra\t3\ninsert\t4\tDallas\tTruck\t-1\nview\tstate\nwithdraw\t3\nview\tstate\n",
        "view\t0\nok\t1\nok\t1\nok\t1\nok\t1\nview\t3\tTX\tTruck\t2\t1\t1\t3\t2\t2\t-2\tCA\tSedan\t1\t1\t1\t5\tCA\tTruck\t1\t1\t1\t7\nok\t0\nview\t3\tTX\tTruck\t1\t2\t2\t-2\tCA\tSedan\t1\t1\t1\t5\tCA\tTruck\t1\t1\t1\t7\n",
        Ending::Finished { refused: 0 },
    ),
    // A cut has the leaves that lie less deep too, and each name its own view.
    (
        UNEVEN,
        "insert\t1\tReno\ninsert\t2\tDC\ninsert\t3\tNV\nview\tdeep\nview\tstates\nview\tall\n",
        "ok\t1\nok\t1\nok\t1\nview\t2\tReno\t1\t1\t2\tDC\t1\t1\t1\nview\t2\tNV\t1\t1\t2\tDC\t1\t1\t1\nview\t1\tAll\t1\t1\t3\n",
        Ending::Finished { refused: 0 },
    ),
    // In a text with numbers the order is that of the lines.
    (
        NUMBERED,
        "insert\t1\tNV\ninsert\t2\tTX\nview\tstates\n",
        "ok\t1\nok\t1\nview\t2\tTX\t1\t1\t1\tNV\t1\t1\t1\n",
        Ending::Finished { refused: 0 },
    ),
    // Another value changes no row.
    (
        REPAIRS,
        "insert\t1\tAustin\tCamry\t100\ninsert\t2\tAustin\tCamry\t300\ninsert\t3\tDallas\tCamry\t50\ninsert\t4\tTX\tCamry\t600\nchange\t2\tAustin\tCamry\t301\nterms\tAustin\tCamry\n",
        "ok\t1\nok\t1\nok\t1\nok\t1\nok\t0\nterms\t2\t1\t2\t401\t3\t2\t1200\n",
        Ending::Finished { refused: 0 },
    ),
    (
        REPAIRS,
        "insert\t1\tAustin\tCamry\t100\ninsert\t2\tAustin\tCamry\t300\ninsert\t3\tDallas\tCamry\t50\ninsert\t4\tTX\tCamry\t600\nterms\tAustin\tCamry\nterms\tDallas\tCamry\nterms\tHouston\tCamry\nterms\tTX\tCamry\n",
        "ok\t1\nok\t1\nok\t1\nok\t1\nterms\t2\t1\t2\t400\t3\t2\t1200\nterms\t2\t1\t1\t50\t3\t1\t600\nterms\t0\nterms\t2\t1\t3\t450\t3\t3\t1800\n",
        Ending::Finished { refused: 0 },
    ),
    (
        EVENLY,
        "insert\t1\tAustin\tCamry\t100\ninsert\t2\tAustin\tCamry\t300\ninsert\t3\tDallas\tCamry\t50\ninsert\t4\tTX\tCamry\t600\nrows\t4\nterms\tAustin\tCamry\nterms\tTX\tAll\n",
        "ok\t1\nok\t1\nok\t1\nok\t1\nrows\t3\t3\tAustin\tCamry\t1\tDallas\tCamry\t1\tHouston\tCamry\t1\nterms\t2\t1\t2\t400\t3\t1\t600\nterms\t2\t1\t3\t450\t3\t3\t1800\n",
        Ending::Finished { refused: 0 },
    ),
    // A node with one leaf stands for it.
    (
        STATES,
        "insert\t1\tNV\nrows\t1\ninsert\t2\tAll\nrows\t2\ncount\tReno\n",
        "ok\t1\nrows\t1\t1\tReno\t1\nok\t1\nrows\t1\t1\tReno\t1\ncount\t2.000000000\t2.000000000\t2\n",
        Ending::Finished { refused: 0 },
    ),
    // A schema of one node.
    (
        ROOT,
        "insert\t1\tAll\nterms\tAll\n",
        "ok\t1\nterms\t1\t1\t1\n",
        Ending::Finished { refused: 0 },
    ),
    // No facts.
    (
        REPAIRS,
        "terms\tAll\tAll\n",
        "terms\t0\n",
        Ending::Finished { refused: 0 },
    ),
    (
        REPAIRS,
        "insert\t0\tAustin\tCamry\t1\ninsert\t9223372036854775808\tAustin\tCamry\t1\n",
        "error\tid\nerror\tid\n",
        Ending::Finished { refused: 2 },
    ),
    (
        REPAIRS,
        "insert\t9223372036854775807\tAustin\tCamry\t1\ninsert\t9223372036854775807\tAustin\tCamry\t1\nwithdraw\t5\nrows\t5\n",
        "ok\t1\nerror\texists\nerror\tmissing\nerror\tmissing\n",
        Ending::Finished { refused: 3 },
    ),
    (
        REPAIRS,
        "insert\t1\tLA\tCivic\t1000000000000\ninsert\t2\tLA\tCivic\t1000000000001\ninsert\t2\tLA\tCivic\t+5\ninsert\t2\tLA\tCivic\t05\ninsert\t2\tLA\tCivic\t-0\n",
        "ok\t1\nerror\tvalue\nerror\tvalue\nerror\tvalue\nerror\tvalue\n",
        Ending::Finished { refused: 4 },
    ),
    // The first of several faults in their order is reported, and a fault of the line before one of the edit.
    (
        REPAIRS,
        "Insert\t1\tAustin\tCamry\t1\ninsert\t1\tAustin\tCamry\ninsert\t0\tWaco\tCamry\t+5\ninsert\t1\tWaco\tCamry\t+5\nsum\tPrice\tWaco\tCamry\nsum\tPrice\tAustin\tCamry\npool\tRepair\tAustin\tCamry\nchange\t1\tAustin\tCamry\t+5\nchange\t1\tAustin\tCamry\t5\n",
        "error\tcommand\nerror\tfields\nerror\tid\nerror\tnode\nerror\tnode\nerror\tmeasure\nerror\tmeasure\nerror\tvalue\nerror\tmissing\n",
        Ending::Finished { refused: 9 },
    ),
];

#[test]
fn scripts_and_replies(rt: HostRuntime) {
    assert!(rt; hold(rt.alloc(), &CASES));
}

/// What is written of the four repairs and the rows of the fourth.
const ROWS: &str = "ok\t1\nok\t1\nok\t1\nok\t1\nrows\t3\t2\tAustin\tCamry\t2\tDallas\tCamry\t1\n";

/// The end of each line before the last, the last lines, and how many bytes a read and a write move.
const LINE_ENDS: [(&str, &str, usize); 15] = [
    ("\n", "rows\t4", 1),
    ("\n", "rows\t4", 3),
    ("\n", "rows\t4", ALL),
    ("\n", "rows\t4\n", 1),
    ("\n", "rows\t4\n", 3),
    ("\n", "rows\t4\n", ALL),
    ("\n", "#\n\n# rows\t4\nrows\t4\n\n#", 1),
    ("\n", "#\n\n# rows\t4\nrows\t4\n\n#", 3),
    ("\n", "#\n\n# rows\t4\nrows\t4\n\n#", ALL),
    ("\r\n", "rows\t4\r\n", 1),
    ("\r\n", "rows\t4\r\n", 3),
    ("\r\n", "rows\t4\r\n", ALL),
    ("\n\n#\tx\n\r\n", "rows\t4\n", 1),
    ("\n\n#\tx\n\r\n", "rows\t4\n", 3),
    ("\n\n#\tx\n\r\n", "rows\t4\n", ALL),
];

/// Whether the lines with these ends are answered as ever.
fn ends_alike(alloc: Global, row: &(&str, &str, usize)) -> Result<bool, AllocError> {
    let (line_end, last, step) = *row;
    let mut input = String::new(alloc);
    for line in join_texts(alloc, REPAIRS, FOUR_REPAIRS)?.lines() {
        input.push_str(line)?;
        input.push_str(line_end)?;
    }
    input.push_str(last)?;
    let outside = Outside {
        read_step: step,
        read_fails: 0,
        write_step: step,
        write_fails: 0,
    };
    let ran = run(alloc, &["try"], input.as_bytes(), &outside)?;
    Ok(ran.is(Ending::Finished { refused: 0 }, ROWS) && ran.left == 0)
}

fn end_alike(alloc: Global, rows: &[(&str, &str, usize)]) -> bool {
    rows.iter().all(|row| ends_alike(alloc, row) == Ok(true))
}

#[test]
fn line_ends_and_skipped_lines(rt: HostRuntime) {
    assert!(rt; end_alike(rt.alloc(), &LINE_ENDS));
}

/// Whether more replies than one write gathers are written, in order.
fn gathers_many(alloc: Global) -> Result<bool, AllocError> {
    let mut input = join_texts(alloc, REPAIRS, FOUR_REPAIRS)?;
    let mut replies = String::from_str(alloc, FOUR_OKS)?;
    for _ in 0..5_000u32 {
        input.push_str("terms\tTX\tAll\n#\n")?;
        replies.push_str("terms\t2\t1\t3\t450\t3\t3\t1800\n")?;
    }
    let outside = Outside {
        read_step: ALL,
        read_fails: 0,
        write_step: ALL,
        write_fails: 0,
    };
    let ran = run(alloc, &["try"], input.as_bytes(), &outside)?;
    Ok(ran.is(Ending::Finished { refused: 0 }, &replies))
}

#[test]
fn more_replies_than_one_write_gathers(rt: HostRuntime) {
    assert!(rt; gathers_many(rt.alloc()) == Ok(true));
}
