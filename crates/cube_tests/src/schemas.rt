//! Inputs whose schema is refused, and some that are just accepted.
use crate::runs::{Case, Ending, REPAIRS, WHOLE, hold, run};
use cube_base::Code;
use std::alloc::{AllocError, Global};

/// A line of the schema of repairs, counted from 1, what stands in its place, the line that is then at fault, and why.
type Altered = (u64, &'static [u8], u64, Code);

const ALTERED: [Altered; 44] = [
    (1, b"cube\t3", 1, Code::Number),
    (1, b"cube\t2", 5, Code::Fields),
    (1, b"cube", 1, Code::Fields),
    (1, b"\xef\xbb\xbfcube\t1", 1, Code::Order),
    (1, b"policy\tcount", 1, Code::Order),
    (2, b"policy", 2, Code::Fields),
    (2, b"policy\tem", 2, Code::Policy),
    (2, b"policy\tweight", 2, Code::Fields),
    (2, b"policy\tweight\t", 2, Code::Name),
    (2, b"policy\tweight\tPrice", 22, Code::Policy),
    (3, b"parts\tQuality\t100\tgood", 3, Code::Fields),
    (3, b"parts\tQuality\t100\tgood\tgood", 3, Code::Name),
    (3, b"parts\tQuality\t1000001\tgood\tbad", 3, Code::Number),
    (3, b"policy\tcount", 3, Code::Order),
    (3, b"number\t", 3, Code::Name),
    (4, b"number\tRepair", 4, Code::Name),
    (5, b"node\t1\tAll", 5, Code::Depth),
    (5, b"end", 5, Code::Order),
    (6, b"node\t9\tx", 6, Code::Number),
    (6, b"node\t01\tx", 6, Code::Number),
    (6, b"node\t0\tx", 6, Code::Depth),
    (6, b"node\tx\tAll", 6, Code::Name),
    (7, b"node\t3\tAustin", 7, Code::Depth),
    (8, b"node\t2\tAustin", 8, Code::Name),
    (8, b"node\t2\tDal\x7flas", 8, Code::Text),
    (8, b"node\t2\tDal\xfflas", 8, Code::Text),
    (13, b"dimension\tPlace", 13, Code::Name),
    (3, b"view\tstate", 3, Code::Order),
    (5, b"view\tstate\t1", 5, Code::Order),
    (13, b"view\tstate\t1", 14, Code::Order),
    (13, b"view\tstate\t1\t1", 13, Code::Fields),
    (21, b"view\tstate\t1", 21, Code::Fields),
    (21, b"view\tstate\t1\t1\t1", 21, Code::Fields),
    (21, b"view\tstate\t1\t9", 21, Code::Number),
    (21, b"view\tstate\t01\t1", 21, Code::Number),
    (21, b"view\tstate\t\t1", 21, Code::Number),
    (21, b"view\t\t1\t9", 21, Code::Name),
    (21, b"View\tstate\t1\t1", 21, Code::Order),
    (21, b"end\t", 21, Code::Fields),
    (22, b"view\tstate\t2\t9", 22, Code::Name),
    (22, b"node\t1\tNV", 22, Code::Order),
    (22, b"dimension\tTime", 22, Code::Order),
    (22, b"end\t", 22, Code::Fields),
    (22, b"# end", 23, Code::Cut),
];

/// Whether the altered schema is refused at its line, and nothing is written.
fn is_refused(alloc: Global, row: &Altered) -> Result<bool, AllocError> {
    let (line, altered, fault, code) = *row;
    let mut input = Vec::new(alloc);
    let mut number = 0u64;
    for old in REPAIRS.lines() {
        number = number.saturating_add(1);
        input.extend_from_slice(if number == line {
            altered
        } else {
            old.as_bytes()
        })?;
        input.push(b'\n')?;
    }
    let ran = run(alloc, &["try"], &input, &WHOLE)?;
    Ok(ran.is(Ending::Schema { line: fault, code }, ""))
}

fn are_refused(alloc: Global, rows: &[Altered]) -> bool {
    rows.iter().all(|row| is_refused(alloc, row) == Ok(true))
}

#[test]
fn altered_schemas(rt: HostRuntime) {
    assert!(rt; are_refused(rt.alloc(), &ALTERED));
}

/// Whole inputs, and how they end.
const WHOLES: [(&str, Ending); 28] = [
    // Numbers.
    (
        "cube\t2\npolicy\tcount\ndimension\tPlace\nnode\t0\tAll\t0\nnode\t1\tTX\t1\nnode\t2\tAustin\t2\nnode\t2\tWaco\t5\nnode\t1\tCA\t3\nnode\t2\tLA\t4\nend\n",
        Ending::Finished { refused: 0 },
    ),
    // No number.
    (
        "cube\t2\npolicy\tcount\ndimension\tPlace\nnode\t0\tAll\t0\nnode\t1\tTX\t1\nnode\t2\tAustin\t2\nnode\t2\tWaco\nnode\t1\tCA\t3\nnode\t2\tLA\t4\nend\n",
        Ending::Schema {
            line: 7,
            code: Code::Fields,
        },
    ),
    // A number too large.
    (
        "cube\t2\npolicy\tcount\ndimension\tPlace\nnode\t0\tAll\t0\nnode\t1\tTX\t1\nnode\t2\tAustin\t2\nnode\t2\tWaco\t65536\nnode\t1\tCA\t3\nnode\t2\tLA\t4\nend\n",
        Ending::Schema {
            line: 7,
            code: Code::Number,
        },
    ),
    // A number misspelled.
    (
        "cube\t2\npolicy\tcount\ndimension\tPlace\nnode\t0\tAll\t0\nnode\t1\tTX\t1\nnode\t2\tAustin\t2\nnode\t2\tWaco\t05\nnode\t1\tCA\t3\nnode\t2\tLA\t4\nend\n",
        Ending::Schema {
            line: 7,
            code: Code::Number,
        },
    ),
    // A number twice.
    (
        "cube\t2\npolicy\tcount\ndimension\tPlace\nnode\t0\tAll\t0\nnode\t1\tTX\t1\nnode\t2\tAustin\t2\nnode\t2\tWaco\t2\nnode\t1\tCA\t3\nnode\t2\tLA\t4\nend\n",
        Ending::Schema {
            line: 7,
            code: Code::Number,
        },
    ),
    // A name twice before a number twice.
    (
        "cube\t2\npolicy\tcount\ndimension\tPlace\nnode\t0\tAll\t0\nnode\t1\tTX\t1\nnode\t2\tAustin\t2\nnode\t2\tAustin\t2\nnode\t1\tCA\t3\nnode\t2\tLA\t4\nend\n",
        Ending::Schema {
            line: 7,
            code: Code::Name,
        },
    ),
    // A number twice before a depth.
    (
        "cube\t2\npolicy\tcount\ndimension\tPlace\nnode\t0\tAll\t0\nnode\t1\tTX\t1\nnode\t2\tAustin\t2\nnode\t4\tWaco\t2\nnode\t1\tCA\t3\nnode\t2\tLA\t4\nend\n",
        Ending::Schema {
            line: 7,
            code: Code::Number,
        },
    ),
    // A number not below the count.
    (
        "cube\t2\npolicy\tcount\ndimension\tPlace\nnode\t0\tAll\t0\nnode\t1\tTX\t1\nnode\t2\tAustin\t2\nnode\t2\tWaco\t6\nnode\t1\tCA\t3\nnode\t2\tLA\t4\nend\n",
        Ending::Schema {
            line: 10,
            code: Code::Number,
        },
    ),
    // A number not above the parent's.
    (
        "cube\t2\npolicy\tcount\ndimension\tPlace\nnode\t0\tAll\t0\nnode\t1\tTX\t2\nnode\t2\tAustin\t1\nnode\t2\tWaco\t5\nnode\t1\tCA\t3\nnode\t2\tLA\t4\nend\n",
        Ending::Schema {
            line: 10,
            code: Code::Number,
        },
    ),
    // Numbers judged where a dimension ends.
    (
        "cube\t2\npolicy\tcount\ndimension\tPlace\nnode\t0\tAll\t0\nnode\t1\tTX\t1\nnode\t2\tAustin\t2\nnode\t2\tWaco\t6\nnode\t1\tCA\t3\nnode\t2\tLA\t4\ndimension\tAuto\nnode\t0\tx\t0\nend\n",
        Ending::Schema {
            line: 10,
            code: Code::Number,
        },
    ),
    // A name before the numbers.
    (
        "cube\t2\npolicy\tcount\ndimension\tPlace\nnode\t0\tAll\t0\nnode\t1\tTX\t1\nnode\t2\tAustin\t2\nnode\t2\tWaco\t6\nnode\t1\tCA\t3\nnode\t2\tLA\t4\ndimension\tPlace\nnode\t0\tx\t0\nend\n",
        Ending::Schema {
            line: 10,
            code: Code::Name,
        },
    ),
    // A number in version 1.
    (
        "cube\t1\npolicy\tcount\ndimension\tPlace\nnode\t0\tAll\t0\nnode\t1\tTX\t1\nnode\t2\tAustin\t2\nnode\t2\tWaco\t5\nnode\t1\tCA\t3\nnode\t2\tLA\t4\nend\n",
        Ending::Schema {
            line: 4,
            code: Code::Fields,
        },
    ),
    // A weight by a distribution.
    (
        "cube\t1\npolicy\tweight\tQuality\nparts\tQuality\t100\tgood\tbad\ndimension\tPlace\nnode\t0\tAll\nnode\t1\tTX\nnode\t2\tAustin\nnode\t2\tDallas\nnode\t1\tCA\nnode\t2\tLA\nend\n",
        Ending::Schema {
            line: 11,
            code: Code::Policy,
        },
    ),
    // One outcome.
    (
        "cube\t1\npolicy\tcount\nparts\tQ\t1\tx\n",
        Ending::Schema {
            line: 3,
            code: Code::Fields,
        },
    ),
    // Eight outcomes.
    (
        "cube\t1\npolicy\tcount\nparts\tQ\t1\ta\tb\tc\td\te\tf\tg\th\n",
        Ending::Schema {
            line: 3,
            code: Code::Fields,
        },
    ),
    // Seven outcomes.
    (
        "cube\t1\npolicy\tcount\nparts\tQ\t1\ta\tb\tc\td\te\tf\tg\n",
        Ending::Schema {
            line: 4,
            code: Code::Cut,
        },
    ),
    // A column beyond seven.
    (
        "cube\t1\npolicy\tcount\nnumber\tn\nparts\tQ\t1\ta\tb\tc\td\te\tf\tg\n",
        Ending::Schema {
            line: 4,
            code: Code::Limit,
        },
    ),
    // No scale.
    (
        "cube\t1\npolicy\tcount\nparts\tQ\t0\tx\ty\n",
        Ending::Schema {
            line: 3,
            code: Code::Number,
        },
    ),
    // Nothing.
    (
        "",
        Ending::Schema {
            line: 1,
            code: Code::Cut,
        },
    ),
    // Skipped lines count.
    (
        "\n# a\r\ncube\t1\n\r\npolicy\tem\n",
        Ending::Schema {
            line: 5,
            code: Code::Policy,
        },
    ),
    // The deepest node.
    (
        "cube\t1\npolicy\tcount\ndimension\tx\nnode\t0\t0\nnode\t1\t1\nnode\t2\t2\nnode\t3\t3\nnode\t4\t4\nnode\t5\t5\nnode\t6\t6\nnode\t7\t7\nnode\t8\t8\nnode\t9\t9\n",
        Ending::Schema {
            line: 13,
            code: Code::Number,
        },
    ),
    // Four views, of depths beyond the nodes'.
    (
        "cube\t1\npolicy\tcount\ndimension\tx\nnode\t0\tAll\nview\ta\t0\nview\tb\t8\nview\tc\t1\nview\td\t0\nend\n",
        Ending::Finished { refused: 0 },
    ),
    // A fifth view.
    (
        "cube\t1\npolicy\tcount\ndimension\tx\nnode\t0\tAll\nview\ta\t0\nview\tb\t8\nview\tc\t1\nview\td\t0\nview\te\t0\nend\n",
        Ending::Schema {
            line: 9,
            code: Code::Limit,
        },
    ),
    // A fifth view of a depth that is none.
    (
        "cube\t1\npolicy\tcount\ndimension\tx\nnode\t0\tAll\nview\ta\t0\nview\tb\t8\nview\tc\t1\nview\td\t0\nview\te\t9\nend\n",
        Ending::Schema {
            line: 9,
            code: Code::Number,
        },
    ),
    // Numbers judged where a view ends the dimension.
    (
        "cube\t2\npolicy\tcount\ndimension\tPlace\nnode\t0\tAll\t0\nnode\t1\tTX\t2\nview\tstate\t1\nend\n",
        Ending::Schema {
            line: 6,
            code: Code::Number,
        },
    ),
    // The name of a view before the numbers.
    (
        "cube\t2\npolicy\tcount\ndimension\tPlace\nnode\t0\tAll\t0\nnode\t1\tTX\t2\nview\t\t1\nend\n",
        Ending::Schema {
            line: 6,
            code: Code::Name,
        },
    ),
    // Seven measures.
    (
        "cube\t1\npolicy\tuniform\nnumber\t0\nnumber\t1\nnumber\t2\nnumber\t3\nnumber\t4\nnumber\t5\nnumber\t6\ndimension\tx\nnode\t0\tAll\nend\n",
        Ending::Finished { refused: 0 },
    ),
    // Eight measures.
    (
        "cube\t1\npolicy\tuniform\nnumber\t0\nnumber\t1\nnumber\t2\nnumber\t3\nnumber\t4\nnumber\t5\nnumber\t6\nnumber\t7\ndimension\tx\nnode\t0\tAll\nend\n",
        Ending::Schema {
            line: 10,
            code: Code::Limit,
        },
    ),
];

/// Whether an input without a script ends so, and nothing is written.
fn ends_so(alloc: Global, row: &(&str, Ending)) -> Result<bool, AllocError> {
    let (input, end) = *row;
    let ran = run(alloc, &["try"], input.as_bytes(), &WHOLE)?;
    Ok(ran.is(end, ""))
}

fn end_so(alloc: Global, rows: &[(&str, Ending)]) -> bool {
    rows.iter().all(|row| ends_so(alloc, row) == Ok(true))
}

#[test]
fn whole_schemas(rt: HostRuntime) {
    assert!(rt; end_so(rt.alloc(), &WHOLES));
}

/// How many bytes the name of a measure has, what stands after it, and how a schema ends that ends with its line.
type Named = (usize, &'static str, Ending);

const NAMED: [Named; 5] = [
    (
        128,
        "",
        Ending::Schema {
            line: 4,
            code: Code::Cut,
        },
    ),
    (
        129,
        "",
        Ending::Schema {
            line: 3,
            code: Code::Name,
        },
    ),
    (
        4089,
        "",
        Ending::Schema {
            line: 3,
            code: Code::Name,
        },
    ),
    (
        4090,
        "",
        Ending::Schema {
            line: 3,
            code: Code::Long,
        },
    ),
    (
        4089,
        "\r",
        Ending::Schema {
            line: 3,
            code: Code::Long,
        },
    ),
];

/// Whether a schema with such a name ends so.
fn is_named(alloc: Global, row: &Named) -> Result<bool, AllocError> {
    let (len, behind, end) = *row;
    let mut input = String::from_str(alloc, "cube\t1\npolicy\tuniform\nnumber\t")?;
    for _ in 0..len {
        input.push('x')?;
    }
    input.push_str(behind)?;
    input.push('\n')?;
    ends_so(alloc, &(&input, end))
}

fn are_named(alloc: Global, rows: &[Named]) -> bool {
    rows.iter().all(|row| is_named(alloc, row) == Ok(true))
}

#[test]
fn long_names(rt: HostRuntime) {
    assert!(rt; are_named(rt.alloc(), &NAMED));
}

/// Whether the first lines of a schema are refused for the line that is missing.
fn is_cut(alloc: Global, lines: usize) -> Result<bool, AllocError> {
    let mut input = String::new(alloc);
    for line in REPAIRS.lines().take(lines) {
        input.push_str(line)?;
        input.push('\n')?;
    }
    let end = Ending::Schema {
        line: (lines as u64).saturating_add(1),
        code: Code::Cut,
    };
    ends_so(alloc, &(&input, end))
}

/// Whether so are all parts of it that end with a line.
fn are_cut(alloc: Global) -> bool {
    (0..22usize).all(|lines| is_cut(alloc, lines) == Ok(true))
}

#[test]
fn inputs_that_end_within_their_schema(rt: HostRuntime) {
    assert!(rt; are_cut(rt.alloc()));
}

/// Places whose nodes have numbers of their own.
const NUMBERED: &str =
    "cube\t2\npolicy\tcount\ndimension\tPlace\nnode\t0\tAll\t0\nnode\t1\tTX\t1\nnode\t2\tAustin\t2\nnode\t2\tWaco\t5\nnode\t1\tCA\t3\nnode\t2\tLA\t4\nend\n";

const CASES: [Case; 1] = [
    // Waco is the last node, and stands before the places after it.
    (
        NUMBERED,
        "insert\t1\tWaco\ninsert\t2\tTX\nrows\t2\nwithdraw\t1\nrows\t2\n",
        "ok\t1\nok\t1\nrows\t1\t1\tWaco\t1\nok\t1\nrows\t2\t2\tAustin\t1\tWaco\t1\n",
        Ending::Finished { refused: 0 },
    ),
];

#[test]
fn nodes_with_numbers(rt: HostRuntime) {
    assert!(rt; hold(rt.alloc(), &CASES));
}
