//! The program over stores in files, and without one: what it writes, what it tells of its end, and its exit status.
use crate::sources::Padded;
use crate::sql::{are_found, run_script};
use cube_base::{Bytes, Ids, MemSink, MemSource, Source};
use cube_program::{Counted, run_program};
use std::alloc::{AllocError, Global};
use std::fmt::Write;
use std::test::Fail;

/// Repairs by city, with their costs.
pub const CITIES: &str =
    "cube\t1\npolicy\tcount\nnumber\tRepair\ndimension\tPlace\nnode\t0\tAll\nnode\t1\tTX\nnode\t2\tAustin\nnode\t2\tDallas\nnode\t2\tHouston\nend\n";

/// Three repairs in a city, and one in some city of Texas.
const INSERTS: &str =
    "insert\t1\tAustin\t100\ninsert\t2\tAustin\t300\ninsert\t3\tDallas\t50\ninsert\t4\tTX\t600\n";

/// Repairs by city and auto, with a view of states by kinds of autos.
const REPAIRS: &str =
    "cube\t1\npolicy\tcount\nnumber\tRepair\ndimension\tPlace\nnode\t0\tAll\nnode\t1\tTX\nnode\t2\tAustin\nnode\t2\tDallas\nnode\t2\tHouston\nnode\t1\tCA\nnode\t2\tLA\nnode\t2\tSF\ndimension\tAuto\nnode\t0\tAll\nnode\t1\tSedan\nnode\t2\tCamry\nnode\t2\tCivic\nnode\t1\tTruck\nnode\t2\tF150\nnode\t2\tSierra\nview\tstate\t1\t1\nend\n";

/// The same four of one kind of autos.
const CAMRYS: &str =
    "insert\t1\tAustin\tCamry\t100\ninsert\t2\tAustin\tCamry\t300\ninsert\t3\tDallas\tCamry\t50\ninsert\t4\tTX\tCamry\t600\n";

/// The first node is not at depth 0.
const NO_ROOT: &str =
    "cube\t1\npolicy\tcount\nnumber\tRepair\ndimension\tPlace\nnode\t1\tAll\nend\n";

/// A schema, and a question after it.
const ASKED: &str =
    "cube\t1\npolicy\tcount\nnumber\tRepair\ndimension\tPlace\nnode\t0\tAll\nend\ncount\tAll\n";

/// The same, and a node that is not there.
const REFUSED: &str =
    "cube\t1\npolicy\tcount\nnumber\tRepair\ndimension\tPlace\nnode\t0\tAll\nend\ncount\tNone\n";

/// What is told where the words name no command.
const USAGE: &str =
    "cube: usage: cube try, init NAME, run NAME, check NAME, import NAME, export NAME, drill N, lead NAME, follow NAME, ask NAME WORD.., schema NAME, rows NAME, rebuild NAME\n";

/// The words, the input, the read and the write that fail, what is written, what is told of the end, and the status.
type Call = (
    &'static [&'static str],
    &'static str,
    u64,
    u64,
    &'static str,
    &'static str,
    u8,
);

/// Each call is a run of the program. The fourth fact lies two thirds in Austin and one third in Dallas, which makes five rows. A city
/// that Texas gets changes none of them, and then has a repair.
const CALLS: [Call; 27] = [
    (&["init", "cities.cube"], CITIES, 0, 0, "ok\t0\n", "", 0),
    (
        &["run", "cities.cube"],
        INSERTS,
        0,
        0,
        "ok\t1\nok\t1\nok\t1\nok\t1\n",
        "",
        0,
    ),
    (&["check", "cities.cube"], "", 0, 0, "sound\t4\t5\n", "", 0),
    (&["init", "repairs.cube"], REPAIRS, 0, 0, "ok\t0\n", "", 0),
    (
        &["run", "repairs.cube"],
        CAMRYS,
        0,
        0,
        "ok\t1\nok\t1\nok\t1\nok\t1\n",
        "",
        0,
    ),
    (&["check", "repairs.cube"], "", 0, 0, "sound\t4\t5\n", "", 0),
    (
        &["run", "repairs.cube"],
        "grow\tPlace\tTX\tWaco\n",
        0,
        0,
        "ok\t0\n",
        "",
        0,
    ),
    (&["check", "repairs.cube"], "", 0, 0, "sound\t4\t5\n", "", 0),
    (
        &["run", "repairs.cube"],
        "insert\t5\tWaco\tCamry\t90\nrows\t4\n",
        0,
        0,
        "ok\t2\nrows\t4\t3\tAustin\tCamry\t2\tDallas\tCamry\t1\tWaco\tCamry\t1\n",
        "",
        0,
    ),
    (&["check", "repairs.cube"], "", 0, 0, "sound\t5\t7\n", "", 0),
    (
        &["try"],
        ASKED,
        0,
        0,
        "count\t0.000000000\t0.000000000\t0\n",
        "",
        0,
    ),
    (&["try"], REFUSED, 0, 0, "error\tnode\n", "", 1),
    (
        &["run", "cities.cube"],
        "count\tWaco\n",
        0,
        0,
        "error\tnode\n",
        "",
        1,
    ),
    (
        &["ask", "cities.cube", "count", "Austin"],
        "",
        0,
        0,
        "count\t2.666666666\t2.666666667\t8/3\n",
        "",
        0,
    ),
    (
        &["ask", "cities.cube", "count", "Austin\ncount\tTX"],
        "",
        0,
        0,
        "error\ttext\n",
        "",
        1,
    ),
    (&["ask", "cities.cube"], "", 0, 0, "", USAGE, 2),
    (&["run"], "", 0, 0, "", USAGE, 2),
    (
        &["try"],
        NO_ROOT,
        0,
        0,
        "",
        "cube: schema line 5: depth\n",
        3,
    ),
    (
        &["init", "none.cube"],
        NO_ROOT,
        0,
        0,
        "",
        "cube: schema line 5: depth\n",
        3,
    ),
    (
        &["run", "none.cube"],
        INSERTS,
        0,
        0,
        "",
        "cube: no cube\n",
        4,
    ),
    (
        &["init", "cities.cube"],
        CITIES,
        0,
        0,
        "",
        "cube: cube exists\n",
        4,
    ),
    (
        &["try"],
        ASKED,
        1,
        0,
        "",
        "cube: read fault after line 0\n",
        6,
    ),
    (
        &["run", "cities.cube"],
        INSERTS,
        1,
        0,
        "",
        "cube: read fault after line 0\n",
        6,
    ),
    (
        &["run", "cities.cube"],
        "withdraw\t9\n",
        0,
        1,
        "",
        "cube: write fault after line 1\n",
        7,
    ),
    (
        &["check", "cities.cube"],
        "",
        0,
        1,
        "",
        "cube: write fault after line 0\n",
        7,
    ),
    (
        &["check", "nowhere/cities.cube"],
        "",
        0,
        0,
        "",
        "cube: nowhere/cities.cube: no such folder\ncube: store fault after line 0\n",
        8,
    ),
    (
        &["import", "cities.cube"],
        "id,Place,Repair\n5,Waco,1\n",
        0,
        0,
        "",
        "cube: record 1: node\n",
        11,
    ),
];

/// What SQL finds then: a text of version 2, with the line of the ninth node, in which the fifth fact is.
const GROWN: [&str; 2] = [
    "SELECT count(*) = 1 FROM cube WHERE k = 1 AND substr(body, 1, 7) = x'6375626509320a' AND instr(body, x'0a6e6f64650932095761636f09380a') > 0",
    "SELECT count(*) = 1 FROM fact WHERE id = 5 AND nodes = x'0000000800000002'",
];

/// Without its rows the fourth fact's are not those that it has.
const UNSOUND: [Call; 1] = [(
    &["check", "cities.cube"],
    "",
    0,
    0,
    "",
    "cube: bad store: rows differ at place 3\n",
    5,
)];

/// The words of a call.
fn words_of(alloc: Global, words: &[&str]) -> Result<Vec<String>, AllocError> {
    words
        .iter()
        .map(|word| String::from_str(alloc, word))
        .try_collect(alloc)
}

/// A source of an input, which fails at a read, and has so many bytes more after it.
fn source_of(
    alloc: Global,
    input: &str,
    fails: u64,
    more: usize,
) -> Result<Counted<Padded>, AllocError> {
    let input = input_of(alloc, input, fails)?;
    Ok(Counted::new(Padded::new(input, more)))
}

/// An input in memory, which fails at a read.
pub fn input_of(alloc: Global, input: &str, fails: u64) -> Result<MemSource, AllocError> {
    let fails = Ids::from(Vec::from_slice(alloc, &[fails])?);
    let bytes = Bytes::from(Vec::from_slice(alloc, input.as_bytes())?);
    Ok(MemSource::new(alloc, bytes, 1 << 30, fails))
}

/// Whether a run over a source is told so, and writes this.
pub fn is_told<S: Source>(
    rt: &HostRuntime,
    words: &[&str],
    source: &mut Counted<S>,
    write_fails: u64,
    told: (&str, &str, u8),
) -> Result<bool, AllocError> {
    let alloc = rt.alloc();
    let words = words_of(alloc, words)?;
    let fails = Ids::from(Vec::from_slice(alloc, &[write_fails])?);
    let mut sink = MemSink::new(alloc, 1 << 30, fails);
    let mut errors = Vec::new(alloc);
    let status = run_program(rt, &words, source, &mut sink, &mut errors);
    let (written, error, expected) = told;
    Ok(
        status == expected
            && sink.bytes() == written.as_bytes()
            && errors.as_slice() == error.as_bytes(),
    )
}

/// Whether a call is answered so.
fn is_answered(rt: &HostRuntime, call: &Call) -> Result<bool, AllocError> {
    let (words, input, read_fails, write_fails, written, error, status) = *call;
    let mut source = source_of(rt.alloc(), input, read_fails, 0)?;
    is_told(
        rt,
        words,
        &mut source,
        write_fails,
        (written, error, status),
    )
}

fn are_answered(rt: &HostRuntime, calls: &[Call]) -> bool {
    for call in calls {
        if is_answered(rt, call) != Ok(true) {
            return false;
        }
    }
    true
}

#[test]
fn each_end_over_files(rt: HostRuntime) {
    assert!(rt; are_answered(&rt, &CALLS) && are_found(&rt, "repairs.cube", &GROWN));
    let changed = run_script(&rt, "cities.cube", "DELETE FROM alloc WHERE id = 4");
    assert!(rt; changed.is_ok() && are_answered(&rt, &UNSOUND));
}

/// A schema of 2^20 cells.
fn square(alloc: Global) -> Result<String, AllocError> {
    let mut text = String::from_str(alloc, "cube\t1\npolicy\tuniform\nnumber\tn\n")?;
    for dimension in ["A", "B"] {
        write!(text, "dimension\t{dimension}\nnode\t0\tAll\n")?;
        for leaf in 0..1024u32 {
            write!(text, "node\t1\tx{leaf}\n")?;
        }
    }
    text.push_str("end\n")?;
    Ok(text)
}

/// Three facts of which each may lie in any cell.
const WIDE_FACTS: &str = "id,A,B,n\n1,All,All,1\n2,All,All,1\n3,All,All,1\n";

/// Whether their rows are told to be too many.
fn are_too_many(rt: &HostRuntime) -> Result<bool, AllocError> {
    let alloc = rt.alloc();
    let schema = square(alloc)?;
    let mut source = source_of(alloc, schema.as_str(), 0, 0)?;
    let made = is_told(
        rt,
        &["init", "square.cube"],
        &mut source,
        0,
        ("ok\t0\n", "", 0),
    )?;
    let mut facts = source_of(alloc, WIDE_FACTS, 0, 0)?;
    let would = ("", "cube: import would make 3145728 rows\n", 12);
    Ok(made && is_told(rt, &["import", "square.cube"], &mut facts, 0, would)?)
}

#[test]
fn too_many_rows_of_a_file(rt: HostRuntime) {
    assert!(rt; are_too_many(&rt) == Ok(true));
}

/// How many bytes a comment has that does not end, what is told of its run, and the status.
const ENDLESS: [(usize, &str, u8); 2] = [
    (1 << 30, "", 0),
    ((1 << 30) + 1, "cube: input too long after line 0\n", 10),
];

/// Whether the run of a comment of so many bytes is told so.
fn ends_long(rt: &HostRuntime, row: &(usize, &str, u8)) -> Result<bool, AllocError> {
    let (bytes, error, status) = *row;
    let mut source = source_of(rt.alloc(), "#", 0, bytes.saturating_sub(1))?;
    is_told(
        rt,
        &["run", "long.cube"],
        &mut source,
        0,
        ("", error, status),
    )
}

fn end_long(rt: &HostRuntime) -> Result<bool, AllocError> {
    let mut source = source_of(rt.alloc(), CITIES, 0, 0)?;
    let made = is_told(
        rt,
        &["init", "long.cube"],
        &mut source,
        0,
        ("ok\t0\n", "", 0),
    )?;
    Ok(made && ENDLESS.iter().all(|row| ends_long(rt, row) == Ok(true)))
}

#[test]
fn inputs_of_2_to_the_30_bytes(rt: HostRuntime) {
    assert!(rt; end_long(&rt) == Ok(true));
}
