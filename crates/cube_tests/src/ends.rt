//! Command lines, and what is printed of each end.
use crate::runs::{ALL, Ending, REPAIRS, WHOLE, run, source_of};
use cube_base::Code;
use cube_cli::End;
use cube_core::Finding;
use fact_records::BadRecord;
use std::alloc::{AllocError, Global};
use text_lines::{InputStop, take_input};

/// Words of no command.
const NO_COMMANDS: [&[&str]; 28] = [
    &["run"],
    &["init"],
    &["init", "s", "t"],
    &["check", ""],
    &["export", ""],
    &["import"],
    &["help"],
    &["drill", "0"],
    &["drill", "01"],
    &["drill", "100001"],
    &["drill", "18446744073709551617"],
    &["drill", "+1"],
    &["drill", ""],
    &["drill"],
    &["drill", "1", "1"],
    &["run", ""],
    &["lead"],
    &["lead", ""],
    &["follow"],
    &["follow", ""],
    &["follow", "s", "t"],
    &["ask"],
    &["ask", "s"],
    &["ask", "", "count"],
    &["run", "s", "count"],
    &["try", "x"],
    &["--help"],
    &[],
];

/// Whether the words are refused before anything is read or written.
fn is_usage(alloc: Global, words: &[&str]) -> Result<bool, AllocError> {
    let ran = run(alloc, words, REPAIRS.as_bytes(), &WHOLE)?;
    Ok(ran.is(Ending::Usage, "") && ran.left == REPAIRS.len())
}

fn are_usage(alloc: Global, rows: &[&[&str]]) -> bool {
    rows.iter().all(|row| is_usage(alloc, row) == Ok(true))
}

#[test]
fn words_of_no_command(rt: HostRuntime) {
    assert!(rt; are_usage(rt.alloc(), &NO_COMMANDS));
}

/// Each end, its status, and the line on standard error; no line is written where it is empty.
const ENDS: [(Ending, u8, &str); 19] = [
    (Ending::Finished { refused: 0 }, 0, ""),
    (Ending::Finished { refused: 2 }, 1, ""),
    (
        Ending::Usage,
        2,
        "cube: usage: cube try, init NAME, run NAME, check NAME, import NAME, export NAME, drill N, lead NAME, follow NAME, ask NAME WORD.., schema NAME, rows NAME, rebuild NAME",
    ),
    (
        Ending::Schema {
            line: 7,
            code: Code::Depth,
        },
        3,
        "cube: schema line 7: depth",
    ),
    (Ending::NoCube, 4, "cube: no cube"),
    (Ending::HasCube, 4, "cube: cube exists"),
    (Ending::BadStore, 5, "cube: bad store: 2097153 rows"),
    (
        Ending::ReadFault { done: 2 },
        6,
        "cube: read fault after line 2",
    ),
    (
        Ending::WriteFault { done: 2 },
        7,
        "cube: write fault after line 2",
    ),
    (
        Ending::KeepFault { done: 2 },
        8,
        "cube: store fault after line 2",
    ),
    (
        Ending::Memory { done: 2 },
        9,
        "cube: out of memory after line 2",
    ),
    (
        Ending::TooLong { done: 2 },
        10,
        "cube: input too long after line 2",
    ),
    (
        Ending::BadRecord {
            index: 3,
            code: Code::Node,
        },
        11,
        "cube: record 3: node",
    ),
    (
        Ending::ImportRows { would: 3_145_728 },
        12,
        "cube: import would make 3145728 rows",
    ),
    (
        Ending::BadFeed {
            line: 7,
            code: Code::Order,
        },
        13,
        "cube: feed line 7: order",
    ),
    (
        Ending::Order { want: 2, got: 3 },
        14,
        "cube: batch 3 where 2 is next",
    ),
    (Ending::Base { place: Some(1) }, 15, "cube: base differs"),
    (Ending::Base { place: None }, 15, "cube: base differs"),
    (
        Ending::Differs { number: 3, line: 9 },
        16,
        "cube: batch 3 differs at line 9",
    ),
];

/// The end that ends so.
fn end_of(ending: Ending) -> End {
    match ending {
        Ending::Finished { refused } => End::Finished { refused },
        Ending::Usage => End::Usage,
        Ending::Schema { line, code } => End::Schema { line, code },
        Ending::NoCube => End::NoCube,
        Ending::HasCube => End::HasCube,
        Ending::BadStore => End::BadStore(Finding::TooManyRows { would: 2_097_153 }),
        Ending::ReadFault { done } => End::ReadFault { done },
        Ending::WriteFault { done } => End::WriteFault { done },
        Ending::KeepFault { done } => End::KeepFault { done },
        Ending::Memory { done } => End::Memory { done },
        Ending::TooLong { done } => End::TooLong { done },
        Ending::BadRecord { index, code } => End::BadRecord(BadRecord { index, code }),
        Ending::ImportRows { would } => End::ImportRows { would },
        Ending::BadFeed { line, code } => End::BadFeed { line, code },
        Ending::Order { want, got } => End::Order { want, got },
        Ending::Base { place } => End::Base { place },
        Ending::Differs { number, line } => End::Differs { number, line },
    }
}

/// Whether this is printed of an end.
fn is_told(alloc: Global, row: &(Ending, u8, &str)) -> Result<bool, AllocError> {
    let (ending, status, text) = *row;
    let (told, line) = end_of(ending).report();
    let said = match line {
        Some(line) => line.to_string(alloc)?,
        None => String::new(alloc),
    };
    Ok(told == status && said.as_str() == text)
}

fn are_told(alloc: Global, rows: &[(Ending, u8, &str)]) -> bool {
    rows.iter().all(|row| is_told(alloc, row) == Ok(true))
}

#[test]
fn statuses_and_lines_of_ends(rt: HostRuntime) {
    assert!(rt; are_told(rt.alloc(), &ENDS));
}

/// An input, the most bytes that it may have, how many bytes a read gives, the read that fails, and what is taken of it.
type Take = (&'static str, usize, usize, u64, Result<usize, InputStop>);

const TAKES: [Take; 8] = [
    ("", 0, ALL, 0, Ok(0)),
    ("abcd", 4, ALL, 0, Ok(4)),
    ("abcd", 4, 1, 0, Ok(4)),
    ("abcde", 4, ALL, 0, Err(InputStop::TooLong)),
    ("abcde", 4, 1, 0, Err(InputStop::TooLong)),
    ("abcdefgh", 4, 3, 0, Err(InputStop::TooLong)),
    ("abcd", 4, 2, 3, Err(InputStop::Fault)),
    // The read after the end is not made.
    ("abcd", 4, 2, 4, Ok(4)),
];

/// Whether so much is taken of an input.
fn takes(alloc: Global, row: &Take) -> Result<bool, AllocError> {
    let (input, limit, step, fails, taken) = *row;
    let mut source = source_of(alloc, input.as_bytes(), step, fails)?;
    let result = take_input(alloc, &mut source, limit.min(ALL));
    Ok(match (result, taken) {
        (Ok(bytes), Ok(len)) => bytes.len() == len,
        (Err(stop), Err(expected)) => stop == expected,
        _ => false,
    })
}

fn are_taken(alloc: Global, rows: &[Take]) -> bool {
    rows.iter().all(|row| takes(alloc, row) == Ok(true))
}

#[test]
fn inputs_up_to_a_limit(rt: HostRuntime) {
    assert!(rt; are_taken(rt.alloc(), &TAKES));
}
