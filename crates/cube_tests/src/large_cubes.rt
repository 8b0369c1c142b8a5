//! Large cubes, in the time that a test has: edits under many facts that are spread, and under one whose region is as large as may
//! be. A look at every fact, region or cell for each edit or question would pass that time many times over.
use crate::limits::{large_schema, push_nodes};
use crate::runs::{Ending, WHOLE, run};
use std::alloc::{AllocError, Global};
use std::fmt::Write;

/// Groups of two places each, and times.
const GROUPS: u32 = 512;

const TIMES: u32 = 256;

const COUNT: u32 = GROUPS * TIMES;

/// How often the same is asked.
const QUESTIONS: u32 = 524_288;

/// Groups of two places and times, with a view of everything.
fn schema_of_groups(alloc: Global) -> Result<String, AllocError> {
    let mut text = String::from_str(
        alloc,
        "cube\t1\npolicy\tcount\ndimension\tPlace\nnode\t0\tAll\n",
    )?;
    for group in 0..GROUPS {
        write!(
            text,
            "node\t1\tg{group}\nnode\t2\ta{group}\nnode\t2\tb{group}\n"
        )?;
    }
    text.push_str("dimension\tTime\nnode\t0\tAll\n")?;
    push_nodes(&mut text, 1, 't', TIMES)?;
    text.push_str("view\tall\t0\t0\nend\n")?;
    Ok(text)
}

/// Facts at each node of a letter and each time, whose ids follow on one.
fn push_inserts(text: &mut String, letter: char, last: u32) -> Result<(), AllocError> {
    for place in 0..COUNT {
        let id = u64::from(last) + u64::from(place) + 1;
        let (group, time) = (place / TIMES, 1 + place % TIMES);
        write!(text, "insert\t{id}\t{letter}{group}\tt{time}\n")?;
    }
    Ok(())
}

/// The second of them are withdrawn, the last one first.
fn push_withdrawals(text: &mut String) -> Result<(), AllocError> {
    for place in (0..COUNT).rev() {
        let id = u64::from(COUNT) + u64::from(place) + 1;
        write!(text, "withdraw\t{id}\n")?;
    }
    Ok(())
}

/// A line so many times.
fn push_often(text: &mut String, line: &str, count: u32) -> Result<(), AllocError> {
    for _ in 0..count {
        text.push_str(line)?;
    }
    Ok(())
}

/// Facts at each group and time, and under each of them one more, which goes again; then questions.
fn input_of_groups(alloc: Global) -> Result<String, AllocError> {
    let mut text = schema_of_groups(alloc)?;
    push_inserts(&mut text, 'g', 0)?;
    push_inserts(&mut text, 'a', COUNT)?;
    push_withdrawals(&mut text)?;
    push_often(&mut text, "terms\tAll\tAll\n", QUESTIONS)?;
    Ok(text)
}

/// Each of the first lies anew by itself alone, and by the one under it as that comes and goes.
fn replies_of_groups(alloc: Global) -> Result<String, AllocError> {
    let mut text = String::new(alloc);
    push_often(&mut text, "ok\t1\n", COUNT)?;
    push_often(&mut text, "ok\t2\n", COUNT)?;
    push_often(&mut text, "ok\t1\n", COUNT)?;
    push_often(&mut text, "terms\t1\t2\t262144\n", QUESTIONS)?;
    Ok(text)
}

/// Whether an input is answered so, and no line refused.
fn is_answered(alloc: Global, input: &str, replies: &str) -> Result<bool, AllocError> {
    let ran = run(alloc, &["try"], input.as_bytes(), &WHOLE)?;
    Ok(ran.is(Ending::Finished { refused: 0 }, replies))
}

fn are_covered(alloc: Global) -> Result<bool, AllocError> {
    is_answered(alloc, &input_of_groups(alloc)?, &replies_of_groups(alloc)?)
}

#[test]
fn edits_look_at_few_of_many_facts(rt: HostRuntime) {
    assert!(rt; are_covered(rt.alloc()) == Ok(true));
}

/// The last id of the facts in one cell, under the first fact.
const LAST: u32 = 30_001;

/// A fact of the most cells, and facts in one of them.
fn input_of_one_cell(alloc: Global) -> Result<String, AllocError> {
    let mut text = large_schema(alloc)?;
    text.push_str("insert\t1\tL\tS\n")?;
    for id in 2..=LAST {
        write!(text, "insert\t{id}\tl1\ts1\n")?;
    }
    text.push_str("rows\t1\n")?;
    Ok(text)
}

/// Each of them has the first fact lie anew.
fn replies_of_one_cell(alloc: Global) -> Result<String, AllocError> {
    let mut text = String::from_str(alloc, "ok\t1\n")?;
    push_often(&mut text, "ok\t2\n", 30_000)?;
    text.push_str("rows\t30000\t1\tl1\ts1\t30000\n")?;
    Ok(text)
}

fn are_stepped(alloc: Global) -> Result<bool, AllocError> {
    is_answered(
        alloc,
        &input_of_one_cell(alloc)?,
        &replies_of_one_cell(alloc)?,
    )
}

#[test]
fn large_regions_are_stepped(rt: HostRuntime) {
    assert!(rt; are_stepped(rt.alloc()) == Ok(true));
}
