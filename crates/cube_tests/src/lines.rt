//! Lines that are refused before they are done.
use crate::runs::{Case, Ending, REPAIRS, WHOLE, hold, run};
use cube_base::Code;
use std::alloc::{AllocError, Global};

/// The most bytes of a line.
const MAX_LINE: usize = 4096;

/// Lines over the schema of repairs, by the code for which each of them is refused.
const REFUSED: [(Code, &[u8]); 6] = [
    (
        Code::Text,
        b"insert\t1\tAustin\tCam\x01ry\t1\n\
            insert\t1\tAus\xfftin\tCamry\t1\n\
            insert\t1\tAustin\tCamry\t1\x7f\n\
            insert\t1\tAustin\tCamry\t1\r\r\n\
            change\t1\tAustin\tCamry\t1\x01\n\
            change\t1\tAustin\tCamry\xc3\t1\n\
            change\x7f\t1\tAustin\tCamry\t1\n\
            withdraw\t1\x01\n\
            withdraw\t\xff\n\
            withdraw\t1\x7f\n\
            terms\tAustin\tCam\x01\n\
            terms\tAus\xfftin\tCamry\n\
            terms\tAustin\tCamry\x7f\n\
            terms\r\tAustin\tCamry\n\
            rows\t1\x01\n\
            rows\t\xc3\n\
            rows\t\x7f\n\
            Insert\t1\tAustin\tCamry\t1\x01\n\
            insert\t1\tAustin\tCam\x01ry\n\
            insert\t1\x01\tAustin\tCamry\t1\n\
            insert\t1\tAustin\tCamry\t\x7f\n\
            Change\t1\tAustin\tCamry\t1\x01\n\
            change\t1\tAustin\tCam\x01ry\n\
            change\t1\x01\tAustin\tCamry\t1\n\
            change\t1\tAus\xfftin\tCamry\t1\n\
            change\t1\tAustin\tCamry\t\x7f\n\
            Withdraw\t1\x01\n\
            withdraw\t1\t\x01\n\
            Terms\tAustin\tCamry\x01\n\
            terms\tAustin\x01\n\
            terms\tAustin\tCam\x7fry\n\
            Rows\t1\x01\n\
            rows\t1\t\x01\n\
            rows\t\xff\n\
            \xff\n\
            count\r\tAustin\tCamry\n",
    ),
    (
        Code::Command,
        b"Insert\t1\tAustin\tCamry\t1\n\
            inserts\t1\tAustin\tCamry\t1\n\
            inser\t1\tAustin\tCamry\t1\n\
            Change\t1\tAustin\tCamry\t1\n\
            changes\t1\tAustin\tCamry\t1\n\
            chang\t1\tAustin\tCamry\t1\n\
            Withdraw\t1\n\
            withdraws\t1\n\
            withdra\t1\n\
            Terms\tAustin\tCamry\n\
            term\tAustin\tCamry\n\
            terms \tAustin\tCamry\n\
            Rows\t1\n\
            row\t1\n\
            \x20rows\t1\n\
            Insert\t1\tAustin\tCamry\n\
            Insert\t0\tAustin\tCamry\t1\n\
            Insert\t1\tWaco\tCamry\t1\n\
            Insert\t1\tAustin\tCamry\t+5\n\
            Change\t1\tAustin\tCamry\n\
            Change\t0\tAustin\tCamry\t1\n\
            Change\t1\tWaco\tCamry\t1\n\
            Change\t1\tAustin\tCamry\t+5\n\
            Withdraw\n\
            Withdraw\t0\n\
            Terms\tAustin\n\
            Terms\tWaco\tCamry\n\
            Rows\n\
            Rows\t0\n\
            \t\n",
    ),
    (
        Code::Fields,
        b"insert\n\
            insert\t1\tAustin\tCamry\n\
            insert\t1\tAustin\tCamry\t1\t\n\
            change\n\
            change\t1\tAustin\tCamry\n\
            change\t1\tAustin\tCamry\t1\t1\n\
            withdraw\n\
            withdraw\t1\t\n\
            terms\n\
            terms\tAustin\n\
            terms\tAustin\tCamry\t\n\
            rows\n\
            rows\t1\t1\n\
            insert\t0\tAustin\tCamry\n\
            insert\t1\tAustin\tWaco\n\
            insert\t1\tAustin\tCamry\t+5\t\n\
            change\t0\tAustin\tCamry\n\
            change\t1\tAustin\tWaco\n\
            change\t1\tAustin\tCamry\t+5\t\n\
            withdraw\t0\tx\n\
            withdraw\tx\t1\n\
            terms\tWaco\n\
            terms\tAustin\tWaco\t\n\
            rows\t0\tx\n\
            rows\tx\t1\n",
    ),
    (
        Code::Id,
        b"insert\t0\tAustin\tCamry\t1\n\
            insert\t\tAustin\tCamry\t1\n\
            insert\t01\tAustin\tCamry\t1\n\
            insert\t+1\tAustin\tCamry\t1\n\
            insert\t-1\tAustin\tCamry\t1\n\
            insert\t9223372036854775808\tAustin\tCamry\t1\n\
            insert\t18446744073709551617\tAustin\tCamry\t1\n\
            change\t0\tAustin\tCamry\t1\n\
            change\t 1\tAustin\tCamry\t1\n\
            change\t00\tAustin\tCamry\t1\n\
            change\t9223372036854775808\tAustin\tCamry\t1\n\
            withdraw\t0\n\
            withdraw\t\n\
            withdraw\t01\n\
            withdraw\t-1\n\
            withdraw\t1 \n\
            withdraw\t9223372036854775808\n\
            rows\t0\n\
            rows\t\n\
            rows\t01\n\
            rows\t+1\n\
            rows\tone\n\
            rows\t9223372036854775808\n\
            insert\t0\tAustin\tWaco\t1\n\
            insert\t0\tAustin\tCamry\t+5\n\
            insert\t0\tWaco\tCamry\t+5\n\
            change\t0\tAustin\tWaco\t1\n\
            change\t0\tAustin\tCamry\t+5\n\
            change\t0\tWaco\tCamry\tx\n",
    ),
    (
        Code::Node,
        b"insert\t1\tWaco\tCamry\t1\n\
            insert\t1\tAustin\tCorolla\t1\n\
            insert\t1\tCamry\tAustin\t1\n\
            insert\t1\t\tCamry\t1\n\
            insert\t1\taustin\tCamry\t1\n\
            change\t1\tWaco\tCamry\t1\n\
            change\t1\tAustin\tWaco\t1\n\
            change\t1\tAustin\t\t1\n\
            change\t1\tAustin \tCamry\t1\n\
            terms\tWaco\tCamry\n\
            terms\tAustin\tWaco\n\
            terms\tCamry\tAustin\n\
            terms\t\tCamry\n\
            terms\tAustin\t\n\
            terms\taustin\tCamry\n\
            insert\t1\tWaco\tCamry\t+5\n\
            insert\t1\tAustin\tWaco\t+5\n\
            change\t1\tWaco\tCamry\t+5\n\
            change\t1\tAustin\tWaco\t+5\n",
    ),
    (
        Code::Value,
        b"insert\t1\tLA\tCivic\t1000000000001\n\
            insert\t1\tLA\tCivic\t-1000000000001\n\
            insert\t1\tLA\tCivic\t18446744073709551617\n\
            insert\t1\tLA\tCivic\t+5\n\
            insert\t1\tLA\tCivic\t05\n\
            insert\t1\tLA\tCivic\t-0\n\
            insert\t1\tLA\tCivic\t\n\
            insert\t1\tLA\tCivic\t-\n\
            change\t1\tAustin\tCamry\t+5\n\
            change\t1\tAustin\tCamry\t1000000000001\n\
            change\t1\tAustin\tCamry\t-1000000000001\n\
            change\t1\tAustin\tCamry\t-01\n\
            change\t1\tAustin\tCamry\t1.0\n\
            change\t1\tAustin\tCamry\t\n",
    ),
];

/// The same of words that ask for one number.
const REFUSED_QUESTIONS: [(Code, &[u8]); 6] = [
    (
        Code::Name,
        b"view\tnone\n\
            view\tState\n\
            view\t\n",
    ),
    (
        Code::Fields,
        b"view\tstate\t1\n\
            view\n\
            count\n\
            count\tAustin\n\
            count\tAustin\tCamry\t\n\
            count\tWaco\n\
            sum\n\
            sum\tRepair\tAustin\n\
            sum\tRepair\tAustin\tCamry\t\n\
            sum\tPrice\tAustin\n\
            sum\tRepair\tWaco\n\
            avg\n\
            avg\tRepair\tAustin\n\
            avg\tRepair\tAustin\tCamry\t\n\
            avg\tPrice\tAustin\n\
            avg\tRepair\tWaco\n\
            pool\n\
            pool\tRepair\tAustin\n\
            pool\tRepair\tAustin\tCamry\t\n\
            pool\tPrice\tAustin\n\
            pool\tRepair\tWaco\n\
            worlds\n\
            worlds\tAustin\n\
            worlds\tAustin\tCamry\t\n\
            worlds\tWaco\n\
            worlds\tAustin\tWaco\t\n",
    ),
    (
        Code::Command,
        b"View\tnone\n\
            Count\tAustin\tCamry\n\
            count \tAustin\tCamry\n\
            Count\tAustin\n\
            Count\tWaco\tCamry\n\
            Sum\tRepair\tAustin\tCamry\n\
            sum \tRepair\tAustin\tCamry\n\
            Sum\tRepair\tAustin\n\
            Sum\tRepair\tWaco\tCamry\n\
            Avg\tRepair\tAustin\tCamry\n\
            avg \tRepair\tAustin\tCamry\n\
            Avg\tRepair\tAustin\n\
            Avg\tRepair\tWaco\tCamry\n\
            Pool\tRepair\tAustin\tCamry\n\
            pool \tRepair\tAustin\tCamry\n\
            Pool\tRepair\tAustin\n\
            Pool\tRepair\tWaco\tCamry\n\
            Worlds\tAustin\tCamry\n\
            world\tAustin\tCamry\n\
            worlds \tAustin\tCamry\n\
            Worlds\tAustin\n\
            Worlds\tWaco\tCamry\n",
    ),
    (
        Code::Text,
        b"count\tAustin\tCam\x01\n\
            count\tAus\xfftin\tCamry\n\
            Count\tAustin\tCamry\x01\n\
            sum\tRepair\tAustin\tCam\x01\n\
            sum\tRepair\tAus\xfftin\tCamry\n\
            Sum\tRepair\tAustin\tCamry\x01\n\
            avg\tRepair\tAustin\tCam\x01\n\
            avg\tRepair\tAus\xfftin\tCamry\n\
            Avg\tRepair\tAustin\tCamry\x01\n\
            pool\tRepair\tAustin\tCam\x01\n\
            pool\tRepair\tAus\xfftin\tCamry\n\
            Pool\tRepair\tAustin\tCamry\x01\n\
            worlds\tAustin\tCam\x01\n\
            worlds\tAus\xfftin\tCamry\n\
            worlds\tAustin\tCamry\x7f\n\
            Worlds\tAustin\tCamry\x01\n\
            worlds\tAustin\x01\n",
    ),
    (
        Code::Node,
        b"count\tWaco\tCamry\n\
            count\tAustin\tWaco\n\
            count\tCamry\tAustin\n\
            count\t\tCamry\n\
            sum\tRepair\tWaco\tCamry\n\
            sum\tRepair\tAustin\tWaco\n\
            sum\tRepair\tCamry\tAustin\n\
            sum\tRepair\t\tCamry\n\
            sum\tPrice\tWaco\tCamry\n\
            sum\t\tAustin\t\n\
            avg\tRepair\tWaco\tCamry\n\
            avg\tRepair\tAustin\tWaco\n\
            avg\tRepair\tCamry\tAustin\n\
            avg\tRepair\t\tCamry\n\
            avg\tPrice\tWaco\tCamry\n\
            avg\t\tAustin\t\n\
            pool\tRepair\tWaco\tCamry\n\
            pool\tRepair\tAustin\tWaco\n\
            pool\tRepair\tCamry\tAustin\n\
            pool\tRepair\t\tCamry\n\
            pool\tPrice\tWaco\tCamry\n\
            pool\t\tAustin\t\n\
            worlds\tWaco\tCamry\n\
            worlds\tAustin\tWaco\n\
            worlds\tCamry\tAustin\n\
            worlds\t\tCamry\n",
    ),
    (
        Code::Measure,
        b"sum\tPrice\tAustin\tCamry\n\
            sum\t\tAustin\tCamry\n\
            sum\trepair\tAustin\tCamry\n\
            sum\tRepair \tAustin\tCamry\n\
            avg\tPrice\tAustin\tCamry\n\
            avg\t\tAustin\tCamry\n\
            avg\trepair\tAustin\tCamry\n\
            avg\tRepair \tAustin\tCamry\n\
            pool\tPrice\tAustin\tCamry\n\
            pool\t\tAustin\tCamry\n\
            pool\trepair\tAustin\tCamry\n\
            pool\tRepair \tAustin\tCamry\n\
            pool\tRepair\tAustin\tCamry\n",
    ),
];

/// The reply to each of these lines, all refused for one code.
fn replies_to(alloc: Global, lines: &[u8], code: Code) -> Result<String, AllocError> {
    let mut replies = String::new(alloc);
    for byte in lines {
        if *byte == b'\n' {
            replies.push_str("error\t")?;
            replies.push_str(code.word())?;
            replies.push('\n')?;
        }
    }
    Ok(replies)
}

/// The schema of repairs, and lines after it.
fn input_of(alloc: Global, lines: &[u8]) -> Result<Vec<u8>, AllocError> {
    let mut input = Vec::from_slice(alloc, REPAIRS.as_bytes())?;
    input.extend_from_slice(lines)?;
    Ok(input)
}

/// Whether each of these lines, after which there is an LF, is refused for one code.
fn are_refused_for(alloc: Global, code: Code, lines: &[u8]) -> Result<bool, AllocError> {
    let input = input_of(alloc, lines)?;
    let replies = replies_to(alloc, lines, code)?;
    let refused = lines.iter().filter(|byte| **byte == b'\n').count() as u64;
    let ran = run(alloc, &["try"], &input, &WHOLE)?;
    Ok(ran.is(Ending::Finished { refused }, &replies))
}

/// Whether the lines of each code are refused for it.
fn are_refused(alloc: Global, groups: &[(Code, &[u8])]) -> bool {
    groups.iter().all(|(code, lines)| are_refused_for(alloc, *code, lines) == Ok(true))
}

#[test]
fn refused_lines(rt: HostRuntime) {
    assert!(rt; are_refused(rt.alloc(), &REFUSED));
}

#[test]
fn refused_questions(rt: HostRuntime) {
    assert!(rt; are_refused(rt.alloc(), &REFUSED_QUESTIONS));
}

/// A line whose middle is one byte many times: what stands before it, the byte, what stands after it, and why the line
/// is refused where it has as many bytes as a line may have.
type Filled = (&'static [u8], u8, &'static [u8], Code);

const FILLED: [Filled; 39] = [
    (b"insert\t1\tAustin\tCamry\t", b'1', b"", Code::Value),
    (b"insert\t", b'1', b"\tAustin\tCamry\t1", Code::Id),
    (b"insert\t1\t", b'a', b"\tCamry\t1", Code::Node),
    (b"insert\t1\tAustin\t", b'a', b"\t1", Code::Node),
    (b"insert\t1\tAustin\tCamry", b'y', b"", Code::Fields),
    (b"Insert\t1\tAustin\tCamry\t", b'1', b"", Code::Command),
    (b"insert\t1\tAustin\tCamry\t", b'1', b"\xff", Code::Text),
    (b"change\t1\tAustin\tCamry\t", b'1', b"", Code::Value),
    (b"change\t", b'1', b"\tAustin\tCamry\t1", Code::Id),
    (b"change\t1\t", b'a', b"\tCamry\t1", Code::Node),
    (b"change\t1\tAustin\tCamry", b'y', b"", Code::Fields),
    (b"Change\t1\tAustin\tCamry\t", b'1', b"", Code::Command),
    (b"change\t1\tAustin\tCamry\t", b'1', b"\x01", Code::Text),
    (b"withdraw\t", b'1', b"", Code::Id),
    (b"withdraw\t1\t", b'1', b"", Code::Fields),
    (b"Withdraw\t", b'1', b"", Code::Command),
    (b"withdraw\t", b'1', b"\xff", Code::Text),
    (b"terms\t", b'a', b"\tCamry", Code::Node),
    (b"terms\tAustin\t", b'a', b"", Code::Node),
    (b"terms\t", b'a', b"", Code::Fields),
    (b"Terms\tAustin\t", b'a', b"", Code::Command),
    (b"terms\tAustin\t", b'a', b"\x7f", Code::Text),
    (b"rows\t", b'1', b"", Code::Id),
    (b"rows\t1\t", b'1', b"", Code::Fields),
    (b"Rows\t", b'1', b"", Code::Command),
    (b"rows\t", b'1', b"\x01", Code::Text),
    (b"terms\t", b'a', b"\r", Code::Fields),
    (b"count\tAustin\t", b'a', b"", Code::Node),
    (b"sum\t", b'a', b"\tAustin\tCamry", Code::Measure),
    (b"avg\tRepair\tAustin", b'a', b"", Code::Fields),
    (b"pool\tRepair\t", b'a', b"\tCamry", Code::Node),
    (b"worlds\t", b'a', b"\tCamry", Code::Node),
    (b"worlds\tAustin", b'a', b"", Code::Fields),
    (b"avgs\tRepair\t0\t0\tAustin\t", b'a', b"\x01", Code::Text),
    (b"Counts\t0\t0\tAustin\t", b'a', b"", Code::Command),
    (b"pools\tRepair\t0\t0\tAustin", b'a', b"", Code::Fields),
    (b"counts\t", b'1', b"\t0\tAustin\tCamry", Code::Number),
    (b"counts\t0\t0\tAustin\t", b'a', b"", Code::Node),
    (b"sums\t", b'a', b"\t0\t0\tAustin\tCamry", Code::Measure),
];

/// The line with so many bytes in all, and an LF after it.
fn fill_line(alloc: Global, row: &Filled, len: usize) -> Result<Vec<u8>, AllocError> {
    let (front, byte, back, _) = *row;
    let middle = len.saturating_sub(front.len()).saturating_sub(back.len());
    let mut line = Vec::from_slice(alloc, front)?;
    for _ in 0..middle {
        line.push(byte)?;
    }
    line.extend_from_slice(back)?;
    line.push(b'\n')?;
    Ok(line)
}

/// Whether the line is refused for its code, and with a byte more for its length.
fn is_refused_filled(alloc: Global, row: &Filled) -> Result<bool, AllocError> {
    let code = row.3;
    let longest = fill_line(alloc, row, MAX_LINE)?;
    let longer = fill_line(alloc, row, MAX_LINE + 1)?;
    Ok(are_refused_for(alloc, code, &longest)? && are_refused_for(alloc, Code::Long, &longer)?)
}

fn are_refused_filled(alloc: Global, rows: &[Filled]) -> bool {
    rows.iter()
        .all(|row| is_refused_filled(alloc, row) == Ok(true))
}

#[test]
fn longest_lines(rt: HostRuntime) {
    assert!(rt; are_refused_filled(rt.alloc(), &FILLED));
}

/// Lines that are taken as they stand.
const TAKEN: [Case; 1] = [(
    REPAIRS,
    "insert\t4\tTX\tCamry\t600\nchange\t3\tHouston\tCamry\t50\ninsert\t9223372036854775807\tAustin\tCamry\t1\nterms\tAustin\tCamry\nterms\tAustin\tCamry\r\nrows\t4\nwithdraw\t4\n\n\r\n#x\ncount\tAll\tAll\nsum\tRepair\tAll\tAll\navg\tRepair\tAll\tAll\n",
    "ok\t1\nerror\tmissing\nok\t2\nterms\t1\t1\t2\t601\nterms\t1\t1\t2\t601\nrows\t1\t1\tAustin\tCamry\t1\nok\t0\ncount\t1.000000000\t1.000000000\t1\nsum\t1.000000000\t1.000000000\t1\navg\t1.000000000\t1.000000000\t1\n",
    Ending::Finished { refused: 1 },
)];

#[test]
fn taken_lines(rt: HostRuntime) {
    assert!(rt; hold(rt.alloc(), &TAKEN));
}
