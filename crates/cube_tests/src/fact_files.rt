//! Files of facts that are imported into stores, and exported from them.
use crate::fact_tables::{FactRow, SpreadRow};
use crate::limits::large_schema;
use crate::runs::{ALL, Ending, WHOLE, run_kept};
use crate::store_faults::{Fault, end_so};
use crate::stored::{CITIES, FACTS, SPREADS, holds_just, is_spread, run_stored, without_facts};
use cube_base::{Code, Memory};
use fact_keeper::{Batch, MemKeeper};
use std::alloc::{AllocError, Global};
use std::fmt::Write;

/// Repairs, with a city whose name has a comma.
const PARIS: &str =
    "cube\t1\npolicy\tcount\nnumber\tRepair\ndimension\tPlace\nnode\t0\tAll\nnode\t1\tTX\nnode\t2\tAustin\nnode\t2\tDallas\nnode\t2\tHouston\nnode\t2\tParis, TX\nnode\t1\tCA\nnode\t2\tLA\nnode\t2\tSF\ndimension\tAuto\nnode\t0\tAll\nnode\t1\tSedan\nnode\t2\tCamry\nnode\t2\tCivic\nnode\t1\tTruck\nnode\t2\tF150\nnode\t2\tSierra\nview\tstate\t1\t1\nend\n";

/// Two places, and no measure.
const PLACES: &str =
    "cube\t1\npolicy\tuniform\ndimension\tPlace\nnode\t0\tAll\nnode\t1\ta\nnode\t1\tb\nend\n";

/// A name of quotes alone, one with quotes and a comma, and a distribution.
const MOODS: &str =
    "cube\t1\npolicy\tcount\nparts\tMood\t100\tgood\tbad\ndimension\tPlace\nnode\t0\tAll\nnode\t1\t\"\"\nnode\t1\ta \"b\", c\nend\n";

/// Two dimensions, one node with a comma and one with quotes, a number and a distribution.
const MIXED: &str =
    "cube\t1\npolicy\tcount\nnumber\tRepair\nparts\tMood\t100\tgood\tbad\ndimension\tPlace\nnode\t0\tAll\nnode\t1\tParis, TX\nnode\t1\tThe \"Hub\"\ndimension\tAuto\nnode\t0\tCamry\nend\n";

/// Two repairs, after a byte order mark.
const TWO_REPAIRS: &str =
    "\u{feff}id,Place,Auto,Repair\r\n1,\"Paris, TX\",Camry,100\r\n2,TX,Camry,600\n";

/// The schema of a store without facts, a file, its first record that is refused, what is written, and what is exported then.
pub type File = (
    &'static str,
    &'static [u8],
    Option<(u64, Code)>,
    &'static str,
    &'static str,
);

const NO_REPAIR: &str = "id,Place,Auto,Repair\n";

const NO_PLACE: &str = "id,Place\n";

const NO_MOOD: &str = "id,Place,Mood\n";

const NO_MIXED: &str = "id,Place,Auto,Repair,Mood\n";

/// Repairs, and headers.
const FILES: [File; 12] = [
    (
        PARIS,
        b"\xef\xbb\xbfid,Place,Auto,Repair\r\n1,\"Paris, TX\",Camry,100\r\n2,TX,Camry,600\n",
        None,
        "imported\t2\t2\n",
        "id,Place,Auto,Repair\n1,\"Paris, TX\",Camry,100\n2,TX,Camry,600\n",
    ),
    (
        PARIS,
        b"\xef\xbb\xbfid,Place,Auto,Repair\r\n1,\"Paris, TX\",Camry,100\r\n2,TX,Camry,600\n3,Waco,Camry,5\n",
        Some((3, Code::Node)),
        "",
        NO_REPAIR,
    ),
    // The header.
    (PLACES, b"", Some((0, Code::Header)), "", NO_PLACE),
    (
        PLACES,
        b"\xef\xbb\xbf",
        Some((0, Code::Header)),
        "",
        NO_PLACE,
    ),
    (
        PLACES,
        b"\xef\xbb\xbf\xef\xbb\xbfid,Place\n",
        Some((0, Code::Header)),
        "",
        NO_PLACE,
    ),
    (PLACES, b"id\n", Some((0, Code::Header)), "", NO_PLACE),
    (
        PLACES,
        b"id,Place,\n",
        Some((0, Code::Header)),
        "",
        NO_PLACE,
    ),
    (PLACES, b"Place,id\n", Some((0, Code::Header)), "", NO_PLACE),
    (PLACES, b"1,a\n", Some((0, Code::Header)), "", NO_PLACE),
    (
        PARIS,
        b"id,Place,Auto,repair\n",
        Some((0, Code::Header)),
        "",
        NO_REPAIR,
    ),
    (PLACES, b"id,Place\n", None, "imported\t0\t0\n", NO_PLACE),
    (
        PLACES,
        b"\"id\",\"Place\"",
        None,
        "imported\t0\t0\n",
        NO_PLACE,
    ),
];

/// Each code at a record, and two at once.
const BAD_RECORDS: [File; 13] = [
    (
        PLACES,
        b"id,Place\n1\n",
        Some((1, Code::Fields)),
        "",
        NO_PLACE,
    ),
    (
        PLACES,
        b"id,Place\n1,a,\n",
        Some((1, Code::Fields)),
        "",
        NO_PLACE,
    ),
    (
        PLACES,
        b"id,Place\n1,a,\xff\n",
        Some((1, Code::Fields)),
        "",
        NO_PLACE,
    ),
    (
        PLACES,
        b"id,Place\n\"\"\n1,a\n",
        Some((1, Code::Fields)),
        "",
        NO_PLACE,
    ),
    (
        PLACES,
        b"id,Place\n0,\xff\n",
        Some((1, Code::Text)),
        "",
        NO_PLACE,
    ),
    (
        PLACES,
        b"id,Place\n0,z\n",
        Some((1, Code::Id)),
        "",
        NO_PLACE,
    ),
    (
        PLACES,
        b"id,Place\n1,z\n",
        Some((1, Code::Node)),
        "",
        NO_PLACE,
    ),
    (
        PARIS,
        b"id,Place,Auto,Repair\n1,Waco,Camry,x\n",
        Some((1, Code::Node)),
        "",
        NO_REPAIR,
    ),
    (
        PARIS,
        b"id,Place,Auto,Repair\n1,TX,Camry,05\n",
        Some((1, Code::Value)),
        "",
        NO_REPAIR,
    ),
    (
        MOODS,
        b"id,Place,Mood\n1,All,80:21\n",
        Some((1, Code::Parts)),
        "",
        NO_MOOD,
    ),
    (
        PLACES,
        b"id,Place\n1,a\n1,b\n",
        Some((2, Code::Exists)),
        "",
        NO_PLACE,
    ),
    // A fact that is refused is reported before a record after it that cannot be read, and after one before it.
    (
        PLACES,
        b"id,Place\n1,a\n1,b\nx\n",
        Some((2, Code::Exists)),
        "",
        NO_PLACE,
    ),
    (
        PLACES,
        b"id,Place\n1,a\nx\n1,b\n",
        Some((2, Code::Fields)),
        "",
        NO_PLACE,
    ),
];

/// Quotes, line ends, empty lines.
const QUOTED_FILES: [File; 13] = [
    (
        MOODS,
        b"id,Place,Mood\n2,\"a \"\"b\"\", c\",80:20\n1,\"\"\"\"\"\",0:100\n",
        None,
        "imported\t2\t2\n",
        "id,Place,Mood\n1,\"\"\"\"\"\",0:100\n2,\"a \"\"b\"\", c\",80:20\n",
    ),
    (
        MOODS,
        b"id,Place,Mood\n1,\"\"\"\",0:100\n",
        Some((1, Code::Node)),
        "",
        NO_MOOD,
    ),
    (
        PLACES,
        b"id,Place\n1,\"a\nb\"\n",
        Some((1, Code::Node)),
        "",
        NO_PLACE,
    ),
    (
        PLACES,
        b"id,Place\n1,\"a\n2,b\n",
        Some((1, Code::Node)),
        "",
        NO_PLACE,
    ),
    (
        PLACES,
        b"id,Place\n1,a",
        None,
        "imported\t1\t1\n",
        "id,Place\n1,a\n",
    ),
    (
        PLACES,
        b"id,Place\r1,a\r2,b\r",
        None,
        "imported\t2\t2\n",
        "id,Place\n1,a\n2,b\n",
    ),
    (
        PLACES,
        b"id,Place\r\n1,a\r\n2,b",
        None,
        "imported\t2\t2\n",
        "id,Place\n1,a\n2,b\n",
    ),
    (
        PLACES,
        b"\n\r\nid,Place\n\n\n1,a\n\n",
        None,
        "imported\t1\t1\n",
        "id,Place\n1,a\n",
    ),
    (
        PLACES,
        b"id,Place\n\n\n1,z\n",
        Some((1, Code::Node)),
        "",
        NO_PLACE,
    ),
    (
        PLACES,
        b"id,Place\n\"1\",\"a\"\n",
        None,
        "imported\t1\t1\n",
        "id,Place\n1,a\n",
    ),
    (
        PLACES,
        b"id,Place\n 1,a\n",
        Some((1, Code::Id)),
        "",
        NO_PLACE,
    ),
    (
        PLACES,
        b"id,Place\n1, a\n",
        Some((1, Code::Node)),
        "",
        NO_PLACE,
    ),
    (
        PLACES,
        b"id,Place\n9223372036854775807,All\n3,b\n1,a\n",
        None,
        "imported\t3\t3\n",
        "id,Place\n1,a\n3,b\n9223372036854775807,All\n",
    ),
];

/// Of two measures: the header, records of any length, one wrong field or more.
const FILES_OF_TWO_MEASURES: [File; 30] = [
    (MIXED, b"\n\n", Some((0, Code::Header)), "", NO_MIXED),
    (
        MIXED,
        b"id,Place,Auto,Repair\n",
        Some((0, Code::Header)),
        "",
        NO_MIXED,
    ),
    (
        MIXED,
        b"id,Place,Auto,Mood,Repair\n",
        Some((0, Code::Header)),
        "",
        NO_MIXED,
    ),
    (
        MIXED,
        b"Id,Place,Auto,Repair,Mood\n",
        Some((0, Code::Header)),
        "",
        NO_MIXED,
    ),
    (
        MIXED,
        b"id,Place,Auto,Repair,Mood,\n",
        Some((0, Code::Header)),
        "",
        NO_MIXED,
    ),
    (
        MIXED,
        b"id,Place,Auto,Repair, Mood\n",
        Some((0, Code::Header)),
        "",
        NO_MIXED,
    ),
    (
        MIXED,
        b"\xef\xbb\xbf\xef\xbb\xbfid,Place,Auto,Repair,Mood\n",
        Some((0, Code::Header)),
        "",
        NO_MIXED,
    ),
    (
        MIXED,
        b"1,All,Camry,1,50:50\n",
        Some((0, Code::Header)),
        "",
        NO_MIXED,
    ),
    (
        MIXED,
        b"id,Place,Auto,Repair,Mood\n",
        None,
        "imported\t0\t0\n",
        NO_MIXED,
    ),
    (
        MIXED,
        b"id,Place,Auto,Repair,Mood",
        None,
        "imported\t0\t0\n",
        NO_MIXED,
    ),
    (
        MIXED,
        b"\n\r\n\"id\",Place,\"Auto\",Repair,Mood\r\n\r\n",
        None,
        "imported\t0\t0\n",
        NO_MIXED,
    ),
    (
        MIXED,
        b"\xef\xbb\xbfid,Place,Auto,Repair,Mood\r\n2,\"Paris, TX\",Camry,-7,80:20\r\n1,\"The \"\"Hub\"\"\",Camry,600,0:100",
        None,
        "imported\t2\t2\n",
        "id,Place,Auto,Repair,Mood\n1,\"The \"\"Hub\"\"\",Camry,600,0:100\n2,\"Paris, TX\",Camry,-7,80:20\n",
    ),
    (
        MIXED,
        b"id,Place,Auto,Repair,Mood\n9223372036854775807,All,Camry,-1000000000000,100:0\n",
        None,
        "imported\t1\t1\n",
        "id,Place,Auto,Repair,Mood\n9223372036854775807,All,Camry,-1000000000000,100:0\n",
    ),
    (
        MIXED,
        b"id,Place,Auto,Repair,Mood\n1,All,Camry,1,50:50\n1,All,Camry,1,50:50\n",
        Some((2, Code::Exists)),
        "",
        NO_MIXED,
    ),
    (
        MIXED,
        b"id,Place,Auto,Repair,Mood\n1,All,Camry,1,50:50\n2,All,Camry,1\n",
        Some((2, Code::Fields)),
        "",
        NO_MIXED,
    ),
    (
        MIXED,
        b"id,Place,Auto,Repair,Mood\n1,All,Camry,1,50:50\n2,All,Camry,1,50:50,\n",
        Some((2, Code::Fields)),
        "",
        NO_MIXED,
    ),
    (
        MIXED,
        b"id,Place,Auto,Repair,Mood\n1,All,Camry,1,50:50\n\"\"\n",
        Some((2, Code::Fields)),
        "",
        NO_MIXED,
    ),
    (
        MIXED,
        b"id,Place,Auto,Repair,Mood\n\n1,All,Camry,1,50:50\n\r\n\n2,All,Camry,1,\n3\n",
        Some((2, Code::Parts)),
        "",
        NO_MIXED,
    ),
    (
        MIXED,
        b"id,Place,Auto,Repair,Mood\n\xff\n",
        Some((1, Code::Fields)),
        "",
        NO_MIXED,
    ),
    (
        MIXED,
        b"id,Place,Auto,Repair,Mood\n2,All,Camry,1,50:50,\xff\n",
        Some((1, Code::Fields)),
        "",
        NO_MIXED,
    ),
    (
        MIXED,
        b"id,Place,Auto,Repair,Mood\n0,\xff,Camry,1,50:50\n",
        Some((1, Code::Text)),
        "",
        NO_MIXED,
    ),
    (
        MIXED,
        b"id,Place,Auto,Repair,Mood\n0,Waco,Camry,1,50:50\n",
        Some((1, Code::Id)),
        "",
        NO_MIXED,
    ),
    (
        MIXED,
        b"id,Place,Auto,Repair,Mood\n01,All,Camry,1,50:50\n",
        Some((1, Code::Id)),
        "",
        NO_MIXED,
    ),
    (
        MIXED,
        b"id,Place,Auto,Repair,Mood\n9223372036854775808,All,Camry,1,50:50\n",
        Some((1, Code::Id)),
        "",
        NO_MIXED,
    ),
    (
        MIXED,
        b"id,Place,Auto,Repair,Mood\n1, All,Camry,+1,50:50\n",
        Some((1, Code::Node)),
        "",
        NO_MIXED,
    ),
    (
        MIXED,
        b"id,Place,Auto,Repair,Mood\n1,\"The\nHub\",Camry,x,50:50\n",
        Some((1, Code::Node)),
        "",
        NO_MIXED,
    ),
    (
        MIXED,
        b"id,Place,Auto,Repair,Mood\n1,All,Camry,1000000000001,51:50\n",
        Some((1, Code::Value)),
        "",
        NO_MIXED,
    ),
    (
        MIXED,
        b"id,Place,Auto,Repair,Mood\n1,All,Camry,-0,51:50\n",
        Some((1, Code::Value)),
        "",
        NO_MIXED,
    ),
    (
        MIXED,
        b"id,Place,Auto,Repair,Mood\n1,All,Camry,1,51:50\n",
        Some((1, Code::Parts)),
        "",
        NO_MIXED,
    ),
    (
        MIXED,
        b"id,Place,Auto,Repair,Mood\n1,All,Camry,1,100\n",
        Some((1, Code::Parts)),
        "",
        NO_MIXED,
    ),
];

/// The end of an import of which this record is refused, if one is.
fn end_of(refused: Option<(u64, Code)>) -> Ending {
    match refused {
        Some((index, code)) => Ending::BadRecord { index, code },
        None => DONE,
    }
}

const DONE: Ending = Ending::Finished { refused: 0 };

/// Whether a keeper's facts are exported so, and nothing is kept of that.
fn is_exported(alloc: Global, keeper: &mut MemKeeper, text: &str) -> Result<bool, AllocError> {
    let before = keeper.journal().len();
    let ran = run_kept(alloc, &["export", "s"], b"not read", &WHOLE, keeper)?;
    Ok(ran.is(DONE, text) && ran.left == 8 && keeper.journal().len() == before)
}

/// Whether a file is imported as a case says, by one batch or none.
pub fn is_imported(alloc: Global, row: &File) -> Result<bool, Memory> {
    let (schema, file, refused, written, exported) = *row;
    let mut kept = run_stored(alloc, "import", without_facts(schema), 0, file, &WHOLE)?;
    let batches = if refused.is_none() { 1 } else { 0 };
    let is_right = kept.ran.is(end_of(refused), written)
        && kept.ran.left == 0
        && kept.keeper.journal().len() == batches
        && is_exported(alloc, &mut kept.keeper, exported) == Ok(true);
    drop(kept);
    Ok(is_right)
}

fn are_imported(alloc: Global, rows: &[File]) -> bool {
    rows.iter().all(|row| is_imported(alloc, row) == Ok(true))
}

#[test]
fn files_of_facts(rt: HostRuntime) {
    assert!(rt; are_imported(rt.alloc(), &FILES));
}

#[test]
fn files_with_bad_records(rt: HostRuntime) {
    assert!(rt; are_imported(rt.alloc(), &BAD_RECORDS));
}

#[test]
fn files_with_quotes(rt: HostRuntime) {
    assert!(rt; are_imported(rt.alloc(), &QUOTED_FILES));
}

#[test]
fn files_of_two_measures(rt: HostRuntime) {
    assert!(rt; are_imported(rt.alloc(), &FILES_OF_TWO_MEASURES));
}

/// What a store of cities has once a fifth fact is put in Dallas: the fourth lies half in Austin and half there.
const FIVE_FACTS: [FactRow; 5] = [
    (1, &[2], &[10]),
    (2, &[3], &[20]),
    (3, &[2], &[30]),
    (4, &[1], &[40]),
    (5, &[3], &[50]),
];

const FIVE_SPREADS: [SpreadRow; 5] = [
    (1, 1, &[(0, 1)]),
    (2, 1, &[(1, 1)]),
    (3, 1, &[(0, 1)]),
    (4, 4, &[(0, 2), (1, 2)]),
    (5, 1, &[(1, 1)]),
];

/// The spreads that change.
const LATER_SPREADS: [SpreadRow; 2] = [(4, 4, &[(0, 2), (1, 2)]), (5, 1, &[(1, 1)])];

/// Whether a batch has the new fact, and the rows of it and of the fourth.
fn is_later(batch: &Batch) -> bool {
    batch.schema.is_none()
        && batch.gone.as_slice().is_empty()
        && batch.facts.as_slice().len() == 1
        && batch.rows.as_slice().len() == LATER_SPREADS.len()
        && (batch.rows.as_slice().iter())
            .zip(&LATER_SPREADS)
            .all(|(kept, row)| is_spread(kept, row))
}

/// Whether a file over facts keeps its own, and the rows of those whose allocation changed.
fn keeps_what_changed(alloc: Global) -> Result<bool, Memory> {
    let file = b"id,Place,Hours\n5,Dallas,50\n";
    let kept = run_stored(alloc, "import", (CITIES, &FACTS, &SPREADS), 0, file, &WHOLE)?;
    let is_batch = match kept.keeper.journal() {
        [batch] => is_later(batch),
        _ => false,
    };
    let is_right = is_batch
        && kept.ran.is(DONE, "imported\t1\t2\n")
        && holds_just(kept.keeper.content(), &FIVE_FACTS, &FIVE_SPREADS);
    drop(kept);
    Ok(is_right)
}

#[test]
fn a_file_over_facts(rt: HostRuntime) {
    assert!(rt; keeps_what_changed(rt.alloc()) == Ok(true));
}

/// The load is the first call of the keeper, and the commit the second.
const FAULTS: [Fault; 4] = [
    (1, ALL, 0, Ending::KeepFault { done: 0 }, "", 0, &[]),
    (2, ALL, 0, Ending::KeepFault { done: 0 }, "", 0, &[]),
    (0, ALL, 1, Ending::WriteFault { done: 1 }, "", 1, &[1, 2]),
    (3, ALL, 0, DONE, "imported\t2\t2\n", 1, &[1, 2]),
];

#[test]
fn faults_of_an_import(rt: HostRuntime) {
    assert!(rt; end_so(rt.alloc(), "import", PARIS, TWO_REPAIRS, &FAULTS));
}

/// A file of the large schema, how its import ends, and what is written.
const LARGE: [(&[u8], Ending, &str); 3] = [
    (
        b"id,Left,Right\n1,L,S\n2,L,S\n3,L,S\n",
        Ending::ImportRows { would: 3_145_728 },
        "",
    ),
    (
        b"id,Left,Right\n1,L,R\n",
        Ending::BadRecord {
            index: 1,
            code: Code::Region,
        },
        "",
    ),
    // A precise fact takes away the rows that the others would have.
    (
        b"id,Left,Right\n1,L,S\n2,L,S\n3,L,S\n4,l1,s1\n",
        DONE,
        "imported\t4\t4\n",
    ),
];

/// Whether the import of a file over the large schema ends so.
fn ends_large(alloc: Global, schema: &str, row: &(&[u8], Ending, &str)) -> Result<bool, Memory> {
    let (file, end, written) = *row;
    let kept = run_stored(alloc, "import", without_facts(schema), 0, file, &WHOLE)?;
    let is_right = kept.ran.is(end, written);
    drop(kept);
    Ok(is_right)
}

/// Whether files end so over a large schema.
fn are_large(alloc: Global, rows: &[(&[u8], Ending, &str)]) -> Result<bool, Memory> {
    let schema = large_schema(alloc)?;
    for row in rows {
        if !ends_large(alloc, &schema, row)? {
            return Ok(false);
        }
    }
    Ok(true)
}

#[test]
fn files_of_many_rows(rt: HostRuntime) {
    assert!(rt; are_large(rt.alloc(), &LARGE) == Ok(true));
}

/// The file of so many facts at one place.
fn many_facts(alloc: Global, count: u32) -> Result<String, AllocError> {
    let mut text = String::from_str(alloc, "id,Place\n")?;
    for id in 1..=count {
        write!(text, "{id},a\n")?;
    }
    Ok(text)
}

/// Whether a file of one fact more than there may be is refused at the last.
fn are_too_many(alloc: Global) -> Result<bool, Memory> {
    let file = many_facts(alloc, 1_048_577)?;
    let content = without_facts(PLACES);
    let kept = run_stored(alloc, "import", content, 0, file.as_bytes(), &WHOLE)?;
    let end = end_of(Some((1_048_577, Code::Facts)));
    let is_right = kept.ran.is(end, "") && kept.keeper.journal().is_empty();
    drop(kept);
    Ok(is_right)
}

#[test]
fn one_fact_too_many(rt: HostRuntime) {
    assert!(rt; are_too_many(rt.alloc()) == Ok(true));
}
