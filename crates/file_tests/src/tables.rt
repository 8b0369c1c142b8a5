//! Files as SQL makes them, which are read or refused.
use crate::sql::run_script;
use fact_keeper::{KeepError, Keeper};
use sqlite_keeper::SqlKeeper;
use std::test::Fail;

/// Stores of which a table is made otherwise than it is to be, or holds what it may not.
const DAMAGED: [&str; 20] = [
    "CREATE TABLE cube (k INTEGER PRIMARY KEY, body TEXT NOT NULL)",
    "CREATE TABLE cube (k INTEGER PRIMARY KEY, body NOT NULL)",
    "CREATE TABLE cube (k INTEGER PRIMARY KEY, body BLOB)",
    "CREATE TABLE cube (k INTEGER NOT NULL, body BLOB NOT NULL)",
    "CREATE TABLE cube (k INT PRIMARY KEY, body BLOB NOT NULL)",
    "CREATE TABLE cube (id INTEGER PRIMARY KEY, body BLOB NOT NULL)",
    "CREATE TABLE fact (id INTEGER PRIMARY KEY, nodes BLOB NOT NULL)",
    "CREATE TABLE fact (id INTEGER PRIMARY KEY, cols BLOB NOT NULL, nodes BLOB NOT NULL)",
    "CREATE TABLE alloc (id INTEGER PRIMARY KEY, den NUMERIC NOT NULL, body BLOB NOT NULL)",
    "CREATE TABLE alloc (id INTEGER PRIMARY KEY, den INTEGER NOT NULL, body BLOB NOT NULL, more BLOB)",
    "CREATE VIEW fact AS SELECT 1 AS id, x'' AS nodes, x'' AS cols",
    "CREATE TABLE cube (k INTEGER PRIMARY KEY, body BLOB NOT NULL); INSERT INTO cube VALUES (2, x'61')",
    "CREATE TABLE cube (k INTEGER PRIMARY KEY, body BLOB NOT NULL); INSERT INTO cube VALUES (1, x'61'), (2, x'62')",
    "CREATE TABLE cube (k INTEGER PRIMARY KEY, body BLOB NOT NULL); INSERT INTO cube VALUES (1, 'a')",
    "CREATE TABLE fact (id INTEGER PRIMARY KEY, nodes BLOB NOT NULL, cols BLOB NOT NULL); INSERT INTO fact VALUES (-1, x'', x'')",
    "CREATE TABLE fact (id INTEGER PRIMARY KEY, nodes BLOB NOT NULL, cols BLOB NOT NULL); INSERT INTO fact VALUES (1, x'000002', x'')",
    "CREATE TABLE fact (id INTEGER PRIMARY KEY, nodes BLOB NOT NULL, cols BLOB NOT NULL); INSERT INTO fact VALUES (1, x'', x'00000258')",
    "CREATE TABLE alloc (id INTEGER PRIMARY KEY, den INTEGER NOT NULL, body BLOB NOT NULL); INSERT INTO alloc VALUES (1, -1, x'')",
    "CREATE TABLE alloc (id INTEGER PRIMARY KEY, den INTEGER NOT NULL, body BLOB NOT NULL); INSERT INTO alloc VALUES (1, 1.5, x'')",
    "CREATE TABLE alloc (id INTEGER PRIMARY KEY, den INTEGER NOT NULL, body BLOB NOT NULL); INSERT INTO alloc VALUES (1, 1, x'0000000000000000')",
];

/// Whether a load of the file at a path is a fault.
fn is_fault(rt: &HostRuntime, path: &str) -> bool {
    let mut keeper = SqlKeeper::new(rt);
    let is_fault = match keeper.load(rt.alloc(), path) {
        Ok(content) => {
            drop(content);
            false
        }
        Err(fault) => fault == KeepError::Failed,
    };
    drop(keeper);
    is_fault
}

/// Whether a file that a script makes is refused as a fault. Its name is the number.
fn is_damaged(rt: &HostRuntime, number: usize, script: &str) -> Result<bool, Fail> {
    let path = format!(in rt.alloc(); "damaged{number}.db")?;
    run_script(rt, &path, script)?;
    Ok(is_fault(rt, &path))
}

fn are_damaged(rt: &HostRuntime, scripts: &[&str]) -> Result<bool, Fail> {
    for (number, script) in scripts.iter().enumerate() {
        if !is_damaged(rt, number, script)? {
            return Ok(false);
        }
    }
    Ok(true)
}

#[test]
fn damaged_tables_are_faults(rt: HostRuntime) -> Result<(), Fail> {
    let damaged = are_damaged(&rt, &DAMAGED)?;
    assert!(rt; damaged);
    Ok(())
}

#[test]
fn no_file_is_made_in_no_folder(rt: HostRuntime) {
    assert!(rt; is_fault(&rt, "no_such_folder/store.db"));
}

/// A script, and the numbers of bytes of the schema, facts and entries of rows.
type Row = (&'static str, usize, usize, usize);

/// Files that are read, with the numbers of bytes of the schema, facts and entries of rows.
const READ: [Row; 5] = [
    ("", 0, 0, 0),
    (
        "CREATE TABLE other (a TEXT); INSERT INTO other VALUES ('b')",
        0,
        0,
        0,
    ),
    (
        "CREATE TABLE Cube (K integer, Body blob not null, PRIMARY KEY (k)) STRICT; INSERT INTO cube VALUES (1, x'6162')",
        2,
        0,
        0,
    ),
    (
        "CREATE TABLE fact (id INTEGER PRIMARY KEY, nodes BLOB NOT NULL, cols BLOB NOT NULL); INSERT INTO fact VALUES (7, x'', x''), (0, x'00000009', x'ffffffffffffffff')",
        0,
        2,
        0,
    ),
    (
        "CREATE TABLE alloc (id INTEGER PRIMARY KEY AUTOINCREMENT, den INTEGER NOT NULL, body BLOB NOT NULL); INSERT INTO alloc VALUES (3, 0, x'00000000000000000000000000000001')",
        0,
        0,
        1,
    ),
];

/// Whether the file at a path has so many of them.
fn has_as_many(rt: &HostRuntime, path: &str, row: &Row) -> bool {
    let (_, text, facts, rows) = *row;
    let mut keeper = SqlKeeper::new(rt);
    match keeper.load(rt.alloc(), path) {
        Ok(content) => {
            content.schema.as_slice().len() == text
                && content.facts.as_slice().len() == facts
                && content.rows.as_slice().len() == rows
        }
        Err(_) => false,
    }
}

/// Whether a file that a script makes is read as its row says. Its name is the number.
fn is_read(rt: &HostRuntime, number: usize, row: &Row) -> Result<bool, Fail> {
    let path = format!(in rt.alloc(); "read{number}.db")?;
    run_script(rt, &path, row.0)?;
    Ok(has_as_many(rt, &path, row))
}

fn are_read(rt: &HostRuntime, rows: &[Row]) -> Result<bool, Fail> {
    for (number, row) in rows.iter().enumerate() {
        if !is_read(rt, number, row)? {
            return Ok(false);
        }
    }
    Ok(true)
}

#[test]
fn other_tables_are_read(rt: HostRuntime) -> Result<(), Fail> {
    let read = are_read(&rt, &READ)?;
    assert!(rt; read);
    Ok(())
}
