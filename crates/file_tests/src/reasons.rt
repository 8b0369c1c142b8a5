//! Why a store is not to be had, over files of each kind; and what stays as it was then.
use crate::contents::{FIRST, SECOND, batch_of};
use crate::sql::{are_found, run_script};
use cube_base::Memory;
use fact_keeper::Keeper;
use sqlite_file::Reason;
use sqlite_keeper::SqlKeeper;
use std::fs;
use std::os::unix::fs::symlink;
use std::test::Fail;

/// What stands there first.
enum Made {
    Nothing,
    /// A folder.
    Folder(&'static str),
    /// A file of these bytes.
    Bytes(&'static str, &'static str),
    /// The file of a script.
    Sql(&'static str, &'static str),
    /// The file of a script, with another byte at a place.
    Byte(&'static str, &'static str, usize, u8),
    /// The file of an empty script, and a second link to it.
    Linked(&'static str, &'static str),
    /// A symbolic link, and the path to which it leads.
    Link(&'static str, &'static str),
}

/// What stands there, the name that is loaded, why it is not to be had, and what that is called.
type Row = (Made, &'static str, Reason, &'static str);

/// The byte of the damaged page says of which kind it is. The others stand in the text of a rule, at the end of the first page, and in that of an
/// index, which has an expression then.
const ROWS: [Row; 19] = [
    (Made::Nothing, "", Reason::BadName, "not a name for a store"),
    (
        Made::Nothing,
        ":memory:",
        Reason::BadName,
        "not a name for a store",
    ),
    (
        Made::Nothing,
        "none/a.cube",
        Reason::NoFolder,
        "no such folder",
    ),
    (
        Made::Folder("folder.cube"),
        "folder.cube",
        Reason::IsFolder,
        "a folder",
    ),
    (
        Made::Bytes("text.cube", "some text that is no database"),
        "text.cube",
        Reason::NotSqlite,
        "not an SQLite file",
    ),
    (
        Made::Bytes("short.cube", "SQ"),
        "short.cube",
        Reason::NotSqlite,
        "not an SQLite file",
    ),
    (
        Made::Bytes("moved.cube-wal", "log"),
        "moved.cube",
        Reason::LogAlone,
        "a log with content stands beside no store: put the store back beside it, or remove the log",
    ),
    (
        Made::Bytes("moved.cube", "S"),
        "moved.cube",
        Reason::LogAlone,
        "a log with content stands beside no store: put the store back beside it, or remove the log",
    ),
    (
        Made::Bytes("crashed.cube-journal", "j"),
        "crashed.cube",
        Reason::Journal,
        "a crash left a journal beside it: open it once with sqlite3",
    ),
    (
        Made::Linked("one.cube", "two.cube"),
        "one.cube",
        Reason::Linked,
        "it has a second hard link: copy it to a file of its own",
    ),
    (
        Made::Sql(
            "table.cube",
            "CREATE TABLE cube (k INTEGER PRIMARY KEY, body TEXT NOT NULL)",
        ),
        "table.cube",
        Reason::Table("cube"),
        "its table cube is not laid out as a store's",
    ),
    (
        Made::Sql(
            "ruled.cube",
            "CREATE TABLE fact (id INTEGER PRIMARY KEY, nodes BLOB NOT NULL, cols BLOB NOT NULL, CHECK (id < 3))",
        ),
        "ruled.cube",
        Reason::Table("fact"),
        "its table fact is not laid out as a store's",
    ),
    (
        Made::Byte(
            "bound.cube",
            "CREATE TABLE alloc (id INTEGER PRIMARY KEY, den INTEGER NOT NULL, body BLOB NOT NULL); CREATE INDEX i ON alloc (den)",
            3982,
            b'-',
        ),
        "bound.cube",
        Reason::Bound("alloc"),
        "its table alloc has a trigger, or an index with an expression or a WHERE",
    ),
    (
        Made::Link("link1.cube", "moved.cube"),
        "link1.cube",
        Reason::LogAlone,
        "a log with content stands beside no store: put the store back beside it, or remove the log",
    ),
    (
        Made::Link("link2.cube", "none.cube"),
        "link2.cube",
        Reason::NotAFile,
        "not a plain file",
    ),
    (
        Made::Nothing,
        "/dev/null",
        Reason::NotAFile,
        "not a plain file",
    ),
    (
        Made::Byte("page.cube", "CREATE TABLE other (a TEXT)", 4096, 255),
        "page.cube",
        Reason::Damaged,
        "a page of it or of its log is damaged",
    ),
    (
        Made::Byte(
            "rule.cube",
            "CREATE TABLE other (a INTEGER CHECK (a < 9)); INSERT INTO other VALUES (5)",
            4093,
            b'2',
        ),
        "rule.cube",
        Reason::Unreadable,
        "it holds what cannot be read here, or rows that break its own schema",
    ),
    (
        Made::Sql(
            "row.cube",
            "CREATE TABLE cube (k INTEGER PRIMARY KEY, body BLOB NOT NULL); INSERT INTO cube VALUES (2, x'61')",
        ),
        "row.cube",
        Reason::Row,
        "a row of its tables holds what no edit writes",
    ),
];

/// Puts a byte at a place of a file.
fn put_byte(rt: &HostRuntime, path: &str, at: usize, byte: u8) -> Result<(), Fail> {
    let mut bytes = fs::read(rt, path)?;
    if let Some(place) = bytes.get_mut(at) {
        *place = byte;
    }
    fs::write(rt, path, bytes)?;
    Ok(())
}

/// Makes what is to stand there.
fn make(rt: &HostRuntime, made: &Made) -> Result<(), Fail> {
    match made {
        Made::Nothing => {}
        Made::Folder(path) => fs::create_dir(rt, *path)?,
        Made::Bytes(path, bytes) => fs::write(rt, *path, *bytes)?,
        Made::Sql(path, script) => run_script(rt, path, script)?,
        Made::Byte(path, script, at, byte) => {
            run_script(rt, path, script)?;
            put_byte(rt, path, *at, *byte)?;
        }
        Made::Linked(path, link) => {
            run_script(rt, path, "")?;
            fs::hard_link(rt, *path, *link)?;
        }
        Made::Link(path, target) => symlink(rt, *target, *path)?,
    }
    Ok(())
}

/// Why a load of a name failed, if it failed.
fn reason_at(rt: &HostRuntime, name: &str) -> Option<Reason> {
    let mut keeper = SqlKeeper::new(rt);
    let loaded = keeper.load(rt.alloc(), name).is_ok();
    let reason = keeper.reason();
    drop(keeper);
    if loaded { None } else { reason }
}

/// Whether the bytes of a file stand as they were made.
fn is_left(rt: &HostRuntime, made: &Made) -> Result<bool, Fail> {
    match made {
        Made::Bytes(path, bytes) => Ok(fs::read_to_string(rt, *path)?.as_str() == *bytes),
        _ => Ok(true),
    }
}

fn is_row(rt: &HostRuntime, row: &Row) -> Result<bool, Fail> {
    let (made, name, reason, said) = row;
    make(rt, made)?;
    let text = format!(in rt.alloc(); "{reason}")?;
    Ok(reason_at(rt, name) == Some(*reason) && text.as_str() == *said && is_left(rt, made)?)
}

fn are_rows(rt: &HostRuntime, rows: &[Row]) -> Result<bool, Fail> {
    for row in rows {
        if !is_row(rt, row)? {
            return Ok(false);
        }
    }
    Ok(true)
}

/// No log beside what is no store or a link, and nothing where there was nothing.
const NOT_MADE: [&str; 6] = [
    "text.cube-wal",
    "short.cube-wal",
    "link1.cube-wal",
    "crashed.cube",
    "none.cube",
    "none.cube-wal",
];

fn is_made(rt: &HostRuntime, path: &str) -> bool {
    !matches!(fs::exists(rt, path), Ok(false))
}

#[test]
fn each_reason_is_told(rt: HostRuntime) -> Result<(), Fail> {
    let told = are_rows(&rt, &ROWS)?;
    assert!(rt; told && reason_at(&rt, "none.cube").is_none());
    assert!(rt; !NOT_MADE.iter().any(|path| is_made(&rt, path)));
    Ok(())
}

/// Files beside which there is no log: one that is read, one of which a table is refused, and one that cannot be opened.
const BARE: [(Made, &str, &str); 3] = [
    (
        Made::Sql("read.cube", "CREATE TABLE other (a TEXT)"),
        "read.cube",
        "read.cube-wal",
    ),
    (
        Made::Sql("view.cube", "CREATE VIEW fact AS SELECT 1 AS id"),
        "view.cube",
        "view.cube-wal",
    ),
    (
        Made::Byte("worn.cube", "CREATE TABLE other (a TEXT)", 4096, 255),
        "worn.cube",
        "worn.cube-wal",
    ),
];

/// Whether loads of files beside which there is no log leave none.
fn leave_no_log(rt: &HostRuntime, rows: &[(Made, &str, &str)]) -> Result<bool, Fail> {
    for (made, path, log) in rows {
        make(rt, made)?;
        fs::remove_file(rt, *log)?;
        let _ = reason_at(rt, path);
        if is_made(rt, log) {
            return Ok(false);
        }
    }
    Ok(true)
}

/// Whether the first batch is kept in a file beside which there is no log.
fn is_kept(rt: &HostRuntime, path: &str) -> Result<bool, Memory> {
    let first = batch_of(rt.alloc(), &FIRST)?;
    let mut keeper = SqlKeeper::new(rt);
    let kept = keeper.load(rt.alloc(), path).is_ok() && keeper.commit(&first).is_ok();
    drop(keeper);
    Ok(kept)
}

#[test]
fn a_load_alone_leaves_no_log(rt: HostRuntime) -> Result<(), Fail> {
    let left = leave_no_log(&rt, &BARE)?;
    let kept = is_kept(&rt, "read.cube")?;
    assert!(rt; left && kept && is_made(&rt, "read.cube-wal"));
    Ok(())
}

/// Commits to a store that another keeper has open, and then to one in whose place another file was put.
fn are_told(rt: &HostRuntime) -> Result<bool, Memory> {
    let first = batch_of(rt.alloc(), &FIRST)?;
    let second = batch_of(rt.alloc(), &SECOND)?;
    let mut keeper = SqlKeeper::new(rt);
    let opened = keeper.load(rt.alloc(), "used.cube").is_ok();
    let in_use = opened
        && keeper.commit(&first).is_ok()
        && reason_at(rt, "used.cube") == Some(Reason::InUse);
    let put = fs::rename(rt, "table.cube", "used.cube").is_ok();
    let refused = opened && keeper.commit(&second).is_err();
    let reason = keeper.reason();
    drop(keeper);
    Ok(in_use && put && refused && reason == Some(Reason::Exchanged))
}

/// Commits to a store that is opened by a link, and then to one whose log was removed from beside the file.
fn is_told_by_link(rt: &HostRuntime) -> Result<bool, Memory> {
    let first = batch_of(rt.alloc(), &FIRST)?;
    let second = batch_of(rt.alloc(), &SECOND)?;
    let mut keeper = SqlKeeper::new(rt);
    let opened = keeper.load(rt.alloc(), "link.cube").is_ok();
    let kept = opened && keeper.commit(&first).is_ok();
    let removed = fs::remove_file(rt, "target.cube-wal").is_ok();
    let refused = opened && keeper.commit(&second).is_err();
    let reason = keeper.reason();
    drop(keeper);
    Ok(kept && removed && refused && reason == Some(Reason::Exchanged))
}

#[test]
fn stores_in_use_and_exchanged_are_told(rt: HostRuntime) -> Result<(), Fail> {
    run_script(&rt, "table.cube", "CREATE TABLE other (a TEXT)")?;
    let told = are_told(&rt)?;
    run_script(&rt, "target.cube", "CREATE TABLE other (a TEXT)")?;
    symlink(&rt, "target.cube", "link.cube")?;
    let told_by_link = is_told_by_link(&rt)?;
    assert!(rt; told && told_by_link);
    Ok(())
}

/// A table with a fact, of whose index no two facts may have the same nodes.
const APART: &str =
    "CREATE TABLE fact (id INTEGER PRIMARY KEY, nodes BLOB NOT NULL, cols BLOB NOT NULL); CREATE UNIQUE INDEX apart ON fact (nodes); INSERT INTO fact VALUES (9, x'00000002', x'')";

/// What SQL finds where nothing of a batch is kept: that fact alone, and no other table of a store.
const NOT_KEPT: [&str; 2] = [
    "SELECT count(*) = 1 FROM fact",
    "SELECT count(*) = 2 FROM sqlite_schema",
];

/// Whether the first batch, which puts a fact of the same nodes, is refused by the index.
fn is_refused(rt: &HostRuntime, path: &str) -> Result<bool, Memory> {
    let first = batch_of(rt.alloc(), &FIRST)?;
    let mut keeper = SqlKeeper::new(rt);
    let opened = keeper.load(rt.alloc(), path).is_ok();
    let refused = opened && keeper.commit(&first).is_err();
    let reason = keeper.reason();
    drop(keeper);
    Ok(refused && reason == Some(Reason::Refused))
}

#[test]
fn what_a_table_refuses_is_not_kept(rt: HostRuntime) -> Result<(), Fail> {
    run_script(&rt, "apart.cube", APART)?;
    let told = is_refused(&rt, "apart.cube")?;
    assert!(rt; told && are_found(&rt, "apart.cube", &NOT_KEPT));
    Ok(())
}
