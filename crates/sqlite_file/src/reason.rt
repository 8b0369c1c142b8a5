//! What keeps a call from the file of a store.
use std::fmt;

/// Why the file of a store is not to be had, or is not to be read or written.
#[derive(Clone, Copy, Debug, PartialEq, Eq)]
pub enum Reason {
    /// Another process has the file open.
    InUse,
    /// The file may not be read and written, or its disk is read-only.
    NoPermission,
    /// A folder of the path is not there.
    NoFolder,
    /// The path is that of a folder.
    IsFolder,
    /// The path is that of no plain file.
    NotAFile,
    /// No file can be opened by the name.
    BadName,
    /// The file has a second hard link, beside which its log would not be found.
    Linked,
    /// The disk is full.
    DiskFull,
    /// The file does not begin as one of SQLite does.
    NotSqlite,
    /// The table, or what has its name, is not laid out as a store's.
    Table(&'static str),
    /// Something stands on the table that keeps it from being read: a trigger, or an index by an expression or with a condition.
    Bound(&'static str),
    /// A row of a table holds what no batch writes.
    Row,
    /// There is no file, or an empty one, and a log with content beside it.
    LogAlone,
    /// A journal of SQLite's stands beside the file, as a crash leaves it.
    Journal,
    /// The file holds what this engine cannot read, or rows that break its own schema.
    Unreadable,
    /// The file or its log is not the one that was opened, or not as it was left.
    Exchanged,
    /// A page of the file or its log is damaged.
    Damaged,
    /// The system reported a fault of the disk.
    Disk,
    /// A table refuses a row of the batch.
    Refused,
    /// No file is open.
    Closed,
}

impl fmt::Display for Reason {
    fn fmt<W: fmt::Write>(&self, f: &mut fmt::Formatter<W>) -> fmt::Result {
        match self {
            Reason::Table(name) => write!(f, "its table {name} is not laid out as a store's"),
            Reason::Bound(name) => write!(
                f,
                "its table {name} has a trigger, or an index with an expression or a WHERE"
            ),
            other => f.write_str(text_of(*other)),
        }
    }
}

/// What is said of a reason that needs no name.
fn text_of(reason: Reason) -> &'static str {
    match reason {
        Reason::InUse => "in use by another process: wait until it has ended",
        Reason::NoPermission => "no permission to read and write it, or its disk is read-only",
        Reason::NoFolder => "no such folder",
        Reason::IsFolder => "a folder",
        Reason::NotAFile => "not a plain file",
        Reason::BadName => "not a name for a store",
        Reason::Linked => "it has a second hard link: copy it to a file of its own",
        Reason::DiskFull => "the disk is full",
        Reason::NotSqlite => "not an SQLite file",
        Reason::Table(_) => "a table is not laid out as a store's",
        Reason::Bound(_) => "a table has a trigger, or an index with an expression or a WHERE",
        Reason::Row => "a row of its tables holds what no edit writes",
        Reason::LogAlone => {
            "a log with content stands beside no store: put the store back beside it, or remove the log"
        }
        Reason::Journal => "a crash left a journal beside it: open it once with sqlite3",
        Reason::Unreadable =>
            "it holds what cannot be read here, or rows that break its own schema",
        Reason::Exchanged => "it was exchanged, or changed by another, while it was open",
        Reason::Damaged => "a page of it or of its log is damaged",
        Reason::Disk => "the system reported an I/O error",
        Reason::Refused => "a table refuses a row",
        Reason::Closed => "it is not open",
    }
}
