//! The content of a store, read from its tables.
use crate::blob;
use crate::fault::Fault;
use crate::layout::{ALLOC, CUBE, Column, FACT, has_table};
use crate::reason::Reason;
use cube_base::{Bytes, SharedPairs};
use fact_keeper::{KeptFact, KeptRows, Stored};
use sqlite::types::ValueRef;
use sqlite::{Alter, Connection, Row, Rows};
use std::alloc::Global;

/// The content of a store. A table that is missing is read as an empty one.
pub(crate) fn read_content<S: Alter>(
    alloc: Global,
    conn: &mut Connection<S>,
) -> Result<Stored, Fault> {
    let texts = read_table(
        alloc,
        conn,
        "cube",
        &CUBE,
        "SELECT k, body FROM cube ORDER BY k",
    )?;
    let facts: Vec<KeptFact> = read_table(
        alloc,
        conn,
        "fact",
        &FACT,
        "SELECT id, nodes, cols FROM fact ORDER BY id",
    )?;
    let rows: Vec<KeptRows> = read_table(
        alloc,
        conn,
        "alloc",
        &ALLOC,
        "SELECT id, den, body FROM alloc ORDER BY id",
    )?;
    Ok(Stored {
        schema: schema_of(alloc, texts),
        facts: facts.into(),
        rows: rows.into(),
    })
}

/// What a row of a table says.
trait Entry: Drop {
    /// Reads a row. One of other values than the table is made for is a fault.
    fn of_row(alloc: Global, row: &Row) -> Result<Self, Fault>;
}

/// The row of the schema text.
#[derive(Drop)]
struct SchemaText {
    body: Vec<u8>,
}

impl Entry for SchemaText {
    fn of_row(_alloc: Global, row: &Row) -> Result<Self, Fault> {
        let k: i64 = row.get(0)?;
        if k != 1 {
            return Err(Fault::Outside(Reason::Row));
        }
        Ok(SchemaText { body: row.get(1)? })
    }
}

impl Entry for KeptFact {
    fn of_row(alloc: Global, row: &Row) -> Result<Self, Fault> {
        let id = row.get(0)?;
        let nodes = blob::to_nodes(alloc, blob_at(row, 1)?)?;
        let cols = blob::to_cols(alloc, blob_at(row, 2)?)?;
        Ok(KeptFact {
            id,
            nodes: nodes.into(),
            cols: cols.into(),
        })
    }
}

impl Entry for KeptRows {
    fn of_row(alloc: Global, row: &Row) -> Result<Self, Fault> {
        let id = row.get(0)?;
        let den = row.get(1)?;
        let rows = blob::to_rows(alloc, blob_at(row, 2)?)?;
        Ok(KeptRows {
            id,
            den,
            rows: SharedPairs::from_vec(alloc, rows)?,
        })
    }
}

/// The blob in a column.
fn blob_at(row: &Row, at: usize) -> Result<&[u8], Fault> {
    match row.get_ref(at) {
        Ok(ValueRef::Blob(bytes)) => Ok(bytes),
        _ => Err(Fault::Outside(Reason::Row)),
    }
}

/// The rows of a table, in the order of the query.
fn read_table<T: Entry, S: Alter>(
    alloc: Global,
    conn: &mut Connection<S>,
    name: &'static str,
    columns: &[Column],
    query: &str,
) -> Result<Vec<T>, Fault> {
    if has_table(alloc, conn, name, columns)? {
        read_rows(alloc, conn, name, query)
    } else {
        Ok(Vec::new(alloc))
    }
}

/// What the rows of an answer to a query of a table say.
fn read_rows<T: Entry, S: Alter>(
    alloc: Global,
    conn: &mut Connection<S>,
    name: &'static str,
    query: &str,
) -> Result<Vec<T>, Fault> {
    match conn.query(query, &[]) {
        Ok(mut rows) => entries_of(alloc, &mut rows),
        Err(error) => Err(unread(name, error.into())),
    }
}

/// Why a table is not read that is laid out as a store's. Its own text is understood, so it is what else stands on it.
fn unread(name: &'static str, fault: Fault) -> Fault {
    match fault {
        Fault::Outside(Reason::Unreadable) => Fault::Outside(Reason::Bound(name)),
        other => other,
    }
}

/// What the rows of an answer say, from the next one on.
fn entries_of<T: Entry, S: Alter>(alloc: Global, rows: &mut Rows<'_, S>) -> Result<Vec<T>, Fault> {
    let mut entries = Vec::new(alloc);
    'rows: for _ in 0..u64::MAX {
        let Some(entry) = next_entry(alloc, rows)? else {
            break;
        };
        entries.push(entry)?;
    }
    Ok(entries)
}

/// What the next row of an answer says.
fn next_entry<T: Entry, S: Alter>(
    alloc: Global,
    rows: &mut Rows<'_, S>,
) -> Result<Option<T>, Fault> {
    match rows.next()? {
        Some(row) => Ok(Some(T::of_row(alloc, row)?)),
        None => Ok(None),
    }
}

/// The schema text, which is empty where there is no row. The key lets no second row be.
fn schema_of(alloc: Global, mut texts: Vec<SchemaText>) -> Bytes {
    match texts.pop() {
        Some(SchemaText { body }) => body.into(),
        None => Bytes::new(alloc),
    }
}
