//! A batch, written into the tables of a store as one transaction.
use crate::blob;
use crate::fault::Fault;
use crate::layout::{MAKE_ALLOC, MAKE_CUBE, MAKE_FACT};
use crate::reason::Reason;
use fact_keeper::{Batch, KeptFact, KeptRows};
use sqlite::types::ValueRef;
use sqlite::{Alter, Connection, Error, ErrorCode, Transaction, params};
use std::alloc::Global;

/// How a row is put into a table, by the same values, the first of which is its id.
struct Put {
    /// Inserts it, and is refused where the id is there.
    insert: &'static str,
    /// Changes it, where the id is there.
    update: &'static str,
}

const PUT_FACT: Put = Put {
    insert: "INSERT INTO fact (id, nodes, cols) VALUES (?1, ?2, ?3)",
    update: "UPDATE fact SET nodes = ?2, cols = ?3 WHERE id = ?1",
};

const PUT_ROWS: Put = Put {
    insert: "INSERT INTO alloc (id, den, body) VALUES (?1, ?2, ?3)",
    update: "UPDATE alloc SET den = ?2, body = ?3 WHERE id = ?1",
};

/// Writes a batch. Where it is not written whole, nothing of it is.
pub(crate) fn write_batch<S: Alter>(
    alloc: Global,
    conn: &mut Connection<S>,
    batch: &Batch,
) -> Result<(), Fault> {
    if !conn.is_autocommit() {
        return Err(Fault::Outside(Reason::Closed));
    }
    let mut tx = conn.transaction();
    write_inside(alloc, &mut tx, batch)?;
    tx.commit()?;
    Ok(())
}

/// Writes what a batch says, in its order.
fn write_inside<S: Alter>(
    alloc: Global,
    tx: &mut Transaction<'_, S>,
    batch: &Batch,
) -> Result<(), Fault> {
    make_tables(tx)?;
    if let Some(text) = &batch.schema {
        put_schema(tx, text.as_slice())?;
    }
    drop_all(tx, batch.gone.as_slice())?;
    put_facts(alloc, tx, batch.facts.as_slice())?;
    put_all_rows(alloc, tx, batch.rows.as_slice())
}

/// Makes the tables that are missing.
fn make_tables<S: Alter>(tx: &mut Transaction<'_, S>) -> Result<(), Fault> {
    // One by one: a statement is found by its text among those that are compiled, and a text of several is read anew each time.
    tx.execute(MAKE_CUBE, &[])?;
    tx.execute(MAKE_FACT, &[])?;
    tx.execute(MAKE_ALLOC, &[])?;
    Ok(())
}

/// Drops the facts and the rows of gone ids.
fn drop_all<S: Alter>(tx: &mut Transaction<'_, S>, gone: &[u64]) -> Result<(), Fault> {
    'gone: for id in gone {
        drop_id(tx, *id)?;
    }
    Ok(())
}

/// Puts facts, each in the place of the one of its id.
fn put_facts<S: Alter>(
    alloc: Global,
    tx: &mut Transaction<'_, S>,
    facts: &[KeptFact],
) -> Result<(), Fault> {
    let mut is_there = false;
    'facts: for fact in facts {
        is_there = put_fact(alloc, tx, fact, is_there)?;
    }
    Ok(())
}

/// Puts the rows of several facts.
fn put_all_rows<S: Alter>(
    alloc: Global,
    tx: &mut Transaction<'_, S>,
    entries: &[KeptRows],
) -> Result<(), Fault> {
    let mut is_there = false;
    'entries: for rows in entries {
        is_there = put_rows(alloc, tx, rows, is_there)?;
    }
    Ok(())
}

/// Puts the schema text in the place of the one that is there.
fn put_schema<S: Alter>(tx: &mut Transaction<'_, S>, text: &[u8]) -> Result<(), Fault> {
    tx.execute(
        "INSERT INTO cube (k, body) VALUES (1, ?1) ON CONFLICT (k) DO UPDATE SET body = excluded.body",
        params![text],
    )?;
    Ok(())
}

/// Drops the fact and the rows of an id.
fn drop_id<S: Alter>(tx: &mut Transaction<'_, S>, id: u64) -> Result<(), Fault> {
    let Ok(id) = number(id) else {
        // No row has it.
        return Ok(());
    };
    tx.execute("DELETE FROM fact WHERE id = ?1", params![id])?;
    tx.execute("DELETE FROM alloc WHERE id = ?1", params![id])?;
    Ok(())
}

/// Puts a fact in the place of the one of its id, and answers whether that was there.
fn put_fact<S: Alter>(
    alloc: Global,
    tx: &mut Transaction<'_, S>,
    fact: &KeptFact,
    is_there: bool,
) -> Result<bool, Fault> {
    let id = number(fact.id)?;
    let nodes = blob::of_nodes(alloc, fact.nodes.as_slice())?;
    let cols = blob::of_cols(alloc, fact.cols.as_slice())?;
    put_row(tx, &PUT_FACT, params![id, &nodes, &cols], is_there)
}

/// Puts rows in the place of those of their id, and answers whether these were there.
fn put_rows<S: Alter>(
    alloc: Global,
    tx: &mut Transaction<'_, S>,
    rows: &KeptRows,
    is_there: bool,
) -> Result<bool, Fault> {
    let id = number(rows.id)?;
    let den = number(rows.den)?;
    let body = blob::of_rows(alloc, rows.rows.as_slice())?;
    put_row(tx, &PUT_ROWS, params![id, den, &body], is_there)
}

/// Puts a row in the place of the one of its id, and answers whether that was there. A statement that looks for it first costs as much as
/// two inserts, so what served the row before, `is_there`, is tried first.
fn put_row<S: Alter>(
    tx: &mut Transaction<'_, S>,
    put: &Put,
    values: &[ValueRef<'_>],
    is_there: bool,
) -> Result<bool, Fault> {
    if !is_there && is_inserted(tx, put.insert, values)? {
        return Ok(false);
    }
    if tx.execute(put.update, values)? > 0 {
        return Ok(true);
    }
    tx.execute(put.insert, values)?;
    Ok(false)
}

/// Inserts a row, or leaves the table as it was where that refuses it, as it does where the id is there.
fn is_inserted<S: Alter>(
    tx: &mut Transaction<'_, S>,
    insert: &str,
    values: &[ValueRef<'_>],
) -> Result<bool, Fault> {
    match tx.execute(insert, values) {
        Ok(_) => Ok(true),
        Err(Error::SqliteFailure(ErrorCode::ConstraintViolation(_))) => Ok(false),
        Err(error) => Err(error.into()),
    }
}

/// A number as SQL has it. One of 2^63 or more is a fault, since no table can hold it.
fn number(n: u64) -> Result<i64, Fault> {
    i64::try_from(n).map_err(|_| Fault::Outside(Reason::Refused))
}
