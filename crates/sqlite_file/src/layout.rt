//! The tables of a store: how they are made, and whether those of a file are made so.
use crate::fault::Fault;
use crate::reason::Reason;
use sqlite::{Alter, Connection, Error, params};
use sqlite_ast::{Rule, Statement, TableBody};
use sqlite_syntax::error::ParseError;
use sqlite_syntax::parse;
use std::alloc::Global;

/// Makes the table of the schema text where it is missing.
pub(crate) const MAKE_CUBE: &str =
    "CREATE TABLE IF NOT EXISTS cube (k INTEGER PRIMARY KEY, body BLOB NOT NULL)";
/// Makes the table of facts where it is missing.
pub(crate) const MAKE_FACT: &str =
    "CREATE TABLE IF NOT EXISTS fact (id INTEGER PRIMARY KEY, nodes BLOB NOT NULL, cols BLOB NOT NULL)";
/// Makes the table of allocations where it is missing.
pub(crate) const MAKE_ALLOC: &str =
    "CREATE TABLE IF NOT EXISTS alloc (id INTEGER PRIMARY KEY, den INTEGER NOT NULL, body BLOB NOT NULL)";

/// A name and a type.
pub(crate) type Column = (&'static str, &'static str);

/// The columns of the schema text.
pub(crate) const CUBE: [Column; 2] = [("k", "INTEGER"), ("body", "BLOB")];
/// The columns of facts.
pub(crate) const FACT: [Column; 3] = [("id", "INTEGER"), ("nodes", "BLOB"), ("cols", "BLOB")];
/// The columns of allocations.
pub(crate) const ALLOC: [Column; 3] = [("id", "INTEGER"), ("den", "INTEGER"), ("body", "BLOB")];

/// Whether there is a table of that name. One with other columns or with rules of its own, and anything else of that name, is a fault.
pub(crate) fn has_table<S: Alter>(
    alloc: Global,
    conn: &mut Connection<S>,
    name: &'static str,
    columns: &[Column],
) -> Result<bool, Fault> {
    let Some(text) = text_of(conn, name)? else {
        return Ok(false);
    };
    if makes_table(alloc, text.as_bytes(), columns)? {
        Ok(true)
    } else {
        Err(Fault::Outside(Reason::Table(name)))
    }
}

/// The statement that made the table, the view or the index of a name.
fn text_of<S: Alter>(conn: &mut Connection<S>, name: &str) -> Result<Option<String>, Fault> {
    let found = conn.query_row(
        "SELECT sql FROM sqlite_schema WHERE type <> 'trigger' AND name = ?1 COLLATE NOCASE",
        params![name],
    );
    match found {
        Ok(row) => Ok(Some(row.get(0)?)),
        Err(Error::QueryReturnedNoRows) => Ok(None),
        Err(error) => Err(error.into()),
    }
}

/// Whether a statement makes a table of these columns, without rules that could refuse a batch later.
fn makes_table(alloc: Global, text: &[u8], columns: &[Column]) -> Result<bool, Fault> {
    match parse(alloc, text) {
        Ok(parsed) => {
            let is_so = is_of_table(&parsed.statement, columns);
            // Dropped by a call, which is proved once: in place each kind of statement would be unfolded.
            drop(parsed);
            Ok(is_so)
        }
        Err(ParseError::OutOfMemory) => Err(Fault::Memory),
        Err(_) => Ok(false),
    }
}

/// The same, of a statement that is read.
fn is_of_table(statement: &Statement, columns: &[Column]) -> bool {
    match statement {
        Statement::CreateTable(table) => {
            !table.resolves
                && has_no_other_rule(table.body.rules.as_slice())
                && is_laid_out(&table.body, columns)
        }
        _ => false,
    }
}

/// Whether a table has these columns, of which the first is its key and every other is NOT NULL.
fn is_laid_out(table: &TableBody, columns: &[Column]) -> bool {
    let found = table.columns.as_slice();
    let rules = table.rules.as_slice();
    if found.len() != columns.len() {
        return false;
    }
    'columns: for place in 0..found.len() {
        let (name, kind) = &found[place];
        let is_so = if place == 0 {
            is_key(rules, name.as_slice())
        } else {
            is_not_null(rules, name.as_slice())
        };
        let (wanted, of_kind) = columns[place];
        if !is_so || !is_word(name.as_slice(), wanted) || !is_word(kind.as_slice(), of_kind) {
            return false;
        }
    }
    true
}

/// Whether there are no rules but keys and those that keep NULL out.
fn has_no_other_rule(rules: &[Rule]) -> bool {
    rules.iter().all(|rule| match rule {
        Rule::NotNull(_) | Rule::PrimaryKey(_) | Rule::CountedKey(_) => true,
        _ => false,
    })
}

/// Whether two words are one, as SQL compares them.
fn is_word(found: &[u8], wanted: &str) -> bool {
    found.eq_ignore_ascii_case(wanted.as_bytes())
}

/// Whether a rule makes the column the key.
fn is_key(rules: &[Rule], name: &[u8]) -> bool {
    rules.iter().any(|rule| match rule {
        Rule::PrimaryKey(keys) | Rule::CountedKey(keys) => match keys.as_slice() {
            [key] => key.name.as_slice().eq_ignore_ascii_case(name),
            _ => false,
        },
        _ => false,
    })
}

/// Whether a rule keeps NULL out of the column.
fn is_not_null(rules: &[Rule], name: &[u8]) -> bool {
    rules.iter().any(|rule| match rule {
        Rule::NotNull(column) => column.as_slice().eq_ignore_ascii_case(name),
        _ => false,
    })
}
