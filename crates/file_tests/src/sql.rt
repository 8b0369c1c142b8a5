//! Files over which SQL is run.
use sqlite::{Connection, Error};

/// Runs a script over the file at a path, which is made where there is none.
pub fn run_script(rt: &HostRuntime, path: &str, script: &str) -> Result<(), Error> {
    let mut conn = Connection::open(rt, path)?;
    let done = conn.execute_batch(script);
    // It is closed whatever the script does, and no drop is left.
    let closed = conn.close();
    done?;
    closed
}

/// Whether the first value that a query finds in the file at a path is true.
fn is_found(rt: &HostRuntime, path: &str, query: &str) -> Result<bool, Error> {
    let mut conn = Connection::open(rt, path)?;
    let row = conn.query_row(query, &[]);
    conn.close()?;
    row?.get(0)
}

/// Whether SQL finds all that the queries ask for.
pub fn are_found(rt: &HostRuntime, path: &str, queries: &[&str]) -> bool {
    queries
        .iter()
        .all(|query| is_found(rt, path, query) == Ok(true))
}
