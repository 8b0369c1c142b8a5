//! The file of a store, from its open to its close.
ghost use Rattle.std.specs.Prelude.{◌≡◌, IfOk};

use crate::fault::Fault;
use crate::left::{
    Left, Stamp, is_without_log, left_at, log_of, remove_log, remove_log_at, stamp_at,
};
use crate::reading::read_content;
use crate::reason::Reason;
use crate::writing::write_batch;
use fact_keeper::{Batch, Stored};
use sqlite::{Connection, File, FileStore, Unknown};
use std::alloc::Global;
use std::marker::Model;

/// The file of a store, open, and locked until it is closed. A drop closes it. Contracts see the path by which it was opened.
pub struct StoreFile<'rt> {
    rt: &'rt HostRuntime,
    path: String,
    // The path of the log.
    log: String,
    conn: Connection<FileStore<File>>,
    // As the open or the last write left the file and its log, if these were still those that are open.
    left: Option<Left>,
    // Whether the open made the log, and nothing was written since.
    is_log_spare: bool,
}

impl<'rt> Model for StoreFile<'rt> {
    ghost use Rattle.std.specs.Prelude.{ℕ, List, string_bytes};

    ghost Value = { List ℕ };

    ghost view = { λ f. string_bytes f.path };
}

impl<'rt> StoreFile<'rt> {
    /// Opens the file at a path, which is made where there is none. It makes no table. `look` comes first: an open empties a log that it
    /// takes for none of its own.
    ///
    /// `Outside` comes where the file is not to be had, is held open elsewhere, is no database, or is exchanged meanwhile; `Memory` when it
    /// runs out of memory. Either leaves it closed, and no log that was not there.
    pub fn open(rt: &'rt HostRuntime, path: &str) -> Result<Self, Fault>
        ensures { IfOk result (λ file. file ≡ path.now) }
    {
        let path = String::from_str(rt.alloc(), path)?;
        let before = stamp_at(rt, path.as_str())?;
        let is_log_spare = is_without_log(rt, path.as_str())?;
        let conn = connection_at(rt, path.as_str(), is_log_spare)?;
        let log = log_of(rt, path.as_str())?;
        let left = left_at(rt, path.as_str(), log.as_str())?;
        let file = StoreFile {
            rt,
            path,
            log,
            conn,
            left,
            is_log_spare,
        };
        if is_exchanged(before, left) {
            return Err(Fault::Outside(Reason::Exchanged));
        }
        Ok(file)
    }

    /// The content. A table that is missing is read as an empty one.
    ///
    /// `Outside` comes where a table is laid out in another way, where a row holds what no batch writes, or where the file cannot be
    /// read; `Memory` when it runs out of memory.
    pub fn read(&mut self, alloc: Global) -> Result<Stored, Fault>
        ensures { self.new ≡ self.old }
    {
        read_content(alloc, &mut self.conn)
    }

    /// Writes a batch as one transaction, and makes the tables that are missing. Where it is not written whole, nothing of it is.
    ///
    /// `Outside` comes where the path leads to another file or log than those that are open, or these are not as they were left; where an
    /// id or a denominator is 2^63 or more, where a table takes no such row, or where the file cannot be written; and where the file or the
    /// log is exchanged meanwhile: the batch is then in the one that is open. `Memory` comes at out of memory.
    pub fn write(&mut self, batch: &Batch) -> Result<(), Fault>
        ensures { self.new ≡ self.old }
    {
        let before = self.find_unchanged()?;
        self.is_log_spare = false;
        let written = write_batch(self.rt.alloc(), &mut self.conn, batch);
        let (left, looked) = match self.left_after(&before) {
            Ok(left) => (Some(left), Ok(())),
            Err(fault) => (None, Err(fault)),
        };
        self.left = left;
        written.and(looked)
    }

    /// Looks whether the path still leads to the file and the log that are open, and these are as they were left.
    ///
    /// `Outside` comes where it does not, they are not, or they cannot be looked at; `Memory` when it runs out of memory.
    pub fn look_again(&self) -> Result<(), Fault> {
        self.find_unchanged()?;
        Ok(())
    }

    /// The file and its log, where the path still leads to those that are open, and they are as they were left.
    fn find_unchanged(&self) -> Result<Left, Fault> {
        match left_at(self.rt, self.path.as_str(), self.log.as_str())? {
            Some(found) if self.left == Some(found) => Ok(found),
            _ => Err(Fault::Outside(Reason::Exchanged)),
        }
    }

    /// The file and its log as a write left them, which are still those that it began with. Where they cannot be looked at, no batch more is
    /// taken.
    fn left_after(&self, before: &Left) -> Result<Left, Fault> {
        match left_at(self.rt, self.path.as_str(), self.log.as_str())? {
            Some(left) if left.goes_on(before) => Ok(left),
            _ => Err(Fault::Outside(Reason::Exchanged)),
        }
    }
}

// It is written out, so that no caller proves again how each part is dropped.
impl Drop for StoreFile<'_> {
    fn drop(self) {
        let StoreFile {
            rt,
            path,
            log,
            conn,
            left,
            is_log_spare,
        } = self;
        // The lock on the file goes with the connection, so the log goes first.
        if is_log_spare {
            let _ = remove_log(rt, path.as_str(), log.as_str(), left);
        }
        // What the log holds is in the store, also where it cannot be copied into the file.
        let _ = conn.close();
    }
}

/// Whether a file that stood at a path before an open is another one than that which was left there.
fn is_exchanged(before: Option<Stamp>, left: Option<Left>) -> bool {
    match (before, left) {
        (Some(before), Some(left)) => !left.file.is_same_file(&before),
        _ => false,
    }
}

/// A connection to the file at a path. Where it cannot be had, a log that it made is removed.
fn connection_at(
    rt: &HostRuntime,
    path: &str,
    is_log_spare: bool,
) -> Result<Connection<FileStore<File>>, Fault> {
    match Connection::open_from(rt, path, false, Unknown) {
        Ok(conn) => Ok(conn),
        Err((error, held)) => {
            // What is left of the files holds the lock.
            if is_log_spare && held.is_some() {
                let _ = remove_log_at(rt, path);
            }
            drop(held);
            Err(error.into())
        }
    }
}
