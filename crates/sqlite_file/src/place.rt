//! What stands at the path of a store and beside it. None of these calls makes or changes a file.
use crate::fault::Fault;
use crate::reason::Reason;
use std::fs::{File, Metadata};
use std::io::{ErrorKind, Read};
use std::os::unix::fs::MetadataExt;
use std::{fs, io};

/// How a file of SQLite's begins.
const HEAD: &[u8; 16] = b"SQLite format 3\0";

/// A file is a store from so many bytes on. One that was only just made may have a byte.
pub(crate) const LEAST: u64 = 2;

/// What stands at the path of a store.
#[derive(Clone, Copy, Debug, PartialEq, Eq)]
pub enum Standing {
    /// No file, or one of at most one byte, and nothing beside it: no store was kept there yet.
    Nothing,
    /// A file that begins as one of SQLite's, or has a log with content beside it.
    Database,
}

/// Looks at what stands at a path, and beside it. Where symbolic links lead to a file, that is beside the file.
///
/// `Outside` comes where no store can be there: by its name, its folder or its kind of file; where a log with content stands beside no
/// store, which an open would empty; where a journal does, which an open would pass over; where the file has a second hard link; and
/// where it does not begin as one of SQLite's. `Memory` comes when it runs out of memory.
pub fn look(rt: &HostRuntime, path: &str) -> Result<Standing, Fault> {
    if is_bad_name(path) {
        return Err(Fault::Outside(Reason::BadName));
    }
    let real = real_path(rt, path)?;
    look_beside(rt, real.as_str())
}

/// The same, of a path that no link is in, or at which there is no file.
fn look_beside(rt: &HostRuntime, path: &str) -> Result<Standing, Fault> {
    if len_beside(rt, path, "-journal")? > 0 {
        return Err(Fault::Outside(Reason::Journal));
    }
    let log = len_beside(rt, path, "-wal")?;
    match found_at(rt, path)? {
        Some(file) if file.len() >= LEAST => look_at_file(rt, path, &file, log),
        Some(_) => without_store(log),
        None => look_at_no_file(rt, path, log),
    }
}

/// Whether the engine takes a name for something else than a path.
fn is_bad_name(path: &str) -> bool {
    path.is_empty() || path == ":memory:" || path.starts_with("file:")
}

/// What stands where there is no store, beside a log of a length.
fn without_store(log: u64) -> Result<Standing, Fault> {
    if log > 0 {
        Err(Fault::Outside(Reason::LogAlone))
    } else {
        Ok(Standing::Nothing)
    }
}

/// What stands where there is no file, beside a log of a length.
fn look_at_no_file(rt: &HostRuntime, path: &str, log: u64) -> Result<Standing, Fault> {
    find_folder(rt, path)?;
    // No file is made through a link.
    if fs::symlink_metadata(rt, path).is_ok() {
        return Err(Fault::Outside(Reason::NotAFile));
    }
    without_store(log)
}

/// What stands where there is a file, beside a log of a length.
fn look_at_file(
    rt: &HostRuntime,
    path: &str,
    file: &Metadata,
    log: u64,
) -> Result<Standing, Fault> {
    if file.nlink() > 1 {
        return Err(Fault::Outside(Reason::Linked));
    }
    // A file that is half made is told from another by its log.
    if log > 0 || begins_as_sqlite(rt, path)? {
        Ok(Standing::Database)
    } else {
        Err(Fault::Outside(Reason::NotSqlite))
    }
}

/// Whether a file begins as one of SQLite's.
fn begins_as_sqlite(rt: &HostRuntime, path: &str) -> Result<bool, Fault> {
    let mut file = match File::open(rt, path) {
        Ok(file) => file,
        Err(error) => return Err(fault_of(&error)),
    };
    let mut head = [0; 16];
    match file.read_exact(&mut head) {
        Ok(()) => Ok(head == *HEAD),
        Err(error) if error.kind() == ErrorKind::UnexpectedEof => Ok(false),
        Err(error) => Err(fault_of(&error)),
    }
}

/// The plain file at a path, if there is something.
fn found_at(rt: &HostRuntime, path: &str) -> Result<Option<Metadata>, Fault> {
    match fs::metadata(rt, path) {
        Ok(found) if found.is_file() => Ok(Some(found)),
        Ok(found) if found.is_dir() => Err(Fault::Outside(Reason::IsFolder)),
        Ok(_) => Err(Fault::Outside(Reason::NotAFile)),
        Err(error) if error.kind() == ErrorKind::NotFound => Ok(None),
        Err(error) => Err(fault_of(&error)),
    }
}

/// The length of the file whose path has something behind it, 0 where there is none.
fn len_beside(rt: &HostRuntime, path: &str, behind: &str) -> Result<u64, Fault> {
    let beside = path_beside(rt, path, behind)?;
    match fs::metadata(rt, beside.as_str()) {
        Ok(found) => Ok(found.len()),
        Err(error) if error.kind() == ErrorKind::NotFound => Ok(0),
        Err(error) => Err(fault_of(&error)),
    }
}

/// The path of a file with no link in it, beside which its log lies. Where there is no file it is the path itself.
pub(crate) fn real_path(rt: &HostRuntime, path: &str) -> Result<String, Fault> {
    match fs::canonicalize(rt, path) {
        Ok(real) => Ok(real.into_string()),
        Err(error) if error.kind() == ErrorKind::NotFound => {
            Ok(String::from_str(rt.alloc(), path)?)
        }
        Err(error) => Err(fault_of(&error)),
    }
}

/// A path with something behind it.
pub(crate) fn path_beside(rt: &HostRuntime, path: &str, behind: &str) -> Result<String, Fault> {
    let mut beside = String::from_str(rt.alloc(), path)?;
    beside.push_str(behind)?;
    Ok(beside)
}

/// That the folder of a path is there.
fn find_folder(rt: &HostRuntime, path: &str) -> Result<(), Fault> {
    let Some(slash) = path.rfind('/') else {
        return Ok(());
    };
    match fs::metadata(rt, &path[..=slash]) {
        Ok(_) => Ok(()),
        Err(error) if error.kind() == ErrorKind::NotFound => Err(Fault::Outside(Reason::NoFolder)),
        Err(error) => Err(fault_of(&error)),
    }
}

/// What an error of the system counts as.
pub(crate) fn fault_of(error: &io::Error) -> Fault {
    match error.kind() {
        ErrorKind::OutOfMemory => Fault::Memory,
        ErrorKind::PermissionDenied | ErrorKind::ReadOnlyFilesystem => {
            Fault::Outside(Reason::NoPermission)
        }
        ErrorKind::NotADirectory | ErrorKind::NotFound => Fault::Outside(Reason::NoFolder),
        ErrorKind::InvalidInput | ErrorKind::InvalidFilename | ErrorKind::FilesystemLoop => {
            Fault::Outside(Reason::BadName)
        }
        ErrorKind::StorageFull | ErrorKind::QuotaExceeded => Fault::Outside(Reason::DiskFull),
        _ => Fault::Outside(Reason::Disk),
    }
}
