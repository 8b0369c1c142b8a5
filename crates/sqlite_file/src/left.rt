//! A file and its log, as they are left between two calls.
use crate::fault::Fault;
use crate::place::{LEAST, fault_of, path_beside, real_path};
use std::fs;
use std::io::ErrorKind;
use std::os::unix::fs::MetadataExt;

/// A log of fewer bytes has no frame: its header has 32, that of a frame 24, and a page 512 at least.
const LEAST_FRAMED: u64 = 568;

/// Which file it is, and its length.
#[derive(Clone, Copy, Debug, PartialEq, Eq)]
pub(crate) struct Stamp {
    device: u64,
    node: u64,
    len: u64,
}

impl Stamp {
    /// Whether it is of the file of an earlier one.
    pub(crate) fn is_same_file(&self, earlier: &Stamp) -> bool {
        self.device == earlier.device && self.node == earlier.node
    }

    /// Whether it is of the file of an earlier one, which is no shorter now. A batch cuts nothing off.
    fn goes_on(&self, earlier: &Stamp) -> bool {
        self.is_same_file(earlier) && self.len >= earlier.len
    }
}

/// A file and its log as they stand.
#[derive(Clone, Copy, Debug, PartialEq, Eq)]
pub(crate) struct Left {
    pub(crate) file: Stamp,
    log: Stamp,
}

impl Left {
    /// Whether file and log are those of an earlier look, and neither is shorter.
    pub(crate) fn goes_on(&self, earlier: &Left) -> bool {
        self.file.goes_on(&earlier.file) && self.log.goes_on(&earlier.log)
    }
}

/// A file as it stands at a path, if there is one.
pub(crate) fn stamp_at(rt: &HostRuntime, path: &str) -> Result<Option<Stamp>, Fault> {
    match fs::metadata(rt, path) {
        Ok(found) => Ok(Some(Stamp {
            device: found.dev(),
            node: found.ino(),
            len: found.len(),
        })),
        Err(error) if error.kind() == ErrorKind::NotFound => Ok(None),
        Err(error) => Err(fault_of(&error)),
    }
}

/// The path of the log of the file at a path.
pub(crate) fn log_of(rt: &HostRuntime, path: &str) -> Result<String, Fault> {
    let real = real_path(rt, path)?;
    path_beside(rt, real.as_str(), "-wal")
}

/// The file and the log at two paths as they stand, if both are there.
pub(crate) fn left_at(rt: &HostRuntime, path: &str, log: &str) -> Result<Option<Left>, Fault> {
    let file = stamp_at(rt, path)?;
    let log = stamp_at(rt, log)?;
    Ok(match (file, log) {
        (Some(file), Some(log)) => Some(Left { file, log }),
        _ => None,
    })
}

/// Whether there is a store at a path, and no log beside it.
pub(crate) fn is_without_log(rt: &HostRuntime, path: &str) -> Result<bool, Fault> {
    let log = log_of(rt, path)?;
    let is_store = stamp_at(rt, path)?.is_some_and(|file| file.len >= LEAST);
    Ok(is_store && stamp_at(rt, log.as_str())?.is_none())
}

/// Removes the log of a file, where both are as they were left and no frame fits into the log: so nothing is lost with it. The caller holds the
/// lock on the file, so that no other is at work on the log.
pub(crate) fn remove_log(
    rt: &HostRuntime,
    path: &str,
    log: &str,
    left: Option<Left>,
) -> Result<(), Fault> {
    let found = left_at(rt, path, log)?;
    let is_empty = found.is_some_and(|now| now.log.len < LEAST_FRAMED);
    if !is_empty || found != left {
        return Ok(());
    }
    fs::remove_file(rt, log).map_err(|error| fault_of(&error))
}

/// The same of the file at a path and its log, as they stand.
pub(crate) fn remove_log_at(rt: &HostRuntime, path: &str) -> Result<(), Fault> {
    let log = log_of(rt, path)?;
    let left = left_at(rt, path, log.as_str())?;
    remove_log(rt, path, log.as_str(), left)
}
