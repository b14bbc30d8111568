//! Files that a stopped export left beside the new file's name.

use bh_backup::{BackupFault, made_here};
use std::alloc::AllocError;
use std::fs::Metadata;
use std::io::ErrorKind;
use std::os::unix::fs::FileExt;
use std::{fs, io};

/// The first three of the four bytes at the start of a log; the fourth has two values (SQLite,
/// "Database File Format", section 4.1).
const LOG_MAGIC: &[u8] = b"\x37\x7f\x06";

/// The path of the file in which the tenant's host is made, and that of its log.
#[derive(Drop)]
pub(crate) struct Making {
    pub(crate) file: String,
    log: String,
}

/// The metadata of what a path names, if it exists: for a link, the link's own.
fn found(rt: &HostRuntime, path: &str) -> io::Result<Option<Metadata>> {
    match fs::symlink_metadata(rt, path) {
        Ok(found) => Ok(Some(found)),
        Err(error) if error.kind() == ErrorKind::NotFound => Ok(None),
        Err(error) => Err(error),
    }
}

/// Whether a file begins as a log, or as one that a stop cut short: the store writes a log's first
/// byte last, and until then it is zero.
fn has_log_magic(rt: &HostRuntime, path: &str) -> io::Result<bool> {
    let mut magic = [0u8; 3];
    let count = fs::open(rt, path)?.read_at(&mut magic, 0)?;
    Ok(count > 0 && magic[0] == 0 || magic.as_slice() == LOG_MAGIC)
}

/// Whether a path doesn't exist, or is that of a log, which may be empty.
fn is_free_for_log(rt: &HostRuntime, path: &str) -> io::Result<bool> {
    match found(rt, path)? {
        Some(data) => Ok(data.is_file() && (data.len() == 0 || has_log_magic(rt, path)?)),
        None => Ok(true),
    }
}

impl Making {
    pub(crate) fn of(rt: &HostRuntime, path: &str) -> Result<Making, AllocError> {
        Ok(Making {
            file: format!(in rt.alloc(); "{path}.moving")?,
            log: format!(in rt.alloc(); "{path}.moving-wal")?,
        })
    }

    /// Removes what was made.
    pub(crate) fn discard(&self, rt: &HostRuntime) {
        let _ = fs::remove_file(rt, self.file.as_str());
        let _ = fs::remove_file(rt, self.log.as_str());
    }

    /// Removes what an earlier stop left. Fails on a file that no export made, and doesn't remove it.
    pub(crate) fn clear(&self, rt: &HostRuntime) -> Result<(), BackupFault> {
        if !is_free_for_log(rt, self.log.as_str())? {
            return Err(BackupFault::ForeignMoving);
        }
        match found(rt, self.file.as_str())? {
            Some(data) if data.is_file() => self.clear_host(rt),
            Some(_) => Err(BackupFault::ForeignMoving),
            None => {
                self.discard(rt);
                Ok(())
            }
        }
    }

    /// Removes a host that an earlier stop left, while it is locked against other processes.
    fn clear_host(&self, rt: &HostRuntime) -> Result<(), BackupFault> {
        match made_here(rt, self.file.as_str(), self.log.as_str()) {
            Ok(Some(_locked)) => {
                self.discard(rt);
                Ok(())
            }
            Ok(None) => Err(BackupFault::ForeignMoving),
            Err(reason) => Err(BackupFault::Unmoved(reason)),
        }
    }
}
