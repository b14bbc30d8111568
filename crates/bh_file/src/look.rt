//! A path's state before a database is opened there.

use crate::fault::OpenFault;
use std::fs::OpenOptions;
use std::io::ErrorKind;
use std::os::unix::fs::{FileExt, OpenOptionsExt};
use std::{fs, io};

/// The first bytes of an SQLite database (SQLite, "Database File Format", section 1.3).
const MAGIC: &[u8] = b"SQLite format 3\0";

/// Whether a file begins with the header of an SQLite database.
fn has_header(rt: &HostRuntime, path: &str) -> io::Result<bool> {
    let mut header = [0u8; 100];
    match fs::open(rt, path)?.read_exact_at(&mut header, 0) {
        Ok(()) => Ok(header.starts_with(MAGIC)),
        Err(error) if error.kind() == ErrorKind::UnexpectedEof => Ok(false),
        Err(error) => Err(error),
    }
}

/// The size of the log beside a file, in bytes; 0 if there is none. After a crash it may have pages
/// that the file lacks, even its header.
fn log_size(rt: &HostRuntime, path: &str) -> Result<u64, OpenFault> {
    let real = fs::canonicalize(rt, path)?;
    let log = format!(in rt.alloc(); "{}-wal", real.as_str())?;
    match fs::metadata(rt, log.as_str()) {
        Ok(data) => Ok(data.len()),
        Err(error) if error.kind() == ErrorKind::NotFound => Ok(0),
        Err(error) => Err(OpenFault::from(error)),
    }
}

/// Creates an empty file with mode 0600, since it will have secrets. Its log gets the same mode.
fn make(rt: &HostRuntime, path: &str) -> io::Result<()> {
    match OpenOptions::new()
        .write(true)
        .create_new(true)
        .mode(0o600)
        .open(rt, path)
    {
        Ok(_) => Ok(()),
        Err(error) if error.kind() == ErrorKind::AlreadyExists => Ok(()),
        Err(error) => Err(error),
    }
}

/// Creates the file if there is none, and returns how many bytes it and its log have. If a file isn't
/// a database, it is refused before anything is created beside it.
pub(crate) fn look(rt: &HostRuntime, path: &str) -> Result<u64, OpenFault> {
    let found = match fs::metadata(rt, path) {
        Ok(found) => found,
        Err(error) if error.kind() == ErrorKind::NotFound => {
            make(rt, path)?;
            return Ok(0);
        }
        Err(error) => return Err(OpenFault::from(error)),
    };
    if !found.is_file() {
        return Err(OpenFault::NoFile);
    }
    let log = log_size(rt, path)?;
    if found.len() == 0 || log > 0 || has_header(rt, path)? {
        Ok(found.len().saturating_add(log))
    } else {
        Err(OpenFault::NoDatabase)
    }
}
