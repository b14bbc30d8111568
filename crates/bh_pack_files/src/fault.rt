//! Why the folder of packs, or a file in it, is refused.

use std::alloc::AllocError;
use std::io::ErrorKind;
use std::{fmt, io};

/// Why the folder of packs, or a file in it, is refused. Its `Display` is the message to the operator: it
/// names the folder or the file, and says why.
#[derive(Drop)]
pub enum Fault {
    /// Memory ran out.
    Memory,
    /// The folder's name is taken by a symbolic link.
    Link(String),
    /// The folder's name is taken by something else.
    NoFolder(String),
    /// The folder is neither the process's nor that of the host's owner.
    Foreign(String),
    /// Its group or others may write to the folder.
    Shared(String),
    /// A pack that a row names has no file.
    Missing(String),
    /// What has a pack's name isn't a regular file.
    NoFile(String),
    /// A pack's file has fewer bytes than were synced.
    Cut(Shortage),
    /// The system refuses to read, make, sync or remove it.
    System(String, io::Error),
}

/// A pack's file that has fewer bytes than were synced.
#[derive(Drop)]
pub struct Shortage {
    pub path: String,
    pub bytes: usize,
    pub synced: usize,
}

impl From<AllocError> for Fault {
    fn from(_error: AllocError) -> Fault {
        Fault::Memory
    }
}

impl Fault {
    /// A system's error about this path.
    pub(crate) fn system(path: String, error: io::Error) -> Fault {
        if error.kind() == ErrorKind::OutOfMemory {
            Fault::Memory
        } else {
            Fault::System(path, error)
        }
    }

    /// The same as an error of a call on a file, which doesn't name it.
    pub fn into_error(self) -> io::Error {
        match self {
            Fault::Memory => ErrorKind::OutOfMemory.into(),
            Fault::System(_, error) => error,
            Fault::Link(_) => told(ErrorKind::NotADirectory, "its folder is a symbolic link"),
            Fault::NoFolder(_) => told(ErrorKind::NotADirectory, "its folder is no folder"),
            Fault::Foreign(_) => told(ErrorKind::PermissionDenied, "its folder is another user's"),
            Fault::Shared(_) => told(
                ErrorKind::PermissionDenied,
                "other users may write to its folder",
            ),
            Fault::Missing(_) => told(ErrorKind::NotFound, "it isn't there"),
            Fault::NoFile(_) => told(ErrorKind::InvalidInput, "it is no regular file"),
            Fault::Cut(_) => told(ErrorKind::UnexpectedEof, "it was cut"),
        }
    }
}

fn told(kind: ErrorKind, words: &str) -> io::Error {
    io::Error::new(kind, words)
}

impl fmt::Display for Fault {
    fn fmt<W: fmt::Write>(&self, f: &mut fmt::Formatter<W>) -> fmt::Result {
        match self {
            Fault::Memory => f.write_str("out of memory"),
            Fault::Link(path) => write!(f, "{path}: a symbolic link, and no folder"),
            Fault::NoFolder(path) => write!(f, "{path}: no folder"),
            Fault::Foreign(path) => write!(f, "{path}: another user's folder"),
            Fault::Shared(path) => write!(f, "{path}: other users may write to this folder"),
            Fault::Missing(path) => write!(f, "{path}: this pack's file isn't there"),
            Fault::NoFile(path) => write!(f, "{path}: no regular file"),
            Fault::Cut(it) => write!(
                f,
                "{}: this pack's file was cut: it has {} of {} bytes",
                it.path, it.bytes, it.synced
            ),
            Fault::System(path, error) => write!(f, "{path}: {error}"),
        }
    }
}
