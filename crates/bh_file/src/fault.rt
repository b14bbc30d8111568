use sqlite::Error;
use sqlite_std_file::OpenError;
use std::alloc::AllocError;
use std::io::ErrorKind;
use std::{fmt, io};

/// Why a file isn't opened as a database. Its `Display` is the message to the operator.
#[derive(Drop)]
pub enum OpenFault {
    /// Memory ran out.
    Memory,
    /// Another process has it open.
    Busy,
    /// SQLite left a rollback journal beside it, which only SQLite can play back.
    Journal,
    /// The path doesn't name a regular file.
    NoFile,
    /// It doesn't begin like an SQLite database.
    NoDatabase,
    /// The system refuses to read, create or lock it.
    System(io::Error),
    /// It can't be read as a database, because it isn't one or is damaged.
    Database(Error),
}

impl From<AllocError> for OpenFault {
    fn from(_error: AllocError) -> OpenFault {
        OpenFault::Memory
    }
}

impl From<io::Error> for OpenFault {
    fn from(error: io::Error) -> OpenFault {
        if error.kind() == ErrorKind::OutOfMemory {
            OpenFault::Memory
        } else {
            OpenFault::System(error)
        }
    }
}

impl From<OpenError> for OpenFault {
    fn from(error: OpenError) -> OpenFault {
        match error {
            OpenError::OutOfMemory => OpenFault::Memory,
            OpenError::Busy => OpenFault::Busy,
            OpenError::HotJournal => OpenFault::Journal,
            OpenError::Io(error) => OpenFault::from(error),
        }
    }
}

impl fmt::Display for OpenFault {
    fn fmt<W: fmt::Write>(&self, f: &mut fmt::Formatter<W>) -> fmt::Result {
        match self {
            OpenFault::Memory => f.write_str("out of memory"),
            OpenFault::Busy => f.write_str("it is locked: another process has it open"),
            OpenFault::Journal => f.write_str(
                "it has a rollback journal: open it with sqlite3 first",
            ),
            OpenFault::NoFile => f.write_str("not a regular file"),
            OpenFault::NoDatabase => f.write_str("not an SQLite database"),
            OpenFault::System(error) => write!(f, "{error}"),
            OpenFault::Database(error) => write!(f, "{error}"),
        }
    }
}
