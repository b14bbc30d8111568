use bh_file::OpenFault;
use bh_packs::trouble::Trouble;
use sqlite::Error;
use std::alloc::AllocError;
use std::{fmt, io};

/// Why no backup was made. Its `Display` is the message to the operator.
#[derive(Drop)]
pub enum BackupFault {
    /// Memory ran out.
    Memory,
    /// The name ends as that of a file beside a host's: `-wal`, `-journal`, `.partial`, `.moving` or
    /// `.packs`.
    Reserved,
    /// The name is taken: no file is overwritten.
    Taken,
    /// There is a log, a journal or a folder of packs at the place of the copy's own, which would be read
    /// with it.
    Beside,
    /// The `.partial` file, in which it is written, can't be opened.
    Unopened(OpenFault),
    /// The `.partial` file is another program's database. It isn't overwritten.
    ForeignPartial,
    /// The `.moving` file, in which a tenant's host is made, or that file's log, was not made by an
    /// export. It isn't removed.
    ForeignMoving,
    /// The `.moving` file can't be opened, to see whether an export made it.
    Unmoved(OpenFault),
    /// The log of the host's file can't be copied into the file.
    Log(Error),
    /// The packs of the host can't be copied.
    Packs(Trouble),
    /// There is a `.partial.packs` that no backup left.
    ForeignPacks,
    /// The host's file can't be read, or the backup can't be written, synced or renamed.
    System(io::Error),
    /// It is complete, but its directory can't be synced: after a crash it may be gone.
    Unsettled(io::Error),
}

impl From<AllocError> for BackupFault {
    fn from(_error: AllocError) -> BackupFault {
        BackupFault::Memory
    }
}

impl From<io::Error> for BackupFault {
    fn from(error: io::Error) -> BackupFault {
        BackupFault::System(error)
    }
}

impl fmt::Display for BackupFault {
    fn fmt<W: fmt::Write>(&self, f: &mut fmt::Formatter<W>) -> fmt::Result {
        match self {
            BackupFault::Memory => f.write_str("out of memory"),
            BackupFault::Reserved => f.write_str(
                "the name ends in -wal, -journal, .partial, .moving or .packs, which name files beside a host: choose another",
            ),
            BackupFault::Taken => f.write_str("the file exists already"),
            BackupFault::Beside => {
                f.write_str("a log, a journal or packs of that name exist already: remove them")
            }
            BackupFault::Unopened(reason) => {
                write!(f, "unable to open its .partial file: {reason}")
            }
            BackupFault::ForeignPartial => f.write_str(
                "its .partial file is another program's database: remove it",
            ),
            BackupFault::ForeignMoving => f.write_str(
                "its .moving or .moving-wal file was not made by export: remove it",
            ),
            BackupFault::Unmoved(reason) => {
                write!(f, "unable to open its .moving file: {reason}")
            }
            BackupFault::Log(error) => {
                write!(f, "unable to copy the host's log into its file: {error}")
            }
            BackupFault::Packs(trouble) => {
                write!(f, "unable to copy the host's packs: {trouble}")
            }
            BackupFault::ForeignPacks => f.write_str(
                "its .partial.packs is no folder of packs that a backup left: remove it",
            ),
            BackupFault::System(error) => write!(f, "{error}"),
            BackupFault::Unsettled(error) => write!(
                f,
                "the file is complete, but its directory could not be synced: {error}"
            ),
        }
    }
}
