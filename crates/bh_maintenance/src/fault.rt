use bh_backup::BackupFault;
use bh_file::OpenFault;
use std::alloc::{AllocError, Global};
use std::{fmt, io};

/// Why a file has no usable secret.
#[derive(Drop)]
pub enum SecretFault {
    /// It can't be read.
    Unread(io::Error),
    /// Users other than its owner can read or write it.
    Shared,
    /// Its first line isn't 8 to 64 printable ASCII characters.
    NoSecret,
    /// Memory ran out.
    Memory,
}

impl From<io::Error> for SecretFault {
    fn from(error: io::Error) -> SecretFault {
        SecretFault::Unread(error)
    }
}

impl From<AllocError> for SecretFault {
    fn from(_error: AllocError) -> SecretFault {
        SecretFault::Memory
    }
}

impl fmt::Display for SecretFault {
    fn fmt<W: fmt::Write>(&self, f: &mut fmt::Formatter<W>) -> fmt::Result {
        match self {
            SecretFault::Unread(error) => write!(f, "{error}"),
            SecretFault::Shared => f.write_str(
                "users other than its owner can read or write it: set mode 0600",
            ),
            SecretFault::NoSecret => {
                f.write_str("its first line isn't 8 to 64 printable ASCII characters")
            }
            SecretFault::Memory => f.write_str("out of memory"),
        }
    }
}

/// Why a subcommand failed, refusals aside. Its `Display` is the message to the operator.
#[derive(Drop)]
pub enum Fault {
    /// Memory ran out.
    Memory,
    /// The file of this path can't be opened as a database.
    Unopened { path: String, reason: OpenFault },
    /// The file of this path can't be created.
    Unsaved { path: String, reason: BackupFault },
    /// The packs beside the file of this path can't be opened.
    Unpacked { path: String, reason: String },
    /// The clock or standard input can't be read, or standard output can't be written.
    System(io::Error),
    /// Standard input is longer than the maximum for a script.
    LongInput,
    /// No digest function has the name that was given.
    UnknownDigest,
    /// A write of a script's replies failed, or took none of some bytes.
    Output,
    /// The file of this path has no usable operator's secret.
    Secret { path: String, reason: SecretFault },
    /// A host that was closed for a backup could not be reopened.
    LostHost,
    /// A server closed the connection before it replied to a line.
    NoReply,
}

/// A path and a reason, as texts of their own.
fn texts(
    alloc: Global,
    path: &str,
    reason: &impl fmt::Display,
) -> Result<(String, String), AllocError> {
    let reason = format!(in alloc; "{reason}")?;
    Ok((String::from_str(alloc, path)?, reason))
}

impl Fault {
    /// Whether the command line is invalid, as if its parser had refused it.
    pub fn is_in_words(&self) -> bool {
        matches!(self, Fault::UnknownDigest)
    }

    /// The error that the file of a path can't be opened.
    pub fn unopened(alloc: Global, path: &str, reason: OpenFault) -> Fault {
        match String::from_str(alloc, path) {
            Ok(path) => Fault::Unopened { path, reason },
            Err(_) => Fault::Memory,
        }
    }

    /// The error that the file of a path can't be created.
    pub fn unsaved(alloc: Global, path: &str, reason: BackupFault) -> Fault {
        match String::from_str(alloc, path) {
            Ok(path) => Fault::Unsaved { path, reason },
            Err(_) => Fault::Memory,
        }
    }

    /// The error that the packs beside the file of a path can't be opened.
    pub fn unpacked(alloc: Global, path: &str, reason: &impl fmt::Display) -> Fault {
        match texts(alloc, path, reason) {
            Ok((path, reason)) => Fault::Unpacked { path, reason },
            Err(_) => Fault::Memory,
        }
    }

    /// The error that the file of a path has no usable secret.
    pub fn secret(alloc: Global, path: &str, reason: SecretFault) -> Fault {
        match String::from_str(alloc, path) {
            Ok(path) => Fault::Secret { path, reason },
            Err(_) => Fault::Memory,
        }
    }
}

impl From<AllocError> for Fault {
    fn from(_error: AllocError) -> Fault {
        Fault::Memory
    }
}

impl From<io::Error> for Fault {
    fn from(error: io::Error) -> Fault {
        Fault::System(error)
    }
}

impl fmt::Display for Fault {
    fn fmt<W: fmt::Write>(&self, f: &mut fmt::Formatter<W>) -> fmt::Result {
        match self {
            Fault::Memory => f.write_str("out of memory"),
            Fault::Unopened { path, reason } => write!(f, "unable to open {path}: {reason}"),
            Fault::Unsaved { path, reason } => write!(f, "unable to create {path}: {reason}"),
            Fault::Unpacked { path, reason } => write!(
                f,
                "unable to open the packs of {path}: {reason}"
            ),
            Fault::System(error) => write!(f, "{error}"),
            Fault::LongInput => f.write_str("standard input is too long"),
            Fault::UnknownDigest => f.write_str(
                "error: invalid value for '--digest <digest>'\n  [possible values: sha256, fast]\n\nFor more information, try '--help'.\n",
            ),
            Fault::Output => f.write_str("unable to write to standard output"),
            Fault::Secret { path, reason } => write!(
                f,
                "unable to read a secret from {path}: {reason}"
            ),
            Fault::LostHost => f.write_str("the host is no longer open"),
            Fault::NoReply => f.write_str("the server closed the connection without a reply"),
        }
    }
}
