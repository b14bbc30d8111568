//! The files of a server's long requests and answers, and the sizes of its host's.

ghost use Rattle.std.specs.Prelude.{◌≡◌, [], IfOk};
ghost use Rattle.bh_stage.specs.Spools.{rest_of};

use bh_figures::page::Sizes;
use bh_stage::spool::Spool;
use std::alloc::AllocError;
use std::fs::{File, Files, OpenOptions};
use std::io::ErrorKind;
use std::os::unix::fs::OpenOptionsExt;
use std::{fs, io};

/// How many names are tried for a file, where a crash left one that was to be removed.
const TRIES: u32 = 16;

/// Where a server works. Its files are made under names that begin so.
#[derive(Drop)]
pub(crate) struct Site<'a, N, C> {
    pub(crate) net: &'a N,
    pub(crate) clock: &'a C,
    pub(crate) path: &'a str,
    /// The host's files, if their names are known.
    pub(crate) files: &'a Option<HostFiles>,
}

impl<'a, N: Files<File = File>, C> Site<'a, N, C> {
    /// How many bytes the host's files have.
    pub(crate) fn sizes(&self) -> Sizes {
        match self.files {
            Some(files) => files.sizes(self.net),
            None => Sizes {
                file: None,
                log: None,
            },
        }
    }
}

/// The paths of a host's files.
#[derive(Drop)]
pub(crate) struct HostFiles {
    file: String,
    /// Of its write-ahead log, which stands beside the file that a link names.
    log: String,
}

impl HostFiles {
    /// Of the host in a file.
    pub(crate) fn of<N: Files<File = File> + AllocGlobal>(
        net: &N,
        path: &str,
    ) -> Result<HostFiles, AllocError> {
        let file = match fs::canonicalize(net, path) {
            Ok(real) => String::from_str(net.alloc(), real.as_str())?,
            Err(_) => String::from_str(net.alloc(), path)?,
        };
        let log = format!(in net.alloc(); "{file}-wal")?;
        Ok(HostFiles { file, log })
    }

    /// How many bytes they have.
    fn sizes<N: Files<File = File>>(&self, files: &N) -> Sizes {
        Sizes {
            file: size_of(files, self.file.as_str()),
            log: size_of(files, self.log.as_str()),
        }
    }
}

/// A file's bytes, if the system tells.
fn size_of<N: Files<File = File>>(files: &N, path: &str) -> Option<u64> {
    match fs::metadata(files, path) {
        Ok(data) => Some(data.len()),
        Err(_) => None,
    }
}

impl<'a, N: Files<File = File> + AllocGlobal, C> Site<'a, N, C> {
    /// An empty file with mode 0600, since requests have secrets. Its name is removed at once. No
    /// file is removed that was there.
    pub(crate) fn spool(&self) -> io::Result<Spool>
        ensures { IfOk result (λ spool. rest_of spool ≡ []) }
    {
        for tried in 0..TRIES {
            let name = format!(in self.net.alloc(); "{}.{tried}", self.path)?;
            match made(self.net, name.as_str()) {
                Ok(file) => {
                    fs::remove_file(self.net, name.as_str())?;
                    return Ok(Spool::new(file));
                }
                Err(error) if error.kind() == ErrorKind::AlreadyExists => {}
                Err(error) => return Err(error),
            }
        }
        Err(io::Error::from(ErrorKind::AlreadyExists))
    }
}

fn made<N: Files<File = File>>(files: &N, path: &str) -> io::Result<File> {
    OpenOptions::new()
        .read(true)
        .write(true)
        .create_new(true)
        .mode(0o600)
        .open(files, path)
}
