//! Opening a file.

ghost use Rattle.std.specs.Prelude.{◌≡◌, None, IfOk, MatchOption, MatchResult};
ghost use Rattle.sqlite.specs.Files.{file_state, over_files};
ghost use Rattle.sqlite_wal.specs.Files.{image_at};
ghost use Rattle.bh_types.specs.declared.refusal.Refusal.TheVariants as refusal;
ghost use Rattle.bh_file.specs.Opened.{IsOpenedOn};
ghost use Rattle.bh_maintenance.specs.Endings.{IsLeftOut};
ghost use Rattle.bh_maintenance.specs.Files.{HoldsSoundHost};
ghost use Rattle.bh_maintenance.specs.Found.{IsSoundIn, IsJoinedIn};
ghost use Rattle.bh_maintenance.specs.Opened.{IsHostAt, HasNoHost};
ghost use Rattle.bh_maintenance.specs.Printing.{IsRefusal};

use crate::ending::{Ended, close, leave};
use crate::fault::Fault;
use crate::hosts::opened_host;
use crate::joined::Joined;
use crate::printed::Printed;
use crate::remarks::{Remark, tell};
use bh_file::{FileConnection, HostFile, OpenFault};
use bh_shelf::closed::ClosedPacks;
use bh_types::refusal::Refusal;
use sqlite::{Connection, FileStore, Start};
use sqlite_disk::Disk;
use std::alloc::{AllocError, Global};
use std::io::ErrorKind;
use std::{fs, io};

/// Whether a file is missing or empty. Such a file has no host, and doesn't change.
pub fn is_blank(rt: &HostRuntime, path: &str) -> io::Result<bool> {
    match fs::metadata(rt, path) {
        Ok(data) if data.is_file() && data.len() == 0 => {
            tell(rt, path, &Remark::EmptyFile);
            Ok(true)
        }
        Ok(_) => Ok(false),
        Err(error) if error.kind() == ErrorKind::NotFound => {
            tell(rt, path, &Remark::NoFile);
            Ok(true)
        }
        Err(error) => Err(error),
    }
}

/// The result if there is no host.
pub fn without_files<D: Disk + Drop>(alloc: Global) -> Result<Ended<D>, AllocError>
    ensures { IfOk result (λ ended. (ended.files ≡ None) × IsRefusal refusal.NotAHostFile ended.printed) }
{
    Ok(Ended {
        printed: Printed::refusal(alloc, Refusal::NotAHostFile)?,
        files: None,
    })
}

/// Opens or creates files. An error names the path.
pub fn open<S: Start>(rt: &HostRuntime, path: &str, start: S) -> Result<FileConnection<S>, Fault>
    ensures { IfOk result (λ connection. IsOpenedOn (image_at S.Start) (file_state connection)) }
{
    match bh_file::open_file(rt, path, start) {
        Ok(connection) => Ok(connection),
        Err(reason) => Err(Fault::unopened(rt.alloc(), path, reason)),
    }
}

/// The host of a connection to files, or the printed text if there is none, and the closed files.
fn host_or_closed<D: Disk + Drop, K: ClosedPacks + Drop>(
    rt: &HostRuntime,
    path: &str,
    connection: Connection<FileStore<D>>,
    closed: K,
) -> Result<Result<Joined<FileStore<D>, K::Open>, Ended<D>>, Fault>
    requires { IsSoundIn (K.has closed) (file_state connection) }
    ensures { IfOk result (λ found. MatchResult found (IsJoinedIn over_files K.Open.Shelf (K.has closed) connection)
        (λ ended. MatchOption ended.files ⊥ (IsLeftOut connection ended.printed))) }
{
    match opened_host(rt, path, connection, closed)? {
        Ok(host) => Ok(Ok(host)),
        Err(done) => {
            let (printed, left) = leave(done);
            Ok(Err(Ended {
                printed,
                files: Some(close(left)),
            }))
        }
    }
}

/// The host of a file, upgraded if needed and joined with its packs; or the printed text if there is
/// none, and its closed files, if there are any. An error names the path.
pub fn host_in<S: Start, K: ClosedPacks + Drop>(
    rt: &HostRuntime,
    path: &str,
    start: S,
    closed: K,
) -> Result<Result<Joined<FileStore<HostFile<S>>, K::Open>, Ended<HostFile<S>>>, Fault>
    requires { HoldsSoundHost (K.has closed) (image_at S.Start) }
    ensures { IfOk result (λ found. MatchResult found
        (IsHostAt ⟦<HostFile<S> as Disk>⟧ K.Open.Shelf (K.has closed) (image_at S.Start))
        (λ ended. HasNoHost ⟦<HostFile<S> as Disk>⟧ (image_at S.Start) ended.printed ended.files)) }
{
    match is_blank(rt, path) {
        Ok(false) => {
            let connection = open(rt, path, start)?;
            host_or_closed(rt, path, connection, closed)
        }
        Ok(true) => Ok(Err(without_files(rt.alloc())?)),
        Err(error) => Err(Fault::unopened(rt.alloc(), path, OpenFault::from(error))),
    }
}
