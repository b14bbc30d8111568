//! Closes a connection's files, copies them and its packs, and reopens them.

ghost use Rattle.std.specs.Prelude.{◌≡◌, IfSome, IsTrue};
ghost use Rattle.sqlite.specs.Files.{file_state, over_files};
ghost use Rattle.sqlite.specs.Held.{state};
ghost use Rattle.sqlite.specs.State.{HasCleanDisk, IsLive};
ghost use Rattle.sqlite_wal.specs.Reads.{AreClean, IsClean, OnlyReads};
ghost use Rattle.bh_backup.specs.Copies.{HasAlone, IsFileOf};
ghost use Rattle.bh_backup.specs.Packs.{HaveAll, StayAs};
ghost use Rattle.bh_base.specs.Connections.{IsIntact};
ghost use Rattle.bh_kept.specs.Closings.{IsHeldIn, IsOpenAgain};
ghost use Rattle.bh_kept.specs.Copies.{IsCopyOf, IsReopened};

use crate::closing::{Unclosed, close};
use bh_backup::{HostCopy, save_files};
use bh_base::connection::Connection as Joined;
use bh_file::{HostFile, open_database};
use bh_shelf::copied::CopyShelf;
use sqlite::{Alter, Connection, FileStore, Files, Wary};
use sqlite_disk::Disk;
use std::fmt;

/// A file that was made as a copy. Its bytes are those that were written to it: earlier contents
/// are truncated first.
pub type CopyFile = HostFile<Wary>;

/// A copy of a host: a file of its database, and the packs that this names bytes of.
pub type KeptCopy<C> = HostCopy<CopyFile, C>;

/// A connection's closed files, and the copy of its host, if one was made.
#[derive(Drop)]
struct ClosedHost<D: Disk + Drop, C: Drop> {
    files: Files<D>,
    copy: Option<KeptCopy<C>>,
}

/// A copy of a host, if one was made, and the connection, if it could be reopened.
#[derive(Drop)]
pub struct CopiedHost<D: Disk + Drop, C: Drop> {
    pub copy: Option<KeptCopy<C>>,
    pub connection: Option<Connection<FileStore<D>>>,
}

/// Prints a backup's outcome on standard error. If that can't be written, it is lost.
fn tell(errors: &impl Eprint, to: &str, what: &str, why: &impl fmt::Display) {
    let _ = eprintln!(errors; "bucketd: {what} {to}: {why}");
}

/// Copies a closed database file and packs to new ones, if possible.
fn copy_of<D: Disk + Drop, P: CopyShelf>(
    rt: &HostRuntime,
    files: &mut Files<D>,
    packs: &mut P,
    to: &str,
) -> Option<KeptCopy<P::Copy>>
    requires { IsTrue (D.Disk.is_usable files.old.db) }
    ensures copied { IfSome result (λ copy. IsClean D.Disk files.new.db
        → HasAlone ⟦<HostFile<Wary> as Disk>⟧ (D.Disk.seen files.old.db) copy.file) }
    ensures has_all { IfSome result (λ copy. IsTrue (P.is_clean packs.new) → HaveAll P.Shelf P.Copy.Shelf packs.old copy.packs) }
    ensures stay { IsTrue (P.is_clean packs.new) → StayAs P.Shelf packs.old packs.new }
    ensures read { OnlyReads D.Disk files.old.db files.new.db }
    ensures log { files.new.log ≡ files.old.log }
{
    match save_files(rt, files, packs, to, Wary) {
        Ok(copy) => Some(copy),
        Err(fault) => {
            tell(rt, to, "unable to create", &fault);
            None
        }
    }
}

/// Closes the files of a connection, and copies the database file and packs. There is no copy if the log
/// can't be copied into the file, and no result if a fault has shut the files.
fn closed_and_copied<D: Disk + Drop, P: CopyShelf>(
    rt: &HostRuntime,
    connection: Connection<FileStore<D>>,
    packs: &mut P,
    to: &str,
) -> Option<ClosedHost<D, P::Copy>>
    ensures usable { IfSome result (λ it. IsTrue (D.Disk.is_usable it.files.log) × IsTrue (D.Disk.is_usable it.files.db)) }
    ensures held { IfSome result (λ it. AreClean D.Disk it.files.log it.files.db → IsHeldIn connection it.files) }
    ensures copied { IfSome result (λ it. IfSome it.copy (λ copy. AreClean D.Disk it.files.log it.files.db
        → IsFileOf ⟦<HostFile<Wary> as Disk>⟧ (file_state connection).committed copy.file)) }
    ensures has_all { IfSome result (λ it. IfSome it.copy (λ copy. IsTrue (P.is_clean packs.new)
        → HaveAll P.Shelf P.Copy.Shelf packs.old copy.packs)) }
    ensures stay { IsTrue (P.is_clean packs.new) → StayAs P.Shelf packs.old packs.new }
{
    look(&connection);
    match close(connection) {
        Ok(mut files) => {
            let copy = copy_of(rt, &mut files, packs, to);
            Some(ClosedHost { files, copy })
        }
        Err(Unclosed { error, files }) => {
            tell(
                rt,
                to,
                "unable to copy the host's log into its file, and so to create",
                &error,
            );
            Some(ClosedHost {
                files: files?,
                copy: None,
            })
        }
    }
}

/// Copies a connection's database file and packs to new ones, and reopens the connection.
///
/// If reopening fails, or a fault has shut the files, there is no connection, and the cause is on
/// standard error.
pub fn copy_and_open<D: Disk + Drop, P: CopyShelf>(
    rt: &HostRuntime,
    connection: Connection<FileStore<D>>,
    packs: &mut P,
    to: &str,
) -> CopiedHost<D, P::Copy>
    ensures again { IfSome result.connection (λ again. HasCleanDisk (file_state again) → IsOpenAgain connection again) }
    ensures copied { IfSome result.copy (λ copy. IfSome result.connection (λ again. HasCleanDisk (file_state again)
        → IsFileOf ⟦<HostFile<Wary> as Disk>⟧ (file_state connection).committed copy.file)) }
    ensures has_all { IfSome result.copy (λ copy. IsTrue (P.is_clean packs.new)
        → HaveAll P.Shelf P.Copy.Shelf packs.old copy.packs) }
    ensures stay { IsTrue (P.is_clean packs.new) → StayAs P.Shelf packs.old packs.new }
{
    look(&connection);
    let Some(closed) = closed_and_copied(rt, connection, packs, to) else {
        return CopiedHost {
            copy: None,
            connection: None,
        };
    };
    match open_database(rt, closed.files) {
        Ok(again) => CopiedHost {
            copy: closed.copy,
            connection: Some(again),
        },
        Err(fault) => {
            tell(
                rt,
                to,
                "unable to reopen the host after the backup to",
                &fault,
            );
            CopiedHost {
                copy: closed.copy,
                connection: None,
            }
        }
    }
}

/// Copies a host's database file and its packs, if possible, and reopens the connection. No result if
/// it can't be reopened: the cause is on standard error.
pub(crate) fn copy_host<D: Disk + Drop, P: CopyShelf + Drop>(
    rt: &HostRuntime,
    connection: Joined<FileStore<D>, P>,
    to: &str,
) -> Option<(Option<KeptCopy<P::Copy>>, Joined<FileStore<D>, P>)>
    ensures again { IfSome result (λ it. IsIntact over_files P.Shelf it.1 → IsReopened P.Shelf connection it.1) }
    ensures copied { IfSome result (λ it. IfSome it.0 (λ copy. IsIntact over_files P.Shelf it.1
        → IsCopyOf P.Shelf ⟦<HostFile<Wary> as Disk>⟧ P.Copy.Shelf connection copy.file copy.packs)) }
{
    let Joined {
        database,
        mut packs,
    } = connection;
    let CopiedHost { copy, connection } = copy_and_open(rt, database, &mut packs, to);
    let database = connection?;
    Some((copy, Joined { database, packs }))
}

/// Until a fault shuts a connection, its databases have their schemas.
fn look<S: Alter>(connection: &Connection<S>)
    ensures { IsLive (state S.Store connection.now) }
{
    let _schema = connection.schema();
}
