//! Copies the host of a file and its packs to new ones.

ghost use Rattle.std.specs.Prelude.{◌≡◌, None, codes, IfOk, MatchOption};
ghost use Rattle.sqlite.specs.Files.{over_files};
ghost use Rattle.sqlite.specs.Held.{Held};
ghost use Rattle.sqlite_store.specs.declared.store.FileStore.{FileStore as TheStore};
ghost use Rattle.sqlite_wal.specs.Files.{image_at};
ghost use Rattle.bh_shelf.specs.Contents.{Contents};
ghost use Rattle.bh_types.specs.declared.refusal.Refusal.TheVariants as refusal;
ghost use Rattle.bh_maintenance.specs.Backups.{IsBacked, HasSaved, IsSavedOrNot, IsBackedUp};
ghost use Rattle.bh_maintenance.specs.Printing.{IsLine, IsRefusal};
ghost use Rattle.bh_maintenance.specs.Endings.{AreClosed};
ghost use Rattle.bh_maintenance.specs.Found.{IsFoundIn};

use crate::ending::{Done, close, leave};
use crate::fault::Fault;
use crate::files::{is_blank, open};
use crate::hosts::{found_host, open_packs};
use crate::printed::Printed;
use bh_backup::save;
use bh_file::{HostFile, OpenFault};
use bh_open::Opened;
use bh_shelf::closed::ClosedPacks;
use bh_shelf::copied::CopyShelf;
use bh_types::refusal::Refusal;
use sqlite::{Connection, FileStore, Files, Start};
use sqlite_disk::Disk;
use std::alloc::{AllocError, Global};

/// A copy of a host: a file of its database, and packs with all bytes that this names.
#[derive(Drop)]
pub struct HostCopy<P: Drop, E: Drop, C: Drop> {
    /// The host's own packs.
    pub from: P,
    pub file: E,
    pub packs: C,
}

/// The result of a backup: the printed text; the host's closed files, if there were any; and the
/// copy, if one was made.
#[derive(Drop)]
pub struct BackedUp<D: Disk + Drop, P: Drop, E: Drop, C: Drop> {
    pub printed: Printed,
    pub files: Option<Files<D>>,
    pub copy: Option<HostCopy<P, E, C>>,
}

impl<D: Disk + Drop, P: Drop, E: Drop, C: Drop> BackedUp<D, P, E, C> {
    /// The printed text. The files are closed, so that another process may open them.
    pub fn into_printed(self) -> Printed
        ensures { result ≡ self.printed }
    {
        let BackedUp {
            printed,
            files: _,
            copy: _,
        } = self;
        printed
    }
}

/// The answer if a backup was made.
fn done(alloc: Global) -> Result<Printed, AllocError>
    ensures { IfOk result (IsLine (codes "backup")) }
{
    Printed::line(alloc, b"backup")
}

/// Copies the host of a connection and its packs, and prints `backup`.
fn save_host<D: Disk + Drop, P: CopyShelf + Drop, T: Start>(
    rt: &HostRuntime,
    connection: Connection<FileStore<D>>,
    packs: P,
    to: &str,
    to_start: T,
) -> Result<BackedUp<D, P, HostFile<T>, P::Copy>, Fault>
    ensures { (has : Contents) → IfOk result (λ it. IsBacked P.Shelf has connection packs
        → HasSaved P.Shelf ⟦<HostFile<T> as Disk>⟧ P.Copy.Shelf has connection it.printed it.files it.copy) }
{
    let mut from = packs;
    let printed = done(rt.alloc())?;
    match save(rt, connection, &mut from, to, to_start) {
        Ok(saved) => Ok(BackedUp {
            printed,
            files: Some(saved.files),
            copy: Some(HostCopy {
                from,
                file: saved.copy.file,
                packs: saved.copy.packs,
            }),
        }),
        Err(reason) => Err(Fault::unsaved(rt.alloc(), to, reason)),
    }
}

/// The result if there is no host; its files are closed.
fn without_host<D: Disk + Drop, P: Drop, E: Drop, C: Drop>(
    done: Done<FileStore<D>>,
) -> BackedUp<D, P, E, C>
    ensures copy { result.copy ≡ None }
    ensures files { MatchOption result.files ⊥ (AreClosed done.connection) }
    ensures printed { result.printed ≡ done.printed }
{
    let (printed, left) = leave(done);
    BackedUp {
        printed,
        files: Some(close(left)),
        copy: None,
    }
}

/// The result if there is no file.
fn without_file<D: Disk + Drop, P: Drop, E: Drop, C: Drop>(
    alloc: Global,
) -> Result<BackedUp<D, P, E, C>, AllocError>
    ensures { IfOk result (λ it. (it.files ≡ None) × (it.copy ≡ None) × IsRefusal refusal.NotAHostFile it.printed) }
{
    Ok(BackedUp {
        printed: Printed::refusal(alloc, Refusal::NotAHostFile)?,
        files: None,
        copy: None,
    })
}

/// Copies an opened host and its packs. A failure says why these can't be opened or copied.
fn back_up_host<D: Disk + Drop, K: ClosedPacks, T: Start>(
    rt: &HostRuntime,
    path: &str,
    opened: Opened<FileStore<D>>,
    closed: K,
    to: &str,
    to_start: T,
) -> Result<BackedUp<D, K::Open, HostFile<T>, <K::Open as CopyShelf>::Copy>, Fault>
    ensures { (old : Held (TheStore D D.Disk)) → IsFoundIn over_files old opened → IfOk result (λ it.
        HasSaved K.Open.Shelf ⟦<HostFile<T> as Disk>⟧ K.Open.Copy.Shelf (K.has closed) opened.connection
        it.printed it.files it.copy) }
{
    let packs = open_packs(rt.alloc(), path, closed, &opened.listed)?;
    save_host(rt, opened.connection, packs, to, to_start)
}

/// Copies a connection's host and its packs, if it has one.
fn back_up_connection<D: Disk + Drop, K: ClosedPacks + Drop, T: Start>(
    rt: &HostRuntime,
    path: &str,
    connection: Connection<FileStore<D>>,
    closed: K,
    to: &str,
    to_start: T,
) -> Result<BackedUp<D, K::Open, HostFile<T>, <K::Open as CopyShelf>::Copy>, Fault>
    ensures { IfOk result (λ it. IsSavedOrNot K.Open.Shelf ⟦<HostFile<T> as Disk>⟧ K.Open.Copy.Shelf (K.has closed) connection
        it.printed it.files it.copy) }
{
    match found_host(rt, path, connection)? {
        Ok(opened) => back_up_host(rt, path, opened, closed, to, to_start),
        Err(done) => Ok(without_host(done)),
    }
}

/// Copies the host of a file and its packs to a new file, `to`, and new packs beside it, as they are
/// after its last event, and prints `backup`. No timestamp is taken, and the last stamp doesn't change.
/// A host of an earlier version is upgraded first, and so is the copy.
///
/// Before it prints, the copy is complete and synced; if it fails, there is none. It fails if the
/// name is taken, or its `.partial` file is another program's database.
pub fn backup_file<S: Start, K: ClosedPacks + Drop, T: Start>(
    rt: &HostRuntime,
    path: &str,
    start: S,
    closed: K,
    to: &str,
    to_start: T,
) -> Result<BackedUp<HostFile<S>, K::Open, HostFile<T>, <K::Open as CopyShelf>::Copy>, Fault>
    ensures { IfOk result (λ it. IsBackedUp ⟦<HostFile<S> as Disk>⟧ K.Open.Shelf ⟦<HostFile<T> as Disk>⟧ K.Open.Copy.Shelf
        (K.has closed) (image_at S.Start) it.printed it.files it.copy) }
{
    match is_blank(rt, path) {
        Ok(false) => {
            let connection = open(rt, path, start)?;
            back_up_connection(rt, path, connection, closed, to, to_start)
        }
        Ok(true) => Ok(without_file(rt.alloc())?),
        Err(error) => Err(Fault::unopened(rt.alloc(), path, OpenFault::from(error))),
    }
}
