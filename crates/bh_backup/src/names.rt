//! The names of a backup's files.

ghost use Rattle.std.specs.Prelude.{◌≡◌, false, nat_eq, IsTrue, OnOk};
ghost use Rattle.std.specs.List.{ends_with};
ghost use Rattle.sqlite_wal.specs.Reads.{IsClean};
ghost use Rattle.bh_backup.specs.Copies.{HasAlone};
ghost use Rattle.bh_backup.specs.Names as spec;
ghost use Rattle.bh_backup.specs.Packs.{HaveAll};

use crate::fault::BackupFault;
use crate::packs::{clear_packs, move_packs, put_back};
use bh_shelf::shelf::Shelf;
use sqlite_disk::Disk;
use std::alloc::AllocError;
use std::io::ErrorKind;
use std::{fs, io};

/// The paths of the file in which a backup is written, of its log, which stays empty, and of the folder of its
/// packs.
#[derive(Drop)]
pub(crate) struct Partial {
    pub(crate) file: String,
    pub(crate) log: String,
    pub(crate) packs: String,
}

impl Partial {
    pub(crate) fn of(rt: &HostRuntime, path: &str) -> Result<Partial, AllocError> {
        Ok(Partial {
            file: format!(in rt.alloc(); "{path}.partial")?,
            log: format!(in rt.alloc(); "{path}.partial-wal")?,
            packs: format!(in rt.alloc(); "{path}.partial.packs")?,
        })
    }
}

/// Whether a path exists, even as a dangling link.
pub(crate) fn is_taken(rt: &HostRuntime, path: &str) -> io::Result<bool> {
    match fs::symlink_metadata(rt, path) {
        Ok(_) => Ok(true),
        Err(error) if error.kind() == ErrorKind::NotFound => Ok(false),
        Err(error) => Err(error),
    }
}

/// Whether a path ends with some bytes.
fn ends_in(path: &str, tail: &[u8]) -> bool
    ensures { result ≡ ends_with nat_eq path.now tail.now }
{
    path.as_bytes().ends_with(tail)
}

/// Whether a path ends as the name of a file beside another one: its log, its journal, its folder of packs,
/// or the file in which it is written first.
fn is_beside(path: &str) -> bool
    ensures { result ≡ spec.is_beside path.now }
{
    ends_in(path, b"-wal")
        || ends_in(path, b"-journal")
        || ends_in(path, b".partial")
        || ends_in(path, b".moving")
        || ends_in(path, b".packs")
}

/// Fails if the path of a new file exists, or a file beside it that would be read with it, or a folder of
/// packs, which are another host's. It also fails if the path ends as the name of a file beside another one.
pub fn refuse_taken(rt: &HostRuntime, path: &str) -> Result<(), BackupFault>
    ensures { OnOk result (spec.is_beside path.now ≡ false) }
{
    if is_beside(path) {
        return Err(BackupFault::Reserved);
    }
    if is_taken(rt, path)? {
        return Err(BackupFault::Taken);
    }
    let log = format!(in rt.alloc(); "{path}-wal")?;
    let journal = format!(in rt.alloc(); "{path}-journal")?;
    let packs = format!(in rt.alloc(); "{path}.packs")?;
    if is_taken(rt, log.as_str())?
        || is_taken(rt, journal.as_str())?
        || is_taken(rt, packs.as_str())?
    {
        return Err(BackupFault::Beside);
    }
    Ok(())
}

/// Syncs the directory of a file, so that a crash doesn't lose the file's name.
pub(crate) fn sync_folder(rt: &HostRuntime, path: &str) -> io::Result<()> {
    let mut folder = fs::canonicalize(rt, path)?;
    folder.pop();
    fs::open(rt, folder.as_str())?.sync_all()
}

/// Renames a backup to its name, if that isn't taken: first its packs, then its file. The backup is then
/// complete and synced.
pub(crate) fn give_name<D: Disk, E: Disk, P: Shelf, C: Shelf>(
    rt: &HostRuntime,
    partial: &Partial,
    path: &str,
    _from: &D,
    _file: &E,
    _packs: &P,
    _copies: &C,
) -> Result<(), BackupFault>
    requires file { IsClean D.Disk _from.now → HasAlone E.Disk (D.Disk.seen _from.now) _file.now }
    requires packs { IsTrue (P.is_clean _packs.now) → HaveAll P.Shelf C.Shelf _packs.now _copies.now }
    ensures { OnOk result (spec.is_beside path.now ≡ false) }
{
    refuse_taken(rt, path)?;
    fs::remove_file(rt, partial.log.as_str())?;
    rename(rt, partial, path)?;
    match sync_folder(rt, path) {
        Ok(()) => Ok(()),
        Err(error) => Err(BackupFault::Unsettled(error)),
    }
}

/// Renames the packs of a backup and then its file. If one of them can't be renamed, neither is.
fn rename(rt: &HostRuntime, partial: &Partial, path: &str) -> io::Result<()> {
    match rename_both(rt, partial, path) {
        Ok(()) => Ok(()),
        Err(error) => {
            let _ = put_back(rt, partial, path);
            Err(error)
        }
    }
}

/// The same, up to the first call that fails.
fn rename_both(rt: &HostRuntime, partial: &Partial, path: &str) -> io::Result<()> {
    move_packs(rt, partial, path)?;
    fs::rename(rt, partial.file.as_str(), path)
}

/// Removes an incomplete backup. If that fails, the next backup overwrites it.
pub(crate) fn discard(rt: &HostRuntime, partial: &Partial) {
    let _ = clear_packs(rt, partial);
    let _ = fs::remove_file(rt, partial.file.as_str());
    let _ = fs::remove_file(rt, partial.log.as_str());
}
