//! Copies a connection's database to a new file, and a host's packs beside it.

ghost use Rattle.std.specs.Prelude.{◌≡◌, false, IfOk, IsTrue, OnOk};
ghost use Rattle.sqlite.specs.Closing.{IsCopied};
ghost use Rattle.sqlite.specs.Files.{file_state};
ghost use Rattle.sqlite_wal.specs.Reads.{AreClean, IsClean, OnlyReads};
ghost use Rattle.bh_backup.specs.Copies.{HasAlone, IsFileOf};
ghost use Rattle.bh_backup.specs.Names.{is_beside};
ghost use Rattle.bh_backup.specs.Packs.{HaveAll, StayAs};

use crate::connections::back_up;
use crate::disks::copy_disk;
use crate::fault::BackupFault;
use crate::leftovers::refuse_foreign;
use crate::names::{Partial, discard, give_name, refuse_taken};
use crate::packs::{clear_packs, copy_packs};
use bh_file::{HostFile, open_files};
use bh_shelf::copied::CopyShelf;
use sqlite::{Connection, FileStore, Files, Start};
use sqlite_disk::Disk;

/// A copy of a host: a file of its database, and the packs beside it.
#[derive(Drop)]
pub struct HostCopy<E: Drop, C: Drop> {
    pub file: E,
    pub packs: C,
}

/// A host's closed files, and the copy of the host.
#[derive(Drop)]
pub struct Saved<D: Disk + Drop, E: Drop, C: Drop> {
    pub files: Files<D>,
    pub copy: HostCopy<E, C>,
}

/// The `.partial` file of a new file, which this process has locked, and its path.
#[derive(Drop)]
struct Begun<S: Start> {
    partial: Partial,
    made: Files<HostFile<S>>,
}

/// Opens or creates the `.partial` file of a new file, and removes packs that a stopped backup left beside it.
/// Fails if the new file can't have its path, or what another program made is in the way.
fn begin<S: Start>(rt: &HostRuntime, path: &str, start: S) -> Result<Begun<S>, BackupFault>
    ensures { IfOk result (λ begun. IsTrue (⟦<HostFile<S> as Disk>⟧.is_usable begun.made.db)) }
{
    refuse_taken(rt, path)?;
    refuse_foreign(rt, path)?;
    let partial = Partial::of(rt, path)?;
    let made = match open_files(rt, partial.file.as_str(), start) {
        Ok(made) => made,
        Err(reason) => return Err(BackupFault::Unopened(reason)),
    };
    clear_packs(rt, &partial)?;
    Ok(Begun { partial, made })
}

/// Copies a database file into the `.partial` file, which this process has locked, and a host's packs beside
/// it, and renames both.
fn fill_from<D: Disk + Drop, P: CopyShelf, E: Disk>(
    rt: &HostRuntime,
    files: &mut Files<D>,
    packs: &mut P,
    copy: &mut E,
    partial: &Partial,
    path: &str,
) -> Result<P::Copy, BackupFault>
    requires from { IsTrue (D.Disk.is_usable files.old.db) }
    requires to { IsTrue (E.Disk.is_usable copy.old) }
    ensures copied { OnOk result (IsClean D.Disk files.new.db → HasAlone E.Disk (D.Disk.seen files.old.db) copy.new) }
    ensures has_all { IfOk result (λ copies. IsTrue (P.is_clean packs.new) → HaveAll P.Shelf P.Copy.Shelf packs.old copies) }
    ensures stay { IsTrue (P.is_clean packs.new) → StayAs P.Shelf packs.old packs.new }
    ensures named { OnOk result (is_beside path.now ≡ false) }
    ensures read { OnlyReads D.Disk files.old.db files.new.db }
    ensures log { files.new.log ≡ files.old.log }
{
    refuse_taken(rt, path)?;
    copy_disk(rt, &mut files.db, copy)?;
    let copies = copy_packs(packs, partial)?;
    give_name(rt, partial, path, &files.db, copy, packs, &copies)?;
    Ok(copies)
}

/// Copies a database file, which stays open, to a new file, and a host's packs beside it, as [`save`] does.
pub fn save_files<D: Disk + Drop, P: CopyShelf, S: Start>(
    rt: &HostRuntime,
    files: &mut Files<D>,
    packs: &mut P,
    path: &str,
    start: S,
) -> Result<HostCopy<HostFile<S>, P::Copy>, BackupFault>
    requires { IsTrue (D.Disk.is_usable files.old.db) }
    ensures copied { IfOk result (λ copy. IsClean D.Disk files.new.db
        → HasAlone ⟦<HostFile<S> as Disk>⟧ (D.Disk.seen files.old.db) copy.file) }
    ensures has_all { IfOk result (λ copy. IsTrue (P.is_clean packs.new) → HaveAll P.Shelf P.Copy.Shelf packs.old copy.packs) }
    ensures stay { IsTrue (P.is_clean packs.new) → StayAs P.Shelf packs.old packs.new }
    ensures named { OnOk result (is_beside path.now ≡ false) }
    ensures read { OnlyReads D.Disk files.old.db files.new.db }
    ensures log { files.new.log ≡ files.old.log }
{
    let Begun { partial, mut made } = begin(rt, path, start)?;
    match fill_from(rt, files, packs, &mut made.db, &partial, path) {
        Ok(packs) => Ok(HostCopy {
            file: made.db,
            packs,
        }),
        Err(fault) => {
            discard(rt, &partial);
            Err(fault)
        }
    }
}

/// A connection's closed files, and the copies of a host's packs.
#[derive(Drop)]
struct Filled<D: Disk + Drop, C: Drop> {
    files: Files<D>,
    copies: C,
}

/// Fills the `.partial` file, which this process has locked, and copies a host's packs beside it, and renames
/// both.
fn fill<D: Disk + Drop, P: CopyShelf, E: Disk>(
    rt: &HostRuntime,
    connection: Connection<FileStore<D>>,
    packs: &mut P,
    copy: &mut E,
    partial: &Partial,
    path: &str,
) -> Result<Filled<D, P::Copy>, BackupFault>
    requires { IsTrue (E.Disk.is_usable copy.old) }
    ensures kept { IfOk result (λ it. AreClean D.Disk it.files.log it.files.db → IsCopied connection it.files) }
    ensures copied { IfOk result (λ it. AreClean D.Disk it.files.log it.files.db
        → IsFileOf E.Disk (file_state connection).committed copy.new) }
    ensures has_all { IfOk result (λ it. IsTrue (P.is_clean packs.new) → HaveAll P.Shelf P.Copy.Shelf packs.old it.copies) }
    ensures stay { IsTrue (P.is_clean packs.new) → StayAs P.Shelf packs.old packs.new }
    ensures named { OnOk result (is_beside path.now ≡ false) }
{
    // The process that had locked the file until now may have renamed it.
    refuse_taken(rt, path)?;
    let files = back_up(rt, connection, copy)?;
    let copies = copy_packs(packs, partial)?;
    give_name(rt, partial, path, &files.db, copy, packs, &copies)?;
    Ok(Filled { files, copies })
}

/// Closes the files of a connection, copies the log into the database file, and copies that file to
/// a new one with mode 0600. A host's packs are copied to a folder beside it.
///
/// The copy is written to a file of that name with `.partial` appended, and its packs beside that. Both are
/// synced, and then renamed, the packs first; then their directory is synced. So whatever stops it, there is a
/// complete copy or none. What an earlier stop left of that name is overwritten; another program's database
/// or folder is refused. If it fails, nothing of the copy remains, except with `Unsettled`, and the files and
/// the packs keep their contents.
pub fn save<D: Disk + Drop, P: CopyShelf, S: Start>(
    rt: &HostRuntime,
    connection: Connection<FileStore<D>>,
    packs: &mut P,
    path: &str,
    start: S,
) -> Result<Saved<D, HostFile<S>, P::Copy>, BackupFault>
    ensures kept { IfOk result (λ saved. AreClean D.Disk saved.files.log saved.files.db → IsCopied connection saved.files) }
    ensures copied { IfOk result (λ saved. AreClean D.Disk saved.files.log saved.files.db
        → IsFileOf ⟦<HostFile<S> as Disk>⟧ (file_state connection).committed saved.copy.file) }
    ensures has_all { IfOk result (λ saved. IsTrue (P.is_clean packs.new)
        → HaveAll P.Shelf P.Copy.Shelf packs.old saved.copy.packs) }
    ensures stay { IsTrue (P.is_clean packs.new) → StayAs P.Shelf packs.old packs.new }
    ensures named { OnOk result (is_beside path.now ≡ false) }
{
    let Begun { partial, mut made } = begin(rt, path, start)?;
    match fill(rt, connection, packs, &mut made.db, &partial, path) {
        Ok(Filled { files, copies }) => Ok(Saved {
            files,
            copy: HostCopy {
                file: made.db,
                packs: copies,
            },
        }),
        Err(fault) => {
            discard(rt, &partial);
            Err(fault)
        }
    }
}
