//! The packs of a backup, in the folder beside the file in which it is written first.

ghost use Rattle.std.specs.Prelude.{IfOk, IsTrue};
ghost use Rattle.bh_backup.specs.Packs.{HaveAll, StayAs};

use crate::fault::BackupFault;
use crate::names::{Partial, is_taken, sync_folder};
use bh_shelf::copied::CopyShelf;
use std::io::ErrorKind;
use std::{fs, io};

/// Copies packs to stand beside the `.partial` file, and syncs them.
pub(crate) fn copy_packs<P: CopyShelf>(
    packs: &mut P,
    partial: &Partial,
) -> Result<P::Copy, BackupFault>
    ensures stay { IsTrue (P.is_clean packs.new) → StayAs P.Shelf packs.old packs.new }
    ensures has_all { IfOk result (λ copies. IsTrue (P.is_clean packs.new) → HaveAll P.Shelf P.Copy.Shelf packs.old copies) }
    ensures still_has { IfOk result (λ copies. IsTrue (P.is_clean packs.new) → HaveAll P.Shelf P.Copy.Shelf packs.new copies) }
{
    match packs.copy_to(partial.file.as_str()) {
        Ok(copies) => Ok(copies),
        Err(trouble) => Err(BackupFault::Packs(trouble)),
    }
}

/// Renames the folder of a backup's packs to stand beside the path that the backup is to have, if there are
/// any, and syncs the directory: after a crash no file has that path without them.
pub(crate) fn move_packs(rt: &HostRuntime, partial: &Partial, path: &str) -> io::Result<()> {
    if !is_taken(rt, partial.packs.as_str())? {
        return Ok(());
    }
    let beside = format!(in rt.alloc(); "{path}.packs")?;
    fs::rename(rt, partial.packs.as_str(), beside.as_str())?;
    sync_folder(rt, partial.file.as_str())
}

/// Renames it back, after the backup couldn't be given its path.
pub(crate) fn put_back(rt: &HostRuntime, partial: &Partial, path: &str) -> io::Result<()> {
    let beside = format!(in rt.alloc(); "{path}.packs")?;
    fs::rename(rt, beside.as_str(), partial.packs.as_str())
}

/// Removes the packs that a stopped backup left beside the `.partial` file. Fails if that folder isn't one
/// that a backup makes: then it stays.
pub(crate) fn clear_packs(rt: &HostRuntime, partial: &Partial) -> Result<(), BackupFault> {
    let path = partial.packs.as_str();
    let is_folder = match fs::symlink_metadata(rt, path) {
        Ok(found) => found.is_dir(),
        Err(error) if error.kind() == ErrorKind::NotFound => return Ok(()),
        Err(error) => return Err(BackupFault::System(error)),
    };
    if !is_folder || !has_packs_alone(rt, path)? {
        return Err(BackupFault::ForeignPacks);
    }
    remove_files(rt, path)?;
    Ok(fs::remove_dir(rt, path)?)
}

/// Whether each name in a folder is one that a pack may have.
fn has_packs_alone(rt: &HostRuntime, folder: &str) -> io::Result<bool> {
    for entry in fs::read_dir(rt, folder)? {
        let entry = entry?;
        if !is_pack_name(entry.file_name()) {
            return Ok(false);
        }
    }
    Ok(true)
}

/// Removes the files in a folder.
fn remove_files(rt: &HostRuntime, folder: &str) -> io::Result<()> {
    for entry in fs::read_dir(rt, folder)? {
        let entry = entry?;
        let path = format!(in rt.alloc(); "{folder}/{}", entry.file_name())?;
        fs::remove_file(rt, path.as_str())?;
    }
    Ok(())
}

/// Whether a file of packs may have this name: eight digits.
fn is_pack_name(name: &str) -> bool {
    name.len() == 8 && name.bytes().all(|byte| byte.is_ascii_digit())
}
