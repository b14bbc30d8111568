//! The folder beside a host's file: where it is, how it is made, and whether it may be that of packs.

use crate::fault::Fault;
use crate::guard::{Flaw, Found, Owners, judge};
use std::fs::{DirBuilder, File};
use std::io::ErrorKind;
use std::os::unix::fs::{DirBuilderExt, MetadataExt, lchown};
use std::{fs, io};

/// Where the folder is, and who is to own it.
#[derive(Drop)]
pub(crate) struct Place {
    pub(crate) path: String,
    pub(crate) user: u32,
    pub(crate) group: u32,
}

/// Where the folder of packs is: beside the host's file, where links to that lead.
pub(crate) fn place_beside(rt: &HostRuntime, host: &str) -> Result<Place, Fault> {
    let alloc = rt.alloc();
    let found = match fs::metadata(rt, host) {
        Ok(found) => found,
        Err(error) => return Err(Fault::system(String::from_str(alloc, host)?, error)),
    };
    match fs::canonicalize(rt, host) {
        Ok(real) => Ok(Place {
            path: format!(in alloc; "{}.packs", real.as_str())?,
            user: found.uid(),
            group: found.gid(),
        }),
        Err(error) => Err(Fault::system(String::from_str(alloc, host)?, error)),
    }
}

/// Makes the folder with mode 0700, if its name isn't taken. Whether it was made. One that can't be settled is
/// removed, so that the next call settles it.
pub(crate) fn make_folder(rt: &HostRuntime, place: &Place) -> io::Result<bool> {
    let path = place.path.as_str();
    match DirBuilder::new().mode(0o700).create(rt, path) {
        Ok(()) => {}
        Err(error) if error.kind() == ErrorKind::AlreadyExists => return Ok(false),
        Err(error) => return Err(error),
    }
    match settle_folder(rt, place) {
        Ok(()) => Ok(true),
        Err(error) => {
            let _ = fs::remove_dir(rt, path);
            Err(error)
        }
    }
}

/// Gives a new folder to the owner of the host's file, where the process may, and syncs the folder that it is in.
fn settle_folder(rt: &HostRuntime, place: &Place) -> io::Result<()> {
    let path = place.path.as_str();
    match lchown(rt, path, Some(place.user), Some(place.group)) {
        Err(error) if error.kind() != ErrorKind::PermissionDenied => return Err(error),
        Ok(()) | Err(_) => {}
    }
    match path.rsplit_once('/') {
        Some(("", _)) => fs::open(rt, "/")?.sync_all(),
        Some((parent, _)) => fs::open(rt, parent)?.sync_all(),
        None => fs::open(rt, ".")?.sync_all(),
    }
}

/// Opens the folder, if it is there, unless it may not be that of packs.
pub(crate) fn find_folder(rt: &HostRuntime, place: &Place) -> Result<Option<File>, Fault> {
    match open_folder(rt, place) {
        Ok(folder) => Ok(Some(folder)),
        Err(Fault::System(_, error)) if error.kind() == ErrorKind::NotFound => Ok(None),
        Err(fault) => Err(fault),
    }
}

/// Opens the folder, unless it may not be that of packs.
pub(crate) fn open_folder(rt: &HostRuntime, place: &Place) -> Result<File, Fault> {
    let path = place.path.as_str();
    match look(rt, place) {
        Ok(Ok(folder)) => Ok(folder),
        Ok(Err(flaw)) => Err(told(flaw, String::from_str(rt.alloc(), path)?)),
        Err(error) => Err(Fault::system(String::from_str(rt.alloc(), path)?, error)),
    }
}

/// The open folder, or why it may not be that of packs.
fn look(rt: &HostRuntime, place: &Place) -> io::Result<Result<File, Flaw>> {
    let path = place.path.as_str();
    let owners = Owners {
        process: libc::geteuid(),
        host: place.user,
    };
    let named = fs::symlink_metadata(rt, path)?;
    if let Err(flaw) = judge(Found::of(&named), owners) {
        return Ok(Err(flaw));
    }
    let folder = fs::open(rt, path)?;
    let found = folder.metadata()?;
    if found.dev() != named.dev() || found.ino() != named.ino() {
        return Ok(Err(Flaw::NoFolder));
    }
    Ok(Ok(folder))
}

/// The message of a flaw.
fn told(flaw: Flaw, path: String) -> Fault {
    match flaw {
        Flaw::Link => Fault::Link(path),
        Flaw::NoFolder => Fault::NoFolder(path),
        Flaw::Foreign => Fault::Foreign(path),
        Flaw::Shared => Fault::Shared(path),
    }
}
