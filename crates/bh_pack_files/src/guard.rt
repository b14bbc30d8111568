//! Which folder may be that of packs, and which file that of a pack.

ghost use Rattle.std.specs.Prelude.{◌↔◌, IsOk, IfErr};
ghost use Rattle.bh_pack_files.specs.Guard.{IsSafeFolder, IsFlawOf};

use std::fs::Metadata;
use std::os::unix::fs::MetadataExt;

/// What stands at the folder's name.
#[derive(Clone, Copy)]
pub(crate) enum Kind {
    Folder,
    Link,
    Other,
}

/// What is told of a folder: its kind, its owner, and its mode.
#[derive(Clone, Copy)]
pub(crate) struct Found {
    pub(crate) kind: Kind,
    pub(crate) owner: u32,
    pub(crate) mode: u32,
}

/// Why a folder isn't taken.
#[derive(Clone, Copy, PartialEq, Eq)]
pub(crate) enum Flaw {
    Link,
    NoFolder,
    Foreign,
    Shared,
}

/// The users whose folder may be taken: who runs this process, and who owns the host's file.
#[derive(Clone, Copy)]
pub(crate) struct Owners {
    pub(crate) process: u32,
    pub(crate) host: u32,
}

impl Found {
    pub(crate) fn of(found: &Metadata) -> Found {
        let kind = if found.is_symlink() {
            Kind::Link
        } else if found.is_dir() {
            Kind::Folder
        } else {
            Kind::Other
        };
        Found {
            kind,
            owner: found.uid(),
            mode: found.mode(),
        }
    }
}

/// Whether a folder may be that of packs: it is a folder and no link, one of these users owns it, and nobody
/// else may write to it.
pub(crate) fn judge(found: Found, owners: Owners) -> Result<(), Flaw>
    ensures safe { IsOk result ↔ IsSafeFolder found owners }
    ensures why { IfErr result (λ flaw. IsFlawOf flaw found owners) }
{
    match found.kind {
        Kind::Link => return Err(Flaw::Link),
        Kind::Other => return Err(Flaw::NoFolder),
        Kind::Folder => {}
    }
    if found.owner != owners.process && found.owner != owners.host {
        return Err(Flaw::Foreign);
    }
    if found.mode & 0o022 != 0 {
        return Err(Flaw::Shared);
    }
    Ok(())
}
