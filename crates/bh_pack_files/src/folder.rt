//! The folder of a host's packs, beside its database.

ghost use Rattle.std.specs.Prelude.{◌≡◌, ◌≢◌, ◌+◌, ◌≤◌, ◌==◌, ℕ, List, false, IfOk, IfSome, OnOk, IsTrue};
ghost use Rattle.std.specs.List.{list_any};
ghost use Rattle.bh_pack_files.specs.Files.{IsFresh, IsShared};
ghost use Rattle.bh_pack_files.specs.Names.{made_of, removed_of, Spares};

use crate::beside::{find_folder, place_beside};
use crate::entries::Entries;
use crate::fault::{Fault, Shortage};
use crate::file::{Held, PackFile};
use crate::name::pack_of;
use bh_packs::folder::Folder;
use std::alloc::AllocError;
use std::fs::File;
use std::io;
use std::io::ErrorKind;
use std::marker::PhantomData;
use std::os::unix::fs::FileExt;

/// The file of a linked pack, and how many bytes it has.
#[derive(Drop)]
struct Alike {
    file: File,
    len: usize,
}

/// The path of a folder of packs.
#[derive(Drop)]
pub struct FolderPath {
    path: String,
}

/// The folder of a host's packs.
#[derive(Drop)]
pub struct PackFolder<S: Held> {
    rt: HostRuntime,
    pub(crate) entries: Entries,
    pub(crate) added: Vec<usize>,
    held: PhantomData<S>,
}

impl<S: Held> PackFolder<S> {
    /// Opens the folder `F.packs` beside the host's file F. If it isn't there, it is made with mode 0700 as the
    /// first file is. `S` stands for what the files there held.
    ///
    /// It is refused if it is a symbolic link or no folder, if it belongs neither to the process's user nor
    /// to the owner of F, or if its group or others may write to it. F has to be there, and to be locked for
    /// as long as the folder is used.
    pub fn open(rt: &HostRuntime, host: &str, _held: S) -> Result<PackFolder<S>, Fault>
        ensures { IfOk result (λ folder. (n : ℕ) → (made_of n folder.entries.log ≡ 0) × (removed_of n folder.entries.log ≡ 0)) }
    {
        let place = place_beside(rt, host)?;
        let folder = find_folder(rt, &place)?;
        Ok(PackFolder {
            rt: *rt,
            entries: Entries::new(rt, place, folder),
            added: Vec::new(rt.alloc()),
            held: PhantomData,
        })
    }

    /// Opens the file of a pack that was synced up to a mark. It is refused if it isn't there, is no regular
    /// file, or has fewer bytes.
    pub fn open_pack(&self, pack: usize, mark: usize) -> Result<PackFile<S>, Fault>
        ensures { IfOk result (λ file. IsFresh file pack) }
    {
        let file = self.open_file(pack)?;
        match file.metadata() {
            Ok(found) => self.test_length(pack, found.len() as usize, mark)?,
            Err(error) => return Err(self.entries.fault(pack, error)),
        }
        match PackFile::settle(file, pack) {
            Ok(file) => Ok(file),
            Err(error) => Err(self.entries.fault(pack, error)),
        }
    }

    /// Makes the file of a pack, empty and with mode 0600. The number must never have been used: what a
    /// crash left under its name is removed first, and no link is followed.
    pub fn make_pack(&mut self, pack: usize) -> io::Result<PackFile<S>>
        ensures fresh { IfOk result (λ file. IsFresh file pack) }
        ensures others { (n : ℕ) → n ≢ pack → Spares self.old.entries.log self.new.entries.log n }
    {
        let file = match self.entries.make(pack) {
            Err(error) if error.kind() == ErrorKind::AlreadyExists => {
                self.entries.remove(pack)?;
                self.entries.make(pack)?
            }
            made => made?,
        };
        self.begin(file, pack)
    }

    /// Makes the file of a pack, empty and with mode 0600. It is an error if its name is taken, be it by a
    /// link. What is made so `take_back` removes again.
    pub fn add_pack(&mut self, pack: usize) -> io::Result<PackFile<S>>
        ensures fresh { IfOk result (λ file. IsFresh file pack) }
        ensures others { (n : ℕ) → n ≢ pack → Spares self.old.entries.log self.new.entries.log n }
        ensures kept { (n : ℕ) → removed_of n self.new.entries.log ≡ removed_of n self.old.entries.log }
    {
        self.added.reserve(1)?;
        let file = self.entries.make(pack)?;
        self.added.push(pack)?;
        self.begin(file, pack)
    }

    /// Gives the file of another folder's pack its name here, too, if the system lets it, and the file is as long as
    /// what is kept of it and ends with these bytes, at most 4,096. None if not: then no name is made. What is linked so
    /// `take_back` removes again. `sync` makes the name last.
    ///
    /// Nothing more of it is read: that it has the bytes that were written to it under its other name is believed. Which
    /// these are tells `_keeper`, by the caller's proof alone.
    pub fn link_pack<P>(
        &mut self,
        from: &FolderPath,
        _keeper: &P,
        pack: usize,
        kept: usize,
        tail: &[u8],
    ) -> io::Result<Option<PackFile<S>>>
        ghost bytes: { List ℕ }
        ensures shared { IfOk result (λ linked. IfSome linked (λ file. IsShared file pack bytes)) }
        ensures others { (n : ℕ) → n ≢ pack → Spares self.old.entries.log self.new.entries.log n }
    {
        self.added.reserve(1)?;
        if !self.entries.link(from.path.as_str(), pack)? {
            return Ok(None);
        }
        self.added.push(pack)?;
        match self.alike(pack, kept, tail)? {
            Some(Alike { file, len }) => Ok(Some(PackFile::shared(file, pack, kept, len))),
            None => {
                let _ = self.added.pop();
                self.entries.remove(pack)?;
                Ok(None)
            }
        }
    }

    /// The file of a pack, if it has so many bytes and ends with these.
    fn alike(&self, pack: usize, kept: usize, tail: &[u8]) -> io::Result<Option<Alike>>
        ensures { IfOk result (λ found. IfSome found (λ it. it.len ≡ kept)) }
    {
        let Some(file) = self.entries.open(pack)? else {
            return Ok(None);
        };
        let len = file.metadata()?.len() as usize;
        if len == kept && ends_with(&file, len, tail)? {
            Ok(Some(Alike { file, len }))
        } else {
            Ok(None)
        }
    }

    /// Syncs the names that were linked.
    pub fn sync(&self) -> io::Result<()> {
        self.entries.sync()
    }

    /// Gives a new file to its owner, and syncs it and its name.
    fn begin(&self, file: File, pack: usize) -> io::Result<PackFile<S>>
        ensures { IfOk result (λ file. IsFresh file pack) }
    {
        let file = PackFile::settle(self.entries.own(file)?, pack)?;
        self.entries.sync()?;
        Ok(file)
    }

    /// Removes the files that `add_pack` made, and the folder if it was made for them, as far as the system
    /// lets it.
    pub fn take_back(&mut self)
        ensures made { (n : ℕ) → made_of n self.new.entries.log ≡ made_of n self.old.entries.log }
        ensures others { (n : ℕ) → list_any (λ pack. pack == n) self.old.added.items ≡ false
            → Spares self.old.entries.log self.new.entries.log n }
    {
        while let Some(pack) = self.added.pop() {
            let _ = self.entries.remove(pack);
        }
        let _ = self.entries.sync();
        self.entries.leave();
    }

    /// Removes the file of a pack.
    pub fn remove_pack(&mut self, pack: usize) -> io::Result<()>
        ensures removed { removed_of pack self.new.entries.log ≡ removed_of pack self.old.entries.log + 1 }
        ensures made { (n : ℕ) → made_of n self.new.entries.log ≡ made_of n self.old.entries.log }
        ensures others { (n : ℕ) → n ≢ pack → Spares self.old.entries.log self.new.entries.log n }
    {
        self.entries.remove(pack)?;
        self.entries.sync()
    }

    /// Removes the files of packs that no row names: a crash left them. Returns the names in the folder that
    /// are no pack's; they are left alone.
    pub fn sweep(&mut self, named: &[usize]) -> Result<Vec<String>, Fault>
        ensures spared { (n : ℕ) → IsTrue (list_any (λ pack. pack == n) named.now)
            → Spares self.old.entries.log self.new.entries.log n }
        ensures made { (n : ℕ) → made_of n self.new.entries.log ≡ made_of n self.old.entries.log }
    {
        let mut strangers = Vec::new(self.rt.alloc());
        let names = match self.entries.list() {
            Ok(names) => names,
            Err(error) => return Err(self.entries.folder_fault(error)),
        };
        for name in names {
            if !self.sweep_one(name.as_str(), named)? {
                keep(&mut strangers, name)?;
            }
        }
        match self.entries.sync() {
            Ok(()) => Ok(strangers),
            Err(error) => Err(self.entries.folder_fault(error)),
        }
    }

    /// Removes the file of this name, if it is a pack's that no row names. Whether the name is a pack's.
    fn sweep_one(&mut self, name: &str, named: &[usize]) -> Result<bool, Fault>
        ensures spared { (n : ℕ) → IsTrue (list_any (λ pack. pack == n) named.now)
            → Spares self.old.entries.log self.new.entries.log n }
        ensures made { (n : ℕ) → made_of n self.new.entries.log ≡ made_of n self.old.entries.log }
    {
        let pack = match pack_of(self.rt.alloc(), name) {
            Ok(Some(pack)) => pack,
            Ok(None) => return Ok(false),
            Err(error) => return Err(self.entries.folder_fault(error)),
        };
        if named.contains(&pack) {
            return Ok(true);
        }
        match self.entries.remove(pack) {
            Ok(()) => Ok(true),
            Err(error) if error.kind() == ErrorKind::IsADirectory => Ok(false),
            Err(error) => Err(self.entries.fault(pack, error)),
        }
    }

    /// Opens the regular file of a pack.
    fn open_file(&self, pack: usize) -> Result<File, Fault> {
        match self.entries.open(pack) {
            Ok(Some(file)) => Ok(file),
            Ok(None) => Err(Fault::NoFile(self.path_of(pack)?)),
            Err(error) if error.kind() == ErrorKind::NotFound => {
                Err(Fault::Missing(self.path_of(pack)?))
            }
            Err(error) => Err(self.entries.fault(pack, error)),
        }
    }

    /// Refuses the file of a pack that has fewer bytes than were synced.
    fn test_length(&self, pack: usize, bytes: usize, synced: usize) -> Result<(), Fault>
        ensures { OnOk result (synced ≤ bytes) }
    {
        if bytes >= synced {
            return Ok(());
        }
        Err(Fault::Cut(Shortage {
            path: self.path_of(pack)?,
            bytes,
            synced,
        }))
    }

    fn path_of(&self, pack: usize) -> Result<String, Fault> {
        match self.entries.path_of(pack) {
            Ok(path) => Ok(path),
            Err(_) => Err(Fault::Memory),
        }
    }
}

impl<S: Held> Folder<PackFile<S>> for PackFolder<S> {
    fn create(&mut self, pack: usize) -> io::Result<PackFile<S>> {
        self.make_pack(pack)
    }

    fn delete(&mut self, pack: usize, _file: PackFile<S>) -> io::Result<()> {
        self.remove_pack(pack)
    }
}

/// The path of the folder of packs beside a host's file, where links to that lead.
pub fn folder_beside(rt: &HostRuntime, host: &str) -> Result<FolderPath, Fault> {
    let place = place_beside(rt, host)?;
    Ok(FolderPath { path: place.path })
}

/// Whether a file of this length ends with these bytes, which are at most 4,096.
fn ends_with(file: &File, len: usize, tail: &[u8]) -> io::Result<bool> {
    let mut found = [0u8; 4096];
    if tail.len() > found.len() || tail.len() > len {
        return Ok(false);
    }
    file.read_exact_at(&mut found[..tail.len()], (len - tail.len()) as u64)?;
    Ok(&found[..tail.len()] == tail)
}

/// Keeps a name that is no pack's.
fn keep(strangers: &mut Vec<String>, name: String) -> Result<(), AllocError> {
    strangers.push(name)?;
    Ok(())
}
