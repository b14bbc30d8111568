//! The files in the folder of packs: how they are made, opened, removed and listed.

ghost use Rattle.std.specs.Prelude.{◌≡◌, ◌≢◌, ◌+◌, ℕ};
ghost use Rattle.bh_pack_files.specs.Names.{made_of, removed_of, Spares};

use crate::beside::{Place, make_folder, open_folder};
use crate::fault::Fault;
use crate::name::name_of;
use crate::record::Record;
use std::fs::{File, OpenOptions};
use std::io::ErrorKind;
use std::os::fd::AsRawFd;
use std::os::unix::fs::{MetadataExt, OpenOptionsExt, fchown};
use std::{fs, io};

/// What is asked of the folder, as its record has it.
const MADE: u64 = 7;

const REMOVED: u64 = 8;

/// The folder: open, or not there before the first file is made.
#[derive(Drop)]
pub struct Entries {
    rt: HostRuntime,
    place: Place,
    folder: Option<File>,
    is_new: bool,
    pub(crate) log: Record,
}

impl Entries {
    pub(crate) fn new(rt: &HostRuntime, place: Place, folder: Option<File>) -> Entries
        ensures { (n : ℕ) → (made_of n result.log ≡ 0) × (removed_of n result.log ≡ 0) }
    {
        Entries {
            rt: *rt,
            place,
            folder,
            is_new: false,
            log: Record::new(),
        }
    }

    /// Makes the folder, if it isn't there, and opens it.
    fn reach(&mut self) -> io::Result<()>
        ensures { self.new.log ≡ self.old.log }
    {
        if self.folder.is_some() {
            return Ok(());
        }
        if make_folder(&self.rt, &self.place)? {
            self.is_new = true;
        }
        match open_folder(&self.rt, &self.place) {
            Ok(folder) => {
                self.folder = Some(folder);
                Ok(())
            }
            Err(fault) => Err(fault.into_error()),
        }
    }

    /// Removes the folder, if it was made here and is empty.
    pub(crate) fn leave(&mut self)
        ensures { self.new.log ≡ self.old.log }
    {
        if self.is_new {
            let _ = fs::remove_dir(&self.rt, self.place.path.as_str());
            self.folder = None;
            self.is_new = false;
        }
    }

    /// The path of a pack's file.
    pub(crate) fn path_of(&self, pack: usize) -> io::Result<String> {
        let name = name_of(self.rt.alloc(), pack)?;
        Ok(format!(in self.rt.alloc(); "{}/{}", self.place.path.as_str(), name.as_str())?)
    }

    /// The path of a pack's file in the folder, if that is there.
    fn path_in(&self, pack: usize) -> io::Result<String> {
        if self.folder.is_none() {
            return Err(ErrorKind::NotFound.into());
        }
        self.path_of(pack)
    }

    /// Makes the file of a pack, with mode 0600, and the folder, if that isn't there. It is an error if the
    /// name is taken, be it by a link; no file is made then.
    pub(crate) fn make(&mut self, pack: usize) -> io::Result<File>
        ensures made { made_of pack self.new.log ≡ made_of pack self.old.log + 1 }
        ensures kept { (n : ℕ) → removed_of n self.new.log ≡ removed_of n self.old.log }
        ensures others { (n : ℕ) → n ≢ pack → Spares self.old.log self.new.log n }
    {
        self.log.note(&[MADE, pack as u64, 0, 1], &[]);
        self.reach()?;
        let path = self.path_of(pack)?;
        OpenOptions::new()
            .read(true)
            .write(true)
            .create_new(true)
            .mode(0o600)
            .open(&self.rt, path.as_str())
    }

    /// Gives the file of another folder's pack its name in this one, too, which is made if it isn't there. Whether the
    /// system let it: not on another file system, or if the name is taken.
    pub(crate) fn link(&mut self, from: &str, pack: usize) -> io::Result<bool>
        ensures made { made_of pack self.new.log ≡ made_of pack self.old.log + 1 }
        ensures kept { (n : ℕ) → removed_of n self.new.log ≡ removed_of n self.old.log }
        ensures others { (n : ℕ) → n ≢ pack → Spares self.old.log self.new.log n }
    {
        self.log.note(&[MADE, pack as u64, 0, 1], &[]);
        self.reach()?;
        let name = name_of(self.rt.alloc(), pack)?;
        let there = format!(in self.rt.alloc(); "{from}/{}", name.as_str())?;
        let here = self.path_of(pack)?;
        Ok(fs::hard_link(&self.rt, there.as_str(), here.as_str()).is_ok())
    }

    /// Gives a file that was made to its owner, where the process may.
    pub(crate) fn own(&self, file: File) -> io::Result<File> {
        give(&file, self.place.user, self.place.group)?;
        past_streams(file)
    }

    /// Removes the name of a pack's file, or a link that has it.
    pub(crate) fn remove(&mut self, pack: usize) -> io::Result<()>
        ensures removed { removed_of pack self.new.log ≡ removed_of pack self.old.log + 1 }
        ensures kept { (n : ℕ) → made_of n self.new.log ≡ made_of n self.old.log }
        ensures others { (n : ℕ) → n ≢ pack → Spares self.old.log self.new.log n }
    {
        self.log.note(&[REMOVED, pack as u64, 0, 1], &[]);
        let path = self.path_in(pack)?;
        fs::remove_file(&self.rt, path.as_str())
    }

    /// Opens the file of a pack. No link is followed. None if it is no regular file.
    pub(crate) fn open(&self, pack: usize) -> io::Result<Option<File>> {
        let path = self.path_in(pack)?;
        let named = fs::symlink_metadata(&self.rt, path.as_str())?;
        if !named.is_file() {
            return Ok(None);
        }
        let file = OpenOptions::new()
            .read(true)
            .write(true)
            .open(&self.rt, path.as_str())?;
        let found = file.metadata()?;
        if found.dev() != named.dev() || found.ino() != named.ino() {
            return Ok(None);
        }
        Ok(Some(past_streams(file)?))
    }

    /// All names in the folder. There is none if it isn't there.
    pub(crate) fn list(&self) -> io::Result<Vec<String>> {
        let alloc = self.rt.alloc();
        let mut names = Vec::new(alloc);
        if self.folder.is_none() {
            return Ok(names);
        }
        for entry in fs::read_dir(&self.rt, self.place.path.as_str())? {
            let name = match entry {
                Ok(entry) => String::from_str(alloc, entry.file_name())?,
                Err(error) if error.kind() == ErrorKind::InvalidFilename => {
                    String::from_str(alloc, "(not UTF-8)")?
                }
                Err(error) => return Err(error),
            };
            names.push(name)?;
        }
        Ok(names)
    }

    /// Syncs the folder, so that names that were made or removed stay so after a crash.
    pub(crate) fn sync(&self) -> io::Result<()> {
        match &self.folder {
            Some(folder) => folder.sync_all(),
            None => Ok(()),
        }
    }

    /// A system's error about the file of a pack.
    pub(crate) fn fault(&self, pack: usize, error: io::Error) -> Fault {
        match self.path_of(pack) {
            Ok(path) => Fault::system(path, error),
            Err(_) => Fault::Memory,
        }
    }

    /// A system's error about the folder.
    pub(crate) fn folder_fault(&self, error: io::Error) -> Fault {
        match String::from_str(self.rt.alloc(), self.place.path.as_str()) {
            Ok(path) => Fault::system(path, error),
            Err(_) => Fault::Memory,
        }
    }
}

/// Gives a file to this user and group, where the process may.
fn give(file: &File, user: u32, group: u32) -> io::Result<()> {
    match fchown(file, Some(user), Some(group)) {
        Err(error) if error.kind() == ErrorKind::PermissionDenied => Ok(()),
        other => other,
    }
}

/// A handle that isn't the number of a standard stream: what is meant for one that was closed must not land
/// in a pack.
fn past_streams(file: File) -> io::Result<File> {
    if file.as_raw_fd() <= 2 {
        file.try_clone()
    } else {
        Ok(file)
    }
}
