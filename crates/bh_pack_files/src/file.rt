//! The file of one pack, as a `Disk`: what it has is told by what it held and the record of its calls.

ghost use Rattle.std.specs.Prelude.{◌≡◌, refl, ℕ, List, [], false, IfOk};
ghost use Rattle.std.proofs.Common.{inl};
ghost use Rattle.sqlite_disk.specs.Events.{replay, raised};
ghost use Rattle.sqlite_disk.specs.History.{MayLeave};
ghost use Rattle.sqlite_disk.specs.Refusal.{is_no_room};
ghost use Rattle.sqlite_disk.specs.Fair.{fair_if_honest};

use crate::record::Record;
use sqlite_disk::{Disk, Tally, digest_of, is_no_room};
use std::marker::PhantomData;
use std::os::fd::AsRawFd;
use std::os::unix::fs::{FileExt, MetadataExt};
use std::{fs, io};

/// What the files of packs held as they were opened, by the numbers of the packs. No code reads it: a
/// function over any `S: Held` is proved for all contents.
pub trait Held: Drop {
    ghost held: { ℕ → List ℕ };
}

/// For a program to name. At this type a clause says nothing of a file that had bytes as it was opened.
#[derive(Drop)]
pub struct Unknown;

impl Held for Unknown {
    ghost held = { λ _. [] };
}

/// The calls, as a record has them.
const MEASURED: u64 = 1;

const READ: u64 = 2;

const WRITTEN: u64 = 3;

const CUT: u64 = 4;

const FLUSHED: u64 = 5;

const TESTED: u64 = 6;

/// The open file of a pack.
#[derive(Drop)]
pub struct PackFile<S: Held> {
    file: fs::File,
    pub(crate) log: Record,
    pub(crate) pack: usize,
    held: PhantomData<S>,
    tally: Tally,
    is_usable: bool,
    is_shared: bool,
    ghost usable: { is_usable ≡ (replay (S.Held.held pack) log.events).is_usable },
}

/// Counts a call that found no room.
fn refuse(refused: &mut u64, error: &io::Error)
    ensures { refused.new ≡ raised (is_no_room error.now) refused.old }
{
    if is_no_room(error) {
        *refused = refused.saturating_add(1);
    }
}

impl<S: Held> PackFile<S> {
    ghost use Rattle.bh_pack_files.specs.Files.{IsFresh, IsShared};

    /// Syncs a file that was just opened, and drops the kernel's copies of its pages, which a failed sync
    /// of an earlier process may have left other than the disk has them.
    pub(crate) fn settle(file: fs::File, pack: usize) -> io::Result<PackFile<S>>
        ensures { IfOk result (λ file. IsFresh file pack) }
    {
        let names = file.metadata()?.nlink();
        file.sync_all()?;
        let advised = libc::posix_fadvise(file.as_raw_fd(), 0, 0, libc::POSIX_FADV_DONTNEED);
        if advised != 0 {
            return Err(io::Error::from_raw_os_error(advised));
        }
        Ok(PackFile {
            file,
            log: Record::new(),
            pack,
            held: PhantomData,
            tally: Tally {
                caught: 0,
                refused: 0,
            },
            is_usable: true,
            is_shared: names > 1,
        })
    }

    /// A file that another folder has, too, where these bytes were written to it and synced. It is as long as what is
    /// kept of it there.
    pub(crate) fn shared(file: fs::File, pack: usize, kept: usize, len: usize) -> PackFile<S>
        ghost bytes: { List ℕ }
        requires { len ≡ kept }
        ensures { IsShared result pack bytes }
    {
        let mut log = Record::new();
        log.bring();
        PackFile {
            file,
            log,
            pack,
            held: PhantomData,
            tally: Tally {
                caught: 0,
                refused: 0,
            },
            is_usable: true,
            is_shared: true,
        }
    }

    /// Whether the file had another name, too, as it was opened: then a copy of the host has it.
    pub fn is_shared(&self) -> bool
        ensures { result ≡ self.now.is_shared }
    {
        self.is_shared
    }
}

impl<S: Held> Disk for PackFile<S> {
    ghost seen = { λ f. (replay (S.Held.held f.pack) f.log.events).seen };

    ghost may_leave = { λ f. let m = replay (S.Held.held f.pack) f.log.events in MayLeave false m.seen m.synced m.steps };

    ghost is_usable = { λ f. (replay (S.Held.held f.pack) f.log.events).is_usable };

    ghost is_clean = { λ f. (replay (S.Held.held f.pack) f.log.events).is_honest };

    ghost faults = { λ f. (replay (S.Held.held f.pack) f.log.events).faults };

    ghost tally_of = { λ f. f.tally };

    ghost key_of = { λ _. 0 };

    ghost is_fair = { λ f. (replay (S.Held.held f.pack) f.log.events).is_fair };

    ghost fair_if_clean = { λ f. fair_if_honest (S.Held.held f.pack) f.log.events };

    ghost seen_may_stay = { λ f. inl refl };

    fn mixes(&self) -> bool {
        false
    }

    // Packs test bytes by sums that rows keep, so a file has no secret.
    fn key(&self) -> u64 {
        0
    }

    fn tally(&self) -> Tally {
        self.tally
    }

    fn may_be_used(&self) -> bool {
        self.is_usable
    }

    fn len(&mut self) -> io::Result<usize> {
        match self.file.metadata() {
            Ok(found) => {
                let len = found.len() as usize;
                self.log.note(&[MEASURED, len as u64, 0, 1], &[]);
                Ok(len)
            }
            Err(error) => {
                self.log.note(&[MEASURED, 0, 0, 0], &[]);
                Err(error)
            }
        }
    }

    fn read_at(&mut self, at: usize, buf: &mut [u8]) -> io::Result<()> {
        if buf.is_empty() {
            return Ok(());
        }
        let (from, size) = (at as u64, buf.len() as u64);
        match self.file.read_exact_at(buf, from) {
            Ok(()) => {
                self.log.note(&[READ, from, size, 1], buf);
                Ok(())
            }
            Err(error) => {
                self.log.note(&[READ, from, size, 0], &[]);
                Err(error)
            }
        }
    }

    fn read_checked(&mut self, key: u64, want: u64, at: usize, buf: &mut [u8]) -> io::Result<()> {
        let (from, size) = (at as u64, buf.len() as u64);
        if let Err(error) = self.file.read_exact_at(buf, from) {
            self.log.note(&[TESTED, from, size, 0, key, want], &[]);
            return Err(error);
        }
        self.log.note(&[TESTED, from, size, 1, key, want], buf);
        if digest_of(key, buf) != want {
            self.tally.caught = self.tally.caught.saturating_add(1);
            return Err(io::ErrorKind::InvalidData.into());
        }
        Ok(())
    }

    fn write_at(&mut self, at: usize, bytes: &[u8]) -> io::Result<()> {
        if bytes.is_empty() {
            return Ok(());
        }
        let (from, size) = (at as u64, bytes.len() as u64);
        match self.file.write_all_at(bytes, from) {
            Ok(()) => {
                self.log.note(&[WRITTEN, from, size, 1], bytes);
                Ok(())
            }
            Err(error) => {
                self.log
                    .note(&[WRITTEN, from, u64::from(is_no_room(&error)), 0], bytes);
                refuse(&mut self.tally.refused, &error);
                Err(error)
            }
        }
    }

    fn set_len(&mut self, len: usize) -> io::Result<()> {
        match self.file.set_len(len as u64) {
            Ok(()) => {
                self.log.note(&[CUT, len as u64, 0, 1], &[]);
                Ok(())
            }
            Err(error) => {
                self.log
                    .note(&[CUT, len as u64, u64::from(is_no_room(&error)), 0], &[]);
                refuse(&mut self.tally.refused, &error);
                Err(error)
            }
        }
    }

    fn sync(&mut self) -> io::Result<()> {
        match self.file.sync_data() {
            Ok(()) => {
                self.log.note(&[FLUSHED, 0, 0, 1], &[]);
                Ok(())
            }
            Err(error) => {
                self.log
                    .note(&[FLUSHED, 0, u64::from(is_no_room(&error)), 0], &[]);
                self.is_usable = false;
                refuse(&mut self.tally.refused, &error);
                Err(error)
            }
        }
    }
}
