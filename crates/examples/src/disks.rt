//! Files in memory that stop at a call, and their possible contents then.

ghost use Rattle.std.specs.Prelude.{IsTrue, IfOk};
ghost use Rattle.sqlite_disk.specs.Memory.{memory_is_usable};

use example_calls::answer::Fault;
use sqlite::{Files, Options};
use sqlite_disk::{Crash, Disk, Fuse, Memory};
use std::alloc::{AllocError, Global};
use std::io;

/// A log and a database file, each of which fails after a number of calls.
pub type Fused = Files<Fuse<Memory>>;

/// A small cache of pages, and a short log. So short scripts read both files, write to the log
/// before they commit, and copy it into the database file.
pub fn options() -> Options {
    let mut options = Options::new(1);
    options.cache_pages = 16;
    options.spill_pages = 8;
    options.checkpoint_frames = 40;
    options
}

/// An empty file that stops after `calls` calls.
pub fn fuse(alloc: Global, calls: u64) -> Fuse<Memory>
    ensures { IsTrue (⟦<Fuse<Memory> as Disk>⟧.is_usable result) }
{
    Fuse::new(Memory::new(alloc), calls)
}

/// A file with these bytes.
pub fn memory(alloc: Global, bytes: &[u8]) -> io::Result<Memory>
    ensures { IfOk result (λ disk. IsTrue (memory_is_usable disk)) }
{
    let mut disk = Memory::new(alloc);
    disk.write_at(0, bytes)?;
    disk.sync()?;
    Ok(disk)
}

/// Whether a file has stopped.
pub fn is_blown(disk: &mut Fuse<Memory>) -> bool {
    !disk.may_be_used() || disk.len().is_err()
}

/// The contents that a file may have after the machine stops: what was synced; what was written;
/// and a part of that.
pub fn images(alloc: Global, disk: &mut Fuse<Memory>) -> Result<Vec<Vec<u8>>, AllocError> {
    let mut images = Vec::new(alloc);
    let written = Vec::from_slice(alloc, disk.inner().bytes())?;
    disk.crash();
    let synced = Vec::from_slice(alloc, disk.inner().bytes())?;
    if written.as_slice() != synced.as_slice() {
        images.push(torn(alloc, written.as_slice(), synced.as_slice())?)?;
        images.push(written)?;
    }
    images.push(synced)?;
    Ok(images)
}

/// The contents if the first half of the unsynced bytes has come to the disk.
fn torn(alloc: Global, written: &[u8], synced: &[u8]) -> Result<Vec<u8>, AllocError> {
    let mut same = 0usize;
    for (one, other) in written.iter().zip(synced.iter()) {
        if one != other {
            break;
        }
        same = same.saturating_add(1);
    }
    let half = same.saturating_add(written.len().saturating_sub(same) / 2);
    let first = written.get(..half).unwrap_or(written);
    let mut bytes = Vec::from_slice(alloc, first)?;
    if let Some(rest) = synced.get(half..) {
        bytes.extend_from_slice(rest)?;
    }
    Ok(bytes)
}
