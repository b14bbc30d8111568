//! Where the files of packs are.

use sqlite_disk::{Disk, Memory};
use std::alloc::Global;
use std::io;

/// Where the files of packs are made and removed. Packs say nothing of a file that was just made but
/// what they write to it.
pub trait Folder<D: Disk> {
    /// A new file for the pack of this number.
    fn create(&mut self, pack: usize) -> io::Result<D>;

    /// Removes the file of a pack.
    fn delete(&mut self, pack: usize, file: D) -> io::Result<()>;
}

/// Files in memory.
#[derive(Drop)]
pub struct InMemory {
    alloc: Global,
}

impl InMemory {
    pub fn new(alloc: Global) -> InMemory {
        InMemory { alloc }
    }
}

impl Folder<Memory> for InMemory {
    fn create(&mut self, _pack: usize) -> io::Result<Memory> {
        Ok(Memory::new(self.alloc))
    }

    fn delete(&mut self, _pack: usize, _file: Memory) -> io::Result<()> {
        Ok(())
    }
}
