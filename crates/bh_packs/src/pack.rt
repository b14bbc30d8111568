//! One pack: a file, where its next bytes go, and up to where it was synced.

ghost use Rattle.std.specs.Prelude.{◌≡◌, ◌+◌, ◌<◌, ◌≤◌, ◌^◌, ℕ, List, Some, length, IsTrue, IfOk, OnOk};
ghost use Rattle.bh_packs.specs.Stands.{Stands};
ghost use Rattle.bh_packs.specs.Sums.{sum_of};
ghost use Rattle.bh_packs.specs.Packs.{IsWritten, IsSettled, KeepsPack};

use crate::file::{get, measure, put, settle};
use crate::place::{Lane, sum_of};
use crate::trouble::Trouble;
use sqlite_disk::Disk;

/// A pack.
#[derive(Drop)]
pub struct Pack<D> {
    pub(crate) disk: D,
    /// Where the next bytes go. It never goes back.
    pub(crate) end: usize,
    /// Up to where it was synced.
    pub(crate) synced: usize,
    /// Whether bytes were appended since the last sync.
    pub(crate) dirty: bool,
    /// How many hold it.
    pub(crate) holds: usize,
    /// Who appends to it.
    pub(crate) lane: Lane,
}

impl<D: Disk> Pack<D> {
    /// Its file.
    pub(crate) fn into_file(self) -> D
        ensures { result ≡ self.disk }
    {
        let Pack {
            disk,
            end: _,
            synced: _,
            dirty: _,
            holds: _,
            lane: _,
        } = self;
        disk
    }

    /// A pack of a file that was just made.
    pub(crate) fn new(disk: D, lane: Lane) -> Pack<D>
        ensures holds { result.holds ≡ 0 }
        ensures lane { result.lane ≡ lane }
    {
        Pack {
            disk,
            end: 0,
            synced: 0,
            dirty: false,
            holds: 0,
            lane,
        }
    }
}

impl<D: Disk + Drop> Pack<D> {
    /// A pack of a file that was synced up to a mark. What is past it is nobody's, and is written over.
    pub(crate) fn open(mut disk: D, mark: usize, lane: Lane) -> Result<Pack<D>, Trouble>
        ensures holds { IfOk result (λ pack. pack.holds ≡ 0) }
        ensures marked { IfOk result (λ pack. (pack.synced ≡ mark) × (pack.end ≡ mark)) }
        ensures lane { IfOk result (λ pack. pack.lane ≡ lane) }
        ensures settled { IfOk result (λ pack. (at : ℕ) (bytes : List ℕ) → at + length bytes ≤ mark
            → Stands D.Disk disk at bytes → IsSettled D.Disk pack at bytes) }
        ensures long { IfOk result (λ pack. IsTrue (D.Disk.is_clean pack.disk) → mark ≤ length (D.Disk.seen disk)) }
    {
        if !disk.may_be_used() {
            return Err(Trouble::Unusable);
        }
        if measure(&mut disk)? < mark {
            return Err(Trouble::Short);
        }
        Ok(Pack {
            disk,
            end: mark,
            synced: mark,
            dirty: false,
            holds: 0,
            lane,
        })
    }
}

impl<D: Disk> Pack<D> {
    /// Whether a body of this lane may be appended, so that the pack has at most so many bytes.
    pub(crate) fn takes(&self, lane: Lane, size: usize, most: usize) -> bool
        ensures lane { IsTrue result → self.now.lane ≡ lane }
        ensures room { IsTrue result → self.now.end + size ≤ most }
    {
        self.lane == lane && self.end <= most && size <= most - self.end
    }

    /// Appends bytes, and returns their offset.
    pub(crate) fn append(&mut self, bytes: &[u8]) -> Result<usize, Trouble>
        requires { self.old.end + length bytes.now < 2 ^ 64 }
        ensures written { IfOk result (λ at. 0 < length bytes.now → IsWritten D.Disk self.new at bytes.now) }
        ensures offset { IfOk result (λ at. at ≡ self.old.end) }
        ensures keeps { KeepsPack D.Disk (Some self.old) (Some self.new) }
        ensures holds { self.new.holds ≡ self.old.holds }
        ensures lane { self.new.lane ≡ self.old.lane }
    {
        if !self.disk.may_be_used() {
            return Err(Trouble::Unusable);
        }
        let at = self.end;
        put(&mut self.disk, at, bytes)?;
        self.end = at + bytes.len();
        self.dirty = true;
        Ok(at)
    }

    /// Syncs its file, if bytes were appended since the last sync.
    pub(crate) fn sync(&mut self) -> Result<(), Trouble>
        ensures settled { OnOk result ((at : ℕ) (bytes : List ℕ) → IsWritten D.Disk self.old at bytes
            → IsSettled D.Disk self.new at bytes) }
        ensures keeps { KeepsPack D.Disk (Some self.old) (Some self.new) }
        ensures holds { self.new.holds ≡ self.old.holds }
    {
        if !self.dirty {
            return Ok(());
        }
        if !self.disk.may_be_used() {
            return Err(Trouble::Unusable);
        }
        settle(&mut self.disk)?;
        self.synced = self.end;
        self.dirty = false;
        Ok(())
    }

    /// Reads the bytes at an offset, which no sum tests.
    pub(crate) fn peek(&mut self, at: usize, room: &mut [u8]) -> Result<(), Trouble>
        ensures bytes { OnOk result (IsTrue (D.Disk.is_clean self.new.disk) → (bytes : List ℕ) → IsWritten D.Disk self.old at bytes
            → length bytes ≡ length room.old → room.new ≡ bytes) }
        ensures within { OnOk result (at + length room.old ≤ self.old.end) }
        ensures keeps { KeepsPack D.Disk (Some self.old) (Some self.new) }
        ensures holds { self.new.holds ≡ self.old.holds }
    {
        if at > self.end || room.len() > self.end - at {
            return Err(Trouble::Outside);
        }
        if !self.disk.may_be_used() {
            return Err(Trouble::Unusable);
        }
        get(&mut self.disk, at, room)?;
        Ok(())
    }

    /// Reads the bytes at an offset that have this sum.
    pub(crate) fn read(&mut self, at: usize, sum: u64, room: &mut [u8]) -> Result<(), Trouble>
        ensures tested { OnOk result (sum_of room.new ≡ sum) }
        ensures bytes { OnOk result (IsTrue (D.Disk.is_clean self.new.disk) → (bytes : List ℕ) → IsWritten D.Disk self.old at bytes
            → length bytes ≡ length room.old → room.new ≡ bytes) }
        ensures within { OnOk result (at + length room.old ≤ self.old.end) }
        ensures keeps { KeepsPack D.Disk (Some self.old) (Some self.new) }
        ensures holds { self.new.holds ≡ self.old.holds }
    {
        self.peek(at, room)?;
        if sum_of(room) != sum {
            return Err(Trouble::Damaged);
        }
        Ok(())
    }
}
