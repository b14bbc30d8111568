//! All packs of a host.

ghost use Rattle.std.specs.Prelude.{◌≡◌, ◌≢◌, ◌+◌, ◌-◌, ◌<◌, ◌≤◌, ◌++◌, ◌∷◌, [], ℕ, List, length};
ghost use Rattle.std.specs.Prelude.{IfOk, IfSome, IsTrue, OnOk, OnErr};
ghost use Rattle.bh_packs.specs.Stands.{Stands};
ghost use Rattle.bh_packs.specs.Sums.{sum_of};
ghost use Rattle.bh_packs.specs.Packs.{pack_at, end_in, holds_in, IsOfLane, IsMark, IsFileIn, IsCleanIn, IsSettled, IsSettledIn};
ghost use Rattle.bh_packs.specs.Packs.{IsWrittenIn, IsGiven, IsKept, Keeps, KeepsHolds};

use crate::folder::Folder;
use crate::pack::Pack;
use crate::place::{Bounds, Hold, Lane, Place, sum_of};
use crate::removed::Removed;
use crate::slots::{append_in, hold_in, let_go_in, peek_in, put_in, read_in, remove_in, sync_in};
use crate::trouble::Trouble;
use sqlite_disk::Disk;
use std::alloc::Global;

/// The packs of a host, by their numbers.
#[derive(Drop)]
pub struct Packs<D> {
    pub(crate) slots: Vec<Option<Pack<D>>>,
    bounds: Bounds,
    pub(crate) removed: Removed<D>,
}

impl<D: Disk + Drop> Packs<D> {
    /// No packs.
    pub fn new(alloc: Global, bounds: Bounds) -> Packs<D>
        ensures packs { (n : ℕ) → pack_at result n ≡ None }
        ensures removed { result.removed.files ≡ [] }
    {
        Packs {
            slots: Vec::new(alloc),
            bounds,
            removed: Removed::new(),
        }
    }

    /// Opens a pack of a file that was synced up to a mark. What is past the mark is nobody's, and is
    /// written over.
    pub fn open(&mut self, pack: usize, file: D, mark: usize, lane: Lane) -> Result<(), Trouble>
        ensures settled { OnOk result ((at : ℕ) (bytes : List ℕ) → at + length bytes ≤ mark
            → Stands D.Disk file at bytes → IsSettledIn D.Disk (pack_at self.new pack) at bytes) }
        ensures end { OnOk result (end_in (pack_at self.new pack) ≡ mark) }
        ensures lane { OnOk result (IsOfLane (pack_at self.new pack) lane) }
        ensures long { OnOk result (IsCleanIn D.Disk (pack_at self.new pack) → mark ≤ length (D.Disk.seen file)) }
        ensures keeps { Keeps D.Disk self.old self.new }
        ensures removed { self.new.removed ≡ self.old.removed }
        ensures holds { KeepsHolds self.old self.new }
    {
        let opened = Pack::open(file, mark, lane)?;
        self.reach(pack)?;
        self.put_at(pack, opened)?;
        Ok(())
    }

    /// Appends bytes to a pack of this lane, or to a new one if they fit in none. They have the place
    /// that is returned, and stand after the next sync. If it fails, they have none.
    pub fn append<F: Folder<D>>(
        &mut self,
        folder: &mut F,
        lane: Lane,
        bytes: &[u8],
    ) -> Result<Place, Trouble>
        ensures given { IfOk result (λ place. 0 < length bytes.now → IsGiven D.Disk self.new place bytes.now) }
        ensures apart { IfOk result (λ place. end_in (pack_at self.old place.pack) ≤ place.offset) }
        ensures lane { IfOk result (λ place. IsOfLane (pack_at self.new place.pack) lane) }
        ensures keeps { Keeps D.Disk self.old self.new }
        ensures removed { self.new.removed ≡ self.old.removed }
        ensures holds { KeepsHolds self.old self.new }
    {
        if bytes.len() > self.bounds.bytes {
            return Err(Trouble::TooLong);
        }
        let number = self.choose(folder, lane, bytes.len())?;
        self.append_to(number, lane, bytes)
    }

    /// Syncs the file of each pack that was appended to. All bytes that have a place stand then. If
    /// it fails, some may not.
    pub fn sync(&mut self) -> Result<(), Trouble>
        ensures kept { OnOk result ((place : Place) (bytes : List ℕ) → IsGiven D.Disk self.old place bytes
            → IsKept D.Disk self.new place bytes) }
        ensures keeps { Keeps D.Disk self.old self.new }
        ensures removed { self.new.removed ≡ self.old.removed }
        ensures holds { KeepsHolds self.old self.new }
    {
        for number in 0..self.slots.len() {
            self.sync_at(number)?;
        }
        Ok(())
    }

    /// Reads the bytes at an offset of a pack, which no sum tests.
    pub fn peek(&mut self, pack: usize, at: usize, room: &mut [u8]) -> Result<(), Trouble>
        ensures bytes { OnOk result (IsCleanIn D.Disk (pack_at self.new pack) → (bytes : List ℕ)
            → IsWrittenIn D.Disk (pack_at self.old pack) at bytes → length bytes ≡ length room.old → room.new ≡ bytes) }
        ensures within { OnOk result (at + length room.old ≤ end_in (pack_at self.old pack)) }
        ensures keeps { Keeps D.Disk self.old self.new }
        ensures removed { self.new.removed ≡ self.old.removed }
        ensures holds { KeepsHolds self.old self.new }
    {
        if pack >= self.slots.len() {
            return Err(Trouble::Missing);
        }
        peek_in(&mut self.slots[pack], at, room)
    }

    /// Reads the bytes of a place. Bytes that don't have its sum are an error.
    pub fn read(&mut self, place: Place, room: &mut [u8]) -> Result<(), Trouble>
        requires { length room.old ≡ place.size }
        ensures tested { OnOk result (sum_of room.new ≡ place.sum) }
        ensures bytes { OnOk result (IsCleanIn D.Disk (pack_at self.new place.pack) → (bytes : List ℕ)
            → IsWrittenIn D.Disk (pack_at self.old place.pack) place.offset bytes → length bytes ≡ place.size → room.new ≡ bytes) }
        ensures within { OnOk result (place.offset + place.size ≤ end_in (pack_at self.old place.pack)) }
        ensures keeps { Keeps D.Disk self.old self.new }
        ensures removed { self.new.removed ≡ self.old.removed }
        ensures holds { KeepsHolds self.old self.new }
    {
        if place.pack >= self.slots.len() {
            return Err(Trouble::Missing);
        }
        read_in(&mut self.slots[place.pack], place.offset, place.sum, room)
    }

    /// Holds a pack: it can't be removed until this is given back.
    pub fn hold(&mut self, pack: usize) -> Result<Hold, Trouble>
        ensures held { IfOk result (λ hold. (hold.pack ≡ pack)
            × (holds_in (pack_at self.new pack) ≡ holds_in (pack_at self.old pack) + 1)) }
        ensures others { (n : ℕ) → n ≢ pack → holds_in (pack_at self.new n) ≡ holds_in (pack_at self.old n) }
        ensures failed { OnErr result (KeepsHolds self.old self.new) }
        ensures keeps { Keeps D.Disk self.old self.new }
        ensures removed { self.new.removed ≡ self.old.removed }
    {
        if pack >= self.slots.len() {
            return Err(Trouble::Missing);
        }
        hold_in(&mut self.slots[pack])?;
        Ok(Hold { pack })
    }

    /// Gives a hold back.
    pub fn let_go(&mut self, hold: Hold)
        ensures held { holds_in (pack_at self.new hold.pack) ≡ holds_in (pack_at self.old hold.pack) - 1 }
        ensures others { (n : ℕ) → n ≢ hold.pack → holds_in (pack_at self.new n) ≡ holds_in (pack_at self.old n) }
        ensures keeps { Keeps D.Disk self.old self.new }
        ensures removed { self.new.removed ≡ self.old.removed }
    {
        if hold.pack < self.slots.len() {
            let_go_in(&mut self.slots[hold.pack]);
        }
    }

    /// Removes a pack that nobody holds, and returns its file. No other pack changes.
    pub fn remove(&mut self, pack: usize) -> Result<D, Trouble>
        ensures unheld { OnOk result (holds_in (pack_at self.old pack) ≡ 0) }
        ensures file { IfOk result (λ file. IsFileIn (pack_at self.old pack) file) }
        ensures gone { OnOk result (pack_at self.new pack ≡ None) }
        ensures noted { IfOk result (λ file. self.new.removed.files ≡ file ∷ self.old.removed.files) }
        ensures others { (n : ℕ) → n ≢ pack → pack_at self.new n ≡ pack_at self.old n }
        ensures stays { OnErr result (pack_at self.new pack ≡ pack_at self.old pack) }
        ensures none { OnErr result (self.new.removed ≡ self.old.removed) }
    {
        if pack >= self.slots.len() {
            return Err(Trouble::Missing);
        }
        let file = remove_in(&mut self.slots[pack])?;
        self.removed.note(&file);
        Ok(file)
    }

    /// Up to where a pack was synced: the length of it that a database may be told. None if there is
    /// no such pack.
    pub fn mark(&self, pack: usize) -> Option<usize>
        ensures { IfSome result (λ mark. IsMark (pack_at self.now pack) mark) }
    {
        match self.slots.get(pack) {
            Some(Some(pack)) => Some(pack.synced),
            Some(None) | None => None,
        }
    }

    /// Syncs the file of a pack, if it was appended to.
    fn sync_at(&mut self, number: usize) -> Result<(), Trouble>
        ensures settled { OnOk result ((at : ℕ) (bytes : List ℕ) → IsWrittenIn D.Disk (pack_at self.old number) at bytes
            → IsSettledIn D.Disk (pack_at self.new number) at bytes) }
        ensures keeps { Keeps D.Disk self.old self.new }
        ensures removed { self.new.removed ≡ self.old.removed }
        ensures holds { KeepsHolds self.old self.new }
    {
        if number >= self.slots.len() {
            return Ok(());
        }
        sync_in(&mut self.slots[number])
    }

    /// The number of a pack that takes so many bytes of a lane: the first one, or else a new one.
    fn choose<F: Folder<D>>(
        &mut self,
        folder: &mut F,
        lane: Lane,
        size: usize,
    ) -> Result<usize, Trouble>
        ensures keeps { Keeps D.Disk self.old self.new }
        ensures removed { self.new.removed ≡ self.old.removed }
        ensures holds { KeepsHolds self.old self.new }
    {
        match self.with_room(lane, size) {
            Some(number) => Ok(number),
            None => self.begin(folder, lane),
        }
    }

    /// The number of the first pack that takes so many bytes of a lane.
    fn with_room(&self, lane: Lane, size: usize) -> Option<usize> {
        for (number, slot) in self.slots.iter().enumerate() {
            if let Some(pack) = slot {
                if pack.takes(lane, size, self.bounds.bytes) {
                    return Some(number);
                }
            }
        }
        None
    }

    /// Makes a new pack, and returns its number.
    fn begin<F: Folder<D>>(&mut self, folder: &mut F, lane: Lane) -> Result<usize, Trouble>
        ensures keeps { Keeps D.Disk self.old self.new }
        ensures removed { self.new.removed ≡ self.old.removed }
        ensures holds { KeepsHolds self.old self.new }
    {
        let number = self.slots.len();
        if number >= self.bounds.packs {
            return Err(Trouble::Full);
        }
        let file = folder.create(number)?;
        self.add(Some(Pack::new(file, lane)))?;
        Ok(number)
    }

    /// Appends bytes to a pack, if they fit in it.
    fn append_to(&mut self, number: usize, lane: Lane, bytes: &[u8]) -> Result<Place, Trouble>
        ensures given { IfOk result (λ place. 0 < length bytes.now → IsGiven D.Disk self.new place bytes.now) }
        ensures apart { IfOk result (λ place. end_in (pack_at self.old place.pack) ≤ place.offset) }
        ensures lane { IfOk result (λ place. IsOfLane (pack_at self.new place.pack) lane) }
        ensures keeps { Keeps D.Disk self.old self.new }
        ensures removed { self.new.removed ≡ self.old.removed }
        ensures holds { KeepsHolds self.old self.new }
    {
        if number >= self.slots.len() {
            return Err(Trouble::Missing);
        }
        let most = self.bounds.bytes;
        let offset = append_in(&mut self.slots[number], lane, most, bytes)?;
        Ok(Place {
            pack: number,
            offset,
            size: bytes.len(),
            sum: sum_of(bytes),
        })
    }

    /// Puts a pack into the slot of its number, if that is there and empty.
    fn put_at(&mut self, number: usize, pack: Pack<D>) -> Result<(), Trouble>
        requires { pack.holds ≡ 0 }
        ensures settled { OnOk result ((at : ℕ) (bytes : List ℕ) → IsSettled D.Disk pack at bytes
            → IsSettledIn D.Disk (pack_at self.new number) at bytes) }
        ensures end { OnOk result (end_in (pack_at self.new number) ≡ pack.end) }
        ensures lane { OnOk result (IsOfLane (pack_at self.new number) pack.lane) }
        ensures clean { OnOk result (IsCleanIn D.Disk (pack_at self.new number) → IsTrue (D.Disk.is_clean pack.disk)) }
        ensures keeps { Keeps D.Disk self.old self.new }
        ensures removed { self.new.removed ≡ self.old.removed }
        ensures holds { KeepsHolds self.old self.new }
    {
        if number >= self.slots.len() {
            return Err(Trouble::Full);
        }
        put_in(&mut self.slots[number], pack)
    }

    /// Makes a slot for a pack's number, if that is below the bound.
    fn reach(&mut self, pack: usize) -> Result<(), Trouble>
        ensures keeps { Keeps D.Disk self.old self.new }
        ensures removed { self.new.removed ≡ self.old.removed }
        ensures holds { KeepsHolds self.old self.new }
    {
        if pack >= self.bounds.packs {
            return Err(Trouble::Full);
        }
        for reached in self.slots.len()..pack + 1 {
            self.add_empty()?;
        }
        Ok(())
    }

    /// Makes one more slot.
    fn add_empty(&mut self) -> Result<(), Trouble>
        ensures keeps { Keeps D.Disk self.old self.new }
        ensures removed { self.new.removed ≡ self.old.removed }
        ensures holds { KeepsHolds self.old self.new }
    {
        self.add(None)
    }

    fn add(&mut self, slot: Option<Pack<D>>) -> Result<(), Trouble>
        ensures added { OnOk result (self.new.slots.items ≡ self.old.slots.items ++ slot ∷ []) }
        ensures failed { OnErr result (self.new.slots.items ≡ self.old.slots.items) }
        ensures removed { self.new.removed ≡ self.old.removed }
    {
        match self.slots.push(slot) {
            Ok(()) => Ok(()),
            Err(_) => Err(Trouble::Memory),
        }
    }
}
