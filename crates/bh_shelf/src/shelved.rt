//! Packs and the folder of their files, with what the database knows of them.

ghost use Rattle.std.specs.Prelude.{◌≡◌, ◌<◌, ◌≤◌, ℕ, List, length, Some, IsTrue, OnOk};
ghost use Rattle.sqlite_disk.specs.Disk.{Holds};
ghost use Rattle.bh_packs.specs.Packs.{IsOfLane, Keeps, KeepsHolds as AreHeld, pack_at};
ghost use Rattle.bh_packs.specs.Stands.{Stands};
ghost use Rattle.bh_shelf.specs.Contents.{AreSameBut, EndsBy, HasNothing, KeepsHolds, Rises, Within};
ghost use Rattle.bh_shelf.specs.Laws.{kept_seen, kept_stands, leaves_standing, may_stay, seen_ends};
ghost use Rattle.bh_shelf.specs.Marks.{all_stood, ends_of, kept_of, seen_of, stood_of, written_of};
ghost use Rattle.bh_shelf.specs.Ranges.{range_of, clean_of, contents_of, holds_of, Leaves};
ghost use Rattle.bh_shelf.specs.Sound.{AllStands, IsSound, sound_prop};

use crate::marks::Marks;
use crate::shelf::Shelf;
use bh_packs::folder::{Folder, InMemory};
use bh_packs::packs::Packs;
use bh_packs::place::{Bounds, Hold, Lane, Place};
use bh_packs::trouble::Trouble;
use sqlite_disk::{Disk, Memory};
use std::alloc::Global;

/// Packs, the folder that their files are in, and up to where each is written, stands, is seen and is kept.
#[derive(Drop)]
pub struct Shelved<D: Disk, F> {
    packs: Packs<D>,
    folder: F,
    marks: Marks,
    ghost sound: { IsSound D.Disk packs marks } by { sound_prop D.Disk packs marks },
}

impl<D: Disk + Drop, F: Folder<D>> Shelved<D, F> {
    /// No packs. Their files are to be in this folder.
    pub fn new(alloc: Global, bounds: Bounds, folder: F) -> Shelved<D, F>
        ensures { (pack : ℕ) → HasNothing (⟦<Shelved<D, F> as Shelf>⟧.seen result) pack }
    {
        Shelved {
            packs: Packs::new(alloc, bounds),
            folder,
            marks: Marks::new(alloc),
        }
    }

    /// Syncs the files that were appended to. All that is written stands then.
    fn settle(&mut self) -> Result<(), Trouble>
        ensures stands { OnOk result (AllStands D.Disk self.new.packs self.new.marks) }
        ensures marks { self.new.marks ≡ self.old.marks }
        ensures keeps { Keeps D.Disk self.old.packs self.new.packs }
        ensures holds { AreHeld self.old.packs self.new.packs }
        ensures removed { self.new.packs.removed ≡ self.old.packs.removed }
    {
        self.packs.sync()
    }

    /// Notes that all that is written stands.
    fn note(&mut self)
        requires { AllStands D.Disk self.old.packs self.old.marks }
        ensures ends { (n : ℕ) → ends_of self.new.marks n ≡ all_stood (ends_of self.old.marks n) }
        ensures packs { self.new.packs ≡ self.old.packs }
    {
        self.marks.stand();
    }
}

impl<D: Disk + Drop, F: Folder<D>> Shelved<D, F> {
    /// Opens a pack of a file that was synced. All that it has up to this mark is kept, and what is past it
    /// is nobody's, and is written over. If it fails, the file is closed.
    pub fn open(&mut self, pack: usize, file: D, mark: usize, lane: Lane) -> Result<(), Trouble>
        requires { (offset : ℕ) (bytes : List ℕ) → Holds (D.Disk.seen file) offset bytes → Stands D.Disk file offset bytes }
        ensures opened { OnOk result (IsTrue (⟦<Shelved<D, F> as Shelf>⟧.is_clean self.new) → (offset size : ℕ)
            → ⟦<Shelved<D, F> as Shelf>⟧.kept self.new pack offset size ≡ range_of (D.Disk.seen file) mark offset size) }
        ensures lane { OnOk result (IsOfLane (pack_at self.new.packs pack) lane) }
        ensures others { IsTrue (⟦<Shelved<D, F> as Shelf>⟧.is_clean self.new)
            → AreSameBut pack (⟦<Shelved<D, F> as Shelf>⟧.kept self.new) (⟦<Shelved<D, F> as Shelf>⟧.kept self.old) }
        ensures seen { IsTrue (⟦<Shelved<D, F> as Shelf>⟧.is_clean self.new)
            → AreSameBut pack (⟦<Shelved<D, F> as Shelf>⟧.seen self.new) (⟦<Shelved<D, F> as Shelf>⟧.seen self.old) }
        ensures clean { IsTrue (⟦<Shelved<D, F> as Shelf>⟧.is_clean self.new)
            → IsTrue (⟦<Shelved<D, F> as Shelf>⟧.is_clean self.old) }
    {
        self.marks.reach(pack)?;
        self.packs.open(pack, file, mark, lane)?;
        self.marks.open(pack, mark)
    }
}

impl<D: Disk + Drop, F: Folder<D>> Shelved<D, F> {
    /// A number below which all packs are that have anything.
    pub fn count(&self) -> usize
        ensures { (pack : ℕ) → result ≤ pack → HasNothing (⟦<Shelved<D, F> as Shelf>⟧.kept self.now) pack }
    {
        self.marks.ends.len()
    }

    /// Up to where a pack is kept, in bytes.
    pub fn kept_to(&self, pack: usize) -> usize
        ensures ends { EndsBy (⟦<Shelved<D, F> as Shelf>⟧.kept self.now) pack result }
        ensures whole { 0 < result → (bytes : List ℕ) × (⟦<Shelved<D, F> as Shelf>⟧.kept self.now pack 0 result ≡ Some bytes) }
    {
        self.marks.kept_to(pack)
    }

    /// Reads the bytes at an offset of a pack, which no sum tests: for copies of whole packs.
    pub fn peek(&mut self, pack: usize, at: usize, room: &mut [u8]) -> Result<(), Trouble>
        ensures bytes { OnOk result (IsTrue (⟦<Shelved<D, F> as Shelf>⟧.is_clean self.new) → (bytes : List ℕ)
            → ⟦<Shelved<D, F> as Shelf>⟧.seen self.old pack at (length room.old) ≡ Some bytes → room.new ≡ bytes) }
        ensures seen { IsTrue (⟦<Shelved<D, F> as Shelf>⟧.is_clean self.new)
            → ⟦<Shelved<D, F> as Shelf>⟧.seen self.new ≡ ⟦<Shelved<D, F> as Shelf>⟧.seen self.old }
        ensures ends { Rises (⟦<Shelved<D, F> as Shelf>⟧.ends self.old) (⟦<Shelved<D, F> as Shelf>⟧.ends self.new) }
        ensures kept { IsTrue (⟦<Shelved<D, F> as Shelf>⟧.is_clean self.new)
            → ⟦<Shelved<D, F> as Shelf>⟧.kept self.new ≡ ⟦<Shelved<D, F> as Shelf>⟧.kept self.old }
        ensures stood { IsTrue (⟦<Shelved<D, F> as Shelf>⟧.is_clean self.new)
            → Within (⟦<Shelved<D, F> as Shelf>⟧.stood self.old) (⟦<Shelved<D, F> as Shelf>⟧.stood self.new) }
        ensures clean { IsTrue (⟦<Shelved<D, F> as Shelf>⟧.is_clean self.new)
            → IsTrue (⟦<Shelved<D, F> as Shelf>⟧.is_clean self.old) }
        ensures holds { KeepsHolds (⟦<Shelved<D, F> as Shelf>⟧.holds self.old) (⟦<Shelved<D, F> as Shelf>⟧.holds self.new) }
    {
        self.packs.peek(pack, at, room)
    }
}

impl Shelved<Memory, InMemory> {
    /// No packs. Their files are to be in memory.
    pub fn in_memory(alloc: Global, bounds: Bounds) -> Shelved<Memory, InMemory>
        ensures { (pack : ℕ) → HasNothing (⟦<Shelved<Memory, InMemory> as Shelf>⟧.seen result) pack }
    {
        Shelved::new(alloc, bounds, InMemory::new(alloc))
    }
}

impl<D: Disk + Drop, F: Folder<D>> Shelf for Shelved<D, F> {
    ghost seen = { λ s. contents_of D.Disk s.packs (seen_of s.marks) };

    ghost stood = { λ s. contents_of D.Disk s.packs (stood_of s.marks) };

    ghost kept = { λ s. contents_of D.Disk s.packs (kept_of s.marks) };

    ghost may_leave = { λ s. Leaves D.Disk s.packs };

    ghost ends = { λ s. written_of s.marks };

    ghost holds = { λ s. holds_of s.packs };

    ghost is_clean = { λ s. clean_of D.Disk s.packs };

    ghost kept_seen = { λ s. kept_seen _ s.packs s.marks s.sound };

    ghost seen_ends = { λ s. seen_ends _ s.packs s.marks s.sound };

    ghost kept_stands = { λ s. kept_stands _ s.packs s.marks s.sound };

    ghost leaves_standing = { λ s. leaves_standing _ s.packs s.marks s.sound };

    ghost may_stay = { λ s. may_stay _ s.packs s.marks s.sound D.seen_may_stay };

    fn append(&mut self, lane: Lane, bytes: &[u8]) -> Result<Place, Trouble> {
        if bytes.is_empty() {
            return Err(Trouble::Outside);
        }
        let place = self.packs.append(&mut self.folder, lane, bytes)?;
        self.marks.write(place.pack, place.offset, bytes.len())?;
        Ok(place)
    }

    fn sync(&mut self) -> Result<(), Trouble> {
        self.settle()?;
        self.note();
        Ok(())
    }

    fn keep(&mut self) {
        self.marks.keep();
    }

    fn forget(&mut self) {
        self.marks.forget();
    }

    fn read(&mut self, place: Place, room: &mut [u8]) -> Result<(), Trouble> {
        self.packs.read(place, room)
    }

    fn mark(&self, pack: usize) -> Option<usize> {
        self.packs.mark(pack)
    }

    fn hold(&mut self, pack: usize) -> Result<Hold, Trouble> {
        self.packs.hold(pack)
    }

    fn let_go(&mut self, hold: Hold) {
        self.packs.let_go(hold);
    }

    fn remove(&mut self, pack: usize) -> Result<(), Trouble> {
        let file = self.packs.remove(pack)?;
        self.marks.clear(pack);
        self.folder.delete(pack, file)?;
        Ok(())
    }
}
