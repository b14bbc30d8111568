//! A crash: the machine stops, and what is left of the files is opened again.

ghost use Rattle.std.specs.Prelude.{◌≡◌, ℕ, List};
ghost use Rattle.bh_packs.specs.Packs.{pack_at, IsSettled, IsSettledIn, IsKept, IsGiven};
ghost use Rattle.bh_packs.specs.declared.place.Place.{Place};

use crate::file::stop;
use crate::pack::Pack;
use crate::packs::Packs;
use sqlite_disk::Crash;

impl<D: Crash> Packs<D> {
    /// The machine stops, and each pack is opened again at the mark up to which it was synced. What
    /// stood still stands, what was appended after the last sync is nobody's, and nobody holds a pack.
    pub fn crash(&mut self)
        ensures kept { (place : Place) (bytes : List ℕ) → IsKept D.Disk self.old place bytes → IsKept D.Disk self.new place bytes }
        ensures given { (place : Place) (bytes : List ℕ) → IsKept D.Disk self.old place bytes → IsGiven D.Disk self.new place bytes }
        ensures removed { self.new.removed ≡ self.old.removed }
    {
        for number in 0..self.slots.len() {
            self.crash_at(number);
        }
    }

    fn crash_at(&mut self, number: usize)
        ensures settled { (n at : ℕ) (bytes : List ℕ) → IsSettledIn D.Disk (pack_at self.old n) at bytes
            → IsSettledIn D.Disk (pack_at self.new n) at bytes }
        ensures removed { self.new.removed ≡ self.old.removed }
    {
        if number < self.slots.len() {
            crash_in(&mut self.slots[number]);
        }
    }
}

fn crash_in<D: Crash>(slot: &mut Option<Pack<D>>)
    ensures { (at : ℕ) (bytes : List ℕ) → IsSettledIn D.Disk slot.old at bytes → IsSettledIn D.Disk slot.new at bytes }
{
    match slot {
        Some(pack) => crash_one(pack),
        None => {}
    }
}

fn crash_one<D: Crash>(pack: &mut Pack<D>)
    ensures { (at : ℕ) (bytes : List ℕ) → IsSettled D.Disk pack.old at bytes → IsSettled D.Disk pack.new at bytes }
{
    stop(&mut pack.disk);
    pack.end = pack.synced;
    pack.dirty = false;
    pack.holds = 0;
}
