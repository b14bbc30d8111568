//! The packs of a host in files.

ghost use Rattle.bh_shelf.specs.Laws.{kept_seen, kept_stands, leaves_standing, may_stay, seen_ends};

use bh_pack_files::FolderPath;
use bh_packs::folder::Folder;
use bh_packs::place::{Bounds, Hold, Lane, Place};
use bh_packs::trouble::Trouble;
use bh_shelf::shelf::Shelf;
use bh_shelf::shelved::Shelved;
use sqlite_disk::Disk;

/// The packs of a host in files, and what a copy of them asks.
#[derive(Drop)]
pub struct PackShelf<D: Disk, F> {
    pub(crate) shelf: Shelved<D, F>,
    pub(crate) rt: HostRuntime,
    pub(crate) bounds: Bounds,
    /// Where their files are.
    pub(crate) folder: FolderPath,
}

impl<D: Disk + Drop, F: Folder<D>> Shelf for PackShelf<D, F> {
    ghost seen = { λ s. ⟦<Shelved<D, F> as Shelf>⟧.seen s.shelf };

    ghost stood = { λ s. ⟦<Shelved<D, F> as Shelf>⟧.stood s.shelf };

    ghost kept = { λ s. ⟦<Shelved<D, F> as Shelf>⟧.kept s.shelf };

    ghost may_leave = { λ s. ⟦<Shelved<D, F> as Shelf>⟧.may_leave s.shelf };

    ghost ends = { λ s. ⟦<Shelved<D, F> as Shelf>⟧.ends s.shelf };

    ghost holds = { λ s. ⟦<Shelved<D, F> as Shelf>⟧.holds s.shelf };

    ghost is_clean = { λ s. ⟦<Shelved<D, F> as Shelf>⟧.is_clean s.shelf };

    ghost kept_seen = { λ s. kept_seen _ s.shelf.packs s.shelf.marks s.shelf.sound };

    ghost seen_ends = { λ s. seen_ends _ s.shelf.packs s.shelf.marks s.shelf.sound };

    ghost kept_stands = { λ s. kept_stands _ s.shelf.packs s.shelf.marks s.shelf.sound };

    ghost leaves_standing = { λ s. leaves_standing _ s.shelf.packs s.shelf.marks s.shelf.sound };

    ghost may_stay = { λ s. may_stay _ s.shelf.packs s.shelf.marks s.shelf.sound D.seen_may_stay };

    fn append(&mut self, lane: Lane, bytes: &[u8]) -> Result<Place, Trouble> {
        self.shelf.append(lane, bytes)
    }

    fn sync(&mut self) -> Result<(), Trouble> {
        self.shelf.sync()
    }

    fn keep(&mut self) {
        self.shelf.keep();
    }

    fn forget(&mut self) {
        self.shelf.forget();
    }

    fn read(&mut self, place: Place, room: &mut [u8]) -> Result<(), Trouble> {
        self.shelf.read(place, room)
    }

    fn mark(&self, pack: usize) -> Option<usize> {
        self.shelf.mark(pack)
    }

    fn hold(&mut self, pack: usize) -> Result<Hold, Trouble> {
        self.shelf.hold(pack)
    }

    fn let_go(&mut self, hold: Hold) {
        self.shelf.let_go(hold);
    }

    fn remove(&mut self, pack: usize) -> Result<(), Trouble> {
        self.shelf.remove(pack)
    }
}
