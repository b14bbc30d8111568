//! A host's packs are opened.

ghost use Rattle.std.specs.Prelude.{◌≡◌, if◌then◌else◌, ◌==◌, ◌∷◌, [], ℕ, List, IfOk, OnOk, IsTrue};
ghost use Rattle.sqlite_disk.specs.Disk.{Holds};
ghost use Rattle.bh_packs.specs.Packs.{IsOfLane, pack_at};
ghost use Rattle.bh_packs.specs.Stands.{Stands};
ghost use Rattle.bh_packs.specs.declared.place.Lane.TheVariants as lane;
ghost use Rattle.bh_shelf.specs.Contents.{AreSameBut};
ghost use Rattle.bh_shelf.specs.Ranges.{range_of};
ghost use Rattle.bh_shelf.specs.declared.closed.Listed.{Listed};
ghost use Rattle.std.specs.List.{list_any};
ghost use Rattle.bh_pack_files.specs.Files.{IsFresh};
ghost use Rattle.bh_pack_files.specs.Names.{made_of, removed_of, Spares};
ghost use Rattle.bh_pack_shelf.specs.Rows.{AreOnce};
ghost use Rattle.bh_pack_shelf.specs.Opened.{AreFilesOf, AreOpened, HaveRows};
ghost use Rattle.bh_pack_shelf.specs.declared.opening.Opening.TheVariants.{Look};

use crate::fault::fault_of;
use crate::numbers::{add, numbers_of};
use bh_pack_files::{Fault, Held, PackFile, PackFolder};
use bh_packs::place::{Bounds, Lane};
use bh_packs::trouble::Trouble;
use bh_shelf::closed::Listed;
use bh_shelf::shelf::Shelf;
use bh_shelf::shelved::Shelved;
use sqlite_disk::Disk;
use std::alloc::Global;

/// What packs are opened for.
#[derive(Clone, Copy)]
pub(crate) enum Opening {
    /// To serve them: files that no row names are removed.
    Serve,
    /// To look at them: no file is removed.
    Look,
}

/// A folder of packs, and the files of those that are listed.
#[derive(Drop)]
pub(crate) struct Files<S: Held> {
    pub(crate) folder: PackFolder<S>,
    pub(crate) files: Vec<PackFile<S>>,
}

/// Opens the packs of a host in the folder beside its file, each up to the length that its row has. A pack
/// that no row names is nobody's: its file is removed, if they are opened to serve them.
///
/// What `PackFolder` refuses is refused, and so are two rows of one pack, and a number that isn't below the
/// bound. No file is removed before each listed one was found whole.
pub(crate) fn open_shelf<S: Held>(
    rt: &HostRuntime,
    host: &str,
    held: S,
    bounds: Bounds,
    opening: Opening,
    listed: &[Listed],
) -> Result<Shelved<PackFile<S>, PackFolder<S>>, Fault>
    ensures opened { IfOk result (λ shelf. IsTrue (⟦<Shelved<PackFile<S>, PackFolder<S>> as Shelf>⟧.is_clean shelf)
        → AreOpened S.Held.held listed.now (⟦<Shelved<PackFile<S>, PackFolder<S>> as Shelf>⟧.kept shelf)) }
    ensures rows { IfOk result (λ shelf. IsTrue (⟦<Shelved<PackFile<S>, PackFolder<S>> as Shelf>⟧.is_clean shelf)
        → HaveRows S.Held.held listed.now (⟦<Shelved<PackFile<S>, PackFolder<S>> as Shelf>⟧.kept shelf)) }
    ensures seen { IfOk result (λ shelf. IsTrue (⟦<Shelved<PackFile<S>, PackFolder<S>> as Shelf>⟧.is_clean shelf)
        → ⟦<Shelved<PackFile<S>, PackFolder<S>> as Shelf>⟧.seen shelf ≡ ⟦<Shelved<PackFile<S>, PackFolder<S>> as Shelf>⟧.kept shelf) }
    ensures once { IfOk result (λ shelf. AreOnce listed.now) }
{
    let Files { folder, files } = open_files(rt, host, held, opening, listed)?;
    let mut shelf = Shelved::new(rt.alloc(), bounds, folder);
    fill(rt, host, &mut shelf, files, listed)?;
    shelf.forget();
    Ok(shelf)
}

/// Opens the folder and the file of each listed pack, and removes the files that no row names, if it isn't to
/// look.
fn open_files<S: Held>(
    rt: &HostRuntime,
    host: &str,
    held: S,
    opening: Opening,
    listed: &[Listed],
) -> Result<Files<S>, Fault>
    ensures files { IfOk result (λ it. AreFilesOf it.files.items listed.now) }
    ensures spared { IfOk result (λ it. (n : ℕ) → IsTrue (list_any (λ row. row.pack == n) listed.now)
        → (made_of n it.folder.entries.log ≡ 0) × (removed_of n it.folder.entries.log ≡ 0)) }
    ensures looks { IfOk result (λ it. opening ≡ Look → (n : ℕ)
        → (made_of n it.folder.entries.log ≡ 0) × (removed_of n it.folder.entries.log ≡ 0)) }
    ensures once { IfOk result (λ it. AreOnce listed.now) }
{
    let named = numbers_of(rt, host, listed)?;
    let mut folder = PackFolder::open(rt, host, held)?;
    let files = files_in(rt.alloc(), &folder, listed)?;
    sweep(&mut folder, opening, named.as_slice())?;
    Ok(Files { folder, files })
}

/// Removes the files that no row names, if packs aren't opened to look.
fn sweep<S: Held>(
    folder: &mut PackFolder<S>,
    opening: Opening,
    named: &[usize],
) -> Result<(), Fault>
    ensures spared { (n : ℕ) → IsTrue (list_any (λ pack. pack == n) named.now)
        → Spares folder.old.entries.log folder.new.entries.log n }
    ensures looks { opening ≡ Look → folder.new.entries.log ≡ folder.old.entries.log }
{
    match opening {
        Opening::Look => Ok(()),
        Opening::Serve => {
            folder.sweep(named)?;
            Ok(())
        }
    }
}

/// Opens the file of each listed pack.
fn files_in<S: Held>(
    alloc: Global,
    folder: &PackFolder<S>,
    listed: &[Listed],
) -> Result<Vec<PackFile<S>>, Fault>
    ensures { IfOk result (λ files. AreFilesOf files.items listed.now) }
{
    let mut files = Vec::new(alloc);
    for index in 0..listed.len() {
        let row = listed[index];
        add(&mut files, folder.open_pack(row.pack, row.length)?)?;
    }
    Ok(files)
}

/// Puts the file of each listed pack on a shelf that has none.
fn fill<S: Held>(
    rt: &HostRuntime,
    host: &str,
    shelf: &mut Shelved<PackFile<S>, PackFolder<S>>,
    mut files: Vec<PackFile<S>>,
    listed: &[Listed],
) -> Result<(), Fault>
    requires files { AreFilesOf files.items listed.now }
    requires none { AreOpened S.Held.held [] (⟦<Shelved<PackFile<S>, PackFolder<S>> as Shelf>⟧.kept shelf.old) }
    ensures { OnOk result (IsTrue (⟦<Shelved<PackFile<S>, PackFolder<S>> as Shelf>⟧.is_clean shelf.new)
        → AreOpened S.Held.held listed.now (⟦<Shelved<PackFile<S>, PackFolder<S>> as Shelf>⟧.kept shelf.new)) }
{
    while let Some(file) = files.pop() {
        put(rt, host, shelf, listed[files.len()], file)?;
    }
    Ok(())
}

/// Puts one more file on a shelf, up to the length that its row has.
fn put<S: Held>(
    rt: &HostRuntime,
    host: &str,
    shelf: &mut Shelved<PackFile<S>, PackFolder<S>>,
    row: Listed,
    file: PackFile<S>,
) -> Result<(), Fault>
    requires { IsFresh file row.pack }
    ensures opened { OnOk result (IsTrue (⟦<Shelved<PackFile<S>, PackFolder<S>> as Shelf>⟧.is_clean shelf.new) → (rows : List Listed)
        → AreOpened S.Held.held rows (⟦<Shelved<PackFile<S>, PackFolder<S>> as Shelf>⟧.kept shelf.old)
        → AreOpened S.Held.held (row ∷ rows) (⟦<Shelved<PackFile<S>, PackFolder<S>> as Shelf>⟧.kept shelf.new)) }
    ensures clean { IsTrue (⟦<Shelved<PackFile<S>, PackFolder<S>> as Shelf>⟧.is_clean shelf.new)
        → IsTrue (⟦<Shelved<PackFile<S>, PackFolder<S>> as Shelf>⟧.is_clean shelf.old) }
{
    match open_at(shelf, row, file) {
        Ok(()) => Ok(()),
        Err(trouble) => Err(fault_of(rt, host, row.pack, trouble)),
    }
}

/// Opens a pack of a file that was synced, up to the length that its row has.
fn open_at<S: Held>(
    shelf: &mut Shelved<PackFile<S>, PackFolder<S>>,
    row: Listed,
    file: PackFile<S>,
) -> Result<(), Trouble>
    requires { (offset : ℕ) (bytes : List ℕ) → Holds (⟦<PackFile<S> as Disk>⟧.seen file) offset bytes
        → Stands ⟦<PackFile<S> as Disk>⟧ file offset bytes }
    ensures opened { OnOk result (IsTrue (⟦<Shelved<PackFile<S>, PackFolder<S>> as Shelf>⟧.is_clean shelf.new) → (offset size : ℕ)
        → ⟦<Shelved<PackFile<S>, PackFolder<S>> as Shelf>⟧.kept shelf.new row.pack offset size
        ≡ range_of (⟦<PackFile<S> as Disk>⟧.seen file) row.length offset size) }
    ensures lane { OnOk result (IsOfLane (pack_at shelf.new.packs row.pack) (if file.is_shared then lane.Nobody else lane.Small)) }
    ensures others { IsTrue (⟦<Shelved<PackFile<S>, PackFolder<S>> as Shelf>⟧.is_clean shelf.new)
        → AreSameBut row.pack (⟦<Shelved<PackFile<S>, PackFolder<S>> as Shelf>⟧.kept shelf.new)
        (⟦<Shelved<PackFile<S>, PackFolder<S>> as Shelf>⟧.kept shelf.old) }
    ensures clean { IsTrue (⟦<Shelved<PackFile<S>, PackFolder<S>> as Shelf>⟧.is_clean shelf.new)
        → IsTrue (⟦<Shelved<PackFile<S>, PackFolder<S>> as Shelf>⟧.is_clean shelf.old) }
{
    let lane = lane_of(file.is_shared());
    shelf.open(row.pack, file, row.length, lane)
}

/// Who appends to a pack: nobody, if its file has another name, too. Else two hosts could write to one file.
fn lane_of(is_shared: bool) -> Lane
    ensures { result ≡ (if is_shared then lane.Nobody else lane.Small) }
{
    if is_shared { Lane::Nobody } else { Lane::Small }
}
