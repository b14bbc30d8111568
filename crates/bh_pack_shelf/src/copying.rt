//! A host's packs are copied beside another file.

ghost use Rattle.std.specs.Prelude.{◌≡◌, ◌<◌, ℕ, List, [], Some, length, IfOk, IfSome, IsTrue, OnOk};
ghost use Rattle.sqlite_disk.specs.Disk.{Holds, Only, Torn};
ghost use Rattle.bh_shelf.specs.Contents.{AreSameBut, Within};
ghost use Rattle.bh_pack_shelf.specs.Copied.{HaveOf, Stays};

use crate::fault::trouble_of;
use crate::shelf::PackShelf;
use bh_pack_files::{FolderPath, Held, PackFile, PackFolder};
use bh_packs::folder::Folder;
use bh_packs::place::Lane;
use bh_packs::trouble::Trouble;
use bh_shelf::copied::CopyShelf;
use bh_shelf::shelf::Shelf;
use bh_shelf::shelved::Shelved;
use sqlite_disk::Disk;

/// So many bytes are read and written at a time.
const CHUNK: usize = 1_048_576;

/// So many bytes at the end of a linked file are compared with those of its pack.
const TAIL: usize = 4096;

/// Files that were made new, and so held nothing.
#[derive(Drop)]
pub struct Made;

impl Held for Made {
    ghost held = { λ _. [] };
}

/// Packs are copied to the folder beside the file of the copy. Where the system lets it, as on the same file system, a
/// pack's file gets a name there, too; else its bytes are copied to a new one. If that fails, what was made is removed,
/// as far as the system lets it.
impl<S: Held> CopyShelf for PackShelf<PackFile<S>, PackFolder<S>> {
    type Copy = Shelved<PackFile<Made>, PackFolder<Made>>;

    fn copy_to(&mut self, to: &str) -> Result<Shelved<PackFile<Made>, PackFolder<Made>>, Trouble> {
        let alloc = self.rt.alloc();
        let mut folder = folder_beside(&self.rt, to)?;
        let mut copy = Shelved::new(alloc, self.bounds, folder_beside(&self.rt, to)?);
        let mut room = vec![in alloc; 0u8; CHUNK]?;
        match copy_packs(
            &mut self.shelf,
            &self.folder,
            &mut folder,
            &mut copy,
            room.as_mut_slice(),
        ) {
            Ok(()) => Ok(copy),
            Err(trouble) => {
                folder.take_back();
                Err(trouble)
            }
        }
    }
}

/// The folder of new packs beside a file.
fn folder_beside(rt: &HostRuntime, to: &str) -> Result<PackFolder<Made>, Trouble> {
    match PackFolder::open(rt, to, Made) {
        Ok(folder) => Ok(folder),
        Err(fault) => Err(trouble_of(fault)),
    }
}

/// Copies all packs, one after another, and syncs their names.
fn copy_packs<D: Disk + Drop, F: Folder<D>, H: Held>(
    shelf: &mut Shelved<D, F>,
    from: &FolderPath,
    folder: &mut PackFolder<H>,
    copy: &mut Shelved<PackFile<H>, PackFolder<H>>,
    room: &mut [u8],
) -> Result<(), Trouble>
    requires { 0 < length room.old }
    ensures copied { OnOk result (IsTrue (⟦<Shelved<D, F> as Shelf>⟧.is_clean shelf.new)
        → IsTrue (⟦<Shelved<PackFile<H>, PackFolder<H>> as Shelf>⟧.is_clean copy.new)
        → Within (⟦<Shelved<D, F> as Shelf>⟧.kept shelf.old) (⟦<Shelved<PackFile<H>, PackFolder<H>> as Shelf>⟧.kept copy.new)) }
    ensures stays { Stays ⟦<Shelved<D, F> as Shelf>⟧ shelf.old shelf.new }
{
    for pack in 0..shelf.count() {
        copy_pack(shelf, from, folder, copy, pack, room)?;
    }
    folder.sync()?;
    Ok(())
}

/// Copies a pack, if it has anything.
fn copy_pack<D: Disk + Drop, F: Folder<D>, H: Held>(
    shelf: &mut Shelved<D, F>,
    from: &FolderPath,
    folder: &mut PackFolder<H>,
    copy: &mut Shelved<PackFile<H>, PackFolder<H>>,
    pack: usize,
    room: &mut [u8],
) -> Result<(), Trouble>
    requires { 0 < length room.old }
    ensures copied { OnOk result (IsTrue (⟦<Shelved<D, F> as Shelf>⟧.is_clean shelf.new)
        → IsTrue (⟦<Shelved<PackFile<H>, PackFolder<H>> as Shelf>⟧.is_clean copy.new)
        → HaveOf pack (⟦<Shelved<D, F> as Shelf>⟧.kept shelf.old) (⟦<Shelved<PackFile<H>, PackFolder<H>> as Shelf>⟧.kept copy.new)) }
    ensures others { IsTrue (⟦<Shelved<PackFile<H>, PackFolder<H>> as Shelf>⟧.is_clean copy.new)
        → AreSameBut pack (⟦<Shelved<PackFile<H>, PackFolder<H>> as Shelf>⟧.kept copy.new)
        (⟦<Shelved<PackFile<H>, PackFolder<H>> as Shelf>⟧.kept copy.old) }
    ensures clean { IsTrue (⟦<Shelved<PackFile<H>, PackFolder<H>> as Shelf>⟧.is_clean copy.new)
        → IsTrue (⟦<Shelved<PackFile<H>, PackFolder<H>> as Shelf>⟧.is_clean copy.old) }
    ensures stays { Stays ⟦<Shelved<D, F> as Shelf>⟧ shelf.old shelf.new }
{
    let mark = shelf.kept_to(pack);
    if mark == 0 {
        return Ok(());
    }
    let file = file_of_copy(shelf, from, folder, pack, mark, room)?;
    copy.open(pack, file, mark, Lane::Nobody)
}

/// The file of a copy's pack: that of the pack, if it can be linked, or else a new one with its bytes.
fn file_of_copy<D: Disk + Drop, F: Folder<D>, H: Held>(
    shelf: &mut Shelved<D, F>,
    from: &FolderPath,
    folder: &mut PackFolder<H>,
    pack: usize,
    mark: usize,
    room: &mut [u8],
) -> Result<PackFile<H>, Trouble>
    requires { 0 < length room.old }
    ensures written { IfOk result (λ file. IsTrue (⟦<Shelved<D, F> as Shelf>⟧.is_clean shelf.new) → (bytes : List ℕ)
        → ⟦<Shelved<D, F> as Shelf>⟧.kept shelf.old pack 0 mark ≡ Some bytes → Holds (⟦<PackFile<H> as Disk>⟧.seen file) 0 bytes) }
    ensures synced { IfOk result (λ file. Only (⟦<PackFile<H> as Disk>⟧.seen file) (⟦<PackFile<H> as Disk>⟧.may_leave file)) }
    ensures stays { Stays ⟦<Shelved<D, F> as Shelf>⟧ shelf.old shelf.new }
{
    if let Some(file) = linked(shelf, from, folder, pack, mark, room)? {
        return Ok(file);
    }
    let mut file = folder.add_pack(pack)?;
    fill(shelf, pack, mark, &mut file, room)?;
    Ok(file)
}

/// The file of a pack, linked to the folder of a copy. None if it can't be, or isn't as long as its pack, or ends
/// otherwise.
fn linked<D: Disk + Drop, F: Folder<D>, H: Held>(
    shelf: &mut Shelved<D, F>,
    from: &FolderPath,
    folder: &mut PackFolder<H>,
    pack: usize,
    mark: usize,
    room: &mut [u8],
) -> Result<Option<PackFile<H>>, Trouble>
    ensures linked { IfOk result (λ found. IfSome found (λ file. IsTrue (⟦<Shelved<D, F> as Shelf>⟧.is_clean shelf.new) → (bytes : List ℕ)
        → ⟦<Shelved<D, F> as Shelf>⟧.kept shelf.old pack 0 mark ≡ Some bytes → Holds (⟦<PackFile<H> as Disk>⟧.seen file) 0 bytes)) }
    ensures synced { IfOk result (λ found. IfSome found (λ file.
        Only (⟦<PackFile<H> as Disk>⟧.seen file) (⟦<PackFile<H> as Disk>⟧.may_leave file))) }
    ensures stays { Stays ⟦<Shelved<D, F> as Shelf>⟧ shelf.old shelf.new }
    ensures room { length room.new ≡ length room.old }
{
    let size = TAIL.min(mark).min(room.len());
    shelf.peek(pack, mark - size, &mut room[..size])?;
    Ok(folder.link_pack(from, shelf, pack, mark, &room[..size])?)
}

/// Writes what a pack has up to a mark to the beginning of a file, and syncs it.
fn fill<D: Disk + Drop, F: Folder<D>, T: Disk>(
    shelf: &mut Shelved<D, F>,
    pack: usize,
    mark: usize,
    file: &mut T,
    room: &mut [u8],
) -> Result<(), Trouble>
    requires usable { IsTrue (T.is_usable file.old) }
    requires room { 0 < length room.old }
    ensures written { OnOk result (IsTrue (⟦<Shelved<D, F> as Shelf>⟧.is_clean shelf.new) → (bytes : List ℕ)
        → ⟦<Shelved<D, F> as Shelf>⟧.kept shelf.old pack 0 mark ≡ Some bytes → Holds (T.seen file.new) 0 bytes) }
    ensures synced { OnOk result (Only (T.seen file.new) (T.may_leave file.new)) }
    ensures stays { Stays ⟦<Shelved<D, F> as Shelf>⟧ shelf.old shelf.new }
{
    write(shelf, pack, mark, file, room)?;
    file.sync()?;
    Ok(())
}

/// Writes what a pack has up to a mark to the beginning of a file.
fn write<D: Disk + Drop, F: Folder<D>, T: Disk>(
    shelf: &mut Shelved<D, F>,
    pack: usize,
    mark: usize,
    file: &mut T,
    room: &mut [u8],
) -> Result<(), Trouble>
    requires usable { IsTrue (T.is_usable file.old) }
    requires room { 0 < length room.old }
    ensures written { OnOk result (IsTrue (⟦<Shelved<D, F> as Shelf>⟧.is_clean shelf.new) → (bytes : List ℕ)
        → ⟦<Shelved<D, F> as Shelf>⟧.kept shelf.old pack 0 mark ≡ Some bytes → Holds (T.seen file.new) 0 bytes) }
    ensures usable { OnOk result (IsTrue (T.is_usable file.new)) }
    ensures stays { Stays ⟦<Shelved<D, F> as Shelf>⟧ shelf.old shelf.new }
{
    let mut at = 0;
    while at < mark {
        let size = room.len().min(mark - at);
        copy_part(shelf, pack, at, file, &mut room[..size])?;
        at += size;
    }
    Ok(())
}

/// Copies some bytes of a pack to the same offset of a file.
fn copy_part<D: Disk + Drop, F: Folder<D>, T: Disk>(
    shelf: &mut Shelved<D, F>,
    pack: usize,
    at: usize,
    file: &mut T,
    room: &mut [u8],
) -> Result<(), Trouble>
    requires usable { IsTrue (T.is_usable file.old) }
    requires room { 0 < length room.old }
    ensures written { OnOk result (IsTrue (⟦<Shelved<D, F> as Shelf>⟧.is_clean shelf.new) → (bytes : List ℕ)
        → ⟦<Shelved<D, F> as Shelf>⟧.seen shelf.old pack at (length room.old) ≡ Some bytes → Holds (T.seen file.new) at bytes) }
    ensures others { OnOk result (Torn at (length room.old) (T.seen file.old) (T.seen file.new)) }
    ensures usable { OnOk result (IsTrue (T.is_usable file.new)) }
    ensures stays { Stays ⟦<Shelved<D, F> as Shelf>⟧ shelf.old shelf.new }
{
    shelf.peek(pack, at, room)?;
    file.write_at(at, room)?;
    Ok(())
}
