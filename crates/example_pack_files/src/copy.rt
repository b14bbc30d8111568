//! Packs that are copied beside another file: the copy has what was kept, also once it is opened by its rows. A
//! copy that fails leaves nothing.

use crate::shelf::{Files, open_at};
use bh_packs::place::{Bounds, Lane, Place};
use bh_shelf::closed::Listed;
use bh_shelf::copied::CopyShelf;
use bh_shelf::shelf::Shelf;
use std::fs::DirBuilder;
use std::os::unix::fs::{DirBuilderExt, symlink};
use std::{fs, io};

/// Packs of 3,000,000 bytes.
const BOUNDS: Bounds = Bounds {
    packs: 4,
    bytes: 3_000_000,
};

/// The sizes of what is appended: the first is copied in three parts, and the third begins a pack.
const SIZES: [usize; 3] = [2_500_000, 1, 1_048_576];

/// A shelf, and what it keeps: the places, and the rows of its packs.
#[derive(Drop)]
struct Kept {
    shelf: Files,
    places: Vec<Place>,
    rows: Vec<Listed>,
}

/// Makes a host's file with packs and copies these, and removes all again.
pub fn run(rt: &HostRuntime, path: &str) -> io::Result<()> {
    let to = format!(in rt.alloc(); "{path}.copy")?;
    begin(rt, path)?;
    begin(rt, to.as_str())?;
    if let Some(mut kept) = keep(rt, path)? {
        copy(rt, &mut kept, to.as_str())?;
        copy(rt, &mut kept, to.as_str())?;
        again(rt, &kept, to.as_str())?;
        elsewhere(rt, &mut kept, to.as_str())?;
        halfway(rt, &mut kept, path, to.as_str())?;
    }
    end(rt, path)?;
    end(rt, to.as_str())
}

/// A file without packs.
fn begin(rt: &HostRuntime, path: &str) -> io::Result<()> {
    let folder = format!(in rt.alloc(); "{path}.packs")?;
    let _ = fs::remove_dir_all(rt, folder.as_str());
    fs::write(rt, path, "a host's file")
}

fn end(rt: &HostRuntime, path: &str) -> io::Result<()> {
    let folder = format!(in rt.alloc(); "{path}.packs")?;
    fs::remove_dir_all(rt, folder.as_str())?;
    fs::remove_file(rt, path)
}

/// So many bytes, of which none is that of 1 MiB before.
fn bytes_of(rt: &HostRuntime, size: usize) -> io::Result<Vec<u8>> {
    let mut bytes = vec![in rt.alloc(); 0u8; size]?;
    for (at, byte) in bytes.iter_mut().enumerate() {
        *byte = (at % 251) as u8;
    }
    Ok(bytes)
}

/// A shelf that keeps bytes of each size, and has one more that it doesn't keep.
fn keep(rt: &HostRuntime, path: &str) -> io::Result<Option<Kept>> {
    let Some(shelf) = open_at(rt, path, BOUNDS, &[])? else {
        return Ok(None);
    };
    let mut kept = Kept {
        shelf,
        places: Vec::new(rt.alloc()),
        rows: Vec::new(rt.alloc()),
    };
    for size in SIZES {
        append(rt, &mut kept, size)?;
    }
    commit(&mut kept)?;
    let _lost = kept.shelf.append(Lane::Small, b"lost");
    Ok(Some(kept))
}

fn append(rt: &HostRuntime, kept: &mut Kept, size: usize) -> io::Result<()> {
    let bytes = bytes_of(rt, size)?;
    match kept.shelf.append(Lane::Small, bytes.as_slice()) {
        Ok(place) => {
            kept.places.push(place)?;
            println!(rt;
                "copy: {size} bytes: pack {}, offset {}",
                place.pack, place.offset
            )
        }
        Err(trouble) => println!(rt; "copy: {size} bytes: {trouble}"),
    }
}

/// All that was appended is synced, and then the rows of a commit may name it.
fn settle<P: Shelf>(shelf: &mut P) {
    match shelf.sync() {
        Ok(()) => shelf.keep(),
        Err(_) => {}
    }
}

/// What was appended is synced and kept, and the rows of its packs are noted.
fn commit(kept: &mut Kept) -> io::Result<()> {
    settle(&mut kept.shelf);
    for pack in 0..BOUNDS.packs {
        if let Some(length) = kept.shelf.mark(pack) {
            kept.rows.push(Listed { pack, length })?;
        }
    }
    Ok(())
}

/// Copies the packs, and reads what was kept of the copy.
fn copy(rt: &HostRuntime, kept: &mut Kept, to: &str) -> io::Result<()> {
    match kept.shelf.copy_to(to) {
        Ok(mut copy) => read(rt, &mut copy, kept.places.as_slice()),
        Err(trouble) => println!(rt; "copy: {trouble}"),
    }
}

/// Whether each place has its bytes.
fn read<P: Shelf>(rt: &HostRuntime, shelf: &mut P, places: &[Place]) -> io::Result<()> {
    for place in places {
        let want = bytes_of(rt, place.size)?;
        let mut room = vec![in rt.alloc(); 0u8; place.size]?;
        let is_read = shelf.read(*place, room.as_mut_slice()).is_ok();
        let is_same = room.as_slice() == want.as_slice();
        println!(rt;
            "copy: {} bytes are read: {}",
            place.size,
            is_read && is_same
        )?;
    }
    Ok(())
}

/// The copy is opened by the rows.
fn again(rt: &HostRuntime, kept: &Kept, to: &str) -> io::Result<()> {
    for row in kept.rows.iter() {
        println!(rt; "copy: pack {} has {} bytes", row.pack, row.length)?;
    }
    match open_at(rt, to, BOUNDS, kept.rows.as_slice())? {
        Some(mut shelf) => read(rt, &mut shelf, kept.places.as_slice()),
        None => Ok(()),
    }
}

/// A copy whose folder is a link, and one beside no file.
fn elsewhere(rt: &HostRuntime, kept: &mut Kept, to: &str) -> io::Result<()> {
    let other = format!(in rt.alloc(); "{to}.other")?;
    let link = format!(in rt.alloc(); "{other}.packs")?;
    let _ = fs::remove_file(rt, link.as_str());
    let _ = fs::remove_file(rt, other.as_str());
    copy(rt, kept, other.as_str())?;
    fs::write(rt, other.as_str(), "a copy")?;
    symlink(rt, "/tmp", link.as_str())?;
    copy(rt, kept, other.as_str())?;
    fs::remove_file(rt, link.as_str())?;
    fs::remove_file(rt, other.as_str())
}

/// Copies that fail after the first pack: the name of the second is taken, and then its file is cut.
fn halfway(rt: &HostRuntime, kept: &mut Kept, path: &str, to: &str) -> io::Result<()> {
    let other = format!(in rt.alloc(); "{to}.other")?;
    let folder = format!(in rt.alloc(); "{other}.packs")?;
    fs::write(rt, other.as_str(), "a copy")?;
    DirBuilder::new().mode(0o700).create(rt, folder.as_str())?;
    write_second(rt, folder.as_str())?;
    copy(rt, kept, other.as_str())?;
    left(rt, folder.as_str())?;
    fs::remove_dir_all(rt, folder.as_str())?;
    write_second(rt, format!(in rt.alloc(); "{path}.packs")?.as_str())?;
    copy(rt, kept, other.as_str())?;
    left(rt, folder.as_str())?;
    fs::remove_file(rt, other.as_str())
}

/// Writes a few bytes to the file of the second pack.
fn write_second(rt: &HostRuntime, folder: &str) -> io::Result<()> {
    fs::write(
        rt,
        format!(in rt.alloc(); "{folder}/00000002")?.as_str(),
        "mine",
    )
}

/// Prints what is left of a copy.
fn left(rt: &HostRuntime, folder: &str) -> io::Result<()> {
    println!(rt; "copy: its folder is there: {}", fs::exists(rt, folder)?)?;
    for name in ["00000001", "00000002"] {
        let path = format!(in rt.alloc(); "{folder}/{name}")?;
        println!(rt; "copy: {name} is there: {}", fs::exists(rt, path.as_str())?)?;
    }
    Ok(())
}
