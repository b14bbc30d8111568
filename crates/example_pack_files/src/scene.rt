//! A folder of packs that is made, opened again, damaged and refused, one thing after another.

use bh_pack_files::{Fault, PackFile, PackFolder, Unknown};
use bh_packs::packs::Packs;
use bh_packs::place::{Bounds, Lane, Place};
use std::fs::Permissions;
use std::os::unix::fs::{MetadataExt, PermissionsExt, symlink};
use std::{fs, io};

/// Packs of 12 bytes.
const BOUNDS: Bounds = Bounds {
    packs: 4,
    bytes: 12,
};

/// The words that are appended.
const WORDS: [&str; 3] = ["apples", "pears", "plums"];

/// Which packs have how many bytes once these words are synced.
const ROWS: [(usize, usize); 2] = [(0, 11), (1, 5)];

/// A host's packs and their folder.
#[derive(Drop)]
struct Shelf {
    packs: Packs<PackFile<Unknown>>,
    folder: PackFolder<Unknown>,
}

/// Makes a host's file and its packs, and removes them again.
pub fn run(rt: &HostRuntime, path: &str) -> io::Result<()> {
    let folder = format!(in rt.alloc(); "{path}.packs")?;
    let _ = fs::remove_dir_all(rt, folder.as_str());
    fs::write(rt, path, "a host's file")?;
    let places = first(rt, path)?;
    modes(rt, folder.as_str())?;
    strange(rt, folder.as_str())?;
    again(rt, path, places.as_slice())?;
    names(rt, folder.as_str())?;
    refused(rt, path, folder.as_str())?;
    foreign(rt, path, folder.as_str())?;
    fs::remove_file(rt, path)
}

/// The folder beside a host's file, and no packs.
fn open(rt: &HostRuntime, path: &str) -> io::Result<Option<Shelf>> {
    match PackFolder::open(rt, path, Unknown) {
        Ok(folder) => Ok(Some(Shelf {
            packs: Packs::new(rt.alloc(), BOUNDS),
            folder,
        })),
        Err(fault) => {
            tell(rt, &fault)?;
            Ok(None)
        }
    }
}

/// Prints why something was refused, without the folders above.
pub fn tell(rt: &HostRuntime, fault: &Fault) -> io::Result<()> {
    let text = format!(in rt.alloc(); "{fault}")?;
    match text.as_str().rsplit_once('/') {
        Some((_, end)) => println!(rt; "refused: {end}"),
        None => println!(rt; "refused: {text}"),
    }
}

/// Words are appended and synced, and one more isn't synced.
fn first(rt: &HostRuntime, path: &str) -> io::Result<Vec<Place>> {
    let mut places = Vec::new(rt.alloc());
    let Some(mut shelf) = open(rt, path)? else {
        return Ok(places);
    };
    for word in WORDS {
        if let Ok(place) = shelf
            .packs
            .append(&mut shelf.folder, Lane::Small, word.as_bytes())
        {
            println!(rt;
                "append {word}: pack {}, offset {}",
                place.pack, place.offset
            )?;
            places.push(place)?;
        }
    }
    println!(rt; "sync: {}", shelf.packs.sync().is_ok())?;
    let lost = shelf.packs.append(&mut shelf.folder, Lane::Small, b"lost");
    println!(rt; "append lost: {}", lost.is_ok())?;
    Ok(places)
}

/// Prints the modes of the folder and of its first file.
fn modes(rt: &HostRuntime, folder: &str) -> io::Result<()> {
    let file = format!(in rt.alloc(); "{folder}/00000001")?;
    let (outer, inner) = (fs::metadata(rt, folder)?, fs::metadata(rt, file.as_str())?);
    println!(rt;
        "modes {:o} and {:o}",
        outer.mode() & 0o777,
        inner.mode() & 0o777
    )
}

/// Prints which of four names are there.
fn names(rt: &HostRuntime, folder: &str) -> io::Result<()> {
    for name in ["00000001", "00000002", "00000004", "notes.txt"] {
        let path = format!(in rt.alloc(); "{folder}/{name}")?;
        println!(rt; "{name} is there: {}", fs::exists(rt, path.as_str())?)?;
    }
    Ok(())
}

/// Names that no row has: a file that is no pack's, and a pack that a crash left.
fn strange(rt: &HostRuntime, folder: &str) -> io::Result<()> {
    fs::write(
        rt,
        format!(in rt.alloc(); "{folder}/notes.txt")?.as_str(),
        "mine",
    )?;
    fs::write(
        rt,
        format!(in rt.alloc(); "{folder}/00000004")?.as_str(),
        "left",
    )
}

/// The packs are opened at their marks, and the words are read.
fn again(rt: &HostRuntime, path: &str, places: &[Place]) -> io::Result<()> {
    let Some(mut shelf) = open(rt, path)? else {
        return Ok(());
    };
    for (pack, mark) in ROWS {
        open_one(rt, &mut shelf, pack, mark)?;
    }
    match shelf.folder.sweep(&[0, 1]) {
        Ok(strangers) => {
            for name in strangers.iter() {
                println!(rt; "no pack's: {name}")?;
            }
        }
        Err(fault) => tell(rt, &fault)?,
    }
    for place in places {
        read(rt, &mut shelf, *place)?;
    }
    Ok(())
}

/// Opens a pack at its mark.
fn open_one(rt: &HostRuntime, shelf: &mut Shelf, pack: usize, mark: usize) -> io::Result<()> {
    match shelf.folder.open_pack(pack, mark) {
        Ok(file) => {
            let opened = shelf.packs.open(pack, file, mark, Lane::Small);
            println!(rt; "open pack {pack}: {}", opened.is_ok())
        }
        Err(fault) => tell(rt, &fault),
    }
}

fn read(rt: &HostRuntime, shelf: &mut Shelf, place: Place) -> io::Result<()> {
    let mut room = vec![in rt.alloc(); 0u8; place.size]?;
    match shelf.packs.read(place, room.as_mut_slice()) {
        Ok(()) => {
            let text = str::from_utf8(room.as_slice()).unwrap_or("?");
            println!(rt; "read: {text}")
        }
        Err(_) => println!(rt; "pack {}, offset {}: not read", place.pack, place.offset),
    }
}

/// Packs that are cut, missing, or links, and what is made where a link was.
fn refused(rt: &HostRuntime, path: &str, folder: &str) -> io::Result<()> {
    let one = format!(in rt.alloc(); "{folder}/00000001")?;
    let two = format!(in rt.alloc(); "{folder}/00000002")?;
    let Some(mut shelf) = open(rt, path)? else {
        return Ok(());
    };
    fs::write(rt, one.as_str(), "app")?;
    open_one(rt, &mut shelf, 0, 11)?;
    fs::remove_file(rt, one.as_str())?;
    open_one(rt, &mut shelf, 0, 11)?;
    symlink(rt, two.as_str(), one.as_str())?;
    open_one(rt, &mut shelf, 0, 0)?;
    println!(rt; "new pack 0: {}", shelf.folder.make_pack(0).is_ok())?;
    open_one(rt, &mut shelf, 0, 0)?;
    println!(rt;
        "pack 1 has {} bytes",
        fs::metadata(rt, two.as_str())?.len()
    )?;
    println!(rt; "remove pack 0: {}", shelf.folder.remove_pack(0).is_ok())?;
    open_one(rt, &mut shelf, 0, 0)
}

/// A folder that others may write to, one that is a link, and one that is a file.
fn foreign(rt: &HostRuntime, path: &str, folder: &str) -> io::Result<()> {
    let other = format!(in rt.alloc(); "{folder}.other")?;
    fs::set_permissions(rt, folder, Permissions::from_mode(0o770))?;
    let _shared = open(rt, path)?;
    fs::rename(rt, folder, other.as_str())?;
    symlink(rt, other.as_str(), folder)?;
    let _link = open(rt, path)?;
    fs::remove_file(rt, folder)?;
    fs::write(rt, folder, "no folder")?;
    let _file = open(rt, path)?;
    fs::remove_file(rt, folder)?;
    fs::remove_dir_all(rt, other.as_str())
}
