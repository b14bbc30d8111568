//! A shelf over a folder of real files: what a commit kept is read after the shelf was opened again by its
//! rows. A host without packs has no folder, and a look removes nothing.

use crate::scene::tell;
use bh_pack_files::{Fault, PackFile, PackFolder, Unknown};
use bh_pack_shelf::{PackFiles, PackShelf};
use bh_packs::place::{Bounds, Lane, Place};
use bh_shelf::closed::{ClosedPacks, Listed};
use bh_shelf::shelf::Shelf;
use std::{fs, io};

/// Packs of 12 bytes.
const BOUNDS: Bounds = Bounds {
    packs: 4,
    bytes: 12,
};

/// The words of the first commit.
const WORDS: [&str; 3] = ["figs", "nutmegs", "oats"];

pub type Files = PackShelf<PackFile<Unknown>, PackFolder<Unknown>>;

/// Makes a host's file and a shelf beside it, and removes them again.
pub fn run(rt: &HostRuntime, path: &str) -> io::Result<()> {
    let folder = format!(in rt.alloc(); "{path}.packs")?;
    let _ = fs::remove_dir_all(rt, folder.as_str());
    fs::write(rt, path, "a host's file")?;
    let mut places = Vec::new(rt.alloc());
    let mut rows = Vec::new(rt.alloc());
    empty(rt, path, folder.as_str())?;
    first(rt, path, &mut places, &mut rows)?;
    again(rt, path, places.as_slice(), rows.as_slice())?;
    looked(rt, path, folder.as_str(), rows.as_slice())?;
    refused(rt, path, rows.as_slice())?;
    fs::remove_dir_all(rt, folder.as_str())?;
    fs::remove_file(rt, path)
}

/// The shelf of these rows.
fn open(rt: &HostRuntime, path: &str, rows: &[Listed]) -> io::Result<Option<Files>> {
    open_at(rt, path, BOUNDS, rows)
}

/// The shelf of these rows, with packs up to a bound.
pub fn open_at(
    rt: &HostRuntime,
    path: &str,
    bounds: Bounds,
    rows: &[Listed],
) -> io::Result<Option<Files>> {
    told(rt, PackFiles::new(rt, path, Unknown, bounds)?.open(rows))
}

/// The shelf, if it was opened. If it wasn't, that is printed.
fn told(rt: &HostRuntime, opened: Result<Files, Fault>) -> io::Result<Option<Files>> {
    match opened {
        Ok(shelf) => Ok(Some(shelf)),
        Err(fault) => {
            tell(rt, &fault)?;
            Ok(None)
        }
    }
}

/// An opening without rows makes no folder.
fn empty(rt: &HostRuntime, path: &str, folder: &str) -> io::Result<()> {
    let _shelf = open(rt, path, &[])?;
    println!(rt; "shelf: its folder is there: {}", fs::exists(rt, folder)?)
}

/// A file that no row names stays if the shelf is opened to look, and goes if it is opened to serve.
fn looked(rt: &HostRuntime, path: &str, folder: &str, rows: &[Listed]) -> io::Result<()> {
    let left = format!(in rt.alloc(); "{folder}/00000004")?;
    fs::write(rt, left.as_str(), "left")?;
    let _look = told(
        rt,
        PackFiles::to_look(rt, path, Unknown, BOUNDS)?.open(rows),
    )?;
    println!(rt;
        "look: 00000004 is there: {}",
        fs::exists(rt, left.as_str())?
    )?;
    let _serve = open(rt, path, rows)?;
    println!(rt;
        "serve: 00000004 is there: {}",
        fs::exists(rt, left.as_str())?
    )
}

/// Words are appended and kept, one more isn't, and the rows of their packs are noted.
fn first(
    rt: &HostRuntime,
    path: &str,
    places: &mut Vec<Place>,
    rows: &mut Vec<Listed>,
) -> io::Result<()> {
    let Some(mut shelf) = open(rt, path, &[])? else {
        return Ok(());
    };
    for word in WORDS {
        if let Some(place) = append(rt, &mut shelf, word)? {
            places.push(place)?;
        }
    }
    commit(rt, &mut shelf)?;
    for pack in 0..BOUNDS.packs {
        if let Some(length) = shelf.mark(pack) {
            rows.push(Listed { pack, length })?;
        }
    }
    append(rt, &mut shelf, "rye")?;
    Ok(())
}

/// The shelf is opened by the rows, what was kept is read, and the next word has the place of the one that
/// wasn't kept.
fn again(rt: &HostRuntime, path: &str, places: &[Place], rows: &[Listed]) -> io::Result<()> {
    let Some(mut shelf) = open(rt, path, rows)? else {
        return Ok(());
    };
    for row in rows {
        println!(rt; "shelf: pack {} has {} bytes", row.pack, row.length)?;
    }
    for place in places {
        read(rt, &mut shelf, *place)?;
    }
    append(rt, &mut shelf, "tea")?;
    append(rt, &mut shelf, "cinnamon")?;
    Ok(())
}

/// Two rows of one pack, and a pack without a file.
fn refused(rt: &HostRuntime, path: &str, rows: &[Listed]) -> io::Result<()> {
    let Some(row) = rows.first() else {
        return Ok(());
    };
    let _twice = open(rt, path, &[*row, *row])?;
    let missing = Listed { pack: 3, length: 1 };
    let _missing = open(rt, path, &[*row, missing])?;
    Ok(())
}

fn append(rt: &HostRuntime, shelf: &mut Files, word: &str) -> io::Result<Option<Place>> {
    match shelf.append(Lane::Small, word.as_bytes()) {
        Ok(place) => {
            println!(rt;
                "shelf: {word}: pack {}, offset {}",
                place.pack, place.offset
            )?;
            Ok(Some(place))
        }
        Err(_) => {
            println!(rt; "shelf: {word}: not appended")?;
            Ok(None)
        }
    }
}

/// All that was appended is synced, and then the rows of a commit may name it.
fn commit<P: Shelf>(rt: &HostRuntime, shelf: &mut P) -> io::Result<()> {
    match shelf.sync() {
        Ok(()) => {
            shelf.keep();
            println!(rt; "shelf: kept")
        }
        Err(_) => println!(rt; "shelf: not synced"),
    }
}

fn read(rt: &HostRuntime, shelf: &mut Files, place: Place) -> io::Result<()> {
    let mut room = vec![in rt.alloc(); 0u8; place.size]?;
    match shelf.read(place, room.as_mut_slice()) {
        Ok(()) => {
            let text = str::from_utf8(room.as_slice()).unwrap_or("?");
            println!(rt; "shelf: read {text}")
        }
        Err(_) => println!(rt;
            "shelf: pack {}, offset {}: not read",
            place.pack, place.offset
        ),
    }
}
