//! Packs over files in memory: prints what each call returns.
#![tactic(auto)]

mod shelves;

use bh_packs::folder::InMemory;
use bh_packs::packs::Packs;
use bh_packs::place::{Bounds, Lane, Large, Place};
use bh_packs::trouble::Trouble;
use sqlite_disk::{Disk, Memory};
use std::io;
use std::rt::Runtime;

/// Packs of 12 bytes.
const BOUNDS: Bounds = Bounds {
    packs: 4,
    bytes: 12,
};

/// Packs, and where their files are.
#[derive(Drop)]
struct Shelf {
    packs: Packs<Memory>,
    folder: InMemory,
}

/// The places of four bodies.
#[derive(Drop)]
struct Fruits {
    apples: Option<Place>,
    pears: Option<Place>,
    plums: Option<Place>,
    melons: Option<Place>,
}

fn main(rt: HostRuntime) -> io::Result<()> {
    let mut shelf = Shelf {
        packs: Packs::new(rt.alloc(), BOUNDS),
        folder: InMemory::new(rt.alloc()),
    };
    let fruits = append_all(&rt, &mut shelf)?;
    sync(&rt, &mut shelf)?;
    stop(&rt, &mut shelf)?;
    read_all(&rt, &mut shelf, &fruits)?;
    hold(&rt, &mut shelf)?;
    damage(&rt, &mut shelf)?;
    read_all(&rt, &mut shelf, &fruits)?;
    shelves::show(&rt, rt.alloc(), BOUNDS)
}

/// Small bodies share packs while they fit, and a large one has its own.
fn append_all(rt: &impl Runtime, shelf: &mut Shelf) -> io::Result<Fruits> {
    Ok(Fruits {
        apples: append(rt, shelf, Lane::Small, "apples")?,
        pears: append(rt, shelf, Lane::Small, "pears")?,
        plums: append(rt, shelf, Lane::Small, "plums")?,
        melons: append(rt, shelf, Lane::Large(Large::First), "melons")?,
    })
}

fn append(
    rt: &impl Runtime,
    shelf: &mut Shelf,
    lane: Lane,
    text: &str,
) -> io::Result<Option<Place>> {
    match shelf.packs.append(&mut shelf.folder, lane, text.as_bytes()) {
        Ok(place) => {
            println!(rt;
                "append {text}: pack {}, offset {}, {} bytes",
                place.pack, place.offset, place.size
            )?;
            Ok(Some(place))
        }
        Err(trouble) => {
            println!(rt; "append {text}: {}", word_of(&trouble))?;
            Ok(None)
        }
    }
}

fn sync(rt: &impl Runtime, shelf: &mut Shelf) -> io::Result<()> {
    match shelf.packs.sync() {
        Ok(()) => println!(rt; "sync")?,
        Err(trouble) => println!(rt; "sync: {}", word_of(&trouble))?,
    }
    Ok(())
}

/// A body that isn't synced before the crash is nobody's: the next one has its place.
fn stop(rt: &impl Runtime, shelf: &mut Shelf) -> io::Result<()> {
    let lost = append(rt, shelf, Lane::Small, "lost")?;
    shelf.packs.crash();
    println!(rt; "crash")?;
    read(rt, shelf, "lost", lost)?;
    let figs = append(rt, shelf, Lane::Small, "figs")?;
    read(rt, shelf, "figs", figs)?;
    let _none = append(rt, shelf, Lane::Small, "passion fruits")?;
    Ok(())
}

fn read_all(rt: &impl Runtime, shelf: &mut Shelf, fruits: &Fruits) -> io::Result<()> {
    read(rt, shelf, "apples", fruits.apples)?;
    read(rt, shelf, "pears", fruits.pears)?;
    read(rt, shelf, "plums", fruits.plums)?;
    read(rt, shelf, "melons", fruits.melons)
}

fn read(rt: &impl Runtime, shelf: &mut Shelf, name: &str, place: Option<Place>) -> io::Result<()> {
    let Some(place) = place else {
        return Ok(());
    };
    let mut room = vec![in rt.alloc(); 0u8; place.size]?;
    match shelf.packs.read(place, room.as_mut_slice()) {
        Ok(()) => {
            let text = str::from_utf8(room.as_slice()).unwrap_or("?");
            println!(rt; "read {name}: {text}")
        }
        Err(trouble) => println!(rt; "read {name}: {}", word_of(&trouble)),
    }
}

/// A pack that is held isn't removed.
fn hold(rt: &impl Runtime, shelf: &mut Shelf) -> io::Result<()> {
    let Ok(hold) = shelf.packs.hold(2) else {
        return Ok(());
    };
    if let Err(trouble) = shelf.packs.remove(2) {
        println!(rt; "remove pack 2: {}", word_of(&trouble))?;
    }
    shelf.packs.let_go(hold);
    Ok(())
}

/// Flips a bit of the first body in the first pack's file: an `a` becomes a `q`.
fn damage(rt: &impl Runtime, shelf: &mut Shelf) -> io::Result<()> {
    let Ok(mut file) = shelf.packs.remove(0) else {
        return Ok(());
    };
    if file.may_be_used() {
        file.write_at(0, b"q")?;
    }
    if let Err(trouble) = shelf.packs.open(0, file, 11, Lane::Small) {
        println!(rt; "open pack 0: {}", word_of(&trouble))?;
    }
    println!(rt; "a bit is flipped")
}

pub(crate) fn word_of(trouble: &Trouble) -> &'static str {
    match trouble {
        Trouble::Missing => "missing",
        Trouble::Taken => "taken",
        Trouble::Unusable => "unusable",
        Trouble::Damaged => "damaged",
        Trouble::Outside => "outside",
        Trouble::Short => "short",
        Trouble::Held => "held",
        Trouble::TooLong => "too long",
        Trouble::Full => "full",
        Trouble::Memory => "no memory",
        Trouble::File(_) => "a call on a file failed",
    }
}
