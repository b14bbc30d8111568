//! A shelf of packs in memory: what a commit keeps, and a gap where a transaction was rolled back.

use crate::word_of;
use bh_packs::place::{Bounds, Lane, Place};
use bh_packs::trouble::Trouble;
use bh_shelf::no_shelf::NoShelf;
use bh_shelf::shelf::Shelf;
use bh_shelf::shelved::Shelved;
use std::alloc::Global;
use std::io;
use std::rt::Runtime;

/// Appends, commits, rolls back, reads and removes.
pub fn show(rt: &impl Runtime, alloc: Global, bounds: Bounds) -> io::Result<()> {
    let mut shelf = Shelved::in_memory(alloc, bounds);
    let first = append(rt, &mut shelf, "figs")?;
    commit(rt, &mut shelf)?;
    append(rt, &mut shelf, "nuts")?;
    shelf.forget();
    append(rt, &mut shelf, "oats")?;
    read(rt, &mut shelf, first)?;
    remove(rt, &mut shelf)?;
    read(rt, &mut shelf, first)?;
    append(rt, &mut NoShelf, "rye")?;
    Ok(())
}

fn append<S: Shelf>(rt: &impl Runtime, shelf: &mut S, text: &str) -> io::Result<Option<Place>> {
    match shelf.append(Lane::Small, text.as_bytes()) {
        Ok(place) => {
            println!(rt;
                "shelf: {text}: pack {}, offset {}",
                place.pack, place.offset
            )?;
            Ok(Some(place))
        }
        Err(trouble) => {
            println!(rt; "shelf: {text}: {}", word_of(&trouble))?;
            Ok(None)
        }
    }
}

/// All that was appended is synced, and then the rows of a commit may name it.
fn commit<S: Shelf>(rt: &impl Runtime, shelf: &mut S) -> io::Result<()> {
    match shelf.sync() {
        Ok(()) => shelf.keep(),
        Err(trouble) => println!(rt; "shelf: sync: {}", word_of(&trouble))?,
    }
    match shelf.mark(0) {
        Some(mark) => println!(rt; "shelf: pack 0 is synced up to {mark}"),
        None => println!(rt; "shelf: no pack 0"),
    }
}

fn read<S: Shelf>(rt: &impl Runtime, shelf: &mut S, place: Option<Place>) -> io::Result<()> {
    let Some(place) = place else {
        return Ok(());
    };
    let mut room = vec![in rt.alloc(); 0u8; place.size]?;
    match shelf.read(place, room.as_mut_slice()) {
        Ok(()) => {
            let text = str::from_utf8(room.as_slice()).unwrap_or("?");
            println!(rt; "shelf: read {text}")
        }
        Err(trouble) => println!(rt; "shelf: read: {}", word_of(&trouble)),
    }
}

/// A pack that is held stays until the hold is given back.
fn remove<S: Shelf>(rt: &impl Runtime, shelf: &mut S) -> io::Result<()> {
    let Ok(hold) = shelf.hold(0) else {
        return Ok(());
    };
    told(rt, shelf.remove(0))?;
    shelf.let_go(hold);
    told(rt, shelf.remove(0))
}

fn told(rt: &impl Runtime, done: Result<(), Trouble>) -> io::Result<()> {
    match done {
        Ok(()) => println!(rt; "shelf: removed"),
        Err(trouble) => println!(rt; "shelf: remove: {}", word_of(&trouble)),
    }
}
