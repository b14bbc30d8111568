//! Blocks of 64 KiB that are appended one after another. The bytes of each, and where it is, follow from its
//! number.

use bh_pack_files::{PackFile, PackFolder, Unknown};
use bh_packs::packs::Packs;
use bh_packs::place::{Bounds, Lane, Place, sum_of};
use std::io;
use std::time::Instant;

/// The bytes of a block.
const SIZE: usize = 65_536;

/// The blocks of a pack.
const EACH: usize = 256;

const BOUNDS: Bounds = Bounds {
    packs: 1_048_576,
    bytes: EACH * SIZE,
};

/// A host's packs and their folder.
#[derive(Drop)]
struct Shelf {
    packs: Packs<PackFile<Unknown>>,
    folder: PackFolder<Unknown>,
}

/// The bytes of a block: its number, again and again.
fn fill(block: usize, room: &mut [u8]) {
    let bytes = (block as u64).to_le_bytes();
    for (at, byte) in room.iter_mut().enumerate() {
        *byte = bytes[at % 8];
    }
}

/// The folder beside a file, and no packs.
fn open(rt: &HostRuntime, path: &str) -> io::Result<Option<Shelf>> {
    match PackFolder::open(rt, path, Unknown) {
        Ok(folder) => Ok(Some(Shelf {
            packs: Packs::new(rt.alloc(), BOUNDS),
            folder,
        })),
        Err(fault) => {
            println!(rt; "{fault}")?;
            Ok(None)
        }
    }
}

/// Appends a block and syncs it. Whether that succeeded.
fn append(shelf: &mut Shelf, block: usize, room: &mut [u8]) -> bool {
    fill(block, room);
    match shelf.packs.append(&mut shelf.folder, Lane::Small, room) {
        Ok(_) => shelf.packs.sync().is_ok(),
        Err(_) => false,
    }
}

/// Appends blocks and syncs each, until it is killed.
pub fn write(rt: &HostRuntime, path: &str) -> io::Result<()> {
    let Some(mut shelf) = open(rt, path)? else {
        return Ok(());
    };
    let mut room = vec![in rt.alloc(); 0u8; SIZE]?;
    for block in 0..usize::MAX {
        if !append(&mut shelf, block, room.as_mut_slice()) {
            return println!(rt; "block {block} wasn't written");
        }
        println!(rt; "{block}")?;
    }
    Ok(())
}

/// Opens the packs that so many blocks are in, and removes the files of others.
fn reopen(rt: &HostRuntime, shelf: &mut Shelf, blocks: usize) -> io::Result<()> {
    let mut named = Vec::new(rt.alloc());
    for pack in 0..blocks.div_ceil(EACH) {
        named.push(pack)?;
        open_one(
            rt,
            shelf,
            pack,
            blocks.saturating_sub(pack.saturating_mul(EACH)).min(EACH),
        )?;
    }
    match shelf.folder.sweep(named.as_slice()) {
        Ok(strangers) => println!(rt; "{} names are no pack's", strangers.len()),
        Err(fault) => println!(rt; "{fault}"),
    }
}

/// Opens a pack that so many blocks are in.
fn open_one(rt: &HostRuntime, shelf: &mut Shelf, pack: usize, blocks: usize) -> io::Result<()> {
    let mark = blocks.saturating_mul(SIZE);
    match shelf.folder.open_pack(pack, mark) {
        Ok(file) => {
            if shelf.packs.open(pack, file, mark, Lane::Small).is_err() {
                println!(rt; "pack {pack} can't be opened")?;
            }
            Ok(())
        }
        Err(fault) => println!(rt; "{fault}"),
    }
}

/// Reads a block. Whether it has its bytes.
fn read_one(shelf: &mut Shelf, block: usize, want: &mut [u8], room: &mut [u8]) -> bool {
    fill(block, want);
    if room.len() != SIZE {
        return false;
    }
    let place = Place {
        pack: block / EACH,
        offset: (block % EACH) * SIZE,
        size: SIZE,
        sum: sum_of(want),
    };
    shelf.packs.read(place, room).is_ok() && *room == *want
}

/// Reads the first blocks, and prints how many have their bytes.
pub fn read(rt: &HostRuntime, path: &str, blocks: usize) -> io::Result<()> {
    let Some(mut shelf) = open(rt, path)? else {
        return Ok(());
    };
    reopen(rt, &mut shelf, blocks)?;
    let mut want = vec![in rt.alloc(); 0u8; SIZE]?;
    let mut room = vec![in rt.alloc(); 0u8; SIZE]?;
    let mut whole = 0u64;
    for block in 0..blocks {
        if read_one(&mut shelf, block, want.as_mut_slice(), room.as_mut_slice()) {
            whole = whole.saturating_add(1);
        }
    }
    println!(rt; "{whole} of {blocks} blocks were read")
}

/// How long it takes to append so many blocks with a sync of each, with one sync of all, and to read them.
pub fn measure(rt: &HostRuntime, path: &str, blocks: usize) -> io::Result<()> {
    let Some(mut shelf) = open(rt, path)? else {
        return Ok(());
    };
    let mut room = vec![in rt.alloc(); 7u8; SIZE]?;
    let begun = Instant::now(rt)?;
    for _ in 0..blocks {
        let appended = shelf
            .packs
            .append(&mut shelf.folder, Lane::Small, room.as_slice());
        if appended.is_err() || shelf.packs.sync().is_err() {
            return println!(rt; "a block wasn't written");
        }
    }
    println!(rt; "append and sync: {} us", begun.elapsed(rt)?.as_micros())?;
    let sum = sum_of(room.as_slice());
    read_all(rt, &mut shelf, blocks, sum, room.as_mut_slice())
}

/// How long it takes to read so many blocks of one sum.
fn read_all(
    rt: &HostRuntime,
    shelf: &mut Shelf,
    blocks: usize,
    sum: u64,
    room: &mut [u8],
) -> io::Result<()> {
    if room.len() != SIZE {
        return Ok(());
    }
    let begun = Instant::now(rt)?;
    for block in 0..blocks {
        let place = Place {
            pack: block / EACH,
            offset: (block % EACH) * SIZE,
            size: SIZE,
            sum,
        };
        if shelf.packs.read(place, room).is_err() {
            return println!(rt; "block {block} wasn't read");
        }
    }
    println!(rt; "read: {} us", begun.elapsed(rt)?.as_micros())
}
