//! Copies the bytes of a disk to another one.

ghost use Rattle.std.specs.Prelude.{◌≡◌, ◌+◌, ◌<◌, ◌≤◌, [], length, take, IsTrue, IfOk, OnOk};
ghost use Rattle.sqlite_wal.specs.Reads.{IsClean, OnlyReads};
ghost use Rattle.bh_backup.specs.Copies.{HasAlone};

use bh_file::{Meter, Work};
use sqlite_disk::Disk;
use std::alloc::{AllocError, Global};
use std::io;

/// How many bytes are read, and then written, at a time: 1 MiB.
const PIECE: usize = 1 << 20;

/// A buffer of `size` bytes.
fn room(alloc: Global, size: usize) -> Result<Vec<u8>, AllocError>
    ensures { IfOk result (λ room. length room.items ≡ size) }
{
    vec![in alloc; 0u8; size]
}

/// Copies the bytes from `at` on, as many as fit in the buffer.
fn copy_piece<D: Disk, E: Disk>(
    from: &mut D,
    to: &mut E,
    at: usize,
    piece: &mut [u8],
) -> io::Result<()>
    requires from { IsTrue (D.Disk.is_usable from.old) }
    requires to { IsTrue (E.Disk.is_usable to.old) }
    requires some { 0 < length piece.old }
    ensures copied { OnOk result (IsClean D.Disk from.new → at ≤ length (D.Disk.seen from.old)
        → E.Disk.seen to.old ≡ take at (D.Disk.seen from.old)
        → E.Disk.seen to.new ≡ take (at + length piece.old) (D.Disk.seen from.old)) }
    ensures read { OnlyReads D.Disk from.old from.new }
    ensures usable { IsTrue (E.Disk.is_usable to.new) }
    ensures clean { IsClean E.Disk to.new → IsClean E.Disk to.old }
{
    from.read_at(at, piece)?;
    to.write_at(at, piece)
}

/// Copies the first `len` bytes to an empty disk, piece by piece, and counts them.
fn copy_bytes<D: Disk, E: Disk>(
    from: &mut D,
    to: &mut E,
    len: usize,
    piece: &mut [u8],
    meter: &mut Meter,
) -> io::Result<()>
    requires from { IsTrue (D.Disk.is_usable from.old) }
    requires to { IsTrue (E.Disk.is_usable to.old) }
    requires some { 0 < length piece.old }
    requires empty { E.Disk.seen to.old ≡ [] }
    ensures copied { OnOk result (IsClean D.Disk from.new → len ≤ length (D.Disk.seen from.old)
        → E.Disk.seen to.new ≡ take len (D.Disk.seen from.old)) }
    ensures read { OnlyReads D.Disk from.old from.new }
    ensures usable { IsTrue (E.Disk.is_usable to.new) }
    ensures clean { IsClean E.Disk to.new → IsClean E.Disk to.old }
{
    let mut at = 0;
    while at < len {
        let count = piece.len().min(len - at);
        copy_piece(from, to, at, &mut piece[..count])?;
        at += count;
        meter.add(count);
    }
    Ok(())
}

/// Copies the first `len` bytes to an empty disk. If that takes long, standard error shows how far it
/// is.
fn copy_shown<D: Disk, E: Disk>(
    rt: &HostRuntime,
    from: &mut D,
    to: &mut E,
    len: usize,
    piece: &mut [u8],
) -> io::Result<()>
    requires from { IsTrue (D.Disk.is_usable from.old) }
    requires to { IsTrue (E.Disk.is_usable to.old) }
    requires some { 0 < length piece.old }
    requires empty { E.Disk.seen to.old ≡ [] }
    ensures copied { OnOk result (IsClean D.Disk from.new → len ≤ length (D.Disk.seen from.old)
        → E.Disk.seen to.new ≡ take len (D.Disk.seen from.old)) }
    ensures read { OnlyReads D.Disk from.old from.new }
    ensures usable { IsTrue (E.Disk.is_usable to.new) }
    ensures clean { IsClean E.Disk to.new → IsClean E.Disk to.old }
{
    let mut meter = Meter::new(rt, Work::Copy, len as u64);
    let copied = copy_bytes(from, to, len, piece, &mut meter);
    meter.end();
    copied
}

/// Copies all bytes of a disk to another one, replacing its contents, and syncs that. If it takes
/// long, standard error shows how far it is.
///
/// If it fails, the other disk may have some of them.
pub fn copy_disk<D: Disk, E: Disk>(rt: &HostRuntime, from: &mut D, to: &mut E) -> io::Result<()>
    requires from { IsTrue (D.Disk.is_usable from.old) }
    requires to { IsTrue (E.Disk.is_usable to.old) }
    ensures copied { OnOk result (IsClean D.Disk from.new → HasAlone E.Disk (D.Disk.seen from.old) to.new) }
    ensures read { OnlyReads D.Disk from.old from.new }
    ensures clean { IsClean E.Disk to.new → IsClean E.Disk to.old }
{
    let mut piece = room(rt.alloc(), PIECE)?;
    let len = from.len()?;
    to.set_len(0)?;
    copy_shown(rt, from, to, len, &mut piece)?;
    to.sync()
}
