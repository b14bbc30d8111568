//! One file of a pack: bytes are written where nothing stands, and stand once they are synced.

ghost use Rattle.std.specs.Prelude.{◌≡◌, ◌+◌, ◌<◌, ◌≤◌, ℕ, List, length, IsTrue, IfOk, OnOk};
ghost use Rattle.sqlite_disk.specs.Disk.{Holds, CountsFault, CountsFaultIf};
ghost use Rattle.bh_packs.specs.Stands.{Stands, KeepsOthers, KeepsAll};

use sqlite_disk::{Crash, Disk};
use std::io;

/// Writes bytes at an offset. They don't stand before a sync. What stood elsewhere still stands, even if the write fails.
pub fn put<D: Disk>(file: &mut D, at: usize, bytes: &[u8]) -> io::Result<()>
    requires { IsTrue (D.Disk.is_usable file.old) }
    ensures usable { IsTrue (D.Disk.is_usable file.new) }
    ensures clean { D.Disk.is_clean file.new ≡ D.Disk.is_clean file.old }
    ensures written { OnOk result (0 < length bytes.now → Holds (D.Disk.seen file.new) at bytes.now) }
    ensures elsewhere { (a : ℕ) (others : List ℕ) → a + length others ≤ at
        → Holds (D.Disk.seen file.old) a others → Holds (D.Disk.seen file.new) a others }
    ensures others { KeepsOthers D.Disk file.old file.new at (length bytes.now) }
    ensures faults { CountsFault result (D.Disk.faults file.old) (D.Disk.faults file.new) }
{
    file.write_at(at, bytes)
}

/// Syncs a file. What was written stands then. If it fails, nothing more may be asked of the file, and what stood still stands.
pub fn settle<D: Disk>(file: &mut D) -> io::Result<()>
    requires { IsTrue (D.Disk.is_usable file.old) }
    ensures usable { OnOk result (IsTrue (D.Disk.is_usable file.new)) }
    ensures clean { D.Disk.is_clean file.new ≡ D.Disk.is_clean file.old }
    ensures stands { OnOk result ((at : ℕ) (bytes : List ℕ) → Holds (D.Disk.seen file.old) at bytes
        → Stands D.Disk file.new at bytes) }
    ensures seen { D.Disk.seen file.new ≡ D.Disk.seen file.old }
    ensures others { KeepsAll D.Disk file.old file.new }
    ensures faults { CountsFault result (D.Disk.faults file.old) (D.Disk.faults file.new) }
{
    file.sync()
}

/// Reads the bytes at an offset, if the file is clean.
pub fn get<D: Disk>(file: &mut D, at: usize, room: &mut [u8]) -> io::Result<()>
    requires { IsTrue (D.Disk.is_usable file.old) }
    ensures usable { IsTrue (D.Disk.is_usable file.new) }
    ensures clean { IsTrue (D.Disk.is_clean file.new) → IsTrue (D.Disk.is_clean file.old) }
    ensures bytes { OnOk result (IsTrue (D.Disk.is_clean file.new) → (bytes : List ℕ) → Holds (D.Disk.seen file.old) at bytes
        → length bytes ≡ length room.old → room.new ≡ bytes) }
    ensures seen { D.Disk.seen file.new ≡ D.Disk.seen file.old }
    ensures others { KeepsAll D.Disk file.old file.new }
    ensures faults { CountsFaultIf (IsTrue (D.Disk.is_clean file.old) → at + length room.old ≤ length (D.Disk.seen file.old))
        result (D.Disk.faults file.old) (D.Disk.faults file.new) }
{
    file.read_at(at, room)
}

/// Ends a file at an offset. What stood below it still stands.
pub fn cut<D: Disk>(file: &mut D, end: usize) -> io::Result<()>
    requires { IsTrue (D.Disk.is_usable file.old) }
    ensures usable { IsTrue (D.Disk.is_usable file.new) }
    ensures clean { D.Disk.is_clean file.new ≡ D.Disk.is_clean file.old }
    ensures cut { OnOk result (length (D.Disk.seen file.new) ≡ end) }
    ensures below { (at : ℕ) (bytes : List ℕ) → at + length bytes ≤ end → Stands D.Disk file.old at bytes
        → Stands D.Disk file.new at bytes }
    ensures faults { CountsFault result (D.Disk.faults file.old) (D.Disk.faults file.new) }
{
    file.set_len(end)
}

/// How many bytes a file has, if it is clean.
pub fn measure<D: Disk>(file: &mut D) -> io::Result<usize>
    requires { IsTrue (D.Disk.is_usable file.old) }
    ensures usable { IsTrue (D.Disk.is_usable file.new) }
    ensures clean { IsTrue (D.Disk.is_clean file.new) → IsTrue (D.Disk.is_clean file.old) }
    ensures size { IfOk result (λ size. IsTrue (D.Disk.is_clean file.new) → size ≡ length (D.Disk.seen file.old)) }
    ensures others { KeepsAll D.Disk file.old file.new }
{
    file.len()
}

/// The machine stops and starts again. What stood still stands.
pub fn stop<D: Crash>(file: &mut D)
    ensures usable { IsTrue (D.Disk.is_usable file.new) }
    ensures clean { IsTrue (D.Disk.is_clean file.new) → IsTrue (D.Disk.is_clean file.old) }
    ensures others { KeepsAll D.Disk file.old file.new }
{
    file.crash();
}
