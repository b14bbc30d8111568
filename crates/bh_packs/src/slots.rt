//! What calls do to the slot of one pack, which may be empty.

ghost use Rattle.std.specs.Prelude.{◌≡◌, ◌+◌, ◌-◌, ◌<◌, ◌≤◌, ◌↔◌, ℕ, List, length, IsTrue};
ghost use Rattle.std.specs.Prelude.{IfOk, OnOk, OnErr};
ghost use Rattle.bh_packs.specs.Sums.{sum_of};
ghost use Rattle.bh_packs.specs.Packs.{end_in, holds_in, IsOfLane, IsFileIn, IsCleanIn, IsSettled, IsSettledIn, IsWrittenIn, KeepsPack};

use crate::pack::Pack;
use crate::place::Lane;
use crate::trouble::Trouble;
use sqlite_disk::Disk;

/// Puts a pack into an empty slot.
pub(crate) fn put_in<D: Disk + Drop>(
    slot: &mut Option<Pack<D>>,
    pack: Pack<D>,
) -> Result<(), Trouble>
    requires { pack.holds ≡ 0 }
    ensures settled { OnOk result ((at : ℕ) (bytes : List ℕ) → IsSettled D.Disk pack at bytes
        → IsSettledIn D.Disk slot.new at bytes) }
    ensures end { OnOk result (end_in slot.new ≡ pack.end) }
    ensures lane { OnOk result (IsOfLane slot.new pack.lane) }
    ensures clean { OnOk result (IsCleanIn D.Disk slot.new → IsTrue (D.Disk.is_clean pack.disk)) }
    ensures keeps { KeepsPack D.Disk slot.old slot.new }
    ensures holds { holds_in slot.new ≡ holds_in slot.old }
{
    match slot {
        Some(_) => Err(Trouble::Taken),
        None => {
            *slot = Some(pack);
            Ok(())
        }
    }
}

/// Appends bytes, if the pack is of this lane and has at most so many bytes then.
pub(crate) fn append_in<D: Disk>(
    slot: &mut Option<Pack<D>>,
    lane: Lane,
    most: usize,
    bytes: &[u8],
) -> Result<usize, Trouble>
    ensures written { IfOk result (λ at. 0 < length bytes.now → IsWrittenIn D.Disk slot.new at bytes.now) }
    ensures offset { IfOk result (λ at. at ≡ end_in slot.old) }
    ensures lane { OnOk result (IsOfLane slot.new lane) }
    ensures keeps { KeepsPack D.Disk slot.old slot.new }
    ensures holds { holds_in slot.new ≡ holds_in slot.old }
{
    let Some(pack) = slot else {
        return Err(Trouble::Missing);
    };
    if !pack.takes(lane, bytes.len(), most) {
        return Err(Trouble::Full);
    }
    pack.append(bytes)
}

/// Syncs the pack, if there is one.
pub(crate) fn sync_in<D: Disk>(slot: &mut Option<Pack<D>>) -> Result<(), Trouble>
    ensures settled { OnOk result ((at : ℕ) (bytes : List ℕ) → IsWrittenIn D.Disk slot.old at bytes
        → IsSettledIn D.Disk slot.new at bytes) }
    ensures keeps { KeepsPack D.Disk slot.old slot.new }
    ensures holds { holds_in slot.new ≡ holds_in slot.old }
{
    match slot {
        Some(pack) => pack.sync(),
        None => Ok(()),
    }
}

/// Reads the bytes at an offset that have this sum.
pub(crate) fn read_in<D: Disk>(
    slot: &mut Option<Pack<D>>,
    at: usize,
    sum: u64,
    room: &mut [u8],
) -> Result<(), Trouble>
    ensures tested { OnOk result (sum_of room.new ≡ sum) }
    ensures bytes { OnOk result (IsCleanIn D.Disk slot.new → (bytes : List ℕ) → IsWrittenIn D.Disk slot.old at bytes
        → length bytes ≡ length room.old → room.new ≡ bytes) }
    ensures within { OnOk result (at + length room.old ≤ end_in slot.old) }
    ensures keeps { KeepsPack D.Disk slot.old slot.new }
    ensures holds { holds_in slot.new ≡ holds_in slot.old }
{
    match slot {
        Some(pack) => pack.read(at, sum, room),
        None => Err(Trouble::Missing),
    }
}

/// Reads the bytes at an offset, which no sum tests.
pub(crate) fn peek_in<D: Disk>(
    slot: &mut Option<Pack<D>>,
    at: usize,
    room: &mut [u8],
) -> Result<(), Trouble>
    ensures bytes { OnOk result (IsCleanIn D.Disk slot.new → (bytes : List ℕ) → IsWrittenIn D.Disk slot.old at bytes
        → length bytes ≡ length room.old → room.new ≡ bytes) }
    ensures within { OnOk result (at + length room.old ≤ end_in slot.old) }
    ensures keeps { KeepsPack D.Disk slot.old slot.new }
    ensures holds { holds_in slot.new ≡ holds_in slot.old }
{
    match slot {
        Some(pack) => pack.peek(at, room),
        None => Err(Trouble::Missing),
    }
}

/// Counts one more hold.
pub(crate) fn hold_in<D: Disk>(slot: &mut Option<Pack<D>>) -> Result<(), Trouble>
    ensures held { OnOk result (holds_in slot.new ≡ holds_in slot.old + 1) }
    ensures failed { OnErr result (holds_in slot.new ≡ holds_in slot.old) }
    ensures keeps { KeepsPack D.Disk slot.old slot.new }
{
    let Some(pack) = slot else {
        return Err(Trouble::Missing);
    };
    if pack.holds == usize::MAX {
        return Err(Trouble::Full);
    }
    pack.holds += 1;
    Ok(())
}

/// Counts one hold less.
pub(crate) fn let_go_in<D: Disk>(slot: &mut Option<Pack<D>>)
    ensures held { holds_in slot.new ≡ holds_in slot.old - 1 }
    ensures keeps { KeepsPack D.Disk slot.old slot.new }
{
    if let Some(pack) = slot {
        pack.holds = pack.holds.saturating_sub(1);
    }
}

/// Takes out a pack that nobody holds, and returns its file.
pub(crate) fn remove_in<D: Disk + Drop>(slot: &mut Option<Pack<D>>) -> Result<D, Trouble>
    ensures ok { OnOk result ((holds_in slot.old ≡ 0) × (slot.new ≡ None)) }
    ensures file { IfOk result (λ file. IsFileIn slot.old file) }
    ensures err { OnErr result (slot.new ≡ slot.old) }
{
    if is_held(slot) {
        return Err(Trouble::Held);
    }
    match slot.take() {
        Some(pack) => Ok(pack.into_file()),
        None => Err(Trouble::Missing),
    }
}

/// Whether someone holds the pack.
fn is_held<D>(slot: &Option<Pack<D>>) -> bool
    ensures { IsTrue result ↔ (0 < holds_in slot.now) }
{
    match slot {
        Some(pack) => pack.holds > 0,
        None => false,
    }
}
