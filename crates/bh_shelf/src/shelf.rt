//! What the layers above ask of a host's packs.

ghost use Rattle.std.specs.Prelude.{◌≡◌, ◌≢◌, ◌+◌, ◌-◌, ◌<◌, ◌≤◌, ℕ, Bool, List, Some, length, IsTrue, IfOk, IfSome, OnOk, OnErr};
ghost use Rattle.bh_packs.specs.Sums.{sum_of};
ghost use Rattle.bh_shelf.specs.Contents.{Contents, Within, AreSameBut, EndsBy, HasNothing, Rises, KeepsHolds, KeepsHoldsBut};

use bh_packs::place::{Hold, Lane, Place};
use bh_packs::trouble::Trouble;

/// A host's packs: files that bytes are appended to, and that rows of its database name places of.
///
/// A commit is `sync`, the database's commit, `keep`. A transaction begins with `forget`: what was appended
/// for one that was rolled back is a gap then.
///
/// A shelf isn't clean once a file returned other bytes than it had and no code could tell. Then little is
/// said, but that what is read has the sum of its place.
pub trait Shelf {
    /// What the rows of an open transaction may name: all that was given a place since the last `forget` or
    /// `keep`, and what is kept.
    ghost seen: { Self → Contents };

    /// What stands: a crash leaves it.
    ghost stood: { Self → Contents };

    /// What the rows of the last commit may name.
    ghost kept: { Self → Contents };

    /// What packs may have after a crash at this moment.
    ghost may_leave: { Self → Contents → Type 0 };

    /// Up to where a pack was written. What is appended to it begins there, so the place of a gap is given
    /// no second time.
    ghost ends: { Self → ℕ → ℕ };

    /// How many hold a pack.
    ghost holds: { Self → ℕ → ℕ };

    /// No wrong answer of a pack's file was taken as true. It may fall at any call, and no call tells it. A
    /// pack that is removed doesn't make it true again.
    ghost is_clean: { Self → Bool };

    /// Appends bytes to a pack of this lane, and returns their place. It begins after all that was
    /// written to that pack. If it fails, nothing more is seen, and what was written in part is a gap.
    fn append(&mut self, lane: Lane, bytes: &[u8]) -> Result<Place, Trouble>
        ensures placed { IfOk result (λ place. 0 < length bytes.now
            → seen self.new place.pack place.offset place.size ≡ Some bytes.now) }
        ensures size { IfOk result (λ place. 0 < length bytes.now → place.size ≡ length bytes.now) }
        ensures sum { IfOk result (λ place. 0 < length bytes.now → place.sum ≡ sum_of bytes.now) }
        ensures apart { IfOk result (λ place. ends self.old place.pack ≤ place.offset) }
        ensures failed { OnErr result (IsTrue (is_clean self.new) → seen self.new ≡ seen self.old) }
        ensures seen { IsTrue (is_clean self.new) → Within (seen self.old) (seen self.new) }
        ensures ends { Rises (ends self.old) (ends self.new) }
        ensures kept { IsTrue (is_clean self.new) → kept self.new ≡ kept self.old }
        ensures stood { IsTrue (is_clean self.new) → Within (stood self.old) (stood self.new) }
        ensures clean { IsTrue (is_clean self.new) → IsTrue (is_clean self.old) }
        ensures holds { KeepsHolds (holds self.old) (holds self.new) };

    /// Syncs each pack that was appended to. All that is seen stands then. If it fails, some of it may not,
    /// and a pack whose sync failed takes no more calls.
    fn sync(&mut self) -> Result<(), Trouble>
        ensures stands { OnOk result (IsTrue (is_clean self.new) → Within (seen self.old) (stood self.new)) }
        ensures seen { IsTrue (is_clean self.new) → seen self.new ≡ seen self.old }
        ensures ends { Rises (ends self.old) (ends self.new) }
        ensures kept { IsTrue (is_clean self.new) → kept self.new ≡ kept self.old }
        ensures stood { IsTrue (is_clean self.new) → Within (stood self.old) (stood self.new) }
        ensures clean { IsTrue (is_clean self.new) → IsTrue (is_clean self.old) }
        ensures holds { KeepsHolds (holds self.old) (holds self.new) };

    /// The database committed: its rows may name all that is seen. Asks nothing of a file.
    fn keep(&mut self)
        requires { IsTrue (is_clean self.old) → Within (seen self.old) (stood self.old) }
        ensures ends { Rises (ends self.old) (ends self.new) }
        ensures kept { IsTrue (is_clean self.new) → kept self.new ≡ seen self.old }
        ensures seen { IsTrue (is_clean self.new) → seen self.new ≡ seen self.old }
        ensures stood { IsTrue (is_clean self.new) → Within (stood self.old) (stood self.new) }
        ensures clean { IsTrue (is_clean self.new) → IsTrue (is_clean self.old) }
        ensures holds { KeepsHolds (holds self.old) (holds self.new) };

    /// A transaction begins: what no committed row may name is a gap. Asks nothing of a file.
    fn forget(&mut self)
        ensures seen { IsTrue (is_clean self.new) → seen self.new ≡ kept self.old }
        ensures ends { Rises (ends self.old) (ends self.new) }
        ensures kept { IsTrue (is_clean self.new) → kept self.new ≡ kept self.old }
        ensures stood { IsTrue (is_clean self.new) → Within (stood self.old) (stood self.new) }
        ensures clean { IsTrue (is_clean self.new) → IsTrue (is_clean self.old) }
        ensures holds { KeepsHolds (holds self.old) (holds self.new) };

    /// Reads the bytes of a place. Bytes that don't have its sum are an error.
    fn read(&mut self, place: Place, room: &mut [u8]) -> Result<(), Trouble>
        requires { length room.old ≡ place.size }
        ensures tested { OnOk result (sum_of room.new ≡ place.sum) }
        ensures bytes { OnOk result (IsTrue (is_clean self.new) → (bytes : List ℕ)
            → seen self.old place.pack place.offset place.size ≡ Some bytes → room.new ≡ bytes) }
        ensures seen { IsTrue (is_clean self.new) → seen self.new ≡ seen self.old }
        ensures ends { Rises (ends self.old) (ends self.new) }
        ensures kept { IsTrue (is_clean self.new) → kept self.new ≡ kept self.old }
        ensures stood { IsTrue (is_clean self.new) → Within (stood self.old) (stood self.new) }
        ensures clean { IsTrue (is_clean self.new) → IsTrue (is_clean self.old) }
        ensures holds { KeepsHolds (holds self.old) (holds self.new) };

    /// Up to where a pack was synced: all that stands in it ends there or before. None if there is no such
    /// pack.
    fn mark(&self, pack: usize) -> Option<usize>
        ensures { IfSome result (λ mark. IsTrue (is_clean self.now) → EndsBy (stood self.now) pack mark) };

    /// Holds a pack: it can't be removed until this is given back.
    fn hold(&mut self, pack: usize) -> Result<Hold, Trouble>
        ensures held { IfOk result (λ hold. (hold.pack ≡ pack) × (holds self.new pack ≡ holds self.old pack + 1)) }
        ensures others { KeepsHoldsBut pack (holds self.old) (holds self.new) }
        ensures failed { OnErr result (KeepsHolds (holds self.old) (holds self.new)) }
        ensures seen { IsTrue (is_clean self.new) → seen self.new ≡ seen self.old }
        ensures ends { Rises (ends self.old) (ends self.new) }
        ensures kept { IsTrue (is_clean self.new) → kept self.new ≡ kept self.old }
        ensures stood { IsTrue (is_clean self.new) → Within (stood self.old) (stood self.new) }
        ensures clean { IsTrue (is_clean self.new) → IsTrue (is_clean self.old) };

    /// Gives a hold back.
    fn let_go(&mut self, hold: Hold)
        ensures held { holds self.new hold.pack ≡ holds self.old hold.pack - 1 }
        ensures others { KeepsHoldsBut hold.pack (holds self.old) (holds self.new) }
        ensures seen { IsTrue (is_clean self.new) → seen self.new ≡ seen self.old }
        ensures ends { Rises (ends self.old) (ends self.new) }
        ensures kept { IsTrue (is_clean self.new) → kept self.new ≡ kept self.old }
        ensures stood { IsTrue (is_clean self.new) → Within (stood self.old) (stood self.new) }
        ensures clean { IsTrue (is_clean self.new) → IsTrue (is_clean self.old) };

    /// Removes a pack that nobody holds, and its file. If the file can't be removed, that is an error, and
    /// the pack is gone all the same: the next opening removes its file.
    fn remove(&mut self, pack: usize) -> Result<(), Trouble>
        ensures gone { OnOk result (HasNothing (seen self.new) pack) }
        ensures unheld { OnOk result (holds self.old pack ≡ 0) }
        ensures held { 0 < holds self.old pack → IsTrue (is_clean self.new) → seen self.new ≡ seen self.old }
        ensures seen { IsTrue (is_clean self.new) → AreSameBut pack (seen self.new) (seen self.old) }
        ensures ends { (n : ℕ) → n ≢ pack → ends self.old n ≤ ends self.new n }
        ensures kept { IsTrue (is_clean self.new) → AreSameBut pack (kept self.new) (kept self.old) }
        ensures stood { IsTrue (is_clean self.new) → AreSameBut pack (stood self.new) (stood self.old) }
        ensures clean { IsTrue (is_clean self.new) → IsTrue (is_clean self.old) }
        ensures holds { KeepsHoldsBut pack (holds self.old) (holds self.new) };

    /// What is kept is seen.
    ghost kept_seen: { (shelf : Self) → Within (kept shelf) (seen shelf) };

    /// All that is seen of a pack is written.
    ghost seen_ends: { (shelf : Self) (pack : ℕ) → EndsBy (seen shelf) pack (ends shelf pack) };

    /// What is kept stands.
    ghost kept_stands: { (shelf : Self) → Within (kept shelf) (stood shelf) };

    /// A crash leaves what stands.
    ghost leaves_standing: { (shelf : Self) (left : Contents) → IsTrue (is_clean shelf) → may_leave shelf left
        → Within (stood shelf) left };

    /// A process that dies may leave all that is seen.
    ghost may_stay: { (shelf : Self) → IsTrue (is_clean shelf) → (left : Contents) × may_leave shelf left × Within (seen shelf) left };
}
