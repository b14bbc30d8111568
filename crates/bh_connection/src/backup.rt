//! A storage that can be copied between two events.

ghost use Rattle.std.specs.Prelude.{◌≡◌, Bool, IfSome};
ghost use Rattle.bh_tables.specs.Typed.{Tables};
ghost use Rattle.bh_storage.specs.Calls.{Clean, IsAtRest};
ghost use Rattle.bh_connection.specs.Backups.{IsBackedUp, unneeded_of};
ghost use Rattle.bh_connection.specs.Connections.{IsTakenBack};

use bh_host::storage::Storage;

/// The reply if a copy was made and synced.
const BACKUP: &[u8] = b"backup";

/// The reply if no backup was made, or if the host was lost over it.
const FAULT: &[u8] = b"fault";

/// How many blocks a host read from its cache in memory, and how many from their rows, since it was
/// opened. Nothing depends on it, and no contract speaks of it.
#[derive(Clone, Copy)]
pub struct CacheUses {
    pub hits: u64,
    pub misses: u64,
}

/// A storage that can be copied to a new file, and tells how many bytes nobody needs. Its packs are files
/// beside its tables.
pub trait BackUp: Storage {
    /// A copy.
    type Copy: Drop;

    /// The tables that a copy has when it is opened, even after a crash.
    ghost shows: { Self.Copy → Tables → Type 0 };

    /// It was closed to be copied, and could not be reopened: from then on every call fails.
    ghost lost: { Self → Bool };

    fn is_lost(&self) -> bool
        ensures { result ≡ lost self.now };

    /// How its cache of blocks was used.
    fn cache_uses(&self) -> CacheUses;

    /// Copies the committed tables to a new file of this name, and syncs it. `None` if the name is
    /// taken, the copy fails, or the storage can't be reopened: the cause is on standard error.
    fn back_up(&mut self, to: &str) -> Option<Self::Copy>
        requires { Clean Self.IsIntact Self.IsOpen self.old → IsAtRest Self.IsSoundStore (Self.seen self.old) }
        ensures intact { Self.IsIntact self.new → Self.IsIntact self.old }
        ensures stays { IsTakenBack Self.IsIntact Self.IsOpen Self.seen Self.left self.old self.new }
        ensures ready { Clean Self.IsIntact Self.IsOpen self.new → IsAtRest Self.IsSoundStore (Self.seen self.new) }
        ensures limits { (Self.seen self.new).limits ≡ (Self.seen self.old).limits }
        ensures copied { IfSome result (λ copy. Self.IsIntact self.new → shows copy (Self.seen self.old).now) };

    /// How many bytes the blocks have that no reference names. `None` if memory or the store failed.
    fn unneeded(&mut self) -> Option<u64>
        requires { Clean Self.IsIntact Self.IsOpen self.old → IsAtRest Self.IsSoundStore (Self.seen self.old) }
        ensures intact { Self.IsIntact self.new → Self.IsIntact self.old }
        ensures stays { IsTakenBack Self.IsIntact Self.IsOpen Self.seen Self.left self.old self.new }
        ensures ready { Clean Self.IsIntact Self.IsOpen self.new → IsAtRest Self.IsSoundStore (Self.seen self.new) }
        ensures limits { (Self.seen self.new).limits ≡ (Self.seen self.old).limits }
        ensures lost { lost self.new ≡ lost self.old }
        ensures counted { IfSome result (λ n. Clean Self.IsIntact Self.IsOpen self.new → n ≡ unneeded_of (Self.seen self.old).now) };

    /// Removes packs of which no byte is named any more, as after a sweep, and empties one of which little is
    /// named by a step. Returns how many packs and blocks that were, 0 if nothing was left to do. No table
    /// shows it. `None` if memory or the store failed: the cause is on standard error.
    fn drop_packs(&mut self) -> Option<u64>
        requires { Clean Self.IsIntact Self.IsOpen self.old → IsAtRest Self.IsSoundStore (Self.seen self.old) }
        ensures intact { Self.IsIntact self.new → Self.IsIntact self.old }
        ensures stays { IsTakenBack Self.IsIntact Self.IsOpen Self.seen Self.left self.old self.new }
        ensures ready { Clean Self.IsIntact Self.IsOpen self.new → IsAtRest Self.IsSoundStore (Self.seen self.new) }
        ensures limits { (Self.seen self.new).limits ≡ (Self.seen self.old).limits }
        ensures lost { lost self.new ≡ lost self.old };
}

/// Copies a storage, and returns the reply.
pub(crate) fn backup_reply<H: BackUp>(host: &mut H, to: &str) -> &'static [u8]
    requires { Clean H.IsIntact H.IsOpen host.old → IsAtRest H.IsSoundStore (H.seen host.old) }
    ensures intact { H.IsIntact host.new → H.IsIntact host.old }
    ensures ready { Clean H.IsIntact H.IsOpen host.new → IsAtRest H.IsSoundStore (H.seen host.new) }
    ensures limits { (H.seen host.new).limits ≡ (H.seen host.old).limits }
    ensures backed_up { IsBackedUp H.IsIntact H.IsOpen H.seen H.left H.shows result.now host.old host.new }
{
    match host.back_up(to) {
        Some(_) => BACKUP,
        None => FAULT,
    }
}
