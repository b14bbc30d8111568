//! Laws of a host whose machine stops after an event or a group of them, each as the contract of a
//! function that does nothing.

ghost use Rattle.bh_again.specs.Stops.{AfterGroup, AfterReply, AfterStop, OpensSound, StaysSound};
ghost use Rattle.bh_again.specs.Stops.{AfterKeptGroup, AfterKeptReply, AfterKeptStop};

use bh_host::storage::Storage;
use bh_kept::{BlockSize, KeptHost};
use bh_schema::host::Digester;
use bh_shelf::shelf::Shelf;
use sqlite_disk::Crash;

/// An event is applied, the machine stops, and the files are opened again. The host then has the
/// tables before the event or after it, and after an event with a stamp those after it. It is at
/// rest.
pub fn after_stop<D: Crash, P: Shelf, G: Digester>()
    ensures { AfterStop D.Disk P.Shelf G G.digest_of }
{}

/// Events are applied together, the machine stops, and the files are opened again. If the last has a
/// stamp, the host has the tables after all of them, unless a crash may leave an earlier version's.
/// Else it has those that may remain: after the last with a stamp, or before all of them, or what a
/// commit of some since would have written. It is at rest.
pub fn after_group<D: Crash, P: Shelf, G: Digester>()
    ensures { AfterGroup D.Disk P.Shelf G G.digest_of }
{}

/// The reply to an event was sent, the machine stops, and the files are opened again. The host then
/// has the event's effect, even if a fault shut the store while the reply was read.
pub fn after_reply<D: Crash, P: Shelf, G: Digester>()
    ensures { AfterReply D.Disk P.Shelf G G.digest_of }
{}

/// Whatever an event does: if a crash before it would have left only sound tables, a crash after it
/// does too.
pub fn stays_sound<D: Crash, P: Shelf, G: Digester>()
    ensures { StaysSound D.Disk P.Shelf G G.digest_of }
{}

/// If a crash leaves only sound tables, an open after it finds only sound ones, and no host of an
/// earlier version.
pub fn opens_sound<D: Crash, P: Shelf, G: Digester>()
    ensures { OpensSound D.Disk P.Shelf G G.digest_of }
{}

/// The same of `after_stop`, for the host that is served: it is found with the tables that it showed
/// before an event or after it, unless it was lost over a backup.
pub fn after_kept_stop<'a, D: Crash + Drop, P: Shelf + Drop, G: Digester + Drop, K: BlockSize>()
    ensures { AfterKeptStop G.digest_of ⟦<KeptHost<'a, D, P, G, K> as Storage>⟧ }
{}

/// The same of `after_reply`, for the host that is served.
pub fn after_kept_reply<'a, D: Crash + Drop, P: Shelf + Drop, G: Digester + Drop, K: BlockSize>()
    ensures { AfterKeptReply G.digest_of ⟦<KeptHost<'a, D, P, G, K> as Storage>⟧ }
{}

/// The same of `after_group`, for the host that is served.
pub fn after_kept_group<'a, D: Crash + Drop, P: Shelf + Drop, G: Digester + Drop, K: BlockSize>()
    ensures { AfterKeptGroup G.digest_of ⟦<KeptHost<'a, D, P, G, K> as Storage>⟧ }
{}
