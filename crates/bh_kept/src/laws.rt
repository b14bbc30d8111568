//! What a crash leaves of a host beneath its storages, as the contract of a function that does
//! nothing.

ghost use Rattle.bh_kept.specs.Over.{RecallingStandsOver, KeptStandsOver};

use crate::host::{BlockSize, KeptHost};
use bh_dispatch::sql_host::SqlHost;
use bh_host::storage::Storage;
use bh_schema::host::Digester;
use bh_shelf::shelf::Shelf;
use sqlite::FileStore;
use sqlite_disk::Disk;

/// A storage that remembers facts and one that is served stand over their host: a crash leaves of
/// them what it may leave of the host, and at rest they show what the host shows.
pub fn stands_over<'a, D: Disk + Drop, P: Shelf + Drop, G: Digester + Drop, K: BlockSize>()
    ensures recalling { RecallingStandsOver P.Shelf ⟦<SqlHost<FileStore<D>, P, G> as Storage>⟧ }
    ensures kept { KeptStandsOver P.Shelf ⟦<KeptHost<'a, D, P, G, K> as Storage>⟧ }
{}
