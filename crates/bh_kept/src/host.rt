//! A host in files, for as long as it can be opened.

ghost use Rattle.std.specs.Prelude.{◌≡◌, ◌≤◌, ℕ, Some, option_map};
ghost use Rattle.bh_memo.specs.Facts.{nothing};

use bh_base::connection::Connection as Joined;
use bh_dispatch::sql_host::SqlHost;
use bh_schema::host::{Digester, Host};
use bh_shelf::shelf::Shelf;
use bh_types::limits::Limits;
use sqlite::{Connection, FileStore};
use sqlite_disk::Disk;
use std::marker::{Brand, PhantomData};

/// The size of blocks in bytes, as a type: a host of this type can't change it.
pub trait BlockSize {
    ghost size: { ℕ };
}

/// A call with this type chooses the size.
impl BlockSize for Brand {
    ghost size = { 1 };
}

/// A host in files. A backup closes them; if the host can't be reopened then, it is lost. All bodies
/// are cut into blocks of the size of `K`.
#[derive(Drop)]
pub struct KeptHost<'a, D: Disk + Drop, P: Shelf + Drop, G: Digester + Drop, K: BlockSize> {
    pub(crate) rt: &'a HostRuntime,
    /// The host, until it is lost.
    pub storage: Option<SqlHost<FileStore<D>, P, G>>,
    /// The limits that it was created with.
    pub limits: Limits,
    pub(crate) block_size: u64,
    pub(crate) size: PhantomData<K>,
    ghost size_is: { block_size ≡ K.size },
    ghost size_positive: { 1 ≤ block_size },
}

impl<'a, D, P, G, K> KeptHost<'a, D, P, G, K>
where
    D: Disk + Drop,
    P: Shelf + Drop,
    G: Digester + Drop,
    K: BlockSize,
{
    /// A host that is in its files, with the block size of its settings.
    pub fn new(rt: &'a HostRuntime, host: Host<FileStore<D>, P, G>) -> KeptHost<'a, D, P, G, K>
        requires { host.cache.tuning.block_size ≡ K.size }
        ensures { result.storage ≡ Some (record { host = host; memo = nothing }) }
    {
        let tuning = host.cache.tuning();
        KeptHost {
            rt,
            limits: host.limits,
            storage: Some(SqlHost::new(rt.alloc(), host)),
            block_size: tuning.block_size,
            size: PhantomData,
        }
    }

    /// The host's database, unless the host was lost.
    pub fn into_connection(self) -> Option<Connection<FileStore<D>>>
        ensures { result ≡ option_map (λ it. it.host.connection.database) self.entry.storage }
    {
        let KeptHost {
            rt: _,
            storage,
            limits: _,
            block_size: _,
            size: _,
        } = self;
        match storage {
            Some(kept) => {
                let Joined { database, packs: _ } = kept.host.into_connection();
                Some(database)
            }
            None => None,
        }
    }
}
