ghost use Rattle.std.specs.Prelude.{◌≡◌, ◌≤◌, None, IfSome};
ghost use Rattle.bh_machine.specs.Machine.{operated};
ghost use Rattle.bh_view.specs.Bodies.{IsSoundHost};
ghost use Rattle.bh_view.specs.View.{latest_of};
ghost use Rattle.bh_host.specs.Offers.{offer_view, responded};
ghost use Rattle.bh_storage.specs.Calls.{Clean, IsWorking, IsAtRest, StaysAtWork, UnlessSpoilt, Operates};
ghost use Rattle.bh_storage.specs.Plans.{IsMeasured};
ghost use Rattle.bh_host.specs.Offers.{IfPlanned};
ghost use Rattle.bh_connection.specs.Connections.{IsTakenBack};
ghost use Rattle.bh_kept.specs.Kept as kept;
ghost use Rattle.bh_kept.specs.Cutting.{Cuts, KeepsTuning};

use crate::copying::{KeptCopy, copy_host};
use crate::counting::{count, told};
use crate::freeing::drop_idle;
use crate::host::{BlockSize, KeptHost};
use bh_cache::blocks::BlockCache;
use bh_connection::{BackUp, CacheUses};
use bh_dispatch::sql_host::SqlHost;
use bh_event::order::HostOrder;
use bh_file::HostFile;
use bh_host::offer::Offer;
use bh_host::storage::Storage;
use bh_http::body::Body;
use bh_memo::memo::Memo;
use bh_operation::operation::Operation;
use bh_schema::host::{Digester, Host};
use bh_shelf::copied::CopyShelf;
use bh_shelf::shelf::Shelf;
use bh_storage::error::{Outcome, StepError, Trouble};
use bh_storage::plan::Plan;
use bh_types::access_key::AccessKeyId;
use bh_types::limits::Limits;
use bh_types::moment::Moment;
use bh_types::names::TenantName;
use bh_types::refusal::Refusal;
use bh_types::rejection::Rejection;
use sqlite::{FileStore, Wary};
use sqlite_disk::Disk;
use std::alloc::Global;

/// Each call is the host's. After the host was lost, each call fails as if the store had failed.
impl<'a, D: Disk + Drop, P: Shelf + Drop, G: Digester + Drop, K: BlockSize> Storage
    for KeptHost<'a, D, P, G, K> {
    ghost seen = { λ h. kept.seen P.Shelf h.limits h.storage };

    ghost IsIntact = { λ h. kept.IsIntact P.Shelf h.storage };

    ghost IsOpen = { λ h. kept.IsOpen P.Shelf h.storage };

    ghost IsSoundStore = { IsSoundHost G.digest_of };

    ghost left = { λ h. kept.left P.Shelf h.storage };

    fn limits(&self) -> Limits {
        match &self.storage {
            Some(storage) => storage.limits(),
            None => self.limits,
        }
    }

    fn begin(&mut self) -> Result<(), Trouble> {
        match &mut self.storage {
            Some(storage) => storage.begin(),
            None => Err(Trouble::Store),
        }
    }

    fn commit(&mut self) -> Result<(), Trouble> {
        match &mut self.storage {
            Some(storage) => storage.commit(),
            None => Err(Trouble::Store),
        }
    }

    fn take_back(&mut self) {
        match &mut self.storage {
            Some(storage) => storage.take_back(),
            None => {}
        }
    }

    fn stamp(&mut self, reading: u64) -> Result<Moment, Trouble> {
        match &mut self.storage {
            Some(storage) => storage.stamp(reading),
            None => Err(Trouble::Store),
        }
    }

    fn purge(&mut self, alloc: Global, tenant: &TenantName, at: Moment) -> Result<(), Trouble> {
        match &mut self.storage {
            Some(storage) => storage.purge(alloc, tenant, at),
            None => Err(Trouble::Store),
        }
    }

    fn authenticate(
        &mut self,
        alloc: Global,
        key: &AccessKeyId,
        secret: &[u8],
    ) -> Result<(), StepError<Refusal>> {
        match &mut self.storage {
            Some(storage) => storage.authenticate(alloc, key, secret),
            None => Err(StepError::Failed(Trouble::Store)),
        }
    }

    fn operate<B: Body>(
        &mut self,
        alloc: Global,
        tenant: &TenantName,
        at: Moment,
        operation: &Operation,
        body: &mut B,
    ) -> Result<Outcome<Offer, Rejection>, StepError<Rejection>>
        requires going { (B.coming body.old).broken ≡ None }
        requires working { Clean (λ h. kept.IsIntact P.Shelf h.storage) (λ h. kept.IsOpen P.Shelf h.storage) self.old
            → IsWorking (IsSoundHost G.digest_of) (kept.seen P.Shelf self.old.limits self.old.storage) }
        requires early { Clean (λ h. kept.IsIntact P.Shelf h.storage) (λ h. kept.IsOpen P.Shelf h.storage) self.old
            → at ≤ latest_of (kept.seen P.Shelf self.old.limits self.old.storage).now }
        ensures goes_on { StaysAtWork (λ h. kept.IsIntact P.Shelf h.storage) (λ h. kept.IsOpen P.Shelf h.storage) (IsSoundHost G.digest_of)
            (λ h. kept.seen P.Shelf h.limits h.storage) (λ h. kept.left P.Shelf h.storage) (UnlessSpoilt result) self.old self.new }
        ensures operates { Operates (offer_view (kept.seen P.Shelf self.new.limits self.new.storage).now) tenant.now
            (λ given s. responded (operated (kept.seen P.Shelf self.old.limits self.old.storage).limits at given operation.now s))
            (Clean (λ h. kept.IsIntact P.Shelf h.storage) (λ h. kept.IsOpen P.Shelf h.storage) self.new)
            (B.coming body.old) (B.coming body.new)
            (kept.seen P.Shelf self.old.limits self.old.storage).now (kept.seen P.Shelf self.new.limits self.new.storage).now result }
        ensures measured { IfPlanned result (λ found.
            Clean (λ h. kept.IsIntact P.Shelf h.storage) (λ h. kept.IsOpen P.Shelf h.storage) self.new
            → IsMeasured (kept.seen P.Shelf self.new.limits self.new.storage).now found) }
        ensures cuts { Cuts P.Shelf G.digest_of K.size operation.now (B.coming body.old) (B.coming body.new)
            self.old.storage self.new.storage result }
    {
        let size = self.block_size;
        match &mut self.storage {
            Some(storage) => storage.operate_in_blocks(size, alloc, tenant, at, operation, body),
            None => Err(StepError::Failed(Trouble::Store)),
        }
    }

    fn next_piece(&mut self, alloc: Global, plan: &mut Plan) -> Result<Option<Vec<u8>>, Trouble> {
        match &mut self.storage {
            Some(storage) => storage.next_piece(alloc, plan),
            None => Err(Trouble::Store),
        }
    }

    /// What packs have is told on standard error beside a report.
    fn order(
        &mut self,
        alloc: Global,
        at: Moment,
        order: &HostOrder,
    ) -> Result<String, StepError<Refusal>> {
        match &mut self.storage {
            Some(storage) => {
                let carried = storage.carry_out(alloc, at, order)?;
                Ok(told(self.rt, carried))
            }
            None => Err(StepError::Failed(Trouble::Store)),
        }
    }
}

impl<'a, D: Disk + Drop, P: CopyShelf + Drop, G: Digester + Drop, K: BlockSize> BackUp
    for KeptHost<'a, D, P, G, K> {
    type Copy = KeptCopy<P::Copy>;

    ghost shows = { λ copy. kept.Shows ⟦<HostFile<Wary> as Disk>⟧ P.Copy.Shelf copy.file copy.packs };

    ghost lost = { λ h. kept.is_lost h.storage };

    fn is_lost(&self) -> bool {
        self.storage.is_none()
    }

    /// Those of the cache that it has now: a backup begins with an empty one.
    fn cache_uses(&self) -> CacheUses {
        match &self.storage {
            Some(storage) => CacheUses {
                hits: storage.host.cache.hits(),
                misses: storage.host.cache.misses(),
            },
            None => CacheUses { hits: 0, misses: 0 },
        }
    }

    fn back_up(&mut self, to: &str) -> Option<KeptCopy<P::Copy>>
        requires { Clean (λ h. kept.IsIntact P.Shelf h.storage) (λ h. kept.IsOpen P.Shelf h.storage) self.old
            → IsAtRest (IsSoundHost G.digest_of) (kept.seen P.Shelf self.old.limits self.old.storage) }
        ensures intact { kept.IsIntact P.Shelf self.new.storage → kept.IsIntact P.Shelf self.old.storage }
        ensures stays { IsTakenBack (λ h. kept.IsIntact P.Shelf h.storage) (λ h. kept.IsOpen P.Shelf h.storage)
            (λ h. kept.seen P.Shelf h.limits h.storage) (λ h. kept.left P.Shelf h.storage) self.old self.new }
        ensures ready { Clean (λ h. kept.IsIntact P.Shelf h.storage) (λ h. kept.IsOpen P.Shelf h.storage) self.new
            → IsAtRest (IsSoundHost G.digest_of) (kept.seen P.Shelf self.new.limits self.new.storage) }
        ensures limits { (kept.seen P.Shelf self.new.limits self.new.storage).limits
            ≡ (kept.seen P.Shelf self.old.limits self.old.storage).limits }
        ensures copied { IfSome result (λ copy. kept.IsIntact P.Shelf self.new.storage
            → kept.Shows ⟦<HostFile<Wary> as Disk>⟧ P.Copy.Shelf copy.file copy.packs
            (kept.seen P.Shelf self.old.limits self.old.storage).now) }
        ensures tuned { KeepsTuning self.old.storage self.new.storage }
    {
        let SqlHost { host, memo: _ } = self.storage.take()?;
        let Host {
            connection,
            digester,
            limits,
            cache,
        } = host;
        self.limits = limits;
        let (copy, connection) = copy_host(self.rt, connection, to)?;
        self.storage = Some(SqlHost {
            host: Host {
                connection,
                digester,
                limits,
                cache: BlockCache::new(cache.tuning()),
            },
            memo: Memo::new(self.rt.alloc()),
        });
        copy
    }

    fn unneeded(&mut self) -> Option<u64> {
        match &mut self.storage {
            Some(it) => count(&mut it.host.connection),
            None => None,
        }
    }

    fn drop_packs(&mut self) -> Option<u64> {
        match &mut self.storage {
            Some(it) => drop_idle(self.rt, &mut it.host.connection),
            None => None,
        }
    }
}
