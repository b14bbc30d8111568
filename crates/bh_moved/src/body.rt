//! Copies a body from one host to another.

ghost use Rattle.std.specs.Prelude.{◌<◌, ◌^◌, List, OnOk};
ghost use Rattle.bh_tables.specs.Typed.{BlockRow};
ghost use Rattle.bh_view.specs.Blocks.{whole};
ghost use Rattle.bh_view.specs.Bodies.{HasBodies, pieces, body_stored};
ghost use Rattle.bh_cache.specs.Kept.{Agrees, AreCopies};
ghost use Rattle.bh_base.specs.Connections.{IsClean, tables, InTransaction, Becomes};
ghost use Rattle.bh_schema.specs.Calls.{Reads, Writes};

use crate::moving::Moving;
use bh_base::connection::Connection;
use bh_blocks::bodies::store_body;
use bh_blocks::reading::read_body;
use bh_cache::blocks::BlockCache;
use bh_schema::host::Digester;
use bh_shelf::shelf::Shelf;
use bh_types::checksum::digest_of;
use bh_types::limits::{DEFAULT_BLOCK_SIZE, Tuning};
use bh_types::range::RangePlan;
use sqlite::{Alter, Error};

/// An empty cache, which fits any host.
fn no_blocks() -> BlockCache
    ensures agrees { (blocks : List BlockRow) → Agrees result blocks }
    ensures copies { (blocks : List BlockRow) → AreCopies result blocks }
{
    BlockCache::new(Tuning {
        block_size: DEFAULT_BLOCK_SIZE,
        cache_blocks: 0,
    })
}

/// Stores the body of this name of another host's tenant.
pub fn bring_body<S: Alter, P: Shelf, T: Alter, Q: Shelf, D: Digester>(
    from: &mut Connection<S, P>,
    to: &mut Connection<T, Q>,
    moving: &Moving<'_, D>,
    body: u64,
) -> Result<(), Error>
    requires reading { InTransaction S.Store P.Shelf from.old }
    requires inside { InTransaction T.Store Q.Shelf to.old }
    requires small { body < 2 ^ 63 }
    ensures reads { Reads S.Store P.Shelf from.old from.new result }
    ensures writes { Writes T.Store Q.Shelf to.old to.new result }
    ensures stored { OnOk result (IsClean S.Store P.Shelf from.new → HasBodies (tables S.Store P.Shelf from.old)
        → Becomes T.Store Q.Shelf to.old to.new
        (body_stored D.digest_of (moving.now.tenant.now, body) 0 (pieces moving.now.block_size
        (whole (tables S.Store P.Shelf from.old).refs (tables S.Store P.Shelf from.old).blocks (moving.now.tenant.now, body))))) }
{
    let mut read = no_blocks();
    let bytes = read_body(
        from,
        &mut read,
        moving.alloc,
        moving.tenant,
        body,
        RangePlan::Whole,
    )?;
    let digest = digest_of(&bytes);
    let known = no_blocks();
    store_body(
        to,
        &known,
        moving.alloc,
        moving.digester,
        moving.block_size,
        moving.tenant,
        body,
        &bytes,
        &digest,
    )?;
    Ok(())
}
