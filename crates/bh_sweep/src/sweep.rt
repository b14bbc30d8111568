//! A sweep.
ghost use Rattle.std.specs.Prelude.{◌≡◌, not, ◌&&◌, length, IfOk, OnOk};
ghost use Rattle.bh_model.specs.State.{Octets};
ghost use Rattle.bh_model.specs.Runs.{purged_tenant};
ghost use Rattle.bh_tables.specs.Shown.{unreferenced};
ghost use Rattle.bh_view.specs.Becomes.{KeepsBodies};
ghost use Rattle.bh_view.specs.Blocks.{AreDigests};
ghost use Rattle.bh_view.specs.Sweep.{uploads_swept, blocks_swept, without_blocks, swept, is_complete};
ghost use Rattle.bh_view.specs.View.{view};
ghost use Rattle.bh_base.specs.Connections.{IsClean, tables, InTransaction, StaysWithin, StaysOpen};
ghost use Rattle.bh_cache.specs.Kept.{Agrees};
ghost use Rattle.bh_schema.specs.Working.{Works, StillWorksBy};

use bh_base::connection::Connection;
use bh_blocks::removal::{any_unreferenced, remove_unreferenced};
use bh_cache::blocks::BlockCache;
use bh_schema::trouble::or_trouble;
use bh_shelf::shelf::Shelf;
use bh_storage::error::Trouble;
use bh_storage::report::SweepReport;
use bh_types::moment::Moment;
use bh_uploads::stale::{any_stale, remove_stale};
use sqlite::Alter;
use std::alloc::Global;

/// Deletes the first unreferenced blocks, removes them from the cache, and returns how many.
fn remove_blocks<S: Alter, P: Shelf>(
    connection: &mut Connection<S, P>,
    cache: &mut BlockCache,
    limit: u32,
) -> Result<u32, Trouble>
    requires { Works S.Store P.Shelf connection.old }
    ensures within { StaysWithin S.Store P.Shelf connection.old connection.new }
    ensures opens { OnOk result (StaysOpen S.Store P.Shelf connection.old connection.new) }
    ensures inside { OnOk result (InTransaction S.Store P.Shelf connection.new) }
    ensures removed { OnOk result (IsClean S.Store P.Shelf connection.new → tables S.Store P.Shelf connection.new ≡ without_blocks
        (unreferenced limit (tables S.Store P.Shelf connection.old).refs (tables S.Store P.Shelf connection.old).blocks)
        (tables S.Store P.Shelf connection.old)) }
    ensures count { IfOk result (λ count. IsClean S.Store P.Shelf connection.new
        → count ≡ length (unreferenced limit (tables S.Store P.Shelf connection.old).refs (tables S.Store P.Shelf connection.old).blocks)) }
    ensures keeps { (digest : Octets → Octets) → OnOk result (IsClean S.Store P.Shelf connection.new
        → AreDigests digest (tables S.Store P.Shelf connection.old).blocks
        → KeepsBodies digest (tables S.Store P.Shelf connection.old) (tables S.Store P.Shelf connection.new)) }
    ensures kept { OnOk result (IsClean S.Store P.Shelf connection.new
        → Agrees cache.old (tables S.Store P.Shelf connection.old).blocks
        → Agrees cache.new (tables S.Store P.Shelf connection.new).blocks) }
{
    let removed = or_trouble(remove_unreferenced(connection, cache, limit))?;
    let Ok(count) = u32::try_from(removed) else {
        return Err(Trouble::Store);
    };
    Ok(count)
}

fn neither(stale: bool, left: bool) -> bool
    ensures { result ≡ (not stale && not left) }
{
    !stale && !left
}

/// Removes the first `limit` of what is due at a moment. First come stale uploads of all tenants
/// with their parts, by tenant and number; then unreferenced blocks, by digest and ordinal. These
/// are removed from the cache too.
pub fn sweep<S: Alter, P: Shelf>(
    connection: &mut Connection<S, P>,
    cache: &mut BlockCache,
    alloc: Global,
    at: Moment,
    limit: u32,
) -> Result<SweepReport, Trouble>
    requires { Works S.Store P.Shelf connection.old }
    ensures within { StaysWithin S.Store P.Shelf connection.old connection.new }
    ensures opens { OnOk result (StaysOpen S.Store P.Shelf connection.old connection.new) }
    ensures swept { OnOk result (IsClean S.Store P.Shelf connection.new
        → tables S.Store P.Shelf connection.new ≡ swept at limit (tables S.Store P.Shelf connection.old)) }
    ensures uploads { IfOk result (λ report. IsClean S.Store P.Shelf connection.new
        → report.uploads ≡ length (uploads_swept at limit (tables S.Store P.Shelf connection.old))) }
    ensures blocks { IfOk result (λ report. IsClean S.Store P.Shelf connection.new
        → report.blocks ≡ length (blocks_swept at limit (tables S.Store P.Shelf connection.old))) }
    ensures complete { IfOk result (λ report. IsClean S.Store P.Shelf connection.new
        → report.complete ≡ is_complete at limit (tables S.Store P.Shelf connection.old)) }
    ensures working { (digest : Octets → Octets) → OnOk result (AreDigests digest (tables S.Store P.Shelf connection.old).blocks
        → StillWorksBy S.Store P.Shelf digest connection.old connection.new) }
    ensures purged { (digest : Octets → Octets) → OnOk result (IsClean S.Store P.Shelf connection.new
        → AreDigests digest (tables S.Store P.Shelf connection.old).blocks → (t : Octets)
        → purged_tenant (view (tables S.Store P.Shelf connection.new) t) at
        ≡ purged_tenant (view (tables S.Store P.Shelf connection.old) t) at) }
    ensures kept { OnOk result (IsClean S.Store P.Shelf connection.new
        → Agrees cache.old (tables S.Store P.Shelf connection.old).blocks
        → Agrees cache.new (tables S.Store P.Shelf connection.new).blocks) }
{
    let uploads = remove_stale(connection, alloc, at, limit)?;
    let stale = any_stale(connection, at)?;
    let blocks = remove_blocks(connection, cache, limit.saturating_sub(uploads))?;
    let left = or_trouble(any_unreferenced(connection))?;
    let complete = neither(stale, left);
    Ok(SweepReport {
        uploads,
        blocks,
        complete,
    })
}
