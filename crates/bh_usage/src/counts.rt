ghost use Rattle.std.specs.Prelude.{◌≡◌, IfOk};
ghost use Rattle.bh_base.specs.Connections.{IsClean, tables, InTransaction};
ghost use Rattle.bh_schema.specs.Calls.{MayRead};
ghost use Rattle.bh_usage.specs.Counted.{entries_in, bytes_in, used_in, rows_in};

use bh_base::connection::Connection;
use bh_schema::rows::counts::{TenantSum, tenant_sum};
use bh_schema::rows::tallies::find_tally;
use bh_shelf::shelf::Shelf;
use sqlite::{Alter, Error, ErrorCode};

/// The numbers of a tenant's entries.
#[derive(Clone, Copy)]
pub struct EntryCounts {
    /// The number of delete markers.
    pub markers: u64,
    /// Keys whose newest entry is not a delete marker.
    pub objects: u64,
    /// Without delete markers.
    pub versions: u64,
}

/// The bytes that a tenant stores.
#[derive(Clone, Copy)]
pub struct ByteTotals {
    pub parts: u64,
    pub versions: u64,
}

/// The counts and sums of a tenant's rows.
#[derive(Clone, Copy)]
pub struct RowCounts {
    pub buckets: u64,
    pub bytes: ByteTotals,
    pub entries: EntryCounts,
    pub uploads: u64,
}

/// The counts in a tenant's tally; none of its versions is read. Every tenant has a tally; a
/// missing one means that there is no such tenant, which callers rule out.
fn entry_counts<S: Alter, P: Shelf>(
    connection: &mut Connection<S, P>,
    tenant: &str,
) -> Result<EntryCounts, Error>
    requires inside { InTransaction S.Store P.Shelf connection.old }
    ensures reads { MayRead S.Store P.Shelf connection.old connection.new result }
    ensures counts { IfOk result (λ counts. IsClean S.Store P.Shelf connection.new
        → counts ≡ entries_in tenant.now (tables S.Store P.Shelf connection.old)) }
{
    let found = find_tally(connection, tenant)?;
    match found {
        Some(tally) => Ok(EntryCounts {
            markers: tally.markers,
            objects: tally.objects,
            versions: tally.versions,
        }),
        None => Err(Error::SqliteFailure(ErrorCode::DatabaseCorrupt)),
    }
}

/// The bytes of a tenant that uses `used` bytes: those of its parts are added up, and the others
/// are its versions'.
fn byte_totals<S: Alter, P: Shelf>(
    connection: &mut Connection<S, P>,
    tenant: &str,
    used: u64,
) -> Result<ByteTotals, Error>
    requires inside { InTransaction S.Store P.Shelf connection.old }
    requires held { IsClean S.Store P.Shelf connection.old → used ≡ used_in tenant.now (tables S.Store P.Shelf connection.old) }
    ensures reads { MayRead S.Store P.Shelf connection.old connection.new result }
    ensures totals { IfOk result (λ totals. IsClean S.Store P.Shelf connection.new
        → totals ≡ bytes_in tenant.now (tables S.Store P.Shelf connection.old)) }
{
    let parts = tenant_sum(connection, tenant, TenantSum::PartBytes)?;
    match used.checked_sub(parts) {
        Some(versions) => Ok(ByteTotals { parts, versions }),
        None => Err(Error::SqliteFailure(ErrorCode::DatabaseCorrupt)),
    }
}

/// The counts and bytes of a tenant's rows; the tenant uses `used` bytes. The store refuses a sum
/// of 2^63 bytes or more.
pub fn row_counts<S: Alter, P: Shelf>(
    connection: &mut Connection<S, P>,
    tenant: &str,
    used: u64,
) -> Result<RowCounts, Error>
    requires inside { InTransaction S.Store P.Shelf connection.old }
    requires held { IsClean S.Store P.Shelf connection.old → used ≡ used_in tenant.now (tables S.Store P.Shelf connection.old) }
    ensures reads { MayRead S.Store P.Shelf connection.old connection.new result }
    ensures counts { IfOk result (λ counts. IsClean S.Store P.Shelf connection.new
        → counts ≡ rows_in tenant.now (tables S.Store P.Shelf connection.old)) }
{
    let buckets = tenant_sum(connection, tenant, TenantSum::Buckets)?;
    let bytes = byte_totals(connection, tenant, used)?;
    let entries = entry_counts(connection, tenant)?;
    let uploads = tenant_sum(connection, tenant, TenantSum::Uploads)?;
    Ok(RowCounts {
        buckets,
        bytes,
        entries,
        uploads,
    })
}
