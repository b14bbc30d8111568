//! Counts and sums of a tenant's rows.

ghost use Rattle.std.specs.Prelude.{◌≡◌, ◌∷◌, [], ℕ, ◌<◌, ◌^◌, true, IfOk, IfErr};
ghost use Rattle.bh_rows.specs.Means.{is_trouble};
ghost use Rattle.bh_tables.specs.Typed.{number as stored};
ghost use Rattle.bh_schema.specs.Calls.{Reads};
ghost use Rattle.bh_base.specs.Connections.{IsClean, tables, InTransaction, IsTroubleIf};
ghost use Rattle.bh_schema.specs.Counted.{how_many, IsTextOf};

use bh_base::connection::Connection;
use bh_shelf::shelf::Shelf;
use sqlite::types::ToSql;
use sqlite::{Alter, Error, Row};

/// The one number in a sum's result.
pub fn read_total(rows: &[Row]) -> Result<u64, Error>
    ensures read { IfOk result (λ n. (m : ℕ) → rows.now ≡ (stored m ∷ []) ∷ [] → n ≡ m) }
    ensures trouble { IfErr result (λ e. (m : ℕ) → rows.now ≡ (stored m ∷ []) ∷ [] → is_trouble e ≡ true) }
{
    match rows.first() {
        None => Ok(0),
        Some(row) => Ok(row.get(0)?),
    }
}

/// A count or a sum over a tenant's rows.
#[derive(Clone, Copy)]
pub enum TenantSum {
    /// Its access keys.
    Keys,
    /// Its buckets.
    Buckets,
    /// Its unfinished uploads.
    Uploads,
    /// The bytes of all parts of those uploads.
    PartBytes,
}

impl TenantSum {
    fn text(self) -> &'static str
        ensures { IsTextOf self result.now }
    {
        match self {
            TenantSum::Keys => "SELECT coalesce(sum(1), 0) FROM keys WHERE tenant = ?1",
            TenantSum::Buckets => "SELECT coalesce(sum(1), 0) FROM buckets WHERE tenant = ?1",
            TenantSum::Uploads => "SELECT coalesce(sum(1), 0) FROM uploads WHERE tenant = ?1",
            TenantSum::PartBytes => "SELECT coalesce(sum(size), 0) FROM parts WHERE tenant = ?1",
        }
    }
}

/// A count or a sum over a tenant's rows. The store refuses a sum of 2^63 or more.
pub fn tenant_sum<S: Alter, P: Shelf>(
    connection: &mut Connection<S, P>,
    tenant: &str,
    sum: TenantSum,
) -> Result<u64, Error>
    requires inside { InTransaction S.Store P.Shelf connection.old }
    ensures reads { Reads S.Store P.Shelf connection.old connection.new result }
    ensures total { IfOk result (λ n. IsClean S.Store P.Shelf connection.new
        → n ≡ how_many sum tenant.now (tables S.Store P.Shelf connection.old)) }
    ensures trouble { IfErr result (IsTroubleIf S.Store P.Shelf connection.old connection.new
        (how_many sum tenant.now (tables S.Store P.Shelf connection.old) < 2 ^ 63)) }
{
    let rows = connection
        .database
        .query_all(sum.text(), &[tenant.to_sql()])?;
    read_total(&rows)
}
