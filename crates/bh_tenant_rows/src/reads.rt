//! The SQL queries of a tenant's rows, all of one table. The column of the tenant is left out.

ghost use Rattle.std.specs.Prelude.{◌≡◌, map, IfOk};
ghost use Rattle.bh_view.specs.View.{rows_of};
ghost use Rattle.bh_base.specs.Connections.{IsClean, tables, InTransaction};
ghost use Rattle.bh_schema.specs.Calls.{Reads};
ghost use Rattle.bh_tenant_rows.specs.Shown.{shown_name};
ghost use Rattle.bh_tenant_rows.specs.Owned.{shown_in, IsTextOf};

use bh_base::connection::Connection;
use bh_shelf::shelf::Shelf;
use sqlite::types::ToSql;
use sqlite::{Alter, Error, Row};

/// A table in which each tenant has rows of its own.
#[derive(Clone, Copy)]
pub enum Owned {
    /// The names and secrets of its access keys.
    Keys,
    /// Its buckets, with creation time, state and rule.
    Buckets,
    /// The locks of its buckets.
    Locks,
    /// Its versions and delete markers, without their bytes.
    Versions,
    /// Its unfinished uploads.
    Uploads,
    /// The parts of those uploads, without their bytes.
    Parts,
    /// The dates of its versions.
    Retains,
}

impl Owned {
    fn text(self) -> &'static str
        ensures { IsTextOf self result.now }
    {
        match self {
            Owned::Keys => "SELECT name, secret FROM keys WHERE tenant = ?1 ORDER BY rowid",
            Owned::Buckets =>
                "SELECT bucket, created, state, days FROM buckets WHERE tenant = ?1 ORDER BY rowid",
            Owned::Locks => "SELECT bucket FROM locks WHERE tenant = ?1 ORDER BY rowid",
            Owned::Versions =>
                "SELECT seq, bucket, okey, id, marker, stamp, size, sum FROM versions WHERE tenant = ?1 ORDER BY rowid",
            Owned::Uploads =>
                "SELECT upload, bucket, okey, begun FROM uploads WHERE tenant = ?1 ORDER BY rowid",
            Owned::Parts =>
                "SELECT upload, number, size, sum, stamp, body FROM parts WHERE tenant = ?1 ORDER BY rowid",
            Owned::Retains => "SELECT seq, until FROM retains WHERE tenant = ?1 ORDER BY rowid",
        }
    }
}

/// A tenant's rows in a table.
pub fn owned_rows<S: Alter, P: Shelf>(
    connection: &mut Connection<S, P>,
    table: Owned,
    tenant: &str,
) -> Result<Vec<Row>, Error>
    requires inside { InTransaction S.Store P.Shelf connection.old }
    ensures reads { Reads S.Store P.Shelf connection.old connection.new result }
    ensures rows { IfOk result (λ rows. IsClean S.Store P.Shelf connection.new
        → rows.items ≡ shown_in table (rows_of tenant.now (tables S.Store P.Shelf connection.old))) }
{
    connection
        .database
        .query_all(table.text(), &[tenant.to_sql()])
}

/// The names of all tenants.
pub fn name_rows<S: Alter, P: Shelf>(connection: &mut Connection<S, P>) -> Result<Vec<Row>, Error>
    requires inside { InTransaction S.Store P.Shelf connection.old }
    ensures reads { Reads S.Store P.Shelf connection.old connection.new result }
    ensures rows { IfOk result (λ rows. IsClean S.Store P.Shelf connection.new
        → rows.items ≡ map shown_name (tables S.Store P.Shelf connection.old).tenants) }
{
    connection
        .database
        .query_all("SELECT tenant FROM tenants ORDER BY rowid", &[])
}
