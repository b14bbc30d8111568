//! The SQL statements on the names of access keys and on all tenants, one function each.
ghost use Rattle.std.specs.Prelude.{◌≡◌, map, IfOk, IfErr};
ghost use Rattle.std.specs.List.{AllByRecursion};
ghost use Rattle.std.specs.Str.{IsUtf8};
ghost use Rattle.std.specs.String.{string_bytes};
ghost use Rattle.bh_tables.specs.Shown.{keys_by_name, tenants_by_name};
ghost use Rattle.bh_base.specs.Connections.{IsClean, tables, InTransaction, IsTroubleIf};
ghost use Rattle.bh_schema.specs.Calls.{Reads};
ghost use Rattle.bh_usage.specs.Listed.{quota_reading, name_in, quota_in_row, tenant_seen};

use bh_base::connection::Connection;
use bh_schema::rows::reading::{FromRow, all_of};
use bh_shelf::shelf::Shelf;
use sqlite::types::ToSql;
use sqlite::{Alter, Error, Row};
use std::alloc::Global;

/// A tenant in a list of all.
#[derive(Drop)]
pub struct ListedTenant {
    pub name: String,
    /// In bytes.
    pub quota: u64,
    /// The bytes that its versions and parts have.
    pub used: u64,
}

impl FromRow for ListedTenant {
    ghost reading = { quota_reading };

    fn read(row: &Row) -> Result<ListedTenant, Error> {
        Ok(ListedTenant {
            name: row.get(0)?,
            quota: row.get(1)?,
            used: row.get(2)?,
        })
    }
}

/// The names of a tenant's access keys, in byte order. No secret is read.
pub fn key_names<S: Alter, P: Shelf>(
    connection: &mut Connection<S, P>,
    alloc: Global,
    tenant: &str,
) -> Result<Vec<String>, Error>
    requires inside { InTransaction S.Store P.Shelf connection.old }
    ensures reads { Reads S.Store P.Shelf connection.old connection.new result }
    ensures names { IfOk result (λ names. IsClean S.Store P.Shelf connection.new
        → map string_bytes names.items ≡ map name_in (keys_by_name tenant.now (tables S.Store P.Shelf connection.old).keys)) }
    ensures trouble { IfErr result (IsTroubleIf S.Store P.Shelf connection.old connection.new
        (AllByRecursion (λ k. IsUtf8 k.name) (keys_by_name tenant.now (tables S.Store P.Shelf connection.old).keys))) }
{
    let rows = connection.database.query_all(
        "SELECT name FROM keys WHERE tenant = ?1 ORDER BY name, rowid",
        &[tenant.to_sql()],
    )?;
    all_of(alloc, &rows)
}

/// All tenants, by name in byte order, each with its bytes in use. No other table is read.
pub fn tenant_list<S: Alter, P: Shelf>(
    connection: &mut Connection<S, P>,
    alloc: Global,
) -> Result<Vec<ListedTenant>, Error>
    requires inside { InTransaction S.Store P.Shelf connection.old }
    ensures reads { Reads S.Store P.Shelf connection.old connection.new result }
    ensures listed { IfOk result (λ listed. IsClean S.Store P.Shelf connection.new
        → map tenant_seen listed.items ≡ map (quota_in_row (tables S.Store P.Shelf connection.old))
        (tenants_by_name (tables S.Store P.Shelf connection.old).tenants)) }
    ensures trouble { IfErr result (IsTroubleIf S.Store P.Shelf connection.old connection.new
        (AllByRecursion (λ t. IsUtf8 t.tenant) (tenants_by_name (tables S.Store P.Shelf connection.old).tenants))) }
{
    let rows = connection.database.query_all(
        "SELECT tenant, quota, used FROM tenants ORDER BY tenant, rowid",
        &[],
    )?;
    all_of(alloc, &rows)
}
