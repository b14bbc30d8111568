//! The rows of a tenant that is removed: what stands against it, the numbers of its bodies, and the
//! deletion of all rows.

ghost use Rattle.std.specs.Prelude.{◌≡◌, ◌<◌, ◌^◌, map, filter, length, IfOk, IfErr, OnOk};
ghost use Rattle.bh_tables.specs.Removal.{without_rows};
ghost use Rattle.bh_tables.specs.Shown.{is_version_of, is_part_used, is_kept_after};
ghost use Rattle.bh_schema.specs.Calls.{Reads, Writes, WritesOn};
ghost use Rattle.bh_base.specs.Connections.{IsClean, tables, InTransaction, InMidst, Becomes, Rewrites, IsTroubleIf};
ghost use Rattle.bh_schema.specs.Removal.{without_table, sums_without, without_contents, without_names, without_tally};
ghost use Rattle.bh_schema.specs.Removal.{IsTextOf};

use crate::rows::counts::read_total;
use crate::rows::number::number;
use crate::rows::reading::all_of;
use crate::rows::writing::write;
use bh_base::connection::Connection;
use bh_shelf::shelf::Shelf;
use sqlite::types::ToSql;
use sqlite::{Alter, Error};
use std::alloc::Global;

/// A table in which a tenant has rows. Their order is that in which rows can be deleted.
#[derive(Clone, Copy)]
enum TenantTable {
    Retains,
    Locks,
    Parts,
    Uploads,
    Versions,
    Buckets,
    Keys,
    Tallies,
    Tenants,
}

impl TenantTable {
    fn text(self) -> &'static str
        ensures { IsTextOf self result.now }
    {
        match self {
            TenantTable::Retains => "DELETE FROM retains WHERE tenant = ?1",
            TenantTable::Locks => "DELETE FROM locks WHERE tenant = ?1",
            TenantTable::Parts => "DELETE FROM parts WHERE tenant = ?1",
            TenantTable::Uploads => "DELETE FROM uploads WHERE tenant = ?1",
            TenantTable::Versions => "DELETE FROM versions WHERE tenant = ?1",
            TenantTable::Buckets => "DELETE FROM buckets WHERE tenant = ?1",
            TenantTable::Keys => "DELETE FROM keys WHERE tenant = ?1",
            TenantTable::Tallies => "DELETE FROM tallies WHERE tenant = ?1",
            TenantTable::Tenants => "DELETE FROM tenants WHERE tenant = ?1",
        }
    }
}

/// How many versions of a tenant have a date after a moment, in seconds since 1970.
pub fn late_dates<S: Alter, P: Shelf>(
    connection: &mut Connection<S, P>,
    tenant: &str,
    moment: u64,
) -> Result<u64, Error>
    requires inside { InTransaction S.Store P.Shelf connection.old }
    requires small { moment < 2 ^ 63 }
    ensures reads { Reads S.Store P.Shelf connection.old connection.new result }
    ensures total { IfOk result (λ n. IsClean S.Store P.Shelf connection.new
        → n ≡ length (filter (is_kept_after tenant.now moment) (tables S.Store P.Shelf connection.old).retains)) }
    ensures trouble { IfErr result (IsTroubleIf S.Store P.Shelf connection.old connection.new
        (length (filter (is_kept_after tenant.now moment) (tables S.Store P.Shelf connection.old).retains) < 2 ^ 63)) }
{
    let rows = connection.database.query_all(
        "SELECT coalesce(sum(1), 0) FROM retains WHERE tenant = ?1 AND until > ?2",
        &[tenant.to_sql(), number(moment)],
    )?;
    read_total(&rows)
}

/// The entry numbers of a tenant's versions and markers, each the name of its body.
pub fn entry_numbers<S: Alter, P: Shelf>(
    connection: &mut Connection<S, P>,
    alloc: Global,
    tenant: &str,
) -> Result<Vec<u64>, Error>
    requires inside { InTransaction S.Store P.Shelf connection.old }
    ensures reads { Reads S.Store P.Shelf connection.old connection.new result }
    ensures numbers { IfOk result (λ list. IsClean S.Store P.Shelf connection.new
        → list.items ≡ map (λ v. v.seq) (filter (is_version_of tenant.now) (tables S.Store P.Shelf connection.old).versions)) }
{
    let rows = connection.database.query_all(
        "SELECT seq FROM versions WHERE tenant = ?1 ORDER BY rowid",
        &[tenant.to_sql()],
    )?;
    all_of(alloc, &rows)
}

/// The names of the bodies of a tenant's parts.
pub fn part_bodies<S: Alter, P: Shelf>(
    connection: &mut Connection<S, P>,
    alloc: Global,
    tenant: &str,
) -> Result<Vec<u64>, Error>
    requires inside { InTransaction S.Store P.Shelf connection.old }
    ensures reads { Reads S.Store P.Shelf connection.old connection.new result }
    ensures numbers { IfOk result (λ list. IsClean S.Store P.Shelf connection.new
        → list.items ≡ map (λ p. p.body) (filter (is_part_used tenant.now) (tables S.Store P.Shelf connection.old).parts)) }
{
    let rows = connection.database.query_all(
        "SELECT body FROM parts WHERE tenant = ?1 ORDER BY rowid",
        &[tenant.to_sql()],
    )?;
    all_of(alloc, &rows)
}

/// Deletes a tenant's rows of a table, as one step of the write that deletes them all.
fn delete_owned<S: Alter, P: Shelf>(
    connection: &mut Connection<S, P>,
    tenant: &str,
    table: TenantTable,
) -> Result<usize, Error>
    requires midst { InMidst S.Store P.Shelf connection.old }
    ensures writes { WritesOn S.Store P.Shelf connection.old connection.new result }
    ensures rewrites { OnOk result (Rewrites S.Store P.Shelf connection.old connection.new (sums_without table tenant.now)
        (without_table table tenant.now)) }
{
    write(&mut connection.database, table.text(), &[tenant.to_sql()])
}

/// Deletes the rows of what a tenant's buckets have.
fn delete_contents<S: Alter, P: Shelf>(
    connection: &mut Connection<S, P>,
    tenant: &str,
) -> Result<(), Error>
    requires midst { InMidst S.Store P.Shelf connection.old }
    ensures writes { WritesOn S.Store P.Shelf connection.old connection.new result }
    ensures rewrites { OnOk result (Rewrites S.Store P.Shelf connection.old connection.new (λ sums. sums) (without_contents tenant.now)) }
{
    delete_owned(connection, tenant, TenantTable::Retains)?;
    delete_owned(connection, tenant, TenantTable::Locks)?;
    delete_owned(connection, tenant, TenantTable::Parts)?;
    delete_owned(connection, tenant, TenantTable::Uploads)?;
    delete_owned(connection, tenant, TenantTable::Versions)?;
    Ok(())
}

/// Deletes a tenant's buckets, keys and tally, and its own row.
fn delete_names<S: Alter, P: Shelf>(
    connection: &mut Connection<S, P>,
    tenant: &str,
) -> Result<(), Error>
    requires midst { InMidst S.Store P.Shelf connection.old }
    ensures writes { WritesOn S.Store P.Shelf connection.old connection.new result }
    ensures rewrites { OnOk result (Rewrites S.Store P.Shelf connection.old connection.new (without_tally tenant.now)
        (without_names tenant.now)) }
{
    delete_owned(connection, tenant, TenantTable::Buckets)?;
    delete_owned(connection, tenant, TenantTable::Keys)?;
    delete_owned(connection, tenant, TenantTable::Tallies)?;
    delete_owned(connection, tenant, TenantTable::Tenants)?;
    Ok(())
}

/// Deletes all rows of a tenant, each table by a range of its key. The references of its bodies
/// stay.
pub fn delete_rows<S: Alter, P: Shelf>(
    connection: &mut Connection<S, P>,
    tenant: &str,
) -> Result<(), Error>
    requires inside { InTransaction S.Store P.Shelf connection.old }
    ensures writes { Writes S.Store P.Shelf connection.old connection.new result }
    ensures holds { OnOk result (Becomes S.Store P.Shelf connection.old connection.new (without_rows tenant.now)) }
{
    delete_contents(connection, tenant)?;
    delete_names(connection, tenant)
}
