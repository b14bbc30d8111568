//! Counts the tallies of all tenants, from their versions and markers. This runs once for a host,
//! so each count is a query of its own.

ghost use Rattle.std.specs.Prelude.{◌≡◌, ◌++◌, ◌∷◌, [], List, ◌<◌, ◌^◌, true, map, IfOk, IfErr, OnOk};
ghost use Rattle.sqlite.specs.Value.{owned};
ghost use Rattle.sqlite.specs.declared.types.Value.TheVariants.{Text};
ghost use Rattle.bh_rows.specs.Means.{is_trouble};
ghost use Rattle.bh_tables.specs.Schema.{Octets, host_schema};
ghost use Rattle.bh_tables.specs.Typed.{Totals, TenantRow, TallyRow, Tables, IsHostBy, tally as tally_row, tally_of, number as stored};
ghost use Rattle.bh_base.specs.Databases.{Reads, MayRead};
ghost use Rattle.bh_base.specs.Databases.{IsClean, stands, tables, StaysWithin, StaysOpen};
ghost use Rattle.bh_migration.specs.Migration.{HasSchema};
ghost use Rattle.bh_migration.specs.Tallying.{count_text, how_many, counted, IsSmall, shown_name, HoldsTallies, HoldsUnweighed};

use bh_schema::rows::counts::read_total;
use bh_schema::rows::number::number;
use bh_schema::rows::tallies::Tally;
use bh_schema::rows::writing::write;
use sqlite::types::ValueRef;
use sqlite::{Alter, Connection, Error, ErrorCode, Row};

/// A count in a tenant's tally.
#[derive(Clone, Copy)]
enum Count {
    Versions,
    Markers,
    /// Versions that are the newest entries of their keys.
    Objects,
}

impl Count {
    fn text(self) -> &'static str
        ensures { result.now ≡ count_text self }
    {
        match self {
            Count::Versions =>
                "SELECT coalesce(sum(1), 0) FROM versions WHERE tenant = ?1 AND marker = 0",
            Count::Markers =>
                "SELECT coalesce(sum(1), 0) FROM versions WHERE tenant = ?1 AND marker = 1",
            Count::Objects =>
                "SELECT coalesce(sum(1), 0) FROM versions WHERE tenant = ?1 AND marker = 0 AND NOT EXISTS (SELECT 1 FROM versions AS later WHERE later.tenant = versions.tenant AND later.bucket = versions.bucket AND later.okey = versions.okey AND later.seq > versions.seq)",
        }
    }
}

/// Checks that a column can have this count.
fn in_range(n: u64) -> Result<u64, Error>
    ensures same { IfOk result (λ m. m ≡ n) }
    ensures small { IfOk result (λ m. m < 2 ^ 63) }
{
    if n < 0x8000_0000_0000_0000 {
        Ok(n)
    } else {
        Err(Error::SqliteFailure(ErrorCode::DatabaseCorrupt))
    }
}

fn count_rows<S: Alter>(
    connection: &mut Connection<S>,
    tenant: ValueRef<'_>,
    what: Count,
) -> Result<Vec<Row>, Error>
    requires { IsClean S.Store connection.old → HasSchema host_schema (stands S.Store connection.old) }
    ensures reads { Reads S.Store connection.old connection.new result }
    ensures rows { IfOk result (λ rows. IsClean S.Store connection.new
        → (sums : Totals) → IsHostBy sums (stands S.Store connection.old).now → (name : Octets) → owned tenant.entry ≡ Text name
        → rows.items ≡ (stored (how_many what name (tables S.Store connection.old)) ∷ []) ∷ []) }
{
    connection.query_all(what.text(), &[tenant])
}

fn count_of<S: Alter>(
    connection: &mut Connection<S>,
    tenant: ValueRef<'_>,
    what: Count,
) -> Result<u64, Error>
    requires { IsClean S.Store connection.old → HasSchema host_schema (stands S.Store connection.old) }
    ensures reads { MayRead S.Store connection.old connection.new result }
    ensures counts { IfOk result (λ n. IsClean S.Store connection.new
        → (sums : Totals) → IsHostBy sums (stands S.Store connection.old).now → (name : Octets) → owned tenant.entry ≡ Text name
        → n ≡ how_many what name (tables S.Store connection.old)) }
    ensures small { IfOk result (λ n. n < 2 ^ 63) }
{
    let rows = count_rows(connection, tenant, what)?;
    in_range(read_total(&rows)?)
}

fn count_all<S: Alter>(connection: &mut Connection<S>, tenant: ValueRef<'_>) -> Result<Tally, Error>
    requires { IsClean S.Store connection.old → HasSchema host_schema (stands S.Store connection.old) }
    ensures reads { MayRead S.Store connection.old connection.new result }
    ensures counts { IfOk result (λ tally. IsClean S.Store connection.new
        → (sums : Totals) → IsHostBy sums (stands S.Store connection.old).now → (name : Octets) → owned tenant.entry ≡ Text name
        → tally ≡ counted name (tables S.Store connection.old)) }
    ensures small { IfOk result IsSmall }
{
    let versions = count_of(connection, tenant, Count::Versions)?;
    let markers = count_of(connection, tenant, Count::Markers)?;
    let objects = count_of(connection, tenant, Count::Objects)?;
    Ok(Tally {
        versions,
        markers,
        objects,
    })
}

fn insert<S: Alter>(
    connection: &mut Connection<S>,
    tenant: ValueRef<'_>,
    tally: Tally,
) -> Result<usize, Error>
    requires schema { IsClean S.Store connection.old → HasSchema host_schema (stands S.Store connection.old) }
    requires small { IsSmall tally }
    ensures within { StaysWithin S.Store connection.old connection.new }
    ensures opens { OnOk result (StaysOpen S.Store connection.old connection.new) }
    ensures keeps { OnOk result (IsClean S.Store connection.new → HasSchema host_schema (stands S.Store connection.new)) }
    ensures adds { OnOk result (IsClean S.Store connection.new → (t : Tables) (done : List TallyRow)
        → HoldsTallies t done (stands S.Store connection.old) → (name : Octets) → owned tenant.entry ≡ Text name
        → HoldsTallies t (done ++ tally_row name tally.versions tally.markers tally.objects ∷ []) (stands S.Store connection.new)) }
{
    write(
        connection,
        "INSERT INTO tallies (tenant, versions, markers, objects) VALUES (?1, ?2, ?3, ?4)",
        &[
            tenant,
            number(tally.versions),
            number(tally.markers),
            number(tally.objects),
        ],
    )
}

/// Adds the tally of the tenant whose name is in this row.
fn tally_one<S: Alter>(connection: &mut Connection<S>, row: &Row) -> Result<usize, Error>
    requires { IsClean S.Store connection.old → HasSchema host_schema (stands S.Store connection.old) }
    ensures within { StaysWithin S.Store connection.old connection.new }
    ensures opens { OnOk result (StaysOpen S.Store connection.old connection.new) }
    ensures keeps { OnOk result (IsClean S.Store connection.new → HasSchema host_schema (stands S.Store connection.new)) }
    ensures adds { OnOk result (IsClean S.Store connection.new → (t : Tables) (done : List TallyRow)
        → HoldsTallies t done (stands S.Store connection.old) → (x : TenantRow) → row.now ≡ shown_name x
        → HoldsTallies t (done ++ tally_of t.versions x ∷ []) (stands S.Store connection.new)) }
{
    let tenant = row.get_ref(0)?;
    let tally = count_all(connection, tenant)?;
    insert(connection, tenant, tally)
}

fn tally_each<S: Alter>(connection: &mut Connection<S>, rows: &[Row]) -> Result<(), Error>
    requires { IsClean S.Store connection.old → HasSchema host_schema (stands S.Store connection.old) }
    ensures within { StaysWithin S.Store connection.old connection.new }
    ensures opens { OnOk result (StaysOpen S.Store connection.old connection.new) }
    ensures keeps { OnOk result (IsClean S.Store connection.new → HasSchema host_schema (stands S.Store connection.new)) }
    ensures adds { OnOk result (IsClean S.Store connection.new → (t : Tables) → rows.now ≡ map shown_name t.tenants
        → HoldsTallies t [] (stands S.Store connection.old)
        → HoldsTallies t (map (tally_of t.versions) t.tenants) (stands S.Store connection.new)) }
{
    for row in rows {
        tally_one(connection, row)?;
    }
    Ok(())
}

/// The names of all tenants.
fn name_rows<S: Alter>(connection: &mut Connection<S>) -> Result<Vec<Row>, Error>
    requires { IsClean S.Store connection.old → HasSchema host_schema (stands S.Store connection.old) }
    ensures reads { Reads S.Store connection.old connection.new result }
    ensures rows { IfOk result (λ rows. IsClean S.Store connection.new
        → (sums : Totals) → IsHostBy sums (stands S.Store connection.old).now
        → rows.items ≡ map shown_name (tables S.Store connection.old).tenants) }
{
    connection.query_all("SELECT tenant FROM tenants ORDER BY rowid", &[])
}

fn tally_all<S: Alter>(connection: &mut Connection<S>) -> Result<(), Error>
    requires { IsClean S.Store connection.old → HasSchema host_schema (stands S.Store connection.old) }
    ensures within { StaysWithin S.Store connection.old connection.new }
    ensures opens { OnOk result (StaysOpen S.Store connection.old connection.new) }
    ensures keeps { OnOk result (IsClean S.Store connection.new → HasSchema host_schema (stands S.Store connection.new)) }
    ensures holds { OnOk result (IsClean S.Store connection.new → (t : Tables) → HoldsTallies t [] (stands S.Store connection.old)
        → HoldsUnweighed t (stands S.Store connection.new)) }
{
    let rows = name_rows(connection)?;
    tally_each(connection, &rows)
}

/// A host's failure for an error. Another error comes from rows that no host has: a repeated
/// tenant, or more entries than a counter can count.
pub fn as_trouble(error: Error) -> Error
    ensures trouble { is_trouble result ≡ true }
    ensures same { is_trouble error ≡ true → result ≡ error }
{
    match error {
        Error::SqliteFailure(ErrorCode::OutOfMemory) => error,
        Error::SqliteFailure(ErrorCode::SystemIoFailure) => error,
        Error::SqliteFailure(ErrorCode::DiskFull) => error,
        Error::SqliteFailure(ErrorCode::Closed) => error,
        Error::SqliteFailure(ErrorCode::TooBig) => error,
        Error::SqliteFailure(ErrorCode::NoRowid) => error,
        _ => Error::SqliteFailure(ErrorCode::DatabaseCorrupt),
    }
}

/// Adds the tally of each tenant, in a host's database that has none yet.
pub fn tally_tenants<S: Alter>(connection: &mut Connection<S>) -> Result<(), Error>
    requires { IsClean S.Store connection.old → HasSchema host_schema (stands S.Store connection.old) }
    ensures within { StaysWithin S.Store connection.old connection.new }
    ensures opens { OnOk result (StaysOpen S.Store connection.old connection.new) }
    ensures keeps { OnOk result (IsClean S.Store connection.new → HasSchema host_schema (stands S.Store connection.new)) }
    ensures holds { OnOk result (IsClean S.Store connection.new → (t : Tables) → HoldsTallies t [] (stands S.Store connection.old)
        → HoldsUnweighed t (stands S.Store connection.new)) }
    ensures trouble { IfErr result (λ e. is_trouble e ≡ true) }
{
    match tally_all(connection) {
        Ok(()) => Ok(()),
        Err(error) => Err(as_trouble(error)),
    }
}
