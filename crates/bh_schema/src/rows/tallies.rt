//! How many versions, markers and objects a tenant has, and how that changes when an entry of a key
//! is added or deleted.

ghost use Rattle.std.specs.Prelude.{◌≡◌, ◌++◌, ◌∷◌, [], ◌+◌, ◌≤◌, ◌<◌, ◌^◌, false, true, find, option_map, IfOk, IfErr, OnOk};
ghost use Rattle.std.specs.List.{list_any};
ghost use Rattle.sqlite_keyed.specs.Lists.{update_where};
ghost use Rattle.bh_rows.specs.Means.{is_trouble};
ghost use Rattle.bh_tables.specs.Typed.{Totals, tally, is_tally, set_to, tallied};
ghost use Rattle.bh_tables.specs.Shown.{is_tenant};
ghost use Rattle.bh_schema.specs.Calls.{Reads, WritesOn};
ghost use Rattle.bh_base.specs.Connections.{IsClean, stands, tables, InTransaction, InMidst, Rewrites, Enters, IsTrouble, IsTroubleIf};
ghost use Rattle.bh_base.specs.Layer.{IsInsideBy};
ghost use Rattle.bh_schema.specs.Tallies.{tenant_tally, tally_reading, marked_as, entries_changed};

use crate::rows::number::number;
use crate::rows::reading::{FromRow, first_of};
use crate::rows::writing::write;
use bh_base::connection::Connection;
use bh_shelf::shelf::Shelf;
use sqlite::types::ToSql;
use sqlite::{Alter, Error, ErrorCode, Row};

/// A tenant's numbers of versions and markers, and of versions that are the newest entries of their
/// keys.
#[derive(Clone, Copy)]
pub struct Tally {
    pub versions: u64,
    pub markers: u64,
    pub objects: u64,
}

impl FromRow for Tally {
    ghost reading = { tally_reading };

    fn read(row: &Row) -> Result<Tally, Error> {
        Ok(Tally {
            versions: row.get(0)?,
            markers: row.get(1)?,
            objects: row.get(2)?,
        })
    }
}

/// The tally of the tenant of this name, if there is one. Only its row is read.
pub fn find_tally<S: Alter, P: Shelf>(
    connection: &mut Connection<S, P>,
    tenant: &str,
) -> Result<Option<Tally>, Error>
    requires inside { InTransaction S.Store P.Shelf connection.old }
    ensures reads { Reads S.Store P.Shelf connection.old connection.new result }
    ensures found { IfOk result (λ found. IsClean S.Store P.Shelf connection.new
        → found ≡ option_map (tenant_tally (tables S.Store P.Shelf connection.old))
        (find (is_tenant tenant.now) (tables S.Store P.Shelf connection.old).tenants)) }
    ensures trouble { IfErr result (IsTrouble S.Store P.Shelf connection.old connection.new) }
{
    let rows = connection.database.query_all(
        "SELECT versions, markers, objects FROM tallies WHERE tenant = ?1 ORDER BY rowid",
        &[tenant.to_sql()],
    )?;
    first_of(&rows)
}

/// Adds the tally of a new tenant, as one step of that write.
pub fn insert_tally<S: Alter, P: Shelf>(
    connection: &mut Connection<S, P>,
    tenant: &str,
) -> Result<usize, Error>
    requires midst { InMidst S.Store P.Shelf connection.old }
    ensures writes { WritesOn S.Store P.Shelf connection.old connection.new result }
    ensures rewrites { OnOk result (Rewrites S.Store P.Shelf connection.old connection.new
        (tallied (λ tallies. tallies ++ tally tenant.now 0 0 0 ∷ [])) (λ rows. rows)) }
    ensures trouble { IfErr result (IsTroubleIf S.Store P.Shelf connection.old connection.new (IsClean S.Store P.Shelf connection.old
        → ((sums : Totals) → IsInsideBy sums (stands S.Store P.Shelf connection.old) → list_any (is_tally tenant.now) sums.tallies ≡ false)
        × (list_any (is_tenant tenant.now) (tables S.Store P.Shelf connection.old).tenants ≡ true))) }
{
    write(
        &mut connection.database,
        "INSERT INTO tallies (tenant, versions, markers, objects) VALUES (?1, 0, 0, 0)",
        &[tenant.to_sql()],
    )
}

/// Sets a tenant's tally, as one step of a write of its versions.
fn set_tally<S: Alter, P: Shelf>(
    connection: &mut Connection<S, P>,
    tenant: &str,
    tally: Tally,
) -> Result<usize, Error>
    requires midst { InMidst S.Store P.Shelf connection.old }
    requires versions { tally.versions ≤ 2 ^ 62 }
    requires markers { tally.markers ≤ 2 ^ 62 }
    requires objects { tally.objects ≤ 2 ^ 62 }
    ensures writes { WritesOn S.Store P.Shelf connection.old connection.new result }
    ensures rewrites { OnOk result (Rewrites S.Store P.Shelf connection.old connection.new
        (tallied (update_where (is_tally tenant.now) (set_to tally.versions tally.markers tally.objects))) (λ rows. rows)) }
    ensures trouble { IfErr result (IsTrouble S.Store P.Shelf connection.old connection.new) }
{
    write(
        &mut connection.database,
        "UPDATE tallies SET versions = ?2, markers = ?3, objects = ?4 WHERE tenant = ?1",
        &[
            tenant.to_sql(),
            number(tally.versions),
            number(tally.markers),
            number(tally.objects),
        ],
    )
}

/// The `marker` columns of an added and of a deleted entry of a key, and those of the key's newest
/// entry before and after.
#[derive(Clone, Copy)]
pub struct EntryChange {
    pub come: Option<u64>,
    pub gone: Option<u64>,
    pub after: Option<u64>,
    pub before: Option<u64>,
}

/// 1 if there is an entry with this `marker`, otherwise 0.
fn one_if(entry: Option<u64>, marker: u64) -> u64
    ensures is { result ≡ marked_as marker entry }
    ensures few { result ≤ 1 }
{
    match entry {
        None => 0,
        Some(found) => { if found == marker { 1 } else { 0 } }
    }
}

/// A count plus `more` and minus `less`. No column has one above 2^62.
fn recounted(n: u64, more: u64, less: u64) -> Result<u64, Error>
    requires more { more ≤ 1 }
    requires less { less ≤ 1 }
    ensures counted { IfOk result (λ m. m + less ≡ n + more) }
    ensures small { IfOk result (λ m. m ≤ 2 ^ 62) }
    ensures trouble { IfErr result (λ e. is_trouble e ≡ true) }
{
    if n >= 1 << 62 {
        return Err(Error::SqliteFailure(ErrorCode::DatabaseCorrupt));
    }
    match (n + more).checked_sub(less) {
        Some(m) => Ok(m),
        None => Err(Error::SqliteFailure(ErrorCode::DatabaseCorrupt)),
    }
}

/// Updates a tenant's tally for an added or deleted entry of a key: the first step of such a write.
pub fn recount<S: Alter, P: Shelf>(
    connection: &mut Connection<S, P>,
    tenant: &str,
    change: EntryChange,
) -> Result<(), Error>
    requires inside { InTransaction S.Store P.Shelf connection.old }
    ensures writes { WritesOn S.Store P.Shelf connection.old connection.new result }
    ensures enters { OnOk result (Enters S.Store P.Shelf connection.old connection.new (entries_changed tenant.now change) (λ rows. rows)) }
    ensures trouble { IfErr result (IsTrouble S.Store P.Shelf connection.old connection.new) }
{
    let tally = match find_tally(connection, tenant)? {
        Some(tally) => tally,
        None => return Err(Error::SqliteFailure(ErrorCode::DatabaseCorrupt)),
    };
    let versions = recounted(
        tally.versions,
        one_if(change.come, 0),
        one_if(change.gone, 0),
    )?;
    let markers = recounted(
        tally.markers,
        one_if(change.come, 1),
        one_if(change.gone, 1),
    )?;
    let objects = recounted(
        tally.objects,
        one_if(change.after, 0),
        one_if(change.before, 0),
    )?;
    set_tally(
        connection,
        tenant,
        Tally {
            versions,
            markers,
            objects,
        },
    )?;
    Ok(())
}
