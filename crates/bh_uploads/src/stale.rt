//! The stale uploads of all tenants.
ghost use Rattle.std.specs.Prelude.{◌≡◌, ◌<◌, ◌^◌, List, map, length, IfOk, IfErr, OnOk};
ghost use Rattle.std.specs.List.{list_any};
ghost use Rattle.std.specs.String.{string_bytes};
ghost use Rattle.bh_tables.specs.Due.{shown_owner, past_uploads};
ghost use Rattle.bh_tables.specs.Typed.{UploadRow as Stored};
ghost use Rattle.bh_view.specs.Grouped.{same_number};
ghost use Rattle.bh_view.specs.Sound.{IsSound};
ghost use Rattle.bh_view.specs.View.{without_uploads};
ghost use Rattle.bh_view.specs.Sweep.{is_due, uploads_swept, without_each};
ghost use Rattle.bh_schema.specs.Calls.{Reads, MayRead};
ghost use Rattle.bh_base.specs.Connections.{IsClean, tables, InTransaction, IsTrouble};
ghost use Rattle.bh_schema.specs.Working.{Works, WorksOn};

use crate::purge::{in_range, remove_upload};
use bh_base::connection::Connection;
use bh_core::uploads::stale_before;
use bh_schema::rows::number::number;
use bh_schema::trouble::or_trouble;
use bh_shelf::shelf::Shelf;
use bh_storage::error::Trouble;
use bh_types::moment::Moment;
use bh_types::names::TenantName;
use sqlite::{Alter, Error, Row};
use std::alloc::Global;

/// An upload's tenant and its number.
#[derive(Drop)]
struct UploadOwner {
    tenant: String,
    upload: u64,
}

fn read_owner(row: &Row) -> Result<UploadOwner, Error>
    ensures tenant { IfOk result (λ owner. (u : Stored) → row.now ≡ shown_owner u → string_bytes owner.tenant ≡ u.tenant) }
    ensures upload { IfOk result (λ owner. (u : Stored) → row.now ≡ shown_owner u → owner.upload ≡ u.upload) }
{
    Ok(UploadOwner {
        tenant: row.get(0)?,
        upload: row.get(1)?,
    })
}

/// At most `limit` of the uploads that are stale at a moment by the rules of their buckets.
fn past_rows<S: Alter, P: Shelf>(
    connection: &mut Connection<S, P>,
    moment: u64,
    limit: u64,
) -> Result<Vec<Row>, Error>
    requires inside { InTransaction S.Store P.Shelf connection.old }
    requires moment { moment < 2 ^ 63 }
    requires limit { limit < 2 ^ 63 }
    ensures reads { Reads S.Store P.Shelf connection.old connection.new result }
    ensures rows { IfOk result (λ rows. IsClean S.Store P.Shelf connection.new → IsSound (tables S.Store P.Shelf connection.old)
        → rows.items ≡ map shown_owner
        (past_uploads limit moment (tables S.Store P.Shelf connection.old).buckets (tables S.Store P.Shelf connection.old).uploads)) }
    ensures trouble { IfErr result (IsTrouble S.Store P.Shelf connection.old connection.new) }
{
    connection.database.query_all(
        "SELECT tenant, upload FROM uploads WHERE EXISTS (SELECT 1 FROM buckets WHERE buckets.tenant = uploads.tenant AND buckets.bucket = uploads.bucket AND uploads.begun + 86400 * buckets.days < ?1) ORDER BY tenant, upload, rowid LIMIT ?2",
        &[number(moment), number(limit)],
    )
}

/// The tenants and numbers of the first stale uploads of all tenants.
fn stale_rows<S: Alter, P: Shelf>(
    connection: &mut Connection<S, P>,
    at: Moment,
    limit: u32,
) -> Result<Vec<Row>, Trouble>
    requires { Works S.Store P.Shelf connection.old }
    ensures reads { MayRead S.Store P.Shelf connection.old connection.new result }
    ensures rows { IfOk result (λ rows. IsClean S.Store P.Shelf connection.new
        → rows.items ≡ map shown_owner (uploads_swept at limit (tables S.Store P.Shelf connection.old))) }
{
    let today = in_range(stale_before(0, at))?;
    let rows = or_trouble(past_rows(connection, today, u64::from(limit)))?;
    Ok(rows)
}

/// The name in a text.
fn tenant_of(alloc: Global, text: &str) -> Result<TenantName, Trouble>
    ensures { IfOk result (λ name. name ≡ text.now) }
{
    match TenantName::read(alloc, text)? {
        None => Err(Trouble::Store),
        Some(name) => Ok(name),
    }
}

/// Deletes the upload that a row names.
fn remove_row<S: Alter, P: Shelf>(
    connection: &mut Connection<S, P>,
    alloc: Global,
    row: &Row,
) -> Result<(), Trouble>
    requires { Works S.Store P.Shelf connection.old }
    ensures works { WorksOn S.Store P.Shelf (OnOk result) connection.old connection.new }
    ensures removed { OnOk result ((u : Stored) → row.now ≡ shown_owner u → IsClean S.Store P.Shelf connection.new
        → tables S.Store P.Shelf connection.new
        ≡ without_uploads u.tenant (λ n. same_number n u.upload) (tables S.Store P.Shelf connection.old)) }
{
    let owner = or_trouble(read_owner(row))?;
    let tenant = tenant_of(alloc, owner.tenant.as_str())?;
    remove_upload(connection, alloc, &tenant, owner.upload)?;
    Ok(())
}

/// Deletes the uploads that rows name.
fn remove_rows<S: Alter, P: Shelf>(
    connection: &mut Connection<S, P>,
    alloc: Global,
    rows: &[Row],
) -> Result<(), Trouble>
    requires { Works S.Store P.Shelf connection.old }
    ensures works { WorksOn S.Store P.Shelf (OnOk result) connection.old connection.new }
    ensures removed { OnOk result ((us : List Stored) → rows.now ≡ map shown_owner us → IsClean S.Store P.Shelf connection.new
        → tables S.Store P.Shelf connection.new ≡ without_each us (tables S.Store P.Shelf connection.old)) }
{
    for row in rows {
        remove_row(connection, alloc, row)?;
    }
    Ok(())
}

/// Removes the first uploads of all tenants that are stale at a moment, by tenant and number, at
/// most `limit` of them. It deletes their parts and the parts' references to blocks, but no block.
/// Returns how many uploads were removed.
pub fn remove_stale<S: Alter, P: Shelf>(
    connection: &mut Connection<S, P>,
    alloc: Global,
    at: Moment,
    limit: u32,
) -> Result<u32, Trouble>
    requires { Works S.Store P.Shelf connection.old }
    ensures works { WorksOn S.Store P.Shelf (OnOk result) connection.old connection.new }
    ensures removed { OnOk result (IsClean S.Store P.Shelf connection.new → tables S.Store P.Shelf connection.new
        ≡ without_each (uploads_swept at limit (tables S.Store P.Shelf connection.old)) (tables S.Store P.Shelf connection.old)) }
    ensures count { IfOk result (λ count. IsClean S.Store P.Shelf connection.new
        → count ≡ length (uploads_swept at limit (tables S.Store P.Shelf connection.old))) }
{
    let rows = stale_rows(connection, at, limit)?;
    remove_rows(connection, alloc, &rows)?;
    match u32::try_from(rows.len()) {
        Ok(count) => Ok(count),
        Err(_wide) => Err(Trouble::Store),
    }
}

/// Whether an upload of any tenant is stale at a moment.
pub fn any_stale<S: Alter, P: Shelf>(
    connection: &mut Connection<S, P>,
    at: Moment,
) -> Result<bool, Trouble>
    requires { Works S.Store P.Shelf connection.old }
    ensures reads { MayRead S.Store P.Shelf connection.old connection.new result }
    ensures found { IfOk result (λ found. IsClean S.Store P.Shelf connection.new
        → found ≡ list_any (is_due at (tables S.Store P.Shelf connection.old)) (tables S.Store P.Shelf connection.old).uploads) }
{
    let rows = stale_rows(connection, at, 1)?;
    match rows.first() {
        None => Ok(false),
        Some(_row) => Ok(true),
    }
}
