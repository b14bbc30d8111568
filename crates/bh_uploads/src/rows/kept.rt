//! Adds and deletes parts, and updates the bytes that their tenant and their upload use.

ghost use Rattle.std.specs.Prelude.{ℕ, ◌≡◌, ◌∷◌, [], ◌<◌, ◌^◌, map, filter, IfOk, IfErr, OnOk};
ghost use Rattle.bh_tables.specs.Typed.{number as stored, totals_of, bytes_kept, kept_changed};
ghost use Rattle.bh_tables.specs.Shown.{is_upload, shown_kept};
ghost use Rattle.bh_schema.specs.Calls.{Reads, Writes, WritesOn};
ghost use Rattle.bh_base.specs.Connections.{IsClean, tables, InTransaction, InMidst, Rewrites, Becomes, IsTrouble};
ghost use Rattle.bh_uploads.specs.Rows.{stored_part};
ghost use Rattle.bh_uploads.specs.Found.{part_bytes_in};
ghost use Rattle.bh_uploads.specs.Writes.{part_placed, without_parts};

use crate::rows::parts::{PartRecord, delete_part, delete_parts, insert_part};
use bh_base::connection::Connection;
use bh_schema::rows::number::number;
use bh_schema::rows::tenants::{use_entry, use_less};
use bh_schema::rows::writing::write;
use bh_shelf::shelf::Shelf;
use sqlite::types::ToSql;
use sqlite::{Alter, Error, ErrorCode, Row};

/// Adds and subtracts bytes of an upload, as one step of a write of its parts.
fn keep_bytes<S: Alter, P: Shelf>(
    connection: &mut Connection<S, P>,
    tenant: &str,
    upload: u64,
    more: u64,
    less: u64,
) -> Result<usize, Error>
    requires midst { InMidst S.Store P.Shelf connection.old }
    requires upload { upload < 2 ^ 63 }
    requires more { more < 2 ^ 62 }
    requires less { less < 2 ^ 62 }
    ensures writes { WritesOn S.Store P.Shelf connection.old connection.new result }
    ensures rewrites { OnOk result (Rewrites S.Store P.Shelf connection.old connection.new (kept_changed (tenant.now, upload) more less)
        (λ rows. rows)) }
{
    write(
        &mut connection.database,
        "UPDATE uploads SET bytes_kept = bytes_kept + ?3 - ?4 WHERE tenant = ?1 AND upload = ?2",
        &[tenant.to_sql(), number(upload), number(more), number(less)],
    )
}

fn kept_rows<S: Alter, P: Shelf>(
    connection: &mut Connection<S, P>,
    tenant: &str,
    upload: u64,
) -> Result<Vec<Row>, Error>
    requires inside { InTransaction S.Store P.Shelf connection.old }
    requires small { upload < 2 ^ 63 }
    ensures reads { Reads S.Store P.Shelf connection.old connection.new result }
    ensures rows { IfOk result (λ rows. IsClean S.Store P.Shelf connection.new
        → rows.items ≡ map (shown_kept (totals_of (tables S.Store P.Shelf connection.old)))
        (filter (is_upload tenant.now upload) (tables S.Store P.Shelf connection.old).uploads)) }
    ensures trouble { IfErr result (IsTrouble S.Store P.Shelf connection.old connection.new) }
{
    connection.database.query_all(
        "SELECT bytes_kept FROM uploads WHERE tenant = ?1 AND upload = ?2 ORDER BY rowid",
        &[tenant.to_sql(), number(upload)],
    )
}

/// Checks that a sum can be lowered by this number of bytes.
fn read_kept(row: &Row) -> Result<u64, Error>
    ensures read { IfOk result (λ n. (m : ℕ) → row.now ≡ stored m ∷ [] → n ≡ m) }
    ensures small { IfOk result (λ n. n < 2 ^ 62) }
{
    let kept: u64 = row.get(0)?;
    if kept < 1 << 62 {
        Ok(kept)
    } else {
        Err(Error::SqliteFailure(ErrorCode::TooBig))
    }
}

/// The bytes of an upload's parts, from its own row. The upload must exist.
fn find_kept<S: Alter, P: Shelf>(
    connection: &mut Connection<S, P>,
    tenant: &str,
    upload: u64,
) -> Result<u64, Error>
    requires inside { InTransaction S.Store P.Shelf connection.old }
    requires small { upload < 2 ^ 63 }
    ensures reads { Reads S.Store P.Shelf connection.old connection.new result }
    ensures kept { IfOk result (λ n. IsClean S.Store P.Shelf connection.new
        → bytes_kept (tables S.Store P.Shelf connection.old).parts tenant.now upload ≡ n) }
    ensures low { IfOk result (λ n. n < 2 ^ 62) }
{
    let rows = kept_rows(connection, tenant, upload)?;
    match rows.first() {
        Some(row) => read_kept(row),
        None => Err(Error::SqliteFailure(ErrorCode::DatabaseCorrupt)),
    }
}

/// Adds a part in place of the one with its number. The tenant's next entry gets this number.
pub fn place_part<S: Alter, P: Shelf>(
    connection: &mut Connection<S, P>,
    part: &PartRecord<'_>,
    next: u64,
    replaced: u64,
) -> Result<(), Error>
    requires inside { InTransaction S.Store P.Shelf connection.old }
    requires upload { part.now.upload < 2 ^ 63 }
    requires number { part.now.number < 2 ^ 63 }
    requires size { part.now.size < 2 ^ 62 }
    requires stamp { part.now.stamp < 2 ^ 63 }
    requires body { part.now.body < 2 ^ 63 }
    requires small { next < 2 ^ 63 }
    requires few { replaced < 2 ^ 62 }
    requires held { IsClean S.Store P.Shelf connection.old
        → part_bytes_in part.now.tenant.now part.now.upload part.now.number (tables S.Store P.Shelf connection.old) ≡ replaced }
    ensures writes { Writes S.Store P.Shelf connection.old connection.new result }
    ensures holds { OnOk result (Becomes S.Store P.Shelf connection.old connection.new (part_placed (stored_part part.now) next)) }
{
    // Asked for what it ensures: one part of an upload has a number at most.
    let _schema = connection.database.schema();
    delete_part(connection, part.tenant, part.upload, part.number)?;
    insert_part(connection, part)?;
    use_entry(connection, part.tenant, next, part.size, replaced)?;
    keep_bytes(connection, part.tenant, part.upload, part.size, replaced)?;
    Ok(())
}

/// Deletes an upload's parts, and subtracts their bytes from the upload's.
fn take_parts<S: Alter, P: Shelf>(
    connection: &mut Connection<S, P>,
    tenant: &str,
    upload: u64,
    kept: u64,
) -> Result<(), Error>
    requires inside { InTransaction S.Store P.Shelf connection.old }
    requires small { upload < 2 ^ 63 }
    requires low { kept < 2 ^ 62 }
    requires held { IsClean S.Store P.Shelf connection.old
        → bytes_kept (tables S.Store P.Shelf connection.old).parts tenant.now upload ≡ kept }
    ensures writes { Writes S.Store P.Shelf connection.old connection.new result }
    ensures holds { OnOk result (Becomes S.Store P.Shelf connection.old connection.new (without_parts tenant.now upload)) }
{
    delete_parts(connection, tenant, upload)?;
    use_less(connection, tenant, kept)?;
    keep_bytes(connection, tenant, upload, 0, kept)?;
    Ok(())
}

/// Deletes all parts of an upload, which must exist.
pub fn remove_parts<S: Alter, P: Shelf>(
    connection: &mut Connection<S, P>,
    tenant: &str,
    upload: u64,
) -> Result<(), Error>
    requires inside { InTransaction S.Store P.Shelf connection.old }
    requires small { upload < 2 ^ 63 }
    ensures writes { Writes S.Store P.Shelf connection.old connection.new result }
    ensures holds { OnOk result (Becomes S.Store P.Shelf connection.old connection.new (without_parts tenant.now upload)) }
{
    let kept = find_kept(connection, tenant, upload)?;
    take_parts(connection, tenant, upload, kept)
}
