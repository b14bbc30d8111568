//! The versions and delete markers of a tenant.

ghost use Rattle.std.specs.Prelude.{◌≡◌, ◌<◌, ◌^◌, IfOk, OnOk};
ghost use Rattle.bh_tables.specs.Typed.{VersionRow};
ghost use Rattle.bh_base.specs.Connections.{tables, InTransaction, Becomes};
ghost use Rattle.bh_tenant_rows.specs.Shown.{shown_version};
ghost use Rattle.bh_tenant_rows.specs.Brought.{version_after, IsNext};
ghost use Rattle.bh_schema.specs.Calls.{Writes};
ghost use Rattle.bh_moved.specs.Rows.{own_version, seen_version, version_seen};

use crate::cells::number_at;
use crate::moving::Moving;
use bh_base::connection::Connection;
use bh_schema::rows::versions::{NewMarker, NewVersion, add_version, insert_marker};
use bh_shelf::shelf::Shelf;
use sqlite::{Alter, Error, ErrorCode, Row};

/// A version or delete marker of a row, without its bytes.
#[derive(Drop)]
pub struct ReadVersion {
    /// Its entry number.
    pub seq: u64,
    pub bucket: String,
    pub okey: Vec<u8>,
    /// 0 for `null`.
    pub id: u64,
    /// Seconds since 1970.
    pub stamp: u64,
    /// Bytes.
    pub size: u64,
    pub checksum: String,
}

fn read_version(row: &Row) -> Result<ReadVersion, Error>
    ensures read { IfOk result (λ it. (v : VersionRow) → row.now ≡ shown_version v → version_seen it ≡ seen_version v) }
    ensures small { IfOk result (λ it. (it.seq < 2 ^ 63) × (it.id < 2 ^ 63) × (it.stamp < 2 ^ 63) × (it.size < 2 ^ 63)) }
{
    Ok(ReadVersion {
        seq: number_at(row, 0)?,
        bucket: row.get(1)?,
        okey: row.get(2)?,
        id: number_at(row, 3)?,
        stamp: number_at(row, 5)?,
        size: number_at(row, 6)?,
        checksum: row.get(7)?,
    })
}

/// Adds the row of a version, whose body was stored, under the next entry number that the tenant
/// has already.
fn add_object<T: Alter, Q: Shelf, D>(
    to: &mut Connection<T, Q>,
    moving: &Moving<'_, D>,
    row: &Row,
) -> Result<(), Error>
    requires inside { InTransaction T.Store Q.Shelf to.old }
    ensures writes { Writes T.Store Q.Shelf to.old to.new result }
    ensures added { OnOk result ((v : VersionRow) → row.now ≡ shown_version v → v.marker ≡ 0
        → IsNext moving.now.tenant.now moving.now.numbers.next_entry (tables T.Store Q.Shelf to.old)
        → Becomes T.Store Q.Shelf to.old to.new (version_after (own_version moving.now.tenant.now v))) }
{
    let read = read_version(row)?;
    if read.size >= 0x4000_0000_0000_0000 {
        return Err(Error::SqliteFailure(ErrorCode::TooBig));
    }
    let version = NewVersion {
        tenant: moving.tenant,
        seq: read.seq,
        bucket: &read.bucket,
        okey: &read.okey,
        id: read.id,
        stamp: read.stamp,
        size: read.size,
        checksum: &read.checksum,
    };
    add_version(to, &version, moving.numbers.next_entry)
}

/// Adds the delete marker of a row, which has no bytes and no checksum.
fn add_marker<T: Alter, Q: Shelf>(
    to: &mut Connection<T, Q>,
    tenant: &str,
    row: &Row,
) -> Result<(), Error>
    requires inside { InTransaction T.Store Q.Shelf to.old }
    ensures writes { Writes T.Store Q.Shelf to.old to.new result }
    ensures added { OnOk result ((v : VersionRow) → row.now ≡ shown_version v → v.marker ≡ 1
        → Becomes T.Store Q.Shelf to.old to.new (version_after (own_version tenant.now v))) }
{
    let read = read_version(row)?;
    if read.size != 0 || !read.checksum.is_empty() {
        return Err(Error::SqliteFailure(ErrorCode::DatabaseCorrupt));
    }
    let marker = NewMarker {
        tenant,
        seq: read.seq,
        bucket: &read.bucket,
        okey: &read.okey,
        id: read.id,
        stamp: read.stamp,
    };
    insert_marker(to, &marker)?;
    Ok(())
}

/// Adds the version or delete marker of a row, under the next entry number that the tenant has
/// already. The body of a version was stored.
pub fn add_entry<T: Alter, Q: Shelf, D>(
    to: &mut Connection<T, Q>,
    moving: &Moving<'_, D>,
    row: &Row,
) -> Result<(), Error>
    requires inside { InTransaction T.Store Q.Shelf to.old }
    ensures writes { Writes T.Store Q.Shelf to.old to.new result }
    ensures added { OnOk result ((v : VersionRow) → row.now ≡ shown_version v
        → IsNext moving.now.tenant.now moving.now.numbers.next_entry (tables T.Store Q.Shelf to.old)
        → Becomes T.Store Q.Shelf to.old to.new (version_after (own_version moving.now.tenant.now v))) }
{
    match number_at(row, 4)? {
        0 => add_object(to, moving, row),
        1 => add_marker(to, moving.tenant, row),
        _ => Err(Error::SqliteFailure(ErrorCode::DatabaseCorrupt)),
    }
}
