ghost use Rattle.std.specs.Prelude.{◌≡◌, [], ◌<◌, ◌^◌, true, Option, Some, find, option_map, IfOk, IfErr, OnOk};
ghost use Rattle.bh_rows.specs.Means.{is_trouble};
ghost use Rattle.std.specs.Str.{IsUtf8};
ghost use Rattle.bh_tables.specs.Typed.{VersionRow as Stored};
ghost use Rattle.bh_tables.specs.Shown.{is_version};
ghost use Rattle.bh_schema.specs.Calls.{Reads, Writes, WritesOn};
ghost use Rattle.bh_base.specs.Connections.{IsClean, tables, InTransaction, InMidst, Rewrites, Enters, Becomes, IsTrouble, IsTroubleIf};
ghost use Rattle.bh_schema.specs.Rows.{seen_head, newest_at, IsNewVersion};
ghost use Rattle.bh_schema.specs.Views.{head_seen, head_reading};
ghost use Rattle.bh_schema.specs.Tallies.{place_of, marker_in, place_after, coming, going, entries_changed, IsNewer};
ghost use Rattle.bh_schema.specs.Written.{with_version, with_marker, without_version, with_next, with_numbers, bytes_of_id};

use crate::rows::number::number;
use crate::rows::places::{NewestPlaces, Place, newest_places, place_of_id};
use crate::rows::reading::{FromRow, first_of};
use crate::rows::tallies::{EntryChange, recount};
use crate::rows::tenants::{use_entry, use_less, use_numbers};
use crate::rows::writing::write;
use bh_base::connection::Connection;
use bh_shelf::shelf::Shelf;
use sqlite::types::ToSql;
use sqlite::{Alter, Error, ErrorCode, Row};

/// The metadata of a version or a marker, without its bytes.
#[derive(Drop)]
pub struct VersionHead {
    /// Its entry number, which orders the versions of a key.
    pub seq: u64,
    /// 0 for `null`.
    pub id: u64,
    /// 1 for a delete marker, 0 for a version.
    pub marker: u64,
    /// When it was written, in seconds since 1970.
    pub stamp: u64,
    /// Bytes.
    pub size: u64,
    /// The text of its checksum, empty for a marker.
    pub checksum: String,
}

/// A version to be added.
#[derive(Clone, Copy)]
pub struct NewVersion<'a> {
    pub tenant: &'a str,
    /// Its entry number.
    pub seq: u64,
    pub bucket: &'a str,
    pub okey: &'a [u8],
    /// 0 for `null`.
    pub id: u64,
    /// When it is written, in seconds since 1970.
    pub stamp: u64,
    /// Bytes.
    pub size: u64,
    pub checksum: &'a str,
}

/// A marker to be added.
#[derive(Clone, Copy)]
pub struct NewMarker<'a> {
    pub tenant: &'a str,
    /// Its entry number.
    pub seq: u64,
    pub bucket: &'a str,
    pub okey: &'a [u8],
    /// 0 for `null`.
    pub id: u64,
    /// When it is written, in seconds since 1970.
    pub stamp: u64,
}

impl FromRow for VersionHead {
    ghost reading = { head_reading };

    fn read(row: &Row) -> Result<VersionHead, Error> {
        Ok(VersionHead {
            seq: row.get(0)?,
            id: row.get(1)?,
            marker: row.get(2)?,
            stamp: row.get(3)?,
            size: row.get(4)?,
            checksum: row.get(5)?,
        })
    }
}

/// The newest version or marker of a key, if it has one.
pub fn newest_version<S: Alter, P: Shelf>(
    connection: &mut Connection<S, P>,
    tenant: &str,
    bucket: &str,
    okey: &[u8],
) -> Result<Option<VersionHead>, Error>
    requires inside { InTransaction S.Store P.Shelf connection.old }
    ensures reads { Reads S.Store P.Shelf connection.old connection.new result }
    ensures found { IfOk result (λ found. IsClean S.Store P.Shelf connection.new
        → option_map head_seen found ≡ option_map seen_head
        (newest_at tenant.now bucket.now okey.now (tables S.Store P.Shelf connection.old).versions)) }
    ensures trouble { IfErr result (IsTroubleIf S.Store P.Shelf connection.old connection.new
        ((v : Stored) → newest_at tenant.now bucket.now okey.now (tables S.Store P.Shelf connection.old).versions ≡ Some v
        → IsUtf8 v.checksum)) }
{
    let rows = connection.database.query_all(
        "SELECT seq, id, marker, stamp, size, sum FROM versions WHERE tenant = ?1 AND bucket = ?2 AND okey = ?3 ORDER BY seq DESC, rowid LIMIT 1",
        &[tenant.to_sql(), bucket.to_sql(), okey.to_sql()],
    )?;
    first_of(&rows)
}

/// The version or marker of a key with this id, without its bytes, if there is one; 0 is `null`.
pub fn version_of_id<S: Alter, P: Shelf>(
    connection: &mut Connection<S, P>,
    tenant: &str,
    bucket: &str,
    okey: &[u8],
    id: u64,
) -> Result<Option<VersionHead>, Error>
    requires inside { InTransaction S.Store P.Shelf connection.old }
    requires small { id < 2 ^ 63 }
    ensures reads { Reads S.Store P.Shelf connection.old connection.new result }
    ensures found { IfOk result (λ found. IsClean S.Store P.Shelf connection.new
        → option_map head_seen found ≡ option_map seen_head
        (find (is_version tenant.now bucket.now okey.now id) (tables S.Store P.Shelf connection.old).versions)) }
    ensures trouble { IfErr result (IsTroubleIf S.Store P.Shelf connection.old connection.new
        ((v : Stored) → find (is_version tenant.now bucket.now okey.now id) (tables S.Store P.Shelf connection.old).versions ≡ Some v
        → IsUtf8 v.checksum)) }
{
    let rows = connection.database.query_all(
        "SELECT seq, id, marker, stamp, size, sum FROM versions WHERE tenant = ?1 AND bucket = ?2 AND okey = ?3 AND id = ?4 ORDER BY rowid",
        &[tenant.to_sql(), bucket.to_sql(), okey.to_sql(), number(id)],
    )?;
    first_of(&rows)
}

/// Adds the row of a version, whose bytes are those of the body of its name, as one step of a write
/// that updates its tenant's use.
fn insert_version<S: Alter, P: Shelf>(
    connection: &mut Connection<S, P>,
    version: &NewVersion<'_>,
) -> Result<usize, Error>
    requires midst { InMidst S.Store P.Shelf connection.old }
    requires seq { version.now.seq < 2 ^ 63 }
    requires id { version.now.id < 2 ^ 63 }
    requires stamp { version.now.stamp < 2 ^ 63 }
    requires size { version.now.size < 2 ^ 63 }
    ensures writes { WritesOn S.Store P.Shelf connection.old connection.new result }
    ensures rewrites { OnOk result (Rewrites S.Store P.Shelf connection.old connection.new (λ sums. sums) (with_version version.now)) }
{
    write(
        &mut connection.database,
        "INSERT INTO versions (tenant, seq, bucket, okey, id, marker, stamp, size, sum) VALUES (?1, ?2, ?3, ?4, ?5, 0, ?6, ?7, ?8)",
        &[
            version.tenant.to_sql(),
            number(version.seq),
            version.bucket.to_sql(),
            version.okey.to_sql(),
            number(version.id),
            number(version.stamp),
            number(version.size),
            version.checksum.to_sql(),
        ],
    )
}

/// Deletes the row of the version or marker of a key with this id, as one step of a write that
/// updates its tenant's use.
fn remove_version<S: Alter, P: Shelf>(
    connection: &mut Connection<S, P>,
    tenant: &str,
    bucket: &str,
    okey: &[u8],
    id: u64,
) -> Result<usize, Error>
    requires midst { InMidst S.Store P.Shelf connection.old }
    requires small { id < 2 ^ 63 }
    ensures writes { WritesOn S.Store P.Shelf connection.old connection.new result }
    ensures rewrites { OnOk result (Rewrites S.Store P.Shelf connection.old connection.new (λ sums. sums)
        (without_version tenant.now bucket.now okey.now id)) }
{
    write(
        &mut connection.database,
        "DELETE FROM versions WHERE tenant = ?1 AND bucket = ?2 AND okey = ?3 AND id = ?4",
        &[tenant.to_sql(), bucket.to_sql(), okey.to_sql(), number(id)],
    )
}

/// Adds the row of a delete marker, as one step of a write that updates its tenant's tally.
fn insert_marker_row<S: Alter, P: Shelf>(
    connection: &mut Connection<S, P>,
    marker: &NewMarker<'_>,
) -> Result<usize, Error>
    requires midst { InMidst S.Store P.Shelf connection.old }
    requires seq { marker.now.seq < 2 ^ 63 }
    requires id { marker.now.id < 2 ^ 63 }
    requires stamp { marker.now.stamp < 2 ^ 63 }
    ensures writes { WritesOn S.Store P.Shelf connection.old connection.new result }
    ensures rewrites { OnOk result (Rewrites S.Store P.Shelf connection.old connection.new (λ sums. sums) (with_marker marker.now)) }
    ensures trouble { IfErr result (IsTroubleIf S.Store P.Shelf connection.old connection.new (IsClean S.Store P.Shelf connection.old
        → IsNewVersion (tables S.Store P.Shelf connection.old) marker.now.tenant.now marker.now.bucket.now marker.now.okey.now
        marker.now.seq marker.now.id)) }
{
    write(
        &mut connection.database,
        "INSERT INTO versions (tenant, seq, bucket, okey, id, marker, stamp, size, sum) VALUES (?1, ?2, ?3, ?4, ?5, 1, ?6, 0, '')",
        &[
            marker.tenant.to_sql(),
            number(marker.seq),
            marker.bucket.to_sql(),
            marker.okey.to_sql(),
            number(marker.id),
            number(marker.stamp),
        ],
    )
}

/// The marker of a key's newest entry, which must be older than the one with this number.
fn marker_before(newest: Option<Place>, seq: u64) -> Result<Option<u64>, Error>
    ensures read { IfOk result (λ marker. (o : Option Stored) → newest ≡ option_map place_of o → marker ≡ option_map marker_in o) }
    ensures older { IfOk result (λ marker. (v : Stored) → newest ≡ option_map place_of (Some v) → v.seq < seq) }
    ensures trouble { IfErr result (λ e. is_trouble e ≡ true) }
{
    match newest {
        None => Ok(None),
        Some(place) => {
            if place.seq < seq {
                Ok(Some(place.marker))
            } else {
                Err(Error::SqliteFailure(ErrorCode::DatabaseCorrupt))
            }
        }
    }
}

/// Updates a tenant's tally for a new entry of a key: the first step of that write.
fn entry_comes<S: Alter, P: Shelf>(
    connection: &mut Connection<S, P>,
    tenant: &str,
    bucket: &str,
    okey: &[u8],
    seq: u64,
    marker: u64,
) -> Result<(), Error>
    requires inside { InTransaction S.Store P.Shelf connection.old }
    ensures writes { WritesOn S.Store P.Shelf connection.old connection.new result }
    ensures enters { OnOk result (Enters S.Store P.Shelf connection.old connection.new
        (entries_changed tenant.now (coming tenant.now bucket.now okey.now marker (tables S.Store P.Shelf connection.old)))
        (λ rows. rows)) }
    ensures newer { OnOk result (IsClean S.Store P.Shelf connection.new
        → IsNewer tenant.now bucket.now okey.now seq (tables S.Store P.Shelf connection.old)) }
    ensures trouble { IfErr result (IsTrouble S.Store P.Shelf connection.old connection.new) }
{
    // Asked for what it ensures: one entry of a tenant has a number at most.
    let _schema = connection.database.schema();
    let newest = newest_places(connection, tenant, bucket, okey)?;
    let before = marker_before(newest.first, seq)?;
    recount(
        connection,
        tenant,
        EntryChange {
            come: Some(marker),
            gone: None,
            after: Some(marker),
            before,
        },
    )
}

fn marker_of(place: Option<Place>) -> Option<u64>
    ensures { (o : Option Stored) → place ≡ option_map place_of o → result ≡ option_map marker_in o }
{
    match place {
        None => None,
        Some(found) => Some(found.marker),
    }
}

/// The newest entry of a key after the one with this id is deleted, given the two newest before.
fn newest_after(newest: NewestPlaces, id: u64) -> Option<Place>
    ensures { result ≡ place_after id newest }
{
    match newest.first {
        None => None,
        Some(place) => {
            if place.id == id {
                newest.second
            } else {
                Some(place)
            }
        }
    }
}

/// Updates a tenant's tally for the deletion of the entry of a key with this id: the first step of
/// that write.
fn entry_goes<S: Alter, P: Shelf>(
    connection: &mut Connection<S, P>,
    tenant: &str,
    bucket: &str,
    okey: &[u8],
    id: u64,
) -> Result<(), Error>
    requires inside { InTransaction S.Store P.Shelf connection.old }
    requires small { id < 2 ^ 63 }
    ensures writes { WritesOn S.Store P.Shelf connection.old connection.new result }
    ensures enters { OnOk result (Enters S.Store P.Shelf connection.old connection.new
        (entries_changed tenant.now (going tenant.now bucket.now okey.now id (tables S.Store P.Shelf connection.old))) (λ rows. rows)) }
{
    // Asked for what it ensures: one entry of a key has an id at most.
    let _schema = connection.database.schema();
    let newest = newest_places(connection, tenant, bucket, okey)?;
    let gone = place_of_id(connection, tenant, bucket, okey, id)?;
    recount(
        connection,
        tenant,
        EntryChange {
            come: None,
            gone: marker_of(gone),
            after: marker_of(newest_after(newest, id)),
            before: marker_of(newest.first),
        },
    )
}

/// Adds a version, whose bytes are those of the body of its name. The tenant's next entry gets this
/// number.
pub fn add_version<S: Alter, P: Shelf>(
    connection: &mut Connection<S, P>,
    version: &NewVersion<'_>,
    next: u64,
) -> Result<(), Error>
    requires inside { InTransaction S.Store P.Shelf connection.old }
    requires seq { version.now.seq < 2 ^ 63 }
    requires id { version.now.id < 2 ^ 63 }
    requires stamp { version.now.stamp < 2 ^ 63 }
    requires size { version.now.size < 2 ^ 62 }
    requires small { next < 2 ^ 63 }
    ensures writes { Writes S.Store P.Shelf connection.old connection.new result }
    ensures holds { OnOk result (Becomes S.Store P.Shelf connection.old connection.new
        (λ rows. with_version version.now (with_next version.now.tenant.now next rows))) }
{
    // Asked for what it ensures: one entry of a tenant has a number at most.
    let _schema = connection.database.schema();
    entry_comes(
        connection,
        version.tenant,
        version.bucket,
        version.okey,
        version.seq,
        0,
    )?;
    use_entry(connection, version.tenant, next, version.size, 0)?;
    insert_version(connection, version)?;
    Ok(())
}

/// Adds a numbered version. The tenant's next numbered version and next entry get these numbers.
pub fn add_numbered<S: Alter, P: Shelf>(
    connection: &mut Connection<S, P>,
    version: &NewVersion<'_>,
    next_version: u64,
    next_entry: u64,
) -> Result<(), Error>
    requires inside { InTransaction S.Store P.Shelf connection.old }
    requires seq { version.now.seq < 2 ^ 63 }
    requires id { version.now.id < 2 ^ 63 }
    requires stamp { version.now.stamp < 2 ^ 63 }
    requires size { version.now.size < 2 ^ 62 }
    requires version { next_version < 2 ^ 63 }
    requires entry { next_entry < 2 ^ 63 }
    ensures writes { Writes S.Store P.Shelf connection.old connection.new result }
    ensures holds { OnOk result (Becomes S.Store P.Shelf connection.old connection.new
        (λ rows. with_version version.now (with_numbers version.now.tenant.now next_version next_entry rows))) }
{
    // Asked for what it ensures: one entry of a tenant has a number at most.
    let _schema = connection.database.schema();
    entry_comes(
        connection,
        version.tenant,
        version.bucket,
        version.okey,
        version.seq,
        0,
    )?;
    use_numbers(
        connection,
        version.tenant,
        next_version,
        next_entry,
        version.size,
        0,
    )?;
    insert_version(connection, version)?;
    Ok(())
}

/// Adds a delete marker.
pub fn insert_marker<S: Alter, P: Shelf>(
    connection: &mut Connection<S, P>,
    marker: &NewMarker<'_>,
) -> Result<usize, Error>
    requires inside { InTransaction S.Store P.Shelf connection.old }
    requires seq { marker.now.seq < 2 ^ 63 }
    requires id { marker.now.id < 2 ^ 63 }
    requires stamp { marker.now.stamp < 2 ^ 63 }
    ensures writes { Writes S.Store P.Shelf connection.old connection.new result }
    ensures holds { OnOk result (Becomes S.Store P.Shelf connection.old connection.new (with_marker marker.now)) }
    ensures trouble { IfErr result (IsTroubleIf S.Store P.Shelf connection.old connection.new
        (IsNewVersion (tables S.Store P.Shelf connection.old) marker.now.tenant.now marker.now.bucket.now marker.now.okey.now
        marker.now.seq marker.now.id)) }
{
    // Asked for what it ensures: one entry of a tenant has a number at most.
    let _schema = connection.database.schema();
    entry_comes(
        connection,
        marker.tenant,
        marker.bucket,
        marker.okey,
        marker.seq,
        1,
    )?;
    insert_marker_row(connection, marker)
}

/// Deletes the version or marker of a key with this id, and subtracts its size from the tenant's
/// use.
pub fn delete_version<S: Alter, P: Shelf>(
    connection: &mut Connection<S, P>,
    tenant: &str,
    bucket: &str,
    okey: &[u8],
    id: u64,
    size: u64,
) -> Result<(), Error>
    requires inside { InTransaction S.Store P.Shelf connection.old }
    requires small { id < 2 ^ 63 }
    requires few { size < 2 ^ 62 }
    requires held { IsClean S.Store P.Shelf connection.old
        → bytes_of_id tenant.now bucket.now okey.now id (tables S.Store P.Shelf connection.old) ≡ size }
    ensures writes { Writes S.Store P.Shelf connection.old connection.new result }
    ensures holds { OnOk result (Becomes S.Store P.Shelf connection.old connection.new
        (without_version tenant.now bucket.now okey.now id)) }
{
    // Asked for what it ensures: one entry of a key has an id at most.
    let _schema = connection.database.schema();
    entry_goes(connection, tenant, bucket, okey, id)?;
    use_less(connection, tenant, size)?;
    remove_version(connection, tenant, bucket, okey, id)?;
    Ok(())
}
