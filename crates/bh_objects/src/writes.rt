ghost use Rattle.std.specs.Prelude.{◌≡◌, ◌<◌, ◌^◌, OnOk};
ghost use Rattle.sqlite_keyed.specs.Lists.{update_where};
ghost use Rattle.bh_model.specs.State.{Content.Marker};
ghost use Rattle.bh_tables.specs.Shown.{is_tenant};
ghost use Rattle.bh_base.specs.Connections.{IsClean, tables, InTransaction};
ghost use Rattle.bh_schema.specs.Written.{bytes_of_id, with_version as row_added};
ghost use Rattle.bh_objects.specs.Calls.{Changes};
ghost use Rattle.bh_objects.specs.Found.{IsKeyText, IsHeld};
ghost use Rattle.bh_objects.specs.Writes.{with_counters, without_entry, without_null_version, without_replaced, with_room};
ghost use Rattle.bh_objects.specs.Writes.{with_version, with_columns, marker_written};

use crate::heads::{is_marker, numbered_head};
use crate::ids::row_number;
use crate::quotas::{NewEntry, Replaced, as_replaced, find_replaced};
use crate::reads::Numbers;
use bh_base::connection::Connection;
use bh_blocks::bodies::drop_body;
use bh_schema::rows;
use bh_schema::rows::tenants::TenantNumber;
use bh_schema::rows::versions::{NewMarker, NewVersion};
use bh_schema::trouble::or_trouble;
use bh_shelf::shelf::Shelf;
use bh_storage::error::Trouble;
use bh_types::bucket::BucketName;
use bh_types::bucket_state::BucketState;
use bh_types::counters::{COUNTER_END, Counters};
use bh_types::key::ObjectKey;
use bh_types::moment::Moment;
use bh_types::names::TenantName;
use sqlite::{Alter, Error};

/// Objects and parts have fewer bytes than this, so that sums of sizes fit in 64 bits.
pub const SIZE_END: u64 = 1 << 62;

/// An object to be stored. Its bytes are passed beside it.
#[derive(Clone, Copy)]
pub struct NewObject<'a> {
    pub tenant: &'a TenantName,
    pub bucket: &'a BucketName,
    pub key: &'a ObjectKey,
    /// When it is stored.
    pub at: Moment,
    /// The date until which it is retained, if one is given; the inner `None` is an invalid date.
    pub date: Option<Option<Moment>>,
}

/// Advances the counters for a new version in a bucket of this state.
pub fn set_counters<S: Alter, P: Shelf>(
    connection: &mut Connection<S, P>,
    tenant: &TenantName,
    mode: BucketState,
    counters: Counters,
) -> Result<(), Trouble>
    requires { InTransaction S.Store P.Shelf connection.old }
    ensures changes { Changes S.Store P.Shelf connection.old connection.new result (with_counters mode counters tenant.now) }
{
    match mode {
        BucketState::Enabled => {
            or_trouble(rows::tenants::set_numbers(
                connection,
                tenant.as_str(),
                counters.version,
                counters.entry,
            ))?;
            Ok(())
        }
        BucketState::Unversioned => set_next_entry(connection, tenant, counters.entry),
        BucketState::Suspended => set_next_entry(connection, tenant, counters.entry),
    }
}

/// Advances the entry counter.
pub fn set_next_entry<S: Alter, P: Shelf>(
    connection: &mut Connection<S, P>,
    tenant: &TenantName,
    entry: u64,
) -> Result<(), Trouble>
    requires inside { InTransaction S.Store P.Shelf connection.old }
    requires small { entry < 2 ^ 63 }
    ensures changes { Changes S.Store P.Shelf connection.old connection.new result
        (λ rows. record rows {
          tenants =
              update_where (is_tenant tenant.now) (λ t. record t { next_entry = entry }) rows.tenants;
        }) }
{
    or_trouble(rows::tenants::set_number(
        connection,
        tenant.as_str(),
        TenantNumber::NextEntry,
        entry,
    ))?;
    Ok(())
}

/// Deletes the entry of a key with this number in the column `id`, and its body, whose name is its
/// entry number. The tenant's use drops by its size.
pub fn drop_entry<S: Alter, P: Shelf>(
    connection: &mut Connection<S, P>,
    tenant: &TenantName,
    bucket: &BucketName,
    key: &ObjectKey,
    number: u64,
    entry: Replaced,
) -> Result<(), Trouble>
    requires inside { InTransaction S.Store P.Shelf connection.old }
    requires small { number < 2 ^ 62 }
    requires held { IsClean S.Store P.Shelf connection.old
        → bytes_of_id tenant.now bucket.now key.now number (tables S.Store P.Shelf connection.old) ≡ entry.size }
    ensures changes { Changes S.Store P.Shelf connection.old connection.new result
        (without_entry tenant.now bucket.now key.now number entry.seq) }
{
    // No counter returns such a number, and no object has that size.
    if entry.seq >= COUNTER_END || entry.size >= SIZE_END {
        return Err(Trouble::Store);
    }
    let tenant = tenant.as_str();
    or_trouble(drop_body(connection, tenant, entry.seq))?;
    let key = key.as_str().as_bytes();
    or_trouble(rows::versions::delete_version(
        connection,
        tenant,
        bucket.as_str(),
        key,
        number,
        entry.size,
    ))?;
    Ok(())
}

/// Deletes the version `null` of a key, and its body, if there is one. A delete marker `null`
/// stays.
pub fn drop_null_version<S: Alter, P: Shelf>(
    connection: &mut Connection<S, P>,
    tenant: &TenantName,
    bucket: &BucketName,
    key: &ObjectKey,
) -> Result<(), Trouble>
    requires { InTransaction S.Store P.Shelf connection.old }
    ensures changes { Changes S.Store P.Shelf connection.old connection.new result (without_null_version tenant.now bucket.now key.now) }
{
    match numbered_head(connection, tenant, bucket, key, 0)? {
        None => Ok(()),
        Some(head) => {
            if is_marker(head.marker) {
                Ok(())
            } else {
                drop_entry(connection, tenant, bucket, key, 0, as_replaced(&head))
            }
        }
    }
}

/// Deletes what a new entry replaces, with its body: the entry `null`, if there is one.
pub fn drop_replaced<S: Alter, P: Shelf>(
    connection: &mut Connection<S, P>,
    tenant: &TenantName,
    bucket: &BucketName,
    key: &ObjectKey,
    replaced: Option<Replaced>,
) -> Result<(), Trouble>
    requires inside { InTransaction S.Store P.Shelf connection.old }
    requires held { IsClean S.Store P.Shelf connection.old
        → IsHeld tenant.now bucket.now key.now replaced (tables S.Store P.Shelf connection.old) }
    ensures changes { Changes S.Store P.Shelf connection.old connection.new result
        (without_replaced tenant.now bucket.now key.now replaced) }
{
    match replaced {
        None => Ok(()),
        Some(entry) => drop_entry(connection, tenant, bucket, key, 0, entry),
    }
}

/// Deletes what a new entry in a bucket of this state replaces: the entry `null`, unless versions
/// are numbered.
pub fn make_room<S: Alter, P: Shelf>(
    connection: &mut Connection<S, P>,
    tenant: &TenantName,
    bucket: &BucketName,
    key: &ObjectKey,
    mode: BucketState,
) -> Result<(), Trouble>
    requires { InTransaction S.Store P.Shelf connection.old }
    ensures changes { Changes S.Store P.Shelf connection.old connection.new result (with_room mode tenant.now bucket.now key.now) }
{
    let replaced = find_replaced(connection, tenant, bucket, key, mode)?;
    drop_replaced(connection, tenant, bucket, key, replaced)
}

/// A version to be added to a key; its body is stored.
#[derive(Clone, Copy)]
pub struct AddedVersion<'a> {
    pub tenant: &'a TenantName,
    pub bucket: &'a BucketName,
    pub key: &'a ObjectKey,
    /// When it is added.
    pub at: Moment,
    /// In bytes.
    pub size: u64,
    /// The base64 (RFC 4648) of its SHA-256 digest (FIPS 180-4), or the composite checksum of a
    /// completed upload.
    pub checksum: &'a str,
}

/// Adds the row of a version in a bucket of this state, advances the counters, and adds its bytes
/// to the tenant's use.
pub fn add_version<S: Alter, P: Shelf>(
    connection: &mut Connection<S, P>,
    version: &AddedVersion<'_>,
    mode: BucketState,
    numbers: Numbers,
) -> Result<(), Trouble>
    requires inside { InTransaction S.Store P.Shelf connection.old }
    ensures changes { Changes S.Store P.Shelf connection.old connection.new result
        (λ rows. with_version mode numbers.before version.now.tenant.now version.now.bucket.now version.now.key.now version.now.at
        version.now.size version.now.checksum.now (with_counters mode numbers.after version.now.tenant.now rows)) }
    ensures key { OnOk result (IsKeyText version.now.key.now) }
{
    // No object has that size.
    if version.size >= SIZE_END {
        return Err(Trouble::Store);
    }
    let row = NewVersion {
        tenant: version.tenant.as_str(),
        seq: numbers.before.entry,
        bucket: version.bucket.as_str(),
        okey: version.key.as_str().as_bytes(),
        id: row_number(mode, numbers.before.version),
        stamp: version.at.seconds(),
        size: version.size,
        checksum: version.checksum,
    };
    or_trouble(add_row(connection, &row, mode, numbers.after))
}

/// Adds the row of a version in a bucket of this state, and advances the counters.
fn add_row<S: Alter, P: Shelf>(
    connection: &mut Connection<S, P>,
    row: &NewVersion<'_>,
    mode: BucketState,
    after: Counters,
) -> Result<(), Error>
    requires inside { InTransaction S.Store P.Shelf connection.old }
    requires seq { row.now.seq < 2 ^ 63 }
    requires id { row.now.id < 2 ^ 63 }
    requires stamp { row.now.stamp < 2 ^ 63 }
    requires size { row.now.size < 2 ^ 62 }
    ensures changes { Changes S.Store P.Shelf connection.old connection.new result
        (λ rows. row_added row.now (with_counters mode after row.now.tenant.now rows)) }
{
    match mode {
        BucketState::Enabled => {
            rows::versions::add_numbered(connection, row, after.version, after.entry)
        }
        BucketState::Unversioned => rows::versions::add_version(connection, row, after.entry),
        BucketState::Suspended => rows::versions::add_version(connection, row, after.entry),
    }
}

/// Puts an object whose body is stored into a bucket of this state, as a new entry. It deletes what
/// the entry replaces, and writes the row and the counters.
pub fn write_object<S: Alter, P: Shelf>(
    connection: &mut Connection<S, P>,
    object: &NewObject<'_>,
    mode: BucketState,
    entry: NewEntry,
    size: u64,
    checksum: &str,
) -> Result<(), Trouble>
    requires inside { InTransaction S.Store P.Shelf connection.old }
    requires held { IsClean S.Store P.Shelf connection.old
        → IsHeld object.now.tenant.now object.now.bucket.now object.now.key.now entry.replaced (tables S.Store P.Shelf connection.old) }
    ensures changes { Changes S.Store P.Shelf connection.old connection.new result
        (λ rows. with_version mode entry.numbers.before object.now.tenant.now object.now.bucket.now object.now.key.now object.now.at size
        checksum.now
        (with_counters mode entry.numbers.after object.now.tenant.now
        (without_replaced object.now.tenant.now object.now.bucket.now object.now.key.now entry.replaced rows))) }
    ensures key { OnOk result (IsKeyText object.now.key.now) }
{
    let NewEntry { numbers, replaced } = entry;
    drop_replaced(
        connection,
        object.tenant,
        object.bucket,
        object.key,
        replaced,
    )?;
    let version = AddedVersion {
        tenant: object.tenant,
        bucket: object.bucket,
        key: object.key,
        at: object.at,
        size,
        checksum,
    };
    add_version(connection, &version, mode, numbers)
}

fn add_marker<S: Alter, P: Shelf>(
    connection: &mut Connection<S, P>,
    tenant: &TenantName,
    bucket: &BucketName,
    key: &ObjectKey,
    at: Moment,
    mode: BucketState,
    counters: Counters,
) -> Result<(), Trouble>
    requires inside { InTransaction S.Store P.Shelf connection.old }
    ensures changes { Changes S.Store P.Shelf connection.old connection.new result
        (with_columns mode counters tenant.now bucket.now key.now at Marker) }
    ensures key { IsKeyText key.now }
{
    let marker = NewMarker {
        tenant: tenant.as_str(),
        seq: counters.entry,
        bucket: bucket.as_str(),
        okey: key.as_str().as_bytes(),
        id: row_number(mode, counters.version),
        stamp: at.seconds(),
    };
    or_trouble(rows::versions::insert_marker(connection, &marker))?;
    Ok(())
}

/// Adds a delete marker in front of a key's entries, in a bucket of this state, under the tenant's
/// next numbers.
pub fn write_marker<S: Alter, P: Shelf>(
    connection: &mut Connection<S, P>,
    tenant: &TenantName,
    bucket: &BucketName,
    key: &ObjectKey,
    at: Moment,
    mode: BucketState,
    numbers: Numbers,
) -> Result<(), Trouble>
    requires inside { InTransaction S.Store P.Shelf connection.old }
    ensures changes { Changes S.Store P.Shelf connection.old connection.new result
        (marker_written mode numbers.before numbers.after tenant.now bucket.now key.now at) }
    ensures key { OnOk result (IsKeyText key.now) }
{
    set_counters(connection, tenant, mode, numbers.after)?;
    make_room(connection, tenant, bucket, key, mode)?;
    add_marker(connection, tenant, bucket, key, at, mode, numbers.before)
}
