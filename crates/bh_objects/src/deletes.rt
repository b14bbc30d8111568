ghost use Rattle.std.specs.Prelude.{◌≡◌, ◌≢◌, ◌≤◌, ◌<◌, ◌^◌, find, Some, None, option_map, Ok, false};
ghost use Rattle.bh_types.specs.declared.bucket_state.BucketState.TheVariants.{Unversioned};
ghost use Rattle.bh_types.specs.declared.wanted.Wanted.TheVariants.{Current, Named};
ghost use Rattle.bh_model.specs.Operations as machine;
ghost use Rattle.bh_storage.specs.Answers.{removed_answer};
ghost use Rattle.bh_storage.specs.Calls.{Unless, Carries};
ghost use Rattle.bh_tables.specs.Shown.{is_version};
ghost use Rattle.bh_view.specs.View.{view, latest_of, id_of};
ghost use Rattle.bh_base.specs.Connections.{IsClean, tables, InTransaction};
ghost use Rattle.bh_schema.specs.Written.{bytes_of_id};
ghost use Rattle.bh_schema.specs.Working.{Works, WorksOn};
ghost use Rattle.bh_schema.specs.Rows.{seen_head};
ghost use Rattle.bh_schema.specs.Views.{head_seen};
ghost use Rattle.bh_objects.specs.Calls.{Changes};
ghost use Rattle.bh_objects.specs.Dates.{with_date};
ghost use Rattle.bh_objects.specs.Found.{mode_in};
ghost use Rattle.bh_objects.specs.Writes.{without_entry};

use crate::dates::{past_date, set_date};
use crate::heads::{is_marker, numbered_head};
use crate::ids::{number_of, told_id};
use crate::quotas::{Replaced, as_replaced};
use crate::reads::{Numbers, bucket_state, new_numbers};
use crate::writes::{drop_entry, drop_null_version, write_marker};
use bh_base::connection::Connection;
use bh_model::entries::new_id;
use bh_schema::rows::versions::VersionHead;
use bh_shelf::shelf::Shelf;
use bh_storage::answer::RemovedEntry;
use bh_storage::error::{StepError, Trouble};
use bh_types::bucket::BucketName;
use bh_types::bucket_state::BucketState;
use bh_types::id::VersionId;
use bh_types::key::ObjectKey;
use bh_types::moment::Moment;
use bh_types::names::TenantName;
use bh_types::refusal::Refusal;
use bh_types::wanted::Wanted;
use sqlite::Alter;

/// The answer if no delete marker was made, and no entry was deleted by its id.
pub fn nothing_told() -> RemovedEntry
    ensures { removed_answer result ≡ machine.Removed None false }
{
    RemovedEntry {
        id: None,
        marker: false,
    }
}

/// Adds a delete marker, in a bucket that has or had versions. Refusal: CounterExhausted.
fn make_marker<S: Alter, P: Shelf>(
    connection: &mut Connection<S, P>,
    tenant: &TenantName,
    at: Moment,
    bucket: &BucketName,
    key: &ObjectKey,
    mode: BucketState,
) -> Result<RemovedEntry, StepError<Refusal>>
    requires working { Works S.Store P.Shelf connection.old }
    requires early { IsClean S.Store P.Shelf connection.old → at ≤ latest_of (tables S.Store P.Shelf connection.old) }
    requires state { IsClean S.Store P.Shelf connection.old
        → mode_in bucket.now (view (tables S.Store P.Shelf connection.old) tenant.now) ≡ Ok mode }
    requires versioned { mode ≢ Unversioned }
    ensures works { WorksOn S.Store P.Shelf (Unless result) connection.old connection.new }
    ensures carries { IsClean S.Store P.Shelf connection.new
        → Carries removed_answer tenant.now (machine.delete_object at bucket.now key.now Current)
        (tables S.Store P.Shelf connection.old) (tables S.Store P.Shelf connection.new) result }
{
    let numbers = new_numbers(connection, tenant, mode)?;
    let Numbers { before, .. } = numbers;
    write_marker(connection, tenant, bucket, key, at, mode, numbers)?;
    Ok(RemovedEntry {
        id: Some(new_id(mode, before.version)),
        marker: true,
    })
}

/// Deletes the version `null` in a bucket that never had versions. A delete marker stays: no
/// operation leaves one there, but the file that was opened may have one.
fn delete_null<S: Alter, P: Shelf>(
    connection: &mut Connection<S, P>,
    tenant: &TenantName,
    at: Moment,
    bucket: &BucketName,
    key: &ObjectKey,
) -> Result<RemovedEntry, StepError<Refusal>>
    requires working { Works S.Store P.Shelf connection.old }
    requires state { IsClean S.Store P.Shelf connection.old
        → mode_in bucket.now (view (tables S.Store P.Shelf connection.old) tenant.now) ≡ Ok Unversioned }
    ensures works { WorksOn S.Store P.Shelf (Unless result) connection.old connection.new }
    ensures carries { IsClean S.Store P.Shelf connection.new
        → Carries removed_answer tenant.now (machine.delete_object at bucket.now key.now Current)
        (tables S.Store P.Shelf connection.old) (tables S.Store P.Shelf connection.new) result }
{
    drop_null_version(connection, tenant, bucket, key)?;
    Ok(nothing_told())
}

/// Deletes the entry of a key with this number in the column `id`, and first its date, if it has
/// one.
fn drop_dated<S: Alter, P: Shelf>(
    connection: &mut Connection<S, P>,
    tenant: &TenantName,
    bucket: &BucketName,
    key: &ObjectKey,
    number: u64,
    entry: Replaced,
    date: Option<Moment>,
) -> Result<(), Trouble>
    requires inside { InTransaction S.Store P.Shelf connection.old }
    requires small { number < 2 ^ 62 }
    requires held { IsClean S.Store P.Shelf connection.old
        → bytes_of_id tenant.now bucket.now key.now number (tables S.Store P.Shelf connection.old) ≡ entry.size }
    ensures changes { Changes S.Store P.Shelf connection.old connection.new result
        (λ rows. without_entry tenant.now bucket.now key.now number entry.seq (with_date tenant.now entry.seq date None rows)) }
{
    set_date(connection, tenant, entry.seq, date, None)?;
    drop_entry(connection, tenant, bucket, key, number, entry)
}

/// Deletes the entry that was found of a key with this id, and this number in the column `id`.
/// Fails with AccessDenied before its date.
fn delete_found<S: Alter, P: Shelf>(
    connection: &mut Connection<S, P>,
    tenant: &TenantName,
    at: Moment,
    bucket: &BucketName,
    key: &ObjectKey,
    mode: BucketState,
    id: VersionId,
    number: u64,
    head: &VersionHead,
) -> Result<RemovedEntry, StepError<Refusal>>
    requires working { Works S.Store P.Shelf connection.old }
    requires state { IsClean S.Store P.Shelf connection.old
        → mode_in bucket.now (view (tables S.Store P.Shelf connection.old) tenant.now) ≡ Ok mode }
    requires number { id_of number ≡ id }
    requires small { number < 2 ^ 62 }
    requires found { IsClean S.Store P.Shelf connection.old → Some (head_seen head.now) ≡ option_map seen_head
        (find (is_version tenant.now bucket.now key.now number) (tables S.Store P.Shelf connection.old).versions) }
    ensures works { WorksOn S.Store P.Shelf (Unless result) connection.old connection.new }
    ensures carries { IsClean S.Store P.Shelf connection.new
        → Carries removed_answer tenant.now (machine.delete_object at bucket.now key.now (Named id))
        (tables S.Store P.Shelf connection.old) (tables S.Store P.Shelf connection.new) result }
{
    let date = past_date(connection, tenant, head.seq, at)?;
    let entry = as_replaced(head);
    drop_dated(connection, tenant, bucket, key, number, entry, date)?;
    Ok(RemovedEntry {
        id: told_id(mode, id),
        marker: is_marker(head.marker),
    })
}

/// Deletes the entry of a key with this id, and this number in the column `id`, if there is one.
/// Fails with AccessDenied before its date.
fn delete_numbered<S: Alter, P: Shelf>(
    connection: &mut Connection<S, P>,
    tenant: &TenantName,
    at: Moment,
    bucket: &BucketName,
    key: &ObjectKey,
    mode: BucketState,
    id: VersionId,
    number: u64,
) -> Result<RemovedEntry, StepError<Refusal>>
    requires working { Works S.Store P.Shelf connection.old }
    requires state { IsClean S.Store P.Shelf connection.old
        → mode_in bucket.now (view (tables S.Store P.Shelf connection.old) tenant.now) ≡ Ok mode }
    requires number { id_of number ≡ id }
    requires small { number < 2 ^ 62 }
    ensures works { WorksOn S.Store P.Shelf (Unless result) connection.old connection.new }
    ensures carries { IsClean S.Store P.Shelf connection.new
        → Carries removed_answer tenant.now (machine.delete_object at bucket.now key.now (Named id))
        (tables S.Store P.Shelf connection.old) (tables S.Store P.Shelf connection.new) result }
{
    let found = numbered_head(connection, tenant, bucket, key, number)?;
    match found {
        None => Ok(nothing_told()),
        Some(head) => { delete_found(connection, tenant, at, bucket, key, mode, id, number, &head) }
    }
}

/// A delete without an id.
fn delete_current<S: Alter, P: Shelf>(
    connection: &mut Connection<S, P>,
    tenant: &TenantName,
    at: Moment,
    bucket: &BucketName,
    key: &ObjectKey,
    mode: BucketState,
) -> Result<RemovedEntry, StepError<Refusal>>
    requires working { Works S.Store P.Shelf connection.old }
    requires early { IsClean S.Store P.Shelf connection.old → at ≤ latest_of (tables S.Store P.Shelf connection.old) }
    requires state { IsClean S.Store P.Shelf connection.old
        → mode_in bucket.now (view (tables S.Store P.Shelf connection.old) tenant.now) ≡ Ok mode }
    ensures works { WorksOn S.Store P.Shelf (Unless result) connection.old connection.new }
    ensures carries { IsClean S.Store P.Shelf connection.new
        → Carries removed_answer tenant.now (machine.delete_object at bucket.now key.now Current)
        (tables S.Store P.Shelf connection.old) (tables S.Store P.Shelf connection.new) result }
{
    match mode {
        BucketState::Unversioned => delete_null(connection, tenant, at, bucket, key),
        BucketState::Enabled => make_marker(connection, tenant, at, bucket, key, mode),
        BucketState::Suspended => make_marker(connection, tenant, at, bucket, key, mode),
    }
}

/// A delete with an id. Fails with AccessDenied before the version's date.
fn delete_named<S: Alter, P: Shelf>(
    connection: &mut Connection<S, P>,
    tenant: &TenantName,
    at: Moment,
    bucket: &BucketName,
    key: &ObjectKey,
    mode: BucketState,
    id: VersionId,
) -> Result<RemovedEntry, StepError<Refusal>>
    requires working { Works S.Store P.Shelf connection.old }
    requires state { IsClean S.Store P.Shelf connection.old
        → mode_in bucket.now (view (tables S.Store P.Shelf connection.old) tenant.now) ≡ Ok mode }
    ensures works { WorksOn S.Store P.Shelf (Unless result) connection.old connection.new }
    ensures carries { IsClean S.Store P.Shelf connection.new
        → Carries removed_answer tenant.now (machine.delete_object at bucket.now key.now (Named id))
        (tables S.Store P.Shelf connection.old) (tables S.Store P.Shelf connection.new) result }
{
    match number_of(id) {
        Some(number) => delete_numbered(connection, tenant, at, bucket, key, mode, id, number),
        None => Ok(nothing_told()),
    }
}

/// S3's DeleteObject, at a moment that is not after the last stamp. Refusals: NoSuchBucket;
/// AccessDenied if a version is named by its id before its date; CounterExhausted if a delete
/// marker is made.
pub fn delete_object<S: Alter, P: Shelf>(
    connection: &mut Connection<S, P>,
    tenant: &TenantName,
    at: Moment,
    bucket: &BucketName,
    key: &ObjectKey,
    wanted: Wanted,
) -> Result<RemovedEntry, StepError<Refusal>>
    requires working { Works S.Store P.Shelf connection.old }
    requires early { IsClean S.Store P.Shelf connection.old → at ≤ latest_of (tables S.Store P.Shelf connection.old) }
    ensures works { WorksOn S.Store P.Shelf (Unless result) connection.old connection.new }
    ensures carries { IsClean S.Store P.Shelf connection.new
        → Carries removed_answer tenant.now (machine.delete_object at bucket.now key.now wanted)
        (tables S.Store P.Shelf connection.old) (tables S.Store P.Shelf connection.new) result }
{
    let mode = bucket_state(connection, tenant, bucket)?;
    match wanted {
        Wanted::Current => delete_current(connection, tenant, at, bucket, key, mode),
        Wanted::Named(id) => delete_named(connection, tenant, at, bucket, key, mode, id),
        Wanted::Unknown => Ok(nothing_told()),
    }
}
