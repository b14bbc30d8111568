ghost use Rattle.std.specs.Prelude.{◌≡◌, ◌≢◌, ◌≤◌, map, IsTrue, IfOk, OnOk};
ghost use Rattle.bh_types.specs.Names.{is_bucket_name};
ghost use Rattle.bh_docs.specs.Documents.{bucket_view};
ghost use Rattle.bh_model.specs.Operations as machine;
ghost use Rattle.bh_model.specs.Retention as retention;
ghost use Rattle.bh_storage.specs.Answers.{removed_answer};
ghost use Rattle.bh_storage.specs.Calls.{Unless, Carries, Decides};
ghost use Rattle.bh_view.specs.View.{latest_of};
ghost use Rattle.bh_schema.specs.Calls.{MayRead};
ghost use Rattle.bh_base.specs.Connections.{IsClean, tables, InTransaction};
ghost use Rattle.bh_schema.specs.Views.{entry_seen};
ghost use Rattle.bh_schema.specs.Working.{Works, WorksOn};
ghost use Rattle.bh_objects.specs.Calls.{Changes};
ghost use Rattle.bh_objects.specs.Buckets as spec;
ghost use Rattle.bh_objects.specs.Buckets.{is_empty, emptiness, versions_kept, with_lock, with_bucket, without_bucket};

use crate::deletes::nothing_told;
use crate::reads::{bucket_locked, bucket_state, require_free_name, require_tenant};
use bh_base::connection::Connection;
use bh_docs::BucketEntry;
use bh_schema::rows;
use bh_schema::rows::buckets::ListedBucket;
use bh_schema::rows::contents::{Content, bucket_has};
use bh_schema::rows::named::{Named, delete_named};
use bh_schema::rows::reading::list_of;
use bh_schema::trouble::or_trouble;
use bh_shelf::shelf::Shelf;
use bh_storage::answer::RemovedEntry;
use bh_storage::error::{StepError, Trouble};
use bh_types::bucket::BucketName;
use bh_types::bucket_state::BucketState;
use bh_types::moment::Moment;
use bh_types::names::TenantName;
use bh_types::refusal::Refusal;
use sqlite::{Alter, Error};
use std::alloc::{AllocError, Global};

/// The state of a new bucket: a locked one keeps its versions from the start.
fn first_state(locked: bool) -> BucketState
    ensures { result ≡ spec.first_state locked }
{
    if locked {
        BucketState::Enabled
    } else {
        BucketState::Unversioned
    }
}

/// Locks a new bucket, if the request asks for it.
fn add_lock<S: Alter, P: Shelf>(
    connection: &mut Connection<S, P>,
    tenant: &TenantName,
    bucket: &BucketName,
    locked: bool,
) -> Result<(), Trouble>
    requires inside { InTransaction S.Store P.Shelf connection.old }
    ensures changes { Changes S.Store P.Shelf connection.old connection.new result (with_lock tenant.now bucket.now locked) }
{
    if !locked {
        return Ok(());
    }
    or_trouble(rows::locks::insert_lock(connection, tenant.as_str(), bucket.as_str()))?;
    Ok(())
}

/// Adds the rows of a new bucket: its own and then the lock, since a locked bucket is Enabled.
fn add_bucket<S: Alter, P: Shelf>(
    connection: &mut Connection<S, P>,
    tenant: &TenantName,
    bucket: &BucketName,
    at: Moment,
    locked: bool,
) -> Result<(), Trouble>
    requires inside { InTransaction S.Store P.Shelf connection.old }
    ensures changes { Changes S.Store P.Shelf connection.old connection.new result (with_bucket tenant.now bucket.now at locked) }
    ensures name { OnOk result (IsTrue (is_bucket_name bucket.now)) }
{
    let state = first_state(locked);
    or_trouble(rows::buckets::insert_bucket(
        connection,
        tenant.as_str(),
        bucket.as_str(),
        at.seconds(),
        state,
    ))?;
    add_lock(connection, tenant, bucket, locked)
}

/// S3's CreateBucket, locked or not, at a moment that is not after the last stamp. Refusals:
/// NoSuchTenant, BucketAlreadyOwnedByYou.
pub fn create_bucket<S: Alter, P: Shelf>(
    connection: &mut Connection<S, P>,
    tenant: &TenantName,
    at: Moment,
    bucket: &BucketName,
    locked: bool,
) -> Result<(), StepError<Refusal>>
    requires working { Works S.Store P.Shelf connection.old }
    requires early { IsClean S.Store P.Shelf connection.old → at ≤ latest_of (tables S.Store P.Shelf connection.old) }
    ensures works { WorksOn S.Store P.Shelf (Unless result) connection.old connection.new }
    ensures carries { IsClean S.Store P.Shelf connection.new
        → Carries (λ _. machine.Done) tenant.now (machine.create_bucket at bucket.now locked)
        (tables S.Store P.Shelf connection.old) (tables S.Store P.Shelf connection.new) result }
{
    require_tenant(connection, tenant)?;
    require_free_name(connection, tenant, bucket)?;
    add_bucket(connection, tenant, bucket, at, locked)?;
    Ok(())
}

/// S3's HeadBucket: NoSuchBucket.
pub fn head_bucket<S: Alter, P: Shelf>(
    connection: &mut Connection<S, P>,
    tenant: &TenantName,
    bucket: &BucketName,
) -> Result<(), StepError<Refusal>>
    requires working { Works S.Store P.Shelf connection.old }
    ensures works { WorksOn S.Store P.Shelf (Unless result) connection.old connection.new }
    ensures carries { IsClean S.Store P.Shelf connection.new → Carries (λ _. machine.Done) tenant.now (machine.head_bucket bucket.now)
        (tables S.Store P.Shelf connection.old) (tables S.Store P.Shelf connection.new) result }
{
    bucket_state(connection, tenant, bucket)?;
    Ok(())
}

/// S3's GetBucketVersioning: NoSuchBucket.
pub fn versioning<S: Alter, P: Shelf>(
    connection: &mut Connection<S, P>,
    tenant: &TenantName,
    bucket: &BucketName,
) -> Result<BucketState, StepError<Refusal>>
    requires working { Works S.Store P.Shelf connection.old }
    ensures works { WorksOn S.Store P.Shelf (Unless result) connection.old connection.new }
    ensures carries { IsClean S.Store P.Shelf connection.new → Carries machine.Versioning tenant.now (machine.get_versioning bucket.now)
        (tables S.Store P.Shelf connection.old) (tables S.Store P.Shelf connection.new) result }
{
    bucket_state(connection, tenant, bucket)
}

/// Whether this state keeps all versions of a bucket, if the bucket is locked.
fn keeps_versions(locked: bool, state: BucketState) -> bool
    ensures { result ≡ retention.keeps_versions locked state }
{
    match state {
        BucketState::Enabled => true,
        BucketState::Unversioned => !locked,
        BucketState::Suspended => !locked,
    }
}

/// Fails with InvalidBucketState if a tenant's bucket is locked and would not keep its versions in
/// this state.
fn require_kept<S: Alter, P: Shelf>(
    connection: &mut Connection<S, P>,
    tenant: &TenantName,
    bucket: &BucketName,
    state: BucketState,
) -> Result<(), StepError<Refusal>>
    requires working { Works S.Store P.Shelf connection.old }
    ensures works { WorksOn S.Store P.Shelf (Unless result) connection.old connection.new }
    ensures decides { IsClean S.Store P.Shelf connection.new
        → Decides (λ _. tt) (versions_kept tenant.now bucket.now state (tables S.Store P.Shelf connection.old))
        (tables S.Store P.Shelf connection.old) (tables S.Store P.Shelf connection.new) result }
{
    let locked = bucket_locked(connection, tenant, bucket)?;
    if keeps_versions(locked, state) {
        Ok(())
    } else {
        Err(StepError::Refused(Refusal::InvalidBucketState))
    }
}

/// S3's PutBucketVersioning. Refusals: NoSuchBucket, InvalidBucketState. No bucket returns to its
/// first state, Unversioned.
pub fn set_versioning<S: Alter, P: Shelf>(
    connection: &mut Connection<S, P>,
    tenant: &TenantName,
    bucket: &BucketName,
    state: BucketState,
) -> Result<(), StepError<Refusal>>
    requires working { Works S.Store P.Shelf connection.old }
    requires kept { state ≢ BucketState.Unversioned }
    ensures works { WorksOn S.Store P.Shelf (Unless result) connection.old connection.new }
    ensures carries { IsClean S.Store P.Shelf connection.new
        → Carries (λ _. machine.Done) tenant.now (machine.put_versioning bucket.now state)
        (tables S.Store P.Shelf connection.old) (tables S.Store P.Shelf connection.new) result }
{
    bucket_state(connection, tenant, bucket)?;
    require_kept(connection, tenant, bucket, state)?;
    or_trouble(rows::buckets::set_state(connection, tenant.as_str(), bucket.as_str(), state))?;
    Ok(())
}

/// Whether a tenant's bucket has no version, no marker and no upload.
fn has_nothing<S: Alter, P: Shelf>(
    connection: &mut Connection<S, P>,
    tenant: &str,
    bucket: &str,
) -> Result<bool, Error>
    requires inside { InTransaction S.Store P.Shelf connection.old }
    ensures reads { MayRead S.Store P.Shelf connection.old connection.new result }
    ensures found { IfOk result (λ found. IsClean S.Store P.Shelf connection.new
        → found ≡ is_empty tenant.now bucket.now (tables S.Store P.Shelf connection.old)) }
{
    if bucket_has(connection, tenant, bucket, Content::Version)? {
        return Ok(false);
    }
    Ok(!bucket_has(connection, tenant, bucket, Content::Upload)?)
}

/// Fails with BucketNotEmpty if a tenant's bucket has a version, a marker or an upload.
fn require_empty<S: Alter, P: Shelf>(
    connection: &mut Connection<S, P>,
    tenant: &TenantName,
    bucket: &BucketName,
) -> Result<(), StepError<Refusal>>
    requires working { Works S.Store P.Shelf connection.old }
    ensures works { WorksOn S.Store P.Shelf (Unless result) connection.old connection.new }
    ensures decides { IsClean S.Store P.Shelf connection.new
        → Decides (λ _. tt) (emptiness tenant.now bucket.now (tables S.Store P.Shelf connection.old))
        (tables S.Store P.Shelf connection.old) (tables S.Store P.Shelf connection.new) result }
{
    if !or_trouble(has_nothing(connection, tenant.as_str(), bucket.as_str()))? {
        return Err(StepError::Refused(Refusal::BucketNotEmpty));
    }
    Ok(())
}

/// Deletes the rows of an empty bucket: the lock, if it is locked, and then its own.
fn drop_bucket<S: Alter, P: Shelf>(
    connection: &mut Connection<S, P>,
    tenant: &TenantName,
    bucket: &BucketName,
) -> Result<(), Trouble>
    requires inside { InTransaction S.Store P.Shelf connection.old }
    ensures changes { Changes S.Store P.Shelf connection.old connection.new result (without_bucket tenant.now bucket.now) }
{
    or_trouble(delete_named(connection, tenant.as_str(), bucket.as_str(), Named::Lock))?;
    or_trouble(rows::buckets::delete_bucket(connection, tenant.as_str(), bucket.as_str()))?;
    Ok(())
}

/// S3's DeleteBucket. Refusals: NoSuchBucket, BucketNotEmpty. A bucket isn't empty if it has a
/// version, a delete marker or an unfinished upload; a lock doesn't count.
pub fn delete_bucket<S: Alter, P: Shelf>(
    connection: &mut Connection<S, P>,
    tenant: &TenantName,
    bucket: &BucketName,
) -> Result<RemovedEntry, StepError<Refusal>>
    requires working { Works S.Store P.Shelf connection.old }
    ensures works { WorksOn S.Store P.Shelf (Unless result) connection.old connection.new }
    ensures carries { IsClean S.Store P.Shelf connection.new → Carries removed_answer tenant.now (machine.delete_bucket bucket.now)
        (tables S.Store P.Shelf connection.old) (tables S.Store P.Shelf connection.new) result }
{
    bucket_state(connection, tenant, bucket)?;
    require_empty(connection, tenant, bucket)?;
    drop_bucket(connection, tenant, bucket)?;
    Ok(nothing_told())
}

/// A bucket's entry in a listing. A row whose moment is out of range is a failure.
fn bucket_entry(alloc: Global, bucket: &ListedBucket) -> Result<BucketEntry, Trouble>
    ensures { IfOk result (λ entry. bucket_view entry ≡ entry_seen bucket.now) }
{
    let Some(created) = Moment::new(bucket.created) else {
        return Err(Trouble::Store);
    };
    let name = String::from_str(alloc, bucket.name.as_str())?;
    Ok(BucketEntry { created, name })
}

fn bucket_entries(alloc: Global, listed: &[ListedBucket]) -> Result<Vec<BucketEntry>, Trouble>
    ensures { IfOk result (λ entries. map bucket_view entries.items ≡ map entry_seen listed.now) }
{
    let mut entries = Vec::new(alloc);
    for bucket in listed {
        let entry = bucket_entry(alloc, bucket)?;
        entries.push(entry).map_err(AllocError::from)?;
    }
    Ok(entries)
}

/// S3's ListBuckets: all of a tenant's buckets, by name in byte order. A tenant that doesn't exist
/// has none.
pub fn list_buckets<S: Alter, P: Shelf>(
    connection: &mut Connection<S, P>,
    alloc: Global,
    tenant: &TenantName,
) -> Result<Vec<BucketEntry>, StepError<Refusal>>
    requires working { Works S.Store P.Shelf connection.old }
    ensures works { WorksOn S.Store P.Shelf (Unless result) connection.old connection.new }
    ensures carries { IsClean S.Store P.Shelf connection.new
        → Carries (λ buckets. machine.Buckets (map bucket_view buckets.items)) tenant.now machine.list_buckets
        (tables S.Store P.Shelf connection.old) (tables S.Store P.Shelf connection.new) result }
{
    let listed: Vec<ListedBucket> = or_trouble(list_of(connection, alloc, tenant.as_str()))?;
    Ok(bucket_entries(alloc, &listed)?)
}
