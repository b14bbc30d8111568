ghost use Rattle.std.specs.Prelude.{◌≡◌, ◌≤◌, ◌<◌, length, None, Ok, IfOk, OnOk};
ghost use Rattle.std.specs.String.{string_bytes};
ghost use Rattle.bh_model.specs.Entries.{new_id};
ghost use Rattle.bh_model.specs.Operations as machine;
ghost use Rattle.bh_storage.specs.Answers.{copied_answer};
ghost use Rattle.bh_storage.specs.Calls.{Unless, Decides, Carries};
ghost use Rattle.bh_view.specs.Blocks.{whole};
ghost use Rattle.bh_view.specs.Put.{row_number};
ghost use Rattle.bh_view.specs.View.{view, latest_of};
ghost use Rattle.bh_base.specs.Connections.{IsClean, tables, InTransaction};
ghost use Rattle.bh_schema.specs.Views.{head_seen};
ghost use Rattle.bh_schema.specs.Working.{Works, WorksOn};
ghost use Rattle.bh_objects.specs.Calls.{Changes};
ghost use Rattle.bh_objects.specs.Found.{IsKeyText, IsHeld, counts_in, mode_in};
ghost use Rattle.bh_objects.specs.Copies.{version_read, copy_written};
ghost use Rattle.bh_objects.specs.Dates.{IsPlaced};

use crate::dates::{new_date, set_date};
use crate::heads::wanted_head;
use crate::ids::new_id_told;
use crate::quotas::{NewEntry, new_entry};
use crate::reads::{Numbers, bucket_state};
use crate::writes::{AddedVersion, add_version, drop_replaced};
use bh_base::connection::Connection;
use bh_blocks::bodies::copy_body;
use bh_schema::rows::versions::VersionHead;
use bh_schema::trouble::or_trouble;
use bh_shelf::shelf::Shelf;
use bh_storage::answer::CopiedVersion;
use bh_storage::error::{StepError, Trouble};
use bh_types::bucket::BucketName;
use bh_types::bucket_state::BucketState;
use bh_types::counters::COUNTER_END;
use bh_types::key::ObjectKey;
use bh_types::moment::Moment;
use bh_types::names::TenantName;
use bh_types::refusal::Refusal;
use bh_types::rejection::Rejection;
use bh_types::wanted::Wanted;
use sqlite::Alter;

/// A copy within a tenant.
#[derive(Clone, Copy)]
pub struct NewCopy<'a> {
    pub tenant: &'a TenantName,
    /// The bucket that the copy goes to.
    pub bucket: &'a BucketName,
    pub key: &'a ObjectKey,
    /// When the copy is made.
    pub at: Moment,
    /// The source's bucket.
    pub source_bucket: &'a BucketName,
    pub source_key: &'a ObjectKey,
    pub version: Wanted,
    /// The date until which the copy is retained, if one is given; the inner `None` is an invalid
    /// date.
    pub date: Option<Option<Moment>>,
}

/// A delete marker can't be the source of a copy: if it is named by its id, the request is invalid.
fn source_refused(rejection: Rejection) -> Refusal
    ensures { result ≡ machine.source_refusal rejection.refusal }
{
    match rejection.refusal {
        Refusal::MethodNotAllowed => Refusal::InvalidRequest,
        refusal => refusal,
    }
}

/// The source of a copy, without its bytes. Refusals: NoSuchBucket, NoSuchKey, NoSuchVersion,
/// InvalidRequest.
fn source_head<S: Alter, P: Shelf>(
    connection: &mut Connection<S, P>,
    copy: &NewCopy<'_>,
) -> Result<VersionHead, StepError<Refusal>>
    requires { Works S.Store P.Shelf connection.old }
    ensures works { WorksOn S.Store P.Shelf (Unless result) connection.old connection.new }
    ensures decides { IsClean S.Store P.Shelf connection.new
        → Decides (λ head. version_read copy.now.tenant.now (tables S.Store P.Shelf connection.old) (head_seen head))
        (machine.source_version copy.now.source_bucket.now copy.now.source_key.now copy.now.version
        (view (tables S.Store P.Shelf connection.old) copy.now.tenant.now))
        (tables S.Store P.Shelf connection.old) (tables S.Store P.Shelf connection.new) result }
    ensures sized { IfOk result (λ head. IsClean S.Store P.Shelf connection.new
        → head.size ≡ length (whole (tables S.Store P.Shelf connection.old).refs (tables S.Store P.Shelf connection.old).blocks
        (copy.now.tenant.now, head.seq))) }
{
    let (bucket, key) = (copy.source_bucket, copy.source_key);
    bucket_state(connection, copy.tenant, bucket)?;
    match wanted_head(connection, copy.tenant, bucket, key, copy.version) {
        Ok(head) => Ok(head),
        Err(StepError::Refused(rejection)) => Err(StepError::Refused(source_refused(rejection))),
        Err(StepError::Failed(trouble)) => Err(StepError::Failed(trouble)),
    }
}

/// Puts a copy of a version into a bucket of this state, as a new entry. Its body, with the
/// source's blocks, is written before the replaced entry is removed, since that may be the source.
/// Then its row is written, with the counters.
fn write_copy<S: Alter, P: Shelf>(
    connection: &mut Connection<S, P>,
    copy: &NewCopy<'_>,
    mode: BucketState,
    entry: NewEntry,
    head: &VersionHead,
) -> Result<(), Trouble>
    requires inside { InTransaction S.Store P.Shelf connection.old }
    requires held { IsClean S.Store P.Shelf connection.old
        → IsHeld copy.now.tenant.now copy.now.bucket.now copy.now.key.now entry.replaced (tables S.Store P.Shelf connection.old) }
    ensures changes { Changes S.Store P.Shelf connection.old connection.new result
        (copy_written mode entry.numbers.before entry.numbers.after entry.replaced
        copy.now.tenant.now copy.now.bucket.now copy.now.key.now copy.now.at (head_seen head.now)) }
    ensures key { OnOk result (IsKeyText copy.now.key.now) }
{
    let source = head.seq;
    // No counter reaches this number.
    if source >= COUNTER_END {
        return Err(Trouble::Store);
    }
    let NewEntry { numbers, replaced } = entry;
    or_trouble(copy_body(
        connection,
        copy.tenant.as_str(),
        source,
        numbers.before.entry,
    ))?;
    drop_replaced(connection, copy.tenant, copy.bucket, copy.key, replaced)?;
    let version = AddedVersion {
        tenant: copy.tenant,
        bucket: copy.bucket,
        key: copy.key,
        at: copy.at,
        size: head.size,
        checksum: head.checksum.as_str(),
    };
    add_version(connection, &version, mode, numbers)
}

/// Stores a copy of a version that was found as a new version without a date, in a bucket of this
/// state. Refusals: QuotaExceeded, CounterExhausted.
fn store_copy<S: Alter, P: Shelf>(
    connection: &mut Connection<S, P>,
    copy: &NewCopy<'_>,
    mode: BucketState,
    head: &VersionHead,
) -> Result<Numbers, StepError<Refusal>>
    requires working { Works S.Store P.Shelf connection.old }
    requires early { IsClean S.Store P.Shelf connection.old → copy.now.at ≤ latest_of (tables S.Store P.Shelf connection.old) }
    requires state { IsClean S.Store P.Shelf connection.old
        → mode_in copy.now.bucket.now (view (tables S.Store P.Shelf connection.old) copy.now.tenant.now) ≡ Ok mode }
    requires source { IsClean S.Store P.Shelf connection.old
        → machine.source_version copy.now.source_bucket.now copy.now.source_key.now copy.now.version
        (view (tables S.Store P.Shelf connection.old) copy.now.tenant.now)
        ≡ Ok (version_read copy.now.tenant.now (tables S.Store P.Shelf connection.old) (head_seen head.now)) }
    requires sized { IsClean S.Store P.Shelf connection.old
        → head.now.size ≡ length (whole (tables S.Store P.Shelf connection.old).refs (tables S.Store P.Shelf connection.old).blocks
        (copy.now.tenant.now, head.now.seq)) }
    ensures works { WorksOn S.Store P.Shelf (Unless result) connection.old connection.new }
    ensures carries { IsClean S.Store P.Shelf connection.new
        → Carries (λ numbers. machine.Copied (machine.id_told mode (new_id mode numbers.before.version)) copy.now.at
        (string_bytes head.now.checksum))
        copy.now.tenant.now
        (machine.copy_object copy.now.at copy.now.bucket.now copy.now.key.now copy.now.source_bucket.now copy.now.source_key.now
        copy.now.version None)
        (tables S.Store P.Shelf connection.old) (tables S.Store P.Shelf connection.new) result }
    ensures counted { IfOk result (λ numbers. IsClean S.Store P.Shelf connection.new
        → counts_in (view (tables S.Store P.Shelf connection.old) copy.now.tenant.now) ≡ Ok numbers.before) }
    ensures placed { IfOk result (λ numbers. IsClean S.Store P.Shelf connection.new
        → IsPlaced copy.now.tenant.now copy.now.bucket.now copy.now.key.now
        (row_number mode numbers.before.version) numbers.before.entry (tables S.Store P.Shelf connection.new)) }
{
    let entry = new_entry(
        connection,
        copy.tenant,
        copy.bucket,
        copy.key,
        mode,
        head.size,
    )?;
    let NewEntry { numbers, .. } = entry;
    write_copy(connection, copy, mode, entry, head)?;
    Ok(numbers)
}

/// S3's CopyObject, at a moment that is not after the last stamp. Refusals: NoSuchBucket for the
/// copy's bucket and then for the source's, NoSuchKey, NoSuchVersion, InvalidRequest,
/// InvalidArgument, QuotaExceeded, CounterExhausted. The source's date is not copied. No byte is
/// read.
pub fn copy_object<S: Alter, P: Shelf>(
    connection: &mut Connection<S, P>,
    copy: &NewCopy<'_>,
) -> Result<CopiedVersion, StepError<Refusal>>
    requires working { Works S.Store P.Shelf connection.old }
    requires early { IsClean S.Store P.Shelf connection.old → copy.now.at ≤ latest_of (tables S.Store P.Shelf connection.old) }
    ensures works { WorksOn S.Store P.Shelf (Unless result) connection.old connection.new }
    ensures carries { IsClean S.Store P.Shelf connection.new
        → Carries copied_answer copy.now.tenant.now
        (machine.copy_object copy.now.at copy.now.bucket.now copy.now.key.now copy.now.source_bucket.now copy.now.source_key.now
        copy.now.version copy.now.date)
        (tables S.Store P.Shelf connection.old) (tables S.Store P.Shelf connection.new) result }
{
    let mode = bucket_state(connection, copy.tenant, copy.bucket)?;
    let head = source_head(connection, copy)?;
    let until = new_date(connection, copy.tenant, copy.bucket, copy.date, copy.at)?;
    let numbers = store_copy(connection, copy, mode, &head)?;
    set_date(connection, copy.tenant, numbers.before.entry, None, until)?;
    Ok(CopiedVersion {
        id: new_id_told(mode, numbers.before.version),
        modified: copy.at,
        checksum: head.checksum,
    })
}
