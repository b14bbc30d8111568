ghost use Rattle.std.specs.Prelude.{◌≡◌, option_map};
ghost use Rattle.bh_types.specs.Rejections as spec;
ghost use Rattle.bh_types.specs.Rejections.{for_date};
ghost use Rattle.bh_model.specs.Operations as machine;
ghost use Rattle.bh_storage.specs.Calls.{Unless, Carries, Decides};
ghost use Rattle.bh_view.specs.Wanted.{wanted_row};
ghost use Rattle.bh_schema.specs.Rows.{seen_head};
ghost use Rattle.bh_schema.specs.Views.{head_seen};
ghost use Rattle.bh_base.specs.Connections.{IsClean, tables};
ghost use Rattle.bh_schema.specs.Working.{Works, WorksOn};
ghost use Rattle.bh_objects.specs.Answers.{head_looked};
ghost use Rattle.bh_objects.specs.Answers as answers;

use crate::dates::{present_date, set_date, version_date};
use crate::heads::wanted_head;
use crate::reads::bucket_state;
use bh_base::connection::Connection;
use bh_schema::rows::versions::VersionHead;
use bh_shelf::shelf::Shelf;
use bh_storage::error::StepError;
use bh_types::bucket::BucketName;
use bh_types::key::ObjectKey;
use bh_types::moment::Moment;
use bh_types::names::TenantName;
use bh_types::rejection::{Detail, Rejection};
use bh_types::wanted::Wanted;
use sqlite::Alter;

/// The detail of an operation on a date, if that of an operation on objects is this one.
fn undated(detail: Detail) -> Detail
    ensures { result ≡ spec.undated detail }
{
    match detail {
        Detail::CurrentMarker => Detail::Nothing,
        Detail::NamedMarker => Detail::UndatedMarker,
        _ => detail,
    }
}

/// The refusal of an operation on a date, if that of an operation on objects is this one.
fn date_refused(rejection: Rejection) -> Rejection
    ensures { result ≡ spec.date_refused rejection }
{
    Rejection {
        refusal: rejection.refusal,
        detail: undated(rejection.detail),
    }
}

fn date_step_refused(error: StepError<Rejection>) -> StepError<Rejection>
    ensures { result ≡ answers.date_step_refused error }
{
    match error {
        StepError::Refused(rejection) => StepError::Refused(date_refused(rejection)),
        StepError::Failed(trouble) => StepError::Failed(trouble),
    }
}

/// The version whose date a request reads or sets. Refusals: NoSuchKey, NoSuchVersion,
/// MethodNotAllowed.
fn dated_head<S: Alter, P: Shelf>(
    connection: &mut Connection<S, P>,
    tenant: &TenantName,
    bucket: &BucketName,
    key: &ObjectKey,
    wanted: Wanted,
) -> Result<VersionHead, StepError<Rejection>>
    requires { Works S.Store P.Shelf connection.old }
    ensures works { WorksOn S.Store P.Shelf (Unless result) connection.old connection.new }
    ensures decides { IsClean S.Store P.Shelf connection.new
        → Decides head_seen (for_date (head_looked wanted (option_map seen_head
        (wanted_row tenant.now bucket.now key.now wanted (tables S.Store P.Shelf connection.old).versions))))
        (tables S.Store P.Shelf connection.old) (tables S.Store P.Shelf connection.new) result }
{
    match wanted_head(connection, tenant, bucket, key, wanted) {
        Ok(head) => Ok(head),
        Err(error) => Err(date_step_refused(error)),
    }
}

/// S3's GetObjectRetention, in a locked bucket or another. Refusals: NoSuchBucket, NoSuchKey,
/// NoSuchVersion, MethodNotAllowed. For a version without a date it returns `None`.
pub fn retention<S: Alter, P: Shelf>(
    connection: &mut Connection<S, P>,
    tenant: &TenantName,
    bucket: &BucketName,
    key: &ObjectKey,
    wanted: Wanted,
) -> Result<Option<Moment>, StepError<Rejection>>
    requires { Works S.Store P.Shelf connection.old }
    ensures works { WorksOn S.Store P.Shelf (Unless result) connection.old connection.new }
    ensures carries { IsClean S.Store P.Shelf connection.new
        → Carries machine.Retention tenant.now (machine.get_retention bucket.now key.now wanted)
        (tables S.Store P.Shelf connection.old) (tables S.Store P.Shelf connection.new) result }
{
    bucket_state(connection, tenant, bucket)?;
    let head = dated_head(connection, tenant, bucket, key, wanted)?;
    Ok(version_date(connection, tenant, head.seq)?)
}

/// S3's PutObjectRetention in compliance mode, at a moment: NoSuchBucket, NoSuchKey, NoSuchVersion, MethodNotAllowed,
/// InvalidRequest, InvalidArgument, AccessDenied.
pub fn set_retention<S: Alter, P: Shelf>(
    connection: &mut Connection<S, P>,
    tenant: &TenantName,
    at: Moment,
    bucket: &BucketName,
    key: &ObjectKey,
    wanted: Wanted,
    until: Moment,
) -> Result<(), StepError<Rejection>>
    requires { Works S.Store P.Shelf connection.old }
    ensures works { WorksOn S.Store P.Shelf (Unless result) connection.old connection.new }
    ensures carries { IsClean S.Store P.Shelf connection.new
        → Carries (λ _. machine.Done) tenant.now (machine.put_retention at bucket.now key.now wanted until)
        (tables S.Store P.Shelf connection.old) (tables S.Store P.Shelf connection.new) result }
{
    bucket_state(connection, tenant, bucket)?;
    let head = dated_head(connection, tenant, bucket, key, wanted)?;
    let present = present_date(connection, tenant, bucket, &head, until, at)?;
    set_date(connection, tenant, head.seq, present, Some(until))?;
    Ok(())
}
