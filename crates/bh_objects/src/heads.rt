ghost use Rattle.std.specs.Prelude.{◌≡◌, ◌<◌, ◌^◌, find, option_map, IfOk};
ghost use Rattle.std.specs.Result.{result_map_both};
ghost use Rattle.bh_tables.specs.Shown.{is_version};
ghost use Rattle.bh_view.specs.Wanted.{wanted_row};
ghost use Rattle.bh_model.specs.Operations as machine;
ghost use Rattle.bh_schema.specs.Calls.{Reads, MayRead};
ghost use Rattle.bh_base.specs.Connections.{IsClean, tables, InTransaction};
ghost use Rattle.bh_schema.specs.Rows.{seen_head, newest_at};
ghost use Rattle.bh_schema.specs.Views.{head_seen};
ghost use Rattle.bh_schema.specs.Working.{Works, WorksOn};
ghost use Rattle.bh_storage.specs.Answers.{head_answer};
ghost use Rattle.bh_storage.specs.Calls.{Unless, Decides, Carries};
ghost use Rattle.bh_objects.specs.Answers as spec;
ghost use Rattle.bh_objects.specs.Answers.{head_looked, head_told};

use crate::ids::{id_of, number_of, told_id};
use crate::reads::bucket_state;
use bh_base::connection::Connection;
use bh_schema::rows;
use bh_schema::rows::versions::VersionHead;
use bh_schema::trouble::or_trouble;
use bh_shelf::shelf::Shelf;
use bh_storage::answer::ObjectHead;
use bh_storage::error::{StepError, Trouble};
use bh_types::bucket::BucketName;
use bh_types::bucket_state::BucketState;
use bh_types::key::ObjectKey;
use bh_types::names::TenantName;
use bh_types::refusal::Refusal;
use bh_types::rejection::{Detail, Rejection};
use bh_types::wanted::Wanted;
use sqlite::Alter;

/// Whether the column `marker` is that of a delete marker.
pub fn is_marker(marker: u64) -> bool
    ensures { result ≡ spec.is_marked marker }
{
    match marker {
        0 => false,
        _ => true,
    }
}

/// The newest version or delete marker of a key, if it has one.
fn newest_head<S: Alter, P: Shelf>(
    connection: &mut Connection<S, P>,
    tenant: &TenantName,
    bucket: &BucketName,
    key: &ObjectKey,
) -> Result<Option<VersionHead>, Trouble>
    requires { InTransaction S.Store P.Shelf connection.old }
    ensures reads { Reads S.Store P.Shelf connection.old connection.new result }
    ensures found { IfOk result (λ found. IsClean S.Store P.Shelf connection.new
        → option_map head_seen found ≡ option_map seen_head
        (newest_at tenant.now bucket.now key.now (tables S.Store P.Shelf connection.old).versions)) }
{
    let key = key.as_str().as_bytes();
    or_trouble(rows::versions::newest_version(connection, tenant.as_str(), bucket.as_str(), key))
}

/// The version or delete marker of a key with this number in the column `id`, if there is one.
pub fn numbered_head<S: Alter, P: Shelf>(
    connection: &mut Connection<S, P>,
    tenant: &TenantName,
    bucket: &BucketName,
    key: &ObjectKey,
    number: u64,
) -> Result<Option<VersionHead>, Trouble>
    requires inside { InTransaction S.Store P.Shelf connection.old }
    requires small { number < 2 ^ 62 }
    ensures reads { Reads S.Store P.Shelf connection.old connection.new result }
    ensures found { IfOk result (λ found. IsClean S.Store P.Shelf connection.new
        → option_map head_seen found ≡ option_map seen_head
        (find (is_version tenant.now bucket.now key.now number) (tables S.Store P.Shelf connection.old).versions)) }
{
    let key = key.as_str().as_bytes();
    or_trouble(rows::versions::version_of_id(
        connection,
        tenant.as_str(),
        bucket.as_str(),
        key,
        number,
    ))
}

/// The version or delete marker that a request names, if there is one.
fn find_head<S: Alter, P: Shelf>(
    connection: &mut Connection<S, P>,
    tenant: &TenantName,
    bucket: &BucketName,
    key: &ObjectKey,
    wanted: Wanted,
) -> Result<Option<VersionHead>, Trouble>
    requires { Works S.Store P.Shelf connection.old }
    ensures reads { MayRead S.Store P.Shelf connection.old connection.new result }
    ensures found { IfOk result (λ found. IsClean S.Store P.Shelf connection.new
        → option_map head_seen found ≡ option_map seen_head
        (wanted_row tenant.now bucket.now key.now wanted (tables S.Store P.Shelf connection.old).versions)) }
{
    match wanted {
        Wanted::Current => newest_head(connection, tenant, bucket, key),
        Wanted::Named(id) => match number_of(id) {
            Some(number) => numbered_head(connection, tenant, bucket, key, number),
            None => Ok(None),
        },
        Wanted::Unknown => Ok(None),
    }
}

/// The refusal if there is no such version.
fn missing(wanted: Wanted) -> Rejection
    ensures { result ≡ spec.missing wanted }
{
    match wanted {
        Wanted::Current => Rejection::from(Refusal::NoSuchKey),
        Wanted::Named(_) => Rejection::from(Refusal::NoSuchVersion),
        Wanted::Unknown => Rejection::from(Refusal::NoSuchVersion),
    }
}

/// The refusal if it is a delete marker, with its details.
fn marker_refused(wanted: Wanted) -> Rejection
    ensures { result ≡ spec.marker_refused wanted }
{
    match wanted {
        Wanted::Current => Rejection {
            refusal: Refusal::NoSuchKey,
            detail: Detail::CurrentMarker,
        },
        Wanted::Named(_) => Rejection {
            refusal: Refusal::MethodNotAllowed,
            detail: Detail::NamedMarker,
        },
        Wanted::Unknown => Rejection::from(Refusal::NoSuchVersion),
    }
}

/// The version that was found, or the refusal for a delete marker or for none.
fn looked(wanted: Wanted, found: Option<VersionHead>) -> Result<VersionHead, Rejection>
    ensures { result_map_both head_seen (λ rejection. rejection) result ≡ head_looked wanted (option_map head_seen found) }
{
    match found {
        None => Err(missing(wanted)),
        Some(head) => {
            if head.marker == 0 {
                Ok(head)
            } else {
                Err(marker_refused(wanted))
            }
        }
    }
}

/// The version that a request names, without its bytes. Refusals: NoSuchKey, NoSuchVersion,
/// MethodNotAllowed.
pub fn wanted_head<S: Alter, P: Shelf>(
    connection: &mut Connection<S, P>,
    tenant: &TenantName,
    bucket: &BucketName,
    key: &ObjectKey,
    wanted: Wanted,
) -> Result<VersionHead, StepError<Rejection>>
    requires { Works S.Store P.Shelf connection.old }
    ensures works { WorksOn S.Store P.Shelf (Unless result) connection.old connection.new }
    ensures decides { IsClean S.Store P.Shelf connection.new
        → Decides head_seen (head_looked wanted (option_map seen_head
        (wanted_row tenant.now bucket.now key.now wanted (tables S.Store P.Shelf connection.old).versions)))
        (tables S.Store P.Shelf connection.old) (tables S.Store P.Shelf connection.new) result }
{
    let found = find_head(connection, tenant, bucket, key, wanted)?;
    Ok(looked(wanted, found)?)
}

/// The metadata of a version in a bucket of this state.
pub fn told_head(mode: BucketState, head: VersionHead) -> ObjectHead
    ensures { head_answer result ≡ head_told mode (head_seen head) }
{
    ObjectHead {
        id: told_id(mode, id_of(head.id)),
        size: head.size,
        checksum: head.checksum,
    }
}

/// S3's HeadObject: NoSuchBucket, NoSuchKey, NoSuchVersion, MethodNotAllowed.
pub fn head_object<S: Alter, P: Shelf>(
    connection: &mut Connection<S, P>,
    tenant: &TenantName,
    bucket: &BucketName,
    key: &ObjectKey,
    wanted: Wanted,
) -> Result<ObjectHead, StepError<Rejection>>
    requires { Works S.Store P.Shelf connection.old }
    ensures works { WorksOn S.Store P.Shelf (Unless result) connection.old connection.new }
    ensures carries { IsClean S.Store P.Shelf connection.new
        → Carries head_answer tenant.now (machine.head_object bucket.now key.now wanted)
        (tables S.Store P.Shelf connection.old) (tables S.Store P.Shelf connection.new) result }
{
    let mode = bucket_state(connection, tenant, bucket)?;
    match wanted_head(connection, tenant, bucket, key, wanted) {
        Ok(head) => Ok(told_head(mode, head)),
        Err(error) => Err(error),
    }
}
