ghost use Rattle.std.specs.Prelude.{◌≡◌, ◌≤◌, ◌<◌, ◌^◌, IfOk, OnOk, option_map};
ghost use Rattle.bh_types.specs.Moments as spec;
ghost use Rattle.bh_model.specs.Operations.{Begun};
ghost use Rattle.bh_model.specs.Uploads as machine;
ghost use Rattle.bh_storage.specs.Answers.{begun_answer};
ghost use Rattle.bh_storage.specs.Calls.{Unless, Carries};
ghost use Rattle.bh_view.specs.Sound.{AreDays};
ghost use Rattle.bh_view.specs.View.{latest_of};
ghost use Rattle.bh_base.specs.Connections.{IsClean, tables, InTransaction};
ghost use Rattle.bh_schema.specs.Working.{Works, WorksOn};
ghost use Rattle.bh_objects.specs.Calls.{Changes};
ghost use Rattle.bh_objects.specs.Found.{IsKeyText};
ghost use Rattle.bh_uploads.specs.Writes.{upload_written};

use crate::lifecycle::bucket_rule;
use crate::reads::next_upload;
use crate::rows::uploads::{UploadRecord, insert_upload};
use bh_base::connection::Connection;
use bh_schema::rows::tenants::{TenantNumber, set_number};
use bh_schema::trouble::or_trouble;
use bh_shelf::shelf::Shelf;
use bh_storage::answer::BegunUpload;
use bh_storage::error::{StepError, Trouble};
use bh_types::bucket::BucketName;
use bh_types::id::UploadId;
use bh_types::key::ObjectKey;
use bh_types::moment::{Moment, abort_moment};
use bh_types::names::TenantName;
use bh_types::refusal::Refusal;
use sqlite::Alter;
use std::alloc::Global;

/// A new multipart upload.
#[derive(Clone, Copy)]
pub struct NewUpload<'a> {
    pub tenant: &'a TenantName,
    pub bucket: &'a BucketName,
    pub key: &'a ObjectKey,
    /// When it begins.
    pub at: Moment,
}

/// Adds the upload with this number, which the tenant's counter returned.
fn write_upload<S: Alter, P: Shelf>(
    connection: &mut Connection<S, P>,
    upload: &NewUpload<'_>,
    number: u64,
) -> Result<(), Trouble>
    requires inside { InTransaction S.Store P.Shelf connection.old }
    requires small { number < 2 ^ 62 }
    ensures changes { Changes S.Store P.Shelf connection.old connection.new result
        (upload_written upload.now.tenant.now upload.now.bucket.now upload.now.key.now upload.now.at number) }
    ensures key { OnOk result (IsKeyText upload.now.key.now) }
{
    let tenant = upload.tenant.as_str();
    or_trouble(set_number(connection, tenant, TenantNumber::NextUpload, number + 1))?;
    let row = UploadRecord {
        tenant,
        upload: number,
        bucket: upload.bucket.as_str(),
        okey: upload.key.as_str().as_bytes(),
        begun: upload.at.seconds(),
    };
    or_trouble(insert_upload(connection, &row))?;
    Ok(())
}

/// When an upload becomes stale, if its bucket has a rule.
fn abort_at(begun: Moment, days: Option<u16>) -> Result<Option<Moment>, Trouble>
    requires { AreDays days }
    ensures { IfOk result (λ at. at ≡ option_map (spec.abort_moment begun) days) }
{
    match days {
        None => Ok(None),
        Some(days) => {
            // No stamp is after the last valid reading of a clock.
            if begun.seconds() > 250_000_000_000 {
                return Err(Trouble::Store);
            }
            Ok(Some(abort_moment(begun, days)))
        }
    }
}

/// The answer for an upload that began in a bucket with this rule.
fn begun(
    alloc: Global,
    upload: &NewUpload<'_>,
    number: u64,
    days: Option<u16>,
) -> Result<BegunUpload, Trouble>
    requires { AreDays days }
    ensures { IfOk result (λ told. begun_answer told
        ≡ Begun upload.now.bucket.now upload.now.key.now (record { number = number }) (option_map (spec.abort_moment upload.now.at) days)) }
{
    Ok(BegunUpload {
        bucket: String::from_str(alloc, upload.bucket.as_str())?,
        key: String::from_str(alloc, upload.key.as_str())?,
        upload: UploadId { number },
        abort: abort_at(upload.at, days)?,
    })
}

/// S3's CreateMultipartUpload, at a moment that is not after the last stamp. Refusals:
/// NoSuchBucket, CounterExhausted.
pub fn begin_upload<S: Alter, P: Shelf>(
    connection: &mut Connection<S, P>,
    alloc: Global,
    upload: &NewUpload<'_>,
) -> Result<BegunUpload, StepError<Refusal>>
    requires working { Works S.Store P.Shelf connection.old }
    requires early { IsClean S.Store P.Shelf connection.old → upload.now.at ≤ latest_of (tables S.Store P.Shelf connection.old) }
    ensures works { WorksOn S.Store P.Shelf (Unless result) connection.old connection.new }
    ensures carries { IsClean S.Store P.Shelf connection.new
        → Carries begun_answer upload.now.tenant.now
        (machine.create_upload upload.now.at upload.now.bucket.now upload.now.key.now)
        (tables S.Store P.Shelf connection.old) (tables S.Store P.Shelf connection.new) result }
{
    let days = bucket_rule(connection, upload.tenant, upload.bucket)?;
    let number = next_upload(connection, upload.tenant)?;
    write_upload(connection, upload, number)?;
    Ok(begun(alloc, upload, number, days)?)
}
