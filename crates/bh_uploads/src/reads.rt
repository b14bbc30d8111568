ghost use Rattle.std.specs.Prelude.{◌≡◌, ◌<◌, ◌^◌, IfOk, OnOk};
ghost use Rattle.bh_storage.specs.Calls.{Unless, Decides};
ghost use Rattle.bh_view.specs.View.{view};
ghost use Rattle.bh_schema.specs.Calls.{Reads};
ghost use Rattle.bh_base.specs.Connections.{IsClean, tables, InTransaction};
ghost use Rattle.bh_schema.specs.Working.{Works, WorksOn};
ghost use Rattle.bh_uploads.specs.Found.{next_upload_in, is_begun_for, upload_there, upload_in};
ghost use Rattle.bh_uploads.specs.Rows.{AreListed, upload_seen, listed_parts};

use crate::counting::given;
use crate::rows;
use crate::rows::parts::PartList;
use crate::rows::uploads::UploadHead;
use bh_base::connection::Connection;
use bh_objects::reads::{bucket_state, next_counters};
use bh_schema::trouble::or_trouble;
use bh_shelf::shelf::Shelf;
use bh_storage::error::{StepError, Trouble};
use bh_types::bucket::BucketName;
use bh_types::bucket_state::BucketState;
use bh_types::counters::COUNTER_END;
use bh_types::id::UploadId;
use bh_types::key::ObjectKey;
use bh_types::names::TenantName;
use bh_types::refusal::Refusal;
use sqlite::Alter;
use std::alloc::Global;

/// An upload in a request.
#[derive(Clone, Copy)]
pub struct NamedUpload<'a> {
    pub tenant: &'a TenantName,
    pub bucket: &'a BucketName,
    pub key: &'a ObjectKey,
    /// Its id, or `None` if the request's text can't be one.
    pub upload: Option<UploadId>,
}

/// An upload that was found.
#[derive(Clone, Copy, PartialEq, Eq)]
pub struct FoundUpload {
    /// The state of its bucket.
    pub mode: BucketState,
    pub number: u64,
}

/// The number of the tenant's next upload. Refusal: CounterExhausted.
pub fn next_upload<S: Alter, P: Shelf>(
    connection: &mut Connection<S, P>,
    tenant: &TenantName,
) -> Result<u64, StepError<Refusal>>
    requires { Works S.Store P.Shelf connection.old }
    ensures works { WorksOn S.Store P.Shelf (Unless result) connection.old connection.new }
    ensures decides { IsClean S.Store P.Shelf connection.new
        → Decides (λ n. n) (next_upload_in (view (tables S.Store P.Shelf connection.old) tenant.now))
        (tables S.Store P.Shelf connection.old) (tables S.Store P.Shelf connection.new) result }
    ensures small { IfOk result (λ n. n < 2 ^ 62) }
{
    let counters = next_counters(connection, tenant)?;
    let number = given(counters.upload)?;
    Ok(number)
}

/// Whether an upload is for this bucket and this key.
fn is_of(head: &UploadHead, bucket: &BucketName, key: &ObjectKey) -> bool
    ensures { result ≡ is_begun_for bucket.now key.now (upload_seen head.now) }
{
    head.bucket.as_str() == bucket.as_str() && head.key.as_slice() == key.as_str().as_bytes()
}

/// Fails with NoSuchUpload unless a tenant's upload of a number is for this bucket, which must
/// exist, and this key.
fn require_upload<S: Alter, P: Shelf>(
    connection: &mut Connection<S, P>,
    upload: &NamedUpload<'_>,
    number: u64,
) -> Result<(), StepError<Refusal>>
    requires { Works S.Store P.Shelf connection.old }
    ensures works { WorksOn S.Store P.Shelf (Unless result) connection.old connection.new }
    ensures decides { IsClean S.Store P.Shelf connection.new
        → Decides (λ _. tt)
        (upload_there upload.now.tenant.now upload.now.bucket.now upload.now.key.now number (tables S.Store P.Shelf connection.old))
        (tables S.Store P.Shelf connection.old) (tables S.Store P.Shelf connection.new) result }
    ensures small { OnOk result (number < 2 ^ 62) }
{
    // No counter reaches this number.
    if number >= COUNTER_END {
        return Err(StepError::Refused(Refusal::NoSuchUpload));
    }
    match or_trouble(rows::uploads::find_upload(connection, upload.tenant.as_str(), number))? {
        Some(head) => {
            if is_of(&head, upload.bucket, upload.key) {
                Ok(())
            } else {
                Err(StepError::Refused(Refusal::NoSuchUpload))
            }
        }
        None => Err(StepError::Refused(Refusal::NoSuchUpload)),
    }
}

/// The upload in a request. Refusals: NoSuchBucket, NoSuchUpload.
pub fn found_upload<S: Alter, P: Shelf>(
    connection: &mut Connection<S, P>,
    upload: &NamedUpload<'_>,
) -> Result<FoundUpload, StepError<Refusal>>
    requires { Works S.Store P.Shelf connection.old }
    ensures works { WorksOn S.Store P.Shelf (Unless result) connection.old connection.new }
    ensures decides { IsClean S.Store P.Shelf connection.new
        → Decides (λ found. (found.mode, found.number))
        (upload_in upload.now.bucket.now upload.now.key.now upload.now.upload (view
        (tables S.Store P.Shelf connection.old) upload.now.tenant.now))
        (tables S.Store P.Shelf connection.old) (tables S.Store P.Shelf connection.new) result }
    ensures small { IfOk result (λ found. found.number < 2 ^ 62) }
{
    let mode = bucket_state(connection, upload.tenant, upload.bucket)?;
    let Some(id) = upload.upload else {
        return Err(StepError::Refused(Refusal::NoSuchUpload));
    };
    require_upload(connection, upload, id.number)?;
    Ok(FoundUpload {
        mode,
        number: id.number,
    })
}

/// The parts of an upload, in the order of their numbers.
pub fn upload_parts<S: Alter, P: Shelf>(
    connection: &mut Connection<S, P>,
    alloc: Global,
    tenant: &TenantName,
    number: u64,
) -> Result<PartList, Trouble>
    requires inside { InTransaction S.Store P.Shelf connection.old }
    requires small { number < 2 ^ 62 }
    ensures reads { Reads S.Store P.Shelf connection.old connection.new result }
    ensures parts { IfOk result (λ list. IsClean S.Store P.Shelf connection.new
        → AreListed list (listed_parts tenant.now number (tables S.Store P.Shelf connection.old))) }
{
    or_trouble(rows::parts::part_list(connection, alloc, tenant.as_str(), number))
}
