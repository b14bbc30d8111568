ghost use Rattle.bh_model.specs.Uploads as machine;
ghost use Rattle.bh_storage.specs.Answers.{removed_answer};
ghost use Rattle.bh_storage.specs.Calls.{Unless, Carries};
ghost use Rattle.bh_base.specs.Connections.{IsClean, tables};
ghost use Rattle.bh_schema.specs.Working.{Works, WorksOn};

use crate::reads::{NamedUpload, found_upload, upload_parts};
use crate::writes::close_upload;
use bh_base::connection::Connection;
use bh_objects::deletes::nothing_told;
use bh_shelf::shelf::Shelf;
use bh_storage::answer::RemovedEntry;
use bh_storage::error::StepError;
use bh_types::refusal::Refusal;
use sqlite::Alter;
use std::alloc::Global;

/// S3's AbortMultipartUpload. Refusals: NoSuchBucket, NoSuchUpload. The upload is deleted with its
/// parts.
pub fn abort_upload<S: Alter, P: Shelf>(
    connection: &mut Connection<S, P>,
    alloc: Global,
    upload: &NamedUpload<'_>,
) -> Result<RemovedEntry, StepError<Refusal>>
    requires working { Works S.Store P.Shelf connection.old }
    ensures works { WorksOn S.Store P.Shelf (Unless result) connection.old connection.new }
    ensures carries { IsClean S.Store P.Shelf connection.new
        → Carries removed_answer upload.now.tenant.now
        (machine.abort_upload upload.now.bucket.now upload.now.key.now upload.now.upload)
        (tables S.Store P.Shelf connection.old) (tables S.Store P.Shelf connection.new) result }
{
    let found = found_upload(connection, upload)?;
    let list = upload_parts(connection, alloc, upload.tenant, found.number)?;
    close_upload(connection, upload.tenant, found.number, &list.bodies)?;
    Ok(nothing_told())
}
