ghost use Rattle.std.specs.Prelude.{◌≡◌, ◌≤◌, ◌<◌, ◌^◌, length, map, IfOk, OnOk};
ghost use Rattle.std.specs.String.{string_bytes};
ghost use Rattle.bh_model.specs.Entries as spec;
ghost use Rattle.bh_model.specs.Operations.{Completed, id_told};
ghost use Rattle.bh_model.specs.Shown.{naming_of};
ghost use Rattle.bh_model.specs.Uploads as machine;
ghost use Rattle.bh_storage.specs.Answers.{completed_answer};
ghost use Rattle.bh_storage.specs.Calls.{Unless, Decides, Carries};
ghost use Rattle.bh_view.specs.View.{view, latest_of};
ghost use Rattle.bh_base.specs.Connections.{IsClean, tables, InTransaction};
ghost use Rattle.bh_schema.specs.Working.{Works, WorksOn};
ghost use Rattle.bh_objects.specs.Calls.{Changes};
ghost use Rattle.bh_objects.specs.Found.{IsKeyText};
ghost use Rattle.bh_uploads.specs.Found.{completion_in, joined_bytes, joined_content};
ghost use Rattle.bh_uploads.specs.Rows.{listed_parts};
ghost use Rattle.bh_uploads.specs.Writes.{version_written};

use crate::joining::{Joined, join_named};
use crate::reads::{NamedUpload, found_upload, upload_parts};
use crate::writes::close_upload;
use bh_base::connection::Connection;
use bh_blocks::bodies::join_bodies;
use bh_model::entries::new_id;
use bh_objects::ids::told_id;
use bh_objects::reads::{Numbers, new_numbers};
use bh_objects::writes::{AddedVersion, add_version, make_room};
use bh_schema::trouble::or_trouble;
use bh_shelf::shelf::Shelf;
use bh_storage::answer::CompletedUpload;
use bh_storage::error::{StepError, Trouble};
use bh_types::bucket_state::BucketState;
use bh_types::moment::Moment;
use bh_types::refusal::Refusal;
use bh_types::wanted::Named;
use sqlite::Alter;
use std::alloc::{AllocError, Global};

/// The plan of a completion.
#[derive(Drop)]
pub struct Completion {
    /// The state of its bucket.
    pub mode: BucketState,
    /// The upload's.
    pub number: u64,
    /// The entry numbers under which the bytes of all its parts are stored.
    pub bodies: Vec<u64>,
    pub joined: Joined,
}

/// The plan of an upload's completion. Refusals: NoSuchBucket, NoSuchUpload, InvalidPartOrder,
/// InvalidPart, EntityTooSmall. No byte of a part is read.
fn completion_plan<S: Alter, P: Shelf>(
    connection: &mut Connection<S, P>,
    alloc: Global,
    upload: &NamedUpload<'_>,
    named: &[Named],
    least: u64,
) -> Result<Completion, StepError<Refusal>>
    requires { Works S.Store P.Shelf connection.old }
    ensures works { WorksOn S.Store P.Shelf (Unless result) connection.old connection.new }
    ensures decides { IsClean S.Store P.Shelf connection.new
        → Decides (λ c. (c.mode, c.number, joined_content upload.now.tenant.now (tables S.Store P.Shelf connection.old) c.joined))
        (completion_in least upload.now.bucket.now upload.now.key.now upload.now.upload (map naming_of named.now)
        (view (tables S.Store P.Shelf connection.old) upload.now.tenant.now))
        (tables S.Store P.Shelf connection.old) (tables S.Store P.Shelf connection.new) result }
    ensures bodies { IfOk result (λ c. IsClean S.Store P.Shelf connection.new
        → c.bodies.items ≡ map (λ p. p.body) (listed_parts upload.now.tenant.now c.number (tables S.Store P.Shelf connection.old))) }
    ensures size { IfOk result (λ c. IsClean S.Store P.Shelf connection.new
        → c.joined.size ≡ length (joined_bytes upload.now.tenant.now (tables S.Store P.Shelf connection.old) c.joined.bodies.items)) }
    ensures small { IfOk result (λ c. c.number < 2 ^ 62) }
{
    let found = found_upload(connection, upload)?;
    let list = upload_parts(connection, alloc, upload.tenant, found.number)?;
    let joined = join_named(alloc, &list, named, least)?;
    Ok(Completion {
        mode: found.mode,
        number: found.number,
        bodies: list.bodies,
        joined,
    })
}

/// Puts a version that is joined from parts into a bucket of this state, under the tenant's next
/// numbers. Its body, with the parts' blocks, is written before the replaced entry is removed. Then
/// its row is written, with the counters.
fn write_version<S: Alter, P: Shelf>(
    connection: &mut Connection<S, P>,
    alloc: Global,
    upload: &NamedUpload<'_>,
    at: Moment,
    mode: BucketState,
    numbers: Numbers,
    joined: &Joined,
) -> Result<(), Trouble>
    requires { InTransaction S.Store P.Shelf connection.old }
    ensures changes { Changes S.Store P.Shelf connection.old connection.new result
        (version_written mode numbers.before numbers.after upload.now.tenant.now upload.now.bucket.now upload.now.key.now at
        joined.now.size (string_bytes joined.now.checksum) joined.now.bodies.items) }
    ensures key { OnOk result (IsKeyText upload.now.key.now) }
{
    or_trouble(join_bodies(
        connection,
        alloc,
        upload.tenant.as_str(),
        &joined.bodies,
        numbers.before.entry,
    ))?;
    make_room(connection, upload.tenant, upload.bucket, upload.key, mode)?;
    let version = AddedVersion {
        tenant: upload.tenant,
        bucket: upload.bucket,
        key: upload.key,
        at,
        size: joined.size,
        checksum: joined.checksum.as_str(),
    };
    add_version(connection, &version, mode, numbers)
}

/// The answer for a completed upload whose version has this number, in a bucket of this state.
fn completed(
    alloc: Global,
    upload: &NamedUpload<'_>,
    mode: BucketState,
    version: u64,
    checksum: String,
) -> Result<CompletedUpload, AllocError>
    ensures { IfOk result (λ told. completed_answer told ≡ Completed upload.now.bucket.now upload.now.key.now
        (id_told mode (spec.new_id mode version)) (string_bytes checksum)) }
{
    Ok(CompletedUpload {
        bucket: String::from_str(alloc, upload.bucket.as_str())?,
        key: String::from_str(alloc, upload.key.as_str())?,
        id: told_id(mode, new_id(mode, version)),
        checksum,
    })
}

/// S3's CompleteMultipartUpload, at a moment that is not after the last stamp. Refusals:
/// NoSuchBucket, NoSuchUpload, InvalidPartOrder, InvalidPart, EntityTooSmall if a part but the last
/// has fewer bytes than `least`, CounterExhausted. The upload is deleted after its version was
/// added. No byte of a part is read.
pub fn complete_upload<S: Alter, P: Shelf>(
    connection: &mut Connection<S, P>,
    alloc: Global,
    upload: &NamedUpload<'_>,
    at: Moment,
    named: &[Named],
    least: u64,
) -> Result<CompletedUpload, StepError<Refusal>>
    requires working { Works S.Store P.Shelf connection.old }
    requires early { IsClean S.Store P.Shelf connection.old → at ≤ latest_of (tables S.Store P.Shelf connection.old) }
    ensures works { WorksOn S.Store P.Shelf (Unless result) connection.old connection.new }
    ensures carries { IsClean S.Store P.Shelf connection.new
        → Carries completed_answer upload.now.tenant.now
        (machine.complete_upload at least upload.now.bucket.now upload.now.key.now upload.now.upload (map naming_of named.now))
        (tables S.Store P.Shelf connection.old) (tables S.Store P.Shelf connection.new) result }
{
    let found = completion_plan(connection, alloc, upload, named, least)?;
    let numbers = new_numbers(connection, upload.tenant, found.mode)?;
    let Numbers { before, .. } = numbers;
    write_version(
        connection,
        alloc,
        upload,
        at,
        found.mode,
        numbers,
        &found.joined,
    )?;
    close_upload(connection, upload.tenant, found.number, &found.bodies)?;
    let Completion { mode, joined, .. } = found;
    Ok(completed(alloc, upload, mode, before.version, joined.checksum)?)
}
