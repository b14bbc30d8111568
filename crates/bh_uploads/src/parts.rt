ghost use Rattle.std.specs.Prelude.{◌≡◌, ◌≤◌, ◌<◌, ◌^◌, ◌+◌, Ok, OnOk};
ghost use Rattle.std.specs.Option.{option_copied};
ghost use Rattle.std.specs.String.{string_bytes};
ghost use Rattle.bh_model.specs.Operations.{PartStored};
ghost use Rattle.bh_storage.specs.Calls.{UnlessSpoilt, OperatesBy};
ghost use Rattle.bh_view.specs.Bodies.{StoresPieces};
ghost use Rattle.bh_view.specs.View.{view};
ghost use Rattle.bh_base.specs.Connections.{IsClean, tables, InTransaction, StaysWithin, StaysOpen, Becomes};
ghost use Rattle.bh_schema.specs.Working.{WorksOnBy};
ghost use Rattle.bh_objects.specs.Calls.{Changes};
ghost use Rattle.bh_objects.specs.Refusing.{IsReceived};
ghost use Rattle.bh_objects.specs.Storing.{MayStore, MayPut};
ghost use Rattle.bh_uploads.specs.Found.{part_bytes_in, part_step, replaced_body, upload_in};
ghost use Rattle.bh_uploads.specs.Writes.{without_body_of, part_placed, part_written};

use crate::quotas::{PartEntry, part_entry};
use crate::reads::{FoundUpload, NamedUpload, found_upload};
use crate::rows::kept::place_part;
use crate::rows::parts::PartRecord;
use crate::writes::drop_entry_body;
use bh_base::connection::Connection;
use bh_http::body::Body;
use bh_objects::bodies::{Blocks, refused_checked, refused_whole, store_checked};
use bh_objects::writes::SIZE_END;
use bh_schema::host::Digester;
use bh_schema::trouble::or_trouble;
use bh_shelf::shelf::Shelf;
use bh_storage::error::{Outcome, StepError, Trouble};
use bh_types::moment::Moment;
use bh_types::names::TenantName;
use bh_types::refusal::Refusal;
use sqlite::Alter;
use std::alloc::Global;

/// The greatest number of a part.
const LAST_PART: u32 = 10_000;

/// A part to be stored. Its bytes are passed beside it.
#[derive(Clone, Copy)]
pub struct NewPart<'a> {
    pub upload: NamedUpload<'a>,
    /// 1 to 10,000.
    pub number: u32,
    /// When it is stored.
    pub at: Moment,
}

/// Deletes the body of a part that was replaced.
fn drop_old<S: Alter, P: Shelf>(
    connection: &mut Connection<S, P>,
    tenant: &TenantName,
    replaced: Option<u64>,
) -> Result<(), Trouble>
    requires { InTransaction S.Store P.Shelf connection.old }
    ensures changes { Changes S.Store P.Shelf connection.old connection.new result (without_body_of tenant.now replaced) }
{
    match replaced {
        None => Ok(()),
        Some(body) => drop_entry_body(connection, tenant, body),
    }
}

/// Writes the row of a part of this size, in place of the one with its number, if there is one,
/// under the tenant's next entry number.
fn add_part<S: Alter, P: Shelf>(
    connection: &mut Connection<S, P>,
    part: &NewPart<'_>,
    upload: u64,
    taken: PartEntry,
    size: u64,
    checksum: &str,
) -> Result<(), Trouble>
    requires inside { InTransaction S.Store P.Shelf connection.old }
    requires upload { upload < 2 ^ 62 }
    requires entry { taken.entry < 2 ^ 62 }
    requires held { IsClean S.Store P.Shelf connection.old
        → part_bytes_in part.now.upload.tenant.now upload part.now.number (tables S.Store P.Shelf connection.old) ≡ taken.bytes }
    ensures changes { Changes S.Store P.Shelf connection.old connection.new result
        (part_placed (record {
          tenant = part.now.upload.tenant.now;
          upload = upload;
          part = part.now.number;
          size = size;
          checksum = checksum.now;
          stamp = part.now.at;
          body = taken.entry;
        }) (taken.entry + 1)) }
{
    // No part has that size.
    if size >= SIZE_END || taken.bytes >= SIZE_END {
        return Err(Trouble::Store);
    }
    let row = PartRecord {
        tenant: part.upload.tenant.as_str(),
        upload,
        number: u64::from(part.number),
        size,
        checksum,
        stamp: part.at.seconds(),
        body: taken.entry,
    };
    or_trouble(place_part(connection, &row, taken.entry + 1, taken.bytes))
}

/// The part's number, checked.
fn require_number(number: u32) -> Result<(), Trouble>
    ensures least { OnOk result (1 ≤ number) }
    ensures most { OnOk result (number ≤ 10000) }
{
    // No request has such a number.
    if number < 1 || number > LAST_PART {
        return Err(Trouble::Store);
    }
    Ok(())
}

/// Stores a part while it is received, under this entry number. Its body and its row are written
/// before the body of the part that it replaces is deleted.
fn store_part<S: Alter, P: Shelf, D: Digester, B: Body>(
    connection: &mut Connection<S, P>,
    alloc: Global,
    blocks: &Blocks<'_, '_, D>,
    part: &NewPart<'_>,
    given: Option<&[u8]>,
    upload: u64,
    taken: PartEntry,
    body: &mut B,
) -> Result<Outcome<String, Refusal>, Trouble>
    requires may { MayStore S.Store P.Shelf blocks.now.cache.now blocks.now.size connection.old (B.coming body.old) }
    requires upload { upload < 2 ^ 62 }
    requires entry { taken.entry < 2 ^ 62 }
    requires held { IsClean S.Store P.Shelf connection.old
        → part_bytes_in part.now.upload.tenant.now upload part.now.number (tables S.Store P.Shelf connection.old) ≡ taken.bytes }
    requires replaced { IsClean S.Store P.Shelf connection.old
        → taken.replaced ≡ replaced_body part.now.upload.tenant.now upload part.now.number (tables S.Store P.Shelf connection.old) }
    ensures within { StaysWithin S.Store P.Shelf connection.old connection.new }
    ensures opens { OnOk result (StaysOpen S.Store P.Shelf connection.old connection.new) }
    ensures stores { IsReceived result (B.coming body.old) (B.coming body.new) (option_copied given.entry)
        (λ bytes. (1 ≤ part.now.number) × (part.now.number ≤ 10000) × Becomes S.Store P.Shelf connection.old connection.new
        (part_written D.digest_of blocks.now.size part.now.upload.tenant.now upload part.now.number bytes part.now.at taken.entry
        taken.replaced)) }
{
    let size = body.due();
    let tenant = part.upload.tenant;
    require_number(part.number)?;
    let name = tenant.as_str();
    let outcome = store_checked(connection, alloc, blocks, name, taken.entry, given, body)?;
    match outcome {
        Outcome::Done(text) => {
            add_part(connection, part, upload, taken, size, text.as_str())?;
            drop_old(connection, tenant, taken.replaced)?;
            Ok(Outcome::Done(text))
        }
        Outcome::Spoilt(refusal) => Ok(Outcome::Spoilt(refusal)),
    }
}

/// Puts a part into the upload with this number.
fn put_into<S: Alter, P: Shelf, D: Digester, B: Body>(
    connection: &mut Connection<S, P>,
    alloc: Global,
    blocks: &Blocks<'_, '_, D>,
    part: &NewPart<'_>,
    given: Option<&[u8]>,
    found: FoundUpload,
    body: &mut B,
) -> Result<Outcome<String, Refusal>, StepError<Refusal>>
    requires may { MayPut S.Store P.Shelf D.digest_of blocks.now.cache.now blocks.now.size part.now.at connection.old (B.coming body.old) }
    requires small { found.number < 2 ^ 62 }
    requires found { IsClean S.Store P.Shelf connection.old
        → upload_in part.now.upload.bucket.now part.now.upload.key.now part.now.upload.upload
        (view (tables S.Store P.Shelf connection.old) part.now.upload.tenant.now)
        ≡ Ok (found.mode, found.number) }
    ensures works { WorksOnBy S.Store P.Shelf D.digest_of (UnlessSpoilt result) connection.old connection.new }
    ensures operates { OperatesBy (λ checksum. PartStored (string_bytes checksum)) part.now.upload.tenant.now
        (part_step part.now (option_copied given.entry))
        (λ bytes. StoresPieces D.digest_of blocks.now.size bytes (tables S.Store P.Shelf connection.old)
        (tables S.Store P.Shelf connection.new))
        (IsClean S.Store P.Shelf connection.new) (B.coming body.old) (B.coming body.new)
        (tables S.Store P.Shelf connection.old) (tables S.Store P.Shelf connection.new) result }
{
    let tenant = part.upload.tenant;
    match part_entry(connection, tenant, found.number, part.number, body.due()) {
        Ok(taken) => {
            let upload = found.number;
            let outcome = store_part(connection, alloc, blocks, part, given, upload, taken, body)?;
            Ok(outcome)
        }
        Err(error) => Err(refused_checked(alloc, body, given, error)),
    }
}

/// S3's UploadPart, at a moment that is not after the last stamp; the request may give the bytes'
/// checksum. Refusals: NoSuchBucket, NoSuchUpload, BadDigest, QuotaExceeded, CounterExhausted. The
/// bytes are stored while they are received. If the head alone decides a refusal, they are only
/// counted, and hashed if a checksum is given. Returns the text of their checksum.
pub fn put_part<S: Alter, P: Shelf, D: Digester, B: Body>(
    connection: &mut Connection<S, P>,
    alloc: Global,
    blocks: &Blocks<'_, '_, D>,
    part: &NewPart<'_>,
    given: Option<&[u8]>,
    body: &mut B,
) -> Result<Outcome<String, Refusal>, StepError<Refusal>>
    requires may { MayPut S.Store P.Shelf D.digest_of blocks.now.cache.now blocks.now.size part.now.at connection.old (B.coming body.old) }
    ensures works { WorksOnBy S.Store P.Shelf D.digest_of (UnlessSpoilt result) connection.old connection.new }
    ensures operates { OperatesBy (λ checksum. PartStored (string_bytes checksum)) part.now.upload.tenant.now
        (part_step part.now (option_copied given.entry))
        (λ bytes. StoresPieces D.digest_of blocks.now.size bytes (tables S.Store P.Shelf connection.old)
        (tables S.Store P.Shelf connection.new))
        (IsClean S.Store P.Shelf connection.new) (B.coming body.old) (B.coming body.new)
        (tables S.Store P.Shelf connection.old) (tables S.Store P.Shelf connection.new) result }
{
    match found_upload(connection, &part.upload) {
        Ok(found) => put_into(connection, alloc, blocks, part, given, found, body),
        Err(error) => Err(refused_whole(body, error)),
    }
}
