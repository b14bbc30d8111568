ghost use Rattle.std.specs.Prelude.{◌≡◌, Ok, IfOk, OnOk};
ghost use Rattle.std.specs.Option.{option_copied};
ghost use Rattle.bh_storage.specs.Answers.{stored_answer};
ghost use Rattle.bh_storage.specs.Calls.{Unless, UnlessSpoilt, Decides, OperatesBy};
ghost use Rattle.bh_view.specs.Bodies.{StoresPieces};
ghost use Rattle.bh_view.specs.View.{view};
ghost use Rattle.bh_base.specs.Connections.{IsClean, tables, StaysWithin, StaysOpen, Becomes};
ghost use Rattle.bh_schema.specs.Working.{Works, WorksOn, WorksOnBy};
ghost use Rattle.bh_objects.specs.Admitting.{admitted_in, numbers_admitted, put_step};
ghost use Rattle.bh_objects.specs.Found.{mode_in, replaced_in, IsHeld, IsKeyText};
ghost use Rattle.bh_objects.specs.Refusing.{IsReceived};
ghost use Rattle.bh_objects.specs.Storing.{MayStore, MayPut};
ghost use Rattle.bh_objects.specs.Writes.{object_written};

use crate::bodies::{Blocks, refused_checked, refused_whole, store_checked};
use crate::dates::{new_date, set_date};
use crate::ids::new_id_told;
use crate::quotas::{NewEntry, new_entry};
use crate::reads::bucket_state;
use crate::writes::{NewObject, write_object};
use bh_base::connection::Connection;
use bh_http::body::Body;
use bh_schema::host::Digester;
use bh_shelf::shelf::Shelf;
use bh_storage::answer::StoredVersion;
use bh_storage::error::{Outcome, StepError, Trouble};
use bh_types::bucket_state::BucketState;
use bh_types::moment::Moment;
use bh_types::refusal::Refusal;
use sqlite::Alter;
use std::alloc::Global;

/// The numbers and the date of an accepted new version. It was accepted by its request, its bucket
/// and the tenant's quota.
#[derive(Clone, Copy)]
pub struct Admitted {
    /// The date before which it may not be deleted, if it gets one.
    pub until: Option<Moment>,
    pub entry: NewEntry,
}

/// Accepts a new version of `size` bytes in a bucket of this state. Refusals: InvalidRequest,
/// InvalidArgument, QuotaExceeded, CounterExhausted.
fn admit<S: Alter, P: Shelf>(
    connection: &mut Connection<S, P>,
    object: &NewObject<'_>,
    mode: BucketState,
    size: u64,
) -> Result<Admitted, StepError<Refusal>>
    requires working { Works S.Store P.Shelf connection.old }
    requires mode { IsClean S.Store P.Shelf connection.old
        → mode_in object.now.bucket.now (view (tables S.Store P.Shelf connection.old) object.now.tenant.now) ≡ Ok mode }
    ensures works { WorksOn S.Store P.Shelf (Unless result) connection.old connection.new }
    ensures decides { IsClean S.Store P.Shelf connection.new
        → Decides numbers_admitted (admitted_in mode object.now.bucket.now object.now.key.now object.now.date object.now.at size
        (view (tables S.Store P.Shelf connection.old) object.now.tenant.now))
        (tables S.Store P.Shelf connection.old) (tables S.Store P.Shelf connection.new) result }
    ensures replaced { IfOk result (λ it. IsClean S.Store P.Shelf connection.new
        → it.entry.replaced ≡ replaced_in mode object.now.tenant.now object.now.bucket.now object.now.key.now
        (tables S.Store P.Shelf connection.old)) }
{
    let until = new_date(
        connection,
        object.tenant,
        object.bucket,
        object.date,
        object.at,
    )?;
    let entry = new_entry(
        connection,
        object.tenant,
        object.bucket,
        object.key,
        mode,
        size,
    )?;
    Ok(Admitted { until, entry })
}

/// Stores an object without a date while it is received, as an entry of a bucket of this state, and
/// returns its checksum. It refuses with BadDigest, after rows were written, if the request gives
/// another checksum.
fn store_object<S: Alter, P: Shelf, D: Digester, B: Body>(
    connection: &mut Connection<S, P>,
    alloc: Global,
    blocks: &Blocks<'_, '_, D>,
    object: &NewObject<'_>,
    given: Option<&[u8]>,
    mode: BucketState,
    entry: NewEntry,
    body: &mut B,
) -> Result<Outcome<String, Refusal>, Trouble>
    requires may { MayStore S.Store P.Shelf blocks.now.cache.now blocks.now.size connection.old (B.coming body.old) }
    requires held { IsClean S.Store P.Shelf connection.old
        → IsHeld object.now.tenant.now object.now.bucket.now object.now.key.now entry.replaced (tables S.Store P.Shelf connection.old) }
    ensures within { StaysWithin S.Store P.Shelf connection.old connection.new }
    ensures opens { OnOk result (StaysOpen S.Store P.Shelf connection.old connection.new) }
    ensures received { IsReceived result (B.coming body.old) (B.coming body.new) (option_copied given.entry)
        (λ bytes. IsKeyText object.now.key.now × Becomes S.Store P.Shelf connection.old connection.new
        (object_written D.digest_of blocks.now.size mode entry.numbers.before entry.numbers.after entry.replaced
        object.now.tenant.now object.now.bucket.now object.now.key.now object.now.at bytes)) }
{
    let size = body.due();
    let tenant = object.tenant.as_str();
    let number = entry.numbers.before.entry;
    let outcome = store_checked(connection, alloc, blocks, tenant, number, given, body)?;
    match outcome {
        Outcome::Done(text) => {
            write_object(connection, object, mode, entry, size, text.as_str())?;
            Ok(Outcome::Done(text))
        }
        Outcome::Spoilt(refusal) => Ok(Outcome::Spoilt(refusal)),
    }
}

/// Stores an accepted object while it is received, and its date.
fn store_admitted<S: Alter, P: Shelf, D: Digester, B: Body>(
    connection: &mut Connection<S, P>,
    alloc: Global,
    blocks: &Blocks<'_, '_, D>,
    object: &NewObject<'_>,
    given: Option<&[u8]>,
    mode: BucketState,
    admitted: Admitted,
    body: &mut B,
) -> Result<Outcome<StoredVersion, Refusal>, StepError<Refusal>>
    requires may { MayPut S.Store P.Shelf D.digest_of blocks.now.cache.now blocks.now.size object.now.at connection.old
        (B.coming body.old) }
    requires mode { IsClean S.Store P.Shelf connection.old
        → mode_in object.now.bucket.now (view (tables S.Store P.Shelf connection.old) object.now.tenant.now) ≡ Ok mode }
    requires admitted { IsClean S.Store P.Shelf connection.old
        → admitted_in mode object.now.bucket.now object.now.key.now object.now.date object.now.at (B.coming body.old).due
        (view (tables S.Store P.Shelf connection.old) object.now.tenant.now) ≡ Ok (numbers_admitted admitted) }
    requires replaced { IsClean S.Store P.Shelf connection.old
        → admitted.entry.replaced ≡ replaced_in mode object.now.tenant.now object.now.bucket.now object.now.key.now
        (tables S.Store P.Shelf connection.old) }
    ensures works { WorksOnBy S.Store P.Shelf D.digest_of (UnlessSpoilt result) connection.old connection.new }
    ensures operates { OperatesBy stored_answer object.now.tenant.now (put_step object.now (option_copied given.entry))
        (λ bytes. StoresPieces D.digest_of blocks.now.size bytes (tables S.Store P.Shelf connection.old)
        (tables S.Store P.Shelf connection.new))
        (IsClean S.Store P.Shelf connection.new) (B.coming body.old) (B.coming body.new)
        (tables S.Store P.Shelf connection.old) (tables S.Store P.Shelf connection.new) result }
{
    let Admitted { until, entry } = admitted;
    let numbers = entry.numbers;
    let outcome = store_object(connection, alloc, blocks, object, given, mode, entry, body)?;
    match outcome {
        Outcome::Done(checksum) => {
            set_date(connection, object.tenant, numbers.before.entry, None, until)?;
            let id = new_id_told(mode, numbers.before.version);
            Ok(Outcome::Done(StoredVersion { id, checksum }))
        }
        Outcome::Spoilt(refusal) => Ok(Outcome::Spoilt(refusal)),
    }
}

/// Puts an object into a bucket of this state.
fn put_into<S: Alter, P: Shelf, D: Digester, B: Body>(
    connection: &mut Connection<S, P>,
    alloc: Global,
    blocks: &Blocks<'_, '_, D>,
    object: &NewObject<'_>,
    given: Option<&[u8]>,
    mode: BucketState,
    body: &mut B,
) -> Result<Outcome<StoredVersion, Refusal>, StepError<Refusal>>
    requires may { MayPut S.Store P.Shelf D.digest_of blocks.now.cache.now blocks.now.size object.now.at connection.old
        (B.coming body.old) }
    requires mode { IsClean S.Store P.Shelf connection.old
        → mode_in object.now.bucket.now (view (tables S.Store P.Shelf connection.old) object.now.tenant.now) ≡ Ok mode }
    ensures works { WorksOnBy S.Store P.Shelf D.digest_of (UnlessSpoilt result) connection.old connection.new }
    ensures operates { OperatesBy stored_answer object.now.tenant.now (put_step object.now (option_copied given.entry))
        (λ bytes. StoresPieces D.digest_of blocks.now.size bytes (tables S.Store P.Shelf connection.old)
        (tables S.Store P.Shelf connection.new))
        (IsClean S.Store P.Shelf connection.new) (B.coming body.old) (B.coming body.new)
        (tables S.Store P.Shelf connection.old) (tables S.Store P.Shelf connection.new) result }
{
    match admit(connection, object, mode, body.due()) {
        Ok(admitted) => {
            store_admitted(
                connection, alloc, blocks, object, given, mode, admitted, body,
            )
        }
        Err(error) => Err(refused_checked(alloc, body, given, error)),
    }
}

/// S3's PutObject, at a moment that is not after the last stamp; the request may give the bytes'
/// checksum. Refusals: NoSuchBucket, BadDigest, InvalidRequest, InvalidArgument, QuotaExceeded,
/// CounterExhausted. The bytes are stored while they are received. If the head alone decides a
/// refusal, they are only counted, and hashed if a checksum is given.
pub fn put_object<S: Alter, P: Shelf, D: Digester, B: Body>(
    connection: &mut Connection<S, P>,
    alloc: Global,
    blocks: &Blocks<'_, '_, D>,
    object: &NewObject<'_>,
    given: Option<&[u8]>,
    body: &mut B,
) -> Result<Outcome<StoredVersion, Refusal>, StepError<Refusal>>
    requires may { MayPut S.Store P.Shelf D.digest_of blocks.now.cache.now blocks.now.size object.now.at connection.old
        (B.coming body.old) }
    ensures works { WorksOnBy S.Store P.Shelf D.digest_of (UnlessSpoilt result) connection.old connection.new }
    ensures operates { OperatesBy stored_answer object.now.tenant.now (put_step object.now (option_copied given.entry))
        (λ bytes. StoresPieces D.digest_of blocks.now.size bytes (tables S.Store P.Shelf connection.old)
        (tables S.Store P.Shelf connection.new))
        (IsClean S.Store P.Shelf connection.new) (B.coming body.old) (B.coming body.new)
        (tables S.Store P.Shelf connection.old) (tables S.Store P.Shelf connection.new) result }
{
    match bucket_state(connection, object.tenant, object.bucket) {
        Ok(mode) => put_into(connection, alloc, blocks, object, given, mode, body),
        Err(error) => Err(refused_whole(body, error)),
    }
}
