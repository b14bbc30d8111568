ghost use Rattle.std.specs.Option.{option_copied};
ghost use Rattle.std.specs.Prelude.{◌≡◌, ◌≤◌, None};
ghost use Rattle.bh_types.specs.Rejections.{plainly};
ghost use Rattle.bh_machine.specs.Machine.{operated, bare_operated, service_operated, bucket_operated, object_operated, store_operated};
ghost use Rattle.bh_model.specs.Operations as machine;
ghost use Rattle.bh_view.specs.Bodies.{StoresPieces};
ghost use Rattle.bh_view.specs.View.{latest_of};
ghost use Rattle.bh_http.specs.Answers.{response_view};
ghost use Rattle.bh_host.specs.Offers.{offer_view, responded};
ghost use Rattle.bh_storage.specs.Plans.{IsMeasured};
ghost use Rattle.bh_host.specs.Offers.{IfPlanned};
ghost use Rattle.bh_storage.specs.Calls.{UnlessSpoilt};
ghost use Rattle.bh_cache.specs.Kept.{Agrees};
ghost use Rattle.bh_base.specs.Connections.{IsClean, tables};
ghost use Rattle.bh_schema.specs.Working.{Works};
ghost use Rattle.bh_dispatch.specs.Operating.{CarriesOut, HasBlocks, OperatesOn, OperatesOnBy};
ghost use Rattle.bh_dispatch.specs.Stored.{StoresBody};

use crate::answers::{offered, received, told, told_with_details};
use crate::asked::Asked;
use crate::documents::operate_document;
use crate::lifecycle::operate_lifecycle;
use crate::listings::operate_listing;
use crate::uploads::operate_upload;
use bh_base::connection::Connection;
use bh_host::offer::Offer;
use bh_http::body::{Body, drain};
use bh_http::response::Response;
use bh_objects::bodies::Blocks;
use bh_objects::copies::NewCopy;
use bh_objects::writes::NewObject;
use bh_objects::{buckets, copies, deletes, gets, heads, objects, retention};
use bh_operation::address::ObjectName;
use bh_operation::operation::{
    BareOperation, BucketOperation, CopySource, ObjectOperation, Operation, ServiceOperation,
    StoreOperation,
};
use bh_operation::text::Bytes;
use bh_schema::host::Digester;
use bh_shelf::shelf::Shelf;
use bh_storage::error::{Outcome, StepError, Trouble};
use bh_types::limits::Limits;
use bh_types::moment::Moment;
use bh_types::names::TenantName;
use bh_types::rejection::Rejection;
use bh_types::wanted::Wanted;
use bh_uploads::parts;
use bh_uploads::parts::NewPart;
use bh_uploads::reads::NamedUpload;
use bh_usage::usage;
use sqlite::Alter;
use std::alloc::Global;

/// The bytes that are there.
pub fn bytes_of(bytes: &Option<Bytes>) -> Option<&[u8]>
    ensures { option_copied result ≡ bytes.now }
{
    match bytes {
        Some(bytes) => Some(bytes.as_slice()),
        None => None,
    }
}

/// Carries out an operation on all buckets of a tenant.
fn operate_service<S: Alter, P: Shelf>(
    connection: &mut Connection<S, P>,
    alloc: Global,
    tenant: &TenantName,
    operation: &ServiceOperation,
) -> Result<Response, StepError<Rejection>>
    requires { Works S.Store P.Shelf connection.old }
    ensures { CarriesOut S.Store P.Shelf response_view tenant.now (λ s. responded (service_operated operation.now s))
        connection.old connection.new result }
{
    match operation {
        ServiceOperation::ListBuckets => {
            told(alloc, buckets::list_buckets(connection, alloc, tenant))
        }
        ServiceOperation::Usage => told(alloc, usage(connection, tenant)),
    }
}

/// Carries out an operation on a bucket itself.
fn operate_bucket<S: Alter, P: Shelf>(
    connection: &mut Connection<S, P>,
    alloc: Global,
    asked: &Asked<'_>,
    operation: &BucketOperation,
) -> Result<Response, StepError<Rejection>>
    requires working { Works S.Store P.Shelf connection.old }
    requires early { IsClean S.Store P.Shelf connection.old → asked.now.at ≤ latest_of (tables S.Store P.Shelf connection.old) }
    ensures { CarriesOut S.Store P.Shelf response_view asked.now.tenant.now (λ s. responded (bucket_operated asked.now.at operation.now s))
        connection.old connection.new result }
{
    let tenant = asked.tenant;
    match operation {
        BucketOperation::CreateBucket { bucket, locked } => {
            let created = buckets::create_bucket(connection, tenant, asked.at, bucket, *locked);
            told(alloc, created)
        }
        BucketOperation::HeadBucket(bucket) => {
            told(alloc, buckets::head_bucket(connection, tenant, bucket))
        }
        BucketOperation::DeleteBucket(bucket) => {
            told(alloc, buckets::delete_bucket(connection, tenant, bucket))
        }
        BucketOperation::GetBucketVersioning(bucket) => {
            told(alloc, buckets::versioning(connection, tenant, bucket))
        }
    }
}

fn copy_object<S: Alter, P: Shelf>(
    connection: &mut Connection<S, P>,
    alloc: Global,
    asked: &Asked<'_>,
    object: &ObjectName,
    source: &CopySource,
    date: Option<Option<Moment>>,
) -> Result<Response, StepError<Rejection>>
    requires working { Works S.Store P.Shelf connection.old }
    requires early { IsClean S.Store P.Shelf connection.old → asked.now.at ≤ latest_of (tables S.Store P.Shelf connection.old) }
    ensures { CarriesOut S.Store P.Shelf response_view asked.now.tenant.now
        (λ s. responded (plainly (machine.copy_object asked.now.at object.now.bucket object.now.key
        source.now.object.bucket source.now.object.key source.now.version date s)))
        connection.old connection.new result }
{
    let copy = NewCopy {
        tenant: asked.tenant,
        bucket: &object.bucket,
        key: &object.key,
        at: asked.at,
        source_bucket: &source.object.bucket,
        source_key: &source.object.key,
        version: source.version,
        date,
    };
    told(alloc, copies::copy_object(connection, &copy))
}

/// Carries out an operation on an object, without its bytes.
fn operate_object<S: Alter, P: Shelf>(
    connection: &mut Connection<S, P>,
    alloc: Global,
    asked: &Asked<'_>,
    operation: &ObjectOperation,
) -> Result<Response, StepError<Rejection>>
    requires working { Works S.Store P.Shelf connection.old }
    requires early { IsClean S.Store P.Shelf connection.old → asked.now.at ≤ latest_of (tables S.Store P.Shelf connection.old) }
    ensures { CarriesOut S.Store P.Shelf response_view asked.now.tenant.now (λ s. responded (object_operated asked.now.at operation.now s))
        connection.old connection.new result }
{
    let tenant = asked.tenant;
    match operation {
        ObjectOperation::CopyObject {
            object,
            source,
            date,
        } => { copy_object(connection, alloc, asked, object, source, *date) }
        ObjectOperation::HeadObject { object, version } => {
            let (bucket, key) = (&object.bucket, &object.key);
            let head = heads::head_object(connection, tenant, bucket, key, *version);
            told_with_details(alloc, head)
        }
        ObjectOperation::DeleteObject { object, version } => {
            let (bucket, key) = (&object.bucket, &object.key);
            let removed = deletes::delete_object(
                connection, tenant, asked.at, bucket, key, *version,
            );
            told(alloc, removed)
        }
        ObjectOperation::GetRetention { object, version } => {
            let (bucket, key) = (&object.bucket, &object.key);
            let date = retention::retention(connection, tenant, bucket, key, *version);
            told_with_details(alloc, date)
        }
    }
}

/// Carries out an operation that doesn't need its request's body.
fn carry_out<S: Alter, P: Shelf>(
    connection: &mut Connection<S, P>,
    alloc: Global,
    asked: &Asked<'_>,
    operation: &BareOperation,
) -> Result<Response, StepError<Rejection>>
    requires working { Works S.Store P.Shelf connection.old }
    requires early { IsClean S.Store P.Shelf connection.old → asked.now.at ≤ latest_of (tables S.Store P.Shelf connection.old) }
    ensures { CarriesOut S.Store P.Shelf response_view asked.now.tenant.now (λ s. responded (bare_operated asked.now.at operation.now s))
        connection.old connection.new result }
{
    match operation {
        BareOperation::Service(operation) => {
            operate_service(connection, alloc, asked.tenant, operation)
        }
        BareOperation::Bucket(operation) => operate_bucket(connection, alloc, asked, operation),
        BareOperation::Listing(operation) => {
            operate_listing(connection, alloc, asked.tenant, operation)
        }
        BareOperation::Lifecycle(operation) => {
            operate_lifecycle(connection, alloc, asked.tenant, operation)
        }
        BareOperation::Upload(operation) => operate_upload(connection, alloc, asked, operation),
        BareOperation::Object(operation) => operate_object(connection, alloc, asked, operation),
    }
}

/// Carries out an operation that ignores its request's body, after that was received. None of its
/// bytes is stored.
fn operate_bare<S: Alter, P: Shelf, B: Body>(
    connection: &mut Connection<S, P>,
    alloc: Global,
    asked: &Asked<'_>,
    operation: &BareOperation,
    body: &mut B,
) -> Result<Outcome<Response, Rejection>, StepError<Rejection>>
    requires working { Works S.Store P.Shelf connection.old }
    requires early { IsClean S.Store P.Shelf connection.old → asked.now.at ≤ latest_of (tables S.Store P.Shelf connection.old) }
    requires going { (B.coming body.old).broken ≡ None }
    ensures { OperatesOn S.Store P.Shelf response_view asked.now.tenant.now (λ _ s. responded (bare_operated asked.now.at operation.now s))
        (B.coming body.old) (B.coming body.new) connection.old connection.new result }
{
    match drain(body) {
        Ok(()) => {
            let response = carry_out(connection, alloc, asked, operation)?;
            Ok(Outcome::Done(response))
        }
        Err(cause) => Err(StepError::Failed(Trouble::from(cause))),
    }
}

/// Finds an object, after the request's body was received. The object's bytes are still to be read.
fn get_object<S: Alter, P: Shelf, B: Body>(
    connection: &mut Connection<S, P>,
    tenant: &TenantName,
    object: &ObjectName,
    version: Wanted,
    range: Option<&[u8]>,
    body: &mut B,
) -> Result<Outcome<Offer, Rejection>, StepError<Rejection>>
    requires working { Works S.Store P.Shelf connection.old }
    requires going { (B.coming body.old).broken ≡ None }
    ensures found { OperatesOn S.Store P.Shelf (offer_view (tables S.Store P.Shelf connection.new)) tenant.now
        (λ _ s. responded (machine.get_object object.now.bucket object.now.key version (option_copied range.entry) s))
        (B.coming body.old) (B.coming body.new) connection.old connection.new result }
    ensures measured { IfPlanned result (λ found. IsClean S.Store P.Shelf connection.new
        → IsMeasured (tables S.Store P.Shelf connection.new) found) }
{
    match drain(body) {
        Ok(()) => {
            let (bucket, key) = (&object.bucket, &object.key);
            let found = gets::get_object(connection, tenant, bucket, key, version, range)?;
            Ok(Outcome::Done(Offer::Planned(found)))
        }
        Err(cause) => Err(StepError::Failed(Trouble::from(cause))),
    }
}

/// Stores the bytes of an object or of a part while they are received.
fn operate_store<S: Alter, P: Shelf, D: Digester, B: Body>(
    connection: &mut Connection<S, P>,
    alloc: Global,
    blocks: &Blocks<'_, '_, D>,
    asked: &Asked<'_>,
    operation: &StoreOperation,
    body: &mut B,
) -> Result<Outcome<Response, Rejection>, StepError<Rejection>>
    requires working { Works S.Store P.Shelf connection.old }
    requires blocks { HasBlocks S.Store P.Shelf D.digest_of blocks.now.cache.now blocks.now.size connection.old }
    requires early { IsClean S.Store P.Shelf connection.old → asked.now.at ≤ latest_of (tables S.Store P.Shelf connection.old) }
    requires going { (B.coming body.old).broken ≡ None }
    ensures operated { OperatesOnBy S.Store P.Shelf D.digest_of response_view asked.now.tenant.now
        (λ bytes s. responded (store_operated asked.now.at bytes operation.now s))
        (λ bytes. StoresPieces D.digest_of blocks.now.size bytes (tables S.Store P.Shelf connection.old)
        (tables S.Store P.Shelf connection.new))
        (B.coming body.old) (B.coming body.new) connection.old connection.new result }
    ensures kept { UnlessSpoilt result (IsClean S.Store P.Shelf connection.new
        → Agrees blocks.now.cache.now (tables S.Store P.Shelf connection.new).blocks) }
{
    match operation {
        StoreOperation::PutObject {
            object,
            checksum,
            date,
        } => {
            let object = NewObject {
                tenant: asked.tenant,
                bucket: &object.bucket,
                key: &object.key,
                at: asked.at,
                date: *date,
            };
            let given = bytes_of(checksum);
            let stored = objects::put_object(connection, alloc, blocks, &object, given, body);
            received(alloc, stored)
        }
        StoreOperation::UploadPart {
            object,
            upload,
            number,
            checksum,
        } => {
            let part = NewPart {
                upload: NamedUpload {
                    tenant: asked.tenant,
                    bucket: &object.bucket,
                    key: &object.key,
                    upload: *upload,
                },
                number: *number,
                at: asked.at,
            };
            let given = bytes_of(checksum);
            let stored = parts::put_part(connection, alloc, blocks, &part, given, body);
            received(alloc, stored)
        }
    }
}

/// Carries out a tenant's operation, on a host with these limits and at a moment that is not after
/// the last stamp. The bytes of objects and parts are stored while they are received. A document is
/// read whole, up to `DOCUMENT_END` bytes. If an object is found, the answer is a plan of its
/// bytes.
pub fn operate<S: Alter, P: Shelf, D: Digester, B: Body>(
    connection: &mut Connection<S, P>,
    alloc: Global,
    blocks: &Blocks<'_, '_, D>,
    limits: Limits,
    tenant: &TenantName,
    at: Moment,
    operation: &Operation,
    body: &mut B,
) -> Result<Outcome<Offer, Rejection>, StepError<Rejection>>
    requires working { Works S.Store P.Shelf connection.old }
    requires blocks { HasBlocks S.Store P.Shelf D.digest_of blocks.now.cache.now blocks.now.size connection.old }
    requires early { IsClean S.Store P.Shelf connection.old → at ≤ latest_of (tables S.Store P.Shelf connection.old) }
    requires going { (B.coming body.old).broken ≡ None }
    ensures operated { OperatesOnBy S.Store P.Shelf D.digest_of (offer_view (tables S.Store P.Shelf connection.new)) tenant.now
        (λ bytes s. responded (operated limits at bytes operation.now s))
        (λ bytes. StoresBody D.digest_of blocks.now.size bytes operation.now
        (tables S.Store P.Shelf connection.old) (tables S.Store P.Shelf connection.new))
        (B.coming body.old) (B.coming body.new) connection.old connection.new result }
    ensures measured { IfPlanned result (λ found. IsClean S.Store P.Shelf connection.new
        → IsMeasured (tables S.Store P.Shelf connection.new) found) }
    ensures kept { UnlessSpoilt result (IsClean S.Store P.Shelf connection.new
        → Agrees blocks.now.cache.now (tables S.Store P.Shelf connection.new).blocks) }
{
    let asked = Asked { limits, tenant, at };
    match operation {
        Operation::Bare(operation) => {
            offered(operate_bare(connection, alloc, &asked, operation, body))
        }
        Operation::ByDocument(operation) => {
            offered(operate_document(connection, alloc, &asked, operation, body))
        }
        Operation::Store(operation) => {
            offered(operate_store(connection, alloc, blocks, &asked, operation, body))
        }
        Operation::GetObject {
            object,
            version,
            range,
        } => get_object(connection, tenant, object, *version, bytes_of(range), body),
    }
}
