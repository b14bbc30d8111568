ghost use Rattle.std.specs.Prelude.{◌≡◌, ℕ, List};
ghost use Rattle.bh_types.specs.Outcomes.{Gives};
ghost use Rattle.bh_http.specs.Views.{pairs_of, with_body};
ghost use Rattle.bh_operation.specs.Operations as spec;

use crate::address::ObjectName;
use crate::buckets::bucket_operation;
use crate::headers::supported;
use crate::method::{Method, method_of};
use crate::objects::object_operation;
use crate::page::{Page, PartPage, UploadMarker, VersionMarker};
use crate::query::{Selector, parameters_in, selected};
use crate::read::RequestParts;
use crate::routes::Routes;
use crate::target::{Target, routed, split_target, target_at};
use crate::text::Bytes;
use bh_http::request::Head;
use bh_types::bucket::BucketName;
use bh_types::error::RequestError;
use bh_types::id::UploadId;
use bh_types::moment::Moment;
use bh_types::names::TenantName;
use bh_types::refusal::Refusal;
use bh_types::wanted::Wanted;
use std::alloc::Global;

/// The source of a copy.
#[derive(Drop)]
pub struct CopySource {
    pub object: ObjectName,
    pub version: Wanted,
}

/// A request's operation, named as in the Amazon S3 API Reference, and grouped by what the host
/// does with the request's body and with an object's bytes. An upload is `None` if the given id
/// can't be one.
#[derive(Drop)]
pub enum Operation {
    /// The body isn't needed, and the answer has no object's bytes.
    Bare(BareOperation),
    /// The body is a document with the operation's arguments.
    ByDocument(DocumentOperation),
    /// The body's bytes are stored.
    Store(StoreOperation),
    /// `GET /bucket/key`, with the text of the header field Range if there is exactly one. The
    /// answer is the object's bytes; the request's body is ignored.
    GetObject {
        object: ObjectName,
        version: Wanted,
        range: Option<Bytes>,
    },
}

/// An operation that needs no request body and returns no object's bytes, by its subject.
#[derive(Drop)]
pub enum BareOperation {
    /// All buckets of the caller.
    Service(ServiceOperation),
    /// A bucket itself.
    Bucket(BucketOperation),
    /// A page of a bucket's contents.
    Listing(ListingOperation),
    /// A bucket's rule.
    Lifecycle(LifecycleOperation),
    /// A multipart upload.
    Upload(UploadOperation),
    /// An object.
    Object(ObjectOperation),
}

/// An operation on all buckets of the caller.
#[derive(Drop)]
pub enum ServiceOperation {
    /// `GET /`
    ListBuckets,
    /// `GET /?usage`, which S3 doesn't have.
    Usage,
}

/// An operation on a bucket itself.
#[derive(Drop)]
pub enum BucketOperation {
    /// `PUT /bucket`, and whether the bucket is to be locked.
    CreateBucket { bucket: BucketName, locked: bool },
    /// `HEAD /bucket`
    HeadBucket(BucketName),
    /// `DELETE /bucket`
    DeleteBucket(BucketName),
    /// `GET /bucket?versioning`
    GetBucketVersioning(BucketName),
}

/// A page of a bucket's contents.
#[derive(Drop)]
pub enum ListingOperation {
    /// `GET /bucket?list-type=2`, the names greater than the token's.
    ListObjectsV2 {
        bucket: BucketName,
        page: Page,
        token: Option<Bytes>,
    },
    /// `GET /bucket?versions`
    ListObjectVersions {
        bucket: BucketName,
        page: Page,
        after: Option<VersionMarker>,
    },
    /// `GET /bucket?uploads`
    ListMultipartUploads {
        bucket: BucketName,
        page: Page,
        after: Option<UploadMarker>,
    },
}

/// An operation on a bucket's rule, without a document.
#[derive(Drop)]
pub enum LifecycleOperation {
    /// `GET /bucket?lifecycle`
    GetLifecycle(BucketName),
    /// `DELETE /bucket?lifecycle`
    DeleteLifecycle(BucketName),
}

/// An operation on a multipart upload, without a document or a part's bytes.
#[derive(Drop)]
pub enum UploadOperation {
    /// `POST /bucket/key?uploads`
    CreateMultipartUpload(ObjectName),
    /// `GET /bucket/key?uploadId=..`
    ListParts {
        object: ObjectName,
        upload: Option<UploadId>,
        page: PartPage,
    },
    /// `DELETE /bucket/key?uploadId=..`
    AbortMultipartUpload {
        object: ObjectName,
        upload: Option<UploadId>,
    },
}

/// An operation on an object, without its bytes or a document.
#[derive(Drop)]
pub enum ObjectOperation {
    /// `PUT /bucket/key` with `x-amz-copy-source`, and a date as for `PutObject`.
    CopyObject {
        object: ObjectName,
        source: CopySource,
        date: Option<Option<Moment>>,
    },
    /// `HEAD /bucket/key`
    HeadObject {
        object: ObjectName,
        version: Wanted,
    },
    /// `DELETE /bucket/key`
    DeleteObject {
        object: ObjectName,
        version: Wanted,
    },
    /// `GET /bucket/key?retention`
    GetRetention {
        object: ObjectName,
        version: Wanted,
    },
}

/// An operation whose arguments are in the request's document.
#[derive(Drop)]
pub enum DocumentOperation {
    /// `PUT /bucket?versioning`
    PutBucketVersioning(BucketName),
    /// `PUT /bucket?lifecycle`
    PutLifecycle(BucketName),
    /// `POST /bucket/key?uploadId=..`
    CompleteMultipartUpload {
        object: ObjectName,
        upload: Option<UploadId>,
    },
    /// `PUT /bucket/key?retention`
    PutRetention {
        object: ObjectName,
        version: Wanted,
    },
}

/// An operation that stores the request's bytes, with the checksum that they must have, if one is
/// given.
#[derive(Drop)]
pub enum StoreOperation {
    /// `PUT /bucket/key`, and the date until which the version is to be retained, if one is given.
    /// The inner `None` is an invalid date.
    PutObject {
        object: ObjectName,
        checksum: Option<Bytes>,
        date: Option<Option<Moment>>,
    },
    /// `PUT /bucket/key?uploadId=..&partNumber=..`, its number 1 to 10,000.
    UploadPart {
        object: ObjectName,
        upload: Option<UploadId>,
        number: u32,
        checksum: Option<Bytes>,
    },
}

/// The operation of a method and a selector on the host itself.
#[tactic(auto, unfolding(crate::specs::Operations::host_operation))]
fn host_operation(method: Method, selector: Option<Selector>) -> Result<Operation, Refusal>
    ensures { result ≡ spec.host_operation method selector }
{
    match (method, selector) {
        (Method::Get, None) => Ok(Operation::Bare(BareOperation::Service(
            ServiceOperation::ListBuckets,
        ))),
        (Method::Get, Some(Selector::Usage)) => Ok(Operation::Bare(BareOperation::Service(
            ServiceOperation::Usage,
        ))),
        _ => Err(Refusal::MethodNotAllowed),
    }
}

/// The operation on a target.
#[tactic(auto, unfolding(crate::specs::Operations::operation_at))]
fn operation_at(
    asked: &RequestParts,
    target: Target,
    selector: Option<Selector>,
) -> Result<Operation, RequestError>
    ensures { Gives (λ x. x) result (spec.operation_at
        asked.now.caller.now asked.now.method asked.now.parameters.now (pairs_of asked.now.fields.now) target selector) }
{
    match target {
        Target::Host => Ok(host_operation(asked.method, selector)?),
        Target::Bucket(text) => bucket_operation(asked, text, selector),
        Target::Object(text, key) => object_operation(asked, text, key, selector),
    }
}

/// The operation on a target, if the host supports all parameters and header fields.
fn supported_operation(asked: &RequestParts, target: Target) -> Result<Operation, RequestError>
    ensures { Gives (λ x. x) result (spec.supported_operation
        asked.now.caller.now asked.now.method asked.now.parameters.now (pairs_of asked.now.fields.now) target) }
{
    supported(asked.method, asked.parameters, asked.fields)?;
    let selector = selected(asked.parameters)?;
    operation_at(asked, target, selector)
}

/// The operation in the head of a caller's request, whatever its body, or its first refusal, in
/// this order:
///
/// - InvalidUri for a path that has no route or can't be decoded,
/// - InvalidArgument for a repeated parameter that the host knows,
/// - NotImplemented for a parameter of an unsupported feature, and for a retention date on POST,
/// - InvalidArgument, NotImplemented or MethodNotAllowed if method, target and parameters are not
///   an operation,
/// - InvalidArgument for a value in a wrong form,
/// - AccessDenied, InvalidBucketName and KeyTooLong for the names, those of a copy's source last.
#[tactic(auto, unfolding(crate::specs::Operations::operation))]
pub fn operation_of(
    alloc: Global,
    routes: &Routes,
    head: &Head,
    caller: &TenantName,
) -> Result<Operation, RequestError>
    ensures { (body : List ℕ) → Gives (λ x. x) result (spec.operation caller.now (with_body head.now body)) }
{
    let (path, query) = split_target(head.target);
    let kind = routed(routes, path)?;
    let target = target_at(alloc, kind, path)?;
    let parameters = parameters_in(alloc, query)?;
    let asked = RequestParts {
        alloc,
        caller,
        method: method_of(head.method),
        parameters: parameters.as_slice(),
        fields: head.fields.as_slice(),
    };
    supported_operation(&asked, target)
}
