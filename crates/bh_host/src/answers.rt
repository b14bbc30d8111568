ghost use Rattle.std.specs.Prelude.{◌≡◌, [], length, map, IfOk};
ghost use Rattle.std.specs.String.{string_bytes};
ghost use Rattle.bh_docs.specs.Documents.{bucket_view};
ghost use Rattle.bh_docs.specs.Pages.{page_view, versions_view, uploads_view, parts_view};
ghost use Rattle.bh_http.specs.Answers.{response_view, with_document};
ghost use Rattle.bh_host.specs.Replies as spec;
ghost use Rattle.bh_model.specs.State.{Octets};
ghost use Rattle.bh_model.specs.Operations as model;
ghost use Rattle.bh_storage.specs.Answers.{removed_answer, stored_answer, copied_answer, head_answer, begun_answer};
ghost use Rattle.bh_storage.specs.Answers.{completed_answer, used_answer};

use bh_docs::{
    BucketEntry, ObjectsPage, PartsPage, UploadsPage, Usage, VersionsPage, begun_document,
    buckets_document, completed_document, copied_document, lifecycle_document, objects_document,
    parts_document, retention_document, uploads_document, usage_document, versioning_document,
    versions_document,
};
use bh_http::StatusCode;
use bh_http::response::Response;
use bh_http::values::{ContentRange, ContentType};
use bh_storage::answer::{
    BegunUpload, CompletedUpload, CopiedVersion, ObjectHead, RemovedEntry, StoredVersion,
};
use bh_types::bucket_state::BucketState;
use bh_types::moment::Moment;
use bh_types::range::RangePlan;
use std::alloc::{AllocError, Global};

/// The result of an operation that was carried out, which makes its response.
pub trait Answered {
    /// The machine's answer.
    ghost answer: { Self → model.Answer };

    /// The response. Fails if memory runs out.
    fn response(self, alloc: Global) -> Result<Response, AllocError>
        ensures { IfOk result (λ response. response_view response ≡ spec.response_to (answer self)) };
}

/// The response with this document.
fn documented(alloc: Global, document: String) -> Response
    ensures { response_view result ≡ with_document 200 (string_bytes document) }
{
    Response::with_document(alloc, StatusCode::OK, document.into_bytes())
}

/// It was done, and there is no value.
impl Answered for () {
    ghost answer = { λ _. model.Done };

    fn response(self, alloc: Global) -> Result<Response, AllocError> {
        Ok(Response::empty(alloc, StatusCode::OK))
    }
}

impl Answered for RemovedEntry {
    ghost answer = { removed_answer };

    fn response(self, alloc: Global) -> Result<Response, AllocError> {
        let mut response = Response::bare(alloc, StatusCode::NO_CONTENT);
        response.version_id = self.id;
        response.delete_marker = self.marker;
        Ok(response)
    }
}

impl Answered for StoredVersion {
    ghost answer = { stored_answer };

    fn response(self, alloc: Global) -> Result<Response, AllocError> {
        let mut response = Response::empty(alloc, StatusCode::OK);
        response.checksum = Some(self.checksum);
        response.version_id = self.id;
        Ok(response)
    }
}

impl Answered for CopiedVersion {
    ghost answer = { copied_answer };

    fn response(self, alloc: Global) -> Result<Response, AllocError> {
        let document = copied_document(alloc, &self.checksum, self.modified)?;
        let mut response = documented(alloc, document);
        response.version_id = self.id;
        Ok(response)
    }
}

impl Answered for ObjectHead {
    ghost answer = { head_answer };

    fn response(self, alloc: Global) -> Result<Response, AllocError> {
        Ok(headed(alloc, self))
    }
}

/// The response head of an object, without its bytes.
fn headed(alloc: Global, head: ObjectHead) -> Response
    ensures { response_view result ≡ spec.response_to (head_answer head) }
{
    let mut response = Response::bare(alloc, StatusCode::OK);
    response.content_type = Some(ContentType::OctetStream);
    response.content_length = Some(head.size);
    response.accepts_ranges = true;
    response.checksum = Some(head.checksum);
    response.version_id = head.id;
    response
}

/// The response head of a download: of a whole object, or of the range that was requested (RFC
/// 9110, section 15.3.7). `count` is its Content-Length.
pub(crate) fn found(alloc: Global, head: ObjectHead, range: RangePlan, count: u64) -> Response
    ensures is { (bytes : Octets) → count ≡ length bytes
        → record (response_view result) { body = bytes }
        ≡ spec.response_to (model.Object head.id head.size range bytes (string_bytes head.checksum)) }
    ensures bare { (response_view result).body ≡ [] }
{
    let size = head.size;
    let mut response = headed(alloc, head);
    response.status = status_for(range);
    response.content_length = Some(count);
    response.content_range = part_told(size, range);
    response
}

fn status_for(plan: RangePlan) -> StatusCode
    ensures { result ≡ spec.status_for plan }
{
    match plan {
        RangePlan::Whole => StatusCode::OK,
        RangePlan::Part { .. } => StatusCode::PARTIAL_CONTENT,
    }
}

/// The range of an object of this size, unless the whole is returned.
fn part_told(size: u64, plan: RangePlan) -> Option<ContentRange>
    ensures { result ≡ spec.part_told size plan }
{
    match plan {
        RangePlan::Whole => None,
        RangePlan::Part { first, last } => Some(ContentRange::Part { first, last, size }),
    }
}

/// The buckets of a tenant, by their names.
impl Answered for Vec<BucketEntry> {
    ghost answer = { λ buckets. model.Buckets (map bucket_view buckets.items) };

    fn response(self, alloc: Global) -> Result<Response, AllocError> {
        Ok(documented(alloc, buckets_document(alloc, &self)?))
    }
}

impl Answered for BucketState {
    ghost answer = { model.Versioning };

    fn response(self, alloc: Global) -> Result<Response, AllocError> {
        Ok(documented(alloc, versioning_document(alloc, self)?))
    }
}

/// The number of days after which a bucket's unfinished uploads are removed.
impl Answered for u16 {
    ghost answer = { model.Lifecycle };

    fn response(self, alloc: Global) -> Result<Response, AllocError> {
        Ok(documented(alloc, lifecycle_document(alloc, self)?))
    }
}

/// The moment until which a version is retained. If it has none, the document is empty.
impl Answered for Option<Moment> {
    ghost answer = { model.Retention };

    fn response(self, alloc: Global) -> Result<Response, AllocError> {
        Ok(documented(alloc, retention_document(alloc, self)?))
    }
}

/// A page of a bucket's objects.
impl Answered for ObjectsPage {
    ghost answer = { λ page. model.Objects (page_view page) };

    fn response(self, alloc: Global) -> Result<Response, AllocError> {
        Ok(documented(alloc, objects_document(alloc, &self)?))
    }
}

/// A page of a bucket's versions and delete markers.
impl Answered for VersionsPage {
    ghost answer = { λ page. model.Versions (versions_view page) };

    fn response(self, alloc: Global) -> Result<Response, AllocError> {
        Ok(documented(alloc, versions_document(alloc, &self)?))
    }
}

/// A page of a bucket's uploads.
impl Answered for UploadsPage {
    ghost answer = { λ page. model.Uploads (uploads_view page) };

    fn response(self, alloc: Global) -> Result<Response, AllocError> {
        Ok(documented(alloc, uploads_document(alloc, &self)?))
    }
}

/// A page of an upload's parts.
impl Answered for PartsPage {
    ghost answer = { λ page. model.Parts (parts_view page) };

    fn response(self, alloc: Global) -> Result<Response, AllocError> {
        Ok(documented(alloc, parts_document(alloc, &self)?))
    }
}

/// A tenant's usage.
impl Answered for Usage {
    ghost answer = { used_answer };

    fn response(self, alloc: Global) -> Result<Response, AllocError> {
        Ok(documented(alloc, usage_document(alloc, &self)?))
    }
}

impl Answered for BegunUpload {
    ghost answer = { begun_answer };

    fn response(self, alloc: Global) -> Result<Response, AllocError> {
        let BegunUpload {
            bucket,
            key,
            upload,
            abort,
        } = self;
        let document = begun_document(alloc, &bucket, &key, upload)?;
        let mut response = documented(alloc, document);
        response.abort_date = abort;
        Ok(response)
    }
}

/// A part was put: the base64 (RFC 4648) of the SHA-256 digest (FIPS 180-4) of its bytes.
impl Answered for String {
    ghost answer = { λ checksum. model.PartStored (string_bytes checksum) };

    fn response(self, alloc: Global) -> Result<Response, AllocError> {
        let mut response = Response::empty(alloc, StatusCode::OK);
        response.checksum = Some(self);
        Ok(response)
    }
}

impl Answered for CompletedUpload {
    ghost answer = { completed_answer };

    fn response(self, alloc: Global) -> Result<Response, AllocError> {
        let CompletedUpload {
            bucket,
            key,
            id,
            checksum,
        } = self;
        let document = completed_document(alloc, &bucket, &checksum, &key)?;
        let mut response = documented(alloc, document);
        response.version_id = id;
        Ok(response)
    }
}
