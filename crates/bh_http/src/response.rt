ghost use Rattle.std.specs.Prelude.{◌≡◌};
ghost use Rattle.bh_types.specs.Refusals;
ghost use Rattle.bh_http.specs.Answers as spec;

use crate::values::{Allow, ContentRange, ContentType};
use bh_types::id::VersionId;
use bh_types::moment::Moment;
use bh_types::refusal::Refusal;
use http::StatusCode;
use std::alloc::Global;

/// A response: its status code, the values of its optional header fields, and its body. Each
/// response also has `connection: close`.
#[derive(Drop)]
pub struct Response {
    pub status: StatusCode,
    pub content_type: Option<ContentType>,
    /// The size of the body in bytes; for HEAD, of the body that GET would have. It is present
    /// except with 204.
    pub content_length: Option<u64>,
    pub content_range: Option<ContentRange>,
    /// Whether the response has `accept-ranges: bytes`.
    pub accepts_ranges: bool,
    pub allow: Option<Allow>,
    /// `x-amz-checksum-sha256`: the text of a checksum.
    pub checksum: Option<String>,
    /// `x-amz-version-id`.
    pub version_id: Option<VersionId>,
    /// Whether the response has `x-amz-delete-marker: true`.
    pub delete_marker: bool,
    /// `x-amz-abort-date`: when the upload becomes stale.
    pub abort_date: Option<Moment>,
    /// `x-refusal`: the refusal's code.
    pub refusal: Option<Refusal>,
    pub body: Vec<u8>,
}

impl Response {
    /// A response with a status alone, without a length, as 204 has it. It allocates nothing.
    pub fn bare(alloc: Global, status: StatusCode) -> Response
        ensures { spec.response_view result ≡ spec.bare status }
    {
        Response {
            status,
            content_type: None,
            content_length: None,
            content_range: None,
            accepts_ranges: false,
            allow: None,
            checksum: None,
            version_id: None,
            delete_marker: false,
            abort_date: None,
            refusal: None,
            body: Vec::new(alloc),
        }
    }

    /// A response with an empty body. It allocates nothing.
    pub fn empty(alloc: Global, status: StatusCode) -> Response
        ensures { spec.response_view result ≡ spec.empty status }
    {
        let mut response = Response::bare(alloc, status);
        response.content_length = Some(0);
        response
    }

    /// A response with a JSON document as its body. It allocates nothing.
    pub fn with_document(alloc: Global, status: StatusCode, document: Vec<u8>) -> Response
        ensures { spec.response_view result ≡ spec.with_document status document.items }
    {
        let mut response = Response::bare(alloc, status);
        response.content_type = Some(ContentType::Json);
        response.content_length = Some(document.len() as u64);
        response.body = document;
        response
    }

    /// The response to a refused request, with the refusal's document as its body, or an empty body
    /// if it has none. It allocates nothing.
    pub fn refused(alloc: Global, refusal: Refusal, document: Vec<u8>) -> Response
        ensures { spec.response_view result ≡ spec.refused refusal document.items }
    {
        if !has_document(refusal) {
            return Response::bare_refusal(alloc, refusal);
        }
        let mut response = Response::with_document(alloc, status_of(refusal), document);
        response.refusal = Some(refusal);
        response
    }

    /// The response to a refused request, without a document. It allocates nothing.
    pub fn bare_refusal(alloc: Global, refusal: Refusal) -> Response
        ensures { spec.response_view result ≡ spec.bare_refusal refusal }
    {
        let mut response = Response::empty(alloc, status_of(refusal));
        response.refusal = Some(refusal);
        response
    }
}

/// Whether a refusal has a document: all but BadRequest, NotImplemented, MissingContentLength,
/// EntityTooLarge, IncompleteBody, ClockOutOfRange and ServiceUnavailable.
pub fn has_document(refusal: Refusal) -> bool
    ensures { result ≡ spec.has_document refusal }
{
    match refusal {
        Refusal::BadRequest
        | Refusal::NotImplemented
        | Refusal::MissingContentLength
        | Refusal::EntityTooLarge
        | Refusal::IncompleteBody
        | Refusal::ClockOutOfRange
        | Refusal::ServiceUnavailable => false,
        _ => true,
    }
}

fn status_of(refusal: Refusal) -> StatusCode
    ensures { result ≡ Refusals.status_of refusal }
{
    match StatusCode::from_u16(refusal.status()) {
        Ok(status) => status,
        Err(_) => unreachable!(),
    }
}
