ghost use Rattle.std.specs.Prelude.{◌≡◌, ◌≤◌, length, map, All, IfSome, IfNone};
ghost use Rattle.httparse.specs.Grammar.{RequestHead, print_request};
ghost use Rattle.httparse.specs.Spans.{IsHeaderWithin, IsRequestAt, IsRequestWithin, header_bytes};
ghost use Rattle.bh_http.specs.HeadSpans.{parts_at, head_view, announced_at};
ghost use Rattle.bh_http.specs.Reading.{HasNoHead};
ghost use Rattle.bh_http.specs.Views.{pair_of, pairs_of, announced_view};

use crate::request::{Field, Fields, Head, MAX_FIELDS};
use arrayvec::ArrayVec;
use httparse::Status;
use httparse::spans::{HeaderSpan, RequestSpans, parse_request};

/// The maximum size of a head, in bytes.
pub const MAX_HEAD: usize = 16384;

/// The parts of a request head, with the last digit of its version HTTP/1.0 or HTTP/1.1.
#[derive(Drop)]
pub struct HeadParts<'a> {
    pub method: &'a [u8],
    pub target: &'a [u8],
    pub minor: u8,
    pub fields: Fields<'a>,
}

/// A head that was found: the places of its parts in the bytes, and the body's size in bytes by
/// Content-Length.
#[derive(Clone, Copy)]
pub struct FoundHead {
    pub spans: RequestSpans,
    pub body_size: u64,
}

impl FoundHead {
    /// The head, in the bytes in which it was found.
    pub fn of<'a>(&self, bytes: &'a [u8], headers: &[HeaderSpan; MAX_FIELDS]) -> Head<'a>
        requires { IsRequestWithin bytes.now headers.now self.now.spans }
        ensures { announced_view result ≡ announced_at bytes.now headers.now self.now }
    {
        let parts = head_at(bytes, headers, self.spans);
        Head {
            method: parts.method,
            target: parts.target,
            fields: parts.fields,
            body_size: self.body_size,
        }
    }
}

/// The places of the parts of the head at the front, if there is one within the limits.
pub fn find_head(bytes: &[u8], headers: &mut [HeaderSpan; MAX_FIELDS]) -> Option<RequestSpans>
    ensures within { IfSome result (λ spans. IsRequestWithin bytes.now headers.new spans) }
    ensures found { IfSome result (λ spans.
        (head : RequestHead) × IsRequestAt bytes.now headers.new spans head
        × (length (print_request head) ≤ 16384)) }
    ensures none { IfNone result (HasNoHead bytes.now) }
{
    match parse_request(bytes, headers.as_mut_slice()) {
        Ok(Status::Complete(spans)) if spans.len <= MAX_HEAD => Some(spans),
        _ => None,
    }
}

/// The head that the spans cover.
pub fn head_at<'a>(
    bytes: &'a [u8],
    headers: &[HeaderSpan; MAX_FIELDS],
    spans: RequestSpans,
) -> HeadParts<'a>
    requires { IsRequestWithin bytes.now headers.now spans }
    ensures { head_view result ≡ parts_at bytes.now headers.now spans }
{
    HeadParts {
        method: spans.method.of(bytes),
        target: spans.path.of(bytes),
        minor: spans.version,
        fields: fields_at(bytes, &headers[..spans.headers]),
    }
}

/// The fields that the spans cover.
fn fields_at<'a>(bytes: &'a [u8], headers: &[HeaderSpan]) -> Fields<'a>
    requires within { All (IsHeaderWithin (length bytes.now)) headers.now }
    requires room { length headers.now ≤ 64 }
    ensures { pairs_of result.items ≡ map (header_bytes bytes.now) headers.now }
{
    let mut fields = ArrayVec::new();
    for header in headers {
        fields.push(field_at(bytes, header));
    }
    fields
}

fn field_at<'a>(bytes: &'a [u8], header: &HeaderSpan) -> Field<'a>
    requires { IsHeaderWithin (length bytes.now) header.now }
    ensures { pair_of result ≡ header_bytes bytes.now header.now }
{
    Field {
        name: header.name.of(bytes),
        value: header.value.of(bytes),
    }
}
