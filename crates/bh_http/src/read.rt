ghost use Rattle.std.specs.Prelude.{◌≡◌, drop, Ok, Err, IfOk, IfErr};
ghost use Rattle.httparse.specs.Spans.{IsRequestWithin};
ghost use Rattle.bh_http.specs.HeadSpans.{parts_at};
ghost use Rattle.bh_http.specs.Reading.{Reads, ReadsHead, OneReading, announcing, completed, framing as framing_of};
ghost use Rattle.bh_http.specs.Views.{announced_view, viewed};

use crate::framing::framing;
use crate::head::{find_head, head_at};
use crate::request::{Head, MAX_FIELDS, Request};
use bh_types::limits::Limits;
use bh_types::refusal::Refusal;
use httparse::spans::{EMPTY_HEADER_SPAN, HeaderSpan, RequestSpans};

/// Parses the head at the front of the bytes, and returns it with the bytes after it. Both borrow
/// the bytes; it allocates nothing.
///
/// A head is a request head of RFC 9112, as `httparse` parses it by default. It has at most 64
/// fields and 16,384 bytes, including empty lines before it. With HTTP/1.1 it has exactly one Host.
/// Other bytes are refused with BadRequest. Then a Transfer-Encoding is refused with
/// NotImplemented, and a Content-Length that is repeated or isn't digits with BadRequest. Then a
/// PUT or POST without Content-Length is refused with MissingContentLength, and one above
/// `max_body` with EntityTooLarge.
pub fn split_head<'a>(bytes: &'a [u8], limits: &Limits) -> Result<(Head<'a>, &'a [u8]), Refusal>
    ensures ok { IfOk result (λ found. ReadsHead limits.now bytes.now (Ok (announced_view found.0, found.1.now))) }
    ensures err { IfErr result (λ refusal. ReadsHead limits.now bytes.now (Err refusal)) }
{
    let mut headers = [EMPTY_HEADER_SPAN; MAX_FIELDS];
    match find_head(bytes, &mut headers) {
        Some(spans) => split_at(bytes, limits, &headers, spans),
        None => Err(Refusal::BadRequest),
    }
}

/// The head that the spans cover, and the bytes after it.
fn split_at<'a>(
    bytes: &'a [u8],
    limits: &Limits,
    headers: &[HeaderSpan; MAX_FIELDS],
    spans: RequestSpans,
) -> Result<(Head<'a>, &'a [u8]), Refusal>
    requires { IsRequestWithin bytes.now headers.now spans }
    ensures ok { IfOk result (λ found. Ok (announced_view found.0, found.1.now)
        ≡ announcing (parts_at bytes.now headers.now spans) (drop spans.len bytes.now)
        (framing_of limits.now (parts_at bytes.now headers.now spans))) }
    ensures err { IfErr result (λ refusal. Err refusal
        ≡ announcing (parts_at bytes.now headers.now spans) (drop spans.len bytes.now)
        (framing_of limits.now (parts_at bytes.now headers.now spans))) }
{
    let parts = head_at(bytes, headers, spans);
    let body_size = framing(limits, &parts)?;
    let head = Head {
        method: parts.method,
        target: parts.target,
        fields: parts.fields,
        body_size,
    };
    Ok((head, &bytes[spans.len..]))
}

/// Parses the request at the front of the bytes; what follows its body is ignored. The request
/// borrows the bytes; it allocates nothing.
///
/// The first refusals are those of its head (`split_head`); the last is IncompleteBody, if the body
/// is shorter than announced.
pub fn read_request<'a>(bytes: &'a [u8], limits: &Limits) -> Result<Request<'a>, Refusal>
    ensures { Reads limits.now bytes.now (viewed result) }
{
    match split_head(bytes, limits) {
        Ok((head, rest)) => with_body(head, rest),
        Err(refusal) => Err(refusal),
    }
}

/// The request of a head and of the bytes after it. Fails with IncompleteBody if the body is
/// shorter than announced.
fn with_body<'a>(head: Head<'a>, rest: &'a [u8]) -> Result<Request<'a>, Refusal>
    ensures { viewed result ≡ completed (announced_view head.entry) rest.now }
{
    if head.body_size > rest.len() as u64 {
        return Err(Refusal::IncompleteBody);
    }
    let body = &rest[..head.body_size as usize];
    Ok(Request { head, body })
}

/// Parsing is deterministic.
pub fn one_reading()
    ensures { OneReading }
{}
