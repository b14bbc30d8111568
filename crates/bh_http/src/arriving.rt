ghost use Rattle.std.specs.Prelude.{◌≡◌};
ghost use Rattle.httparse.specs.Spans.{IsRequestWithin};
ghost use Rattle.bh_http.specs.Reading.{framing as framing_of};
ghost use Rattle.bh_http.specs.Arriving.{Says, FindsIn, announcing, ends_blank as blank_at_end};
ghost use Rattle.bh_http.specs.HeadSpans.{parts_at};

use crate::framing::framing;
use crate::head::head_at;
pub use crate::head::{FoundHead, MAX_HEAD};
use crate::request::MAX_FIELDS;
use bh_types::limits::Limits;
use bh_types::refusal::Refusal;
use httparse::Status;
use httparse::spans::{HeaderSpan, RequestSpans, parse_request};

/// What the bytes received so far decide about the request that they begin.
#[derive(Clone, Copy)]
pub enum Arriving {
    /// They don't begin with a head yet, but more bytes may complete one.
    NotYet,
    /// They begin with a head; the body that it announces follows.
    Found(FoundHead),
    /// They are refused with this, whatever bytes follow.
    Refused(Refusal),
}

/// Looks for a head at the front of the bytes received so far, and writes the places of its fields
/// to `headers`. It allocates nothing.
pub fn search(limits: &Limits, bytes: &[u8], headers: &mut [HeaderSpan; MAX_FIELDS]) -> Arriving
    ensures says { Says limits.now bytes.now result }
    ensures finds { FindsIn limits.now bytes.now headers.new result }
{
    match parse_request(bytes, headers.as_mut_slice()) {
        Ok(Status::Complete(spans)) if spans.len <= MAX_HEAD => {
            announced(limits, bytes, headers, spans)
        }
        Ok(Status::Complete(_)) => Arriving::Refused(Refusal::BadRequest),
        Ok(Status::Partial) => Arriving::NotYet,
        Err(_) => Arriving::Refused(Refusal::BadRequest),
    }
}

/// The body that a head announces.
fn announced(
    limits: &Limits,
    bytes: &[u8],
    headers: &[HeaderSpan; MAX_FIELDS],
    spans: RequestSpans,
) -> Arriving
    requires { IsRequestWithin bytes.now headers.now spans }
    ensures { result ≡ announcing spans (framing_of limits.now (parts_at bytes.now headers.now spans)) }
{
    announced_by(spans, framing(limits, &head_at(bytes, headers, spans)))
}

fn announced_by(spans: RequestSpans, framing: Result<u64, Refusal>) -> Arriving
    ensures { result ≡ announcing spans framing }
{
    match framing {
        Ok(body_size) => Arriving::Found(FoundHead { spans, body_size }),
        Err(refusal) => Arriving::Refused(refusal),
    }
}

/// Whether the last line is empty, which ends a head.
pub fn ends_blank(bytes: &[u8]) -> bool
    ensures { result ≡ blank_at_end bytes.now }
{
    bytes.ends_with(b"\n\n") || bytes.ends_with(b"\n\r\n")
}
