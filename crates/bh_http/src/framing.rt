ghost use Rattle.std.specs.Prelude.{◌≡◌};
ghost use Rattle.bh_http.specs.Fields.{given_view};
ghost use Rattle.bh_http.specs.HeadSpans.{head_view};
ghost use Rattle.bh_http.specs.Reading as spec;

use crate::fields::{Given, field_named};
use crate::head::HeadParts;
use bh_types::digits::{is_number, number_of};
use bh_types::limits::Limits;
use bh_types::refusal::Refusal;

/// The length of the body after a head, or the first refusal.
pub fn framing(limits: &Limits, head: &HeadParts) -> Result<u64, Refusal>
    ensures { result ≡ spec.framing limits.now (head_view head.now) }
{
    let fields = head.fields.as_slice();
    if head.minor == 1 && !is_once(field_named(fields, b"host")) {
        return Err(Refusal::BadRequest);
    }
    if !is_missing(field_named(fields, b"transfer-encoding")) {
        return Err(Refusal::NotImplemented);
    }
    announced(
        limits.max_body,
        head.method,
        field_named(fields, b"content-length"),
    )
}

fn is_once(given: Given) -> bool
    ensures { result ≡ spec.is_once (given_view given.entry) }
{
    match given {
        Given::Once(_) => true,
        Given::Missing | Given::Repeated => false,
    }
}

fn is_missing(given: Given) -> bool
    ensures { result ≡ spec.is_missing (given_view given.entry) }
{
    match given {
        Given::Missing => true,
        Given::Once(_) | Given::Repeated => false,
    }
}

/// The length by Content-Length, for a method.
fn announced(max_body: u64, method: &[u8], content_length: Given) -> Result<u64, Refusal>
    ensures { result ≡ spec.announced max_body method.now (given_view content_length.entry) }
{
    match content_length {
        Given::Missing if needs_length(method) => Err(Refusal::MissingContentLength),
        Given::Missing => Ok(0),
        Given::Once(value) => length_in(max_body, value),
        Given::Repeated => Err(Refusal::BadRequest),
    }
}

fn needs_length(method: &[u8]) -> bool
    ensures { result ≡ spec.needs_length method.now }
{
    matches!(method, b"PUT" | b"POST")
}

/// The length in a value of Content-Length.
fn length_in(max_body: u64, value: &[u8]) -> Result<u64, Refusal>
    ensures { result ≡ spec.length_in max_body value.now }
{
    if !is_number(value) {
        return Err(Refusal::BadRequest);
    }
    match number_of(value) {
        Some(size) if size <= max_body => Ok(size),
        _ => Err(Refusal::EntityTooLarge),
    }
}
