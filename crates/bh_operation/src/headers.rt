ghost use Rattle.std.specs.Prelude.{◌≡◌, IfOk};
ghost use Rattle.std.specs.List.{list_any};
ghost use Rattle.bh_types.specs.Outcomes.{Gives};
ghost use Rattle.bh_http.specs.Fields.{given_view};
ghost use Rattle.bh_http.specs.Views.{pairs_of};
ghost use Rattle.bh_operation.specs.Headers as spec;
ghost use Rattle.bh_operation.specs.Queries.{is_unsupported as is_unsupported_name};

use crate::method::Method;
use crate::query::{Parameter, is_unsupported};
use crate::target::text_of;
use crate::text::Bytes;
use bh_http::fields::{Given, field_named};
use bh_http::request::Field;
use bh_types::error::RequestError;
use bh_types::moment::Moment;
use bh_types::refusal::Refusal;
use std::alloc::{AllocError, Global};

/// Whether a request has a field, once or more.
pub fn stands(given: Given) -> bool
    ensures { result ≡ spec.stands (given_view given.entry) }
{
    !matches!(given, Given::Missing)
}

fn lock_mode<'a>(fields: &[Field<'a>]) -> Given<'a>
    ensures { given_view result ≡ spec.lock_mode (pairs_of fields.now) }
{
    field_named(fields, b"x-amz-object-lock-mode")
}

fn lock_date<'a>(fields: &[Field<'a>]) -> Given<'a>
    ensures { given_view result ≡ spec.lock_date (pairs_of fields.now) }
{
    field_named(fields, b"x-amz-object-lock-retain-until-date")
}

/// Whether a date is given for the object of an upload, which the host doesn't support.
fn dates_upload(method: Method, fields: &[Field<'_>]) -> bool
    ensures { result ≡ spec.dates_upload method (pairs_of fields.now) }
{
    match method {
        Method::Post => stands(lock_mode(fields)) || stands(lock_date(fields)),
        _ => false,
    }
}

fn any_unsupported(parameters: &[Parameter]) -> bool
    ensures { result ≡ list_any (λ p. is_unsupported_name p.name) parameters.now }
{
    parameters.iter().any(|p| is_unsupported(p.name.as_str()))
}

/// Fails with NotImplemented if a parameter or a header field requests a feature that the host
/// doesn't have.
#[tactic(auto, unfolding(crate::specs::Headers::supported))]
pub fn supported(
    method: Method,
    parameters: &[Parameter],
    fields: &[Field<'_>],
) -> Result<(), Refusal>
    ensures { result ≡ spec.supported method parameters.now (pairs_of fields.now) }
{
    if any_unsupported(parameters) || dates_upload(method, fields) {
        return Err(Refusal::NotImplemented);
    }
    Ok(())
}

/// Whether a new bucket is to be locked (Amazon S3 API Reference, CreateBucket:
/// `x-amz-bucket-object-lock-enabled`). Fails with InvalidArgument if the field is repeated, or
/// isn't `true` or `false`.
#[tactic(auto, unfolding(crate::specs::Headers::lock_in))]
pub fn lock_in(fields: &[Field<'_>]) -> Result<bool, Refusal>
    ensures { result ≡ spec.lock_in (pairs_of fields.now) }
{
    match field_named(fields, b"x-amz-bucket-object-lock-enabled") {
        Given::Missing => Ok(false),
        Given::Once(value) => lock_told(value),
        Given::Repeated => Err(Refusal::InvalidArgument),
    }
}

fn lock_told(value: &[u8]) -> Result<bool, Refusal>
    ensures { result ≡ spec.lock_told value.now }
{
    if value == b"true".as_slice() {
        Ok(true)
    } else if value == b"false".as_slice() {
        Ok(false)
    } else {
        Err(Refusal::InvalidArgument)
    }
}

/// The date until which a new version is to be retained, if the request has one (Amazon S3 API
/// Reference, PutObject: `x-amz-object-lock-mode` and `x-amz-object-lock-retain-until-date`). The
/// inner `None` means that the two fields are invalid: one without the other, a repeated one, a
/// mode other than `COMPLIANCE`, or a date that can't be read.
pub fn date_in(fields: &[Field<'_>]) -> Option<Option<Moment>>
    ensures { result ≡ spec.date_in (pairs_of fields.now) }
{
    match (lock_mode(fields), lock_date(fields)) {
        (Given::Missing, Given::Missing) => None,
        (Given::Once(mode), Given::Once(date)) => Some(date_told(mode, date)),
        _ => Some(None),
    }
}

fn date_told(mode: &[u8], date: &[u8]) -> Option<Moment>
    ensures { result ≡ spec.date_told mode.now date.now }
{
    if mode != b"COMPLIANCE".as_slice() {
        return None;
    }
    match text_of(date) {
        Some(text) => Moment::read(text),
        None => None,
    }
}

/// The field that names a copy source (Amazon S3 API Reference, CopyObject: `x-amz-copy-source`).
pub fn copy_source<'a>(fields: &[Field<'a>]) -> Given<'a>
    ensures { given_view result ≡ spec.copy_source (pairs_of fields.now) }
{
    field_named(fields, b"x-amz-copy-source")
}

/// The checksum that a body must have, if the request has one (Amazon S3 API Reference, PutObject:
/// `x-amz-checksum-sha256`). Fails with InvalidArgument if it has two.
#[tactic(auto, unfolding(crate::specs::Headers::checksum_in))]
pub fn checksum_in(alloc: Global, fields: &[Field<'_>]) -> Result<Option<Bytes>, RequestError>
    ensures { Gives (λ x. x) result (spec.checksum_in (pairs_of fields.now)) }
{
    match field_named(fields, b"x-amz-checksum-sha256") {
        Given::Missing => Ok(None),
        Given::Once(value) => Ok(Some(Bytes::copy_of(alloc, value)?)),
        Given::Repeated => Err(RequestError::Refused(Refusal::InvalidArgument)),
    }
}

/// The text of the requested range, if there is exactly one (RFC 9110, section 14.2). Fails if
/// memory runs out.
pub fn range_in(alloc: Global, fields: &[Field<'_>]) -> Result<Option<Bytes>, AllocError>
    ensures { IfOk result (λ range. range ≡ spec.range_in (pairs_of fields.now)) }
{
    match field_named(fields, b"range") {
        Given::Once(value) => Ok(Some(Bytes::copy_of(alloc, value)?)),
        Given::Missing | Given::Repeated => Ok(None),
    }
}
