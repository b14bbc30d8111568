//! Reads request documents. Each function returns the document's arguments, or fails with a refusal
//! or if memory runs out. A body of more than `DOCUMENT_END` bytes is refused with `MalformedJson`,
//! like one of another shape.

ghost use Rattle.std.specs.Prelude.{◌≡◌, map};
ghost use Rattle.serde_json.specs.View.{view};
ghost use Rattle.bh_types.specs.Outcomes.{Gives};
ghost use Rattle.bh_docs.specs.Requests as spec;
ghost use Rattle.bh_docs.specs.Shapes.{data_of, part_view, retention_view};

use crate::shape::{
    PartShape, RetentionShape, complete_shape, lifecycle_shape, retention_shape, versioning_shape,
};
use bh_types::bucket_state::BucketState;
use bh_types::error::RequestError;
use bh_types::moment::Moment;
use bh_types::refusal::Refusal;
use bh_types::wanted::Named;
use serde_json::Value;
use std::alloc::{AllocError, Global};

/// The maximum size of a request document in bytes. A completion of 10,000 parts has 0.9 million,
/// and 1.2 million if each member is on a line of its own.
pub const DOCUMENT_END: u64 = 2_097_152;

/// The new state of a bucket's versioning, from `{"Status":"Enabled"}` or `{"Status":"Suspended"}`
/// (Amazon S3 API Reference, PutBucketVersioning, as JSON). Fails with `MalformedJson` for any
/// other body.
pub fn read_versioning(alloc: Global, body: &[u8]) -> Result<BucketState, RequestError>
    ensures { Gives (λ state. state) result (spec.versioning_of body.now) }
{
    let document = read_document(alloc, body)?;
    or_malformed(versioning_shape(&document))
}

/// The days after which a bucket's uploads are aborted, from
/// `{"Rules":[{"AbortIncompleteMultipartUpload":{"DaysAfterInitiation":n},"Status":"Enabled"}]}`
/// with n from 1 to 3,650 (Amazon S3 API Reference, PutBucketLifecycleConfiguration, as JSON).
/// Fails with `MalformedJson` for another shape, and with `InvalidArgument` for another integer n.
pub fn read_lifecycle(alloc: Global, body: &[u8]) -> Result<u16, RequestError>
    ensures { Gives (λ days. days) result (spec.lifecycle_of body.now) }
{
    let document = read_document(alloc, body)?;
    let days = or_malformed(lifecycle_shape(&document))?;
    let days = ranged(1, 3650, days)?;
    Ok(days as u16)
}

/// The date until which a version is retained, from `{"Mode":"COMPLIANCE","RetainUntilDate":date}`
/// with a date as `Moment::read` parses it (Amazon S3 API Reference, PutObjectRetention, as JSON).
/// Fails with `MalformedJson` for another shape, and then with `InvalidArgument` for another mode
/// or an invalid date.
pub fn read_retention(alloc: Global, body: &[u8]) -> Result<Moment, RequestError>
    ensures { Gives (λ date. date) result (spec.retention_of body.now) }
{
    let document = read_document(alloc, body)?;
    match retention_shape(&document) {
        Some(told) => Ok(date_told(told)?),
        None => Err(RequestError::Refused(Refusal::MalformedJson)),
    }
}

fn date_told(told: RetentionShape<'_>) -> Result<Moment, Refusal>
    ensures { result ≡ spec.date_told (retention_view told.entry) }
{
    if told.mode != "COMPLIANCE" {
        return Err(Refusal::InvalidArgument);
    }
    match Moment::read(told.date) {
        Some(date) => Ok(date),
        None => Err(Refusal::InvalidArgument),
    }
}

/// The parts that complete an upload, from `{"Parts":[{"ChecksumSHA256":text,"PartNumber":n},..]}`
/// (Amazon S3 API Reference, CompleteMultipartUpload, as JSON). There are 1 to 10,000 parts, and n
/// is from 1 to 10,000. A checksum is optional, and may be any text. Fails with `MalformedJson` for
/// another shape, and then with `InvalidArgument` for another integer n.
pub fn read_complete(alloc: Global, body: &[u8]) -> Result<Vec<Named>, RequestError>
    ensures { Gives (λ parts. map spec.named_view parts.items) result (spec.complete_of body.now) }
{
    let document = read_document(alloc, body)?;
    let parts = or_malformed(complete_shape(alloc, &document)?)?;
    named_parts(alloc, parts.as_slice())
}

fn named_parts(alloc: Global, parts: &[PartShape<'_>]) -> Result<Vec<Named>, RequestError>
    ensures { Gives (λ named. map spec.named_view named.items) result (spec.in_ranges (map part_view parts.now)) }
{
    let mut named = Vec::with_capacity(alloc, parts.len())?;
    for part in parts {
        let part = named_part(alloc, *part)?;
        named.push(part).map_err(AllocError::from)?;
    }
    Ok(named)
}

fn named_part(alloc: Global, part: PartShape<'_>) -> Result<Named, RequestError>
    ensures { Gives spec.named_view result (spec.in_range (part_view part.entry)) }
{
    let number = ranged(1, 10_000, part.number)?;
    let sum = match part.sum {
        Some(sum) => Some(String::from_str(alloc, sum)?),
        None => None,
    };
    Ok(Named { number, sum })
}

/// A number from `low` to `high`.
fn ranged(low: u32, high: u32, number: i128) -> Result<u32, RequestError>
    ensures { Gives (λ n. n) result (spec.ranged low high number) }
{
    if i128::from(low) <= number && number <= i128::from(high) {
        Ok(number as u32)
    } else {
        Err(RequestError::Refused(Refusal::InvalidArgument))
    }
}

fn or_malformed<T: Drop>(found: Option<T>) -> Result<T, RequestError>
    ensures { Gives (λ value. value) result (spec.or_malformed found) }
{
    match found {
        Some(value) => Ok(value),
        None => Err(RequestError::Refused(Refusal::MalformedJson)),
    }
}

fn parse_document(alloc: Global, body: &[u8]) -> Result<Value, RequestError>
    ensures { Gives view result (spec.or_malformed (data_of body.now)) }
{
    match Value::from_slice(alloc, body) {
        Ok(document) => Ok(document),
        Err(error) => {
            if error.is_memory() {
                Err(RequestError::OutOfMemory)
            } else {
                Err(RequestError::Refused(Refusal::MalformedJson))
            }
        }
    }
}

fn read_document(alloc: Global, body: &[u8]) -> Result<Value, RequestError>
    ensures { Gives view result (spec.document_of body.now) }
{
    if body.len() as u64 > DOCUMENT_END {
        return Err(RequestError::Refused(Refusal::MalformedJson));
    }
    parse_document(alloc, body)
}
