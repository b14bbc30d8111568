ghost use Rattle.std.specs.Prelude.{◌≡◌};
ghost use Rattle.bh_types.specs.Outcomes.{Gives};
ghost use Rattle.bh_http.specs.Fields.{given_view};
ghost use Rattle.bh_operation.specs.Sources as spec;

use crate::number::wanted;
use crate::target::{decode, path_of, place_of, split_at_slash, text_of};
use crate::text::Text;
use bh_http::fields::Given;
use bh_types::error::RequestError;
use bh_types::refusal::Refusal;
use bh_types::wanted::Wanted;
use std::alloc::Global;

/// The object in a copy source, decoded.
#[derive(Drop)]
pub struct Source {
    /// The text of its bucket's name.
    pub bucket: Text,
    /// The text of its key.
    pub key: Text,
    pub version: Wanted,
}

fn without_slash(bytes: &[u8]) -> &[u8]
    ensures { result.now ≡ spec.without_slash bytes.now }
{
    match bytes {
        [b'/', rest @ ..] => rest,
        _ => bytes,
    }
}

/// The version in a query `versionId=` and an id, which is not decoded. Fails with InvalidArgument
/// for another query.
#[tactic(auto, unfolding(crate::specs::Sources::version_after))]
fn version_after(query: &[u8]) -> Result<Wanted, Refusal>
    ensures { result ≡ spec.version_after query.now }
{
    let Some(id) = query.strip_prefix(b"versionId=") else {
        return Err(Refusal::InvalidArgument);
    };
    match text_of(id) {
        Some(text) => Ok(wanted(Some(text))),
        None => Ok(Wanted::Unknown),
    }
}

/// The version in a copy source. Fails with InvalidArgument if its query has another parameter.
#[tactic(auto, unfolding(crate::specs::Sources::source_version))]
fn source_version(value: &[u8]) -> Result<Wanted, Refusal>
    ensures { result ≡ spec.source_version value.now }
{
    match place_of(b'?', value) {
        Some(at) if at < value.len() => version_after(&value[at + 1..]),
        _ => Ok(Wanted::Current),
    }
}

#[tactic(auto, unfolding(crate::specs::Sources::source_part))]
fn source_part(alloc: Global, part: &[u8]) -> Result<Text, RequestError>
    ensures { Gives (λ x. x) result (spec.source_part part.now) }
{
    if part.is_empty() {
        return Err(RequestError::Refused(Refusal::InvalidArgument));
    }
    decode(alloc, part)?.ok_or(RequestError::Refused(Refusal::InvalidArgument))
}

/// The object in a copy source. It is split before it is decoded, so that an escaped slash is not a
/// separator.
#[tactic(auto, unfolding(crate::specs::Sources::source_of))]
fn source_of(alloc: Global, value: &[u8]) -> Result<Source, RequestError>
    ensures { Gives (λ x. x) result (spec.source_of value.now) }
{
    let version = source_version(value)?;
    let (bucket, key) = split_at_slash(without_slash(path_of(value)));
    let bucket = source_part(alloc, bucket)?;
    let key = source_part(alloc, key)?;
    Ok(Source {
        bucket,
        key,
        version,
    })
}

/// The object in a request's copy source (`x-amz-copy-source` of CopyObject in the Amazon S3 API
/// Reference). The form is `bucket/key` or `/bucket/key`, percent-encoded, with an optional
/// `?versionId=` and an id. Fails with InvalidArgument for another form, or if the field is
/// repeated.
#[tactic(auto, unfolding(crate::specs::Sources::source_in))]
pub fn source_in(alloc: Global, field: Given) -> Result<Source, RequestError>
    ensures { Gives (λ x. x) result (spec.source_in (given_view field.entry)) }
{
    match field {
        Given::Once(value) => source_of(alloc, value),
        Given::Missing | Given::Repeated => Err(RequestError::Refused(Refusal::InvalidArgument)),
    }
}
