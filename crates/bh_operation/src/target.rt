ghost use Rattle.std.specs.Prelude.{◌≡◌, ◌==◌, ◌<◌, length, drop, position, IfOk, IfSome};
ghost use Rattle.std.specs.List.{before_first, after_first};
ghost use Rattle.std.specs.Option.{option_copied};
ghost use Rattle.bh_types.specs.Outcomes.{Gives};
ghost use Rattle.bh_operation.specs.Targets as spec;

use crate::routes::Routes;
use crate::text::Text;
use bh_types::error::RequestError;
use bh_types::refusal::Refusal;
use percent_encoding::percent_decode;
use std::alloc::{AllocError, Global};

/// The kind of a path's target.
#[derive(Clone, Copy)]
pub enum Kind {
    /// The host itself: `/`.
    Host,
    /// A bucket: `/bucket` or `/bucket/`.
    Bucket,
    /// An object: `/bucket/key`; the key may have slashes.
    Object,
}

/// A target, percent-decoded (RFC 3986, section 2.1).
#[derive(Drop)]
pub enum Target {
    /// The host itself.
    Host,
    /// A bucket, by the text of its name.
    Bucket(Text),
    /// An object, by the texts of its bucket's name and its key.
    Object(Text, Text),
}

/// The path of a target, which ends at the first `?`, and the query after that.
pub fn split_target(target: &[u8]) -> (&[u8], &[u8])
    ensures path { result.0.now ≡ spec.path_of target.now }
    ensures query { result.1.now ≡ spec.query_of target.now }
{
    match place_of(b'?', target) {
        Some(at) if at < target.len() => (&target[..at], &target[at + 1..]),
        _ => (target, &[]),
    }
}

/// The path of a target, as it was sent.
pub fn path_of(target: &[u8]) -> &[u8]
    ensures { result.now ≡ spec.path_of target.now }
{
    split_target(target).0
}

/// The first place of a byte.
pub fn place_of(byte: u8, bytes: &[u8]) -> Option<usize>
    ensures place { result ≡ position (λ b. b == byte) bytes.now }
    ensures within { IfSome result (λ at. at < length bytes.now) }
{
    bytes.iter().position(|b| *b == byte)
}

/// The bytes before the first slash, and those after it.
pub fn split_at_slash(bytes: &[u8]) -> (&[u8], &[u8])
    ensures before { result.0.now ≡ before_first spec.is_slash bytes.now }
    ensures after { result.1.now ≡ after_first spec.is_slash bytes.now }
{
    match place_of(b'/', bytes) {
        Some(at) if at < bytes.len() => (&bytes[..at], &bytes[at + 1..]),
        _ => (bytes, &[]),
    }
}

fn begins_with_digits(bytes: &[u8]) -> bool
    ensures { result ≡ spec.begins_with_digits bytes.now }
{
    match bytes {
        [high, low, ..] => high.is_ascii_hexdigit() && low.is_ascii_hexdigit(),
        _ => false,
    }
}

/// Whether each percent sign is followed by two hexadecimal digits.
fn has_whole_escapes(bytes: &[u8]) -> bool
    ensures { result ≡ spec.has_whole_escapes bytes.now }
{
    let mut rest = bytes;
    while let [first, tail @ ..] = rest {
        if *first == b'%' && !begins_with_digits(tail) {
            return false;
        }
        rest = tail;
    }
    true
}

/// Decodes percent-encoded bytes, if each `%` begins an escape and the bytes are UTF-8.
pub fn decode(alloc: Global, bytes: &[u8]) -> Result<Option<Text>, AllocError>
    ensures { IfOk result (λ text. text ≡ spec.decoded bytes.now) }
{
    if !has_whole_escapes(bytes) {
        return Ok(None);
    }
    let mut decoded = Vec::with_capacity(alloc, bytes.len())?;
    percent_decode(bytes).append_to(&mut decoded)?;
    Ok(into_text(decoded))
}

/// Takes over bytes as a text, if they are UTF-8.
fn into_text(bytes: Vec<u8>) -> Option<Text>
    ensures { result ≡ spec.text_of bytes.items }
{
    match String::from_utf8(bytes) {
        Ok(text) => Some(Text::new(text)),
        Err(_) => None,
    }
}

/// The text that bytes are, if they are UTF-8.
pub fn text_of(bytes: &[u8]) -> Option<&str>
    ensures { option_copied result ≡ spec.text_of bytes.now }
{
    match str::from_utf8(bytes) {
        Ok(text) => Some(text),
        Err(_) => None,
    }
}

/// The kind of a path. Fails with InvalidUri if it has none.
#[tactic(auto, unfolding(crate::specs::Targets::routed))]
pub fn routed(routes: &Routes, path: &[u8]) -> Result<Kind, RequestError>
    ensures { Gives (λ x. x) result (spec.routed path.now) }
{
    routes
        .kind_of(path)
        .ok_or(RequestError::Refused(Refusal::InvalidUri))
}

/// A name in a path, decoded. Fails with InvalidUri if it can't be decoded.
#[tactic(auto, unfolding(crate::specs::Targets::name_at))]
fn name_at(alloc: Global, part: &[u8]) -> Result<Text, RequestError>
    ensures { Gives (λ x. x) result (spec.name_at part.now) }
{
    decode(alloc, part)?.ok_or(RequestError::Refused(Refusal::InvalidUri))
}

fn after_first(bytes: &[u8]) -> &[u8]
    ensures { result.now ≡ drop 1 bytes.now }
{
    if bytes.is_empty() { bytes } else { &bytes[1..] }
}

/// The target of a path of a kind. Fails with InvalidUri if a name in it can't be decoded.
#[tactic(auto, unfolding(crate::specs::Targets::target_at))]
pub fn target_at(alloc: Global, kind: Kind, path: &[u8]) -> Result<Target, RequestError>
    ensures { Gives (λ x. x) result (spec.target_at kind path.now) }
{
    let (bucket, key) = split_at_slash(after_first(path));
    match kind {
        Kind::Host => Ok(Target::Host),
        Kind::Bucket => Ok(Target::Bucket(name_at(alloc, bucket)?)),
        Kind::Object => {
            let bucket = name_at(alloc, bucket)?;
            let key = name_at(alloc, key)?;
            Ok(Target::Object(bucket, key))
        }
    }
}
