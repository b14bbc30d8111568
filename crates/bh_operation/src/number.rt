ghost use Rattle.std.specs.Prelude.{◌≡◌};
ghost use Rattle.std.specs.Option.{option_copied};
ghost use Rattle.bh_types.specs.Outcomes.{Gives};
ghost use Rattle.bh_types.specs.Tokens.{token_of};
ghost use Rattle.bh_operation.specs.Numbers as spec;

use crate::text::Bytes;
use bh_types::digits::{is_number, number_of};
use bh_types::error::RequestError;
use bh_types::id::VersionId;
use bh_types::refusal::Refusal;
use bh_types::token::read_token;
use bh_types::wanted::Wanted;
use std::alloc::Global;

/// The maximum number of entries on a page, and the default.
const MAX_PAGE: u32 = 1000;

/// The greatest number of a part.
const MAX_PART: u64 = 10_000;

/// The number of 1 to 10 digits. Fails with InvalidArgument for another text.
#[tactic(auto, unfolding(crate::specs::Numbers::short_number))]
fn short_number(text: &str) -> Result<u64, Refusal>
    ensures { result ≡ spec.short_number text.now }
{
    let digits = text.as_bytes();
    if !is_number(digits) || digits.len() > 10 {
        return Err(Refusal::InvalidArgument);
    }
    match number_of(digits) {
        Some(n) => Ok(n),
        None => unreachable!(),
    }
}

/// The number of entries on a page: 1,000 by default and at most. Fails with InvalidArgument for a
/// text that is not 1 to 10 digits.
#[tactic(auto, unfolding(crate::specs::Numbers::page_size))]
pub fn page_size(text: Option<&str>) -> Result<u32, Refusal>
    ensures { result ≡ spec.page_size (option_copied text.entry) }
{
    match text {
        None => Ok(MAX_PAGE),
        Some(text) => Ok(short_number(text)?.min(MAX_PAGE as u64) as u32),
    }
}

/// The number of the part after which a page of parts begins, 0 by default. Fails with
/// InvalidArgument for a text that is not 1 to 10 digits.
#[tactic(auto, unfolding(crate::specs::Numbers::part_marker))]
pub fn part_marker(text: Option<&str>) -> Result<u64, Refusal>
    ensures { result ≡ spec.part_marker (option_copied text.entry) }
{
    match text {
        None => Ok(0),
        Some(text) => short_number(text),
    }
}

/// The number of a part (Amazon S3 API Reference, UploadPart), 1 to 10,000. Fails with
/// InvalidArgument for another text or none.
#[tactic(auto, unfolding(crate::specs::Numbers::part_number))]
pub fn part_number(text: Option<&str>) -> Result<u32, Refusal>
    ensures { result ≡ spec.part_number (option_copied text.entry) }
{
    match text {
        Some(text) if is_number(text.as_bytes()) => match number_of(text.as_bytes()) {
            Some(n) if 1 <= n && n <= MAX_PART => Ok(n as u32),
            _ => Err(Refusal::InvalidArgument),
        },
        _ => Err(Refusal::InvalidArgument),
    }
}

/// The bytes of pairs of hexadecimal digits (RFC 4648, section 8, in either case). Fails with
/// InvalidArgument for another text.
pub fn token_in(alloc: Global, text: &str) -> Result<Bytes, RequestError>
    ensures { Gives (λ x. x) result (token_of text.now) }
{
    Ok(Bytes::new(read_token(alloc, text)?))
}

/// The version that a request names by the text of an id, or by none. No version has the number 0,
/// or a number from 2^63 on.
#[tactic(auto, unfolding(crate::specs::Numbers::wanted))]
pub fn wanted(text: Option<&str>) -> Wanted
    ensures { result ≡ spec.wanted (option_copied text.entry) }
{
    let Some(text) = text else {
        return Wanted::Current;
    };
    match VersionId::read(text) {
        Some(VersionId::Numbered(n)) if n == 0 || n >= 1 << 63 => Wanted::Unknown,
        Some(id) => Wanted::Named(id),
        None => Wanted::Unknown,
    }
}
