ghost use Rattle.std.specs.Prelude.{◌≡◌, ◌<◌, true, length, position, option_map, Option, IfSome};
ghost use Rattle.std.specs.Option.{option_copied};
ghost use Rattle.bh_types.specs.Digits as digits;
ghost use Rattle.bh_types.specs.Ranges as spec;
ghost use Rattle.bh_core.specs.AskedRanges.{asked_of};

use bh_types::digits::{is_number, number_of};
use bh_types::range::RangePlan;
use bh_types::refusal::Refusal;

/// Greater numbers count as this one.
const GREATEST_NUMBER: u64 = 1 << 62;

/// The range in a Range field.
#[derive(Clone, Copy)]
enum Asked {
    Between { first: u64, last: u64 },
    From(u64),
    Last(u64),
}

/// The bytes to return of an object of `size` bytes, given the request's Range field, if it has one
/// (RFC 9110, section 14.1.2). The field has one range of bytes, in decimal digits; a field of
/// another form is ignored. Fails with [`Refusal::InvalidRange`] if the object has none of the
/// bytes (section 15.5.17).
pub fn range_of(range: Option<&[u8]>, size: u64) -> Result<RangePlan, Refusal>
    ensures { result ≡ spec.range_of (option_copied range.entry) size }
{
    let Some(text) = range else {
        return Ok(RangePlan::Whole);
    };
    match asked_in(text) {
        Some(asked) => planned(asked, size),
        None => Ok(RangePlan::Whole),
    }
}

fn asked_in(text: &[u8]) -> Option<Asked>
    ensures { option_map asked_of result ≡ spec.asked_in text.now }
{
    if text.len() < 6 {
        return None;
    }
    let (unit, set) = text.split_at(6);
    if !unit.eq_ignore_ascii_case(b"bytes=") {
        return None;
    }
    match hyphen_at(set) {
        Some(at) => asked_by(&set[..at], &set[at + 1..]),
        None => None,
    }
}

fn hyphen_at(set: &[u8]) -> Option<usize>
    ensures place { result ≡ position spec.is_hyphen set.now }
    ensures bound { IfSome result (λ at. at < length set.now) }
{
    set.iter().position(|b| *b == b'-')
}

fn asked_by(before: &[u8], after: &[u8]) -> Option<Asked>
    ensures { option_map asked_of result ≡ spec.asked_by before.now after.now }
{
    match (is_number(before), is_number(after)) {
        (true, true) => between(number_in(before), number_in(after)),
        (true, false) if after.is_empty() => Some(Asked::From(number_in(before))),
        (false, true) if before.is_empty() => Some(Asked::Last(number_in(after))),
        _ => None,
    }
}

fn between(first: u64, last: u64) -> Option<Asked>
    ensures { option_map asked_of result ≡ spec.between first last }
{
    if first <= last {
        Some(Asked::Between { first, last })
    } else {
        None
    }
}

fn number_in(text: &[u8]) -> u64
    requires { digits.is_number text.now ≡ true }
    ensures { result ≡ spec.number_in text.now }
{
    match number_of(text) {
        Some(n) => n.min(GREATEST_NUMBER),
        None => GREATEST_NUMBER,
    }
}

fn planned(asked: Asked, size: u64) -> Result<RangePlan, Refusal>
    ensures { result ≡ spec.planned (asked_of asked) size }
{
    match asked {
        Asked::Between { first, last } if first < size => Ok(RangePlan::Part {
            first,
            last: last.min(size - 1),
        }),
        Asked::From(first) if first < size => Ok(RangePlan::Part {
            first,
            last: size - 1,
        }),
        Asked::Last(count) if 0 < count && 0 < size => Ok(RangePlan::Part {
            first: size - count.min(size),
            last: size - 1,
        }),
        _ => Err(Refusal::InvalidRange),
    }
}
