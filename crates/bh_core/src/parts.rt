ghost use Rattle.std.specs.Prelude.{◌≡◌, ◌<◌, ◌≤◌, ◌+◌, false, length, map, option_map, All, IfOk, IfSome};
ghost use Rattle.std.specs.List.{list_all};
ghost use Rattle.std.specs.String.{string_bytes};
ghost use Rattle.bh_types.specs.Outcomes.{Gives};
ghost use Rattle.bh_model.specs.Shown.{naming_of};
ghost use Rattle.bh_core.specs.Completions as spec;

use bh_model::parts::ascends;
use bh_types::error::RequestError;
use bh_types::refusal::Refusal;
use bh_types::wanted::Named;
use std::alloc::Global;

/// The facts about an upload's part that its completion needs.
#[derive(Drop)]
pub struct PartRow {
    /// The part's number.
    pub number: u32,
    /// Its size in bytes.
    pub size: u64,
    /// The checksum of its bytes, in base64.
    pub sum: String,
}

/// The places, from 0, of the parts that an upload is completed with, in the order of the request
/// (Amazon S3 API Reference, CompleteMultipartUpload). Fails with [`Refusal::InvalidPartOrder`] if
/// the numbers do not ascend. Then fails with [`Refusal::InvalidPart`] if a part doesn't exist or
/// has another checksum. Then fails with [`Refusal::EntityTooSmall`] if one but the last has fewer
/// than `least` bytes. If the parts are ordered by number, each is visited once.
pub fn check_complete(
    alloc: Global,
    parts: &[PartRow],
    named: &[Named],
    least: u64,
) -> Result<Vec<usize>, RequestError>
    ensures plan { Gives (λ v. v.items) result (spec.complete_plan least parts.now (map naming_of named.now)) }
    ensures bound { IfOk result (λ v. All (λ at. at < length parts.now) v.items) }
{
    if !ascends(named) {
        return Err(RequestError::Refused(Refusal::InvalidPartOrder));
    }
    let places = chosen_places(alloc, parts, named)?;
    if !are_large(least, parts, &places) {
        return Err(RequestError::Refused(Refusal::EntityTooSmall));
    }
    Ok(places)
}

fn chosen_places(
    alloc: Global,
    parts: &[PartRow],
    named: &[Named],
) -> Result<Vec<usize>, RequestError>
    ensures plan { Gives (λ v. v.items) result (spec.chosen_places parts.now (map naming_of named.now)) }
    ensures bound { IfOk result (λ v. All (λ at. at < length parts.now) v.items) }
{
    let ordered = are_ordered(parts);
    let mut places = Vec::new(alloc);
    let mut from = 0;
    for name in named {
        let at = chosen_place(parts, from, name)?;
        if places.push(at).is_err() {
            return Err(RequestError::OutOfMemory);
        }
        from = start_after(at, ordered);
    }
    Ok(places)
}

/// Whether the parts are ordered by number.
fn are_ordered(parts: &[PartRow]) -> bool
    ensures { result ≡ spec.are_ordered parts.now }
{
    match parts {
        [first, rest @ ..] => match rest {
            [second, ..] => first.number < second.number && are_ordered(rest),
            [] => true,
        },
        [] => true,
    }
}

/// The place from which to look for the next part: if all are ordered, named parts follow one
/// another.
fn start_after(at: usize, ordered: bool) -> usize
    ensures within { result ≤ at + 1 }
    ensures first { ordered ≡ false → result ≡ 0 }
{
    if ordered { at.saturating_add(1) } else { 0 }
}

fn chosen_place(parts: &[PartRow], from: usize, name: &Named) -> Result<usize, Refusal>
    requires within { from ≤ length parts.now }
    requires start { spec.IsStart parts.now from }
    ensures place { result ≡ spec.chosen_place parts.now (naming_of name.now) }
    ensures bound { IfOk result (λ at. at < length parts.now) }
{
    match place_from(parts, from, name.number) {
        Some(at) if has_sum(&parts[at], &name.sum) => Ok(at),
        _ => Err(Refusal::InvalidPart),
    }
}

/// The place of the part with a number. The search begins at a place, and then starts again at the
/// first.
fn place_from(parts: &[PartRow], from: usize, number: u32) -> Option<usize>
    requires within { from ≤ length parts.now }
    requires start { spec.IsStart parts.now from }
    ensures place { result ≡ spec.place_of parts.now number }
    ensures bound { IfSome result (λ at. at < length parts.now) }
{
    match place_of(&parts[from..], number) {
        Some(after) => Some(from + after),
        None => place_of(parts, number),
    }
}

fn place_of(parts: &[PartRow], number: u32) -> Option<usize>
    ensures place { result ≡ spec.place_of parts.now number }
    ensures bound { IfSome result (λ at. at < length parts.now) }
{
    parts.iter().position(|p| p.number == number)
}

fn has_sum(part: &PartRow, given: &Option<String>) -> bool
    ensures { result ≡ spec.has_sum part.now (option_map string_bytes given.now) }
{
    match given {
        Some(given) => given.as_str() == part.sum.as_str(),
        None => true,
    }
}

fn are_large(least: u64, parts: &[PartRow], places: &[usize]) -> bool
    ensures { result ≡ spec.are_large least parts.now places.now }
{
    all_are_large(least, parts, &places[..places.len().saturating_sub(1)])
}

fn all_are_large(least: u64, parts: &[PartRow], places: &[usize]) -> bool
    ensures { result ≡ list_all (spec.is_large least parts.now) places.now }
{
    places.iter().all(|at| is_large(least, parts, *at))
}

fn is_large(least: u64, parts: &[PartRow], at: usize) -> bool
    ensures { result ≡ spec.is_large least parts.now at }
{
    match parts.get(at) {
        Some(part) => part.size >= least,
        None => false,
    }
}
