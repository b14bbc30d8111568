//! The shapes of request documents.

ghost use Rattle.std.specs.Prelude.{◌≡◌, None, IfOk, map, option_map};
ghost use Rattle.serde_json.specs.Events.{items_len, members_len};
ghost use Rattle.serde_json.specs.View.{view, items_view, members_view};
ghost use Rattle.bh_docs.specs.Shapes as spec;

use bh_types::bucket_state::BucketState;
use serde_json::{Map, Value};
use std::alloc::{AllocError, Global};

/// The number of members, in terms of the specification's data.
fn member_count(members: &Map<String, Value>) -> usize
    ensures { result ≡ members_len (members_view members.now.entries) }
{
    members.len()
}

/// The members of an object with `count` of them.
fn members_of(count: usize, document: &Value) -> Option<&Map<String, Value>>
    ensures { option_map (λ m. members_view m.now.entries) result ≡ spec.members_of count (view document.now) }
{
    let members = document.as_object()?;
    if member_count(members) == count {
        Some(members)
    } else {
        None
    }
}

/// The value of an object's only member, if it has this name.
fn only_member<'a>(name: &str, document: &'a Value) -> Option<&'a Value>
    ensures { option_map (λ v. view v.now) result ≡ spec.only_member name.now (view document.now) }
{
    members_of(1, document)?;
    document.get(name)
}

/// The values of an object's only two members, if they have these names.
fn two_members<'a>(first: &str, second: &str, document: &'a Value) -> Option<(&'a Value, &'a Value)>
    ensures { option_map (λ p. (view p.0.now, view p.1.now)) result
        ≡ spec.two_members first.now second.now (view document.now) }
{
    members_of(2, document)?;
    let a = document.get(first)?;
    let b = document.get(second)?;
    Some((a, b))
}

/// An integer that fits in 64 bits, with a sign or without.
fn whole(document: &Value) -> Option<i128>
    ensures { result ≡ spec.whole (view document.now) }
{
    document.as_number()?.as_i128()
}

/// The state in `{"Status":"Enabled"}` or `{"Status":"Suspended"}`.
pub fn versioning_shape(document: &Value) -> Option<BucketState>
    ensures { result ≡ spec.versioning_shape (view document.now) }
{
    let status = only_member("Status", document)?;
    state_named(status.as_str()?)
}

fn state_named(text: &str) -> Option<BucketState>
    ensures { result ≡ spec.state_named text.now }
{
    match text {
        "Enabled" => Some(BucketState::Enabled),
        "Suspended" => Some(BucketState::Suspended),
        _ => None,
    }
}

/// The days of `{"Rules":[rule]}`, as any integer.
pub fn lifecycle_shape(document: &Value) -> Option<i128>
    ensures { result ≡ spec.lifecycle_shape (view document.now) }
{
    let rules = only_member("Rules", document)?;
    rule_shape(only_item(rules.as_array()?.as_slice())?)
}

fn only_item(items: &[Value]) -> Option<&Value>
    ensures { option_map (λ v. view v.now) result ≡ spec.only_item (items_view items.now) }
{
    if items.len() == 1 {
        items.first()
    } else {
        None
    }
}

fn rule_shape(rule: &Value) -> Option<i128>
    ensures { result ≡ spec.rule_shape (view rule.now) }
{
    let (abort, status) = two_members("AbortIncompleteMultipartUpload", "Status", rule)?;
    let days = whole(only_member("DaysAfterInitiation", abort)?)?;
    if_enabled(status, days)
}

fn if_enabled(status: &Value, days: i128) -> Option<i128>
    ensures { result ≡ spec.if_enabled (view status.now) days }
{
    if status.as_str()? == "Enabled" {
        Some(days)
    } else {
        None
    }
}

/// A version's retention in a document.
#[derive(Clone, Copy)]
pub struct RetentionShape<'a> {
    /// Any text.
    pub mode: &'a str,
    /// Any text.
    pub date: &'a str,
}

/// The mode and the date of `{"Mode":mode,"RetainUntilDate":date}`, as any texts.
pub fn retention_shape(document: &Value) -> Option<RetentionShape<'_>>
    ensures { option_map spec.retention_view result ≡ spec.retention_shape (view document.now) }
{
    let (mode, date) = two_members("Mode", "RetainUntilDate", document)?;
    let mode = mode.as_str()?;
    let date = date.as_str()?;
    Some(RetentionShape { mode, date })
}

/// A part in a document.
#[derive(Clone, Copy)]
pub struct PartShape<'a> {
    /// Any integer.
    pub number: i128,
    /// The checksum, if one is given.
    pub sum: Option<&'a str>,
}

fn part_shape(part: &Value) -> Option<PartShape<'_>>
    ensures { option_map spec.part_view result ≡ spec.part_shape (view part.now) }
{
    match plain_part(part) {
        Some(number) => Some(PartShape { number, sum: None }),
        None => checked_part(part),
    }
}

fn plain_part(part: &Value) -> Option<i128>
    ensures { option_map (λ n. (n, None)) result ≡ spec.plain_part (view part.now) }
{
    whole(only_member("PartNumber", part)?)
}

fn checked_part(part: &Value) -> Option<PartShape<'_>>
    ensures { option_map spec.part_view result ≡ spec.checked_part (view part.now) }
{
    let (sum, number) = two_members("ChecksumSHA256", "PartNumber", part)?;
    let sum = sum.as_str()?;
    let number = whole(number)?;
    Some(PartShape {
        number,
        sum: Some(sum),
    })
}

/// The parts of `{"Parts":[part,..]}`, 1 to 10,000 of them, whatever integers they have.
pub fn complete_shape<'a>(
    alloc: Global,
    document: &'a Value,
) -> Result<Option<Vec<PartShape<'a>>>, AllocError>
    ensures { IfOk result (λ found. option_map (λ parts. map spec.part_view parts.items) found
        ≡ spec.complete_shape (view document.now)) }
{
    match listed_parts(document) {
        Some(items) => parts_shape(alloc, items.as_slice()),
        None => Ok(None),
    }
}

/// The items of `{"Parts":[..]}`, 1 to 10,000 of them.
fn listed_parts(document: &Value) -> Option<&Vec<Value>>
    ensures { option_map (λ items. items_view items.now.items) result ≡ spec.listed_parts (view document.now) }
{
    let items = only_member("Parts", document)?.as_array()?;
    if has_part_count(items.as_slice()) {
        Some(items)
    } else {
        None
    }
}

fn has_part_count(items: &[Value]) -> bool
    ensures { result ≡ spec.has_part_count (items_view items.now) }
{
    let count = item_count(items);
    1 <= count && count <= 10_000
}

/// The number of items, in terms of the specification's data.
fn item_count(items: &[Value]) -> usize
    ensures { result ≡ items_len (items_view items.now) }
{
    items.len()
}

fn parts_shape<'a>(
    alloc: Global,
    items: &'a [Value],
) -> Result<Option<Vec<PartShape<'a>>>, AllocError>
    ensures { IfOk result (λ found. option_map (λ parts. map spec.part_view parts.items) found
        ≡ spec.parts_shape (items_view items.now)) }
{
    let mut parts = Vec::with_capacity(alloc, items.len())?;
    for item in items {
        match part_shape(item) {
            Some(part) => parts.push(part)?,
            None => return Ok(None),
        }
    }
    Ok(Some(parts))
}
