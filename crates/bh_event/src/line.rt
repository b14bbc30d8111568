//! The lines of a script and of an operator, as JSON.
ghost use Rattle.std.specs.Prelude.{◌≡◌, ◌≤◌, IfOk, IfSome, option_map};
ghost use Rattle.std.specs.Option.{option_copied};
ghost use Rattle.serde_json.specs.View.{view};
ghost use Rattle.bh_event.specs.Events.{arrival};
ghost use Rattle.bh_event.specs.Lines as spec;
ghost use Rattle.bh_event.specs.Orders.{instruction_of};

use crate::event::{Event, Message};
use crate::given::{Fields, GivenError};
use crate::name::{Field, OrderName};
use crate::order::{Order, order_by};
use hex::FromHexError;
use serde_json::Value;
use std::alloc::{AllocError, Global};

/// Parses a script's line: a JSON object (RFC 8259) with `at`, the reading, and `http`, `hex` or an
/// order's `op` with its members. `None` if the line is not such an object. Fails if memory runs
/// out.
pub fn read_line(alloc: Global, line: &[u8]) -> Result<Option<Event>, AllocError>
    ensures { IfOk result (λ found. option_map arrival found ≡ spec.told_by line.now) }
{
    match value_in(alloc, line)? {
        Some(document) => event_in(alloc, &document),
        None => Ok(None),
    }
}

/// Parses an operator's line: a JSON object (RFC 8259) with the `op` of an order and its members. It
/// may have `at`, a number that doesn't count. `None` if the line is not such an object. Fails if
/// memory runs out.
pub fn read_order(alloc: Global, line: &[u8]) -> Result<Option<Order>, AllocError>
    ensures { IfOk result (λ found. option_map instruction_of found ≡ spec.ordered_by line.now) }
{
    match value_in(alloc, line)? {
        Some(document) => order_in(alloc, &document),
        None => Ok(None),
    }
}

/// The JSON value of a line; `None` if the line is not the text of one.
fn value_in(alloc: Global, line: &[u8]) -> Result<Option<Value>, AllocError>
    ensures { IfOk result (λ found. option_map view found ≡ spec.value_in line.now) }
{
    let Ok(text) = str::from_utf8(line) else {
        return Ok(None);
    };
    match Value::from_str(alloc, text) {
        Ok(document) => Ok(Some(document)),
        Err(error) if error.is_memory() => Err(AllocError),
        Err(_) => Ok(None),
    }
}

fn event_in(alloc: Global, document: &Value) -> Result<Option<Event>, AllocError>
    ensures { IfOk result (λ found. option_map arrival found ≡ spec.arrival_in (view document.now)) }
{
    let Some(reading) = number_at(document, "at") else {
        return Ok(None);
    };
    if let Some(bytes) = request_in(alloc, document)? {
        let message = Message::Request(bytes);
        return Ok(Some(Event { reading, message }));
    }
    match order_among(alloc, document, 2)? {
        Some(Order::Host(order)) => Ok(Some(order.at(reading))),
        Some(_) | None => Ok(None),
    }
}

fn request_in(alloc: Global, document: &Value) -> Result<Option<Vec<u8>>, AllocError>
    ensures { IfOk result (λ found. option_map (λ b. b.items) found ≡ spec.request_in (view document.now)) }
{
    if !has_members(document, 2) {
        return Ok(None);
    }
    if let Some(text) = text_at(document, "http") {
        return Ok(Some(Vec::from_slice(alloc, text.as_bytes())?));
    }
    match text_at(document, "hex") {
        Some(digits) => bytes_of_digits(alloc, digits),
        None => Ok(None),
    }
}

fn bytes_of_digits(alloc: Global, digits: &str) -> Result<Option<Vec<u8>>, AllocError>
    ensures { IfOk result (λ found. option_map (λ b. b.items) found ≡ spec.bytes_of_digits digits.now) }
{
    match hex::decode(alloc, digits) {
        Ok(bytes) => Ok(Some(bytes)),
        Err(FromHexError::OutOfMemory) => Err(AllocError),
        Err(_) => Ok(None),
    }
}

fn order_in(alloc: Global, document: &Value) -> Result<Option<Order>, AllocError>
    ensures { IfOk result (λ found. option_map instruction_of found ≡ spec.order_in (view document.now)) }
{
    match others_in(document) {
        Some(others) => order_among(alloc, document, others),
        None => Ok(None),
    }
}

/// How many members are none of an order's fields: `op`, and `at` if it is there.
fn others_in(document: &Value) -> Option<usize>
    ensures is { result ≡ spec.others_in (view document.now) }
    ensures few { IfSome result (λ others. others ≤ 2) }
{
    if document.get("at").is_none() {
        return Some(1);
    }
    match number_at(document, "at") {
        Some(_) => Some(2),
        None => None,
    }
}

/// The order in an object that has so many members beside those of its fields.
fn order_among(alloc: Global, document: &Value, others: usize) -> Result<Option<Order>, AllocError>
    requires { others ≤ 2 }
    ensures { IfOk result (λ found. option_map instruction_of found ≡ spec.instruction_in others (view document.now)) }
{
    let Some(op) = text_at(document, "op") else {
        return Ok(None);
    };
    match OrderName::named(op) {
        Some(name) => order_named(alloc, document, others, name),
        None => Ok(None),
    }
}

fn order_named(
    alloc: Global,
    document: &Value,
    others: usize,
    name: OrderName,
) -> Result<Option<Order>, AllocError>
    requires { others ≤ 2 }
    ensures { IfOk result (λ found. option_map instruction_of found ≡ spec.instruction_named others (view document.now) name) }
{
    if !has_members(document, others + name.fields().len()) {
        return Ok(None);
    }
    match order_by(alloc, name, &Members(document)) {
        Ok(order) => Ok(Some(order)),
        Err(GivenError::NotGiven) => Ok(None),
        Err(GivenError::OutOfMemory) => Err(AllocError),
    }
}

/// The members of a JSON object, each under the key of its field.
#[derive(Drop)]
struct Members<'a>(&'a Value);

impl<'a> Fields for Members<'a> {
    ghost use Rattle.serde_json.specs.View.{view};
    ghost use Rattle.bh_event.specs.Lines.{given_in};

    ghost given = { λ members. given_in (view members.0.now) };

    fn text(&self, field: Field) -> Option<&str> {
        text_at(self.0, key(field))
    }

    fn number(&self, field: Field) -> Option<u64> {
        number_at(self.0, key(field))
    }

    fn choice(&self, field: Field) -> Option<bool> {
        choice_at(self.0, key(field))
    }
}

fn key<'a>(field: Field) -> &'a str
    ensures { result.now ≡ spec.key field }
{
    match field {
        Field::Tenant => "tenant",
        Field::Quota => "quota",
        Field::WithObjects => "with_objects",
        Field::Name => "name",
        Field::Secret => "secret",
        Field::Limit => "limit",
        Field::To => "to",
    }
}

pub(crate) fn has_members(document: &Value, count: usize) -> bool
    ensures { result ≡ spec.has_members count (view document.now) }
{
    match document.as_object() {
        Some(members) => members.len() == count,
        None => false,
    }
}

pub(crate) fn text_at<'a>(document: &'a Value, key: &str) -> Option<&'a str>
    ensures { option_copied result ≡ spec.text_at key.now (view document.now) }
{
    document.get(key)?.as_str()
}

fn choice_at(document: &Value, key: &str) -> Option<bool>
    ensures { result ≡ spec.choice_at key.now (view document.now) }
{
    document.get(key)?.as_bool()
}

pub(crate) fn number_at(document: &Value, key: &str) -> Option<u64>
    ensures { result ≡ spec.number_at key.now (view document.now) }
{
    document.get(key)?.as_u64()
}
