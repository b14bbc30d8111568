//! Requests' operations.

use crate::answer::{Answer, Fault, refusal, refused, text};
use crate::documents::many_parts;
use crate::plain;
use crate::shown::operation_text;
use bh_http::read::read_request;
use bh_http::request::{Fields, Head};
use bh_operation::allow::allow_of;
use bh_operation::operation::{Operation, operation_of};
use bh_operation::routes::Routes;
use bh_types::error::RequestError;
use bh_types::limits::Limits;
use bh_types::names::TenantName;
use std::alloc::{AllocError, Global};

pub fn answer(alloc: Global, call: &str, input: &str) -> Answer {
    match call {
        "asks" => asks(alloc, input),
        "allow" => allow(alloc, input),
        "many-parts" => many_parts(alloc, input),
        _ => plain::answer(alloc, call, input),
    }
}

/// The methods of a target.
fn allow(alloc: Global, input: &str) -> Answer {
    let routes = Routes::new(alloc)?;
    let allow = allow_of(&routes, input.as_bytes());
    text(alloc, allow.map_or("none", |allow| allow.as_str()))
}

/// The bytes of a request of a method, a target and header fields, written one after another with ` | ` between them.
fn head_of(alloc: Global, text: &str) -> Result<String, AllocError> {
    let (line, fields) = text.split_once(" | ").unwrap_or((text, "a: b"));
    let mut head = format!(in alloc; "{line} HTTP/1.1\nhost: h\ncontent-length: 0\n")?;
    for field in fields.split(" | ") {
        head.push_str(field)?;
        head.push_str("\n")?;
    }
    head.push_str("\n")?;
    Ok(head)
}

/// The operation of a request of the tenant green, or the number of its refusal.
fn asks(alloc: Global, input: &str) -> Answer {
    let head = head_of(alloc, input)?;
    match read_request(head.as_bytes(), &Limits::default()) {
        Ok(request) => asked(alloc, &request.head),
        Err(why) => refusal(alloc, why),
    }
}

/// The operation of a GET without header fields whose target is these bytes. Requests' bytes can't
/// have such targets.
pub fn asks_of_target(alloc: Global, target: &[u8]) -> Answer {
    let head = Head {
        method: b"GET",
        target,
        fields: Fields::new(),
        body_size: 0,
    };
    asked(alloc, &head)
}

fn asked(alloc: Global, head: &Head) -> Answer {
    let green = TenantName::read(alloc, "green")?.ok_or(Fault::Form)?;
    let routes = Routes::new(alloc)?;
    outcome_text(alloc, operation_of(alloc, &routes, head, &green))
}

fn outcome_text(alloc: Global, outcome: Result<Operation, RequestError>) -> Answer {
    match outcome {
        Ok(operation) => text_of(alloc, &operation),
        Err(error) => refused(alloc, error),
    }
}

fn text_of(alloc: Global, operation: &Operation) -> Answer {
    Ok(operation_text(alloc, operation)?)
}
