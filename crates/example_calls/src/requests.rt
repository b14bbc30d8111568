//! Requests that are parsed from bytes, and lines of scripts.

use crate::answer::{Answer, Fault, refusal, text};
use crate::operations::asks_of_target;
use bh_event::event::{Command, Event, Message};
use bh_event::line::read_line;
use bh_event::order::HostOrder;
use bh_http::credentials::{access_key_of, secret_of};
use bh_http::read::read_request;
use bh_http::request::Request;
use bh_types::limits::Limits;
use bh_types::names::KeyName;
use bh_types::refusal::Refusal;
use std::alloc::Global;

/// The calls that take bytes; no answer if the call takes text.
pub fn answer(alloc: Global, call: &str, input: &[u8]) -> Answer {
    match call {
        "request" => request(alloc, input),
        "request-refusal" => request_refusal(alloc, input),
        "credentials" => credentials(alloc, input),
        "beginnings" => beginnings(alloc, input),
        "line" => line(alloc, input),
        "asks-of-target" => asks_of_target(alloc, input),
        _ => Err(Fault::Form),
    }
}

fn read(input: &[u8]) -> Result<Request<'_>, Refusal> {
    read_request(input, &Limits::default())
}

/// A request's refusal, if it is refused.
fn refusal_of(input: &[u8]) -> Option<Refusal> {
    match read(input) {
        Ok(_) => None,
        Err(why) => Some(why),
    }
}

/// The method, the target, the number of header fields and the body.
fn request(alloc: Global, input: &[u8]) -> Answer {
    match read(input) {
        Ok(request) => request_text(alloc, &request),
        Err(why) => refusal(alloc, why),
    }
}

fn request_text(alloc: Global, request: &Request) -> Answer {
    let method = String::from_utf8_lossy(alloc, request.head.method)?;
    let target = String::from_utf8_lossy(alloc, request.head.target)?;
    let body = String::from_utf8_lossy(alloc, request.body)?;
    let fields = request.head.fields.len();
    Ok(format!(in alloc; "{method} {target}, {fields} fields, {body}")?)
}

fn request_refusal(alloc: Global, input: &[u8]) -> Answer {
    match read(input) {
        Ok(_) => text(alloc, "none"),
        Err(why) => refusal(alloc, why),
    }
}

/// The tenant of a request, its access key and its secret.
fn credentials(alloc: Global, input: &[u8]) -> Answer {
    match read(input) {
        Ok(request) => credentials_text(alloc, &request),
        Err(why) => refusal(alloc, why),
    }
}

fn credentials_text(alloc: Global, request: &Request) -> Answer {
    let Some(key) = access_key_of(alloc, &request.head)? else {
        return text(alloc, "nobody");
    };
    let Ok(secret) = secret_of(&request.head) else {
        return text(alloc, "no credentials");
    };
    let secret = String::from_utf8_lossy(alloc, secret)?;
    let tenant = key.tenant.as_str();
    let name = key.name.as_ref().map_or("none", KeyName::as_str);
    Ok(format!(in alloc; "{tenant} {tenant}${name} {secret}")?)
}

/// The refusals of the first 0, 1, 2, .. bytes of a request, one after another.
fn beginnings(alloc: Global, input: &[u8]) -> Answer {
    let mut shown = String::new(alloc);
    for end in 0..input.len() {
        match refusal_of(&input[..end]) {
            Some(refusal) => shown.push_str(refusal.code())?,
            None => shown.push_str("none")?,
        }
        shown.push_str(" ")?;
    }
    Ok(shown)
}

/// The event in a script's line.
fn line(alloc: Global, input: &[u8]) -> Answer {
    let Some(Event { reading, message }) = read_line(alloc, input)? else {
        return text(alloc, "none");
    };
    match message {
        Message::Request(bytes) => http_text(alloc, reading, bytes.as_slice()),
        Message::Order(order) => order_text(alloc, reading, &order),
    }
}

fn order_text(alloc: Global, reading: u64, order: &HostOrder) -> Answer {
    match order {
        HostOrder::Command(command) => command_text(alloc, reading, command),
        HostOrder::Sweep { limit } => sweep_text(alloc, reading, *limit),
        HostOrder::Report => Ok(format!(in alloc; "at {reading}: report")?),
        HostOrder::Tenants => Ok(format!(in alloc; "at {reading}: tenants")?),
    }
}

fn sweep_text(alloc: Global, reading: u64, limit: u32) -> Answer {
    Ok(format!(in alloc; "at {reading}: sweep {limit}")?)
}

fn http_text(alloc: Global, reading: u64, bytes: &[u8]) -> Answer {
    let request = String::from_utf8_lossy(alloc, bytes)?;
    Ok(format!(in alloc; "at {reading}: {request}")?)
}

fn command_text(alloc: Global, reading: u64, command: &Command) -> Answer {
    let (what, tenant, name, secret) = match command {
        Command::TenantAdd { tenant, .. } => ("tenant-add", tenant.as_str(), "", ""),
        Command::Quota { tenant, .. } => ("quota", tenant.as_str(), "", ""),
        Command::TenantRemove {
            tenant,
            with_objects,
        } => (
            "tenant-remove",
            tenant.as_str(),
            if *with_objects { "with_objects" } else { "" },
            "",
        ),
        Command::KeyAdd {
            tenant,
            name,
            secret,
        } => ("key-add", tenant.as_str(), name.as_str(), secret.as_str()),
        Command::KeyRemove { tenant, name } => ("key-remove", tenant.as_str(), name.as_str(), ""),
        Command::Usage { tenant } => ("usage", tenant.as_str(), "", ""),
        Command::Keys { tenant } => ("keys", tenant.as_str(), "", ""),
    };
    Ok(format!(in alloc; "at {reading}: {what} {tenant} {name} {secret}")?)
}
