//! The log's line for a connection. Of a request's fields, it has only the tenant of the access
//! key; of an operator's line, nothing.

use bh_host::Caller;
use bh_http::request::MAX_FIELDS;
use bh_storage::error::Trouble;
use bh_types::access_key::AccessKeyId;
use bh_types::moment::{Moment, moment_text};
use httparse::{EMPTY_HEADER, Header, Request, Response, Status};
use std::alloc::{AllocError, Global};

/// The maximum bytes that are logged of a method or a target.
const MOST: usize = 200;

/// More fields than a response has.
const RESPONSE_FIELDS: usize = 16;

/// What is logged of a connection when it is served, or when it ends before.
#[derive(Clone, Copy)]
pub(crate) struct Entry<'a> {
    /// Who connected.
    pub(crate) caller: Caller,
    /// The clock's reading, in seconds since 1970.
    pub(crate) reading: u64,
    /// The request's first bytes, at least its head.
    pub(crate) request: &'a [u8],
    /// The response's first bytes, at least its head; empty if the request wasn't served.
    pub(crate) response: &'a [u8],
}

/// What is logged of a connection once its answer went out.
#[derive(Drop)]
pub enum Note {
    /// The beginning of its line.
    Line {
        begun: String,
        /// The number of bytes received.
        taken: u64,
        /// The failure, if memory or the store failed.
        trouble: Option<Trouble>,
    },
    /// It isn't logged: it asked the server about itself.
    Nothing,
}

/// The beginning of the log's line: time (RFC 3339, UTC), tenant, method, target, status and refusal.
/// `-` is in place of a missing value, and `operator` in place of an operator's method.
pub(crate) fn note_of(
    alloc: Global,
    entry: &Entry<'_>,
    taken: u64,
    trouble: Option<Trouble>,
) -> Result<Note, AllocError> {
    let time = time_text(alloc, entry.reading)?;
    let asked = match entry.caller {
        Caller::Request => asked_text(alloc, entry.request)?,
        Caller::Operator => String::from_str(alloc, "- operator -")?,
    };
    let answered = match entry.caller {
        Caller::Request => answered_text(alloc, entry.response)?,
        Caller::Operator => replied_text(alloc, entry.response)?,
    };
    Ok(Note::Line {
        begun: format!(in alloc; "{time} {asked} {answered}")?,
        taken,
        trouble,
    })
}

/// The log's line, if there is one: its beginning, bytes received and sent, and milliseconds. If
/// memory or the store failed, the failure follows.
pub(crate) fn line_of(
    alloc: Global,
    note: &Note,
    sent: u64,
    took: u64,
) -> Result<Option<String>, AllocError> {
    let Note::Line {
        begun,
        taken,
        trouble,
    } = note
    else {
        return Ok(None);
    };
    let line = match trouble {
        Some(trouble) => format!(in alloc; "{begun} {taken} {sent} {took} {trouble}"),
        None => format!(in alloc; "{begun} {taken} {sent} {took}"),
    };
    Ok(Some(line?))
}

/// What is told of a clock.
#[derive(Clone, Copy)]
pub enum ClockNews {
    /// It is too far ahead.
    Leapt,
    /// It is no longer too far ahead.
    Back,
    /// An operator took its reading as right.
    Accepted,
}

/// What is told of a clock, at its reading, and what an operator may do.
pub(crate) fn clock_line(
    alloc: Global,
    reading: u64,
    news: ClockNews,
) -> Result<String, AllocError> {
    let time = time_text(alloc, reading)?;
    match news {
        ClockNews::Leapt => {
            format!(in alloc;
                "the clock leapt to {time}: requests are refused until it is back; if it is right, order clock-accept"
            )
        }
        ClockNews::Back => format!(in alloc; "the clock is back at {time}"),
        ClockNews::Accepted => format!(in alloc; "the clock is taken as right at {time}"),
    }
}

fn time_text(alloc: Global, reading: u64) -> Result<String, AllocError> {
    match Moment::new(reading) {
        Some(moment) => moment_text(alloc, moment),
        None => String::from_str(alloc, "-"),
    }
}

/// The tenant, the method and the target. If the bytes aren't a request line, nothing is logged,
/// since they may be a secret.
fn asked_text(alloc: Global, bytes: &[u8]) -> Result<String, AllocError> {
    let mut headers = [EMPTY_HEADER; MAX_FIELDS];
    let mut request = Request::new(&mut headers);
    let is_whole = matches!(request.parse(bytes), Ok(Status::Complete(_)));
    let tenant = if is_whole {
        tenant_text(alloc, request.headers)?
    } else {
        String::from_str(alloc, "-")?
    };
    let (method, target) = match (request.method, request.path) {
        (Some(method), Some(target)) => (method, target),
        _ => ("-", "-"),
    };
    let method = cut(method).escape_ascii();
    let target = cut(target).escape_ascii();
    format!(in alloc; "{tenant} {method} {target}")
}

/// The tenant of the only access key.
fn tenant_text(alloc: Global, headers: &[Header<'_>]) -> Result<String, AllocError> {
    if let Some(id) = only_value(headers, "x-access-key") {
        if let Some(key) = AccessKeyId::read(alloc, id)? {
            return String::from_str(alloc, key.tenant.as_str());
        }
    }
    String::from_str(alloc, "-")
}

/// The value of a field that occurs once.
fn only_value<'a>(headers: &[Header<'a>], name: &str) -> Option<&'a [u8]> {
    let mut found = None;
    for header in headers {
        if header.name.eq_ignore_ascii_case(name) {
            if found.is_some() {
                return None;
            }
            found = Some(header.value);
        }
    }
    found
}

/// The bytes of a text that are logged.
fn cut(text: &str) -> &[u8] {
    let bytes = text.as_bytes();
    bytes.get(..MOST).unwrap_or(bytes)
}

/// The status, and the refusal as its number and its code.
fn answered_text(alloc: Global, bytes: &[u8]) -> Result<String, AllocError> {
    let mut headers = [EMPTY_HEADER; RESPONSE_FIELDS];
    let mut response = Response::new(&mut headers);
    if !matches!(response.parse(bytes), Ok(Status::Complete(_))) {
        return String::from_str(alloc, "- -");
    }
    let status = response.code.unwrap_or(0);
    match only_value(response.headers, "x-refusal") {
        Some(refusal) => refused_text(alloc, status, refusal),
        None => format!(in alloc; "{status} -"),
    }
}

/// `-` and the refusal or `bad line`.
fn replied_text(alloc: Global, reply: &[u8]) -> Result<String, AllocError> {
    let line = reply.strip_suffix(b"\n").unwrap_or(reply);
    match line.first() {
        Some(b'0'..=b'9') => joined(String::from_str(alloc, "- ")?, line),
        _ if line == b"bad line".as_slice() => joined(String::from_str(alloc, "- ")?, line),
        _ => String::from_str(alloc, "- -"),
    }
}

/// A refusal's number and code, joined to one word.
fn refused_text(alloc: Global, status: u16, refusal: &[u8]) -> Result<String, AllocError> {
    joined(format!(in alloc; "{status} ")?, refusal)
}

/// A text, and words in one after it.
fn joined(start: String, words: &[u8]) -> Result<String, AllocError> {
    let mut text = start;
    for byte in words {
        let c = if *byte == b' ' {
            '_'
        } else {
            char::from(*byte)
        };
        text.push(c)?;
    }
    Ok(text)
}
