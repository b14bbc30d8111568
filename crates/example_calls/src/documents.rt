//! Documents of requests.

use crate::answer::{Answer, Fault, refused, text};
use crate::words::{number, state_text};
use bh_docs::{read_complete, read_lifecycle, read_versioning};
use bh_types::wanted::Named;
use std::alloc::{AllocError, Global};

/// The calls that take a request's document.
pub fn answer(alloc: Global, call: &str, input: &[u8]) -> Answer {
    match call {
        "read-versioning" => versioning_read(alloc, input),
        "read-lifecycle" => lifecycle_read(alloc, input),
        "read-complete" => complete_read(alloc, input),
        _ => Err(Fault::Form),
    }
}

fn versioning_read(alloc: Global, input: &[u8]) -> Answer {
    match read_versioning(alloc, input) {
        Ok(state) => text(alloc, state_text(state)),
        Err(error) => refused(alloc, error),
    }
}

fn lifecycle_read(alloc: Global, input: &[u8]) -> Answer {
    match read_lifecycle(alloc, input) {
        Ok(days) => Ok(days.to_string(alloc)?),
        Err(error) => refused(alloc, error),
    }
}

fn complete_read(alloc: Global, input: &[u8]) -> Answer {
    match read_complete(alloc, input) {
        Ok(names) => names_text(alloc, names.as_slice()),
        Err(error) => refused(alloc, error),
    }
}

/// Each part's number, and its checksum if it has one.
fn names_text(alloc: Global, names: &[Named]) -> Answer {
    let mut shown = String::new(alloc);
    for name in names {
        if !shown.is_empty() {
            shown.push_str(", ")?;
        }
        let text = name_text(alloc, name)?;
        shown.push_str(text.as_str())?;
    }
    Ok(shown)
}

fn name_text(alloc: Global, name: &Named) -> Result<String, AllocError> {
    let number = name.number;
    match &name.sum {
        Some(sum) => format!(in alloc; "{number} [{sum}]"),
        None => number.to_string(alloc),
    }
}

/// The document of the parts 1 to a number, and the text after them: how many are read, and the
/// last one's number.
pub fn many_parts(alloc: Global, input: &str) -> Answer {
    let (last, more) = input.split_once(' ').unwrap_or((input, ""));
    let body = many_parts_body(alloc, number(last)?, more)?;
    counted_parts(alloc, body.as_bytes())
}

fn counted_parts(alloc: Global, body: &[u8]) -> Answer {
    match read_complete(alloc, body) {
        Ok(names) => count_text(alloc, names.as_slice()),
        Err(error) => refused(alloc, error),
    }
}

fn many_parts_body(alloc: Global, last: u64, more: &str) -> Result<String, AllocError> {
    let mut body = String::from_str(alloc, "{\"Parts\":[{\"PartNumber\":1}")?;
    for number in 2..=last {
        push_part(alloc, &mut body, number)?;
    }
    body.push_str(more)?;
    body.push_str("]}")?;
    Ok(body)
}

fn push_part(alloc: Global, body: &mut String, number: u64) -> Result<(), AllocError> {
    let digits = number.to_string(alloc)?;
    body.push_str(",{\"PartNumber\":")?;
    body.push_str(digits.as_str())?;
    body.push_str("}")
}

fn count_text(alloc: Global, names: &[Named]) -> Answer {
    let count = names.len();
    let last = names.last().map_or(0, |name| name.number);
    Ok(format!(in alloc; "{count} parts, the last is {last}")?)
}
