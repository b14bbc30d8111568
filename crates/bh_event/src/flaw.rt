ghost use Rattle.std.specs.Prelude.{◌≡◌, IfOk};
ghost use Rattle.serde_json.specs.View.{view};
ghost use Rattle.bh_event.specs.Flaws as spec;

use crate::line::{has_members, number_at, text_at};
use crate::name::is_event_word;
use serde_json::Value;
use std::alloc::{AllocError, Global};

/// Why a script's line is not an event.
#[derive(Clone, Copy)]
pub enum Flaw {
    NotUtf8,
    NotJson,
    NotAnObject,
    NoReading,
    NoContent,
    OtherMembers,
    OddDigits,
    UnknownCommand,
    WrongMembers,
}

impl Flaw {
    /// The reason as a text, for the author of the line.
    pub fn text(self) -> &'static str {
        match self {
            Flaw::NotUtf8 => "it is not UTF-8",
            Flaw::NotJson => "it is not JSON",
            Flaw::NotAnObject => "it is not a JSON object",
            Flaw::NoReading =>
                "`at` is missing, or is not an integer from 0 to 18446744073709551615",
            Flaw::NoContent => "it has no string `http`, `hex` or `op`",
            Flaw::OtherMembers => "it has members other than `at` and the request",
            Flaw::OddDigits => "`hex` is not an even number of hexadecimal digits",
            Flaw::UnknownCommand => {
                "`op` must be one of tenant-add, quota, tenant-remove, key-add, key-remove, usage, keys, sweep, report, tenants"
            }
            Flaw::WrongMembers => {
                "the command's members are missing, of the wrong type, out of range, or too many"
            }
        }
    }
}

/// Why a line is not an event: its first flaw. Meant for lines for which `read_line` returns `None`.
pub fn flaw_of(alloc: Global, line: &[u8]) -> Result<Flaw, AllocError>
    ensures { IfOk result (λ flaw. flaw ≡ spec.flaw_of line.now) }
{
    let Ok(text) = str::from_utf8(line) else {
        return Ok(Flaw::NotUtf8);
    };
    match Value::from_str(alloc, text) {
        Ok(document) => Ok(flaw_in(&document)),
        Err(error) if error.is_memory() => Err(AllocError),
        Err(_) => Ok(Flaw::NotJson),
    }
}

fn flaw_in(document: &Value) -> Flaw
    ensures { result ≡ spec.flaw_in (view document.now) }
{
    if document.as_object().is_none() {
        return Flaw::NotAnObject;
    }
    if number_at(document, "at").is_none() {
        return Flaw::NoReading;
    }
    match text_at(document, "op") {
        Some(op) => flaw_of_command(op),
        None => flaw_of_request(document),
    }
}

#[tactic(auto, unfolding(crate::specs::Flaws::flaw_of_command))]
fn flaw_of_command(op: &str) -> Flaw
    ensures { result ≡ spec.flaw_of_command op.now }
{
    if is_event_word(op) {
        Flaw::WrongMembers
    } else {
        Flaw::UnknownCommand
    }
}

fn flaw_of_request(document: &Value) -> Flaw
    ensures { result ≡ spec.flaw_of_request (view document.now) }
{
    let has_http = text_at(document, "http").is_some();
    let has_hex = text_at(document, "hex").is_some();
    if !has_http && !has_hex {
        Flaw::NoContent
    } else if has_members(document, 2) {
        Flaw::OddDigits
    } else {
        Flaw::OtherMembers
    }
}
