//! The result of a row's call.

use crate::answer::{Answer, Fault};
use crate::{documents, operations, requests};
use std::alloc::Global;

fn text_answer(alloc: Global, call: &str, input: &[u8]) -> Answer {
    match str::from_utf8(input) {
        Ok(text) => operations::answer(alloc, call, text),
        Err(_) => Err(Fault::Form),
    }
}

/// The result of a call for an input. Calls that take bytes are looked up first, then those that
/// take text.
pub fn answer(alloc: Global, call: &str, input: &[u8]) -> Answer {
    match requests::answer(alloc, call, input) {
        Err(Fault::Form) => {}
        answer => return answer,
    }
    match documents::answer(alloc, call, input) {
        Err(Fault::Form) => text_answer(alloc, call, input),
        answer => answer,
    }
}
