//! Moments, and checksums that are read.

use crate::answer::{Answer, Fault, text};
use crate::words::number;
use bh_types::checksum::read_checksum;
use bh_types::moment::{Moment, abort_moment, moment_text};
use std::alloc::Global;

pub fn answer(alloc: Global, call: &str, input: &str) -> Answer {
    match call {
        "moment" => moment_or_none(alloc, Moment::new(number(input)?)),
        "reading" => moment_or_none(alloc, Moment::from_reading(number(input)?)),
        "abort-moment" => abort(alloc, input),
        "read-checksum" => checksum(alloc, input),
        "length" => Ok(input.len().to_string(alloc)?),
        _ => Err(Fault::Form),
    }
}

fn moment_or_none(alloc: Global, moment: Option<Moment>) -> Answer {
    match moment {
        Some(moment) => Ok(moment_text(alloc, moment)?),
        None => text(alloc, "none"),
    }
}

/// When an upload that began at a reading becomes stale under a rule of some days.
fn abort(alloc: Global, input: &str) -> Answer {
    let (begun, days) = input.split_once(' ').ok_or(Fault::Form)?;
    let begun = Moment::from_reading(number(begun)?).ok_or(Fault::Form)?;
    let days = number(days)?;
    if days < 1 || 3650 < days {
        return Err(Fault::Form);
    }
    Ok(moment_text(alloc, abort_moment(begun, days as u16))?)
}

/// The digest of a checksum's text, in hexadecimal digits.
fn checksum(alloc: Global, input: &str) -> Answer {
    match read_checksum(alloc, input)? {
        Some(digest) => Ok(hex::encode(alloc, digest.as_slice())?),
        None => text(alloc, "none"),
    }
}
