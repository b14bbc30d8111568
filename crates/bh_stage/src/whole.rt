//! When a request is whole.

ghost use Rattle.std.specs.Prelude.{◌≡◌, ◌≢◌, ◌≤◌, ◌+◌, ℕ, true, length};
ghost use Rattle.bh_stage.specs.Wholes.{Extends};

use bh_http::arriving::{Arriving, MAX_HEAD, search};
use bh_http::request::MAX_FIELDS;
use bh_types::limits::Limits;
use httparse::spans::EMPTY_HEADER_SPAN;

/// Which listener a connection came to: clients bring a request, operators a line.
#[derive(Clone, Copy, PartialEq, Eq)]
pub enum Door {
    Clients,
    Operators,
}

/// How many bytes a request has, by those that came of it.
#[derive(Clone, Copy, PartialEq, Eq)]
pub enum Extent {
    /// Its head or its line isn't there yet.
    NotYet,
    /// No bytes that follow can make it one that is accepted.
    Never,
    /// So many, head and body.
    Bytes(usize),
    /// More than can be counted.
    TooLong,
}

/// How many bytes a request has, at most, that is applied together with others: a head, and 64 KiB.
const MOST_JOINED: usize = 81_920;

/// Whether a request that is whole may be applied together with others: a client's, if it is short and
/// a put or a delete. The answers to these are short, too.
pub(crate) fn may_join(door: Door, bytes: &[u8]) -> bool
    ensures client { result ≡ true → door ≡ Door.Clients }
    ensures short { result ≡ true → length bytes.now ≤ 81920 }
{
    let writes = bytes.starts_with(b"PUT ") || bytes.starts_with(b"DELETE ");
    door == Door::Clients && bytes.len() <= MOST_JOINED && writes
}

/// How many bytes a request, or a line, has that begins with these.
pub fn extent_of(limits: &Limits, door: Door, bytes: &[u8]) -> Extent
    ensures { Extends limits.now door bytes.now result }
{
    match door {
        Door::Clients => request_extent(limits, bytes),
        Door::Operators => line_extent(limits, bytes),
    }
}

fn request_extent(limits: &Limits, bytes: &[u8]) -> Extent
    ensures { Extends limits.now Door.Clients bytes.now result }
{
    let mut headers = [EMPTY_HEADER_SPAN; MAX_FIELDS];
    match search(limits, bytes, &mut headers) {
        Arriving::Found(head) => head_and_body(head.spans.len, head.body_size),
        Arriving::Refused(_) => Extent::Never,
        Arriving::NotYet => {
            if bytes.len() < MAX_HEAD {
                Extent::NotYet
            } else {
                Extent::Never
            }
        }
    }
}

/// The extent of a head and a body of these sizes.
fn head_and_body(head: usize, body: u64) -> Extent
    ensures never { result ≢ Extent.Never }
    ensures bytes { (n : ℕ) → result ≡ Extent.Bytes n → n ≡ head + body }
{
    match (head as u64).checked_add(body) {
        Some(size) => Extent::Bytes(size as usize),
        None => Extent::TooLong,
    }
}

/// A line ends at a line feed, and has fewer bytes than a head may have.
fn line_extent(limits: &Limits, bytes: &[u8]) -> Extent
    ensures { Extends limits.now Door.Operators bytes.now result }
{
    if bytes.len() >= MAX_HEAD {
        Extent::Never
    } else if bytes.contains(&b'\n') {
        Extent::Bytes(bytes.len())
    } else {
        Extent::NotYet
    }
}
