//! Requests that are read whole before they are applied.

ghost use Rattle.std.specs.Prelude.{◌≡◌, ◌⊎◌, ◌≤◌, ◌++◌, ℕ, List, [], map, take, drop, length, false, None};
ghost use Rattle.std.specs.Prelude.{All, IfOk, IfErr, IfNone, IfSome, OnOk, vec_capacity};
ghost use Rattle.std.specs.Io.KnownBytes.{IsAtEnd};
ghost use Rattle.bh_event.specs.Events as messages;
ghost use Rattle.bh_http.specs.Bodies as bodies;
ghost use Rattle.bh_http.specs.Transfers.{Gives};
ghost use Rattle.bh_link.specs.Taking.{Took, TookAtMost, is_fault};
ghost use Rattle.bh_connection.specs.Each.{IsGoing, ends};
ghost use Rattle.bh_connection.specs.Together.{IsAnswerable, IsTaken, IsUntaken, IsFirstUntaken, AllTaken};

use crate::each::Arrival;
use bh_event::event::{Event, Message};
use bh_http::body::{Body, Break, PIECE};
use bh_http::request::MAX_FIELDS;
use bh_link::ends::{Sink, Source};
use bh_link::link::Link;
use bh_link::request::{TakeError, take_head};
use bh_types::limits::Limits;
use httparse::spans::EMPTY_HEADER_SPAN;
use std::alloc::Global;

/// Reads the requests of clients' connections, up to the first that can't be read whole, and appends
/// them where there is room. Returns why that one can't be.
pub(crate) fn take_all<R: Source, W: Sink>(
    alloc: Global,
    limits: &Limits,
    arrivals: &mut [Arrival<R, W>],
    events: &mut Vec<Event>,
) -> Option<TakeError>
    requires going { All IsGoing arrivals.old }
    requires answerable { All IsAnswerable arrivals.old }
    requires empty { events.old.items ≡ [] }
    requires room { length arrivals.old ≤ vec_capacity events.old }
    ensures taken { AllTaken limits.now
        (map (ends R.remaining R.transfers W.contents W.transfers) (take (length events.new.items) arrivals.old))
        (map (ends R.remaining R.transfers W.contents W.transfers) (take (length events.new.items) arrivals.new))
        (map messages.arrival events.new.items) }
    ensures whole { IfNone result (length events.new.items ≡ length arrivals.old) }
    ensures untaken { IfSome result (λ error. IsFirstUntaken limits.now (ends R.remaining R.transfers W.contents W.transfers) error
        (drop (length events.new.items) arrivals.old) (drop (length events.new.items) arrivals.new)) }
    ensures answerable { All IsAnswerable arrivals.new }
    ensures same { length arrivals.new ≡ length arrivals.old }
    ensures within { length events.new.items ≤ length arrivals.old }
{
    for index in 0..arrivals.len() {
        match take_event(alloc, limits, &mut arrivals[index]) {
            Ok(event) => events.push_reserved(event),
            Err(error) => return Some(error),
        }
    }
    None
}

/// Reads a client's request whole.
fn take_event<R: Source, W: Sink>(
    alloc: Global,
    limits: &Limits,
    arrival: &mut Arrival<R, W>,
) -> Result<Event, TakeError>
    requires going { IsGoing arrival.old }
    ensures taken { IfOk result (λ event. IsTaken limits.now
        (ends R.remaining R.transfers W.contents W.transfers arrival.old)
        (ends R.remaining R.transfers W.contents W.transfers arrival.new) (messages.arrival event)) }
    ensures untaken { IfErr result (λ error. IsUntaken limits.now error
        (ends R.remaining R.transfers W.contents W.transfers arrival.old)
        (ends R.remaining R.transfers W.contents W.transfers arrival.new)) }
    ensures answerable { IsAnswerable arrival.old → IsAnswerable arrival.new }
{
    let reading = arrival.reading;
    match take_whole(alloc, limits, &mut arrival.reader) {
        Ok(bytes) => Ok(Event {
            reading,
            message: Message::Request(bytes),
        }),
        Err(error) => Err(error),
    }
}

/// Reads the bytes of a request: its head, and as much as comes of the body that it announces. No
/// byte after them is read.
fn take_whole<R: Source>(
    alloc: Global,
    limits: &Limits,
    reader: &mut Link<R>,
) -> Result<Vec<u8>, TakeError>
    requires { reader.old.failed ≡ false }
    ensures took { IfOk result (λ bytes. Took limits.now (R.remaining reader.old.inner) (R.remaining reader.new.inner) bytes.items) }
    ensures gave { IfOk result (λ bytes. Gives (R.transfers reader.old.inner) (R.transfers reader.new.inner) bytes.items false) }
    ensures going { OnOk result (reader.new.failed ≡ false) }
    ensures within { IfErr result (λ _. (taken : List ℕ)
        × TookAtMost limits.now (R.remaining reader.old.inner) (R.remaining reader.new.inner) taken
        × Gives (R.transfers reader.old.inner) (R.transfers reader.new.inner) taken reader.new.failed) }
    ensures failed { IfErr result (λ e. reader.new.failed ≡ is_fault e) }
{
    let mut headers = [EMPTY_HEADER_SPAN; MAX_FIELDS];
    let opening = take_head(alloc, limits, &mut headers, reader)?;
    let mut bytes = opening.bytes;
    match opening.head {
        Ok(head) => {
            reader.announce(head.body_size);
            take_body(reader, &mut bytes)?;
            Ok(bytes)
        }
        Err(_) => Ok(bytes),
    }
}

/// Appends the bytes of a body, until all of them came or no more do.
fn take_body<B: Body>(body: &mut B, bytes: &mut Vec<u8>) -> Result<(), TakeError>
    requires going { (B.coming body.old).broken ≡ None }
    ensures came { (given : List ℕ) × bodies.Gives (B.coming body.old) (B.coming body.new) given
        × OnOk result (bytes.new.items ≡ bytes.old.items ++ given) }
    ensures enough { OnOk result (((B.coming body.new).due ≡ 0) ⊎ IsAtEnd (B.coming body.new).left) }
    ensures whole { OnOk result (bodies.is_fault (B.coming body.new).broken ≡ false) }
    ensures failed { IfErr result (λ e. bodies.is_fault (B.coming body.new).broken ≡ is_fault e) }
{
    let mut room = [0u8; PIECE];
    'taking: while body.due() > 0 {
        match body.next(&mut room) {
            Ok(count) => bytes.extend_from_slice(&room[..count])?,
            Err(Break::Ended) => return Ok(()),
            Err(Break::Failed) => return Err(TakeError::ReadFailed),
        }
    }
    Ok(())
}
