//! An event inside an open transaction.

ghost use Rattle.std.specs.Prelude.{◌≤◌, IfOk, OnOk};
ghost use Rattle.bh_event.specs.Events.{Requested, arrival};
ghost use Rattle.bh_http.specs.Reading.{completed};
ghost use Rattle.bh_http.specs.Views.{announced_view};
ghost use Rattle.bh_machine.specs.Machine.{RequestRead};
ghost use Rattle.bh_storage.specs.Calls.{Clean, Within, IsWorking, Stamps};
ghost use Rattle.bh_view.specs.View.{latest_of};
ghost use Rattle.bh_host.specs.Answers.{composed_in, told_in, IsOnlyGreatPlanned, IsPlanMeasured, IsSmall};
ghost use Rattle.bh_host.specs.Answers.{IsToldAsGreat, IsToldMeasured, IsToldSmall};
ghost use Rattle.bh_host.specs.Groups.{AppliedAt};
ghost use Rattle.bh_host.specs.Turns.{Acts, IsActDone, IsServed};

use crate::delivery::{Composed, Delivery, Replied, Served, replied_at};
use crate::event::serve_order;
use crate::receiving::serve as serve_received;
use crate::reply::unread_text;
use crate::storage::Storage;
use bh_event::event::{Event, Message};
use bh_http::body::WholeBody;
use bh_http::read::split_head;
use bh_http::request::Head;
use bh_operation::routes::Routes;
use bh_storage::error::Trouble;
use bh_types::moment::{LAST_READING, Moment};
use bh_types::refusal::Refusal;
use std::alloc::Global;

/// A request whose head was read; `rest` is what comes after it. A body with a wrong checksum fails
/// if bytes of it were stored.
fn serve_headed<H: Storage>(
    alloc: Global,
    routes: &Routes,
    host: &mut H,
    at: Moment,
    head: &Head,
    rest: &[u8],
) -> Result<Composed, Trouble>
    requires working { Clean H.IsIntact H.IsOpen host.old → IsWorking H.IsSoundStore (H.seen host.old) }
    requires early { Clean H.IsIntact H.IsOpen host.old → at ≤ latest_of (H.seen host.old).now }
    ensures within { Within H.IsIntact H.IsOpen H.seen H.left host.old host.new }
    ensures opens { OnOk result (H.IsOpen host.old → H.IsIntact host.new → H.IsOpen host.new) }
    ensures working { OnOk result (Clean H.IsIntact H.IsOpen host.new → IsWorking H.IsSoundStore (H.seen host.new)) }
    ensures turned { IfOk result (λ composed. Clean H.IsIntact H.IsOpen host.new
        → IsActDone (H.seen host.old).limits (RequestRead (completed (announced_view head.now) rest.now)) at
        (H.seen host.old).now (H.seen host.new).now (composed_in (H.seen host.new).now composed)) }
    ensures great { IfOk result IsOnlyGreatPlanned }
    ensures small { IfOk result IsSmall }
    ensures measured { IfOk result (λ composed. Clean H.IsIntact H.IsOpen host.new
        → IsPlanMeasured (H.seen host.new).now composed) }
{
    if head.body_size > rest.len() as u64 {
        let text = unread_text(alloc, routes, Refusal::IncompleteBody)?;
        return Ok(Composed::Whole(text));
    }
    let mut body = WholeBody::new(&rest[..head.body_size as usize]);
    let delivery = Delivery::InPieces;
    match serve_received(alloc, routes, host, at, head, &mut body, delivery)? {
        Served::Kept(composed) => Ok(composed),
        Served::TakenBack(_, _) => Err(Trouble::Body),
    }
}

/// A request, which is parsed with the host's limits.
fn serve_request<H: Storage>(
    alloc: Global,
    routes: &Routes,
    host: &mut H,
    at: Moment,
    bytes: &[u8],
) -> Result<Composed, Trouble>
    requires working { Clean H.IsIntact H.IsOpen host.old → IsWorking H.IsSoundStore (H.seen host.old) }
    requires early { Clean H.IsIntact H.IsOpen host.old → at ≤ latest_of (H.seen host.old).now }
    ensures within { Within H.IsIntact H.IsOpen H.seen H.left host.old host.new }
    ensures opens { OnOk result (H.IsOpen host.old → H.IsIntact host.new → H.IsOpen host.new) }
    ensures working { OnOk result (Clean H.IsIntact H.IsOpen host.new → IsWorking H.IsSoundStore (H.seen host.new)) }
    ensures turned { IfOk result (λ composed. Clean H.IsIntact H.IsOpen host.new
        → Acts (H.seen host.old).limits (Requested bytes.now) at
        (H.seen host.old).now (H.seen host.new).now (composed_in (H.seen host.new).now composed)) }
    ensures great { IfOk result IsOnlyGreatPlanned }
    ensures small { IfOk result IsSmall }
    ensures measured { IfOk result (λ composed. Clean H.IsIntact H.IsOpen host.new
        → IsPlanMeasured (H.seen host.new).now composed) }
{
    match split_head(bytes, &host.limits()) {
        Ok((head, rest)) => serve_headed(alloc, routes, host, at, &head, rest),
        Err(refusal) => Ok(Composed::Whole(unread_text(alloc, routes, refusal)?)),
    }
}

/// The answer to an event at its stamp.
fn serve_event<H: Storage>(
    alloc: Global,
    routes: &Routes,
    host: &mut H,
    event: &Event,
    at: Moment,
) -> Result<Composed, Trouble>
    requires working { Clean H.IsIntact H.IsOpen host.old → IsWorking H.IsSoundStore (H.seen host.old) }
    requires early { Clean H.IsIntact H.IsOpen host.old → at ≤ latest_of (H.seen host.old).now }
    ensures within { Within H.IsIntact H.IsOpen H.seen H.left host.old host.new }
    ensures opens { OnOk result (H.IsOpen host.old → H.IsIntact host.new → H.IsOpen host.new) }
    ensures working { OnOk result (Clean H.IsIntact H.IsOpen host.new → IsWorking H.IsSoundStore (H.seen host.new)) }
    ensures turned { IfOk result (λ composed. Clean H.IsIntact H.IsOpen host.new
        → IsServed (H.seen host.old).limits (arrival event.now).message at
        (H.seen host.old).now (H.seen host.new).now (composed_in (H.seen host.new).now composed)) }
    ensures great { IfOk result IsOnlyGreatPlanned }
    ensures small { IfOk result IsSmall }
    ensures measured { IfOk result (λ composed. Clean H.IsIntact H.IsOpen host.new
        → IsPlanMeasured (H.seen host.new).now composed) }
{
    match &event.message {
        Message::Request(bytes) => serve_request(alloc, routes, host, at, bytes),
        Message::Order(order) => Ok(Composed::Whole(serve_order(alloc, host, order, at)?)),
    }
}

/// Writes an event's stamp. Fails at a reading out of range, or if the store does.
fn stamp_event<H: Storage>(host: &mut H, event: &Event) -> Result<Moment, Trouble>
    requires working { Clean H.IsIntact H.IsOpen host.old → IsWorking H.IsSoundStore (H.seen host.old) }
    ensures within { Within H.IsIntact H.IsOpen H.seen H.left host.old host.new }
    ensures opens { OnOk result (H.IsOpen host.old → H.IsIntact host.new → H.IsOpen host.new) }
    ensures working { OnOk result (Clean H.IsIntact H.IsOpen host.new → IsWorking H.IsSoundStore (H.seen host.new)) }
    ensures stamps { IfOk result (λ m. Clean H.IsIntact H.IsOpen host.new
        → Stamps (arrival event.now).reading m (H.seen host.old).now (H.seen host.new).now) }
{
    if event.reading > LAST_READING {
        return Err(Trouble::Store);
    }
    host.stamp(event.reading)
}

/// Applies one event in an open transaction: it gets a stamp of its own. Fails if memory or the
/// store does, at a reading out of range, and if bytes with a wrong checksum were stored: then the
/// transaction has to be rolled back.
pub fn apply_within<H: Storage>(
    alloc: Global,
    routes: &Routes,
    host: &mut H,
    event: &Event,
) -> Result<Replied, Trouble>
    requires working { Clean H.IsIntact H.IsOpen host.old → IsWorking H.IsSoundStore (H.seen host.old) }
    ensures within { Within H.IsIntact H.IsOpen H.seen H.left host.old host.new }
    ensures opens { OnOk result (H.IsOpen host.old → H.IsIntact host.new → H.IsOpen host.new) }
    ensures working { OnOk result (Clean H.IsIntact H.IsOpen host.new → IsWorking H.IsSoundStore (H.seen host.new)) }
    ensures applied { IfOk result (λ replied. Clean H.IsIntact H.IsOpen host.new → AppliedAt (arrival event.now)
        (H.seen host.old).now (H.seen host.new).now (told_in (H.seen host.new).now replied)) }
    ensures great { IfOk result IsToldAsGreat }
    ensures small { IfOk result IsToldSmall }
    ensures measured { IfOk result (λ replied. Clean H.IsIntact H.IsOpen host.new
        → IsToldMeasured (H.seen host.new).now replied) }
{
    let stamp = stamp_event(host, event)?;
    let composed = serve_event(alloc, routes, host, event, stamp)?;
    Ok(replied_at(stamp, composed))
}
