ghost use Rattle.std.specs.Prelude.{◌≡◌, ◌⊎◌, ◌<◌, ◌≤◌, Ok, Err, Some, None, is_some, IfOk, IfSome, IfNone, OnOk, OnErr};
ghost use Rattle.bh_event.specs.Events.{arrival, message_of, tenant_in};
ghost use Rattle.bh_event.specs.Orders.{arrival_at};
ghost use Rattle.bh_model.specs.Runs.{last_reading};
ghost use Rattle.bh_types.specs.AccessKeys.{tenant_named};
ghost use Rattle.bh_storage.specs.Calls.{Clean, Within, LeavesSound, IsAtRest, IsWorking};
ghost use Rattle.bh_tables.specs.Typed.{Tables};
ghost use Rattle.bh_http.specs.Reading.{completed};
ghost use Rattle.bh_http.specs.Views.{announced_view};
ghost use Rattle.bh_host.specs.Answers.{told_in, is_wanting, IsNoted, IsToldNoted, IsToldWanting};
ghost use Rattle.bh_host.specs.Answers.{IsToldWhole, IsToldAsGreat, IsSmallReply, IsToldSmall, IsToldMeasured};
ghost use Rattle.bh_host.specs.Receives.{ToldOf};
ghost use Rattle.bh_host.specs.Replies.{clock_text, reply_bytes, reply_trouble};
ghost use Rattle.bh_host.specs.Replies as reply;
ghost use Rattle.bh_host.specs.Resting.{StaysAtRest};
ghost use Rattle.bh_host.specs.Turns.{owner_in, IsServed, IsToldApart, WouldApply, AppliedTo, Happened, request_at};
ghost use Rattle.bh_host.specs.declared.delivery.Delivery.TheVariants.{AtOnce, InPieces};

use crate::delivery::{Delivery, Replied};
use crate::receiving::{receive, refuse_unread, wanting};
use crate::reply::{Caller, Reply, order_text, refusal_line};
use crate::storage::Storage;
use bh_event::event::{Event, Message};
use bh_event::order::HostOrder;
use bh_http::body::WholeBody;
use bh_http::read::split_head;
use bh_http::request::Head;
use bh_operation::routes::Routes;
use bh_storage::error::Trouble;
use bh_types::moment::{LAST_READING, Moment};
use bh_types::names::TenantName;
use bh_types::refusal::Refusal;
use std::alloc::{AllocError, Global};

/// The reply to an event and its stamp: the moment at which the event counts, or `None` if nothing
/// changed.
#[derive(Drop)]
pub struct Told {
    pub stamp: Option<Moment>,
    pub reply: Reply,
}

/// The tenant of this name, if the name is valid.
fn tenant_of(alloc: Global, name: &str) -> Result<Option<TenantName>, AllocError>
    ensures { IfOk result (λ tenant. tenant ≡ tenant_named name.now) }
{
    TenantName::read(alloc, name)
}

/// An order on a tenant, which may not exist. Its stale uploads are removed first.
fn serve_named<H: Storage>(
    alloc: Global,
    host: &mut H,
    tenant: &TenantName,
    order: &HostOrder,
    at: Moment,
) -> Result<Vec<u8>, Trouble>
    requires named { owner_in (message_of order.now) ≡ Some tenant.now }
    requires working { Clean H.IsIntact H.IsOpen host.old → IsWorking H.IsSoundStore (H.seen host.old) }
    ensures within { Within H.IsIntact H.IsOpen H.seen H.left host.old host.new }
    ensures opens { OnOk result (H.IsOpen host.old → H.IsIntact host.new → H.IsOpen host.new) }
    ensures working { OnOk result (Clean H.IsIntact H.IsOpen host.new → IsWorking H.IsSoundStore (H.seen host.new)) }
    ensures turned { IfOk result (λ bytes. Clean H.IsIntact H.IsOpen host.new
        → IsServed (H.seen host.old).limits (message_of order.now) at (H.seen host.old).now (H.seen host.new).now bytes.items) }
{
    host.purge(alloc, tenant, at)?;
    let outcome = host.order(alloc, at, order);
    order_text(alloc, outcome)
}

/// An order on all tenants together.
fn serve_shared<H: Storage>(
    alloc: Global,
    host: &mut H,
    order: &HostOrder,
    at: Moment,
) -> Result<Vec<u8>, Trouble>
    requires shared { tenant_in (message_of order.now) ≡ None }
    requires working { Clean H.IsIntact H.IsOpen host.old → IsWorking H.IsSoundStore (H.seen host.old) }
    ensures within { Within H.IsIntact H.IsOpen H.seen H.left host.old host.new }
    ensures opens { OnOk result (H.IsOpen host.old → H.IsIntact host.new → H.IsOpen host.new) }
    ensures working { OnOk result (Clean H.IsIntact H.IsOpen host.new → IsWorking H.IsSoundStore (H.seen host.new)) }
    ensures turned { IfOk result (λ bytes. Clean H.IsIntact H.IsOpen host.new
        → IsServed (H.seen host.old).limits (message_of order.now) at (H.seen host.old).now (H.seen host.new).now bytes.items) }
{
    let outcome = host.order(alloc, at, order);
    order_text(alloc, outcome)
}

/// The reply to an order at its stamp. An order on a tenant whose name isn't valid is refused.
pub(crate) fn serve_order<H: Storage>(
    alloc: Global,
    host: &mut H,
    order: &HostOrder,
    at: Moment,
) -> Result<Vec<u8>, Trouble>
    requires working { Clean H.IsIntact H.IsOpen host.old → IsWorking H.IsSoundStore (H.seen host.old) }
    ensures within { Within H.IsIntact H.IsOpen H.seen H.left host.old host.new }
    ensures opens { OnOk result (H.IsOpen host.old → H.IsIntact host.new → H.IsOpen host.new) }
    ensures working { OnOk result (Clean H.IsIntact H.IsOpen host.new → IsWorking H.IsSoundStore (H.seen host.new)) }
    ensures turned { IfOk result (λ bytes. Clean H.IsIntact H.IsOpen host.new
        → IsServed (H.seen host.old).limits (message_of order.now) at (H.seen host.old).now (H.seen host.new).now bytes.items) }
{
    let Some(name) = order.tenant() else {
        return serve_shared(alloc, host, order, at);
    };
    match tenant_of(alloc, name)? {
        Some(tenant) => serve_named(alloc, host, &tenant, order, at),
        None => Ok(refusal_line(alloc, Refusal::InvalidName)?.into_bytes()),
    }
}

/// An order in a transaction: its stamp and its reply. If this fails, the transaction may still be
/// open.
fn try_apply<H: Storage>(
    alloc: Global,
    host: &mut H,
    reading: u64,
    order: &HostOrder,
) -> Result<(Moment, Vec<u8>), Trouble>
    requires in_range { reading ≤ last_reading }
    requires rest { Clean H.IsIntact H.IsOpen host.old → IsAtRest H.IsSoundStore (H.seen host.old) }
    ensures intact { H.IsIntact host.new → H.IsIntact host.old }
    ensures opened { H.IsIntact host.new → H.IsOpen host.new → H.IsOpen host.old }
    ensures limits { (H.seen host.new).limits ≡ (H.seen host.old).limits }
    ensures ready { OnOk result (Clean H.IsIntact H.IsOpen host.new → IsAtRest H.IsSoundStore (H.seen host.new)) }
    ensures applied { IfOk result (λ done. H.IsIntact host.new
        → AppliedTo H.IsOpen H.seen (arrival_at reading (message_of order.now)) host.old host.new (Some done.0) done.1.items) }
    ensures survives { OnOk result (H.IsIntact host.new → (x : Tables) → H.left host.new x → x ≡ (H.seen host.new).now) }
    ensures crash { OnErr result (H.IsIntact host.new → (x : Tables) → H.left host.new x
        → H.left host.old x ⊎ (H.IsOpen host.old × WouldApply (arrival_at reading (message_of order.now)) (H.seen host.old).now x)) }
    ensures leaves { H.IsIntact host.new → LeavesSound H.IsSoundStore H.left host.old host.new }
    ensures kept { OnErr result (Clean H.IsIntact H.IsOpen host.new → (H.seen host.new).kept ≡ (H.seen host.old).kept) }
{
    host.begin()?;
    let stamp = host.stamp(reading)?;
    let bytes = serve_order(alloc, host, order, stamp)?;
    host.commit()?;
    Ok((stamp, bytes))
}

/// Who sent an event.
fn caller_of(event: &Event) -> Caller
    ensures { result ≡ reply.caller_of (arrival event.now).message }
{
    match &event.message {
        Message::Request(_) => Caller::Request,
        Message::Order(_) => Caller::Operator,
    }
}

/// Applies an order in one transaction.
fn apply_order<H: Storage>(alloc: Global, host: &mut H, reading: u64, order: &HostOrder) -> Told
    requires in_range { reading ≤ last_reading }
    requires rest { Clean H.IsIntact H.IsOpen host.old → IsAtRest H.IsSoundStore (H.seen host.old) }
    ensures stays { StaysAtRest H.IsIntact H.IsOpen H.IsSoundStore H.seen H.left host.old host.new }
    ensures applied { H.IsIntact host.new
        → AppliedTo H.IsOpen H.seen (arrival_at reading (message_of order.now)) host.old host.new result.stamp (reply_bytes result.reply) }
    ensures told_apart { H.IsIntact host.new
        → IsToldApart (arrival_at reading (message_of order.now)) result.stamp (reply_bytes result.reply) }
    ensures acknowledged { IfSome result.stamp (λ _. H.IsIntact host.new
        → (x : Tables) → H.left host.new x → x ≡ (H.seen host.new).now) }
    ensures crash { IfNone result.stamp (H.IsIntact host.new → (x : Tables) → H.left host.new x
        → H.left host.old x ⊎ (H.IsOpen host.old × WouldApply (arrival_at reading (message_of order.now)) (H.seen host.old).now x)) }
    ensures small { IsSmallReply result.reply }
    ensures noted { IsNoted result }
{
    match try_apply(alloc, host, reading, order) {
        Ok((stamp, bytes)) => Told {
            stamp: Some(stamp),
            reply: Reply::Text(bytes),
        },
        Err(trouble) => {
            host.take_back();
            Told {
                stamp: None,
                reply: Reply::Wanting(Caller::Operator, trouble),
            }
        }
    }
}

/// Applies a request whose head was read; `rest` is what comes after it.
fn apply_headed<H: Storage>(
    alloc: Global,
    routes: &Routes,
    host: &mut H,
    reading: u64,
    head: &Head,
    rest: &[u8],
    delivery: Delivery,
) -> Replied
    requires in_range { reading ≤ last_reading }
    requires rest { Clean H.IsIntact H.IsOpen host.old → IsAtRest H.IsSoundStore (H.seen host.old) }
    ensures stays { StaysAtRest H.IsIntact H.IsOpen H.IsSoundStore H.seen H.left host.old host.new }
    ensures told { ToldOf H.IsIntact H.IsOpen H.seen H.left reading (completed (announced_view head.now) rest.now)
        host.old host.new (told_in (H.seen host.new).now result) }
    ensures whole { delivery ≡ AtOnce → IsToldWhole result }
    ensures great { IsToldAsGreat result }
    ensures small { delivery ≡ InPieces → IsToldSmall result }
    ensures noted { IsToldNoted result }
    ensures measured { Clean H.IsIntact H.IsOpen host.new → IsToldMeasured (H.seen host.new).now result }
{
    if head.body_size > rest.len() as u64 {
        let refusal = Refusal::IncompleteBody;
        return Replied::Told(refuse_unread(alloc, routes, host, reading, refusal));
    }
    let mut body = WholeBody::new(&rest[..head.body_size as usize]);
    match receive(alloc, routes, host, reading, head, &mut body, delivery) {
        Some(replied) => replied,
        // The reader of a body in memory can't fail.
        None => Replied::Told(wanting(Trouble::Body)),
    }
}

/// Applies a request, which is parsed with the host's limits.
fn apply_request<H: Storage>(
    alloc: Global,
    routes: &Routes,
    host: &mut H,
    reading: u64,
    bytes: &[u8],
    delivery: Delivery,
) -> Replied
    requires in_range { reading ≤ last_reading }
    requires rest { Clean H.IsIntact H.IsOpen host.old → IsAtRest H.IsSoundStore (H.seen host.old) }
    ensures stays { StaysAtRest H.IsIntact H.IsOpen H.IsSoundStore H.seen H.left host.old host.new }
    ensures happened { Happened H.IsIntact H.IsOpen H.seen H.left (request_at reading bytes.now) host.old host.new
        (told_in (H.seen host.new).now result).0 (told_in (H.seen host.new).now result).1 }
    ensures whole { delivery ≡ AtOnce → IsToldWhole result }
    ensures great { IsToldAsGreat result }
    ensures small { delivery ≡ InPieces → IsToldSmall result }
    ensures noted { IsToldNoted result }
    ensures measured { Clean H.IsIntact H.IsOpen host.new → IsToldMeasured (H.seen host.new).now result }
{
    match split_head(bytes, &host.limits()) {
        Ok((head, rest)) => apply_headed(alloc, routes, host, reading, &head, rest, delivery),
        Err(refusal) => Replied::Told(refuse_unread(alloc, routes, host, reading, refusal)),
    }
}

/// Applies one event in one transaction, and returns its reply as `delivery` says.
fn apply_with<H: Storage>(
    alloc: Global,
    routes: &Routes,
    host: &mut H,
    event: &Event,
    delivery: Delivery,
) -> Replied
    requires rest { Clean H.IsIntact H.IsOpen host.old → IsAtRest H.IsSoundStore (H.seen host.old) }
    ensures stays { StaysAtRest H.IsIntact H.IsOpen H.IsSoundStore H.seen H.left host.old host.new }
    ensures happened { Happened H.IsIntact H.IsOpen H.seen H.left (arrival event.now) host.old host.new
        (told_in (H.seen host.new).now result).0 (told_in (H.seen host.new).now result).1 }
    ensures clock { last_reading < (arrival event.now).reading → (host.new ≡ host.old)
        × (told_in (H.seen host.new).now result ≡ (None, clock_text (reply.caller_of (arrival event.now).message))) }
    ensures whole { delivery ≡ AtOnce → IsToldWhole result }
    ensures great { IsToldAsGreat result }
    ensures small { delivery ≡ InPieces → IsToldSmall result }
    ensures noted { IsToldWanting (arrival event.now).reading result }
    ensures measured { Clean H.IsIntact H.IsOpen host.new → IsToldMeasured (H.seen host.new).now result }
{
    let reading = event.reading;
    if reading > LAST_READING {
        let reply = Reply::ClockOutOfRange(caller_of(event));
        return Replied::Told(Told { stamp: None, reply });
    }
    match &event.message {
        Message::Request(bytes) => apply_request(alloc, routes, host, reading, bytes, delivery),
        Message::Order(order) => Replied::Told(apply_order(alloc, host, reading, order)),
    }
}

/// Applies one event as `apply` does. An object above 65,536 bytes that it finds is still to be
/// read, from what was committed.
pub fn apply_in_pieces<H: Storage>(
    alloc: Global,
    routes: &Routes,
    host: &mut H,
    event: &Event,
) -> Replied
    requires rest { Clean H.IsIntact H.IsOpen host.old → IsAtRest H.IsSoundStore (H.seen host.old) }
    ensures stays { StaysAtRest H.IsIntact H.IsOpen H.IsSoundStore H.seen H.left host.old host.new }
    ensures happened { Happened H.IsIntact H.IsOpen H.seen H.left (arrival event.now) host.old host.new
        (told_in (H.seen host.new).now result).0 (told_in (H.seen host.new).now result).1 }
    ensures clock { last_reading < (arrival event.now).reading → (host.new ≡ host.old)
        × (told_in (H.seen host.new).now result ≡ (None, clock_text (reply.caller_of (arrival event.now).message))) }
    ensures great { IsToldAsGreat result }
    ensures small { IsToldSmall result }
    ensures noted { IsToldWanting (arrival event.now).reading result }
    ensures measured { Clean H.IsIntact H.IsOpen host.new → IsToldMeasured (H.seen host.new).now result }
{
    apply_with(alloc, routes, host, event, Delivery::InPieces)
}

/// Applies one event in one transaction and returns its reply. Requests are parsed with the host's
/// limits and routed by `routes`.
///
/// A reading above 250,000,000,000 seconds is answered ClockOutOfRange, which takes no memory. If
/// memory or the store fails, a request is answered ServiceUnavailable and an operator Unavailable.
/// In these cases there is no stamp, and no table changes. Otherwise the event counts at its stamp,
/// the greater of its reading and the last stamp. Its tenant is answered as by a private machine.
///
/// Sweeps, reports and lists of tenants belong to no tenant. A sweep removes stale uploads and
/// unreferenced blocks of all tenants, up to its limit. A report counts what is stored, and the
/// list names the tenants. Each tenant's answers stay those of its own machine.
///
/// The clauses on replies and on crashes hold even if the store fails. The clauses on tables hold
/// until a fault shuts the store.
pub fn apply<H: Storage>(alloc: Global, routes: &Routes, host: &mut H, event: &Event) -> Told
    requires { Clean H.IsIntact H.IsOpen host.old → IsAtRest H.IsSoundStore (H.seen host.old) }
    ensures stays { StaysAtRest H.IsIntact H.IsOpen H.IsSoundStore H.seen H.left host.old host.new }
    ensures applied { H.IsIntact host.new
        → AppliedTo H.IsOpen H.seen (arrival event.now) host.old host.new result.stamp (reply_bytes result.reply) }
    ensures told_apart { H.IsIntact host.new → IsToldApart (arrival event.now) result.stamp (reply_bytes result.reply) }
    ensures acknowledged { IfSome result.stamp (λ _. H.IsIntact host.new
        → (x : Tables) → H.left host.new x → x ≡ (H.seen host.new).now) }
    ensures crash { IfNone result.stamp (H.IsIntact host.new → (x : Tables) → H.left host.new x
        → H.left host.old x ⊎ (H.IsOpen host.old × WouldApply (arrival event.now) (H.seen host.old).now x)) }
    ensures clock { last_reading < (arrival event.now).reading
        → (result.stamp ≡ None) × (reply_bytes result.reply ≡ clock_text (reply.caller_of (arrival event.now).message))
        × (host.new ≡ host.old) }
    ensures noted { is_some (reply_trouble result.reply) ≡ is_wanting (arrival event.now).reading result.stamp }
{
    match apply_with(alloc, routes, host, event, Delivery::AtOnce) {
        Replied::Told(told) => told,
        // The object was already read.
        Replied::Planned(_) => wanting(Trouble::Store),
    }
}
