//! Clients' requests that are read first, applied in one transaction, and then answered.

ghost use Rattle.std.specs.Prelude.{◌≡◌, ◌≤◌, ◌<◌, ◌+◌, ◌++◌, ℕ, List, [], Some, true, length, map, take, drop, All, IfSome, vec_capacity};
ghost use Rattle.bh_event.specs.Events as messages;
ghost use Rattle.bh_host.specs.Answers.{told};
ghost use Rattle.bh_host.specs.Groups.{HasSmallReply, IsPlanOf, count_of, tolds_in};
ghost use Rattle.bh_host.specs.Resting.{StaysAtRest};
ghost use Rattle.bh_host.specs.Runs.{Told as ToldOf};
ghost use Rattle.bh_model.specs.Runs.{last_reading};
ghost use Rattle.bh_storage.specs.Calls.{Clean, IsAtRest};
ghost use Rattle.bh_storage.specs.Plans.{to_come};
ghost use Rattle.bh_connection.specs.Connections.{Ends};
ghost use Rattle.bh_connection.specs.Each.{IsGoing, ends};
ghost use Rattle.bh_connection.specs.Together.{IsAnswerable, IsFirstUntaken, IsTold, IsLeft, AllTaken, KeepsTables, HasTold, HasServedMore};

use crate::connection::{answer, broken_off, left_out};
use crate::each::{Arrival, serve_all};
use crate::sending::send_planned;
use crate::served::Served;
use crate::taking::take_all;
use bh_event::event::Event;
use bh_host::storage::Storage;
use bh_host::{Caller, Group, PlannedReply, Reply, Told, apply_together};
use bh_link::ends::{Sink, Source};
use bh_link::request::TakeError;
use bh_operation::routes::Routes;
use bh_storage::error::Trouble;
use bh_types::moment::LAST_READING;
use std::alloc::Global;

/// Serves clients' connections, and appends their results where there is room. All requests are read
/// first, and then applied in one transaction, so that one sync serves them all. The results are those
/// of [`serve_all`]: a request that can't be read, or an object above 65,536 bytes, ends a group, and
/// the next one begins after it.
///
/// Each request is kept in memory meanwhile. Without memory for the list of them each is served by
/// itself.
pub(crate) fn serve_together<H: Storage, R: Source, W: Sink>(
    alloc: Global,
    routes: &Routes,
    host: &mut H,
    arrivals: &mut [Arrival<R, W>],
    serveds: &mut Vec<Served>,
)
    requires rest { Clean H.IsIntact H.IsOpen host.old → IsAtRest H.IsSoundStore (H.seen host.old) }
    requires going { All IsGoing arrivals.old }
    requires room { length serveds.old.items + length arrivals.old ≤ vec_capacity serveds.old }
    ensures stays { StaysAtRest H.IsIntact H.IsOpen H.IsSoundStore H.seen H.left host.old host.new }
    ensures served { HasServedMore H.IsIntact H.IsOpen H.seen H.left
        (map (ends R.remaining R.transfers W.contents W.transfers) arrivals.old)
        (map (ends R.remaining R.transfers W.contents W.transfers) arrivals.new)
        serveds.old.items serveds.new.items host.old host.new }
    ensures same { length arrivals.new ≡ length arrivals.old }
    ensures count { length serveds.new.items ≡ length serveds.old.items + length arrivals.old }
{
    if !are_in_range(arrivals) {
        return serve_all(alloc, routes, host, arrivals, serveds);
    }
    match Vec::with_capacity(alloc, arrivals.len()) {
        Ok(events) => serve_in_groups(alloc, routes, host, arrivals, serveds, events),
        Err(_) => serve_all(alloc, routes, host, arrivals, serveds),
    }
}

/// Whether the clock's reading is in range at each of these.
fn are_in_range<R, W>(arrivals: &[Arrival<R, W>]) -> bool
    ensures { result ≡ true → All (λ a. a.reading ≤ last_reading) arrivals.now }
{
    arrivals
        .iter()
        .all(|arrival| arrival.reading <= LAST_READING)
}

/// Serves connections whose requests are read into `events`, up to the first that can't be. The
/// others are served one after another.
fn serve_in_groups<H: Storage, R: Source, W: Sink>(
    alloc: Global,
    routes: &Routes,
    host: &mut H,
    arrivals: &mut [Arrival<R, W>],
    serveds: &mut Vec<Served>,
    mut events: Vec<Event>,
)
    requires rest { Clean H.IsIntact H.IsOpen host.old → IsAtRest H.IsSoundStore (H.seen host.old) }
    requires going { All IsGoing arrivals.old }
    requires answerable { All IsAnswerable arrivals.old }
    requires empty { events.items ≡ [] }
    requires space { length arrivals.old ≤ vec_capacity events }
    requires room { length serveds.old.items + length arrivals.old ≤ vec_capacity serveds.old }
    ensures stays { StaysAtRest H.IsIntact H.IsOpen H.IsSoundStore H.seen H.left host.old host.new }
    ensures served { HasServedMore H.IsIntact H.IsOpen H.seen H.left
        (map (ends R.remaining R.transfers W.contents W.transfers) arrivals.old)
        (map (ends R.remaining R.transfers W.contents W.transfers) arrivals.new)
        serveds.old.items serveds.new.items host.old host.new }
    ensures same { length arrivals.new ≡ length arrivals.old }
    ensures count { length serveds.new.items ≡ length serveds.old.items + length arrivals.old }
{
    let failed = take_all(alloc, &host.limits(), arrivals, &mut events);
    let (taken, others) = arrivals.split_at_mut(events.len());
    answer_taken(alloc, routes, host, events.as_slice(), taken, serveds);
    if let Some(error) = failed {
        serve_others(alloc, routes, host, error, others, serveds);
    }
}

/// Ends the first of these connections, whose request couldn't be read whole, and serves the others.
fn serve_others<H: Storage, R: Source, W: Sink>(
    alloc: Global,
    routes: &Routes,
    host: &mut H,
    error: TakeError,
    arrivals: &mut [Arrival<R, W>],
    serveds: &mut Vec<Served>,
)
    requires rest { Clean H.IsIntact H.IsOpen host.old → IsAtRest H.IsSoundStore (H.seen host.old) }
    requires some { 0 < length arrivals.old }
    requires answerable { All IsAnswerable arrivals.old }
    requires going { All IsGoing (drop 1 arrivals.old) }
    requires room { length serveds.old.items + length arrivals.old ≤ vec_capacity serveds.old }
    ensures stays { StaysAtRest H.IsIntact H.IsOpen H.IsSoundStore H.seen H.left host.old host.new }
    ensures served { (befores : List (Arrival R W))
        → IsFirstUntaken (H.seen host.old).limits (ends R.remaining R.transfers W.contents W.transfers) error befores arrivals.old
        → HasServedMore H.IsIntact H.IsOpen H.seen H.left
        (map (ends R.remaining R.transfers W.contents W.transfers) befores)
        (map (ends R.remaining R.transfers W.contents W.transfers) arrivals.new)
        serveds.old.items serveds.new.items host.old host.new }
    ensures same { length arrivals.new ≡ length arrivals.old }
    ensures count { length serveds.new.items ≡ length serveds.old.items + length arrivals.old }
{
    let (first, others) = arrivals.split_at_mut(1);
    let served = leave(&mut first[0], error);
    serveds.push_reserved(served);
    serve_all(alloc, routes, host, others, serveds);
}

/// Ends a connection whose request wasn't read whole: if memory ran out, it is told so.
fn leave<R: Source, W: Sink>(arrival: &mut Arrival<R, W>, error: TakeError) -> Served
    requires answerable { IsAnswerable arrival.old }
    ensures left { IsLeft error
        (ends R.remaining R.transfers W.contents W.transfers arrival.old)
        (ends R.remaining R.transfers W.contents W.transfers arrival.new) result }
{
    match error {
        TakeError::ReadFailed => broken_off(),
        TakeError::OutOfMemory => {
            let wanting = left_out(Reply::Wanting(Caller::Request, Trouble::Memory));
            tell(arrival, &wanting)
        }
    }
}

/// Applies requests that were read, as many in one transaction as may be, and answers each.
fn answer_taken<H: Storage, R: Source, W: Sink>(
    alloc: Global,
    routes: &Routes,
    host: &mut H,
    events: &[Event],
    arrivals: &mut [Arrival<R, W>],
    serveds: &mut Vec<Served>,
)
    requires rest { Clean H.IsIntact H.IsOpen host.old → IsAtRest H.IsSoundStore (H.seen host.old) }
    requires answerable { All IsAnswerable arrivals.old }
    requires whole { length events.now ≡ length arrivals.old }
    requires room { length serveds.old.items + length arrivals.old ≤ vec_capacity serveds.old }
    ensures stays { StaysAtRest H.IsIntact H.IsOpen H.IsSoundStore H.seen H.left host.old host.new }
    ensures served { (befores : List Ends)
        → AllTaken (H.seen host.old).limits befores (map (ends R.remaining R.transfers W.contents W.transfers) arrivals.old)
        (map messages.arrival events.now)
        → HasServedMore H.IsIntact H.IsOpen H.seen H.left befores
        (map (ends R.remaining R.transfers W.contents W.transfers) arrivals.new)
        serveds.old.items serveds.new.items host.old host.new }
    ensures same { length arrivals.new ≡ length arrivals.old }
    ensures count { length serveds.new.items ≡ length serveds.old.items + length arrivals.old }
    ensures capacity { vec_capacity serveds.new ≡ vec_capacity serveds.old }
{
    let mut done = 0;
    'groups: while done < events.len() {
        let (_, others) = arrivals.split_at_mut(done);
        done += answer_next(alloc, routes, host, &events[done..], others, serveds);
    }
}

/// Applies the first of these requests in one transaction, and answers each. Returns how many these
/// are: all, unless an object above 65,536 bytes ends the group. Without memory for their replies
/// the first is told so, and is not applied.
fn answer_next<H: Storage, R: Source, W: Sink>(
    alloc: Global,
    routes: &Routes,
    host: &mut H,
    events: &[Event],
    arrivals: &mut [Arrival<R, W>],
    serveds: &mut Vec<Served>,
) -> usize
    requires rest { Clean H.IsIntact H.IsOpen host.old → IsAtRest H.IsSoundStore (H.seen host.old) }
    requires some { 0 < length events.now }
    requires answerable { All IsAnswerable arrivals.old }
    requires whole { length events.now ≡ length arrivals.old }
    requires room { length serveds.old.items + length arrivals.old ≤ vec_capacity serveds.old }
    ensures stays { StaysAtRest H.IsIntact H.IsOpen H.IsSoundStore H.seen H.left host.old host.new }
    ensures served { (befores : List Ends)
        → AllTaken (H.seen host.old).limits befores (map (ends R.remaining R.transfers W.contents W.transfers) arrivals.old)
        (map messages.arrival events.now)
        → HasServedMore H.IsIntact H.IsOpen H.seen H.left (take result befores)
        (map (ends R.remaining R.transfers W.contents W.transfers) (take result arrivals.new))
        serveds.old.items serveds.new.items host.old host.new }
    ensures others { drop result arrivals.new ≡ drop result arrivals.old }
    ensures some { 0 < result }
    ensures within { result ≤ length arrivals.old }
    ensures same { length arrivals.new ≡ length arrivals.old }
    ensures count { length serveds.new.items ≡ length serveds.old.items + result }
    ensures capacity { vec_capacity serveds.new ≡ vec_capacity serveds.old }
{
    match apply_together(alloc, routes, host, events) {
        Ok(group) => answer_group(alloc, host, group, arrivals, serveds),
        Err(_) => {
            let served = leave(&mut arrivals[0], TakeError::OutOfMemory);
            serveds.push_reserved(served);
            1
        }
    }
}

/// Sends the replies of a group, the first ones to these connections. Returns how many these are.
fn answer_group<H: Storage, R: Source, W: Sink>(
    alloc: Global,
    host: &mut H,
    group: Group,
    arrivals: &mut [Arrival<R, W>],
    serveds: &mut Vec<Served>,
) -> usize
    requires rest { Clean H.IsIntact H.IsOpen host.old → IsAtRest H.IsSoundStore (H.seen host.old) }
    requires small { All HasSmallReply group.tolds.items }
    requires open { IfSome group.planned (λ _. H.IsIntact host.old → H.IsOpen host.old) }
    requires measured { Clean H.IsIntact H.IsOpen host.old → IfSome group.planned (IsPlanOf (H.seen host.old).now) }
    requires answerable { All IsAnswerable arrivals.old }
    requires enough { count_of group ≤ length arrivals.old }
    requires room { length serveds.old.items + count_of group ≤ vec_capacity serveds.old }
    ensures count { result ≡ count_of group }
    ensures stays { StaysAtRest H.IsIntact H.IsOpen H.IsSoundStore H.seen H.left host.old host.new }
    ensures keeps { KeepsTables H.IsIntact H.IsOpen H.seen H.left host.old host.new }
    ensures told { (tolds : List ToldOf) × HasTold tolds
        (map (ends R.remaining R.transfers W.contents W.transfers) (take result arrivals.old))
        (map (ends R.remaining R.transfers W.contents W.transfers) (take result arrivals.new))
        serveds.old.items serveds.new.items
        × (H.IsIntact host.new → tolds ≡ tolds_in (H.seen host.old).now group) }
    ensures others { drop result arrivals.new ≡ drop result arrivals.old }
    ensures same { length arrivals.new ≡ length arrivals.old }
    ensures appended { length serveds.new.items ≡ length serveds.old.items + result }
    ensures capacity { vec_capacity serveds.new ≡ vec_capacity serveds.old }
{
    let Group { tolds, planned } = group;
    let count = tolds.len();
    let (first, others) = arrivals.split_at_mut(count);
    tell_each(tolds.as_slice(), first, serveds);
    match planned {
        Some(reply) => {
            let served = tell_planned(alloc, host, reply, &mut others[0]);
            serveds.push_reserved(served);
            count + 1
        }
        None => count,
    }
}

/// Sends replies, each to its connection.
fn tell_each<R: Source, W: Sink>(
    tolds: &[Told],
    arrivals: &mut [Arrival<R, W>],
    serveds: &mut Vec<Served>,
)
    requires small { All HasSmallReply tolds.now }
    requires answerable { All IsAnswerable arrivals.old }
    requires whole { length tolds.now ≡ length arrivals.old }
    requires room { length serveds.old.items + length arrivals.old ≤ vec_capacity serveds.old }
    ensures told { HasTold (map told tolds.now)
        (map (ends R.remaining R.transfers W.contents W.transfers) arrivals.old)
        (map (ends R.remaining R.transfers W.contents W.transfers) arrivals.new)
        serveds.old.items serveds.new.items }
    ensures same { length arrivals.new ≡ length arrivals.old }
    ensures count { length serveds.new.items ≡ length serveds.old.items + length arrivals.old }
    ensures capacity { vec_capacity serveds.new ≡ vec_capacity serveds.old }
{
    for index in 0..arrivals.len() {
        let served = tell(&mut arrivals[index], &tolds[index]);
        serveds.push_reserved(served);
    }
}

/// Sends a reply to its connection. It has no object that should be sent in pieces.
fn tell<R: Source, W: Sink>(arrival: &mut Arrival<R, W>, done: &Told) -> Served
    requires answerable { IsAnswerable arrival.old }
    requires small { HasSmallReply done.now }
    ensures told { IsTold
        (ends R.remaining R.transfers W.contents W.transfers arrival.old)
        (ends R.remaining R.transfers W.contents W.transfers arrival.new) result (told done.now) }
{
    answer(&mut arrival.writer, done)
}

/// Sends a reply to its connection, reading its object meanwhile.
fn tell_planned<H: Storage, R: Source, W: Sink>(
    alloc: Global,
    host: &mut H,
    reply: PlannedReply,
    arrival: &mut Arrival<R, W>,
) -> Served
    requires rest { Clean H.IsIntact H.IsOpen host.old → IsAtRest H.IsSoundStore (H.seen host.old) }
    requires open { H.IsIntact host.old → H.IsOpen host.old }
    requires measured { Clean H.IsIntact H.IsOpen host.old → IsPlanOf (H.seen host.old).now reply }
    requires answerable { IsAnswerable arrival.old }
    ensures stays { StaysAtRest H.IsIntact H.IsOpen H.IsSoundStore H.seen H.left host.old host.new }
    ensures keeps { KeepsTables H.IsIntact H.IsOpen H.seen H.left host.old host.new }
    ensures told { (bytes : List ℕ) × IsTold
        (ends R.remaining R.transfers W.contents W.transfers arrival.old)
        (ends R.remaining R.transfers W.contents W.transfers arrival.new) result (Some reply.stamp, bytes)
        × (H.IsIntact host.new → bytes ≡ reply.head.items ++ to_come reply.plan (H.seen host.old).now) }
{
    send_planned(alloc, host, &mut arrival.writer, reply)
}
