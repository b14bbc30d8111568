//! Groups of connections that are served together: one, or clients' whose requests are whole at the
//! same moment.

ghost use Rattle.std.specs.Prelude.{◌≡◌, ◌≤◌, ◌<◌, ℕ, true, false, [], ◌∷◌, List, Option, length, map};
ghost use Rattle.std.specs.Prelude.{IfOk, IfSome, is_some, option_map, vec_capacity};
ghost use Rattle.std.specs.List.{list_any};
ghost use Rattle.bh_http.specs.Transfers.{Logs};
ghost use Rattle.bh_storage.specs.Calls.{Clean, IsAtRest};
ghost use Rattle.bh_host.specs.Resting.{StaysAtRest};
ghost use Rattle.bh_host.specs.declared.reply.Caller.TheVariants.{Request, Operator};
ghost use Rattle.bh_connection.specs.Each.{IsGoing, ends};
ghost use Rattle.bh_connection.specs.Groups.{Call, Accepted, HasJoined, accepted_more, begins_with, closes_with};
ghost use Rattle.bh_connection.specs.Listening.{ComesGroup, Serves, VisitedAs};
ghost use Rattle.bh_connection.specs.Listening as spec;
ghost use Rattle.bh_connection.specs.Rooms.{IsRoom};

use crate::acceptor::Acceptor;
use crate::backup::BackUp;
use crate::each::{Arrival, serve_arrival};
use crate::operator::serve_line;
use crate::served::{Served, Visited};
use crate::together::serve_together;
use bh_host::Caller;
use bh_link::ends::{Sink, Source};
use bh_operation::routes::Routes;
use bh_storage::error::Trouble;
use sqlite::ErrorCode;
use std::alloc::{AllocError, Global};
use std::io;

/// How many clients' connections are served together, at most.
const MOST: u64 = 64;

/// How the connections of a group were served.
#[derive(Clone, Copy)]
pub(crate) struct Grouped {
    /// How many these were.
    pub(crate) count: u64,
    /// Whether it was an operator's line whose order is to stop.
    pub(crate) stops: bool,
    /// Whether it was one whose order is to sweep.
    pub(crate) sweeps: bool,
    /// Whether the store was found shut for one of them.
    pub(crate) is_shut: bool,
}

/// Vectors with room for the connections of a group, and for their results.
#[derive(Drop)]
struct Room<R, W> {
    arrivals: Vec<Arrival<R, W>>,
    serveds: Vec<Served>,
}

/// Serves the next connection of an acceptor, and with a client's those that may be served together
/// with it: at most `most`.
pub(crate) fn serve_group<H: BackUp, A: Acceptor>(
    alloc: Global,
    routes: &Routes,
    host: &mut H,
    acceptor: &mut A,
    secret: Option<&[u8]>,
    most: u64,
) -> io::Result<Grouped>
    requires some { 0 < most }
    requires rest { Clean H.IsIntact H.IsOpen host.old → IsAtRest H.IsSoundStore (H.seen host.old) }
    ensures stays { StaysAtRest H.IsIntact H.IsOpen H.IsSoundStore H.seen H.left host.old host.new }
    ensures operated { A.operated acceptor.new ≡ A.operated acceptor.old }
    ensures most { IfOk result (λ grouped. grouped.count ≤ most) }
    ensures comes { ComesGroup H.IsIntact H.IsOpen H.seen H.left H.shows (option_map (λ s. s.now) secret.entry)
        (A.operated acceptor.old) (A.calls acceptor.old) (A.calls acceptor.new) result host.old host.new }
{
    let caller = acceptor.accept()?;
    let reading = acceptor.seconds()?;
    let first = acceptor.open(reading);
    Ok(match caller {
        Caller::Request => serve_clients(alloc, routes, host, acceptor, secret, first, most),
        Caller::Operator => serve_one(alloc, routes, host, acceptor, secret, caller, first),
    })
}

/// Serves a client's connection that was opened, and those that may be served together with it.
/// Without memory for a group it is served alone.
fn serve_clients<H: BackUp, A: Acceptor>(
    alloc: Global,
    routes: &Routes,
    host: &mut H,
    acceptor: &mut A,
    secret: Option<&[u8]>,
    first: Arrival<A::Reader, A::Writer>,
    most: u64,
) -> Grouped
    requires some { 0 < most }
    requires rest { Clean H.IsIntact H.IsOpen host.old → IsAtRest H.IsSoundStore (H.seen host.old) }
    requires going { IsGoing first }
    ensures stays { StaysAtRest H.IsIntact H.IsOpen H.IsSoundStore H.seen H.left host.old host.new }
    ensures operated { A.operated acceptor.new ≡ A.operated acceptor.old }
    ensures most { result.count ≤ most }
    ensures serves { (begun : Option (List Call)) → Logs begun (A.calls acceptor.old)
        (begins_with Request
        (ends A.Reader.Source.remaining A.Reader.Source.transfers A.Writer.Sink.contents A.Writer.Sink.transfers first))
        → Serves H.IsIntact H.IsOpen H.seen H.left H.shows (option_map (λ s. s.now) secret.entry)
        (A.operated acceptor.old) begun (A.calls acceptor.new) result host.old host.new }
{
    match room_for_more(alloc, acceptor, most) {
        Some(room) => serve_several(alloc, routes, host, acceptor, first, room),
        None => serve_one(
            alloc,
            routes,
            host,
            acceptor,
            secret,
            Caller::Request,
            first,
        ),
    }
}

/// Room for a group, if another client's connection may be served together with one: it was accepted.
/// `None` if there is none, if at most one may be served, or if memory runs out.
fn room_for_more<A: Acceptor>(
    alloc: Global,
    acceptor: &mut A,
    most: u64,
) -> Option<Room<A::Reader, A::Writer>>
    ensures operated { A.operated acceptor.new ≡ A.operated acceptor.old }
    ensures calls { Logs (A.calls acceptor.old) (A.calls acceptor.new) (accepted_more (is_some result)) }
    ensures room { IfSome result (IsRoom most) }
{
    let limit = limit_of(most);
    if limit < 2 {
        return None;
    }
    match Room::new(alloc, limit) {
        Ok(room) => acceptor.accept_more().then_some(room),
        Err(_) => None,
    }
}

/// How many connections are served together, at most, if `most` may be served.
fn limit_of(most: u64) -> usize
    ensures within { result ≤ most }
    ensures few { result ≤ 64 }
{
    if most < MOST {
        most as usize
    } else {
        MOST as usize
    }
}

impl<R: Drop, W: Drop> Room<R, W> {
    fn new(alloc: Global, limit: usize) -> Result<Room<R, W>, AllocError>
        ensures arrivals { IfOk result (λ room. room.arrivals.items ≡ []) }
        ensures serveds { IfOk result (λ room. room.serveds.items ≡ []) }
        ensures capacity { IfOk result (λ room. vec_capacity room.arrivals ≡ limit) }
        ensures alike { IfOk result (λ room. vec_capacity room.serveds ≡ limit) }
    {
        Ok(Room {
            arrivals: Vec::with_capacity(alloc, limit)?,
            serveds: Vec::with_capacity(alloc, limit)?,
        })
    }
}

/// Serves a connection that was opened, and closes it.
fn serve_one<H: BackUp, A: Acceptor>(
    alloc: Global,
    routes: &Routes,
    host: &mut H,
    acceptor: &mut A,
    secret: Option<&[u8]>,
    caller: Caller,
    mut arrival: Arrival<A::Reader, A::Writer>,
) -> Grouped
    requires rest { Clean H.IsIntact H.IsOpen host.old → IsAtRest H.IsSoundStore (H.seen host.old) }
    requires going { IsGoing arrival }
    requires admitted { caller ≡ Operator → A.operated acceptor.old ≡ true }
    ensures stays { StaysAtRest H.IsIntact H.IsOpen H.IsSoundStore H.seen H.left host.old host.new }
    ensures operated { A.operated acceptor.new ≡ A.operated acceptor.old }
    ensures one { result.count ≡ 1 }
    ensures serves { (begun : Option (List Call)) → Logs begun (A.calls acceptor.old)
        (begins_with caller
        (ends A.Reader.Source.remaining A.Reader.Source.transfers A.Writer.Sink.contents A.Writer.Sink.transfers arrival))
        → Serves H.IsIntact H.IsOpen H.seen H.left H.shows (option_map (λ s. s.now) secret.entry)
        (A.operated acceptor.old) begun (A.calls acceptor.new) result host.old host.new }
{
    let visited = serve_visit(alloc, routes, host, secret, caller, &mut arrival);
    acceptor.close(arrival, visited.served);
    Grouped {
        count: 1,
        stops: visited.stops,
        sweeps: visited.sweeps,
        is_shut: is_shut(visited.served.trouble),
    }
}

/// Serves one connection, as a client's or an operator's.
fn serve_visit<H: BackUp, R: Source, W: Sink>(
    alloc: Global,
    routes: &Routes,
    host: &mut H,
    secret: Option<&[u8]>,
    caller: Caller,
    arrival: &mut Arrival<R, W>,
) -> Visited
    requires rest { Clean H.IsIntact H.IsOpen host.old → IsAtRest H.IsSoundStore (H.seen host.old) }
    requires going { IsGoing arrival.old }
    ensures stays { StaysAtRest H.IsIntact H.IsOpen H.IsSoundStore H.seen H.left host.old host.new }
    ensures visited { VisitedAs H.IsIntact H.IsOpen H.seen H.left H.shows (option_map (λ s. s.now) secret.entry) caller
        (ends R.remaining R.transfers W.contents W.transfers arrival.old)
        (ends R.remaining R.transfers W.contents W.transfers arrival.new) result host.old host.new }
{
    match caller {
        Caller::Request => Visited::going_on(serve_arrival(alloc, routes, host, arrival)),
        Caller::Operator => {
            let reading = arrival.reading;
            serve_line(
                alloc,
                routes,
                host,
                secret,
                reading,
                &mut arrival.reader,
                &mut arrival.writer,
            )
        }
    }
}

/// Whether an earlier failure of the disk has shut the store, by the failure behind a reply.
fn is_shut(trouble: Option<Trouble>) -> bool
    ensures { result ≡ spec.is_shut trouble }
{
    matches!(trouble, Some(Trouble::StoreRefused(ErrorCode::Closed)))
}

/// Serves a client's connection together with another one that was accepted after it, and with more
/// that may be: their requests share a transaction. They are closed once all were served.
fn serve_several<H: BackUp, A: Acceptor>(
    alloc: Global,
    routes: &Routes,
    host: &mut H,
    acceptor: &mut A,
    first: Arrival<A::Reader, A::Writer>,
    room: Room<A::Reader, A::Writer>,
) -> Grouped
    requires rest { Clean H.IsIntact H.IsOpen host.old → IsAtRest H.IsSoundStore (H.seen host.old) }
    requires going { IsGoing first }
    requires room { (most : ℕ) × IsRoom most room }
    ensures stays { StaysAtRest H.IsIntact H.IsOpen H.IsSoundStore H.seen H.left host.old host.new }
    ensures operated { A.operated acceptor.new ≡ A.operated acceptor.old }
    ensures most { result.count ≤ vec_capacity room.arrivals }
    ensures serves { (secret : Option (List ℕ)) (begun mid : Option (List Call)) → Logs begun mid
        (begins_with Request
        (ends A.Reader.Source.remaining A.Reader.Source.transfers A.Writer.Sink.contents A.Writer.Sink.transfers first))
        → Logs mid (A.calls acceptor.old) (Accepted Request ∷ [])
        → Serves H.IsIntact H.IsOpen H.seen H.left H.shows secret
        (A.operated acceptor.old) begun (A.calls acceptor.new) result host.old host.new }
{
    let mut arrivals = gathered(acceptor, first, room.arrivals);
    let mut serveds = room.serveds;
    serve_together(alloc, routes, host, arrivals.as_mut_slice(), &mut serveds);
    close_each(acceptor, arrivals, serveds.as_slice());
    Grouped {
        count: serveds.len() as u64,
        stops: false,
        sweeps: false,
        is_shut: any_shut(serveds.as_slice()),
    }
}

/// The first connection of a group, the next one, which was accepted, and more, as far as there is
/// room.
fn gathered<A: Acceptor>(
    acceptor: &mut A,
    first: Arrival<A::Reader, A::Writer>,
    mut arrivals: Vec<Arrival<A::Reader, A::Writer>>,
) -> Vec<Arrival<A::Reader, A::Writer>>
    requires empty { arrivals.items ≡ [] }
    requires room { 1 < vec_capacity arrivals }
    ensures operated { A.operated acceptor.new ≡ A.operated acceptor.old }
    ensures joined { (begun : Option (List Call)) → Logs begun (A.calls acceptor.old) (Accepted Request ∷ [])
        → HasJoined (ends A.Reader.Source.remaining A.Reader.Source.transfers A.Writer.Sink.contents A.Writer.Sink.transfers)
        first.reading begun (A.calls acceptor.new) (first ∷ []) result.items }
    ensures count { length result.items ≤ vec_capacity arrivals }
    ensures several { 1 < length result.items }
{
    let reading = first.reading;
    arrivals.push_reserved(first);
    let next = acceptor.open(reading);
    arrivals.push_reserved(next);
    join(acceptor, reading, &mut arrivals);
    arrivals
}

/// Accepts more clients' connections, and opens them, as far as there is room.
fn join<A: Acceptor>(
    acceptor: &mut A,
    reading: u64,
    arrivals: &mut Vec<Arrival<A::Reader, A::Writer>>,
)
    ensures operated { A.operated acceptor.new ≡ A.operated acceptor.old }
    ensures joined { HasJoined (ends A.Reader.Source.remaining A.Reader.Source.transfers A.Writer.Sink.contents A.Writer.Sink.transfers)
        reading (A.calls acceptor.old) (A.calls acceptor.new) arrivals.old.items arrivals.new.items }
    ensures capacity { vec_capacity arrivals.new ≡ vec_capacity arrivals.old }
{
    for joined in arrivals.len()..arrivals.capacity() {
        if !acceptor.accept_more() {
            return;
        }
        let next = acceptor.open(reading);
        arrivals.push_reserved(next);
    }
}

/// Closes connections, in order.
fn close_each<A: Acceptor>(
    acceptor: &mut A,
    arrivals: Vec<Arrival<A::Reader, A::Writer>>,
    serveds: &[Served],
)
    ensures operated { A.operated acceptor.new ≡ A.operated acceptor.old }
    ensures closed { Logs (A.calls acceptor.old) (A.calls acceptor.new) (closes_with
        (map (ends A.Reader.Source.remaining A.Reader.Source.transfers A.Writer.Sink.contents A.Writer.Sink.transfers) arrivals.items)
        serveds.now) }
{
    for (arrival, served) in arrivals.into_iter().zip(serveds.iter()) {
        acceptor.close(arrival, *served);
    }
}

/// Whether the store was found shut for one of these.
fn any_shut(serveds: &[Served]) -> bool
    ensures { result ≡ list_any (λ s. spec.is_shut s.trouble) serveds.now }
{
    serveds.iter().any(|served| is_shut(served.trouble))
}
