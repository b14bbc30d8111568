ghost use Rattle.std.specs.Prelude.{◌≡◌, ◌≤◌, ◌+◌, length, map, All, IfOk, OnErr, vec_capacity};
ghost use Rattle.bh_storage.specs.Calls.{Clean, IsAtRest};
ghost use Rattle.bh_host.specs.Resting.{StaysAtRest};
ghost use Rattle.bh_connection.specs.Connections.{CameTo};
ghost use Rattle.bh_connection.specs.Each.{IsGoing, HasServed, HasServedAlone, ends};
ghost use Rattle.bh_connection.specs.Together.{HasServedMore};

use crate::connection::serve_connection;
use crate::served::Served;
use bh_host::storage::Storage;
use bh_link::ends::{Sink, Source};
use bh_link::link::Link;
use bh_operation::routes::Routes;
use std::alloc::{AllocError, Global};

/// A connection at a reading of the clock, in seconds since 1970.
#[derive(Drop)]
pub struct Arrival<R, W> {
    pub reading: u64,
    pub reader: Link<R>,
    pub writer: Link<W>,
}

/// Serves connections in turn. Each tenant is answered as by a machine of its own, wherever a
/// connection breaks. The result's vector is allocated first: if that fails, nothing is read or
/// applied.
pub fn serve_each<H: Storage, R: Source, W: Sink>(
    alloc: Global,
    routes: &Routes,
    host: &mut H,
    arrivals: &mut [Arrival<R, W>],
) -> Result<Vec<Served>, AllocError>
    requires rest { Clean H.IsIntact H.IsOpen host.old → IsAtRest H.IsSoundStore (H.seen host.old) }
    requires going { All IsGoing arrivals.old }
    ensures stays { StaysAtRest H.IsIntact H.IsOpen H.IsSoundStore H.seen H.left host.old host.new }
    ensures served { IfOk result (λ serveds. HasServed H.IsIntact H.IsOpen H.seen H.left
        (map (ends R.remaining R.transfers W.contents W.transfers) arrivals.old)
        (map (ends R.remaining R.transfers W.contents W.transfers) arrivals.new)
        serveds.items host.old host.new) }
    ensures alone { IfOk result (λ serveds. H.IsIntact host.new → HasServedAlone H.IsIntact H.IsOpen H.seen H.left
        (map (ends R.remaining R.transfers W.contents W.transfers) arrivals.old)
        (map (ends R.remaining R.transfers W.contents W.transfers) arrivals.new)
        serveds.items host.old host.new) }
    ensures count { IfOk result (λ serveds. length serveds.items ≡ length arrivals.old) }
    ensures err { OnErr result ((host.new ≡ host.old) × (arrivals.new ≡ arrivals.old)) }
{
    let mut serveds = Vec::with_capacity(alloc, arrivals.len())?;
    serve_all(alloc, routes, host, arrivals, &mut serveds);
    Ok(serveds)
}

/// Serves connections in turn, as [`serve_each`] does, and appends their results where there is room.
pub(crate) fn serve_all<H: Storage, R: Source, W: Sink>(
    alloc: Global,
    routes: &Routes,
    host: &mut H,
    arrivals: &mut [Arrival<R, W>],
    serveds: &mut Vec<Served>,
)
    requires rest { Clean H.IsIntact H.IsOpen host.old → IsAtRest H.IsSoundStore (H.seen host.old) }
    requires going { All IsGoing arrivals.old }
    requires room { length serveds.old.items + length arrivals.old ≤ vec_capacity serveds.old }
    ensures stays { StaysAtRest H.IsIntact H.IsOpen H.IsSoundStore H.seen H.left host.old host.new }
    ensures served { HasServedMore H.IsIntact H.IsOpen H.seen H.left
        (map (ends R.remaining R.transfers W.contents W.transfers) arrivals.old)
        (map (ends R.remaining R.transfers W.contents W.transfers) arrivals.new)
        serveds.old.items serveds.new.items host.old host.new }
    ensures same { length arrivals.new ≡ length arrivals.old }
    ensures count { length serveds.new.items ≡ length serveds.old.items + length arrivals.old }
{
    for index in 0..arrivals.len() {
        let served = serve_arrival(alloc, routes, host, &mut arrivals[index]);
        serveds.push_reserved(served);
    }
}

/// Serves one connection.
pub(crate) fn serve_arrival<H: Storage, R: Source, W: Sink>(
    alloc: Global,
    routes: &Routes,
    host: &mut H,
    arrival: &mut Arrival<R, W>,
) -> Served
    requires rest { Clean H.IsIntact H.IsOpen host.old → IsAtRest H.IsSoundStore (H.seen host.old) }
    requires going { IsGoing arrival.old }
    ensures stays { StaysAtRest H.IsIntact H.IsOpen H.IsSoundStore H.seen H.left host.old host.new }
    ensures came_to { CameTo H.IsIntact H.IsOpen H.seen H.left
        (ends R.remaining R.transfers W.contents W.transfers arrival.old)
        (ends R.remaining R.transfers W.contents W.transfers arrival.new) result host.old host.new }
{
    let reading = arrival.reading;
    serve_connection(
        alloc,
        routes,
        host,
        reading,
        &mut arrival.reader,
        &mut arrival.writer,
    )
}
