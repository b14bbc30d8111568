//! One request over a connection in memory.

ghost use Rattle.bh_storage.specs.Calls.{Clean, IsAtRest};

use crate::ends::{Cut, Narrow, reader};
use bh_connection::{Served, serve_connection};
use bh_host::storage::Storage;
use bh_link::ends::Untold;
use bh_link::link::Link;
use bh_operation::routes::Routes;
use std::alloc::Global;

/// The bytes of a request, at a reading of the clock.
#[derive(Clone, Copy)]
pub struct Sent<'a> {
    pub reading: u64,
    pub bytes: &'a [u8],
}

/// How a connection was served, the bytes that were sent, and how many bytes stayed unread.
#[derive(Drop)]
pub struct Passed {
    pub served: Served,
    pub out: Vec<u8>,
    pub unread: usize,
}

/// Serves a request over a connection that is cut so.
pub fn serve<H: Storage>(
    alloc: Global,
    routes: &Routes,
    host: &mut H,
    asked: Sent<'_>,
    cut: Cut,
) -> Passed
    requires { Clean H.IsIntact H.IsOpen host.old → IsAtRest H.IsSoundStore (H.seen host.old) }
    ensures { Clean H.IsIntact H.IsOpen host.new → IsAtRest H.IsSoundStore (H.seen host.new) }
{
    let mut input = Link::new(Untold(reader(asked.bytes, cut.reads)));
    let mut output = Link::new(Untold(Narrow::new(alloc, cut)));
    let served = serve_connection(alloc, routes, host, asked.reading, &mut input, &mut output);
    Passed {
        served,
        out: output.into_inner().0.held,
        unread: input.into_inner().0.into_inner().0.len(),
    }
}
