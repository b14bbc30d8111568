//! Stored scripts whose requests come over connections in memory.

ghost use Rattle.std.specs.Prelude.{All, IfOk, IfSome};
ghost use Rattle.bh_storage.specs.Calls.{Clean, IsAtRest};
ghost use Rattle.bh_connection.specs.Each.{IsGoing};

use crate::ends::{Last, Narrow, cut_of, reader};
use crate::joined::without_packs;
use crate::series::events_in;
use bh_blocks::digester::Sha256Digester;
use bh_connection::{Arrival, End, Served, serve_each};
use bh_create::create;
use bh_dispatch::sql_host::SqlHost;
use bh_event::event::{Event, Message};
use bh_host::apply;
use bh_host::storage::Storage;
use bh_link::ends::Untold;
use bh_link::link::Link;
use bh_operation::routes::Routes;
use bh_types::block_digest::BlockDigest;
use bh_types::limits::{Limits, Tuning};
use sqlite::Connection;
use std::alloc::{AllocError, Global};
use std::io::{Chain, ErrorKind, Write};
use std::rt::Files;
use std::{fs, io};

type Request<'a> = Arrival<Untold<Chain<&'a [u8], Last>>, Untold<Narrow>>;

/// The connection for an event, if it is a request.
fn request<'a>(alloc: Global, event: &'a Event, cut: &str) -> Option<Request<'a>>
    ensures { IfSome result IsGoing }
{
    let cut = cut_of(cut);
    match &event.message {
        Message::Request(bytes) => Some(Arrival {
            reading: event.reading,
            reader: Link::new(Untold(reader(bytes.as_slice(), cut.reads))),
            writer: Link::new(Untold(Narrow::new(alloc, cut))),
        }),
        Message::Order(_) => None,
    }
}

/// Adds the connection for an event, if it is a request.
fn add<'a>(
    alloc: Global,
    arrivals: &mut Vec<Request<'a>>,
    event: &'a Event,
    cut: &str,
) -> Result<(), AllocError>
    requires { All IsGoing arrivals.old.items }
    ensures { All IsGoing arrivals.new.items }
{
    if let Some(arrival) = request(alloc, event, cut) {
        arrivals.push(arrival)?;
    }
    Ok(())
}

/// The connections with a script's requests, each cut as the line of the same number tells.
fn requests<'a>(
    alloc: Global,
    events: &'a [Event],
    cuts: &str,
) -> Result<Vec<Request<'a>>, AllocError>
    ensures { IfOk result (λ arrivals. All IsGoing arrivals.items) }
{
    let mut arrivals = Vec::new(alloc);
    let mut lines = cuts.lines();
    for event in events {
        add(alloc, &mut arrivals, event, lines.next().unwrap_or(""))?;
    }
    Ok(arrivals)
}

/// Appends the reply to an operator and a line feed; nothing for a request.
fn order_one<H: Storage>(
    alloc: Global,
    routes: &Routes,
    host: &mut H,
    event: &Event,
    text: &mut Vec<u8>,
) -> Result<(), AllocError>
    requires { Clean H.IsIntact H.IsOpen host.old → IsAtRest H.IsSoundStore (H.seen host.old) }
    ensures { Clean H.IsIntact H.IsOpen host.new → IsAtRest H.IsSoundStore (H.seen host.new) }
{
    if let Message::Request(_) = &event.message {
        return Ok(());
    }
    let told = apply(alloc, routes, host, event);
    text.extend_from_slice(told.reply.bytes())?;
    text.push(b'\n')?;
    Ok(())
}

/// The replies to an operator, each with a line feed.
fn order<H: Storage>(
    alloc: Global,
    routes: &Routes,
    host: &mut H,
    events: &[Event],
    text: &mut Vec<u8>,
) -> Result<(), AllocError>
    requires { Clean H.IsIntact H.IsOpen host.old → IsAtRest H.IsSoundStore (H.seen host.old) }
    ensures { Clean H.IsIntact H.IsOpen host.new → IsAtRest H.IsSoundStore (H.seen host.new) }
{
    for event in events {
        order_one(alloc, routes, host, event, text)?;
    }
    Ok(())
}

/// The bytes that were sent, how the connection ended if it was cut off, and how many bytes stayed
/// unread.
fn tell(alloc: Global, served: Served, arrival: Request<'_>, text: &mut Vec<u8>) -> io::Result<()> {
    let unread = arrival.reader.into_inner().0.into_inner().0.len();
    text.extend_from_slice(arrival.writer.into_inner().0.held.as_slice())?;
    if served.ended != End::Whole {
        text.write_all(format!(in alloc;
            "[{:?}, {} sent]",
            served.ended, served.sent
        )?.as_bytes())?;
    }
    if unread > 0 {
        text.write_all(format!(in alloc; "[{unread} unread]")?.as_bytes())?;
    }
    text.push(b'\n')?;
    Ok(())
}

/// The replies to a script: first those to operators' commands, and then those to requests over
/// connections.
fn answers<H: Storage>(
    alloc: Global,
    routes: &Routes,
    host: &mut H,
    events: &[Event],
    cuts: &str,
) -> io::Result<Vec<u8>>
    requires { Clean H.IsIntact H.IsOpen host.old → IsAtRest H.IsSoundStore (H.seen host.old) }
{
    let mut text = Vec::new(alloc);
    order(alloc, routes, host, events, &mut text)?;
    let mut arrivals = requests(alloc, events, cuts)?;
    let serveds = serve_each(alloc, routes, host, arrivals.as_mut_slice())?;
    for (served, arrival) in serveds.into_iter().zip(arrivals) {
        tell(alloc, served, arrival, &mut text)?;
    }
    Ok(text)
}

/// A file of the scripts, or nothing if it is missing.
fn stored(rt: &(impl Files + AllocGlobal), name: &str, ending: &str) -> io::Result<String> {
    match fs::read_to_string(rt, format!(in rt.alloc(); "scripts/{name}{ending}")?) {
        Err(e) if e.kind() == ErrorKind::NotFound => Ok(String::new(rt.alloc())),
        found => found,
    }
}

fn answered(alloc: Global, events: &[Event], cuts: &str) -> io::Result<Vec<u8>> {
    let routes = Routes::new(alloc)?;
    let connection = without_packs(Connection::open_in_memory(alloc)?);
    match create(
        connection,
        Sha256Digester,
        BlockDigest::Sha256,
        Limits::default(),
        Tuning::default(),
    ) {
        Ok(host) => answers(alloc, &routes, &mut SqlHost::new(alloc, host), events, cuts),
        Err(_) => Ok(Vec::new(alloc)),
    }
}

/// Whether a stored script, with its requests over connections, gets the expected replies, byte for
/// byte.
pub fn check(rt: &(impl Files + Print + AllocGlobal), name: &str) -> io::Result<bool> {
    let script = stored(rt, name, ".in")?;
    let cuts = stored(rt, name, ".cuts")?;
    let expected = stored(rt, name, ".out")?;
    let events = events_in(rt.alloc(), script.as_bytes())?;
    let text = answered(rt.alloc(), events.as_slice(), cuts.as_str())?;
    if text.as_slice() == expected.as_bytes() {
        println!(rt; "{name} over connections: as expected")?;
        return Ok(true);
    }
    println!(rt; "{name} over connections: other bytes")?;
    io::writer(rt).write_all(text.as_slice())?;
    Ok(false)
}
