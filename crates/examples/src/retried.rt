//! Applies a script's events one at a time, and repeats an event for which memory ran out.
//!
//! It is run with any one allocation refused. It then prints what it prints with enough memory, or
//! ends with status 1 if that allocation is outside of an event. So an event that was answered
//! ServiceUnavailable or Unavailable had changed nothing, and its repetition gets its usual answer.

ghost use Rattle.bh_storage.specs.Calls.{Clean, IsAtRest};

use crate::joined::without_packs;
use crate::series::events_in;
use bh_blocks::digester::Sha256Digester;
use bh_create::create;
use bh_dispatch::sql_host::SqlHost;
use bh_event::event::Event;
use bh_host::storage::Storage;
use bh_host::{Told, apply};
use bh_operation::routes::Routes;
use bh_script::input::read_all;
use bh_types::block_digest::BlockDigest;
use bh_types::limits::{Limits, Tuning};
use sqlite::Connection;
use std::alloc::Global;
use std::io;
use std::io::Write;

/// The answer to an event, which is repeated if it has no stamp.
fn answer<H: Storage>(alloc: Global, routes: &Routes, host: &mut H, event: &Event) -> Told
    requires { Clean H.IsIntact H.IsOpen host.old → IsAtRest H.IsSoundStore (H.seen host.old) }
    ensures { Clean H.IsIntact H.IsOpen host.new → IsAtRest H.IsSoundStore (H.seen host.new) }
{
    let done = apply(alloc, routes, host, event);
    match done.stamp {
        Some(_) => done,
        None => apply(alloc, routes, host, event),
    }
}

/// The replies to the events, each with a line feed.
fn answers<H: Storage>(
    alloc: Global,
    routes: &Routes,
    host: &mut H,
    events: &[Event],
) -> io::Result<Vec<u8>>
    requires { Clean H.IsIntact H.IsOpen host.old → IsAtRest H.IsSoundStore (H.seen host.old) }
{
    let mut text = Vec::new(alloc);
    for event in events {
        let done = answer(alloc, routes, host, event);
        text.extend_from_slice(done.reply.bytes())?;
        text.extend_from_slice(b"\n")?;
    }
    Ok(text)
}

/// Answers the script on standard input on standard output, unless it is too long or no host can be
/// made.
pub fn retry(rt: &(impl Input + Print + AllocGlobal)) -> io::Result<bool> {
    let alloc = rt.alloc();
    let Some(bytes) = read_all(alloc, &mut rt.reader())? else {
        return Ok(false);
    };
    let events = events_in(alloc, bytes.as_slice())?;
    let routes = Routes::new(alloc)?;
    let connection = without_packs(Connection::open_in_memory(alloc)?);
    match create(
        connection,
        Sha256Digester,
        BlockDigest::Sha256,
        Limits::default(),
        Tuning::default(),
    ) {
        Ok(host) => {
            let mut storage = SqlHost::new(alloc, host);
            let text = answers(alloc, &routes, &mut storage, events.as_slice())?;
            io::writer(rt).write_all(text.as_slice())?;
            Ok(true)
        }
        Err(_) => Ok(false),
    }
}
