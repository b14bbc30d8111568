//! Events that are drawn from a table. Each is answered with the same bytes whether it is applied
//! directly or comes over a connection in memory, and none fails.

ghost use Rattle.bh_storage.specs.Calls.{Clean, IsAtRest};

use crate::digest_runs::{answers, settings};
use crate::dump::rows_of;
use crate::ends::WHOLE;
use crate::joined::without_packs;
use crate::series::{Count, is_told, tell};
use crate::served::{Passed, Sent, serve};
use bh_blocks::digester::Sha256Digester;
use bh_connection::End;
use bh_create::create;
use bh_dispatch::sql_host::SqlHost;
use bh_event::event::{Event, Message};
use bh_event::line::read_line;
use bh_host::storage::Storage;
use bh_host::{Told, apply};
use bh_operation::routes::Routes;
use bh_types::block_digest::BlockDigest;
use example_calls::answer::Fault;
use sqlite::Connection;
use std::alloc::{AllocError, Global};
use std::rt::Files;
use std::{fs, io};

/// How many events are drawn.
const DRAWS: usize = 500;

/// The seconds between two events: 144 events take a day.
const STEP: u64 = 600;

/// The number after this one (S. K. Park, K. W. Miller and P. K. Stockmeyer, "Technical Correspondence", Communications of the
/// ACM 36, 1993).
fn next(number: u64) -> u64 {
    48_271u64.wrapping_mul(number) % 2_147_483_647
}

fn lines_of(alloc: Global, table: &str) -> Result<Vec<&str>, AllocError> {
    let mut lines = Vec::new(alloc);
    for line in table.lines() {
        if !line.is_empty() && !line.starts_with('#') {
            lines.push(line)?;
        }
    }
    Ok(lines)
}

/// Appends the event of a line.
fn add(alloc: Global, events: &mut Vec<Event>, line: &str) -> Result<(), Fault> {
    let Event { message, .. } = read_line(alloc, line.as_bytes())?.ok_or(Fault::Form)?;
    let reading = STEP.saturating_mul(events.len() as u64);
    events.push(Event { reading, message })?;
    Ok(())
}

/// Adds the events of these lines.
fn add_all(alloc: Global, events: &mut Vec<Event>, lines: &[&str]) -> Result<(), Fault> {
    for line in lines {
        add(alloc, events, line)?;
    }
    Ok(())
}

/// Adds events that are drawn from these lines.
fn add_drawn(alloc: Global, events: &mut Vec<Event>, lines: &[&str]) -> Result<(), Fault> {
    let mut number = 1u64;
    for _ in 0..DRAWS {
        let place = number.checked_rem(lines.len() as u64).ok_or(Fault::Form)?;
        let line = lines.get(place as usize).ok_or(Fault::Form)?;
        add(alloc, events, line)?;
        number = next(number);
    }
    Ok(())
}

/// The events of the lines up to the first empty one, and events drawn from the others.
fn drawn(alloc: Global, table: &str) -> Result<Vec<Event>, Fault> {
    let (first, others) = table.split_once("\n\n").ok_or(Fault::Form)?;
    let mut events = Vec::new(alloc);
    let first = lines_of(alloc, first)?;
    add_all(alloc, &mut events, first.as_slice())?;
    let others = lines_of(alloc, others)?;
    add_drawn(alloc, &mut events, others.as_slice())?;
    Ok(events)
}

fn is_whole(passed: &Passed, told: &Told) -> bool {
    passed.served.ended == End::Whole && is_told(passed.served.stamp, passed.out.as_slice(), told)
}

/// Whether an event gets the expected reply, over a connection if it is a request.
fn is_alike<H: Storage>(
    alloc: Global,
    routes: &Routes,
    host: &mut H,
    event: &Event,
    told: &Told,
) -> bool
    requires { Clean H.IsIntact H.IsOpen host.old → IsAtRest H.IsSoundStore (H.seen host.old) }
    ensures { Clean H.IsIntact H.IsOpen host.new → IsAtRest H.IsSoundStore (H.seen host.new) }
{
    let Event { reading, message } = event;
    let Message::Request(bytes) = message else {
        let found = apply(alloc, routes, host, event);
        return is_told(found.stamp, found.reply.bytes(), told);
    };
    let asked = Sent {
        reading: *reading,
        bytes: bytes.as_slice(),
    };
    let passed = serve(alloc, routes, host, asked, WHOLE);
    is_whole(&passed, told)
}

/// How many events get the expected replies, up to the first that doesn't.
fn all_alike<H: Storage>(
    alloc: Global,
    routes: &Routes,
    host: &mut H,
    events: &[Event],
    told: &[Told],
) -> Count
    requires { Clean H.IsIntact H.IsOpen host.old → IsAtRest H.IsSoundStore (H.seen host.old) }
{
    let mut runs = 0u64;
    let mut answers = told.iter();
    for event in events {
        let Some(told) = answers.next() else {
            break;
        };
        if !is_alike(alloc, routes, host, event, told) {
            break;
        }
        runs = runs.saturating_add(1);
    }
    let is_well = runs == events.len() as u64;
    Count { runs, is_well }
}

/// How many events get the expected replies from a new host, up to the first that doesn't, and the
/// rows of its tables then.
fn served(alloc: Global, events: &[Event], told: &[Told]) -> Result<(Count, String), Fault> {
    let routes = Routes::new(alloc)?;
    let connection = without_packs(Connection::open_in_memory(alloc)?);
    let (limits, tuning) = settings().ok_or(Fault::Form)?;
    match create(
        connection,
        Sha256Digester,
        BlockDigest::Sha256,
        limits,
        tuning,
    ) {
        Ok(host) => {
            let mut storage = SqlHost::new(alloc, host);
            let count = all_alike(alloc, &routes, &mut storage, events, told);
            let rows = rows_of(alloc, &mut storage.host.connection.database)?;
            Ok((count, rows))
        }
        Err(_) => Err(Fault::Memory),
    }
}

/// Applies the events that are drawn from a table, and serves them.
fn both_ways(alloc: Global, table: &str) -> Result<Count, Fault> {
    let events = drawn(alloc, table)?;
    let Ok(Some(mut applied)) = answers(alloc, Sha256Digester, 0, events.as_slice()) else {
        return Err(Fault::Memory);
    };
    let rows = rows_of(alloc, &mut applied.connection)?;
    let (count, others) = served(alloc, events.as_slice(), applied.dones.as_slice())?;
    Ok(Count {
        runs: count.runs,
        is_well: count.is_well && rows.as_str() == others.as_str(),
    })
}

/// Whether events that are drawn from a table get the same replies, applied and served.
pub fn check(rt: &(impl Files + Print + Eprint + AllocGlobal), name: &str) -> io::Result<bool> {
    let alloc = rt.alloc();
    let table = fs::read_to_string(rt, format!(in alloc; "events/{name}.txt")?)?;
    match both_ways(alloc, table.as_str()) {
        Ok(count) => tell(rt, name, "served as applied", count),
        Err(fault) => {
            println!(rt; "{name} served as applied: {fault:?}")?;
            Ok(false)
        }
    }
}
