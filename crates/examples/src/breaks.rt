//! Connections that break at each byte, on hosts in memory: while the request is read, and while
//! the answer is sent.

ghost use Rattle.bh_storage.specs.Calls.{Clean, IsAtRest};

use crate::digest_runs::settings;
use crate::dump::{rows_after, rows_of};
use crate::ends::{Cut, WHOLE};
use crate::joined::without_packs;
use crate::series::{Count, events_of, tell};
use crate::served::{Passed, Sent, serve};
use bh_blocks::digester::Sha256Digester;
use bh_connection::End;
use bh_create::create;
use bh_dispatch::sql_host::SqlHost;
use bh_event::event::{Event, Message};
use bh_host::run;
use bh_host::storage::Storage;
use bh_operation::routes::Routes;
use bh_types::block_digest::BlockDigest;
use example_calls::answer::Fault;
use sqlite::Connection;
use std::alloc::{AllocError, Global};
use std::io;
use std::rt::Files;

/// A request, and the events before it.
#[derive(Clone, Copy)]
struct Turn<'a> {
    before: &'a [Event],
    asked: Sent<'a>,
}

/// The result of a connection, and the rows of the host's tables afterwards.
#[derive(Drop)]
struct Ending {
    passed: Passed,
    rows: String,
}

fn pass<H: Storage>(
    alloc: Global,
    routes: &Routes,
    host: &mut H,
    turn: Turn<'_>,
    cut: Cut,
) -> Result<Passed, AllocError>
    requires { Clean H.IsIntact H.IsOpen host.old → IsAtRest H.IsSoundStore (H.seen host.old) }
{
    run(alloc, routes, host, turn.before)?;
    Ok(serve(alloc, routes, host, turn.asked, cut))
}

/// A request's connection to a new host after the earlier events.
fn ending_of(alloc: Global, turn: Turn<'_>, cut: Cut) -> Result<Ending, Fault> {
    let routes = Routes::new(alloc)?;
    let connection = without_packs(Connection::open_in_memory(alloc)?);
    let Some((limits, tuning)) = settings() else {
        return Err(Fault::Form);
    };
    match create(
        connection,
        Sha256Digester,
        BlockDigest::Sha256,
        limits,
        tuning,
    ) {
        Ok(host) => {
            let mut storage = SqlHost::new(alloc, host);
            let passed = pass(alloc, &routes, &mut storage, turn, cut)?;
            let rows = rows_of(alloc, &mut storage.host.connection.database)?;
            Ok(Ending { passed, rows })
        }
        Err(_) => Err(Fault::Memory),
    }
}

fn is_whole(ending: &Ending, whole: &Ending) -> bool {
    let (one, other) = (&ending.passed, &whole.passed);
    one.served.ended == End::Whole
        && one.served.stamp == other.served.stamp
        && one.served.sent == one.out.len() as u64
        && one.out.as_slice() == other.out.as_slice()
        && ending.rows.as_str() == whole.rows.as_str()
}

fn is_unread(ending: &Ending, rows: &str) -> bool {
    let served = ending.passed.served;
    served.ended == End::ReadFailed
        && served.stamp.is_none()
        && served.sent == 0
        && ending.passed.out.is_empty()
        && ending.rows.as_str() == rows
}

fn is_begun(ending: &Ending, whole: &Ending, count: usize) -> bool {
    let served = ending.passed.served;
    served.ended == End::WriteFailed
        && served.stamp == whole.passed.served.stamp
        && served.sent == count as u64
        && Some(ending.passed.out.as_slice()) == whole.passed.out.get(..count)
        && ending.rows.as_str() == whole.rows.as_str()
}

/// Whether nothing is answered or changed if the reader fails before the last byte that is read,
/// and everything is if it fails then.
fn reads_break(alloc: Global, turn: Turn<'_>, whole: &Ending) -> Result<bool, Fault> {
    let rows = rows_after(alloc, turn.before)?;
    let mut cut = WHOLE;
    for count in 0..taken(turn, whole) {
        cut.reads = Some(count);
        let ending = ending_of(alloc, turn, cut)?;
        if !is_unread(&ending, rows.as_str()) {
            return Ok(false);
        }
    }
    cut.reads = Some(taken(turn, whole));
    let ending = ending_of(alloc, turn, cut)?;
    Ok(is_whole(&ending, whole))
}

/// How many bytes of a request are read.
fn taken(turn: Turn<'_>, whole: &Ending) -> usize {
    turn.asked.bytes.len().saturating_sub(whole.passed.unread)
}

/// Whether the event is applied, and the answer's first bytes are sent, if the writer takes no more
/// than these.
fn writes_break(alloc: Global, turn: Turn<'_>, whole: &Ending, fails: bool) -> Result<bool, Fault> {
    let mut cut = Cut { fails, ..WHOLE };
    for count in 0..whole.passed.out.len() {
        cut.writes = count;
        let ending = ending_of(alloc, turn, cut)?;
        if !is_begun(&ending, whole, count) {
            return Ok(false);
        }
    }
    cut.writes = whole.passed.out.len();
    let ending = ending_of(alloc, turn, cut)?;
    Ok(is_whole(&ending, whole))
}

/// Whether a request is served correctly wherever its connection breaks.
fn is_well_broken(alloc: Global, turn: Turn<'_>, whole: &Ending) -> Result<bool, Fault> {
    Ok(
        is_whole(whole, whole)
            && reads_break(alloc, turn, whole)?
            && writes_break(alloc, turn, whole, false)?
            && writes_break(alloc, turn, whole, true)?,
    )
}

/// Breaks a request's connection at each byte.
fn breaks(alloc: Global, turn: Turn<'_>) -> Result<Count, Fault> {
    let whole = ending_of(alloc, turn, WHOLE)?;
    let is_well = is_well_broken(alloc, turn, &whole)?;
    let writes = whole.passed.out.len().saturating_mul(2);
    let runs = taken(turn, &whole).saturating_add(writes) as u64;
    Ok(Count { runs, is_well })
}

/// Breaks the connections of the requests among some events.
fn all_breaks(alloc: Global, events: &[Event]) -> Result<Count, Fault> {
    let mut runs = 0u64;
    for at in 0..events.len() {
        let Event { reading, message } = &events[at];
        let Message::Request(bytes) = message else {
            continue;
        };
        let asked = Sent {
            reading: *reading,
            bytes: bytes.as_slice(),
        };
        let before = &events[..at];
        let count = breaks(alloc, Turn { before, asked })?;
        if !count.is_well {
            return Ok(count);
        }
        runs = runs.saturating_add(count.runs);
    }
    Ok(Count {
        runs,
        is_well: true,
    })
}

/// Whether each request of a stored script is served correctly wherever its connection breaks.
pub fn check(rt: &(impl Files + Print + Eprint + AllocGlobal), name: &str) -> io::Result<bool> {
    let events = events_of(rt, name)?;
    match all_breaks(rt.alloc(), events.as_slice()) {
        Ok(count) => tell(rt, name, "broken at each byte", count),
        Err(fault) => {
            println!(rt; "{name} broken at each byte: {fault:?}")?;
            Ok(false)
        }
    }
}
