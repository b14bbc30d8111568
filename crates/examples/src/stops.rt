//! Stored scripts on a host in files of which one stops: at some call, and at each one after. Once
//! opened again, the files have the tables before an event or after it, never between, and the
//! effects of all answered events.

ghost use Rattle.bh_storage.specs.Calls.{Clean, IsAtRest};

use crate::digest_runs::{answers, settings};
use crate::disks::{Fused, fuse, images, is_blown, memory, options};
use crate::dump::{rows_after, rows_of};
use crate::joined::without_packs;
use crate::series::{Count, events_of, is_told, tell};
use bh_blocks::digester::Sha256Digester;
use bh_create::create;
use bh_dispatch::sql_host::SqlHost;
use bh_event::event::Event;
use bh_host::storage::Storage;
use bh_host::{Told, apply};
use bh_open::{NoHost, open_host};
use bh_operation::routes::Routes;
use bh_types::block_digest::BlockDigest;
use example_calls::answer::Fault;
use sqlite::{Alter, Connection, FileStore, Files};
use sqlite_disk::{Fuse, Memory};
use std::alloc::Global;
use std::io;
use std::rt::Files as System;

/// The maximum calls after which a file is stopped.
const MOST: u64 = 100_000;

/// The replies to events, and the rows of the host's tables after none of them, one, and so on.
#[derive(Drop)]
pub struct Expected<'a> {
    pub events: &'a [Event],
    pub answers: Vec<Told>,
    pub rows: Vec<String>,
}

/// How many events were answered, or `None` if there is no host, and the files' contents.
#[derive(Drop)]
struct Stopped {
    answered: Option<usize>,
    files: Fused,
}

/// The replies to events, and the rows after them.
pub fn expect(alloc: Global, events: &[Event]) -> Result<Expected<'_>, Fault> {
    let mut rows = Vec::new(alloc);
    for count in 0..events.len() {
        rows.push(rows_after(alloc, &events[..count])?)?;
    }
    rows.push(rows_after(alloc, events)?)?;
    match answers(alloc, Sha256Digester, 0, events) {
        Ok(Some(answered)) => Ok(Expected {
            events,
            answers: answered.dones,
            rows,
        }),
        _ => Err(Fault::Memory),
    }
}

/// How many events are answered before the first failure, if each gets the expected reply.
pub fn answered<H: Storage>(
    alloc: Global,
    routes: &Routes,
    host: &mut H,
    events: &[Event],
    answers: &[Told],
) -> Result<usize, Fault>
    requires { Clean H.IsIntact H.IsOpen host.old → IsAtRest H.IsSoundStore (H.seen host.old) }
{
    let mut count = 0usize;
    for event in events {
        let found = apply(alloc, routes, host, event);
        if found.reply.trouble().is_some() {
            return Ok(count);
        }
        let told = answers.get(count).ok_or(Fault::Form)?;
        if !is_told(found.stamp, found.reply.bytes(), told) {
            return Err(Fault::Form);
        }
        count = count.saturating_add(1);
    }
    Ok(count)
}

/// Makes a host, and applies the events until one fails. Returns how many were answered, or `None`
/// if there is no host, and the store.
fn run_on<S: Alter + Drop>(
    alloc: Global,
    connection: Connection<S>,
    expected: &Expected<'_>,
) -> Result<(Option<usize>, S), Fault> {
    let routes = Routes::new(alloc)?;
    let (limits, tuning) = settings().ok_or(Fault::Form)?;
    let digest = BlockDigest::Sha256;
    let connection = without_packs(connection);
    match create(connection, Sha256Digester, digest, limits, tuning) {
        Ok(host) => {
            let mut storage = SqlHost::new(alloc, host);
            let answers = expected.answers.as_slice();
            let count = answered(alloc, &routes, &mut storage, expected.events, answers)?;
            Ok((
                Some(count),
                storage.host.into_connection().database.into_store(),
            ))
        }
        Err(error) => Ok((None, error.connection.database.into_store())),
    }
}

/// A run on new files, each of which stops after a number of calls.
fn run_until(alloc: Global, expected: &Expected<'_>, log: u64, db: u64) -> Result<Stopped, Fault> {
    let files = Files {
        log: fuse(alloc, log),
        db: fuse(alloc, db),
    };
    match Connection::open_files_with(alloc, files, options(), true) {
        Ok(connection) => {
            let (answered, store) = run_on(alloc, connection, expected)?;
            let files = store.close();
            Ok(Stopped { answered, files })
        }
        Err((_, left)) => {
            let files = left.into_files();
            Ok(Stopped {
                answered: None,
                files,
            })
        }
    }
}

/// The rows of the host in files; `None` if they have no table.
fn found(alloc: Global, log: &[u8], db: &[u8]) -> Result<Option<String>, Fault> {
    let files = Files {
        log: memory(alloc, log)?,
        db: memory(alloc, db)?,
    };
    match Connection::open_files_with(alloc, files, options(), true) {
        Ok(connection) => rows_found(alloc, connection),
        Err(_) => Err(Fault::Form),
    }
}

fn rows_found(
    alloc: Global,
    connection: Connection<FileStore<Memory>>,
) -> Result<Option<String>, Fault> {
    let (_, tuning) = settings().ok_or(Fault::Form)?;
    match open_host(alloc, connection, tuning) {
        Ok(opened) => {
            let mut connection = opened.connection;
            Ok(Some(rows_of(alloc, &mut connection)?))
        }
        Err(error) => match error.why {
            Some(NoHost::NoTable) => Ok(None),
            _ => Err(Fault::Form),
        },
    }
}

/// Whether these rows are those after `count` events.
pub fn is_at(rows: &[String], count: usize, found: &str) -> bool {
    match rows.get(count) {
        Some(rows) => rows.as_str() == found,
        None => false,
    }
}

/// Whether the rows that were found are those after the answered events, or after one more; or
/// those before and after a host was made.
fn is_left(found: Option<&str>, answered: Option<usize>, rows: &[String]) -> bool {
    match (found, answered) {
        (Some(found), Some(count)) => {
            is_at(rows, count, found) || is_at(rows, count.saturating_add(1), found)
        }
        (Some(found), None) => is_at(rows, 0, found),
        (None, answered) => answered.is_none(),
    }
}

/// Whether the host is found correctly in this log with each of these database files.
fn is_found(
    alloc: Global,
    log: &[u8],
    dbs: &[Vec<u8>],
    answered: Option<usize>,
    rows: &[String],
) -> Result<bool, Fault> {
    for db in dbs {
        let found = found(alloc, log, db.as_slice())?;
        if !is_left(found.as_deref(), answered, rows) {
            return Ok(false);
        }
    }
    Ok(true)
}

/// Whether the host is found correctly in all possible contents of the files.
fn comes_back(alloc: Global, stopped: Stopped, rows: &[String]) -> Result<bool, Fault> {
    let Stopped {
        answered,
        mut files,
    } = stopped;
    let logs = images(alloc, &mut files.log)?;
    let dbs = images(alloc, &mut files.db)?;
    for log in logs.iter() {
        if !is_found(alloc, log.as_slice(), dbs.as_slice(), answered, rows)? {
            return Ok(false);
        }
    }
    Ok(true)
}

/// A run on files, each of which stops after a number of calls: whether one has stopped, and
/// whether the result is right.
fn stop(alloc: Global, expected: &Expected<'_>, log: u64, db: u64) -> Result<(bool, bool), Fault> {
    let mut stopped = run_until(alloc, expected, log, db)?;
    let is_stopped = is_blown(&mut stopped.files.log) || is_blown(&mut stopped.files.db);
    let is_done = stopped.answered == Some(expected.events.len());
    let is_well = comes_back(alloc, stopped, expected.rows.as_slice())?;
    Ok((is_stopped, is_well && (is_stopped || is_done)))
}

/// Stops the log, or the database file, at each call of a run.
fn stops(alloc: Global, expected: &Expected<'_>, is_log: bool) -> Result<Count, Fault> {
    for runs in 0..MOST {
        let (log, db) = if is_log {
            (runs, u64::MAX)
        } else {
            (u64::MAX, runs)
        };
        let (is_stopped, is_well) = stop(alloc, expected, log, db)?;
        if !is_stopped || !is_well {
            return Ok(Count { runs, is_well });
        }
    }
    Err(Fault::Form)
}

/// Stops the log at each call of a run, and then the database file.
fn all_stops(alloc: Global, events: &[Event]) -> Result<Count, Fault> {
    let expected = expect(alloc, events)?;
    let log = stops(alloc, &expected, true)?;
    if !log.is_well {
        return Ok(log);
    }
    let db = stops(alloc, &expected, false)?;
    Ok(Count {
        runs: log.runs.saturating_add(db.runs),
        is_well: db.is_well,
    })
}

/// Whether a stored script leaves correct tables wherever one of its host's files stops.
pub fn check(rt: &(impl System + Print + Eprint + AllocGlobal), name: &str) -> io::Result<bool> {
    let events = events_of(rt, name)?;
    match all_stops(rt.alloc(), events.as_slice()) {
        Ok(count) => tell(rt, name, "stopped at each call", count),
        Err(fault) => {
            println!(rt; "{name} stopped at each call: {fault:?}")?;
            Ok(false)
        }
    }
}
