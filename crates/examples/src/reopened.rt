//! Stored scripts on a host in files whose machine stops after each event. Once opened again, the
//! host has the tables after that event.

use crate::digest_runs::settings;
use crate::disks::{memory, options};
use crate::dump::rows_of;
use crate::joined::without_packs;
use crate::series::{Count, events_of, tell};
use crate::stops::{Expected, answered, expect, is_at};
use bh_again::stop_and_open_host;
use bh_blocks::digester::Sha256Digester;
use bh_create::create;
use bh_dispatch::sql_host::SqlHost;
use bh_event::event::Event;
use bh_host::Told;
use bh_open::Opened;
use bh_operation::routes::Routes;
use bh_types::block_digest::BlockDigest;
use example_calls::answer::Fault;
use sqlite::{Connection, FileStore, Files};
use sqlite_disk::{Crash, Memory};
use std::alloc::Global;
use std::io;
use std::rt::Files as System;

/// A database in new files.
fn new_database(alloc: Global) -> Result<Connection<FileStore<Memory>>, Fault> {
    let files = Files {
        log: memory(alloc, &[])?,
        db: memory(alloc, &[])?,
    };
    match Connection::open_files_with(alloc, files, options(), true) {
        Ok(connection) => Ok(connection),
        Err(_) => Err(Fault::Memory),
    }
}

/// Makes a host, applies events to it, which must get the expected replies, stops its machine, and
/// opens its files again.
fn reopen<D: Crash + Drop>(
    alloc: Global,
    connection: Connection<FileStore<D>>,
    events: &[Event],
    answers: &[Told],
) -> Result<Opened<FileStore<D>>, Fault> {
    let (limits, tuning) = settings().ok_or(Fault::Form)?;
    let digest = BlockDigest::Sha256;
    let connection = without_packs(connection);
    let Ok(host) = create(connection, Sha256Digester, digest, limits, tuning) else {
        return Err(Fault::Memory);
    };
    let routes = Routes::new(alloc)?;
    let mut storage = SqlHost::new(alloc, host);
    if answered(alloc, &routes, &mut storage, events, answers)? != events.len() {
        return Err(Fault::Form);
    }
    match stop_and_open_host(alloc, storage.host, options(), tuning) {
        Ok(opened) => Ok(opened),
        Err(_) => Err(Fault::Form),
    }
}

/// Whether the host that is opened after the first events has the tables after them.
fn comes_back(alloc: Global, expected: &Expected<'_>, count: usize) -> Result<bool, Fault> {
    let events = expected.events.get(..count).ok_or(Fault::Form)?;
    let answers = expected.answers.as_slice();
    let opened = reopen(alloc, new_database(alloc)?, events, answers)?;
    let mut connection = opened.connection;
    let rows = rows_of(alloc, &mut connection)?;
    Ok(is_at(expected.rows.as_slice(), count, rows.as_str()))
}

/// Stops the machine after no event, after one, and so on.
fn all_come_back(alloc: Global, expected: &Expected<'_>) -> Result<Count, Fault> {
    let mut runs = 0u64;
    for count in 0..=expected.events.len() {
        if !comes_back(alloc, expected, count)? {
            return Ok(Count {
                runs,
                is_well: false,
            });
        }
        runs = runs.saturating_add(1);
    }
    Ok(Count {
        runs,
        is_well: true,
    })
}

/// Whether a stored script's host has its tables again, whichever event its machine stops after.
pub fn check(rt: &(impl System + Print + Eprint + AllocGlobal), name: &str) -> io::Result<bool> {
    let events = events_of(rt, name)?;
    let expected = expect(rt.alloc(), events.as_slice());
    match expected.and_then(|expected| all_come_back(rt.alloc(), &expected)) {
        Ok(count) => tell(rt, name, "opened again after each event", count),
        Err(fault) => {
            println!(rt; "{name} opened again after each event: {fault:?}")?;
            Ok(false)
        }
    }
}
