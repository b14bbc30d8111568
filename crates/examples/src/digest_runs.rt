//! Stored scripts on hosts with other digest functions. They get the same replies, except for
//! reports, which count blocks with another one's digest.

use crate::digesters::{Constant, Parity};
use crate::joined::without_packs;
use crate::series::events_of;
use bh_blocks::digester::{FastDigester, Sha256Digester};
use bh_create::create;
use bh_dispatch::sql_host::SqlHost;
use bh_event::event::{Event, Message};
use bh_event::order::HostOrder;
use bh_host::{Told, run};
use bh_operation::routes::Routes;
use bh_schema::host::Digester;
use bh_storage::error::Trouble;
use bh_types::block_digest::BlockDigest;
use bh_types::limits::{DEFAULT_MAX_BODY, Limits, Tuning};
use sqlite::{Connection, MemStore};
use std::alloc::Global;
use std::io;
use std::rt::Files;

/// Blocks of 4 bytes, no cache, and parts of at least 4 bytes except for the last.
pub fn settings() -> Option<(Limits, Tuning)> {
    settings_keeping(0)
}

/// Blocks of 4 bytes, and a cache of `cache_blocks` of them.
fn settings_keeping(cache_blocks: u64) -> Option<(Limits, Tuning)> {
    Some((
        Limits::new(4, DEFAULT_MAX_BODY)?,
        Tuning::new(4, cache_blocks)?,
    ))
}

/// The replies to events, and the host after them.
#[derive(Drop)]
pub struct Answered {
    pub dones: Vec<Told>,
    /// Its number of cached blocks.
    pub cached: usize,
    /// Its tables.
    pub connection: Connection<MemStore>,
}

/// The replies to events of a new host with a cache of `cache_blocks` blocks; `None` if no host was
/// made.
pub fn answers<D: Digester + Drop>(
    alloc: Global,
    digester: D,
    cache_blocks: u64,
    events: &[Event],
) -> Result<Option<Answered>, Trouble> {
    let routes = Routes::new(alloc)?;
    let connection = without_packs(Connection::open_in_memory(alloc)?);
    let Some((limits, tuning)) = settings_keeping(cache_blocks) else {
        return Ok(None);
    };
    // No event returns the function in the host's row.
    let Ok(host) = create(connection, digester, BlockDigest::Sha256, limits, tuning) else {
        return Ok(None);
    };
    let mut storage = SqlHost::new(alloc, host);
    let dones = run(alloc, &routes, &mut storage, events)?;
    let cached = storage.host.cached();
    Ok(Some(Answered {
        dones,
        cached,
        connection: storage.host.into_connection().database,
    }))
}

/// Whether all events but reports got the same replies.
fn are_alike(events: &[Event], ones: &[Told], others: &[Told]) -> bool {
    if ones.len() != others.len() {
        return false;
    }
    for ((event, one), other) in events.iter().zip(ones.iter()).zip(others.iter()) {
        if !matches!(&event.message, Message::Order(HostOrder::Report))
            && one.reply.bytes() != other.reply.bytes()
        {
            return false;
        }
    }
    true
}

/// Whether a host with this digest function and a cache of 8 blocks replies as expected.
fn answers_alike<D: Digester + Drop>(
    alloc: Global,
    digester: D,
    events: &[Event],
    expected: &[Told],
) -> Result<bool, Trouble> {
    match answers(alloc, digester, 8, events)? {
        Some(answered) => Ok(are_alike(events, expected, answered.dones.as_slice())),
        None => Ok(false),
    }
}

fn all_answer_alike(alloc: Global, events: &[Event]) -> Result<bool, Trouble> {
    let Some(first) = answers(alloc, Sha256Digester, 0, events)? else {
        return Ok(false);
    };
    let expected = first.dones.as_slice();
    Ok(
        answers_alike(alloc, FastDigester, events, expected)?
            && answers_alike(alloc, Constant, events, expected)?
            && answers_alike(alloc, Parity, events, expected)?,
    )
}

/// Whether three hosts reply to a stored script as one with SHA-256 and no cache does. They use the
/// fast digest function, a constant one, and one with two values, each with a cache.
pub fn check(rt: &(impl Files + Print + AllocGlobal), name: &str) -> io::Result<bool> {
    let alloc = rt.alloc();
    let events = events_of(rt, name)?;
    let is_well = all_answer_alike(alloc, events.as_slice()) == Ok(true);
    let told = if is_well {
        "alike by any digest"
    } else {
        "other bytes"
    };
    println!(rt; "{name}: {told}")?;
    Ok(is_well)
}
