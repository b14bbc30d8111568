//! Counts of a series of runs, and the events of a stored script.

use bh_event::event::Event;
use bh_event::line::read_line;
use bh_host::Told;
use bh_types::moment::Moment;
use std::alloc::{AllocError, Global};
use std::rt::Files;
use std::{fs, io};

/// How many runs were as expected, and whether all were: the first failure ends a series.
#[derive(Clone, Copy, PartialEq, Eq)]
pub struct Count {
    pub runs: u64,
    pub is_well: bool,
}

/// Whether an event's stamp and the bytes of its answer are the expected ones: it was applied.
pub fn is_told(stamp: Option<Moment>, bytes: &[u8], told: &Told) -> bool {
    stamp.is_some() && stamp == told.stamp && bytes == told.reply.bytes()
}

/// The events that the lines of a text tell, up to the first one that tells none; empty lines are
/// skipped.
pub fn events_in(alloc: Global, text: &[u8]) -> Result<Vec<Event>, AllocError> {
    let mut events = Vec::new(alloc);
    for line in text.split(|b| *b == b'\n') {
        if line.is_empty() {
            continue;
        }
        match read_line(alloc, line)? {
            Some(event) => events.push(event)?,
            None => return Ok(events),
        }
    }
    Ok(events)
}

/// The events of a stored script.
pub fn events_of(rt: &(impl Files + AllocGlobal), name: &str) -> io::Result<Vec<Event>> {
    let alloc = rt.alloc();
    let text = fs::read_to_string(rt, format!(in alloc; "scripts/{name}.in")?)?;
    Ok(events_in(alloc, text.as_bytes())?)
}

/// Prints whether the runs on a script were as expected, and on standard error how many there were.
pub fn tell(rt: &(impl Print + Eprint), name: &str, runs: &str, count: Count) -> io::Result<bool> {
    let Count {
        runs: number,
        is_well,
    } = count;
    eprintln!(rt; "{name} {runs}: {number} times")?;
    let told = if is_well { "as expected" } else { "otherwise" };
    println!(rt; "{name} {runs}: {told}")?;
    Ok(is_well)
}
