//! When a host that is served sweeps by itself: a step at a time, between requests. A sweep may come
//! anywhere, so no tenant's answers depend on when one does.

ghost use Rattle.std.specs.Prelude.{◌≡◌, ◌+◌, nat_lt, not, IfOk, option_map};
ghost use Rattle.bh_wires.specs.Sweeping as spec;

use std::alloc::{AllocError, Global};
use std::io::Cursor;

/// The order of a step, which removes at most 256 expired uploads and blocks that nobody needs.
const STEP: &[u8] = b"{\"op\":\"sweep\",\"limit\":256}\n";

/// How many bytes that nobody needs may stay at least, where the operator didn't say.
const LEAST: u64 = 67_108_864;

/// Into how many parts what is needed is divided, of which one may stay, if that is more.
const PARTS: u64 = 10;

/// How many milliseconds after the last step a sweep begins in any case.
const SELDOM: u64 = 3_600_000;

/// For how many milliseconds a step is followed by none, and for how many times as long as it took.
const REST: u64 = 20;

const SHARE: u64 = 4;

/// The same while more than may stay is there: who writes fast would be faster than the steps.
const BEHIND: u64 = 1;

/// How the reply to a step ends that left something.
const PARTIAL: &[u8] = b" partial";

/// More bytes than the reply to a step has.
pub(crate) const REPLY: usize = 128;

/// What was counted and swept. Times are those of a clock that doesn't go back, in milliseconds.
#[derive(Clone, Copy)]
pub struct Sweeping {
    /// How many bytes that nobody needs may stay, if the operator said so.
    pub limit: Option<u64>,
    /// How many there were at the last count, and how many may stay since then.
    pub unneeded: u64,
    pub keep: u64,
    /// Whether there may be others by now.
    pub is_asked: bool,
    /// Whether the last step left something to remove.
    pub is_partial: bool,
    /// When the last step ended, and how long it took.
    pub ended: u64,
    pub took: u64,
}

impl Sweeping {
    /// Of a host that is served from now on.
    pub fn new(limit: Option<u64>, now: u64) -> Sweeping
        ensures { result ≡ spec.begun limit now }
    {
        Sweeping {
            limit,
            unneeded: 0,
            keep: 0,
            is_asked: true,
            is_partial: false,
            ended: now,
            took: 0,
        }
    }

    /// Whether the next step is due.
    pub fn is_due(&self, now: u64) -> bool
        ensures { result ≡ spec.is_due self.now now }
    {
        self.has_rested(now) && (self.is_wanted() || is_past(self.ended, SELDOM, now))
    }

    fn has_rested(&self, now: u64) -> bool
        ensures { result ≡ spec.has_rested self.now now }
    {
        match self.took.checked_mul(self.times()) {
            Some(long) => is_past(self.ended, long.max(REST), now),
            None => false,
        }
    }

    fn times(&self) -> u64
        ensures { result ≡ spec.times self.now }
    {
        if self.is_behind() { BEHIND } else { SHARE }
    }

    /// Whether more is there than may stay.
    fn is_behind(&self) -> bool
        ensures { result ≡ spec.is_behind self.now }
    {
        self.keep < self.unneeded
    }

    fn is_wanted(&self) -> bool
        ensures { result ≡ spec.is_wanted self.now }
    {
        self.is_partial || self.is_behind()
    }

    /// So many bytes were counted that nobody needs, when the host's file had so many.
    pub fn take_count(&mut self, bytes: u64, file: Option<u64>)
        ensures { self.new ≡ spec.counted self.old bytes file }
    {
        self.unneeded = bytes;
        self.keep = kept_of(self.limit, needed_in(file, bytes));
        self.is_asked = false;
    }

    /// A request was served, of which these are the first bytes.
    pub fn note_request(&mut self, first: &[u8])
        ensures { self.new ≡ spec.changed self.old first.now }
    {
        if !first.starts_with(b"GET ") && !first.starts_with(b"HEAD ") {
            self.is_asked = true;
        }
    }

    /// A step was carried out between these times, and was answered so.
    pub fn step(&mut self, began: u64, now: u64, reply: &[u8])
        ensures { self.new ≡ spec.stepped self.old began now reply.now }
    {
        self.ended = now;
        self.took = now.saturating_sub(began);
        self.is_partial = reply.ends_with(PARTIAL);
        self.is_asked = true;
    }
}

/// How many bytes of a file are needed, at most. It has more if some of it is free.
fn needed_in(file: Option<u64>, unneeded: u64) -> u64
    ensures { result ≡ spec.needed_in file unneeded }
{
    file.unwrap_or(0).saturating_sub(unneeded)
}

/// How many bytes that nobody needs may stay beside so many that are needed.
fn kept_of(limit: Option<u64>, needed: u64) -> u64
    ensures { result ≡ spec.kept_of limit needed }
{
    match limit {
        Some(limit) => limit,
        None => LEAST.max(needed / PARTS),
    }
}

/// Whether that much time is over after a moment.
fn is_past(since: u64, span: u64, now: u64) -> bool
    ensures { result ≡ not (nat_lt now (since + span)) }
{
    match since.checked_add(span) {
        Some(end) => end <= now,
        None => false,
    }
}

/// The host's own line, which orders a step, after the operators' secret, if they have one.
pub(crate) fn own_line(alloc: Global, secret: Option<&[u8]>) -> Result<Cursor<Vec<u8>>, AllocError>
    ensures { IfOk result (spec.IsOwnLine (option_map (λ s. s.now) secret.entry)) }
{
    let mut bytes = opening(alloc, secret)?;
    bytes.extend_from_slice(STEP)?;
    Ok(Cursor::new(bytes))
}

/// The operators' secret and a space, if they have one.
fn opening(alloc: Global, secret: Option<&[u8]>) -> Result<Vec<u8>, AllocError>
    ensures { IfOk result (λ bytes. bytes.items ≡ spec.opening (option_map (λ s. s.now) secret.entry)) }
{
    let Some(secret) = secret else {
        return Ok(Vec::new(alloc));
    };
    let mut bytes = Vec::from_slice(alloc, secret)?;
    bytes.extend_from_slice(b" ")?;
    Ok(bytes)
}
