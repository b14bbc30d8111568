//! Shows on standard error how far a long work is.

use crate::progress::{Progress, Work};
use std::fs;
use std::io::IsTerminal;
use std::time::Instant;

/// After how many bytes the clock is asked again: 1 MiB.
const STEP: u64 = 1 << 20;

/// For how many milliseconds a line stands on a terminal until it is written anew.
const ON_TERMINAL: u64 = 200;

/// After how many milliseconds the next line follows elsewhere, as in a journal.
const ELSEWHERE: u64 = 10_000;

fn millis_between(from: Instant, to: Instant) -> u64 {
    u64::try_from(to.duration_since(from).as_millis()).unwrap_or(u64::MAX)
}

/// What the clock has told since a work began.
#[derive(Clone, Copy)]
struct Timed {
    first: Instant,
    /// How many bytes were done at the first reading.
    before: u64,
    /// When a line was written last, or else the first reading.
    last: Instant,
    is_terminal: bool,
    /// Whether a line stands on the terminal.
    is_shown: bool,
}

/// The bytes of a work, counted.
///
/// While they come, a line shows how far it is: on a terminal it is rewritten in place, elsewhere
/// one follows after each 10 seconds. A short work shows nothing, and one below 1 MiB doesn't ask the
/// clock. If clock or standard error fail, nothing is shown.
#[derive(Clone, Copy)]
pub struct Meter {
    rt: HostRuntime,
    work: Work,
    done: u64,
    total: u64,
    /// How often each byte is done until the work is over.
    rounds: u64,
    /// At how many bytes the clock is asked.
    next: u64,
    timed: Option<Timed>,
}

impl Meter {
    /// A meter of a work with this many bytes to do; 0 if that isn't known.
    pub fn new(rt: &HostRuntime, work: Work, total: u64) -> Meter {
        Meter {
            rt: *rt,
            work,
            done: 0,
            total,
            rounds: 1,
            next: STEP,
            timed: None,
        }
    }

    /// A meter of a work that does each of its bytes so many times.
    pub(crate) fn repeated(self, rounds: u64) -> Meter {
        Meter { rounds, ..self }
    }

    /// A meter of a work with as many bytes to do as a file has.
    pub fn of_file(rt: &HostRuntime, work: Work, path: &str) -> Meter {
        match fs::metadata(rt, path) {
            Ok(data) => Meter::new(rt, work, data.len()),
            Err(_) => Meter::new(rt, work, 0),
        }
    }

    /// Counts bytes as done.
    pub fn add(&mut self, bytes: usize) {
        self.done = self.done.saturating_add(bytes as u64);
        if self.next <= self.done {
            self.next = self.done.saturating_add(STEP);
            self.look();
        }
    }

    /// Ends the work: its line is cleared from a terminal, and none follows.
    pub fn end(&mut self) {
        self.next = u64::MAX;
        if let Some(timed) = self.timed {
            if timed.is_shown {
                let _ = eprint!(self.rt; "\r\x1b[K");
            }
        }
        self.timed = None;
    }

    /// Asks the clock, and shows a line if it is time.
    fn look(&mut self) {
        let Ok(now) = Instant::now(&self.rt) else {
            return;
        };
        self.timed = Some(match self.timed {
            None => Timed {
                first: now,
                before: self.done,
                last: now,
                is_terminal: self.rt.stderr().is_terminal(),
                is_shown: false,
            },
            Some(timed) => self.looked(timed, now),
        });
    }

    /// Shows a line if it is time, and returns what is known then.
    fn looked(&self, timed: Timed, now: Instant) -> Timed {
        let pause = if timed.is_terminal {
            ON_TERMINAL
        } else {
            ELSEWHERE
        };
        if millis_between(timed.last, now) < pause {
            return timed;
        }
        self.show(timed.is_terminal, self.progress(timed, now));
        Timed {
            last: now,
            is_shown: timed.is_terminal,
            ..timed
        }
    }

    /// How far the work is.
    fn progress(&self, timed: Timed, now: Instant) -> Progress {
        let millis = millis_between(timed.first, now);
        let rounds = self.rounds.max(1);
        let lately = self.done.saturating_sub(timed.before) / rounds;
        Progress {
            work: self.work,
            done: self.done / rounds,
            total: self.total,
            speed: (lately / millis.max(1)).saturating_mul(1_000),
        }
    }

    fn show(&self, is_terminal: bool, progress: Progress) {
        let _ = if is_terminal {
            eprint!(self.rt; "\rbucketd: {progress}\x1b[K")
        } else {
            eprintln!(self.rt; "bucketd: {progress}")
        };
    }
}
