//! A connection of a stage.

ghost use Rattle.std.specs.Prelude.{◌≡◌, ◌≢◌, IfSome, is_some};
ghost use Rattle.bh_stage.specs.Joins.{Joins};
ghost use Rattle.bh_stage.specs.Places.{IsComing, awaited};

use crate::draft::{Draft, Look};
use crate::outbox::Outbox;
use crate::record::{Inlet, Outlet, ROOM};
use crate::spool::Spools;
use crate::waiting::{Shut, would_wait};
use crate::whole::Door;
use crate::wires::{Came, Ended};
use bh_http::fixed::service_unavailable;
use bh_link::ends::{Sink, Source};
use bh_types::limits::Limits;
use std::alloc::Global;
use std::io;
use std::mem::replace;

/// How many reads to discard, at most, of a client that has its answer.
const LATE_READS: u32 = 8192;

/// So many bytes that came or went in time give a connection as much time again.
const PROGRESS: usize = 1_048_576;

/// For how many milliseconds no other connection is given its place.
const GRACE: u64 = 1_000;

/// What an operator is told if memory or a file is wanting.
const UNAVAILABLE: &[u8] = b"48 Unavailable\n";

/// Where a connection stands.
#[derive(Drop)]
pub(crate) enum State<R, W> {
    /// Its request comes.
    Coming(Draft<R>, W),
    /// Its request is whole.
    Whole(Draft<R>, W),
    /// Its request was handed over, and is served.
    Served,
    /// Its answer goes out.
    Going(Inlet<R>, Outbox<W>),
    /// Its answer went out, and its client is to close: after so many reads.
    Closing(Inlet<R>, Outlet<W>, u32),
}

/// A connection of a stage.
#[derive(Drop)]
pub(crate) struct Connection<R, W> {
    /// No other one has it.
    pub(crate) number: u64,
    door: Door,
    /// When it came, in milliseconds.
    since: u64,
    /// When its time is over, in milliseconds.
    pub(crate) deadline: u64,
    /// How many bytes came or went since that was set.
    moved: usize,
    /// How many bytes went out, once its answer did.
    sent: u64,
    /// Whether it stands in the list of those that may go on.
    pub(crate) is_ready: bool,
    /// Whether it was told how it went.
    pub(crate) is_told: bool,
    pub(crate) state: State<R, W>,
}

/// How many bytes of a connection are in memory, and in a file, or are to come there.
#[derive(Clone, Copy)]
pub(crate) struct Weight {
    pub(crate) memory: usize,
    pub(crate) file: u64,
}

/// What is awaited of a connection's request.
#[derive(Clone, Copy)]
pub(crate) enum Awaited {
    Head,
    /// The rest of it.
    Rest,
    /// Nothing: it is whole, or there is none.
    Nothing,
}

/// What a step of a connection came to.
#[derive(Clone, Copy, PartialEq, Eq)]
pub(crate) enum Step {
    /// Nothing more can be done until the system tells of it.
    Wait,
    /// There is more to do.
    Again,
    /// Its request is whole.
    Whole,
    /// Its request wants a file.
    Spill,
    /// Memory ran out, and bytes of its request are lost.
    Lost,
    /// Its answer went out.
    Answered,
    Over,
}

impl<R: Source + Drop, W: Sink + Shut + Drop> Connection<R, W> {
    /// One that came.
    pub(crate) fn new(
        alloc: Global,
        number: u64,
        since: u64,
        deadline: u64,
        came: Came<R, W>,
    ) -> Connection<R, W> {
        Connection {
            number,
            door: came.door,
            since,
            deadline,
            moved: 0,
            sent: 0,
            is_ready: false,
            is_told: false,
            state: State::Coming(
                Draft::new(alloc, number, came.door, came.reader),
                came.writer,
            ),
        }
    }

    /// Moves at most as many bytes as one call does. At most so many bytes of a request are kept in
    /// memory.
    pub(crate) fn step(&mut self, limits: &Limits, most: usize) -> Step {
        match &mut self.state {
            State::Coming(draft, _) => take_some(draft, &mut self.moved, limits, most),
            State::Whole(_, _) | State::Served => Step::Wait,
            State::Going(_, outbox) => send_some(outbox, &mut self.moved),
            State::Closing(inlet, _, reads) => see_off(inlet, reads),
        }
    }

    /// Sends some bytes of its answer.
    pub(crate) fn send(&mut self) -> Step {
        match &mut self.state {
            State::Going(_, outbox) => send_some(outbox, &mut self.moved),
            State::Coming(_, _) | State::Whole(_, _) | State::Served | State::Closing(_, _, _) =>
                Step::Wait,
        }
    }

    /// Gives it as much time again, if enough bytes came or went.
    pub(crate) fn extend(&mut self, deadline: u64) {
        if self.moved >= PROGRESS {
            self.moved = 0;
            self.deadline = deadline;
        }
    }

    /// Whether it came less than a second ago.
    pub(crate) fn is_young(&self, now: u64) -> bool {
        now.saturating_sub(self.since) < GRACE
    }

    /// Whether it has no answer and won't be asked for one if no request is served any more.
    pub(crate) fn is_unserved(&self) -> bool {
        match &self.state {
            State::Coming(_, _) | State::Whole(_, _) | State::Served => true,
            State::Going(_, _) | State::Closing(_, _, _) => false,
        }
    }

    /// Whether its time is over. One that is whole is served, however long it waits for that.
    pub(crate) fn is_late(&self, now: u64) -> bool {
        match &self.state {
            State::Whole(_, _) => false,
            State::Served => true,
            State::Coming(_, _) | State::Going(_, _) | State::Closing(_, _, _) => {
                self.deadline < now
            }
        }
    }

    /// How many bytes its request has, if it wants a file for them; else 0.
    pub(crate) fn wants(&self) -> usize {
        match &self.state {
            State::Coming(draft, _) => draft.wants(),
            State::Whole(_, _) | State::Served | State::Going(_, _) | State::Closing(_, _, _) => 0,
        }
    }

    pub(crate) fn weight(&self) -> Weight {
        match &self.state {
            State::Coming(draft, _) | State::Whole(draft, _) => Weight {
                memory: draft.weight(),
                file: draft.spread() as u64,
            },
            State::Going(_, outbox) => Weight {
                memory: outbox.weight(),
                file: outbox.spread(),
            },
            State::Served | State::Closing(_, _, _) => Weight { memory: 0, file: 0 },
        }
    }

    /// Its request, if that is whole and may be applied together with others. It is served from here
    /// on.
    pub(crate) fn take_joining(&mut self) -> Option<(Draft<R>, W)>
        ensures { IfSome result (λ taken. Joins taken.0.door (is_some taken.0.spool) taken.0.kept.items) }
    {
        match replace(&mut self.state, State::Served) {
            State::Whole(draft, writer) => {
                if draft.may_join() {
                    return Some((draft, writer));
                }
                self.state = State::Whole(draft, writer);
                None
            }
            state => {
                self.state = state;
                None
            }
        }
    }

    /// Its request is whole.
    pub(crate) fn complete(&mut self) {
        self.state = match replace(&mut self.state, State::Served) {
            State::Coming(draft, writer) => State::Whole(draft, writer),
            state => state,
        };
    }

    /// Its answer goes out from here on.
    pub(crate) fn answer(&mut self, inlet: Inlet<R>, outbox: Outbox<W>, deadline: u64) {
        self.deadline = deadline;
        self.moved = 0;
        self.state = State::Going(inlet, outbox);
    }

    /// Its answer went out: its client has so long to close.
    pub(crate) fn await_close(&mut self, deadline: u64) {
        self.deadline = deadline;
        self.state = match replace(&mut self.state, State::Served) {
            State::Going(inlet, outbox) => {
                self.sent = outbox.went();
                State::Closing(inlet, outbox.into_outlet(), 0)
            }
            state => state,
        };
    }

    /// Its request can't be kept: the fixed answer goes out, as much of it as its socket takes.
    pub(crate) fn refuse(&mut self, deadline: u64) {
        self.deadline = deadline;
        self.state = match replace(&mut self.state, State::Served) {
            State::Coming(draft, writer) => {
                let mut outlet = Outlet::new(writer);
                send_once(&mut outlet, refusal_at(self.door));
                State::Closing(draft.inlet, outlet, 0)
            }
            state => state,
        };
    }

    /// How it went, if its request can't be kept.
    pub(crate) fn refused(&self, key: usize, now: u64) -> Ended<'_> {
        let answer = refusal_at(self.door);
        Ended {
            answer,
            sent: answer.len() as u64,
            ..self.ended(key, now)
        }
    }

    /// How it went.
    pub(crate) fn ended(&self, key: usize, now: u64) -> Ended<'_> {
        let (first, came, sent): (&[u8], usize, u64) = match &self.state {
            State::Coming(draft, _) | State::Whole(draft, _) => (draft.first(), draft.came(), 0),
            State::Going(_, outbox) => (&[], 0, outbox.went()),
            State::Served | State::Closing(_, _, _) => (&[], 0, self.sent),
        };
        Ended {
            key,
            door: self.door,
            first,
            came: came as u64,
            answer: &[],
            sent,
            took: now.saturating_sub(self.since),
        }
    }
}

impl<R: Source, W> Connection<R, W> {
    /// What is awaited of its request.
    pub(crate) fn awaited(&self) -> Awaited
        ensures is { result ≡ awaited self.now.state }
        ensures coming { result ≢ Awaited.Nothing → IsComing self.now.state }
    {
        match &self.state {
            State::Coming(draft, _) => {
                if draft.is_new() {
                    Awaited::Head
                } else {
                    Awaited::Rest
                }
            }
            State::Whole(_, _) | State::Served | State::Going(_, _) | State::Closing(_, _, _) => {
                Awaited::Nothing
            }
        }
    }
}

impl<R: Spools, W> Connection<R, W> {
    /// What comes of its request from here on is kept in a file.
    pub(crate) fn spill(&mut self) -> io::Result<()> {
        match &mut self.state {
            State::Coming(draft, _) => draft.spill(),
            State::Whole(_, _) | State::Served | State::Going(_, _) | State::Closing(_, _, _) => Ok(
                (),
            ),
        }
    }
}

/// Reads some bytes of a request.
fn take_some<R: Source>(
    draft: &mut Draft<R>,
    moved: &mut usize,
    limits: &Limits,
    most: usize,
) -> Step {
    if draft.wants() > 0 {
        return Step::Spill;
    }
    match draft.read() {
        Ok(count) => {
            *moved = moved.saturating_add(count);
            after_look(draft.look(limits, most))
        }
        Err(_) if draft.lost => Step::Lost,
        Err(error) => after_error(&error),
    }
}

fn after_look(look: Look) -> Step {
    match look {
        Look::Coming => Step::Again,
        Look::Whole | Look::Ended | Look::Spilled => Step::Whole,
        Look::TooLong => Step::Spill,
        Look::Lost => Step::Lost,
    }
}

/// Sends some bytes of an answer.
fn send_some<W: Sink + Shut>(outbox: &mut Outbox<W>, moved: &mut usize) -> Step {
    if outbox.is_empty() {
        return after_shut(outbox);
    }
    match outbox.send() {
        Ok(0) => Step::Over,
        Ok(count) => {
            *moved = moved.saturating_add(count);
            if outbox.is_empty() {
                after_shut(outbox)
            } else {
                Step::Again
            }
        }
        Err(error) => after_error(&error),
    }
}

fn after_shut<W: Shut>(outbox: &mut Outbox<W>) -> Step {
    match outbox.shut() {
        Ok(()) => Step::Answered,
        Err(_) => Step::Over,
    }
}

/// The answer if memory or a file is wanting for a request.
fn refusal_at(door: Door) -> &'static [u8] {
    match door {
        Door::Clients => service_unavailable(),
        Door::Operators => UNAVAILABLE,
    }
}

/// Sends a short text, as much of it as the socket takes at once, and closes the writing half.
fn send_once<W: Sink + Shut>(outlet: &mut Outlet<W>, text: &[u8]) {
    let mut room = [0u8; ROOM];
    let count = text.len().min(ROOM);
    room[..count].copy_from_slice(&text[..count]);
    if count > 0 {
        let _ = outlet.take(&room, count);
    }
    let _ = outlet.shut();
}

/// Reads until the client closes its own half. If a socket is closed with unread bytes, the client
/// may lose the end of the answer.
///
/// RFC 9112, section 9.6
fn see_off<R: Source>(inlet: &mut Inlet<R>, reads: &mut u32) -> Step {
    let mut room = [0u8; ROOM];
    if *reads >= LATE_READS {
        return Step::Over;
    }
    *reads += 1;
    match inlet.give(&mut room, ROOM) {
        Ok(0) => Step::Over,
        Ok(_) => Step::Again,
        Err(error) => after_error(&error),
    }
}

fn after_error(error: &io::Error) -> Step {
    if would_wait(error) {
        Step::Wait
    } else {
        Step::Over
    }
}
