//! A stage as what a server accepts connections of.

ghost use Rattle.std.specs.Prelude.{◌≡◌, ◌&&◌, ⊤, true, false, Some, None, Ok, is_some, option_map, IfOk, IsSomeAnd};
ghost use Rattle.std.specs.String.{string_bytes};
ghost use Rattle.bh_host.specs.declared.reply.Caller.TheVariants.{Operator, Request};
ghost use Rattle.bh_stage.specs.Staged.{IsHanded, IsJoining};
ghost use Rattle.bh_stage.specs.declared.whole.Door.TheVariants.{Clients};
ghost use Rattle.bh_event.specs.declared.order.Asked.TheVariants.{Health, Metrics};
ghost use Rattle.bh_wires.specs.Answers.{HasAccepted, StaysUnless, asked_by, caller_at, health_text as health};
ghost use Rattle.bh_wires.specs.Ends.{IsBrought};
ghost use Rattle.bh_wires.specs.Pace.{taken_as, measured_by};
ghost use Rattle.bh_figures.specs.Page.{page};
ghost use Rattle.bh_figures.specs.declared.page.Readings.{Readings};
ghost use Rattle.bh_figures.specs.Figures.{with_cache, with_garbage};
ghost use Rattle.bh_wires.specs.Sweeping.{HasCounted, IsAgain};

use crate::answers::{accepted_text, asked_of, health_text};
use crate::brought::{Brought, Going, Replying};
use crate::log::{ClockNews, Entry, Note, note_of};
use crate::pace::Pace;
use crate::sweeping::{REPLY, Sweeping};
use bh_connection::{Acceptor, Arrival, CacheUses, Clock, End, Served};
use bh_event::order::Asked;
use bh_figures::figures::Figures;
use bh_figures::page::{Readings, Sizes, page_text};
use bh_host::Caller;
use bh_link::link::Link;
use bh_stage::kept::Kept;
use bh_stage::outbox::Outbox;
use bh_stage::stage::{Handed, Stage};
use bh_stage::whole::Door;
use bh_stage::wires::Wires;
use bh_types::limits::Limits;
use std::alloc::{AllocError, Global};
use std::io;
use std::io::{Cursor, ErrorKind};

/// More bytes than the head of a response has, and bytes that have its status.
const RESPONSE_HEAD: usize = 1024;

const STATUS_LINE: usize = 16;

/// For how many milliseconds a request is waited for before it is asked whether a sweep is due.
const LOOK: u64 = 250;

/// What a front asks of its sockets, beside connections.
pub trait Backing {
    /// Keeps what is logged of a connection that was served, until its answer went out.
    fn note(&mut self, key: usize, note: Note);

    /// How many seconds ago the machine was started.
    fn uptime(&mut self) -> io::Result<u64>;

    /// Told once that the clock is too far ahead, and once that it is back or was taken as right, with
    /// its reading.
    fn tell_clock(&mut self, reading: u64, news: ClockNews);

    /// How many bytes the host's files have.
    fn sizes(&mut self) -> Sizes;

    /// Their bytes, and how long the server has run.
    fn readings(&mut self) -> Readings;

    /// Accepts nothing more.
    fn leave(&mut self);
}

/// By what a front serves.
#[derive(Clone, Copy)]
pub struct Terms<'a, C> {
    /// The limits of the host, by which a request is whole.
    pub limits: Limits,
    pub clock: &'a C,
    /// By how many seconds the clock may run ahead.
    pub clock_step: u64,
    /// How many bytes that nobody needs may stay; `None` for a tenth of what is needed, or 64 MiB.
    pub keep_garbage: Option<u64>,
    /// Whether there is a port for operators, and the secret that their lines begin with.
    pub has_operators: bool,
    pub secret: Option<&'a [u8]>,
    /// Whether each connection is logged.
    pub is_logged: bool,
}

/// A stage, with the connections that are served.
#[derive(Drop)]
pub struct Front<'a, W: Wires, C> {
    alloc: Global,
    stage: Stage<W>,
    /// The limits of the host, by which a request is whole.
    limits: Limits,
    clock: &'a C,
    pace: Pace,
    /// Whether there is a port for operators, and the secret that their lines begin with.
    pub(crate) has_operators: bool,
    secret: Option<&'a [u8]>,
    /// Whether each connection is logged.
    is_logged: bool,
    /// Who is served.
    caller: Caller,
    /// What was accepted and isn't served yet.
    accepted: Option<Handed<W::Reader, W::Writer>>,
    /// Since when, and whether others may be served together with it: an operator's line is served alone.
    since: u64,
    may_join: bool,
    figures: Figures,
    /// When sweeps are due, and their order, unless it is being carried out. Without a port for
    /// operators there are none, since a sweep is an operator's order.
    sweeping: Sweeping,
    pub(crate) sweep: Option<Cursor<Vec<u8>>>,
    /// When the step that is served began, if one is.
    began: Option<u64>,
    ghost alone: { may_join ≡ true → caller ≡ Request },
}

impl<'a, W: Wires + Drop, C> Front<'a, W, C> {
    /// Over a stage. `sweep` is the order by which the host sweeps by itself.
    pub fn new(
        alloc: Global,
        mut stage: Stage<W>,
        terms: Terms<'a, C>,
        sweep: Option<Cursor<Vec<u8>>>,
    ) -> Front<'a, W, C>
        ensures operated { result.has_operators ≡ terms.entry.has_operators }
        ensures secret { result.secret ≡ terms.entry.secret }
        ensures sweep { result.sweep ≡ sweep }
        ensures keeps { result.sweeping.limit ≡ terms.entry.keep_garbage }
    {
        let now = stage.wires().milliseconds();
        Front {
            alloc,
            stage,
            limits: terms.limits,
            clock: terms.clock,
            pace: Pace::new(terms.clock_step),
            has_operators: terms.has_operators,
            secret: terms.secret,
            is_logged: terms.is_logged,
            caller: Caller::Request,
            accepted: None,
            since: now,
            may_join: false,
            figures: Figures::new(),
            sweeping: Sweeping::new(terms.keep_garbage, now),
            sweep,
            began: None,
        }
    }

    /// What is logged of the connection that was served; `None` if memory for it runs out.
    fn note_of(
        &self,
        reading: u64,
        reader: &Kept<W::Reader>,
        response: &[u8],
        served: Served,
    ) -> Option<Note> {
        let request = match self.caller {
            Caller::Request => reader.first(),
            Caller::Operator => &[],
        };
        let entry = Entry {
            caller: self.caller,
            reading,
            request,
            response,
        };
        note_of(self.alloc, &entry, reader.size(), served.trouble).ok()
    }
}

impl<'a, W: Wires + Backing + Drop, C> Front<'a, W, C> {
    /// Waits until all answers went out or their time is over, and accepts nothing more.
    pub fn finish(&mut self) {
        self.stage.wires().leave();
        self.stage.finish(&self.limits);
    }

    /// What a reading is taken for. It is told once that the clock is too far ahead, and once that it
    /// is back.
    fn take(&mut self, reading: u64, uptime: u64) -> u64
        ensures taken { result ≡ taken_as reading self.old.pace.last uptime self.old.pace.step }
        ensures pace { self.new.pace.last ≡ measured_by reading self.old.pace.last uptime self.old.pace.step }
        ensures operated { self.new.has_operators ≡ self.old.has_operators }
    {
        let was_away = self.pace.is_away();
        let taken = self.pace.take(reading, uptime);
        let is_away = self.pace.is_away();
        match (was_away, is_away) {
            (false, true) => self.stage.wires().tell_clock(reading, ClockNews::Leapt),
            (true, false) => self.stage.wires().tell_clock(reading, ClockNews::Back),
            (true, true) | (false, false) => {}
        }
        taken
    }
}

impl<'a, W: Wires + Backing + Drop, C> Front<'a, W, C> {
    /// Whether a step of a sweep begins now, as an operator's order.
    fn begins_sweep(&mut self, now: u64) -> bool
        ensures admitted { result ≡ true → self.old.has_operators ≡ true }
        ensures operated { self.new.has_operators ≡ self.old.has_operators }
    {
        let begins = self.has_operators && self.sweep.is_some() && self.sweeping.is_due(now);
        if begins {
            self.began = Some(now);
            self.caller = Caller::Operator;
            self.may_join = false;
        }
        begins
    }

    /// A request that is whole is the next to be served.
    fn admit(&mut self, handed: Handed<W::Reader, W::Writer>) -> Caller
        ensures admitted { result ≡ Operator → self.old.has_operators ≡ true }
        ensures operated { self.new.has_operators ≡ self.old.has_operators }
        ensures accepted { self.new.accepted ≡ Some handed }
        ensures caller { self.new.caller ≡ result }
        ensures client { handed.door ≡ Clients → result ≡ Request }
    {
        let caller = caller_of(handed.door, self.has_operators);
        self.since = self.stage.wires().milliseconds();
        self.may_join = caller == Caller::Request && handed.reader.may_join(handed.door);
        self.accepted = Some(handed);
        self.caller = caller;
        caller
    }

    /// What an operator's line asks of the server; a client's request asks nothing of it.
    fn asked_by(&self, handed: &Handed<W::Reader, W::Writer>) -> Result<Option<Asked>, AllocError>
        ensures asked { IfOk result (λ asked. asked ≡ asked_by (caller_at handed.now.door self.now.has_operators)
            (option_map (λ s. s.now) self.now.secret) handed.now.reader.bytes.items) }
        ensures clients { handed.now.door ≡ Clients → result ≡ Ok None }
    {
        match caller_of(handed.door, self.has_operators) {
            Caller::Request => Ok(None),
            Caller::Operator => asked_of(self.alloc, self.secret, handed.reader.first()),
        }
    }

    /// The two ends of what is served next.
    fn ends(&mut self) -> (Brought<W::Reader>, Replying<W::Writer>)
        ensures operated { self.new.has_operators ≡ self.old.has_operators }
        ensures own { IsBrought (is_some self.old.began) self.old.sweep result.0 }
    {
        if self.began.is_some() {
            if let Some(line) = self.sweep.take() {
                return (Brought::Own(line), Replying::own(self.alloc, REPLY));
            }
        }
        let noted = if self.is_logged {
            RESPONSE_HEAD
        } else {
            STATUS_LINE
        };
        match self.accepted.take() {
            Some(handed) => {
                let going = Going {
                    turn: handed.turn,
                    since: self.since,
                };
                let writer = Replying::new(self.alloc, Some(handed.writer), Some(going), noted);
                (Brought::Request(handed.reader), writer)
            }
            None => (
                Brought::Nobody,
                Replying::new(self.alloc, None, None, noted),
            ),
        }
    }

    /// A step of a sweep was answered so.
    fn end_sweep(&mut self, mut line: Cursor<Vec<u8>>, reply: &[u8])
        ensures operated { self.new.has_operators ≡ self.old.has_operators }
        ensures again { IsSomeAnd self.new.sweep (IsAgain line) }
    {
        let now = self.stage.wires().milliseconds();
        let began = self.began.take().unwrap_or(now);
        self.figures.count_step(now.saturating_sub(began));
        self.sweeping.step(began, now, reply);
        line.set_position(0);
        self.sweep = Some(line);
    }

    /// Counts a connection that was served since then, and what it may have written.
    fn count(&mut self, since: u64, reader: &Kept<W::Reader>, response: &[u8], served: Served)
        ensures { self.new.has_operators ≡ self.old.has_operators }
    {
        let now = self.stage.wires().milliseconds();
        let (request, received) = (reader.first(), reader.size());
        self.sweeping.note_request(request);
        match self.caller {
            Caller::Request => {
                let took = now.saturating_sub(since);
                self.figures
                    .count_request(request, response, received, served.sent, took);
            }
            Caller::Operator => self.figures.count_line(),
        }
    }

    /// A connection that was served is handed back.
    fn close_connection(
        &mut self,
        reading: u64,
        reader: Kept<W::Reader>,
        writer: Replying<W::Writer>,
        served: Served,
    )
        ensures { self.new.has_operators ≡ self.old.has_operators }
    {
        let (Some(going), Some(outbox)) = (writer.going, writer.outbox) else {
            return;
        };
        let first = writer.first.as_slice();
        self.count(going.since, &reader, first, served);
        if self.is_logged {
            if let Some(note) = self.note_of(reading, &reader, first, served) {
                self.stage.wires().note(going.turn.key, note);
            }
        }
        let is_answered = served.ended == End::Whole || served.ended == End::StoreFailed;
        self.stage.close(going.turn, reader, outbox, is_answered);
    }
}

impl<'a, W: Wires + Backing + Drop, C: Clock> Front<'a, W, C> {
    /// Answers a line that asks the server about itself: it isn't logged, and doesn't count as
    /// served. Returns any other request. If memory runs out, it is taken for another line.
    fn unless_asked(
        &mut self,
        handed: Handed<W::Reader, W::Writer>,
    ) -> Option<Handed<W::Reader, W::Writer>>
        ensures operated { self.new.has_operators ≡ self.old.has_operators }
        ensures clients { handed.door ≡ Clients → result ≡ Some handed }
        ensures clock { handed.door ≡ Clients → self.new.pace ≡ self.old.pace }
    {
        match self.asked_by(&handed).unwrap_or(None) {
            Some(asked) => {
                self.tell(asked, handed);
                None
            }
            None => Some(handed),
        }
    }

    /// Answers a line. If memory runs out, its connection is closed.
    fn tell(&mut self, asked: Asked, handed: Handed<W::Reader, W::Writer>)
        ensures operated { self.new.has_operators ≡ self.old.has_operators }
        ensures clock { StaysUnless asked self.old.pace self.new.pace }
    {
        self.figures.count_line();
        self.stage.wires().note(handed.turn.key, Note::Nothing);
        let mut writer = Link::new(handed.writer);
        let is_answered = match self.answer(asked) {
            Ok(text) => writer.send(text.as_bytes()) == text.len(),
            Err(_) => false,
        };
        self.stage.close(handed.turn, handed.reader, writer.into_inner(), is_answered);
    }

    fn answer(&mut self, asked: Asked) -> Result<String, AllocError>
        ensures operated { self.new.has_operators ≡ self.old.has_operators }
        ensures clock { StaysUnless asked self.old.pace self.new.pace }
        ensures metrics { asked ≡ Metrics
            → IfOk result (λ text. (readings : Readings) × (string_bytes text ≡ page self.old.figures readings)) }
        ensures health { asked ≡ Health → IfOk result (λ text. string_bytes text ≡ health self.old.pace.is_away) }
    {
        match asked {
            Asked::Health => health_text(self.alloc, self.pace.is_away()),
            Asked::Metrics => self.metrics_text(),
            Asked::ClockAccept => {
                let reading = self.accept_clock();
                accepted_text(self.alloc, reading)
            }
        }
    }

    /// The page of what was counted, and of what is read now.
    fn metrics_text(&mut self) -> Result<String, AllocError>
        ensures operated { self.new.has_operators ≡ self.old.has_operators }
        ensures clock { self.new.pace ≡ self.old.pace }
        ensures text { IfOk result (λ text. (readings : Readings) × (string_bytes text ≡ page self.old.figures readings)) }
    {
        let readings = self.stage.wires().readings();
        page_text(self.alloc, &self.figures, readings)
    }

    /// Takes the clock's present reading as right, and returns it; `None` if it can't be read or is
    /// out of range.
    fn accept_clock(&mut self) -> Option<u64>
        ensures operated { self.new.has_operators ≡ self.old.has_operators }
        ensures clock { HasAccepted self.old.pace result self.new.pace }
    {
        let reading = self.clock.seconds().ok()?;
        let uptime = self.stage.wires().uptime().ok()?;
        if !self.pace.accept(reading, uptime) {
            return None;
        }
        self.stage.wires().tell_clock(reading, ClockNews::Accepted);
        Some(reading)
    }
}

impl<'a, W: Wires + Backing + Drop, C: Clock> Acceptor for Front<'a, W, C> {
    type Reader = Brought<W::Reader>;

    type Writer = Replying<W::Writer>;

    ghost operated = { λ it. it.has_operators };

    /// Waits until a request is whole, or the next step of a sweep is due.
    fn accept(&mut self) -> io::Result<Caller> {
        for tried in 0..u64::MAX {
            let now = self.stage.wires().milliseconds();
            if self.begins_sweep(now) {
                return Ok(Caller::Operator);
            }
            let until = now.saturating_add(LOOK);
            if let Some(handed) = self.stage.accept_until(&self.limits, until)? {
                if let Some(handed) = self.unless_asked(handed) {
                    return Ok(self.admit(handed));
                }
            }
        }
        Err(io::Error::from(ErrorKind::TimedOut))
    }

    /// Brings the next request that is whole, if it and the current one may be applied together: both are
    /// clients'. Any other one stays the next.
    fn accept_more(&mut self) -> bool
        ensures calls { ⊤ }
        ensures operated { self.new.has_operators ≡ self.old.has_operators }
        ensures clients { result ≡ true → (self.old.caller ≡ Request) × (self.new.caller ≡ Request) }
        ensures joins { result ≡ true → IsSomeAnd self.new.accepted IsJoining }
        ensures whole { result ≡ true → IsSomeAnd self.new.accepted (IsHanded self.old.limits) }
        ensures same { result ≡ false → self.new.accepted ≡ self.old.accepted }
    {
        if !self.may_join {
            return false;
        }
        match self.stage.accept_more(&self.limits) {
            Some(handed) => {
                let _ = self.admit(handed);
                true
            }
            None => false,
        }
    }

    fn seconds(&mut self) -> io::Result<u64> {
        let reading = self.clock.seconds()?;
        let uptime = self.stage.wires().uptime()?;
        Ok(self.take(reading, uptime))
    }

    fn open(&mut self, reading: u64) -> Arrival<Self::Reader, Self::Writer> {
        let (reader, writer) = self.ends();
        Arrival {
            reading,
            reader: Link::new(reader),
            writer: Link::new(writer),
        }
    }

    fn close(&mut self, arrival: Arrival<Self::Reader, Self::Writer>, served: Served)
        ensures calls { ⊤ }
        ensures operated { self.new.has_operators ≡ self.old.has_operators }
    {
        self.figures.note_stamp(served.stamp);
        let writer = arrival.writer.into_inner();
        match arrival.reader.into_inner() {
            Brought::Request(reader) => {
                self.close_connection(arrival.reading, reader, writer, served)
            }
            Brought::Own(line) => self.end_sweep(line, writer.first.as_slice()),
            Brought::Nobody => {}
        }
    }

    fn wants_count(&mut self) -> bool
        ensures calls { ⊤ }
        ensures operated { self.new.has_operators ≡ self.old.has_operators }
        ensures wants { result ≡ self.old.has_operators && self.old.sweeping.is_asked }
    {
        self.has_operators && self.sweeping.is_asked
    }

    fn take_cache(&mut self, uses: CacheUses)
        ensures calls { ⊤ }
        ensures operated { self.new.has_operators ≡ self.old.has_operators }
        ensures figures { self.new.figures ≡ with_cache self.old.figures uses.hits uses.misses }
    {
        self.figures.note_cache(uses.hits, uses.misses);
    }

    /// Takes how many bytes nobody needs, with the size of the host's file, which tells what is needed.
    fn take_count(&mut self, bytes: u64)
        ensures calls { ⊤ }
        ensures operated { self.new.has_operators ≡ self.old.has_operators }
        ensures counted { HasCounted bytes self.old.sweeping self.new.sweeping }
        ensures figures { self.new.figures ≡ with_garbage self.old.figures bytes self.new.sweeping.keep }
    {
        let sizes = self.stage.wires().sizes();
        self.sweeping.take_count(bytes, sizes.file);
        self.figures.note_garbage(bytes, self.sweeping.keep);
    }
}

/// Who connected at a listener.
fn caller_of(door: Door, has_operators: bool) -> Caller
    ensures admitted { result ≡ Operator → has_operators ≡ true }
    ensures client { door ≡ Clients → result ≡ Request }
    ensures caller { result ≡ caller_at door has_operators }
{
    match (door, has_operators) {
        (Door::Operators, true) => Caller::Operator,
        (Door::Operators, false) | (Door::Clients, _) => Caller::Request,
    }
}
