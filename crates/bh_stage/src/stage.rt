//! Many connections in one thread. Between two requests all sockets move; a request is handed over
//! once it is whole, and its answer is sent while others come.

ghost use Rattle.std.specs.Prelude.{[], IfOk, IfSome, is_some};
ghost use Rattle.bh_stage.specs.Joins.{Joins};
ghost use Rattle.bh_stage.specs.Staged.{IsHanded, IsJoining};

use crate::connection::{Connection, State, Step, Weight};
use crate::draft::{Draft, Look, MOST_KEPT};
use crate::kept::Kept;
use crate::order::{Order, Turn};
use crate::outbox::{Allowance, MOST_HELD, Outbox};
use crate::patience::Patience;
use crate::places::Places;
use crate::waiting::too_late;
use crate::whole::Door;
use crate::wires::{Accepted, Came, Wires};
use bh_link::ends::{Sink, Source};
use bh_types::limits::Limits;
use slab::Slab;
use std::alloc::{AllocError, Global};
use std::collections::VecDeque;
use std::io;
use std::mem::replace;

/// How many connections are accepted in a turn.
const ACCEPTED: u32 = 64;

/// How many steps connections go in a turn, each of at most 16 KiB.
const STEPS: u32 = 32;

/// How many requests are handed over before the next turn.
const HANDED: u32 = 8;

/// How many milliseconds requests may be served before the next turn.
const BUSY: u64 = 20;

/// How many bytes of a connection are kept in memory in any case.
const LEAST_KEPT: usize = 32_768;

/// How often deadlines are looked at, in milliseconds.
const TICK: u64 = 250;

/// How many milliseconds to wait before the next accept, if the system has no file descriptor or
/// memory for one.
const PAUSE: u64 = 100;

/// How many milliseconds to wait for a client to close, after its answer went out.
const CLOSING: u64 = 1_000;

/// How many requests are handed over before the next turn, if some of them are served together.
const MOST_HANDED: u32 = 64;

/// How many bytes requests have, at most, that are served together.
const MOST_TOGETHER: usize = 1_048_576;

/// How much of an answer may wait, if its request is served together with one before: the answer to that
/// one may have all other room.
const JOINED: Allowance = Allowance {
    memory: LEAST_KEPT,
    file: 0,
    milliseconds: 0,
};

/// How connections are served.
#[derive(Clone, Copy)]
pub struct Measures {
    /// How many milliseconds a request may take to come, and then its answer to go out.
    pub timeout: u64,
    /// How many connections there are at most.
    pub connections: usize,
    /// How many bytes of requests and answers are kept in memory, beside 32 KiB of each; and how
    /// many in files, of which requests have half, but one request has room in any case.
    pub memory: usize,
    pub files: u64,
}

/// A request that is handed over, and its answer.
#[derive(Drop)]
pub struct Handed<R, W> {
    pub turn: Turn,
    pub door: Door,
    pub reader: Kept<R>,
    pub writer: Outbox<W>,
}

/// Many connections.
#[derive(Drop)]
pub struct Stage<W: Wires> {
    alloc: Global,
    wires: W,
    measures: Measures,
    connections: Slab<Connection<W::Reader, W::Writer>>,
    /// The keys of those that may go on.
    ready: VecDeque<usize>,
    told: Vec<usize>,
    order: Order,
    places: Places,
    /// The number of the next connection.
    next: u64,
    /// The time of this turn, in milliseconds. It doesn't pass while a request is served.
    now: u64,
    /// How many milliseconds requests were served.
    away: u64,
    /// When the last request was handed over, or the last one taken back after it.
    left: u64,
    /// When deadlines were looked at.
    looked: u64,
    /// Until when nothing is accepted.
    paused: u64,
    /// Whether another connection may wait to be accepted.
    is_crowded: bool,
    /// How many requests were handed over since the last turn, and how many milliseconds they took.
    handed: u32,
    busy: u64,
    /// How many bytes the requests have that are served together now.
    together: usize,
    /// For how long answers without room may hold everybody up.
    patience: Patience,
    /// How many bytes of all connections are in memory and in files, or are to come there.
    memory: usize,
    files: u64,
    /// Whether a request waits for room in files.
    is_short: bool,
    /// Whether nothing more is accepted.
    is_ending: bool,
}

impl<W: Wires + Drop> Stage<W> {
    /// All memory that grows with the number of connections is taken here.
    pub fn new(alloc: Global, mut wires: W, measures: Measures) -> Result<Stage<W>, AllocError> {
        let places = measures.connections;
        let patience = Patience::new(wires.milliseconds());
        Ok(Stage {
            alloc,
            wires,
            measures,
            connections: Slab::with_capacity(alloc, places)?,
            ready: VecDeque::with_capacity(alloc, places)?,
            told: Vec::with_capacity(alloc, places)?,
            order: Order::new(alloc, places)?,
            places: Places::new(alloc, places)?,
            next: 0,
            now: 0,
            away: 0,
            left: 0,
            looked: 0,
            paused: 0,
            is_crowded: false,
            handed: 0,
            busy: 0,
            together: 0,
            patience,
            memory: 0,
            files: 0,
            is_short: false,
            is_ending: false,
        })
    }

    /// What the sockets are asked by.
    pub fn wires(&mut self) -> &mut W {
        &mut self.wires
    }

    /// Waits for the next request that is whole, and hands it over.
    pub fn accept(&mut self, limits: &Limits) -> io::Result<Handed<W::Reader, W::Writer>>
        ensures { IfOk result (IsHanded limits.now) }
    {
        match self.accept_until(limits, u64::MAX)? {
            Some(handed) => Ok(handed),
            None => Err(too_late()),
        }
    }

    /// Waits for the next request that is whole, and hands it over. If none is whole by that time of
    /// the clock of `Wires`, in milliseconds, it returns `None`, at most 250 ms later.
    pub fn accept_until(
        &mut self,
        limits: &Limits,
        until: u64,
    ) -> io::Result<Option<Handed<W::Reader, W::Writer>>>
        ensures { IfOk result (λ found. IfSome found (IsHanded limits.now)) }
    {
        for tried in 0..u64::MAX {
            if self.order.is_empty() || self.handed >= HANDED || self.busy >= BUSY {
                self.turn(limits)?;
            }
            let now = self.wires.milliseconds();
            if let Some(handed) = self.next_whole(limits, now) {
                self.handed = self.handed.saturating_add(1);
                self.left = now;
                return Ok(Some(handed));
            }
            if now >= until {
                return Ok(None);
            }
        }
        Ok(None)
    }

    /// Hands over another request, to be served together with the last one that was handed over: the
    /// next one, if it is whole already, a short one of a client, and in memory. Nothing is read, and
    /// nothing waited for. `None` also if 64 were handed over since sockets moved last, or if those that
    /// are served together have 1 MiB.
    pub fn accept_more(&mut self, limits: &Limits) -> Option<Handed<W::Reader, W::Writer>>
        ensures handed { IfSome result (IsHanded limits.now) }
        ensures joins { IfSome result IsJoining }
    {
        if self.handed >= MOST_HANDED {
            return None;
        }
        let turn = self.order.first()?;
        let (draft, writer) = self.take_joining(turn)?;
        self.handed = self.handed.saturating_add(1);
        handed_over(self.alloc, limits, turn, draft, writer, JOINED)
    }

    /// Takes back the ends of a connection that was served. Of several that were handed over together,
    /// each counts the time since the one before it was taken back. If its answer is as it should be, it is
    /// sent as its socket takes it; if not, the connection is closed.
    pub fn close(
        &mut self,
        turn: Turn,
        reader: Kept<W::Reader>,
        writer: Outbox<W::Writer>,
        is_answered: bool,
    ) {
        let now = self.wires.milliseconds();
        let took = now.saturating_sub(self.left);
        self.left = now;
        self.patience.spend(writer.waited());
        self.away = self.away.saturating_add(took);
        self.busy = self.busy.saturating_add(took);
        let deadline = self.now.saturating_add(self.measures.timeout);
        let Some(connection) = self.connections.get_mut(turn.key) else {
            return;
        };
        if connection.number != turn.number {
            return;
        }
        connection.answer(reader.into_inlet(), writer, deadline);
        let weight = connection.weight();
        self.add(weight);
        if is_answered {
            self.send_on(turn.key);
        } else {
            self.end(turn.key);
        }
    }

    /// Waits until all answers went out or their time is over, and accepts nothing more.
    pub fn finish(&mut self, limits: &Limits) {
        self.is_ending = true;
        for tried in 0..u64::MAX {
            self.end_all(true);
            if self.connections.is_empty() || self.turn(limits).is_err() {
                return;
            }
        }
    }

    /// The request that became whole first, if there is one, at that time of the clock.
    fn next_whole(&mut self, limits: &Limits, now: u64) -> Option<Handed<W::Reader, W::Writer>>
        ensures { IfSome result (IsHanded limits.now) }
    {
        let turn = self.order.next()?;
        let alloc = self.alloc;
        let allowance = self.allowance(now);
        let connection = self.connections.get_mut(turn.key)?;
        if connection.number != turn.number {
            return None;
        }
        let weight = connection.weight();
        match replace(&mut connection.state, State::Served) {
            State::Whole(draft, writer) => {
                self.subtract(weight);
                self.together = weight.memory;
                handed_over(alloc, limits, turn, draft, writer, allowance)
            }
            state => {
                connection.state = state;
                None
            }
        }
    }

    /// The request of a turn, which is the next, if it may be served together with the last ones that
    /// were handed over.
    fn take_joining(&mut self, turn: Turn) -> Option<(Draft<W::Reader>, W::Writer)>
        ensures { IfSome result (λ taken. Joins taken.0.door (is_some taken.0.spool) taken.0.kept.items) }
    {
        let connection = self.connections.get_mut(turn.key)?;
        let weight = connection.weight();
        let together = self.together.saturating_add(weight.memory);
        if connection.number != turn.number || together > MOST_TOGETHER {
            return None;
        }
        let taken = connection.take_joining()?;
        let _ = self.order.next();
        self.subtract(weight);
        self.together = together;
        Some(taken)
    }

    /// How much of the next answer may wait: what is left of memory, of files, and of the time for which
    /// everybody may be held up.
    fn allowance(&mut self, now: u64) -> Allowance {
        self.patience.refill(now);
        Allowance {
            memory: self.most_of(MOST_HELD),
            file: self.measures.files.saturating_sub(self.files),
            milliseconds: self.measures.timeout.min(self.patience.left()),
        }
    }

    /// How many bytes of a request or an answer are kept in memory now, of so many at most.
    fn most_of(&self, most: usize) -> usize {
        let left = self.measures.memory.saturating_sub(self.memory);
        left.clamp(LEAST_KEPT, most.max(LEAST_KEPT))
    }

    fn add(&mut self, weight: Weight) {
        self.memory = self.memory.saturating_add(weight.memory);
        self.files = self.files.saturating_add(weight.file);
    }

    fn subtract(&mut self, weight: Weight) {
        self.memory = self.memory.saturating_sub(weight.memory);
        self.files = self.files.saturating_sub(weight.file);
    }

    /// One turn: who may go on is asked, connections are accepted, and those that may go on do.
    fn turn(&mut self, limits: &Limits) -> io::Result<()> {
        self.handed = 0;
        self.busy = 0;
        self.hear()?;
        self.take_in(limits)?;
        self.go_on(limits);
        self.look_after();
        Ok(())
    }

    /// How many milliseconds to wait until somebody may go on.
    fn wait(&self) -> u64 {
        let is_idle = self.ready.is_empty() && self.order.is_empty() && !self.is_crowded;
        if !is_idle {
            0
        } else if self.now < self.paused {
            PAUSE
        } else {
            TICK
        }
    }

    /// Asks who may go on, and waits if nobody else may.
    fn hear(&mut self) -> io::Result<()> {
        let wait = self.wait();
        self.told.clear();
        self.wires.poll(wait, &mut self.told)?;
        self.now = self.wires.milliseconds().saturating_sub(self.away);
        let told = replace(&mut self.told, Vec::new(self.alloc));
        for key in told.as_slice() {
            self.mark(*key);
        }
        self.told = told;
        Ok(())
    }

    /// A connection may go on.
    fn mark(&mut self, key: usize) {
        if let Some(connection) = self.connections.get_mut(key) {
            if !connection.is_ready {
                connection.is_ready = self.ready.push_back(key).is_ok();
            }
        }
    }

    /// Accepts those that wait.
    fn take_in(&mut self, limits: &Limits) -> io::Result<()> {
        self.is_crowded = false;
        if self.now < self.paused || self.is_ending {
            return Ok(());
        }
        for taken in 0..ACCEPTED {
            if !self.take_one(limits)? {
                return Ok(());
            }
        }
        self.is_crowded = true;
        Ok(())
    }

    /// Accepts one. Returns whether another one may wait.
    fn take_one(&mut self, limits: &Limits) -> io::Result<bool> {
        let place = self.place();
        if self.is_full() && place.is_none() {
            return Ok(false);
        }
        match self
            .wires
            .accept(place.unwrap_or(self.connections.vacant_key()))?
        {
            Accepted::Nobody => Ok(false),
            Accepted::NoRoom => {
                self.paused = self.now.saturating_add(PAUSE);
                Ok(false)
            }
            Accepted::One(came) => {
                self.admit(came, place, limits);
                Ok(true)
            }
        }
    }

    /// Adds a connection, and reads what came of its request. If there is no place for it, that of
    /// another one is taken.
    fn admit(&mut self, came: Came<W::Reader, W::Writer>, place: Option<usize>, limits: &Limits) {
        if let Some(key) = place {
            self.end(key);
        }
        let number = self.next;
        self.next = number.wrapping_add(1);
        let since = self.now.saturating_add(self.away);
        let deadline = self.now.saturating_add(self.measures.timeout);
        let connection = Connection::new(self.alloc, number, since, deadline, came);
        let Ok(key) = self.connections.insert(connection) else {
            return;
        };
        if self
            .places
            .push(Turn { number, key }, &self.connections)
            .is_ok()
        {
            self.step(key, limits);
        } else {
            self.end(key);
        }
    }

    fn is_full(&self) -> bool {
        self.connections.len() >= self.measures.connections
    }

    /// The key of the connection that gives its place to the next, if there are as many as may be. If
    /// that came less than a second ago, the next one waits.
    fn place(&mut self) -> Option<usize> {
        if !self.is_full() {
            return None;
        }
        let key = self.places.first(&self.connections)?;
        let now = self.now.saturating_add(self.away);
        match self.connections.get(key) {
            Some(connection) if !connection.is_young(now) => Some(key),
            Some(_) | None => None,
        }
    }

    /// Those that may go on do, one after another, so many steps in all.
    fn go_on(&mut self, limits: &Limits) {
        for step in 0..STEPS {
            let Some(key) = self.ready.pop_front() else {
                return;
            };
            self.step(key, limits);
        }
    }

    /// One connection goes a step on.
    fn step(&mut self, key: usize, limits: &Limits) {
        let most = self.most_of(MOST_KEPT);
        let deadline = self.now.saturating_add(self.measures.timeout);
        let Some(connection) = self.connections.get_mut(key) else {
            return;
        };
        connection.is_ready = false;
        let before = connection.weight();
        let step = connection.step(limits, most);
        connection.extend(deadline);
        let after = connection.weight();
        self.subtract(before);
        self.add(after);
        self.after(key, step);
    }

    /// What can be sent of an answer at once is.
    fn send_on(&mut self, key: usize) {
        let Some(connection) = self.connections.get_mut(key) else {
            return;
        };
        let before = connection.weight();
        let step = connection.send();
        let after = connection.weight();
        self.subtract(before);
        self.add(after);
        self.after(key, step);
    }

    /// What follows a step.
    fn after(&mut self, key: usize, step: Step) {
        match step {
            Step::Wait => {}
            Step::Again => self.mark(key),
            Step::Whole => self.complete(key),
            Step::Spill => self.spill(key),
            Step::Lost => self.refuse(key),
            Step::Answered => self.await_close(key),
            Step::Over => self.end(key),
        }
    }

    /// A request is whole.
    fn complete(&mut self, key: usize) {
        let Some(connection) = self.connections.get_mut(key) else {
            return;
        };
        connection.complete();
        let number = connection.number;
        if self.order.push(Turn { number, key }).is_err() {
            self.end(key);
        }
    }

    /// A request wants a file. If requests have no room for it in files, it waits; one alone always
    /// has room.
    fn spill(&mut self, key: usize) {
        let room = (self.measures.files / 2).saturating_sub(self.files);
        let Some(connection) = self.connections.get_mut(key) else {
            return;
        };
        if connection.wants() as u64 > room && self.files > 0 {
            self.is_short = true;
            return;
        }
        let before = connection.weight();
        let spilled = connection.spill();
        let after = connection.weight();
        self.subtract(before);
        self.add(after);
        if spilled.is_ok() {
            self.mark(key);
        } else {
            self.refuse(key);
        }
    }

    /// A request can't be kept.
    fn refuse(&mut self, key: usize) {
        let deadline = self.now.saturating_add(CLOSING);
        let now = self.wires.milliseconds();
        if let Some(connection) = self.connections.get_mut(key) {
            self.wires.tell(&connection.refused(key, now));
            connection.is_told = true;
            let before = connection.weight();
            connection.refuse(deadline);
            self.subtract(before);
        }
        self.mark(key);
    }

    /// An answer went out.
    fn await_close(&mut self, key: usize) {
        let deadline = self.now.saturating_add(CLOSING);
        if let Some(connection) = self.connections.get_mut(key) {
            let before = connection.weight();
            connection.await_close(deadline);
            self.subtract(before);
        }
        self.tell(key);
        self.mark(key);
    }

    /// A connection is closed.
    fn end(&mut self, key: usize) {
        self.tell(key);
        if let Some(connection) = self.connections.try_remove(key) {
            self.subtract(connection.weight());
        }
    }

    /// Tells how a connection went, once.
    fn tell(&mut self, key: usize) {
        let now = self.wires.milliseconds();
        if let Some(connection) = self.connections.get_mut(key) {
            if !connection.is_told {
                connection.is_told = true;
                self.wires.tell(&connection.ended(key, now));
            }
        }
    }

    /// Closes those whose time is over, and asks again those that wait for room in files.
    fn look_after(&mut self) {
        if self.now.saturating_sub(self.looked) < TICK {
            return;
        }
        self.looked = self.now;
        self.end_all(false);
        if replace(&mut self.is_short, false) {
            self.mark_wanting();
        }
    }

    /// Closes those whose time is over, or all that have no answer.
    fn end_all(&mut self, unserved: bool) {
        for key in 0..self.connections.capacity() {
            let is_over = match self.connections.get(key) {
                Some(connection) if unserved => connection.is_unserved(),
                Some(connection) => connection.is_late(self.now),
                None => false,
            };
            if is_over {
                self.end(key);
            }
        }
    }

    /// Those that wait for room in files may go on.
    fn mark_wanting(&mut self) {
        for key in 0..self.connections.capacity() {
            if self
                .connections
                .get(key)
                .is_some_and(|connection| connection.wants() > 0)
            {
                self.mark(key);
            }
        }
    }
}

/// The request of a draft, if it is whole, or no more of it comes.
fn handed_over<R: Source + Drop, W: Sink + Drop>(
    alloc: Global,
    limits: &Limits,
    turn: Turn,
    mut draft: Draft<R>,
    writer: W,
    allowance: Allowance,
) -> Option<Handed<R, W>>
    ensures handed { IfSome result (IsHanded limits.now) }
    ensures joins { Joins draft.door (is_some draft.spool) draft.kept.items → IfSome result IsJoining }
{
    if draft.number() != turn.number {
        return None;
    }
    match draft.look(limits, MOST_KEPT) {
        Look::Whole | Look::Ended | Look::Spilled => {}
        Look::Coming | Look::TooLong | Look::Lost => return None,
    }
    let door = draft.door();
    let reader = Kept::of(draft)?;
    Some(Handed {
        turn,
        door,
        reader,
        writer: Outbox::new(alloc, writer, allowance),
    })
}
