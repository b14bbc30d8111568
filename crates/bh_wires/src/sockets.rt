//! The sockets of a server, of which mio tells who may go on.

use crate::ends::{Reading, Writing, halves};
use crate::files::Site;
use crate::front::Backing;
use crate::listener::{Listener, Stream};
use crate::log::{ClockNews, Entry, Note, clock_line, line_of, note_of};
use crate::socket_file::SocketFile;
use crate::uptime::uptime;
use bh_connection::Clock;
use bh_figures::page::{Readings, Sizes};
use bh_host::Caller;
use bh_stage::whole::Door;
use bh_stage::wires::{Accepted, Came, Ended, Wires};
use mio::{Events, Poll, Token};
use std::alloc::{AllocError, Global};
use std::fs::{File, Files};
use std::io;
use std::io::ErrorKind;
use std::net::Net;
use std::time::Duration;

/// The tokens of the listeners; no connection has them as its key.
const CLIENTS: Token = Token(usize::MAX);

const OPERATORS: Token = Token(usize::MAX - 1);

/// How many accepts are tried, where no connection came of some.
const TRIES: u32 = 64;

/// How many events the system tells at once.
const EVENTS: usize = 1024;

// Temporary errors of accept(2). After the first three, the next connection may come at once.
const EINTR: i32 = 4;

const EAGAIN: i32 = 11;

const ECONNABORTED: i32 = 103;

const ENOMEM: i32 = 12;

const ENFILE: i32 = 23;

const EMFILE: i32 = 24;

const ENOBUFS: i32 = 105;

/// Why no connection was accepted.
#[derive(Clone, Copy, PartialEq, Eq)]
enum Fault {
    /// None waits.
    Nobody,
    /// The next one may come at once.
    Passing,
    /// The system has no file descriptor or memory for one.
    NoRoom,
    Lasting,
}

/// What an accept came to.
#[derive(Drop)]
enum Next {
    One(Door, Stream),
    Nobody,
    NoRoom,
    Broken(io::Error),
}

/// A listener, with its file if it has one.
#[derive(Drop)]
pub(crate) struct Bound<'a> {
    pub(crate) listener: Listener,
    pub(crate) file: Option<SocketFile<'a>>,
}

/// The sockets of a server.
#[derive(Drop)]
pub struct Sockets<'a, N, C> {
    alloc: Global,
    poll: Poll,
    events: Events,
    clients: Option<Listener>,
    operators: Option<Listener>,
    /// The files of these, if they have some.
    client_file: Option<SocketFile<'a>>,
    operator_file: Option<SocketFile<'a>>,
    /// Whether a connection may wait at the listener of clients, and at that of operators.
    client_waits: bool,
    operator_waits: bool,
    /// At which one a connection was accepted last.
    last: Door,
    /// One that was accepted when there was no memory for it.
    spare: Option<(Door, Stream)>,
    site: &'a Site<'a, N, C>,
    /// What is logged of those that were served, by their keys; empty if nothing is logged.
    notes: Vec<Option<Note>>,
    /// When these began, in seconds since the machine was started.
    began: Option<u64>,
}

impl<'a, N: Net, C: Clock> Sockets<'a, N, C> {
    /// None yet. Where connections are logged, `logged` is how many there are at most.
    pub(crate) fn new(
        alloc: Global,
        site: &'a Site<'a, N, C>,
        logged: usize,
    ) -> io::Result<Sockets<'a, N, C>> {
        Ok(Sockets {
            alloc,
            poll: Poll::new(site.net)?,
            events: Events::with_capacity(alloc, EVENTS)?,
            clients: None,
            operators: None,
            client_file: None,
            operator_file: None,
            client_waits: false,
            operator_waits: false,
            last: Door::Operators,
            spare: None,
            site,
            notes: no_notes(alloc, logged)?,
            began: uptime().ok(),
        })
    }
}

impl<'a, N, C: Clock> Sockets<'a, N, C> {
    /// Accepts clients of a listener from here on.
    pub(crate) fn take_clients(&mut self, bound: Bound<'a>) -> io::Result<()> {
        self.client_file = bound.file;
        let mut listener = bound.listener;
        listener.register(self.poll.registry(), CLIENTS)?;
        self.clients = Some(listener);
        self.client_waits = true;
        Ok(())
    }

    /// Accepts operators of a listener from here on.
    pub(crate) fn take_operators(&mut self, bound: Bound<'a>) -> io::Result<()> {
        self.operator_file = bound.file;
        let mut listener = bound.listener;
        listener.register(self.poll.registry(), OPERATORS)?;
        self.operators = Some(listener);
        self.operator_waits = true;
        Ok(())
    }

    /// Who is accepted next: after a client an operator, if one may wait, and after an operator a
    /// client. `None` if nobody may wait.
    fn next_door(&self) -> Option<Door> {
        match (self.client_waits, self.operator_waits, self.last) {
            (false, false, _) => None,
            (true, false, _) => Some(Door::Clients),
            (false, true, _) => Some(Door::Operators),
            (true, true, Door::Clients) => Some(Door::Operators),
            (true, true, Door::Operators) => Some(Door::Clients),
        }
    }

    /// A connection at a listener.
    fn accept_at(&self, door: Door) -> io::Result<Stream> {
        let listener = match door {
            Door::Clients => &self.clients,
            Door::Operators => &self.operators,
        };
        match listener {
            Some(listener) => listener.accept(),
            None => Err(io::Error::from(ErrorKind::NotConnected)),
        }
    }

    /// The next connection, if one waits.
    fn next_stream(&mut self) -> Next {
        if let Some((door, stream)) = self.spare.take() {
            return Next::One(door, stream);
        }
        for tried in 0..TRIES {
            let Some(door) = self.next_door() else {
                return Next::Nobody;
            };
            self.last = door;
            match self.accept_at(door) {
                Ok(stream) => return Next::One(door, stream),
                Err(error) => match fault_of(&error) {
                    Fault::Nobody => self.rest(door),
                    Fault::Passing => {}
                    Fault::NoRoom => return Next::NoRoom,
                    Fault::Lasting => return Next::Broken(error),
                },
            }
        }
        Next::Nobody
    }

    /// Nobody waits at a listener, until the system tells of one.
    fn rest(&mut self, door: Door) {
        match door {
            Door::Clients => self.client_waits = false,
            Door::Operators => self.operator_waits = false,
        }
    }

    /// Registers a connection under its key. If memory for that runs out, it waits.
    fn admit(
        &mut self,
        key: usize,
        door: Door,
        mut stream: Stream,
    ) -> Accepted<Reading<'a, N, C>, Writing<'a, N, C>> {
        if stream.register(self.poll.registry(), Token(key)).is_err() {
            return Accepted::Nobody;
        }
        match halves(self.alloc, stream, self.site) {
            Ok((reader, writer)) => Accepted::One(Came {
                door,
                reader,
                writer,
            }),
            Err(Some(stream)) => {
                self.spare = self.unregistered(door, stream);
                Accepted::NoRoom
            }
            Err(None) => Accepted::NoRoom,
        }
    }

    /// A connection that the system tells nothing of.
    fn unregistered(&self, door: Door, mut stream: Stream) -> Option<(Door, Stream)> {
        match stream.deregister(self.poll.registry()) {
            Ok(()) => Some((door, stream)),
            Err(_) => None,
        }
    }

    /// The line of a connection, if it is logged.
    fn line(&mut self, ended: &Ended<'_>) -> Result<Option<String>, AllocError> {
        let note = match self.notes.get_mut(ended.key) {
            Some(note) => note.take(),
            None => None,
        };
        let note = match note {
            Some(note) => note,
            None => self.note_unserved(ended)?,
        };
        line_of(self.alloc, &note, ended.sent, ended.took)
    }

    /// What is logged of a connection that wasn't served.
    fn note_unserved(&self, ended: &Ended<'_>) -> Result<Note, AllocError> {
        let (caller, request) = match ended.door {
            Door::Clients => (Caller::Request, ended.first),
            Door::Operators => (
                Caller::Operator,
                ended.first.get(..0).unwrap_or(ended.first),
            ),
        };
        let entry = Entry {
            caller,
            reading: self.site.clock.seconds().unwrap_or(u64::MAX),
            request,
            response: ended.answer,
        };
        note_of(self.alloc, &entry, ended.came, None)
    }
}

impl<'a, N: Files<File = File> + Eprint, C> Backing for Sockets<'a, N, C> {
    fn note(&mut self, key: usize, note: Note) {
        if let Some(place) = self.notes.get_mut(key) {
            *place = Some(note);
        }
    }

    fn uptime(&mut self) -> io::Result<u64> {
        uptime()
    }

    /// Writes it to standard error. If that can't be written, it is lost.
    fn tell_clock(&mut self, reading: u64, news: ClockNews) {
        if let Ok(line) = clock_line(self.alloc, reading, news) {
            let _ = eprintln!(self.site.net; "{line}");
        }
    }

    fn sizes(&mut self) -> Sizes {
        self.site.sizes()
    }

    fn readings(&mut self) -> Readings {
        let uptime = match (self.began, uptime()) {
            (Some(began), Ok(now)) => Some(now.saturating_sub(began)),
            _ => None,
        };
        Readings {
            sizes: self.site.sizes(),
            uptime,
        }
    }

    /// Closes the listeners, and removes their files.
    fn leave(&mut self) {
        self.client_waits = false;
        self.operator_waits = false;
        self.clients = None;
        self.operators = None;
        remove(self.site.net, self.client_file.take());
        remove(self.site.net, self.operator_file.take());
    }
}

impl<'a, N: Files<File = File> + AllocGlobal + Eprint, C: Clock> Wires for Sockets<'a, N, C> {
    type Reader = Reading<'a, N, C>;

    type Writer = Writing<'a, N, C>;

    fn accept(&mut self, key: usize) -> io::Result<Accepted<Reading<'a, N, C>, Writing<'a, N, C>>> {
        match self.next_stream() {
            Next::One(door, stream) => Ok(self.admit(key, door, stream)),
            Next::Nobody => Ok(Accepted::Nobody),
            Next::NoRoom => Ok(Accepted::NoRoom),
            Next::Broken(error) => Err(error),
        }
    }

    fn poll(&mut self, milliseconds: u64, ready: &mut Vec<usize>) -> io::Result<()> {
        let time = Duration::from_millis(milliseconds);
        match self.poll.poll(&mut self.events, Some(time)) {
            Ok(()) => {}
            Err(error) if error.kind() == ErrorKind::Interrupted => return Ok(()),
            Err(error) => return Err(error),
        }
        for event in &self.events {
            let token = event.token();
            if token == CLIENTS {
                self.client_waits = true;
            } else if token == OPERATORS {
                self.operator_waits = true;
            } else {
                ready.push(token.0)?;
            }
        }
        Ok(())
    }

    fn milliseconds(&mut self) -> u64 {
        self.site.clock.milliseconds().unwrap_or(0)
    }

    /// Writes its line to standard error. One that can't be written is lost.
    fn tell(&mut self, ended: &Ended<'_>) {
        if self.notes.is_empty() {
            return;
        }
        if let Ok(Some(line)) = self.line(ended) {
            let _ = eprintln!(self.site.net; "{line}");
        }
    }
}

/// Removes the file of a socket.
fn remove<N: Files<File = File>>(files: &N, file: Option<SocketFile<'_>>) {
    if let Some(file) = file {
        file.remove(files);
    }
}

/// No notes, with room for so many.
fn no_notes(alloc: Global, count: usize) -> Result<Vec<Option<Note>>, AllocError> {
    let mut notes = Vec::with_capacity(alloc, count)?;
    for place in 0..count {
        notes.push(None)?;
    }
    Ok(notes)
}

fn fault_of(error: &io::Error) -> Fault {
    match error.raw_os_error() {
        Some(EAGAIN) => Fault::Nobody,
        Some(EINTR | ECONNABORTED) => Fault::Passing,
        Some(ENOMEM | ENFILE | EMFILE | ENOBUFS) => Fault::NoRoom,
        _ => Fault::Lasting,
    }
}
