ghost use Rattle.std.specs.Prelude.{◌≡◌, ⊤, true, is_some, IfOk};
ghost use Rattle.bh_host.specs.declared.reply.Caller.TheVariants.{Operator};

use crate::acceptor::Acceptor;
use crate::backup::CacheUses;
use crate::bounded::{Bounded, Current, Peer};
use crate::clock::Clock;
use crate::doors::{Doors, next_caller};
use crate::each::Arrival;
use crate::log::{Entry, line_of};
use crate::noted::Noted;
use crate::served::{End, Served};
use bh_host::Caller;
use bh_http::arriving::MAX_HEAD;
use bh_link::ends::Untold;
use bh_link::link::Link;
use bh_storage::error::Trouble;
use either::Either;
use std::alloc::Global;
use std::io;
use std::io::{BufReader, ErrorKind, Read};
use std::net::{Shutdown, TcpListener, TcpStream};
use std::time::Duration;

/// How many seconds to wait for a client to close, after its response was sent.
const CLOSING: u64 = 1;

/// How many reads to discard, at most, of a client that has its response, and the bytes of each.
const LATE_READS: u32 = 8192;

const LATE: usize = 512;

/// How many bytes are read ahead: most heads have fewer. The rest of a body is read into its own
/// buffer.
const AHEAD: usize = 1024;

/// More bytes than the head of a response has.
const RESPONSE_HEAD: usize = 1024;

/// How many milliseconds to wait before the next accept, if the system has no file descriptor or
/// memory for one.
const PAUSE: u64 = 100;

// Temporary errors of accept(2). After the first three, the next connection may come at once.
const EINTR: i32 = 4;

const EAGAIN: i32 = 11;

const ECONNABORTED: i32 = 103;

const ENOMEM: i32 = 12;

const ENFILE: i32 = 23;

const EMFILE: i32 = 24;

const ENOBUFS: i32 = 105;

/// How each connection is served.
#[derive(Clone, Copy)]
pub struct Manner {
    /// How many seconds a request may take to read, and then its response to write.
    pub timeout: u64,
    /// Whether each connection is logged to standard error.
    pub is_logged: bool,
}

/// One direction of a connection, with the clock of its listener.
type Way<'a, C> = Bounded<Peer<'a>, &'a C>;

/// One direction of a connection, with the record of its bytes.
type NotedWay<'a, C> = Noted<Way<'a, C>>;

/// The received bytes, buffered; without a buffer if memory for it runs out.
type Ahead<'a, C> = Either<BufReader<NotedWay<'a, C>>, NotedWay<'a, C>>;

/// The connections of a TCP listener, and of a second one for operators if there is one.
#[derive(Drop)]
pub(crate) struct Sockets<'a, C, E> {
    pub(crate) alloc: Global,
    pub(crate) doors: Doors<'a>,
    /// Who connected last.
    pub(crate) last: Caller,
    pub(crate) current: &'a Current,
    pub(crate) clock: &'a C,
    /// Standard error.
    pub(crate) errors: &'a E,
    pub(crate) manner: Manner,
    /// When the connection came, in milliseconds, if it is logged.
    pub(crate) since: u64,
}

impl<'a, C: Clock, E: Eprint> Acceptor for Sockets<'a, C, E> {
    type Reader = Untold<Ahead<'a, C>>;

    type Writer = Untold<NotedWay<'a, C>>;

    ghost operated = { λ it. is_some it.doors.operators };

    fn accept(&mut self) -> io::Result<Caller> {
        let caller = self.take_next()?;
        self.last = caller;
        if self.manner.is_logged {
            self.since = self.milliseconds();
        }
        Ok(caller)
    }

    /// Each is served alone, since only the bytes of the current one are read.
    fn accept_more(&mut self) -> bool {
        false
    }

    fn seconds(&mut self) -> io::Result<u64> {
        self.clock.seconds()
    }

    fn open(&mut self, reading: u64) -> Arrival<Self::Reader, Self::Writer> {
        let way = self.way();
        let (request, response) = self.noted();
        Arrival {
            reading,
            reader: Link::new(Untold(read_ahead(self.alloc, way, request))),
            writer: Link::new(Untold(Noted::new(self.alloc, way, response))),
        }
    }

    fn close(&mut self, arrival: Arrival<Self::Reader, Self::Writer>, served: Served)
        ensures calls { ⊤ }
        ensures operated { is_some self.new.doors.operators ≡ is_some self.old.doors.operators }
    {
        let reader = way_of(arrival.reader.into_inner().0);
        let writer = arrival.writer.into_inner().0;
        if self.manner.is_logged {
            self.tell(arrival.reading, &reader, &writer, served.trouble);
        }
        if served.ended == End::Whole {
            see_off(self.current, writer.into_inner());
        }
        let _ = self.current.try_replace(None);
    }

    /// Nothing is swept or told here.
    fn wants_count(&mut self) -> bool {
        false
    }

    fn take_cache(&mut self, uses: CacheUses) {}

    fn take_count(&mut self, bytes: u64) {}
}

impl<'a, C: Clock, E: Eprint> Sockets<'a, C, E> {
    /// Accepts the next connection, and returns who connected.
    fn take_next(&self) -> io::Result<Caller>
        ensures { IfOk result (λ caller. caller ≡ Operator → is_some self.now.doors.operators ≡ true) }
    {
        match self.doors.operators {
            None => {
                keep(self.current, accepted(self.doors.clients, self.clock)?)?;
                Ok(Caller::Request)
            }
            Some(operators) => {
                let (caller, stream) = self.next_of_both(operators.listener)?;
                keep(self.current, stream)?;
                Ok(caller)
            }
        }
    }

    /// The next connection of either listener. If an accept finds none after all, both are polled
    /// again.
    fn next_of_both(&self, operators: &TcpListener) -> io::Result<(Caller, TcpStream)> {
        for tried in 0..u64::MAX {
            let Some(caller) = next_caller(self.doors.clients, operators, self.last)? else {
                continue;
            };
            if let Some(stream) = self.accepted_of(operators, caller)? {
                return Ok((caller, stream));
            }
        }
        Err(io::Error::from(ErrorKind::TimedOut))
    }

    /// The caller and its connection, if there is one.
    fn accepted_of(
        &self,
        operators: &TcpListener,
        caller: Caller,
    ) -> io::Result<Option<TcpStream>> {
        let listener = match caller {
            Caller::Request => self.doors.clients,
            Caller::Operator => operators,
        };
        match listener.accept() {
            Ok((stream, _)) => Ok(Some(stream)),
            Err(e) => {
                wait_out(self.clock, e)?;
                Ok(None)
            }
        }
    }

    fn milliseconds(&self) -> u64 {
        self.clock.milliseconds().unwrap_or(0)
    }

    /// One direction of the connection. If the stream has no timeouts, a call could wait forever:
    /// so its time is over at once.
    fn way(&self) -> Way<'a, C> {
        match set_timeouts(self.current, self.manner.timeout) {
            Ok(()) => Bounded::new(Peer(self.current), self.clock, self.manner.timeout),
            Err(_) => Bounded::over(Peer(self.current), self.clock),
        }
    }

    /// How many bytes of a request and of its response are recorded for the log. An operator's line
    /// is not recorded, since it may have a secret.
    fn noted(&self) -> (usize, usize) {
        match (self.manner.is_logged, self.last) {
            (true, Caller::Request) => (MAX_HEAD, RESPONSE_HEAD),
            (true, Caller::Operator) => (0, RESPONSE_HEAD),
            (false, _) => (0, 0),
        }
    }

    /// Writes the line of a connection. One that can't be written is lost.
    fn tell<R, W>(
        &self,
        reading: u64,
        reader: &Noted<R>,
        writer: &Noted<W>,
        trouble: Option<Trouble>,
    ) {
        let entry = Entry {
            caller: self.last,
            reading,
            request: reader.first(),
            response: writer.first(),
            taken: reader.passed(),
            sent: writer.passed(),
            took: self.milliseconds().saturating_sub(self.since),
            trouble,
        };
        if let Ok(line) = line_of(self.alloc, &entry) {
            let _ = eprintln!(self.errors; "{line}");
        }
    }
}

/// Makes a stream the current connection.
fn keep(current: &Current, stream: TcpStream) -> io::Result<()> {
    match current.try_replace(Some(stream)) {
        Ok(_) => Ok(()),
        Err(_) => Err(io::Error::from(ErrorKind::ResourceBusy)),
    }
}

/// The next connection. Temporary errors of accept are retried.
fn accepted<C: Clock>(listener: &TcpListener, clock: &C) -> io::Result<TcpStream> {
    for tried in 0..u64::MAX {
        match listener.accept() {
            Ok((stream, _)) => return Ok(stream),
            Err(e) => wait_out(clock, e)?,
        }
    }
    Err(io::Error::from(ErrorKind::TimedOut))
}

/// Waits until a temporary error of accept may have passed; another error is returned.
fn wait_out<C: Clock>(clock: &C, error: io::Error) -> io::Result<()> {
    match error.raw_os_error() {
        Some(EINTR | EAGAIN | ECONNABORTED) => Ok(()),
        Some(ENOMEM | ENFILE | EMFILE | ENOBUFS) => {
            clock.wait(Duration::from_millis(PAUSE));
            Ok(())
        }
        _ => Err(error),
    }
}

fn read_ahead<'a, C: Clock>(alloc: Global, way: Way<'a, C>, noted: usize) -> Ahead<'a, C> {
    match BufReader::with_capacity(alloc, AHEAD, Noted::new(alloc, way, noted)) {
        Ok(reader) => Either::Left(reader),
        Err(_) => Either::Right(Noted::new(alloc, way, noted)),
    }
}

/// The receiving direction of a connection.
fn way_of<'a, C: Clock>(ahead: Ahead<'a, C>) -> NotedWay<'a, C> {
    match ahead {
        Either::Left(reader) => reader.into_inner(),
        Either::Right(way) => way,
    }
}

fn set_timeouts(current: &Current, seconds: u64) -> io::Result<()> {
    let timeout = Some(Duration::from_secs(seconds));
    let current = current.try_borrow()?;
    match &*current {
        Some(stream) => {
            stream.set_read_timeout(timeout)?;
            stream.set_write_timeout(timeout)
        }
        None => Err(io::Error::from(ErrorKind::NotConnected)),
    }
}

/// Shuts down the writing half, and reads until the client closes its own. If a socket is closed
/// with unread bytes, the client may lose the end of the response.
///
/// RFC 9112, section 9.6
fn see_off<S: Read + Drop>(current: &Current, mut rest: S) {
    if shut(current).is_err() {
        return;
    }
    let mut room = [0u8; LATE];
    for read in 0..LATE_READS {
        match rest.read(&mut room) {
            Ok(0) | Err(_) => return,
            Ok(_) => {}
        }
    }
}

/// Closes the writing half, and sets how long to wait for the client.
fn shut(current: &Current) -> io::Result<()> {
    let waiting = Some(Duration::from_secs(CLOSING));
    let current = current.try_borrow()?;
    match &*current {
        Some(stream) => {
            stream.set_read_timeout(waiting)?;
            stream.shutdown(Shutdown::Write)
        }
        None => Ok(()),
    }
}
