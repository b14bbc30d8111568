ghost use Rattle.std.specs.Prelude.{◌≡◌};
ghost use Rattle.std.specs.Io.{ReadsAtMost, WritesAtMost};

use crate::clock::Clock;
use std::cell::RefCell;
use std::io;
use std::io::{ErrorKind, Read, Write};
use std::net::TcpStream;

/// The stream of the connection that is served, while one is.
pub(crate) type Current = RefCell<Option<TcpStream>>;

/// That stream. Contracts can't name its bytes.
#[derive(Clone, Copy, Drop)]
pub(crate) struct Peer<'a>(pub(crate) &'a Current);

/// A reader or a writer with a time limit on all of its calls together: once it has passed, each
/// call fails. The time between two calls doesn't count. A call that is waiting isn't interrupted.
#[derive(Clone, Copy, Drop)]
pub(crate) struct Bounded<T, C> {
    inner: T,
    clock: C,
    /// How many milliseconds its calls may still take; `None` once the limit has passed.
    left: Option<u64>,
}

impl<T, C: Clock> Bounded<T, C> {
    /// With a limit in seconds for all of its calls.
    pub(crate) fn new(inner: T, clock: C, timeout: u64) -> Bounded<T, C> {
        Bounded {
            inner,
            clock,
            left: Some(timeout.saturating_mul(1000)),
        }
    }

    /// One whose time limit has passed: each call fails.
    pub(crate) fn over(inner: T, clock: C) -> Bounded<T, C> {
        Bounded {
            inner,
            clock,
            left: None,
        }
    }

    /// The time at which a call begins. Fails if the time limit has passed.
    fn begin(&self) -> io::Result<u64> {
        match self.left {
            Some(_) => self.clock.milliseconds(),
            None => Err(io::Error::from(ErrorKind::TimedOut)),
        }
    }

    /// Counts the time of a call that began at `began`. If the clock fails, the call isn't counted.
    fn end(&mut self, began: u64)
        ensures { self.new.inner ≡ self.old.inner }
    {
        let now = self.clock.milliseconds().unwrap_or(began);
        let took = now.saturating_sub(began);
        self.left = match self.left {
            Some(left) => left.checked_sub(took),
            None => None,
        };
    }
}

impl<R: Read, C: Clock> Read for Bounded<R, C> {
    ghost remaining = { λ it. R.remaining it.inner };

    fn read(&mut self, buf: &mut [u8]) -> io::Result<usize> {
        let began = self.begin()?;
        let result = self.inner.read(buf);
        self.end(began);
        result
    }
}

impl<W: Write, C: Clock> Write for Bounded<W, C> {
    ghost contents = { λ it. W.contents it.inner };

    fn write(&mut self, buf: &[u8]) -> io::Result<usize> {
        let began = self.begin()?;
        let result = self.inner.write(buf);
        self.end(began);
        result
    }

    fn flush(&mut self) -> io::Result<()> {
        self.inner.flush()
    }
}

impl Read for Peer<'_> {
    fn read(&mut self, buf: &mut [u8]) -> io::Result<usize> {
        let current = self.0.try_borrow()?;
        match &*current {
            Some(stream) => read_from(stream, buf),
            None => Err(io::Error::from(ErrorKind::NotConnected)),
        }
    }
}

impl Write for Peer<'_> {
    fn write(&mut self, buf: &[u8]) -> io::Result<usize> {
        let current = self.0.try_borrow()?;
        match &*current {
            Some(stream) => write_to(stream, buf),
            None => Err(io::Error::from(ErrorKind::NotConnected)),
        }
    }

    fn flush(&mut self) -> io::Result<()> {
        Ok(())
    }
}

fn read_from(stream: &TcpStream, buf: &mut [u8]) -> io::Result<usize>
    ensures { ReadsAtMost result buf.new }
{
    let mut stream = stream;
    stream.read(buf)
}

fn write_to(stream: &TcpStream, buf: &[u8]) -> io::Result<usize>
    ensures { WritesAtMost result buf.now }
{
    let mut stream = stream;
    stream.write(buf)
}
