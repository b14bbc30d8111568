//! The two halves of a connection's socket. No call of theirs waits.

use crate::files::Site;
use crate::listener::Stream;
use bh_connection::Clock;
use bh_link::ends::{Sink, Source};
use bh_stage::spool::{Spool, Spools};
use bh_stage::waiting::{Patient, Shut};
use libc::net::{POLLOUT, poll};
use libc::types::pollfd;
use std::alloc::Global;
use std::fs::{File, Files};
use std::io;
use std::rc::Rc;

/// What a connection's client sends. Contracts can't name its bytes.
#[derive(Drop)]
pub struct Reading<'a, N, C> {
    stream: Rc<Stream, Global>,
    site: &'a Site<'a, N, C>,
}

/// What a connection's client is sent.
#[derive(Drop)]
pub struct Writing<'a, N, C> {
    stream: Rc<Stream, Global>,
    site: &'a Site<'a, N, C>,
}

/// Both halves of a socket. If memory runs out, the socket is returned; `None` if it was closed.
pub(crate) fn halves<'a, N, C>(
    alloc: Global,
    stream: Stream,
    site: &'a Site<'a, N, C>,
) -> Result<(Reading<'a, N, C>, Writing<'a, N, C>), Option<Stream>> {
    let stream = match Rc::new(alloc, stream) {
        Ok(stream) => stream,
        Err(failed) => return Err(Some(failed.value)),
    };
    match stream.clone() {
        Ok(other) => Ok((
            Reading {
                stream: other,
                site,
            },
            Writing { stream, site },
        )),
        Err(_) => Err(None),
    }
}

impl<'a, N, C> Source for Reading<'a, N, C> {
    fn give(&mut self, room: &mut [u8]) -> io::Result<usize> {
        self.stream.read(room)
    }
}

impl<'a, N, C> Sink for Writing<'a, N, C> {
    fn take(&mut self, bytes: &[u8]) -> io::Result<usize> {
        self.stream.write(bytes)
    }
}

impl<'a, N: Files<File = File> + AllocGlobal, C> Spools for Reading<'a, N, C> {
    fn spool(&mut self) -> io::Result<Spool> {
        self.site.spool()
    }
}

impl<'a, N: Files<File = File> + AllocGlobal, C> Spools for Writing<'a, N, C> {
    fn spool(&mut self) -> io::Result<Spool> {
        self.site.spool()
    }
}

impl<'a, N, C: Clock> Patient for Writing<'a, N, C> {
    fn wait(&mut self, milliseconds: u64) -> u64 {
        wait_until_sends(&self.stream, self.site.clock, milliseconds)
    }
}

impl<'a, N, C> Shut for Writing<'a, N, C> {
    fn shut(&mut self) -> io::Result<()> {
        self.stream.shut()
    }
}

/// Waits until a socket takes bytes, but at most so many milliseconds. Returns how many are left; 0 if
/// the clock fails.
fn wait_until_sends<C: Clock>(stream: &Stream, clock: &C, milliseconds: u64) -> u64 {
    let Ok(start) = clock.milliseconds() else {
        return 0;
    };
    let mut asked = [pollfd {
        fd: stream.fd(),
        events: POLLOUT,
        revents: 0,
    }];
    let _ = poll(&mut asked, i32::try_from(milliseconds).unwrap_or(i32::MAX));
    let Ok(now) = clock.milliseconds() else {
        return 0;
    };
    milliseconds.saturating_sub(now.saturating_sub(start))
}
