//! Connections in memory, whose bytes come as a script says.

use bh_link::ends::{Sink, Source};
use bh_stage::spool::{Spool, Spools};
use bh_stage::waiting::{Patient, Shut};
use bh_stage::whole::Door;
use bh_stage::wires::{Accepted, Came, Ended, Wires};
use std::alloc::Global;
use std::cell::RefCell;
use std::io;
use std::io::ErrorKind;

/// What happens next.
#[derive(Clone, Copy)]
pub enum Event<'a> {
    /// A client connects.
    Connects(Door),
    /// Bytes of a connection come.
    Sends(usize, &'a [u8]),
    /// Its client sends no more.
    Ends(usize),
    /// Its client resets it.
    Resets(usize),
    /// Its socket takes so many bytes more.
    Takes(usize, usize),
}

/// A connection in memory.
#[derive(Drop)]
pub struct Pipe {
    key: usize,
    coming: Vec<u8>,
    given: usize,
    is_ended: bool,
    is_reset: bool,
    /// What went out, and how much more may.
    pub out: Vec<u8>,
    room: usize,
    pub is_shut: bool,
}

pub type Pipes = RefCell<Vec<Pipe>>;

/// One end of a connection in memory.
#[derive(Clone, Copy, Drop)]
pub struct End<'a> {
    pipes: &'a Pipes,
    place: usize,
}

impl<'a> Source for End<'a> {
    fn give(&mut self, room: &mut [u8]) -> io::Result<usize> {
        let mut pipes = self.pipes.try_borrow_mut()?;
        let Some(pipe) = pipes.get_mut(self.place) else {
            return Ok(0);
        };
        if pipe.is_reset {
            return Err(io::Error::from(ErrorKind::ConnectionReset));
        }
        let start = pipe.given.min(pipe.coming.len());
        let rest = &pipe.coming.as_slice()[start..];
        let count = rest.len().min(room.len());
        if count == 0 && !pipe.is_ended {
            return Err(io::Error::from(ErrorKind::WouldBlock));
        }
        room[..count].copy_from_slice(&rest[..count]);
        pipe.given = start.saturating_add(count);
        Ok(count)
    }
}

impl<'a> Sink for End<'a> {
    fn take(&mut self, bytes: &[u8]) -> io::Result<usize> {
        let mut pipes = self.pipes.try_borrow_mut()?;
        let Some(pipe) = pipes.get_mut(self.place) else {
            return Ok(0);
        };
        let count = pipe.room.min(bytes.len());
        if count == 0 {
            return Err(io::Error::from(ErrorKind::WouldBlock));
        }
        pipe.out.extend_from_slice(&bytes[..count])?;
        pipe.room -= count;
        Ok(count)
    }
}

impl<'a> Patient for End<'a> {
    fn wait(&mut self, _milliseconds: u64) -> u64 {
        0
    }
}

/// There are no files here.
impl<'a> Spools for End<'a> {
    fn spool(&mut self) -> io::Result<Spool> {
        Err(io::Error::from(ErrorKind::Unsupported))
    }
}

impl<'a> Shut for End<'a> {
    fn shut(&mut self) -> io::Result<()> {
        let mut pipes = self.pipes.try_borrow_mut()?;
        if let Some(pipe) = pipes.get_mut(self.place) {
            pipe.is_shut = true;
        }
        Ok(())
    }
}

/// Connections in memory, and what is to happen.
#[derive(Drop)]
pub struct Scripted<'a> {
    pub alloc: Global,
    pub pipes: &'a Pipes,
    pub events: &'a [Event<'a>],
    /// How many of these happened.
    pub done: usize,
    /// At which listener a client waits.
    pub waiting: Option<Door>,
}

impl<'a> Wires for Scripted<'a> {
    type Reader = End<'a>;

    type Writer = End<'a>;

    fn accept(&mut self, key: usize) -> io::Result<Accepted<End<'a>, End<'a>>> {
        let Some(door) = self.waiting.take() else {
            return Ok(Accepted::Nobody);
        };
        let mut pipes = self.pipes.try_borrow_mut()?;
        let end = End {
            pipes: self.pipes,
            place: pipes.len(),
        };
        pipes.push(new_pipe(self.alloc, key))?;
        Ok(Accepted::One(Came {
            door,
            reader: end,
            writer: end,
        }))
    }

    /// The next event happens. After the last one each call fails.
    fn poll(&mut self, _milliseconds: u64, ready: &mut Vec<usize>) -> io::Result<()> {
        let Some(event) = self.events.get(self.done) else {
            return Err(io::Error::from(ErrorKind::UnexpectedEof));
        };
        self.done += 1;
        match *event {
            Event::Connects(door) => self.waiting = Some(door),
            Event::Sends(place, _)
            | Event::Ends(place)
            | Event::Resets(place)
            | Event::Takes(place, _) => {
                let mut pipes = self.pipes.try_borrow_mut()?;
                if let Some(pipe) = pipes.get_mut(place) {
                    happens(pipe, event)?;
                    ready.push(pipe.key)?;
                }
            }
        }
        Ok(())
    }

    fn milliseconds(&mut self) -> u64 {
        0
    }

    fn tell(&mut self, _ended: &Ended<'_>) {}
}

fn new_pipe(alloc: Global, key: usize) -> Pipe {
    Pipe {
        key,
        coming: Vec::new(alloc),
        given: 0,
        is_ended: false,
        is_reset: false,
        out: Vec::new(alloc),
        room: 0,
        is_shut: false,
    }
}

/// An event of one connection.
fn happens(pipe: &mut Pipe, event: &Event<'_>) -> io::Result<()> {
    match *event {
        Event::Connects(_) => {}
        Event::Sends(_, bytes) => pipe.coming.extend_from_slice(bytes)?,
        Event::Ends(_) => pipe.is_ended = true,
        Event::Resets(_) => pipe.is_reset = true,
        Event::Takes(_, count) => pipe.room = pipe.room.saturating_add(count),
    }
    Ok(())
}
