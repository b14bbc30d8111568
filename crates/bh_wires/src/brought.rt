//! The two ends of what is served: of a connection, or of the host's own line. Where there is neither,
//! the reader gives nothing and the writer takes nothing.

ghost use Rattle.std.specs.Prelude.{◌≡◌};
ghost use Rattle.bh_wires.specs.Ends.{remaining_in, contents_in};

use bh_link::ends::{Sink, Source};
use bh_stage::kept::Kept;
use bh_stage::order::Turn;
use bh_stage::outbox::Outbox;
use bh_stage::spool::Spools;
use bh_stage::waiting::Patient;
use std::alloc::Global;
use std::io;
use std::io::{Cursor, Read};

/// What is read.
#[derive(Drop)]
pub enum Brought<R> {
    /// The request that was kept.
    Request(Kept<R>),
    /// The host's own line.
    Own(Cursor<Vec<u8>>),
    Nobody,
}

/// Which connection is answered, and since when it is served.
#[derive(Clone, Copy)]
pub struct Going {
    pub turn: Turn,
    pub since: u64,
}

/// The answer, with its first bytes for the log.
#[derive(Drop)]
pub struct Replying<W> {
    pub outbox: Option<Outbox<W>>,
    pub going: Option<Going>,
    pub(crate) first: Vec<u8>,
    /// How many of them are kept.
    most: usize,
    /// Whether it answers the host's own line, and goes nowhere.
    is_own: bool,
}

impl<W> Replying<W> {
    pub(crate) fn new(
        alloc: Global,
        outbox: Option<Outbox<W>>,
        going: Option<Going>,
        most: usize,
    ) -> Replying<W>
        ensures { result.outbox ≡ outbox }
    {
        Replying {
            outbox,
            going,
            first: Vec::new(alloc),
            most,
            is_own: false,
        }
    }

    /// The answer to the host's own line, of which so many bytes are kept.
    pub(crate) fn own(alloc: Global, most: usize) -> Replying<W> {
        Replying {
            outbox: None,
            going: None,
            first: Vec::new(alloc),
            most,
            is_own: true,
        }
    }

    /// Keeps the first bytes of the first call, unless memory for them runs out.
    fn note(&mut self, bytes: &[u8])
        ensures outbox { self.new.outbox ≡ self.old.outbox }
        ensures own { self.new.is_own ≡ self.old.is_own }
    {
        if self.first.is_empty() {
            let count = bytes.len().min(self.most);
            let _ = self.first.extend_from_slice(&bytes[..count]);
        }
    }
}

impl<R: Source> Source for Brought<R> {
    ghost remaining = { remaining_in };

    fn give(&mut self, room: &mut [u8]) -> io::Result<usize> {
        match self {
            Brought::Request(kept) => kept.give(room),
            Brought::Own(line) => line.read(room),
            Brought::Nobody => Ok(0),
        }
    }
}

impl<W: Sink + Patient + Spools> Sink for Replying<W> {
    ghost contents = { λ it. contents_in it.is_own it.outbox };

    fn take(&mut self, bytes: &[u8]) -> io::Result<usize> {
        self.note(bytes);
        if self.is_own {
            return Ok(bytes.len());
        }
        match &mut self.outbox {
            Some(outbox) => outbox.take(bytes),
            None => Ok(0),
        }
    }
}
