//! The writer of an answer: what its socket doesn't take at once waits, in memory or, of a long one, in
//! a file.

ghost use Rattle.std.specs.Prelude.{◌≡◌, ◌<◌, ◌≤◌, ◌-◌, ◌++◌, [], true, false, Some, length, take, drop, vec_len, OnOk};
ghost use Rattle.std.specs.Io.{WritesAtMost};
ghost use Rattle.std.specs.Io.KnownBytes.{WriteAppends};
ghost use Rattle.bh_stage.specs.Records.{bytes_of};
ghost use Rattle.bh_stage.specs.Spools.{rest_in, ReturnsAll};

use crate::copying::{append, copy_front, copy_rest};
use crate::record::{Outlet, ROOM};
use crate::spool::{Spool, Spools, get, left_in, put, written_in};
use crate::waiting::{Patient, Shut, too_late, would_wait};
use bh_link::ends::Sink;
use http_server::Log;
use std::alloc::Global;
use std::io;
use std::io::ErrorKind;

/// How many bytes of an answer wait in memory at most.
pub const MOST_HELD: usize = 1_048_576;

/// How much of an answer may wait.
#[derive(Clone, Copy)]
pub struct Allowance {
    /// How many bytes in memory, and in a file.
    pub memory: usize,
    pub file: u64,
    /// For how many milliseconds its writer may wait for its socket, if there is no file.
    pub milliseconds: u64,
}

/// An answer, of which the first bytes went out and the others wait. If its file returns what was
/// written to it, its socket takes the bytes that it took, in order.
#[derive(Drop)]
pub struct Outbox<W> {
    alloc: Global,
    outlet: Outlet<W>,
    /// The record of the bytes that it took.
    told: Log<usize, [u8; ROOM]>,
    held: Vec<u8>,
    /// How many of these went out.
    sent: usize,
    /// The file of the bytes that wait after these.
    spool: Option<Spool>,
    /// Whether memory for bytes of the file ran out. Nothing is sent after that.
    lost: bool,
    /// How many bytes went out in all.
    went: u64,
    allowance: Allowance,
    /// For how many milliseconds its writer may still wait for its socket.
    patience: u64,
    ghost within: { sent ≤ vec_len held },
    ghost all: { lost ≡ false → ReturnsAll spool → bytes_of told.items
        ≡ bytes_of outlet.taken.items ++ (drop sent held.items ++ rest_in spool) },
}

impl<W: Sink> Outbox<W> {
    /// An empty one, over a sink that was given nothing.
    pub fn new(alloc: Global, sink: W, allowance: Allowance) -> Outbox<W>
        ensures { result.told.items ≡ [] }
    {
        Outbox {
            alloc,
            outlet: Outlet::new(sink),
            told: Log::new(),
            held: Vec::new(alloc),
            sent: 0,
            spool: None,
            lost: false,
            went: 0,
            allowance,
            patience: allowance.milliseconds,
        }
    }

    /// Whether all that it took went out.
    pub fn is_empty(&self) -> bool
        ensures held { result ≡ true → vec_len self.now.held ≤ self.now.sent }
        ensures rest { result ≡ true → rest_in self.now.spool ≡ [] }
    {
        self.sent == self.held.len() && left_in(&self.spool) == 0
    }

    /// How many bytes went out.
    pub fn went(&self) -> u64 {
        self.went
    }

    /// For how many milliseconds its writer waited for its socket.
    pub(crate) fn waited(&self) -> u64
        ensures { result ≡ self.now.allowance.milliseconds - self.now.patience }
    {
        self.allowance.milliseconds.saturating_sub(self.patience)
    }

    /// How many bytes of it are in memory.
    pub(crate) fn weight(&self) -> usize {
        self.held.len()
    }

    /// How many bytes its file has.
    pub(crate) fn spread(&self) -> u64 {
        written_in(&self.spool)
    }

    /// Sends some of what waits. Returns how many bytes went out; 0 if none waited, or the socket
    /// takes no more.
    #[tactic(auto, using(crate::proofs::OutboxLemmas::sent_after, crate::proofs::OutboxLemmas::sent_last))]
    fn send_held(&mut self) -> io::Result<usize>
        ensures { self.new.told ≡ self.old.told }
    {
        let mut piece = [0u8; ROOM];
        let count = copy_rest(&mut piece, self.held.as_slice(), self.sent);
        if count == 0 {
            return Ok(0);
        }
        let went = self.outlet.take(&piece, count)?;
        self.went = self.went.saturating_add(went as u64);
        self.sent += went;
        if self.sent == self.held.len() {
            self.held = Vec::new(self.alloc);
            self.sent = 0;
        }
        Ok(went)
    }

    /// Brings the next bytes of the file to memory, if none are there.
    fn refill(&mut self) -> io::Result<()>
        ensures { self.new.told ≡ self.old.told }
    {
        if self.spool.is_none() || self.sent < self.held.len() {
            return Ok(());
        }
        let mut piece = [0u8; ROOM];
        let was_lost = self.lost;
        let count = get(&mut self.spool, &mut piece, ROOM)?;
        self.lost = true;
        append(&mut self.held, &piece, count)?;
        self.lost = was_lost;
        Ok(())
    }

    /// Sends some of what waits. Returns how many bytes went out; 0 if none waited, or the socket
    /// takes no more.
    pub fn send(&mut self) -> io::Result<usize>
        ensures { self.new.told ≡ self.old.told }
    {
        self.refill()?;
        self.send_held()
    }

    /// Takes the first of these bytes, which wait. Returns how many.
    #[tactic(auto, using(crate::proofs::RecordLemmas::bytes_of_append))]
    fn keep(&mut self, bytes: &[u8]) -> io::Result<usize>
        requires { rest_in self.old.spool ≡ [] }
        ensures within { WritesAtMost result bytes.now }
        ensures bytes { WriteAppends (Some (bytes_of self.old.told.items)) (Some (bytes_of self.new.told.items)) result bytes.now }
    {
        let mut piece = [0u8; ROOM];
        let count = copy_front(&mut piece, bytes);
        append(&mut self.held, &piece, count)?;
        self.told = self.told.and(&count, &piece);
        Ok(count)
    }

    /// Sends the first of these bytes, if none wait. Returns how many went out.
    #[tactic(auto, using(crate::proofs::RecordLemmas::bytes_of_append))]
    fn pass(&mut self, bytes: &[u8]) -> io::Result<usize>
        requires some { 0 < length bytes.now }
        requires none { vec_len self.old.held ≤ self.old.sent }
        requires rest { rest_in self.old.spool ≡ [] }
        ensures within { WritesAtMost result bytes.now }
        ensures bytes { WriteAppends (Some (bytes_of self.old.told.items)) (Some (bytes_of self.new.told.items)) result bytes.now }
    {
        let mut piece = [0u8; ROOM];
        let count = copy_front(&mut piece, bytes);
        let went = self.outlet.take(&piece, count)?;
        self.went = self.went.saturating_add(went as u64);
        self.told = self.told.and(&went, &piece);
        Ok(went)
    }

    /// How many bytes wait in memory.
    pub fn waiting(&self) -> usize
        ensures { result ≡ vec_len self.now.held - self.now.sent }
    {
        self.held.len() - self.sent
    }

    /// Its sink, with the record.
    pub(crate) fn into_outlet(self) -> Outlet<W>
        ensures { result ≡ self.outlet }
    {
        self.outlet
    }
}

impl<W: Shut> Outbox<W> {
    /// Closes the writing half of its connection.
    pub fn shut(&mut self) -> io::Result<()>
        ensures { self.new.told ≡ self.old.told }
    {
        self.outlet.shut()
    }
}

impl<W: Sink + Patient + Spools> Outbox<W> {
    /// Sends all that waits, and waits for the socket.
    fn send_all(&mut self) -> io::Result<()>
        ensures told { self.new.told ≡ self.old.told }
        ensures rest { OnOk result (rest_in self.new.spool ≡ []) }
    {
        for tried in 0..u64::MAX {
            if self.is_empty() {
                return Ok(());
            }
            match self.send() {
                Ok(0) => return Err(io::Error::from(ErrorKind::WriteZero)),
                Ok(_) => {}
                Err(error) => self.outlet.wait_after(error, &mut self.patience)?,
            }
        }
        Err(too_late())
    }

    /// Sends what the socket takes at once.
    fn send_ready(&mut self) -> io::Result<()>
        ensures { self.new.told ≡ self.old.told }
    {
        for tried in 0..u64::MAX {
            if self.is_empty() {
                return Ok(());
            }
            match self.send() {
                Ok(0) => return Err(io::Error::from(ErrorKind::WriteZero)),
                Ok(_) => {}
                Err(error) if would_wait(&error) => return Ok(()),
                Err(error) => return Err(error),
            }
        }
        Err(too_late())
    }

    /// What it takes from here on waits in a file, if it may have one.
    fn spill(&mut self) -> io::Result<()>
        ensures { self.new.told ≡ self.old.told }
    {
        if self.spool.is_some() {
            return Ok(());
        }
        if self.allowance.file == 0 {
            return Err(io::Error::from(ErrorKind::OutOfMemory));
        }
        let spool = self.outlet.spool()?;
        self.spool = Some(spool);
        Ok(())
    }

    /// If as many bytes wait in memory as may, more wait in a file. If there is none, the others are
    /// sent first.
    fn make_room(&mut self) -> io::Result<()>
        ensures { self.new.told ≡ self.old.told }
    {
        if self.spool.is_some() || self.waiting() < self.allowance.memory {
            return Ok(());
        }
        self.send_ready()?;
        if self.waiting() < self.allowance.memory || self.spill().is_ok() {
            return Ok(());
        }
        self.send_all()
    }

    /// Writes the first bytes of a piece to the file. Returns whether that was done.
    #[tactic(auto, using(crate::proofs::RecordLemmas::bytes_of_append))]
    fn put_away(&mut self, piece: &[u8; ROOM], count: usize) -> bool
        requires { count ≤ 16384 }
        ensures yes { result ≡ true → bytes_of self.new.told.items ≡ bytes_of self.old.told.items ++ take count piece.now }
        ensures no { result ≡ false → self.new.told ≡ self.old.told }
    {
        let waits = left_in(&self.spool).saturating_add(count as u64);
        if waits > self.allowance.file {
            return false;
        }
        let Ok(()) = put(&mut self.spool, piece, count) else {
            return false;
        };
        self.told = self.told.and(&count, piece);
        true
    }

    /// Takes the first of these bytes, which wait in the file. If that takes none, all others are sent
    /// first. Returns how many.
    fn keep_away(&mut self, bytes: &[u8]) -> io::Result<usize>
        ensures within { WritesAtMost result bytes.now }
        ensures bytes { WriteAppends (Some (bytes_of self.old.told.items)) (Some (bytes_of self.new.told.items)) result bytes.now }
    {
        let mut piece = [0u8; ROOM];
        let count = copy_front(&mut piece, bytes);
        if self.put_away(&piece, count) {
            return Ok(count);
        }
        self.send_all()?;
        self.keep(bytes)
    }

    /// Takes the first of these bytes, which wait. Returns how many.
    fn hold(&mut self, bytes: &[u8]) -> io::Result<usize>
        ensures within { WritesAtMost result bytes.now }
        ensures bytes { WriteAppends (Some (bytes_of self.old.told.items)) (Some (bytes_of self.new.told.items)) result bytes.now }
    {
        self.make_room()?;
        if self.spool.is_some() {
            self.keep_away(bytes)
        } else {
            self.keep(bytes)
        }
    }
}

impl<W: Sink + Patient + Spools> Sink for Outbox<W> {
    ghost contents = { λ it. Some (bytes_of it.told.items) };

    fn take(&mut self, bytes: &[u8]) -> io::Result<usize> {
        if self.is_empty() {
            match self.pass(bytes) {
                Err(error) if would_wait(&error) => {}
                result => return result,
            }
        }
        self.hold(bytes)
    }
}
