//! The two ends of a connection, each with a record of the bytes that its calls moved. A record
//! takes no memory: only proofs read it.

ghost use Rattle.std.specs.Prelude.{◌≡◌, ◌≤◌, ◌<◌, ◌++◌, ◌==◌, ◌∷◌, [], take, IfOk, OnErr};
ghost use Rattle.bh_http.specs.Transfers.{transfer_of, Logs};
ghost use Rattle.bh_stage.specs.Records.{bytes_of, is_ended};
ghost use Rattle.bh_stage.specs.Spools.{rest_of};

use crate::spool::{Spool, Spools};
use crate::waiting::{Patient, Shut, too_late, would_wait};
use bh_link::ends::{Sink, Source};
use http_server::Log;
use std::io;

/// How many bytes one call moves at most.
pub const ROOM: usize = 16384;

/// A source, with a record of the bytes that it gave.
#[derive(Drop)]
pub struct Inlet<R> {
    source: R,
    given: Log<usize, [u8; ROOM]>,
}

/// A sink, with a record of the bytes that it took.
#[derive(Drop)]
pub struct Outlet<W> {
    sink: W,
    taken: Log<usize, [u8; ROOM]>,
}

impl<R: Source> Inlet<R> {
    pub fn new(source: R) -> Inlet<R>
        ensures source { result.source ≡ source }
        ensures given { result.given.items ≡ [] }
    {
        Inlet {
            source,
            given: Log::new(),
        }
    }

    /// Reads at most so many bytes to the front of the room, and returns their number; 0 at the end.
    #[tactic(auto, using(crate::proofs::RecordLemmas::bytes_of_append, crate::proofs::RecordLemmas::is_ended_append))]
    pub fn give(&mut self, room: &mut [u8; ROOM], most: usize) -> io::Result<usize>
        requires some { 0 < most }
        requires fits { most ≤ 16384 }
        ensures within { IfOk result (λ n. n ≤ most) }
        ensures given { IfOk result (λ n. bytes_of self.new.given.items ≡ bytes_of self.old.given.items ++ take n room.new) }
        ensures ended { IfOk result (λ n. is_ended self.new.given.items ≡ (n == 0)) }
        ensures failed { OnErr result (self.new.given.items ≡ self.old.given.items) }
        ensures transfer { Logs (R.transfers self.old.source) (R.transfers self.new.source) (transfer_of result room.new ∷ []) }
    {
        let count = self.source.give(&mut room[..most])?;
        self.given = self.given.and(&count, room);
        Ok(count)
    }
}

impl<W: Sink> Outlet<W> {
    pub fn new(sink: W) -> Outlet<W>
        ensures sink { result.sink ≡ sink }
        ensures taken { result.taken.items ≡ [] }
    {
        Outlet {
            sink,
            taken: Log::new(),
        }
    }

    /// Writes the first of at most so many bytes of the room, and returns their number.
    #[tactic(auto, using(crate::proofs::RecordLemmas::bytes_of_append))]
    pub fn take(&mut self, room: &[u8; ROOM], most: usize) -> io::Result<usize>
        requires some { 0 < most }
        requires fits { most ≤ 16384 }
        ensures within { IfOk result (λ n. n ≤ most) }
        ensures taken { IfOk result (λ n. bytes_of self.new.taken.items ≡ bytes_of self.old.taken.items ++ take n room.now) }
        ensures failed { OnErr result (self.new.taken.items ≡ self.old.taken.items) }
        ensures transfer { Logs (W.transfers self.old.sink) (W.transfers self.new.sink) (transfer_of result (take most room.now) ∷ []) }
    {
        let count = self.sink.take(&room[..most])?;
        self.taken = self.taken.and(&count, room);
        Ok(count)
    }
}

impl<R: Spools> Inlet<R> {
    /// A file for bytes of this connection.
    pub fn spool(&mut self) -> io::Result<Spool>
        ensures given { self.new.given ≡ self.old.given }
        ensures rest { IfOk result (λ spool. rest_of spool ≡ []) }
    {
        self.source.spool()
    }
}

impl<W: Spools> Outlet<W> {
    /// A file for bytes of this connection.
    pub fn spool(&mut self) -> io::Result<Spool>
        ensures taken { self.new.taken ≡ self.old.taken }
        ensures rest { IfOk result (λ spool. rest_of spool ≡ []) }
    {
        self.sink.spool()
    }
}

impl<W: Patient> Outlet<W> {
    /// Waits after a call that would have waited, at most for the milliseconds that are left.
    /// Another error is returned, and so is that they are over.
    pub fn wait_after(&mut self, error: io::Error, left: &mut u64) -> io::Result<()>
        ensures { self.new.taken ≡ self.old.taken }
    {
        if !would_wait(&error) {
            return Err(error);
        }
        *left = self.sink.wait(*left);
        if *left == 0 {
            return Err(too_late());
        }
        Ok(())
    }
}

impl<W: Shut> Outlet<W> {
    /// Closes the writing half of the connection.
    pub fn shut(&mut self) -> io::Result<()>
        ensures { self.new.taken ≡ self.old.taken }
    {
        self.sink.shut()
    }
}
