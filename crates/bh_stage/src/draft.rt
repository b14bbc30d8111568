//! A request while it comes: all the bytes that its connection gave are kept, in memory or, of a long
//! one, in a file.

ghost use Rattle.std.specs.Prelude.{◌≡◌, ◌≢◌, ◌<◌, ◌≤◌, ◌++◌, ◌==◌, ◌&&◌, true, false, is_some};
ghost use Rattle.bh_stage.specs.Joins.{Joins};
ghost use Rattle.bh_stage.specs.Records.{bytes_of, is_ended};
ghost use Rattle.bh_stage.specs.Spools.{rest_in};
ghost use Rattle.bh_stage.specs.Wholes.{IsWhole, IsReached};

use crate::record::{Inlet, ROOM};
use crate::spool::{Spool, Spools, keep, written_in};
use crate::whole::{Door, Extent, extent_of, may_join};
use bh_link::ends::Source;
use bh_types::limits::Limits;
use std::alloc::Global;
use std::io;

/// How many bytes of a request are kept in memory at most.
pub const MOST_KEPT: usize = 1_048_576;

/// What came of a request.
#[derive(Clone, Copy, PartialEq, Eq)]
pub enum Look {
    /// More of it is to come.
    Coming,
    /// It is whole, or can be none that is accepted.
    Whole,
    /// Its bytes ended before.
    Ended,
    /// Its head came, and announces more than is kept in memory: it wants a file.
    TooLong,
    /// As many bytes as it announces came, or its client sends no more; some are in a file.
    Spilled,
    /// Memory ran out, and bytes of it are lost.
    Lost,
}

/// A request while it comes.
#[derive(Drop)]
pub struct Draft<R> {
    /// Its connection's number, which no other one has.
    pub(crate) number: u64,
    pub(crate) inlet: Inlet<R>,
    pub(crate) kept: Vec<u8>,
    pub(crate) door: Door,
    /// How many bytes it has, once its head came; 0 before.
    size: usize,
    /// How many bytes it has, if they have no room in memory; else 0.
    wanted: usize,
    /// The file of the bytes that have no room in memory, which come after these.
    pub(crate) spool: Option<Spool>,
    /// Whether the last call gave no byte.
    ended: bool,
    /// Whether memory ran out.
    pub(crate) lost: bool,
    ghost all: { lost ≡ false → bytes_of inlet.given.items ≡ kept.items ++ rest_in spool },
    ghost end: { is_ended inlet.given.items ≡ ended },
}

impl<R: Source> Draft<R> {
    /// Of a connection with this number.
    pub fn new(alloc: Global, number: u64, door: Door, source: R) -> Draft<R>
        ensures number { result.number ≡ number }
        ensures door { result.door ≡ door }
    {
        Draft {
            number,
            inlet: Inlet::new(source),
            kept: Vec::new(alloc),
            door,
            size: 0,
            wanted: 0,
            spool: None,
            ended: false,
            lost: false,
        }
    }

    /// Reads some bytes, none after a request whose head came. Returns how many; 0 at the end.
    pub fn read(&mut self) -> io::Result<usize>
        ensures door { self.new.door ≡ self.old.door }
        ensures number { self.new.number ≡ self.old.number }
    {
        let mut room = [0u8; ROOM];
        let was_lost = self.lost;
        let most = due(self.size, self.came());
        let count = self.inlet.give(&mut room, most)?;
        self.ended = count == 0;
        self.lost = true;
        keep(&mut self.kept, &mut self.spool, &room, count)?;
        self.lost = was_lost;
        Ok(count)
    }

    /// How many bytes of it came.
    pub fn came(&self) -> usize {
        let spilled = usize::try_from(written_in(&self.spool)).unwrap_or(usize::MAX);
        self.kept.len().saturating_add(spilled)
    }

    /// The first bytes of it, at least its head once that came.
    pub(crate) fn first(&self) -> &[u8] {
        self.kept.as_slice()
    }

    /// Whether it may be applied together with others.
    pub(crate) fn may_join(&self) -> bool
        ensures { result ≡ true → Joins self.now.door (is_some self.now.spool) self.now.kept.items }
    {
        self.spool.is_none() && may_join(self.door, self.kept.as_slice())
    }

    /// How many bytes of it are in memory, or are to come there.
    pub(crate) fn weight(&self) -> usize {
        if self.spool.is_some() {
            self.kept.len()
        } else {
            self.kept.len().max(self.size)
        }
    }

    /// How many bytes it may have in a file.
    pub(crate) fn spread(&self) -> usize {
        if self.spool.is_some() { self.size } else { 0 }
    }

    /// How many bytes it has, if it wants a file for them; else 0.
    pub(crate) fn wants(&self) -> usize {
        if self.spool.is_some() { 0 } else { self.wanted }
    }

    /// Whether its head is still to come.
    pub(crate) fn is_new(&self) -> bool
        ensures { result ≡ ((self.now.size == 0) && (self.now.wanted == 0)) }
    {
        self.size == 0 && self.wanted == 0
    }

    /// Its connection's number.
    pub fn number(&self) -> u64
        ensures { result ≡ self.now.number }
    {
        self.number
    }

    /// Which listener its connection came to.
    pub fn door(&self) -> Door
        ensures { result ≡ self.now.door }
    {
        self.door
    }

    /// What came of it, where at most so many bytes of it are kept in memory.
    pub fn look(&mut self, limits: &Limits, most: usize) -> Look
        ensures whole { result ≡ Look.Whole → IsWhole limits.now self.new.door (bytes_of self.new.inlet.given.items) }
        ensures ended { result ≡ Look.Ended → is_ended self.new.inlet.given.items ≡ true }
        ensures whole_kept { result ≡ Look.Whole → is_some self.new.spool ≡ false }
        ensures spilled { result ≡ Look.Spilled → is_some self.new.spool ≡ true }
        ensures lost { self.new.lost ≡ true → result ≡ Look.Lost }
        ensures inlet { self.new.inlet ≡ self.old.inlet }
        ensures kept { self.new.kept ≡ self.old.kept }
        ensures spool { self.new.spool ≡ self.old.spool }
        ensures door { self.new.door ≡ self.old.door }
        ensures number { self.new.number ≡ self.old.number }
    {
        if self.lost {
            return Look::Lost;
        }
        let came = self.came();
        if came < self.size && !self.ended {
            return Look::Coming;
        }
        if self.spool.is_some() {
            return Look::Spilled;
        }
        let extent = extent_of(limits, self.door, self.kept.as_slice());
        let look = look_of(extent, self.kept.len(), self.ended, most);
        match (extent, look) {
            (Extent::Bytes(size), Look::Coming) => self.size = size,
            (_, Look::TooLong) => self.wanted = size_of(extent),
            _ => {}
        }
        look
    }
}

impl<R: Spools> Draft<R> {
    /// What comes of it from here on is kept in a file.
    pub(crate) fn spill(&mut self) -> io::Result<()>
        ensures door { self.new.door ≡ self.old.door }
        ensures number { self.new.number ≡ self.old.number }
    {
        if self.spool.is_some() {
            return Ok(());
        }
        let spool = self.inlet.spool()?;
        self.spool = Some(spool);
        self.size = self.wanted;
        Ok(())
    }
}

/// How many bytes a request of this extent has.
fn size_of(extent: Extent) -> usize {
    match extent {
        Extent::Bytes(size) => size,
        Extent::TooLong | Extent::NotYet | Extent::Never => usize::MAX,
    }
}

/// How many bytes to ask for: those that are due, where that is known.
fn due(size: usize, came: usize) -> usize
    ensures some { 0 < result }
    ensures fits { result ≤ 16384 }
{
    let left = size.saturating_sub(came);
    if left == 0 { ROOM } else { left.min(ROOM) }
}

/// What an extent means for a request of which so many bytes came.
fn look_of(extent: Extent, came: usize, ended: bool, most: usize) -> Look
    ensures whole { result ≡ Look.Whole → IsReached extent came }
    ensures ended { result ≡ Look.Ended → ended ≡ true }
    ensures lost { result ≢ Look.Lost }
    ensures spilled { result ≢ Look.Spilled }
{
    match extent {
        Extent::Never => Look::Whole,
        Extent::Bytes(size) if size <= came => Look::Whole,
        Extent::Bytes(_) | Extent::NotYet | Extent::TooLong if ended => Look::Ended,
        Extent::Bytes(size) if size <= most => Look::Coming,
        Extent::Bytes(_) | Extent::TooLong => Look::TooLong,
        Extent::NotYet => Look::Coming,
    }
}
