//! The reader of a request that was kept.

ghost use Rattle.std.specs.Prelude.{◌≡◌, ◌≤◌, ◌<◌, ◌+◌, ◌++◌, true, false, length, drop, take, is_some, vec_len, IfOk, OnErr, IfSome};
ghost use Rattle.std.specs.Io.{ReadsAtMost};
ghost use Rattle.std.specs.Io.KnownBytes.{ReadConsumes, Consumes, IsAtEnd};
ghost use Rattle.bh_stage.specs.Joins.{Joins};
ghost use Rattle.bh_stage.specs.Records.{bytes_of, told_unless};
ghost use Rattle.bh_stage.specs.Spools.{rest_in, ReturnsAll};

use crate::copying::{copy_piece, copy_rest};
use crate::draft::Draft;
use crate::record::{Inlet, ROOM};
use crate::spool::{Spool, get, written_in};
use crate::whole::{Door, may_join};
use bh_link::ends::Source;
use http_server::Log;
use std::io;

/// The bytes that came of a request, from its first one. Those that had no room in memory come from a
/// file: if that returns what was written to it, they are given as they came.
#[derive(Drop)]
pub struct Kept<R> {
    /// Its connection's number.
    number: u64,
    pub(crate) inlet: Inlet<R>,
    bytes: Vec<u8>,
    at: usize,
    /// The file of those that come after these.
    spool: Option<Spool>,
    /// The record of those that it gave.
    gave: Log<usize, [u8; ROOM]>,
    ghost within: { at ≤ vec_len bytes },
    ghost all: { ReturnsAll spool → bytes_of gave.items ++ (drop at bytes.items ++ rest_in spool) ≡ bytes_of inlet.given.items },
}

impl<R: Source + Drop> Kept<R> {
    /// The reader of a draft; `None` if bytes of it were lost.
    pub fn of(draft: Draft<R>) -> Option<Kept<R>>
        ensures bytes { IfSome result (λ k. (k.spool ≡ draft.spool) × (k.at ≡ 0) × (k.bytes ≡ draft.kept)) }
        ensures own { IfSome result (λ k. (k.inlet ≡ draft.inlet) × (k.number ≡ draft.number)) }
    {
        if draft.lost {
            return None;
        }
        Some(Kept {
            number: draft.number,
            inlet: draft.inlet,
            bytes: draft.kept,
            at: 0,
            spool: draft.spool,
            gave: Log::new(),
        })
    }

    /// The first bytes that came of the request.
    pub fn first(&self) -> &[u8]
        ensures { result.now ≡ self.now.bytes.items }
    {
        self.bytes.as_slice()
    }

    /// Its reader, with the record.
    pub(crate) fn into_inlet(self) -> Inlet<R>
        ensures { result ≡ self.inlet }
    {
        self.inlet
    }

    /// Whether it may be applied together with others, if it came to this listener.
    pub fn may_join(&self, door: Door) -> bool
        ensures { result ≡ true → Joins door (is_some self.now.spool) self.now.bytes.items }
    {
        self.spool.is_none() && may_join(door, self.bytes.as_slice())
    }

    /// How many bytes came.
    pub fn size(&self) -> u64 {
        written_in(&self.spool).saturating_add(self.bytes.len() as u64)
    }
}

impl<R: Source> Kept<R> {
    /// Copies the next bytes in memory to the front of the room, at most so many. Returns how many.
    fn next_kept(&mut self, room: &mut [u8; ROOM], most: usize) -> usize
        requires fits { most ≤ 16384 }
        ensures within { result ≤ most }
        ensures some { 0 < most → self.old.at < vec_len self.old.bytes → 0 < result }
        ensures at { self.new.at ≡ self.old.at + result }
        ensures bytes { take result room.new ≡ take result (drop self.old.at self.old.bytes.items) }
        ensures same { (self.new.bytes ≡ self.old.bytes) × (self.new.spool ≡ self.old.spool) }
        ensures gave { bytes_of self.new.gave.items ≡ bytes_of self.old.gave.items ++ take result room.new }
    {
        let count = copy_rest(&mut room[..most], self.bytes.as_slice(), self.at);
        self.at += count;
        self.gave = self.gave.and(&count, room);
        count
    }

    /// Reads the next bytes of the file to the front of the room, at most so many. Returns how many; 0
    /// at the end.
    fn next_spooled(&mut self, room: &mut [u8; ROOM], most: usize) -> io::Result<usize>
        requires none { vec_len self.old.bytes ≤ self.old.at }
        requires some { 0 < most }
        requires fits { most ≤ 16384 }
        ensures within { IfOk result (λ n. n ≤ most) }
        ensures end { is_some self.old.spool ≡ false → IfOk result (λ n. n ≡ 0) }
        ensures same { (self.new.bytes ≡ self.old.bytes) × (self.new.at ≡ self.old.at) × (is_some self.new.spool ≡ is_some self.old.spool) }
        ensures gave { IfOk result (λ n. bytes_of self.new.gave.items ≡ bytes_of self.old.gave.items ++ take n room.new) }
        ensures failed { OnErr result (self.new.gave ≡ self.old.gave) }
    {
        let count = get(&mut self.spool, room, most)?;
        self.gave = self.gave.and(&count, room);
        Ok(count)
    }
}

impl<R: Source> Kept<R> {
    /// Brings the next bytes to the front of the room, at most so many. Returns how many; 0 at the
    /// end.
    fn next(&mut self, room: &mut [u8; ROOM], most: usize) -> io::Result<usize>
        requires some { 0 < most }
        requires fits { most ≤ 16384 }
        ensures within { IfOk result (λ n. n ≤ most) }
        ensures bytes { IfOk result (λ n. Consumes (told_unless (is_some self.old.spool) (drop self.old.at self.old.bytes.items))
            (told_unless (is_some self.new.spool) (drop self.new.at self.new.bytes.items)) (take n room.new)) }
        ensures end { IfOk result (λ n. n ≡ 0 → IsAtEnd (told_unless (is_some self.new.spool) (drop self.new.at self.new.bytes.items))) }
        ensures failed { OnErr result (told_unless (is_some self.new.spool) (drop self.new.at self.new.bytes.items)
            ≡ told_unless (is_some self.old.spool) (drop self.old.at self.old.bytes.items)) }
        ensures gave { IfOk result (λ n. bytes_of self.new.gave.items ≡ bytes_of self.old.gave.items ++ take n room.new) }
        ensures gave_none { OnErr result (self.new.gave ≡ self.old.gave) }
    {
        if self.at < self.bytes.len() {
            return Ok(self.next_kept(room, most));
        }
        let count = self.next_spooled(room, most)?;
        Ok(count)
    }

    /// Copies the next bytes to the front of the room. Returns how many; 0 at the end.
    fn bring(&mut self, room: &mut [u8]) -> io::Result<usize>
        requires { 0 < length room.old }
        ensures within { ReadsAtMost result room.new }
        ensures len { length room.new ≡ length room.old }
        ensures bytes { ReadConsumes (told_unless (is_some self.old.spool) (drop self.old.at self.old.bytes.items))
            (told_unless (is_some self.new.spool) (drop self.new.at self.new.bytes.items)) result room.new }
        ensures gave { IfOk result (λ n. bytes_of self.new.gave.items ≡ bytes_of self.old.gave.items ++ take n room.new) }
        ensures gave_none { OnErr result (self.new.gave ≡ self.old.gave) }
    {
        let mut piece = [0u8; ROOM];
        let most = room.len().min(ROOM);
        let count = self.next(&mut piece, most)?;
        copy_piece(room, &piece, count);
        Ok(count)
    }
}

impl<R: Source> Source for Kept<R> {
    ghost remaining = { λ it. told_unless (is_some it.spool) (drop it.at it.bytes.items) };

    fn give(&mut self, room: &mut [u8]) -> io::Result<usize> {
        self.bring(room)
    }
}
