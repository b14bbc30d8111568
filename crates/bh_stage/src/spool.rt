//! Files for bytes that have no room in memory.

ghost use Rattle.std.specs.Prelude.{◌≡◌, ◌≤◌, ◌<◌, ◌+◌, ◌-◌, ◌++◌, [], false, length, take, is_some, IfOk, OnOk, OnErr};
ghost use Rattle.bh_stage.specs.Spools.{rest_of, rest_in, IsFaithful, ReturnsAll};

use crate::copying::append;
use crate::record::ROOM;
pub use crate::spooled::Spool;
use http_server::Log;
use std::fs::File;
use std::io;
use std::io::ErrorKind;
use std::os::unix::fs::FileExt;

/// An end of a connection that makes such files. What a real file returns isn't proved: that it is what
/// was written to it is the premise of the clauses about bytes in files (`ReturnsAll`).
pub trait Spools {
    /// An empty file, which is gone once it is closed.
    fn spool(&mut self) -> io::Result<Spool>
        ensures { IfOk result (λ spool. rest_of spool ≡ []) };
}

impl Spool {
    /// Over an empty file.
    pub fn new(file: File) -> Spool
        ensures rest { rest_of result ≡ [] }
        ensures faithful { IsFaithful result }
    {
        Spool {
            file,
            written: 0,
            read: 0,
            put: Log::new(),
            got: Log::new(),
        }
    }

    /// How many bytes were written.
    pub fn written(&self) -> u64 {
        self.written
    }

    /// How many bytes weren't read yet.
    pub fn left(&self) -> u64
        ensures { result ≡ length (rest_of self.now) }
    {
        self.written - self.read
    }

    /// Where all bytes were read, the next are written to the front of the file.
    fn begin_anew(&mut self)
        ensures rest { rest_of self.new ≡ rest_of self.old }
        ensures faithful { IsFaithful self.new → IsFaithful self.old }
    {
        if self.read == self.written {
            self.written = 0;
            self.read = 0;
        }
    }

    /// Writes the first of these bytes, so many. Where all others were read, it begins anew.
    #[tactic(auto, using(crate::proofs::RecordLemmas::bytes_of_append))]
    pub fn put(&mut self, piece: &[u8; ROOM], count: usize) -> io::Result<()>
        requires { count ≤ 16384 }
        ensures ok { OnOk result (rest_of self.new ≡ rest_of self.old ++ take count piece.now) }
        ensures err { OnErr result (rest_of self.new ≡ rest_of self.old) }
        ensures faithful { IsFaithful self.new → IsFaithful self.old }
    {
        self.begin_anew();
        let Some(end) = self.written.checked_add(count as u64) else {
            return Err(io::Error::from(ErrorKind::FileTooLarge));
        };
        self.file.write_all_at(&piece[..count], self.written)?;
        self.written = end;
        self.put = self.put.and(&count, piece);
        Ok(())
    }

    /// Reads at most so many bytes to the front of the room. Returns how many; 0 if all were read.
    #[tactic(auto, using(crate::proofs::RecordLemmas::bytes_of_append))]
    pub fn get(&mut self, room: &mut [u8; ROOM], most: usize) -> io::Result<usize>
        requires some { 0 < most }
        requires fits { most ≤ 16384 }
        ensures within { IfOk result (λ n. n ≤ most) }
        ensures rest { IfOk result (λ n. IsFaithful self.new → rest_of self.old ≡ take n room.new ++ rest_of self.new) }
        ensures end { IfOk result (λ n. n ≡ 0 → rest_of self.old ≡ []) }
        ensures err { OnErr result (rest_of self.new ≡ rest_of self.old) }
        ensures faithful { IsFaithful self.new → IsFaithful self.old }
    {
        let most = self.left().min(most as u64) as usize;
        if most == 0 {
            return Ok(0);
        }
        let count = self.file.read_at(&mut room[..most], self.read)?;
        if count == 0 {
            return Err(io::Error::from(ErrorKind::UnexpectedEof));
        }
        self.read += count as u64;
        self.got = self.got.and(&count, room);
        Ok(count)
    }
}

/// Writes the first of these bytes, so many, to a file, if there is one.
pub(crate) fn put(spool: &mut Option<Spool>, piece: &[u8; ROOM], count: usize) -> io::Result<()>
    requires { count ≤ 16384 }
    ensures ok { OnOk result (rest_in spool.new ≡ rest_in spool.old ++ take count piece.now) }
    ensures err { OnErr result (rest_in spool.new ≡ rest_in spool.old) }
    ensures faithful { ReturnsAll spool.new → ReturnsAll spool.old }
    ensures same { is_some spool.new ≡ is_some spool.old }
{
    match spool {
        Some(spool) => spool.put(piece, count),
        None => Err(io::Error::from(ErrorKind::NotFound)),
    }
}

/// Keeps the first bytes of a piece, so many: in a file, if there is one, and else in memory.
#[tactic(auto, using(crate::proofs::SpoolLemmas::kept_more, crate::proofs::SpoolLemmas::kept_away))]
pub(crate) fn keep(
    kept: &mut Vec<u8>,
    spool: &mut Option<Spool>,
    piece: &[u8; ROOM],
    count: usize,
) -> io::Result<()>
    requires { count ≤ 16384 }
    ensures { OnOk result (kept.new.items ++ rest_in spool.new ≡ (kept.old.items ++ rest_in spool.old) ++ take count piece.now) }
{
    if spool.is_some() {
        return put(spool, piece, count);
    }
    append(kept, piece, count)?;
    Ok(())
}

/// Reads at most so many bytes of a file, if there is one.
pub(crate) fn get(
    spool: &mut Option<Spool>,
    room: &mut [u8; ROOM],
    most: usize,
) -> io::Result<usize>
    requires some { 0 < most }
    requires fits { most ≤ 16384 }
    ensures within { IfOk result (λ n. n ≤ most) }
    ensures rest { IfOk result (λ n. ReturnsAll spool.new → rest_in spool.old ≡ take n room.new ++ rest_in spool.new) }
    ensures end { IfOk result (λ n. n ≡ 0 → rest_in spool.old ≡ []) }
    ensures err { OnErr result (rest_in spool.new ≡ rest_in spool.old) }
    ensures faithful { ReturnsAll spool.new → ReturnsAll spool.old }
    ensures none { is_some spool.old ≡ false → IfOk result (λ n. n ≡ 0) }
    ensures same { is_some spool.new ≡ is_some spool.old }
{
    match spool {
        Some(spool) => spool.get(room, most),
        None => Ok(0),
    }
}

/// How many bytes of a file weren't read yet.
pub(crate) fn left_in(spool: &Option<Spool>) -> u64
    ensures { result ≡ length (rest_in spool.now) }
{
    match spool {
        Some(spool) => spool.left(),
        None => 0,
    }
}

/// How many bytes a file has.
pub(crate) fn written_in(spool: &Option<Spool>) -> u64 {
    match spool {
        Some(spool) => spool.written(),
        None => 0,
    }
}
