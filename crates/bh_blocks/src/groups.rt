//! The blocks at the front of bytes. Up to eight of them are hashed side by side.

ghost use Rattle.std.specs.Prelude.{◌≡◌, ◌*◌, ◌+◌, ◌<◌, ◌≤◌, ◌^◌, ◌++◌, length, take, drop, IfOk, OnOk};
ghost use Rattle.bh_tables.specs.Schema.{Octets};
ghost use Rattle.bh_view.specs.Bodies.{pieces, body_stored};
ghost use Rattle.bh_base.specs.Connections.{IsClean, tables, InTransaction, StaysWithin, StaysOpen};
ghost use Rattle.bh_cache.specs.Kept.{AreCopies};
ghost use Rattle.bh_blocks.specs.Groups.{AreFirst};
ghost use Rattle.bh_blocks.specs.Named.{body_at};

use crate::blocks::store_known;
use crate::refs::Place;
use crate::rows::in_range;
use bh_base::connection::Connection;
use bh_cache::blocks::BlockCache;
use bh_schema::host::Digester;
use bh_shelf::shelf::Shelf;
use sqlite::{Alter, Error, ErrorCode};
use std::alloc::{AllocError, Global};

/// The maximum size of a block, in bytes, that is hashed beside others: eight are 512 KiB.
const LANE: u64 = 65536;

/// Eight digests side by side take the time of three to four. So four blocks are hashed together.
const LEAST: u64 = 4;

/// Splits bytes: at most `size` of the first ones, and the rest.
pub(crate) fn cut_off(bytes: &[u8], size: u64) -> (&[u8], &[u8])
    ensures front { result.0.now ≡ take size bytes.now }
    ensures back { result.1.now ≡ drop size bytes.now }
{
    let count = size.min(bytes.len() as u64) as usize;
    (&bytes[..count], &bytes[count..])
}

/// The place after this one.
pub(crate) fn next_place(place: u64) -> Result<u64, Error>
    ensures next { IfOk result (λ next. next ≡ place + 1) }
    ensures small { IfOk result (λ next. next < 2 ^ 63) }
{
    match place.checked_add(1) {
        Some(next) => in_range(next),
        None => Err(Error::SqliteFailure(ErrorCode::TooBig)),
    }
}

/// How many of the blocks at the front of bytes are hashed together: one, or four to eight.
fn together(size: u64, bytes: &[u8]) -> usize
    requires low { 1 ≤ size }
    requires long { size ≤ length bytes.now }
    ensures some { 1 ≤ result }
    ensures most { result ≤ 8 }
    ensures whole { result * size ≤ length bytes.now }
    ensures beside { 1 < result → size ≤ 65536 }
{
    let count = (bytes.len() as u64 / size).min(8);
    if size > LANE || count < LEAST {
        1
    } else {
        count as usize
    }
}

/// Bytes, and zeros after them: `total` bytes in all.
fn with_idle(alloc: Global, bytes: &[u8], total: usize) -> Result<Vec<u8>, AllocError>
    requires long { length bytes.now ≤ total }
    ensures all { IfOk result (λ room. length room.items ≡ total) }
    ensures front { IfOk result (λ room. take (length bytes.now) room.items ≡ bytes.now) }
{
    let mut room = Vec::with_capacity(alloc, total)?;
    room.extend_from_slice(bytes)?;
    room.resize(total, 0)?;
    Ok(room)
}

/// The digests of the first `count` blocks of `size` bytes. For two to seven blocks the other lanes
/// hash zeros.
fn digests_of<D: Digester>(
    alloc: Global,
    digester: &D,
    size: usize,
    count: usize,
    bytes: &[u8],
) -> Result<[[u8; 32]; 8], Error>
    requires some { 1 ≤ count }
    requires most { count ≤ 8 }
    requires whole { count * size ≤ length bytes.now }
    requires beside { 1 < count → size ≤ 65536 }
    ensures { IfOk result (λ digests. AreFirst D.digest_of count size bytes.now digests) }
{
    if count == 1 {
        let mut digests = [[0u8; 32]; 8];
        digests[0] = digester.digest(&bytes[..size]);
        return Ok(digests);
    }
    if count == 8 {
        return Ok(digester.digest_eight(bytes, size));
    }
    let room = with_idle(alloc, &bytes[..count * size], 8 * size)?;
    Ok(digester.digest_eight(&room, size))
}

/// Stores the first `count` blocks of `size` bytes, from a place on, whose digests are the first of
/// these. Returns the next place, and the remaining bytes.
fn store_digested<'a, S: Alter, P: Shelf>(
    connection: &mut Connection<S, P>,
    cache: &BlockCache,
    size: u64,
    count: usize,
    from: &Place<'_>,
    bytes: &'a [u8],
    digests: &[[u8; 32]; 8],
) -> Result<(u64, &'a [u8]), Error>
    requires inside { InTransaction S.Store P.Shelf connection.old }
    requires copies { IsClean S.Store P.Shelf connection.old → AreCopies cache.now (tables S.Store P.Shelf connection.old).blocks }
    requires size { 1 ≤ size }
    requires body { from.now.body < 2 ^ 63 }
    requires place { from.now.place < 2 ^ 63 }
    requires most { count ≤ 8 }
    requires whole { count * size ≤ length bytes.now }
    ensures within { StaysWithin S.Store P.Shelf connection.old connection.new }
    ensures opens { OnOk result (StaysOpen S.Store P.Shelf connection.old connection.new) }
    ensures inside { OnOk result (InTransaction S.Store P.Shelf connection.new) }
    ensures copies { OnOk result (IsClean S.Store P.Shelf connection.new
        → AreCopies cache.now (tables S.Store P.Shelf connection.new).blocks) }
    ensures small { IfOk result (λ done. done.0 < 2 ^ 63) }
    ensures rest { IfOk result (λ done. done.1.now ≡ drop (count * size) bytes.now) }
    ensures goes { IfOk result (λ done. IsClean S.Store P.Shelf connection.new → (digest_of : Octets → Octets) (more : Octets)
        → AreFirst digest_of count size bytes.now digests.now
        → body_stored digest_of (body_at from.now) done.0 (pieces size (done.1.now ++ more)) (tables S.Store P.Shelf connection.new)
        ≡ body_stored digest_of (body_at from.now) from.now.place (pieces size (bytes.now ++ more))
        (tables S.Store P.Shelf connection.old)) }
{
    let mut rest = bytes;
    let mut place = from.place;
    'storing: for j in 0..count {
        let (block, more) = cut_off(rest, size);
        let at = Place {
            tenant: from.tenant,
            body: from.body,
            place,
        };
        store_known(connection, cache, &at, &digests[j], block)?;
        place = next_place(place)?;
        rest = more;
    }
    Ok((place, rest))
}

/// Stores one block at the front of bytes, or up to eight, from a place on. Returns the next place,
/// and the remaining bytes.
fn store_some<'a, S: Alter, P: Shelf, D: Digester>(
    connection: &mut Connection<S, P>,
    cache: &BlockCache,
    alloc: Global,
    digester: &D,
    size: u64,
    from: &Place<'_>,
    bytes: &'a [u8],
) -> Result<(u64, &'a [u8]), Error>
    requires inside { InTransaction S.Store P.Shelf connection.old }
    requires copies { IsClean S.Store P.Shelf connection.old → AreCopies cache.now (tables S.Store P.Shelf connection.old).blocks }
    requires size { 1 ≤ size }
    requires body { from.now.body < 2 ^ 63 }
    requires place { from.now.place < 2 ^ 63 }
    requires long { size ≤ length bytes.now }
    ensures within { StaysWithin S.Store P.Shelf connection.old connection.new }
    ensures opens { OnOk result (StaysOpen S.Store P.Shelf connection.old connection.new) }
    ensures inside { OnOk result (InTransaction S.Store P.Shelf connection.new) }
    ensures copies { OnOk result (IsClean S.Store P.Shelf connection.new
        → AreCopies cache.now (tables S.Store P.Shelf connection.new).blocks) }
    ensures small { IfOk result (λ done. done.0 < 2 ^ 63) }
    ensures less { IfOk result (λ done. length done.1.now < length bytes.now) }
    ensures goes { IfOk result (λ done. IsClean S.Store P.Shelf connection.new → (more : Octets)
        → body_stored D.digest_of (body_at from.now) done.0 (pieces size (done.1.now ++ more)) (tables S.Store P.Shelf connection.new)
        ≡ body_stored D.digest_of (body_at from.now) from.now.place (pieces size (bytes.now ++ more))
        (tables S.Store P.Shelf connection.old)) }
{
    let count = together(size, bytes);
    let digests = digests_of(alloc, digester, size as usize, count, bytes)?;
    store_digested(connection, cache, size, count, from, bytes, &digests)
}

/// Stores the blocks at the front of bytes, from a place on. Returns the next place, and the
/// remaining bytes.
pub(crate) fn store_blocks<'a, S: Alter, P: Shelf, D: Digester>(
    connection: &mut Connection<S, P>,
    cache: &BlockCache,
    alloc: Global,
    digester: &D,
    size: u64,
    from: &Place<'_>,
    bytes: &'a [u8],
) -> Result<(u64, &'a [u8]), Error>
    requires inside { InTransaction S.Store P.Shelf connection.old }
    requires copies { IsClean S.Store P.Shelf connection.old → AreCopies cache.now (tables S.Store P.Shelf connection.old).blocks }
    requires size { 1 ≤ size }
    requires body { from.now.body < 2 ^ 63 }
    requires place { from.now.place < 2 ^ 63 }
    ensures within { StaysWithin S.Store P.Shelf connection.old connection.new }
    ensures opens { OnOk result (StaysOpen S.Store P.Shelf connection.old connection.new) }
    ensures inside { OnOk result (InTransaction S.Store P.Shelf connection.new) }
    ensures copies { OnOk result (IsClean S.Store P.Shelf connection.new
        → AreCopies cache.now (tables S.Store P.Shelf connection.new).blocks) }
    ensures small { IfOk result (λ done. done.0 < 2 ^ 63) }
    ensures fewer { IfOk result (λ done. length done.1.now < size) }
    ensures goes { IfOk result (λ done. IsClean S.Store P.Shelf connection.new → (more : Octets)
        → body_stored D.digest_of (body_at from.now) done.0 (pieces size (done.1.now ++ more)) (tables S.Store P.Shelf connection.new)
        ≡ body_stored D.digest_of (body_at from.now) from.now.place (pieces size (bytes.now ++ more))
        (tables S.Store P.Shelf connection.old)) }
{
    let mut rest = bytes;
    let mut place = from.place;
    'cutting: while rest.len() as u64 >= size {
        let at = Place {
            tenant: from.tenant,
            body: from.body,
            place,
        };
        let (next, more) = store_some(connection, cache, alloc, digester, size, &at, rest)?;
        place = next;
        rest = more;
    }
    Ok((place, rest))
}
