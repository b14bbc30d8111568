//! A body that is stored while it is received, in pieces of any sizes. It has less than one block
//! in memory.

ghost use Rattle.std.specs.Prelude.{◌≡◌, ◌+◌, ◌<◌, ◌≤◌, ◌^◌, ◌++◌, ◌∷◌, [], length, OnOk};
ghost use Rattle.sha2.specs.Sha256.{sha256};
ghost use Rattle.bh_tables.specs.Schema.{Octets};
ghost use Rattle.bh_tables.specs.Typed.{Tables};
ghost use Rattle.bh_view.specs.Blocks.{AreDigests};
ghost use Rattle.bh_view.specs.Bodies.{IsResolved, pieces, body_stored, AddsBody};
ghost use Rattle.bh_base.specs.Connections.{IsClean, stands, tables, InTransaction, StaysWithin, StaysOpen, Becomes};
ghost use Rattle.bh_base.specs.Layer.{Holds};
ghost use Rattle.bh_cache.specs.Kept.{AreCopies};
ghost use Rattle.bh_blocks.specs.Added.{IsNewBody};
ghost use Rattle.bh_blocks.specs.Drafts.{Goes, drafted};

use crate::blocks::{store_known, store_piece};
use crate::groups::{cut_off, next_place, store_blocks};
use crate::refs::Place;
use bh_base::connection::Connection;
use bh_cache::blocks::BlockCache;
use bh_schema::host::Digester;
use bh_shelf::shelf::Shelf;
use sqlite::{Alter, Error};
use std::alloc::Global;

/// A body of which some bytes were received. Its complete blocks are stored, and the rest of less
/// than one block is in memory.
#[derive(Drop)]
pub struct Draft<'a> {
    tenant: &'a str,
    /// An entry number of the tenant.
    body: u64,
    /// Bytes, of a block.
    size: u64,
    /// The next block's place in the body, counted from 0.
    place: u64,
    waiting: Vec<u8>,
}

/// Begins a body, in blocks of `block_size` bytes. It must not have any references yet.
pub fn begin_body<'a>(alloc: Global, tenant: &'a str, body: u64, block_size: u64) -> Draft<'a>
    ensures tenant { result.tenant.now ≡ tenant.now }
    ensures body { result.body ≡ body }
    ensures size { result.size ≡ block_size }
    ensures place { result.place ≡ 0 }
    ensures waiting { result.waiting.items ≡ [] }
{
    Draft {
        tenant,
        body,
        size: block_size,
        place: 0,
        waiting: Vec::new(alloc),
    }
}

/// The number of bytes in memory.
fn held(draft: &Draft<'_>) -> u64
    ensures { result ≡ length draft.now.waiting.items }
{
    draft.waiting.len() as u64
}

pub(crate) fn append(waiting: &mut Vec<u8>, bytes: &[u8]) -> Result<(), Error>
    ensures { OnOk result (waiting.new.items ≡ waiting.old.items ++ bytes.now) }
{
    Ok(waiting.extend_from_slice(bytes)?)
}

/// Adds bytes to a body that has none in memory.
fn push_blocks<S: Alter, P: Shelf, D: Digester>(
    connection: &mut Connection<S, P>,
    cache: &BlockCache,
    digester: &D,
    draft: &mut Draft<'_>,
    bytes: &[u8],
) -> Result<(), Error>
    requires inside { InTransaction S.Store P.Shelf connection.old }
    requires copies { IsClean S.Store P.Shelf connection.old → AreCopies cache.now (tables S.Store P.Shelf connection.old).blocks }
    requires size { 1 ≤ draft.old.size }
    requires body { draft.old.body < 2 ^ 63 }
    requires place { draft.old.place < 2 ^ 63 }
    requires none { draft.old.waiting.items ≡ [] }
    ensures within { StaysWithin S.Store P.Shelf connection.old connection.new }
    ensures opens { OnOk result (StaysOpen S.Store P.Shelf connection.old connection.new) }
    ensures inside { OnOk result (InTransaction S.Store P.Shelf connection.new) }
    ensures copies { OnOk result (IsClean S.Store P.Shelf connection.new
        → AreCopies cache.now (tables S.Store P.Shelf connection.new).blocks) }
    ensures of { drafted draft.new ≡ drafted draft.old }
    ensures body { draft.new.body ≡ draft.old.body }
    ensures size { draft.new.size ≡ draft.old.size }
    ensures small { OnOk result (draft.new.place < 2 ^ 63) }
    ensures fewer { OnOk result (length draft.new.waiting.items < draft.new.size) }
    ensures goes { OnOk result (IsClean S.Store P.Shelf connection.new → (more : Octets)
        → body_stored D.digest_of (drafted draft.old) draft.new.place (pieces draft.old.size (draft.new.waiting.items ++ more))
        (tables S.Store P.Shelf connection.new)
        ≡ body_stored D.digest_of (drafted draft.old) draft.old.place (pieces draft.old.size (bytes.now ++ more))
        (tables S.Store P.Shelf connection.old)) }
{
    let from = Place {
        tenant: draft.tenant,
        body: draft.body,
        place: draft.place,
    };
    let alloc = *draft.waiting.allocator();
    let size = draft.size;
    let (place, rest) = store_blocks(connection, cache, alloc, digester, size, &from, bytes)?;
    draft.place = place;
    append(&mut draft.waiting, rest)?;
    Ok(())
}

/// Stores the bytes in memory as a block.
fn store_waiting<S: Alter, P: Shelf, D: Digester>(
    connection: &mut Connection<S, P>,
    cache: &BlockCache,
    digester: &D,
    draft: &mut Draft<'_>,
) -> Result<(), Error>
    requires inside { InTransaction S.Store P.Shelf connection.old }
    requires copies { IsClean S.Store P.Shelf connection.old → AreCopies cache.now (tables S.Store P.Shelf connection.old).blocks }
    requires body { draft.old.body < 2 ^ 63 }
    requires place { draft.old.place < 2 ^ 63 }
    ensures within { StaysWithin S.Store P.Shelf connection.old connection.new }
    ensures opens { OnOk result (StaysOpen S.Store P.Shelf connection.old connection.new) }
    ensures copies { OnOk result (IsClean S.Store P.Shelf connection.new
        → AreCopies cache.now (tables S.Store P.Shelf connection.new).blocks) }
    ensures of { drafted draft.new ≡ drafted draft.old }
    ensures body { draft.new.body ≡ draft.old.body }
    ensures size { draft.new.size ≡ draft.old.size }
    ensures next { OnOk result (draft.new.place ≡ draft.old.place + 1) }
    ensures small { OnOk result (draft.new.place < 2 ^ 63) }
    ensures none { OnOk result (draft.new.waiting.items ≡ []) }
    ensures stored { OnOk result (Becomes S.Store P.Shelf connection.old connection.new
        (body_stored D.digest_of (drafted draft.old) draft.old.place (draft.old.waiting.items ∷ []))) }
{
    let at = Place {
        tenant: draft.tenant,
        body: draft.body,
        place: draft.place,
    };
    store_piece(connection, cache, digester, &at, &draft.waiting)?;
    draft.place = next_place(draft.place)?;
    draft.waiting.clear();
    Ok(())
}

/// Adds bytes to a body. After an error the draft is lost, and the transaction has to be rolled
/// back.
pub fn push<S: Alter, P: Shelf, D: Digester>(
    connection: &mut Connection<S, P>,
    cache: &BlockCache,
    digester: &D,
    draft: &mut Draft<'_>,
    bytes: &[u8],
) -> Result<(), Error>
    requires inside { InTransaction S.Store P.Shelf connection.old }
    requires copies { IsClean S.Store P.Shelf connection.old → AreCopies cache.now (tables S.Store P.Shelf connection.old).blocks }
    requires size { 1 ≤ draft.old.size }
    requires body { draft.old.body < 2 ^ 63 }
    requires place { draft.old.place < 2 ^ 63 }
    requires fewer { length draft.old.waiting.items < draft.old.size }
    ensures within { StaysWithin S.Store P.Shelf connection.old connection.new }
    ensures opens { OnOk result (StaysOpen S.Store P.Shelf connection.old connection.new) }
    ensures inside { OnOk result (InTransaction S.Store P.Shelf connection.new) }
    ensures copies { OnOk result (IsClean S.Store P.Shelf connection.new
        → AreCopies cache.now (tables S.Store P.Shelf connection.new).blocks) }
    ensures of { drafted draft.new ≡ drafted draft.old }
    ensures body { draft.new.body ≡ draft.old.body }
    ensures size { draft.new.size ≡ draft.old.size }
    ensures small { OnOk result (draft.new.place < 2 ^ 63) }
    ensures fewer { OnOk result (length draft.new.waiting.items < draft.new.size) }
    ensures goes { OnOk result (IsClean S.Store P.Shelf connection.new → (given : Octets) (start : Tables)
        → Goes D.digest_of draft.old (tables S.Store P.Shelf connection.old) given start
        → Goes D.digest_of draft.new (tables S.Store P.Shelf connection.new) (given ++ bytes.now) start) }
{
    let waits = held(draft);
    if waits == 0 {
        push_blocks(connection, cache, digester, draft, bytes)?;
        return Ok(());
    }
    let (front, rest) = cut_off(bytes, draft.size - waits);
    append(&mut draft.waiting, front)?;
    if held(draft) < draft.size {
        return Ok(());
    }
    store_waiting(connection, cache, digester, draft)?;
    push_blocks(connection, cache, digester, draft, rest)?;
    Ok(())
}

/// Adds one block to a body that has no bytes in memory. The block's SHA-256 digest (FIPS 180-4) is
/// known, so SHA-256 doesn't hash it again.
pub fn push_known<S: Alter, P: Shelf, D: Digester>(
    connection: &mut Connection<S, P>,
    cache: &BlockCache,
    digester: &D,
    draft: &mut Draft<'_>,
    block: &[u8],
    checksum: &[u8; 32],
) -> Result<(), Error>
    requires inside { InTransaction S.Store P.Shelf connection.old }
    requires copies { IsClean S.Store P.Shelf connection.old → AreCopies cache.now (tables S.Store P.Shelf connection.old).blocks }
    requires size { 1 ≤ draft.old.size }
    requires body { draft.old.body < 2 ^ 63 }
    requires place { draft.old.place < 2 ^ 63 }
    requires none { draft.old.waiting.items ≡ [] }
    requires whole { length block.now ≡ draft.old.size }
    requires known { checksum.now ≡ sha256 block.now }
    ensures within { StaysWithin S.Store P.Shelf connection.old connection.new }
    ensures opens { OnOk result (StaysOpen S.Store P.Shelf connection.old connection.new) }
    ensures inside { OnOk result (InTransaction S.Store P.Shelf connection.new) }
    ensures copies { OnOk result (IsClean S.Store P.Shelf connection.new
        → AreCopies cache.now (tables S.Store P.Shelf connection.new).blocks) }
    ensures of { drafted draft.new ≡ drafted draft.old }
    ensures body { draft.new.body ≡ draft.old.body }
    ensures size { draft.new.size ≡ draft.old.size }
    ensures small { OnOk result (draft.new.place < 2 ^ 63) }
    ensures fewer { OnOk result (length draft.new.waiting.items < draft.new.size) }
    ensures goes { OnOk result (IsClean S.Store P.Shelf connection.new → (given : Octets) (start : Tables)
        → Goes D.digest_of draft.old (tables S.Store P.Shelf connection.old) given start
        → Goes D.digest_of draft.new (tables S.Store P.Shelf connection.new) (given ++ block.now) start) }
{
    let digest = digester.digest_known(block, checksum);
    let at = Place {
        tenant: draft.tenant,
        body: draft.body,
        place: draft.place,
    };
    store_known(connection, cache, &at, &digest, block)?;
    draft.place = next_place(draft.place)?;
    Ok(())
}

/// Stores the remaining bytes: the body is complete. After an error the transaction has to be
/// rolled back.
pub fn end_body<S: Alter, P: Shelf, D: Digester>(
    connection: &mut Connection<S, P>,
    cache: &BlockCache,
    digester: &D,
    draft: Draft<'_>,
) -> Result<(), Error>
    requires inside { InTransaction S.Store P.Shelf connection.old }
    requires copies { IsClean S.Store P.Shelf connection.old → AreCopies cache.now (tables S.Store P.Shelf connection.old).blocks }
    requires size { 1 ≤ draft.size }
    requires body { draft.body < 2 ^ 63 }
    requires place { draft.place < 2 ^ 63 }
    requires fewer { length draft.waiting.items < draft.size }
    ensures within { StaysWithin S.Store P.Shelf connection.old connection.new }
    ensures opens { OnOk result (StaysOpen S.Store P.Shelf connection.old connection.new) }
    ensures stored { OnOk result (IsClean S.Store P.Shelf connection.new → (given : Octets) (start : Tables)
        → Goes D.digest_of draft.entry (tables S.Store P.Shelf connection.old) given start
        → Holds (body_stored D.digest_of (drafted draft.entry) 0 (pieces draft.entry.size given) start)
        (stands S.Store P.Shelf connection.new)) }
    ensures adds { OnOk result (IsClean S.Store P.Shelf connection.new → (given : Octets) (start : Tables)
        → Goes D.digest_of draft.entry (tables S.Store P.Shelf connection.old) given start
        → IsResolved start → AreDigests D.digest_of start.blocks → IsNewBody (drafted draft.entry) start
        → AddsBody D.digest_of (drafted draft.entry) given start (tables S.Store P.Shelf connection.new)) }
{
    if held(&draft) == 0 {
        return Ok(());
    }
    let mut last = draft;
    store_waiting(connection, cache, digester, &mut last)?;
    Ok(())
}
