//! The bytes of a body while it is received: read into a buffer, hashed, and stored or kept for the
//! next block.

ghost use Rattle.std.specs.Prelude.{◌≡◌, ◌<◌, ◌≤◌, true, length, take, None, IfOk, IfErr, OnOk};
ghost use Rattle.bh_http.specs.Bodies.{Gives, IsWhole, MayBreak};
ghost use Rattle.bh_tables.specs.Schema.{Octets};
ghost use Rattle.bh_base.specs.Connections.{IsClean, tables, InTransaction};
ghost use Rattle.bh_cache.specs.Kept.{AreCopies};
ghost use Rattle.bh_objects.specs.Storing.{IsBegun, Takes};

use crate::bodies::Blocks;
use bh_base::connection::Connection;
use bh_blocks::drafts::{Draft, push, push_known};
use bh_http::body::{Body, Break};
use bh_schema::host::Digester;
use bh_schema::trouble::or_trouble;
use bh_shelf::shelf::Shelf;
use bh_storage::error::Trouble;
use sha2::{Digest, Sha256};
use sqlite::Alter;

/// The maximum size of a buffer in bytes: eight blocks of 64 KiB.
const MOST: u64 = 524288;

/// The size of the buffer for a body of `due` bytes, in blocks of `size` bytes: a multiple of eight
/// blocks, which are hashed side by side, or the whole body.
pub fn buffer_size(size: u64, due: u64) -> usize
    requires size { 1 ≤ size }
    ensures some { 0 < due → 0 < result }
    ensures most { result ≤ 524288 }
{
    let group = size.min(MOST) * 8;
    let most = if group > MOST {
        65536
    } else {
        MOST - MOST % group
    };
    due.min(most) as usize
}

/// Fills a buffer with the next bytes of a body, or with all that are left. Returns their number.
fn fill<B: Body>(body: &mut B, buffer: &mut [u8]) -> Result<usize, Break>
    requires going { (B.coming body.old).broken ≡ None }
    ensures fits { IfOk result (λ n. n ≤ length buffer.new) }
    ensures gives { IfOk result (λ n. Gives (B.coming body.old) (B.coming body.new) (take n buffer.new)) }
    ensures going { OnOk result ((B.coming body.new).broken ≡ None) }
    ensures full { IfOk result (λ n. n < length buffer.new → (B.coming body.new).due ≡ 0) }
    ensures stopped { IfErr result (λ _. (given : Octets) × Gives (B.coming body.old) (B.coming body.new) given
        × MayBreak (B.coming body.new)) }
{
    let mut count = 0;
    'filling: while count < buffer.len() && body.due() > 0 {
        count += body.next(&mut buffer[count..])?;
    }
    Ok(count)
}

/// Whether a body has more than one block of `size` bytes and fewer than four whole ones. So few
/// are not hashed side by side.
fn is_short(size: u64, due: u64, room: usize) -> bool
    ensures more { result ≡ true → size < due }
    ensures fits { result ≡ true → size ≤ room }
{
    size < due && due / 4 < size && size <= room as u64
}

/// Stores the first block of a body, and returns a hasher of its bytes. Its name is known from the
/// same hasher.
fn take_block<S: Alter, P: Shelf, D: Digester, B: Body>(
    connection: &mut Connection<S, P>,
    blocks: &Blocks<'_, '_, D>,
    draft: &mut Draft<'_>,
    body: &mut B,
    block: &mut [u8],
) -> Result<Sha256, Trouble>
    requires inside { InTransaction S.Store P.Shelf connection.old }
    requires copies { IsClean S.Store P.Shelf connection.old
        → AreCopies blocks.now.cache.now (tables S.Store P.Shelf connection.old).blocks }
    requires begun { IsBegun draft.old }
    requires going { (B.coming body.old).broken ≡ None }
    requires whole { length block.old ≡ draft.old.size }
    requires more { length block.old < (B.coming body.old).due }
    ensures takes { Takes S.Store P.Shelf D.digest_of blocks.now.cache.now draft.old draft.new (B.coming body.old) (B.coming body.new)
        connection.old connection.new result }
{
    fill(body, block)?;
    let hasher = Sha256::new_with_prefix(&*block);
    let sum = hasher.clone()?.finalize();
    or_trouble(push_known(
        connection,
        blocks.cache,
        blocks.digester,
        draft,
        block,
        &sum,
    ))?;
    Ok(hasher)
}

/// Begins to store a body: of a short one the first block, of others nothing. Returns a hasher of
/// the bytes that were received.
fn take_first<S: Alter, P: Shelf, D: Digester, B: Body>(
    connection: &mut Connection<S, P>,
    blocks: &Blocks<'_, '_, D>,
    draft: &mut Draft<'_>,
    body: &mut B,
    buffer: &mut [u8],
) -> Result<Sha256, Trouble>
    requires inside { InTransaction S.Store P.Shelf connection.old }
    requires copies { IsClean S.Store P.Shelf connection.old
        → AreCopies blocks.now.cache.now (tables S.Store P.Shelf connection.old).blocks }
    requires begun { IsBegun draft.old }
    requires size { draft.old.size ≡ blocks.now.size }
    requires going { (B.coming body.old).broken ≡ None }
    ensures takes { Takes S.Store P.Shelf D.digest_of blocks.now.cache.now draft.old draft.new (B.coming body.old) (B.coming body.new)
        connection.old connection.new result }
{
    if is_short(blocks.size, body.due(), buffer.len()) {
        let block = &mut buffer[..blocks.size as usize];
        take_block(connection, blocks, draft, body, block)
    } else {
        Ok(Sha256::new())
    }
}

/// Stores the blocks of a body while it is received, and returns a hasher of all its bytes. Fewer
/// bytes than a block has are left in the draft.
pub fn take_all<S: Alter, P: Shelf, D: Digester, B: Body>(
    connection: &mut Connection<S, P>,
    blocks: &Blocks<'_, '_, D>,
    draft: &mut Draft<'_>,
    body: &mut B,
    buffer: &mut [u8],
) -> Result<Sha256, Trouble>
    requires inside { InTransaction S.Store P.Shelf connection.old }
    requires copies { IsClean S.Store P.Shelf connection.old
        → AreCopies blocks.now.cache.now (tables S.Store P.Shelf connection.old).blocks }
    requires begun { IsBegun draft.old }
    requires size { draft.old.size ≡ blocks.now.size }
    requires going { (B.coming body.old).broken ≡ None }
    requires some { 0 < (B.coming body.old).due → 0 < length buffer.old }
    ensures takes { Takes S.Store P.Shelf D.digest_of blocks.now.cache.now draft.old draft.new (B.coming body.old) (B.coming body.new)
        connection.old connection.new result }
    ensures whole { OnOk result (IsWhole (B.coming body.new)) }
{
    let mut hasher = take_first(connection, blocks, draft, body, buffer)?;
    'taking: while body.due() > 0 {
        let count = fill(body, buffer)?;
        let piece = &buffer[..count];
        or_trouble(push(connection, blocks.cache, blocks.digester, draft, piece))?;
        hasher.update(piece);
    }
    Ok(hasher)
}
