ghost use Rattle.std.specs.Prelude.{◌≡◌, ◌++◌, ◌∷◌, [], ◌<◌, ◌^◌, List, length, true, map, filter, Contains, IfOk, IfErr, OnOk};
ghost use Rattle.bh_rows.specs.Means.{is_trouble};
ghost use Rattle.bh_tables.specs.Schema.{Octets};
ghost use Rattle.bh_tables.specs.Typed.{BlockRow, rebodied};
ghost use Rattle.bh_tables.specs.Shown.{has_digest, shown_ord};
ghost use Rattle.bh_view.specs.Blocks.{least, free_ord as the_free};
ghost use Rattle.bh_view.specs.Bodies.{body_stored};
ghost use Rattle.bh_base.specs.Connections.{IsClean, tables, InTransaction, StaysWithin, WasOpen, StaysOpen, ChangesNothing, Becomes};
ghost use Rattle.bh_base.specs.Connections.{IsTrouble};
ghost use Rattle.bh_cache.specs.Kept.{AreCopies};
ghost use Rattle.bh_schema.specs.Calls.{Reads, MayRead};
ghost use Rattle.bh_blocks.specs.Lookups.{Tells, IsSmall};
ghost use Rattle.bh_blocks.specs.Named.{body_at, placed_at};

use crate::refs::{Place, insert_ref, refer};
use crate::rows::{blocks_of, has_bytes, in_range, insert_block, ord_rows, read_ord};
use crate::uses::{UseChange, change_uses};
use bh_base::connection::Connection;
use bh_cache::blocks::{BlockCache, BlockName};
use bh_schema::host::Digester;
use bh_shelf::shelf::Shelf;
use sqlite::{Alter, Error, ErrorCode, Row};

/// Whether a block has some bytes, given the blocks with their digest.
#[derive(Clone, Copy)]
pub enum Lookup {
    /// The block with this ordinal has them.
    Held(u64),
    /// None has, but other blocks have their digest.
    Clashing,
    /// No block has their digest.
    Absent,
}

/// Whether a block has these bytes, given the rows of those with their digest.
fn find_among<S: Alter, P: Shelf>(
    connection: &mut Connection<S, P>,
    digest: &[u8],
    bytes: &[u8],
    rows: &[Row],
) -> Result<Lookup, Error>
    requires inside { InTransaction S.Store P.Shelf connection.old }
    requires rows { IsClean S.Store P.Shelf connection.old
        → rows.now ≡ map shown_ord (filter (has_digest digest.now) (tables S.Store P.Shelf connection.old).blocks) }
    ensures within { StaysWithin S.Store P.Shelf connection.old connection.new }
    ensures opens { OnOk result (StaysOpen S.Store P.Shelf connection.old connection.new) }
    ensures same { OnOk result (ChangesNothing S.Store P.Shelf connection.old connection.new) }
    ensures found { IfOk result (λ lookup. IsClean S.Store P.Shelf connection.new
        → Tells digest.now bytes.now (tables S.Store P.Shelf connection.old).blocks lookup) }
    ensures small { IfOk result IsSmall }
    ensures trouble { IfErr result (IsTrouble S.Store P.Shelf connection.old connection.new) }
{
    for row in rows {
        let ord = read_ord(row)?;
        let is_copy = has_bytes(connection, digest, ord, bytes)?;
        if is_copy {
            return Ok(Lookup::Held(ord));
        }
    }
    if rows.is_empty() {
        Ok(Lookup::Absent)
    } else {
        Ok(Lookup::Clashing)
    }
}

/// Whether a block has these bytes, by the blocks with their digest.
fn find_copy<S: Alter, P: Shelf>(
    connection: &mut Connection<S, P>,
    digest: &[u8],
    bytes: &[u8],
) -> Result<Lookup, Error>
    requires inside { InTransaction S.Store P.Shelf connection.old }
    ensures reads { Reads S.Store P.Shelf connection.old connection.new result }
    ensures found { IfOk result (λ lookup. IsClean S.Store P.Shelf connection.new
        → Tells digest.now bytes.now (tables S.Store P.Shelf connection.old).blocks lookup) }
    ensures small { IfOk result IsSmall }
    ensures trouble { IfErr result (IsTrouble S.Store P.Shelf connection.old connection.new) }
{
    let rows = blocks_of(connection, digest)?;
    find_among(connection, digest, bytes, &rows)
}

/// Whether the first block of a digest is cached and has these bytes.
fn is_kept(cache: &BlockCache, digest: &[u8], bytes: &[u8]) -> bool
    ensures { result ≡ true → Contains cache.now.entries ((digest.now, 0), bytes.now) }
{
    let Some(name) = BlockName::new(digest, 0) else {
        return false;
    };
    match cache.kept(&name) {
        Some(kept) => kept == bytes,
        None => false,
    }
}

/// Whether a block has these bytes, whose digest is given. If the digest's first block is cached
/// and has them, no row is read.
fn find_kept<S: Alter, P: Shelf>(
    connection: &mut Connection<S, P>,
    cache: &BlockCache,
    digest: &[u8],
    bytes: &[u8],
) -> Result<Lookup, Error>
    requires inside { InTransaction S.Store P.Shelf connection.old }
    requires copies { IsClean S.Store P.Shelf connection.old → AreCopies cache.now (tables S.Store P.Shelf connection.old).blocks }
    ensures reads { MayRead S.Store P.Shelf connection.old connection.new result }
    ensures found { IfOk result (λ lookup. IsClean S.Store P.Shelf connection.new
        → Tells digest.now bytes.now (tables S.Store P.Shelf connection.old).blocks lookup) }
    ensures small { IfOk result IsSmall }
    ensures trouble { IfErr result (IsTrouble S.Store P.Shelf connection.old connection.new) }
{
    if is_kept(cache, digest, bytes) {
        return Ok(Lookup::Held(0));
    }
    find_copy(connection, digest, bytes)
}

/// The least number that no row has, of rows ordered by ordinal.
fn least_free(rows: &[Row]) -> Result<u64, Error>
    ensures least { IfOk result (λ n. (bs : List BlockRow) → rows.now ≡ map shown_ord bs → n ≡ least 0 bs) }
    ensures trouble { IfErr result (λ e. (bs : List BlockRow) → rows.now ≡ map shown_ord bs → is_trouble e ≡ true) }
{
    let mut free: u64 = 0;
    for row in rows {
        if read_ord(row)? != free {
            return Ok(free);
        }
        match free.checked_add(1) {
            Some(next) => free = next,
            None => return Err(Error::SqliteFailure(ErrorCode::TooBig)),
        }
    }
    Ok(free)
}

/// The least free ordinal of a digest.
fn free_ord<S: Alter, P: Shelf>(
    connection: &mut Connection<S, P>,
    digest: &[u8],
) -> Result<u64, Error>
    requires inside { InTransaction S.Store P.Shelf connection.old }
    ensures within { StaysWithin S.Store P.Shelf connection.old connection.new }
    ensures opens { OnOk result (WasOpen S.Store P.Shelf connection.old connection.new) }
    ensures same { OnOk result (ChangesNothing S.Store P.Shelf connection.old connection.new) }
    ensures small { IfOk result (λ n. n < 2 ^ 63) }
    ensures free { IfOk result (λ n. IsClean S.Store P.Shelf connection.new
        → n ≡ the_free digest.now (tables S.Store P.Shelf connection.old).blocks) }
    ensures trouble { IfErr result (IsTrouble S.Store P.Shelf connection.old connection.new) }
{
    let rows = ord_rows(connection, digest)?;
    let free = least_free(&rows)?;
    in_range(free)
}

/// Adds a block of new bytes, with the first reference to it.
fn add_block<S: Alter, P: Shelf>(
    connection: &mut Connection<S, P>,
    at: &Place<'_>,
    digest: &[u8],
    ord: u64,
    bytes: &[u8],
) -> Result<(), Error>
    requires inside { InTransaction S.Store P.Shelf connection.old }
    requires body { at.now.body < 2 ^ 63 }
    requires place { at.now.place < 2 ^ 63 }
    requires small { ord < 2 ^ 63 }
    ensures within { StaysWithin S.Store P.Shelf connection.old connection.new }
    ensures opens { OnOk result (StaysOpen S.Store P.Shelf connection.old connection.new) }
    ensures added { OnOk result (Becomes S.Store P.Shelf connection.old connection.new
        (λ rows. rebodied rows (rows.refs ++ placed_at at.now digest.now ord (length bytes.now) ∷ [])
        (rows.blocks ++ record { digest = digest.now; ord = ord; bytes = bytes.now } ∷ []))) }
{
    insert_block(connection, digest, ord, bytes)?;
    insert_ref(connection, at, digest, ord, bytes.len() as u64)?;
    change_uses(connection, UseChange::Added, digest, ord)?;
    Ok(())
}

/// Adds a block of new bytes whose digest other blocks have, under the least free ordinal, with the
/// first reference to it.
fn store_clashing<S: Alter, P: Shelf>(
    connection: &mut Connection<S, P>,
    at: &Place<'_>,
    digest: &[u8],
    bytes: &[u8],
) -> Result<(), Error>
    requires inside { InTransaction S.Store P.Shelf connection.old }
    requires body { at.now.body < 2 ^ 63 }
    requires place { at.now.place < 2 ^ 63 }
    ensures within { StaysWithin S.Store P.Shelf connection.old connection.new }
    ensures opens { OnOk result (StaysOpen S.Store P.Shelf connection.old connection.new) }
    ensures added { OnOk result (Becomes S.Store P.Shelf connection.old connection.new
        (λ rows. rebodied rows
        (rows.refs ++ placed_at at.now digest.now (the_free digest.now rows.blocks) (length bytes.now) ∷ [])
        (rows.blocks ++ record { digest = digest.now; ord = the_free digest.now rows.blocks; bytes = bytes.now } ∷ []))) }
{
    let ord = free_ord(connection, digest)?;
    add_block(connection, at, digest, ord, bytes)
}

/// Stores one piece of a body at its place: a reference to the block with its bytes, which is added
/// if there is none. The digest is that of the bytes. The cache is consulted before the rows.
///
/// A new block gets the least ordinal that no block of its digest has, and is written with its
/// count of uses. After an error the transaction has to be rolled back.
pub fn store_named<S: Alter, P: Shelf>(
    connection: &mut Connection<S, P>,
    cache: &BlockCache,
    at: &Place<'_>,
    digest: &[u8; 32],
    bytes: &[u8],
) -> Result<(), Error>
    requires inside { InTransaction S.Store P.Shelf connection.old }
    requires copies { IsClean S.Store P.Shelf connection.old → AreCopies cache.now (tables S.Store P.Shelf connection.old).blocks }
    requires body { at.now.body < 2 ^ 63 }
    requires place { at.now.place < 2 ^ 63 }
    ensures within { StaysWithin S.Store P.Shelf connection.old connection.new }
    ensures opens { OnOk result (StaysOpen S.Store P.Shelf connection.old connection.new) }
    ensures stored { (digest_of : Octets → Octets) → digest.now ≡ digest_of bytes.now
        → OnOk result (Becomes S.Store P.Shelf connection.old connection.new
        (body_stored digest_of (body_at at.now) at.now.place (bytes.now ∷ []))) }
{
    match find_kept(connection, cache, digest, bytes)? {
        Lookup::Held(ord) => refer(connection, at, digest, ord, bytes.len() as u64),
        Lookup::Clashing => store_clashing(connection, at, digest, bytes),
        Lookup::Absent => add_block(connection, at, digest, 0, bytes),
    }
}

/// Stores a piece of bytes that have this digest.
pub(crate) fn store_known<S: Alter, P: Shelf>(
    connection: &mut Connection<S, P>,
    cache: &BlockCache,
    at: &Place<'_>,
    digest: &[u8; 32],
    bytes: &[u8],
) -> Result<(), Error>
    requires inside { InTransaction S.Store P.Shelf connection.old }
    requires copies { IsClean S.Store P.Shelf connection.old → AreCopies cache.now (tables S.Store P.Shelf connection.old).blocks }
    requires body { at.now.body < 2 ^ 63 }
    requires place { at.now.place < 2 ^ 63 }
    ensures within { StaysWithin S.Store P.Shelf connection.old connection.new }
    ensures opens { OnOk result (StaysOpen S.Store P.Shelf connection.old connection.new) }
    ensures copies { OnOk result (IsClean S.Store P.Shelf connection.new
        → AreCopies cache.now (tables S.Store P.Shelf connection.new).blocks) }
    ensures stored { (digest_of : Octets → Octets) → digest.now ≡ digest_of bytes.now
        → OnOk result (Becomes S.Store P.Shelf connection.old connection.new
        (body_stored digest_of (body_at at.now) at.now.place (bytes.now ∷ []))) }
{
    store_named(connection, cache, at, digest, bytes)
}

/// Stores a piece of a body.
pub fn store_piece<S: Alter, P: Shelf, D: Digester>(
    connection: &mut Connection<S, P>,
    cache: &BlockCache,
    digester: &D,
    at: &Place<'_>,
    bytes: &[u8],
) -> Result<(), Error>
    requires inside { InTransaction S.Store P.Shelf connection.old }
    requires copies { IsClean S.Store P.Shelf connection.old → AreCopies cache.now (tables S.Store P.Shelf connection.old).blocks }
    requires body { at.now.body < 2 ^ 63 }
    requires place { at.now.place < 2 ^ 63 }
    ensures within { StaysWithin S.Store P.Shelf connection.old connection.new }
    ensures opens { OnOk result (StaysOpen S.Store P.Shelf connection.old connection.new) }
    ensures copies { OnOk result (IsClean S.Store P.Shelf connection.new
        → AreCopies cache.now (tables S.Store P.Shelf connection.new).blocks) }
    ensures stored { OnOk result (Becomes S.Store P.Shelf connection.old connection.new
        (body_stored D.digest_of (body_at at.now) at.now.place (bytes.now ∷ []))) }
{
    let digest = digester.digest(bytes);
    store_known(connection, cache, at, &digest, bytes)
}
