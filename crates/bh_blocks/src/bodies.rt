//! Bodies as lists of references to blocks: stored, copied, joined, and dropped.

ghost use Rattle.std.specs.Prelude.{◌≡◌, ℕ, ◌+◌, ◌<◌, ◌≤◌, ◌^◌, ◌++◌, ◌∷◌, [], true, pos, if◌then◌else◌, List};
ghost use Rattle.std.specs.Prelude.{All, map, flat_map, IfOk, IfErr, OnOk};
ghost use Rattle.std.specs.Ordering.{int_eq};
ghost use Rattle.sha2.specs.Sha256.{sha256};
ghost use Rattle.bh_tables.specs.Schema.{Octets};
ghost use Rattle.bh_rows.specs.Means.{is_trouble};
ghost use Rattle.bh_tables.specs.Garbage.{HasUses, freed_of, Frees};
ghost use Rattle.bh_tables.specs.Typed.{Totals, RefRow, counted, lowered, lowered_by};
ghost use Rattle.bh_tables.specs.Bodies.{placed};
ghost use Rattle.bh_tables.specs.Shown.{ref_name, shown_ref};
ghost use Rattle.bh_view.specs.Blocks.{AreDigests};
ghost use Rattle.bh_view.specs.Bodies.{pieces, body_stored, body_again, body_copied, bodies_joined, body_dropped, AddsBody};
ghost use Rattle.bh_base.specs.Connections.{IsOpen, IsClean, stands, tables, InTransaction, InMidst, Rewrites, StaysWithin, StaysOpen};
ghost use Rattle.bh_base.specs.Connections.{ChangesNothing, Becomes, IsTrouble, IsTroubleIf};
ghost use Rattle.bh_cache.specs.Kept.{AreCopies};
ghost use Rattle.bh_blocks.specs.Named.{body_at};
ghost use Rattle.bh_blocks.specs.Added.{IsNewBody, bytes_in};
ghost use Rattle.bh_base.specs.Layer.{IsInsideBy};
ghost use Rattle.bh_blocks.specs.Uses.{IsUsed, AreUsed, IsShownRight};

use crate::blocks::store_named;
use crate::drafts::{begin_body, end_body, push};
use crate::refs::{Place, delete_refs, read_ref, ref_rows, refer};
use crate::rows::in_range;
use crate::uses::{UseChange, change_uses, uses_of};
use bh_base::connection::Connection;
use bh_cache::blocks::BlockCache;
use bh_schema::host::Digester;
use bh_schema::rows::garbage::{garbage_bytes, reweigh};
use bh_shelf::shelf::Shelf;
use sqlite::{Alter, Error, ErrorCode, Row};
use std::alloc::Global;

/// Stores a body, cut into blocks of `size` bytes.
///
/// The body must not have any references yet. After an error the transaction has to be rolled back.
fn store_pieces<S: Alter, P: Shelf, D: Digester>(
    connection: &mut Connection<S, P>,
    cache: &BlockCache,
    alloc: Global,
    digester: &D,
    block_size: u64,
    tenant: &str,
    body: u64,
    bytes: &[u8],
) -> Result<(), Error>
    requires inside { InTransaction S.Store P.Shelf connection.old }
    requires copies { IsClean S.Store P.Shelf connection.old → AreCopies cache.now (tables S.Store P.Shelf connection.old).blocks }
    requires size { 1 ≤ block_size }
    requires small { body < 2 ^ 63 }
    ensures within { StaysWithin S.Store P.Shelf connection.old connection.new }
    ensures opens { OnOk result (StaysOpen S.Store P.Shelf connection.old connection.new) }
    ensures stored { OnOk result (Becomes S.Store P.Shelf connection.old connection.new
        (body_stored D.digest_of (tenant.now, body) 0 (pieces block_size bytes.now))) }
{
    let mut draft = begin_body(alloc, tenant, body, block_size);
    push(connection, cache, digester, &mut draft, bytes)?;
    end_body(connection, cache, digester, draft)?;
    Ok(())
}

/// Whether bytes fit in one block.
fn is_one_piece(bytes: &[u8], size: u64) -> bool
    ensures { result ≡ true → pieces size bytes.now ≡ bytes.now ∷ [] }
{
    if bytes.is_empty() {
        return false;
    }
    bytes.len() as u64 <= size
}

/// Stores a body as one block. Its SHA-256 digest (FIPS 180-4) is known.
fn store_whole<S: Alter, P: Shelf, D: Digester>(
    connection: &mut Connection<S, P>,
    cache: &BlockCache,
    digester: &D,
    tenant: &str,
    body: u64,
    bytes: &[u8],
    checksum: &[u8; 32],
) -> Result<(), Error>
    requires inside { InTransaction S.Store P.Shelf connection.old }
    requires copies { IsClean S.Store P.Shelf connection.old → AreCopies cache.now (tables S.Store P.Shelf connection.old).blocks }
    requires small { body < 2 ^ 63 }
    requires known { checksum.now ≡ sha256 bytes.now }
    ensures within { StaysWithin S.Store P.Shelf connection.old connection.new }
    ensures opens { OnOk result (StaysOpen S.Store P.Shelf connection.old connection.new) }
    ensures stored { OnOk result (Becomes S.Store P.Shelf connection.old connection.new
        (body_stored D.digest_of (tenant.now, body) 0 (bytes.now ∷ []))) }
{
    let digest = digester.digest_known(bytes, checksum);
    let at = Place {
        tenant,
        body,
        place: 0,
    };
    store_named(connection, cache, &at, &digest, bytes)
}

/// Stores a body, cut into blocks of `size` bytes. Its SHA-256 digest (FIPS 180-4) is given, so a
/// body of one block is not hashed again.
///
/// The body must not have any references yet. After an error the transaction has to be rolled back.
pub fn store_body<S: Alter, P: Shelf, D: Digester>(
    connection: &mut Connection<S, P>,
    cache: &BlockCache,
    alloc: Global,
    digester: &D,
    block_size: u64,
    tenant: &str,
    body: u64,
    bytes: &[u8],
    checksum: &[u8; 32],
) -> Result<(), Error>
    requires inside { InTransaction S.Store P.Shelf connection.old }
    requires copies { IsClean S.Store P.Shelf connection.old → AreCopies cache.now (tables S.Store P.Shelf connection.old).blocks }
    requires size { 1 ≤ block_size }
    requires small { body < 2 ^ 63 }
    requires known { checksum.now ≡ sha256 bytes.now }
    ensures within { StaysWithin S.Store P.Shelf connection.old connection.new }
    ensures opens { OnOk result (StaysOpen S.Store P.Shelf connection.old connection.new) }
    ensures stored { OnOk result (Becomes S.Store P.Shelf connection.old connection.new
        (body_stored D.digest_of (tenant.now, body) 0 (pieces block_size bytes.now))) }
    ensures adds { OnOk result (IsClean S.Store P.Shelf connection.new
        → AreDigests D.digest_of (tables S.Store P.Shelf connection.old).blocks
        → IsNewBody (tenant.now, body) (tables S.Store P.Shelf connection.old)
        → AddsBody D.digest_of (tenant.now, body) bytes.now (tables S.Store P.Shelf connection.old)
        (tables S.Store P.Shelf connection.new)) }
{
    if is_one_piece(bytes, block_size) {
        return store_whole(connection, cache, digester, tenant, body, bytes, checksum);
    }
    store_pieces(
        connection, cache, alloc, digester, block_size, tenant, body, bytes,
    )
}

/// Adds a reference to the block that a row of references names.
fn refer_again<S: Alter, P: Shelf>(
    connection: &mut Connection<S, P>,
    at: &Place<'_>,
    row: &Row,
) -> Result<(), Error>
    requires inside { InTransaction S.Store P.Shelf connection.old }
    requires size { IsClean S.Store P.Shelf connection.old → IsShownRight row.now (tables S.Store P.Shelf connection.old).blocks }
    requires body { at.now.body < 2 ^ 63 }
    requires place { at.now.place < 2 ^ 63 }
    ensures within { StaysWithin S.Store P.Shelf connection.old connection.new }
    ensures opens { OnOk result (StaysOpen S.Store P.Shelf connection.old connection.new) }
    ensures inside { OnOk result (InTransaction S.Store P.Shelf connection.new) }
    ensures again { OnOk result ((r : RefRow) → row.now ≡ shown_ref r → Becomes S.Store P.Shelf connection.old connection.new
        (body_again (body_at at.now) at.now.place (r ∷ []))) }
{
    let block = read_ref(row)?;
    refer(connection, at, &block.digest, block.ord, block.size)
}

/// Gives a body the blocks that rows of references name, in order.
fn refer_to_all<S: Alter, P: Shelf>(
    connection: &mut Connection<S, P>,
    tenant: &str,
    body: u64,
    rows: &[Row],
) -> Result<(), Error>
    requires inside { InTransaction S.Store P.Shelf connection.old }
    requires sizes { IsClean S.Store P.Shelf connection.old
        → All (λ row. IsShownRight row (tables S.Store P.Shelf connection.old).blocks) rows.now }
    requires small { body < 2 ^ 63 }
    ensures within { StaysWithin S.Store P.Shelf connection.old connection.new }
    ensures opens { OnOk result (StaysOpen S.Store P.Shelf connection.old connection.new) }
    ensures again { OnOk result ((rs : List RefRow) → rows.now ≡ map shown_ref rs
        → Becomes S.Store P.Shelf connection.old connection.new (body_again (tenant.now, body) 0 rs)) }
{
    let mut place: u64 = 0;
    for row in rows {
        let at = Place {
            tenant,
            body,
            place,
        };
        refer_again(connection, &at, row)?;
        place += 1;
    }
    Ok(())
}

/// Gives a body the blocks of another one of the tenant's. No block is read.
///
/// The new body must not have any references yet. After an error the transaction has to be rolled
/// back.
pub fn copy_body<S: Alter, P: Shelf>(
    connection: &mut Connection<S, P>,
    tenant: &str,
    source: u64,
    body: u64,
) -> Result<(), Error>
    requires inside { InTransaction S.Store P.Shelf connection.old }
    requires source { source < 2 ^ 63 }
    requires small { body < 2 ^ 63 }
    ensures within { StaysWithin S.Store P.Shelf connection.old connection.new }
    ensures opens { OnOk result (StaysOpen S.Store P.Shelf connection.old connection.new) }
    ensures copied { OnOk result (Becomes S.Store P.Shelf connection.old connection.new
        (body_copied (tenant.now, source) (tenant.now, body))) }
    ensures adds { (digest : Octets → Octets) → OnOk result (IsClean S.Store P.Shelf connection.new
        → IsNewBody (tenant.now, body) (tables S.Store P.Shelf connection.old)
        → AddsBody digest (tenant.now, body) (bytes_in (tables S.Store P.Shelf connection.old) (tenant.now, source))
        (tables S.Store P.Shelf connection.old) (tables S.Store P.Shelf connection.new)) }
{
    let rows = ref_rows(connection, tenant, source)?;
    refer_to_all(connection, tenant, body, &rows)
}

fn append_rows(rows: &mut Vec<Row>, mut more: Vec<Row>) -> Result<(), Error>
    ensures { OnOk result (rows.new.items ≡ rows.old.items ++ more.items) }
{
    rows.append(&mut more)?;
    Ok(())
}

/// The rows of references of several bodies, one body after another.
fn rows_of_all<S: Alter, P: Shelf>(
    connection: &mut Connection<S, P>,
    alloc: Global,
    tenant: &str,
    bodies: &[u64],
) -> Result<Vec<Row>, Error>
    requires inside { InTransaction S.Store P.Shelf connection.old }
    ensures within { StaysWithin S.Store P.Shelf connection.old connection.new }
    ensures opens { OnOk result (StaysOpen S.Store P.Shelf connection.old connection.new) }
    ensures same { OnOk result (ChangesNothing S.Store P.Shelf connection.old connection.new) }
    ensures rows { IfOk result (λ rows. IsClean S.Store P.Shelf connection.new → rows.items
        ≡ map shown_ref (flat_map (λ body. placed (tables S.Store P.Shelf connection.old).refs (tenant.now, body)) bodies.now)) }
{
    let mut rows = Vec::new(alloc);
    for body in bodies {
        let found = ref_rows(connection, tenant, in_range(*body)?)?;
        append_rows(&mut rows, found)?;
    }
    Ok(rows)
}

/// Gives a body the blocks of several others of the tenant's, one after another. No block is read.
///
/// The new body must not have any references yet. After an error the transaction has to be rolled
/// back.
pub fn join_bodies<S: Alter, P: Shelf>(
    connection: &mut Connection<S, P>,
    alloc: Global,
    tenant: &str,
    sources: &[u64],
    body: u64,
) -> Result<(), Error>
    requires inside { InTransaction S.Store P.Shelf connection.old }
    requires small { body < 2 ^ 63 }
    ensures within { StaysWithin S.Store P.Shelf connection.old connection.new }
    ensures opens { OnOk result (StaysOpen S.Store P.Shelf connection.old connection.new) }
    ensures joined { OnOk result (Becomes S.Store P.Shelf connection.old connection.new
        (bodies_joined (map (λ source. (tenant.now, source)) sources.now) (tenant.now, body))) }
    ensures adds { (digest : Octets → Octets) → OnOk result (IsClean S.Store P.Shelf connection.new
        → IsNewBody (tenant.now, body) (tables S.Store P.Shelf connection.old)
        → AddsBody digest (tenant.now, body) (flat_map (λ source. bytes_in (tables S.Store P.Shelf connection.old)
        (tenant.now, source)) sources.now)
        (tables S.Store P.Shelf connection.old) (tables S.Store P.Shelf connection.new)) }
{
    let rows = rows_of_all(connection, alloc, tenant, sources)?;
    refer_to_all(connection, tenant, body, &rows)
}

/// The bytes of a block of this size that are needed no more, once one of so many uses goes.
fn freed(uses: u64, size: u64) -> u64
    ensures { result ≡ (if int_eq (pos uses) (pos 1) then size else 0) }
{
    if uses == 1 { size } else { 0 }
}

/// A sum of bytes that are needed no more.
fn freed_too(freed: u64, more: u64) -> Result<u64, Error>
    ensures sum { IfOk result (λ n. n ≡ freed + more) }
    ensures trouble { IfErr result (λ e. is_trouble e ≡ true) }
{
    match freed.checked_add(more) {
        Some(sum) => Ok(sum),
        None => Err(Error::SqliteFailure(ErrorCode::DatabaseCorrupt)),
    }
}

/// Decrements the uses of the block that a row of references names. Returns its bytes if that was
/// its last use, otherwise 0.
fn lower_named<S: Alter, P: Shelf>(
    connection: &mut Connection<S, P>,
    row: &Row,
) -> Result<u64, Error>
    requires midst { InMidst S.Store P.Shelf connection.old }
    ensures within { StaysWithin S.Store P.Shelf connection.old connection.new }
    ensures opens { OnOk result (StaysOpen S.Store P.Shelf connection.old connection.new) }
    ensures midst { OnOk result (InMidst S.Store P.Shelf connection.new) }
    ensures rewrites { OnOk result ((r : RefRow) → row.now ≡ shown_ref r
        → Rewrites S.Store P.Shelf connection.old connection.new (counted (lowered (ref_name r))) (λ rows. rows)) }
    ensures frees { IfOk result (λ freed. (r : RefRow) → row.now ≡ shown_ref r → IsClean S.Store P.Shelf connection.new
        → (sums : Totals) → IsInsideBy sums (stands S.Store P.Shelf connection.old)
        → (n : ℕ) × (HasUses (ref_name r) n sums.uses × (freed ≡ freed_of n r))) }
    ensures trouble { IfErr result (λ e. (r : RefRow) → row.now ≡ shown_ref r → IsTroubleIf S.Store P.Shelf connection.old connection.new
        (IsUsed (ref_name r) (stands S.Store P.Shelf connection.old)) e) }
{
    let block = read_ref(row)?;
    let uses = uses_of(connection, &block.digest, block.ord)?;
    change_uses(connection, UseChange::Lowered, &block.digest, block.ord)?;
    Ok(freed(uses, block.size))
}

/// Decrements the uses of the blocks that rows of references name. Returns the bytes of those that
/// lost their last use.
fn lower_all<S: Alter, P: Shelf>(
    connection: &mut Connection<S, P>,
    rows: &[Row],
) -> Result<u64, Error>
    requires midst { InMidst S.Store P.Shelf connection.old }
    ensures within { StaysWithin S.Store P.Shelf connection.old connection.new }
    ensures opens { OnOk result (StaysOpen S.Store P.Shelf connection.old connection.new) }
    ensures midst { OnOk result (InMidst S.Store P.Shelf connection.new) }
    ensures rewrites { OnOk result ((rs : List RefRow) → rows.now ≡ map shown_ref rs
        → Rewrites S.Store P.Shelf connection.old connection.new (counted (lowered_by rs)) (λ rows. rows)) }
    ensures frees { IfOk result (λ freed. (rs : List RefRow) → rows.now ≡ map shown_ref rs → IsClean S.Store P.Shelf connection.new
        → (sums : Totals) → IsInsideBy sums (stands S.Store P.Shelf connection.old) → Frees rs sums.uses freed) }
    ensures trouble { IfErr result (λ e. (rs : List RefRow) → rows.now ≡ map shown_ref rs
        → IsTroubleIf S.Store P.Shelf connection.old connection.new
        (IsOpen S.Store P.Shelf connection.old × AreUsed rs (stands S.Store P.Shelf connection.old)) e) }
{
    let mut freed: u64 = 0;
    for row in rows {
        let more = lower_named(connection, row)?;
        let sum = freed_too(freed, more)?;
        freed = sum;
    }
    Ok(freed)
}

/// Deletes a body. Its blocks stay, each with fewer uses, and the bytes of those that have none left
/// are counted among what nobody needs.
pub fn drop_body<S: Alter, P: Shelf>(
    connection: &mut Connection<S, P>,
    tenant: &str,
    body: u64,
) -> Result<(), Error>
    requires inside { InTransaction S.Store P.Shelf connection.old }
    requires small { body < 2 ^ 63 }
    ensures within { StaysWithin S.Store P.Shelf connection.old connection.new }
    ensures opens { OnOk result (StaysOpen S.Store P.Shelf connection.old connection.new) }
    ensures dropped { OnOk result (Becomes S.Store P.Shelf connection.old connection.new (body_dropped (tenant.now, body))) }
    ensures trouble { IfErr result (IsTrouble S.Store P.Shelf connection.old connection.new) }
{
    let rows = ref_rows(connection, tenant, body)?;
    let garbage = garbage_bytes(connection)?;
    let freed = lower_all(connection, &rows)?;
    delete_refs(connection, tenant, body)?;
    reweigh(connection, garbage, freed, 0)
}
