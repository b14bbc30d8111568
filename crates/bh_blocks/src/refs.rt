//! The SQL statements on references, one function each, and the values of their rows.

ghost use Rattle.std.specs.Prelude.{◌≡◌, ◌++◌, ◌∷◌, [], ◌<◌, ◌^◌, true, false, map, filter, drop, IfSome, IfOk, IfErr, OnOk};
ghost use Rattle.std.specs.List.{list_any};
ghost use Rattle.sqlite_keyed.specs.Lists.{delete_where, sort_by};
ghost use Rattle.bh_rows.specs.Means.{is_trouble};
ghost use Rattle.bh_tables.specs.Bodies.{placed};
ghost use Rattle.bh_tables.specs.Garbage.{HasUses};
ghost use Rattle.bh_tables.specs.Typed.{RefRow, counted, raised, rebodied, totals_of};
ghost use Rattle.bh_tables.specs.Shown.{ref_name, is_block, is_of_body, is_at_place, by_place, shown_ref};
ghost use Rattle.bh_base.specs.Connections.{IsClean, tables, CanRead, InTransaction, InMidst, Rewrites, StaysWithin, StaysOpen, Becomes};
ghost use Rattle.bh_base.specs.Connections.{IsTrouble, IsTroubleIf};
ghost use Rattle.bh_schema.specs.Calls.{Reads, WritesOn};
ghost use Rattle.bh_view.specs.Bodies.{HasBodies};
ghost use Rattle.bh_blocks.specs.Named.{named_by, placed_at, body_at};
ghost use Rattle.bh_blocks.specs.Plans.{IsFirst};
ghost use Rattle.bh_blocks.specs.Uses.{IsSize, IsInUse};

use crate::rows::in_range;
use crate::uses::{UseChange, change_uses, uses_of};
use bh_base::connection::Connection;
use bh_schema::rows::garbage::{garbage_bytes, reweigh};
use bh_schema::rows::number::number;
use bh_shelf::shelf::Shelf;
use sqlite::types::ToSql;
use sqlite::{Alter, Error, Row};

/// A place of a body.
#[derive(Drop)]
pub struct Place<'a> {
    pub tenant: &'a str,
    /// An entry number of the tenant.
    pub body: u64,
    /// Counted from 0.
    pub place: u64,
}

/// A reference's block.
#[derive(Drop)]
pub struct BlockRef {
    pub digest: Vec<u8>,
    pub ord: u64,
    /// Bytes, of the block.
    pub size: u64,
}

pub fn read_ref(row: &Row) -> Result<BlockRef, Error>
    ensures name { IfOk result (λ block. (r : RefRow) → row.now ≡ shown_ref r → named_by block ≡ ref_name r) }
    ensures size { IfOk result (λ block. (r : RefRow) → row.now ≡ shown_ref r → block.size ≡ r.size) }
    ensures small { IfOk result (λ block. block.ord < 2 ^ 63) }
    ensures low { IfOk result (λ block. block.size < 2 ^ 63) }
    ensures trouble { IfErr result (λ e. (r : RefRow) → row.now ≡ shown_ref r → is_trouble e ≡ true) }
{
    let ord: u64 = row.get(1)?;
    let size: u64 = row.get(2)?;
    Ok(BlockRef {
        digest: row.get(0)?,
        ord: in_range(ord)?,
        size: in_range(size)?,
    })
}

pub fn ref_rows<S: Alter, P: Shelf>(
    connection: &mut Connection<S, P>,
    tenant: &str,
    body: u64,
) -> Result<Vec<Row>, Error>
    requires inside { InTransaction S.Store P.Shelf connection.old }
    requires small { body < 2 ^ 63 }
    ensures reads { Reads S.Store P.Shelf connection.old connection.new result }
    ensures rows { IfOk result (λ rows. IsClean S.Store P.Shelf connection.new
        → rows.items ≡ map shown_ref (sort_by by_place (filter (is_of_body (tenant.now, body))
        (tables S.Store P.Shelf connection.old).refs))) }
    ensures trouble { IfErr result (IsTrouble S.Store P.Shelf connection.old connection.new) }
{
    connection.database.query_all(
        "SELECT digest, ord, size FROM refs WHERE tenant = ?1 AND body = ?2 ORDER BY place, rowid",
        &[tenant.to_sql(), number(body)],
    )
}

/// The reference at a place. It may be called inside a transaction and outside.
pub fn rows_at<S: Alter, P: Shelf>(
    connection: &mut Connection<S, P>,
    at: &Place<'_>,
) -> Result<Vec<Row>, Error>
    requires reads { CanRead S.Store P.Shelf connection.old }
    requires body { at.now.body < 2 ^ 63 }
    requires place { at.now.place < 2 ^ 63 }
    ensures reads { Reads S.Store P.Shelf connection.old connection.new result }
    ensures rows { IfOk result (λ rows. IsClean S.Store P.Shelf connection.new
        → rows.items ≡ map shown_ref (filter (is_at_place (at.now.tenant.now, at.now.body) at.now.place)
        (tables S.Store P.Shelf connection.old).refs)) }
    ensures trouble { IfErr result (IsTrouble S.Store P.Shelf connection.old connection.new) }
{
    connection.database.query_all(
        "SELECT digest, ord, size FROM refs WHERE tenant = ?1 AND body = ?2 AND place = ?3 ORDER BY rowid",
        &[at.tenant.to_sql(), number(at.body), number(at.place)],
    )
}

/// The block of the reference at a place, if there is one.
pub fn ref_at<S: Alter, P: Shelf>(
    connection: &mut Connection<S, P>,
    at: &Place<'_>,
) -> Result<Option<BlockRef>, Error>
    requires reads { CanRead S.Store P.Shelf connection.old }
    requires body { at.now.body < 2 ^ 63 }
    requires place { at.now.place < 2 ^ 63 }
    ensures reads { Reads S.Store P.Shelf connection.old connection.new result }
    ensures small { IfOk result (λ found. IfSome found (λ block. block.ord < 2 ^ 63)) }
    ensures first { IfOk result (λ found. IsClean S.Store P.Shelf connection.new → HasBodies (tables S.Store P.Shelf connection.old)
        → IsFirst found (drop at.now.place (placed (tables S.Store P.Shelf connection.old).refs (body_at at.now)))) }
{
    let rows = rows_at(connection, at)?;
    match rows.first() {
        None => Ok(None),
        Some(row) => Ok(Some(read_ref(row)?)),
    }
}

/// Adds a reference, as one step of a write that counts it.
pub fn insert_ref<S: Alter, P: Shelf>(
    connection: &mut Connection<S, P>,
    at: &Place<'_>,
    digest: &[u8],
    ord: u64,
    size: u64,
) -> Result<usize, Error>
    requires midst { InMidst S.Store P.Shelf connection.old }
    requires body { at.now.body < 2 ^ 63 }
    requires place { at.now.place < 2 ^ 63 }
    requires small { ord < 2 ^ 63 }
    requires low { size < 2 ^ 63 }
    ensures writes { WritesOn S.Store P.Shelf connection.old connection.new result }
    ensures rewrites { OnOk result (Rewrites S.Store P.Shelf connection.old connection.new (λ sums. sums)
        (λ rows. rebodied rows (rows.refs ++ placed_at at.now digest.now ord size ∷ []) rows.blocks)) }
    ensures trouble { IfErr result (IsTroubleIf S.Store P.Shelf connection.old connection.new
        ((list_any (is_at_place (at.now.tenant.now, at.now.body) at.now.place) (tables S.Store P.Shelf connection.old).refs ≡ false)
        × (list_any (is_block (digest.now, ord)) (tables S.Store P.Shelf connection.old).blocks ≡ true))) }
{
    // Asked for what it ensures: the rows obey the schema.
    let _schema = connection.database.schema();
    connection.database.execute(
        "INSERT INTO refs (tenant, body, place, digest, ord, size) VALUES (?1, ?2, ?3, ?4, ?5, ?6)",
        &[
            at.tenant.to_sql(),
            number(at.body),
            number(at.place),
            digest.to_sql(),
            number(ord),
            number(size),
        ],
    )
}

/// Deletes a body's references, as one step of a write that counts them.
pub fn delete_refs<S: Alter, P: Shelf>(
    connection: &mut Connection<S, P>,
    tenant: &str,
    body: u64,
) -> Result<usize, Error>
    requires midst { InMidst S.Store P.Shelf connection.old }
    requires small { body < 2 ^ 63 }
    ensures writes { WritesOn S.Store P.Shelf connection.old connection.new result }
    ensures rewrites { OnOk result (Rewrites S.Store P.Shelf connection.old connection.new (λ sums. sums)
        (λ rows. rebodied rows (delete_where (is_of_body (tenant.now, body)) rows.refs) rows.blocks)) }
    ensures trouble { IfErr result (IsTrouble S.Store P.Shelf connection.old connection.new) }
{
    // Asked for what it ensures: the rows obey the schema.
    let _schema = connection.database.schema();
    connection.database.execute(
        "DELETE FROM refs WHERE tenant = ?1 AND body = ?2",
        &[tenant.to_sql(), number(body)],
    )
}

/// Adds a reference to a block, and increments its count of uses, as one step of a write.
fn add_ref<S: Alter, P: Shelf>(
    connection: &mut Connection<S, P>,
    at: &Place<'_>,
    digest: &[u8],
    ord: u64,
    size: u64,
) -> Result<(), Error>
    requires midst { InMidst S.Store P.Shelf connection.old }
    requires body { at.now.body < 2 ^ 63 }
    requires place { at.now.place < 2 ^ 63 }
    requires small { ord < 2 ^ 63 }
    requires low { size < 2 ^ 63 }
    ensures writes { WritesOn S.Store P.Shelf connection.old connection.new result }
    ensures rewrites { OnOk result (Rewrites S.Store P.Shelf connection.old connection.new (counted (raised (digest.now, ord)))
        (λ rows. rebodied rows (rows.refs ++ placed_at at.now digest.now ord size ∷ []) rows.blocks)) }
{
    insert_ref(connection, at, digest, ord, size)?;
    change_uses(connection, UseChange::Raised, digest, ord)?;
    Ok(())
}

/// Adds a reference to a block that others name.
fn refer_too<S: Alter, P: Shelf>(
    connection: &mut Connection<S, P>,
    at: &Place<'_>,
    digest: &[u8],
    ord: u64,
    size: u64,
) -> Result<(), Error>
    requires inside { InTransaction S.Store P.Shelf connection.old }
    requires body { at.now.body < 2 ^ 63 }
    requires place { at.now.place < 2 ^ 63 }
    requires small { ord < 2 ^ 63 }
    requires low { size < 2 ^ 63 }
    requires size { IsClean S.Store P.Shelf connection.old → IsSize (digest.now, ord) size (tables S.Store P.Shelf connection.old).blocks }
    requires used { IsClean S.Store P.Shelf connection.old → IsInUse (digest.now, ord) (tables S.Store P.Shelf connection.old) }
    ensures within { StaysWithin S.Store P.Shelf connection.old connection.new }
    ensures opens { OnOk result (StaysOpen S.Store P.Shelf connection.old connection.new) }
    ensures holds { OnOk result (Becomes S.Store P.Shelf connection.old connection.new
        (λ rows. rebodied rows (rows.refs ++ placed_at at.now digest.now ord size ∷ []) rows.blocks)) }
{
    add_ref(connection, at, digest, ord, size)
}

/// Adds a reference to a block that no other names, whose bytes are needed then.
fn refer_first<S: Alter, P: Shelf>(
    connection: &mut Connection<S, P>,
    at: &Place<'_>,
    digest: &[u8],
    ord: u64,
    size: u64,
) -> Result<(), Error>
    requires inside { InTransaction S.Store P.Shelf connection.old }
    requires body { at.now.body < 2 ^ 63 }
    requires place { at.now.place < 2 ^ 63 }
    requires small { ord < 2 ^ 63 }
    requires low { size < 2 ^ 63 }
    requires size { IsClean S.Store P.Shelf connection.old → IsSize (digest.now, ord) size (tables S.Store P.Shelf connection.old).blocks }
    requires unused { IsClean S.Store P.Shelf connection.old
        → HasUses (digest.now, ord) 0 (totals_of (tables S.Store P.Shelf connection.old)).uses }
    ensures within { StaysWithin S.Store P.Shelf connection.old connection.new }
    ensures opens { OnOk result (StaysOpen S.Store P.Shelf connection.old connection.new) }
    ensures holds { OnOk result (Becomes S.Store P.Shelf connection.old connection.new
        (λ rows. rebodied rows (rows.refs ++ placed_at at.now digest.now ord size ∷ []) rows.blocks)) }
{
    let garbage = garbage_bytes(connection)?;
    add_ref(connection, at, digest, ord, size)?;
    reweigh(connection, garbage, 0, size)
}

/// Adds a reference to a block of this size, and increments its count of uses. If it had none, its
/// bytes are no longer among those that nobody needs.
pub fn refer<S: Alter, P: Shelf>(
    connection: &mut Connection<S, P>,
    at: &Place<'_>,
    digest: &[u8],
    ord: u64,
    size: u64,
) -> Result<(), Error>
    requires inside { InTransaction S.Store P.Shelf connection.old }
    requires body { at.now.body < 2 ^ 63 }
    requires place { at.now.place < 2 ^ 63 }
    requires small { ord < 2 ^ 63 }
    requires low { size < 2 ^ 63 }
    requires size { IsClean S.Store P.Shelf connection.old → IsSize (digest.now, ord) size (tables S.Store P.Shelf connection.old).blocks }
    ensures within { StaysWithin S.Store P.Shelf connection.old connection.new }
    ensures opens { OnOk result (StaysOpen S.Store P.Shelf connection.old connection.new) }
    ensures holds { OnOk result (Becomes S.Store P.Shelf connection.old connection.new
        (λ rows. rebodied rows (rows.refs ++ placed_at at.now digest.now ord size ∷ []) rows.blocks)) }
{
    let uses = uses_of(connection, digest, ord)?;
    if uses == 0 {
        refer_first(connection, at, digest, ord, size)
    } else {
        refer_too(connection, at, digest, ord, size)
    }
}
