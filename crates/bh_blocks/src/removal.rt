ghost use Rattle.std.specs.Prelude.{◌≡◌, ◌≢◌, ◌<◌, ◌^◌, List, All, Contains, map, length, true, false, IfOk, IfErr, OnOk};
ghost use Rattle.std.specs.List.{AllByRecursion, list_any};
ghost use Rattle.sqlite_keyed.specs.Lists.{delete_where};
ghost use Rattle.bh_tables.specs.Schema.{Octets};
ghost use Rattle.bh_tables.specs.Typed.{BlockRow, rebodied};
ghost use Rattle.bh_tables.specs.Shown.{Name, block_name, is_block, is_use, is_unreferenced, shown_name, unreferenced};
ghost use Rattle.bh_view.specs.Blocks.{blocks_without, AreDigests};
ghost use Rattle.bh_view.specs.Sound.{IsSound};
ghost use Rattle.bh_view.specs.Becomes.{KeepsBodies};
ghost use Rattle.bh_base.specs.Connections.{IsOpen, IsClean, tables, InTransaction, StaysWithin, WasOpen, StaysOpen, ChangesNothing};
ghost use Rattle.bh_base.specs.Connections.{Becomes, IsTrouble, IsTroubleIf};
ghost use Rattle.bh_cache.specs.Kept.{Agrees};
ghost use Rattle.bh_blocks.specs.Named.{stored_name};
ghost use Rattle.bh_blocks.specs.Uses.{IsShownUnused};

use crate::rows::{StoredName, delete_block, read_name, size_of_block};
use crate::uses::{UseChange, change_uses, unreferenced_rows};
use bh_base::connection::Connection;
use bh_cache::blocks::{BlockCache, BlockName};
use bh_schema::rows::garbage::{garbage_bytes, reweigh};
use bh_shelf::shelf::Shelf;
use sqlite::{Alter, Error, Row};

/// Deletes a block that no reference names, with its count of uses. Its bytes are no longer among
/// those that nobody needs.
fn remove_block<S: Alter, P: Shelf>(
    connection: &mut Connection<S, P>,
    digest: &[u8],
    ord: u64,
) -> Result<(), Error>
    requires inside { InTransaction S.Store P.Shelf connection.old }
    requires small { ord < 2 ^ 63 }
    requires unused { IsClean S.Store P.Shelf connection.old
        → list_any (is_use (digest.now, ord)) (tables S.Store P.Shelf connection.old).refs ≡ false }
    ensures within { StaysWithin S.Store P.Shelf connection.old connection.new }
    ensures opens { OnOk result (StaysOpen S.Store P.Shelf connection.old connection.new) }
    ensures removed { OnOk result (Becomes S.Store P.Shelf connection.old connection.new
        (λ rows. rebodied rows rows.refs (delete_where (is_block (digest.now, ord)) rows.blocks))) }
    ensures trouble { IfErr result (IsTroubleIf S.Store P.Shelf connection.old connection.new
        (list_any (is_use (digest.now, ord)) (tables S.Store P.Shelf connection.old).refs ≡ false)) }
{
    let size = size_of_block(connection, digest, ord)?;
    let garbage = garbage_bytes(connection)?;
    delete_block(connection, digest, ord)?;
    change_uses(connection, UseChange::Removed, digest, ord)?;
    reweigh(connection, garbage, 0, size)
}

/// Removes a deleted block from the cache.
fn forget(cache: &mut BlockCache, name: &StoredName)
    ensures { (e : Name × Octets) → Contains cache.new.entries e → Contains cache.old.entries e × (e.0 ≢ stored_name name.now) }
{
    match BlockName::new(&name.digest, name.ord) {
        Some(name) => cache.forget(&name),
        // No block has a digest of another length.
        None => cache.clear(),
    }
}

/// Deletes the block that a row names, and removes it from the cache.
fn remove_named<S: Alter, P: Shelf>(
    connection: &mut Connection<S, P>,
    cache: &mut BlockCache,
    row: &Row,
) -> Result<(), Error>
    requires inside { InTransaction S.Store P.Shelf connection.old }
    requires unused { IsClean S.Store P.Shelf connection.old → IsShownUnused row.now (tables S.Store P.Shelf connection.old).refs }
    ensures within { StaysWithin S.Store P.Shelf connection.old connection.new }
    ensures opens { OnOk result (StaysOpen S.Store P.Shelf connection.old connection.new) }
    ensures inside { OnOk result (InTransaction S.Store P.Shelf connection.new) }
    ensures removed { OnOk result ((b : BlockRow) → row.now ≡ shown_name b → Becomes S.Store P.Shelf connection.old connection.new
        (λ rows. rebodied rows rows.refs (delete_where (is_block (block_name b)) rows.blocks))) }
    ensures trouble { IfErr result (λ e. (b : BlockRow) → row.now ≡ shown_name b → IsTroubleIf S.Store P.Shelf connection.old connection.new
        (is_unreferenced (tables S.Store P.Shelf connection.old).refs b ≡ true) e) }
    ensures kept { OnOk result ((b : BlockRow) → row.now ≡ shown_name b → IsClean S.Store P.Shelf connection.new
        → Agrees cache.old (tables S.Store P.Shelf connection.old).blocks
        → Agrees cache.new (tables S.Store P.Shelf connection.new).blocks) }
{
    let name = read_name(row)?;
    remove_block(connection, &name.digest, name.ord)?;
    forget(cache, &name);
    Ok(())
}

/// Deletes the blocks that rows name, and removes them from the cache.
fn remove_all<S: Alter, P: Shelf>(
    connection: &mut Connection<S, P>,
    cache: &mut BlockCache,
    rows: &[Row],
) -> Result<(), Error>
    requires inside { InTransaction S.Store P.Shelf connection.old }
    requires unused { IsClean S.Store P.Shelf connection.old
        → All (λ row. IsShownUnused row (tables S.Store P.Shelf connection.old).refs) rows.now }
    ensures within { StaysWithin S.Store P.Shelf connection.old connection.new }
    ensures opens { OnOk result (StaysOpen S.Store P.Shelf connection.old connection.new) }
    ensures removed { OnOk result ((gone : List BlockRow) → rows.now ≡ map shown_name gone
        → Becomes S.Store P.Shelf connection.old connection.new (λ rows. rebodied rows rows.refs (blocks_without gone rows.blocks))) }
    ensures trouble { IfErr result (λ e. (gone : List BlockRow) → rows.now ≡ map shown_name gone
        → IsTroubleIf S.Store P.Shelf connection.old connection.new
        (IsOpen S.Store P.Shelf connection.old
        × AllByRecursion (λ b. is_unreferenced (tables S.Store P.Shelf connection.old).refs b ≡ true) gone) e) }
    ensures kept { OnOk result ((gone : List BlockRow) → rows.now ≡ map shown_name gone → IsClean S.Store P.Shelf connection.new
        → Agrees cache.old (tables S.Store P.Shelf connection.old).blocks
        → Agrees cache.new (tables S.Store P.Shelf connection.new).blocks) }
{
    for row in rows {
        remove_named(connection, cache, row)?;
    }
    Ok(())
}

/// Deletes the first unreferenced blocks, by digest and ordinal, at most `limit` of them, and
/// removes them from the cache. Returns how many were deleted. After an error the transaction has
/// to be rolled back.
pub fn remove_unreferenced<S: Alter, P: Shelf>(
    connection: &mut Connection<S, P>,
    cache: &mut BlockCache,
    limit: u32,
) -> Result<usize, Error>
    requires inside { InTransaction S.Store P.Shelf connection.old }
    ensures within { StaysWithin S.Store P.Shelf connection.old connection.new }
    ensures opens { OnOk result (WasOpen S.Store P.Shelf connection.old connection.new) }
    ensures count { IfOk result (λ count. IsClean S.Store P.Shelf connection.new
        → count ≡ length (unreferenced limit (tables S.Store P.Shelf connection.old).refs (tables S.Store P.Shelf connection.old).blocks)) }
    ensures removed { OnOk result (Becomes S.Store P.Shelf connection.old connection.new
        (λ rows. rebodied rows rows.refs (blocks_without (unreferenced limit rows.refs rows.blocks) rows.blocks))) }
    ensures keeps { (digest : Octets → Octets) → OnOk result (IsClean S.Store P.Shelf connection.new
        → IsSound (tables S.Store P.Shelf connection.old) → AreDigests digest (tables S.Store P.Shelf connection.old).blocks
        → KeepsBodies digest (tables S.Store P.Shelf connection.old) (tables S.Store P.Shelf connection.new)) }
    ensures kept { OnOk result (IsClean S.Store P.Shelf connection.new
        → Agrees cache.old (tables S.Store P.Shelf connection.old).blocks
        → Agrees cache.new (tables S.Store P.Shelf connection.new).blocks) }
    ensures trouble { IfErr result (IsTrouble S.Store P.Shelf connection.old connection.new) }
{
    let rows = unreferenced_rows(connection, u64::from(limit))?;
    remove_all(connection, cache, &rows)?;
    Ok(rows.len())
}

/// Whether there is an unreferenced block.
pub fn any_unreferenced<S: Alter, P: Shelf>(
    connection: &mut Connection<S, P>,
) -> Result<bool, Error>
    requires inside { InTransaction S.Store P.Shelf connection.old }
    ensures within { StaysWithin S.Store P.Shelf connection.old connection.new }
    ensures opens { OnOk result (WasOpen S.Store P.Shelf connection.old connection.new) }
    ensures same { OnOk result (ChangesNothing S.Store P.Shelf connection.old connection.new) }
    ensures found { IfOk result (λ found. IsClean S.Store P.Shelf connection.new
        → found ≡ list_any (is_unreferenced (tables S.Store P.Shelf connection.old).refs) (tables S.Store P.Shelf connection.old).blocks) }
    ensures trouble { IfErr result (IsTrouble S.Store P.Shelf connection.old connection.new) }
{
    let rows = unreferenced_rows(connection, 1)?;
    match rows.first() {
        None => Ok(false),
        Some(_row) => Ok(true),
    }
}
