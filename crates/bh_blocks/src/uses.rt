//! The SQL statements on the counts of uses. They run within a write of references or blocks, which
//! the counts have to follow.

ghost use Rattle.std.specs.Prelude.{◌≡◌, ◌<◌, ◌^◌, [], ◌∷◌, pos, true, List, map, filter, IfOk, IfErr, OnOk};
ghost use Rattle.bh_rows.specs.Means.{is_trouble};
ghost use Rattle.bh_tables.specs.Garbage.{HasUses, shown_uses};
ghost use Rattle.bh_tables.specs.Typed.{Totals, UseRow, counted, is_named};
ghost use Rattle.bh_tables.specs.Shown.{shown_name, unreferenced};
ghost use Rattle.bh_base.specs.Connections.{IsClean, stands, tables, InTransaction, InMidst, Rewrites, IsTrouble, IsTroubleIf};
ghost use Rattle.bh_schema.specs.Calls.{Reads, WritesOn};
ghost use Rattle.bh_base.specs.Layer.{IsInsideBy};
ghost use Rattle.bh_blocks.specs.UseChanges.{uses_after, MayChange, IsTextOf};

use crate::rows::only_row;
use bh_base::connection::Connection;
use bh_schema::rows::number::number;
use bh_shelf::shelf::Shelf;
use sqlite::types::ToSql;
use sqlite::{Alter, Error, ErrorCode, Row};

/// The names of unreferenced blocks, at most `limit`. They are the first in an index: no other row
/// is read.
pub fn unreferenced_rows<S: Alter, P: Shelf>(
    connection: &mut Connection<S, P>,
    limit: u64,
) -> Result<Vec<Row>, Error>
    requires inside { InTransaction S.Store P.Shelf connection.old }
    requires small { limit < 2 ^ 63 }
    ensures reads { Reads S.Store P.Shelf connection.old connection.new result }
    ensures rows { IfOk result (λ rows. IsClean S.Store P.Shelf connection.new
        → rows.items ≡ map shown_name (unreferenced limit (tables S.Store P.Shelf connection.old).refs
        (tables S.Store P.Shelf connection.old).blocks)) }
    ensures trouble { IfErr result (IsTrouble S.Store P.Shelf connection.old connection.new) }
{
    connection.database.query_all(
        "SELECT digest, ord FROM uses WHERE uses = 0 ORDER BY digest, ord, rowid LIMIT ?1",
        &[number(limit)],
    )
}

/// The counts of a block, of which there is one. It may be called within a write.
fn use_rows<S: Alter, P: Shelf>(
    connection: &mut Connection<S, P>,
    digest: &[u8],
    ord: u64,
) -> Result<Vec<Row>, Error>
    requires midst { InMidst S.Store P.Shelf connection.old }
    requires small { ord < 2 ^ 63 }
    ensures reads { Reads S.Store P.Shelf connection.old connection.new result }
    ensures rows { IfOk result (λ rows. IsClean S.Store P.Shelf connection.new → (sums : Totals)
        → IsInsideBy sums (stands S.Store P.Shelf connection.old)
        → rows.items ≡ map shown_uses (filter (is_named (digest.now, ord)) sums.uses)) }
    ensures trouble { IfErr result (IsTrouble S.Store P.Shelf connection.old connection.new) }
{
    connection.database.query_all(
        "SELECT uses FROM uses WHERE digest = ?1 AND ord = ?2 ORDER BY rowid",
        &[digest.to_sql(), number(ord)],
    )
}

/// The count in the only one of these rows.
fn read_uses(rows: &[Row]) -> Result<u64, Error>
    ensures read { IfOk result (λ n. (us : List UseRow) → rows.now ≡ map shown_uses us → map (λ (u : UseRow). u.uses) us ≡ pos n ∷ []) }
    ensures trouble { IfErr result (λ e. is_trouble e ≡ true) }
{
    match only_row(rows)?.get(0) {
        Ok(uses) => Ok(uses),
        Err(_) => Err(Error::SqliteFailure(ErrorCode::DatabaseCorrupt)),
    }
}

/// How many references name a block, by its count. It may be called within a write.
pub fn uses_of<S: Alter, P: Shelf>(
    connection: &mut Connection<S, P>,
    digest: &[u8],
    ord: u64,
) -> Result<u64, Error>
    requires midst { InMidst S.Store P.Shelf connection.old }
    requires small { ord < 2 ^ 63 }
    ensures reads { Reads S.Store P.Shelf connection.old connection.new result }
    ensures counted { IfOk result (λ n. IsClean S.Store P.Shelf connection.new → (sums : Totals)
        → IsInsideBy sums (stands S.Store P.Shelf connection.old)
        → HasUses (digest.now, ord) n sums.uses) }
    ensures trouble { IfErr result (IsTrouble S.Store P.Shelf connection.old connection.new) }
{
    let rows = use_rows(connection, digest, ord)?;
    read_uses(&rows)
}

/// A change of a block's count of uses.
#[derive(Clone, Copy)]
pub enum UseChange {
    /// The first reference to the block.
    Added,
    /// One more reference. The store refuses it at 2^62.
    Raised,
    /// One reference less, but not none.
    Lowered,
    /// The count is deleted.
    Removed,
}

/// The SQL of a change, for the block with the digest ?1 and the ordinal ?2.
fn text_of(change: UseChange) -> &'static str
    ensures { IsTextOf change result.now }
{
    match change {
        UseChange::Added => "INSERT INTO uses (digest, ord, uses) VALUES (?1, ?2, 1)",
        UseChange::Raised => "UPDATE uses SET uses = uses + 1 WHERE digest = ?1 AND ord = ?2",
        UseChange::Lowered => "UPDATE uses SET uses = uses - 1 WHERE digest = ?1 AND ord = ?2",
        UseChange::Removed => "DELETE FROM uses WHERE digest = ?1 AND ord = ?2",
    }
}

/// Changes the count of a block.
pub fn change_uses<S: Alter, P: Shelf>(
    connection: &mut Connection<S, P>,
    change: UseChange,
    digest: &[u8],
    ord: u64,
) -> Result<usize, Error>
    requires midst { InMidst S.Store P.Shelf connection.old }
    requires small { ord < 2 ^ 63 }
    ensures writes { WritesOn S.Store P.Shelf connection.old connection.new result }
    ensures rewrites { OnOk result (Rewrites S.Store P.Shelf connection.old connection.new
        (counted (uses_after change (digest.now, ord))) (λ rows. rows)) }
    ensures trouble { IfErr result (IsTroubleIf S.Store P.Shelf connection.old connection.new
        (MayChange change (digest.now, ord) (stands S.Store P.Shelf connection.old))) }
{
    // Asked for what it ensures: the rows obey the schema.
    let _schema = connection.database.schema();
    connection
        .database
        .execute(text_of(change), &[digest.to_sql(), number(ord)])
}
