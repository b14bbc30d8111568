//! The SQL statements that find what is to be moved, one function each, and the values of their rows.

ghost use Rattle.std.specs.Prelude.{◌≡◌, ◌<◌, ◌^◌, [], pos, map, filter, take, IfOk, IfErr, OnOk};
ghost use Rattle.sqlite.specs.declared.types.Value.TheVariants.{Int};
ghost use Rattle.sqlite.specs.Order.{column};
ghost use Rattle.sqlite.specs.Value.{owned};
ghost use Rattle.sqlite_keyed.specs.Lists.{sort_by};
ghost use Rattle.bh_tables.specs.Packs.{is_in_pack};
ghost use Rattle.bh_base.specs.Calls.{Reads};
ghost use Rattle.bh_base.specs.Connections.{IsClean, CanReadBy, IsTrouble, places, packs};
ghost use Rattle.bh_base.specs.Places.{KeepsRows};
ghost use Rattle.bh_base.specs.Removal.{shown_number};
ghost use Rattle.bh_compaction.specs.Moves.{is_sparse, shown_name, by_offset};

use crate::compaction::Sparse;
use bh_base::connection::Connection;
use bh_base::places::in_range;
use bh_shelf::shelf::Shelf;
use sqlite::types::ValueRef;
use sqlite::{Alter, Error, Row};

/// A block's name.
#[derive(Drop)]
pub(crate) struct Name {
    pub digest: Vec<u8>,
    pub ord: u64,
}

/// A number as a statement's parameter.
fn number<'a>(n: u64) -> ValueRef<'a>
    requires { n < 2 ^ 63 }
    ensures { owned result ≡ Int (pos n) }
{
    ValueRef::Int(n as i64)
}

/// The number of the first pack that is sparse, in the order in which their rows came.
pub(crate) fn sparse_rows<S: Alter, P: Shelf>(
    connection: &mut Connection<S, P>,
    sparse: Sparse,
) -> Result<Vec<Row>, Error>
    requires reads { CanReadBy S.Store P.Shelf connection.old }
    requires length { sparse.length < 2 ^ 63 }
    requires live { sparse.live < 2 ^ 63 }
    ensures reads { Reads S.Store P.Shelf connection.old connection.new result }
    ensures rows { IfOk result (λ rows. IsClean S.Store P.Shelf connection.new
        → rows.items ≡ take 1 (map shown_number (filter (is_sparse sparse) (packs S.Store P.Shelf connection.old)))) }
    ensures still { OnOk result (IsClean S.Store P.Shelf connection.new → KeepsRows S.Store P.Shelf connection.old connection.new) }
    ensures trouble { IfErr result (IsTrouble S.Store P.Shelf connection.old connection.new) }
{
    connection.database.query_all(
        "SELECT pack FROM packs WHERE length >= ?1 AND live < ?2 AND live > 0 ORDER BY rowid LIMIT 1",
        &[number(sparse.length), number(sparse.live)],
    )
}

/// The names of blocks in a pack, at most `limit`, from its start on. They are the first in an index.
pub(crate) fn name_rows<S: Alter, P: Shelf>(
    connection: &mut Connection<S, P>,
    pack: u64,
    limit: u64,
) -> Result<Vec<Row>, Error>
    requires reads { CanReadBy S.Store P.Shelf connection.old }
    requires pack { pack < 2 ^ 63 }
    requires limit { limit < 2 ^ 63 }
    ensures reads { Reads S.Store P.Shelf connection.old connection.new result }
    ensures rows { IfOk result (λ rows. IsClean S.Store P.Shelf connection.new → rows.items
        ≡ take limit (map shown_name (sort_by by_offset (filter (is_in_pack pack) (places S.Store P.Shelf connection.old))))) }
    ensures still { OnOk result (IsClean S.Store P.Shelf connection.new → KeepsRows S.Store P.Shelf connection.old connection.new) }
    ensures trouble { IfErr result (IsTrouble S.Store P.Shelf connection.old connection.new) }
{
    connection.database.query_all(
        "SELECT digest, ord FROM placed WHERE pack = ?1 ORDER BY place, rowid LIMIT ?2",
        &[number(pack), number(limit)],
    )
}

/// The number of the pack in a row.
pub(crate) fn read_pack(row: &Row) -> Result<usize, Error>
    ensures read { IfOk result (λ pack. column row.now 0 ≡ Int (pos pack)) }
    ensures small { IfOk result (λ pack. pack < 2 ^ 63) }
{
    let pack: u64 = row.get(0)?;
    in_range(pack as usize)?;
    Ok(pack as usize)
}

/// The name in a row.
pub(crate) fn read_name(row: &Row) -> Result<Name, Error>
    ensures small { IfOk result (λ name. name.ord < 2 ^ 63) }
{
    let ord: u64 = row.get(1)?;
    in_range(ord as usize)?;
    Ok(Name {
        digest: row.get(0)?,
        ord,
    })
}
