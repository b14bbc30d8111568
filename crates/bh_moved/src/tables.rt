//! Copies a tenant's rows of one table from one host to another.

ghost use Rattle.std.specs.Prelude.{◌≡◌, ◌<◌, ◌^◌, List, map, IfOk, IfSome, OnOk};
ghost use Rattle.bh_view.specs.Bodies.{HasBodies};
ghost use Rattle.bh_view.specs.View.{rows_of};
ghost use Rattle.bh_base.specs.Connections.{IsClean, tables, InTransaction, Becomes};
ghost use Rattle.bh_tenant_rows.specs.Brought.{IsNext};
ghost use Rattle.bh_schema.specs.Calls.{Reads, MayRead, Writes};
ghost use Rattle.bh_moved.specs.Rows.{all_added};
ghost use Rattle.bh_moved.specs.Owned.{RowIn, shown_row, rows_in, body_in, IfBodied, row_after, row_added};

use crate::body::bring_body;
use crate::buckets::add_bucket;
use crate::cells::number_at;
use crate::moving::Moving;
use crate::parts::add_part;
use crate::plain::{add_key, add_lock, add_retain, add_upload};
use crate::versions::add_entry;
use bh_base::connection::Connection;
use bh_schema::host::Digester;
use bh_shelf::shelf::Shelf;
use bh_tenant_rows::reads::{Owned, owned_rows};
use sqlite::{Alter, Error, Row};

/// The entry number under which a row's bytes are stored: those of a version that is not a delete
/// marker, and of a part.
fn find_body(table: Owned, row: &Row) -> Result<Option<u64>, Error>
    ensures body { IfOk result (λ body. (r : RowIn table) → row.now ≡ shown_row table r → body ≡ body_in table r) }
    ensures small { IfOk result (λ body. IfSome body (λ n. n < 2 ^ 63)) }
{
    match table {
        Owned::Versions => {
            if number_at(row, 4)? == 0 {
                Ok(Some(number_at(row, 0)?))
            } else {
                Ok(None)
            }
        }
        Owned::Parts => Ok(Some(number_at(row, 5)?)),
        _ => Ok(None),
    }
}

/// Adds a row of this table to a tenant's. A version or part gets the next entry number that the
/// tenant has already. The row's body was stored.
fn add_row<T: Alter, Q: Shelf, D>(
    table: Owned,
    to: &mut Connection<T, Q>,
    moving: &Moving<'_, D>,
    row: &Row,
) -> Result<(), Error>
    requires inside { InTransaction T.Store Q.Shelf to.old }
    ensures writes { Writes T.Store Q.Shelf to.old to.new result }
    ensures added { OnOk result ((r : RowIn table) → row.now ≡ shown_row table r
        → IfBodied table (IsNext moving.now.tenant.now moving.now.numbers.next_entry (tables T.Store Q.Shelf to.old))
        → Becomes T.Store Q.Shelf to.old to.new (row_after moving.now.tenant.now table r)) }
{
    match table {
        Owned::Keys => add_key(to, moving.tenant, row),
        Owned::Buckets => add_bucket(to, moving.tenant, row),
        Owned::Locks => add_lock(to, moving.tenant, row),
        Owned::Versions => add_entry(to, moving, row),
        Owned::Uploads => add_upload(to, moving.tenant, row),
        Owned::Parts => add_part(to, moving, row),
        Owned::Retains => add_retain(to, moving.tenant, row),
    }
}

/// Adds a row of this table to a tenant's, with its body, if it has one.
fn bring_row<S: Alter, P: Shelf, T: Alter, Q: Shelf, D: Digester>(
    table: Owned,
    from: &mut Connection<S, P>,
    to: &mut Connection<T, Q>,
    moving: &Moving<'_, D>,
    row: &Row,
) -> Result<(), Error>
    requires reading { InTransaction S.Store P.Shelf from.old }
    requires inside { InTransaction T.Store Q.Shelf to.old }
    ensures reads { MayRead S.Store P.Shelf from.old from.new result }
    ensures writes { Writes T.Store Q.Shelf to.old to.new result }
    ensures added { OnOk result ((r : RowIn table) → row.now ≡ shown_row table r → IsClean S.Store P.Shelf from.new
        → IfBodied table (HasBodies (tables S.Store P.Shelf from.old)
        × IsNext moving.now.tenant.now moving.now.numbers.next_entry (tables T.Store Q.Shelf to.old))
        → Becomes T.Store Q.Shelf to.old to.new
        (row_added D.digest_of moving.now.block_size moving.now.tenant.now (tables S.Store P.Shelf from.old) table r)) }
{
    match find_body(table, row)? {
        Some(body) => {
            bring_body(from, to, moving, body)?;
            add_row(table, to, moving, row)
        }
        None => add_row(table, to, moving, row),
    }
}

/// Adds rows of this table with their bodies.
fn bring_each<S: Alter, P: Shelf, T: Alter, Q: Shelf, D: Digester>(
    table: Owned,
    from: &mut Connection<S, P>,
    to: &mut Connection<T, Q>,
    moving: &Moving<'_, D>,
    rows: &[Row],
) -> Result<(), Error>
    requires reading { InTransaction S.Store P.Shelf from.old }
    requires inside { InTransaction T.Store Q.Shelf to.old }
    ensures reads { MayRead S.Store P.Shelf from.old from.new result }
    ensures writes { Writes T.Store Q.Shelf to.old to.new result }
    ensures added { OnOk result ((rs : List (RowIn table)) → rows.now ≡ map (shown_row table) rs → IsClean S.Store P.Shelf from.new
        → IfBodied table (HasBodies (tables S.Store P.Shelf from.old)
        × IsNext moving.now.tenant.now moving.now.numbers.next_entry (tables T.Store Q.Shelf to.old))
        → Becomes T.Store Q.Shelf to.old to.new (all_added
        (row_added D.digest_of moving.now.block_size moving.now.tenant.now (tables S.Store P.Shelf from.old) table) rs)) }
{
    for row in rows {
        bring_row(table, from, to, moving, row)?;
    }
    Ok(())
}

/// Adds the rows of this table that a tenant has in another host, with their bodies. Versions and
/// parts get the next entry number that the tenant has already.
pub fn bring_table<S: Alter, P: Shelf, T: Alter, Q: Shelf, D: Digester>(
    table: Owned,
    from: &mut Connection<S, P>,
    to: &mut Connection<T, Q>,
    moving: &Moving<'_, D>,
) -> Result<(), Error>
    requires reading { InTransaction S.Store P.Shelf from.old }
    requires inside { InTransaction T.Store Q.Shelf to.old }
    ensures reads { Reads S.Store P.Shelf from.old from.new result }
    ensures writes { Writes T.Store Q.Shelf to.old to.new result }
    ensures brought { OnOk result (IsClean S.Store P.Shelf from.new → IfBodied table (HasBodies (tables S.Store P.Shelf from.old)
        × IsNext moving.now.tenant.now moving.now.numbers.next_entry (tables T.Store Q.Shelf to.old))
        → Becomes T.Store Q.Shelf to.old to.new (all_added
        (row_added D.digest_of moving.now.block_size moving.now.tenant.now (tables S.Store P.Shelf from.old) table)
        (rows_in table (rows_of moving.now.tenant.now (tables S.Store P.Shelf from.old))))) }
{
    let rows = owned_rows(from, table, moving.tenant)?;
    bring_each(table, from, to, moving, &rows)?;
    Ok(())
}
