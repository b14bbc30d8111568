//! The SQL statements on the blocks of all tenants and on their use, one function each.
ghost use Rattle.std.specs.Prelude.{◌≡◌, ◌∷◌, [], ◌+◌, ◌<◌, ◌^◌, List, true, nat_lt, length, filter, map, IfOk, IfErr, OnOk};
ghost use Rattle.std.specs.List.{sum_by};
ghost use Rattle.bh_rows.specs.Means.{is_trouble};
ghost use Rattle.bh_tables.specs.Shown.{shown_used};
ghost use Rattle.bh_tables.specs.Typed.{BlockRow, PlaceRow, TenantRow, Tables, totals_of, number as stored};
ghost use Rattle.bh_base.specs.Connections.{IsClean, tables, InTransaction, StaysWithin, WasOpen, ChangesNothing, IsTrouble, IsTroubleIf};
ghost use Rattle.bh_base.specs.Connections.{places, rows_of_blocks};
ghost use Rattle.bh_base.specs.Places.{KeepsRows};
ghost use Rattle.bh_sweep.specs.Counted.{used_by};

use bh_base::connection::Connection;
use bh_schema::rows::counts::read_total;
use bh_shelf::shelf::Shelf;
use sqlite::{Alter, Error, ErrorCode, Row};

fn block_rows<S: Alter, P: Shelf>(connection: &mut Connection<S, P>) -> Result<Vec<Row>, Error>
    requires inside { InTransaction S.Store P.Shelf connection.old }
    ensures within { StaysWithin S.Store P.Shelf connection.old connection.new }
    ensures opens { OnOk result (WasOpen S.Store P.Shelf connection.old connection.new) }
    ensures same { OnOk result (ChangesNothing S.Store P.Shelf connection.old connection.new) }
    ensures rows { IfOk result (λ rows. IsClean S.Store P.Shelf connection.new
        → rows.items ≡ (stored (length (tables S.Store P.Shelf connection.old).blocks) ∷ []) ∷ []) }
    ensures trouble { IfErr result (IsTroubleIf S.Store P.Shelf connection.old connection.new
        (length (tables S.Store P.Shelf connection.old).blocks < 2 ^ 63)) }
{
    connection
        .database
        .query_all("SELECT coalesce(sum(1), 0) FROM blocks", &[])
}

/// The bytes that blocks have in their own rows.
fn own_rows<S: Alter, P: Shelf>(connection: &mut Connection<S, P>) -> Result<Vec<Row>, Error>
    requires inside { InTransaction S.Store P.Shelf connection.old }
    ensures within { StaysWithin S.Store P.Shelf connection.old connection.new }
    ensures opens { OnOk result (WasOpen S.Store P.Shelf connection.old connection.new) }
    ensures same { OnOk result (ChangesNothing S.Store P.Shelf connection.old connection.new) }
    ensures rows { IfOk result (λ rows. IsClean S.Store P.Shelf connection.new
        → rows.items ≡ (stored (sum_by (λ (b : BlockRow). length b.bytes) (rows_of_blocks S.Store P.Shelf connection.old)) ∷ []) ∷ []) }
    ensures still { OnOk result (IsClean S.Store P.Shelf connection.new → KeepsRows S.Store P.Shelf connection.old connection.new) }
    ensures trouble { IfErr result (IsTroubleIf S.Store P.Shelf connection.old connection.new (IsClean S.Store P.Shelf connection.old
        → sum_by (λ (b : BlockRow). length b.bytes) (rows_of_blocks S.Store P.Shelf connection.old) < 2 ^ 63)) }
{
    connection
        .database
        .query_all("SELECT coalesce(sum(length(bytes)), 0) FROM blocks", &[])
}

/// The bytes that blocks have in packs.
fn placed_rows<S: Alter, P: Shelf>(connection: &mut Connection<S, P>) -> Result<Vec<Row>, Error>
    requires inside { InTransaction S.Store P.Shelf connection.old }
    ensures within { StaysWithin S.Store P.Shelf connection.old connection.new }
    ensures opens { OnOk result (WasOpen S.Store P.Shelf connection.old connection.new) }
    ensures same { OnOk result (ChangesNothing S.Store P.Shelf connection.old connection.new) }
    ensures rows { IfOk result (λ rows. IsClean S.Store P.Shelf connection.new
        → rows.items ≡ (stored (sum_by (λ (p : PlaceRow). p.size) (places S.Store P.Shelf connection.old)) ∷ []) ∷ []) }
    ensures trouble { IfErr result (IsTroubleIf S.Store P.Shelf connection.old connection.new (IsClean S.Store P.Shelf connection.old
        → sum_by (λ (p : PlaceRow). p.size) (places S.Store P.Shelf connection.old) < 2 ^ 63)) }
{
    connection
        .database
        .query_all("SELECT coalesce(sum(size), 0) FROM placed", &[])
}

fn used_rows<S: Alter, P: Shelf>(connection: &mut Connection<S, P>) -> Result<Vec<Row>, Error>
    requires inside { InTransaction S.Store P.Shelf connection.old }
    ensures within { StaysWithin S.Store P.Shelf connection.old connection.new }
    ensures opens { OnOk result (WasOpen S.Store P.Shelf connection.old connection.new) }
    ensures same { OnOk result (ChangesNothing S.Store P.Shelf connection.old connection.new) }
    ensures rows { IfOk result (λ rows. IsClean S.Store P.Shelf connection.new
        → rows.items ≡ map (shown_used (totals_of (tables S.Store P.Shelf connection.old)))
        (tables S.Store P.Shelf connection.old).tenants) }
    ensures trouble { IfErr result (IsTrouble S.Store P.Shelf connection.old connection.new) }
{
    connection
        .database
        .query_all("SELECT used FROM tenants ORDER BY rowid", &[])
}

fn clash_rows<S: Alter, P: Shelf>(connection: &mut Connection<S, P>) -> Result<Vec<Row>, Error>
    requires inside { InTransaction S.Store P.Shelf connection.old }
    ensures within { StaysWithin S.Store P.Shelf connection.old connection.new }
    ensures opens { OnOk result (WasOpen S.Store P.Shelf connection.old connection.new) }
    ensures same { OnOk result (ChangesNothing S.Store P.Shelf connection.old connection.new) }
    ensures rows { IfOk result (λ rows. IsClean S.Store P.Shelf connection.new
        → rows.items ≡ (stored (length (filter (λ (b : BlockRow). nat_lt 0 b.ord)
        (tables S.Store P.Shelf connection.old).blocks)) ∷ []) ∷ []) }
    ensures trouble { IfErr result (IsTroubleIf S.Store P.Shelf connection.old connection.new
        (length (filter (λ (b : BlockRow). nat_lt 0 b.ord) (tables S.Store P.Shelf connection.old).blocks) < 2 ^ 63)) }
{
    connection.database.query_all("SELECT coalesce(sum(1), 0) FROM blocks WHERE ord > 0", &[])
}

/// The number of blocks.
pub fn block_count<S: Alter, P: Shelf>(connection: &mut Connection<S, P>) -> Result<u64, Error>
    requires inside { InTransaction S.Store P.Shelf connection.old }
    ensures within { StaysWithin S.Store P.Shelf connection.old connection.new }
    ensures opens { OnOk result (WasOpen S.Store P.Shelf connection.old connection.new) }
    ensures same { OnOk result (ChangesNothing S.Store P.Shelf connection.old connection.new) }
    ensures count { IfOk result (λ n. IsClean S.Store P.Shelf connection.new
        → n ≡ length (tables S.Store P.Shelf connection.old).blocks) }
    ensures trouble { IfErr result (IsTroubleIf S.Store P.Shelf connection.old connection.new
        (length (tables S.Store P.Shelf connection.old).blocks < 2 ^ 63)) }
{
    let rows = block_rows(connection)?;
    read_total(&rows)
}

/// The bytes that blocks have in their own rows. The store refuses a sum of 2^63 or more.
fn own_total<S: Alter, P: Shelf>(connection: &mut Connection<S, P>) -> Result<u64, Error>
    requires inside { InTransaction S.Store P.Shelf connection.old }
    ensures within { StaysWithin S.Store P.Shelf connection.old connection.new }
    ensures opens { OnOk result (WasOpen S.Store P.Shelf connection.old connection.new) }
    ensures same { OnOk result (ChangesNothing S.Store P.Shelf connection.old connection.new) }
    ensures total { IfOk result (λ n. IsClean S.Store P.Shelf connection.new
        → n ≡ sum_by (λ (b : BlockRow). length b.bytes) (rows_of_blocks S.Store P.Shelf connection.old)) }
    ensures still { OnOk result (IsClean S.Store P.Shelf connection.new → KeepsRows S.Store P.Shelf connection.old connection.new) }
    ensures trouble { IfErr result (IsTroubleIf S.Store P.Shelf connection.old connection.new (IsClean S.Store P.Shelf connection.old
        → sum_by (λ (b : BlockRow). length b.bytes) (rows_of_blocks S.Store P.Shelf connection.old) < 2 ^ 63)) }
{
    let rows = own_rows(connection)?;
    read_total(&rows)
}

/// The bytes that blocks have in packs. The store refuses a sum of 2^63 or more.
fn placed_total<S: Alter, P: Shelf>(connection: &mut Connection<S, P>) -> Result<u64, Error>
    requires inside { InTransaction S.Store P.Shelf connection.old }
    ensures within { StaysWithin S.Store P.Shelf connection.old connection.new }
    ensures opens { OnOk result (WasOpen S.Store P.Shelf connection.old connection.new) }
    ensures same { OnOk result (ChangesNothing S.Store P.Shelf connection.old connection.new) }
    ensures total { IfOk result (λ n. IsClean S.Store P.Shelf connection.new
        → n ≡ sum_by (λ (p : PlaceRow). p.size) (places S.Store P.Shelf connection.old)) }
    ensures trouble { IfErr result (IsTroubleIf S.Store P.Shelf connection.old connection.new (IsClean S.Store P.Shelf connection.old
        → sum_by (λ (p : PlaceRow). p.size) (places S.Store P.Shelf connection.old) < 2 ^ 63)) }
{
    let rows = placed_rows(connection)?;
    read_total(&rows)
}

/// The sum of two numbers. It fails if no number of the type is so large.
fn added(a: u64, b: u64) -> Result<u64, Error>
    ensures sum { IfOk result (λ n. n ≡ a + b) }
    ensures trouble { IfErr result (λ e. is_trouble e ≡ true) }
{
    match a.checked_add(b) {
        Some(sum) => Ok(sum),
        None => Err(Error::SqliteFailure(ErrorCode::TooBig)),
    }
}

/// The bytes of all blocks, in rows and in packs. The store refuses a sum of 2^63 or more of either.
pub fn stored_total<S: Alter, P: Shelf>(connection: &mut Connection<S, P>) -> Result<u64, Error>
    requires inside { InTransaction S.Store P.Shelf connection.old }
    ensures within { StaysWithin S.Store P.Shelf connection.old connection.new }
    ensures opens { OnOk result (WasOpen S.Store P.Shelf connection.old connection.new) }
    ensures same { OnOk result (ChangesNothing S.Store P.Shelf connection.old connection.new) }
    ensures total { IfOk result (λ n. IsClean S.Store P.Shelf connection.new
        → n ≡ sum_by (λ (b : BlockRow). length b.bytes) (tables S.Store P.Shelf connection.old).blocks) }
    ensures trouble { IfErr result (IsTroubleIf S.Store P.Shelf connection.old connection.new
        (sum_by (λ (b : BlockRow). length b.bytes) (tables S.Store P.Shelf connection.old).blocks < 2 ^ 63)) }
{
    // Asked for what it ensures: each place is that of one block.
    let _schema = connection.database.schema();
    let own = own_total(connection)?;
    let placed = placed_total(connection)?;
    added(own, placed)
}

fn read_used(row: &Row) -> Result<u64, Error>
    ensures read { IfOk result (λ used. (rows : Tables) (t : TenantRow) → row.now ≡ shown_used (totals_of rows) t → used ≡ used_by rows t) }
    ensures trouble { IfErr result (λ e. (rows : Tables) (t : TenantRow) → row.now ≡ shown_used (totals_of rows) t → is_trouble e ≡ true) }
{
    row.get(0)
}

/// The sum of what tenants use. Fewer than 2^64 numbers below 2^64 add up to less than 2^128.
fn add_used(rows: &[Row]) -> Result<u128, Error>
    ensures read { IfOk result (λ n. (tables : Tables) (ts : List TenantRow)
        → rows.now ≡ map (shown_used (totals_of tables)) ts → n ≡ sum_by (used_by tables) ts) }
    ensures trouble { IfErr result (λ e. (tables : Tables) (ts : List TenantRow)
        → rows.now ≡ map (shown_used (totals_of tables)) ts → is_trouble e ≡ true) }
{
    let mut total: u128 = 0;
    for row in rows {
        total += u128::from(read_used(row)?);
    }
    Ok(total)
}

/// The bytes that all tenants together use.
pub fn used_total<S: Alter, P: Shelf>(connection: &mut Connection<S, P>) -> Result<u128, Error>
    requires inside { InTransaction S.Store P.Shelf connection.old }
    ensures within { StaysWithin S.Store P.Shelf connection.old connection.new }
    ensures opens { OnOk result (WasOpen S.Store P.Shelf connection.old connection.new) }
    ensures same { OnOk result (ChangesNothing S.Store P.Shelf connection.old connection.new) }
    ensures total { IfOk result (λ n. IsClean S.Store P.Shelf connection.new
        → n ≡ sum_by (used_by (tables S.Store P.Shelf connection.old)) (tables S.Store P.Shelf connection.old).tenants) }
    ensures trouble { IfErr result (IsTrouble S.Store P.Shelf connection.old connection.new) }
{
    let rows = used_rows(connection)?;
    add_used(&rows)
}

/// The number of blocks with an ordinal above 0: when they were stored, another block had their
/// digest.
pub fn clash_count<S: Alter, P: Shelf>(connection: &mut Connection<S, P>) -> Result<u64, Error>
    requires inside { InTransaction S.Store P.Shelf connection.old }
    ensures within { StaysWithin S.Store P.Shelf connection.old connection.new }
    ensures opens { OnOk result (WasOpen S.Store P.Shelf connection.old connection.new) }
    ensures same { OnOk result (ChangesNothing S.Store P.Shelf connection.old connection.new) }
    ensures count { IfOk result (λ n. IsClean S.Store P.Shelf connection.new
        → n ≡ length (filter (λ (b : BlockRow). nat_lt 0 b.ord) (tables S.Store P.Shelf connection.old).blocks)) }
    ensures trouble { IfErr result (IsTroubleIf S.Store P.Shelf connection.old connection.new
        (length (filter (λ (b : BlockRow). nat_lt 0 b.ord) (tables S.Store P.Shelf connection.old).blocks) < 2 ^ 63)) }
{
    let rows = clash_rows(connection)?;
    read_total(&rows)
}
