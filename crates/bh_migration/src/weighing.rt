//! Counts the bytes of the blocks that no reference names. This runs once for a host, and reads each
//! block once.

ghost use Rattle.std.specs.Prelude.{◌≡◌, ◌∷◌, [], ◌≤◌, ◌^◌, true, IfOk, IfErr, OnOk};
ghost use Rattle.bh_rows.specs.Means.{is_trouble};
ghost use Rattle.bh_tables.specs.Bodies.{unneeded};
ghost use Rattle.bh_tables.specs.Schema.{host_schema};
ghost use Rattle.bh_tables.specs.Typed.{Totals, Tables, IsHostBy, weight, totals_of, number as stored};
ghost use Rattle.bh_base.specs.Databases.{Reads, MayRead};
ghost use Rattle.bh_base.specs.Databases.{IsClean, stands, tables, StaysWithin, StaysOpen};
ghost use Rattle.bh_base.specs.Layer.{Holds, HoldsBy};
ghost use Rattle.bh_migration.specs.Migration.{HasSchema};
ghost use Rattle.bh_migration.specs.Tallying.{HoldsUnweighed};

use crate::tallying::as_trouble;
use bh_schema::rows::counts::read_total;
use bh_schema::rows::number::number;
use bh_schema::rows::writing::write;
use sqlite::{Alter, Connection, Error, ErrorCode, Row};

/// Checks that the column can have this number.
fn in_column(n: u64) -> Result<u64, Error>
    ensures same { IfOk result (λ m. m ≡ n) }
    ensures small { IfOk result (λ m. m ≤ 2 ^ 62) }
{
    if n > 1 << 62 {
        return Err(Error::SqliteFailure(ErrorCode::DatabaseCorrupt));
    }
    Ok(n)
}

fn unneeded_rows<S: Alter>(connection: &mut Connection<S>) -> Result<Vec<Row>, Error>
    requires { IsClean S.Store connection.old → HasSchema host_schema (stands S.Store connection.old) }
    ensures reads { Reads S.Store connection.old connection.new result }
    ensures rows { IfOk result (λ rows. IsClean S.Store connection.new
        → (sums : Totals) → IsHostBy sums (stands S.Store connection.old).now
        → rows.items ≡ (stored (unneeded (tables S.Store connection.old).refs (tables S.Store connection.old).blocks) ∷ []) ∷ []) }
{
    connection.query_all(
        "SELECT coalesce(sum(length(bytes)), 0) FROM blocks WHERE NOT EXISTS (SELECT 1 FROM refs WHERE refs.digest = blocks.digest AND refs.ord = blocks.ord)",
        &[],
    )
}

/// The bytes of the blocks that no reference names.
fn unneeded_bytes<S: Alter>(connection: &mut Connection<S>) -> Result<u64, Error>
    requires { IsClean S.Store connection.old → HasSchema host_schema (stands S.Store connection.old) }
    ensures reads { MayRead S.Store connection.old connection.new result }
    ensures sums { IfOk result (λ n. IsClean S.Store connection.new
        → (sums : Totals) → IsHostBy sums (stands S.Store connection.old).now
        → n ≡ unneeded (tables S.Store connection.old).refs (tables S.Store connection.old).blocks) }
    ensures small { IfOk result (λ n. n ≤ 2 ^ 62) }
{
    let rows = unneeded_rows(connection)?;
    in_column(read_total(&rows)?)
}

fn insert<S: Alter>(connection: &mut Connection<S>, bytes: u64) -> Result<usize, Error>
    requires schema { IsClean S.Store connection.old → HasSchema host_schema (stands S.Store connection.old) }
    requires small { bytes ≤ 2 ^ 62 }
    ensures within { StaysWithin S.Store connection.old connection.new }
    ensures opens { OnOk result (StaysOpen S.Store connection.old connection.new) }
    ensures keeps { OnOk result (IsClean S.Store connection.new → HasSchema host_schema (stands S.Store connection.new)) }
    ensures adds { OnOk result (IsClean S.Store connection.new → (t : Tables) → HoldsUnweighed t (stands S.Store connection.old)
        → HoldsBy (record (totals_of t) { garbage = weight bytes ∷ [] }) t (stands S.Store connection.new)) }
{
    write(
        connection,
        "INSERT INTO unneeded (bytes) VALUES (?1)",
        &[number(bytes)],
    )
}

fn weigh_all<S: Alter>(connection: &mut Connection<S>) -> Result<usize, Error>
    requires { IsClean S.Store connection.old → HasSchema host_schema (stands S.Store connection.old) }
    ensures within { StaysWithin S.Store connection.old connection.new }
    ensures opens { OnOk result (StaysOpen S.Store connection.old connection.new) }
    ensures keeps { OnOk result (IsClean S.Store connection.new → HasSchema host_schema (stands S.Store connection.new)) }
    ensures holds { OnOk result (IsClean S.Store connection.new → (t : Tables) → HoldsUnweighed t (stands S.Store connection.old)
        → Holds t (stands S.Store connection.new)) }
{
    let bytes = unneeded_bytes(connection)?;
    insert(connection, bytes)
}

/// Adds the row of what nobody needs, in a host's database that has none yet.
pub fn weigh<S: Alter>(connection: &mut Connection<S>) -> Result<(), Error>
    requires { IsClean S.Store connection.old → HasSchema host_schema (stands S.Store connection.old) }
    ensures within { StaysWithin S.Store connection.old connection.new }
    ensures opens { OnOk result (StaysOpen S.Store connection.old connection.new) }
    ensures keeps { OnOk result (IsClean S.Store connection.new → HasSchema host_schema (stands S.Store connection.new)) }
    ensures holds { OnOk result (IsClean S.Store connection.new → (t : Tables) → HoldsUnweighed t (stands S.Store connection.old)
        → Holds t (stands S.Store connection.new)) }
    ensures trouble { IfErr result (λ e. is_trouble e ≡ true) }
{
    match weigh_all(connection) {
        Ok(_) => Ok(()),
        Err(error) => Err(as_trouble(error)),
    }
}
