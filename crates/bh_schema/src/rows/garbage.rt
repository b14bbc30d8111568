//! How many bytes the blocks have that no reference names. Their number has a row of its own, so
//! that no block is read for it.

ghost use Rattle.std.specs.Prelude.{◌≡◌, ◌+◌, ◌≤◌, ◌^◌, [], true, Some, IfOk, IfErr, OnOk};
ghost use Rattle.bh_rows.specs.Means.{is_trouble};
ghost use Rattle.bh_schema.specs.Calls.{Reads, WritesOn};
ghost use Rattle.bh_base.specs.Connections.{IsClean, stands, tables, InTransaction, InMidst, Rewrites, IsTrouble, IsTroubleIf};
ghost use Rattle.bh_schema.specs.Garbage.{garbage_in, weight_added, weight_set, Reweighs};
ghost use Rattle.bh_base.specs.Layer.{IsInsideBy};
ghost use Rattle.bh_tables.specs.Typed.{Totals};

use crate::rows::number::number;
use crate::rows::reading::first_of;
use crate::rows::writing::write;
use bh_base::connection::Connection;
use bh_shelf::shelf::Shelf;
use sqlite::{Alter, Error, ErrorCode};

/// The number, if it has a row. Only that is read.
fn find_garbage<S: Alter, P: Shelf>(connection: &mut Connection<S, P>) -> Result<Option<u64>, Error>
    requires inside { InTransaction S.Store P.Shelf connection.old }
    ensures reads { Reads S.Store P.Shelf connection.old connection.new result }
    ensures found { IfOk result (λ found. IsClean S.Store P.Shelf connection.new
        → found ≡ Some (garbage_in (tables S.Store P.Shelf connection.old))) }
    ensures trouble { IfErr result (IsTrouble S.Store P.Shelf connection.old connection.new) }
{
    let rows = connection
        .database
        .query_all("SELECT bytes FROM unneeded ORDER BY rowid", &[])?;
    first_of(&rows)
}

/// How many bytes the blocks have that no reference names. Only one row is read.
pub fn garbage_bytes<S: Alter, P: Shelf>(connection: &mut Connection<S, P>) -> Result<u64, Error>
    requires inside { InTransaction S.Store P.Shelf connection.old }
    ensures reads { Reads S.Store P.Shelf connection.old connection.new result }
    ensures is { IfOk result (λ bytes. IsClean S.Store P.Shelf connection.new
        → bytes ≡ garbage_in (tables S.Store P.Shelf connection.old)) }
    ensures trouble { IfErr result (IsTrouble S.Store P.Shelf connection.old connection.new) }
{
    match find_garbage(connection)? {
        Some(bytes) => Ok(bytes),
        None => Err(Error::SqliteFailure(ErrorCode::DatabaseCorrupt)),
    }
}

/// Adds the row of the number, as one step of a write.
pub fn insert_garbage<S: Alter, P: Shelf>(
    connection: &mut Connection<S, P>,
    bytes: u64,
) -> Result<usize, Error>
    requires midst { InMidst S.Store P.Shelf connection.old }
    requires small { bytes ≤ 2 ^ 62 }
    ensures writes { WritesOn S.Store P.Shelf connection.old connection.new result }
    ensures rewrites { OnOk result (Rewrites S.Store P.Shelf connection.old connection.new (weight_added bytes) (λ rows. rows)) }
    ensures trouble { IfErr result (IsTroubleIf S.Store P.Shelf connection.old connection.new (IsClean S.Store P.Shelf connection.old
        → (sums : Totals) → IsInsideBy sums (stands S.Store P.Shelf connection.old) → sums.garbage ≡ [])) }
{
    write(
        &mut connection.database,
        "INSERT INTO unneeded (bytes) VALUES (?1)",
        &[number(bytes)],
    )
}

/// Sets the number, as one step of a write.
fn set_garbage<S: Alter, P: Shelf>(
    connection: &mut Connection<S, P>,
    bytes: u64,
) -> Result<usize, Error>
    requires midst { InMidst S.Store P.Shelf connection.old }
    requires small { bytes ≤ 2 ^ 62 }
    ensures writes { WritesOn S.Store P.Shelf connection.old connection.new result }
    ensures rewrites { OnOk result (Rewrites S.Store P.Shelf connection.old connection.new (weight_set bytes) (λ rows. rows)) }
    ensures trouble { IfErr result (IsTrouble S.Store P.Shelf connection.old connection.new) }
{
    write(
        &mut connection.database,
        "UPDATE unneeded SET bytes = ?1",
        &[number(bytes)],
    )
}

/// A number plus `more` and minus `less`. No column has one above 2^62.
fn reweighed(n: u64, more: u64, less: u64) -> Result<u64, Error>
    ensures weighed { IfOk result (λ m. m + less ≡ n + more) }
    ensures small { IfOk result (λ m. m ≤ 2 ^ 62) }
    ensures trouble { IfErr result (λ e. is_trouble e ≡ true) }
{
    let Some(sum) = n.checked_add(more) else {
        return Err(Error::SqliteFailure(ErrorCode::DatabaseCorrupt));
    };
    let Some(rest) = sum.checked_sub(less) else {
        return Err(Error::SqliteFailure(ErrorCode::DatabaseCorrupt));
    };
    if rest > 1 << 62 {
        return Err(Error::SqliteFailure(ErrorCode::DatabaseCorrupt));
    }
    Ok(rest)
}

/// Sets the number, which was `before`, for blocks of `more` bytes that lost their last use and of
/// `less` bytes that got a use or went: as one step of a write.
pub fn reweigh<S: Alter, P: Shelf>(
    connection: &mut Connection<S, P>,
    before: u64,
    more: u64,
    less: u64,
) -> Result<(), Error>
    requires midst { InMidst S.Store P.Shelf connection.old }
    ensures writes { WritesOn S.Store P.Shelf connection.old connection.new result }
    ensures rewrites { OnOk result (Reweighs S.Store P.Shelf connection.old connection.new before more less) }
    ensures trouble { IfErr result (IsTrouble S.Store P.Shelf connection.old connection.new) }
{
    let bytes = reweighed(before, more, less)?;
    set_garbage(connection, bytes)?;
    Ok(())
}
