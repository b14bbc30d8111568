//! How the rows of a query are read.

ghost use Rattle.std.specs.Prelude.{◌≡◌, List, Option, Some, true, map, option_map, slice_get, IfOk, IfErr};
ghost use Rattle.std.specs.List.{AllByRecursion};
ghost use Rattle.sqlite.specs.Order.{Row as Shown};
ghost use Rattle.bh_rows.specs.Means.{is_trouble};
ghost use Rattle.bh_tables.specs.Schema.{Octets};
ghost use Rattle.bh_tables.specs.Typed.{Tables};
ghost use Rattle.bh_schema.specs.Calls.{Reads};
ghost use Rattle.bh_base.specs.Connections.{IsClean, tables, InTransaction, IsTrouble, IsTroubleIf};
ghost use Rattle.bh_schema.specs.Reading.{Reading, lone_number, lone_text};

use bh_base::connection::Connection;
use bh_shelf::shelf::Shelf;
use sqlite::{Alter, Error, Row};
use std::alloc::Global;

/// A value that is read from a row.
pub trait FromRow: Sized {
    /// A row as a query returns it, and the meaning of the value that is read from it.
    ghost reading: { Reading Self };

    fn read(row: &Row) -> Result<Self, Error>
        ensures read { IfOk result (λ value. (t : reading.Typed) → row.now ≡ reading.shown t → reading.meaning value ≡ reading.told t) }
        ensures trouble { IfErr result (λ e. (t : reading.Typed) → row.now ≡ reading.shown t → reading.IsReadable t
            → is_trouble e ≡ true) };
}

/// A number from 0 on, alone in its row.
impl FromRow for u64 {
    ghost reading = { lone_number };

    fn read(row: &Row) -> Result<u64, Error> {
        row.get(0)
    }
}

/// A text, alone in its row.
impl FromRow for String {
    ghost reading = { lone_text };

    fn read(row: &Row) -> Result<String, Error> {
        row.get(0)
    }
}

/// A value of a tenant's list.
pub trait Listed: FromRow {
    /// The rows that the query returns.
    ghost listed: { Octets → Tables → List Shown };

    /// A tenant's values.
    fn rows<S: Alter, P: Shelf>(
        connection: &mut Connection<S, P>,
        tenant: &str,
    ) -> Result<Vec<Row>, Error>
        requires inside { InTransaction S.Store P.Shelf connection.old }
        ensures reads { Reads S.Store P.Shelf connection.old connection.new result }
        ensures rows { IfOk result (λ rows. IsClean S.Store P.Shelf connection.new
            → rows.items ≡ listed tenant.now (tables S.Store P.Shelf connection.old)) }
        ensures trouble { IfErr result (IsTrouble S.Store P.Shelf connection.old connection.new) };
}

/// The value of the first row, if there is a row.
pub fn first_of<R: FromRow>(rows: &[Row]) -> Result<Option<R>, Error>
    ensures found { IfOk result (λ found. (sought : Option (R.reading).Typed) → slice_get rows.now 0 ≡ option_map (R.reading).shown sought
        → option_map (R.reading).meaning found ≡ option_map (R.reading).told sought) }
    ensures trouble { IfErr result (λ e. (sought : Option (R.reading).Typed) → slice_get rows.now 0 ≡ option_map (R.reading).shown sought
        → ((t : (R.reading).Typed) → sought ≡ Some t → (R.reading).IsReadable t) → is_trouble e ≡ true) }
{
    match rows.first() {
        None => Ok(None),
        Some(row) => Ok(Some(R::read(row)?)),
    }
}

/// The values of all rows.
pub fn all_of<R: FromRow + Drop>(alloc: Global, rows: &[Row]) -> Result<Vec<R>, Error>
    ensures read { IfOk result (λ values. (ts : List (R.reading).Typed) → rows.now ≡ map (R.reading).shown ts
        → map (R.reading).meaning values.items ≡ map (R.reading).told ts) }
    ensures trouble { IfErr result (λ e. (ts : List (R.reading).Typed) → rows.now ≡ map (R.reading).shown ts
        → AllByRecursion (R.reading).IsReadable ts → is_trouble e ≡ true) }
{
    let mut values = Vec::new(alloc);
    for row in rows {
        values.push(R::read(row)?)?;
    }
    Ok(values)
}

/// A tenant's list of such values.
pub fn list_of<S: Alter, P: Shelf, R: Listed + Drop>(
    connection: &mut Connection<S, P>,
    alloc: Global,
    tenant: &str,
) -> Result<Vec<R>, Error>
    requires inside { InTransaction S.Store P.Shelf connection.old }
    ensures reads { Reads S.Store P.Shelf connection.old connection.new result }
    ensures listed { IfOk result (λ values. IsClean S.Store P.Shelf connection.new
        → (ts : List (R.reading).Typed) → R.listed tenant.now (tables S.Store P.Shelf connection.old) ≡ map (R.reading).shown ts
        → map (R.reading).meaning values.items ≡ map (R.reading).told ts) }
    ensures trouble { IfErr result (IsTroubleIf S.Store P.Shelf connection.old connection.new
        ((ts : List (R.reading).Typed) × (R.listed tenant.now (tables S.Store P.Shelf connection.old) ≡ map (R.reading).shown ts)
        × AllByRecursion (R.reading).IsReadable ts)) }
{
    let rows = R::rows(connection, tenant)?;
    all_of(alloc, &rows)
}
