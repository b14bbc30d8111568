//! The numbers in the columns of a row.

ghost use Rattle.std.specs.Prelude.{◌≡◌, ℕ, ◌<◌, ◌^◌, Option, IfSome, IfOk};
ghost use Rattle.sqlite.specs.Order.{column};
ghost use Rattle.sqlite_typed.specs.Columns.{or_null};
ghost use Rattle.bh_tables.specs.Typed.{number};

use sqlite::types::ValueRef;
use sqlite::{Error, ErrorCode, Row};

/// The number in a column, from 0 on.
pub fn number_at(row: &Row, at: usize) -> Result<u64, Error>
    ensures same { IfOk result (λ n. (m : ℕ) → column row.now at ≡ number m → n ≡ m) }
    ensures small { IfOk result (λ n. n < 2 ^ 63) }
{
    match row.get_ref(at)? {
        ValueRef::Int(n) => in_range(n.unsigned_abs()),
        _ => Err(Error::SqliteFailure(ErrorCode::DatabaseCorrupt)),
    }
}

/// Checks that a column can have this number.
pub fn in_range(n: u64) -> Result<u64, Error>
    ensures same { IfOk result (λ m. m ≡ n) }
    ensures small { IfOk result (λ m. m < 2 ^ 63) }
{
    if n < 0x8000_0000_0000_0000 {
        Ok(n)
    } else {
        Err(Error::SqliteFailure(ErrorCode::DatabaseCorrupt))
    }
}

/// The number in a column, which may be NULL.
pub fn maybe_number_at(row: &Row, at: usize) -> Result<Option<u64>, Error>
    ensures same { IfOk result (λ n. (m : Option ℕ) → column row.now at ≡ or_null number m → n ≡ m) }
    ensures small { IfOk result (λ n. IfSome n (λ m. m < 2 ^ 63)) }
{
    match row.get_ref(at)? {
        ValueRef::Null => Ok(None),
        _ => Ok(Some(number_at(row, at)?)),
    }
}
