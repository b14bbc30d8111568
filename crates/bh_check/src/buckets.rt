//! Sums by bucket: by its tenant's name and its own.

ghost use Rattle.std.specs.Prelude.{◌≡◌, ℕ, length, IfOk};
ghost use Rattle.sqlite.specs.Order.{column};
ghost use Rattle.sqlite_typed.specs.Columns.{bytes_of};
ghost use Rattle.bh_tables.specs.Bodies.{Name};
ghost use Rattle.bh_check.specs.Holds.{bucket_name, one};
ghost use Rattle.bh_check.specs.Sums.{Keeps, IsSumOf};

use crate::sums::Sums;
use bh_stored::cells::bytes_in;
use bh_stored::failure::Failure;
use sqlite_value::row::Row;
use std::alloc::{AllocError, Global};

/// Both names of a bucket, joined; its own is in this column.
fn bucket_text(alloc: Global, row: &Row, at: usize) -> Result<Vec<u8>, AllocError>
    ensures { IfOk result (λ text. text.items ≡ (bucket_name at row.now).0) }
{
    let mut text = Vec::from_slice(alloc, bytes_in(row, 1))?;
    text.extend_from_slice(bytes_in(row, at))?;
    Ok(text)
}

/// The place in a bucket's name at which its own name begins.
fn own_place(row: &Row) -> u64
    ensures { result ≡ length (bytes_of (column row.now 1)) }
{
    bytes_in(row, 1).len() as u64
}

/// The sum of the bucket whose own name is in this column.
pub fn at_bucket(alloc: Global, sums: &Sums, row: &Row, at: usize) -> Result<u64, AllocError>
    ensures { IfOk result (λ n. (of : Name → ℕ) → Keeps of sums.now → n ≡ of (bucket_name at row.now)) }
{
    let text = bucket_text(alloc, row, at)?;
    sums.at(alloc, &text, own_place(row))
}

/// The number of rows that name each bucket; its own name is in this column.
pub fn count_by_bucket(alloc: Global, rows: &[Row], at: usize) -> Result<Sums, Failure>
    ensures { IfOk result (IsSumOf (bucket_name at) one rows.now) }
{
    let mut sums = Sums::new(alloc);
    for row in rows {
        let text = bucket_text(alloc, row, at)?;
        if !sums.add(alloc, &text, own_place(row), 1)? {
            return Err(Failure::TooMuch);
        }
    }
    Ok(sums)
}
