//! The bytes of the blocks that no reference names.

ghost use Rattle.std.specs.Prelude.{◌≡◌, ◌+◌, ◌∷◌, [], map, IsTrue, IfOk};
ghost use Rattle.bh_check.specs.Garbage.{unused_in, unused_size};
ghost use Rattle.bh_check.specs.Holds.{number_at};

use bh_stored::cells::number_in;
use bh_stored::failure::Failure;
use sqlite_value::row::Row;

/// A number of bytes, with those of a block of this length if its count of uses is 0.
fn with_unused(bytes: u64, used: &Row, length: u64) -> Result<u64, Failure>
    ensures { IfOk result (λ n. n ≡ bytes + unused_in used.now length) }
{
    if number_in(used, 3) != 0 {
        return Ok(bytes);
    }
    match bytes.checked_add(length) {
        Some(more) => Ok(more),
        None => Err(Failure::TooMuch),
    }
}

/// The bytes of the blocks, of these lengths, whose counts of uses, in the rows at their places, are 0.
pub fn unused_bytes(uses: &[Row], lengths: &[u64]) -> Result<u64, Failure>
    ensures { IfOk result (λ n. n ≡ unused_size uses.now lengths.now) }
{
    let mut bytes: u64 = 0;
    for (used, length) in uses.iter().zip(lengths) {
        bytes = with_unused(bytes, used, *length)?;
    }
    Ok(bytes)
}

/// Whether one row has this number of bytes, and there is no other.
pub fn has_bytes(rows: &[Row], bytes: u64) -> bool
    ensures { IsTrue result → map (number_at 2) rows.now ≡ bytes ∷ [] }
{
    match rows {
        [row] => number_in(row, 2) == bytes,
        _ => false,
    }
}
