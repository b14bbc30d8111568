//! The places of references.

ghost use Rattle.std.specs.Prelude.{◌≡◌, None, IfOk};
ghost use Rattle.bh_check.specs.Placed.{IsPlaced};

use crate::sums::Sums;
use bh_stored::cells::{bytes_in, number_in};
use sqlite_value::row::Row;
use std::alloc::{AllocError, Global};

/// The number of the first reference that isn't at the place after the earlier ones of its body: 0,
/// 1, ..
pub fn first_misplaced(alloc: Global, rows: &[Row]) -> Result<Option<u64>, AllocError>
    ensures { IfOk result (λ found. found ≡ None → IsPlaced (λ _. 0) rows.now) }
{
    let mut counts = Sums::new(alloc);
    for row in rows {
        let tenant = bytes_in(row, 1);
        let body = number_in(row, 2);
        let count = counts.at(alloc, tenant, body)?;
        if number_in(row, 3) != count {
            return Ok(Some(number_in(row, 0)));
        }
        if !counts.add(alloc, tenant, body, 1)? {
            return Ok(Some(number_in(row, 0)));
        }
    }
    Ok(None)
}
