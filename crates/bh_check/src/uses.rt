//! The number of references to each block.

ghost use Rattle.std.specs.Prelude.{◌≡◌, ℕ, length, None, IsTrue, IfOk};
ghost use Rattle.bh_tables.specs.Bodies.{Name};
ghost use Rattle.bh_check.specs.Blocks.{IsUseOf, AreUses};
ghost use Rattle.bh_check.specs.Sums.{Keeps};

use crate::sums::Sums;
use bh_stored::cells::{bytes_in, number_in};
use sqlite_value::row::Row;
use std::alloc::{AllocError, Global};

/// Whether a row has a block's name and the right count of references.
fn counts(used: &Row, block: &Row, count: u64) -> bool
    ensures { IsTrue result → IsUseOf (λ _. count) used.now block.now }
{
    bytes_in(used, 1) == bytes_in(block, 1)
        && number_in(used, 2) == number_in(block, 2)
        && number_in(used, 3) == count
}

/// Whether a row has a block's number of references.
fn is_use_of(alloc: Global, used: &Row, block: &Row, refs: &Sums) -> Result<bool, AllocError>
    ensures { IfOk result (λ b. IsTrue b → (of : Name → ℕ) → Keeps of refs.now → IsUseOf of used.now block.now) }
{
    let digest = bytes_in(block, 1);
    let ord = number_in(block, 2);
    let count = refs.at(alloc, digest, ord)?;
    Ok(counts(used, block, count))
}

/// The number of the first block whose count of uses, in the row at its place, is wrong, given as
/// many counts as blocks.
pub fn first_miscounted(
    alloc: Global,
    uses: &[Row],
    blocks: &[Row],
    refs: &Sums,
) -> Result<Option<u64>, AllocError>
    requires { length uses.now ≡ length blocks.now }
    ensures { IfOk result (λ found. found ≡ None → (of : Name → ℕ) → Keeps of refs.now → AreUses of uses.now blocks.now) }
{
    for at in 0..blocks.len() {
        if !is_use_of(alloc, &uses[at], &blocks[at], refs)? {
            return Ok(Some(number_in(&blocks[at], 0)));
        }
    }
    Ok(None)
}
