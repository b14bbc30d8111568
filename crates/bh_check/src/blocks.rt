//! Blocks: their digests, and that no two have equal bytes.

ghost use Rattle.std.specs.Prelude.{◌≡◌, ◌∷◌, [], List, false, None, IsTrue, IfOk};
ghost use Rattle.std.specs.List.{AllByRecursion, list_any};
ghost use Rattle.sqlite.specs.Order.{Row as Columns, column};
ghost use Rattle.sqlite_typed.specs.Columns.{bytes_of};
ghost use Rattle.sqlite_typed.specs.Tests.{bytes_eq};
ghost use Rattle.bh_tables.specs.Schema.{Octets};
ghost use Rattle.bh_check.specs.Blocks.{block_octets, HasDigest, AreOnce};
ghost use Rattle.bh_check.specs.Filled.{ReadsPacks};
ghost use Rattle.bh_check.specs.Holds.{owner, one};
ghost use Rattle.bh_check.specs.Looked.{AreShown};
ghost use Rattle.bh_check.specs.Sums.{total};

use crate::filled::{Known, filled};
use crate::flaw::Stop;
use crate::sums::Sums;
use bh_schema::host::Digester;
use bh_shelf::shelf::Shelf;
use bh_stored::cells::{bytes_in, number_in};
use bh_stored::stored::Stored;
use sqlite_value::row::Row;
use std::alloc::Global;

/// Whether a block has the digest of its bytes.
pub(crate) fn has_digest<D: Digester>(digester: &D, row: &Row) -> bool
    ensures { IsTrue result → HasDigest D.digest_of row.now }
{
    bytes_in(row, 1) == digester.digest(bytes_in(row, 3)).as_slice()
}

/// The number of the first block whose digest isn't that of its bytes.
pub fn first_misnamed<D: Digester>(digester: &D, blocks: &[Row]) -> Option<u64>
    ensures { result ≡ None → AllByRecursion (HasDigest D.digest_of) blocks.now }
{
    for row in blocks {
        if !has_digest(digester, row) {
            return Some(number_in(row, 0));
        }
    }
    None
}

fn holds(row: &Row, bytes: &[u8]) -> bool
    ensures { result ≡ bytes_eq (block_octets row.now) bytes.now }
{
    bytes_in(row, 3) == bytes
}

fn same_digest(block: &Row, row: &Row) -> bool
    ensures { result ≡ bytes_eq (bytes_of (column block.now 1)) (bytes_of (column row.now 1)) }
{
    bytes_in(block, 1) == bytes_in(row, 1)
}

/// Whether a block has the bytes of this row, which has the digest of its bytes. Only a block of the same digest is read.
fn has_same<P: Shelf>(
    alloc: Global,
    packs: &mut P,
    known: &Known,
    stored: &Stored,
    block: &Row,
    row: &Row,
) -> Result<bool, Stop>
    ensures other { IfOk result (λ same. same ≡ false → IsTrue (P.Shelf.is_clean packs.new) → (shown : Columns)
        → AreShown (P.Shelf.seen packs.old) stored.now known.now (block.now ∷ []) (shown ∷ [])
        → (digest : Octets → Octets) → HasDigest digest shown → HasDigest digest row.now
        → bytes_eq (block_octets shown) (block_octets row.now) ≡ false) }
    ensures reads { ReadsPacks P.Shelf packs.old packs.new }
{
    if !same_digest(block, row) {
        return Ok(false);
    }
    let other = filled(alloc, packs, known, stored, block)?;
    Ok(holds(&other, bytes_in(row, 3)))
}

/// Whether one of these blocks has the bytes of this row.
fn any_has_same<P: Shelf>(
    alloc: Global,
    packs: &mut P,
    known: &Known,
    stored: &Stored,
    blocks: &[Row],
    row: &Row,
) -> Result<bool, Stop>
    ensures others { IfOk result (λ same. same ≡ false → IsTrue (P.Shelf.is_clean packs.new) → (shown : List Columns)
        → AreShown (P.Shelf.seen packs.old) stored.now known.now blocks.now shown
        → (digest : Octets → Octets) → AllByRecursion (HasDigest digest) shown → HasDigest digest row.now
        → list_any (λ r. bytes_eq (block_octets r) (block_octets row.now)) shown ≡ false) }
    ensures reads { ReadsPacks P.Shelf packs.old packs.new }
{
    for block in blocks {
        if has_same(alloc, packs, known, stored, block, row)? {
            return Ok(true);
        }
    }
    Ok(false)
}

/// Whether no earlier block has a block's bytes, given that `same` of them have its digest.
fn is_new<P: Shelf>(
    alloc: Global,
    packs: &mut P,
    known: &Known,
    stored: &Stored,
    before: &[Row],
    block: &Row,
    same: u64,
) -> Result<bool, Stop>
    ensures new { IfOk result (λ is. IsTrue is → IsTrue (P.Shelf.is_clean packs.new) → (shown : List Columns) (its : Columns)
        → AreShown (P.Shelf.seen packs.old) stored.now known.now before.now shown
        → AreShown (P.Shelf.seen packs.old) stored.now known.now (block.now ∷ []) (its ∷ [])
        → (digest : Octets → Octets) → AllByRecursion (HasDigest digest) shown → HasDigest digest its
        → same ≡ total owner one before.now (owner block.now)
        → list_any (λ r. bytes_eq (block_octets r) (block_octets its)) shown ≡ false) }
    ensures reads { ReadsPacks P.Shelf packs.old packs.new }
{
    if same == 0 {
        return Ok(true);
    }
    let row = filled(alloc, packs, known, stored, block)?;
    Ok(!any_has_same(alloc, packs, known, stored, before, &row)?)
}

/// The number of the first block that has an earlier block's bytes, provided that each has the
/// digest of its bytes.
pub fn first_again<P: Shelf>(
    alloc: Global,
    packs: &mut P,
    known: &Known,
    stored: &Stored,
    blocks: &[Row],
) -> Result<Option<u64>, Stop>
    ensures once { IfOk result (λ found. found ≡ None → IsTrue (P.Shelf.is_clean packs.new) → (shown : List Columns)
        → AreShown (P.Shelf.seen packs.old) stored.now known.now blocks.now shown
        → (digest : Octets → Octets) → AllByRecursion (HasDigest digest) shown → AreOnce shown) }
    ensures reads { ReadsPacks P.Shelf packs.old packs.new }
{
    let mut digests = Sums::new(alloc);
    for at in 0..blocks.len() {
        let row = &blocks[at];
        let digest = bytes_in(row, 1);
        let same = digests.at(alloc, digest, 0)?;
        if !is_new(alloc, packs, known, stored, &blocks[..at], row, same)? {
            return Ok(Some(number_in(row, 0)));
        }
        if !digests.add(alloc, digest, 0, 1)? {
            return Ok(Some(number_in(row, 0)));
        }
    }
    Ok(None)
}
