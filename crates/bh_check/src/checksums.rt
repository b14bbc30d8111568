//! The checksums of parts.

ghost use Rattle.std.specs.Prelude.{◌≡◌, ◌++◌, List, None, IsTrue, IfOk, IfSome, OnOk};
ghost use Rattle.std.specs.List.{AllByRecursion, AllZip, list_all};
ghost use Rattle.sqlite.specs.Order.{Row as Columns};
ghost use Rattle.sqlite.specs.Tree.{Trees};
ghost use Rattle.bh_rows.specs.Form.{typed};
ghost use Rattle.bh_types.specs.Checksums.{checksum_text};
ghost use Rattle.bh_tables.specs.Bodies.{same_name, block_at};
ghost use Rattle.bh_tables.specs.Typed.{block_form};
ghost use Rattle.bh_tables.specs.Rows.{PackRow, PlaceRow};
ghost use Rattle.bh_shelf.specs.Contents.{Contents};
ghost use Rattle.bh_check.specs.Blocks.{block_octets, AreNamed, refs_of, named_octets, HasChecksum};
ghost use Rattle.bh_check.specs.Filled.{ReadsPacks};
ghost use Rattle.bh_check.specs.Looked.{AreReadOf, IsShownAs, AreShown, HasBlock};
ghost use Rattle.bh_check.specs.Holds.{first_two, part_body, ref_block, one, AreBodyTotals};
ghost use Rattle.bh_check.specs.Sums.{total};

use crate::filled::{Known, filled};
use crate::flaw::Stop;
use crate::sums::{Amount, Grouping, Sums, first_places};
use crate::totals::Totals;
use bh_shelf::shelf::Shelf;
use bh_stored::cells::{bytes_in, number_in};
use bh_stored::failure::Failure;
use bh_stored::stored::Stored;
use bh_types::checksum::checksum_of;
use sqlite_value::row::Row;
use std::alloc::{AllocError, Global};

/// The first row of each name, counted from 1. It is a hint: the row is checked again.
#[derive(Drop)]
pub struct Places {
    /// The first reference of each body.
    pub refs: Sums,
    pub blocks: Sums,
}

impl Places {
    pub fn of(alloc: Global, stored: &Stored) -> Result<Places, Failure> {
        let by = Grouping {
            text: 1,
            number: Some(2),
            amount: Amount::One,
        };
        Ok(Places {
            refs: first_places(alloc, &stored.refs, by)?,
            blocks: first_places(alloc, &stored.blocks, by)?,
        })
    }
}

/// Whether a row's first two columns are these.
pub(crate) fn is_of(row: &Row, text: &[u8], number: u64) -> bool
    ensures { result ≡ same_name (first_two row.now) (text.now, number) }
{
    bytes_in(row, 1) == text && number_in(row, 2) == number
}

/// The row of a block, if it is the one at this place, counted from 1.
fn block_with<'a>(blocks: &'a [Row], place: u64, digest: &[u8], ord: u64) -> Option<&'a Row>
    ensures { IfSome result (λ row. (rows : List PackRow) (packs : Contents) (places : List PlaceRow) (shown : List Columns)
        → AllZip (IsShownAs rows packs places) blocks.now shown → AreNamed shown
        → HasBlock rows packs places shown (digest.now, ord) row.now) }
{
    let row = blocks.get(place.saturating_sub(1) as usize)?;
    if is_of(row, digest, ord) {
        Some(row)
    } else {
        None
    }
}

/// The row of the block that a reference names, with its bytes, if it exists.
fn block_named<P: Shelf>(
    alloc: Global,
    packs: &mut P,
    known: &Known,
    stored: &Stored,
    places: &Sums,
    refer: &Row,
) -> Result<Option<Row>, Stop>
    ensures block { IfOk result (λ found. IfSome found (λ row. IsTrue (P.Shelf.is_clean packs.new) → (shown : List Columns)
        → AreShown (P.Shelf.seen packs.old) stored.now known.now stored.now.blocks.items shown → AreNamed shown
        → block_octets row ≡ block_at (typed block_form shown) (ref_block refer.now))) }
    ensures reads { ReadsPacks P.Shelf packs.old packs.new }
{
    let digest = bytes_in(refer, 4);
    let ord = number_in(refer, 5);
    let place = places.at(alloc, digest, ord)?;
    let Some(block) = block_with(&stored.blocks, place, digest, ord) else {
        return Ok(None);
    };
    Ok(Some(filled(alloc, packs, known, stored, block)?))
}

/// Appends the bytes of a block.
fn append(bytes: &mut Vec<u8>, block: &Row) -> Result<(), AllocError>
    ensures { OnOk result (bytes.new.items ≡ bytes.old.items ++ block_octets block.now) }
{
    bytes.extend_from_slice(bytes_in(block, 3))
}

/// The bytes of the blocks that references name, if all blocks exist.
fn bytes_named<P: Shelf>(
    alloc: Global,
    packs: &mut P,
    known: &Known,
    stored: &Stored,
    places: &Sums,
    refs: &[Row],
) -> Result<Option<Vec<u8>>, Stop>
    ensures bytes { IfOk result (λ found. IfSome found (λ bytes. IsTrue (P.Shelf.is_clean packs.new) → (shown : List Columns)
        → AreShown (P.Shelf.seen packs.old) stored.now known.now stored.now.blocks.items shown → AreNamed shown
        → bytes.items ≡ named_octets shown refs.now)) }
    ensures reads { ReadsPacks P.Shelf packs.old packs.new }
{
    let mut bytes = Vec::new(alloc);
    for row in refs {
        let Some(block) = block_named(alloc, packs, known, stored, places, row)? else {
            return Ok(None);
        };
        append(&mut bytes, &block)?;
    }
    Ok(Some(bytes))
}

/// Whether all references are of this body.
fn are_of(refs: &[Row], tenant: &[u8], body: u64) -> bool
    ensures { result ≡ list_all (λ r. same_name (first_two r) (tenant.now, body)) refs.now }
{
    refs.iter().all(|row| is_of(row, tenant, body))
}

/// The references of a body, if they are the `count` rows from this place on, counted from 1.
fn refs_from<'a>(
    refs: &'a [Row],
    place: u64,
    count: u64,
    tenant: &[u8],
    body: u64,
) -> Option<&'a [Row]>
    ensures { IfSome result (λ found. count ≡ total first_two one refs.now (tenant.now, body)
        → found.now ≡ refs_of refs.now (tenant.now, body)) }
{
    let (_, rest) = refs.split_at_checked(place.saturating_sub(1) as usize)?;
    let (found, _) = rest.split_at_checked(count as usize)?;
    if are_of(found, tenant, body) {
        Some(found)
    } else {
        None
    }
}

/// The references of a part's body, if they follow one another.
fn part_refs<'a>(
    alloc: Global,
    part: &Row,
    stored: &'a Stored,
    totals: &Totals,
    places: &Places,
) -> Result<Option<&'a [Row]>, AllocError>
    ensures { IfOk result (λ found. IfSome found (λ refs. (d : Trees) → AreReadOf d stored.now → AreBodyTotals d totals.now.bodies
        → refs.now ≡ refs_of (d 12) (part_body part.now))) }
{
    let tenant = bytes_in(part, 1);
    let body = number_in(part, 7);
    let count = totals.bodies.refs.at(alloc, tenant, body)?;
    let place = places.refs.at(alloc, tenant, body)?;
    Ok(refs_from(&stored.refs, place, count, tenant, body))
}

/// Whether a checksum is that of some bytes.
fn is_checksum(alloc: Global, text: &[u8], bytes: &[u8]) -> Result<bool, AllocError>
    ensures { IfOk result (λ b. IsTrue b → text.now ≡ checksum_text bytes.now) }
{
    let sum = checksum_of(alloc, bytes)?;
    Ok(text == sum.as_str().as_bytes())
}

/// Whether a part's checksum is that of the bytes of its body.
fn has_checksum<P: Shelf>(
    alloc: Global,
    packs: &mut P,
    known: &Known,
    stored: &Stored,
    totals: &Totals,
    places: &Places,
    part: &Row,
) -> Result<bool, Stop>
    ensures sum { IfOk result (λ b. IsTrue b → IsTrue (P.Shelf.is_clean packs.new) → (d : Trees) → AreReadOf d stored.now
        → AreShown (P.Shelf.seen packs.old) stored.now known.now stored.now.blocks.items (d 10)
        → AreBodyTotals d totals.now.bodies → AreNamed (d 10) → HasChecksum (d 12) (d 10) part.now) }
    ensures reads { ReadsPacks P.Shelf packs.old packs.new }
{
    let Some(refs) = part_refs(alloc, part, stored, totals, places)? else {
        return Ok(false);
    };
    match bytes_named(alloc, packs, known, stored, &places.blocks, refs)? {
        Some(bytes) => Ok(is_checksum(alloc, bytes_in(part, 5), &bytes)?),
        None => Ok(false),
    }
}

/// The number of the first part whose checksum isn't that of its body's bytes.
pub fn first_missummed<P: Shelf>(
    alloc: Global,
    packs: &mut P,
    known: &Known,
    stored: &Stored,
    totals: &Totals,
    places: &Places,
) -> Result<Option<u64>, Stop>
    ensures sums { IfOk result (λ found. found ≡ None → IsTrue (P.Shelf.is_clean packs.new) → (d : Trees) → AreReadOf d stored.now
        → AreShown (P.Shelf.seen packs.old) stored.now known.now stored.now.blocks.items (d 10)
        → AreBodyTotals d totals.now.bodies → AreNamed (d 10) → AllByRecursion (HasChecksum (d 12) (d 10)) (d 18)) }
    ensures reads { ReadsPacks P.Shelf packs.old packs.new }
{
    for part in &stored.parts {
        if !has_checksum(alloc, packs, known, stored, totals, places, part)? {
            return Ok(Some(number_in(part, 0)));
        }
    }
    Ok(None)
}
