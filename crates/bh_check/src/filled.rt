//! The rows of blocks with the bytes of their places in packs.

ghost use Rattle.std.specs.Prelude.{◌≡◌, ◌∷◌, ◌++◌, [], ◌+◌, true, None, Some, IsTrue, IfOk, OnOk, MatchOption};
ghost use Rattle.sqlite.specs.Order.{column};
ghost use Rattle.sqlite.specs.declared.types.Value.TheVariants.{Blob};
ghost use Rattle.bh_rows.specs.Form.{typed};
ghost use Rattle.bh_tables.specs.Schema.{Octets};
ghost use Rattle.bh_tables.specs.Rows.{pack_form, place_form, place_of};
ghost use Rattle.bh_tables.specs.Packs.{place_at, is_reached};
ghost use Rattle.bh_check.specs.Blocks.{AreNamed};
ghost use Rattle.bh_check.specs.Filled.{ReadsPacks, IsFilledFrom, IsFilled, AreFilled, AreKnown};
ghost use Rattle.bh_check.specs.Holds.{first_two};

use crate::checksums::is_of;
use crate::flaw::{Flaw, Stop};
use crate::sums::{Amount, Grouping, Sums, first_places, sums_of};
use bh_packs::place::Place;
use bh_packs::trouble::Trouble;
use bh_shelf::shelf::Shelf;
use bh_stored::cells::{bytes_in, number_in};
use bh_stored::failure::Failure;
use bh_stored::stored::Stored;
use sqlite_trees::error::StoreError;
use sqlite_value::row::Row;
use sqlite_value::value::ValueRef;
use std::alloc::{AllocError, Global};

/// Where the rows of places and of packs are. A place of the list is a hint, counted from 1: the row is
/// looked at again.
#[derive(Drop)]
pub struct Known {
    /// How many places each block has.
    pub counts: Sums,
    /// The first place of each block.
    pub places: Sums,
    /// The first row of each pack.
    pub packs: Sums,
}

impl Known {
    pub fn of(alloc: Global, places: &[Row], packs: &[Row]) -> Result<Known, Failure>
        ensures { IfOk result (AreKnown places.now) }
    {
        let block = Grouping {
            text: 1,
            number: Some(2),
            amount: Amount::One,
        };
        let pack = Grouping {
            text: 1,
            number: Some(1),
            amount: Amount::One,
        };
        Ok(Known {
            counts: sums_of(alloc, places, block)?,
            places: first_places(alloc, places, block)?,
            packs: first_places(alloc, packs, pack)?,
        })
    }
}

/// The integer in a column; 0 for another value.
fn int_in(row: &Row, at: usize) -> i64 {
    match row.get(at) {
        ValueRef::Int(n) => n,
        _ => 0,
    }
}

/// The place in a row.
fn place_in(row: &Row) -> Place
    ensures pack { result.pack ≡ (place_of row.now).pack }
    ensures offset { result.offset ≡ (place_of row.now).offset }
    ensures size { result.size ≡ (place_of row.now).size }
{
    Place {
        pack: number_in(row, 3) as usize,
        offset: number_in(row, 4) as usize,
        size: number_in(row, 5) as usize,
        sum: int_in(row, 6).cast_unsigned(),
    }
}

/// Whether the pack at this place of the list, counted from 1, is this one and has so many bytes.
fn reaches(packs: &[Row], at: u64, pack: u64, end: u64) -> bool
    ensures { IsTrue result → is_reached (typed pack_form packs.now) pack end ≡ true }
{
    let Some(row) = packs.get(at.saturating_sub(1) as usize) else {
        return false;
    };
    number_in(row, 1) == pack && end <= number_in(row, 2)
}

/// Whether a place ends at or below the length of its pack.
fn is_below(alloc: Global, packs: &[Row], known: &Known, place: Place) -> Result<bool, AllocError>
    ensures { IfOk result (λ below. IsTrue below → is_reached (typed pack_form packs.now) place.pack (place.offset + place.size) ≡ true) }
{
    let Some(end) = place.offset.checked_add(place.size) else {
        return Ok(false);
    };
    let pack = place.pack as u64;
    let at = known.packs.at(alloc, &[], pack)?;
    Ok(reaches(packs, at, pack, end as u64))
}

/// The row at this place of the list, counted from 1, if it is of this block.
fn named_at<'a>(places: &'a [Row], at: u64, digest: &[u8], ord: u64) -> Result<&'a Row, Stop>
    ensures { IfOk result (λ row. AreNamed places.now
        → place_at (typed place_form places.now) (digest.now, ord) ≡ Some (place_of row.now)) }
{
    let Some(row) = places.get(at.saturating_sub(1) as usize) else {
        return Err(Stop::Store(StoreError::Corrupt));
    };
    if is_of(row, digest, ord) {
        Ok(row)
    } else {
        Err(Stop::Store(StoreError::Corrupt))
    }
}

/// The row of a block's place, if it has one.
fn place_row<'a>(
    alloc: Global,
    places: &'a [Row],
    known: &Known,
    block: &Row,
) -> Result<Option<&'a Row>, Stop>
    ensures { IfOk result (λ found. AreKnown places.now known.now → AreNamed places.now
        → MatchOption found (place_at (typed place_form places.now) (first_two block.now) ≡ None)
        (λ row. place_at (typed place_form places.now) (first_two block.now) ≡ Some (place_of row.now))) }
{
    let digest = bytes_in(block, 1);
    let ord = number_in(block, 2);
    let count = known.counts.at(alloc, digest, ord)?;
    if count == 0 {
        return Ok(None);
    }
    let at = known.places.at(alloc, digest, ord)?;
    Ok(Some(named_at(places, at, digest, ord)?))
}

/// Why bytes couldn't be read: there is no memory, or packs haven't got them. The place has this row.
fn stop_of(trouble: Trouble, row: u64) -> Stop {
    match trouble {
        Trouble::Memory => Stop::Store(StoreError::OutOfMemory),
        _ => Stop::Flaw(Flaw::Unread(row)),
    }
}

/// The bytes of a place.
fn bytes_at<P: Shelf>(alloc: Global, packs: &mut P, place: Place, row: u64) -> Result<Vec<u8>, Stop>
    ensures bytes { IfOk result (λ bytes. IsTrue (P.Shelf.is_clean packs.new) → (its : Octets)
        → P.Shelf.seen packs.old place.pack place.offset place.size ≡ Some its → bytes.items ≡ its) }
    ensures reads { ReadsPacks P.Shelf packs.old packs.new }
{
    let mut room = vec![in alloc; 0u8; place.size]?;
    match packs.read(place, room.as_mut_slice()) {
        Ok(()) => Ok(room),
        Err(trouble) => Err(stop_of(trouble, row)),
    }
}

/// A block's row with these bytes.
fn with_bytes(alloc: Global, block: &Row, bytes: &[u8]) -> Result<Row, AllocError>
    ensures { IfOk result (λ row. row ≡ column block.now 0 ∷ column block.now 1 ∷ column block.now 2 ∷ Blob bytes.now ∷ []) }
{
    let mut row = Row::new(alloc);
    row.push(block.get(0))?;
    row.push(block.get(1))?;
    row.push(block.get(2))?;
    row.push(ValueRef::Blob(bytes))?;
    Ok(row)
}

/// A block's row with the bytes of the place in this row.
fn filled_from<P: Shelf>(
    alloc: Global,
    packs: &mut P,
    known: &Known,
    rows: &[Row],
    place: &Row,
    block: &Row,
) -> Result<Row, Stop>
    ensures row { IfOk result (λ row. IsTrue (P.Shelf.is_clean packs.new)
        → IsFilledFrom (typed pack_form rows.now) (P.Shelf.seen packs.old) (place_of place.now) block.now row) }
    ensures reads { ReadsPacks P.Shelf packs.old packs.new }
{
    let its = place_in(place);
    let number = number_in(place, 0);
    if its.size == 0 || !bytes_in(block, 3).is_empty() || !is_below(alloc, rows, known, its)? {
        return Err(Stop::Flaw(Flaw::Placed(number)));
    }
    let bytes = bytes_at(alloc, packs, its, number)?;
    Ok(with_bytes(alloc, block, &bytes)?)
}

/// A block's row with the bytes of its place; with its own, if it has none.
pub(crate) fn filled<P: Shelf>(
    alloc: Global,
    packs: &mut P,
    known: &Known,
    stored: &Stored,
    block: &Row,
) -> Result<Row, Stop>
    ensures row { IfOk result (λ row. IsTrue (P.Shelf.is_clean packs.new) → AreKnown stored.now.places.items known.now
        → AreNamed stored.now.places.items → IsFilled (typed pack_form stored.now.packs.items) (P.Shelf.seen packs.old)
        (place_at (typed place_form stored.now.places.items) (first_two block.now)) block.now row) }
    ensures reads { ReadsPacks P.Shelf packs.old packs.new }
{
    match place_row(alloc, &stored.places, known, block)? {
        None => Ok(block.copy(alloc)?),
        Some(place) => filled_from(alloc, packs, known, &stored.packs, place, block),
    }
}

/// Adds a row.
pub(crate) fn add(rows: &mut Vec<Row>, row: Row) -> Result<(), AllocError>
    ensures { OnOk result (rows.new.items ≡ rows.old.items ++ row ∷ []) }
{
    match rows.push(row) {
        Ok(()) => Ok(()),
        Err(error) => Err(AllocError::from(error)),
    }
}

/// The rows of these blocks with the bytes of their places.
pub(crate) fn fill_rows<P: Shelf>(
    alloc: Global,
    packs: &mut P,
    known: &Known,
    stored: &Stored,
    blocks: &[Row],
) -> Result<Vec<Row>, Stop>
    ensures rows { IfOk result (λ rows. IsTrue (P.Shelf.is_clean packs.new) → AreKnown stored.now.places.items known.now
        → AreNamed stored.now.places.items → AreFilled (typed pack_form stored.now.packs.items) (P.Shelf.seen packs.old)
        (typed place_form stored.now.places.items) blocks.now rows.items) }
    ensures reads { ReadsPacks P.Shelf packs.old packs.new }
{
    let mut rows = Vec::new(alloc);
    for block in blocks {
        let row = filled(alloc, packs, known, stored, block)?;
        add(&mut rows, row)?;
    }
    Ok(rows)
}
