//! The blocks, a few at a time: their digests, and what else is asked of their bytes.

ghost use Rattle.std.specs.Prelude.{◌≡◌, ◌+◌, ◌++◌, [], ℕ, List, map, IsTrue, IfOk, OnOk};
ghost use Rattle.sqlite.specs.Order.{Row as Columns};
ghost use Rattle.bh_rows.specs.Form.{typed};
ghost use Rattle.bh_tables.specs.Bodies.{Name};
ghost use Rattle.bh_tables.specs.Rows.{pack_form, place_form};
ghost use Rattle.bh_check.specs.Blocks.{AreNamed};
ghost use Rattle.bh_check.specs.Filled.{ReadsPacks, AreKnown};
ghost use Rattle.bh_check.specs.Holds.{first_two, block_length};
ghost use Rattle.bh_check.specs.Looked.{AreLookedAt};
ghost use Rattle.bh_check.specs.Sums.{Keeps, total};

use crate::filled::{Known, fill_rows};
use crate::flaw::{Flaw, Stop};
use crate::groups::first_misnamed_in;
use crate::sums::{Amount, Grouping, Sums};
use bh_schema::host::Digester;
use bh_shelf::shelf::Shelf;
use bh_stored::cells::bytes_in;
use bh_stored::failure::Failure;
use bh_stored::stored::Stored;
use sqlite_value::row::Row;
use std::alloc::{AllocError, Global};

/// How many blocks are in memory at once: as many as are hashed side by side.
const AT_ONCE: usize = 8;

/// The lengths of blocks in bytes, by name and in their order.
#[derive(Drop)]
pub struct Looked {
    pub by_name: Sums,
    pub lengths: Vec<u64>,
}

/// Adds the lengths of these blocks, in their order.
fn add_lengths(lengths: &mut Vec<u64>, rows: &[Row]) -> Result<(), AllocError>
    ensures { OnOk result (lengths.new.items ≡ lengths.old.items ++ map block_length rows.now) }
{
    for row in rows {
        lengths.push(bytes_in(row, 3).len() as u64)?;
    }
    Ok(())
}

impl Looked {
    /// Of no block.
    fn new(alloc: Global) -> Looked
        ensures names { Keeps (λ _. 0) result.by_name }
        ensures none { result.lengths.items ≡ [] }
    {
        Looked {
            by_name: Sums::new(alloc),
            lengths: Vec::new(alloc),
        }
    }

    /// Adds the lengths of these blocks.
    fn add(&mut self, alloc: Global, rows: &[Row]) -> Result<(), Failure>
        ensures names { OnOk result ((of : Name → ℕ) → Keeps of self.old.by_name
            → Keeps (λ q. of q + total first_two block_length rows.now q) self.new.by_name) }
        ensures lengths { OnOk result (self.new.lengths.items ≡ self.old.lengths.items ++ map block_length rows.now) }
    {
        let by = Grouping {
            text: 1,
            number: Some(2),
            amount: Amount::Length(3),
        };
        self.by_name.add_rows(alloc, rows, by)?;
        Ok(add_lengths(&mut self.lengths, rows)?)
    }
}

/// Looks at these blocks after others, whose lengths are there. Fails with the first whose digest isn't that of its bytes.
fn look_at<P: Shelf, D: Digester>(
    alloc: Global,
    packs: &mut P,
    known: &Known,
    stored: &Stored,
    digester: &D,
    looked: &mut Looked,
    blocks: &[Row],
) -> Result<(), Stop>
    ensures looked { OnOk result (IsTrue (P.Shelf.is_clean packs.new) → AreKnown stored.now.places.items known.now
        → AreNamed stored.now.places.items → (before : List Columns)
        → AreLookedAt (typed pack_form stored.now.packs.items) (P.Shelf.seen packs.old) (typed place_form stored.now.places.items)
        D.digest_of before looked.old
        → AreLookedAt (typed pack_form stored.now.packs.items) (P.Shelf.seen packs.old) (typed place_form stored.now.places.items)
        D.digest_of (before ++ blocks.now) looked.new) }
    ensures reads { ReadsPacks P.Shelf packs.old packs.new }
{
    let rows = fill_rows(alloc, packs, known, stored, blocks)?;
    if let Some(row) = first_misnamed_in(alloc, digester, &rows)? {
        return Err(Stop::Flaw(Flaw::Digest(row)));
    }
    looked.add(alloc, &rows)?;
    Ok(())
}

/// Looks at all blocks. No more than a few of them are in memory at once.
pub fn look<P: Shelf, D: Digester>(
    alloc: Global,
    packs: &mut P,
    known: &Known,
    stored: &Stored,
    digester: &D,
) -> Result<Looked, Stop>
    ensures looked { IfOk result (λ looked. IsTrue (P.Shelf.is_clean packs.new) → AreKnown stored.now.places.items known.now
        → AreNamed stored.now.places.items
        → AreLookedAt (typed pack_form stored.now.packs.items) (P.Shelf.seen packs.old) (typed place_form stored.now.places.items)
        D.digest_of stored.now.blocks.items looked) }
    ensures reads { ReadsPacks P.Shelf packs.old packs.new }
{
    let mut looked = Looked::new(alloc);
    let mut rest = stored.blocks.as_slice();
    'groups: while !rest.is_empty() {
        let (some, more) = rest.split_at(rest.len().min(AT_ONCE));
        look_at(alloc, packs, known, stored, digester, &mut looked, some)?;
        rest = more;
    }
    Ok(looked)
}
