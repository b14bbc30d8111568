//! What can't be read of a host whose packs lack bytes, or have wrong ones.

ghost use Rattle.std.specs.Prelude.{◌≡◌, ◌+◌, ◌++◌, ◌∷◌, [], if◌then◌else◌, ◌⊎◌, ℕ, IsTrue, IfOk, OnOk};
ghost use Rattle.std.specs.List.{AllByRecursion};
ghost use Rattle.sqlite.specs.Order.{column};
ghost use Rattle.sqlite_rules.specs.Lists.{Has};
ghost use Rattle.sqlite_typed.specs.Columns.{bytes_of};
ghost use Rattle.bh_rows.specs.Form.{typed};
ghost use Rattle.bh_tables.specs.Bodies.{Name, same_name};
ghost use Rattle.bh_tables.specs.Rows.{pack_form, place_form};
ghost use Rattle.bh_check.specs.Blocks.{AreNamed};
ghost use Rattle.bh_check.specs.Filled.{ReadsPacks, AreKnown};
ghost use Rattle.bh_check.specs.Holds.{first_two, number_at};
ghost use Rattle.bh_check.specs.Lost.{IsReadable, CountsDamaged, AreLost};
ghost use Rattle.bh_check.specs.Sums.{Keeps};

use crate::blocks::has_digest;
use crate::filled::{Known, add, filled};
use crate::flaw::{Flaw, Stop};
use crate::sums::{Sums, one_if};
use bh_schema::host::Digester;
use bh_shelf::shelf::Shelf;
use bh_stored::cells::{bytes_in, number_in};
use bh_stored::stored::Stored;
use sqlite_value::row::Row;
use std::alloc::{AllocError, Global};

/// The rows of versions whose bodies have a block without its bytes, and of uploads with a part of which that is so.
#[derive(Drop)]
pub struct Lost {
    pub versions: Vec<Row>,
    pub uploads: Vec<Row>,
}

/// Whether a block has its bytes, and the digest of them.
fn is_readable<P: Shelf, D: Digester>(
    alloc: Global,
    packs: &mut P,
    known: &Known,
    stored: &Stored,
    digester: &D,
    block: &Row,
) -> Result<bool, Stop>
    ensures readable { IfOk result (λ is. IsTrue is → IsTrue (P.Shelf.is_clean packs.new) → AreKnown stored.now.places.items known.now
        → AreNamed stored.now.places.items
        → IsReadable (typed pack_form stored.now.packs.items) (P.Shelf.seen packs.old) (typed place_form stored.now.places.items)
        D.digest_of block.now) }
    ensures reads { ReadsPacks P.Shelf packs.old packs.new }
{
    match filled(alloc, packs, known, stored, block) {
        Ok(row) => Ok(has_digest(digester, &row)),
        Err(Stop::Flaw(_)) => Ok(false),
        Err(stop) => Err(stop),
    }
}

/// Adds to the number of a name. Names to which nothing was added take no memory.
fn count(
    alloc: Global,
    counts: &mut Sums,
    text: &[u8],
    number: u64,
    amount: u64,
) -> Result<(), Stop>
    ensures { OnOk result ((of : Name → ℕ) → Keeps of counts.old
        → Keeps (λ q. of q + (if same_name (text.now, number) q then amount else 0)) counts.new) }
{
    if amount == 0 {
        return Ok(());
    }
    if counts.add(alloc, text, number, amount)? {
        Ok(())
    } else {
        Err(Stop::Flaw(Flaw::TooMuch))
    }
}

/// How many blocks of a name can't be read.
fn damaged<P: Shelf, D: Digester>(
    alloc: Global,
    packs: &mut P,
    known: &Known,
    stored: &Stored,
    digester: &D,
) -> Result<Sums, Stop>
    ensures damaged { IfOk result (λ counts. IsTrue (P.Shelf.is_clean packs.new) → AreKnown stored.now.places.items known.now
        → AreNamed stored.now.places.items
        → CountsDamaged (IsReadable (typed pack_form stored.now.packs.items) (P.Shelf.seen packs.old)
        (typed place_form stored.now.places.items) D.digest_of) stored.now.blocks.items counts) }
    ensures reads { ReadsPacks P.Shelf packs.old packs.new }
{
    let mut counts = Sums::new(alloc);
    for block in &stored.blocks {
        let amount = one_if(!is_readable(alloc, packs, known, stored, digester, block)?);
        count(
            alloc,
            &mut counts,
            bytes_in(block, 1),
            number_in(block, 2),
            amount,
        )?;
    }
    Ok(counts)
}

/// How many rows of a name, which is in the first two columns, use a name that was counted, which is in these.
fn users_of(
    alloc: Global,
    rows: &[Row],
    text: usize,
    number: usize,
    damaged: &Sums,
) -> Result<Sums, Stop>
    ensures { IfOk result (λ users. (of : Name → ℕ) → Keeps of damaged.now
        → CountsDamaged (λ r. of (bytes_of (column r text), number_at number r) ≡ 0) rows.now users) }
{
    let mut users = Sums::new(alloc);
    for row in rows {
        let amount = damaged.at(alloc, bytes_in(row, text), number_in(row, number))?;
        count(
            alloc,
            &mut users,
            bytes_in(row, 1),
            number_in(row, 2),
            amount,
        )?;
    }
    Ok(users)
}

/// Adds a row if its number isn't 0.
fn add_lost(alloc: Global, lost: &mut Vec<Row>, row: &Row, count: u64) -> Result<(), AllocError>
    ensures { OnOk result (((count ≡ 0) × (lost.new.items ≡ lost.old.items)) ⊎ (lost.new.items ≡ lost.old.items ++ row.now ∷ [])) }
{
    if count == 0 {
        return Ok(());
    }
    let copy = row.copy(alloc)?;
    add(lost, copy)
}

/// The rows whose names were counted.
fn rows_lost(alloc: Global, rows: &[Row], counts: &Sums) -> Result<Vec<Row>, AllocError>
    ensures { IfOk result (λ lost. (of : Name → ℕ) → Keeps of counts.now
        → AllByRecursion (λ r. (of (first_two r) ≡ 0) ⊎ Has lost.items r) rows.now) }
{
    let mut lost = Vec::new(alloc);
    for row in rows {
        let count = counts.at(alloc, bytes_in(row, 1), number_in(row, 2))?;
        add_lost(alloc, &mut lost, row, count)?;
    }
    Ok(lost)
}

/// All versions, and all uploads of which parts, that can't be read whole, and maybe more where a pack's file fails at times.
pub fn lost_of<P: Shelf, D: Digester>(
    alloc: Global,
    packs: &mut P,
    stored: &Stored,
    digester: &D,
) -> Result<Lost, Stop>
    ensures lost { IfOk result (λ lost. IsTrue (P.Shelf.is_clean packs.new) → AreNamed stored.now.places.items
        → AreLost (IsReadable (typed pack_form stored.now.packs.items) (P.Shelf.seen packs.old)
        (typed place_form stored.now.places.items) D.digest_of) stored.now lost) }
    ensures reads { ReadsPacks P.Shelf packs.old packs.new }
{
    let known = Known::of(alloc, &stored.places, &stored.packs)?;
    let blocks = damaged(alloc, packs, &known, stored, digester)?;
    let bodies = users_of(alloc, &stored.refs, 4, 5, &blocks)?;
    let uploads = users_of(alloc, &stored.parts, 1, 7, &bodies)?;
    Ok(Lost {
        versions: rows_lost(alloc, &stored.versions, &bodies)?,
        uploads: rows_lost(alloc, &stored.uploads, &uploads)?,
    })
}
