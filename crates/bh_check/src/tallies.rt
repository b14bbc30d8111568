//! Each tenant's numbers of versions, markers and objects.

ghost use Rattle.std.specs.Prelude.{◌≡◌, ◌++◌, ◌∷◌, [], ◌&&◌, not, pos, int_lt, List, length, None, IsTrue, IfOk};
ghost use Rattle.std.specs.Ordering.{int_eq};
ghost use Rattle.sqlite.specs.Order.{Row as Columns};
ghost use Rattle.bh_check.specs.Holds.{owner, number_at};
ghost use Rattle.bh_check.specs.Sums.{IsSumOf};
ghost use Rattle.bh_check.specs.Tallies.{framed, entry_key, current_one, IsNewest, AreEntryTotals, IsTallyBy, IsTallyOf, AreTalliesOf};

use crate::sums::{Amount, Sums, one_if};
use crate::totals::{OWNER, sums_by};
use bh_stored::cells::{bytes_in, number_in};
use bh_stored::failure::Failure;
use sqlite_value::row::Row;
use std::alloc::{AllocError, Global};

/// Tenants' numbers of versions and markers, and of keys whose newest entry is a version.
#[derive(Drop)]
pub struct EntryTotals {
    pub versions: Sums,
    pub markers: Sums,
    pub objects: Sums,
}

/// Bytes in a self-delimiting form: 1 before each of them, 0 at the end.
fn framed(alloc: Global, text: &[u8]) -> Result<Vec<u8>, AllocError>
    ensures { IfOk result (λ bytes. bytes.items ≡ framed text.now) }
{
    let mut bytes = Vec::new(alloc);
    for byte in text {
        bytes.extend_from_slice(&[1, *byte])?;
    }
    bytes.push(0)?;
    Ok(bytes)
}

/// The tenant, the bucket and the key of an entry, joined.
fn key_text(alloc: Global, row: &Row) -> Result<Vec<u8>, AllocError>
    ensures { IfOk result (λ text. text.items ≡ (entry_key row.now).0) }
{
    let mut text = framed(alloc, bytes_in(row, 1))?;
    let bucket = framed(alloc, bytes_in(row, 3))?;
    text.extend_from_slice(&bucket)?;
    text.extend_from_slice(bytes_in(row, 4))?;
    Ok(text)
}

/// Raises a key's greatest number to that of this entry.
fn raise(alloc: Global, newest: &mut Sums, row: &Row) -> Result<bool, AllocError>
    ensures { IfOk result (λ fits. IsTrue fits → (rows : List Columns) → IsNewest rows newest.old
        → IsNewest (rows ++ row.now ∷ []) newest.new) }
{
    let text = key_text(alloc, row)?;
    let known = newest.at(alloc, &text, 0)?;
    match number_in(row, 2).checked_sub(known) {
        Some(more) => newest.add(alloc, &text, 0, more),
        None => Ok(true),
    }
}

/// The greatest number of the entries of each key.
fn newest_of(alloc: Global, rows: &[Row]) -> Result<Sums, Failure>
    ensures { IfOk result (IsNewest rows.now) }
{
    let mut newest = Sums::new(alloc);
    for row in rows {
        if !raise(alloc, &mut newest, row)? {
            return Err(Failure::TooMuch);
        }
    }
    Ok(newest)
}

/// Whether an entry is a version, and the newest of its key.
fn is_current(row: &Row, last: u64) -> bool
    ensures { result ≡ (int_eq (pos (number_at 6 row.now)) (pos 0) && not (int_lt (pos (number_at 2 row.now)) (pos last))) }
{
    number_in(row, 6) == 0 && last <= number_in(row, 2)
}

/// 1 if an entry is a version and the newest of its key, otherwise 0.
fn current_one(alloc: Global, newest: &Sums, row: &Row) -> Result<u64, AllocError>
    ensures { IfOk result (λ n. (rows : List Columns) → IsNewest rows newest.now → n ≡ current_one rows row.now) }
{
    let text = key_text(alloc, row)?;
    let last = newest.at(alloc, &text, 0)?;
    Ok(one_if(is_current(row, last)))
}

/// Each tenant's number of keys whose newest entry is a version.
fn objects_of(alloc: Global, rows: &[Row], newest: &Sums) -> Result<Sums, Failure>
    requires { IsNewest rows.now newest.now }
    ensures { IfOk result (IsSumOf owner (current_one rows.now) rows.now) }
{
    let mut objects = Sums::new(alloc);
    for row in rows {
        let tenant = bytes_in(row, 1);
        let more = current_one(alloc, newest, row)?;
        if !objects.add(alloc, tenant, 0, more)? {
            return Err(Failure::TooMuch);
        }
    }
    Ok(objects)
}

impl EntryTotals {
    /// The numbers of these versions and markers.
    pub fn of(alloc: Global, rows: &[Row]) -> Result<EntryTotals, Failure>
        ensures { IfOk result (AreEntryTotals rows.now) }
    {
        let newest = newest_of(alloc, rows)?;
        Ok(EntryTotals {
            versions: sums_by(alloc, rows, OWNER, Amount::Is(6, 0))?,
            markers: sums_by(alloc, rows, OWNER, Amount::Is(6, 1))?,
            objects: objects_of(alloc, rows, &newest)?,
        })
    }
}

/// Whether a tally is a tenant's, with these numbers of versions, markers and objects.
fn tallies(tally: &Row, tenant: &Row, versions: u64, markers: u64, objects: u64) -> bool
    ensures { IsTrue result → IsTallyBy versions markers objects tally.now tenant.now }
{
    bytes_in(tally, 1) == bytes_in(tenant, 1)
        && number_in(tally, 2) == versions
        && number_in(tally, 3) == markers
        && number_in(tally, 4) == objects
}

/// Whether a tally is a tenant's and has the right counts.
fn is_tally_of(
    alloc: Global,
    tally: &Row,
    tenant: &Row,
    totals: &EntryTotals,
) -> Result<bool, AllocError>
    ensures { IfOk result (λ b. IsTrue b → (rows : List Columns) → AreEntryTotals rows totals.now → IsTallyOf rows tally.now tenant.now) }
{
    let name = bytes_in(tenant, 1);
    let versions = totals.versions.at(alloc, name, 0)?;
    let markers = totals.markers.at(alloc, name, 0)?;
    let objects = totals.objects.at(alloc, name, 0)?;
    Ok(tallies(tally, tenant, versions, markers, objects))
}

/// The number of the first tenant whose tally, in the row at its place, is wrong, given as many
/// tallies as tenants.
pub fn first_mistallied(
    alloc: Global,
    tallies: &[Row],
    tenants: &[Row],
    totals: &EntryTotals,
) -> Result<Option<u64>, AllocError>
    requires { length tallies.now ≡ length tenants.now }
    ensures { IfOk result (λ found. found ≡ None → (rows : List Columns) → AreEntryTotals rows totals.now
        → AreTalliesOf rows tallies.now tenants.now) }
{
    for at in 0..tenants.len() {
        if !is_tally_of(alloc, &tallies[at], &tenants[at], totals)? {
            return Ok(Some(number_in(&tenants[at], 0)));
        }
    }
    Ok(None)
}
