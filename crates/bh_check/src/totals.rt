//! The sums over other tables against which a table's rows are checked.

ghost use Rattle.std.specs.Prelude.{IfOk};
ghost use Rattle.sqlite.specs.Tree.{Trees};
ghost use Rattle.bh_check.specs.Holds.{block_bytes, AreTenantTotals, AreBodyTotals, AreDateTotals, AreTotals};
ghost use Rattle.bh_check.specs.Sums.{adds, name_at, Keeps, IsSumOf};
ghost use Rattle.bh_check.specs.Looked.{AreReadOf};

use crate::buckets::count_by_bucket;
use crate::sums::{Amount, Grouping, Sums, sums_of};
use bh_stored::failure::Failure;
use bh_stored::stored::Stored;
use sqlite_value::row::Row;
use std::alloc::Global;

/// Sums over the rows of a tenant.
#[derive(Drop)]
pub struct TenantTotals {
    /// Its next numbers.
    pub next_version: Sums,
    pub next_upload: Sums,
    pub next_entry: Sums,
    /// The total sizes of its versions, and of its parts.
    pub version_bytes: Sums,
    pub part_bytes: Sums,
}

/// Sums over the references of a body, and over its versions and parts.
#[derive(Drop)]
pub struct BodyTotals {
    /// The total size of its blocks, and the number of its references.
    pub bytes: Sums,
    pub refs: Sums,
    /// The numbers of versions and of parts with a body.
    pub versions: Sums,
    pub parts: Sums,
}

/// The numbers of rows that lock a bucket, and that date a version.
#[derive(Drop)]
pub struct DateTotals {
    pub locks: Sums,
    pub dates: Sums,
}

/// Sums by name, each over all rows of a table.
#[derive(Drop)]
pub struct Totals {
    pub tenants: TenantTotals,
    pub bodies: BodyTotals,
    pub dates: DateTotals,
    /// The total size of an upload's parts.
    pub upload_bytes: Sums,
    /// The number of references to a block, and its length in bytes.
    pub block_refs: Sums,
    pub block_bytes: Sums,
}

/// The columns of a row's name: its text or bytes, and its number if it has one.
pub(crate) type Columns = (usize, Option<usize>);

pub(crate) const OWNER: Columns = (1, None);

const FIRST_TWO: Columns = (1, Some(2));

const PART_BODY: Columns = (1, Some(7));

const REF_BLOCK: Columns = (4, Some(5));

/// The sums of the rows' amounts, by the name in these columns.
pub(crate) fn sums_by(
    alloc: Global,
    rows: &[Row],
    name: Columns,
    amount: Amount,
) -> Result<Sums, Failure>
    ensures { IfOk result (IsSumOf (name_at name) (λ row. adds row amount) rows.now) }
{
    let by = Grouping {
        text: name.0,
        number: name.1,
        amount,
    };
    sums_of(alloc, rows, by)
}

impl TenantTotals {
    fn of(alloc: Global, stored: &Stored) -> Result<TenantTotals, Failure>
        ensures { IfOk result (λ t. (d : Trees) → AreReadOf d stored.now → AreTenantTotals d t) }
    {
        Ok(TenantTotals {
            next_version: sums_by(alloc, &stored.tenants, OWNER, Amount::Number(3))?,
            next_upload: sums_by(alloc, &stored.tenants, OWNER, Amount::Number(4))?,
            next_entry: sums_by(alloc, &stored.tenants, OWNER, Amount::Number(5))?,
            version_bytes: sums_by(alloc, &stored.versions, OWNER, Amount::Number(8))?,
            part_bytes: sums_by(alloc, &stored.parts, OWNER, Amount::Number(4))?,
        })
    }
}

impl BodyTotals {
    fn of(alloc: Global, stored: &Stored) -> Result<BodyTotals, Failure>
        ensures { IfOk result (λ t. (d : Trees) → AreReadOf d stored.now → AreBodyTotals d t) }
    {
        Ok(BodyTotals {
            bytes: sums_by(alloc, &stored.refs, FIRST_TWO, Amount::Number(6))?,
            refs: sums_by(alloc, &stored.refs, FIRST_TWO, Amount::One)?,
            versions: sums_by(alloc, &stored.versions, FIRST_TWO, Amount::One)?,
            parts: sums_by(alloc, &stored.parts, PART_BODY, Amount::One)?,
        })
    }
}

impl DateTotals {
    fn of(alloc: Global, stored: &Stored) -> Result<DateTotals, Failure>
        ensures { IfOk result (λ t. (d : Trees) → AreReadOf d stored.now → AreDateTotals d t) }
    {
        Ok(DateTotals {
            locks: count_by_bucket(alloc, &stored.locks, 2)?,
            dates: sums_by(alloc, &stored.retains, FIRST_TWO, Amount::One)?,
        })
    }
}

impl Totals {
    /// The sums over all rows that were read, and the lengths of blocks.
    pub fn of(alloc: Global, stored: &Stored, by_name: Sums) -> Result<Totals, Failure>
        ensures { IfOk result (λ t. (d : Trees) → AreReadOf d stored.now → Keeps (block_bytes d) by_name → AreTotals d t) }
    {
        Ok(Totals {
            tenants: TenantTotals::of(alloc, stored)?,
            bodies: BodyTotals::of(alloc, stored)?,
            dates: DateTotals::of(alloc, stored)?,
            upload_bytes: sums_by(alloc, &stored.parts, FIRST_TWO, Amount::Number(4))?,
            block_refs: sums_by(alloc, &stored.refs, REF_BLOCK, Amount::One)?,
            block_bytes: by_name,
        })
    }
}
