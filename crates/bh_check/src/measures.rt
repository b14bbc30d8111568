//! Checks each row of a table against the sums over the others.

ghost use Rattle.std.specs.Prelude.{◌≡◌, None, IsTrue, IfOk};
ghost use Rattle.std.specs.List.{AllByRecursion};
ghost use Rattle.sqlite.specs.Tree.{Trees};
ghost use Rattle.bh_check.specs.Holds.{first_two, version_dates, AreMeasures, IsVersionMeasured, IsPartMeasured, Holds};
ghost use Rattle.bh_check.specs.declared.rows.Table.TheVariants as table;

use crate::buckets::at_bucket;
use crate::rows::{
    PartTotals, Table, VersionTotals, is_access_key, is_bucket, is_date, is_dated, is_kept,
    is_locked, is_part, is_ref, is_tenant, is_upload, is_version,
};
use crate::totals::Totals;
use bh_stored::cells::{bytes_in, number_in};
use sqlite_value::row::Row;
use std::alloc::{AllocError, Global};

/// The sums against which rows are checked.
#[derive(Drop)]
pub struct Measures {
    pub totals: Totals,
    /// The last stamp, in seconds since 1970.
    pub latest: u64,
}

impl Measures {
    fn is_tenant(&self, alloc: Global, row: &Row) -> Result<bool, AllocError>
        ensures { IfOk result (λ b. IsTrue b → (d : Trees) → AreMeasures d self.now → Holds d self.now.latest table.Tenants row.now) }
    {
        let name = bytes_in(row, 1);
        let versions = self.totals.tenants.version_bytes.at(alloc, name, 0)?;
        let parts = self.totals.tenants.part_bytes.at(alloc, name, 0)?;
        Ok(is_tenant(row, versions, parts))
    }

    /// The sums against which a version is checked.
    fn of_version(&self, alloc: Global, row: &Row) -> Result<VersionTotals, AllocError>
        ensures { IfOk result (λ by. (d : Trees) → AreMeasures d self.now → IsVersionMeasured d self.now.latest row.now by) }
    {
        let tenant = bytes_in(row, 1);
        let seq = number_in(row, 2);
        Ok(VersionTotals {
            latest: self.latest,
            next_entry: self.totals.tenants.next_entry.at(alloc, tenant, 0)?,
            next_version: self.totals.tenants.next_version.at(alloc, tenant, 0)?,
            bytes: self.totals.bodies.bytes.at(alloc, tenant, seq)?,
            refs: self.totals.bodies.refs.at(alloc, tenant, seq)?,
        })
    }

    fn is_version(&self, alloc: Global, row: &Row) -> Result<bool, AllocError>
        ensures { IfOk result (λ b. IsTrue b → (d : Trees) → AreMeasures d self.now → Holds d self.now.latest table.Versions row.now) }
    {
        let by = self.of_version(alloc, row)?;
        Ok(is_version(row, by))
    }

    fn is_ref(&self, alloc: Global, row: &Row) -> Result<bool, AllocError>
        ensures { IfOk result (λ b. IsTrue b → (d : Trees) → AreMeasures d self.now → Holds d self.now.latest table.Refs row.now) }
    {
        let tenant = bytes_in(row, 1);
        let body = number_in(row, 2);
        let versions = self.totals.bodies.versions.at(alloc, tenant, body)?;
        let parts = self.totals.bodies.parts.at(alloc, tenant, body)?;
        let bytes = self
            .totals
            .block_bytes
            .at(alloc, bytes_in(row, 4), number_in(row, 5))?;
        Ok(is_ref(row, versions, parts, bytes))
    }

    fn is_upload(&self, alloc: Global, row: &Row) -> Result<bool, AllocError>
        ensures { IfOk result (λ b. IsTrue b → (d : Trees) → AreMeasures d self.now → Holds d self.now.latest table.Uploads row.now) }
    {
        let tenant = bytes_in(row, 1);
        let next = self.totals.tenants.next_upload.at(alloc, tenant, 0)?;
        let bytes = self
            .totals
            .upload_bytes
            .at(alloc, tenant, number_in(row, 2))?;
        Ok(is_upload(row, self.latest, next, bytes))
    }

    /// The sums against which a part is checked.
    fn of_part(&self, alloc: Global, row: &Row) -> Result<PartTotals, AllocError>
        ensures { IfOk result (λ by. (d : Trees) → AreMeasures d self.now → IsPartMeasured d self.now.latest row.now by) }
    {
        let tenant = bytes_in(row, 1);
        let body = number_in(row, 7);
        Ok(PartTotals {
            latest: self.latest,
            next_entry: self.totals.tenants.next_entry.at(alloc, tenant, 0)?,
            bytes: self.totals.bodies.bytes.at(alloc, tenant, body)?,
            versions: self.totals.bodies.versions.at(alloc, tenant, body)?,
        })
    }

    fn is_part(&self, alloc: Global, row: &Row) -> Result<bool, AllocError>
        ensures { IfOk result (λ b. IsTrue b → (d : Trees) → AreMeasures d self.now → Holds d self.now.latest table.Parts row.now) }
    {
        let by = self.of_part(alloc, row)?;
        Ok(is_part(row, by))
    }

    fn is_locked(&self, alloc: Global, row: &Row) -> Result<bool, AllocError>
        ensures { IfOk result (λ b. IsTrue b → (d : Trees) → AreMeasures d self.now → Holds d self.now.latest table.Locked row.now) }
    {
        let locks = at_bucket(alloc, &self.totals.dates.locks, row, 2)?;
        Ok(is_locked(row, locks))
    }

    /// The number of rows that date a version.
    fn dates_of(&self, alloc: Global, row: &Row) -> Result<u64, AllocError>
        ensures { IfOk result (λ n. (d : Trees) → AreMeasures d self.now → n ≡ version_dates d (first_two row.now)) }
    {
        let tenant = bytes_in(row, 1);
        let seq = number_in(row, 2);
        self.totals.dates.dates.at(alloc, tenant, seq)
    }

    fn is_dated(&self, alloc: Global, row: &Row) -> Result<bool, AllocError>
        ensures { IfOk result (λ b. IsTrue b → (d : Trees) → AreMeasures d self.now → Holds d self.now.latest table.Dated row.now) }
    {
        let dates = self.dates_of(alloc, row)?;
        Ok(is_dated(row, dates))
    }

    fn is_kept(&self, alloc: Global, row: &Row) -> Result<bool, AllocError>
        ensures { IfOk result (λ b. IsTrue b → (d : Trees) → AreMeasures d self.now → Holds d self.now.latest table.Kept row.now) }
    {
        let dates = self.dates_of(alloc, row)?;
        let locks = at_bucket(alloc, &self.totals.dates.locks, row, 3)?;
        Ok(is_kept(dates, locks))
    }

    /// Whether a row of a table is valid.
    fn holds(&self, alloc: Global, table: Table, row: &Row) -> Result<bool, AllocError>
        ensures { IfOk result (λ b. IsTrue b → (d : Trees) → AreMeasures d self.now → Holds d self.now.latest table row.now) }
    {
        match table {
            Table::Tenants => self.is_tenant(alloc, row),
            Table::Keys => Ok(is_access_key(row)),
            Table::Buckets => is_bucket(alloc, row, self.latest),
            Table::Versions => self.is_version(alloc, row),
            Table::Refs => self.is_ref(alloc, row),
            Table::Uploads => self.is_upload(alloc, row),
            Table::Parts => self.is_part(alloc, row),
            Table::Locked => self.is_locked(alloc, row),
            Table::Dated => self.is_dated(alloc, row),
            Table::Kept => self.is_kept(alloc, row),
            Table::Retains => Ok(is_date(row)),
        }
    }

    /// The number of the first invalid row of a table.
    pub fn first_unsound(
        &self,
        alloc: Global,
        table: Table,
        rows: &[Row],
    ) -> Result<Option<u64>, AllocError>
        ensures { IfOk result (λ found. found ≡ None → (d : Trees) → AreMeasures d self.now
            → AllByRecursion (Holds d self.now.latest table) rows.now) }
    {
        for row in rows {
            if !self.holds(alloc, table, row)? {
                return Ok(Some(number_in(row, 0)));
            }
        }
        Ok(None)
    }
}
