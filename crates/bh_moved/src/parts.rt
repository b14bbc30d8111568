//! The parts of a tenant's uploads.

ghost use Rattle.std.specs.Prelude.{◌≡◌, ◌<◌, ◌^◌, IfOk, OnOk};
ghost use Rattle.bh_tables.specs.Typed.{PartRow};
ghost use Rattle.bh_base.specs.Connections.{tables, InTransaction, Becomes};
ghost use Rattle.bh_tenant_rows.specs.Shown.{shown_part};
ghost use Rattle.bh_tenant_rows.specs.Brought.{part_after, IsNext};
ghost use Rattle.bh_schema.specs.Calls.{Writes};
ghost use Rattle.bh_moved.specs.Parts.{own_part, part_row_after, seen_part, part_seen};
ghost use Rattle.bh_uploads.specs.Rows.{stored_part};

use crate::cells::number_at;
use crate::moving::Moving;
use bh_base::connection::Connection;
use bh_shelf::shelf::Shelf;
use bh_uploads::rows::kept::place_part;
use bh_uploads::rows::parts::{PartRecord, find_body};
use sqlite::{Alter, Error, ErrorCode, Row};

/// A part of a row, without its bytes.
#[derive(Drop)]
pub struct ReadPart {
    pub upload: u64,
    pub number: u64,
    /// Bytes.
    pub size: u64,
    pub checksum: String,
    /// Seconds since 1970.
    pub stamp: u64,
    /// The entry number under which its bytes are stored.
    pub body: u64,
}

fn read_part(row: &Row) -> Result<ReadPart, Error>
    ensures read { IfOk result (λ it. (p : PartRow) → row.now ≡ shown_part p → part_seen it ≡ seen_part p) }
    ensures small { IfOk result (λ it. (it.upload < 2 ^ 63) × (it.number < 2 ^ 63) × (it.stamp < 2 ^ 63) × (it.body < 2 ^ 63)) }
{
    Ok(ReadPart {
        upload: number_at(row, 0)?,
        number: number_at(row, 1)?,
        size: number_at(row, 2)?,
        checksum: row.get(3)?,
        stamp: number_at(row, 4)?,
        body: number_at(row, 5)?,
    })
}

/// Adds a part, whose body was stored and whose number is new, under the next entry number that the
/// tenant has already.
fn add_new_part<T: Alter, Q: Shelf>(
    to: &mut Connection<T, Q>,
    part: &PartRecord<'_>,
    next: u64,
) -> Result<(), Error>
    requires inside { InTransaction T.Store Q.Shelf to.old }
    requires upload { part.now.upload < 2 ^ 63 }
    requires number { part.now.number < 2 ^ 63 }
    requires size { part.now.size < 2 ^ 62 }
    requires stamp { part.now.stamp < 2 ^ 63 }
    requires body { part.now.body < 2 ^ 63 }
    requires small { next < 2 ^ 63 }
    ensures writes { Writes T.Store Q.Shelf to.old to.new result }
    ensures added { OnOk result (IsNext part.now.tenant.now next (tables T.Store Q.Shelf to.old)
        → Becomes T.Store Q.Shelf to.old to.new (part_row_after (stored_part part.now))) }
{
    match find_body(to, part.tenant, part.upload, part.number)? {
        None => place_part(to, part, next, 0),
        Some(_) => Err(Error::SqliteFailure(ErrorCode::DatabaseCorrupt)),
    }
}

/// Adds the row of a part, whose body was stored, under the next entry number that the tenant has
/// already.
pub fn add_part<T: Alter, Q: Shelf, D>(
    to: &mut Connection<T, Q>,
    moving: &Moving<'_, D>,
    row: &Row,
) -> Result<(), Error>
    requires inside { InTransaction T.Store Q.Shelf to.old }
    ensures writes { Writes T.Store Q.Shelf to.old to.new result }
    ensures added { OnOk result ((p : PartRow) → row.now ≡ shown_part p
        → IsNext moving.now.tenant.now moving.now.numbers.next_entry (tables T.Store Q.Shelf to.old)
        → Becomes T.Store Q.Shelf to.old to.new (part_after (own_part moving.now.tenant.now p))) }
{
    let read = read_part(row)?;
    if read.size >= 0x4000_0000_0000_0000 {
        return Err(Error::SqliteFailure(ErrorCode::TooBig));
    }
    let part = PartRecord {
        tenant: moving.tenant,
        upload: read.upload,
        number: read.number,
        size: read.size,
        checksum: &read.checksum,
        stamp: read.stamp,
        body: read.body,
    };
    add_new_part(to, &part, moving.numbers.next_entry)
}
