//! How the rows of a query are read.

ghost use Rattle.std.specs.Prelude.{◌≡◌, List, map, IfOk};
ghost use Rattle.bh_tables.specs.Typed.{VersionRow};
ghost use Rattle.bh_pages.specs.Seen.{Shown};
ghost use Rattle.bh_pages.specs.Versions.{Numbered};
ghost use Rattle.bh_listing.specs.Rows as objects;
ghost use Rattle.bh_listing.specs.Texts.{Columns};
ghost use Rattle.bh_listing.specs.Versions as versions;

use bh_pages::gathering::Line;
use bh_pages::versions::VersionLine;
use sqlite::{Error, Row};
use std::alloc::Global;

/// A value that is read from a row of a table.
pub trait FromRow: Sized {
    /// The rows of the table.
    ghost Of: { Type 0 };

    /// The spec value of what is read.
    ghost Seen: { Type 0 };

    ghost columns: { Columns Self Of Seen };

    /// Fails if memory runs out, or if a column has another type.
    fn from_row(row: &Row) -> Result<Self, Error>
        ensures { IfOk result (λ line. (r : Of) → row.now ≡ columns.shown r → columns.see line ≡ columns.told r) };
}

impl FromRow for Line {
    ghost Of = { VersionRow };

    ghost Seen = { Shown };

    ghost columns = { objects.columns };

    fn from_row(row: &Row) -> Result<Line, Error> {
        Ok(Line {
            key: row.get(0)?,
            marker: row.get(1)?,
            stamp: row.get(2)?,
            size: row.get(3)?,
            checksum: row.get(4)?,
        })
    }
}

impl FromRow for VersionLine {
    ghost Of = { VersionRow };

    ghost Seen = { Numbered };

    ghost columns = { versions.columns };

    fn from_row(row: &Row) -> Result<VersionLine, Error> {
        Ok(VersionLine {
            key: row.get(0)?,
            seq: row.get(1)?,
            id: row.get(2)?,
            marker: row.get(3)?,
            stamp: row.get(4)?,
            size: row.get(5)?,
            checksum: row.get(6)?,
        })
    }
}

/// The values of some rows. Fails if memory runs out, or if a column has another type.
pub fn read_rows<L: FromRow + Drop>(alloc: Global, rows: &[Row]) -> Result<Vec<L>, Error>
    ensures { IfOk result (λ lines. (rs : List L.Of) → rows.now ≡ map (L.columns).shown rs
        → map (L.columns).see lines.items ≡ map (L.columns).told rs) }
{
    let mut lines = Vec::with_capacity(alloc, rows.len())?;
    for row in rows {
        let line = L::from_row(row)?;
        lines.push(line)?;
    }
    Ok(lines)
}
