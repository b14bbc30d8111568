ghost use Rattle.std.specs.Prelude.{◌≡◌, ◌++◌, ◌∷◌, [], List, ◌<◌, ◌^◌, map, find, option_map, IfOk, IfErr, OnOk};
ghost use Rattle.sqlite_keyed.specs.Lists.{delete_where};
ghost use Rattle.bh_tables.specs.Typed.{PartRow as Stored};
ghost use Rattle.bh_tables.specs.Bodies.{resolved_part};
ghost use Rattle.bh_tables.specs.Shown.{is_part, is_part_of, shown_part};
ghost use Rattle.bh_schema.specs.Calls.{Reads, WritesOn};
ghost use Rattle.bh_base.specs.Connections.{IsClean, tables, InTransaction, InMidst, Rewrites, IsTrouble};
ghost use Rattle.bh_uploads.specs.Rows.{AreListed, body_reading, seen_row, row_seen, part_body, stored_part, listed_parts};

use bh_base::connection::Connection;
use bh_core::parts::PartRow;
use bh_schema::rows::number::number;
use bh_schema::rows::reading::{FromRow, first_of};
use bh_schema::rows::writing::write;
use bh_shelf::shelf::Shelf;
use sqlite::types::ToSql;
use sqlite::{Alter, Error, Row};
use std::alloc::Global;

/// A part without its bytes.
#[derive(Drop)]
pub struct PartHead {
    pub row: PartRow,
    /// The entry number under which its bytes are stored.
    pub body: u64,
}

/// The parts of an upload without their bytes, in the order of their numbers.
#[derive(Drop)]
pub struct PartList {
    pub rows: Vec<PartRow>,
    /// The entry numbers under which their bytes are stored.
    pub bodies: Vec<u64>,
}

/// A part's body.
#[derive(Clone, Copy)]
pub struct PartBody {
    /// The entry number under which the bytes are stored.
    pub body: u64,
    /// Bytes.
    pub size: u64,
}

/// A part to be added.
#[derive(Clone, Copy)]
pub struct PartRecord<'a> {
    pub tenant: &'a str,
    pub upload: u64,
    pub number: u64,
    /// Bytes.
    pub size: u64,
    pub checksum: &'a str,
    /// When it is stored, in seconds since 1970.
    pub stamp: u64,
    /// The entry number under which its bytes are stored.
    pub body: u64,
}

/// The moment is listed.
fn read_part(row: &Row) -> Result<PartHead, Error>
    ensures row { IfOk result (λ head. (p : Stored) → row.now ≡ shown_part p → row_seen head.row ≡ seen_row p) }
    ensures body { IfOk result (λ head. (p : Stored) → row.now ≡ shown_part p → head.body ≡ p.body) }
{
    let row_found = PartRow {
        number: row.get(0)?,
        size: row.get(1)?,
        sum: row.get(2)?,
    };
    Ok(PartHead {
        row: row_found,
        body: row.get(4)?,
    })
}

fn read_parts(alloc: Global, rows: &[Row]) -> Result<PartList, Error>
    ensures { IfOk result (λ list. (ps : List Stored) → rows.now ≡ map shown_part ps → AreListed list ps) }
{
    let mut found = Vec::new(alloc);
    let mut bodies = Vec::new(alloc);
    for row in rows {
        let head = read_part(row)?;
        let PartHead { row: part, body } = head;
        found.push(part)?;
        bodies.push(body)?;
    }
    Ok(PartList {
        rows: found,
        bodies,
    })
}

fn part_rows<S: Alter, P: Shelf>(
    connection: &mut Connection<S, P>,
    tenant: &str,
    upload: u64,
) -> Result<Vec<Row>, Error>
    requires inside { InTransaction S.Store P.Shelf connection.old }
    requires small { upload < 2 ^ 63 }
    ensures reads { Reads S.Store P.Shelf connection.old connection.new result }
    ensures rows { IfOk result (λ rows. IsClean S.Store P.Shelf connection.new
        → rows.items ≡ map shown_part (listed_parts tenant.now upload (tables S.Store P.Shelf connection.old))) }
    ensures trouble { IfErr result (IsTrouble S.Store P.Shelf connection.old connection.new) }
{
    connection.database.query_all(
        "SELECT number, size, sum, stamp, body FROM parts WHERE tenant = ?1 AND upload = ?2 ORDER BY number, rowid",
        &[tenant.to_sql(), number(upload)],
    )
}

/// All parts of an upload, in the order of their numbers.
pub fn part_list<S: Alter, P: Shelf>(
    connection: &mut Connection<S, P>,
    alloc: Global,
    tenant: &str,
    upload: u64,
) -> Result<PartList, Error>
    requires inside { InTransaction S.Store P.Shelf connection.old }
    requires small { upload < 2 ^ 63 }
    ensures reads { Reads S.Store P.Shelf connection.old connection.new result }
    ensures parts { IfOk result (λ list. IsClean S.Store P.Shelf connection.new
        → AreListed list (listed_parts tenant.now upload (tables S.Store P.Shelf connection.old))) }
{
    let rows = part_rows(connection, tenant, upload)?;
    read_parts(alloc, &rows)
}

impl FromRow for PartBody {
    ghost reading = { body_reading };

    fn read(row: &Row) -> Result<PartBody, Error> {
        Ok(PartBody {
            body: row.get(0)?,
            size: row.get(1)?,
        })
    }
}

/// The body of the part with this number, if it exists.
pub fn find_body<S: Alter, P: Shelf>(
    connection: &mut Connection<S, P>,
    tenant: &str,
    upload: u64,
    part: u64,
) -> Result<Option<PartBody>, Error>
    requires inside { InTransaction S.Store P.Shelf connection.old }
    requires upload { upload < 2 ^ 63 }
    requires part { part < 2 ^ 63 }
    ensures reads { Reads S.Store P.Shelf connection.old connection.new result }
    ensures found { IfOk result (λ found. IsClean S.Store P.Shelf connection.new
        → found ≡ option_map part_body (find (is_part tenant.now upload part) (tables S.Store P.Shelf connection.old).parts)) }
{
    let rows = connection.database.query_all(
        "SELECT body, size FROM parts WHERE tenant = ?1 AND upload = ?2 AND number = ?3 ORDER BY rowid",
        &[tenant.to_sql(), number(upload), number(part)],
    )?;
    first_of(&rows)
}

/// Adds a part, whose bytes are those of its body, as one step of a write that updates its tenant's
/// use and its upload's bytes.
pub fn insert_part<S: Alter, P: Shelf>(
    connection: &mut Connection<S, P>,
    part: &PartRecord<'_>,
) -> Result<usize, Error>
    requires midst { InMidst S.Store P.Shelf connection.old }
    requires upload { part.now.upload < 2 ^ 63 }
    requires number { part.now.number < 2 ^ 63 }
    requires size { part.now.size < 2 ^ 63 }
    requires stamp { part.now.stamp < 2 ^ 63 }
    requires body { part.now.body < 2 ^ 63 }
    ensures writes { WritesOn S.Store P.Shelf connection.old connection.new result }
    ensures rewrites { OnOk result (Rewrites S.Store P.Shelf connection.old connection.new (λ sums. sums)
        (λ rows. record rows { parts = rows.parts ++ resolved_part rows.refs rows.blocks (stored_part part.now) ∷ [] })) }
{
    write(
        &mut connection.database,
        "INSERT INTO parts (tenant, upload, number, size, sum, stamp, body) VALUES (?1, ?2, ?3, ?4, ?5, ?6, ?7)",
        &[
            part.tenant.to_sql(),
            number(part.upload),
            number(part.number),
            number(part.size),
            part.checksum.to_sql(),
            number(part.stamp),
            number(part.body),
        ],
    )
}

/// Deletes the part with a number, if there is one, as one step of a write that updates its
/// tenant's use and its upload's bytes.
pub fn delete_part<S: Alter, P: Shelf>(
    connection: &mut Connection<S, P>,
    tenant: &str,
    upload: u64,
    part: u64,
) -> Result<usize, Error>
    requires midst { InMidst S.Store P.Shelf connection.old }
    requires upload { upload < 2 ^ 63 }
    requires part { part < 2 ^ 63 }
    ensures writes { WritesOn S.Store P.Shelf connection.old connection.new result }
    ensures rewrites { OnOk result (Rewrites S.Store P.Shelf connection.old connection.new (λ sums. sums)
        (λ rows. record rows { parts = delete_where (is_part tenant.now upload part) rows.parts })) }
    ensures trouble { IfErr result (IsTrouble S.Store P.Shelf connection.old connection.new) }
{
    write(
        &mut connection.database,
        "DELETE FROM parts WHERE tenant = ?1 AND upload = ?2 AND number = ?3",
        &[tenant.to_sql(), number(upload), number(part)],
    )
}

/// Deletes all parts of an upload, as one step of a write that updates its tenant's use and the
/// upload's bytes.
pub fn delete_parts<S: Alter, P: Shelf>(
    connection: &mut Connection<S, P>,
    tenant: &str,
    upload: u64,
) -> Result<usize, Error>
    requires midst { InMidst S.Store P.Shelf connection.old }
    requires small { upload < 2 ^ 63 }
    ensures writes { WritesOn S.Store P.Shelf connection.old connection.new result }
    ensures rewrites { OnOk result (Rewrites S.Store P.Shelf connection.old connection.new (λ sums. sums)
        (λ rows. record rows { parts = delete_where (is_part_of tenant.now upload) rows.parts })) }
    ensures trouble { IfErr result (IsTrouble S.Store P.Shelf connection.old connection.new) }
{
    write(
        &mut connection.database,
        "DELETE FROM parts WHERE tenant = ?1 AND upload = ?2",
        &[tenant.to_sql(), number(upload)],
    )
}
