//! The values of a bucket's rows for the listings of objects, versions and uploads.

ghost use Rattle.std.specs.Prelude.{◌≡◌, ◌<◌, ◌^◌, map, IfOk, IfErr};
ghost use Rattle.bh_model.specs.Pages.{UploadItem};
ghost use Rattle.bh_tables.specs.Typed.{UploadRow};
ghost use Rattle.bh_schema.specs.Calls.{Reads, MayRead};
ghost use Rattle.bh_base.specs.Connections.{IsClean, tables, InTransaction, IsTrouble};
ghost use Rattle.bh_pages.specs.Seen.{seen_line};
ghost use Rattle.bh_listing.specs.Rows as objects;
ghost use Rattle.bh_listing.specs.Uploads as uploads;
ghost use Rattle.bh_listing.specs.Versions as versions;

use crate::from_row::{FromRow, read_rows};
use crate::rows::{Keyed, Later, PlacedRow};
use bh_base::connection::Connection;
use bh_pages::gathering::Line;
use bh_pages::uploads::UploadLine;
use bh_pages::versions::VersionLine;
use bh_schema::trouble::or_trouble;
use bh_shelf::shelf::Shelf;
use bh_storage::error::Trouble;
use sqlite::{Alter, Error, Row};
use std::alloc::Global;

/// The first versions and delete markers of a bucket with keys in a range, in the order of a
/// listing.
fn object_rows<S: Alter, P: Shelf>(
    connection: &mut Connection<S, P>,
    at: &Keyed<'_>,
) -> Result<Vec<Row>, Error>
    requires inside { InTransaction S.Store P.Shelf connection.old }
    requires small { at.now.count < 2 ^ 63 }
    ensures reads { Reads S.Store P.Shelf connection.old connection.new result }
    ensures rows { IfOk result (λ rows. IsClean S.Store P.Shelf connection.new
        → rows.items ≡ map objects.shown_listed (objects.listed_rows at.now.tenant.now at.now.bucket.now at.now.from.now at.now.upto.now
        at.now.count (tables S.Store P.Shelf connection.old).versions)) }
    ensures trouble { IfErr result (IsTrouble S.Store P.Shelf connection.old connection.new) }
{
    let sql =
        "SELECT okey, marker, stamp, size, sum FROM versions WHERE tenant = ?1 AND bucket = ?2 AND okey >= ?3 AND okey < ?4 ORDER BY okey, seq DESC, rowid LIMIT ?5";
    at.query(&mut connection.database, sql)
}

/// The values of rows for a listing of objects.
pub fn object_lines<S: Alter, P: Shelf>(
    connection: &mut Connection<S, P>,
    alloc: Global,
    at: &Keyed<'_>,
) -> Result<Vec<Line>, Trouble>
    requires inside { InTransaction S.Store P.Shelf connection.old }
    requires small { at.now.count < 2 ^ 63 }
    ensures reads { MayRead S.Store P.Shelf connection.old connection.new result }
    ensures lines { IfOk result (λ lines. IsClean S.Store P.Shelf connection.new
        → map seen_line lines.items ≡ map objects.row_shown (objects.listed_rows at.now.tenant.now at.now.bucket.now at.now.from.now
        at.now.upto.now at.now.count (tables S.Store P.Shelf connection.old).versions)) }
{
    let rows = or_trouble(object_rows(connection, at))?;
    or_trouble(read_rows(alloc, &rows))
}

impl PlacedRow for VersionLine {
    ghost rows = { versions.rows };

    fn keyed<S: Alter, P: Shelf>(
        connection: &mut Connection<S, P>,
        at: &Keyed<'_>,
    ) -> Result<Vec<Row>, Error> {
        let sql =
            "SELECT okey, seq, id, marker, stamp, size, sum FROM versions WHERE tenant = ?1 AND bucket = ?2 AND okey >= ?3 AND okey < ?4 ORDER BY okey, seq DESC, rowid LIMIT ?5";
        at.query(&mut connection.database, sql)
    }

    fn later<S: Alter, P: Shelf>(
        connection: &mut Connection<S, P>,
        at: &Later<'_>,
    ) -> Result<Vec<Row>, Error> {
        let sql =
            "SELECT okey, seq, id, marker, stamp, size, sum FROM versions WHERE tenant = ?1 AND bucket = ?2 AND okey = ?3 AND seq < ?4 ORDER BY okey, seq DESC, rowid LIMIT ?5";
        at.query(&mut connection.database, sql)
    }
}

impl FromRow for UploadLine {
    ghost Of = { UploadRow };

    ghost Seen = { UploadItem };

    ghost columns = { uploads.columns };

    fn from_row(row: &Row) -> Result<UploadLine, Error> {
        Ok(UploadLine {
            key: row.get(0)?,
            number: row.get(1)?,
            begun: row.get(2)?,
        })
    }
}

impl PlacedRow for UploadLine {
    ghost rows = { uploads.rows };

    fn keyed<S: Alter, P: Shelf>(
        connection: &mut Connection<S, P>,
        at: &Keyed<'_>,
    ) -> Result<Vec<Row>, Error> {
        let sql =
            "SELECT okey, upload, begun FROM uploads WHERE tenant = ?1 AND bucket = ?2 AND okey >= ?3 AND okey < ?4 ORDER BY okey, upload, rowid LIMIT ?5";
        at.query(&mut connection.database, sql)
    }

    fn later<S: Alter, P: Shelf>(
        connection: &mut Connection<S, P>,
        at: &Later<'_>,
    ) -> Result<Vec<Row>, Error> {
        let sql =
            "SELECT okey, upload, begun FROM uploads WHERE tenant = ?1 AND bucket = ?2 AND okey = ?3 AND upload > ?4 ORDER BY okey, upload, rowid LIMIT ?5";
        at.query(&mut connection.database, sql)
    }
}
