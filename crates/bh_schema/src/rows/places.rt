//! The places of a key's entries: their numbers and ids, and which are delete markers.

ghost use Rattle.std.specs.Prelude.{◌≡◌, ◌<◌, ◌^◌, true, List, find, map, take, option_map, slice_get, IfOk, IfErr};
ghost use Rattle.bh_rows.specs.Means.{is_trouble};
ghost use Rattle.bh_tables.specs.Typed.{VersionRow};
ghost use Rattle.bh_tables.specs.Shown.{is_version, shown_place};
ghost use Rattle.bh_schema.specs.Calls.{Reads};
ghost use Rattle.bh_base.specs.Connections.{IsClean, tables, InTransaction, IsTrouble};
ghost use Rattle.bh_schema.specs.Rows.{entries_at};
ghost use Rattle.bh_schema.specs.Tallies.{place_of, place_reading};

use crate::rows::number::number;
use crate::rows::reading::{FromRow, first_of};
use bh_base::connection::Connection;
use bh_shelf::shelf::Shelf;
use sqlite::types::ToSql;
use sqlite::{Alter, Error, Row};

/// An entry's place among the entries of its key.
#[derive(Clone, Copy)]
pub struct Place {
    /// Its entry number, which orders the entries of a key.
    pub seq: u64,
    /// 0 for `null`.
    pub id: u64,
    /// 1 for a delete marker, 0 for a version.
    pub marker: u64,
}

impl FromRow for Place {
    ghost reading = { place_reading };

    fn read(row: &Row) -> Result<Place, Error> {
        Ok(Place {
            seq: row.get(0)?,
            id: row.get(1)?,
            marker: row.get(2)?,
        })
    }
}

/// The newest entry of a key, and the one before it.
#[derive(Clone, Copy)]
pub struct NewestPlaces {
    pub first: Option<Place>,
    pub second: Option<Place>,
}

/// The places of the entries in the first row and in the second.
fn read_places(rows: &[Row]) -> Result<NewestPlaces, Error>
    ensures first { IfOk result (λ found. (vs : List VersionRow) → rows.now ≡ take 2 (map shown_place vs)
        → found.first ≡ option_map place_of (slice_get vs 0)) }
    ensures second { IfOk result (λ found. (vs : List VersionRow) → rows.now ≡ take 2 (map shown_place vs)
        → found.second ≡ option_map place_of (slice_get vs 1)) }
    ensures trouble { IfErr result (λ e. (vs : List VersionRow) → rows.now ≡ take 2 (map shown_place vs) → is_trouble e ≡ true) }
{
    let first = first_of(rows)?;
    let second = match rows.get(1) {
        None => None,
        Some(row) => Some(Place::read(row)?),
    };
    Ok(NewestPlaces { first, second })
}

/// The two newest entries of a key, or fewer if it has fewer.
pub fn newest_places<S: Alter, P: Shelf>(
    connection: &mut Connection<S, P>,
    tenant: &str,
    bucket: &str,
    okey: &[u8],
) -> Result<NewestPlaces, Error>
    requires inside { InTransaction S.Store P.Shelf connection.old }
    ensures reads { Reads S.Store P.Shelf connection.old connection.new result }
    ensures first { IfOk result (λ found. IsClean S.Store P.Shelf connection.new → found.first ≡ option_map place_of
        (slice_get (entries_at tenant.now bucket.now okey.now (tables S.Store P.Shelf connection.old).versions) 0)) }
    ensures second { IfOk result (λ found. IsClean S.Store P.Shelf connection.new → found.second ≡ option_map place_of
        (slice_get (entries_at tenant.now bucket.now okey.now (tables S.Store P.Shelf connection.old).versions) 1)) }
    ensures trouble { IfErr result (IsTrouble S.Store P.Shelf connection.old connection.new) }
{
    let rows = connection.database.query_all(
        "SELECT seq, id, marker FROM versions WHERE tenant = ?1 AND bucket = ?2 AND okey = ?3 ORDER BY seq DESC, rowid LIMIT 2",
        &[tenant.to_sql(), bucket.to_sql(), okey.to_sql()],
    )?;
    read_places(&rows)
}

/// The entry of a key with this id, if there is one; 0 is `null`.
pub fn place_of_id<S: Alter, P: Shelf>(
    connection: &mut Connection<S, P>,
    tenant: &str,
    bucket: &str,
    okey: &[u8],
    id: u64,
) -> Result<Option<Place>, Error>
    requires inside { InTransaction S.Store P.Shelf connection.old }
    requires small { id < 2 ^ 63 }
    ensures reads { Reads S.Store P.Shelf connection.old connection.new result }
    ensures found { IfOk result (λ found. IsClean S.Store P.Shelf connection.new → found ≡ option_map place_of
        (find (is_version tenant.now bucket.now okey.now id) (tables S.Store P.Shelf connection.old).versions)) }
    ensures trouble { IfErr result (IsTrouble S.Store P.Shelf connection.old connection.new) }
{
    let rows = connection.database.query_all(
        "SELECT seq, id, marker FROM versions WHERE tenant = ?1 AND bucket = ?2 AND okey = ?3 AND id = ?4 ORDER BY rowid",
        &[tenant.to_sql(), bucket.to_sql(), okey.to_sql(), number(id)],
    )?;
    first_of(&rows)
}
