//! The rows of a listing, a few at a time.

ghost use Rattle.std.specs.Prelude.{◌≡◌, ◌<◌, ◌^◌, List, map, IfOk, IfErr};
ghost use Rattle.bh_schema.specs.Calls.{Reads, MayRead};
ghost use Rattle.bh_base.specs.Connections.{IsClean, tables, InTransaction, IsTrouble};
ghost use Rattle.bh_listing.specs.Texts.{Queried, Shows, keyed_params, later_params, rows_placed};

use crate::from_row::{FromRow, read_rows};
use bh_base::connection::Connection;
use bh_pages::places::Place;
use bh_schema::rows::number::number;
use bh_schema::trouble::or_trouble;
use bh_shelf::shelf::Shelf;
use bh_storage::error::Trouble;
use sqlite::types::ToSql;
use sqlite::{Alter, Connection as Database, Error, Row};
use std::alloc::Global;

/// The rows of a bucket with a key from one text on and before another.
#[derive(Clone, Copy)]
pub struct Keyed<'a> {
    pub tenant: &'a str,
    pub bucket: &'a str,
    pub from: &'a [u8],
    pub upto: &'a [u8],
    /// The maximum number of rows.
    pub count: u64,
}

impl Keyed<'_> {
    /// The rows of the query with these parameters.
    pub fn query<S: Alter>(&self, database: &mut Database<S>, sql: &str) -> Result<Vec<Row>, Error>
        requires { self.now.count < 2 ^ 63 }
        ensures { Queried S.Store database.old database.new sql.now (keyed_params self.now) result }
    {
        database.query_all(
            sql,
            &[
                self.tenant.to_sql(),
                self.bucket.to_sql(),
                self.from.to_sql(),
                self.upto.to_sql(),
                number(self.count),
            ],
        )
    }
}

/// The rows of a key in a bucket that follow the one with a number.
#[derive(Clone, Copy)]
pub struct Later<'a> {
    pub tenant: &'a str,
    pub bucket: &'a str,
    pub key: &'a [u8],
    pub after: u64,
    /// The maximum number of rows.
    pub count: u64,
}

impl Later<'_> {
    /// The rows of the query with these parameters.
    pub fn query<S: Alter>(&self, database: &mut Database<S>, sql: &str) -> Result<Vec<Row>, Error>
        requires early { self.now.after < 2 ^ 63 }
        requires small { self.now.count < 2 ^ 63 }
        ensures { Queried S.Store database.old database.new sql.now (later_params self.now) result }
    {
        database.query_all(
            sql,
            &[
                self.tenant.to_sql(),
                self.bucket.to_sql(),
                self.key.to_sql(),
                number(self.after),
                number(self.count),
            ],
        )
    }
}

/// The value of a row that a listing reads from any place on, in the order of the listing.
pub trait PlacedRow: FromRow {
    ghost rows: { Shows };

    /// The first rows with keys in a range.
    fn keyed<S: Alter, P: Shelf>(
        connection: &mut Connection<S, P>,
        at: &Keyed<'_>,
    ) -> Result<Vec<Row>, Error>
        requires inside { InTransaction S.Store P.Shelf connection.old }
        requires small { at.now.count < 2 ^ 63 }
        ensures reads { Reads S.Store P.Shelf connection.old connection.new result }
        ensures rows { IfOk result (λ shown. IsClean S.Store P.Shelf connection.new
            → shown.items ≡ rows.keyed at.now.tenant.now at.now.bucket.now at.now.from.now at.now.upto.now at.now.count
            (tables S.Store P.Shelf connection.old)) }
        ensures trouble { IfErr result (IsTrouble S.Store P.Shelf connection.old connection.new) };

    /// The first rows of a key after a number.
    fn later<S: Alter, P: Shelf>(
        connection: &mut Connection<S, P>,
        at: &Later<'_>,
    ) -> Result<Vec<Row>, Error>
        requires inside { InTransaction S.Store P.Shelf connection.old }
        requires early { at.now.after < 2 ^ 63 }
        requires small { at.now.count < 2 ^ 63 }
        ensures reads { Reads S.Store P.Shelf connection.old connection.new result }
        ensures rows { IfOk result (λ shown. IsClean S.Store P.Shelf connection.new
            → shown.items ≡ rows.later at.now.tenant.now at.now.bucket.now at.now.key.now at.now.after at.now.count
            (tables S.Store P.Shelf connection.old)) }
        ensures trouble { IfErr result (IsTrouble S.Store P.Shelf connection.old connection.new) };
}

/// The keys of a bucket that a listing reads.
#[derive(Clone, Copy)]
pub struct Keys<'a> {
    pub tenant: &'a str,
    pub bucket: &'a str,
    /// An upper limit, which is not included.
    pub upto: &'a [u8],
}

/// At most `count` rows, from a place on.
fn placed_rows<L: PlacedRow, S: Alter, P: Shelf>(
    connection: &mut Connection<S, P>,
    keys: &Keys<'_>,
    place: &Place,
    count: u64,
) -> Result<Vec<Row>, Trouble>
    requires inside { InTransaction S.Store P.Shelf connection.old }
    requires small { count < 2 ^ 63 }
    ensures reads { MayRead S.Store P.Shelf connection.old connection.new result }
    ensures rows { IfOk result (λ shown. IsClean S.Store P.Shelf connection.new
        → shown.items ≡ rows_placed L.rows keys.now.tenant.now keys.now.bucket.now place.now.key.items place.now.after keys.now.upto.now
        count
        (tables S.Store P.Shelf connection.old)) }
{
    let Keys {
        tenant,
        bucket,
        upto,
    } = *keys;
    let key = place.key.as_slice();
    match place.after {
        None => {
            let from = key;
            or_trouble(L::keyed(
                connection,
                &Keyed {
                    tenant,
                    bucket,
                    from,
                    upto,
                    count,
                },
            ))
        }
        Some(after) if after < 1 << 63 => {
            or_trouble(L::later(
                connection,
                &Later {
                    tenant,
                    bucket,
                    key,
                    after,
                    count,
                },
            ))
        }
        // No row has a number that large.
        Some(_) => Err(Trouble::Store),
    }
}

/// The values of at most `count` rows, from a place on, in the order of the listing.
pub fn lines_at<L: PlacedRow + Drop, S: Alter, P: Shelf>(
    connection: &mut Connection<S, P>,
    alloc: Global,
    keys: &Keys<'_>,
    place: &Place,
    count: u64,
) -> Result<Vec<L>, Trouble>
    requires inside { InTransaction S.Store P.Shelf connection.old }
    requires small { count < 2 ^ 63 }
    ensures reads { MayRead S.Store P.Shelf connection.old connection.new result }
    ensures lines { IfOk result (λ lines. IsClean S.Store P.Shelf connection.new → (rs : List L.FromRow.Of)
        → rows_placed L.rows keys.now.tenant.now keys.now.bucket.now place.now.key.items place.now.after keys.now.upto.now count
        (tables S.Store P.Shelf connection.old) ≡ map (L.FromRow.columns).shown rs
        → map (L.FromRow.columns).see lines.items ≡ map (L.FromRow.columns).told rs) }
{
    let rows = placed_rows::<L, S, P>(connection, keys, place, count)?;
    or_trouble(read_rows(alloc, &rows))
}
