//! Where blocks have their bytes: the SQL statements on places in packs and on packs, one function each.

ghost use Rattle.std.specs.Prelude.{◌≡◌, ◌≢◌, ◌++◌, ◌∷◌, [], ◌+◌, ◌-◌, ◌<◌, ◌≤◌, ◌^◌, true, pos, map};
ghost use Rattle.std.specs.Prelude.{filter, Some, None, IfSome, IfOk, IfErr, OnOk};
ghost use Rattle.sqlite.specs.Order.{column};
ghost use Rattle.sqlite.specs.declared.types.Value.TheVariants.{Int};
ghost use Rattle.sqlite.specs.Value.{owned};
ghost use Rattle.bh_base.specs.Measures.{AreMeasured};
ghost use Rattle.sqlite_keyed.specs.Lists.{update_where, delete_where};
ghost use Rattle.bh_rows.specs.Means.{is_trouble};
ghost use Rattle.bh_tables.specs.Schema.{Octets};
ghost use Rattle.bh_tables.specs.Rows.{PlaceRow};
ghost use Rattle.bh_tables.specs.Packs.{place_at, is_place, is_pack, shown_place, shown_pack};
ghost use Rattle.bh_tables.specs.Typed.{rebodied};
ghost use Rattle.bh_tables.specs.Shown.{is_block};
ghost use Rattle.bh_base.specs.Connections.{IsClean, CanReadBy, InMidst, Rewrites, IsTrouble, HasAt, places, packs};
ghost use Rattle.bh_base.specs.Calls.{Reads, WritesOn};
ghost use Rattle.bh_base.specs.Places.{IsPlaceOf, IsFound, MayPlace, IsLongest, KeepsRows, SetsPlaces, SetsPacks, NotesPlace};
ghost use Rattle.bh_base.specs.Places.{row_of_place, measured_as};

use crate::connection::Connection;
use bh_packs::place::Place;
use bh_shelf::shelf::Shelf;
use sqlite::types::{ToSql, ValueRef};
use sqlite::{Alter, Error, ErrorCode, Row};

/// 2^62, which the schema's numbers of a pack don't exceed.
const MOST: u64 = 0x4000_0000_0000_0000;

/// A number as a statement's parameter.
pub(crate) fn number<'a>(n: u64) -> ValueRef<'a>
    requires { n < 2 ^ 63 }
    ensures { owned result ≡ Int (pos n) }
{
    ValueRef::Int(n as i64)
}

/// Checks that a column can have the number of this pack.
pub fn in_range(pack: usize) -> Result<u64, Error>
    ensures same { IfOk result (λ n. n ≡ pack) }
    ensures small { IfOk result (λ n. n < 2 ^ 63) }
    ensures trouble { IfErr result (λ e. is_trouble e ≡ true) }
{
    if pack < 0x8000_0000_0000_0000 {
        Ok(pack as u64)
    } else {
        Err(Error::SqliteFailure(ErrorCode::TooBig))
    }
}

/// The only one of these rows. Any other number of them is a fault of the store.
fn only_row(rows: &[Row]) -> Result<&Row, Error>
    ensures only { IfOk result (λ row. rows.now ≡ row.now ∷ []) }
    ensures trouble { IfErr result (λ e. is_trouble e ≡ true) }
{
    let count = rows.len();
    if count > 1 {
        return Err(Error::SqliteFailure(ErrorCode::DatabaseCorrupt));
    }
    match rows.first() {
        Some(row) => Ok(row),
        None => Err(Error::SqliteFailure(ErrorCode::DatabaseCorrupt)),
    }
}

/// Checks that a column of a pack can have this number.
fn in_pack(n: u64) -> Result<u64, Error>
    ensures same { IfOk result (λ m. m ≡ n) }
    ensures small { IfOk result (λ m. m ≤ 2 ^ 62) }
    ensures trouble { IfErr result (λ e. is_trouble e ≡ true) }
{
    if n <= MOST {
        Ok(n)
    } else {
        Err(Error::SqliteFailure(ErrorCode::TooBig))
    }
}

/// The rows of the place of a block: one or none. It may be called inside a transaction and outside.
fn place_rows<S: Alter, P: Shelf>(
    connection: &mut Connection<S, P>,
    digest: &[u8],
    ord: u64,
) -> Result<Vec<Row>, Error>
    requires reads { CanReadBy S.Store P.Shelf connection.old }
    requires small { ord < 2 ^ 63 }
    ensures reads { Reads S.Store P.Shelf connection.old connection.new result }
    ensures rows { IfOk result (λ rows. IsClean S.Store P.Shelf connection.new
        → rows.items ≡ map shown_place (filter (is_place (digest.now, ord)) (places S.Store P.Shelf connection.old))) }
    ensures still { OnOk result (IsClean S.Store P.Shelf connection.new → KeepsRows S.Store P.Shelf connection.old connection.new) }
    ensures trouble { IfErr result (IsTrouble S.Store P.Shelf connection.old connection.new) }
{
    connection.database.query_all(
        "SELECT pack, place, size, sum FROM placed WHERE digest = ?1 AND ord = ?2 ORDER BY rowid",
        &[digest.to_sql(), number(ord)],
    )
}

/// The number in a column of a row. Anything else there is a fault of the store.
pub(crate) fn number_at(row: &Row, at: usize) -> Result<u64, Error>
    ensures read { IfOk result (λ n. column row.now at ≡ Int (pos n)) }
    ensures trouble { IfErr result (λ e. is_trouble e ≡ true) }
{
    match row.get(at) {
        Ok(n) => Ok(n),
        Err(_) => Err(Error::SqliteFailure(ErrorCode::DatabaseCorrupt)),
    }
}

/// The same of one that may be below 0.
fn signed_at(row: &Row, at: usize) -> Result<i64, Error>
    ensures read { IfOk result (λ n. column row.now at ≡ Int n) }
    ensures trouble { IfErr result (λ e. is_trouble e ≡ true) }
{
    match row.get(at) {
        Ok(n) => Ok(n),
        Err(_) => Err(Error::SqliteFailure(ErrorCode::DatabaseCorrupt)),
    }
}

/// The place in a row.
fn read_place(row: &Row) -> Result<Place, Error>
    ensures read { IfOk result (λ place. (p : PlaceRow) → row.now ≡ shown_place p → IsPlaceOf p place) }
    ensures trouble { IfErr result (λ e. is_trouble e ≡ true) }
{
    let pack = number_at(row, 0)?;
    let offset = number_at(row, 1)?;
    let size = number_at(row, 2)?;
    let sum = signed_at(row, 3)?;
    Ok(Place {
        pack: pack as usize,
        offset: offset as usize,
        size: size as usize,
        sum: sum.cast_unsigned(),
    })
}

/// The place of a block, if its bytes are in a pack.
pub fn place_of<S: Alter, P: Shelf>(
    connection: &mut Connection<S, P>,
    digest: &[u8],
    ord: u64,
) -> Result<Option<Place>, Error>
    requires reads { CanReadBy S.Store P.Shelf connection.old }
    requires small { ord < 2 ^ 63 }
    ensures reads { Reads S.Store P.Shelf connection.old connection.new result }
    ensures found { IfOk result (λ found. IsClean S.Store P.Shelf connection.new
        → IsFound (place_at (places S.Store P.Shelf connection.old) (digest.now, ord)) found) }
    ensures still { OnOk result (IsClean S.Store P.Shelf connection.new → KeepsRows S.Store P.Shelf connection.old connection.new) }
    ensures trouble { IfErr result (IsTrouble S.Store P.Shelf connection.old connection.new) }
{
    let rows = place_rows(connection, digest, ord)?;
    match rows.first() {
        None => Ok(None),
        Some(row) => Ok(Some(read_place(row)?)),
    }
}

/// Adds the place of a block that has no bytes in its row, as one step of a write: it has those of the place then.
pub fn insert_place<S: Alter, P: Shelf>(
    connection: &mut Connection<S, P>,
    digest: &[u8],
    ord: u64,
    place: Place,
) -> Result<usize, Error>
    requires midst { InMidst S.Store P.Shelf connection.old }
    requires small { ord < 2 ^ 63 }
    requires pack { place.pack < 2 ^ 63 }
    requires offset { place.offset < 2 ^ 63 }
    requires size { place.size < 2 ^ 63 }
    requires there { IsClean S.Store P.Shelf connection.old → MayPlace S.Store P.Shelf connection.old (digest.now, ord) place }
    ensures writes { WritesOn S.Store P.Shelf connection.old connection.new result }
    ensures rewrites { OnOk result ((bytes : Octets) → HasAt S.Store P.Shelf connection.old place bytes
        → Rewrites S.Store P.Shelf connection.old connection.new (λ sums. sums)
        (λ rows. rebodied rows rows.refs (update_where (is_block (digest.now, ord)) (λ b. record b { bytes = bytes }) rows.blocks))) }
    ensures placed { OnOk result (IsClean S.Store P.Shelf connection.new → SetsPlaces S.Store P.Shelf connection.old connection.new
        (places S.Store P.Shelf connection.old ++ row_of_place (digest.now, ord) place ∷ [])) }
{
    // Asked for what it ensures: the rows obey the schema.
    let _schema = connection.database.schema();
    connection.database.execute(
        "INSERT INTO placed (digest, ord, pack, place, size, sum) VALUES (?1, ?2, ?3, ?4, ?5, ?6)",
        &[
            digest.to_sql(),
            number(ord),
            number(place.pack as u64),
            number(place.offset as u64),
            number(place.size as u64),
            place.sum.cast_signed().to_sql(),
        ],
    )
}

/// Deletes the place of a block, as one step of a write that deletes the block: it has no bytes then.
pub fn delete_place<S: Alter, P: Shelf>(
    connection: &mut Connection<S, P>,
    digest: &[u8],
    ord: u64,
) -> Result<usize, Error>
    requires midst { InMidst S.Store P.Shelf connection.old }
    requires small { ord < 2 ^ 63 }
    requires placed { IsClean S.Store P.Shelf connection.old
        → place_at (places S.Store P.Shelf connection.old) (digest.now, ord) ≢ None }
    ensures writes { WritesOn S.Store P.Shelf connection.old connection.new result }
    ensures rewrites { OnOk result (Rewrites S.Store P.Shelf connection.old connection.new (λ sums. sums)
        (λ rows. rebodied rows rows.refs (update_where (is_block (digest.now, ord)) (λ b. record b { bytes = [] }) rows.blocks))) }
    ensures displaced { OnOk result (IsClean S.Store P.Shelf connection.new → SetsPlaces S.Store P.Shelf connection.old connection.new
        (delete_where (is_place (digest.now, ord)) (places S.Store P.Shelf connection.old))) }
    ensures trouble { IfErr result (IsTrouble S.Store P.Shelf connection.old connection.new) }
{
    // Asked for what it ensures: the rows obey the schema.
    let _schema = connection.database.schema();
    connection.database.execute(
        "DELETE FROM placed WHERE digest = ?1 AND ord = ?2",
        &[digest.to_sql(), number(ord)],
    )
}

/// The rows of a pack: one or none.
fn pack_rows<S: Alter, P: Shelf>(
    connection: &mut Connection<S, P>,
    pack: u64,
) -> Result<Vec<Row>, Error>
    requires reads { CanReadBy S.Store P.Shelf connection.old }
    requires small { pack < 2 ^ 63 }
    ensures reads { Reads S.Store P.Shelf connection.old connection.new result }
    ensures rows { IfOk result (λ rows. IsClean S.Store P.Shelf connection.new
        → rows.items ≡ map shown_pack (filter (is_pack pack) (packs S.Store P.Shelf connection.old))) }
    ensures still { OnOk result (IsClean S.Store P.Shelf connection.new → KeepsRows S.Store P.Shelf connection.old connection.new) }
    ensures trouble { IfErr result (IsTrouble S.Store P.Shelf connection.old connection.new) }
{
    connection.database.query_all(
        "SELECT length, live FROM packs WHERE pack = ?1 ORDER BY rowid",
        &[number(pack)],
    )
}

/// How many bytes of a pack are committed, and how many of these places name.
#[derive(Clone, Copy)]
pub struct Measure {
    pub length: u64,
    pub live: u64,
}

/// How much of a pack is committed, and how much of it places name, if it has a row.
fn measure_of<S: Alter, P: Shelf>(
    connection: &mut Connection<S, P>,
    pack: u64,
) -> Result<Option<Measure>, Error>
    requires reads { CanReadBy S.Store P.Shelf connection.old }
    requires small { pack < 2 ^ 63 }
    ensures reads { Reads S.Store P.Shelf connection.old connection.new result }
    ensures found { IfOk result (λ found. IsClean S.Store P.Shelf connection.new
        → AreMeasured (filter (is_pack pack) (packs S.Store P.Shelf connection.old)) found) }
    ensures low { IfOk result (λ found. IfSome found (λ m. (m.length ≤ 2 ^ 62) × (m.live ≤ 2 ^ 62))) }
    ensures still { OnOk result (IsClean S.Store P.Shelf connection.new → KeepsRows S.Store P.Shelf connection.old connection.new) }
    ensures trouble { IfErr result (IsTrouble S.Store P.Shelf connection.old connection.new) }
{
    let rows = pack_rows(connection, pack)?;
    if rows.is_empty() {
        return Ok(None);
    }
    let row = only_row(&rows)?;
    let length = in_pack(number_at(row, 0)?)?;
    let live = in_pack(number_at(row, 1)?)?;
    Ok(Some(Measure { length, live }))
}

/// Adds a pack, as one step of a write.
fn add_pack<S: Alter, P: Shelf>(
    connection: &mut Connection<S, P>,
    pack: u64,
    length: u64,
    live: u64,
) -> Result<usize, Error>
    requires midst { InMidst S.Store P.Shelf connection.old }
    requires pack { pack < 2 ^ 63 }
    requires length { length ≤ 2 ^ 62 }
    requires live { live ≤ 2 ^ 62 }
    ensures writes { WritesOn S.Store P.Shelf connection.old connection.new result }
    ensures rewrites { OnOk result (Rewrites S.Store P.Shelf connection.old connection.new (λ sums. sums) (λ rows. rows)) }
    ensures added { OnOk result (IsClean S.Store P.Shelf connection.new → SetsPacks S.Store P.Shelf connection.old connection.new
        (packs S.Store P.Shelf connection.old ++ record { pack = pack; length = length; live = live } ∷ [])) }
{
    // Asked for what it ensures: the rows obey the schema.
    let _schema = connection.database.schema();
    connection.database.execute(
        "INSERT INTO packs (pack, length, live) VALUES (?1, ?2, ?3)",
        &[number(pack), number(length), number(live)],
    )
}

/// Sets the numbers of a pack, which is no shorter then, as one step of a write.
fn set_pack<S: Alter, P: Shelf>(
    connection: &mut Connection<S, P>,
    pack: u64,
    length: u64,
    live: u64,
) -> Result<usize, Error>
    requires midst { InMidst S.Store P.Shelf connection.old }
    requires pack { pack < 2 ^ 63 }
    requires length { length ≤ 2 ^ 62 }
    requires live { live ≤ 2 ^ 62 }
    requires longest { IsClean S.Store P.Shelf connection.old → IsLongest S.Store P.Shelf connection.old pack length }
    ensures writes { WritesOn S.Store P.Shelf connection.old connection.new result }
    ensures rewrites { OnOk result (Rewrites S.Store P.Shelf connection.old connection.new (λ sums. sums) (λ rows. rows)) }
    ensures set { OnOk result (IsClean S.Store P.Shelf connection.new → SetsPacks S.Store P.Shelf connection.old connection.new
        (update_where (is_pack pack) (measured_as length live) (packs S.Store P.Shelf connection.old))) }
    ensures trouble { IfErr result (IsTrouble S.Store P.Shelf connection.old connection.new) }
{
    // Asked for what it ensures: the rows obey the schema.
    let _schema = connection.database.schema();
    connection.database.execute(
        "UPDATE packs SET length = ?2, live = ?3 WHERE pack = ?1",
        &[number(pack), number(length), number(live)],
    )
}

/// A place whose numbers columns can have.
pub fn checked(place: Place) -> Result<Place, Error>
    ensures same { IfOk result (λ p. p ≡ place) }
    ensures pack { IfOk result (λ p. p.pack < 2 ^ 63) }
    ensures end { IfOk result (λ p. p.offset + p.size ≤ 2 ^ 62) }
    ensures trouble { IfErr result (λ e. is_trouble e ≡ true) }
{
    in_range(place.pack)?;
    let Some(end) = place.offset.checked_add(place.size) else {
        return Err(Error::SqliteFailure(ErrorCode::TooBig));
    };
    in_pack(end as u64)?;
    Ok(place)
}

/// Notes in a pack's row that it has the bytes of a place, and that a block names them, as one step of a write.
pub fn note_place<S: Alter, P: Shelf>(
    connection: &mut Connection<S, P>,
    place: Place,
) -> Result<usize, Error>
    requires midst { InMidst S.Store P.Shelf connection.old }
    requires pack { place.pack < 2 ^ 63 }
    requires end { place.offset + place.size ≤ 2 ^ 62 }
    ensures writes { WritesOn S.Store P.Shelf connection.old connection.new result }
    ensures rewrites { OnOk result (Rewrites S.Store P.Shelf connection.old connection.new (λ sums. sums) (λ rows. rows)) }
    ensures noted { OnOk result (IsClean S.Store P.Shelf connection.new
        → NotesPlace S.Store P.Shelf connection.old connection.new place) }
{
    let pack = place.pack as u64;
    let end = place.offset as u64 + place.size as u64;
    let size = place.size as u64;
    match measure_of(connection, pack)? {
        None => add_pack(connection, pack, end, size),
        Some(measure) => {
            let live = in_pack(measure.live + size)?;
            set_pack(connection, pack, measure.length.max(end), live)
        }
    }
}

/// Notes in a pack's row that so many of its bytes are named by no block any more, as one step of a write.
fn lower_live<S: Alter, P: Shelf>(
    connection: &mut Connection<S, P>,
    pack: u64,
    size: u64,
) -> Result<usize, Error>
    requires midst { InMidst S.Store P.Shelf connection.old }
    requires small { pack < 2 ^ 63 }
    ensures writes { WritesOn S.Store P.Shelf connection.old connection.new result }
    ensures rewrites { OnOk result (Rewrites S.Store P.Shelf connection.old connection.new (λ sums. sums) (λ rows. rows)) }
    ensures lowered { OnOk result (IsClean S.Store P.Shelf connection.new → SetsPacks S.Store P.Shelf connection.old connection.new
        (update_where (is_pack pack) (λ p. measured_as p.length (p.live - size) p) (packs S.Store P.Shelf connection.old))) }
    ensures trouble { IfErr result (IsTrouble S.Store P.Shelf connection.old connection.new) }
{
    match measure_of(connection, pack)? {
        None => Err(Error::SqliteFailure(ErrorCode::DatabaseCorrupt)),
        Some(measure) => set_pack(
            connection,
            pack,
            measure.length,
            measure.live.saturating_sub(size),
        ),
    }
}

/// Deletes the place of a block, and notes it in the pack's row, as one step of a write that deletes the block.
pub fn displace<S: Alter, P: Shelf>(
    connection: &mut Connection<S, P>,
    digest: &[u8],
    ord: u64,
    place: Place,
) -> Result<usize, Error>
    requires midst { InMidst S.Store P.Shelf connection.old }
    requires small { ord < 2 ^ 63 }
    requires placed { IsClean S.Store P.Shelf connection.old
        → IsFound (place_at (places S.Store P.Shelf connection.old) (digest.now, ord)) (Some place) }
    ensures writes { WritesOn S.Store P.Shelf connection.old connection.new result }
    ensures rewrites { OnOk result (Rewrites S.Store P.Shelf connection.old connection.new (λ sums. sums)
        (λ rows. rebodied rows rows.refs (update_where (is_block (digest.now, ord)) (λ b. record b { bytes = [] }) rows.blocks))) }
    ensures displaced { OnOk result (IsClean S.Store P.Shelf connection.new → places S.Store P.Shelf connection.new
        ≡ delete_where (is_place (digest.now, ord)) (places S.Store P.Shelf connection.old)) }
    ensures lowered { OnOk result (IsClean S.Store P.Shelf connection.new → packs S.Store P.Shelf connection.new
        ≡ update_where (is_pack place.pack) (λ p. measured_as p.length (p.live - place.size) p) (packs S.Store P.Shelf connection.old)) }
    ensures trouble { IfErr result (IsTrouble S.Store P.Shelf connection.old connection.new) }
{
    let pack = in_range(place.pack)?;
    delete_place(connection, digest, ord)?;
    lower_live(connection, pack, place.size as u64)
}
