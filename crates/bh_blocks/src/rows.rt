//! The SQL statements on blocks, one function each, and the values of their rows.

ghost use Rattle.std.specs.Prelude.{◌≡◌, ◌≢◌, ◌++◌, ◌∷◌, [], ◌<◌, ◌^◌, true, false, length, map, filter, List, None};
ghost use Rattle.std.specs.Prelude.{IfSome, IfOk, IfErr, OnOk};
ghost use Rattle.std.specs.List.{list_any};
ghost use Rattle.sqlite_keyed.specs.Lists.{delete_where, sort_by};
ghost use Rattle.bh_rows.specs.Means.{is_trouble};
ghost use Rattle.bh_tables.specs.Typed.{BlockRow as Stored, rebodied};
ghost use Rattle.bh_tables.specs.Shown.{block_name, is_block, is_use, has_digest, by_ord, shown_ord, shown_name, shown_bytes};
ghost use Rattle.bh_tables.specs.Packs.{place_at};
ghost use Rattle.sqlite_rules.specs.Lists.{Has};
ghost use Rattle.bh_base.specs.Connections.{IsClean, tables, CanRead, CanReadBy, InTransaction, InMidst, Rewrites, IsTrouble, IsTroubleIf};
ghost use Rattle.bh_base.specs.Connections.{HasAt, places, rows_of_blocks, stands, StaysWithin, StaysOpen, WasOpen, ChangesNothing};
ghost use Rattle.bh_base.specs.Places.{IsThere, KeepsRows, KeepsPlaces, ChangesBlock};
ghost use Rattle.bh_schema.specs.Calls.{Reads, WritesOn};
ghost use Rattle.bh_tables.specs.Schema.{Octets};
ghost use Rattle.bh_blocks.specs.Named.{stored_name};
ghost use Rattle.bh_blocks.specs.Uses.{IsNewName, size_of};

use bh_base::connection::Connection;
use bh_base::places::{checked, displace, insert_place, note_place, place_of};
use bh_packs::place::{Lane, Place};
use bh_schema::rows::number::number;
use bh_shelf::shelf::Shelf;
use sqlite::types::ToSql;
use sqlite::{Alter, Error, ErrorCode, Row};
use std::alloc::Global;

/// A block of more bytes has them in a pack.
const MOST_IN_ROW: usize = 4096;

/// A block's name in a row.
#[derive(Drop)]
pub struct StoredName {
    pub digest: Vec<u8>,
    pub ord: u64,
}

/// Checks that a column can have this ordinal.
pub fn in_range(ord: u64) -> Result<u64, Error>
    ensures same { IfOk result (λ n. n ≡ ord) }
    ensures small { IfOk result (λ n. n < 2 ^ 63) }
    ensures trouble { IfErr result (λ e. is_trouble e ≡ true) }
{
    if ord < 0x8000_0000_0000_0000 {
        Ok(ord)
    } else {
        Err(Error::SqliteFailure(ErrorCode::TooBig))
    }
}

/// The only one of these rows. Any other number of them is a fault of the store.
pub fn only_row(rows: &[Row]) -> Result<&Row, Error>
    ensures only { IfOk result (λ row. rows.now ≡ row.now ∷ []) }
    ensures trouble { IfErr result (λ e. is_trouble e ≡ true) }
{
    let count = rows.len();
    if count > 1 {
        return Err(Error::SqliteFailure(ErrorCode::DatabaseCorrupt));
    }
    match rows.first() {
        Some(row) => Ok(row),
        None => Err(Error::SqliteFailure(ErrorCode::DatabaseCorrupt)),
    }
}

pub fn read_ord(row: &Row) -> Result<u64, Error>
    ensures read { IfOk result (λ ord. (b : Stored) → row.now ≡ shown_ord b → ord ≡ b.ord) }
    ensures small { IfOk result (λ ord. ord < 2 ^ 63) }
    ensures trouble { IfErr result (λ e. is_trouble e ≡ true) }
{
    match row.get(0) {
        Ok(ord) => in_range(ord),
        Err(_) => Err(Error::SqliteFailure(ErrorCode::DatabaseCorrupt)),
    }
}

pub fn read_name(row: &Row) -> Result<StoredName, Error>
    ensures read { IfOk result (λ name. (b : Stored) → row.now ≡ shown_name b → stored_name name ≡ block_name b) }
    ensures small { IfOk result (λ name. name.ord < 2 ^ 63) }
    ensures trouble { IfErr result (λ e. (b : Stored) → row.now ≡ shown_name b → is_trouble e ≡ true) }
{
    let ord: u64 = row.get(1)?;
    Ok(StoredName {
        digest: row.get(0)?,
        ord: in_range(ord)?,
    })
}

/// The blocks of a digest, as they come.
pub fn blocks_of<S: Alter, P: Shelf>(
    connection: &mut Connection<S, P>,
    digest: &[u8],
) -> Result<Vec<Row>, Error>
    requires inside { InTransaction S.Store P.Shelf connection.old }
    ensures reads { Reads S.Store P.Shelf connection.old connection.new result }
    ensures rows { IfOk result (λ rows. IsClean S.Store P.Shelf connection.new
        → rows.items ≡ map shown_ord (filter (has_digest digest.now) (tables S.Store P.Shelf connection.old).blocks)) }
    ensures trouble { IfErr result (IsTrouble S.Store P.Shelf connection.old connection.new) }
{
    connection.database.query_all(
        "SELECT ord FROM blocks WHERE digest = ?1 ORDER BY rowid",
        &[digest.to_sql()],
    )
}

pub fn ord_rows<S: Alter, P: Shelf>(
    connection: &mut Connection<S, P>,
    digest: &[u8],
) -> Result<Vec<Row>, Error>
    requires inside { InTransaction S.Store P.Shelf connection.old }
    ensures reads { Reads S.Store P.Shelf connection.old connection.new result }
    ensures rows { IfOk result (λ rows. IsClean S.Store P.Shelf connection.new
        → rows.items ≡ map shown_ord (sort_by by_ord (filter (has_digest digest.now) (tables S.Store P.Shelf connection.old).blocks))) }
    ensures trouble { IfErr result (IsTrouble S.Store P.Shelf connection.old connection.new) }
{
    connection.database.query_all(
        "SELECT ord FROM blocks WHERE digest = ?1 ORDER BY ord, rowid",
        &[digest.to_sql()],
    )
}

/// The block of a name, with the bytes in its row. It may be called inside a transaction and outside.
fn bytes_rows<S: Alter, P: Shelf>(
    connection: &mut Connection<S, P>,
    digest: &[u8],
    ord: u64,
) -> Result<Vec<Row>, Error>
    requires reads { CanReadBy S.Store P.Shelf connection.old }
    requires small { ord < 2 ^ 63 }
    ensures reads { Reads S.Store P.Shelf connection.old connection.new result }
    ensures rows { IfOk result (λ rows. IsClean S.Store P.Shelf connection.new
        → rows.items ≡ map shown_bytes (filter (is_block (digest.now, ord)) (rows_of_blocks S.Store P.Shelf connection.old))) }
    ensures still { OnOk result (IsClean S.Store P.Shelf connection.new → KeepsRows S.Store P.Shelf connection.old connection.new) }
    ensures trouble { IfErr result (IsTrouble S.Store P.Shelf connection.old connection.new) }
{
    connection.database.query_all(
        "SELECT bytes FROM blocks WHERE digest = ?1 AND ord = ?2 ORDER BY rowid",
        &[digest.to_sql(), number(ord)],
    )
}

/// The bytes in a row.
fn read_bytes(row: &Row) -> Result<Vec<u8>, Error>
    ensures read { IfOk result (λ bytes. (b : Stored) → row.now ≡ shown_bytes b → b.bytes ≡ bytes.items) }
    ensures trouble { IfErr result (λ e. (b : Stored) → row.now ≡ shown_bytes b → is_trouble e ≡ true) }
{
    let bytes: Vec<u8> = row.get(0)?;
    Ok(bytes)
}

/// The bytes in the only one of these rows.
fn bytes_in(rows: &[Row]) -> Result<Vec<u8>, Error>
    ensures bytes { IfOk result (λ bytes. (bs : List Stored) → rows.now ≡ map shown_bytes bs → map (λ b. b.bytes) bs ≡ bytes.items ∷ []) }
    ensures trouble { IfErr result (λ e. (bs : List Stored) → rows.now ≡ map shown_bytes bs → is_trouble e ≡ true) }
{
    let row = only_row(rows)?;
    read_bytes(row)
}

/// The bytes of a place.
fn read_at<S: Alter, P: Shelf>(
    connection: &mut Connection<S, P>,
    alloc: Global,
    place: Place,
) -> Result<Vec<u8>, Error>
    requires { CanReadBy S.Store P.Shelf connection.old }
    ensures within { StaysWithin S.Store P.Shelf connection.old connection.new }
    ensures opens { OnOk result (StaysOpen S.Store P.Shelf connection.old connection.new) }
    ensures same { ChangesNothing S.Store P.Shelf connection.old connection.new }
    ensures bytes { IfOk result (λ bytes. IsClean S.Store P.Shelf connection.new → (there : Octets)
        → HasAt S.Store P.Shelf connection.old place there → length there ≡ place.size → bytes.items ≡ there) }
    ensures trouble { IfErr result (λ e. is_trouble e ≡ true) }
{
    let mut room = vec![in alloc; 0u8; place.size]?;
    connection.read(place, room.as_mut_slice())?;
    Ok(room)
}

/// The bytes of a block, from its row or from its place. It may be called inside a transaction and outside.
pub fn block_bytes<S: Alter, P: Shelf>(
    connection: &mut Connection<S, P>,
    digest: &[u8],
    ord: u64,
) -> Result<Vec<u8>, Error>
    requires reads { CanRead S.Store P.Shelf connection.old }
    requires small { ord < 2 ^ 63 }
    ensures reads { Reads S.Store P.Shelf connection.old connection.new result }
    ensures bytes { IfOk result (λ bytes. IsClean S.Store P.Shelf connection.new
        → map (λ b. b.bytes) (filter (is_block (digest.now, ord)) (tables S.Store P.Shelf connection.old).blocks) ≡ bytes.items ∷ []) }
    ensures trouble { IfErr result (IsTrouble S.Store P.Shelf connection.old connection.new) }
{
    let rows = bytes_rows(connection, digest, ord)?;
    let stored = bytes_in(&rows)?;
    // A block with bytes in its row has no place.
    let has_some = !stored.is_empty();
    if has_some {
        return Ok(stored);
    }
    match place_of(connection, digest, ord)? {
        None => Ok(stored),
        Some(place) => read_at(connection, *stored.allocator(), place),
    }
}

/// Whether a block has these bytes.
pub fn has_bytes<S: Alter, P: Shelf>(
    connection: &mut Connection<S, P>,
    digest: &[u8],
    ord: u64,
    bytes: &[u8],
) -> Result<bool, Error>
    requires reads { CanRead S.Store P.Shelf connection.old }
    requires small { ord < 2 ^ 63 }
    ensures reads { Reads S.Store P.Shelf connection.old connection.new result }
    ensures same { IfOk result (λ is_copy. IsClean S.Store P.Shelf connection.new → is_copy ≡ true → (b : Stored)
        → Has (tables S.Store P.Shelf connection.old).blocks b → is_block (digest.now, ord) b ≡ true → b.bytes ≡ bytes.now) }
    ensures other { IfOk result (λ is_copy. IsClean S.Store P.Shelf connection.new → is_copy ≡ false → (b : Stored)
        → Has (tables S.Store P.Shelf connection.old).blocks b → is_block (digest.now, ord) b ≡ true → b.bytes ≢ bytes.now) }
    ensures trouble { IfErr result (IsTrouble S.Store P.Shelf connection.old connection.new) }
{
    let found = block_bytes(connection, digest, ord)?;
    Ok(found.as_slice() == bytes)
}

/// How many bytes a block has.
pub fn size_of_block<S: Alter, P: Shelf>(
    connection: &mut Connection<S, P>,
    digest: &[u8],
    ord: u64,
) -> Result<u64, Error>
    requires inside { InTransaction S.Store P.Shelf connection.old }
    requires small { ord < 2 ^ 63 }
    ensures reads { Reads S.Store P.Shelf connection.old connection.new result }
    ensures size { IfOk result (λ n. IsClean S.Store P.Shelf connection.new
        → map size_of (filter (is_block (digest.now, ord)) (tables S.Store P.Shelf connection.old).blocks) ≡ n ∷ []) }
    ensures trouble { IfErr result (IsTrouble S.Store P.Shelf connection.old connection.new) }
{
    let rows = bytes_rows(connection, digest, ord)?;
    let stored = bytes_in(&rows)?;
    let count = stored.len() as u64;
    if count > 0 {
        return Ok(count);
    }
    match place_of(connection, digest, ord)? {
        None => Ok(count),
        Some(place) => Ok(place.size as u64),
    }
}

/// Adds a block with the bytes in its row, as one step of a write that counts its uses.
pub fn insert_row<S: Alter, P: Shelf>(
    connection: &mut Connection<S, P>,
    digest: &[u8],
    ord: u64,
    bytes: &[u8],
) -> Result<usize, Error>
    requires midst { InMidst S.Store P.Shelf connection.old }
    requires small { ord < 2 ^ 63 }
    ensures writes { WritesOn S.Store P.Shelf connection.old connection.new result }
    ensures rewrites { OnOk result (Rewrites S.Store P.Shelf connection.old connection.new (λ sums. sums)
        (λ rows. rebodied rows rows.refs (rows.blocks ++ record { digest = digest.now; ord = ord; bytes = bytes.now } ∷ []))) }
    ensures fresh { OnOk result (IsClean S.Store P.Shelf connection.new
        → IsNewName (digest.now, ord) (tables S.Store P.Shelf connection.old)) }
    ensures still { OnOk result (IsClean S.Store P.Shelf connection.new → KeepsPlaces S.Store P.Shelf connection.old connection.new) }
{
    // Asked for what it ensures: the rows obey the schema.
    let _schema = connection.database.schema();
    connection.database.execute(
        "INSERT INTO blocks (digest, ord, bytes) VALUES (?1, ?2, ?3)",
        &[digest.to_sql(), number(ord), bytes.to_sql()],
    )
}

/// Adds a block of which the bytes are at a place, as one step of a write that counts its uses.
fn insert_placed<S: Alter, P: Shelf>(
    connection: &mut Connection<S, P>,
    digest: &[u8],
    ord: u64,
    place: Place,
) -> Result<usize, Error>
    requires midst { InMidst S.Store P.Shelf connection.old }
    requires small { ord < 2 ^ 63 }
    requires there { IsClean S.Store P.Shelf connection.old → IsThere S.Store P.Shelf connection.old place }
    ensures writes { WritesOn S.Store P.Shelf connection.old connection.new result }
    ensures rewrites { OnOk result ((bytes : Octets) → HasAt S.Store P.Shelf connection.old place bytes
        → Rewrites S.Store P.Shelf connection.old connection.new (λ sums. sums)
        (λ rows. rebodied rows rows.refs (rows.blocks ++ record { digest = digest.now; ord = ord; bytes = bytes } ∷ []))) }
    ensures fresh { OnOk result (IsClean S.Store P.Shelf connection.new
        → IsNewName (digest.now, ord) (tables S.Store P.Shelf connection.old)) }
{
    let place = checked(place)?;
    note_place(connection, place)?;
    insert_row(connection, digest, ord, b"")?;
    insert_place(connection, digest, ord, place)
}

/// Appends many bytes to a pack. None if they are few, or if packs have no room: then they stand in a row.
fn place_bytes<S: Alter, P: Shelf>(
    connection: &mut Connection<S, P>,
    bytes: &[u8],
) -> Result<Option<Place>, Error>
    requires { InMidst S.Store P.Shelf connection.old }
    ensures within { StaysWithin S.Store P.Shelf connection.old connection.new }
    ensures opens { OnOk result (StaysOpen S.Store P.Shelf connection.old connection.new) }
    ensures same { IsClean S.Store P.Shelf connection.new
        → stands S.Store P.Shelf connection.new ≡ stands S.Store P.Shelf connection.old }
    ensures rows { connection.new.database ≡ connection.old.database }
    ensures placed { IfOk result (λ found. IfSome found (λ place. IsClean S.Store P.Shelf connection.new
        → HasAt S.Store P.Shelf connection.new place bytes.now)) }
    ensures size { IfOk result (λ found. IfSome found (λ place. place.size ≡ length bytes.now)) }
    ensures trouble { IfErr result (λ e. is_trouble e ≡ true) }
{
    let are_few = bytes.len() <= MOST_IN_ROW;
    if are_few {
        return Ok(None);
    }
    connection.append(Lane::Small, bytes)
}

/// Adds a block, as one step of a write that counts its uses. If it has many bytes, these are appended to
/// a pack, and its row has none.
pub fn insert_block<S: Alter, P: Shelf>(
    connection: &mut Connection<S, P>,
    digest: &[u8],
    ord: u64,
    bytes: &[u8],
) -> Result<usize, Error>
    requires midst { InMidst S.Store P.Shelf connection.old }
    requires small { ord < 2 ^ 63 }
    ensures writes { WritesOn S.Store P.Shelf connection.old connection.new result }
    ensures rewrites { OnOk result (Rewrites S.Store P.Shelf connection.old connection.new (λ sums. sums)
        (λ rows. rebodied rows rows.refs (rows.blocks ++ record { digest = digest.now; ord = ord; bytes = bytes.now } ∷ []))) }
    ensures fresh { OnOk result (IsClean S.Store P.Shelf connection.new
        → IsNewName (digest.now, ord) (tables S.Store P.Shelf connection.old)) }
{
    match place_bytes(connection, bytes)? {
        None => insert_row(connection, digest, ord, bytes),
        Some(place) => insert_placed(connection, digest, ord, place),
    }
}

/// Deletes the row of a block, as one step of a write that deletes its count. The store refuses if a
/// reference or a place names it.
fn delete_row<S: Alter, P: Shelf>(
    connection: &mut Connection<S, P>,
    digest: &[u8],
    ord: u64,
) -> Result<usize, Error>
    requires midst { InMidst S.Store P.Shelf connection.old }
    requires small { ord < 2 ^ 63 }
    ensures writes { WritesOn S.Store P.Shelf connection.old connection.new result }
    ensures rewrites { OnOk result (Rewrites S.Store P.Shelf connection.old connection.new (λ sums. sums)
        (λ rows. rebodied rows rows.refs (delete_where (is_block (digest.now, ord)) rows.blocks))) }
    ensures trouble { IfErr result (IsTroubleIf S.Store P.Shelf connection.old connection.new
        ((list_any (is_use (digest.now, ord)) (tables S.Store P.Shelf connection.old).refs ≡ false)
        × (place_at (places S.Store P.Shelf connection.old) (digest.now, ord) ≡ None))) }
{
    // Asked for what it ensures: the rows obey the schema.
    let _schema = connection.database.schema();
    connection.database.execute(
        "DELETE FROM blocks WHERE digest = ?1 AND ord = ?2",
        &[digest.to_sql(), number(ord)],
    )
}

/// Deletes the place of a block, if it has one, as one step of a write that deletes the block. No other block is
/// changed.
fn drop_place<S: Alter, P: Shelf>(
    connection: &mut Connection<S, P>,
    digest: &[u8],
    ord: u64,
) -> Result<(), Error>
    requires midst { InMidst S.Store P.Shelf connection.old }
    requires small { ord < 2 ^ 63 }
    ensures writes { WritesOn S.Store P.Shelf connection.old connection.new result }
    ensures opened { OnOk result (WasOpen S.Store P.Shelf connection.old connection.new) }
    ensures changes { OnOk result (IsClean S.Store P.Shelf connection.new → ChangesBlock (digest.now, ord)
        (stands S.Store P.Shelf connection.old) (stands S.Store P.Shelf connection.new)) }
    ensures dropped { OnOk result (IsClean S.Store P.Shelf connection.new
        → place_at (places S.Store P.Shelf connection.new) (digest.now, ord) ≡ None) }
    ensures trouble { IfErr result (IsTrouble S.Store P.Shelf connection.old connection.new) }
{
    match place_of(connection, digest, ord)? {
        None => Ok(()),
        Some(place) => {
            displace(connection, digest, ord, place)?;
            Ok(())
        }
    }
}

/// Deletes a block, as one step of a write that deletes its count: its place first, if it has one. The store
/// refuses if a reference names it.
pub fn delete_block<S: Alter, P: Shelf>(
    connection: &mut Connection<S, P>,
    digest: &[u8],
    ord: u64,
) -> Result<usize, Error>
    requires midst { InMidst S.Store P.Shelf connection.old }
    requires small { ord < 2 ^ 63 }
    ensures writes { WritesOn S.Store P.Shelf connection.old connection.new result }
    ensures rewrites { OnOk result (Rewrites S.Store P.Shelf connection.old connection.new (λ sums. sums)
        (λ rows. rebodied rows rows.refs (delete_where (is_block (digest.now, ord)) rows.blocks))) }
    ensures trouble { IfErr result (IsTroubleIf S.Store P.Shelf connection.old connection.new
        (list_any (is_use (digest.now, ord)) (tables S.Store P.Shelf connection.old).refs ≡ false)) }
{
    drop_place(connection, digest, ord)?;
    delete_row(connection, digest, ord)
}
