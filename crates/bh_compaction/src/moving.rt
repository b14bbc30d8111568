//! Blocks that get other places, each as one step of a write that changes nothing that is shown.

ghost use Rattle.std.specs.Prelude.{◌≡◌, ◌++◌, ◌∷◌, [], ◌<◌, ◌≤◌, ◌^◌, length, Some, true, IfOk, IfSome, OnOk};
ghost use Rattle.sqlite_keyed.specs.Lists.{update_where, delete_where};
ghost use Rattle.sqlite_rules.specs.Lists.{Has};
ghost use Rattle.bh_packs.specs.Sums.{sum_of};
ghost use Rattle.bh_tables.specs.Packs.{place_at, is_place};
ghost use Rattle.bh_tables.specs.Rows.{BlockRow};
ghost use Rattle.bh_tables.specs.Schema.{Octets};
ghost use Rattle.bh_tables.specs.Shown.{is_block};
ghost use Rattle.bh_tables.specs.Typed.{rebodied};
ghost use Rattle.bh_base.specs.Calls.{Reads, WritesOn};
ghost use Rattle.bh_base.specs.Connections.{IsClean, CanReadBy, InMidst, Rewrites, HasAt, StaysWithin, StaysOpen, ChangesNothing};
ghost use Rattle.bh_base.specs.Connections.{tables, places};
ghost use Rattle.bh_base.specs.Places.{IsFound, IsThere, row_of_place};
ghost use Rattle.bh_compaction.specs.Moves.{IsPut, MovesPlace, Moves};

use crate::rows::read_name;
use bh_base::connection::Connection;
use bh_base::places::{checked, displace, insert_place, note_place, place_of};
use bh_packs::place::{Lane, Place};
use bh_shelf::shelf::Shelf;
use sqlite::{Alter, Error, ErrorCode, Row};
use std::alloc::Global;

/// The bytes of a place.
fn bytes_at<S: Alter, P: Shelf>(
    connection: &mut Connection<S, P>,
    alloc: Global,
    place: Place,
) -> Result<Vec<u8>, Error>
    requires midst { InMidst S.Store P.Shelf connection.old }
    ensures within { StaysWithin S.Store P.Shelf connection.old connection.new }
    ensures same { ChangesNothing S.Store P.Shelf connection.old connection.new }
    ensures opens { OnOk result (StaysOpen S.Store P.Shelf connection.old connection.new) }
    ensures rows { connection.new.database ≡ connection.old.database }
    ensures bytes { IfOk result (λ bytes. IsClean S.Store P.Shelf connection.new → (there : Octets)
        → HasAt S.Store P.Shelf connection.old place there → bytes.items ≡ there) }
    ensures size { IfOk result (λ bytes. length bytes.items ≡ place.size) }
    ensures tested { IfOk result (λ bytes. sum_of bytes.items ≡ place.sum) }
{
    let mut room = vec![in alloc; 0u8; place.size]?;
    connection.read(place, room.as_mut_slice())?;
    Ok(room)
}

/// Takes the bytes of a block out of its place, as one step of a write: it has no place then, and no bytes.
fn take<S: Alter, P: Shelf>(
    connection: &mut Connection<S, P>,
    alloc: Global,
    digest: &[u8],
    ord: u64,
    place: Place,
) -> Result<Vec<u8>, Error>
    requires midst { InMidst S.Store P.Shelf connection.old }
    requires small { ord < 2 ^ 63 }
    requires placed { IsClean S.Store P.Shelf connection.old
        → IsFound (place_at (places S.Store P.Shelf connection.old) (digest.now, ord)) (Some place) }
    ensures writes { WritesOn S.Store P.Shelf connection.old connection.new result }
    ensures rewrites { OnOk result (Rewrites S.Store P.Shelf connection.old connection.new (λ sums. sums)
        (λ rows. rebodied rows rows.refs (update_where (is_block (digest.now, ord)) (λ b. record b { bytes = [] }) rows.blocks))) }
    ensures bytes { IfOk result (λ bytes. IsClean S.Store P.Shelf connection.new → (b : BlockRow)
        → Has (tables S.Store P.Shelf connection.old).blocks b → is_block (digest.now, ord) b ≡ true → b.bytes ≡ bytes.items) }
    ensures size { IfOk result (λ bytes. length bytes.items ≡ place.size) }
    ensures sum { IfOk result (λ bytes. sum_of bytes.items ≡ place.sum) }
    ensures displaced { OnOk result (IsClean S.Store P.Shelf connection.new → places S.Store P.Shelf connection.new
        ≡ delete_where (is_place (digest.now, ord)) (places S.Store P.Shelf connection.old)) }
{
    let bytes = bytes_at(connection, alloc, place)?;
    displace(connection, digest, ord, place)?;
    Ok(bytes)
}

/// Adds the place of a block that has no bytes, and notes it in its pack's row, as one step of a write: it has
/// those of the place then.
fn put<S: Alter, P: Shelf>(
    connection: &mut Connection<S, P>,
    digest: &[u8],
    ord: u64,
    place: Place,
) -> Result<usize, Error>
    requires midst { InMidst S.Store P.Shelf connection.old }
    requires small { ord < 2 ^ 63 }
    requires there { IsClean S.Store P.Shelf connection.old → IsThere S.Store P.Shelf connection.old place }
    requires empty { IsClean S.Store P.Shelf connection.old → (b : BlockRow) → Has (tables S.Store P.Shelf connection.old).blocks b
        → is_block (digest.now, ord) b ≡ true → b.bytes ≡ [] }
    ensures writes { WritesOn S.Store P.Shelf connection.old connection.new result }
    ensures rewrites { OnOk result ((bytes : Octets) → HasAt S.Store P.Shelf connection.old place bytes
        → Rewrites S.Store P.Shelf connection.old connection.new (λ sums. sums)
        (λ rows. rebodied rows rows.refs (update_where (is_block (digest.now, ord)) (λ b. record b { bytes = bytes }) rows.blocks))) }
    ensures placed { OnOk result (IsClean S.Store P.Shelf connection.new → places S.Store P.Shelf connection.new
        ≡ places S.Store P.Shelf connection.old ++ row_of_place (digest.now, ord) place ∷ []) }
{
    let place = checked(place)?;
    note_place(connection, place)?;
    insert_place(connection, digest, ord, place)
}

/// Appends bytes to a pack, for a block that has none, as one step of a write. Returns their place, or `None` if
/// packs have no room.
fn put_bytes<S: Alter, P: Shelf>(
    connection: &mut Connection<S, P>,
    digest: &[u8],
    ord: u64,
    bytes: &[u8],
) -> Result<Option<Place>, Error>
    requires midst { InMidst S.Store P.Shelf connection.old }
    requires small { ord < 2 ^ 63 }
    requires empty { IsClean S.Store P.Shelf connection.old → (b : BlockRow) → Has (tables S.Store P.Shelf connection.old).blocks b
        → is_block (digest.now, ord) b ≡ true → b.bytes ≡ [] }
    ensures writes { WritesOn S.Store P.Shelf connection.old connection.new result }
    ensures rewrites { IfOk result (λ found. IfSome found (λ place.
        Rewrites S.Store P.Shelf connection.old connection.new (λ sums. sums) (λ rows. rebodied rows rows.refs
        (update_where (is_block (digest.now, ord)) (λ b. record b { bytes = bytes.now }) rows.blocks)))) }
    ensures placed { IfOk result (λ found. IfSome found (λ place. IsClean S.Store P.Shelf connection.new
        → IsPut (digest.now, ord) bytes.now place (places S.Store P.Shelf connection.old) (places S.Store P.Shelf connection.new))) }
{
    match connection.append(Lane::Small, bytes)? {
        None => Ok(None),
        Some(place) => {
            put(connection, digest, ord, place)?;
            Ok(Some(place))
        }
    }
}

/// Gives a block another place, with the same bytes, as one step of a write. `None` if packs have no room: the
/// block has no bytes then, and the write is to be taken back.
fn replace<S: Alter, P: Shelf>(
    connection: &mut Connection<S, P>,
    alloc: Global,
    digest: &[u8],
    ord: u64,
    old: Place,
) -> Result<Option<Place>, Error>
    requires midst { InMidst S.Store P.Shelf connection.old }
    requires small { ord < 2 ^ 63 }
    requires placed { IsClean S.Store P.Shelf connection.old
        → IsFound (place_at (places S.Store P.Shelf connection.old) (digest.now, ord)) (Some old) }
    ensures writes { WritesOn S.Store P.Shelf connection.old connection.new result }
    ensures rewrites { IfOk result (λ found. IfSome found (λ place.
        Rewrites S.Store P.Shelf connection.old connection.new (λ sums. sums) (λ rows. rows))) }
    ensures moved { IfOk result (λ found. IfSome found (λ place. IsClean S.Store P.Shelf connection.new
        → MovesPlace old.pack (places S.Store P.Shelf connection.old) (places S.Store P.Shelf connection.new))) }
{
    // In this order: `displace` doesn't promise that what was appended before it is there still.
    let bytes = take(connection, alloc, digest, ord, old)?;
    put_bytes(connection, digest, ord, bytes.as_slice())
}

/// The place of a block that is to be in this pack.
fn place_in<S: Alter, P: Shelf>(
    connection: &mut Connection<S, P>,
    digest: &[u8],
    ord: u64,
    pack: usize,
) -> Result<Place, Error>
    requires reads { CanReadBy S.Store P.Shelf connection.old }
    requires small { ord < 2 ^ 63 }
    ensures reads { Reads S.Store P.Shelf connection.old connection.new result }
    ensures found { IfOk result (λ place. IsClean S.Store P.Shelf connection.new
        → IsFound (place_at (places S.Store P.Shelf connection.old) (digest.now, ord)) (Some place)) }
    ensures in_pack { IfOk result (λ place. place.pack ≡ pack) }
    ensures still { OnOk result (IsClean S.Store P.Shelf connection.new
        → places S.Store P.Shelf connection.new ≡ places S.Store P.Shelf connection.old) }
{
    match place_of(connection, digest, ord)? {
        None => Err(Error::SqliteFailure(ErrorCode::DatabaseCorrupt)),
        Some(place) => {
            if place.pack == pack {
                Ok(place)
            } else {
                Err(Error::SqliteFailure(ErrorCode::DatabaseCorrupt))
            }
        }
    }
}

/// The same of the block whose name a row has, which is in this pack.
fn move_row<S: Alter, P: Shelf>(
    connection: &mut Connection<S, P>,
    row: &Row,
    pack: usize,
) -> Result<Option<Place>, Error>
    requires midst { InMidst S.Store P.Shelf connection.old }
    ensures writes { WritesOn S.Store P.Shelf connection.old connection.new result }
    ensures rewrites { IfOk result (λ found. IfSome found (λ place.
        Rewrites S.Store P.Shelf connection.old connection.new (λ sums. sums) (λ rows. rows))) }
    ensures moved { IfOk result (λ found. IfSome found (λ place. IsClean S.Store P.Shelf connection.new
        → MovesPlace pack (places S.Store P.Shelf connection.old) (places S.Store P.Shelf connection.new))) }
{
    let name = read_name(row)?;
    let alloc = *name.digest.allocator();
    let digest = name.digest.as_slice();
    let old = place_in(connection, digest, name.ord, pack)?;
    replace(connection, alloc, digest, name.ord, old)
}

/// How many bytes are still to be moved, of so many, after a block got this place: none if that is in the pack
/// that is to be emptied.
fn left_after(bytes: usize, new: Place, pack: usize) -> usize {
    if new.pack == pack {
        0
    } else {
        bytes.saturating_sub(new.size)
    }
}

/// Gives the blocks whose names these rows have other places, until so many bytes were moved. Returns how many,
/// or `None` if packs have no room.
pub(crate) fn move_rows<S: Alter, P: Shelf>(
    connection: &mut Connection<S, P>,
    rows: &[Row],
    pack: usize,
    bytes: usize,
) -> Result<Option<usize>, Error>
    requires midst { InMidst S.Store P.Shelf connection.old }
    ensures writes { WritesOn S.Store P.Shelf connection.old connection.new result }
    ensures rewrites { IfOk result (λ found. IfSome found (λ count.
        Rewrites S.Store P.Shelf connection.old connection.new (λ sums. sums) (λ rows. rows))) }
    ensures moved { IfOk result (λ found. IfSome found (λ count. IsClean S.Store P.Shelf connection.new
        → Moves pack count (places S.Store P.Shelf connection.old) (places S.Store P.Shelf connection.new))) }
    ensures few { IfOk result (λ found. IfSome found (λ count. count ≤ length rows.now)) }
{
    let mut count = 0;
    let mut left = bytes;
    for row in rows {
        if left == 0 {
            return Ok(Some(count));
        }
        match move_row(connection, row, pack)? {
            None => return Ok(None),
            Some(new) => {
                count += 1;
                left = left_after(left, new, pack);
            }
        }
    }
    Ok(Some(count))
}
