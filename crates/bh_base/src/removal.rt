//! Packs of which nothing is named any more.

ghost use Rattle.std.specs.Prelude.{◌≡◌, ◌<◌, ◌^◌, ◌∷◌, [], map, filter, length, IfOk, IfErr, OnOk, OnErr};
ghost use Rattle.sqlite_keyed.specs.Lists.{delete_where};
ghost use Rattle.bh_tables.specs.Packs.{is_pack};
ghost use Rattle.bh_base.specs.Connections.{IsClean, CanReadBy, InMidst, Rewrites, IsTrouble, IsTroubleIf, StaysWithin, WasOpen};
ghost use Rattle.bh_base.specs.Connections.{state, stands, tables, places, packs};
ghost use Rattle.bh_base.specs.Calls.{Reads, WritesOn};
ghost use Rattle.bh_base.specs.Layer.{KeepsDisk};
ghost use Rattle.bh_base.specs.Places.{KeepsRows, SetsPacks};
ghost use Rattle.bh_base.specs.Removal.{is_idle, shown_number, IsUnnamed, AreUnnamed, KeepsBytes, Frees};
ghost use Rattle.bh_base.specs.Removal.{IsAtRest, RestsAgain, LeavesTables};

use crate::connection::Connection;
use crate::places::{in_range, number, number_at};
use bh_shelf::shelf::Shelf;
use sqlite::{Alter, Error, Row};

/// The numbers of packs of which no byte is named, as their rows count. It may be called inside a transaction
/// and outside.
pub fn idle_packs<S: Alter, P: Shelf>(connection: &mut Connection<S, P>) -> Result<Vec<Row>, Error>
    requires reads { CanReadBy S.Store P.Shelf connection.old }
    ensures reads { Reads S.Store P.Shelf connection.old connection.new result }
    ensures rows { IfOk result (λ rows. IsClean S.Store P.Shelf connection.new
        → rows.items ≡ map shown_number (filter is_idle (packs S.Store P.Shelf connection.old))) }
    ensures still { OnOk result (IsClean S.Store P.Shelf connection.new → KeepsRows S.Store P.Shelf connection.old connection.new) }
    ensures trouble { IfErr result (IsTrouble S.Store P.Shelf connection.old connection.new) }
{
    connection.database.query_all("SELECT pack FROM packs WHERE live = 0 ORDER BY rowid", &[])
}

/// Deletes the row of a pack, as one step of a write. The database refuses it while a place is in that pack,
/// whatever the pack's row counts: so if it succeeds, none is.
pub fn delete_pack<S: Alter, P: Shelf>(
    connection: &mut Connection<S, P>,
    pack: u64,
) -> Result<usize, Error>
    requires midst { InMidst S.Store P.Shelf connection.old }
    requires small { pack < 2 ^ 63 }
    ensures writes { WritesOn S.Store P.Shelf connection.old connection.new result }
    ensures rewrites { OnOk result (Rewrites S.Store P.Shelf connection.old connection.new (λ sums. sums) (λ rows. rows)) }
    ensures deleted { OnOk result (IsClean S.Store P.Shelf connection.new → SetsPacks S.Store P.Shelf connection.old connection.new
        (delete_where (is_pack pack) (packs S.Store P.Shelf connection.old))) }
    ensures unnamed { OnOk result (IsClean S.Store P.Shelf connection.new → IsUnnamed S.Store P.Shelf connection.new pack) }
    ensures trouble { IfErr result (IsTroubleIf S.Store P.Shelf connection.old connection.new
        (IsUnnamed S.Store P.Shelf connection.old pack)) }
{
    // Asked for what they ensure: the rows obey the schema, before and after.
    let _before = connection.database.schema();
    let deleted = connection
        .database
        .execute("DELETE FROM packs WHERE pack = ?1", &[number(pack)]);
    let _after = connection.database.schema();
    deleted
}

/// Deletes the row of the pack whose number a row has, as one step of a write.
fn free_pack<S: Alter, P: Shelf>(
    connection: &mut Connection<S, P>,
    row: &Row,
) -> Result<usize, Error>
    requires midst { InMidst S.Store P.Shelf connection.old }
    ensures frees { Frees S.Store P.Shelf connection.old connection.new (row.now ∷ []) result }
{
    let pack = in_range(number_at(row, 0)? as usize)?;
    delete_pack(connection, pack)
}

/// The same of the packs of these rows.
fn free_packs<S: Alter, P: Shelf>(
    connection: &mut Connection<S, P>,
    rows: &[Row],
) -> Result<(), Error>
    requires midst { InMidst S.Store P.Shelf connection.old }
    ensures frees { Frees S.Store P.Shelf connection.old connection.new rows.now result }
{
    for row in rows {
        free_pack(connection, row)?;
    }
    Ok(())
}

/// Deletes the rows of packs that count nothing as named, as one step of a write, and returns their numbers.
fn free_idle<S: Alter, P: Shelf>(connection: &mut Connection<S, P>) -> Result<Vec<Row>, Error>
    requires midst { InMidst S.Store P.Shelf connection.old }
    ensures writes { WritesOn S.Store P.Shelf connection.old connection.new result }
    ensures rewrites { OnOk result (Rewrites S.Store P.Shelf connection.old connection.new (λ sums. sums) (λ rows. rows)) }
    ensures places { OnOk result (IsClean S.Store P.Shelf connection.new
        → places S.Store P.Shelf connection.new ≡ places S.Store P.Shelf connection.old) }
    ensures unnamed { IfOk result (λ rows. IsClean S.Store P.Shelf connection.new
        → AreUnnamed S.Store P.Shelf connection.new rows.items) }
    ensures rows { IfOk result (λ rows. IsClean S.Store P.Shelf connection.new
        → rows.items ≡ map shown_number (filter is_idle (packs S.Store P.Shelf connection.old))) }
{
    let rows = idle_packs(connection)?;
    free_packs(connection, &rows)?;
    Ok(rows)
}

/// Does so in a transaction, and commits it. After an error the transaction may be open.
fn commit_freed<S: Alter, P: Shelf>(connection: &mut Connection<S, P>) -> Result<Vec<Row>, Error>
    requires rest { IsClean S.Store P.Shelf connection.old → IsAtRest (stands S.Store P.Shelf connection.old) }
    ensures follows { KeepsDisk (state S.Store P.Shelf connection.old) (state S.Store P.Shelf connection.new) }
    ensures opens { OnOk result (WasOpen S.Store P.Shelf connection.old connection.new) }
    ensures rests { OnOk result (IsClean S.Store P.Shelf connection.new
        → RestsAgain (stands S.Store P.Shelf connection.old) (stands S.Store P.Shelf connection.new)) }
    ensures kept { OnErr result (IsClean S.Store P.Shelf connection.new
        → (stands S.Store P.Shelf connection.new).kept ≡ (stands S.Store P.Shelf connection.old).kept) }
    ensures left { LeavesTables (tables S.Store P.Shelf connection.old)
        (state S.Store P.Shelf connection.old) (state S.Store P.Shelf connection.new) }
    ensures places { OnOk result (IsClean S.Store P.Shelf connection.new
        → places S.Store P.Shelf connection.new ≡ places S.Store P.Shelf connection.old) }
    ensures unnamed { IfOk result (λ rows. IsClean S.Store P.Shelf connection.new
        → AreUnnamed S.Store P.Shelf connection.new rows.items) }
    ensures rows { IfOk result (λ rows. IsClean S.Store P.Shelf connection.new
        → rows.items ≡ map shown_number (filter is_idle (packs S.Store P.Shelf connection.old))) }
{
    connection.begin()?;
    let rows = free_idle(connection)?;
    connection.commit()?;
    Ok(rows)
}

/// The same, with the transaction taken back after an error.
fn drop_rows<S: Alter, P: Shelf>(connection: &mut Connection<S, P>) -> Result<Vec<Row>, Error>
    requires rest { IsClean S.Store P.Shelf connection.old → IsAtRest (stands S.Store P.Shelf connection.old) }
    ensures follows { KeepsDisk (state S.Store P.Shelf connection.old) (state S.Store P.Shelf connection.new) }
    ensures opens { OnOk result (WasOpen S.Store P.Shelf connection.old connection.new) }
    ensures rests { IsClean S.Store P.Shelf connection.new
        → RestsAgain (stands S.Store P.Shelf connection.old) (stands S.Store P.Shelf connection.new) }
    ensures left { LeavesTables (tables S.Store P.Shelf connection.old)
        (state S.Store P.Shelf connection.old) (state S.Store P.Shelf connection.new) }
    ensures places { IsClean S.Store P.Shelf connection.new
        → places S.Store P.Shelf connection.new ≡ places S.Store P.Shelf connection.old }
    ensures unnamed { IfOk result (λ rows. IsClean S.Store P.Shelf connection.new
        → AreUnnamed S.Store P.Shelf connection.new rows.items) }
    ensures rows { IfOk result (λ rows. IsClean S.Store P.Shelf connection.new
        → rows.items ≡ map shown_number (filter is_idle (packs S.Store P.Shelf connection.old))) }
{
    match commit_freed(connection) {
        Ok(rows) => Ok(rows),
        Err(error) => {
            connection.take_back();
            Err(error)
        }
    }
}

/// Removes the pack whose number a row has, and its file.
fn remove_pack<S: Alter, P: Shelf>(
    connection: &mut Connection<S, P>,
    row: &Row,
) -> Result<(), Error>
    requires rest { IsClean S.Store P.Shelf connection.old → IsAtRest (stands S.Store P.Shelf connection.old) }
    requires unnamed { IsClean S.Store P.Shelf connection.old → AreUnnamed S.Store P.Shelf connection.old (row.now ∷ []) }
    ensures within { StaysWithin S.Store P.Shelf connection.old connection.new }
    ensures same { IsClean S.Store P.Shelf connection.new
        → stands S.Store P.Shelf connection.new ≡ stands S.Store P.Shelf connection.old }
    ensures rows { connection.new.database ≡ connection.old.database }
{
    let pack = number_at(row, 0)?;
    connection.remove(pack as usize)
}

/// The same of the packs of these rows. Returns how many, or the first error, after which the others go too: no
/// row says anything of any of them, so no later call would remove them before the next opening.
fn remove_packs<S: Alter, P: Shelf>(
    connection: &mut Connection<S, P>,
    rows: &[Row],
) -> Result<usize, Error>
    requires rest { IsClean S.Store P.Shelf connection.old → IsAtRest (stands S.Store P.Shelf connection.old) }
    requires unnamed { IsClean S.Store P.Shelf connection.old → AreUnnamed S.Store P.Shelf connection.old rows.now }
    ensures within { StaysWithin S.Store P.Shelf connection.old connection.new }
    ensures same { IsClean S.Store P.Shelf connection.new
        → stands S.Store P.Shelf connection.new ≡ stands S.Store P.Shelf connection.old }
    ensures rows { connection.new.database ≡ connection.old.database }
    ensures count { IfOk result (λ n. n ≡ length rows.now) }
{
    let mut so_far = Ok(());
    for row in rows {
        so_far = so_far.and(remove_pack(connection, row));
    }
    so_far?;
    Ok(rows.len())
}

/// Removes packs of which nothing is named any more, outside a transaction: first their rows, in a transaction
/// of its own, and after its commit their files. Returns how many. A pack that a place still names stays,
/// whatever its row counts: its row can't be deleted, which is an error. Blocks have the bytes that they had,
/// also after an error, and after a crash at any moment.
pub fn drop_packs<S: Alter, P: Shelf>(connection: &mut Connection<S, P>) -> Result<usize, Error>
    requires rest { IsClean S.Store P.Shelf connection.old → IsAtRest (stands S.Store P.Shelf connection.old) }
    ensures follows { KeepsDisk (state S.Store P.Shelf connection.old) (state S.Store P.Shelf connection.new) }
    ensures rests { IsClean S.Store P.Shelf connection.new
        → RestsAgain (stands S.Store P.Shelf connection.old) (stands S.Store P.Shelf connection.new) }
    ensures left { LeavesTables (tables S.Store P.Shelf connection.old)
        (state S.Store P.Shelf connection.old) (state S.Store P.Shelf connection.new) }
    ensures places { IsClean S.Store P.Shelf connection.new
        → places S.Store P.Shelf connection.new ≡ places S.Store P.Shelf connection.old }
    ensures bytes { IsClean S.Store P.Shelf connection.new → KeepsBytes S.Store P.Shelf connection.old connection.new }
    ensures count { IfOk result (λ n. IsClean S.Store P.Shelf connection.new
        → n ≡ length (filter is_idle (packs S.Store P.Shelf connection.old))) }
{
    let rows = drop_rows(connection)?;
    remove_packs(connection, &rows)
}
