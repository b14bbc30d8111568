//! What the table of packs lists.

ghost use Rattle.std.specs.Prelude.{◌≡◌, true, List, map, IfOk, IfErr, OnOk};
ghost use Rattle.bh_rows.specs.Form.{AreRows};
ghost use Rattle.bh_rows.specs.Means.{is_trouble};
ghost use Rattle.bh_tables.specs.Packs.{packs_in};
ghost use Rattle.bh_tables.specs.Rows.{PackRow, pack_form};
ghost use Rattle.bh_tables.specs.Schema.{host_schema};
ghost use Rattle.bh_base.specs.Databases.{IsClean, stands, StaysWithin, WasOpen, ChangesNothing, IsTrouble, IsTroubleIf};
ghost use Rattle.bh_migration.specs.Listing.{shown_listed, listed_by, Lists};
ghost use Rattle.bh_migration.specs.Migration.{HasSchema};

use bh_shelf::closed::Listed;
use sqlite::{Alter, Connection, Error, Row};
use std::alloc::Global;

/// The rows of packs, in a transaction over the tables of a host of version 5.
fn pack_rows<S: Alter>(connection: &mut Connection<S>) -> Result<Vec<Row>, Error>
    requires { IsClean S.Store connection.old → HasSchema host_schema (stands S.Store connection.old) }
    ensures within { StaysWithin S.Store connection.old connection.new }
    ensures opens { OnOk result (WasOpen S.Store connection.old connection.new) }
    ensures same { OnOk result (ChangesNothing S.Store connection.old connection.new) }
    ensures rows { IfOk result (λ rows. IsClean S.Store connection.new
        → AreRows pack_form ((stands S.Store connection.old).now.trees 32)
        → rows.items ≡ map shown_listed (packs_in (stands S.Store connection.old).now.trees)) }
    ensures trouble { IfErr result (IsTrouble S.Store connection.old connection.new) }
{
    connection.query_all("SELECT pack, length FROM packs ORDER BY rowid", &[])
}

/// What a row lists.
fn read_listed(row: &Row) -> Result<Listed, Error>
    ensures read { IfOk result (λ listed. (p : PackRow) → row.now ≡ shown_listed p → listed ≡ listed_by p) }
    ensures trouble { IfErr result (λ e. (p : PackRow) → row.now ≡ shown_listed p → is_trouble e ≡ true) }
{
    let pack: u64 = row.get(0)?;
    let length: u64 = row.get(1)?;
    Ok(Listed {
        pack: pack as usize,
        length: length as usize,
    })
}

/// What rows list, in their order.
fn read_all(alloc: Global, rows: &[Row]) -> Result<Vec<Listed>, Error>
    ensures read { IfOk result (λ listed. (packs : List PackRow) → rows.now ≡ map shown_listed packs
        → listed.items ≡ map listed_by packs) }
    ensures trouble { IfErr result (λ e. (packs : List PackRow) → rows.now ≡ map shown_listed packs → is_trouble e ≡ true) }
{
    let mut all = Vec::new(alloc);
    for row in rows {
        let listed = read_listed(row)?;
        all.push(listed)?;
    }
    Ok(all)
}

/// What the rows of packs list, in a transaction over the tables of a host of version 5. A number that isn't
/// below 2^63 is an error, and so is a row that can't be read.
pub fn list_packs<S: Alter>(
    alloc: Global,
    connection: &mut Connection<S>,
) -> Result<Vec<Listed>, Error>
    requires { IsClean S.Store connection.old → HasSchema host_schema (stands S.Store connection.old) }
    ensures within { StaysWithin S.Store connection.old connection.new }
    ensures opens { OnOk result (WasOpen S.Store connection.old connection.new) }
    ensures same { OnOk result (ChangesNothing S.Store connection.old connection.new) }
    ensures lists { IfOk result (λ listed. IsClean S.Store connection.new → Lists (stands S.Store connection.old).now listed.items) }
    ensures trouble { IfErr result (IsTroubleIf S.Store connection.old connection.new
        (IsClean S.Store connection.old → AreRows pack_form ((stands S.Store connection.old).now.trees 32))) }
{
    let rows = pack_rows(connection)?;
    read_all(alloc, rows.as_slice())
}
