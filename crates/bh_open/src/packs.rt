//! The packs of a host of the present version.

ghost use Rattle.std.specs.Prelude.{◌≡◌, true, false, None, IfOk, IfErr};
ghost use Rattle.sqlite.specs.Held.{state};
ghost use Rattle.bh_rows.specs.Form.{AreRows};
ghost use Rattle.bh_rows.specs.Means.{is_trouble};
ghost use Rattle.bh_tables.specs.Rows.{pack_form};
ghost use Rattle.bh_tables.specs.Schema.{host_schema};
ghost use Rattle.bh_base.specs.Databases.{IsIntact, IsClean, stands};
ghost use Rattle.bh_base.specs.Layer.{taken_back, KeepsDisk, LeavesNothingNew};
ghost use Rattle.bh_migration.specs.Listing.{Lists};

use bh_base::transactions::{begin, take_back};
use bh_migration::list_packs;
use bh_shelf::closed::Listed;
use sqlite::{Alter, Connection, Error};
use std::alloc::Global;

/// What the rows of packs list, in a database with the tables of a host of the present version. Afterwards
/// a transaction is open, or was rolled back.
fn read_packs<S: Alter>(alloc: Global, connection: &mut Connection<S>) -> Result<Vec<Listed>, Error>
    requires schema { IsClean S.Store connection.old → (stands S.Store connection.old).now.schema ≡ host_schema }
    ensures follows { KeepsDisk (state S.Store connection.old) (state S.Store connection.new) }
    ensures kept { IsClean S.Store connection.new → (stands S.Store connection.new).kept ≡ (stands S.Store connection.old).kept }
    ensures survives { LeavesNothingNew (state S.Store connection.old) (state S.Store connection.new) }
    ensures lists { IfOk result (λ listed. IsClean S.Store connection.new → Lists (stands S.Store connection.old).now listed.items) }
    ensures trouble { IfErr result (λ e. IsIntact S.Store connection.new → (stands S.Store connection.old).limit ≡ None
        → (IsClean S.Store connection.old → (stands S.Store connection.old).inside ≡ false)
        → (IsClean S.Store connection.old → AreRows pack_form ((stands S.Store connection.old).now.trees 32))
        → is_trouble e ≡ true) }
{
    begin(connection)?;
    list_packs(alloc, connection)
}

/// What the rows of packs list. It changes nothing, and no transaction is open afterwards.
pub fn see_packs<S: Alter>(
    alloc: Global,
    connection: &mut Connection<S>,
) -> Result<Vec<Listed>, Error>
    requires schema { IsClean S.Store connection.old → (stands S.Store connection.old).now.schema ≡ host_schema }
    ensures follows { KeepsDisk (state S.Store connection.old) (state S.Store connection.new) }
    ensures back { IsClean S.Store connection.new → stands S.Store connection.new ≡ taken_back (stands S.Store connection.old) }
    ensures survives { LeavesNothingNew (state S.Store connection.old) (state S.Store connection.new) }
    ensures lists { IfOk result (λ listed. IsClean S.Store connection.new → Lists (stands S.Store connection.old).now listed.items) }
    ensures trouble { IfErr result (λ e. IsIntact S.Store connection.new → (stands S.Store connection.old).limit ≡ None
        → (IsClean S.Store connection.old → (stands S.Store connection.old).inside ≡ false)
        → (IsClean S.Store connection.old → AreRows pack_form ((stands S.Store connection.old).now.trees 32))
        → is_trouble e ≡ true) }
{
    let found = read_packs(alloc, connection);
    take_back(connection);
    found
}
