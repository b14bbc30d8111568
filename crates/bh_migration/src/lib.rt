//! Upgrades the database of an older host to the present version, in one commit. It creates the
//! missing tables, and counts what the present version counts of other rows.
#![tactic(auto)]

mod listing;
mod making;
mod tallying;
mod unplaced;
mod weighing;

ghost use Rattle.std.specs.Prelude.{◌≡◌, ◌⊎◌, true, [], IfOk, IfErr, OnOk, OnErr};
ghost use Rattle.sqlite.specs.Held.{state};
ghost use Rattle.sqlite.specs.Tree.{Trees};
ghost use Rattle.bh_rows.specs.Means.{is_trouble};
ghost use Rattle.bh_tables.specs.Hosts.{brought_over, tables_shown, tables_opened};
ghost use Rattle.bh_tables.specs.Schema.{host_schema};
ghost use Rattle.bh_tables.specs.Typed.{IsHost, Tables};
ghost use Rattle.bh_base.specs.Databases.{IsIntact, IsOpen, IsClean, stands, tables, StaysWithin, StaysOpen, IsTroubleIf};
ghost use Rattle.bh_base.specs.Layer.{Leaves, Holds, taken_back, KeepsDisk};
ghost use Rattle.bh_migration.specs.Listing.{Lists};
ghost use Rattle.bh_migration.specs.Migration.{IsEarlier, IsEarlierHost, IsOfEarlier, earlier_schema, HasSchema, HoldsUntallied};
ghost use Rattle.bh_migration.specs.Migration.{Brings, Settles, LeavesChanged};
ghost use Rattle.bh_migration.specs.Tallying.{HoldsUnweighed};

use crate::making::make_tables;
use crate::tallying::tally_tenants;
use crate::unplaced::none_placed;
use crate::weighing::weigh;
use bh_base::transactions::{begin, commit, take_back};
use bh_shelf::closed::Listed;
pub use listing::list_packs;
use sqlite::{Alter, Connection, Error};
use std::alloc::Global;

/// The version of an older host.
#[derive(Clone, Copy)]
pub enum Earlier {
    /// Its tables of locks, of dates and of tallies are missing, and those that versions 4 and 5
    /// added.
    First,
    /// Its table of tallies is missing, and those that versions 4 and 5 added.
    Second,
    /// Those that versions 4 and 5 added are missing.
    Third,
    /// The one that version 5 added is missing.
    Fourth,
}

/// Fills the table of tallies, if a host of this version has none.
fn tally<S: Alter>(connection: &mut Connection<S>, version: Earlier) -> Result<(), Error>
    requires { IsClean S.Store connection.old → HasSchema host_schema (stands S.Store connection.old) }
    ensures within { StaysWithin S.Store connection.old connection.new }
    ensures opens { OnOk result (StaysOpen S.Store connection.old connection.new) }
    ensures keeps { OnOk result (IsClean S.Store connection.new → HasSchema host_schema (stands S.Store connection.new)) }
    ensures holds { OnOk result (IsClean S.Store connection.new → (t : Tables)
        → HoldsUntallied version t (stands S.Store connection.old) → HoldsUnweighed t (stands S.Store connection.new)) }
    ensures trouble { IfErr result (λ e. is_trouble e ≡ true) }
{
    match version {
        Earlier::First => tally_tenants(connection),
        Earlier::Second => tally_tenants(connection),
        Earlier::Third => Ok(()),
        Earlier::Fourth => Ok(()),
    }
}

fn set_version<S: Alter>(connection: &mut Connection<S>) -> Result<usize, Error>
    requires { IsClean S.Store connection.old → HasSchema host_schema (stands S.Store connection.old) }
    ensures within { StaysWithin S.Store connection.old connection.new }
    ensures opens { OnOk result (StaysOpen S.Store connection.old connection.new) }
    ensures keeps { OnOk result (IsClean S.Store connection.new → HasSchema host_schema (stands S.Store connection.new)) }
    ensures holds { OnOk result (IsClean S.Store connection.new
        → (IsClean S.Store connection.old → IsHost (stands S.Store connection.old).now)
        → Holds (brought_over (tables S.Store connection.old)) (stands S.Store connection.new)) }
    ensures trouble { IfErr result (IsTroubleIf S.Store connection.old connection.new
        (IsClean S.Store connection.old → IsHost (stands S.Store connection.old).now)) }
{
    // Asked for what it ensures: the rows obey the schema.
    let _schema = connection.schema();
    connection.execute("UPDATE host SET version = 5", &[])
}

fn change<S: Alter>(connection: &mut Connection<S>, version: Earlier) -> Result<usize, Error>
    requires { IsClean S.Store connection.old → HasSchema (earlier_schema version) (stands S.Store connection.old) }
    ensures within { StaysWithin S.Store connection.old connection.new }
    ensures opens { OnOk result (StaysOpen S.Store connection.old connection.new) }
    ensures brings { OnOk result (IsClean S.Store connection.new
        → Brings (stands S.Store connection.old) (stands S.Store connection.new)) }
    ensures trouble { IfErr result (IsTroubleIf S.Store connection.old connection.new
        (IsEarlierHost version (stands S.Store connection.old).now)) }
{
    make_tables(connection, version)?;
    tally(connection, version)?;
    weigh(connection)?;
    set_version(connection)
}

/// The same, if no block has its bytes in a pack then. Returns what the table of packs lists.
fn change_whole<S: Alter>(
    alloc: Global,
    connection: &mut Connection<S>,
    version: Earlier,
) -> Result<Vec<Listed>, Error>
    requires { IsClean S.Store connection.old → HasSchema (earlier_schema version) (stands S.Store connection.old) }
    ensures within { StaysWithin S.Store connection.old connection.new }
    ensures opens { OnOk result (StaysOpen S.Store connection.old connection.new) }
    ensures brings { OnOk result (IsClean S.Store connection.new
        → Brings (stands S.Store connection.old) (stands S.Store connection.new)) }
    ensures unplaced { OnOk result (IsClean S.Store connection.new → (stands S.Store connection.new).now.trees 34 ≡ []) }
    ensures lists { IfOk result (λ listed. IsClean S.Store connection.new → Lists (stands S.Store connection.new).now listed.items) }
    ensures trouble { IfErr result (IsTroubleIf S.Store connection.old connection.new
        (IsEarlierHost version (stands S.Store connection.old).now)) }
{
    change(connection, version)?;
    none_placed(connection)?;
    list_packs(alloc, connection)
}

fn commit_change<S: Alter>(
    alloc: Global,
    connection: &mut Connection<S>,
    version: Earlier,
) -> Result<Vec<Listed>, Error>
    requires { IsClean S.Store connection.old → IsEarlier version (stands S.Store connection.old) }
    ensures follows { KeepsDisk (state S.Store connection.old) (state S.Store connection.new) }
    ensures settles { OnOk result (IsClean S.Store connection.new
        → Settles (stands S.Store connection.old) (stands S.Store connection.new)) }
    ensures lists { IfOk result (λ listed. IsClean S.Store connection.new → Lists (stands S.Store connection.new).now listed.items) }
    ensures kept { OnErr result (IsClean S.Store connection.new
        → (stands S.Store connection.new).kept ≡ (stands S.Store connection.old).kept) }
    ensures crash { IsIntact S.Store connection.new → (db : Trees) → Leaves (state S.Store connection.new) db
        → Leaves (state S.Store connection.old) db
        ⊎ (IsOpen S.Store connection.old × LeavesChanged (stands S.Store connection.old).now db) }
    ensures trouble { IfErr result (IsTroubleIf S.Store connection.old connection.new
        (IsClean S.Store connection.old → IsEarlierHost version (stands S.Store connection.old).now)) }
{
    begin(connection)?;
    let listed = change_whole(alloc, connection, version)?;
    commit(connection)?;
    Ok(listed)
}

/// Upgrades a database with the tables of a host of an older version to version 5, in one commit.
///
/// It creates the missing tables: that of tallies with the counts of each tenant's rows, that of what
/// nobody needs with the bytes of the blocks that no reference names, and the others without rows.
/// Then it sets the host's version to 5. The host's contents don't change. After an error nothing has
/// changed. A row of places, which no program of versions 1 to 4 writes, is an error. Returns what the
/// table of packs lists.
pub fn bring_over<S: Alter>(
    alloc: Global,
    connection: &mut Connection<S>,
    version: Earlier,
) -> Result<Vec<Listed>, Error>
    requires { IsClean S.Store connection.old → IsEarlier version (stands S.Store connection.old) }
    ensures follows { KeepsDisk (state S.Store connection.old) (state S.Store connection.new) }
    ensures settles { OnOk result (IsClean S.Store connection.new
        → Settles (stands S.Store connection.old) (stands S.Store connection.new)) }
    ensures lists { IfOk result (λ listed. IsClean S.Store connection.new → Lists (stands S.Store connection.new).now listed.items) }
    ensures shows { OnOk result (IsClean S.Store connection.new → IsOfEarlier (stands S.Store connection.old).now
        → tables_shown (stands S.Store connection.new).now ≡ tables_opened (stands S.Store connection.old).now) }
    ensures back { OnErr result (IsClean S.Store connection.new
        → stands S.Store connection.new ≡ taken_back (stands S.Store connection.old)) }
    ensures crash { IsIntact S.Store connection.new → (db : Trees) → Leaves (state S.Store connection.new) db
        → Leaves (state S.Store connection.old) db
        ⊎ (IsOpen S.Store connection.old × LeavesChanged (stands S.Store connection.old).now db) }
    ensures left { OnOk result (IsClean S.Store connection.new → (db : Trees) → Leaves (state S.Store connection.new) db
        → db ≡ (stands S.Store connection.new).kept.trees) }
    ensures trouble { IfErr result (IsTroubleIf S.Store connection.old connection.new
        (IsClean S.Store connection.old → IsEarlierHost version (stands S.Store connection.old).now)) }
{
    match commit_change(alloc, connection, version) {
        Ok(listed) => Ok(listed),
        Err(error) => {
            take_back(connection);
            Err(error)
        }
    }
}
