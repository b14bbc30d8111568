//! Whether all blocks have their bytes in their own rows.

ghost use Rattle.std.specs.Prelude.{◌≡◌, [], IfOk, IfErr, OnOk};
ghost use Rattle.bh_tables.specs.Schema.{host_schema};
ghost use Rattle.bh_base.specs.Databases.{IsClean, stands, StaysWithin, WasOpen, ChangesNothing, IsTrouble};
ghost use Rattle.bh_migration.specs.Migration.{HasSchema};

use sqlite::{Alter, Connection, Error, ErrorCode, Row};

/// The first row of places, if there is one.
fn placed_rows<S: Alter>(connection: &mut Connection<S>) -> Result<Vec<Row>, Error>
    requires { IsClean S.Store connection.old → HasSchema host_schema (stands S.Store connection.old) }
    ensures within { StaysWithin S.Store connection.old connection.new }
    ensures opens { OnOk result (WasOpen S.Store connection.old connection.new) }
    ensures same { OnOk result (ChangesNothing S.Store connection.old connection.new) }
    ensures none { IfOk result (λ rows. IsClean S.Store connection.new → rows.items ≡ []
        → (stands S.Store connection.old).now.trees 34 ≡ []) }
    ensures trouble { IfErr result (IsTrouble S.Store connection.old connection.new) }
{
    connection.query_all("SELECT pack FROM placed ORDER BY rowid LIMIT 1", &[])
}

/// Checks that no block has its bytes in a pack, in a transaction over the tables of a host of version 5.
/// A row of places is an error: without packs its block has no bytes.
pub fn none_placed<S: Alter>(connection: &mut Connection<S>) -> Result<(), Error>
    requires { IsClean S.Store connection.old → HasSchema host_schema (stands S.Store connection.old) }
    ensures within { StaysWithin S.Store connection.old connection.new }
    ensures opens { OnOk result (WasOpen S.Store connection.old connection.new) }
    ensures same { OnOk result (ChangesNothing S.Store connection.old connection.new) }
    ensures none { OnOk result (IsClean S.Store connection.new → (stands S.Store connection.old).now.trees 34 ≡ []) }
    ensures trouble { IfErr result (IsTrouble S.Store connection.old connection.new) }
{
    let rows = placed_rows(connection)?;
    if rows.is_empty() {
        Ok(())
    } else {
        Err(Error::SqliteFailure(ErrorCode::DatabaseCorrupt))
    }
}
