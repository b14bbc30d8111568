//! The only tenant of a host.

ghost use Rattle.std.specs.Prelude.{◌≡◌, ◌≢◌, ◌∷◌, [], List, None, map, length, IfOk, IfSome};
ghost use Rattle.std.specs.String.{string_bytes};
ghost use Rattle.bh_base.specs.Connections.{state};
ghost use Rattle.bh_tables.specs.Typed.{TenantRow};
ghost use Rattle.bh_base.specs.Connections.{IsClean, stands, tables};
ghost use Rattle.bh_base.specs.Layer.{taken_back, KeepsDisk};
ghost use Rattle.bh_tenant_rows.specs.Shown.{shown_name};
ghost use Rattle.bh_moved.specs.Moves.{IsReady};

use bh_base::connection::Connection;
use bh_shelf::shelf::Shelf;
use bh_tenant_rows::reads::name_rows;
use sqlite::{Alter, Error, Row};

/// The rows of all tenants' names, in a transaction.
fn begin_and_read<S: Alter, P: Shelf>(connection: &mut Connection<S, P>) -> Result<Vec<Row>, Error>
    requires ready { IsReady S.Store P.Shelf connection.old }
    ensures follows { KeepsDisk (state S.Store P.Shelf connection.old) (state S.Store P.Shelf connection.new) }
    ensures kept { IsClean S.Store P.Shelf connection.new
        → (stands S.Store P.Shelf connection.new).kept ≡ (stands S.Store P.Shelf connection.old).kept }
    ensures rows { IfOk result (λ rows. IsClean S.Store P.Shelf connection.new
        → rows.items ≡ map shown_name (tables S.Store P.Shelf connection.old).tenants) }
{
    connection.begin()?;
    let rows = name_rows(connection)?;
    Ok(rows)
}

/// The name in the only row.
fn one_name(rows: &[Row]) -> Result<Option<String>, Error>
    ensures sole { IfOk result (λ found. IfSome found (λ name. (ts : List TenantRow) → rows.now ≡ map shown_name ts
        → map (λ (t : TenantRow). t.tenant) ts ≡ string_bytes name ∷ [])) }
    ensures none { IfOk result (λ found. found ≡ None → length rows.now ≢ 1) }
{
    match rows {
        [row] => Ok(Some(row.get(0)?)),
        _ => Ok(None),
    }
}

/// The name of a host's tenant, if it has exactly one.
pub fn sole_tenant<S: Alter, P: Shelf>(
    connection: &mut Connection<S, P>,
) -> Result<Option<String>, Error>
    requires ready { IsReady S.Store P.Shelf connection.old }
    ensures follows { KeepsDisk (state S.Store P.Shelf connection.old) (state S.Store P.Shelf connection.new) }
    ensures back { IsClean S.Store P.Shelf connection.new
        → stands S.Store P.Shelf connection.new ≡ taken_back (stands S.Store P.Shelf connection.old) }
    ensures sole { IfOk result (λ found. IfSome found (λ name. IsClean S.Store P.Shelf connection.new
        → map (λ (t : TenantRow). t.tenant) (tables S.Store P.Shelf connection.old).tenants ≡ string_bytes name ∷ [])) }
    ensures none { IfOk result (λ found. found ≡ None → IsClean S.Store P.Shelf connection.new
        → length (tables S.Store P.Shelf connection.old).tenants ≢ 1) }
{
    let outcome = begin_and_read(connection);
    connection.take_back();
    let rows = outcome?;
    one_name(&rows)
}
