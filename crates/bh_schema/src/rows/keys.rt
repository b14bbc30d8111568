ghost use Rattle.std.specs.Prelude.{◌≡◌, ◌++◌, ◌∷◌, [], Some, find, option_map, IfOk, IfErr, OnOk};
ghost use Rattle.std.specs.String.{string_bytes};
ghost use Rattle.std.specs.Str.{IsUtf8};
ghost use Rattle.bh_tables.specs.Typed.{KeyRow as Stored};
ghost use Rattle.bh_tables.specs.Shown.{is_key};
ghost use Rattle.bh_schema.specs.Calls.{Reads, Writes};
ghost use Rattle.bh_base.specs.Connections.{IsClean, tables, InTransaction, Becomes, IsTroubleIf};
ghost use Rattle.bh_schema.specs.Rows.{secret_in, IsNewKey};

use crate::rows::reading::first_of;
use crate::rows::writing::write;
use bh_base::connection::Connection;
use bh_shelf::shelf::Shelf;
use sqlite::types::ToSql;
use sqlite::{Alter, Error};

/// The secret of a tenant's access key of this name, if there is one.
pub fn find_secret<S: Alter, P: Shelf>(
    connection: &mut Connection<S, P>,
    tenant: &str,
    name: &str,
) -> Result<Option<String>, Error>
    requires inside { InTransaction S.Store P.Shelf connection.old }
    ensures reads { Reads S.Store P.Shelf connection.old connection.new result }
    ensures found { IfOk result (λ found. IsClean S.Store P.Shelf connection.new
        → option_map string_bytes found
        ≡ option_map secret_in (find (is_key tenant.now name.now) (tables S.Store P.Shelf connection.old).keys)) }
    ensures trouble { IfErr result (IsTroubleIf S.Store P.Shelf connection.old connection.new
        ((k : Stored) → find (is_key tenant.now name.now) (tables S.Store P.Shelf connection.old).keys ≡ Some k → IsUtf8 k.secret)) }
{
    let rows = connection.database.query_all(
        "SELECT secret FROM keys WHERE tenant = ?1 AND name = ?2 ORDER BY rowid",
        &[tenant.to_sql(), name.to_sql()],
    )?;
    first_of(&rows)
}

/// Adds an access key to a tenant.
pub fn insert_key<S: Alter, P: Shelf>(
    connection: &mut Connection<S, P>,
    tenant: &str,
    name: &str,
    secret: &str,
) -> Result<usize, Error>
    requires inside { InTransaction S.Store P.Shelf connection.old }
    ensures writes { Writes S.Store P.Shelf connection.old connection.new result }
    ensures holds { OnOk result (Becomes S.Store P.Shelf connection.old connection.new
        (λ rows. record rows { keys = rows.keys ++ record { tenant = tenant.now; name = name.now; secret = secret.now } ∷ [] })) }
    ensures trouble { IfErr result (IsTroubleIf S.Store P.Shelf connection.old connection.new
        (IsNewKey (tables S.Store P.Shelf connection.old) tenant.now name.now)) }
{
    write(
        &mut connection.database,
        "INSERT INTO keys (tenant, name, secret) VALUES (?1, ?2, ?3)",
        &[tenant.to_sql(), name.to_sql(), secret.to_sql()],
    )
}
