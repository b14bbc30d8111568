ghost use Rattle.std.specs.Prelude.{◌++◌, ◌∷◌, [], IfErr, OnOk};
ghost use Rattle.bh_schema.specs.Calls.{Writes};
ghost use Rattle.bh_base.specs.Connections.{tables, InTransaction, Becomes, IsTroubleIf};
ghost use Rattle.bh_schema.specs.Rows.{IsNewLock};

use crate::rows::writing::write;
use bh_base::connection::Connection;
use bh_shelf::shelf::Shelf;
use sqlite::types::ToSql;
use sqlite::{Alter, Error};

/// Locks a tenant's bucket, which is not locked.
pub fn insert_lock<S: Alter, P: Shelf>(
    connection: &mut Connection<S, P>,
    tenant: &str,
    bucket: &str,
) -> Result<usize, Error>
    requires inside { InTransaction S.Store P.Shelf connection.old }
    ensures writes { Writes S.Store P.Shelf connection.old connection.new result }
    ensures holds { OnOk result (Becomes S.Store P.Shelf connection.old connection.new
        (λ rows. record rows { locks = rows.locks ++ record { tenant = tenant.now; bucket = bucket.now } ∷ [] })) }
    ensures trouble { IfErr result (IsTroubleIf S.Store P.Shelf connection.old connection.new
        (IsNewLock (tables S.Store P.Shelf connection.old) tenant.now bucket.now)) }
{
    write(
        &mut connection.database,
        "INSERT INTO locks (tenant, bucket) VALUES (?1, ?2)",
        &[tenant.to_sql(), bucket.to_sql()],
    )
}
