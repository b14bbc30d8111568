//! A tenant's rows that have a name, and that no other row refers to.

ghost use Rattle.std.specs.Prelude.{IfErr, OnOk};
ghost use Rattle.bh_schema.specs.Calls.{Writes};
ghost use Rattle.bh_base.specs.Connections.{InTransaction, Becomes, IsTrouble};
ghost use Rattle.bh_schema.specs.Named.{without_named, IsTextOf};

use crate::rows::writing::write;
use bh_base::connection::Connection;
use bh_shelf::shelf::Shelf;
use sqlite::types::ToSql;
use sqlite::{Alter, Error};

/// Such a row.
#[derive(Clone, Copy)]
pub enum Named {
    /// An access key.
    Key,
    /// The lock of a bucket, which is deleted before the bucket.
    Lock,
}

impl Named {
    fn text(self) -> &'static str
        ensures { IsTextOf self result.now }
    {
        match self {
            Named::Key => "DELETE FROM keys WHERE tenant = ?1 AND name = ?2",
            Named::Lock => "DELETE FROM locks WHERE tenant = ?1 AND bucket = ?2",
        }
    }
}

/// Deletes such a row of a tenant, if there is one.
pub fn delete_named<S: Alter, P: Shelf>(
    connection: &mut Connection<S, P>,
    tenant: &str,
    name: &str,
    row: Named,
) -> Result<usize, Error>
    requires inside { InTransaction S.Store P.Shelf connection.old }
    ensures writes { Writes S.Store P.Shelf connection.old connection.new result }
    ensures holds { OnOk result (Becomes S.Store P.Shelf connection.old connection.new (without_named row tenant.now name.now)) }
    ensures trouble { IfErr result (IsTrouble S.Store P.Shelf connection.old connection.new) }
{
    write(
        &mut connection.database,
        row.text(),
        &[tenant.to_sql(), name.to_sql()],
    )
}
