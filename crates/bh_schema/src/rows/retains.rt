ghost use Rattle.std.specs.Prelude.{◌≡◌, ◌++◌, ◌∷◌, [], ◌<◌, ◌^◌, find, option_map, IfOk, IfErr, OnOk};
ghost use Rattle.sqlite_keyed.specs.Lists.{update_where, delete_where};
ghost use Rattle.bh_tables.specs.Shown.{is_retain};
ghost use Rattle.bh_schema.specs.Calls.{Reads, Writes};
ghost use Rattle.bh_base.specs.Connections.{IsClean, tables, InTransaction, Becomes, IsTrouble, IsTroubleIf};
ghost use Rattle.bh_schema.specs.Rows.{until_in, IsNewRetain};

use crate::rows::number::number;
use crate::rows::reading::first_of;
use crate::rows::writing::write;
use bh_base::connection::Connection;
use bh_shelf::shelf::Shelf;
use sqlite::types::ToSql;
use sqlite::{Alter, Error};

/// Adds the first date of a tenant's version with this entry number.
pub fn insert_retain<S: Alter, P: Shelf>(
    connection: &mut Connection<S, P>,
    tenant: &str,
    seq: u64,
    until: u64,
) -> Result<usize, Error>
    requires inside { InTransaction S.Store P.Shelf connection.old }
    requires small { seq < 2 ^ 63 }
    requires near { until < 2 ^ 63 }
    ensures writes { Writes S.Store P.Shelf connection.old connection.new result }
    ensures holds { OnOk result (Becomes S.Store P.Shelf connection.old connection.new
        (λ rows. record rows { retains = rows.retains ++ record { tenant = tenant.now; seq = seq; until = until } ∷ [] })) }
    ensures trouble { IfErr result (IsTroubleIf S.Store P.Shelf connection.old connection.new
        (IsNewRetain (tables S.Store P.Shelf connection.old) tenant.now seq)) }
{
    write(
        &mut connection.database,
        "INSERT INTO retains (tenant, seq, until) VALUES (?1, ?2, ?3)",
        &[tenant.to_sql(), number(seq), number(until)],
    )
}

/// Sets the date of a tenant's version of this entry number, if it has one.
pub fn set_until<S: Alter, P: Shelf>(
    connection: &mut Connection<S, P>,
    tenant: &str,
    seq: u64,
    until: u64,
) -> Result<usize, Error>
    requires inside { InTransaction S.Store P.Shelf connection.old }
    requires small { seq < 2 ^ 63 }
    requires near { until < 2 ^ 63 }
    ensures writes { Writes S.Store P.Shelf connection.old connection.new result }
    ensures holds { OnOk result (Becomes S.Store P.Shelf connection.old connection.new
        (λ rows. record rows {
          retains = update_where (is_retain tenant.now seq) (λ r. record r { until = until }) rows.retains;
        })) }
    ensures trouble { IfErr result (IsTrouble S.Store P.Shelf connection.old connection.new) }
{
    write(
        &mut connection.database,
        "UPDATE retains SET until = ?3 WHERE tenant = ?1 AND seq = ?2",
        &[tenant.to_sql(), number(seq), number(until)],
    )
}

/// The date of a tenant's version of this entry number, in seconds since 1970, if it has one.
pub fn find_until<S: Alter, P: Shelf>(
    connection: &mut Connection<S, P>,
    tenant: &str,
    seq: u64,
) -> Result<Option<u64>, Error>
    requires inside { InTransaction S.Store P.Shelf connection.old }
    requires small { seq < 2 ^ 63 }
    ensures reads { Reads S.Store P.Shelf connection.old connection.new result }
    ensures found { IfOk result (λ found. IsClean S.Store P.Shelf connection.new
        → found ≡ option_map until_in (find (is_retain tenant.now seq) (tables S.Store P.Shelf connection.old).retains)) }
    ensures trouble { IfErr result (IsTrouble S.Store P.Shelf connection.old connection.new) }
{
    let rows = connection.database.query_all(
        "SELECT until FROM retains WHERE tenant = ?1 AND seq = ?2 ORDER BY rowid",
        &[tenant.to_sql(), number(seq)],
    )?;
    first_of(&rows)
}

/// Deletes the date of a tenant's version with this entry number, if it has one. It is deleted
/// before the version.
pub fn delete_retain<S: Alter, P: Shelf>(
    connection: &mut Connection<S, P>,
    tenant: &str,
    seq: u64,
) -> Result<usize, Error>
    requires inside { InTransaction S.Store P.Shelf connection.old }
    requires small { seq < 2 ^ 63 }
    ensures writes { Writes S.Store P.Shelf connection.old connection.new result }
    ensures holds { OnOk result (Becomes S.Store P.Shelf connection.old connection.new
        (λ rows. record rows { retains = delete_where (is_retain tenant.now seq) rows.retains })) }
    ensures trouble { IfErr result (IsTrouble S.Store P.Shelf connection.old connection.new) }
{
    write(
        &mut connection.database,
        "DELETE FROM retains WHERE tenant = ?1 AND seq = ?2",
        &[tenant.to_sql(), number(seq)],
    )
}
