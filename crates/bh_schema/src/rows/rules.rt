ghost use Rattle.std.specs.Prelude.{Option, Some, None, map, IfErr, OnOk};
ghost use Rattle.sqlite_keyed.specs.Lists.{update_where};
ghost use Rattle.bh_tables.specs.Shown.{is_bucket, shown_rule};
ghost use Rattle.bh_schema.specs.Calls.{Writes};
ghost use Rattle.bh_base.specs.Connections.{tables, InTransaction, Becomes, IsTrouble};
ghost use Rattle.bh_schema.specs.Rows.{listed_rules};
ghost use Rattle.bh_schema.specs.Views.{rule_reading};

use crate::rows::number::number;
use crate::rows::reading::{FromRow, Listed};
use crate::rows::writing::write;
use bh_base::connection::Connection;
use bh_shelf::shelf::Shelf;
use sqlite::types::ToSql;
use sqlite::{Alter, Error, Row};

/// A bucket's rule for unfinished uploads.
#[derive(Drop)]
pub struct BucketRule {
    pub bucket: String,
    /// Unfinished uploads become stale after this many days.
    pub days: Option<u64>,
}

impl FromRow for BucketRule {
    ghost reading = { rule_reading };

    fn read(row: &Row) -> Result<BucketRule, Error> {
        Ok(BucketRule {
            bucket: row.get(0)?,
            days: row.get(1)?,
        })
    }
}

/// Sets the rule of a tenant's bucket of this name, if there is one: uploads become stale after
/// `days` days.
pub fn set_days<S: Alter, P: Shelf>(
    connection: &mut Connection<S, P>,
    tenant: &str,
    bucket: &str,
    days: u16,
) -> Result<usize, Error>
    requires inside { InTransaction S.Store P.Shelf connection.old }
    ensures writes { Writes S.Store P.Shelf connection.old connection.new result }
    ensures holds { OnOk result (Becomes S.Store P.Shelf connection.old connection.new
        (λ rows. record rows {
          buckets = update_where (is_bucket tenant.now bucket.now)
              (λ b. record b { days = Some days }) rows.buckets;
        })) }
    ensures trouble { IfErr result (IsTrouble S.Store P.Shelf connection.old connection.new) }
{
    write(
        &mut connection.database,
        "UPDATE buckets SET days = ?3 WHERE tenant = ?1 AND bucket = ?2",
        &[tenant.to_sql(), bucket.to_sql(), number(u64::from(days))],
    )
}

/// Deletes the rule of a tenant's bucket of this name, if there is one.
pub fn clear_days<S: Alter, P: Shelf>(
    connection: &mut Connection<S, P>,
    tenant: &str,
    bucket: &str,
) -> Result<usize, Error>
    requires inside { InTransaction S.Store P.Shelf connection.old }
    ensures writes { Writes S.Store P.Shelf connection.old connection.new result }
    ensures holds { OnOk result (Becomes S.Store P.Shelf connection.old connection.new
        (λ rows. record rows { buckets = update_where (is_bucket tenant.now bucket.now) (λ b. record b { days = None }) rows.buckets })) }
    ensures trouble { IfErr result (IsTrouble S.Store P.Shelf connection.old connection.new) }
{
    write(
        &mut connection.database,
        "UPDATE buckets SET days = NULL WHERE tenant = ?1 AND bucket = ?2",
        &[tenant.to_sql(), bucket.to_sql()],
    )
}

/// The rules of a tenant's buckets that have one, by the buckets' names in byte order.
impl Listed for BucketRule {
    ghost listed = { λ tenant tables. map shown_rule (listed_rules tenant tables) };

    fn rows<S: Alter, P: Shelf>(
        connection: &mut Connection<S, P>,
        tenant: &str,
    ) -> Result<Vec<Row>, Error> {
        connection.database.query_all(
            "SELECT bucket, days FROM buckets WHERE tenant = ?1 AND days >= 0 ORDER BY bucket, rowid",
            &[tenant.to_sql()],
        )
    }
}
