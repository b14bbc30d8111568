ghost use Rattle.std.specs.Prelude.{◌≡◌, ◌++◌, ◌∷◌, [], ◌<◌, ◌^◌, None, map, find, option_map, IfOk, IfErr, OnOk};
ghost use Rattle.sqlite_keyed.specs.Lists.{update_where, delete_where};
ghost use Rattle.bh_types.specs.BucketStates.{state_number};
ghost use Rattle.bh_tables.specs.Shown.{is_bucket, shown_entry};
ghost use Rattle.bh_schema.specs.Calls.{Reads, Writes};
ghost use Rattle.bh_base.specs.Connections.{IsClean, tables, InTransaction, Becomes, IsTrouble, IsTroubleIf};
ghost use Rattle.bh_schema.specs.Rows.{bucket_numbers, listed_buckets, IsNewBucket, IsEmptyBucket};
ghost use Rattle.bh_schema.specs.Views.{bucket_reading, entry_reading};

use crate::rows::number::number;
use crate::rows::reading::{FromRow, Listed, first_of};
use crate::rows::writing::write;
use bh_base::connection::Connection;
use bh_shelf::shelf::Shelf;
use bh_types::bucket_state::BucketState;
use sqlite::types::ToSql;
use sqlite::{Alter, Error, Row};

/// A bucket's creation time, its state, and its rule for unfinished uploads.
#[derive(Clone, Copy)]
pub struct BucketNumbers {
    /// Seconds since 1970.
    pub created: u64,
    /// 0, 1, 2: Unversioned, Enabled, Suspended.
    pub state: u64,
    /// Unfinished uploads become stale after this many days, if there is a rule.
    pub days: Option<u64>,
}

/// A bucket in a listing.
#[derive(Drop)]
pub struct ListedBucket {
    pub name: String,
    /// Its creation time, in seconds since 1970.
    pub created: u64,
}

impl FromRow for BucketNumbers {
    ghost reading = { bucket_reading };

    fn read(row: &Row) -> Result<BucketNumbers, Error> {
        Ok(BucketNumbers {
            created: row.get(0)?,
            state: row.get(1)?,
            days: row.get(2)?,
        })
    }
}

impl FromRow for ListedBucket {
    ghost reading = { entry_reading };

    fn read(row: &Row) -> Result<ListedBucket, Error> {
        Ok(ListedBucket {
            name: row.get(0)?,
            created: row.get(1)?,
        })
    }
}

/// The numbers of a tenant's bucket of this name, if there is one.
pub fn find_bucket<S: Alter, P: Shelf>(
    connection: &mut Connection<S, P>,
    tenant: &str,
    bucket: &str,
) -> Result<Option<BucketNumbers>, Error>
    requires inside { InTransaction S.Store P.Shelf connection.old }
    ensures reads { Reads S.Store P.Shelf connection.old connection.new result }
    ensures found { IfOk result (λ found. IsClean S.Store P.Shelf connection.new
        → found ≡ option_map bucket_numbers (find (is_bucket tenant.now bucket.now) (tables S.Store P.Shelf connection.old).buckets)) }
    ensures trouble { IfErr result (IsTrouble S.Store P.Shelf connection.old connection.new) }
{
    let rows = connection.database.query_all(
        "SELECT created, state, days FROM buckets WHERE tenant = ?1 AND bucket = ?2 ORDER BY rowid",
        &[tenant.to_sql(), bucket.to_sql()],
    )?;
    first_of(&rows)
}

/// Adds a bucket in this state without a rule, with this creation time in seconds since 1970.
pub fn insert_bucket<S: Alter, P: Shelf>(
    connection: &mut Connection<S, P>,
    tenant: &str,
    bucket: &str,
    created: u64,
    state: BucketState,
) -> Result<usize, Error>
    requires inside { InTransaction S.Store P.Shelf connection.old }
    requires small { created < 2 ^ 63 }
    ensures writes { Writes S.Store P.Shelf connection.old connection.new result }
    ensures holds { OnOk result (Becomes S.Store P.Shelf connection.old connection.new
        (λ rows. record rows {
          buckets = rows.buckets
              ++ record { tenant = tenant.now; bucket = bucket.now; created = created; state = state_number state; days = None } ∷ [];
        })) }
    ensures trouble { IfErr result (IsTroubleIf S.Store P.Shelf connection.old connection.new
        (IsNewBucket (tables S.Store P.Shelf connection.old) tenant.now bucket.now)) }
{
    write(
        &mut connection.database,
        "INSERT INTO buckets (tenant, bucket, created, state, days) VALUES (?1, ?2, ?3, ?4, NULL)",
        &[
            tenant.to_sql(),
            bucket.to_sql(),
            number(created),
            number(state.number()),
        ],
    )
}

/// Sets the state of a tenant's bucket of this name, if there is one.
pub fn set_state<S: Alter, P: Shelf>(
    connection: &mut Connection<S, P>,
    tenant: &str,
    bucket: &str,
    state: BucketState,
) -> Result<usize, Error>
    requires inside { InTransaction S.Store P.Shelf connection.old }
    ensures writes { Writes S.Store P.Shelf connection.old connection.new result }
    ensures holds { OnOk result (Becomes S.Store P.Shelf connection.old connection.new
        (λ rows. record rows {
          buckets =
              update_where (is_bucket tenant.now bucket.now) (λ b. record b { state = state_number state }) rows.buckets;
        })) }
    ensures trouble { IfErr result (IsTrouble S.Store P.Shelf connection.old connection.new) }
{
    write(
        &mut connection.database,
        "UPDATE buckets SET state = ?3 WHERE tenant = ?1 AND bucket = ?2",
        &[tenant.to_sql(), bucket.to_sql(), number(state.number())],
    )
}

/// Deletes a tenant's bucket of this name, if there is one. The store refuses if the bucket has a
/// version or an upload, or is locked.
pub fn delete_bucket<S: Alter, P: Shelf>(
    connection: &mut Connection<S, P>,
    tenant: &str,
    bucket: &str,
) -> Result<usize, Error>
    requires inside { InTransaction S.Store P.Shelf connection.old }
    ensures writes { Writes S.Store P.Shelf connection.old connection.new result }
    ensures holds { OnOk result (Becomes S.Store P.Shelf connection.old connection.new
        (λ rows. record rows { buckets = delete_where (is_bucket tenant.now bucket.now) rows.buckets })) }
    ensures trouble { IfErr result (IsTroubleIf S.Store P.Shelf connection.old connection.new
        (IsEmptyBucket (tables S.Store P.Shelf connection.old) tenant.now bucket.now)) }
{
    write(
        &mut connection.database,
        "DELETE FROM buckets WHERE tenant = ?1 AND bucket = ?2",
        &[tenant.to_sql(), bucket.to_sql()],
    )
}

/// All of a tenant's buckets, by name in byte order.
impl Listed for ListedBucket {
    ghost listed = { λ tenant tables. map shown_entry (listed_buckets tenant tables) };

    fn rows<S: Alter, P: Shelf>(
        connection: &mut Connection<S, P>,
        tenant: &str,
    ) -> Result<Vec<Row>, Error> {
        connection.database.query_all(
            "SELECT bucket, created FROM buckets WHERE tenant = ?1 ORDER BY bucket, rowid",
            &[tenant.to_sql()],
        )
    }
}
