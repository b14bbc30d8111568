//! The buckets of a tenant.

ghost use Rattle.std.specs.Prelude.{◌≡◌, ◌∷◌, [], OnOk, ◌<◌, ◌^◌, None, Some, IfSome};
ghost use Rattle.bh_tables.specs.Typed.{BucketRow};
ghost use Rattle.bh_base.specs.Connections.{InTransaction, Becomes};
ghost use Rattle.bh_tenant_rows.specs.Shown.{shown_bucket};
ghost use Rattle.bh_tenant_rows.specs.Brought.{with_buckets};
ghost use Rattle.bh_schema.specs.Calls.{Writes};
ghost use Rattle.bh_moved.specs.Rows.{bucket_of};

use crate::cells::{maybe_number_at, number_at};
use bh_base::connection::Connection;
use bh_schema::rows::number::number;
use bh_shelf::shelf::Shelf;
use sqlite::types::ToSql;
use sqlite::{Alter, Error, Row};

/// Adds a bucket without a rule, with this creation time in seconds since 1970 and the number of
/// its state.
fn insert_plain<T: Alter, Q: Shelf>(
    to: &mut Connection<T, Q>,
    tenant: &str,
    bucket: &str,
    created: u64,
    state: u64,
) -> Result<usize, Error>
    requires inside { InTransaction T.Store Q.Shelf to.old }
    requires created { created < 2 ^ 63 }
    requires state { state < 2 ^ 63 }
    ensures writes { Writes T.Store Q.Shelf to.old to.new result }
    ensures holds { OnOk result (Becomes T.Store Q.Shelf to.old to.new
        (with_buckets (record { tenant = tenant.now; bucket = bucket.now; created = created; state = state; days = None } ∷ []))) }
{
    // Asked for what it ensures: the rows obey the schema.
    let _schema = to.database.schema();
    to.database.execute(
        "INSERT INTO buckets (tenant, bucket, created, state, days) VALUES (?1, ?2, ?3, ?4, NULL)",
        &[
            tenant.to_sql(),
            bucket.to_sql(),
            number(created),
            number(state),
        ],
    )
}

/// Adds a bucket with a rule: uploads become stale after `days` days.
fn insert_ruled<T: Alter, Q: Shelf>(
    to: &mut Connection<T, Q>,
    tenant: &str,
    bucket: &str,
    created: u64,
    state: u64,
    days: u64,
) -> Result<usize, Error>
    requires inside { InTransaction T.Store Q.Shelf to.old }
    requires created { created < 2 ^ 63 }
    requires state { state < 2 ^ 63 }
    requires days { days < 2 ^ 63 }
    ensures writes { Writes T.Store Q.Shelf to.old to.new result }
    ensures holds { OnOk result (Becomes T.Store Q.Shelf to.old to.new
        (with_buckets (record { tenant = tenant.now; bucket = bucket.now; created = created; state = state; days = Some days } ∷ []))) }
{
    // Asked for what it ensures: the rows obey the schema.
    let _schema = to.database.schema();
    to.database.execute(
        "INSERT INTO buckets (tenant, bucket, created, state, days) VALUES (?1, ?2, ?3, ?4, ?5)",
        &[
            tenant.to_sql(),
            bucket.to_sql(),
            number(created),
            number(state),
            number(days),
        ],
    )
}

/// Adds a bucket with its rule, if it has one.
fn insert_bucket<T: Alter, Q: Shelf>(
    to: &mut Connection<T, Q>,
    tenant: &str,
    bucket: &str,
    created: u64,
    state: u64,
    days: Option<u64>,
) -> Result<usize, Error>
    requires inside { InTransaction T.Store Q.Shelf to.old }
    requires created { created < 2 ^ 63 }
    requires state { state < 2 ^ 63 }
    requires days { IfSome days (λ n. n < 2 ^ 63) }
    ensures writes { Writes T.Store Q.Shelf to.old to.new result }
    ensures holds { OnOk result (Becomes T.Store Q.Shelf to.old to.new
        (with_buckets (record { tenant = tenant.now; bucket = bucket.now; created = created; state = state; days = days } ∷ []))) }
{
    match days {
        None => insert_plain(to, tenant, bucket, created, state),
        Some(days) => insert_ruled(to, tenant, bucket, created, state, days),
    }
}

/// Adds a bucket in its state, with its rule.
pub fn add_bucket<T: Alter, Q: Shelf>(
    to: &mut Connection<T, Q>,
    tenant: &str,
    row: &Row,
) -> Result<(), Error>
    requires inside { InTransaction T.Store Q.Shelf to.old }
    ensures writes { Writes T.Store Q.Shelf to.old to.new result }
    ensures added { OnOk result ((b : BucketRow) → row.now ≡ shown_bucket b
        → Becomes T.Store Q.Shelf to.old to.new (with_buckets (bucket_of tenant.now b ∷ []))) }
{
    let bucket: String = row.get(0)?;
    let created = number_at(row, 1)?;
    let state = number_at(row, 2)?;
    let days = maybe_number_at(row, 3)?;
    insert_bucket(to, tenant, &bucket, created, state, days)?;
    Ok(())
}
