//! The rule of a bucket for unfinished uploads.
ghost use Rattle.std.specs.Prelude.{◌≡◌, ◌≤◌, None, IfOk};
ghost use Rattle.bh_model.specs.Operations as machine;
ghost use Rattle.bh_storage.specs.Answers.{removed_answer};
ghost use Rattle.bh_storage.specs.Calls.{Unless, Carries, Decides};
ghost use Rattle.bh_view.specs.Sound.{AreDays};
ghost use Rattle.bh_view.specs.View.{view};
ghost use Rattle.bh_base.specs.Connections.{IsClean, tables};
ghost use Rattle.bh_schema.specs.Working.{Works, WorksOn};
ghost use Rattle.bh_uploads.specs.Found.{rule_in};

use bh_base::connection::Connection;
use bh_objects::deletes::nothing_told;
use bh_objects::reads::bucket_state;
use bh_schema::rows;
use bh_schema::trouble::or_trouble;
use bh_shelf::shelf::Shelf;
use bh_storage::answer::RemovedEntry;
use bh_storage::error::{StepError, Trouble};
use bh_types::bucket::BucketName;
use bh_types::names::TenantName;
use bh_types::refusal::Refusal;
use sqlite::Alter;

/// The days of a rule, from a column: 1 to 3,650.
fn days_of(days: Option<u64>) -> Result<Option<u16>, Trouble>
    ensures same { IfOk result (λ d. d ≡ days) }
    ensures range { IfOk result (λ d. AreDays d) }
{
    match days {
        None => Ok(None),
        Some(days) => {
            if days == 0 || days > 3_650 {
                return Err(Trouble::Store);
            }
            Ok(Some(days as u16))
        }
    }
}

/// The rule of a tenant's bucket, if it has one. Refusal: NoSuchBucket.
pub fn bucket_rule<S: Alter, P: Shelf>(
    connection: &mut Connection<S, P>,
    tenant: &TenantName,
    bucket: &BucketName,
) -> Result<Option<u16>, StepError<Refusal>>
    requires { Works S.Store P.Shelf connection.old }
    ensures works { WorksOn S.Store P.Shelf (Unless result) connection.old connection.new }
    ensures decides { IsClean S.Store P.Shelf connection.new
        → Decides (λ days. days) (rule_in bucket.now (view (tables S.Store P.Shelf connection.old) tenant.now))
        (tables S.Store P.Shelf connection.old) (tables S.Store P.Shelf connection.new) result }
    ensures range { IfOk result (λ days. AreDays days) }
{
    match or_trouble(rows::buckets::find_bucket(connection, tenant.as_str(), bucket.as_str()))? {
        Some(numbers) => match days_of(numbers.days) {
            Ok(days) => Ok(days),
            Err(trouble) => Err(StepError::Failed(trouble)),
        },
        None => Err(StepError::Refused(Refusal::NoSuchBucket)),
    }
}

/// S3's GetBucketLifecycleConfiguration. Refusals: NoSuchBucket, NoSuchLifecycleConfiguration.
/// Returns the number of days after which unfinished uploads are removed.
pub fn lifecycle<S: Alter, P: Shelf>(
    connection: &mut Connection<S, P>,
    tenant: &TenantName,
    bucket: &BucketName,
) -> Result<u16, StepError<Refusal>>
    requires { Works S.Store P.Shelf connection.old }
    ensures works { WorksOn S.Store P.Shelf (Unless result) connection.old connection.new }
    ensures carries { IsClean S.Store P.Shelf connection.new
        → Carries (λ days. machine.Lifecycle days) tenant.now (machine.get_lifecycle bucket.now)
        (tables S.Store P.Shelf connection.old) (tables S.Store P.Shelf connection.new) result }
{
    match bucket_rule(connection, tenant, bucket) {
        Ok(Some(days)) => Ok(days),
        Ok(None) => Err(StepError::Refused(Refusal::NoSuchLifecycleConfiguration)),
        Err(error) => Err(error),
    }
}

/// S3's DeleteBucketLifecycle. Refusal: NoSuchBucket. A bucket without a rule doesn't change.
pub fn delete_lifecycle<S: Alter, P: Shelf>(
    connection: &mut Connection<S, P>,
    tenant: &TenantName,
    bucket: &BucketName,
) -> Result<RemovedEntry, StepError<Refusal>>
    requires working { Works S.Store P.Shelf connection.old }
    ensures works { WorksOn S.Store P.Shelf (Unless result) connection.old connection.new }
    ensures carries { IsClean S.Store P.Shelf connection.new → Carries removed_answer tenant.now (machine.delete_lifecycle bucket.now)
        (tables S.Store P.Shelf connection.old) (tables S.Store P.Shelf connection.new) result }
{
    bucket_state(connection, tenant, bucket)?;
    or_trouble(rows::rules::clear_days(connection, tenant.as_str(), bucket.as_str()))?;
    Ok(nothing_told())
}

/// S3's PutBucketLifecycleConfiguration. Refusal: NoSuchBucket. The rule also applies to earlier
/// uploads.
pub fn set_lifecycle<S: Alter, P: Shelf>(
    connection: &mut Connection<S, P>,
    tenant: &TenantName,
    bucket: &BucketName,
    days: u16,
) -> Result<(), StepError<Refusal>>
    requires working { Works S.Store P.Shelf connection.old }
    requires least { 1 ≤ days }
    requires most { days ≤ 3650 }
    ensures works { WorksOn S.Store P.Shelf (Unless result) connection.old connection.new }
    ensures carries { IsClean S.Store P.Shelf connection.new
        → Carries (λ _. machine.Done) tenant.now (machine.put_lifecycle bucket.now days)
        (tables S.Store P.Shelf connection.old) (tables S.Store P.Shelf connection.new) result }
{
    bucket_state(connection, tenant, bucket)?;
    or_trouble(rows::rules::set_days(connection, tenant.as_str(), bucket.as_str(), days))?;
    Ok(())
}
