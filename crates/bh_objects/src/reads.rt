ghost use Rattle.std.specs.Prelude.{◌≡◌, IfOk};
ghost use Rattle.std.specs.List.{list_any};
ghost use Rattle.bh_tables.specs.Shown.{is_lock};
ghost use Rattle.bh_storage.specs.Calls.{Unless, Decides};
ghost use Rattle.bh_view.specs.View.{view};
ghost use Rattle.bh_schema.specs.Calls.{Reads};
ghost use Rattle.bh_base.specs.Connections.{IsClean, tables, InTransaction};
ghost use Rattle.bh_schema.specs.Working.{Works, WorksOn};
ghost use Rattle.bh_objects.specs.Found.{mode_in, account_in, bytes_in, counts_in, numbers_in, tenant_in, name_free};

use bh_base::connection::Connection;
use bh_model::counting::after_entry;
use bh_schema::rows;
use bh_schema::rows::contents::{Content, bucket_has};
use bh_schema::trouble::or_trouble;
use bh_shelf::shelf::Shelf;
use bh_storage::error::{StepError, Trouble};
use bh_types::bucket::BucketName;
use bh_types::bucket_state::BucketState;
use bh_types::counters::Counters;
use bh_types::names::TenantName;
use bh_types::refusal::Refusal;
use sqlite::Alter;

/// The state of a tenant's bucket: NoSuchBucket.
pub fn bucket_state<S: Alter, P: Shelf>(
    connection: &mut Connection<S, P>,
    tenant: &TenantName,
    bucket: &BucketName,
) -> Result<BucketState, StepError<Refusal>>
    requires { Works S.Store P.Shelf connection.old }
    ensures works { WorksOn S.Store P.Shelf (Unless result) connection.old connection.new }
    ensures decides { IsClean S.Store P.Shelf connection.new
        → Decides (λ mode. mode) (mode_in bucket.now (view (tables S.Store P.Shelf connection.old) tenant.now))
        (tables S.Store P.Shelf connection.old) (tables S.Store P.Shelf connection.new) result }
{
    match or_trouble(rows::buckets::find_bucket(connection, tenant.as_str(), bucket.as_str()))? {
        Some(numbers) => match BucketState::from_number(numbers.state) {
            Some(mode) => Ok(mode),
            None => Err(StepError::Failed(Trouble::Store)),
        },
        None => Err(StepError::Refused(Refusal::NoSuchBucket)),
    }
}

/// Whether a tenant's bucket is locked.
pub fn bucket_locked<S: Alter, P: Shelf>(
    connection: &mut Connection<S, P>,
    tenant: &TenantName,
    bucket: &BucketName,
) -> Result<bool, Trouble>
    requires { InTransaction S.Store P.Shelf connection.old }
    ensures reads { Reads S.Store P.Shelf connection.old connection.new result }
    ensures found { IfOk result (λ found. IsClean S.Store P.Shelf connection.new
        → found ≡ list_any (is_lock tenant.now bucket.now) (tables S.Store P.Shelf connection.old).locks) }
{
    or_trouble(bucket_has(connection, tenant.as_str(), bucket.as_str(), Content::Lock))
}

/// A tenant's quota and use, and the next numbers of its counters.
#[derive(Clone, Copy)]
pub struct Account {
    /// In bytes.
    pub quota: u64,
    /// The bytes of its versions and parts.
    pub used: u64,
    pub counters: Counters,
}

/// A tenant's quota, its use, and its counters.
pub fn tenant_account<S: Alter, P: Shelf>(
    connection: &mut Connection<S, P>,
    tenant: &TenantName,
) -> Result<Account, StepError<Refusal>>
    requires { Works S.Store P.Shelf connection.old }
    ensures works { WorksOn S.Store P.Shelf (Unless result) connection.old connection.new }
    ensures decides { IsClean S.Store P.Shelf connection.new
        → Decides (λ account. (account.quota, account.counters)) (account_in (view (tables S.Store P.Shelf connection.old) tenant.now))
        (tables S.Store P.Shelf connection.old) (tables S.Store P.Shelf connection.new) result }
    ensures used { IfOk result (λ account. IsClean S.Store P.Shelf connection.new
        → account.used ≡ bytes_in tenant.now (tables S.Store P.Shelf connection.old)) }
{
    match or_trouble(rows::tenants::find_account(connection, tenant.as_str()))? {
        Some(found) => {
            let (version, upload) = (found.numbers.next_version, found.numbers.next_upload);
            match Counters::new(version, upload, found.numbers.next_entry) {
                Some(counters) => Ok(Account {
                    quota: found.numbers.quota,
                    used: found.used,
                    counters,
                }),
                None => Err(StepError::Failed(Trouble::Store)),
            }
        }
        None => Err(StepError::Refused(Refusal::NoSuchBucket)),
    }
}

/// The next numbers of a tenant's counters.
pub fn next_counters<S: Alter, P: Shelf>(
    connection: &mut Connection<S, P>,
    tenant: &TenantName,
) -> Result<Counters, StepError<Refusal>>
    requires { Works S.Store P.Shelf connection.old }
    ensures works { WorksOn S.Store P.Shelf (Unless result) connection.old connection.new }
    ensures decides { IsClean S.Store P.Shelf connection.new
        → Decides (λ counters. counters) (counts_in (view (tables S.Store P.Shelf connection.old) tenant.now))
        (tables S.Store P.Shelf connection.old) (tables S.Store P.Shelf connection.new) result }
{
    let account = tenant_account(connection, tenant)?;
    Ok(account.counters)
}

/// The numbers of a new entry.
#[derive(Clone, Copy, PartialEq, Eq)]
pub struct Numbers {
    /// The tenant's counters before that.
    pub before: Counters,
    /// The counters once they are given.
    pub after: Counters,
}

/// The numbers of a new entry in a bucket of this state. Refusal: CounterExhausted.
pub fn new_numbers<S: Alter, P: Shelf>(
    connection: &mut Connection<S, P>,
    tenant: &TenantName,
    mode: BucketState,
) -> Result<Numbers, StepError<Refusal>>
    requires { Works S.Store P.Shelf connection.old }
    ensures works { WorksOn S.Store P.Shelf (Unless result) connection.old connection.new }
    ensures decides { IsClean S.Store P.Shelf connection.new
        → Decides (λ numbers. (numbers.before, numbers.after)) (numbers_in mode (view (tables S.Store P.Shelf connection.old) tenant.now))
        (tables S.Store P.Shelf connection.old) (tables S.Store P.Shelf connection.new) result }
{
    let before = next_counters(connection, tenant)?;
    let after = after_entry(mode, before)?;
    Ok(Numbers { before, after })
}

/// Fails with NoSuchTenant if a tenant doesn't exist.
pub fn require_tenant<S: Alter, P: Shelf>(
    connection: &mut Connection<S, P>,
    tenant: &TenantName,
) -> Result<(), StepError<Refusal>>
    requires { Works S.Store P.Shelf connection.old }
    ensures works { WorksOn S.Store P.Shelf (Unless result) connection.old connection.new }
    ensures decides { IsClean S.Store P.Shelf connection.new
        → Decides (λ _. tt) (tenant_in (view (tables S.Store P.Shelf connection.old) tenant.now))
        (tables S.Store P.Shelf connection.old) (tables S.Store P.Shelf connection.new) result }
{
    match or_trouble(rows::tenants::find_tenant(connection, tenant.as_str()))? {
        Some(_) => Ok(()),
        None => Err(StepError::Refused(Refusal::NoSuchTenant)),
    }
}

/// Fails with BucketAlreadyOwnedByYou if a tenant has a bucket of this name.
pub fn require_free_name<S: Alter, P: Shelf>(
    connection: &mut Connection<S, P>,
    tenant: &TenantName,
    bucket: &BucketName,
) -> Result<(), StepError<Refusal>>
    requires { Works S.Store P.Shelf connection.old }
    ensures works { WorksOn S.Store P.Shelf (Unless result) connection.old connection.new }
    ensures decides { IsClean S.Store P.Shelf connection.new
        → Decides (λ _. tt) (name_free bucket.now (view (tables S.Store P.Shelf connection.old) tenant.now))
        (tables S.Store P.Shelf connection.old) (tables S.Store P.Shelf connection.new) result }
{
    match or_trouble(rows::buckets::find_bucket(connection, tenant.as_str(), bucket.as_str()))? {
        None => Ok(()),
        Some(_) => Err(StepError::Refused(Refusal::BucketAlreadyOwnedByYou)),
    }
}
