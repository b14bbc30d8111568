//! Checks of a tenant's quota.
ghost use Rattle.std.specs.Prelude.{◌≡◌, ◌+◌, ◌-◌, Ok, IfOk};
ghost use Rattle.bh_storage.specs.Calls.{Unless, Decides};
ghost use Rattle.bh_view.specs.View.{view};
ghost use Rattle.bh_schema.specs.Calls.{MayRead};
ghost use Rattle.bh_base.specs.Connections.{IsClean, tables, InTransaction};
ghost use Rattle.bh_schema.specs.Working.{Works, WorksOn};
ghost use Rattle.bh_objects.specs.Found as spec;
ghost use Rattle.bh_objects.specs.Found.{Answers, mode_in, null_in, replaced_in, room_under, entry_numbers_in};

use crate::heads::numbered_head;
use crate::reads::{Account, Numbers, tenant_account};
use bh_base::connection::Connection;
use bh_core::quotas::fits_quota;
use bh_model::counting::after_entry;
use bh_schema::rows::versions::VersionHead;
use bh_shelf::shelf::Shelf;
use bh_storage::error::{StepError, Trouble};
use bh_types::bucket::BucketName;
use bh_types::bucket_state::BucketState;
use bh_types::key::ObjectKey;
use bh_types::names::TenantName;
use bh_types::refusal::Refusal;
use sqlite::Alter;

/// The bytes in use after `replaced` bytes were replaced by `added` bytes.
fn used_after(before: u64, replaced: u64, added: u64) -> Result<u64, Trouble>
    ensures { IfOk result (λ after. after ≡ before + added - replaced) }
{
    let Some(total) = before.checked_add(added) else {
        return Err(Trouble::Store);
    };
    match total.checked_sub(replaced) {
        Some(after) => Ok(after),
        None => Err(Trouble::Store),
    }
}

/// Fails with QuotaExceeded if a tenant may not replace `replaced` bytes by `added` bytes, given
/// the bytes in use.
fn require_sum(account: &Account, replaced: u64, added: u64) -> Result<(), StepError<Refusal>>
    ensures { Answers (λ _. tt) (room_under account.now.quota account.now.used replaced added) result }
{
    let after = used_after(account.used, replaced, added)?;
    if fits_quota(account.used, after, account.quota) {
        Ok(())
    } else {
        Err(StepError::Refused(Refusal::QuotaExceeded))
    }
}

/// Fails with QuotaExceeded if a tenant may not replace `replaced` bytes by `added` bytes. A change
/// that adds no more than it replaces is accepted.
pub fn require_room(account: &Account, replaced: u64, added: u64) -> Result<(), StepError<Refusal>>
    ensures { Answers (λ _. tt) (room_under account.now.quota account.now.used replaced added) result }
{
    if added <= replaced {
        Ok(())
    } else {
        require_sum(account, replaced, added)
    }
}

/// The entry `null` that a new entry replaces.
#[derive(Clone, Copy)]
pub struct Replaced {
    /// Its entry number, which is its body's name.
    pub seq: u64,
    /// In bytes.
    pub size: u64,
}

/// The facts about a version or marker that are needed to replace it.
pub fn as_replaced(head: &VersionHead) -> Replaced
    ensures seq { result.seq ≡ head.now.seq }
    ensures size { result.size ≡ head.now.size }
{
    Replaced {
        seq: head.seq,
        size: head.size,
    }
}

/// The entry `null` of a key, if it is there.
fn find_null<S: Alter, P: Shelf>(
    connection: &mut Connection<S, P>,
    tenant: &TenantName,
    bucket: &BucketName,
    key: &ObjectKey,
) -> Result<Option<Replaced>, Trouble>
    requires { InTransaction S.Store P.Shelf connection.old }
    ensures reads { MayRead S.Store P.Shelf connection.old connection.new result }
    ensures found { IfOk result (λ found. IsClean S.Store P.Shelf connection.new
        → found ≡ null_in tenant.now bucket.now key.now (tables S.Store P.Shelf connection.old)) }
{
    match numbered_head(connection, tenant, bucket, key, 0)? {
        Some(head) => Ok(Some(as_replaced(&head))),
        None => Ok(None),
    }
}

/// The entry that a new one of a key replaces, in a bucket of this state.
pub(crate) fn find_replaced<S: Alter, P: Shelf>(
    connection: &mut Connection<S, P>,
    tenant: &TenantName,
    bucket: &BucketName,
    key: &ObjectKey,
    mode: BucketState,
) -> Result<Option<Replaced>, Trouble>
    requires { InTransaction S.Store P.Shelf connection.old }
    ensures reads { MayRead S.Store P.Shelf connection.old connection.new result }
    ensures found { IfOk result (λ found. IsClean S.Store P.Shelf connection.new
        → found ≡ replaced_in mode tenant.now bucket.now key.now (tables S.Store P.Shelf connection.old)) }
{
    match mode {
        BucketState::Enabled => Ok(None),
        BucketState::Unversioned => find_null(connection, tenant, bucket, key),
        BucketState::Suspended => find_null(connection, tenant, bucket, key),
    }
}

fn replaced_bytes(replaced: Option<Replaced>) -> u64
    ensures { result ≡ spec.replaced_bytes replaced }
{
    match replaced {
        Some(entry) => entry.size,
        None => 0,
    }
}

/// The numbers of a new entry, and what it replaces.
#[derive(Clone, Copy)]
pub struct NewEntry {
    pub numbers: Numbers,
    /// The entry that it replaces, if there is one.
    pub replaced: Option<Replaced>,
}

/// The numbers of a new entry of a key, of `size` bytes, in a bucket of this state. Refusals:
/// QuotaExceeded, CounterExhausted. Its rows are read once, for the replaced entry's bytes and its
/// body.
pub fn new_entry<S: Alter, P: Shelf>(
    connection: &mut Connection<S, P>,
    tenant: &TenantName,
    bucket: &BucketName,
    key: &ObjectKey,
    mode: BucketState,
    added: u64,
) -> Result<NewEntry, StepError<Refusal>>
    requires working { Works S.Store P.Shelf connection.old }
    requires there { IsClean S.Store P.Shelf connection.old
        → mode_in bucket.now (view (tables S.Store P.Shelf connection.old) tenant.now) ≡ Ok mode }
    ensures works { WorksOn S.Store P.Shelf (Unless result) connection.old connection.new }
    ensures decides { IsClean S.Store P.Shelf connection.new
        → Decides (λ entry. (entry.numbers.before, entry.numbers.after))
        (entry_numbers_in mode bucket.now key.now added (view (tables S.Store P.Shelf connection.old) tenant.now))
        (tables S.Store P.Shelf connection.old) (tables S.Store P.Shelf connection.new) result }
    ensures replaced { IfOk result (λ entry. IsClean S.Store P.Shelf connection.new
        → entry.replaced ≡ replaced_in mode tenant.now bucket.now key.now (tables S.Store P.Shelf connection.old)) }
{
    let replaced = find_replaced(connection, tenant, bucket, key, mode)?;
    let account = tenant_account(connection, tenant)?;
    let bytes = replaced_bytes(replaced);
    require_room(&account, bytes, added)?;
    let after = after_entry(mode, account.counters)?;
    let numbers = Numbers {
        before: account.counters,
        after,
    };
    Ok(NewEntry { numbers, replaced })
}
