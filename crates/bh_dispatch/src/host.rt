//! Calls on a host in a SQL database, in a transaction.
ghost use Rattle.std.specs.Prelude.{◌≡◌, ◌++◌, ◌+◌, ◌<◌, ◌≤◌, [], length, false, true, None, Ok, IfOk, IfSome, IfNone, OnOk, OnErr};
ghost use Rattle.std.specs.Option.{option_copied};
ghost use Rattle.bh_event.specs.Events.{order_of, tenant_of};
ghost use Rattle.bh_machine.specs.Machine.{operated, ordered};
ghost use Rattle.bh_model.specs.Operations as machine;
ghost use Rattle.bh_view.specs.Bodies.{IsSoundHost};
ghost use Rattle.bh_view.specs.View.{view, latest_of};
ghost use Rattle.bh_storage.specs.Answers.{found_answer};
ghost use Rattle.bh_host.specs.Offers.{IfPlanned, command_answer_view, offer_view, responded};
ghost use Rattle.bh_storage.specs.Calls.{IsReadable, Unless, UnlessSpoilt, Purges, Decides, Operates, Carries, Sweeps, Reports, Lists};
ghost use Rattle.bh_storage.specs.Plans.{IsMeasured, to_come};
ghost use Rattle.bh_base.specs.Connections.{IsClean as IsConnectionClean, packs};
ghost use Rattle.bh_sweep.specs.Counted.{packs_counted};
ghost use Rattle.bh_schema.specs.Storage.{IsClean, IsIntact, IsOpen, seen, Keeps, Works};
ghost use Rattle.bh_memo.specs.Facts.{has_no_rule};
ghost use Rattle.bh_objects.specs.Found.{mode_in};
ghost use Rattle.bh_dispatch.specs.Seeing.{GoesOn};
ghost use Rattle.bh_dispatch.specs.Stored.{CutsBody};

use crate::{commands, operations};
use bh_cache::blocks::BlockCache;
use bh_event::event::Command;
use bh_host::offer::{CommandAnswer, Offer};
use bh_http::body::Body;
use bh_objects::bodies::Blocks;
use bh_objects::{gets, reads};
use bh_operation::address::ObjectName;
use bh_operation::operation::Operation;
use bh_schema::host::{Digester, Host};
use bh_shelf::shelf::Shelf;
use bh_storage::answer::FoundVersion;
use bh_storage::error::{Outcome, StepError, Trouble};
use bh_storage::plan::Plan;
use bh_storage::report::{StoreReport, SweepReport, TenantReport};
use bh_sweep::packs::PackTotals;
use bh_types::bucket::BucketName;
use bh_types::bucket_state::BucketState;
use bh_types::moment::Moment;
use bh_types::names::TenantName;
use bh_types::refusal::Refusal;
use bh_types::rejection::Rejection;
use bh_types::wanted::Wanted;
use sqlite::Alter;
use std::alloc::Global;

/// The size in bytes of the blocks in which bodies are stored.
pub(crate) fn block_size_of(cache: &BlockCache) -> u64
    ensures is { result ≡ cache.now.tuning.block_size }
    ensures positive { 1 ≤ result }
{
    let tuning = cache.tuning();
    tuning.block_size
}

/// Removes a tenant's uploads that are stale at a moment, and returns whether any of its
/// buckets has a rule.
pub fn purge_telling<S: Alter + Drop, P: Shelf + Drop, D: Digester + Drop>(
    host: &mut Host<S, P, D>,
    alloc: Global,
    tenant: &TenantName,
    at: Moment,
) -> Result<bool, Trouble>
    requires { Works S.Store P.Shelf D.digest_of host.old }
    ensures goes_on { GoesOn S.Store P.Shelf D.digest_of (OnOk result) host.old host.new }
    ensures purges { OnOk result (IsClean S.Store P.Shelf host.new
        → Purges tenant.now at (seen S.Store P.Shelf host.old).now (seen S.Store P.Shelf host.new).now) }
    ensures ruled { IfOk result (λ ruled. IsClean S.Store P.Shelf host.new → ruled ≡ false
        → has_no_rule (view (seen S.Store P.Shelf host.old).now tenant.now) ≡ true) }
{
    bh_uploads::purge::purge(&mut host.connection, alloc, tenant, at)
}

/// How many packs it has, their bytes, and how many of these blocks have. No table shows it.
pub fn pack_totals<S: Alter + Drop, P: Shelf + Drop, D: Digester + Drop>(
    host: &mut Host<S, P, D>,
) -> Result<PackTotals, Trouble>
    requires { Works S.Store P.Shelf D.digest_of host.old }
    ensures goes_on { GoesOn S.Store P.Shelf D.digest_of (OnOk result) host.old host.new }
    ensures same { IfOk result (λ totals. IsClean S.Store P.Shelf host.new
        → (seen S.Store P.Shelf host.new).now ≡ (seen S.Store P.Shelf host.old).now) }
    ensures counted { IfOk result (λ totals. IsConnectionClean S.Store P.Shelf host.new.connection
        → totals ≡ packs_counted (packs S.Store P.Shelf host.new.connection)) }
{
    bh_sweep::packs::pack_totals(&mut host.connection)
}

/// The state of a tenant's bucket. Refusal: NoSuchBucket.
pub fn bucket_state<S: Alter + Drop, P: Shelf + Drop, D: Digester + Drop>(
    host: &mut Host<S, P, D>,
    tenant: &TenantName,
    bucket: &BucketName,
) -> Result<BucketState, StepError<Refusal>>
    requires { Works S.Store P.Shelf D.digest_of host.old }
    ensures goes_on { GoesOn S.Store P.Shelf D.digest_of (Unless result) host.old host.new }
    ensures decides { IsClean S.Store P.Shelf host.new
        → Decides (λ state. state) (mode_in bucket.now (view (seen S.Store P.Shelf host.old).now tenant.now))
        (seen S.Store P.Shelf host.old).now (seen S.Store P.Shelf host.new).now result }
{
    reads::bucket_state(&mut host.connection, tenant, bucket)
}

/// An object of a bucket in this state. Refusals: NoSuchKey, NoSuchVersion, MethodNotAllowed,
/// InvalidRange.
pub fn find_object<S: Alter + Drop, P: Shelf + Drop, D: Digester + Drop>(
    host: &mut Host<S, P, D>,
    tenant: &TenantName,
    object: &ObjectName,
    version: Wanted,
    range: Option<&[u8]>,
    state: BucketState,
) -> Result<FoundVersion, StepError<Rejection>>
    requires working { Works S.Store P.Shelf D.digest_of host.old }
    requires state { IsClean S.Store P.Shelf host.old
        → mode_in object.now.bucket (view (seen S.Store P.Shelf host.old).now tenant.now) ≡ Ok state }
    ensures goes_on { GoesOn S.Store P.Shelf D.digest_of (Unless result) host.old host.new }
    ensures same { Unless result (IsClean S.Store P.Shelf host.new
        → (seen S.Store P.Shelf host.new).now ≡ (seen S.Store P.Shelf host.old).now) }
    ensures carries { IsClean S.Store P.Shelf host.new
        → Carries (found_answer (seen S.Store P.Shelf host.new).now) tenant.now
        (machine.get_object object.now.bucket object.now.key version (option_copied range.entry))
        (seen S.Store P.Shelf host.old).now (seen S.Store P.Shelf host.new).now result }
    ensures measured { IfOk result (λ found. IsClean S.Store P.Shelf host.new
        → IsMeasured (seen S.Store P.Shelf host.new).now found) }
{
    let (bucket, key) = (&object.bucket, &object.key);
    let connection = &mut host.connection;
    gets::find_object(connection, tenant, bucket, key, version, range, state)
}

/// Carries out a tenant's operation as a storage does, and cuts bodies into blocks of `size`
/// bytes.
pub fn operate_in_blocks<S: Alter + Drop, P: Shelf + Drop, D: Digester + Drop, B: Body>(
    host: &mut Host<S, P, D>,
    size: u64,
    alloc: Global,
    tenant: &TenantName,
    at: Moment,
    operation: &Operation,
    body: &mut B,
) -> Result<Outcome<Offer, Rejection>, StepError<Rejection>>
    requires positive { 1 ≤ size }
    requires going { (B.coming body.old).broken ≡ None }
    requires working { Works S.Store P.Shelf D.digest_of host.old }
    requires early { IsClean S.Store P.Shelf host.old → at ≤ latest_of (seen S.Store P.Shelf host.old).now }
    ensures goes_on { GoesOn S.Store P.Shelf D.digest_of (UnlessSpoilt result) host.old host.new }
    ensures operates { Operates (offer_view (seen S.Store P.Shelf host.new).now) tenant.now
        (λ given s. responded (operated (seen S.Store P.Shelf host.old).limits at given operation.now s))
        (IsClean S.Store P.Shelf host.new) (B.coming body.old) (B.coming body.new)
        (seen S.Store P.Shelf host.old).now (seen S.Store P.Shelf host.new).now result }
    ensures measured { IfPlanned result (λ found. IsClean S.Store P.Shelf host.new
        → IsMeasured (seen S.Store P.Shelf host.new).now found) }
    ensures cuts { CutsBody S.Store P.Shelf D.digest_of size operation.now (B.coming body.old) (B.coming body.new)
        host.old.connection host.new.connection result }
{
    let blocks = Blocks {
        cache: &host.cache,
        digester: &host.digester,
        size,
    };
    operations::operate(
        &mut host.connection,
        alloc,
        &blocks,
        host.limits,
        tenant,
        at,
        operation,
        body,
    )
}

/// The next bytes of an object, of at most one block; `None` at the end. An error leaves the plan
/// unchanged.
pub fn next_piece<S: Alter + Drop, P: Shelf + Drop, D: Digester + Drop>(
    host: &mut Host<S, P, D>,
    alloc: Global,
    plan: &mut Plan,
) -> Result<Option<Vec<u8>>, Trouble>
    requires { IsClean S.Store P.Shelf host.old → IsReadable (IsSoundHost D.digest_of) (seen S.Store P.Shelf host.old) }
    ensures within { Keeps S.Store P.Shelf host.old host.new }
    ensures opens { OnOk result (IsOpen S.Store P.Shelf host.old → IsIntact S.Store P.Shelf host.new → IsOpen S.Store P.Shelf host.new) }
    ensures same { OnOk result (IsClean S.Store P.Shelf host.new → seen S.Store P.Shelf host.new ≡ seen S.Store P.Shelf host.old) }
    ensures gives { IfOk result (λ piece. IsClean S.Store P.Shelf host.new → IfSome piece (λ bytes.
        to_come plan.old (seen S.Store P.Shelf host.old).now ≡ bytes.items ++ to_come plan.new (seen S.Store P.Shelf host.old).now)) }
    ensures ends { IfOk result (λ piece. IsClean S.Store P.Shelf host.new
        → IfNone piece (to_come plan.old (seen S.Store P.Shelf host.old).now ≡ [])) }
    ensures some { IfOk result (λ piece. IfSome piece (λ bytes. 0 < length bytes.items)) }
    ensures falls { IfOk result (λ piece. IfSome piece (λ bytes. length bytes.items + plan.new.left ≤ plan.old.left)) }
    ensures kept { OnErr result (plan.new ≡ plan.old) }
{
    gets::next_piece(&mut host.connection, &mut host.cache, alloc, plan)
}

/// Carries out an operator's command on the tenant that it names, at a moment.
pub fn command<S: Alter + Drop, P: Shelf + Drop, D: Digester + Drop>(
    host: &mut Host<S, P, D>,
    alloc: Global,
    at: Moment,
    command: &Command,
) -> Result<CommandAnswer, StepError<Refusal>>
    requires { Works S.Store P.Shelf D.digest_of host.old }
    ensures goes_on { GoesOn S.Store P.Shelf D.digest_of (Unless result) host.old host.new }
    ensures carries { IsClean S.Store P.Shelf host.new
        → Carries command_answer_view (tenant_of (order_of command.now)) (ordered at (order_of command.now))
        (seen S.Store P.Shelf host.old).now (seen S.Store P.Shelf host.new).now result }
{
    match command {
        Command::Usage { tenant } => {
            commands::show_usage(&mut host.connection, alloc, tenant.as_str())
        }
        Command::Keys { tenant } => {
            commands::show_keys(&mut host.connection, alloc, tenant.as_str())
        }
        Command::TenantAdd { tenant, quota } => {
            let added = host.tenant_add(alloc, tenant.as_str(), *quota);
            added.map(|()| CommandAnswer::Done)
        }
        Command::Quota { tenant, quota } => {
            let set = host.quota_set(alloc, tenant.as_str(), *quota);
            set.map(|()| CommandAnswer::Done)
        }
        Command::TenantRemove {
            tenant,
            with_objects,
        } => {
            let connection = &mut host.connection;
            commands::remove_tenant(connection, alloc, tenant.as_str(), at, *with_objects)
        }
        Command::KeyAdd {
            tenant,
            name,
            secret,
        } => {
            let added = host.key_add(alloc, tenant.as_str(), name.as_str(), secret.as_str());
            added.map(|()| CommandAnswer::Done)
        }
        Command::KeyRemove { tenant, name } => {
            let removed = host.key_remove(alloc, tenant.as_str(), name.as_str());
            removed.map(|()| CommandAnswer::Done)
        }
    }
}

/// Removes at most `limit` of what is due at a moment: first stale uploads of all tenants, by
/// tenant and number, then unreferenced blocks, by digest and ordinal.
pub fn sweep<S: Alter + Drop, P: Shelf + Drop, D: Digester + Drop>(
    host: &mut Host<S, P, D>,
    alloc: Global,
    at: Moment,
    limit: u32,
) -> Result<SweepReport, Trouble>
    requires { Works S.Store P.Shelf D.digest_of host.old }
    ensures goes_on { GoesOn S.Store P.Shelf D.digest_of (OnOk result) host.old host.new }
    ensures sweeps { IfOk result (λ report. IsClean S.Store P.Shelf host.new
        → Sweeps at limit report (seen S.Store P.Shelf host.old).now (seen S.Store P.Shelf host.new).now) }
{
    bh_sweep::sweep::sweep(&mut host.connection, &mut host.cache, alloc, at, limit)
}

/// Counts what all tenants together have stored.
pub fn report<S: Alter + Drop, P: Shelf + Drop, D: Digester + Drop>(
    host: &mut Host<S, P, D>,
) -> Result<StoreReport, Trouble>
    requires { Works S.Store P.Shelf D.digest_of host.old }
    ensures goes_on { GoesOn S.Store P.Shelf D.digest_of (OnOk result) host.old host.new }
    ensures reports { IfOk result (λ report. IsClean S.Store P.Shelf host.new
        → Reports report (seen S.Store P.Shelf host.old).now (seen S.Store P.Shelf host.new).now) }
{
    bh_sweep::report::report(&mut host.connection)
}

/// All tenants, by name in byte order.
pub fn tenants<S: Alter + Drop, P: Shelf + Drop, D: Digester + Drop>(
    host: &mut Host<S, P, D>,
    alloc: Global,
) -> Result<Vec<TenantReport>, Trouble>
    requires { Works S.Store P.Shelf D.digest_of host.old }
    ensures goes_on { GoesOn S.Store P.Shelf D.digest_of (OnOk result) host.old host.new }
    ensures lists { IfOk result (λ listed. IsClean S.Store P.Shelf host.new
        → Lists listed.items (seen S.Store P.Shelf host.old).now (seen S.Store P.Shelf host.new).now) }
{
    bh_usage::tenants(&mut host.connection, alloc)
}
