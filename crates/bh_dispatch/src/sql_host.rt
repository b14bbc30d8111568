ghost use Rattle.std.specs.Prelude.{◌≡◌, ◌≤◌, None, Ok, is_some, IfOk, IfSome, OnOk};
ghost use Rattle.std.specs.Option.{option_copied};
ghost use Rattle.bh_event.specs.Events.{message_of, order_of, tenant_of};
ghost use Rattle.bh_machine.specs.Machine.{operated, ordered};
ghost use Rattle.bh_model.specs.Operations as machine;
ghost use Rattle.bh_view.specs.View.{view, latest_of};
ghost use Rattle.bh_memo.specs.Facts.{nothing};
ghost use Rattle.bh_storage.specs.Answers.{found_answer};
ghost use Rattle.bh_host.specs.Offers.{IfPlanned, command_answer_view, offer_view, responded};
ghost use Rattle.bh_host.specs.Orders.{Does};
ghost use Rattle.bh_storage.specs.Calls.{IsAtRest, IsWorking, Unless, UnlessSpoilt, Decides, Carries, Operates, Sweeps, Reports, Lists};
ghost use Rattle.bh_storage.specs.Plans.{IsMeasured};
ghost use Rattle.bh_base.specs.Connections.{IsClean as IsConnectionClean, packs};
ghost use Rattle.bh_sweep.specs.Counted.{packs_counted};
ghost use Rattle.bh_schema.specs.Storage as storage;
ghost use Rattle.bh_schema.specs.Storage.{IsClean};
ghost use Rattle.bh_view.specs.Bodies.{IsSoundHost};
ghost use Rattle.bh_objects.specs.Found.{mode_in};
ghost use Rattle.bh_dispatch.specs.Seeing.{is_report, line_in, seen, RecallsOn};
ghost use Rattle.bh_dispatch.specs.Stored.{CutsBody};

use crate::changing::changes_buckets;
use crate::host::{self, block_size_of};
use crate::operations::bytes_of;
use bh_event::event::Command;
use bh_event::order::HostOrder;
use bh_host::offer::{CommandAnswer, Offer};
use bh_host::storage::Storage;
use bh_host::{command_line, report_line, sweep_line, tenants_line};
use bh_http::body::{Body, drain};
use bh_memo::memo::Memo;
use bh_operation::address::ObjectName;
use bh_operation::operation::Operation;
use bh_schema::host::{Digester, Host};
use bh_shelf::shelf::Shelf;
use bh_storage::answer::FoundVersion;
use bh_storage::error::{Outcome, StepError, Trouble};
use bh_storage::plan::Plan;
use bh_storage::report::{StoreReport, SweepReport, TenantReport};
use bh_sweep::packs::PackTotals;
use bh_types::access_key::AccessKeyId;
use bh_types::bucket::BucketName;
use bh_types::bucket_state::BucketState;
use bh_types::limits::Limits;
use bh_types::moment::Moment;
use bh_types::names::TenantName;
use bh_types::refusal::Refusal;
use bh_types::rejection::Rejection;
use bh_types::wanted::Wanted;
use sqlite::Alter;
use std::alloc::Global;

/// A host in a SQL database, as a storage that remembers facts of its tables.
#[derive(Drop)]
pub struct SqlHost<S: Alter + Drop, P: Shelf + Drop, D: Digester + Drop> {
    /// Its database, limits and settings.
    pub host: Host<S, P, D>,
    /// The remembered facts of its tables.
    pub memo: Memo,
}

/// An order that was carried out.
#[derive(Drop)]
pub struct Carried {
    /// The line that tells of it, without its line feed.
    pub line: String,
    /// What packs have, if it was a report.
    pub packs: Option<PackTotals>,
}

impl<S: Alter + Drop, P: Shelf + Drop, D: Digester + Drop> SqlHost<S, P, D> {
    /// Nothing is remembered yet.
    pub fn new(alloc: Global, host: Host<S, P, D>) -> SqlHost<S, P, D>
        ensures host { result.host ≡ host }
        ensures memo { result.memo ≡ nothing }
        ensures rests { IsAtRest (IsSoundHost D.digest_of) (storage.seen S.Store P.Shelf host)
            → IsAtRest (IsSoundHost D.digest_of) (seen S.Store P.Shelf result) }
    {
        SqlHost {
            host,
            memo: Memo::new(alloc),
        }
    }

    /// How many packs it has, their bytes, and how many of these blocks have. No table shows it.
    fn pack_totals(&mut self) -> Result<PackTotals, Trouble>
        requires { IsClean S.Store P.Shelf self.old.host → IsWorking (IsSoundHost D.digest_of) (seen S.Store P.Shelf self.old) }
        ensures goes_on { RecallsOn S.Store P.Shelf D.digest_of (OnOk result) self.old self.new }
        ensures same { IfOk result (λ totals. IsClean S.Store P.Shelf self.new.host
            → (seen S.Store P.Shelf self.new).now ≡ (seen S.Store P.Shelf self.old).now) }
        ensures counted { IfOk result (λ totals. IsConnectionClean S.Store P.Shelf self.new.host.connection
            → totals ≡ packs_counted (packs S.Store P.Shelf self.new.host.connection)) }
    {
        host::pack_totals(&mut self.host)
    }

    /// The state of a tenant's bucket, which is then remembered. Refusal: NoSuchBucket.
    fn bucket_state(
        &mut self,
        tenant: &TenantName,
        bucket: &BucketName,
    ) -> Result<BucketState, StepError<Refusal>>
        requires { IsClean S.Store P.Shelf self.old.host → IsWorking (IsSoundHost D.digest_of) (seen S.Store P.Shelf self.old) }
        ensures goes_on { RecallsOn S.Store P.Shelf D.digest_of (Unless result) self.old self.new }
        ensures decides { IsClean S.Store P.Shelf self.new.host
            → Decides (λ state. state) (mode_in bucket.now (view (seen S.Store P.Shelf self.old).now tenant.now))
            (seen S.Store P.Shelf self.old).now (seen S.Store P.Shelf self.new).now result }
    {
        if let Some(state) = self.memo.state(tenant, bucket) {
            return Ok(state);
        }
        let state = host::bucket_state(&mut self.host, tenant, bucket)?;
        self.memo.remember_state(tenant, bucket, state);
        Ok(state)
    }

    /// Finds an object. Its bucket is queried unless its state is remembered. Refusals:
    /// NoSuchBucket, NoSuchKey, NoSuchVersion, MethodNotAllowed, InvalidRange.
    fn find_object(
        &mut self,
        tenant: &TenantName,
        object: &ObjectName,
        version: Wanted,
        range: Option<&[u8]>,
    ) -> Result<FoundVersion, StepError<Rejection>>
        requires { IsClean S.Store P.Shelf self.old.host → IsWorking (IsSoundHost D.digest_of) (seen S.Store P.Shelf self.old) }
        ensures goes_on { RecallsOn S.Store P.Shelf D.digest_of (Unless result) self.old self.new }
        ensures carries { IsClean S.Store P.Shelf self.new.host
            → Carries (found_answer (seen S.Store P.Shelf self.new).now) tenant.now
            (machine.get_object object.now.bucket object.now.key version (option_copied range.entry))
            (seen S.Store P.Shelf self.old).now (seen S.Store P.Shelf self.new).now result }
        ensures measured { IfOk result (λ found. IsClean S.Store P.Shelf self.new.host
            → IsMeasured (seen S.Store P.Shelf self.new).now found) }
    {
        let state = self.bucket_state(tenant, &object.bucket)?;
        host::find_object(&mut self.host, tenant, object, version, range, state)
    }

    /// Finds an object, after the request's body was received.
    fn get_object<B: Body>(
        &mut self,
        tenant: &TenantName,
        object: &ObjectName,
        version: Wanted,
        range: Option<&[u8]>,
        body: &mut B,
    ) -> Result<Outcome<Offer, Rejection>, StepError<Rejection>>
        requires going { (B.coming body.old).broken ≡ None }
        requires working { IsClean S.Store P.Shelf self.old.host
            → IsWorking (IsSoundHost D.digest_of) (seen S.Store P.Shelf self.old) }
        ensures goes_on { RecallsOn S.Store P.Shelf D.digest_of (UnlessSpoilt result) self.old self.new }
        ensures operates { Operates (offer_view (seen S.Store P.Shelf self.new).now) tenant.now
            (λ _ s. responded (machine.get_object object.now.bucket object.now.key version (option_copied range.entry) s))
            (IsClean S.Store P.Shelf self.new.host) (B.coming body.old) (B.coming body.new)
            (seen S.Store P.Shelf self.old).now (seen S.Store P.Shelf self.new).now result }
        ensures measured { IfPlanned result (λ found. IsClean S.Store P.Shelf self.new.host
            → IsMeasured (seen S.Store P.Shelf self.new).now found) }
    {
        match drain(body) {
            Ok(()) => {
                let found = self.find_object(tenant, object, version, range)?;
                Ok(Outcome::Done(Offer::Planned(found)))
            }
            Err(cause) => Err(StepError::Failed(Trouble::from(cause))),
        }
    }

    /// Carries out a tenant's operation as a storage does, and cuts bodies into blocks of `size`
    /// bytes.
    pub fn operate_in_blocks<B: Body>(
        &mut self,
        size: u64,
        alloc: Global,
        tenant: &TenantName,
        at: Moment,
        operation: &Operation,
        body: &mut B,
    ) -> Result<Outcome<Offer, Rejection>, StepError<Rejection>>
        requires positive { 1 ≤ size }
        requires going { (B.coming body.old).broken ≡ None }
        requires working { IsClean S.Store P.Shelf self.old.host
            → IsWorking (IsSoundHost D.digest_of) (seen S.Store P.Shelf self.old) }
        requires early { IsClean S.Store P.Shelf self.old.host → at ≤ latest_of (seen S.Store P.Shelf self.old).now }
        ensures goes_on { RecallsOn S.Store P.Shelf D.digest_of (UnlessSpoilt result) self.old self.new }
        ensures operates { Operates (offer_view (seen S.Store P.Shelf self.new).now) tenant.now
            (λ given s. responded (operated (seen S.Store P.Shelf self.old).limits at given operation.now s))
            (IsClean S.Store P.Shelf self.new.host) (B.coming body.old) (B.coming body.new)
            (seen S.Store P.Shelf self.old).now (seen S.Store P.Shelf self.new).now result }
        ensures measured { IfPlanned result (λ found. IsClean S.Store P.Shelf self.new.host
            → IsMeasured (seen S.Store P.Shelf self.new).now found) }
        ensures cuts { CutsBody S.Store P.Shelf D.digest_of size operation.now (B.coming body.old) (B.coming body.new)
            self.old.host.connection self.new.host.connection result }
    {
        match operation {
            Operation::GetObject {
                object,
                version,
                range,
            } => self.get_object(tenant, object, *version, bytes_of(range), body),
            _ if changes_buckets(operation) => {
                self.memo.forget(tenant);
                let host = &mut self.host;
                host::operate_in_blocks(host, size, alloc, tenant, at, operation, body)
            }
            _ => {
                let host = &mut self.host;
                host::operate_in_blocks(host, size, alloc, tenant, at, operation, body)
            }
        }
    }

    /// Carries out an operator's command on the tenant that it names, and forgets what is remembered.
    fn command(
        &mut self,
        alloc: Global,
        at: Moment,
        command: &Command,
    ) -> Result<CommandAnswer, StepError<Refusal>>
        requires { IsClean S.Store P.Shelf self.old.host → IsWorking (IsSoundHost D.digest_of) (seen S.Store P.Shelf self.old) }
        ensures goes_on { RecallsOn S.Store P.Shelf D.digest_of (Unless result) self.old self.new }
        ensures carries { IsClean S.Store P.Shelf self.new.host
            → Carries command_answer_view (tenant_of (order_of command.now)) (ordered at (order_of command.now))
            (seen S.Store P.Shelf self.old).now (seen S.Store P.Shelf self.new).now result }
    {
        self.memo.clear();
        host::command(&mut self.host, alloc, at, command)
    }

    /// Removes at most `limit` of what is due at a moment, and forgets what is remembered.
    fn sweep(&mut self, alloc: Global, at: Moment, limit: u32) -> Result<SweepReport, Trouble>
        requires { IsClean S.Store P.Shelf self.old.host → IsWorking (IsSoundHost D.digest_of) (seen S.Store P.Shelf self.old) }
        ensures goes_on { RecallsOn S.Store P.Shelf D.digest_of (OnOk result) self.old self.new }
        ensures sweeps { IfOk result (λ report. IsClean S.Store P.Shelf self.new.host
            → Sweeps at limit report (seen S.Store P.Shelf self.old).now (seen S.Store P.Shelf self.new).now) }
    {
        self.memo.clear();
        host::sweep(&mut self.host, alloc, at, limit)
    }

    /// Counts what all tenants together have stored.
    fn report(&mut self) -> Result<StoreReport, Trouble>
        requires { IsClean S.Store P.Shelf self.old.host → IsWorking (IsSoundHost D.digest_of) (seen S.Store P.Shelf self.old) }
        ensures goes_on { RecallsOn S.Store P.Shelf D.digest_of (OnOk result) self.old self.new }
        ensures reports { IfOk result (λ report. IsClean S.Store P.Shelf self.new.host
            → Reports report (seen S.Store P.Shelf self.old).now (seen S.Store P.Shelf self.new).now) }
    {
        host::report(&mut self.host)
    }

    /// All tenants, by name in byte order.
    fn tenants(&mut self, alloc: Global) -> Result<Vec<TenantReport>, Trouble>
        requires { IsClean S.Store P.Shelf self.old.host → IsWorking (IsSoundHost D.digest_of) (seen S.Store P.Shelf self.old) }
        ensures goes_on { RecallsOn S.Store P.Shelf D.digest_of (OnOk result) self.old self.new }
        ensures lists { IfOk result (λ listed. IsClean S.Store P.Shelf self.new.host
            → Lists listed.items (seen S.Store P.Shelf self.old).now (seen S.Store P.Shelf self.new).now) }
    {
        host::tenants(&mut self.host, alloc)
    }

    /// Carries out an order as a storage does. A report counts the packs too.
    pub fn carry_out(
        &mut self,
        alloc: Global,
        at: Moment,
        order: &HostOrder,
    ) -> Result<Carried, StepError<Refusal>>
        requires { IsClean S.Store P.Shelf self.old.host → IsWorking (IsSoundHost D.digest_of) (seen S.Store P.Shelf self.old) }
        ensures goes_on { RecallsOn S.Store P.Shelf D.digest_of (Unless result) self.old self.new }
        ensures does { IsClean S.Store P.Shelf self.new.host
            → Does at (message_of order.now) (seen S.Store P.Shelf self.old).now (seen S.Store P.Shelf self.new).now (line_in result) }
        ensures reported { IfOk result (λ it. is_some it.packs ≡ is_report (message_of order.now)) }
        ensures counted { IfOk result (λ it. IfSome it.packs (λ totals. IsConnectionClean S.Store P.Shelf self.new.host.connection
            → totals ≡ packs_counted (packs S.Store P.Shelf self.new.host.connection))) }
    {
        match order {
            HostOrder::Command(command) => {
                let answer = self.command(alloc, at, command)?;
                let line = command_line(alloc, command, &answer)?;
                Ok(Carried { line, packs: None })
            }
            HostOrder::Sweep { limit } => {
                let report = self.sweep(alloc, at, *limit)?;
                let line = sweep_line(alloc, report)?;
                Ok(Carried { line, packs: None })
            }
            HostOrder::Report => {
                let report = self.report()?;
                let packs = self.pack_totals()?;
                let line = report_line(alloc, report)?;
                Ok(Carried {
                    line,
                    packs: Some(packs),
                })
            }
            HostOrder::Tenants => {
                let tenants = self.tenants(alloc)?;
                let line = tenants_line(alloc, &tenants)?;
                Ok(Carried { line, packs: None })
            }
        }
    }
}

impl<S: Alter + Drop, P: Shelf + Drop, D: Digester + Drop> Storage for SqlHost<S, P, D> {
    ghost use Rattle.bh_schema.specs.Storage as storage;
    ghost use Rattle.bh_memo.specs.Recalled.{recalled};
    ghost use Rattle.bh_view.specs.Bodies.{IsSoundHost};

    ghost seen = { λ r. recalled r.memo (storage.seen S.Store P.Shelf r.host) };

    ghost IsIntact = { λ r. storage.IsIntact S.Store P.Shelf r.host };

    ghost IsOpen = { λ r. storage.IsOpen S.Store P.Shelf r.host };

    ghost IsSoundStore = { IsSoundHost D.digest_of };

    ghost left = { λ r. storage.left S.Store P.Shelf r.host };

    fn limits(&self) -> Limits {
        self.host.limits
    }

    fn begin(&mut self) -> Result<(), Trouble> {
        self.host.begin()
    }

    fn commit(&mut self) -> Result<(), Trouble> {
        self.host.commit()
    }

    /// Remembered facts may be the transaction's.
    fn take_back(&mut self) {
        self.host.take_back();
        self.memo.clear();
    }

    fn stamp(&mut self, reading: u64) -> Result<Moment, Trouble> {
        if let Some(latest) = self.memo.latest() {
            if reading <= latest.seconds() {
                return Ok(latest);
            }
        }
        let stamp = self.host.stamp_reading(reading)?;
        self.memo.set_latest(stamp);
        Ok(stamp)
    }

    fn purge(&mut self, alloc: Global, tenant: &TenantName, at: Moment) -> Result<(), Trouble> {
        if self.memo.is_quiet(tenant) {
            return Ok(());
        }
        let ruled = host::purge_telling(&mut self.host, alloc, tenant, at)?;
        if ruled {
            return Ok(());
        }
        self.memo.remember_quiet(tenant);
        Ok(())
    }

    fn authenticate(
        &mut self,
        alloc: Global,
        key: &AccessKeyId,
        secret: &[u8],
    ) -> Result<(), StepError<Refusal>> {
        if let Some(known) = self.memo.secret(key) {
            if known.as_str().as_bytes() == secret {
                return Ok(());
            }
            return Err(StepError::Refused(Refusal::AccessDenied));
        }
        self.host.authenticate(key, secret)?;
        // Not earlier, since a refused secret must not be remembered.
        self.memo.remember_secret(alloc, key, secret);
        Ok(())
    }

    fn operate<B: Body>(
        &mut self,
        alloc: Global,
        tenant: &TenantName,
        at: Moment,
        operation: &Operation,
        body: &mut B,
    ) -> Result<Outcome<Offer, Rejection>, StepError<Rejection>>
        requires going { (B.coming body.old).broken ≡ None }
        requires working { IsClean S.Store P.Shelf self.old.host
            → IsWorking (IsSoundHost D.digest_of) (seen S.Store P.Shelf self.old) }
        requires early { IsClean S.Store P.Shelf self.old.host → at ≤ latest_of (seen S.Store P.Shelf self.old).now }
        ensures goes_on { RecallsOn S.Store P.Shelf D.digest_of (UnlessSpoilt result) self.old self.new }
        ensures operates { Operates (offer_view (seen S.Store P.Shelf self.new).now) tenant.now
            (λ given s. responded (operated (seen S.Store P.Shelf self.old).limits at given operation.now s))
            (IsClean S.Store P.Shelf self.new.host) (B.coming body.old) (B.coming body.new)
            (seen S.Store P.Shelf self.old).now (seen S.Store P.Shelf self.new).now result }
        ensures measured { IfPlanned result (λ found. IsClean S.Store P.Shelf self.new.host
            → IsMeasured (seen S.Store P.Shelf self.new).now found) }
        ensures cuts { CutsBody S.Store P.Shelf D.digest_of self.old.host.cache.tuning.block_size operation.now
            (B.coming body.old) (B.coming body.new) self.old.host.connection self.new.host.connection result }
    {
        let size = block_size_of(&self.host.cache);
        self.operate_in_blocks(size, alloc, tenant, at, operation, body)
    }

    fn next_piece(&mut self, alloc: Global, plan: &mut Plan) -> Result<Option<Vec<u8>>, Trouble> {
        host::next_piece(&mut self.host, alloc, plan)
    }

    fn order(
        &mut self,
        alloc: Global,
        at: Moment,
        order: &HostOrder,
    ) -> Result<String, StepError<Refusal>> {
        let Carried { line, .. } = self.carry_out(alloc, at, order)?;
        Ok(line)
    }
}
