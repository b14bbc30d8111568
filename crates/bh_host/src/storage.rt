ghost use Rattle.std.specs.Prelude.{◌≡◌, ◌⊎◌, ◌++◌, ◌+◌, ◌<◌, ◌≤◌, [], length, None, IfOk, IfSome, IfNone, OnOk, OnErr};
ghost use Rattle.bh_event.specs.Events.{message_of};
ghost use Rattle.bh_machine.specs.Machine.{operated};
ghost use Rattle.bh_model.specs.Credentials as machine;
ghost use Rattle.bh_model.specs.Runs.{last_reading};
ghost use Rattle.bh_tables.specs.Typed.{Tables};
ghost use Rattle.bh_view.specs.View.{view, latest_of};
ghost use Rattle.bh_host.specs.Offers.{IfPlanned, offer_view, responded};
ghost use Rattle.bh_host.specs.Orders.{Does};
ghost use Rattle.bh_storage.specs.Calls.{Seen, Clean, Within, StaysAtWork, LeavesNothingNew, IsAtRest, IsReadable, IsWorking, Commits};
ghost use Rattle.bh_storage.specs.Calls.{TakesBack, Unless, UnlessSpoilt, Stamps, Purges, Operates, Decides};
ghost use Rattle.bh_storage.specs.Plans.{IsMeasured, to_come};

use crate::offer::Offer;
use bh_event::order::HostOrder;
use bh_http::body::Body;
use bh_operation::operation::Operation;
use bh_storage::error::{Outcome, StepError, Trouble};
use bh_storage::plan::Plan;
use bh_types::access_key::AccessKeyId;
use bh_types::limits::Limits;
use bh_types::moment::Moment;
use bh_types::names::TenantName;
use bh_types::refusal::Refusal;
use bh_types::rejection::Rejection;
use std::alloc::Global;

/// A host's storage. All calls but `limits`, `begin`, `take_back` and `next_piece` need an open
/// transaction. A call that refuses leaves the tables unchanged. If memory or the store failed,
/// `take_back` restores what was committed.
///
/// The clauses on replies and on crashes assume a store that returns what was written to it,
/// whatever errors it reports. The clauses on tables hold until a fault shuts the store.
pub trait Storage {
    /// The current tables, the committed ones, whether a transaction is open, and the limits.
    ghost seen: { Self → Seen };

    /// The store returned what was written to it.
    ghost IsIntact: { Self → Type 0 };

    /// No fault has shut the store.
    ghost IsOpen: { Self → Type 0 };

    /// The invariant of its tables between events.
    ghost IsSoundStore: { Tables → Type 0 };

    /// The tables that a crash at this moment may leave.
    ghost left: { Self → Tables → Type 0 };

    /// The limits that the host was created with.
    fn limits(&self) -> Limits
        ensures { result ≡ (seen self.now).limits };

    /// Opens a transaction. Fails if a fault has shut the store.
    fn begin(&mut self) -> Result<(), Trouble>
        requires { Clean IsIntact IsOpen self.old → IsAtRest IsSoundStore (seen self.old) }
        ensures within { Within IsIntact IsOpen seen left self.old self.new }
        ensures survives { IsIntact self.new → LeavesNothingNew left self.old self.new }
        ensures opens { OnOk result (IsIntact self.new → IsOpen self.old × IsOpen self.new) }
        ensures same { OnOk result (IsIntact self.new → (seen self.new).now ≡ (seen self.old).now) }
        ensures working { OnOk result (IsIntact self.new → IsWorking IsSoundStore (seen self.new)) };

    /// Commits the transaction.
    fn commit(&mut self) -> Result<(), Trouble>
        requires { Clean IsIntact IsOpen self.old → IsWorking IsSoundStore (seen self.old) }
        ensures intact { IsIntact self.new → IsIntact self.old }
        ensures opened { IsIntact self.new → IsOpen self.new → IsOpen self.old }
        ensures opens { OnOk result (IsIntact self.new → IsOpen self.old × IsOpen self.new) }
        ensures done { OnOk result (IsIntact self.new → Commits (seen self.old) (seen self.new)) }
        ensures survives { OnOk result (IsIntact self.new → (x : Tables) → left self.new x → x ≡ (seen self.old).now) }
        ensures crash { OnErr result (IsOpen self.old → IsIntact self.new → (x : Tables) → left self.new x → left self.old x
            ⊎ (x ≡ (seen self.old).now)) }
        ensures kept { OnErr result (Clean IsIntact IsOpen self.new → (seen self.new).kept ≡ (seen self.old).kept) }
        ensures limits { (seen self.new).limits ≡ (seen self.old).limits };

    /// Rolls back the transaction, if one is open: the tables are those that were committed.
    fn take_back(&mut self)
        ensures intact { IsIntact self.new → IsIntact self.old }
        ensures opened { IsIntact self.new → IsOpen self.new → IsOpen self.old }
        ensures survives { IsIntact self.new → LeavesNothingNew left self.old self.new }
        ensures back { Clean IsIntact IsOpen self.new → TakesBack (seen self.old) (seen self.new) }
        ensures limits { (seen self.new).limits ≡ (seen self.old).limits };

    /// Writes the stamp of a reading, in seconds since 1970. It is the greater of the reading and
    /// the last stamp.
    fn stamp(&mut self, reading: u64) -> Result<Moment, Trouble>
        requires in_range { reading ≤ last_reading }
        requires working { Clean IsIntact IsOpen self.old → IsWorking IsSoundStore (seen self.old) }
        ensures goes_on { StaysAtWork IsIntact IsOpen IsSoundStore seen left (OnOk result) self.old self.new }
        ensures stamps { IfOk result (λ m. Clean IsIntact IsOpen self.new → Stamps reading m (seen self.old).now (seen self.new).now) };

    /// Removes a tenant's uploads that are stale at a moment.
    fn purge(&mut self, alloc: Global, tenant: &TenantName, at: Moment) -> Result<(), Trouble>
        requires { Clean IsIntact IsOpen self.old → IsWorking IsSoundStore (seen self.old) }
        ensures goes_on { StaysAtWork IsIntact IsOpen IsSoundStore seen left (OnOk result) self.old self.new }
        ensures purges { OnOk result (Clean IsIntact IsOpen self.new → Purges tenant.now at (seen self.old).now (seen self.new).now) };

    /// Checks that an access key has this secret. Refusals: InvalidAccessKeyId, AccessDenied.
    fn authenticate(
        &mut self,
        alloc: Global,
        key: &AccessKeyId,
        secret: &[u8],
    ) -> Result<(), StepError<Refusal>>
        requires { Clean IsIntact IsOpen self.old → IsWorking IsSoundStore (seen self.old) }
        ensures goes_on { StaysAtWork IsIntact IsOpen IsSoundStore seen left (Unless result) self.old self.new }
        ensures decides { Clean IsIntact IsOpen self.new
            → Decides (λ _. tt) (machine.authenticate key.now secret.now (view (seen self.old).now key.now.tenant)) (seen self.old).now
            (seen self.new).now result };

    /// Carries out a tenant's operation at a moment that is not after the last stamp. Its body is
    /// read as it is needed, and to the end before the operation is decided. If the answer is an
    /// object, none of its bytes has been read yet.
    fn operate<B: Body>(
        &mut self,
        alloc: Global,
        tenant: &TenantName,
        at: Moment,
        operation: &Operation,
        body: &mut B,
    ) -> Result<Outcome<Offer, Rejection>, StepError<Rejection>>
        requires going { (B.coming body.old).broken ≡ None }
        requires working { Clean IsIntact IsOpen self.old → IsWorking IsSoundStore (seen self.old) }
        requires early { Clean IsIntact IsOpen self.old → at ≤ latest_of (seen self.old).now }
        ensures goes_on { StaysAtWork IsIntact IsOpen IsSoundStore seen left (UnlessSpoilt result) self.old self.new }
        ensures operates { Operates (offer_view (seen self.new).now) tenant.now
            (λ given s. responded (operated (seen self.old).limits at given operation.now s))
            (Clean IsIntact IsOpen self.new) (B.coming body.old) (B.coming body.new) (seen self.old).now (seen self.new).now result }
        ensures measured { IfPlanned result (λ found. Clean IsIntact IsOpen self.new → IsMeasured (seen self.new).now found) };

    /// The next bytes of an object, of at most one block; `None` at the end. It may be called
    /// inside a transaction and outside. An error leaves the plan unchanged, and the rows
    /// unspecified until `take_back`.
    fn next_piece(&mut self, alloc: Global, plan: &mut Plan) -> Result<Option<Vec<u8>>, Trouble>
        requires { Clean IsIntact IsOpen self.old → IsReadable IsSoundStore (seen self.old) }
        ensures within { Within IsIntact IsOpen seen left self.old self.new }
        ensures opens { OnOk result (IsOpen self.old → IsIntact self.new → IsOpen self.new) }
        ensures same { OnOk result (Clean IsIntact IsOpen self.new → seen self.new ≡ seen self.old) }
        ensures gives { IfOk result (λ piece. Clean IsIntact IsOpen self.new → IfSome piece (λ bytes.
            to_come plan.old (seen self.old).now ≡ bytes.items ++ to_come plan.new (seen self.old).now)) }
        ensures ends { IfOk result (λ piece. Clean IsIntact IsOpen self.new → IfNone piece (to_come plan.old (seen self.old).now ≡ [])) }
        ensures some { IfOk result (λ piece. IfSome piece (λ bytes. 0 < length bytes.items)) }
        ensures falls { IfOk result (λ piece. IfSome piece (λ bytes. length bytes.items + plan.new.left ≤ plan.old.left)) }
        ensures kept { OnErr result (plan.new ≡ plan.old) };

    /// Carries out an operator's order at a moment, and returns the line that tells of it, without
    /// its line feed. An order on a tenant expects that its stale uploads were removed. A sweep
    /// removes at most its limit of what is due: first stale uploads of all tenants, by tenant and
    /// number, then unreferenced blocks, by digest and ordinal. Orders on all tenants together
    /// aren't refused.
    fn order(
        &mut self,
        alloc: Global,
        at: Moment,
        order: &HostOrder,
    ) -> Result<String, StepError<Refusal>>
        requires { Clean IsIntact IsOpen self.old → IsWorking IsSoundStore (seen self.old) }
        ensures goes_on { StaysAtWork IsIntact IsOpen IsSoundStore seen left (Unless result) self.old self.new }
        ensures does { Clean IsIntact IsOpen self.new
            → Does at (message_of order.now) (seen self.old).now (seen self.new).now result };
}
