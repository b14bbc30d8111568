ghost use Rattle.std.specs.Prelude.{◌≡◌, ◌≤◌, ℕ, Some, None, Ok, Err, OnOk, OnErr};
ghost use Rattle.bh_http.specs.Bodies.{Gives, IsWhole, MayBreak};
ghost use Rattle.bh_http.specs.Credentials.{key_given};
ghost use Rattle.bh_http.specs.Views.{with_body};
ghost use Rattle.bh_machine.specs.Machine as machine;
ghost use Rattle.bh_model.specs.State.{Octets};
ghost use Rattle.bh_host.specs.Offers.{offer_view, responded};
ghost use Rattle.bh_storage.specs.Plans.{IsMeasured};
ghost use Rattle.bh_host.specs.Offers.{IfPlanned};
ghost use Rattle.bh_storage.specs.Calls.{Clean, Within, Decides, IsWorking, Unless, UnlessSpoilt, Operates};
ghost use Rattle.bh_types.specs.Limits.{HostLimits};
ghost use Rattle.bh_types.specs.Rejections.{plain};
ghost use Rattle.bh_view.specs.View.{latest_of, view};
ghost use Rattle.bh_host.specs.Asking.{asked_for};

use crate::offer::Offer;
use crate::storage::Storage;
use bh_http::body::{Body, drain};
use bh_http::credentials::secret_of;
use bh_http::request::Head;
use bh_operation::operation::{Operation, operation_of};
use bh_operation::routes::Routes;
use bh_storage::error::{Outcome, StepError, Trouble};
use bh_types::access_key::AccessKeyId;
use bh_types::moment::Moment;
use bh_types::refusal::Refusal;
use bh_types::rejection::Rejection;
use std::alloc::Global;

/// Why a request of no tenant is refused.
pub fn stranger_refusal(head: &Head) -> Refusal
    ensures { (limits : HostLimits) (at : ℕ) (body : Octets) → machine.requested limits at (with_body head.now body) None
        ≡ Err (plain result) }
{
    match secret_of(head) {
        Ok(_) => Refusal::InvalidAccessKeyId,
        Err(refusal) => refusal,
    }
}

/// The operation in the head of a tenant's request, if its secret is right.
fn operation_asked<H: Storage>(
    alloc: Global,
    routes: &Routes,
    host: &mut H,
    key: &AccessKeyId,
    head: &Head,
) -> Result<Operation, StepError<Rejection>>
    requires keyed { (given : Octets) → key_given (with_body head.now given) ≡ Some key.now }
    requires working { Clean H.IsIntact H.IsOpen host.old → IsWorking H.IsSoundStore (H.seen host.old) }
    ensures within { Within H.IsIntact H.IsOpen H.seen H.left host.old host.new }
    ensures opens { Unless result (H.IsOpen host.old → H.IsIntact host.new → H.IsOpen host.new) }
    ensures working { Unless result (Clean H.IsIntact H.IsOpen host.new → IsWorking H.IsSoundStore (H.seen host.new)) }
    ensures decides { (given : Octets) → Clean H.IsIntact H.IsOpen host.new
        → Decides (λ operation. operation) (asked_for key.now (with_body head.now given) (view (H.seen host.old).now key.now.tenant))
        (H.seen host.old).now (H.seen host.new).now result }
{
    let secret = secret_of(head)?;
    host.authenticate(alloc, key, secret)?;
    Ok(operation_of(alloc, routes, head, &key.tenant)?)
}

/// Reads the rest of a body, and discards it.
fn take_whole<B: Body>(body: &mut B) -> Result<(), Trouble>
    requires going { (B.coming body.old).broken ≡ None }
    ensures some { (given : Octets) × Gives (B.coming body.old) (B.coming body.new) given }
    ensures whole { OnOk result (IsWhole (B.coming body.new)) }
    ensures stopped { OnErr result (MayBreak (B.coming body.new)) }
{
    drain(body)?;
    Ok(())
}

/// A tenant's request, after its stale uploads were removed. If its head alone decides a refusal,
/// its body is read first: a body that is too short is refused before anything else.
pub fn requested<H: Storage, B: Body>(
    alloc: Global,
    routes: &Routes,
    host: &mut H,
    key: &AccessKeyId,
    at: Moment,
    head: &Head,
    body: &mut B,
) -> Result<Outcome<Offer, Rejection>, StepError<Rejection>>
    requires keyed { (given : Octets) → key_given (with_body head.now given) ≡ Some key.now }
    requires working { Clean H.IsIntact H.IsOpen host.old → IsWorking H.IsSoundStore (H.seen host.old) }
    requires early { Clean H.IsIntact H.IsOpen host.old → at ≤ latest_of (H.seen host.old).now }
    requires going { (B.coming body.old).broken ≡ None }
    ensures within { Within H.IsIntact H.IsOpen H.seen H.left host.old host.new }
    ensures opens { UnlessSpoilt result (H.IsOpen host.old → H.IsIntact host.new → H.IsOpen host.new) }
    ensures working { UnlessSpoilt result (Clean H.IsIntact H.IsOpen host.new → IsWorking H.IsSoundStore (H.seen host.new)) }
    ensures operates { Operates (offer_view (H.seen host.new).now) key.now.tenant
        (λ given s. responded (machine.requested (H.seen host.old).limits at (with_body head.now given) s))
        (Clean H.IsIntact H.IsOpen host.new) (B.coming body.old) (B.coming body.new) (H.seen host.old).now (H.seen host.new).now result }
    ensures measured { IfPlanned result (λ found. Clean H.IsIntact H.IsOpen host.new → IsMeasured (H.seen host.new).now found) }
{
    match operation_asked(alloc, routes, host, key, head) {
        Ok(operation) => host.operate(alloc, &key.tenant, at, &operation, body),
        Err(StepError::Refused(rejection)) => {
            take_whole(body)?;
            Err(StepError::Refused(rejection))
        }
        Err(StepError::Failed(trouble)) => Err(StepError::Failed(trouble)),
    }
}
