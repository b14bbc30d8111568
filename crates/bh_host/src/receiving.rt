//! A request whose head was read, and whose body is received in pieces.

ghost use Rattle.std.specs.Prelude.{◌≡◌, ◌⊎◌, ◌≤◌, ℕ, None, Some, Ok, Err, IfOk, IfSome, OnOk, OnErr, option_map};
ghost use Rattle.std.specs.Option.{option_copied};
ghost use Rattle.bh_http.specs.Credentials.{key_given};
ghost use Rattle.bh_http.specs.Responses.{response_text};
ghost use Rattle.bh_http.specs.Views.{with_body};
ghost use Rattle.bh_machine.specs.Machine.{RequestRead};
ghost use Rattle.bh_types.specs.Rejections.{plain};
ghost use Rattle.bh_model.specs.Runs.{last_reading};
ghost use Rattle.bh_model.specs.State.{Octets};
ghost use Rattle.bh_storage.specs.Calls.{Clean, Within, LeavesSound, IsAtRest, IsWorking};
ghost use Rattle.bh_tables.specs.Typed.{Tables};
ghost use Rattle.bh_view.specs.View.{latest_of};
ghost use Rattle.bh_storage.specs.Answers.{found_answer};
ghost use Rattle.bh_host.specs.Offers.{offer_view};
ghost use Rattle.bh_storage.specs.Plans.{IsMeasured};
ghost use Rattle.bh_host.specs.Offers.{IfFound};
ghost use Rattle.bh_host.specs.Answers.{composed_in, told, told_in, IsServedWhole, IsTriedWhole, IsToldWhole};
ghost use Rattle.bh_host.specs.Answers.{IsServedAsGreat, IsTriedAsGreat, IsToldAsGreat};
ghost use Rattle.bh_host.specs.Answers.{IsPlanMeasured, IsServedMeasured, IsTriedMeasured, IsToldMeasured};
ghost use Rattle.bh_host.specs.Answers.{IsSmall, IsSmallReply, IsServedSmall, IsTriedSmall, IsToldSmall};
ghost use Rattle.bh_host.specs.Answers.{IsNoted, IsTriedNoted, IsToldNoted};
ghost use Rattle.bh_host.specs.Receives.{Serves, Tries, AnewAs, Receives, IsStamp, Records, IfKept, IfApplied};
ghost use Rattle.bh_host.specs.Replies.{text, wanting_text, response_to, sent_for};
ghost use Rattle.bh_host.specs.Resting.{StaysAtRest};
ghost use Rattle.bh_host.specs.declared.delivery.Delivery.TheVariants.{AtOnce, InPieces};
ghost use Rattle.bh_host.specs.declared.reply.Caller.TheVariants.{Request};

use crate::delivery::{Composed, Delivery, Replied, Served, Tried, delivered, replied_at};
use crate::event::Told;
use crate::offer::Offer;
use crate::reply::{
    Caller, Reply, found_text, is_head, refused_request_text, sent_text, unread_text,
};
use crate::serve::{requested, stranger_refusal};
use crate::storage::Storage;
use bh_http::body::{Body, Break, drain};
use bh_http::credentials::access_key_of;
use bh_http::request::Head;
use bh_operation::routes::Routes;
use bh_storage::answer::FoundVersion;
use bh_storage::error::{Outcome, StepError, Trouble};
use bh_types::access_key::AccessKeyId;
use bh_types::moment::Moment;
use bh_types::names::TenantName;
use bh_types::refusal::Refusal;
use bh_types::rejection::Rejection;
use std::alloc::{AllocError, Global};

/// The response to a request that found an object, whatever the request's body. A HEAD request gets
/// none of the object's bytes.
fn found(alloc: Global, head: &Head, version: FoundVersion) -> Result<Composed, AllocError>
    ensures told { (tables : Tables) → IsMeasured tables version → IfOk result (λ composed. composed_in tables composed
        ≡ response_text (sent_for head.now.method.now (response_to (found_answer tables version)))) }
    ensures measured { (tables : Tables) → IsMeasured tables version → IfOk result (IsPlanMeasured tables) }
    ensures small { IfOk result IsSmall }
{
    let count = version.plan.left;
    let bytes = found_text(alloc, version.head, version.range, count)?;
    if is_head(head.method) {
        Ok(Composed::Whole(bytes))
    } else {
        Ok(Composed::Planned(bytes, version.plan))
    }
}

/// The response to a request, whatever its body. No byte of an object has been read yet.
fn offered(alloc: Global, head: &Head, offer: Offer) -> Result<Composed, AllocError>
    ensures told { (tables : Tables) → IfFound offer (IsMeasured tables) → IfOk result (λ composed. composed_in tables composed
        ≡ response_text (sent_for head.now.method.now (offer_view tables offer))) }
    ensures measured { (tables : Tables) → IfFound offer (IsMeasured tables) → IfOk result (IsPlanMeasured tables) }
    ensures small { IfOk result IsSmall }
{
    match offer {
        Offer::Whole(response) => { Ok(Composed::Whole(sent_text(alloc, head.method, response)?)) }
        Offer::Planned(version) => found(alloc, head, version),
    }
}

/// A request with this access key, by its tenant.
fn serve_tenant<H: Storage, B: Body>(
    alloc: Global,
    routes: &Routes,
    host: &mut H,
    key: AccessKeyId,
    at: Moment,
    head: &Head,
    body: &mut B,
    delivery: Delivery,
) -> Result<Served, Trouble>
    requires keyed { (given : Octets) → key_given (with_body head.now given) ≡ Some key }
    requires working { Clean H.IsIntact H.IsOpen host.old → IsWorking H.IsSoundStore (H.seen host.old) }
    requires early { Clean H.IsIntact H.IsOpen host.old → at ≤ latest_of (H.seen host.old).now }
    requires going { (B.coming body.old).broken ≡ None }
    ensures within { Within H.IsIntact H.IsOpen H.seen H.left host.old host.new }
    ensures opens { IfOk result (λ served. IfKept served (H.IsOpen host.old → H.IsIntact host.new → H.IsOpen host.new)) }
    ensures working { IfOk result (λ served. IfKept served (Clean H.IsIntact H.IsOpen host.new
        → IsWorking H.IsSoundStore (H.seen host.new))) }
    ensures serves { Serves (Clean H.IsIntact H.IsOpen host.new) (H.seen host.old).limits head.now at (B.coming body.old)
        (B.coming body.new)
        (H.seen host.old).now (H.seen host.new).now result }
    ensures whole { IfOk result (λ served. delivery ≡ AtOnce → IsServedWhole served) }
    ensures great { IfOk result IsServedAsGreat }
    ensures small { IfOk result (λ served. delivery ≡ InPieces → IsServedSmall served) }
    ensures measured { IfOk result (λ served. Clean H.IsIntact H.IsOpen host.new → IsServedMeasured (H.seen host.new).now served) }
{
    host.purge(alloc, &key.tenant, at)?;
    match requested(alloc, routes, host, &key, at, head, body) {
        Ok(Outcome::Done(offer)) => {
            let composed = offered(alloc, head, offer)?;
            Ok(Served::Kept(delivered(alloc, host, delivery, composed)?))
        }
        Ok(Outcome::Spoilt(rejection)) => {
            let text = refused_request_text(alloc, routes, head, rejection)?;
            Ok(Served::TakenBack(key.tenant, text))
        }
        Err(StepError::Refused(rejection)) => {
            let text = refused_request_text(alloc, routes, head, rejection)?;
            Ok(Served::Kept(Composed::Whole(text)))
        }
        Err(StepError::Failed(trouble)) => Err(trouble),
    }
}

/// A request at its stamp. A request of no tenant is refused once its body was received.
pub fn serve<H: Storage, B: Body>(
    alloc: Global,
    routes: &Routes,
    host: &mut H,
    at: Moment,
    head: &Head,
    body: &mut B,
    delivery: Delivery,
) -> Result<Served, Trouble>
    requires working { Clean H.IsIntact H.IsOpen host.old → IsWorking H.IsSoundStore (H.seen host.old) }
    requires early { Clean H.IsIntact H.IsOpen host.old → at ≤ latest_of (H.seen host.old).now }
    requires going { (B.coming body.old).broken ≡ None }
    ensures within { Within H.IsIntact H.IsOpen H.seen H.left host.old host.new }
    ensures opens { IfOk result (λ served. IfKept served (H.IsOpen host.old → H.IsIntact host.new → H.IsOpen host.new)) }
    ensures working { IfOk result (λ served. IfKept served (Clean H.IsIntact H.IsOpen host.new
        → IsWorking H.IsSoundStore (H.seen host.new))) }
    ensures serves { Serves (Clean H.IsIntact H.IsOpen host.new) (H.seen host.old).limits head.now at (B.coming body.old)
        (B.coming body.new)
        (H.seen host.old).now (H.seen host.new).now result }
    ensures whole { IfOk result (λ served. delivery ≡ AtOnce → IsServedWhole served) }
    ensures great { IfOk result IsServedAsGreat }
    ensures small { IfOk result (λ served. delivery ≡ InPieces → IsServedSmall served) }
    ensures measured { IfOk result (λ served. Clean H.IsIntact H.IsOpen host.new → IsServedMeasured (H.seen host.new).now served) }
{
    match access_key_of(alloc, head)? {
        Some(key) => serve_tenant(alloc, routes, host, key, at, head, body, delivery),
        None => {
            drain(body)?;
            let rejection = Rejection::from(stranger_refusal(head));
            let text = refused_request_text(alloc, routes, head, rejection)?;
            Ok(Served::Kept(Composed::Whole(text)))
        }
    }
}

/// A transaction with a request. Unless the request is applied, it may still be open.
fn try_receive<H: Storage, B: Body>(
    alloc: Global,
    routes: &Routes,
    host: &mut H,
    reading: u64,
    head: &Head,
    body: &mut B,
    delivery: Delivery,
) -> Result<Tried, Trouble>
    requires in_range { reading ≤ last_reading }
    requires rest { Clean H.IsIntact H.IsOpen host.old → IsAtRest H.IsSoundStore (H.seen host.old) }
    requires going { (B.coming body.old).broken ≡ None }
    ensures intact { H.IsIntact host.new → H.IsIntact host.old }
    ensures opened { H.IsIntact host.new → H.IsOpen host.new → H.IsOpen host.old }
    ensures limits { (H.seen host.new).limits ≡ (H.seen host.old).limits }
    ensures ready { IfOk result (λ tried. IfApplied tried (Clean H.IsIntact H.IsOpen host.new
        → IsAtRest H.IsSoundStore (H.seen host.new))) }
    ensures tries { Tries H.IsIntact H.IsOpen H.seen H.left reading head.now (B.coming body.old) (B.coming body.new)
        host.old host.new result }
    ensures whole { IfOk result (λ tried. delivery ≡ AtOnce → IsTriedWhole tried) }
    ensures great { IfOk result IsTriedAsGreat }
    ensures small { IfOk result (λ tried. delivery ≡ InPieces → IsTriedSmall tried) }
    ensures noted { IfOk result IsTriedNoted }
    ensures measured { IfOk result (λ tried. Clean H.IsIntact H.IsOpen host.new → IsTriedMeasured (H.seen host.new).now tried) }
    ensures leaves { H.IsIntact host.new → LeavesSound H.IsSoundStore H.left host.old host.new }
{
    host.begin()?;
    let stamp = host.stamp(reading)?;
    match serve(alloc, routes, host, stamp, head, body, delivery)? {
        Served::Kept(composed) => {
            host.commit()?;
            Ok(Tried::Applied(replied_at(stamp, composed)))
        }
        Served::TakenBack(tenant, bytes) => Ok(Tried::TakenBack(tenant, bytes)),
    }
}

/// A transaction that writes the stamp of a reading. If a tenant is named, it removes its stale
/// uploads too.
fn record_stamp<H: Storage>(
    alloc: Global,
    host: &mut H,
    reading: u64,
    tenant: Option<&TenantName>,
) -> Result<Moment, Trouble>
    requires in_range { reading ≤ last_reading }
    requires rest { Clean H.IsIntact H.IsOpen host.old → IsAtRest H.IsSoundStore (H.seen host.old) }
    ensures intact { H.IsIntact host.new → H.IsIntact host.old }
    ensures opened { H.IsIntact host.new → H.IsOpen host.new → H.IsOpen host.old }
    ensures limits { (H.seen host.new).limits ≡ (H.seen host.old).limits }
    ensures ready { OnOk result (Clean H.IsIntact H.IsOpen host.new → IsAtRest H.IsSoundStore (H.seen host.new)) }
    ensures open { OnOk result (H.IsIntact host.new → H.IsOpen host.old × H.IsOpen host.new) }
    ensures stamp { IfOk result (λ m. H.IsIntact host.new → IsStamp reading (H.seen host.old).now m) }
    ensures done { IfOk result (λ m. H.IsIntact host.new
        → Records (option_copied tenant.entry) m (H.seen host.old).now (H.seen host.new).now) }
    ensures survives { OnOk result (H.IsIntact host.new → (x : Tables) → H.left host.new x → x ≡ (H.seen host.new).now) }
    ensures crash { OnErr result (H.IsIntact host.new → (x : Tables) → H.left host.new x
        → H.left host.old x ⊎ (H.IsOpen host.old × ((m : ℕ) × IsStamp reading (H.seen host.old).now m
        × Records (option_copied tenant.entry) m (H.seen host.old).now x))) }
    ensures leaves { H.IsIntact host.new → LeavesSound H.IsSoundStore H.left host.old host.new }
    ensures kept { OnErr result (Clean H.IsIntact H.IsOpen host.new → (H.seen host.new).kept ≡ (H.seen host.old).kept) }
{
    host.begin()?;
    let stamp = host.stamp(reading)?;
    if let Some(tenant) = tenant {
        host.purge(alloc, tenant, stamp)?;
    }
    host.commit()?;
    Ok(stamp)
}

/// Records a stamp and returns a text, after an earlier transaction was rolled back.
fn answer_anew<H: Storage>(
    alloc: Global,
    host: &mut H,
    reading: u64,
    tenant: Option<&TenantName>,
    text: Vec<u8>,
) -> Told
    requires in_range { reading ≤ last_reading }
    requires rest { Clean H.IsIntact H.IsOpen host.old → IsAtRest H.IsSoundStore (H.seen host.old) }
    ensures stays { StaysAtRest H.IsIntact H.IsOpen H.IsSoundStore H.seen H.left host.old host.new }
    ensures anew { AnewAs H.IsIntact H.IsOpen H.seen H.left reading (option_copied tenant.entry) text.items
        host.old host.new (told result).0 (told result).1 }
    ensures small { IsSmallReply result.reply }
    ensures noted { IsNoted result }
{
    match record_stamp(alloc, host, reading, tenant) {
        Ok(stamp) => Told {
            stamp: Some(stamp),
            reply: Reply::Text(text),
        },
        Err(trouble) => {
            host.take_back();
            wanting(trouble)
        }
    }
}

/// The reply if memory or the store failed. It allocates nothing.
pub fn wanting(trouble: Trouble) -> Told
    ensures told { told result ≡ (None, wanting_text Request) }
    ensures small { IsSmallReply result.reply }
    ensures noted { IsNoted result }
{
    Told {
        stamp: None,
        reply: Reply::Wanting(Caller::Request, trouble),
    }
}

/// Refuses bytes that can't be parsed as a request. They belong to no tenant.
pub fn refuse_unread<H: Storage>(
    alloc: Global,
    routes: &Routes,
    host: &mut H,
    reading: u64,
    refusal: Refusal,
) -> Told
    requires in_range { reading ≤ last_reading }
    requires rest { Clean H.IsIntact H.IsOpen host.old → IsAtRest H.IsSoundStore (H.seen host.old) }
    ensures stays { StaysAtRest H.IsIntact H.IsOpen H.IsSoundStore H.seen H.left host.old host.new }
    ensures anew { AnewAs H.IsIntact H.IsOpen H.seen H.left reading None (text (RequestRead (Err refusal)) (Err (plain refusal)))
        host.old host.new (told result).0 (told result).1 }
    ensures small { IsSmallReply result.reply }
    ensures noted { IsNoted result }
{
    match unread_text(alloc, routes, refusal) {
        Ok(text) => answer_anew(alloc, host, reading, None, text),
        Err(error) => wanting(Trouble::from(error)),
    }
}

/// Applies a request whose head was read, in one transaction. Its body is read as it is needed.
/// `None` if the body's reader failed: then nothing has changed.
///
/// The transaction is rolled back if the body is too short, or if its checksum turns out wrong
/// after bytes were stored. A second transaction then records the stamp and removes the tenant's
/// stale uploads.
///
/// If an object is to be delivered in pieces, nothing of it is read yet, and the store is open.
pub fn receive<H: Storage, B: Body>(
    alloc: Global,
    routes: &Routes,
    host: &mut H,
    reading: u64,
    head: &Head,
    body: &mut B,
    delivery: Delivery,
) -> Option<Replied>
    requires in_range { reading ≤ last_reading }
    requires rest { Clean H.IsIntact H.IsOpen host.old → IsAtRest H.IsSoundStore (H.seen host.old) }
    requires going { (B.coming body.old).broken ≡ None }
    requires due { (B.coming body.old).due ≡ head.now.body_size }
    ensures stays { StaysAtRest H.IsIntact H.IsOpen H.IsSoundStore H.seen H.left host.old host.new }
    ensures receives { Receives H.IsIntact H.IsOpen H.seen H.left reading head.now (B.coming body.old) (B.coming body.new)
        host.old host.new (option_map (told_in (H.seen host.new).now) result) }
    ensures whole { delivery ≡ AtOnce → IfSome result IsToldWhole }
    ensures great { IfSome result IsToldAsGreat }
    ensures small { delivery ≡ InPieces → IfSome result IsToldSmall }
    ensures noted { IfSome result IsToldNoted }
    ensures measured { IfSome result (λ replied. Clean H.IsIntact H.IsOpen host.new → IsToldMeasured (H.seen host.new).now replied) }
{
    match try_receive(alloc, routes, host, reading, head, body, delivery) {
        Ok(Tried::Applied(replied)) => Some(replied),
        Ok(Tried::TakenBack(tenant, text)) => {
            host.take_back();
            let told = answer_anew(alloc, host, reading, Some(&tenant), text);
            Some(Replied::Told(told))
        }
        Err(trouble) => {
            host.take_back();
            match body.broken() {
                None => Some(Replied::Told(wanting(trouble))),
                Some(Break::Failed) => None,
                Some(Break::Ended) => {
                    let refusal = Refusal::IncompleteBody;
                    Some(Replied::Told(refuse_unread(alloc, routes, host, reading, refusal)))
                }
            }
        }
    }
}
