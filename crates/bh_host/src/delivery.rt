//! The response to a request, delivered at once or in pieces.

ghost use Rattle.std.specs.Prelude.{◌≡◌, ◌<◌, ◌≤◌, ◌++◌, Some, Ok, IfOk, OnOk, true, false};
ghost use Rattle.bh_storage.specs.Calls.{Clean, Within, IsWorking};
ghost use Rattle.bh_storage.specs.Plans.{to_come};
ghost use Rattle.bh_tables.specs.Typed.{Tables};
ghost use Rattle.bh_host.specs.Answers.{composed_in, told_in, in_one_write, IsComplete, IsGreat, IsToldWhole};
ghost use Rattle.bh_host.specs.Answers.{IsOnlyGreatPlanned, IsToldAsGreat, IsPlanMeasured, IsToldMeasured};
ghost use Rattle.bh_host.specs.Answers.{Counts, IsSmall, IsToldSmall, IsToldNoted};
ghost use Rattle.bh_host.specs.declared.delivery.Delivery.TheVariants.{AtOnce, InPieces};

use crate::event::Told;
use crate::reply::Reply;
use crate::storage::Storage;
use bh_storage::error::Trouble;
use bh_storage::plan::Plan;
use bh_types::moment::Moment;
use bh_types::names::TenantName;
use std::alloc::Global;

/// How an object's bytes are delivered.
#[derive(Clone, Copy, PartialEq, Eq)]
pub enum Delivery {
    /// All at once, with the response head: they are read before the transaction ends.
    AtOnce,
    /// In pieces, read after the transaction was committed. The first few bytes are sent with the
    /// response head.
    InPieces,
}

/// Up to this many bytes of an object are sent in one write with the response head.
const IN_ONE_WRITE: u64 = 65_536;

impl Delivery {
    /// Whether an object of `count` bytes is read before the transaction ends.
    fn is_at_once(self, count: u64) -> bool
        ensures whole { self ≡ AtOnce → result ≡ true }
        ensures later { self ≡ InPieces → in_one_write < count → result ≡ false }
        ensures great { result ≡ false → in_one_write < count }
        ensures small { self ≡ InPieces → result ≡ true → count ≤ in_one_write }
    {
        match self {
            Delivery::AtOnce => true,
            Delivery::InPieces => count <= IN_ONE_WRITE,
        }
    }
}

/// An answer that is composed.
#[derive(Drop)]
pub enum Composed {
    Whole(Vec<u8>),
    /// The response head, and then this many bytes of the object.
    Gathered(Vec<u8>, u64),
    /// The response head, and a plan of the object's bytes, which are still to be read.
    Planned(Vec<u8>, Plan),
}

/// The result of a request, before its transaction ends.
#[derive(Drop)]
pub enum Served {
    Kept(Composed),
    /// A refused tenant request whose changes have to be rolled back.
    TakenBack(TenantName, Vec<u8>),
}

/// A reply whose object bytes are still to be read.
#[derive(Drop)]
pub struct PlannedReply {
    pub stamp: Moment,
    /// The response head.
    pub head: Vec<u8>,
    pub plan: Plan,
}

/// The reply to a request.
#[derive(Drop)]
pub enum Replied {
    Told(Told),
    Planned(PlannedReply),
}

/// The result of a request's transaction.
#[derive(Drop)]
pub enum Tried {
    Applied(Replied),
    /// A refusal: only the stamp and the removal of the tenant's stale uploads are recorded.
    TakenBack(TenantName, Vec<u8>),
}

/// Reads all remaining bytes of an object, and appends them to the response head.
fn gather<H: Storage>(
    alloc: Global,
    host: &mut H,
    head: Vec<u8>,
    plan: Plan,
) -> Result<Vec<u8>, Trouble>
    requires working { Clean H.IsIntact H.IsOpen host.old → IsWorking H.IsSoundStore (H.seen host.old) }
    ensures within { Within H.IsIntact H.IsOpen H.seen H.left host.old host.new }
    ensures opens { OnOk result (H.IsOpen host.old → H.IsIntact host.new → H.IsOpen host.new) }
    ensures same { OnOk result (Clean H.IsIntact H.IsOpen host.new → H.seen host.new ≡ H.seen host.old) }
    ensures all { IfOk result (λ bytes. Clean H.IsIntact H.IsOpen host.new
        → bytes.items ≡ head.items ++ to_come plan (H.seen host.old).now) }
{
    let mut bytes = head;
    bytes.reserve_exact(plan.left as usize)?;
    let mut left = plan;
    'pieces: loop {
        match host.next_piece(alloc, &mut left)? {
            Some(piece) => bytes.extend_from_slice(&piece)?,
            None => return Ok(bytes),
        }
    }
}

/// An answer, in the form in which it is delivered.
pub fn delivered<H: Storage>(
    alloc: Global,
    host: &mut H,
    delivery: Delivery,
    composed: Composed,
) -> Result<Composed, Trouble>
    requires working { Clean H.IsIntact H.IsOpen host.old → IsWorking H.IsSoundStore (H.seen host.old) }
    ensures within { Within H.IsIntact H.IsOpen H.seen H.left host.old host.new }
    ensures opens { OnOk result (H.IsOpen host.old → H.IsIntact host.new → H.IsOpen host.new) }
    ensures same { OnOk result (Clean H.IsIntact H.IsOpen host.new → H.seen host.new ≡ H.seen host.old) }
    ensures bytes { IfOk result (λ given. Clean H.IsIntact H.IsOpen host.new
        → composed_in (H.seen host.old).now given ≡ composed_in (H.seen host.old).now composed) }
    ensures whole { IfOk result (λ given. delivery ≡ AtOnce → IsComplete given) }
    ensures later { delivery ≡ InPieces → IsGreat composed → (result ≡ Ok composed) × (host.new ≡ host.old) }
    ensures great { IfOk result IsOnlyGreatPlanned }
    ensures measured { (tables : Tables) → IsPlanMeasured tables composed → IfOk result (IsPlanMeasured tables) }
    ensures counted { IfOk result (Counts composed) }
    ensures small { delivery ≡ InPieces → IsSmall composed → IfOk result IsSmall }
{
    match composed {
        Composed::Whole(bytes) => Ok(Composed::Whole(bytes)),
        Composed::Gathered(bytes, count) => Ok(Composed::Gathered(bytes, count)),
        Composed::Planned(head, plan) => {
            let count = plan.left;
            if delivery.is_at_once(count) {
                let bytes = gather(alloc, host, head, plan)?;
                Ok(Composed::Gathered(bytes, count))
            } else {
                Ok(Composed::Planned(head, plan))
            }
        }
    }
}

/// An answer and its stamp.
pub fn replied_at(stamp: Moment, composed: Composed) -> Replied
    ensures told { (tables : Tables) → told_in tables result ≡ (Some stamp, composed_in tables composed) }
    ensures whole { IsComplete composed → IsToldWhole result }
    ensures great { IsOnlyGreatPlanned composed → IsToldAsGreat result }
    ensures small { IsSmall composed → IsToldSmall result }
    ensures noted { IsToldNoted result }
    ensures measured { (tables : Tables) → IsPlanMeasured tables composed → IsToldMeasured tables result }
{
    let reply = match composed {
        Composed::Whole(bytes) => Reply::Text(bytes),
        Composed::Gathered(bytes, count) => Reply::Gathered(bytes, count),
        Composed::Planned(head, plan) => {
            return Replied::Planned(PlannedReply { stamp, head, plan });
        }
    };
    Replied::Told(Told {
        stamp: Some(stamp),
        reply,
    })
}
