//! Events that are applied in one transaction, so that one sync serves them all.

ghost use Rattle.std.specs.Prelude.{◌≡◌, ◌⊎◌, ◌<◌, ◌≤◌, length, map, take, All, IfOk, IfNone, IfSome, OnOk, OnErr};
ghost use Rattle.bh_event.specs.Events.{arrival};
ghost use Rattle.bh_storage.specs.Calls.{Clean, Within, LeavesSound, IsAtRest, IsWorking};
ghost use Rattle.bh_tables.specs.Typed.{Tables};
ghost use Rattle.bh_host.specs.Groups.{RanTogether, tolds_in, count_of, HasSmallReply, IsGreatPlan, IsPlanOf};
ghost use Rattle.bh_host.specs.Resting.{StaysAtRest};
ghost use Rattle.bh_host.specs.Turns.{WouldApplySome};

use crate::delivery::{PlannedReply, Replied};
use crate::event::Told;
use crate::storage::Storage;
use crate::within::apply_within;
use bh_event::event::Event;
use bh_operation::routes::Routes;
use bh_storage::error::Trouble;
use std::alloc::Global;

/// The replies to the first events of a list, which were applied.
#[derive(Drop)]
pub struct Group {
    /// Those to the first events.
    pub tolds: Vec<Told>,
    /// That to the next one, if its object is still to be read. It ends the group.
    pub planned: Option<PlannedReply>,
}

/// Applies events in an open transaction, one after another, up to the first with an object above
/// 65,536 bytes.
fn apply_all<H: Storage>(
    alloc: Global,
    routes: &Routes,
    host: &mut H,
    events: &[Event],
) -> Result<Group, Trouble>
    requires working { Clean H.IsIntact H.IsOpen host.old → IsWorking H.IsSoundStore (H.seen host.old) }
    ensures within { Within H.IsIntact H.IsOpen H.seen H.left host.old host.new }
    ensures opens { OnOk result (H.IsOpen host.old → H.IsIntact host.new → H.IsOpen host.new) }
    ensures working { OnOk result (Clean H.IsIntact H.IsOpen host.new → IsWorking H.IsSoundStore (H.seen host.new)) }
    ensures ran { IfOk result (λ group. Clean H.IsIntact H.IsOpen host.new
        → RanTogether (take (count_of group) (map arrival events.now)) (tolds_in (H.seen host.new).now group)
        (H.seen host.old).now (H.seen host.new).now) }
    ensures whole { IfOk result (λ group. IfNone group.planned (length group.tolds.items ≡ length events.now)) }
    ensures count { IfOk result (λ group. count_of group ≤ length events.now) }
    ensures small { IfOk result (λ group. All HasSmallReply group.tolds.items) }
    ensures great { IfOk result (λ group. IfSome group.planned IsGreatPlan) }
    ensures measured { IfOk result (λ group. Clean H.IsIntact H.IsOpen host.new
        → IfSome group.planned (IsPlanOf (H.seen host.new).now)) }
{
    let mut tolds = Vec::with_capacity(alloc, events.len())?;
    for event in events {
        match apply_within(alloc, routes, host, event)? {
            Replied::Told(told) => tolds.push_reserved(told),
            Replied::Planned(reply) => {
                let planned = Some(reply);
                return Ok(Group { tolds, planned });
            }
        }
    }
    let planned = None;
    Ok(Group { tolds, planned })
}

/// A transaction with events. If this fails, it may still be open.
fn try_group<H: Storage>(
    alloc: Global,
    routes: &Routes,
    host: &mut H,
    events: &[Event],
) -> Result<Group, Trouble>
    requires some { 0 < length events.now }
    requires rest { Clean H.IsIntact H.IsOpen host.old → IsAtRest H.IsSoundStore (H.seen host.old) }
    ensures intact { H.IsIntact host.new → H.IsIntact host.old }
    ensures opened { H.IsIntact host.new → H.IsOpen host.new → H.IsOpen host.old }
    ensures limits { (H.seen host.new).limits ≡ (H.seen host.old).limits }
    ensures ready { OnOk result (Clean H.IsIntact H.IsOpen host.new → IsAtRest H.IsSoundStore (H.seen host.new)) }
    ensures ran { IfOk result (λ group. H.IsIntact host.new → H.IsOpen host.old × H.IsOpen host.new
        × RanTogether (take (count_of group) (map arrival events.now)) (tolds_in (H.seen host.new).now group)
        (H.seen host.old).now (H.seen host.new).now) }
    ensures whole { IfOk result (λ group. IfNone group.planned (length group.tolds.items ≡ length events.now)) }
    ensures count { IfOk result (λ group. count_of group ≤ length events.now) }
    ensures small { IfOk result (λ group. All HasSmallReply group.tolds.items) }
    ensures great { IfOk result (λ group. IfSome group.planned IsGreatPlan) }
    ensures measured { IfOk result (λ group. Clean H.IsIntact H.IsOpen host.new
        → IfSome group.planned (IsPlanOf (H.seen host.new).now)) }
    ensures survives { OnOk result (H.IsIntact host.new → (x : Tables) → H.left host.new x → x ≡ (H.seen host.new).now) }
    ensures crash { OnErr result (H.IsIntact host.new → (x : Tables) → H.left host.new x → H.left host.old x
        ⊎ (H.IsOpen host.old × WouldApplySome (map arrival events.now) (H.seen host.old).now x)) }
    ensures leaves { H.IsIntact host.new → LeavesSound H.IsSoundStore H.left host.old host.new }
    ensures kept { OnErr result (Clean H.IsIntact H.IsOpen host.new → (H.seen host.new).kept ≡ (H.seen host.old).kept) }
{
    host.begin()?;
    let group = apply_all(alloc, routes, host, events)?;
    host.commit()?;
    Ok(group)
}

/// Applies events in one transaction, each at a stamp of its own, and returns their replies once it
/// is committed. An object above 65,536 bytes is to be read from what was committed: it ends the
/// group, and no event after it is applied.
///
/// If memory or the store fails, if a reading is above 250,000,000,000 seconds, or if a checksum
/// turns out wrong after bytes were stored, all is rolled back: then each event is to be applied by
/// itself. A commit that failed may have written what all of them did.
pub fn apply_group<H: Storage>(
    alloc: Global,
    routes: &Routes,
    host: &mut H,
    events: &[Event],
) -> Result<Group, Trouble>
    requires some { 0 < length events.now }
    requires rest { Clean H.IsIntact H.IsOpen host.old → IsAtRest H.IsSoundStore (H.seen host.old) }
    ensures stays { StaysAtRest H.IsIntact H.IsOpen H.IsSoundStore H.seen H.left host.old host.new }
    ensures ran { IfOk result (λ group. H.IsIntact host.new → H.IsOpen host.old × H.IsOpen host.new
        × RanTogether (take (count_of group) (map arrival events.now)) (tolds_in (H.seen host.new).now group)
        (H.seen host.old).now (H.seen host.new).now) }
    ensures whole { IfOk result (λ group. IfNone group.planned (length group.tolds.items ≡ length events.now)) }
    ensures count { IfOk result (λ group. count_of group ≤ length events.now) }
    ensures small { IfOk result (λ group. All HasSmallReply group.tolds.items) }
    ensures great { IfOk result (λ group. IfSome group.planned IsGreatPlan) }
    ensures measured { IfOk result (λ group. Clean H.IsIntact H.IsOpen host.new
        → IfSome group.planned (IsPlanOf (H.seen host.new).now)) }
    ensures acknowledged { OnOk result (H.IsIntact host.new → (x : Tables) → H.left host.new x → x ≡ (H.seen host.new).now) }
    ensures untouched { OnErr result (H.IsIntact host.new → H.IsOpen host.new
        → H.IsOpen host.old × ((H.seen host.new).now ≡ (H.seen host.old).now)) }
    ensures crash { OnErr result (H.IsIntact host.new → (x : Tables) → H.left host.new x → H.left host.old x
        ⊎ (H.IsOpen host.old × WouldApplySome (map arrival events.now) (H.seen host.old).now x)) }
{
    match try_group(alloc, routes, host, events) {
        Ok(group) => Ok(group),
        Err(trouble) => {
            host.take_back();
            Err(trouble)
        }
    }
}
