//! Events in one transaction, or each in its own.

ghost use Rattle.std.specs.Prelude.{◌≡◌, ◌⊎◌, ◌<◌, ◌≤◌, List, None, length, map, take, All, IfOk, IfNone, IfSome, OnErr};
ghost use Rattle.std.specs.List.{AllZip};
ghost use Rattle.bh_event.specs.Events.{Arrival, arrival};
ghost use Rattle.bh_storage.specs.Calls.{Clean, IsAtRest};
ghost use Rattle.bh_tables.specs.Typed.{Tables};
ghost use Rattle.bh_host.specs.Groups.{tolds_in, count_of, last_stamp, HasSmallReply, IsGreatPlan, IsPlanOf, IsReadAlike};
ghost use Rattle.bh_host.specs.Resting.{StaysAtRest};
ghost use Rattle.bh_host.specs.Runs.{GoesOn, HasRunOn, RanOn};
ghost use Rattle.bh_host.specs.Turns.{WouldApplySome};

use crate::delivery::Replied;
use crate::event::apply_in_pieces;
use crate::group::{Group, apply_group};
use crate::storage::Storage;
use bh_event::event::Event;
use bh_operation::routes::Routes;
use std::alloc::{AllocError, Global};

/// Applies events in one transaction. If that fails, it is rolled back, and each is applied by
/// itself, in order: so those are refused that would be refused alone.
///
/// An object above 65,536 bytes ends a group in both ways, and its bytes are still to be read. The
/// events after it were not applied, and the caller passes them again. The vector for the replies is
/// allocated first: if that fails, no event is applied.
///
/// After a reply with a stamp, a crash leaves what its transaction committed.
pub fn apply_together<H: Storage>(
    alloc: Global,
    routes: &Routes,
    host: &mut H,
    events: &[Event],
) -> Result<Group, AllocError>
    requires some { 0 < length events.now }
    requires rest { Clean H.IsIntact H.IsOpen host.old → IsAtRest H.IsSoundStore (H.seen host.old) }
    ensures stays { StaysAtRest H.IsIntact H.IsOpen H.IsSoundStore H.seen H.left host.old host.new }
    ensures ran { IfOk result (λ group. H.IsIntact host.new → RanOn H.IsOpen H.seen H.left
        (take (count_of group) (map arrival events.now)) (tolds_in (H.seen host.new).now group) host.old host.new) }
    ensures goes_on { IfOk result (λ group. H.IsIntact host.new → (others : List Arrival)
        → AllZip (IsReadAlike (H.seen host.old).limits) (map arrival events.now) others
        → GoesOn H.IsOpen H.seen H.left (take (count_of group) others) (tolds_in (H.seen host.new).now group) host.old host.new) }
    ensures alone { IfOk result (λ group. H.IsIntact host.new → HasRunOn H.IsOpen H.seen
        (take (count_of group) (map arrival events.now)) (tolds_in (H.seen host.new).now group) host.old host.new) }
    ensures crash { IfOk result (λ group. H.IsIntact host.new → (x : Tables) → H.left host.new x → H.left host.old x
        ⊎ WouldApplySome (take (count_of group) (map arrival events.now)) (H.seen host.old).now x) }
    ensures acknowledged { IfOk result (λ group. IfSome (last_stamp None (tolds_in (H.seen host.new).now group))
        (λ _. H.IsIntact host.new → (x : Tables) → H.left host.new x → x ≡ (H.seen host.new).now)) }
    ensures whole { IfOk result (λ group. IfNone group.planned (length group.tolds.items ≡ length events.now)) }
    ensures count { IfOk result (λ group. count_of group ≤ length events.now) }
    ensures small { IfOk result (λ group. All HasSmallReply group.tolds.items) }
    ensures great { IfOk result (λ group. IfSome group.planned IsGreatPlan) }
    ensures open { IfOk result (λ group. IfSome group.planned (λ _. H.IsIntact host.new → H.IsOpen host.new)) }
    ensures measured { IfOk result (λ group. Clean H.IsIntact H.IsOpen host.new
        → IfSome group.planned (IsPlanOf (H.seen host.new).now)) }
    ensures err { OnErr result (host.new ≡ host.old) }
{
    let mut tolds = Vec::with_capacity(alloc, events.len())?;
    if let Ok(group) = apply_group(alloc, routes, host, events) {
        return Ok(group);
    }
    // Why it failed, the replies to the single events tell.
    for event in events {
        match apply_in_pieces(alloc, routes, host, event) {
            Replied::Told(told) => tolds.push_reserved(told),
            Replied::Planned(reply) => {
                let planned = Some(reply);
                return Ok(Group { tolds, planned });
            }
        }
    }
    let planned = None;
    Ok(Group { tolds, planned })
}
