//! Lists of events.

ghost use Rattle.std.specs.Prelude.{◌≡◌, length, map, IfOk, OnErr};
ghost use Rattle.bh_event.specs.Events.{arrival};
ghost use Rattle.bh_storage.specs.Calls.{Clean, IsAtRest};
ghost use Rattle.bh_host.specs.Answers.{told};
ghost use Rattle.bh_host.specs.Resting.{StaysAtRest};
ghost use Rattle.bh_host.specs.Runs.{HasRunOn, RanOn};

use crate::event::{Told, apply};
use crate::storage::Storage;
use bh_event::event::Event;
use bh_operation::routes::Routes;
use std::alloc::{AllocError, Global};

/// Applies events in turn, and returns their replies. Each tenant is answered as by a machine of
/// its own. The result's vector is allocated first: if that fails, no event is applied.
///
/// Sweeps, reports and lists of tenants belong to no tenant. A sweep removes stale uploads and
/// unreferenced blocks of all tenants; the others change nothing. So each tenant's answers stay
/// those of its own machine.
///
/// If the store fails, the clauses on earlier events still hold. What a crash may leave then is
/// sound, or was possible before the run.
pub fn run<H: Storage>(
    alloc: Global,
    routes: &Routes,
    host: &mut H,
    events: &[Event],
) -> Result<Vec<Told>, AllocError>
    requires { Clean H.IsIntact H.IsOpen host.old → IsAtRest H.IsSoundStore (H.seen host.old) }
    ensures stays { StaysAtRest H.IsIntact H.IsOpen H.IsSoundStore H.seen H.left host.old host.new }
    ensures ran { IfOk result (λ dones. H.IsIntact host.new
        → RanOn H.IsOpen H.seen H.left (map arrival events.now) (map told dones.items) host.old host.new) }
    ensures alone { IfOk result (λ dones. H.IsIntact host.new
        → HasRunOn H.IsOpen H.seen (map arrival events.now) (map told dones.items) host.old host.new) }
    ensures count { IfOk result (λ dones. length dones.items ≡ length events.now) }
    ensures err { OnErr result (host.new ≡ host.old) }
{
    let mut dones = Vec::with_capacity(alloc, events.len())?;
    for event in events {
        let done = apply(alloc, routes, host, event);
        dones.push_reserved(done);
    }
    Ok(dones)
}
