//! Work on a host's storage.

ghost use Rattle.std.specs.Prelude.{◌≡◌, false, IfOk};
ghost use Rattle.bh_event.specs.Events.{message_of};
ghost use Rattle.bh_event.specs.Orders.{arrival_at};
ghost use Rattle.bh_connection.specs.Connections.{IsTakenBack};
ghost use Rattle.bh_storage.specs.Calls.{Clean, IsAtRest};
ghost use Rattle.bh_host.specs.Replies.{reply_bytes};
ghost use Rattle.bh_maintenance.specs.Printing.{IsLine};
ghost use Rattle.bh_commands.specs.Commands.{IsTold, HasDone, HasObeyed, HasServed, StaysReady};

use crate::asked::{Serving, Work};
use bh_connection::{BackUp, MachineClock, is_sweep};
use bh_event::order::HostOrder;
use bh_host::storage::Storage;
use bh_host::{Reply, apply};
use bh_maintenance::fault::Fault;
use bh_maintenance::printed::Printed;
use bh_operation::routes::Routes;
use bh_wires::serve_many;
use std::alloc::{AllocError, Global};

/// A reply to an operator.
fn printed_of(alloc: Global, reply: &Reply) -> Result<Printed, AllocError>
    ensures { IfOk result (IsLine (reply_bytes reply.now)) }
{
    Printed::line(alloc, reply.bytes())
}

/// Carries out an operator's order at a reading of the clock, in seconds since 1970, and prints the
/// reply.
pub fn apply_order<H: Storage>(
    alloc: Global,
    routes: &Routes,
    host: &mut H,
    reading: u64,
    order: HostOrder,
) -> Result<Printed, AllocError>
    requires { Clean H.IsIntact H.IsOpen host.old → IsAtRest H.IsSoundStore (H.seen host.old) }
    ensures stays { StaysReady H.IsIntact H.IsOpen H.IsSoundStore H.seen host.old host.new }
    ensures applied { IfOk result (IsTold H.IsIntact H.IsOpen H.seen H.left (arrival_at reading (message_of order)) host.old host.new) }
{
    let event = order.at(reading);
    let told = apply(alloc, routes, host, &event);
    let printed = printed_of(alloc, &told.reply)?;
    Ok(printed)
}

/// After a sweep, removes packs of which nothing is named any more and empties those of which little is, step
/// by step, until a step finds nothing to do or fails.
fn free_packs<H: BackUp>(host: &mut H, swept: bool)
    requires { Clean H.IsIntact H.IsOpen host.old → IsAtRest H.IsSoundStore (H.seen host.old) }
    ensures stays { StaysReady H.IsIntact H.IsOpen H.IsSoundStore H.seen host.old host.new }
    ensures back { IsTakenBack H.IsIntact H.IsOpen H.seen H.left host.old host.new }
    ensures still { swept ≡ false → host.new ≡ host.old }
{
    if !swept {
        return;
    }
    'steps: for _ in 0..u64::MAX {
        match host.drop_packs() {
            Some(count) if count > 0 => {}
            _ => return,
        }
    }
}

/// The same, and after a sweep the room of packs is given back as far as it can be.
fn obey<H: BackUp>(
    alloc: Global,
    routes: &Routes,
    host: &mut H,
    reading: u64,
    order: HostOrder,
) -> Result<Printed, AllocError>
    requires { Clean H.IsIntact H.IsOpen host.old → IsAtRest H.IsSoundStore (H.seen host.old) }
    ensures stays { StaysReady H.IsIntact H.IsOpen H.IsSoundStore H.seen host.old host.new }
    ensures obeyed { IfOk result (HasObeyed H.IsIntact H.IsOpen H.seen H.left (arrival_at reading (message_of order)) host.old host.new) }
{
    let sweeps = is_sweep(&order);
    let printed = apply_order(alloc, routes, host, reading, order)?;
    free_packs(host, sweeps);
    Ok(printed)
}

/// Serves connections by the machine's clock, and operators' lines if there is a port for them. It
/// prints nothing.
fn serve<H: BackUp>(
    rt: &HostRuntime,
    routes: &Routes,
    host: &mut H,
    serving: Serving,
) -> Result<Printed, Fault>
    requires { Clean H.IsIntact H.IsOpen host.old → IsAtRest H.IsSoundStore (H.seen host.old) }
    ensures stays { StaysReady H.IsIntact H.IsOpen H.IsSoundStore H.seen host.old host.new }
    ensures done { IfOk result (HasServed H.IsIntact H.IsOpen H.seen H.left serving host.old host.new) }
{
    serve_many(
        rt,
        routes,
        host,
        &MachineClock(rt),
        serving.ports(),
        serving.manner,
        serving.places(),
        serving.count.unwrap_or(u64::MAX),
    )?;
    Ok(Printed::nothing(rt.alloc()))
}

/// Does the work on a host; `routes` finds the targets of requests.
fn do_routed<H: BackUp>(
    rt: &HostRuntime,
    routes: &Routes,
    host: &mut H,
    reading: u64,
    asked: Work,
) -> Result<Printed, Fault>
    requires { Clean H.IsIntact H.IsOpen host.old → IsAtRest H.IsSoundStore (H.seen host.old) }
    ensures stays { StaysReady H.IsIntact H.IsOpen H.IsSoundStore H.seen host.old host.new }
    ensures done { IfOk result (HasDone H.IsIntact H.IsOpen H.seen H.left asked reading host.old host.new) }
{
    match asked {
        Work::Order(order) => Ok(obey(rt.alloc(), routes, host, reading, order)?),
        Work::Serve(serving) => Ok(serve(rt, routes, host, serving)?),
    }
}

/// Does the work on a host at a reading of the clock, in seconds since 1970, and returns the
/// printed text. Connections use the machine's clock.
pub fn do_work<H: BackUp>(
    rt: &HostRuntime,
    host: &mut H,
    reading: u64,
    asked: Work,
) -> Result<Printed, Fault>
    requires { Clean H.IsIntact H.IsOpen host.old → IsAtRest H.IsSoundStore (H.seen host.old) }
    ensures stays { StaysReady H.IsIntact H.IsOpen H.IsSoundStore H.seen host.old host.new }
    ensures done { IfOk result (HasDone H.IsIntact H.IsOpen H.seen H.left asked reading host.old host.new) }
{
    let routes = Routes::new(rt.alloc())?;
    do_routed(rt, &routes, host, reading, asked)
}
