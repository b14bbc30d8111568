ghost use Rattle.std.specs.Prelude.{◌≡◌, ◌≤◌, ◌<◌, ◌+◌, ◌↔◌, ℕ, List, length, take, false, option_map, IfOk, IfErr, IfSome, IsTrue, OnOk};
ghost use Rattle.std.specs.Io.KnownBytes.{Appends};
ghost use Rattle.bh_event.specs.Events.{message_of};
ghost use Rattle.bh_storage.specs.Calls.{Clean, IsAtRest};
ghost use Rattle.bh_tables.specs.Typed.{Tables};
ghost use Rattle.bh_event.specs.Orders.{instruction_of};
ghost use Rattle.bh_http.specs.Transfers.{Gives, Takes};
ghost use Rattle.bh_host.specs.Resting.{StaysAtRest};
ghost use Rattle.bh_connection.specs.Connections.{ends_of, EndsAs};
ghost use Rattle.bh_link.specs.Lines.{TookPart};
ghost use Rattle.bh_link.specs.Taking.{is_fault};
ghost use Rattle.bh_connection.specs.Operators.{line_text, TookOrder, WasOrdered};
ghost use Rattle.bh_connection.specs.Operators as spec;

use crate::backup::{BackUp, backup_reply};
use crate::served::{End, Served, Visited};
use bh_event::operator::order_of_line;
use bh_event::order::{HostOrder, Order};
use bh_host::{Caller, Reply, apply};
use bh_link::ends::{Sink, Source};
use bh_link::line::take_line;
use bh_link::link::Link;
use bh_link::request::TakeError;
use bh_operation::routes::Routes;
use bh_storage::error::Trouble;
use bh_types::moment::Moment;
use std::alloc::Global;

/// The reply to a line without an order.
const BAD_LINE: &[u8] = b"bad line";

/// The reply to a stop.
const STOP: &[u8] = b"stop";

/// Reads a line, as [`take_line`] does, and returns its order, as [`order_of_line`] does; `None` if
/// no line comes.
fn take_order<R: Source>(
    alloc: Global,
    secret: Option<&[u8]>,
    reader: &mut Link<R>,
) -> Result<Option<Order>, TakeError>
    requires { reader.old.failed ≡ false }
    ensures took { IfOk result (λ order. (taken : List ℕ)
        × TookOrder (option_map (λ s. s.now) secret.entry) (R.remaining reader.old.inner) (R.remaining reader.new.inner)
        taken (option_map instruction_of order)
        × Gives (R.transfers reader.old.inner) (R.transfers reader.new.inner) taken false) }
    ensures going { OnOk result (reader.new.failed ≡ false) }
    ensures within { IfErr result (λ _. (taken : List ℕ)
        × TookPart (R.remaining reader.old.inner) (R.remaining reader.new.inner) taken
        × Gives (R.transfers reader.old.inner) (R.transfers reader.new.inner) taken reader.new.failed) }
    ensures failed { IfErr result (λ e. reader.new.failed ≡ is_fault e) }
{
    match take_line(alloc, reader)? {
        Some(line) => Ok(order_of_line(alloc, secret, line.as_slice())?),
        None => Ok(None),
    }
}

/// Serves one connection of an operator: reads its line, carries out its order, and writes the
/// reply and a line feed.
///
/// The line is read a byte at a time, and no byte after its line feed. Its order is parsed by
/// [`order_of_line`], and must begin with the secret if there is one. A line without an order
/// changes nothing and is answered `bad line`. So is what a server is asked about itself: whoever
/// accepts connections answers that before. An order on the host is applied at the reading and
/// answered as by [`apply`]. A backup is answered `backup` once the copy is complete and synced, or
/// `fault`. A stop is answered `stop` and changes nothing: the caller ends serving.
pub fn serve_line<H: BackUp, R: Source, W: Sink>(
    alloc: Global,
    routes: &Routes,
    host: &mut H,
    secret: Option<&[u8]>,
    reading: u64,
    reader: &mut Link<R>,
    writer: &mut Link<W>,
) -> Visited
    requires rest { Clean H.IsIntact H.IsOpen host.old → IsAtRest H.IsSoundStore (H.seen host.old) }
    requires reads { reader.old.failed ≡ false }
    requires writes { writer.old.failed ≡ false }
    ensures stays { StaysAtRest H.IsIntact H.IsOpen H.IsSoundStore H.seen H.left host.old host.new }
    ensures ordered { WasOrdered H.IsIntact H.IsOpen H.seen H.left H.shows (option_map (λ s. s.now) secret.entry)
        (ends_of R.remaining R.transfers W.contents W.transfers reading reader.old writer.old)
        (ends_of R.remaining R.transfers W.contents W.transfers reading reader.new writer.new) result.served result.stops
        result.sweeps host.old host.new }
    ensures untouched { result.served.ended ≡ End.ReadFailed → host.new ≡ host.old }
    ensures acknowledged { IfSome result.served.stamp (λ _. H.IsIntact host.new
        → (x : Tables) → H.left host.new x → x ≡ (H.seen host.new).now) }
{
    match take_order(alloc, secret, reader) {
        Ok(Some(Order::Host(order))) => {
            let sweeps = is_sweep(&order);
            let event = order.at(reading);
            let told = apply(alloc, routes, host, &event);
            let reply = &told.reply;
            Visited {
                served: answer_line(writer, told.stamp, reply.bytes(), reply.trouble()),
                stops: false,
                sweeps,
            }
        }
        Ok(Some(Order::Backup { to })) => {
            let reply = backup_reply(host, to.as_str());
            Visited::going_on(answer_line(writer, None, reply, None))
        }
        Ok(Some(Order::Stop)) => Visited {
            served: answer_line(writer, None, STOP, None),
            stops: true,
            sweeps: false,
        },
        Ok(Some(Order::Server(_))) => {
            Visited::going_on(answer_line(writer, None, BAD_LINE, None))
        }
        Ok(None) => Visited::going_on(answer_line(writer, None, BAD_LINE, None)),
        Err(TakeError::OutOfMemory) => {
            let reply = Reply::Wanting(Caller::Operator, Trouble::Memory);
            Visited::going_on(answer_line(writer, None, reply.bytes(), reply.trouble()))
        }
        Err(TakeError::ReadFailed) => Visited::going_on(Served {
            stamp: None,
            sent: 0,
            ended: End::ReadFailed,
            trouble: None,
        }),
    }
}

/// Whether an order is to sweep.
pub fn is_sweep(order: &HostOrder) -> bool
    ensures { result ≡ spec.is_sweep (message_of order.now) }
{
    matches!(order, HostOrder::Sweep { .. })
}

/// Writes a reply and a line feed.
fn answer_line<W: Sink>(
    writer: &mut Link<W>,
    stamp: Option<Moment>,
    reply: &[u8],
    trouble: Option<Trouble>,
) -> Served
    requires { writer.old.failed ≡ false }
    ensures stamp { result.stamp ≡ stamp }
    ensures out { Appends (W.contents writer.old.inner) (W.contents writer.new.inner) (take result.sent (line_text reply.now)) }
    ensures took { Takes (W.transfers writer.old.inner) (W.transfers writer.new.inner)
        (take result.sent (line_text reply.now)) writer.new.failed }
    ensures ended { EndsAs result.ended result.sent (line_text reply.now) writer.new.failed }
    ensures trouble { result.trouble ≡ trouble }
{
    let sent = send_line(writer, reply);
    let ended = if writer.failed() {
        End::WriteFailed
    } else {
        End::Whole
    };
    Served {
        stamp,
        sent,
        ended,
        trouble,
    }
}

/// Writes a reply and a line feed. Returns how many bytes were sent before the sink failed or took
/// none.
fn send_line<W: Sink>(writer: &mut Link<W>, reply: &[u8]) -> u64
    requires { writer.old.failed ≡ false }
    ensures within { result ≤ length reply.now + 1 }
    ensures out { Appends (W.contents writer.old.inner) (W.contents writer.new.inner) (take result (line_text reply.now)) }
    ensures took { Takes (W.transfers writer.old.inner) (W.transfers writer.new.inner)
        (take result (line_text reply.now)) writer.new.failed }
    ensures failed { IsTrue writer.new.failed ↔ (result < length reply.now + 1) }
{
    let sent = writer.send(reply);
    if sent < reply.len() {
        return sent as u64;
    }
    sent as u64 + writer.send(b"\n") as u64
}
