ghost use Rattle.std.specs.Prelude.{◌≡◌, ◌<◌, ◌≤◌, ℕ, List, [], take, false, None, Option, Ok, IfSome};
ghost use Rattle.std.specs.Io.KnownBytes.{Appends};
ghost use Rattle.bh_http.specs.Arriving.{Finds};
ghost use Rattle.bh_http.specs.Reading.{ReadsHead};
ghost use Rattle.bh_http.specs.Transfers.{Transfer, Gives, Takes};
ghost use Rattle.bh_http.specs.Views.{announced_view};
ghost use Rattle.bh_link.specs.Taking.{Opens, announced_size};
ghost use Rattle.bh_model.specs.Runs.{last_reading};
ghost use Rattle.bh_storage.specs.Calls.{Clean, IsAtRest};
ghost use Rattle.bh_tables.specs.Typed.{Tables};
ghost use Rattle.bh_host.specs.Answers.{IsSmallReply};
ghost use Rattle.bh_host.specs.Replies.{reply_bytes, reply_trouble, clock_text};
ghost use Rattle.bh_host.specs.declared.reply.Caller.TheVariants.{Request};
ghost use Rattle.bh_host.specs.Resting.{StaysAtRest};
ghost use Rattle.bh_connection.specs.Connections.{ends_of, begun_by, EndsAs, CameTo, IsTakenBack};

use crate::sending::send_planned;
use crate::served::{End, Served};
use bh_host::storage::Storage;
use bh_host::{Caller, Delivery, Replied, Reply, Told, receive, refuse_unread};
use bh_http::request::{Head, MAX_FIELDS};
use bh_link::ends::{Sink, Source};
use bh_link::link::Link;
use bh_link::request::{Opening, TakeError, take_head};
use bh_operation::routes::Routes;
use bh_storage::error::Trouble;
use bh_types::moment::LAST_READING;
use httparse::spans::{EMPTY_HEADER_SPAN, HeaderSpan};
use std::alloc::Global;

/// Serves one connection: reads its request, applies it while its body is received, and writes the
/// response.
///
/// A reading above 250,000,000,000 seconds is answered ClockOutOfRange, and nothing is read.
/// Otherwise the head is read a byte at a time, and no byte after the body of an accepted request.
/// The effect and the answer are those of [`bh_host::apply`] on all the bytes that the reader would
/// return.
///
/// An object's bytes are read and sent in pieces, after its transaction was committed. If one can't
/// be read, the response ends there, and a fault may have shut the store. Acknowledged changes
/// remain.
pub fn serve_connection<H: Storage, R: Source, W: Sink>(
    alloc: Global,
    routes: &Routes,
    host: &mut H,
    reading: u64,
    reader: &mut Link<R>,
    writer: &mut Link<W>,
) -> Served
    requires rest { Clean H.IsIntact H.IsOpen host.old → IsAtRest H.IsSoundStore (H.seen host.old) }
    requires reads { reader.old.failed ≡ false }
    requires writes { writer.old.failed ≡ false }
    ensures stays { StaysAtRest H.IsIntact H.IsOpen H.IsSoundStore H.seen H.left host.old host.new }
    ensures came_to { CameTo H.IsIntact H.IsOpen H.seen H.left
        (ends_of R.remaining R.transfers W.contents W.transfers reading reader.old writer.old)
        (ends_of R.remaining R.transfers W.contents W.transfers reading reader.new writer.new) result host.old host.new }
    ensures untouched { result.ended ≡ End.ReadFailed → IsTakenBack H.IsIntact H.IsOpen H.seen H.left host.old host.new }
    ensures clock { last_reading < reading
        → (result.stamp ≡ None) × (host.new ≡ host.old) × (reader.new ≡ reader.old)
        × Appends (W.contents writer.old.inner) (W.contents writer.new.inner) (take result.sent (clock_text Request))
        × EndsAs result.ended result.sent (clock_text Request) writer.new.failed }
    ensures acknowledged { IfSome result.stamp (λ _. Clean H.IsIntact H.IsOpen host.new
        → (x : Tables) → H.left host.new x → x ≡ (H.seen host.new).now) }
{
    if reading > LAST_READING {
        let told = left_out(Reply::ClockOutOfRange(Caller::Request));
        return answer(writer, &told);
    }
    let mut headers = [EMPTY_HEADER_SPAN; MAX_FIELDS];
    match take_head(alloc, &host.limits(), &mut headers, reader) {
        Ok(opening) => serve_opened(
            alloc, routes, host, reading, &opening, &headers, reader, writer,
        ),
        Err(TakeError::OutOfMemory) => {
            let told = left_out(Reply::Wanting(Caller::Request, Trouble::Memory));
            answer(writer, &told)
        }
        Err(TakeError::ReadFailed) => broken_off(),
    }
}

/// Applies a request whose head was read, while its body is read from the reader, and writes the
/// response.
fn serve_headed<H: Storage, R: Source, W: Sink>(
    alloc: Global,
    routes: &Routes,
    host: &mut H,
    reading: u64,
    head: &Head,
    reader: &mut Link<R>,
    writer: &mut Link<W>,
) -> Served
    requires in_range { reading ≤ last_reading }
    requires rest { Clean H.IsIntact H.IsOpen host.old → IsAtRest H.IsSoundStore (H.seen host.old) }
    requires reads { reader.old.failed ≡ false }
    requires writes { writer.old.failed ≡ false }
    ensures stays { StaysAtRest H.IsIntact H.IsOpen H.IsSoundStore H.seen H.left host.old host.new }
    ensures came_to { (start : Option (List ℕ)) (begun : Option (List Transfer)) (bytes : List ℕ)
        → Opens (H.seen host.old).limits start (R.remaining reader.old.inner) bytes head.now.body_size
        → ReadsHead (H.seen host.old).limits bytes (Ok (announced_view head.now, []))
        → Gives begun (R.transfers reader.old.inner) bytes false
        → CameTo H.IsIntact H.IsOpen H.seen H.left
        (begun_by start begun (ends_of R.remaining R.transfers W.contents W.transfers reading reader.old writer.old))
        (ends_of R.remaining R.transfers W.contents W.transfers reading reader.new writer.new) result host.old host.new }
{
    reader.announce(head.body_size);
    match receive(
        alloc,
        routes,
        host,
        reading,
        head,
        reader,
        Delivery::InPieces,
    ) {
        Some(Replied::Told(told)) => answer(writer, &told),
        Some(Replied::Planned(reply)) => send_planned(alloc, host, writer, reply),
        None => broken_off(),
    }
}

/// Applies the request whose head was read, and writes the response. Bytes that are not a head, or
/// whose head is refused, are answered as they are.
fn serve_opened<H: Storage, R: Source, W: Sink>(
    alloc: Global,
    routes: &Routes,
    host: &mut H,
    reading: u64,
    opening: &Opening,
    headers: &[HeaderSpan; MAX_FIELDS],
    reader: &mut Link<R>,
    writer: &mut Link<W>,
) -> Served
    requires in_range { reading ≤ last_reading }
    requires rest { Clean H.IsIntact H.IsOpen host.old → IsAtRest H.IsSoundStore (H.seen host.old) }
    requires finds { Finds (H.seen host.old).limits opening.now.bytes.items headers.now opening.now.head }
    requires reads { reader.old.failed ≡ false }
    requires writes { writer.old.failed ≡ false }
    ensures stays { StaysAtRest H.IsIntact H.IsOpen H.IsSoundStore H.seen H.left host.old host.new }
    ensures came_to { (start : Option (List ℕ)) (begun : Option (List Transfer))
        → Opens (H.seen host.old).limits start (R.remaining reader.old.inner) opening.now.bytes.items (announced_size opening.now.head)
        → Gives begun (R.transfers reader.old.inner) opening.now.bytes.items false
        → CameTo H.IsIntact H.IsOpen H.seen H.left
        (begun_by start begun (ends_of R.remaining R.transfers W.contents W.transfers reading reader.old writer.old))
        (ends_of R.remaining R.transfers W.contents W.transfers reading reader.new writer.new) result host.old host.new }
{
    match opening.head {
        Ok(found) => {
            let head = found.of(opening.bytes.as_slice(), headers);
            serve_headed(alloc, routes, host, reading, &head, reader, writer)
        }
        Err(refusal) => {
            let told = refuse_unread(alloc, routes, host, reading, refusal);
            answer(writer, &told)
        }
    }
}

/// The result for a connection whose reader failed.
pub(crate) fn broken_off() -> Served
    ensures stamp { result.stamp ≡ None }
    ensures sent { result.sent ≡ 0 }
    ensures ended { result.ended ≡ End.ReadFailed }
{
    Served {
        stamp: None,
        sent: 0,
        ended: End::ReadFailed,
        trouble: None,
    }
}

/// The reply if nothing was applied.
pub(crate) fn left_out(reply: Reply) -> Told
    ensures stamp { result.stamp ≡ None }
    ensures reply { result.reply ≡ reply }
{
    Told { stamp: None, reply }
}

/// Writes a reply. It has no object that should be sent in pieces.
pub(crate) fn answer<W: Sink>(writer: &mut Link<W>, told: &Told) -> Served
    requires writes { writer.old.failed ≡ false }
    requires small { IsSmallReply told.now.reply }
    ensures stamp { result.stamp ≡ told.now.stamp }
    ensures out { Appends (W.contents writer.old.inner) (W.contents writer.new.inner) (take result.sent (reply_bytes told.now.reply)) }
    ensures took { Takes (W.transfers writer.old.inner) (W.transfers writer.new.inner)
        (take result.sent (reply_bytes told.now.reply)) writer.new.failed }
    ensures ended { EndsAs result.ended result.sent (reply_bytes told.now.reply) writer.new.failed }
    ensures trouble { result.trouble ≡ reply_trouble told.now.reply }
{
    let bytes = told.reply.bytes();
    let sent = writer.send(bytes);
    let ended = if sent < bytes.len() {
        End::WriteFailed
    } else {
        End::Whole
    };
    Served {
        stamp: told.stamp,
        sent: sent as u64,
        ended,
        trouble: told.reply.trouble(),
    }
}
