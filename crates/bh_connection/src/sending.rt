//! A reply whose bytes are read from the store while they are sent.

ghost use Rattle.std.specs.Prelude.{◌≡◌, ◌⊎◌, ◌++◌, ◌+◌, ◌<◌, ◌≤◌, ◌^◌, length, Some, true, false};
ghost use Rattle.bh_storage.specs.Calls.{Clean, LeavesNothingNew, IsAtRest};
ghost use Rattle.bh_storage.specs.Plans.{to_come};
ghost use Rattle.bh_connection.specs.Connections.{Sends};

use crate::served::{End, Served};
use bh_host::PlannedReply;
use bh_host::storage::Storage;
use bh_link::ends::Sink;
use bh_link::link::Link;
use bh_storage::error::Trouble;
use bh_storage::plan::Plan;
use bh_types::moment::Moment;
use std::alloc::Global;

/// The outcome of a reply that was sent in pieces.
fn sent_so(stamp: Moment, sent: u64, ended: End, trouble: Option<Trouble>) -> Served
    ensures stamp { result.stamp ≡ Some stamp }
    ensures sent { result.sent ≡ sent }
    ensures ended { result.ended ≡ ended }
{
    Served {
        stamp: Some(stamp),
        sent,
        ended,
        trouble,
    }
}

/// Whether the reply has more bytes than can be counted. No object is so long.
fn is_too_long(head: &[u8], plan: &Plan) -> bool
    ensures short { result ≡ false → length head.now + plan.now.left < 2 ^ 64 }
    ensures long { result ≡ true → 2 ^ 64 ≤ length head.now + plan.now.left }
{
    plan.left > u64::MAX - head.len() as u64
}

/// Writes a reply piece by piece, reading at most one block at a time, outside a transaction. If
/// one can't be read, the reply ends there.
pub fn send_planned<H: Storage, W: Sink>(
    alloc: Global,
    host: &mut H,
    writer: &mut Link<W>,
    reply: PlannedReply,
) -> Served
    requires rest { Clean H.IsIntact H.IsOpen host.old → IsAtRest H.IsSoundStore (H.seen host.old) }
    requires open { H.IsIntact host.old → H.IsOpen host.old }
    requires writes { writer.old.failed ≡ false }
    requires measured { Clean H.IsIntact H.IsOpen host.old
        → reply.plan.left ≡ length (to_come reply.plan (H.seen host.old).now) }
    ensures intact { H.IsIntact host.new → H.IsIntact host.old }
    ensures ready { Clean H.IsIntact H.IsOpen host.new → IsAtRest H.IsSoundStore (H.seen host.new) }
    ensures limits { (H.seen host.new).limits ≡ (H.seen host.old).limits }
    ensures survives { H.IsIntact host.new → LeavesNothingNew H.left host.old host.new }
    ensures same { Clean H.IsIntact H.IsOpen host.new → (H.seen host.new).now ≡ (H.seen host.old).now }
    ensures stamp { result.stamp ≡ Some reply.stamp }
    ensures opens { H.IsIntact host.new → (result.ended ≡ End.StoreFailed) ⊎ H.IsOpen host.new }
    ensures sends { Sends (H.IsIntact host.new) reply.stamp (reply.head.items ++ to_come reply.plan (H.seen host.old).now)
        (W.contents writer.old.inner) (W.contents writer.new.inner) (W.transfers writer.old.inner) (W.transfers writer.new.inner)
        writer.new.failed result.sent result.ended }
{
    let stamp = reply.stamp;
    let mut piece = reply.head;
    let mut left = reply.plan;
    if is_too_long(piece.as_slice(), &left) {
        return sent_so(stamp, 0, End::StoreFailed, Some(Trouble::Store));
    }
    let mut sent: u64 = 0;
    'pieces: loop {
        let bytes = piece.as_slice();
        let count = writer.send(bytes);
        sent += count as u64;
        if count < bytes.len() {
            return sent_so(stamp, sent, End::WriteFailed, None);
        }
        if left.left == 0 {
            return sent_so(stamp, sent, End::Whole, None);
        }
        match host.next_piece(alloc, &mut left) {
            Ok(Some(next)) => piece = next,
            Ok(None) => return sent_so(stamp, sent, End::Whole, None),
            Err(trouble) => {
                host.take_back();
                return sent_so(stamp, sent, End::StoreFailed, Some(trouble));
            }
        }
    }
}
