ghost use Rattle.std.specs.Prelude.{◌≡◌, ◌<◌, ◌++◌, ◌∷◌, [], false, Some, IfOk, IfErr, OnOk, MatchOption};
ghost use Rattle.bh_event.specs.Events.{arrival};
ghost use Rattle.bh_host.specs.Replies.{reply_bytes};
ghost use Rattle.bh_storage.specs.Calls.{Clean, IsAtRest};
ghost use Rattle.bh_script.specs.Lines.{lines, bad_line_from, bad_line_of};
ghost use Rattle.bh_script.specs.Answers.{Writes, WritesReply, WritesLines, bad_line_text, is_write};

use crate::error::ScriptError;
use crate::input::BadLine;
use bh_event::event::Event;
use bh_event::flaw::flaw_of;
use bh_event::line::read_line;
use bh_host::storage::Storage;
use bh_host::{Reply, apply};
use bh_link::ends::Sink;
use bh_link::link::Link;
use bh_operation::routes::Routes;
use memchr::memchr;
use std::alloc::Global;

/// Applies the events of lines, up to the first invalid line, to a host whose store doesn't fail.
/// Each reply and a line feed are written before the next line is read. For an invalid line,
/// `bad line` and its number are written. Returns that line, if there is one.
///
/// Once its reply is written, nothing of a line, its event and its reply is held in memory.
pub(crate) fn answer_lines<H: Storage, W: Sink>(
    alloc: Global,
    routes: &Routes,
    storage: &mut H,
    bytes: &[u8],
    writer: &mut Link<W>,
) -> Result<Option<BadLine>, ScriptError>
    requires clean { (h : H) → Clean H.IsIntact H.IsOpen h }
    requires rest { IsAtRest H.IsSoundStore (H.seen storage.old) }
    requires going { writer.old.failed ≡ false }
    ensures answers { WritesLines 1 (lines bytes.now) (H.seen storage.old).now (H.seen storage.new).now
        result (W.contents writer.old.inner) (W.contents writer.new.inner) }
    ensures bad_line { IfOk result (λ bad_line. bad_line ≡ bad_line_of bytes.now) }
    ensures going { OnOk result (writer.new.failed ≡ false) }
    ensures failed { IfErr result (λ e. writer.new.failed ≡ is_write e) }
{
    let mut next = Some(bytes);
    let mut number = 1usize;
    while let Some(rest) = next {
        let (line, later) = cut_line(rest);
        if let Some(bad_line) = answer_line(alloc, routes, storage, number, line, writer)? {
            return Ok(Some(bad_line));
        }
        next = later;
        number = number.saturating_add(1);
    }
    Ok(None)
}

/// The first line of some bytes, and the bytes after its line feed, if it has one.
fn cut_line(bytes: &[u8]) -> (&[u8], Option<&[u8]>)
    ensures { MatchOption result.1 (lines bytes.now ≡ result.0.now ∷ [])
        (λ later. lines bytes.now ≡ result.0.now ∷ lines later.now) }
{
    match memchr(b'\n', bytes) {
        Some(at) => (&bytes[..at], Some(&bytes[at + 1..])),
        None => (bytes, None),
    }
}

/// Answers one line. An empty line has no answer.
fn answer_line<H: Storage, W: Sink>(
    alloc: Global,
    routes: &Routes,
    storage: &mut H,
    number: usize,
    line: &[u8],
    writer: &mut Link<W>,
) -> Result<Option<BadLine>, ScriptError>
    requires clean { (h : H) → Clean H.IsIntact H.IsOpen h }
    requires rest { IsAtRest H.IsSoundStore (H.seen storage.old) }
    requires going { writer.old.failed ≡ false }
    ensures rest { IsAtRest H.IsSoundStore (H.seen storage.new) }
    ensures answers { WritesLines number (line.now ∷ []) (H.seen storage.old).now (H.seen storage.new).now
        result (W.contents writer.old.inner) (W.contents writer.new.inner) }
    ensures bad_line { IfOk result (λ bad_line. bad_line ≡ bad_line_from number (line.now ∷ [])) }
    ensures going { OnOk result (writer.new.failed ≡ false) }
    ensures failed { IfErr result (λ e. writer.new.failed ≡ is_write e) }
{
    if line.is_empty() {
        return Ok(None);
    }
    match read_line(alloc, line)? {
        Some(event) => {
            answer_event(alloc, routes, storage, &event, writer)?;
            Ok(None)
        }
        None => {
            let flaw = flaw_of(alloc, line)?;
            send_bad_line(alloc, number, writer)?;
            Ok(Some(BadLine { number, flaw }))
        }
    }
}

/// Applies an event, and writes its reply and a line feed.
fn answer_event<H: Storage, W: Sink>(
    alloc: Global,
    routes: &Routes,
    storage: &mut H,
    event: &Event,
    writer: &mut Link<W>,
) -> Result<(), ScriptError>
    requires clean { (h : H) → Clean H.IsIntact H.IsOpen h }
    requires rest { IsAtRest H.IsSoundStore (H.seen storage.old) }
    requires going { writer.old.failed ≡ false }
    ensures rest { IsAtRest H.IsSoundStore (H.seen storage.new) }
    ensures answers { WritesReply (arrival event.now) (H.seen storage.old).now (H.seen storage.new).now
        result (W.contents writer.old.inner) (W.contents writer.new.inner) }
    ensures going { OnOk result (writer.new.failed ≡ false) }
    ensures failed { IfErr result (λ e. writer.new.failed ≡ is_write e) }
{
    let told = apply(alloc, routes, storage, event);
    send_reply(&told.reply, writer)
}

fn send_reply<W: Sink>(reply: &Reply, writer: &mut Link<W>) -> Result<(), ScriptError>
    requires { writer.old.failed ≡ false }
    ensures writes { Writes (reply_bytes reply.now ++ 10 ∷ []) result (W.contents writer.old.inner) (W.contents writer.new.inner) }
    ensures going { OnOk result (writer.new.failed ≡ false) }
    ensures failed { IfErr result (λ e. writer.new.failed ≡ is_write e) }
{
    send(reply.bytes(), writer)?;
    send(b"\n", writer)
}

fn send_bad_line<W: Sink>(
    alloc: Global,
    number: usize,
    writer: &mut Link<W>,
) -> Result<(), ScriptError>
    requires { writer.old.failed ≡ false }
    ensures writes { Writes (bad_line_text number) result (W.contents writer.old.inner) (W.contents writer.new.inner) }
    ensures going { OnOk result (writer.new.failed ≡ false) }
    ensures failed { IfErr result (λ e. writer.new.failed ≡ is_write e) }
{
    let line = format!(in alloc; "bad line {number}\n")?;
    send(line.as_bytes(), writer)
}

fn send<W: Sink>(bytes: &[u8], writer: &mut Link<W>) -> Result<(), ScriptError>
    requires { writer.old.failed ≡ false }
    ensures writes { Writes bytes.now result (W.contents writer.old.inner) (W.contents writer.new.inner) }
    ensures going { OnOk result (writer.new.failed ≡ false) }
    ensures failed { IfErr result (λ e. writer.new.failed ≡ is_write e) }
{
    if writer.send(bytes) < bytes.len() {
        return Err(ScriptError::WriteFailed);
    }
    Ok(())
}
