//! The blocks of a host with any digest function after puts, deletes and sweeps.

use crate::digest_runs::answers;
use crate::digesters::{Constant, Parity};
use crate::series::events_in;
use bh_blocks::digester::{FastDigester, Sha256Digester};
use bh_schema::host::Digester;
use example_calls::answer::{Answer, Fault};
use example_calls::words::number;
use sqlite::{Alter, Connection};
use std::alloc::{AllocError, Global};

const START: &str = r#"{"at":0,"op":"tenant-add","tenant":"green","quota":1000000}
{"at":0,"op":"key-add","tenant":"green","name":"k1","secret":"greensecret"}
{"at":0,"http":"PUT /plans HTTP/1.1\nhost: h\nx-access-key: green$k1\nx-secret-key: greensecret\ncontent-length: 0\n\n"}
"#;

const BLOCKS: &str =
    "SELECT ord || ' ' || CAST(bytes AS TEXT) || ',' FROM blocks ORDER BY ord, bytes";

/// `DIGEST: STEP; STEP..`: the replies to sweeps and reports, then the blocks, each with its
/// ordinal. DIGEST is `constant`, `parity` (of the number of bytes), `sha256` or `fast`.
pub fn answer(alloc: Global, input: &str) -> Answer {
    let (digest, steps) = input.split_once(": ").ok_or(Fault::Form)?;
    let (text, _cached) = answer_keeping(alloc, digest, None, steps)?;
    Ok(text)
}

/// `COUNT DIGEST: STEP; STEP..`: the same on a host with a cache of COUNT blocks, with the bytes
/// that were read, and first the number of cached blocks at the end.
pub fn answer_cached(alloc: Global, input: &str) -> Answer {
    let (count, rest) = input.split_once(' ').ok_or(Fault::Form)?;
    let (digest, steps) = rest.split_once(": ").ok_or(Fault::Form)?;
    let (text, cached) = answer_keeping(alloc, digest, Some(number(count)?), steps)?;
    Ok(format!(in alloc; "{cached} kept {text}")?)
}

fn answer_keeping(
    alloc: Global,
    digest: &str,
    cache_blocks: Option<u64>,
    steps: &str,
) -> Result<(String, usize), Fault> {
    let script = script_of(alloc, steps)?;
    match digest {
        "constant" => shown(alloc, Constant, cache_blocks, script.as_str()),
        "parity" => shown(alloc, Parity, cache_blocks, script.as_str()),
        "sha256" => shown(alloc, Sha256Digester, cache_blocks, script.as_str()),
        "fast" => shown(alloc, FastDigester, cache_blocks, script.as_str()),
        _ => Err(Fault::Form),
    }
}

fn script_of(alloc: Global, steps: &str) -> Answer {
    let mut script = String::from_str(alloc, START)?;
    for step in steps.split("; ") {
        match step.split_once(' ') {
            Some(("store", bytes)) => push_store(alloc, &mut script, bytes)?,
            Some(("fill", count)) => push_numbers(alloc, &mut script, number(count)?)?,
            Some(("remove", limit)) => push_sweep(alloc, &mut script, limit)?,
            Some(("put", object)) => {
                let (key, bytes) = object.split_once(' ').ok_or(Fault::Form)?;
                push_request(alloc, &mut script, "PUT", key, bytes)?
            }
            Some(("get", key)) => push_request(alloc, &mut script, "GET", key, "")?,
            Some(("delete", key)) => push_request(alloc, &mut script, "DELETE", key, "")?,
            Some(("event", line)) => script.push_str(format!(in alloc; "{line}\n")?.as_str())?,
            _ => return Err(Fault::Form),
        }
    }
    Ok(script)
}

fn push_event(
    alloc: Global,
    script: &mut String,
    line: &str,
    body: &str,
) -> Result<(), AllocError> {
    let length = body.len();
    let request = format!(in alloc;
        "{{\"at\":0,\"http\":\"{line} HTTP/1.1\\nhost: h\\nx-access-key: green$k1\\nx-secret-key: greensecret\\ncontent-length: {length}\\n\\n{body}\"}}\n"
    )?;
    script.push_str(request.as_str())
}

/// `store BYTES`: puts and deletes an object of these bytes, so that no reference names its block.
fn push_store(alloc: Global, script: &mut String, bytes: &str) -> Result<(), AllocError> {
    push_event(alloc, script, "PUT /plans/x", bytes)?;
    push_event(alloc, script, "DELETE /plans/x", "")
}

/// `fill COUNT`: the same with an object of the numbers below COUNT, a block of four digits each.
fn push_numbers(alloc: Global, script: &mut String, count: u64) -> Result<(), AllocError> {
    let mut body = String::new(alloc);
    for number in 0..count {
        body.push_str(format!(in alloc; "{number:04}")?.as_str())?;
    }
    push_store(alloc, script, body.as_str())
}

/// `put KEY BYTES`, `get KEY` and `delete KEY`: puts, reads and deletes the object with this key.
fn push_request(
    alloc: Global,
    script: &mut String,
    method: &str,
    key: &str,
    body: &str,
) -> Result<(), AllocError> {
    let line = format!(in alloc; "{method} /plans/{key}")?;
    push_event(alloc, script, line.as_str(), body)
}

/// `remove LIMIT`: a sweep.
fn push_sweep(alloc: Global, script: &mut String, limit: &str) -> Result<(), AllocError> {
    let event = format!(in alloc; "{{\"at\":0,\"op\":\"sweep\",\"limit\":{limit}}}\n")?;
    script.push_str(event.as_str())
}

fn shown<D: Digester + Drop>(
    alloc: Global,
    digester: D,
    cache_blocks: Option<u64>,
    script: &str,
) -> Result<(String, usize), Fault> {
    let events = events_in(alloc, script.as_bytes())?;
    let kept = cache_blocks.unwrap_or(0);
    let Ok(Some(mut answered)) = answers(alloc, digester, kept, events.as_slice()) else {
        return Err(Fault::Memory);
    };
    let mut text = String::new(alloc);
    for told in answered.dones.iter() {
        push_told(alloc, &mut text, told.reply.bytes(), cache_blocks.is_some())?;
    }
    push_blocks(&mut text, &mut answered.connection)?;
    Ok((text, answered.cached))
}

/// The bytes that were read.
fn bytes_read(reply: &str) -> Option<&str> {
    let (_, rest) = reply.split_once("octet-stream")?;
    let (_, body) = rest.split_once("\r\n\r\n")?;
    Some(body)
}

/// The bytes that were read, if they are asked for, or the whole reply.
fn shown_of(reply: &str, tells_reads: bool) -> &str {
    if tells_reads {
        return bytes_read(reply).unwrap_or(reply);
    }
    reply
}

/// The reply to a sweep or a report, or the bytes that were read if they are asked for, in
/// brackets.
fn push_told(
    alloc: Global,
    text: &mut String,
    reply: &[u8],
    tells_reads: bool,
) -> Result<(), AllocError> {
    let told = String::from_utf8_lossy(alloc, reply)?;
    let shown = shown_of(told.as_str(), tells_reads);
    if shown.starts_with("HTTP/") || shown.starts_with("tenant") || shown.starts_with("key") {
        return Ok(());
    }
    text.push_str(format!(in alloc; "[{shown}] ")?.as_str())
}

fn push_blocks<S: Alter>(text: &mut String, connection: &mut Connection<S>) -> Result<(), Fault> {
    let Ok(rows) = connection.query_all(BLOCKS, &[]) else {
        return Err(Fault::Memory);
    };
    for row in rows.iter() {
        match row.get::<String>(0) {
            Ok(block) => text.push_str(block.as_str())?,
            Err(_) => return Err(Fault::Memory),
        }
    }
    Ok(())
}
