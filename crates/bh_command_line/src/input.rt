//! Subcommands that read standard input.

ghost use Rattle.std.specs.Prelude.{◌≡◌, IfOk};
ghost use Rattle.std.specs.String.{string_bytes};
ghost use Rattle.bh_command_line.specs.Input as spec;

use bh_blocks::digester::{FastDigester, Sha256Digester};
use bh_link::ends::Untold;
use bh_link::link::Link;
use bh_maintenance::fault::Fault;
use bh_maintenance::printed::Printed;
use bh_schema::host::Digester;
use bh_script::error::ScriptError;
use bh_script::input::{BadLine, read_all};
use bh_script::script::answer_script;
use bh_types::block_digest::BlockDigest;
use bh_types::limits::{Limits, Tuning};
use std::alloc::{AllocError, Global};
use std::io;
use std::io::{BufWriter, Write};

/// Why a script ended.
fn fault_of(error: ScriptError) -> Fault {
    match error {
        ScriptError::Trouble(_) => Fault::Memory,
        ScriptError::WriteFailed => Fault::Output,
    }
}

/// All bytes of standard input.
fn read_input(rt: &(impl Input + AllocGlobal)) -> Result<Vec<u8>, Fault> {
    match read_all(rt.alloc(), &mut rt.reader())? {
        Some(bytes) => Ok(bytes),
        None => Err(Fault::LongInput),
    }
}

/// Prints on standard error why a line is not an event, and returns the status: 1 for such a line,
/// otherwise 0.
fn tell_bad_line(rt: &impl Eprint, bad_line: Option<BadLine>) -> io::Result<u8> {
    let Some(BadLine { number, flaw }) = bad_line else {
        return Ok(0);
    };
    eprintln!(rt; "line {number}: {}", flaw.text())?;
    Ok(1)
}

/// Writes the answers to a script on standard output. If it fails, the buffer's rest is written
/// when that is dropped.
fn answer_bytes<D: Digester + Drop>(
    rt: &(impl Print + AllocGlobal),
    bytes: &[u8],
    digester: D,
    digest: BlockDigest,
    limits: Limits,
    tuning: Tuning,
) -> Result<Option<BadLine>, Fault> {
    let output = BufWriter::new(rt.alloc(), io::writer(rt))?;
    let mut writer = Link::new(Untold(output));
    let answered = answer_script(
        rt.alloc(),
        bytes,
        digester,
        digest,
        limits,
        tuning,
        &mut writer,
    );
    match answered {
        Ok(bad_line) => {
            writer.into_inner().0.flush()?;
            Ok(bad_line)
        }
        Err(error) => Err(fault_of(error)),
    }
}

/// Answers the script on standard input, on standard output. It leaves no text to print.
pub fn answer_input(
    rt: &(impl Input + Print + Eprint + AllocGlobal),
    digest: BlockDigest,
    limits: Limits,
    tuning: Tuning,
) -> Result<Printed, Fault> {
    let bytes = read_input(rt)?;
    let bytes = bytes.as_slice();
    let bad_line = match digest {
        BlockDigest::Sha256 => answer_bytes(rt, bytes, Sha256Digester, digest, limits, tuning)?,
        BlockDigest::Fast => answer_bytes(rt, bytes, FastDigester, digest, limits, tuning)?,
    };
    let status = tell_bad_line(rt, bad_line)?;
    Ok(Printed {
        text: Vec::new(rt.alloc()),
        status,
    })
}

/// The first line of some bytes, without its line feed.
fn first_line(alloc: Global, bytes: &[u8]) -> Result<Vec<u8>, AllocError>
    ensures { IfOk result (λ line. line.items ≡ spec.first_line bytes.now) }
{
    bytes
        .iter()
        .copied()
        .take_while(|b| *b != b'\n')
        .collect(alloc)
}

/// The secret in some bytes: their first line. If that isn't UTF-8 (RFC 3629), the secret is empty,
/// which is invalid.
pub(crate) fn secret_in(alloc: Global, bytes: &[u8]) -> Result<String, AllocError>
    ensures { IfOk result (λ secret. spec.IsSecretIn bytes.now (string_bytes secret)) }
{
    match String::from_utf8(first_line(alloc, bytes)?) {
        Ok(secret) => Ok(secret),
        Err(_) => Ok(String::new(alloc)),
    }
}

/// What a typed word stands for.
#[derive(Clone, Copy)]
enum Source {
    /// Itself.
    Word,
    /// The first line of standard input.
    Input,
}

fn source_of(typed: &str) -> Source
    ensures { result ≡ spec.source_of typed.now }
{
    if typed == "-" {
        Source::Input
    } else {
        Source::Word
    }
}

/// A text that was typed, or for `-` the first line of standard input.
pub fn typed_text(rt: &(impl Input + AllocGlobal), typed: String) -> Result<String, Fault>
    ensures { IfOk result (λ text. spec.IsTyped (string_bytes typed) (string_bytes text)) }
{
    match source_of(typed.as_str()) {
        Source::Word => Ok(typed),
        Source::Input => {
            let bytes = read_input(rt)?;
            Ok(secret_in(rt.alloc(), bytes.as_slice())?)
        }
    }
}
