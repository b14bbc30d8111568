//! Reads one line from a reader.
ghost use Rattle.std.specs.Prelude.{◌≡◌, ◌==◌, ◌<◌, ◌++◌, ◌∷◌, ℕ, List, [], false, length, position, vec_items, IfOk, IfErr, IfSome, OnOk};
ghost use Rattle.std.specs.Option.{option_map};
ghost use Rattle.bh_link.specs.Taking.{is_fault};
ghost use Rattle.bh_http.specs.Transfers.{Gives};
ghost use Rattle.bh_link.specs.Lines as spec;
ghost use Rattle.bh_link.specs.Lines.{TookLine, TookPart};

use crate::ends::Source;
use crate::link::Link;
use crate::request::TakeError;
use std::alloc::{AllocError, Global};

/// The maximum bytes of a line, with its line feed, as for a request's head.
const MOST: usize = 16384;

/// Reads the bytes up to the first line feed, one by one, and returns those before it. `None` if
/// the reader ends first, or if none of the first 16,384 bytes is a line feed. No byte after the
/// line feed is read.
pub fn take_line<R: Source>(
    alloc: Global,
    reader: &mut Link<R>,
) -> Result<Option<Vec<u8>>, TakeError>
    requires { reader.old.failed ≡ false }
    ensures took { IfOk result (λ line. (taken : List ℕ)
        × TookLine (R.remaining reader.old.inner) (R.remaining reader.new.inner) taken (option_map vec_items line)
        × Gives (R.transfers reader.old.inner) (R.transfers reader.new.inner) taken false) }
    ensures going { OnOk result (reader.new.failed ≡ false) }
    ensures within { IfErr result (λ _. (taken : List ℕ)
        × TookPart (R.remaining reader.old.inner) (R.remaining reader.new.inner) taken
        × Gives (R.transfers reader.old.inner) (R.transfers reader.new.inner) taken reader.new.failed) }
    ensures failed { IfErr result (λ e. reader.new.failed ≡ is_fault e) }
{
    let mut line = Vec::new(alloc);
    for count in 0..MOST {
        let Some(byte) = reader.next_byte()? else {
            return Ok(None);
        };
        if byte == b'\n' {
            return Ok(Some(line));
        }
        push(&mut line, byte)?;
    }
    Ok(None)
}

/// The bytes before the first line feed, or all of them.
pub fn first_line(bytes: &[u8]) -> &[u8]
    ensures { result.now ≡ spec.first_line bytes.now }
{
    match feed_in(bytes) {
        Some(end) => &bytes[..end],
        None => bytes,
    }
}

/// The place of the first line feed.
fn feed_in(bytes: &[u8]) -> Option<usize>
    ensures place { result ≡ position (λ b. b == 10) bytes.now }
    ensures within { IfSome result (λ at. at < length bytes.now) }
{
    bytes.iter().position(|byte| *byte == b'\n')
}

fn push(line: &mut Vec<u8>, byte: u8) -> Result<(), AllocError>
    ensures { OnOk result (line.new.items ≡ line.old.items ++ byte ∷ []) }
{
    line.push(byte)?;
    Ok(())
}
