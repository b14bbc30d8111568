//! The escapes of tables: `\n`, `\r`, `\t` and `\0` as in Rust, `\s` for a space and `\\` for a
//! backslash. `\xHH` is a byte, and `\*62(TEXT\)` a text 62 times.

use crate::answer::Fault;
use std::alloc::Global;

/// A repeated text: its place among the bytes, and how often it is repeated.
#[derive(Clone, Copy)]
struct Repeated {
    from: usize,
    count: usize,
}

/// The bytes of a text with escapes.
pub fn unescaped(alloc: Global, text: &str) -> Result<Vec<u8>, Fault> {
    let mut bytes = Vec::new(alloc);
    let mut repeated = Repeated { from: 0, count: 1 };
    let mut is_plain = true;
    for piece in text.split('\\') {
        if is_plain {
            bytes.extend_from_slice(piece.as_bytes())?;
            is_plain = false;
        } else if piece.is_empty() {
            bytes.extend_from_slice(b"\\")?;
            is_plain = true;
        } else {
            repeated = after_backslash(alloc, &mut bytes, repeated, piece)?;
        }
    }
    Ok(bytes)
}

/// Appends the bytes of a piece after a backslash.
fn after_backslash(
    alloc: Global,
    bytes: &mut Vec<u8>,
    repeated: Repeated,
    piece: &str,
) -> Result<Repeated, Fault> {
    match piece.as_bytes() {
        [b'*', ..] => return begin(bytes, piece),
        [b')', rest @ ..] => {
            repeat(alloc, bytes, repeated)?;
            bytes.extend_from_slice(rest)?;
        }
        [b'x', high, low, rest @ ..] => append(bytes, byte_of(*high, *low)?, rest)?,
        [letter, rest @ ..] => append(bytes, control(*letter)?, rest)?,
        [] => return Err(Fault::Form),
    }
    Ok(repeated)
}

fn append(bytes: &mut Vec<u8>, byte: u8, rest: &[u8]) -> Result<(), Fault> {
    bytes.extend_from_slice(&[byte])?;
    bytes.extend_from_slice(rest)?;
    Ok(())
}

fn control(letter: u8) -> Result<u8, Fault> {
    match letter {
        b'n' => Ok(b'\n'),
        b'r' => Ok(b'\r'),
        b't' => Ok(b'\t'),
        b'0' => Ok(b'\0'),
        b's' => Ok(b' '),
        _ => Err(Fault::Form),
    }
}

fn byte_of(high: u8, low: u8) -> Result<u8, Fault> {
    Ok(digit(high)?.wrapping_mul(16).wrapping_add(digit(low)?))
}

fn digit(letter: u8) -> Result<u8, Fault> {
    match letter {
        b'0'..=b'9' => Ok(letter - b'0'),
        b'a'..=b'f' => Ok(letter - b'a' + 10),
        _ => Err(Fault::Form),
    }
}

/// From `*62(` and the beginning of the text.
fn begin(bytes: &mut Vec<u8>, piece: &str) -> Result<Repeated, Fault> {
    let rest = piece.strip_prefix('*').ok_or(Fault::Form)?;
    let (count, text) = rest.split_once('(').ok_or(Fault::Form)?;
    let from = bytes.len();
    bytes.extend_from_slice(text.as_bytes())?;
    match count.parse::<usize>() {
        Ok(count) => Ok(Repeated { from, count }),
        Err(_) => Err(Fault::Form),
    }
}

fn repeat(alloc: Global, bytes: &mut Vec<u8>, repeated: Repeated) -> Result<(), Fault> {
    let text = bytes.as_slice().get(repeated.from..).ok_or(Fault::Form)?;
    let text = Vec::from_slice(alloc, text)?;
    for _ in 1..repeated.count {
        bytes.extend_from_slice(text.as_slice())?;
    }
    Ok(())
}
