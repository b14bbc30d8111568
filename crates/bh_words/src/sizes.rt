//! Sizes with a unit, such as `10GB` and `10GiB`.
ghost use Rattle.std.specs.Prelude.{◌≡◌, ◌++◌, codes, map, position, IfOk};
ghost use Rattle.std.specs.String.{string_bytes};
ghost use Rattle.bh_words.specs.Sizes as spec;

use crate::given::number_of;
use std::alloc::{AllocError, Global};

/// The words of a command line, with the bytes of each size that has a unit in its place. A size is
/// the word after an option such as `--quota`, or what follows it and a `=`.
pub(crate) fn sized(alloc: Global, words: &[String]) -> Result<Vec<String>, AllocError>
    ensures { IfOk result (λ sized. map string_bytes sized.items ≡ spec.sized (map string_bytes words.now)) }
{
    let mut sized = Vec::new(alloc);
    let mut before = "";
    for word in words {
        sized.push(sized_word(alloc, before, word.as_str())?)?;
        before = word.as_str();
    }
    Ok(sized)
}

/// A word that follows the word `before`.
fn sized_word(alloc: Global, before: &str, word: &str) -> Result<String, AllocError>
    ensures { IfOk result (λ text. string_bytes text ≡ spec.sized_word before.now word.now) }
{
    if is_size(before) {
        return in_bytes(alloc, word);
    }
    sized_pair(alloc, word)
}

/// A word such as `--quota=10GB`, with its size in bytes; any other word is copied.
fn sized_pair(alloc: Global, word: &str) -> Result<String, AllocError>
    ensures { IfOk result (λ text. string_bytes text ≡ spec.sized_pair word.now) }
{
    match word.split_once('=') {
        Some((option, value)) if is_size(option) => pair(alloc, option, value),
        _ => String::from_str(alloc, word),
    }
}

/// An option and its value in bytes, as one word.
fn pair(alloc: Global, option: &str, value: &str) -> Result<String, AllocError>
    ensures { IfOk result (λ text. string_bytes text ≡ option.now ++ codes "=" ++ spec.in_bytes value.now) }
{
    let bytes = in_bytes(alloc, value)?;
    format!(in alloc; "{option}={bytes}")
}

/// Whether a word is an option whose value is a size.
fn is_size(word: &str) -> bool
    ensures { result ≡ spec.is_size word.now }
{
    match word {
        "--quota"
        | "--min-part"
        | "--max-body"
        | "--block-size"
        | "--cache-bytes"
        | "--keep-garbage" => true,
        _ => false,
    }
}

/// The bytes of a size with a unit, in decimal digits. Any other text is copied, for `clap` to take
/// or to refuse.
fn in_bytes(alloc: Global, text: &str) -> Result<String, AllocError>
    ensures { IfOk result (λ bytes. string_bytes bytes ≡ spec.in_bytes text.now) }
{
    match bytes_of(text) {
        Some(bytes) => bytes.to_string(alloc),
        None => String::from_str(alloc, text),
    }
}

/// How many bytes a size with a unit is; `None` if the text is no such size, or one of 2^64 bytes or
/// more.
#[tactic(auto, using(crate::proofs::Sized::cut_there))]
fn bytes_of(size: &str) -> Option<u64>
    ensures { result ≡ spec.bytes_of size.now }
{
    let (digits, unit) = size.split_at(unit_at(size)?);
    let bytes = unit_bytes(unit)?;
    number_of(digits)?.checked_mul(bytes)
}

/// Where the unit begins: the first place without a digit.
fn unit_at(size: &str) -> Option<usize>
    ensures { result ≡ position spec.is_no_digit size.now }
{
    size.as_bytes().iter().position(|b| !b.is_ascii_digit())
}

/// How many bytes a unit is.
fn unit_bytes(unit: &str) -> Option<u64>
    ensures { result ≡ spec.unit_bytes unit.now }
{
    match unit {
        "B" => Some(1),
        "kB" | "KB" => Some(1_000),
        "MB" => Some(1_000_000),
        "GB" => Some(1_000_000_000),
        "TB" => Some(1_000_000_000_000),
        "KiB" => Some(1 << 10),
        "MiB" => Some(1 << 20),
        "GiB" => Some(1 << 30),
        "TiB" => Some(1 << 40),
        _ => None,
    }
}
