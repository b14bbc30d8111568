ghost use Rattle.std.specs.Prelude.{◌≡◌, ◌-◌, ◌≤◌, ◌&&◌, length, position, slice_index};
ghost use Rattle.std.specs.Char.{is_ascii_digit};
ghost use Rattle.std.specs.List.{list_all};
ghost use Rattle.std.specs.Option.{option_copied};
ghost use Rattle.bh_types.specs.Names as spec;

use crate::bytes::{has_length, is_name_byte};
use crate::text::{Text, TextRule};

/// A bucket's name: 3 to 63 characters of a to z, 0 to 9, dot and hyphen. The first and the last
/// are a letter or digit. It has no two dots together, and isn't four groups of 1 to 3 digits
/// joined by dots. These are the rules of the Amazon S3 User Guide, "General purpose bucket naming
/// rules", without its forbidden prefixes and suffixes.
pub type BucketName = Text<BucketRule>;

/// The rule for buckets' names.
#[derive(Clone, Drop)]
pub struct BucketRule;

impl TextRule for BucketRule {
    ghost use Rattle.bh_types.specs.Names.{is_bucket_name};

    ghost takes = { is_bucket_name };

    fn takes(text: &[u8]) -> bool {
        has_length(3, 63, text)
            && are_bucket_bytes(text)
            && has_plain_ends(text)
            && !has_dots_together(text)
            && !is_four_groups(text)
    }
}

fn are_bucket_bytes(text: &[u8]) -> bool
    ensures { result ≡ list_all spec.is_bucket_byte text.now }
{
    text.iter()
        .all(|b| is_name_byte(*b) || *b == b'.' || *b == b'-')
}

fn are_digits(text: &[u8]) -> bool
    ensures { result ≡ list_all is_ascii_digit text.now }
{
    text.iter().all(|b| b.is_ascii_digit())
}

fn is_group(text: &[u8]) -> bool
    ensures { result ≡ spec.is_group text.now }
{
    has_length(1, 3, text) && are_digits(text)
}

fn dot_at(text: &[u8]) -> Option<usize>
    ensures { result ≡ position spec.is_dot text.now }
{
    text.iter().position(|b| *b == b'.')
}

fn after_group(text: &[u8]) -> Option<&[u8]>
    ensures { option_copied result ≡ spec.after_group text.now }
{
    let at = dot_at(text)?;
    if at < text.len() && is_group(&text[..at]) {
        Some(&text[at + 1..])
    } else {
        None
    }
}

fn is_four_groups(text: &[u8]) -> bool
    ensures { result ≡ spec.is_four_groups text.now }
{
    let Some(second) = after_group(text) else {
        return false;
    };
    let Some(third) = after_group(second) else {
        return false;
    };
    match after_group(third) {
        Some(fourth) => is_group(fourth),
        None => false,
    }
}

fn has_dots_together(text: &[u8]) -> bool
    ensures { result ≡ spec.has_dots_together text.now }
{
    text.iter()
        .zip(text.iter().skip(1))
        .any(|(a, b)| *a == b'.' && *b == b'.')
}

fn has_plain_ends(text: &[u8]) -> bool
    requires { 1 ≤ length text.now }
    ensures { result ≡ (spec.is_name_byte (slice_index text.now 0)
        && spec.is_name_byte (slice_index text.now (length text.now - 1))) }
{
    is_name_byte(text[0]) && is_name_byte(text[text.len() - 1])
}
