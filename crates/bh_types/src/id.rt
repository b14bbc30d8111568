ghost use Rattle.std.specs.Prelude.{◌≡◌, ℕ, ◌<◌, ◌≢◌, ◌↔◌, IsTrue, IfOk, IfSome, IfNone};
ghost use Rattle.std.specs.String.{string_bytes};
ghost use Rattle.bh_types.specs.Ids.{number_text, number_of, version_text, version_of, upload_text, upload_of};
ghost use Rattle.bh_types.specs.declared.id.VersionId.{VersionId as Version};
ghost use Rattle.bh_types.specs.declared.id.UploadId.{UploadId as Upload};

use hex::FromHex;
use std::alloc::{AllocError, Global};

/// A version's id: `null` (Amazon S3 User Guide, "How S3 Versioning works"), or the tenant's version counter in 16
/// lower hexadecimal digits (RFC 4648, section 8).
#[derive(Clone, Copy, PartialEq, Eq)]
pub enum VersionId {
    /// The only version of a key in a bucket without versioning.
    Null,
    /// The version of this number.
    Numbered(u64),
}

/// An upload's id: the tenant's upload counter in 16 lower hexadecimal digits (RFC 4648, section 8).
#[derive(Clone, Copy, PartialEq, Eq, PartialOrd, Ord)]
pub struct UploadId {
    /// The number in the digits.
    pub number: u64,
}

impl VersionId {
    /// Parses an id. `None` if the text is not one. It allocates nothing.
    pub fn read(text: &str) -> Option<VersionId>
        ensures is { result ≡ version_of text.now }
        ensures value { IfSome result (λ id. version_text id ≡ text.now) }
        ensures none { IfNone result ((id : Version) → text.now ≢ version_text id) }
    {
        if text == "null" {
            return Some(VersionId::Null);
        }
        match read_number(text) {
            Some(number) => Some(VersionId::Numbered(number)),
            None => None,
        }
    }

    /// The id as text. Fails if memory runs out.
    pub fn print(self, alloc: Global) -> Result<String, AllocError>
        ensures { IfOk result (λ text. string_bytes text ≡ version_text self) }
    {
        match self {
            VersionId::Null => String::from_str(alloc, "null"),
            VersionId::Numbered(number) => print_number(alloc, number),
        }
    }
}

impl UploadId {
    /// Parses an id. `None` if the text is not one. It allocates nothing.
    pub fn read(text: &str) -> Option<UploadId>
        ensures is { result ≡ upload_of text.now }
        ensures value { IfSome result (λ id. upload_text id ≡ text.now) }
        ensures none { IfNone result ((id : Upload) → text.now ≢ upload_text id) }
    {
        match read_number(text) {
            Some(number) => Some(UploadId { number }),
            None => None,
        }
    }

    /// The id as text. Fails if memory runs out.
    pub fn print(self, alloc: Global) -> Result<String, AllocError>
        ensures { IfOk result (λ text. string_bytes text ≡ upload_text self) }
    {
        print_number(alloc, self.number)
    }
}

/// Parses a number of 16 lower-case hexadecimal digits, or returns `None`.
fn read_number(text: &str) -> Option<u64>
    ensures is { result ≡ number_of text.now }
    ensures value { IfSome result (λ n. number_text n ≡ text.now) }
    ensures none { IfNone result ((n : ℕ) → text.now ≢ number_text n) }
{
    let decoded = <[u8; 8] as FromHex>::from_hex(text);
    let Ok(bytes) = decoded else {
        return None;
    };
    let number = u64::from_be_bytes(bytes);
    // The decoder accepts upper case too.
    if is_number_text(number, text) {
        Some(number)
    } else {
        None
    }
}

/// Whether a text is a number's 16 digits.
fn is_number_text(number: u64, text: &str) -> bool
    ensures { IsTrue result ↔ (number_text number ≡ text.now) }
{
    let bytes = number.to_be_bytes();
    let mut again = [0u8; 16];
    let _ = hex::encode_to_slice(bytes.as_slice(), &mut again);
    again.as_slice() == text.as_bytes()
}

/// A number in 16 lower hexadecimal digits.
fn print_number(alloc: Global, number: u64) -> Result<String, AllocError>
    ensures { IfOk result (λ text. string_bytes text ≡ number_text number) }
{
    let bytes = number.to_be_bytes();
    hex::encode(alloc, bytes.as_slice())
}
