//! Checksums in S3's form: base64 (RFC 4648) of SHA-256 digests (FIPS 180-4).

ghost use Rattle.std.specs.Prelude.{◌≡◌, ◌≢◌, ℕ, List, length, Some, IfOk, IfSome, IfNone};
ghost use Rattle.std.specs.List.{flat_map};
ghost use Rattle.std.specs.String.{string_bytes};
ghost use Rattle.sha2.specs.Sha256.{sha256};
ghost use Rattle.base64.specs.GeneralPurpose.{IsBytes};
ghost use Rattle.bh_types.specs.Checksums.{digest_text, checksum_text, joined_text};

use base64::DecodeAllocError;
use base64::engine::general_purpose::STANDARD;
use sha2::{Digest, Sha256};
use std::alloc::{AllocError, Global};

/// The SHA-256 digest of some bytes (FIPS 180-4, section 6.2).
pub fn digest_of(bytes: &[u8]) -> [u8; 32]
    ensures { result ≡ sha256 bytes.now }
{
    Sha256::digest(bytes)
}

/// A digest's checksum text: its base64 (RFC 4648, section 4), 44 characters. Fails if memory runs
/// out.
pub fn checksum_of_digest(alloc: Global, digest: &[u8; 32]) -> Result<String, AllocError>
    ensures { IfOk result (λ text. string_bytes text ≡ digest_text digest.now) }
{
    STANDARD.encode(alloc, digest.as_slice())
}

/// The checksum text of an object's or a part's bytes: the base64 of their SHA-256 digest. Fails if
/// memory runs out.
pub fn checksum_of(alloc: Global, bytes: &[u8]) -> Result<String, AllocError>
    ensures { IfOk result (λ text. string_bytes text ≡ checksum_text bytes.now) }
{
    checksum_of_digest(alloc, &digest_of(bytes))
}

/// The checksum text of an object that was completed from parts with these digests. It is S3's
/// composite checksum: the checksum of the joined digests, `-`, and the number of parts. Fails if
/// memory runs out.
pub fn joined_checksum(alloc: Global, digests: &[[u8; 32]]) -> Result<String, AllocError>
    ensures { IfOk result (λ text. string_bytes text ≡ joined_text digests.now) }
{
    let mut text = checksum_of_digest(alloc, &digest_of_all(digests))?;
    text.push_str("-")?;
    text.push_str(digests.len().to_string(alloc)?.as_str())?;
    Ok(text)
}

fn digest_of_all(digests: &[[u8; 32]]) -> [u8; 32]
    ensures { result ≡ sha256 (flat_map (λ d. d) digests.now) }
{
    let mut hasher = Sha256::new();
    for digest in digests {
        hasher.update(digest.as_slice());
    }
    hasher.finalize()
}

/// The digest with this checksum text, or `None` if no digest has it. Fails if memory runs out.
pub fn read_checksum(alloc: Global, text: &str) -> Result<Option<[u8; 32]>, AllocError>
    ensures value { IfOk result (λ r. IfSome r (λ digest. text.now ≡ digest_text digest)) }
    ensures found { (digest : List ℕ) → length digest ≡ 32 → IsBytes digest → text.now ≡ digest_text digest
        → IfOk result (λ r. r ≡ Some digest) }
{
    match STANDARD.decode(alloc, text.as_bytes()) {
        Ok(bytes) => Ok(array_of(bytes.as_slice())),
        Err(DecodeAllocError::OutOfMemory) => Err(AllocError),
        Err(DecodeAllocError::DecodeError(_)) => Ok(None),
    }
}

fn array_of(bytes: &[u8]) -> Option<[u8; 32]>
    ensures some { IfSome result (λ array. array ≡ bytes.now) }
    ensures none { IfNone result (length bytes.now ≢ 32) }
{
    if bytes.len() != 32 {
        return None;
    }
    let mut array = [0u8; 32];
    array.copy_from_slice(bytes);
    Some(array)
}
