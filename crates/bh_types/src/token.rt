//! Continuation tokens: the name after which a listing continues, in hexadecimal.

ghost use Rattle.std.specs.Prelude.{◌≡◌, IfOk};
ghost use Rattle.std.specs.String.{string_bytes};
ghost use Rattle.bh_types.specs.Outcomes.{Gives};
ghost use Rattle.bh_types.specs.Tokens as spec;

use crate::error::RequestError;
use crate::refusal::Refusal;
use hex::FromHexError;
use std::alloc::{AllocError, Global};

/// The token of a name's bytes: two lower-case hexadecimal digits for each (RFC 4648, section 8).
/// Fails if memory runs out.
pub fn token_text(alloc: Global, bytes: &[u8]) -> Result<String, AllocError>
    ensures text { IfOk result (λ text. string_bytes text ≡ spec.token_text bytes.now) }
    ensures reads_back { IfOk result (λ text. spec.token_of (string_bytes text) ≡ Ok bytes.now) }
{
    hex::encode(alloc, bytes)
}

/// The bytes of a token: an even number of hexadecimal digits in either case, or no digits. Fails
/// with `InvalidArgument` for another text, and if memory runs out.
pub fn read_token(alloc: Global, text: &str) -> Result<Vec<u8>, RequestError>
    ensures { Gives (λ bytes. bytes.items) result (spec.token_of text.now) }
{
    match hex::decode(alloc, text) {
        Ok(bytes) => Ok(bytes),
        Err(FromHexError::OutOfMemory) => Err(RequestError::OutOfMemory),
        Err(_) => Err(RequestError::Refused(Refusal::InvalidArgument)),
    }
}
