ghost use Rattle.std.specs.Prelude.{◌≡◌, ◌∷◌, ◌||◌, ◌&&◌, ℕ, List, [], ◌++◌, false, IfOk, IfErr, OnOk};
ghost use Rattle.bh_http.specs.Arriving.{Finds, is_text as is_text_byte, ends_blank as is_blank_at_end};
ghost use Rattle.bh_link.specs.Taking.{TookAtMost, Opens, announced_size, is_fault};
ghost use Rattle.bh_link.specs.declared.request.TakeError.TheVariants.{ReadFailed, OutOfMemory};
ghost use Rattle.bh_http.specs.Transfers.{Gives};

use crate::ends::Source;
use crate::link::{Link, ReadFault};
use bh_http::arriving::{Arriving, FoundHead, MAX_HEAD, ends_blank, search};
use bh_http::request::MAX_FIELDS;
use bh_types::limits::Limits;
use bh_types::refusal::Refusal;
use httparse::spans::HeaderSpan;
use std::alloc::{AllocError, Global};

/// Why no head was read.
#[derive(Clone, Copy, PartialEq, Eq)]
pub enum TakeError {
    /// The source failed.
    ReadFailed,
    /// Memory ran out.
    OutOfMemory,
}

impl From<ReadFault> for TakeError {
    ghost from_gives = { λ _ e. e ≡ ReadFailed };

    fn from(_fault: ReadFault) -> TakeError {
        TakeError::ReadFailed
    }
}

impl From<AllocError> for TakeError {
    ghost from_gives = { λ _ e. e ≡ OutOfMemory };

    fn from(_error: AllocError) -> TakeError {
        TakeError::OutOfMemory
    }
}

/// The bytes up to the end of a head, and the head in them, or their refusal.
#[derive(Drop)]
pub struct Opening {
    pub bytes: Vec<u8>,
    pub head: Result<FoundHead, Refusal>,
}

/// Most heads have fewer bytes.
const USUAL_HEAD: usize = 512;

/// Reads the bytes up to the end of a request's head, one at a time, and writes the places of its
/// fields to `headers`. If they are not a head, or one that is refused, it stops as soon as they
/// show that, after at most 16,384 bytes, or at the end.
pub fn take_head<R: Source>(
    alloc: Global,
    limits: &Limits,
    headers: &mut [HeaderSpan; MAX_FIELDS],
    reader: &mut Link<R>,
) -> Result<Opening, TakeError>
    requires { reader.old.failed ≡ false }
    ensures opens { IfOk result (λ opening. Opens limits.now (R.remaining reader.old.inner) (R.remaining reader.new.inner)
        opening.bytes.items (announced_size opening.head)) }
    ensures finds { IfOk result (λ opening. Finds limits.now opening.bytes.items headers.new opening.head) }
    ensures given { IfOk result (λ opening.
        Gives (R.transfers reader.old.inner) (R.transfers reader.new.inner) opening.bytes.items false) }
    ensures going { OnOk result (reader.new.failed ≡ false) }
    ensures within { IfErr result (λ _. (taken : List ℕ)
        × TookAtMost limits.now (R.remaining reader.old.inner) (R.remaining reader.new.inner) taken
        × Gives (R.transfers reader.old.inner) (R.transfers reader.new.inner) taken reader.new.failed) }
    ensures failed { IfErr result (λ e. reader.new.failed ≡ is_fault e) }
{
    let mut bytes = Vec::with_capacity(alloc, USUAL_HEAD)?;
    let mut started = false;
    for count in 0..MAX_HEAD {
        let Some(byte) = reader.next_byte()? else {
            return Ok(Opening {
                bytes,
                head: Err(Refusal::BadRequest),
            });
        };
        push(&mut bytes, byte)?;
        started = has_started(started, byte);
        if may_end(started, bytes.as_slice()) {
            match search(limits, bytes.as_slice(), headers) {
                Arriving::NotYet => {}
                Arriving::Found(head) => return Ok(Opening {
                    bytes,
                    head: Ok(head),
                }),
                Arriving::Refused(refusal) => return Ok(Opening {
                    bytes,
                    head: Err(refusal),
                }),
            }
        }
    }
    Ok(Opening {
        bytes,
        head: Err(Refusal::BadRequest),
    })
}

fn push(bytes: &mut Vec<u8>, byte: u8) -> Result<(), AllocError>
    ensures { OnOk result (bytes.new.items ≡ bytes.old.items ++ byte ∷ []) }
{
    bytes.push(byte)?;
    Ok(())
}

/// Whether the current line has a byte already.
fn has_started(started: bool, byte: u8) -> bool
    ensures { result ≡ (started || is_text_byte byte) }
{
    started || !(byte == b'\r' || byte == b'\n')
}

/// Whether a head may end at this byte.
fn may_end(started: bool, bytes: &[u8]) -> bool
    ensures { result ≡ (started && is_blank_at_end bytes.now) }
{
    started && ends_blank(bytes)
}
