//! The body of a request, received in pieces.

ghost use Rattle.std.specs.Prelude.{◌≡◌, ◌<◌, ◌≤◌, ◌++◌, [], List, ℕ, length, take, Some, None, IfOk, IfErr, OnErr, OnOk};
ghost use Rattle.bh_http.specs.Bodies.{Coming, Gives, BreaksOff, MayBreak, IsWhole};

use std::alloc::{AllocError, Global};

/// The maximum bytes of one read of a body.
pub const PIECE: usize = 16384;

/// Why a body is incomplete.
#[derive(Clone, Copy, PartialEq, Eq)]
pub enum Break {
    /// The reader failed.
    Failed,
    /// The reader's bytes ended before the body did.
    Ended,
}

/// The body of a request, received in pieces.
pub trait Body {
    ghost coming: { Self → Coming };

    /// How many bytes are still to be received.
    fn due(&self) -> u64
        ensures { result ≡ (coming self.now).due };

    /// Why no more bytes come, if it broke.
    fn broken(&self) -> Option<Break>
        ensures { result ≡ (coming self.now).broken };

    /// Writes some of the next bytes to the front of the buffer, at least one, and returns their
    /// number.
    fn next(&mut self, room: &mut [u8]) -> Result<usize, Break>
        requires going { (coming self.old).broken ≡ None }
        requires due { 0 < (coming self.old).due }
        requires room { 0 < length room.old }
        ensures some { IfOk result (λ n. 0 < n) }
        ensures fits { IfOk result (λ n. n ≤ length room.new) }
        ensures gives { IfOk result (λ n. Gives (coming self.old) (coming self.new) (take n room.new)) }
        ensures going { OnOk result ((coming self.new).broken ≡ None) }
        ensures none { OnErr result (Gives (coming self.old) (coming self.new) []) }
        ensures broken { OnErr result (BreaksOff (coming self.new)) }
        ensures cause { IfErr result (λ cause. (coming self.new).broken ≡ Some cause) };
}

/// A body that is complete in memory.
#[derive(Drop)]
pub struct WholeBody<'a> {
    bytes: &'a [u8],
}

impl<'a> WholeBody<'a> {
    pub fn new(bytes: &'a [u8]) -> WholeBody<'a>
        ensures { result.bytes.now ≡ bytes.now }
    {
        WholeBody { bytes }
    }
}

impl Body for WholeBody<'_> {
    ghost use Rattle.bh_http.specs.Bodies.{whole};

    ghost coming = { λ b. whole b.bytes.now };

    fn due(&self) -> u64 {
        self.bytes.len() as u64
    }

    fn broken(&self) -> Option<Break> {
        None
    }

    fn next(&mut self, room: &mut [u8]) -> Result<usize, Break> {
        let count = room.len().min(self.bytes.len());
        let (front, rest) = self.bytes.split_at(count);
        room[..count].copy_from_slice(front);
        self.bytes = rest;
        Ok(count)
    }
}

/// Why a body was not read whole.
#[derive(Clone, Copy, PartialEq, Eq)]
pub enum CollectError {
    Broken(Break),
    /// Memory ran out.
    OutOfMemory,
}

impl From<Break> for CollectError {
    ghost use Rattle.std.specs.Prelude.{◌≡◌};
    ghost use Rattle.bh_http.specs.declared.body.CollectError.TheVariants.{Broken};

    ghost from_gives = { λ cause e. e ≡ Broken cause };

    fn from(cause: Break) -> CollectError {
        CollectError::Broken(cause)
    }
}

impl From<AllocError> for CollectError {
    ghost use Rattle.std.specs.Prelude.{◌≡◌};
    ghost use Rattle.bh_http.specs.declared.body.CollectError.TheVariants.{OutOfMemory};

    ghost from_gives = { λ _ e. e ≡ OutOfMemory };

    fn from(_error: AllocError) -> CollectError {
        CollectError::OutOfMemory
    }
}

/// Reads the rest of a body. After an error, a part of it was read.
pub fn collect<B: Body>(alloc: Global, body: &mut B) -> Result<Vec<u8>, CollectError>
    requires going { (B.coming body.old).broken ≡ None }
    ensures gives { IfOk result (λ bytes. Gives (B.coming body.old) (B.coming body.new) bytes.items) }
    ensures whole { OnOk result (IsWhole (B.coming body.new)) }
    ensures some { IfErr result (λ _. (given : List ℕ) × Gives (B.coming body.old) (B.coming body.new) given) }
    ensures broken { OnErr result (MayBreak (B.coming body.new)) }
{
    let mut room = [0u8; PIECE];
    let mut bytes = Vec::new(alloc);
    'taking: while body.due() > 0 {
        let count = body.next(&mut room)?;
        append(&mut bytes, &room[..count])?;
    }
    Ok(bytes)
}

fn append(bytes: &mut Vec<u8>, more: &[u8]) -> Result<(), AllocError>
    ensures { OnOk result (bytes.new.items ≡ bytes.old.items ++ more.now) }
{
    bytes.extend_from_slice(more)?;
    Ok(())
}

/// Reads the rest of a body and discards it. After an error, a part of it was read.
pub fn drain<B: Body>(body: &mut B) -> Result<(), Break>
    requires going { (B.coming body.old).broken ≡ None }
    ensures some { (given : List ℕ) × Gives (B.coming body.old) (B.coming body.new) given }
    ensures whole { OnOk result (IsWhole (B.coming body.new)) }
    ensures broken { OnErr result (BreaksOff (B.coming body.new)) }
{
    // Few requests that are drained have a body, and the buffer for one is filled with zeros.
    if body.due() == 0 {
        return Ok(());
    }
    drain_due(body)
}

fn drain_due<B: Body>(body: &mut B) -> Result<(), Break>
    requires going { (B.coming body.old).broken ≡ None }
    ensures some { (given : List ℕ) × Gives (B.coming body.old) (B.coming body.new) given }
    ensures whole { OnOk result (IsWhole (B.coming body.new)) }
    ensures broken { OnErr result (BreaksOff (B.coming body.new)) }
{
    let mut room = [0u8; PIECE];
    'taking: while body.due() > 0 {
        body.next(&mut room)?;
    }
    Ok(())
}
