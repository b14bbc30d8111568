//! Storing a body while it is received.

ghost use Rattle.std.specs.Prelude.{◌≡◌, ◌<◌, ◌≤◌, ◌^◌, Some, None, if◌then◌else◌, IfOk, IfErr, OnOk};
ghost use Rattle.sha2.specs.Sha256.{sha256};
ghost use Rattle.std.specs.Option.{option_copied};
ghost use Rattle.bh_http.specs.Bodies.{Gives, IsWhole, MayBreak};
ghost use Rattle.bh_types.specs.declared.refusal.Refusal.{Refusal};
ghost use Rattle.bh_types.specs.declared.refusal.Refusal.TheVariants.{BadDigest};
ghost use Rattle.bh_types.specs.Checksums.{checksum_text};
ghost use Rattle.bh_model.specs.Parts.{is_checksum};
ghost use Rattle.bh_storage.specs.declared.error.StepError.TheVariants.{Refused};
ghost use Rattle.bh_tables.specs.Schema.{Octets};
ghost use Rattle.bh_view.specs.Bodies.{pieces, body_stored};
ghost use Rattle.bh_base.specs.Connections.{IsClean, tables, InTransaction, StaysWithin, StaysOpen, Becomes};
ghost use Rattle.bh_cache.specs.Kept.{AreCopies};
ghost use Rattle.bh_objects.specs.Calls.{Changes};
ghost use Rattle.bh_objects.specs.Refusing.{RefusedBy, IfRefused, IsReceived};
ghost use Rattle.bh_objects.specs.Storing.{MayStore, Stores};

use crate::coming::{buffer_size, take_all};
use bh_base::connection::Connection;
use bh_blocks::bodies::store_body;
use bh_blocks::drafts::{begin_body, end_body};
use bh_cache::blocks::BlockCache;
use bh_http::body::{Body, Break, PIECE, collect, drain};
use bh_schema::host::Digester;
use bh_schema::trouble::or_trouble;
use bh_shelf::shelf::Shelf;
use bh_storage::error::{Outcome, StepError, Trouble};
use bh_types::checksum::{checksum_of_digest, digest_of};
use bh_types::refusal::Refusal;
use sha2::{Digest, Sha256};
use sqlite::Alter;
use std::alloc::Global;

/// The digester, the cache and the block size for storing bodies.
#[derive(Drop)]
pub struct Blocks<'c, 'd, D> {
    /// The cache of blocks that were read.
    pub cache: &'c BlockCache,
    /// Names blocks.
    pub digester: &'d D,
    /// The maximum size of a block in bytes.
    pub size: u64,
}

/// Stores the bytes of a body, and returns their SHA-256 digest (FIPS 180-4). If they fit in one
/// block, they are read once.
fn store_bytes<S: Alter, P: Shelf, D: Digester>(
    connection: &mut Connection<S, P>,
    alloc: Global,
    blocks: &Blocks<'_, '_, D>,
    tenant: &str,
    number: u64,
    bytes: &[u8],
) -> Result<[u8; 32], Trouble>
    requires inside { InTransaction S.Store P.Shelf connection.old }
    requires copies { IsClean S.Store P.Shelf connection.old
        → AreCopies blocks.now.cache.now (tables S.Store P.Shelf connection.old).blocks }
    requires positive { 1 ≤ blocks.now.size }
    requires small { number < 2 ^ 63 }
    ensures changes { Changes S.Store P.Shelf connection.old connection.new result
        (body_stored D.digest_of (tenant.now, number) 0 (pieces blocks.now.size bytes.now)) }
    ensures sum { IfOk result (λ sum. sum ≡ sha256 bytes.now) }
{
    let (cache, digester, size) = (blocks.cache, blocks.digester, blocks.size);
    let sum = digest_of(bytes);
    or_trouble(store_body(
        connection, cache, alloc, digester, size, tenant, number, bytes, &sum,
    ))?;
    Ok(sum)
}

/// Stores a body while it is received, and returns its SHA-256 digest (FIPS 180-4). It has eight
/// blocks in memory, of at most 512 KiB, and one more.
fn store_pieces<S: Alter, P: Shelf, D: Digester, B: Body>(
    connection: &mut Connection<S, P>,
    alloc: Global,
    blocks: &Blocks<'_, '_, D>,
    tenant: &str,
    number: u64,
    body: &mut B,
) -> Result<[u8; 32], Trouble>
    requires may { MayStore S.Store P.Shelf blocks.now.cache.now blocks.now.size connection.old (B.coming body.old) }
    requires small { number < 2 ^ 63 }
    ensures stores { Stores S.Store P.Shelf D.digest_of blocks.now.size (tenant.now, number) (B.coming body.old) (B.coming body.new)
        connection.old connection.new result }
{
    let mut draft = begin_body(alloc, tenant, number, blocks.size);
    let mut buffer = vec![in alloc; 0u8; buffer_size(blocks.size, body.due())]?;
    let hasher = take_all(connection, blocks, &mut draft, body, &mut buffer)?;
    or_trouble(end_body(connection, blocks.cache, blocks.digester, draft))?;
    Ok(hasher.finalize())
}

/// Stores a body while it is received, in blocks of `size` bytes, and returns its SHA-256 digest
/// (FIPS 180-4). After an error the transaction has to be rolled back.
fn store_coming<S: Alter, P: Shelf, D: Digester, B: Body>(
    connection: &mut Connection<S, P>,
    alloc: Global,
    blocks: &Blocks<'_, '_, D>,
    tenant: &str,
    number: u64,
    body: &mut B,
) -> Result<[u8; 32], Trouble>
    requires may { MayStore S.Store P.Shelf blocks.now.cache.now blocks.now.size connection.old (B.coming body.old) }
    requires small { number < 2 ^ 63 }
    ensures stores { Stores S.Store P.Shelf D.digest_of blocks.now.size (tenant.now, number) (B.coming body.old) (B.coming body.new)
        connection.old connection.new result }
{
    if body.due() <= blocks.size {
        let bytes = collect(alloc, body)?;
        store_bytes(connection, alloc, blocks, tenant, number, &bytes)
    } else {
        store_pieces(connection, alloc, blocks, tenant, number, body)
    }
}

/// Whether a checksum's text is the one that a request gives, if it gives one.
fn is_given(given: Option<&[u8]>, text: &str) -> bool
    ensures { (bytes : Octets) → text.now ≡ checksum_text bytes → result ≡ is_checksum (option_copied given.entry) bytes }
{
    match given {
        None => true,
        Some(given) => given == text.as_bytes(),
    }
}

/// Stores a body while it is received, in blocks of a size, and returns its checksum. It refuses
/// with BadDigest, after the blocks were stored, if the request gives another checksum.
pub fn store_checked<S: Alter, P: Shelf, D: Digester, B: Body>(
    connection: &mut Connection<S, P>,
    alloc: Global,
    blocks: &Blocks<'_, '_, D>,
    tenant: &str,
    number: u64,
    given: Option<&[u8]>,
    body: &mut B,
) -> Result<Outcome<String, Refusal>, Trouble>
    requires may { MayStore S.Store P.Shelf blocks.now.cache.now blocks.now.size connection.old (B.coming body.old) }
    requires small { number < 2 ^ 63 }
    ensures within { StaysWithin S.Store P.Shelf connection.old connection.new }
    ensures opens { OnOk result (StaysOpen S.Store P.Shelf connection.old connection.new) }
    ensures received { IsReceived result (B.coming body.old) (B.coming body.new) (option_copied given.entry) (λ bytes.
        Becomes S.Store P.Shelf connection.old connection.new (body_stored D.digest_of (tenant.now, number) 0
        (pieces blocks.now.size bytes))) }
{
    let sum = store_coming(connection, alloc, blocks, tenant, number, body)?;
    let text = checksum_of_digest(alloc, &sum)?;
    if is_given(given, text.as_str()) {
        Ok(Outcome::Done(text))
    } else {
        Ok(Outcome::Spoilt(Refusal::BadDigest))
    }
}

/// The SHA-256 digest (FIPS 180-4) of the rest of a body, whose bytes are discarded.
fn hash_coming<B: Body>(body: &mut B) -> Result<[u8; 32], Break>
    requires going { (B.coming body.old).broken ≡ None }
    ensures hashed { IfOk result (λ sum. (given : Octets) × Gives (B.coming body.old) (B.coming body.new) given
        × IsWhole (B.coming body.new) × (sum ≡ sha256 given)) }
    ensures stopped { IfErr result (λ _. (given : Octets) × Gives (B.coming body.old) (B.coming body.new) given
        × MayBreak (B.coming body.new)) }
{
    let mut room = [0u8; PIECE];
    let mut hasher = Sha256::new();
    'taking: while body.due() > 0 {
        let count = body.next(&mut room)?;
        hasher.update(&room[..count]);
    }
    Ok(hasher.finalize())
}

/// The error of an operation that ended before its body was received. A refusal is returned only
/// after the whole body was received.
pub fn refused_whole<B: Body>(body: &mut B, error: StepError<Refusal>) -> StepError<Refusal>
    requires going { (B.coming body.old).broken ≡ None }
    ensures came { (given : Octets) × Gives (B.coming body.old) (B.coming body.new) given
        × RefusedBy (λ r. error ≡ Refused r) result (B.coming body.new) }
{
    let StepError::Refused(refusal) = error else {
        return error;
    };
    match drain(body) {
        Ok(()) => StepError::Refused(refusal),
        Err(cause) => StepError::Failed(Trouble::from(cause)),
    }
}

/// A refusal, returned after the whole body was received. It is BadDigest if the request gives a
/// checksum that isn't the body's.
pub fn refused_checked<B: Body>(
    alloc: Global,
    body: &mut B,
    given: Option<&[u8]>,
    error: StepError<Refusal>,
) -> StepError<Refusal>
    requires going { (B.coming body.old).broken ≡ None }
    ensures came { (bytes : Octets) × Gives (B.coming body.old) (B.coming body.new) bytes
        × RefusedBy (λ r. (x : Refusal) × (error ≡ Refused x)
        × (r ≡ (if is_checksum (option_copied given.entry) bytes then x else BadDigest))) result (B.coming body.new) }
{
    let Some(text) = given else {
        return refused_whole(body, error);
    };
    let StepError::Refused(refusal) = error else {
        return error;
    };
    match hash_coming(body) {
        Ok(sum) => refused_for(alloc, &sum, text, refusal),
        Err(cause) => StepError::Failed(Trouble::from(cause)),
    }
}

/// A refusal, or BadDigest if the text isn't the digest's.
fn refused_for(alloc: Global, sum: &[u8; 32], text: &[u8], refusal: Refusal) -> StepError<Refusal>
    ensures { (bytes : Octets) → sum.now ≡ sha256 bytes
        → IfRefused result (λ r. r ≡ (if is_checksum (Some text.now) bytes then refusal else BadDigest)) }
{
    match checksum_of_digest(alloc, sum) {
        Ok(right) if right.as_str().as_bytes() == text => StepError::Refused(refusal),
        Ok(_) => StepError::Refused(Refusal::BadDigest),
        Err(_) => StepError::Failed(Trouble::Memory),
    }
}
