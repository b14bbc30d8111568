//! The digests of blocks, eight of them side by side.

ghost use Rattle.std.specs.Prelude.{◌≡◌, ◌+◌, ◌≤◌, ◌++◌, length, None, IsTrue, OnOk, IfOk};
ghost use Rattle.std.specs.List.{AllByRecursion};
ghost use Rattle.bh_schema.specs.Digests.{AreNamed};
ghost use Rattle.bh_check.specs.Blocks.{block_octets, HasDigest};
ghost use Rattle.bh_check.specs.Groups.{lane, lanes};

use crate::blocks::{first_misnamed, has_digest};
use bh_schema::host::Digester;
use bh_stored::cells::{bytes_in, number_in};
use sqlite_value::row::Row;
use std::alloc::{AllocError, Global};

/// The maximum size of a block, in bytes, that is hashed beside others: eight are 512 KiB.
const LANE: usize = 65536;

/// Eight digests side by side take the time of three to four. So of eight blocks at least four are
/// to have one size.
const LEAST: usize = 4;

/// The size of the longest block.
fn longest(blocks: &[Row]) -> usize {
    let mut most = 0;
    for row in blocks {
        most = most.max(bytes_in(row, 3).len());
    }
    most
}

/// How many blocks have this size.
fn count_of(blocks: &[Row], size: usize) -> usize {
    let mut count = 0usize;
    for row in blocks {
        if bytes_in(row, 3).len() == size {
            count = count.saturating_add(1);
        }
    }
    count
}

/// The size of those blocks that are hashed side by side, or 0 if each is to be hashed alone.
fn lane_size(blocks: &[Row]) -> usize
    ensures { result ≤ 65536 }
{
    let size = longest(blocks);
    if size > LANE || size % 64 != 0 || count_of(blocks, size) < LEAST {
        0
    } else {
        size
    }
}

/// Appends a block of this size. For another block it appends zeros, so that the next ones have
/// their places.
fn append_lane(buffer: &mut Vec<u8>, bytes: &[u8], size: usize) -> Result<(), AllocError>
    requires { length buffer.old.items + size ≤ 524288 }
    ensures { OnOk result (buffer.new.items ≡ buffer.old.items ++ lane size bytes.now) }
{
    if bytes.len() == size {
        buffer.extend_from_slice(bytes)
    } else {
        buffer.resize(buffer.len() + size, 0)
    }
}

/// Fills a buffer with eight blocks of this size, one after another. Others are left out.
fn gather(buffer: &mut Vec<u8>, blocks: &[Row], size: usize) -> Result<(), AllocError>
    requires eight { length blocks.now ≡ 8 }
    requires small { size ≤ 65536 }
    ensures { OnOk result (buffer.new.items ≡ lanes size blocks.now) }
{
    buffer.clear();
    for row in blocks {
        append_lane(buffer, bytes_in(row, 3), size)?;
    }
    Ok(())
}

/// Whether a block has the digest of its bytes. That is known if the block has this size.
fn is_named<D: Digester>(digester: &D, row: &Row, size: usize, digest: &[u8; 32]) -> bool
    ensures { IsTrue result → digest.now ≡ D.digest_of (lane size (block_octets row.now)) → HasDigest D.digest_of row.now }
{
    if bytes_in(row, 3).len() == size {
        bytes_in(row, 1) == digest.as_slice()
    } else {
        has_digest(digester, row)
    }
}

/// The number of the first of eight blocks whose digest isn't that of its bytes. The digests of
/// blocks of this size are known.
fn first_unlike<D: Digester>(
    digester: &D,
    blocks: &[Row],
    size: usize,
    digests: &[[u8; 32]; 8],
) -> Option<u64>
    requires { length blocks.now ≡ 8 }
    ensures { result ≡ None → AreNamed D.digest_of size (lanes size blocks.now) digests.now
        → AllByRecursion (HasDigest D.digest_of) blocks.now }
{
    for at in 0..blocks.len() {
        if !is_named(digester, &blocks[at], size, &digests[at]) {
            return Some(number_in(&blocks[at], 0));
        }
    }
    None
}

/// The number of the first of eight blocks whose digest isn't that of its bytes. Those of one size
/// are hashed side by side, if there are enough of them.
fn first_of_eight<D: Digester>(
    buffer: &mut Vec<u8>,
    digester: &D,
    blocks: &[Row],
) -> Result<Option<u64>, AllocError>
    requires { length blocks.now ≡ 8 }
    ensures { IfOk result (λ found. found ≡ None → AllByRecursion (HasDigest D.digest_of) blocks.now) }
{
    let size = lane_size(blocks);
    if size == 0 {
        return Ok(first_misnamed(digester, blocks));
    }
    gather(buffer, blocks, size)?;
    let digests = digester.digest_eight(buffer, size);
    Ok(first_unlike(digester, blocks, size, &digests))
}

/// The number of the first block whose digest isn't that of its bytes. The blocks are taken by
/// eights.
pub fn first_misnamed_in<D: Digester>(
    alloc: Global,
    digester: &D,
    blocks: &[Row],
) -> Result<Option<u64>, AllocError>
    ensures { IfOk result (λ found. found ≡ None → AllByRecursion (HasDigest D.digest_of) blocks.now) }
{
    let mut buffer = Vec::new(alloc);
    let mut rest = blocks;
    'groups: while rest.len() >= 8 {
        let (eight, more) = rest.split_at(8);
        if let Some(row) = first_of_eight(&mut buffer, digester, eight)? {
            return Ok(Some(row));
        }
        rest = more;
    }
    Ok(first_misnamed(digester, rest))
}
