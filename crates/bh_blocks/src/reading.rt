//! The bytes of a body, or of a part of it, block by block. Only the blocks with bytes of that part
//! are read.

ghost use Rattle.std.specs.Prelude.{◌≡◌, ◌⊎◌, ◌++◌, ◌+◌, ◌-◌, ◌<◌, ◌≤◌, ◌^◌, [], List, Contains, map, drop, length, sum_by, Some, IfSome};
ghost use Rattle.std.specs.Prelude.{IfNone, IfOk, OnOk, OnErr};
ghost use Rattle.bh_types.specs.Ranges.{cut};
ghost use Rattle.bh_tables.specs.Schema.{Octets};
ghost use Rattle.bh_tables.specs.Typed.{BlockRow, RefRow, Tables};
ghost use Rattle.bh_tables.specs.Bodies.{block_at, placed};
ghost use Rattle.bh_tables.specs.Shown.{Name, shown_ref};
ghost use Rattle.bh_view.specs.Blocks.{whole};
ghost use Rattle.bh_view.specs.Bodies.{HasBodies};
ghost use Rattle.bh_base.specs.Connections.{IsClean, tables, CanRead, InTransaction, StaysWithin, WasOpen, StaysOpen, ChangesNothing};
ghost use Rattle.bh_cache.specs.Kept.{Agrees};
ghost use Rattle.bh_blocks.specs.Named.{named_by};
ghost use Rattle.bh_blocks.specs.Plans.{IsFirst, coming, planned, shown_from, size_of};
ghost use Rattle.bh_blocks.specs.Windows.{seen_in};

use crate::drafts::append;
use crate::groups::next_place;
use crate::refs::{BlockRef, Place, read_ref, ref_at, ref_rows};
use crate::rows::block_bytes;
use bh_base::connection::Connection;
use bh_cache::blocks::{BlockCache, BlockName};
use bh_shelf::shelf::Shelf;
use bh_types::range::RangePlan;
use sqlite::{Alter, Error, ErrorCode, Row};
use std::alloc::Global;

/// A window on bytes: how many to skip, and the maximum number to return.
#[derive(Clone, Copy)]
pub struct Window {
    pub skip: u64,
    pub left: u64,
}

/// A plan's window on `total` bytes.
fn window_of(plan: RangePlan, total: u64) -> Window
    ensures part { (bytes : Octets) → length bytes ≡ total → seen_in result bytes ≡ cut plan bytes }
    ensures left { result.left ≡ size_of plan total }
{
    match plan {
        RangePlan::Whole => Window {
            skip: 0,
            left: total,
        },
        RangePlan::Part { first, last } => {
            let end = if last < total { last + 1 } else { total };
            Window {
                skip: first,
                left: end.saturating_sub(first),
            }
        }
    }
}

/// The total size of the blocks in rows of references.
fn total_size(rows: &[Row]) -> Result<u64, Error>
    ensures { IfOk result (λ total. (rs : List RefRow) → rows.now ≡ map shown_ref rs → total ≡ sum_by (λ r. r.size) rs) }
{
    let mut total: u64 = 0;
    for row in rows {
        match total.checked_add(read_ref(row)?.size) {
            Some(more) => total = more,
            None => return Err(Error::SqliteFailure(ErrorCode::TooBig)),
        }
    }
    Ok(total)
}

/// The bytes in a window.
fn part_of(bytes: &[u8], window: Window) -> &[u8]
    ensures { result.now ≡ seen_in window bytes.now }
{
    let start = window.skip.min(bytes.len() as u64) as usize;
    let rest = &bytes[start..];
    let count = window.left.min(rest.len() as u64) as usize;
    &rest[..count]
}

/// The window on the bytes after the first `size` ones.
fn after(window: Window, size: u64) -> Window
    ensures skip { result.skip ≡ window.skip - size }
    ensures left { result.left ≡ window.left - (size - window.skip) }
{
    let shown = size.saturating_sub(window.skip);
    Window {
        skip: window.skip.saturating_sub(size),
        left: window.left.saturating_sub(shown),
    }
}

/// Caches the block of a reference, which has these bytes.
fn keep_bytes(cache: &mut BlockCache, alloc: Global, block: &BlockRef, bytes: &[u8])
    ensures { (e : Name × Octets) → Contains cache.new.entries e
        → Contains cache.old.entries e ⊎ (e ≡ (named_by block.now, bytes.now)) }
{
    // Without a cache nothing is copied.
    if cache.tuning().cache_blocks == 0 {
        return;
    }
    if let Some(name) = BlockName::new(&block.digest, block.ord) {
        cache.keep(alloc, name, bytes);
    }
}

/// The part of a block in a window, if the block is cached. The window must have some of its bytes.
fn kept_part(
    cache: &mut BlockCache,
    alloc: Global,
    block: &BlockRef,
    window: Window,
) -> Result<Option<Vec<u8>>, Error>
    ensures entries { (e : Name × Octets) → Contains cache.new.entries e → Contains cache.old.entries e }
    ensures some { IfOk result (λ found. IfSome found (λ bytes. 0 < length bytes.items)) }
    ensures most { IfOk result (λ found. IfSome found (λ bytes. length bytes.items ≤ window.left)) }
    ensures bytes { IfOk result (λ found. IfSome found (λ bytes. (blocks : List BlockRow) → Agrees cache.old blocks
        → bytes.items ≡ seen_in window (block_at blocks (named_by block.now)))) }
{
    let Some(name) = BlockName::new(&block.digest, block.ord) else {
        return Ok(None);
    };
    let bytes = match cache.kept(&name) {
        Some(kept) => copied(alloc, part_of(kept, window))?,
        None => return Ok(None),
    };
    cache.touch(&name);
    Ok(Some(bytes))
}

/// The part of a block in a window. If the block is cached, nothing is read; otherwise it is cached.
/// The window must have some of its bytes.
fn read_part<S: Alter, P: Shelf>(
    connection: &mut Connection<S, P>,
    cache: &mut BlockCache,
    alloc: Global,
    block: &BlockRef,
    window: Window,
) -> Result<Vec<u8>, Error>
    requires reads { CanRead S.Store P.Shelf connection.old }
    requires agrees { IsClean S.Store P.Shelf connection.old → Agrees cache.old (tables S.Store P.Shelf connection.old).blocks }
    requires small { block.now.ord < 2 ^ 63 }
    ensures within { StaysWithin S.Store P.Shelf connection.old connection.new }
    ensures opens { OnOk result (StaysOpen S.Store P.Shelf connection.old connection.new) }
    ensures same { OnOk result (ChangesNothing S.Store P.Shelf connection.old connection.new) }
    ensures agrees { OnOk result (IsClean S.Store P.Shelf connection.new
        → Agrees cache.new (tables S.Store P.Shelf connection.new).blocks) }
    ensures some { IfOk result (λ bytes. 0 < length bytes.items) }
    ensures most { IfOk result (λ bytes. length bytes.items ≤ window.left) }
    ensures bytes { IfOk result (λ bytes. IsClean S.Store P.Shelf connection.new
        → bytes.items ≡ seen_in window (block_at (tables S.Store P.Shelf connection.old).blocks (named_by block.now))) }
{
    if let Some(bytes) = kept_part(cache, alloc, block, window)? {
        return Ok(bytes);
    }
    let whole = block_bytes(connection, &block.digest, block.ord)?;
    keep_bytes(cache, alloc, block, &whole);
    cut_to(alloc, whole, window)
}

/// The part of a block's bytes in a window. There must be some. Where it begins with the first byte, nothing is copied.
fn cut_to(alloc: Global, whole: Vec<u8>, window: Window) -> Result<Vec<u8>, Error>
    ensures some { IfOk result (λ bytes. 0 < length bytes.items) }
    ensures bytes { IfOk result (λ bytes. bytes.items ≡ seen_in window whole.items) }
{
    if window.skip > 0 {
        return copied(alloc, part_of(&whole, window));
    }
    let mut bytes = whole;
    bytes.truncate(window.left as usize);
    if bytes.is_empty() {
        return Err(Error::SqliteFailure(ErrorCode::DatabaseCorrupt));
    }
    Ok(bytes)
}

/// A copy of bytes. There must be some.
fn copied(alloc: Global, part: &[u8]) -> Result<Vec<u8>, Error>
    ensures some { IfOk result (λ bytes. 0 < length bytes.items) }
    ensures same { IfOk result (λ bytes. bytes.items ≡ part.now) }
{
    if part.is_empty() {
        return Err(Error::SqliteFailure(ErrorCode::DatabaseCorrupt));
    }
    Ok(part.to_vec(alloc)?)
}

/// The remaining bytes of a range of a body.
#[derive(Drop)]
pub struct Plan<'a> {
    pub tenant: &'a str,
    /// An entry number of the tenant.
    pub body: u64,
    /// The next block's place in the body, counted from 0.
    pub place: u64,
    /// The window on the bytes from there on.
    pub window: Window,
}

/// Plans the bytes of a range, in a body of `size` bytes. No row is read.
pub fn plan_body<'a>(tenant: &'a str, body: u64, size: u64, range: RangePlan) -> Plan<'a>
    ensures of { planned result ≡ (tenant.now, body) }
    ensures first { result.place ≡ 0 }
    ensures left { result.window.left ≡ size_of range size }
    ensures coming { (tables : Tables) → length (whole tables.refs tables.blocks (tenant.now, body)) ≡ size
        → coming result tables ≡ cut range (whole tables.refs tables.blocks (tenant.now, body)) }
{
    Plan {
        tenant,
        body,
        place: 0,
        window: window_of(range, size),
    }
}

/// A block that a window has some bytes of.
#[derive(Drop)]
struct Shown {
    block: BlockRef,
    place: u64,
    window: Window,
}

/// The next block that a plan has some bytes of, if there is one. Earlier blocks are skipped.
fn find_shown<S: Alter, P: Shelf>(
    connection: &mut Connection<S, P>,
    plan: &Plan<'_>,
) -> Result<Option<Shown>, Error>
    requires reads { CanRead S.Store P.Shelf connection.old }
    requires body { plan.now.body < 2 ^ 63 }
    requires place { plan.now.place < 2 ^ 63 }
    ensures within { StaysWithin S.Store P.Shelf connection.old connection.new }
    ensures opens { OnOk result (StaysOpen S.Store P.Shelf connection.old connection.new) }
    ensures same { OnOk result (ChangesNothing S.Store P.Shelf connection.old connection.new) }
    ensures small { IfOk result (λ found. IfSome found (λ shown. shown.block.ord < 2 ^ 63)) }
    ensures place { IfOk result (λ found. IfSome found (λ shown. shown.place < 2 ^ 63)) }
    ensures shows { IfOk result (λ found. IfSome found (λ shown. shown.window.skip < shown.block.size)) }
    ensures most { IfOk result (λ found. IfSome found (λ shown. shown.window.left ≤ plan.now.window.left)) }
    ensures first { IfOk result (λ found. IsClean S.Store P.Shelf connection.new → HasBodies (tables S.Store P.Shelf connection.old)
        → IfSome found (λ shown. IsFirst (Some shown.block) (drop shown.place
        (placed (tables S.Store P.Shelf connection.old).refs (planned plan.now)))
        × (shown_from shown.window shown.place (planned plan.now) (tables S.Store P.Shelf connection.old)
        ≡ coming plan.now (tables S.Store P.Shelf connection.old)))) }
    ensures none { IfOk result (λ found. IsClean S.Store P.Shelf connection.new → HasBodies (tables S.Store P.Shelf connection.old)
        → IfNone found (coming plan.now (tables S.Store P.Shelf connection.old) ≡ [])) }
{
    let mut place = plan.place;
    let mut window = plan.window;
    'places: while window.left > 0 {
        let at = Place {
            tenant: plan.tenant,
            body: plan.body,
            place,
        };
        match ref_at(connection, &at)? {
            None => return Ok(None),
            Some(block) => {
                if block.size > window.skip {
                    return Ok(Some(Shown {
                        block,
                        place,
                        window,
                    }));
                }
                window = after(window, block.size);
                place = next_place(place)?;
            }
        }
    }
    Ok(None)
}

/// The plan's part of its next block, at least one byte; `None` at the end. It may be called inside
/// a transaction and outside. An error leaves the plan unchanged, and may roll the transaction
/// back.
pub fn next_piece<S: Alter, P: Shelf>(
    connection: &mut Connection<S, P>,
    cache: &mut BlockCache,
    alloc: Global,
    plan: &mut Plan<'_>,
) -> Result<Option<Vec<u8>>, Error>
    requires reads { CanRead S.Store P.Shelf connection.old }
    requires agrees { IsClean S.Store P.Shelf connection.old → Agrees cache.old (tables S.Store P.Shelf connection.old).blocks }
    requires body { plan.old.body < 2 ^ 63 }
    requires place { plan.old.place < 2 ^ 63 }
    ensures within { StaysWithin S.Store P.Shelf connection.old connection.new }
    ensures opens { OnOk result (StaysOpen S.Store P.Shelf connection.old connection.new) }
    ensures agrees { OnOk result (IsClean S.Store P.Shelf connection.new
        → Agrees cache.new (tables S.Store P.Shelf connection.new).blocks) }
    ensures same { OnOk result (ChangesNothing S.Store P.Shelf connection.old connection.new) }
    ensures kept { OnErr result (plan.new ≡ plan.old) }
    ensures of { planned plan.new ≡ planned plan.old }
    ensures body { plan.new.body ≡ plan.old.body }
    ensures place { plan.new.place < 2 ^ 63 }
    ensures some { IfOk result (λ piece. IfSome piece (λ bytes. 0 < length bytes.items)) }
    ensures falls { IfOk result (λ piece. IfSome piece (λ bytes. length bytes.items + plan.new.window.left ≤ plan.old.window.left)) }
    ensures gives { IfOk result (λ piece. IsClean S.Store P.Shelf connection.new → HasBodies (tables S.Store P.Shelf connection.old)
        → IfSome piece (λ bytes.
        coming plan.old (tables S.Store P.Shelf connection.old) ≡ bytes.items ++ coming plan.new (tables S.Store P.Shelf connection.old))) }
    ensures ends { IfOk result (λ piece. IsClean S.Store P.Shelf connection.new → HasBodies (tables S.Store P.Shelf connection.old)
        → IfNone piece (coming plan.old (tables S.Store P.Shelf connection.old) ≡ [])) }
    ensures stays { IfOk result (λ piece. IfNone piece (plan.new ≡ plan.old)) }
{
    match find_shown(connection, plan)? {
        None => Ok(None),
        Some(shown) => {
            let bytes = read_part(connection, cache, alloc, &shown.block, shown.window)?;
            let place = next_place(shown.place)?;
            let count = bytes.as_slice().len() as u64;
            plan.place = place;
            plan.window = Window {
                skip: 0,
                left: shown.window.left - count,
            };
            Ok(Some(bytes))
        }
    }
}

/// Appends all remaining bytes of a plan.
fn append_planned<S: Alter, P: Shelf>(
    connection: &mut Connection<S, P>,
    cache: &mut BlockCache,
    alloc: Global,
    plan: Plan<'_>,
    bytes: &mut Vec<u8>,
) -> Result<(), Error>
    requires reads { CanRead S.Store P.Shelf connection.old }
    requires agrees { IsClean S.Store P.Shelf connection.old → Agrees cache.old (tables S.Store P.Shelf connection.old).blocks }
    requires body { plan.body < 2 ^ 63 }
    requires place { plan.place < 2 ^ 63 }
    ensures within { StaysWithin S.Store P.Shelf connection.old connection.new }
    ensures opens { OnOk result (StaysOpen S.Store P.Shelf connection.old connection.new) }
    ensures agrees { OnOk result (IsClean S.Store P.Shelf connection.new
        → Agrees cache.new (tables S.Store P.Shelf connection.new).blocks) }
    ensures same { OnOk result (ChangesNothing S.Store P.Shelf connection.old connection.new) }
    ensures bytes { OnOk result (IsClean S.Store P.Shelf connection.new → HasBodies (tables S.Store P.Shelf connection.old)
        → bytes.new.items ≡ bytes.old.items ++ coming plan.entry (tables S.Store P.Shelf connection.old)) }
{
    let mut left = plan;
    'pieces: loop {
        match next_piece(connection, cache, alloc, &mut left)? {
            Some(piece) => append(bytes, &piece)?,
            None => return Ok(()),
        }
    }
}

/// The bytes of a body in a plan. Blocks that are read are cached.
pub fn read_body<S: Alter, P: Shelf>(
    connection: &mut Connection<S, P>,
    cache: &mut BlockCache,
    alloc: Global,
    tenant: &str,
    body: u64,
    plan: RangePlan,
) -> Result<Vec<u8>, Error>
    requires inside { InTransaction S.Store P.Shelf connection.old }
    requires kept { IsClean S.Store P.Shelf connection.old → Agrees cache.old (tables S.Store P.Shelf connection.old).blocks }
    requires small { body < 2 ^ 63 }
    ensures within { StaysWithin S.Store P.Shelf connection.old connection.new }
    ensures opens { OnOk result (WasOpen S.Store P.Shelf connection.old connection.new) }
    ensures same { OnOk result (ChangesNothing S.Store P.Shelf connection.old connection.new) }
    ensures kept { OnOk result (IsClean S.Store P.Shelf connection.new → Agrees cache.new (tables S.Store P.Shelf connection.new).blocks) }
    ensures read { IfOk result (λ bytes. IsClean S.Store P.Shelf connection.new → HasBodies (tables S.Store P.Shelf connection.old)
        → bytes.items ≡ cut plan (whole (tables S.Store P.Shelf connection.old).refs (tables S.Store P.Shelf connection.old).blocks
        (tenant.now, body))) }
{
    let rows = ref_rows(connection, tenant, body)?;
    let planned = plan_body(tenant, body, total_size(&rows)?, plan);
    let mut bytes = Vec::with_capacity(alloc, planned.window.left as usize)?;
    append_planned(connection, cache, alloc, planned, &mut bytes)?;
    Ok(bytes)
}
