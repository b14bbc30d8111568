//! The object made by chosen parts: their bodies in order, its size and its checksum. No byte is
//! read.

ghost use Rattle.std.specs.Prelude.{◌≡◌, List, map, IfOk};
ghost use Rattle.std.specs.List.{sum_by};
ghost use Rattle.std.specs.String.{string_bytes};
ghost use Rattle.sha2.specs.Sha256.{sha256};
ghost use Rattle.bh_types.specs.Checksums.{checksum_text};
ghost use Rattle.bh_model.specs.State.{Octets};
ghost use Rattle.bh_model.specs.Shown.{naming_of};
ghost use Rattle.bh_core.specs.Completions.{complete_plan};
ghost use Rattle.bh_objects.specs.Found.{Answers};
ghost use Rattle.bh_uploads.specs.Joining.{taken, sums_at, IsJoined, Joins};

use crate::rows::parts::PartList;
use bh_core::parts::{PartRow, check_complete};
use bh_storage::error::{StepError, Trouble};
use bh_types::checksum::{joined_checksum, read_checksum};
use bh_types::error::RequestError;
use bh_types::refusal::Refusal;
use bh_types::wanted::Named;
use std::alloc::{AllocError, Global};

/// An object that is joined from parts.
#[derive(Drop)]
pub struct Joined {
    /// The entry numbers under which the parts' bytes are stored, in their order.
    pub bodies: Vec<u64>,
    /// The total size of the parts, in bytes.
    pub size: u64,
    /// The text of the composite checksum.
    pub checksum: String,
}

/// The entry numbers of the parts at some places.
fn bodies_at(alloc: Global, bodies: &[u64], places: &[usize]) -> Result<Vec<u64>, Trouble>
    ensures { IfOk result (λ chosen. chosen.items ≡ taken bodies.now places.now) }
{
    let mut chosen = Vec::new(alloc);
    for at in places {
        let Some(body) = bodies.get(*at) else {
            return Err(Trouble::Store);
        };
        chosen.push(*body).map_err(AllocError::from)?;
    }
    Ok(chosen)
}

/// The total size of the parts at some places. No object has more than 2^64 bytes.
fn size_at(rows: &[PartRow], places: &[usize]) -> Result<u64, Trouble>
    ensures { IfOk result (λ size. size ≡ sum_by (λ row. row.size) (taken rows.now places.now)) }
{
    let mut size: u64 = 0;
    for at in places {
        let Some(row) = rows.get(*at) else {
            return Err(Trouble::Store);
        };
        let Some(more) = size.checked_add(row.size) else {
            return Err(Trouble::Store);
        };
        size = more;
    }
    Ok(size)
}

/// The digest of a part's bytes, from its text in a row.
fn digest_in(alloc: Global, row: &PartRow) -> Result<[u8; 32], Trouble>
    ensures { IfOk result (λ digest. (bytes : Octets) → string_bytes row.now.sum ≡ checksum_text bytes → digest ≡ sha256 bytes) }
{
    match read_checksum(alloc, row.sum.as_str())? {
        Some(digest) => Ok(digest),
        None => Err(Trouble::Store),
    }
}

/// The digests of the parts at some places.
fn digests_at(alloc: Global, rows: &[PartRow], places: &[usize]) -> Result<Vec<[u8; 32]>, Trouble>
    ensures { IfOk result (λ digests. (parts : List Octets) → sums_at rows.now places.now ≡ map checksum_text parts
        → digests.items ≡ map sha256 parts) }
{
    let mut digests = Vec::new(alloc);
    for at in places {
        let Some(row) = rows.get(*at) else {
            return Err(Trouble::Store);
        };
        digests
            .push(digest_in(alloc, row)?)
            .map_err(AllocError::from)?;
    }
    Ok(digests)
}

/// The object made by the parts at some places.
fn joined_at(alloc: Global, list: &PartList, places: &[usize]) -> Result<Joined, Trouble>
    ensures { IfOk result (λ joined. IsJoined list.now.rows.items list.now.bodies.items places.now joined) }
{
    let digests = digests_at(alloc, &list.rows, places)?;
    Ok(Joined {
        bodies: bodies_at(alloc, &list.bodies, places)?,
        size: size_at(&list.rows, places)?,
        checksum: joined_checksum(alloc, &digests)?,
    })
}

/// The places of the named parts. Refusals: InvalidPartOrder, InvalidPart, EntityTooSmall.
fn named_places(
    alloc: Global,
    rows: &[PartRow],
    named: &[Named],
    least: u64,
) -> Result<Vec<usize>, StepError<Refusal>>
    ensures { Answers (λ places. places.items) (complete_plan least rows.now (map naming_of named.now)) result }
{
    match check_complete(alloc, rows, named, least) {
        Ok(places) => Ok(places),
        Err(RequestError::Refused(refusal)) => Err(StepError::Refused(refusal)),
        Err(RequestError::OutOfMemory) => Err(StepError::Failed(Trouble::Memory)),
    }
}

/// The object that the named parts make. Refusals: InvalidPartOrder, InvalidPart, and
/// EntityTooSmall if one but the last has fewer bytes than `least`.
pub fn join_named(
    alloc: Global,
    list: &PartList,
    named: &[Named],
    least: u64,
) -> Result<Joined, StepError<Refusal>>
    ensures { Joins list.now.rows.items list.now.bodies.items (complete_plan least list.now.rows.items (map naming_of named.now)) result }
{
    let places = named_places(alloc, &list.rows, named, least)?;
    Ok(joined_at(alloc, list, &places)?)
}
