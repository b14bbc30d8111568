//! The parts of an upload, a page at a time.

ghost use Rattle.std.specs.Prelude.{◌≡◌, ◌<◌, ◌^◌, map, option_map, IfOk};
ghost use Rattle.bh_tables.specs.Typed.{PartRow};
ghost use Rattle.bh_schema.specs.Calls.{MayRead};
ghost use Rattle.bh_base.specs.Connections.{IsClean, tables, InTransaction, StaysWithin, StaysOpen};
ghost use Rattle.bh_schema.specs.Working.{Works, StillWorks};
ghost use Rattle.bh_model.specs.Listings.{list_parts};
ghost use Rattle.bh_model.specs.Operations.{Parts};
ghost use Rattle.bh_model.specs.Pages.{PartItem, paged, parts_told};
ghost use Rattle.bh_storage.specs.Calls.{Unless, Carries};
ghost use Rattle.bh_docs.specs.Pages.{part_view, parts_view};
ghost use Rattle.bh_upload_listing.specs.Rows.{part_item, parts_from};
ghost use Rattle.bh_upload_listing.specs.Parts as spec;
ghost use Rattle.bh_upload_listing.specs.Parts.{seen_part};

use crate::rows::part_rows;
use bh_base::connection::Connection;
use bh_docs::{PartEntry, PartsPage, Stored};
use bh_listing::from_row::{FromRow, read_rows};
use bh_listing::tell::{last_shown, moment_of, shown_of};
use bh_schema::trouble::or_trouble;
use bh_shelf::shelf::Shelf;
use bh_storage::error::{StepError, Trouble};
use bh_types::id::UploadId;
use bh_types::refusal::Refusal;
use bh_uploads::reads::{NamedUpload, found_upload};
use sqlite::{Alter, Error, Row};
use std::alloc::{AllocError, Global};

/// A request for a page of an upload's parts.
#[derive(Clone, Copy)]
pub struct PartsAsked {
    /// The maximum number of parts on the page.
    pub max: u32,
    /// The number after which the page begins; 0 for the first page.
    pub after: u64,
}

/// A part's row.
#[derive(Drop)]
pub struct PartLine {
    pub number: u32,
    /// In bytes.
    pub size: u64,
    pub checksum: String,
    /// When it was stored, in seconds since 1970.
    pub stamp: u64,
}

impl FromRow for PartLine {
    ghost Of = { PartRow };

    ghost Seen = { PartItem };

    ghost columns = { spec.columns };

    fn from_row(row: &Row) -> Result<PartLine, Error> {
        Ok(PartLine {
            number: row.get(0)?,
            size: row.get(1)?,
            checksum: row.get(2)?,
            stamp: row.get(3)?,
        })
    }
}

/// The first parts of an upload with a greater number than `after`, by number, at most `count` of
/// them.
fn part_lines<S: Alter, P: Shelf>(
    connection: &mut Connection<S, P>,
    alloc: Global,
    tenant: &str,
    upload: u64,
    after: u64,
    count: u64,
) -> Result<Vec<PartLine>, Trouble>
    requires inside { InTransaction S.Store P.Shelf connection.old }
    requires upload { upload < 2 ^ 62 }
    requires early { after < 2 ^ 63 }
    requires small { count < 2 ^ 63 }
    ensures reads { MayRead S.Store P.Shelf connection.old connection.new result }
    ensures lines { IfOk result (λ lines. IsClean S.Store P.Shelf connection.new
        → map seen_part lines.items
        ≡ map part_item (parts_from tenant.now upload after count (tables S.Store P.Shelf connection.old).parts)) }
{
    let rows = or_trouble(part_rows(connection, tenant, upload, after, count))?;
    or_trouble(read_rows(alloc, &rows))
}

/// A part's form in a page.
fn part_entry(alloc: Global, line: &PartLine) -> Result<PartEntry, Trouble>
    ensures { IfOk result (λ entry. part_view entry ≡ seen_part line.now) }
{
    Ok(PartEntry {
        number: line.number,
        stored: Stored {
            checksum: String::from_str(alloc, line.checksum.as_str())?,
            modified: moment_of(line.stamp)?,
            size: line.size,
        },
    })
}

fn part_entries(alloc: Global, lines: &[PartLine]) -> Result<Vec<PartEntry>, Trouble>
    ensures { IfOk result (λ parts. map part_view parts.items ≡ map seen_part lines.now) }
{
    let mut parts = Vec::new(alloc);
    for line in lines {
        let part = part_entry(alloc, line)?;
        parts.push(part).map_err(AllocError::from)?;
    }
    Ok(parts)
}

/// The number after which the next page begins, if this one is truncated.
fn next_number(lines: &[PartLine], max: u32) -> Option<u32>
    ensures { result ≡ option_map (λ (p : PartItem). p.number) (paged max (map seen_part lines.now)).next }
{
    let Some(last) = last_shown(lines, max) else {
        return None;
    };
    Some(last.number)
}

/// A page from these parts: those that belong to it, and one more if there is one.
fn told_parts(
    alloc: Global,
    upload: &NamedUpload<'_>,
    number: u64,
    max: u32,
    lines: &[PartLine],
) -> Result<PartsPage, Trouble>
    ensures { IfOk result (λ page. parts_view page
        ≡ parts_told upload.now.bucket.now upload.now.key.now (record { number = number }) max (paged max (map seen_part lines.now))) }
{
    let shown = shown_of(lines, max);
    Ok(PartsPage {
        bucket: String::from_str(alloc, upload.bucket.as_str())?,
        key: String::from_str(alloc, upload.key.as_str())?,
        upload: UploadId { number },
        max,
        parts: part_entries(alloc, shown)?,
        next: next_number(lines, max),
    })
}

/// S3's ListParts: a page of an upload's parts. Refusals: NoSuchBucket, NoSuchUpload.
pub fn list_parts<S: Alter, P: Shelf>(
    connection: &mut Connection<S, P>,
    alloc: Global,
    upload: &NamedUpload<'_>,
    asked: PartsAsked,
) -> Result<PartsPage, StepError<Refusal>>
    requires working { Works S.Store P.Shelf connection.old }
    ensures within { StaysWithin S.Store P.Shelf connection.old connection.new }
    ensures opens { Unless result (StaysOpen S.Store P.Shelf connection.old connection.new) }
    ensures working { Unless result (StillWorks S.Store P.Shelf connection.old connection.new) }
    ensures carries { IsClean S.Store P.Shelf connection.new
        → Carries (λ page. Parts (parts_view page)) upload.now.tenant.now
        (list_parts upload.now.bucket.now upload.now.key.now upload.now.upload asked.max asked.after)
        (tables S.Store P.Shelf connection.old) (tables S.Store P.Shelf connection.new) result }
{
    // A marker has at most ten digits.
    if asked.after >= 1 << 63 {
        return Err(StepError::Failed(Trouble::Store));
    }
    let found = found_upload(connection, upload)?;
    let lines = part_lines(
        connection,
        alloc,
        upload.tenant.as_str(),
        found.number,
        asked.after,
        u64::from(asked.max) + 1,
    )?;
    Ok(told_parts(alloc, upload, found.number, asked.max, &lines)?)
}
