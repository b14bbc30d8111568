//! The uploads of a bucket, a page at a time.

ghost use Rattle.std.specs.Prelude.{◌≡◌, ◌^◌, min, map, option_map, IfOk};
ghost use Rattle.bh_schema.specs.Calls.{MayRead};
ghost use Rattle.bh_base.specs.Connections.{IsClean, tables, StaysWithin, StaysOpen};
ghost use Rattle.bh_schema.specs.Working.{Works, StillWorks};
ghost use Rattle.bh_model.specs.Listings.{list_uploads};
ghost use Rattle.bh_model.specs.Operations.{Uploads};
ghost use Rattle.bh_storage.specs.Calls.{Unless, Carries};
ghost use Rattle.bh_pages.specs.Seen.{token_of};
ghost use Rattle.bh_pages.specs.Places.{IsUnder};
ghost use Rattle.bh_pages.specs.Gathered.{IsPage};
ghost use Rattle.bh_pages.specs.Uploads.{seen_entry};
ghost use Rattle.bh_pages.specs.Versions.{seen_place};
ghost use Rattle.bh_docs.specs.Pages.{uploads_view};
ghost use Rattle.bh_listing.specs.Told.{asked_view};
ghost use Rattle.bh_listing.specs.Uploads.{own_items};
ghost use Rattle.bh_upload_listing.specs.Places.{place_view, marked, place_by, listed_from};

use bh_base::connection::Connection;
use bh_docs::UploadsPage;
use bh_listing::rows::{Keys, lines_at};
use bh_listing::tell::tell;
use bh_objects::reads::bucket_state;
use bh_pages::gathering::{Listed, PageAsked, past};
use bh_pages::places::Place;
use bh_pages::uploads::{UploadLine, UploadReading};
use bh_shelf::shelf::Shelf;
use bh_storage::error::{StepError, Trouble};
use bh_types::bucket::BucketName;
use bh_types::counters::COUNTER_END;
use bh_types::id::UploadId;
use bh_types::names::TenantName;
use bh_types::refusal::Refusal;
use sqlite::Alter;
use std::alloc::{AllocError, Global};

/// The number after which uploads are later than this one. No counter reaches 2^62.
fn number_of(id: UploadId) -> u64
    ensures { result ≡ min id.number (2 ^ 62) }
{
    if id.number < COUNTER_END {
        id.number
    } else {
        COUNTER_END
    }
}

/// The marker's key and a number, if the page comes after one upload of a key under the prefix.
fn marked_upload<'a>(asked: &PageAsked<'a>, upload: Option<UploadId>) -> Option<(&'a [u8], u64)>
    ensures { option_map (λ m. (m.0.now, m.1)) result ≡ marked asked.now.prefix.now (token_of asked.now) upload }
{
    let Some(key) = asked.after else {
        return None;
    };
    let Some(id) = upload else {
        return None;
    };
    if key.starts_with(asked.prefix) {
        Some((key, number_of(id)))
    } else {
        None
    }
}

/// The position of a page: after an upload of a key, or after all uploads of the marker's key, if
/// there is a marker.
fn start_place(
    alloc: Global,
    asked: &PageAsked<'_>,
    upload: Option<UploadId>,
) -> Result<Place, AllocError>
    ensures is { IfOk result (λ place. seen_place place
        ≡ place_by asked.now (marked asked.now.prefix.now (token_of asked.now) upload)) }
    ensures under { IfOk result (λ place. IsUnder asked.now.prefix.now place.key.items place.after) }
{
    match marked_upload(asked, upload) {
        Some((key, number)) => Ok(Place {
            key: Vec::from_slice(alloc, key)?,
            after: Some(number),
        }),
        None => Ok(Place {
            key: asked.start(alloc)?,
            after: None,
        }),
    }
}

/// The entries of a page of a bucket's uploads from a place on, and one more if there is one.
fn gather_uploads<S: Alter, P: Shelf>(
    connection: &mut Connection<S, P>,
    alloc: Global,
    tenant: &str,
    bucket: &str,
    asked: &PageAsked<'_>,
    place: Place,
) -> Result<Vec<Listed<UploadLine>>, Trouble>
    requires working { Works S.Store P.Shelf connection.old }
    requires under { IsUnder asked.now.prefix.now place.key.items place.after }
    ensures reads { MayRead S.Store P.Shelf connection.old connection.new result }
    ensures gathered { IfOk result (λ entries. IsClean S.Store P.Shelf connection.new
        → IsPage asked.now.max (map seen_entry entries.items)
        (listed_from asked.now (seen_place place) (own_items tenant.now bucket.now (tables S.Store P.Shelf connection.old).uploads))) }
{
    let upto = past(alloc, asked.prefix, 255)?;
    let keys = Keys {
        tenant,
        bucket,
        upto: upto.as_slice(),
    };
    let mut reading = UploadReading::begin(alloc, asked, place, None);
    'reading: for _ in 0..u64::MAX {
        let lines: Vec<UploadLine> = lines_at(
            connection,
            alloc,
            &keys,
            &reading.place,
            reading.count,
        )?;
        if reading.take(alloc, asked, lines.as_slice())? {
            return Ok(reading.into_entries());
        }
    }
    // There are fewer rows than that.
    Err(Trouble::Store)
}

/// S3's ListMultipartUploads: a page of a bucket's uploads. Refusal: NoSuchBucket.
pub fn list_uploads<S: Alter, P: Shelf>(
    connection: &mut Connection<S, P>,
    alloc: Global,
    tenant: &TenantName,
    bucket: &BucketName,
    asked: &PageAsked<'_>,
    upload: Option<UploadId>,
) -> Result<UploadsPage, StepError<Refusal>>
    requires working { Works S.Store P.Shelf connection.old }
    ensures within { StaysWithin S.Store P.Shelf connection.old connection.new }
    ensures opens { Unless result (StaysOpen S.Store P.Shelf connection.old connection.new) }
    ensures working { Unless result (StillWorks S.Store P.Shelf connection.old connection.new) }
    ensures carries { IsClean S.Store P.Shelf connection.new
        → Carries (λ page. Uploads (uploads_view page)) tenant.now
        (list_uploads bucket.now (asked_view asked.now) (place_view asked.now upload))
        (tables S.Store P.Shelf connection.old) (tables S.Store P.Shelf connection.new) result }
{
    bucket_state(connection, tenant, bucket)?;
    let place = start_place(alloc, asked, upload)?;
    let entries = gather_uploads(
        connection,
        alloc,
        tenant.as_str(),
        bucket.as_str(),
        asked,
        place,
    )?;
    Ok(tell(alloc, bucket.as_str(), asked, &entries)?)
}
