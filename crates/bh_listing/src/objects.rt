//! The objects of a bucket, a page at a time.

ghost use Rattle.std.specs.Prelude.{map, IfOk};
ghost use Rattle.bh_schema.specs.Calls.{MayRead};
ghost use Rattle.bh_base.specs.Connections.{IsClean, tables, StaysWithin, StaysOpen};
ghost use Rattle.bh_schema.specs.Working.{Works, StillWorks};
ghost use Rattle.bh_model.specs.Listings.{list_objects};
ghost use Rattle.bh_model.specs.Operations.{Objects};
ghost use Rattle.bh_storage.specs.Calls.{Unless, Carries};
ghost use Rattle.bh_pages.specs.Gathered.{IsPage};
ghost use Rattle.bh_pages.specs.Reading.{listing};
ghost use Rattle.bh_pages.specs.Seen.{seen_entry, token_of};
ghost use Rattle.bh_listing.specs.Rows.{row_shown, bucket_rows};
ghost use Rattle.bh_docs.specs.Pages.{page_view};
ghost use Rattle.bh_listing.specs.Told.{asked_view};

use crate::lines::object_lines;
use crate::rows::Keyed;
use crate::tell::tell;
use bh_base::connection::Connection;
use bh_docs::ObjectsPage;
use bh_objects::reads::bucket_state;
use bh_pages::gathering::{Listed, ObjectLine, PageAsked, past};
use bh_pages::reading::Reading;
use bh_shelf::shelf::Shelf;
use bh_storage::error::{StepError, Trouble};
use bh_types::bucket::BucketName;
use bh_types::names::TenantName;
use bh_types::refusal::Refusal;
use sqlite::Alter;
use std::alloc::Global;

/// The entries of a page of a bucket's objects, and one more if there is one.
fn gather_objects<S: Alter, P: Shelf>(
    connection: &mut Connection<S, P>,
    alloc: Global,
    tenant: &str,
    bucket: &str,
    asked: &PageAsked<'_>,
) -> Result<Vec<Listed<ObjectLine>>, Trouble>
    requires working { Works S.Store P.Shelf connection.old }
    ensures reads { MayRead S.Store P.Shelf connection.old connection.new result }
    ensures gathered { IfOk result (λ entries. IsClean S.Store P.Shelf connection.new
        → IsPage asked.now.max (map seen_entry entries.items)
        (listing asked.now (map row_shown
        (bucket_rows tenant.now bucket.now asked.now.prefix.now (tables S.Store P.Shelf connection.old).versions)))) }
{
    let upto = past(alloc, asked.prefix, 255)?;
    let mut reading = Reading::begin(alloc, asked)?;
    'reading: for _ in 0..u64::MAX {
        let at = Keyed {
            tenant,
            bucket,
            from: reading.from.as_slice(),
            upto: upto.as_slice(),
            count: reading.count,
        };
        let lines = object_lines(connection, alloc, &at)?;
        if reading.take(alloc, asked, lines.as_slice())? {
            return Ok(reading.into_entries());
        }
    }
    // There are fewer rows than that.
    Err(Trouble::Store)
}

/// S3's ListObjectsV2: a page of a bucket's objects. Refusal: NoSuchBucket.
pub fn list_objects<S: Alter, P: Shelf>(
    connection: &mut Connection<S, P>,
    alloc: Global,
    tenant: &TenantName,
    bucket: &BucketName,
    asked: &PageAsked<'_>,
) -> Result<ObjectsPage, StepError<Refusal>>
    requires working { Works S.Store P.Shelf connection.old }
    ensures within { StaysWithin S.Store P.Shelf connection.old connection.new }
    ensures opens { Unless result (StaysOpen S.Store P.Shelf connection.old connection.new) }
    ensures working { Unless result (StillWorks S.Store P.Shelf connection.old connection.new) }
    ensures carries { IsClean S.Store P.Shelf connection.new
        → Carries (λ page. Objects (page_view page)) tenant.now (list_objects bucket.now (asked_view asked.now) (token_of asked.now))
        (tables S.Store P.Shelf connection.old) (tables S.Store P.Shelf connection.new) result }
{
    bucket_state(connection, tenant, bucket)?;
    let entries = gather_objects(connection, alloc, tenant.as_str(), bucket.as_str(), asked)?;
    Ok(tell(alloc, bucket.as_str(), asked, &entries)?)
}
