//! The versions and delete markers of a bucket, a page at a time.

ghost use Rattle.std.specs.Prelude.{◌≡◌, map, option_map, Some, IfOk};
ghost use Rattle.bh_types.specs.declared.wanted.Wanted.TheVariants.{Named};
ghost use Rattle.bh_view.specs.Wanted.{wanted_row};
ghost use Rattle.bh_schema.specs.Calls.{MayRead};
ghost use Rattle.bh_base.specs.Connections.{IsClean, tables, StaysWithin, StaysOpen};
ghost use Rattle.bh_schema.specs.Working.{Works, StillWorks};
ghost use Rattle.bh_model.specs.Listings.{list_versions};
ghost use Rattle.bh_model.specs.Operations.{Versions};
ghost use Rattle.bh_storage.specs.Calls.{Unless, Carries};
ghost use Rattle.bh_pages.specs.Seen.{token_of};
ghost use Rattle.bh_pages.specs.Gathered.{IsPage};
ghost use Rattle.bh_pages.specs.Versions.{IsUnder, seen_entry};
ghost use Rattle.bh_docs.specs.Pages.{versions_view};
ghost use Rattle.bh_listing.specs.Told.{asked_view};
ghost use Rattle.bh_listing.specs.Versions.{own_rows, versions_of_rows, listed_from, seen_start, past_marker, past_entry, marked};
ghost use Rattle.bh_listing.specs.Versions.{place_view};

use crate::rows::{Keys, lines_at};
use crate::tell::tell;
use bh_base::connection::Connection;
use bh_docs::VersionsPage;
use bh_objects::ids::number_of;
use bh_objects::reads::bucket_state;
use bh_pages::gathering::{Listed, PageAsked, past};
use bh_pages::places::Place;
use bh_pages::versions::{ShownVersion, VersionLine, VersionReading};
use bh_schema::rows::versions::version_of_id;
use bh_schema::trouble::or_trouble;
use bh_shelf::shelf::Shelf;
use bh_storage::error::{StepError, Trouble};
use bh_types::bucket::BucketName;
use bh_types::id::VersionId;
use bh_types::names::TenantName;
use bh_types::refusal::Refusal;
use bh_types::wanted::Wanted;
use sqlite::Alter;
use std::alloc::{AllocError, Global};

/// The position at which a page begins.
#[derive(Drop)]
pub struct Start {
    pub place: Place,
    /// The key of the rows before the position, if one is listed there.
    pub key: Option<Vec<u8>>,
}

/// The marker's key and an id, if the page comes after one version of a key under the prefix.
fn marked_version<'a>(asked: &PageAsked<'a>, version: Wanted) -> Option<(&'a [u8], VersionId)>
    ensures { option_map (λ m. (m.0.now, m.1)) result ≡ marked asked.now.prefix.now (token_of asked.now) version }
{
    let Some(key) = asked.after else {
        return None;
    };
    match version {
        Wanted::Current => None,
        Wanted::Named(id) => {
            if key.starts_with(asked.prefix) {
                Some((key, id))
            } else {
                None
            }
        }
        Wanted::Unknown => None,
    }
}

/// The position after all entries of the marker's key, if there is a marker.
fn start_past(alloc: Global, asked: &PageAsked<'_>) -> Result<Start, AllocError>
    ensures { IfOk result (λ start. seen_start start ≡ past_marker asked.now) }
{
    let key = asked.start(alloc)?;
    Ok(Start {
        place: Place { key, after: None },
        key: None,
    })
}

/// The position after an entry of a key.
fn start_older(alloc: Global, key: &[u8], seq: u64) -> Result<Start, AllocError>
    ensures { IfOk result (λ start. seen_start start ≡ past_entry key.now seq) }
{
    Ok(Start {
        place: Place {
            key: Vec::from_slice(alloc, key)?,
            after: Some(seq),
        },
        key: Some(Vec::from_slice(alloc, key)?),
    })
}

/// The entry number of a key's version with this id, if there is one.
fn seq_of<S: Alter, P: Shelf>(
    connection: &mut Connection<S, P>,
    tenant: &str,
    bucket: &str,
    key: &[u8],
    id: VersionId,
) -> Result<Option<u64>, Trouble>
    requires { Works S.Store P.Shelf connection.old }
    ensures reads { MayRead S.Store P.Shelf connection.old connection.new result }
    ensures seq { IfOk result (λ seq. IsClean S.Store P.Shelf connection.new
        → seq ≡ option_map (λ v. v.seq)
        (wanted_row tenant.now bucket.now key.now (Named id) (tables S.Store P.Shelf connection.old).versions)) }
{
    let Some(number) = number_of(id) else {
        return Ok(None);
    };
    match or_trouble(version_of_id(connection, tenant, bucket, key, number))? {
        Some(head) => Ok(Some(head.seq)),
        None => Ok(None),
    }
}

/// The position of the page after a marker. The marker's version may be missing.
fn start_of<S: Alter, P: Shelf>(
    connection: &mut Connection<S, P>,
    alloc: Global,
    tenant: &str,
    bucket: &str,
    asked: &PageAsked<'_>,
    version: Wanted,
) -> Result<Start, Trouble>
    requires working { Works S.Store P.Shelf connection.old }
    ensures reads { MayRead S.Store P.Shelf connection.old connection.new result }
    ensures under { IfOk result (λ start. IsUnder asked.now.prefix.now start.place.key.items start.place.after) }
    ensures begins { IfOk result (λ start. IsClean S.Store P.Shelf connection.new
        → listed_from asked.now (seen_start start) (own_rows tenant.now bucket.now (tables S.Store P.Shelf connection.old).versions)
        ≡ versions_of_rows asked.now version (own_rows tenant.now bucket.now (tables S.Store P.Shelf connection.old).versions)) }
{
    let Some((key, id)) = marked_version(asked, version) else {
        return Ok(start_past(alloc, asked)?);
    };
    match seq_of(connection, tenant, bucket, key, id)? {
        Some(seq) => Ok(start_older(alloc, key, seq)?),
        None => Ok(start_past(alloc, asked)?),
    }
}

/// The entries of a page of a bucket's versions from here on, and one more if there is one.
fn gather_versions<S: Alter, P: Shelf>(
    connection: &mut Connection<S, P>,
    alloc: Global,
    tenant: &str,
    bucket: &str,
    asked: &PageAsked<'_>,
    start: Start,
) -> Result<Vec<Listed<ShownVersion>>, Trouble>
    requires working { Works S.Store P.Shelf connection.old }
    requires under { IsUnder asked.now.prefix.now start.place.key.items start.place.after }
    ensures reads { MayRead S.Store P.Shelf connection.old connection.new result }
    ensures gathered { IfOk result (λ entries. IsClean S.Store P.Shelf connection.new
        → IsPage asked.now.max (map seen_entry entries.items)
        (listed_from asked.now (seen_start start) (own_rows tenant.now bucket.now (tables S.Store P.Shelf connection.old).versions))) }
{
    let upto = past(alloc, asked.prefix, 255)?;
    let keys = Keys {
        tenant,
        bucket,
        upto: upto.as_slice(),
    };
    let mut reading = VersionReading::begin(alloc, asked, start.place, start.key);
    'reading: for _ in 0..u64::MAX {
        let lines: Vec<VersionLine> = lines_at(
            connection,
            alloc,
            &keys,
            &reading.place,
            reading.count,
        )?;
        if reading.take(alloc, asked, lines.as_slice())? {
            return Ok(reading.into_entries());
        }
    }
    // There are fewer rows than that.
    Err(Trouble::Store)
}

/// The entries of a page of a bucket's versions, and one more if there is one.
fn page_entries<S: Alter, P: Shelf>(
    connection: &mut Connection<S, P>,
    alloc: Global,
    tenant: &str,
    bucket: &str,
    asked: &PageAsked<'_>,
    version: Wanted,
) -> Result<Vec<Listed<ShownVersion>>, Trouble>
    requires working { Works S.Store P.Shelf connection.old }
    ensures reads { MayRead S.Store P.Shelf connection.old connection.new result }
    ensures gathered { IfOk result (λ entries. IsClean S.Store P.Shelf connection.new
        → IsPage asked.now.max (map seen_entry entries.items)
        (versions_of_rows asked.now version (own_rows tenant.now bucket.now (tables S.Store P.Shelf connection.old).versions))) }
{
    let start = start_of(connection, alloc, tenant, bucket, asked, version)?;
    gather_versions(connection, alloc, tenant, bucket, asked, start)
}

/// S3's ListObjectVersions: a page of a bucket's versions and delete markers. Refusal:
/// NoSuchBucket.
pub fn list_versions<S: Alter, P: Shelf>(
    connection: &mut Connection<S, P>,
    alloc: Global,
    tenant: &TenantName,
    bucket: &BucketName,
    asked: &PageAsked<'_>,
    version: Wanted,
) -> Result<VersionsPage, StepError<Refusal>>
    requires working { Works S.Store P.Shelf connection.old }
    ensures within { StaysWithin S.Store P.Shelf connection.old connection.new }
    ensures opens { Unless result (StaysOpen S.Store P.Shelf connection.old connection.new) }
    ensures working { Unless result (StillWorks S.Store P.Shelf connection.old connection.new) }
    ensures carries { IsClean S.Store P.Shelf connection.new
        → Carries (λ page. Versions (versions_view page)) tenant.now
        (list_versions bucket.now (asked_view asked.now) (place_view asked.now version))
        (tables S.Store P.Shelf connection.old) (tables S.Store P.Shelf connection.new) result }
{
    bucket_state(connection, tenant, bucket)?;
    let entries = page_entries(
        connection,
        alloc,
        tenant.as_str(),
        bucket.as_str(),
        asked,
        version,
    )?;
    Ok(tell(alloc, bucket.as_str(), asked, &entries)?)
}
