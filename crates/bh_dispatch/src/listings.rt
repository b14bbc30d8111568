//! The operations that list a bucket's contents, a page at a time.
ghost use Rattle.std.specs.Option.{option_copied};
ghost use Rattle.std.specs.Prelude.{◌≡◌, option_map};
ghost use Rattle.bh_listing.specs.Told.{asked_view};
ghost use Rattle.bh_machine.specs.Machine.{listing_operated, page_asked, place_asked, upload_asked};
ghost use Rattle.bh_pages.specs.Seen.{token_of};
ghost use Rattle.bh_http.specs.Answers.{response_view};
ghost use Rattle.bh_host.specs.Offers.{responded};
ghost use Rattle.bh_schema.specs.Working.{Works};
ghost use Rattle.bh_dispatch.specs.Operating.{CarriesOut};

use crate::answers::told;
use crate::operations::bytes_of;
use bh_base::connection::Connection;
use bh_http::response::Response;
use bh_listing::objects::list_objects;
use bh_listing::versions::list_versions;
use bh_operation::operation::ListingOperation;
use bh_operation::page::{Page, UploadMarker, VersionMarker};
use bh_pages::gathering::PageAsked;
use bh_shelf::shelf::Shelf;
use bh_storage::error::StepError;
use bh_types::id::UploadId;
use bh_types::names::TenantName;
use bh_types::rejection::Rejection;
use bh_types::wanted::Wanted;
use bh_upload_listing::uploads::list_uploads;
use sqlite::Alter;
use std::alloc::Global;

/// A request for the page after this key.
fn page_of<'a>(page: &'a Page, after: Option<&'a [u8]>) -> PageAsked<'a>
    ensures asked { asked_view result ≡ page_asked page.now }
    ensures after { token_of result ≡ option_copied after.entry }
{
    PageAsked {
        prefix: page.prefix.as_str().as_bytes(),
        delimiter: page.delimiter.as_str().as_bytes(),
        after,
        max: page.size,
    }
}

/// The marker's key, and the version of it after which a page of versions begins.
fn version_after(after: &Option<VersionMarker>) -> (Option<&[u8]>, Wanted)
    ensures { option_map (λ key. record { key = key; version = result.1 }) (option_copied result.0) ≡ option_map place_asked after.now }
{
    match after {
        Some(marker) => (Some(marker.key.as_str().as_bytes()), marker.version),
        None => (None, Wanted::Current),
    }
}

/// The marker's key, and the upload of it after which a page of uploads begins.
fn upload_after(after: &Option<UploadMarker>) -> (Option<&[u8]>, Option<UploadId>)
    ensures { option_map (λ key. record { key = key; upload = result.1 }) (option_copied result.0) ≡ option_map upload_asked after.now }
{
    match after {
        Some(marker) => (Some(marker.key.as_str().as_bytes()), marker.upload),
        None => (None, None),
    }
}

/// Returns a page of a bucket's contents.
pub fn operate_listing<S: Alter, P: Shelf>(
    connection: &mut Connection<S, P>,
    alloc: Global,
    tenant: &TenantName,
    operation: &ListingOperation,
) -> Result<Response, StepError<Rejection>>
    requires { Works S.Store P.Shelf connection.old }
    ensures { CarriesOut S.Store P.Shelf response_view tenant.now (λ s. responded (listing_operated operation.now s))
        connection.old connection.new result }
{
    match operation {
        ListingOperation::ListObjectsV2 {
            bucket,
            page,
            token,
        } => {
            let page = page_of(page, bytes_of(token));
            told(
                alloc,
                list_objects(connection, alloc, tenant, bucket, &page),
            )
        }
        ListingOperation::ListObjectVersions {
            bucket,
            page,
            after,
        } => {
            let (key, version) = version_after(after);
            let page = page_of(page, key);
            let listed = list_versions(connection, alloc, tenant, bucket, &page, version);
            told(alloc, listed)
        }
        ListingOperation::ListMultipartUploads {
            bucket,
            page,
            after,
        } => {
            let (key, upload) = upload_after(after);
            let page = page_of(page, key);
            let listed = list_uploads(connection, alloc, tenant, bucket, &page, upload);
            told(alloc, listed)
        }
    }
}
