//! The operations on a bucket. The parameters and header fields that one needs are checked first, and then the bucket's name.
ghost use Rattle.std.specs.Prelude.{None, Some};
ghost use Rattle.bh_types.specs.Outcomes.{Gives};
ghost use Rattle.bh_http.specs.Views.{pairs_of};
ghost use Rattle.bh_operation.specs.Addresses as addresses;
ghost use Rattle.bh_operation.specs.Operations as spec;
ghost use Rattle.bh_operation.specs.declared.query.Selector.TheVariants as by;

use crate::address::bucket_named;
use crate::headers::lock_in;
use crate::method::Method;
use crate::operation::{
    BareOperation, BucketOperation, DocumentOperation, LifecycleOperation, ListingOperation,
    Operation,
};
use crate::page::{page_in, second_version, token_of, upload_marker, upload_page, version_marker};
use crate::query::Selector;
use crate::read::RequestParts;
use crate::text::Text;
use BareOperation::{Bucket, Lifecycle, Listing};
use Operation::{Bare, ByDocument};
use bh_types::bucket::BucketName;
use bh_types::error::RequestError;
use bh_types::refusal::Refusal;

/// The bucket's name.
fn named(asked: &RequestParts, text: Text) -> Result<BucketName, RequestError>
    ensures { Gives (λ name. name) result (addresses.bucket_named asked.now.caller.now text) }
{
    bucket_named(asked.alloc, asked.caller, text)
}

#[tactic(auto, unfolding(crate::specs::Operations::list_objects, crate::specs::Pages::key_page))]
fn list_objects(asked: &RequestParts, text: Text) -> Result<Operation, RequestError>
    ensures { Gives (λ x. x) result (spec.list_objects asked.now.caller.now text asked.now.parameters.now) }
{
    second_version(asked.parameters)?;
    let page = page_in(asked.alloc, "max-keys", asked.parameters)?;
    let token = token_of(asked.alloc, asked.parameters)?;
    let bucket = named(asked, text)?;
    Ok(Bare(Listing(ListingOperation::ListObjectsV2 {
        bucket,
        page,
        token,
    })))
}

#[tactic(auto, unfolding(crate::specs::Operations::list_versions, crate::specs::Pages::key_page))]
fn list_versions(asked: &RequestParts, text: Text) -> Result<Operation, RequestError>
    ensures { Gives (λ x. x) result (spec.list_versions asked.now.caller.now text asked.now.parameters.now) }
{
    let page = page_in(asked.alloc, "max-keys", asked.parameters)?;
    let after = version_marker(asked.alloc, asked.parameters)?;
    let bucket = named(asked, text)?;
    Ok(Bare(Listing(ListingOperation::ListObjectVersions {
        bucket,
        page,
        after,
    })))
}

#[tactic(auto, unfolding(crate::specs::Operations::list_uploads))]
fn list_uploads(asked: &RequestParts, text: Text) -> Result<Operation, RequestError>
    ensures { Gives (λ x. x) result (spec.list_uploads asked.now.caller.now text asked.now.parameters.now) }
{
    let page = upload_page(asked.alloc, asked.parameters)?;
    let after = upload_marker(asked.alloc, asked.parameters)?;
    let bucket = named(asked, text)?;
    Ok(Bare(Listing(ListingOperation::ListMultipartUploads {
        bucket,
        page,
        after,
    })))
}

#[tactic(auto, unfolding(crate::specs::Operations::create_bucket))]
fn create_bucket(asked: &RequestParts, text: Text) -> Result<Operation, RequestError>
    ensures { Gives (λ x. x) result
        (spec.create_bucket asked.now.caller.now text (pairs_of asked.now.fields.now)) }
{
    let locked = lock_in(asked.fields)?;
    let bucket = named(asked, text)?;
    Ok(Bare(Bucket(BucketOperation::CreateBucket { bucket, locked })))
}

/// The operation on a bucket itself, without a selector. Fails with NotImplemented for S3's ListObjects (version 1).
#[tactic(auto, unfolding(crate::specs::Operations::bucket_operation))]
fn of_itself(asked: &RequestParts, text: Text) -> Result<Operation, RequestError>
    ensures { Gives (λ x. x) result (spec.bucket_operation asked.now.caller.now text asked.now.parameters.now
        (pairs_of asked.now.fields.now) asked.now.method None) }
{
    match asked.method {
        Method::Put => create_bucket(asked, text),
        Method::Head => Ok(Bare(Bucket(BucketOperation::HeadBucket(named(asked, text)?)))),
        Method::Delete => Ok(Bare(Bucket(BucketOperation::DeleteBucket(named(asked, text)?)))),
        Method::Get => Err(RequestError::Refused(Refusal::NotImplemented)),
        Method::Post | Method::Other => Err(RequestError::Refused(Refusal::MethodNotAllowed)),
    }
}

/// The operation on a bucket's state.
#[tactic(auto, unfolding(crate::specs::Operations::bucket_operation))]
fn of_versioning(asked: &RequestParts, text: Text) -> Result<Operation, RequestError>
    ensures { Gives (λ x. x) result (spec.bucket_operation asked.now.caller.now text asked.now.parameters.now
        (pairs_of asked.now.fields.now) asked.now.method (Some by.Versioning)) }
{
    match asked.method {
        Method::Get => Ok(Bare(Bucket(BucketOperation::GetBucketVersioning(named(asked, text)?)))),
        Method::Put => Ok(ByDocument(DocumentOperation::PutBucketVersioning(named(asked, text)?))),
        _ => Err(RequestError::Refused(Refusal::MethodNotAllowed)),
    }
}

/// The operation on a bucket's rule.
#[tactic(auto, unfolding(crate::specs::Operations::bucket_operation))]
fn of_lifecycle(asked: &RequestParts, text: Text) -> Result<Operation, RequestError>
    ensures { Gives (λ x. x) result (spec.bucket_operation asked.now.caller.now text asked.now.parameters.now
        (pairs_of asked.now.fields.now) asked.now.method (Some by.Lifecycle)) }
{
    match asked.method {
        Method::Get => Ok(Bare(Lifecycle(LifecycleOperation::GetLifecycle(named(asked, text)?)))),
        Method::Put => Ok(ByDocument(DocumentOperation::PutLifecycle(named(asked, text)?))),
        Method::Delete => Ok(Bare(Lifecycle(LifecycleOperation::DeleteLifecycle(named(
            asked, text,
        )?)))),
        _ => Err(RequestError::Refused(Refusal::MethodNotAllowed)),
    }
}

/// The operation on the bucket that a text names. Fails with MethodNotAllowed if method and selector request none.
#[tactic(auto, unfolding(crate::specs::Operations::bucket_operation))]
pub(crate) fn bucket_operation(
    asked: &RequestParts,
    text: Text,
    selector: Option<Selector>,
) -> Result<Operation, RequestError>
    ensures { Gives (λ x. x) result (spec.bucket_operation asked.now.caller.now text asked.now.parameters.now
        (pairs_of asked.now.fields.now) asked.now.method selector) }
{
    match (asked.method, selector) {
        (_, None) => of_itself(asked, text),
        (_, Some(Selector::Versioning)) => of_versioning(asked, text),
        (_, Some(Selector::Lifecycle)) => of_lifecycle(asked, text),
        (Method::Get, Some(Selector::ListType)) => list_objects(asked, text),
        (Method::Get, Some(Selector::Versions)) => list_versions(asked, text),
        (Method::Get, Some(Selector::Uploads)) => list_uploads(asked, text),
        _ => Err(RequestError::Refused(Refusal::MethodNotAllowed)),
    }
}
