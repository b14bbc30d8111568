//! The operations on an object. The parameters and header fields that one needs are checked first, and then the names.
ghost use Rattle.std.specs.Prelude.{◌≡◌, None, Some};
ghost use Rattle.bh_types.specs.Outcomes.{Gives};
ghost use Rattle.bh_http.specs.Views.{pairs_of};
ghost use Rattle.bh_operation.specs.Addresses as addresses;
ghost use Rattle.bh_operation.specs.Operations as spec;
ghost use Rattle.bh_operation.specs.declared.query.Selector.TheVariants as by;

use crate::address::{ObjectName, object_named};
use crate::headers::{checksum_in, copy_source, date_in, range_in, stands};
use crate::method::Method;
use crate::number::part_number;
use crate::operation::{
    BareOperation, CopySource, DocumentOperation, ObjectOperation, Operation, StoreOperation,
    UploadOperation,
};
use crate::page::part_page;
use crate::query::{Selector, value_of};
use crate::read::{RequestParts, upload_in, version_in};
use crate::source::{Source, source_in};
use crate::text::Text;
use BareOperation::{Object, Upload};
use Operation::{Bare, ByDocument, Store};
use bh_types::error::RequestError;
use bh_types::refusal::Refusal;

/// The object's name.
fn named(asked: &RequestParts, text: Text, key: Text) -> Result<ObjectName, RequestError>
    ensures { Gives (λ name. name) result (addresses.object_named asked.now.caller.now text key) }
{
    object_named(asked.alloc, asked.caller, text, key)
}

/// Whether there is a part number.
fn is_numbered(asked: &RequestParts) -> bool
    ensures { result ≡ spec.is_numbered asked.now.parameters.now }
{
    value_of("partNumber", asked.parameters).is_some()
}

/// Whether there is a copy source.
fn is_copy(asked: &RequestParts) -> bool
    ensures { result ≡ spec.is_copy (pairs_of asked.now.fields.now) }
{
    stands(copy_source(asked.fields))
}

#[tactic(auto, unfolding(crate::specs::Operations::put_object))]
fn put_object(asked: &RequestParts, text: Text, key: Text) -> Result<Operation, RequestError>
    ensures { Gives (λ x. x) result
        (spec.put_object asked.now.caller.now text key (pairs_of asked.now.fields.now)) }
{
    let checksum = checksum_in(asked.alloc, asked.fields)?;
    let object = named(asked, text, key)?;
    Ok(Store(StoreOperation::PutObject {
        object,
        checksum,
        date: date_in(asked.fields),
    }))
}

/// A copy. The names of its source are checked last. Of its checksum only the number of fields is
/// checked.
#[tactic(auto, unfolding(crate::specs::Operations::copy_object))]
fn copy_object(asked: &RequestParts, text: Text, key: Text) -> Result<Operation, RequestError>
    ensures { Gives (λ x. x) result
        (spec.copy_object asked.now.caller.now text key (pairs_of asked.now.fields.now)) }
{
    let source = source_in(asked.alloc, copy_source(asked.fields))?;
    checksum_in(asked.alloc, asked.fields)?;
    copy_from(asked, text, key, source)
}

fn copy_from(
    asked: &RequestParts,
    text: Text,
    key: Text,
    source: Source,
) -> Result<Operation, RequestError>
    ensures { Gives (λ x. x) result
        (spec.copy_from asked.now.caller.now text key source (pairs_of asked.now.fields.now)) }
{
    let object = named(asked, text, key)?;
    let from = object_named(asked.alloc, asked.caller, source.bucket, source.key)?;
    Ok(Bare(Object(ObjectOperation::CopyObject {
        object,
        source: CopySource {
            object: from,
            version: source.version,
        },
        date: date_in(asked.fields),
    })))
}

#[tactic(auto, unfolding(crate::specs::Operations::upload_part))]
fn upload_part(asked: &RequestParts, text: Text, key: Text) -> Result<Operation, RequestError>
    ensures { Gives (λ x. x) result (spec.upload_part
        asked.now.caller.now text key asked.now.parameters.now (pairs_of asked.now.fields.now)) }
{
    let number = part_number(value_of("partNumber", asked.parameters))?;
    let checksum = checksum_in(asked.alloc, asked.fields)?;
    let object = named(asked, text, key)?;
    Ok(Store(StoreOperation::UploadPart {
        object,
        upload: upload_in(asked.parameters),
        number,
        checksum,
    }))
}

#[tactic(auto, unfolding(crate::specs::Operations::list_parts))]
fn list_parts(asked: &RequestParts, text: Text, key: Text) -> Result<Operation, RequestError>
    ensures { Gives (λ x. x) result (spec.list_parts asked.now.caller.now text key asked.now.parameters.now) }
{
    let page = part_page(asked.parameters)?;
    let object = named(asked, text, key)?;
    Ok(Bare(Upload(UploadOperation::ListParts {
        object,
        upload: upload_in(asked.parameters),
        page,
    })))
}

#[tactic(auto, unfolding(crate::specs::Operations::get_object))]
fn get_object(asked: &RequestParts, text: Text, key: Text) -> Result<Operation, RequestError>
    ensures { Gives (λ x. x) result (spec.get_object asked.now.caller.now text key asked.now.parameters.now
        (pairs_of asked.now.fields.now)) }
{
    let object = named(asked, text, key)?;
    let range = range_in(asked.alloc, asked.fields)?;
    Ok(Operation::GetObject {
        object,
        version: version_in(asked.parameters),
        range,
    })
}

/// The operation of a PUT on an object without a selector.
fn put(asked: &RequestParts, text: Text, key: Text) -> Result<Operation, RequestError>
    ensures { Gives (λ x. x) result (spec.put asked.now.caller.now text key (pairs_of asked.now.fields.now)) }
{
    if is_copy(asked) {
        copy_object(asked, text, key)
    } else {
        put_object(asked, text, key)
    }
}

/// The operation on an object itself, without a selector. Fails with InvalidArgument if there is a part number, which has no use.
#[tactic(auto, unfolding(crate::specs::Operations::object_operation))]
fn of_itself(asked: &RequestParts, text: Text, key: Text) -> Result<Operation, RequestError>
    ensures { Gives (λ x. x) result (spec.object_operation asked.now.caller.now text key asked.now.parameters.now
        (pairs_of asked.now.fields.now) asked.now.method None) }
{
    if is_numbered(asked) {
        return Err(RequestError::Refused(Refusal::InvalidArgument));
    }
    match asked.method {
        Method::Put => put(asked, text, key),
        Method::Get => get_object(asked, text, key),
        Method::Head => {
            let object = named(asked, text, key)?;
            let version = version_in(asked.parameters);
            Ok(Bare(Object(ObjectOperation::HeadObject { object, version })))
        }
        Method::Delete => {
            let object = named(asked, text, key)?;
            let version = version_in(asked.parameters);
            Ok(Bare(Object(ObjectOperation::DeleteObject { object, version })))
        }
        Method::Post | Method::Other => Err(RequestError::Refused(Refusal::MethodNotAllowed)),
    }
}

/// The operation that stores a part. Fails with InvalidArgument if there is no part number, and with NotImplemented for S3's
/// UploadPartCopy.
fn put_part(asked: &RequestParts, text: Text, key: Text) -> Result<Operation, RequestError>
    ensures { Gives (λ x. x) result (spec.put_part asked.now.caller.now text key asked.now.parameters.now
        (pairs_of asked.now.fields.now)) }
{
    if !is_numbered(asked) {
        return Err(RequestError::Refused(Refusal::InvalidArgument));
    }
    if is_copy(asked) {
        return Err(RequestError::Refused(Refusal::NotImplemented));
    }
    upload_part(asked, text, key)
}

/// The operation on an upload.
#[tactic(auto, unfolding(crate::specs::Operations::object_operation))]
fn of_upload(asked: &RequestParts, text: Text, key: Text) -> Result<Operation, RequestError>
    ensures { Gives (λ x. x) result (spec.object_operation asked.now.caller.now text key asked.now.parameters.now
        (pairs_of asked.now.fields.now) asked.now.method (Some by.UploadId)) }
{
    match asked.method {
        Method::Put => put_part(asked, text, key),
        Method::Get => list_parts(asked, text, key),
        Method::Post => {
            let object = named(asked, text, key)?;
            let upload = upload_in(asked.parameters);
            Ok(ByDocument(DocumentOperation::CompleteMultipartUpload { object, upload }))
        }
        Method::Delete => {
            let object = named(asked, text, key)?;
            let upload = upload_in(asked.parameters);
            Ok(Bare(Upload(UploadOperation::AbortMultipartUpload { object, upload })))
        }
        Method::Head | Method::Other => Err(RequestError::Refused(Refusal::MethodNotAllowed)),
    }
}

/// The operation on an object's retention.
#[tactic(auto, unfolding(crate::specs::Operations::object_operation))]
fn of_retention(asked: &RequestParts, text: Text, key: Text) -> Result<Operation, RequestError>
    ensures { Gives (λ x. x) result (spec.object_operation asked.now.caller.now text key asked.now.parameters.now
        (pairs_of asked.now.fields.now) asked.now.method (Some by.Retention)) }
{
    match asked.method {
        Method::Get => {
            let object = named(asked, text, key)?;
            let version = version_in(asked.parameters);
            Ok(Bare(Object(ObjectOperation::GetRetention { object, version })))
        }
        Method::Put => {
            let object = named(asked, text, key)?;
            let version = version_in(asked.parameters);
            Ok(ByDocument(DocumentOperation::PutRetention { object, version }))
        }
        _ => Err(RequestError::Refused(Refusal::MethodNotAllowed)),
    }
}

/// The operation on the object that two texts name. Fails with MethodNotAllowed if method and selector request none.
#[tactic(auto, unfolding(crate::specs::Operations::object_operation))]
pub(crate) fn object_operation(
    asked: &RequestParts,
    text: Text,
    key: Text,
    selector: Option<Selector>,
) -> Result<Operation, RequestError>
    ensures { Gives (λ x. x) result (spec.object_operation asked.now.caller.now text key asked.now.parameters.now
        (pairs_of asked.now.fields.now) asked.now.method selector) }
{
    match (asked.method, selector) {
        (_, None) => of_itself(asked, text, key),
        (_, Some(Selector::UploadId)) => of_upload(asked, text, key),
        (_, Some(Selector::Retention)) => of_retention(asked, text, key),
        (Method::Post, Some(Selector::Uploads)) => {
            let object = named(asked, text, key)?;
            Ok(Bare(Upload(UploadOperation::CreateMultipartUpload(object))))
        }
        _ => Err(RequestError::Refused(Refusal::MethodNotAllowed)),
    }
}
