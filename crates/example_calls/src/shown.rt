//! An operation as text: its name and its arguments.

use crate::words::wanted_text;
use Word::{
    AfterUpload, AfterVersion, Bucket, Date, Field, Number, Object, Source, Token, Upload, Version,
};
use bh_operation::address::ObjectName;
use bh_operation::operation::{
    BareOperation, BucketOperation, DocumentOperation, LifecycleOperation, ListingOperation,
    ObjectOperation, Operation, ServiceOperation, StoreOperation, UploadOperation,
};
use bh_operation::page::{Page, UploadMarker, VersionMarker};
use bh_operation::text::Bytes;
use bh_types::bucket::BucketName;
use bh_types::id::UploadId;
use bh_types::moment::{Moment, moment_text};
use bh_types::wanted::Wanted;
use std::alloc::{AllocError, Global};

/// An argument of an operation.
#[derive(Clone, Copy)]
enum Word<'a> {
    Nothing,
    Bucket(&'a BucketName),
    /// Whether a bucket is to be locked.
    Locked,
    Object(&'a ObjectName),
    Source(&'a ObjectName),
    Version(Wanted),
    Upload(Option<UploadId>),
    Number(u64),
    /// A header field's text, or `none`.
    Field(&'a Option<Bytes>),
    /// The given date, or `no date` if it is invalid.
    Date(&'a Option<Moment>),
    Page(&'a Page),
    /// A token's bytes in hexadecimal digits, or `first`.
    Token(&'a Option<Bytes>),
    AfterVersion(&'a Option<VersionMarker>),
    AfterUpload(&'a Option<UploadMarker>),
}

type Words<'a> = (&'static str, [Word<'a>; 4]);

const fn one<'a>(name: &'static str, word: Word<'a>) -> Words<'a> {
    three(name, word, Word::Nothing, Word::Nothing)
}

const fn two<'a>(name: &'static str, first: Word<'a>, second: Word<'a>) -> Words<'a> {
    three(name, first, second, Word::Nothing)
}

const fn three<'a>(
    name: &'static str,
    first: Word<'a>,
    second: Word<'a>,
    third: Word<'a>,
) -> Words<'a> {
    (name, [first, second, third, Word::Nothing])
}

const fn locked_word<'a>(locked: bool) -> Word<'a> {
    if locked { Word::Locked } else { Word::Nothing }
}

const fn date_word<'a>(date: &'a Option<Option<Moment>>) -> Word<'a> {
    match date {
        Some(date) => Date(date),
        None => Word::Nothing,
    }
}

/// An operation and its arguments, on one line.
pub fn operation_text(alloc: Global, operation: &Operation) -> Result<String, AllocError> {
    let (name, words) = operation_words(operation);
    let mut text = String::from_str(alloc, name)?;
    for word in words.iter() {
        push(alloc, &mut text, *word)?;
    }
    Ok(text)
}

fn operation_words(operation: &Operation) -> Words<'_> {
    match operation {
        Operation::Bare(operation) => bare_words(operation),
        Operation::ByDocument(operation) => document_words(operation),
        Operation::Store(operation) => store_words(operation),
        Operation::GetObject {
            object,
            version,
            range,
        } => three("GetObject", Object(object), Version(*version), Field(range)),
    }
}

fn bare_words(operation: &BareOperation) -> Words<'_> {
    match operation {
        BareOperation::Service(operation) => service_words(operation),
        BareOperation::Bucket(operation) => bucket_words(operation),
        BareOperation::Listing(operation) => listing_words(operation),
        BareOperation::Lifecycle(operation) => lifecycle_words(operation),
        BareOperation::Upload(operation) => upload_words(operation),
        BareOperation::Object(operation) => object_words(operation),
    }
}

fn service_words(operation: &ServiceOperation) -> Words<'static> {
    match operation {
        ServiceOperation::ListBuckets => one("ListBuckets", Word::Nothing),
        ServiceOperation::Usage => one("Usage", Word::Nothing),
    }
}

fn bucket_words(operation: &BucketOperation) -> Words<'_> {
    match operation {
        BucketOperation::CreateBucket { bucket, locked } => {
            two("CreateBucket", Bucket(bucket), locked_word(*locked))
        }
        BucketOperation::HeadBucket(bucket) => one("HeadBucket", Bucket(bucket)),
        BucketOperation::DeleteBucket(bucket) => one("DeleteBucket", Bucket(bucket)),
        BucketOperation::GetBucketVersioning(bucket) => {
            one("GetBucketVersioning", Bucket(bucket))
        }
    }
}

const fn listing<'a>(
    name: &'static str,
    bucket: &'a BucketName,
    page: &'a Page,
    after: Word<'a>,
) -> Words<'a> {
    three(name, Bucket(bucket), Word::Page(page), after)
}

fn listing_words(operation: &ListingOperation) -> Words<'_> {
    match operation {
        ListingOperation::ListObjectsV2 {
            bucket,
            page,
            token,
        } => listing("ListObjectsV2", bucket, page, Token(token)),
        ListingOperation::ListObjectVersions {
            bucket,
            page,
            after,
        } => listing("ListObjectVersions", bucket, page, AfterVersion(after)),
        ListingOperation::ListMultipartUploads {
            bucket,
            page,
            after,
        } => listing("ListMultipartUploads", bucket, page, AfterUpload(after)),
    }
}

fn lifecycle_words(operation: &LifecycleOperation) -> Words<'_> {
    match operation {
        LifecycleOperation::GetLifecycle(bucket) => one("GetLifecycle", Bucket(bucket)),
        LifecycleOperation::DeleteLifecycle(bucket) => one("DeleteLifecycle", Bucket(bucket)),
    }
}

fn upload_words(operation: &UploadOperation) -> Words<'_> {
    match operation {
        UploadOperation::CreateMultipartUpload(object) => {
            one("CreateMultipartUpload", Object(object))
        }
        UploadOperation::ListParts {
            object,
            upload,
            page,
        } => {
            let (size, after) = (Number(page.size as u64), Number(page.after));
            ("ListParts", [Object(object), Upload(*upload), size, after])
        }
        UploadOperation::AbortMultipartUpload { object, upload } => {
            two("AbortMultipartUpload", Object(object), Upload(*upload))
        }
    }
}

fn object_words(operation: &ObjectOperation) -> Words<'_> {
    match operation {
        ObjectOperation::CopyObject {
            object,
            source,
            date,
        } => {
            let (from, version) = (Source(&source.object), Version(source.version));
            let until = date_word(date);
            ("CopyObject", [Object(object), from, version, until])
        }
        ObjectOperation::HeadObject { object, version } => {
            two("HeadObject", Object(object), Version(*version))
        }
        ObjectOperation::DeleteObject { object, version } => {
            two("DeleteObject", Object(object), Version(*version))
        }
        ObjectOperation::GetRetention { object, version } => {
            two("GetRetention", Object(object), Version(*version))
        }
    }
}

fn document_words(operation: &DocumentOperation) -> Words<'_> {
    match operation {
        DocumentOperation::PutBucketVersioning(bucket) => {
            one("PutBucketVersioning", Bucket(bucket))
        }
        DocumentOperation::PutLifecycle(bucket) => one("PutLifecycle", Bucket(bucket)),
        DocumentOperation::CompleteMultipartUpload { object, upload } => {
            two("CompleteMultipartUpload", Object(object), Upload(*upload))
        }
        DocumentOperation::PutRetention { object, version } => {
            two("PutRetention", Object(object), Version(*version))
        }
    }
}

fn store_words(operation: &StoreOperation) -> Words<'_> {
    match operation {
        StoreOperation::PutObject {
            object,
            checksum,
            date,
        } => {
            let until = date_word(date);
            three("PutObject", Object(object), Field(checksum), until)
        }
        StoreOperation::UploadPart {
            object,
            upload,
            number,
            checksum,
        } => {
            let (upload, number) = (Upload(*upload), Number(*number as u64));
            (
                "UploadPart",
                [Object(object), upload, number, Field(checksum)],
            )
        }
    }
}

/// A word after a space.
fn push(alloc: Global, text: &mut String, word: Word<'_>) -> Result<(), AllocError> {
    if let Word::Nothing = word {
        return Ok(());
    }
    let shown = name_text(alloc, word)?;
    text.push_str(" ")?;
    text.push_str(shown.as_str())
}

fn name_text(alloc: Global, word: Word<'_>) -> Result<String, AllocError> {
    match word {
        Bucket(bucket) => String::from_str(alloc, bucket.as_str()),
        Word::Locked => String::from_str(alloc, "locked"),
        Object(object) => object_text(alloc, "", object),
        Source(object) => object_text(alloc, "from ", object),
        Version(version) => wanted_text(alloc, version),
        Upload(upload) => upload_text(alloc, upload),
        _ => field_text(alloc, word),
    }
}

fn field_text(alloc: Global, word: Word<'_>) -> Result<String, AllocError> {
    match word {
        Number(number) => number.to_string(alloc),
        Field(Some(bytes)) => String::from_utf8_lossy(alloc, bytes.as_slice()),
        Field(None) => String::from_str(alloc, "none"),
        Date(date) => date_text(alloc, date),
        Word::Page(page) => page_text(alloc, page),
        Token(Some(bytes)) => token_text(alloc, bytes),
        _ => marker_text(alloc, word),
    }
}

fn marker_text(alloc: Global, word: Word<'_>) -> Result<String, AllocError> {
    match word {
        AfterVersion(Some(marker)) => version_marker_text(alloc, marker),
        AfterUpload(Some(marker)) => upload_marker_text(alloc, marker),
        _ => String::from_str(alloc, "first"),
    }
}

fn object_text(alloc: Global, before: &str, object: &ObjectName) -> Result<String, AllocError> {
    let bucket = object.bucket.as_str();
    let key = object.key.as_str();
    format!(in alloc; "{before}{bucket} {key}")
}

fn upload_text(alloc: Global, upload: Option<UploadId>) -> Result<String, AllocError> {
    match upload {
        Some(id) => id.number.to_string(alloc),
        None => String::from_str(alloc, "unknown"),
    }
}

fn date_text(alloc: Global, date: &Option<Moment>) -> Result<String, AllocError> {
    match date {
        Some(date) => {
            let date = moment_text(alloc, *date)?;
            format!(in alloc; "until {date}")
        }
        None => String::from_str(alloc, "no date"),
    }
}

fn token_text(alloc: Global, token: &Bytes) -> Result<String, AllocError> {
    let digits = hex::encode(alloc, token.as_slice())?;
    format!(in alloc; "<{digits}>")
}

fn page_text(alloc: Global, page: &Page) -> Result<String, AllocError> {
    let prefix = page.prefix.as_str();
    let delimiter = page.delimiter.as_str();
    let size = page.size;
    format!(in alloc; "[{prefix}] [{delimiter}] {size}")
}

fn version_marker_text(alloc: Global, marker: &VersionMarker) -> Result<String, AllocError> {
    let key = marker.key.as_str();
    let version = wanted_text(alloc, marker.version)?;
    format!(in alloc; "[{key}] {version}")
}

/// The key, and after it the upload's number, if one is given.
fn upload_marker_text(alloc: Global, marker: &UploadMarker) -> Result<String, AllocError> {
    let key = marker.key.as_str();
    match marker.upload {
        Some(id) => {
            let number = id.number;
            format!(in alloc; "[{key}] {number}")
        }
        None => format!(in alloc; "[{key}]"),
    }
}
