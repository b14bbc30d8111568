//! The documents of replies, except for listings' pages. Each is compact JSON (RFC 8259) with its
//! members in byte order. Each function fails if memory runs out.

ghost use Rattle.std.specs.Prelude.{◌≡◌, ◌≢◌, ◌≤◌, ℕ, Some, None, map, IfOk};
ghost use Rattle.std.specs.String.{string_bytes};
ghost use Rattle.serde_json.specs.View.{view};
ghost use Rattle.bh_docs.specs.Documents as spec;
ghost use Rattle.bh_docs.specs.Requests.{versioning_of, lifecycle_of, retention_of};

use crate::document::{Listed, Shown, object_of, print, with_entries, with_member};
use bh_types::bucket_state::BucketState;
use bh_types::id::UploadId;
use bh_types::moment::Moment;
use serde_json::{Value, json};
use std::alloc::{AllocError, Global};

/// `{"Code":code,"Resource":resource}`: an error code of the Amazon S3 API Reference ("Error
/// responses"), and the path of the request's target.
pub fn error_document(alloc: Global, code: &str, resource: &str) -> Result<String, AllocError>
    ensures { IfOk result (λ text. string_bytes text ≡ spec.error_text code.now resource.now) }
{
    let document = error_value(alloc, code, resource)?;
    print(alloc, &document)
}

fn error_value<'a>(alloc: Global, code: &'a str, resource: &'a str) -> Result<Value, AllocError>
    ensures { IfOk result (λ value. view value ≡ spec.error_data code.now resource.now) }
{
    object_of(
        alloc,
        &[
            ("Code", Shown::Text(code)),
            ("Resource", Shown::Text(resource)),
        ],
    )
}

/// A bucket in the answer to ListBuckets.
#[derive(Drop)]
pub struct BucketEntry {
    /// When it was created.
    pub created: Moment,
    /// Its name, without a tenant.
    pub name: String,
}

impl Listed for BucketEntry {
    ghost use Rattle.bh_docs.specs.Documents.{bucket_view, bucket_data};

    ghost shown = { λ b. bucket_data (bucket_view b) };

    fn value(&self, alloc: Global) -> Result<Value, AllocError> {
        object_of(
            alloc,
            &[
                ("CreationDate", Shown::At(self.created)),
                ("Name", Shown::Text(self.name.as_str())),
            ],
        )
    }
}

/// The answer to ListBuckets: `{"Buckets":[{"CreationDate":created,"Name":name},..]}`.
pub fn buckets_document(alloc: Global, buckets: &[BucketEntry]) -> Result<String, AllocError>
    ensures { IfOk result (λ text. string_bytes text ≡ spec.buckets_text (map spec.bucket_view buckets.now)) }
{
    let document = buckets_value(alloc, buckets)?;
    print(alloc, &document)
}

fn buckets_value(alloc: Global, buckets: &[BucketEntry]) -> Result<Value, AllocError>
    ensures { IfOk result (λ value. view value ≡ spec.buckets_data (map spec.bucket_view buckets.now)) }
{
    let document = object_of(alloc, &[])?;
    with_entries(alloc, document, "Buckets", buckets)
}

/// A tenant's usage. Sizes are in bytes.
#[derive(Clone, Copy, PartialEq, Eq)]
pub struct Usage {
    pub buckets: u64,
    /// The bytes of versions and of uploads' parts together, as the quota counts them.
    pub bytes: u64,
    /// The number of delete markers.
    pub markers: u64,
    /// Keys whose newest entry is not a delete marker.
    pub objects: u64,
    pub part_bytes: u64,
    pub quota: u64,
    pub uploads: u64,
    pub version_bytes: u64,
    /// Without delete markers.
    pub versions: u64,
}

/// The answer to a tenant's request for its usage, which S3 doesn't have: each count and size under
/// its own name.
pub fn usage_document(alloc: Global, usage: &Usage) -> Result<String, AllocError>
    ensures { IfOk result (λ text. string_bytes text ≡ spec.usage_text (spec.usage_view usage.now)) }
{
    let document = usage_value(alloc, usage)?;
    print(alloc, &document)
}

fn usage_value(alloc: Global, usage: &Usage) -> Result<Value, AllocError>
    ensures { IfOk result (λ value. view value ≡ spec.usage_data (spec.usage_view usage.now)) }
{
    object_of(
        alloc,
        &[
            ("Buckets", Shown::Count(usage.buckets)),
            ("Bytes", Shown::Count(usage.bytes)),
            ("Markers", Shown::Count(usage.markers)),
            ("Objects", Shown::Count(usage.objects)),
            ("PartBytes", Shown::Count(usage.part_bytes)),
            ("Quota", Shown::Count(usage.quota)),
            ("Uploads", Shown::Count(usage.uploads)),
            ("VersionBytes", Shown::Count(usage.version_bytes)),
            ("Versions", Shown::Count(usage.versions)),
        ],
    )
}

/// The answer to GetBucketVersioning: `{}`, `{"Status":"Enabled"}` or `{"Status":"Suspended"}`.
pub fn versioning_document(alloc: Global, state: BucketState) -> Result<String, AllocError>
    ensures text { IfOk result (λ text. string_bytes text ≡ spec.versioning_text state) }
    ensures reads_back { state ≢ BucketState.Unversioned
        → IfOk result (λ text. versioning_of (string_bytes text) ≡ Ok state) }
{
    let document = versioning_value(alloc, state)?;
    print(alloc, &document)
}

fn versioning_value(alloc: Global, state: BucketState) -> Result<Value, AllocError>
    ensures { IfOk result (λ value. view value ≡ spec.versioning_data state) }
{
    match state {
        BucketState::Unversioned => object_of(alloc, &[]),
        BucketState::Enabled => status_value(alloc, "Enabled"),
        BucketState::Suspended => status_value(alloc, "Suspended"),
    }
}

fn status_value(alloc: Global, status: &str) -> Result<Value, AllocError>
    ensures { IfOk result (λ value. view value ≡ spec.status_data status.now) }
{
    object_of(alloc, &[("Status", Shown::Text(status))])
}

/// The answer to GetBucketLifecycleConfiguration: the document that sets a rule of `days` days.
pub fn lifecycle_document(alloc: Global, days: u16) -> Result<String, AllocError>
    ensures text { IfOk result (λ text. string_bytes text ≡ spec.lifecycle_text days) }
    ensures reads_back { 1 ≤ days → days ≤ 3650
        → IfOk result (λ text. lifecycle_of (string_bytes text) ≡ Ok days) }
{
    let document = lifecycle_value(alloc, days)?;
    print(alloc, &document)
}

fn lifecycle_value(alloc: Global, days: u16) -> Result<Value, AllocError>
    ensures { IfOk result (λ value. view value ≡ spec.lifecycle_data days) }
{
    let rule = rule_value(alloc, days)?;
    json!(in alloc; {"Rules": [rule]})
}

fn rule_value(alloc: Global, days: u16) -> Result<Value, AllocError>
    ensures { IfOk result (λ value. view value ≡ spec.rule_data days) }
{
    let rule = status_value(alloc, "Enabled")?;
    let days = days_value(alloc, days)?;
    with_member(alloc, rule, "AbortIncompleteMultipartUpload", Some(days))
}

fn days_value(alloc: Global, days: u16) -> Result<Value, AllocError>
    ensures { IfOk result (λ value. view value ≡ spec.days_data days) }
{
    object_of(
        alloc,
        &[("DaysAfterInitiation", Shown::Count(u64::from(days)))],
    )
}

/// The answer to GetObjectRetention: `{}` for a version without a date, otherwise the document that
/// sets its date.
pub fn retention_document(alloc: Global, date: Option<Moment>) -> Result<String, AllocError>
    ensures text { IfOk result (λ text. string_bytes text ≡ spec.retention_text date) }
    ensures reads_back { (until : ℕ) → date ≡ Some until
        → IfOk result (λ text. retention_of (string_bytes text) ≡ Ok until) }
{
    match date {
        Some(date) => dated_document(alloc, date),
        None => undated_document(alloc),
    }
}

fn undated_document(alloc: Global) -> Result<String, AllocError>
    ensures { IfOk result (λ text. string_bytes text ≡ spec.retention_text None) }
{
    let document = object_of(alloc, &[])?;
    print(alloc, &document)
}

fn dated_document(alloc: Global, date: Moment) -> Result<String, AllocError>
    ensures text { IfOk result (λ text. string_bytes text ≡ spec.retention_text (Some date)) }
    ensures reads_back { IfOk result (λ text. retention_of (string_bytes text) ≡ Ok date) }
{
    let document = dated_value(alloc, date)?;
    print(alloc, &document)
}

fn dated_value(alloc: Global, date: Moment) -> Result<Value, AllocError>
    ensures { IfOk result (λ value. view value ≡ spec.retention_data (Some date)) }
{
    object_of(
        alloc,
        &[
            ("Mode", Shown::Text("COMPLIANCE")),
            ("RetainUntilDate", Shown::At(date)),
        ],
    )
}

/// The answer to CreateMultipartUpload: `{"Bucket":bucket,"Key":key,"UploadId":upload}`.
pub fn begun_document(
    alloc: Global,
    bucket: &str,
    key: &str,
    upload: UploadId,
) -> Result<String, AllocError>
    ensures { IfOk result (λ text. string_bytes text ≡ spec.begun_text bucket.now key.now upload) }
{
    let document = begun_value(alloc, bucket, key, upload)?;
    print(alloc, &document)
}

fn begun_value<'a>(
    alloc: Global,
    bucket: &'a str,
    key: &'a str,
    upload: UploadId,
) -> Result<Value, AllocError>
    ensures { IfOk result (λ value. view value ≡ spec.begun_data bucket.now key.now upload) }
{
    object_of(
        alloc,
        &[
            ("Bucket", Shown::Text(bucket)),
            ("Key", Shown::Text(key)),
            ("UploadId", Shown::Upload(upload)),
        ],
    )
}

/// The answer to CompleteMultipartUpload: `{"Bucket":bucket,"ChecksumSHA256":checksum,"Key":key}`.
pub fn completed_document(
    alloc: Global,
    bucket: &str,
    checksum: &str,
    key: &str,
) -> Result<String, AllocError>
    ensures { IfOk result (λ text. string_bytes text ≡ spec.completed_text bucket.now checksum.now key.now) }
{
    let document = completed_value(alloc, bucket, checksum, key)?;
    print(alloc, &document)
}

fn completed_value<'a>(
    alloc: Global,
    bucket: &'a str,
    checksum: &'a str,
    key: &'a str,
) -> Result<Value, AllocError>
    ensures { IfOk result (λ value. view value ≡ spec.completed_data bucket.now checksum.now key.now) }
{
    object_of(
        alloc,
        &[
            ("Bucket", Shown::Text(bucket)),
            ("ChecksumSHA256", Shown::Text(checksum)),
            ("Key", Shown::Text(key)),
        ],
    )
}

/// The answer to CopyObject: `{"ChecksumSHA256":checksum,"LastModified":modified}`.
pub fn copied_document(
    alloc: Global,
    checksum: &str,
    modified: Moment,
) -> Result<String, AllocError>
    ensures { IfOk result (λ text. string_bytes text ≡ spec.copied_text checksum.now modified) }
{
    let document = copied_value(alloc, checksum, modified)?;
    print(alloc, &document)
}

fn copied_value(alloc: Global, checksum: &str, modified: Moment) -> Result<Value, AllocError>
    ensures { IfOk result (λ value. view value ≡ spec.copied_data checksum.now modified) }
{
    object_of(
        alloc,
        &[
            ("ChecksumSHA256", Shown::Text(checksum)),
            ("LastModified", Shown::At(modified)),
        ],
    )
}
