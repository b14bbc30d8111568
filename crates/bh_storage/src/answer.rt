use crate::plan::Plan;
use bh_types::id::{UploadId, VersionId};
use bh_types::moment::Moment;
use bh_types::range::RangePlan;

/// The answer to a delete.
#[derive(Clone, Copy, PartialEq, Eq)]
pub struct RemovedEntry {
    /// The id of the delete marker that was made, or of the entry that was deleted by its id, if
    /// the bucket is or was versioned.
    pub id: Option<VersionId>,
    /// Whether a delete marker was made, or deleted by its id.
    pub marker: bool,
}

/// The answer to a put.
#[derive(Drop)]
pub struct StoredVersion {
    /// The new version's id, if its bucket is or was versioned.
    pub id: Option<VersionId>,
    /// The base64 (RFC 4648) of the SHA-256 digest (FIPS 180-4) of the object's bytes.
    pub checksum: String,
}

/// The answer to a copy.
#[derive(Drop)]
pub struct CopiedVersion {
    /// The new version's id, if its bucket is or was versioned.
    pub id: Option<VersionId>,
    /// The new version's moment.
    pub modified: Moment,
    /// The text of the checksum, which is the source's.
    pub checksum: String,
}

/// A version's metadata, without its bytes.
#[derive(Drop)]
pub struct ObjectHead {
    /// The version's id, if its bucket is or was versioned.
    pub id: Option<VersionId>,
    /// The object's length in bytes.
    pub size: u64,
    /// The text of the object's checksum.
    pub checksum: String,
}

/// The answer to a get.
#[derive(Drop)]
pub struct FoundVersion {
    /// The version; `size` and `checksum` are those of the whole object.
    pub head: ObjectHead,
    /// The range of the object that is returned.
    pub range: RangePlan,
    /// The plan of those bytes, from the first one on.
    pub plan: Plan,
}

/// The answer to the beginning of a multipart upload.
#[derive(Drop)]
pub struct BegunUpload {
    /// The bucket's own name.
    pub bucket: String,
    /// The key of the future object.
    pub key: String,
    /// The new upload's id.
    pub upload: UploadId,
    /// The moment at which the upload becomes stale, if its bucket has a rule for that.
    pub abort: Option<Moment>,
}

/// The answer to the completion of a multipart upload.
#[derive(Drop)]
pub struct CompletedUpload {
    /// The bucket's own name.
    pub bucket: String,
    /// The object's key.
    pub key: String,
    /// The new version's id, if its bucket is or was versioned.
    pub id: Option<VersionId>,
    /// The text of the object's checksum: the base64 of the digest of its parts' digests, `-`, and
    /// the number of parts (Amazon S3 User Guide, "Checking object integrity").
    pub checksum: String,
}
