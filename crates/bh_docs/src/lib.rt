//! The JSON documents (RFC 8259) of a bucket host.
//!
//! A request's document is accepted exactly if it has its shape, and a reply's document is one
//! exact text. Otherwise, only memory can run out.
#![tactic(auto)]

mod document;
pub mod objects;
pub mod page;
pub mod parts;
pub mod prefix;
pub mod read;
pub mod reply;
mod shape;
pub mod stored;
pub mod uploads;
pub mod versions;

pub use objects::{ObjectEntry, ObjectsPage, objects_document};
pub use page::{Next, Page};
pub use parts::{PartEntry, PartsPage, parts_document};
pub use prefix::CommonPrefix;
pub use read::{read_complete, read_lifecycle, read_retention, read_versioning};
pub use reply::{
    BucketEntry, Usage, begun_document, buckets_document, completed_document, copied_document,
    error_document, lifecycle_document, retention_document, usage_document, versioning_document,
};
pub use stored::Stored;
pub use uploads::{UploadEntry, UploadsPage, uploads_document};
pub use versions::{StoredObject, VersionEntry, VersionsPage, versions_document};
