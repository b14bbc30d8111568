//! Pages of ListObjectVersions.

ghost use Rattle.std.specs.Prelude.{◌≡◌, Some, None, IfOk};
ghost use Rattle.std.specs.String.{string_bytes};
ghost use Rattle.serde_json.specs.Data.{object};
ghost use Rattle.serde_json.specs.View.{view};
ghost use Rattle.bh_docs.specs.Pages as spec;

use crate::document::{Listed, Shown, object_of};
use crate::page::{Next, Page, head, page_text, with_markers};
use bh_types::id::VersionId;
use bh_types::moment::Moment;
use serde_json::Value;
use std::alloc::{AllocError, Global};

/// A version's stored object, in the answer to ListObjectVersions.
#[derive(Drop)]
pub struct StoredObject {
    pub checksum: String,
    /// In bytes.
    pub size: u64,
}

/// A version or a delete marker in the answer to ListObjectVersions.
#[derive(Drop)]
pub struct VersionEntry {
    pub key: String,
    pub id: VersionId,
    pub modified: Moment,
    /// Whether it is the newest of its key.
    pub latest: bool,
    /// Its stored object; a delete marker has none.
    pub object: Option<StoredObject>,
}

impl Listed for VersionEntry {
    ghost shown = { spec.version_entry_data };

    fn value(&self, alloc: Global) -> Result<Value, AllocError> {
        match &self.object {
            Some(object) => version_value(alloc, self, object),
            None => marker_value(alloc, self),
        }
    }
}

fn version_value<'a>(
    alloc: Global,
    version: &'a VersionEntry,
    stored: &'a StoredObject,
) -> Result<Value, AllocError>
    ensures { IfOk result (λ value. view value ≡ object (spec.version_members (spec.version_view version.now)
        (Some (spec.stored_view stored.now)))) }
{
    object_of(
        alloc,
        &[
            ("ChecksumSHA256", Shown::Text(stored.checksum.as_str())),
            ("DeleteMarker", Shown::Flag(false)),
            ("IsLatest", Shown::Flag(version.latest)),
            ("Key", Shown::Text(version.key.as_str())),
            ("LastModified", Shown::At(version.modified)),
            ("Size", Shown::Count(stored.size)),
            ("VersionId", Shown::Version(version.id)),
        ],
    )
}

fn marker_value(alloc: Global, marker: &VersionEntry) -> Result<Value, AllocError>
    ensures { IfOk result (λ value. view value ≡ object (spec.version_members (spec.version_view marker.now) None)) }
{
    object_of(
        alloc,
        &[
            ("DeleteMarker", Shown::Flag(true)),
            ("IsLatest", Shown::Flag(marker.latest)),
            ("Key", Shown::Text(marker.key.as_str())),
            ("LastModified", Shown::At(marker.modified)),
            ("VersionId", Shown::Version(marker.id)),
        ],
    )
}

/// A page of ListObjectVersions.
pub type VersionsPage = Page<VersionEntry, Next<VersionId>>;

/// The answer to ListObjectVersions (Amazon S3 API Reference): compact JSON with its members in
/// byte order. Fails if memory runs out.
pub fn versions_document(alloc: Global, page: &VersionsPage) -> Result<String, AllocError>
    ensures { IfOk result (λ text. string_bytes text ≡ spec.versions_text (spec.versions_view page.now)) }
{
    let document = head(alloc, page, "Name", "MaxKeys")?;
    let document = with_markers(alloc, document, "NextVersionIdMarker", &page.next)?;
    page_text(alloc, document, "Versions", page)
}
