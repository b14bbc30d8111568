//! Pages of ListMultipartUploads.

ghost use Rattle.std.specs.Prelude.{◌≡◌, IfOk};
ghost use Rattle.std.specs.String.{string_bytes};
ghost use Rattle.bh_docs.specs.Pages as spec;

use crate::document::{Listed, Shown, object_of};
use crate::page::{Next, Page, head, page_text, with_markers};
use bh_types::id::UploadId;
use bh_types::moment::Moment;
use serde_json::Value;
use std::alloc::{AllocError, Global};

/// An upload in the answer to ListMultipartUploads.
#[derive(Drop)]
pub struct UploadEntry {
    /// When it began.
    pub initiated: Moment,
    pub key: String,
    pub id: UploadId,
}

impl Listed for UploadEntry {
    ghost shown = { spec.upload_entry_data };

    fn value(&self, alloc: Global) -> Result<Value, AllocError> {
        object_of(
            alloc,
            &[
                ("Initiated", Shown::At(self.initiated)),
                ("Key", Shown::Text(self.key.as_str())),
                ("UploadId", Shown::Upload(self.id)),
            ],
        )
    }
}

/// A page of ListMultipartUploads.
pub type UploadsPage = Page<UploadEntry, Next<UploadId>>;

/// The answer to ListMultipartUploads (Amazon S3 API Reference): compact JSON with its members in
/// byte order. Fails if memory runs out.
pub fn uploads_document(alloc: Global, page: &UploadsPage) -> Result<String, AllocError>
    ensures { IfOk result (λ text. string_bytes text ≡ spec.uploads_text (spec.uploads_view page.now)) }
{
    let document = head(alloc, page, "Bucket", "MaxUploads")?;
    let document = with_markers(alloc, document, "NextUploadIdMarker", &page.next)?;
    page_text(alloc, document, "Uploads", page)
}
