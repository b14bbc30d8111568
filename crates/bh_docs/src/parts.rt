//! Pages of ListParts.

ghost use Rattle.std.specs.Prelude.{◌≡◌, option_map, IfOk};
ghost use Rattle.std.specs.String.{string_bytes};
ghost use Rattle.serde_json.specs.View.{view};
ghost use Rattle.bh_docs.specs.Documents.{natural};
ghost use Rattle.bh_docs.specs.Members.{shown_data};
ghost use Rattle.bh_docs.specs.Pages as spec;

use crate::document::{Listed, Shown, object_of, print, with_entries, with_shown};
use crate::stored::Stored;
use bh_types::id::UploadId;
use serde_json::Value;
use std::alloc::{AllocError, Global};

/// A part in the answer to ListParts.
#[derive(Drop)]
pub struct PartEntry {
    pub number: u32,
    pub stored: Stored,
}

impl Listed for PartEntry {
    ghost shown = { spec.part_entry_data };

    fn value(&self, alloc: Global) -> Result<Value, AllocError> {
        self.stored
            .value(alloc, "PartNumber", &Shown::Count(u64::from(self.number)))
    }
}

/// A page of ListParts.
#[derive(Drop)]
pub struct PartsPage {
    pub bucket: String,
    pub key: String,
    pub upload: UploadId,
    /// The maximum number of parts on the page.
    pub max: u32,
    pub parts: Vec<PartEntry>,
    /// The number of the last part listed, if the page is truncated.
    pub next: Option<u32>,
}

/// The answer to ListParts (Amazon S3 API Reference): compact JSON with its members in byte order.
/// Fails if memory runs out.
pub fn parts_document(alloc: Global, page: &PartsPage) -> Result<String, AllocError>
    ensures { IfOk result (λ text. string_bytes text ≡ spec.parts_text (spec.parts_view page.now)) }
{
    let document = parts_value(alloc, page)?;
    print(alloc, &document)
}

fn parts_value(alloc: Global, page: &PartsPage) -> Result<Value, AllocError>
    ensures { IfOk result (λ value. view value ≡ spec.parts_data (spec.parts_view page.now)) }
{
    let document = plain_members(alloc, page)?;
    let document = with_shown(
        alloc,
        document,
        "NextPartNumberMarker",
        &next_number(page.next),
    )?;
    with_entries(alloc, document, "Parts", page.parts.as_slice())
}

// The members except the lists and the position of the next page.
fn plain_members(alloc: Global, page: &PartsPage) -> Result<Value, AllocError>
    ensures { IfOk result (λ value. view value ≡ spec.parts_plain (spec.parts_view page.now)) }
{
    object_of(
        alloc,
        &[
            ("Bucket", Shown::Text(page.bucket.as_str())),
            ("IsTruncated", Shown::Flag(page.next.is_some())),
            ("Key", Shown::Text(page.key.as_str())),
            ("MaxParts", Shown::Count(u64::from(page.max))),
            ("UploadId", Shown::Upload(page.upload)),
        ],
    )
}

fn next_number(next: Option<u32>) -> Shown<'static>
    ensures { shown_data result ≡ option_map natural next }
{
    match next {
        Some(number) => Shown::Count(u64::from(number)),
        None => Shown::Nothing,
    }
}
