//! Pages of ListObjectsV2.

ghost use Rattle.std.specs.Prelude.{◌≡◌, ◌+◌, length, option_map, IfOk};
ghost use Rattle.std.specs.String.{string_bytes};
ghost use Rattle.bh_docs.specs.Members.{shown_data};
ghost use Rattle.bh_docs.specs.Pages as spec;

use crate::document::{Listed, Shown, with_shown};
use crate::page::{Page, head, page_text};
use crate::stored::Stored;
use serde_json::Value;
use std::alloc::{AllocError, Global};

/// An object in the answer to ListObjectsV2.
#[derive(Drop)]
pub struct ObjectEntry {
    pub key: String,
    pub stored: Stored,
}

impl Listed for ObjectEntry {
    ghost shown = { spec.object_data };

    fn value(&self, alloc: Global) -> Result<Value, AllocError> {
        self.stored
            .value(alloc, "Key", &Shown::Text(self.key.as_str()))
    }
}

/// A page of ListObjectsV2. The next one begins after the last name listed.
pub type ObjectsPage = Page<ObjectEntry, String>;

/// The answer to ListObjectsV2 (Amazon S3 API Reference): compact JSON with its members in byte
/// order. Fails if memory runs out.
pub fn objects_document(alloc: Global, page: &ObjectsPage) -> Result<String, AllocError>
    ensures { IfOk result (λ text. string_bytes text ≡ spec.objects_text (spec.page_view page.now)) }
{
    let document = head(alloc, page, "Name", "MaxKeys")?;
    let document = with_shown(
        alloc,
        document,
        "KeyCount",
        &Shown::Count(entry_count(page)),
    )?;
    let document = with_shown(
        alloc,
        document,
        "NextContinuationToken",
        &next_token(&page.next),
    )?;
    page_text(alloc, document, "Contents", page)
}

fn entry_count(page: &ObjectsPage) -> u64
    ensures { result ≡ length page.now.prefixes.items + length page.now.entries.items }
{
    (page.prefixes.len() + page.entries.len()) as u64
}

fn next_token(next: &Option<String>) -> Shown<'_>
    ensures { shown_data result ≡ spec.token_data (option_map string_bytes next.now) }
{
    match next {
        Some(name) => Shown::Token(name.as_str()),
        None => Shown::Nothing,
    }
}
