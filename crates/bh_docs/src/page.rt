//! The common parts of the pages of a bucket's listings.

ghost use Rattle.std.specs.Prelude.{◌≡◌, false, List, ℕ, Some, IfOk};
ghost use Rattle.std.specs.String.{string_bytes};
ghost use Rattle.serde_json.specs.Data.{string};
ghost use Rattle.serde_json.specs.View.{view};
ghost use Rattle.serde_json.specs.Written.{compact_text, has_float};
ghost use Rattle.bh_types.specs.Ids.{version_text, upload_text};
ghost use Rattle.bh_docs.specs.Members.{shown_data};
ghost use Rattle.bh_docs.specs.Heads as spec;

use crate::document::{Listed, Shown, object_of, print, with_entries, with_shown};
use crate::prefix::CommonPrefix;
use bh_types::id::{UploadId, VersionId};
use serde_json::Value;
use std::alloc::{AllocError, Global};

/// A page of a listing of a bucket.
#[derive(Drop)]
pub struct Page<E, N> {
    pub bucket: String,
    pub prefix: String,
    /// The maximum number of entries on the page.
    pub max: u32,
    pub prefixes: Vec<CommonPrefix>,
    /// The entries that aren't grouped.
    pub entries: Vec<E>,
    /// The position of the next page, if this one is truncated.
    pub next: Option<N>,
}

/// The position of a page that comes after an entry of a key, or after a grouped name.
#[derive(Drop)]
pub struct Next<I> {
    /// The key of the last entry, or its grouped name.
    pub name: String,
    /// The id of the last entry, unless that is a grouped name.
    pub id: Option<I>,
}

/// An id that distinguishes the entries of a key.
pub trait EntryId {
    ghost text: { Self → List ℕ };

    fn shown(&self) -> Shown<'static>
        ensures { shown_data result ≡ Some (string (text self.now)) };
}

impl EntryId for VersionId {
    ghost text = { version_text };

    fn shown(&self) -> Shown<'static> {
        Shown::Version(*self)
    }
}

impl EntryId for UploadId {
    ghost text = { upload_text };

    fn shown(&self) -> Shown<'static> {
        Shown::Upload(*self)
    }
}

/// The members that all pages have, with the names that the listing has for the bucket and for the
/// page's size. The entries and the position of the next page are left out.
pub fn head<'a, E, N>(
    alloc: Global,
    page: &'a Page<E, N>,
    bucket_name: &'a str,
    max_name: &'a str,
) -> Result<Value, AllocError>
    ensures { IfOk result (λ value. view value ≡ spec.head_data bucket_name.now max_name.now page.now) }
{
    object_of(
        alloc,
        &[
            ("IsTruncated", Shown::Flag(page.next.is_some())),
            (max_name, Shown::Count(u64::from(page.max))),
            (bucket_name, Shown::Text(page.bucket.as_str())),
            ("Prefix", Shown::Text(page.prefix.as_str())),
        ],
    )
}

fn next_name<I>(next: &Option<Next<I>>) -> Shown<'_>
    ensures { shown_data result ≡ spec.name_data next.now }
{
    match next {
        Some(next) => Shown::Text(next.name.as_str()),
        None => Shown::Nothing,
    }
}

fn next_id<I: EntryId>(next: &Option<Next<I>>) -> Shown<'static>
    ensures { shown_data result ≡ spec.id_data I.text next.now }
{
    match next {
        Some(Next { id: Some(id), .. }) => id.shown(),
        _ => Shown::Nothing,
    }
}

/// A document with the markers of the next page, if there is one; the id's has this name.
pub fn with_markers<I: EntryId>(
    alloc: Global,
    document: Value,
    id_name: &str,
    next: &Option<Next<I>>,
) -> Result<Value, AllocError>
    ensures { IfOk result (λ whole. view whole ≡ spec.with_markers I.text id_name.now next.now (view document)) }
{
    let document = with_shown(alloc, document, "NextKeyMarker", &next_name(next))?;
    with_shown(alloc, document, id_name, &next_id(next))
}

/// The compact text of a document with a page's grouped names, and with its entries under this
/// name.
pub fn page_text<E: Listed, N>(
    alloc: Global,
    document: Value,
    list_name: &str,
    page: &Page<E, N>,
) -> Result<String, AllocError>
    requires { has_float (spec.with_lists E.shown list_name.now page.now (view document)) ≡ false }
    ensures { IfOk result (λ text. string_bytes text
        ≡ compact_text (spec.with_lists E.shown list_name.now page.now (view document))) }
{
    let document = with_entries(alloc, document, "CommonPrefixes", page.prefixes.as_slice())?;
    let document = with_entries(alloc, document, list_name, page.entries.as_slice())?;
    print(alloc, &document)
}
