//! The contents of a page, from the entries that were gathered for it.

ghost use Rattle.std.specs.Prelude.{◌≡◌, map, flat_map, option_map, take, IfOk};
ghost use Rattle.std.specs.String.{string_bytes};
ghost use Rattle.bh_model.specs.Pages.{Listed as Seen, Listed.Single, Listed.Common, common_in, single_in, paged};
ghost use Rattle.bh_pages.specs.Seen.{entry_by};
ghost use Rattle.bh_docs.specs.Pages.{prefix_view};
ghost use Rattle.bh_listing.specs.Telling.{IsTold};
ghost use Rattle.bh_listing.specs.Told.{asked_view};

use bh_docs::{CommonPrefix, Page};
use bh_pages::gathering::{Listed, PageAsked};
use bh_storage::error::Trouble;
use bh_types::moment::Moment;
use std::alloc::{AllocError, Global};

/// An entry that a listing contains, as opposed to a grouped name.
pub trait Told {
    type Entry: Drop;

    /// The position at which a page begins.
    type Next: Drop;

    ghost Item: { Type 0 };

    ghost Place: { Type 0 };

    /// The entry's spec value.
    ghost see: { Self → Item };

    /// The spec value of its form in a page.
    ghost view: { Self.Entry → Item };

    /// The spec value of a page's position.
    ghost next_view: { Self.Next → Place };

    /// The position of the page after an entry.
    ghost next_of: { Seen Item → Place };

    /// Its form in a page.
    fn told(&self, alloc: Global) -> Result<Self::Entry, Trouble>
        ensures { IfOk result (λ entry. view entry ≡ see self.now) };

    /// The position of the page after it.
    fn next(&self, alloc: Global) -> Result<Self::Next, Trouble>
        ensures { IfOk result (λ next. next_view next ≡ next_of (Single (see self.now))) };

    /// The position of the page after a grouped name.
    fn next_past(alloc: Global, name: &[u8]) -> Result<Self::Next, Trouble>
        ensures { IfOk result (λ next. next_view next ≡ next_of (Common name.now)) };
}

/// The text of these bytes. It fails if they are not UTF-8.
pub fn text_of(alloc: Global, bytes: &[u8]) -> Result<String, Trouble>
    ensures { IfOk result (λ text. string_bytes text ≡ bytes.now) }
{
    match str::from_utf8(bytes) {
        Ok(text) => Ok(String::from_str(alloc, text)?),
        Err(_) => Err(Trouble::Store),
    }
}

/// The moment of a stamp. It fails if the stamp is out of range.
pub fn moment_of(stamp: u64) -> Result<Moment, Trouble>
    ensures { IfOk result (λ moment. moment ≡ stamp) }
{
    Moment::new(stamp).ok_or(Trouble::Store)
}

/// The part of the gathered entries that is on the page.
pub fn shown_of<X>(gathered: &[X], max: u32) -> &[X]
    ensures { result.now ≡ take max gathered.now }
{
    if gathered.len() > max as usize {
        &gathered[..max as usize]
    } else {
        gathered
    }
}

/// The last entry on the page, if the page is truncated.
pub fn last_shown<X>(gathered: &[X], max: u32) -> Option<&X>
    ensures { option_map (λ x. x.now) result ≡ (paged max gathered.now).next }
{
    if max == 0 || gathered.len() <= max as usize {
        return None;
    }
    Some(&gathered[max as usize - 1])
}

/// The entries that are not grouped names.
fn singles<T: Told>(alloc: Global, entries: &[Listed<T>]) -> Result<Vec<T::Entry>, Trouble>
    ensures { IfOk result (λ told. map T.view told.items ≡ flat_map single_in (map (entry_by T.see) entries.now)) }
{
    let mut told = Vec::new(alloc);
    for entry in entries {
        if let Listed::Single(single) = entry {
            let single = single.told(alloc)?;
            told.push(single).map_err(AllocError::from)?;
        }
    }
    Ok(told)
}

/// The grouped names among these entries.
fn rolled_names<T: Told>(alloc: Global, entries: &[Listed<T>]) -> Result<Vec<CommonPrefix>, Trouble>
    ensures { IfOk result (λ prefixes. map prefix_view prefixes.items ≡ flat_map common_in (map (entry_by T.see) entries.now)) }
{
    let mut prefixes = Vec::new(alloc);
    for entry in entries {
        if let Listed::Common(name) = entry {
            let prefix = text_of(alloc, name.as_slice())?;
            prefixes
                .push(CommonPrefix { prefix })
                .map_err(AllocError::from)?;
        }
    }
    Ok(prefixes)
}

/// The position of the page after this entry.
fn next_after<T: Told>(alloc: Global, entry: &Listed<T>) -> Result<T::Next, Trouble>
    ensures { IfOk result (λ next. T.next_view next ≡ T.next_of (entry_by T.see entry.now)) }
{
    match entry {
        Listed::Single(single) => single.next(alloc),
        Listed::Common(name) => T::next_past(alloc, name.as_slice()),
    }
}

/// The position of the next page, if this one is truncated.
fn next_page<T: Told>(
    alloc: Global,
    entries: &[Listed<T>],
    max: u32,
) -> Result<Option<T::Next>, Trouble>
    ensures { IfOk result (λ next. option_map T.next_view next
        ≡ option_map T.next_of (paged max (map (entry_by T.see) entries.now)).next) }
{
    let Some(last) = last_shown(entries, max) else {
        return Ok(None);
    };
    Ok(Some(next_after(alloc, last)?))
}

/// A page from these entries: those that belong to it, and one more if there is one.
pub fn tell<T: Told>(
    alloc: Global,
    bucket: &str,
    asked: &PageAsked<'_>,
    entries: &[Listed<T>],
) -> Result<Page<T::Entry, T::Next>, Trouble>
    ensures { IfOk result (IsTold T.view T.next_view T.next_of bucket.now (asked_view asked.now)
        (paged asked.now.max (map (entry_by T.see) entries.now))) }
{
    let shown = shown_of(entries, asked.max);
    Ok(Page {
        bucket: String::from_str(alloc, bucket)?,
        prefix: text_of(alloc, asked.prefix)?,
        max: asked.max,
        prefixes: rolled_names(alloc, shown)?,
        entries: singles(alloc, shown)?,
        next: next_page(alloc, entries, asked.max)?,
    })
}
