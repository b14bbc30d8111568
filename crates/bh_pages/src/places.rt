//! Reads a page a few rows at a time, each time from a place on.

ghost use Rattle.std.specs.Prelude.{◌≡◌, Bool, true, option_map, OnOk, IfOk};
ghost use Rattle.bh_model.specs.Pages.{begins, rolled, as_listed};
ghost use Rattle.bh_pages.specs.Gathered.{nothing_after};
ghost use Rattle.bh_pages.specs.Places.{Spot, past_row};
ghost use Rattle.bh_pages.specs.Reading.{IsCount};
ghost use Rattle.bh_pages.specs.Seen.{gathered_by};
ghost use Rattle.bh_pages.specs.Taken as spec;
ghost use Rattle.bh_pages.specs.Taken.{seen_place};

use crate::gathering::{Gathering, Listed, PageAsked, Single, is_text, past};
use crate::names::name_end;
use crate::reading::{first_count, next_count};
use std::alloc::{AllocError, Global};

/// A place between rows.
#[derive(Drop)]
pub struct Place {
    pub key: Vec<u8>,
    /// `None` means before all rows of the key, otherwise after the one with this number.
    pub after: Option<u64>,
}

/// A row that is read from a place on, and that a page lists as a `T`.
pub trait Row<T: Single> {
    /// Its key, and its number among the rows of the key.
    ghost spot: { Self → Spot };

    /// Its entry in a page, if it is the newest of its key, and if it is not.
    ghost item: { Bool → Self → T };

    fn spot(&self) -> (&[u8], u64)
        ensures { (result.0.now, result.1) ≡ spot self.now };

    /// Its entry in a page.
    fn shown(&self, alloc: Global, latest: bool) -> Result<T, AllocError>
        ensures { IfOk result (λ shown. T.seen shown ≡ T.seen (item latest self.now)) };
}

/// The progress of reading a page.
#[derive(Drop)]
pub struct PlaceReading<T> {
    pub gathering: Gathering<T>,
    /// The place at which the next rows begin.
    pub place: Place,
    /// The maximum number of rows to read next: 1 to 64.
    pub count: u64,
}

impl<T: Single + Drop> Gathering<T> {
    /// Lists a row with a key under the prefix, or the key's grouped name, if the page may have it.
    fn add_entry<R: Row<T>>(
        &mut self,
        alloc: Global,
        asked: &PageAsked<'_>,
        row: &R,
        latest: bool,
    ) -> Result<(), AllocError>
        ensures { begins asked.now.prefix.now (R.spot row.now).0 ≡ true
            → OnOk result (gathered_by T.seen self.new ≡ spec.with_passing asked.now (gathered_by T.seen self.old)
            (as_listed (T.seen (R.item latest row.now)) (rolled asked.now.prefix.now asked.now.delimiter.now (R.spot row.now).0))) }
    {
        let (key, _) = row.spot();
        match name_end(asked.prefix, asked.delimiter, key) {
            None => self.list_single(row.shown(alloc, latest)?),
            Some(end) => {
                let name = &key[..end];
                if !asked.is_past(name) {
                    return Ok(());
                }
                self.list_name(alloc, name)
            }
        }
    }

    /// Adds a row, whose key is under the prefix.
    fn add_row<R: Row<T>>(
        &mut self,
        alloc: Global,
        asked: &PageAsked<'_>,
        row: &R,
    ) -> Result<(), AllocError>
        ensures { begins asked.now.prefix.now (R.spot row.now).0 ≡ true
            → OnOk result (gathered_by T.seen self.new ≡ spec.row_added R.spot R.item T.seen asked.now
            (gathered_by T.seen self.old) row.now) }
    {
        let (key, _) = row.spot();
        let latest = !is_text(&self.key, key);
        self.key = Some(Vec::from_slice(alloc, key)?);
        self.add_entry(alloc, asked, row, latest)
    }

    /// Adds the rows in turn, until the page is full.
    fn add_rows<R: Row<T>>(
        &mut self,
        alloc: Global,
        asked: &PageAsked<'_>,
        rows: &[R],
    ) -> Result<(), AllocError>
        ensures { spec.AreUnder R.spot asked.now rows.now
            → OnOk result (gathered_by T.seen self.new ≡ spec.rows_added R.spot R.item T.seen asked.now
            (gathered_by T.seen self.old) rows.now) }
    {
        for row in rows {
            if self.entries.len() > asked.max as usize {
                return Ok(());
            }
            self.add_row(alloc, asked, row)?;
        }
        Ok(())
    }
}

/// The place past a row of this key and this number.
fn place_past(
    alloc: Global,
    asked: &PageAsked<'_>,
    key: &[u8],
    number: u64,
) -> Result<Place, AllocError>
    ensures { begins asked.now.prefix.now key.now ≡ true
        → IfOk result (λ place. seen_place place
        ≡ past_row key.now number (rolled asked.now.prefix.now asked.now.delimiter.now key.now)) }
{
    match name_end(asked.prefix, asked.delimiter, key) {
        None => Ok(Place {
            key: Vec::from_slice(alloc, key)?,
            after: Some(number),
        }),
        Some(end) => Ok(Place {
            key: past(alloc, &key[..end], 255)?,
            after: None,
        }),
    }
}

/// The place past the last of some rows.
fn past_last<T: Single, R: Row<T>>(
    alloc: Global,
    asked: &PageAsked<'_>,
    rows: &[R],
) -> Result<Place, AllocError>
    ensures { IfOk result (λ place. spec.PastLast R.spot asked.now rows.now (seen_place place)) }
{
    if rows.is_empty() {
        // Some rows were read.
        return Err(AllocError);
    }
    let (key, number) = rows[rows.len() - 1].spot();
    place_past(alloc, asked, key, number)
}

/// The place at which to read on after these rows, given how many were requested; `None` if there
/// are no more.
fn place_after<T: Single, R: Row<T>>(
    alloc: Global,
    asked: &PageAsked<'_>,
    place: &Place,
    rows: &[R],
    count: u64,
) -> Result<Option<Place>, AllocError>
    ensures { IfOk result (λ next. spec.GoesOn R.spot asked.now (seen_place place.now) rows.now count (option_map seen_place next)) }
{
    if rows.len() as u64 >= count {
        return Ok(Some(past_last(alloc, asked, rows)?));
    }
    if place.after.is_none() {
        return Ok(None);
    }
    let key = past(alloc, place.key.as_slice(), 0)?;
    Ok(Some(Place { key, after: None }))
}

impl<T: Single + Drop> PlaceReading<T> {
    /// A reading at its start; `key` is that of the rows before the place, if those are listed.
    pub fn begin(
        alloc: Global,
        asked: &PageAsked<'_>,
        place: Place,
        key: Option<Vec<u8>>,
    ) -> PlaceReading<T>
        ensures gathering { gathered_by T.seen result.gathering ≡ nothing_after (option_map (λ k. k.items) key) }
        ensures place { result.place ≡ place }
        ensures count { IsCount result.count }
    {
        PlaceReading {
            gathering: Gathering::new(alloc, key),
            place,
            count: first_count(asked.max),
        }
    }

    /// Adds the rows that were read. Returns whether the page is full, or no rows are left. Fails
    /// if memory runs out.
    pub(crate) fn take_rows<R: Row<T>>(
        &mut self,
        alloc: Global,
        asked: &PageAsked<'_>,
        rows: &[R],
    ) -> Result<bool, AllocError>
        ensures took { IfOk result (spec.Taken R.spot R.item T.seen asked.now self.old rows.now self.new) }
        ensures count { OnOk result (IsCount self.old.count → IsCount self.new.count) }
    {
        let before = self.gathering.entries.len();
        self.gathering.add_rows(alloc, asked, rows)?;
        let listed = self.gathering.entries.len();
        if listed > asked.max as usize {
            return Ok(true);
        }
        let Some(place) = place_after(alloc, asked, &self.place, rows, self.count)? else {
            return Ok(true);
        };
        self.place = place;
        self.count = next_count(listed.saturating_sub(before));
        Ok(false)
    }

    /// The entries that were found.
    pub fn into_entries(self) -> Vec<Listed<T>>
        ensures { result ≡ self.gathering.entries }
    {
        let gathering = self.gathering;
        gathering.entries
    }
}
