//! Reads a page a few rows at a time.

ghost use Rattle.std.specs.Prelude.{◌≡◌, IfOk, OnOk};
ghost use Rattle.bh_pages.specs.Seen.{seen};
ghost use Rattle.bh_pages.specs.Reading.{IsCount, GoesOn, AreRows, IsUnderway, Took};

use crate::gathering::{Gathering, Line, Listed, ObjectLine, PageAsked};
use std::alloc::{AllocError, Global};

/// The progress of reading a page.
#[derive(Drop)]
pub struct Reading {
    pub gathering: Gathering<ObjectLine>,
    /// The least key of the next rows.
    pub from: Vec<u8>,
    /// The maximum number of rows to read next: 1 to 64.
    pub count: u64,
}

/// How many rows to read first: at most one more than the page has entries.
pub(crate) fn first_count(max: u32) -> u64
    ensures { IsCount result }
{
    u64::from(max.min(63)) + 1
}

/// How many rows to read next, after some that gave `gave` entries: few if they were grouped.
pub(crate) fn next_count(gave: usize) -> u64
    ensures { IsCount result }
{
    match gave {
        0 | 1 => 4,
        2..=31 => 2 * gave as u64,
        _ => 64,
    }
}

/// The position at which to read on: after the last row.
fn past_last(
    alloc: Global,
    asked: &PageAsked<'_>,
    gathering: &Gathering<ObjectLine>,
) -> Result<Vec<u8>, AllocError>
    ensures { IfOk result (λ from. GoesOn asked.now (seen gathering.now) from.items) }
{
    match &gathering.key {
        Some(key) => gathering.place(alloc, asked, key.as_slice()),
        // Rows were read, so there is a last one.
        None => Err(AllocError),
    }
}

impl Reading {
    /// A reading at its start. Fails if memory runs out.
    pub fn begin(alloc: Global, asked: &PageAsked<'_>) -> Result<Reading, AllocError>
        ensures underway { IfOk result (λ reading. (rows : _) → AreRows asked.now.prefix.now rows → IsUnderway asked.now rows reading) }
        ensures count { IfOk result (λ reading. IsCount reading.count) }
    {
        Ok(Reading {
            gathering: Gathering::new(alloc, None),
            from: asked.start(alloc)?,
            count: first_count(asked.max),
        })
    }

    /// Adds the rows that were read. Returns whether the page is full, or no rows are left. Fails
    /// if memory runs out.
    pub fn take(
        &mut self,
        alloc: Global,
        asked: &PageAsked<'_>,
        lines: &[Line],
    ) -> Result<bool, AllocError>
        ensures took { IfOk result (Took asked.now self.old lines.now self.new) }
        ensures count { OnOk result (IsCount self.old.count → IsCount self.new.count) }
    {
        let before = self.gathering.entries.len();
        self.gathering.add_all(alloc, asked, lines)?;
        let listed = self.gathering.entries.len();
        if listed > asked.max as usize || (lines.len() as u64) < self.count {
            return Ok(true);
        }
        self.from = past_last(alloc, asked, &self.gathering)?;
        self.count = next_count(listed.saturating_sub(before));
        Ok(false)
    }

    /// The entries that were found.
    pub fn into_entries(self) -> Vec<Listed<ObjectLine>>
        ensures { result ≡ self.gathering.entries }
    {
        let gathering = self.gathering;
        gathering.entries
    }
}
