//! Reads a page of versions a few rows at a time.

ghost use Rattle.std.specs.Prelude.{OnOk, IfOk};
ghost use Rattle.bh_model.specs.Pages.{VersionItem};
ghost use Rattle.bh_pages.specs.Reading.{IsCount};
ghost use Rattle.bh_pages.specs.Versions as spec;

use crate::gathering::{PageAsked, Single};
use crate::places::{PlaceReading, Row};
use std::alloc::{AllocError, Global};

/// A version or a delete marker of a key.
#[derive(Clone, Drop)]
pub struct VersionLine {
    pub key: Vec<u8>,
    /// Its entry number, which orders the versions of a key.
    pub seq: u64,
    /// 0 for `null`.
    pub id: u64,
    /// 0 for a version.
    pub marker: u64,
    pub stamp: u64,
    pub size: u64,
    pub checksum: String,
}

/// A version or a delete marker in a listing.
#[derive(Drop)]
pub struct ShownVersion {
    pub line: VersionLine,
    /// Whether it is the newest of its key.
    pub latest: bool,
}

impl Single for ShownVersion {
    ghost Item = { VersionItem };

    ghost seen = { spec.seen_version };
}

impl Row<ShownVersion> for VersionLine {
    ghost spot = { spec.line_spot };

    ghost item = { spec.line_item };

    fn spot(&self) -> (&[u8], u64) {
        (self.key.as_slice(), self.seq)
    }

    fn shown(&self, _alloc: Global, latest: bool) -> Result<ShownVersion, AllocError> {
        let line = self.clone()?;
        Ok(ShownVersion { line, latest })
    }
}

/// The progress of reading a page of versions.
pub type VersionReading = PlaceReading<ShownVersion>;

impl VersionReading {
    /// Adds the rows that were read. Returns whether the page is full, or no rows are left. Fails
    /// if memory runs out.
    pub fn take(
        &mut self,
        alloc: Global,
        asked: &PageAsked<'_>,
        lines: &[VersionLine],
    ) -> Result<bool, AllocError>
        ensures took { IfOk result (spec.TookVersions asked.now self.old lines.now self.new) }
        ensures count { OnOk result (IsCount self.old.count → IsCount self.new.count) }
    {
        self.take_rows(alloc, asked, lines)
    }
}
