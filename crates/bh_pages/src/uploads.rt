//! Reads a page of uploads a few rows at a time.

ghost use Rattle.std.specs.Prelude.{OnOk, IfOk};
ghost use Rattle.bh_model.specs.Pages.{UploadItem};
ghost use Rattle.bh_pages.specs.Reading.{IsCount};
ghost use Rattle.bh_pages.specs.Uploads as spec;

use crate::gathering::{PageAsked, Single};
use crate::places::{PlaceReading, Row};
use std::alloc::{AllocError, Global};

/// An upload of a key.
#[derive(Clone, Drop)]
pub struct UploadLine {
    pub key: Vec<u8>,
    /// The number in its id.
    pub number: u64,
    /// When it began, in seconds since 1970.
    pub begun: u64,
}

impl Single for UploadLine {
    ghost Item = { UploadItem };

    ghost seen = { spec.seen_line };
}

impl Row<UploadLine> for UploadLine {
    ghost spot = { spec.line_spot };

    ghost item = { spec.line_item };

    fn spot(&self) -> (&[u8], u64) {
        (self.key.as_slice(), self.number)
    }

    fn shown(&self, _alloc: Global, _latest: bool) -> Result<UploadLine, AllocError> {
        self.clone()
    }
}

/// The progress of reading a page of uploads.
pub type UploadReading = PlaceReading<UploadLine>;

impl UploadReading {
    /// Adds the rows that were read. Returns whether the page is full, or no rows are left. Fails
    /// if memory runs out.
    pub fn take(
        &mut self,
        alloc: Global,
        asked: &PageAsked<'_>,
        lines: &[UploadLine],
    ) -> Result<bool, AllocError>
        ensures took { IfOk result (spec.TookUploads asked.now self.old lines.now self.new) }
        ensures count { OnOk result (IsCount self.old.count → IsCount self.new.count) }
    {
        self.take_rows(alloc, asked, lines)
    }
}
