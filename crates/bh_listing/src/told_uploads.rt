//! The contents of a page of uploads.

ghost use Rattle.bh_model.specs.Pages.{UploadItem, UploadNext, upload_next};
ghost use Rattle.bh_pages.specs.Uploads.{seen_line};
ghost use Rattle.bh_docs.specs.Pages.{upload_view, upload_next_view};

use crate::tell::{Told, moment_of, text_of};
use bh_docs::{Next, UploadEntry};
use bh_pages::uploads::UploadLine;
use bh_storage::error::Trouble;
use bh_types::id::UploadId;
use std::alloc::Global;

impl Told for UploadLine {
    type Entry = UploadEntry;

    type Next = Next<UploadId>;

    ghost Item = { UploadItem };

    ghost Place = { UploadNext };

    ghost see = { seen_line };

    ghost view = { upload_view };

    ghost next_view = { upload_next_view };

    ghost next_of = { upload_next };

    fn told(&self, alloc: Global) -> Result<UploadEntry, Trouble> {
        Ok(UploadEntry {
            initiated: moment_of(self.begun)?,
            key: text_of(alloc, self.key.as_slice())?,
            id: UploadId {
                number: self.number,
            },
        })
    }

    fn next(&self, alloc: Global) -> Result<Next<UploadId>, Trouble> {
        Ok(Next {
            name: text_of(alloc, self.key.as_slice())?,
            id: Some(UploadId {
                number: self.number,
            }),
        })
    }

    fn next_past(alloc: Global, name: &[u8]) -> Result<Next<UploadId>, Trouble> {
        Ok(Next {
            name: text_of(alloc, name)?,
            id: None,
        })
    }
}
