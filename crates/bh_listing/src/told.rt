//! The contents of a page of objects.

ghost use Rattle.std.specs.String.{string_bytes};
ghost use Rattle.bh_model.specs.State.{Octets};
ghost use Rattle.bh_model.specs.Pages.{ObjectItem, name_of};
ghost use Rattle.bh_docs.specs.Pages.{object_view};
ghost use Rattle.bh_pages.specs.Seen.{seen_object};

use crate::tell::{Told, moment_of, text_of};
use bh_docs::{ObjectEntry, Stored};
use bh_pages::gathering::ObjectLine;
use bh_storage::error::Trouble;
use std::alloc::Global;

impl Told for ObjectLine {
    type Entry = ObjectEntry;

    type Next = String;

    ghost Item = { ObjectItem };

    ghost Place = { Octets };

    ghost see = { seen_object };

    ghost view = { object_view };

    ghost next_view = { string_bytes };

    ghost next_of = { name_of (λ (o : ObjectItem). o.key) };

    fn told(&self, alloc: Global) -> Result<ObjectEntry, Trouble> {
        Ok(ObjectEntry {
            key: text_of(alloc, self.key.as_slice())?,
            stored: Stored {
                checksum: String::from_str(alloc, self.checksum.as_str())?,
                modified: moment_of(self.stamp)?,
                size: self.size,
            },
        })
    }

    fn next(&self, alloc: Global) -> Result<String, Trouble> {
        text_of(alloc, self.key.as_slice())
    }

    fn next_past(alloc: Global, name: &[u8]) -> Result<String, Trouble> {
        text_of(alloc, name)
    }
}
