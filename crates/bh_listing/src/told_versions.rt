//! The contents of a page of versions.

ghost use Rattle.std.specs.Prelude.{◌≡◌, option_map, IfOk};
ghost use Rattle.std.specs.String.{string_bytes};
ghost use Rattle.bh_model.specs.Pages.{VersionItem, VersionNext, version_next};
ghost use Rattle.bh_pages.specs.Versions.{seen_version, stored_of};
ghost use Rattle.bh_docs.specs.Pages.{version_view, stored_view, next_view};

use crate::tell::{Told, moment_of, text_of};
use bh_docs::{Next, StoredObject, VersionEntry};
use bh_objects::ids::id_of;
use bh_pages::versions::{ShownVersion, VersionLine};
use bh_storage::error::Trouble;
use bh_types::id::VersionId;
use std::alloc::{AllocError, Global};

/// A version's stored object; a delete marker has none.
fn stored_object(alloc: Global, version: &VersionLine) -> Result<Option<StoredObject>, AllocError>
    ensures { IfOk result (λ stored. option_map stored_view stored
        ≡ stored_of version.now.marker version.now.size (string_bytes version.now.checksum)) }
{
    if version.marker != 0 {
        return Ok(None);
    }
    Ok(Some(StoredObject {
        checksum: version.checksum.clone()?,
        size: version.size,
    }))
}

impl Told for ShownVersion {
    type Entry = VersionEntry;

    type Next = Next<VersionId>;

    ghost Item = { VersionItem };

    ghost Place = { VersionNext };

    ghost see = { seen_version };

    ghost view = { version_view };

    ghost next_view = { next_view };

    ghost next_of = { version_next };

    fn told(&self, alloc: Global) -> Result<VersionEntry, Trouble> {
        Ok(VersionEntry {
            id: id_of(self.line.id),
            key: text_of(alloc, self.line.key.as_slice())?,
            modified: moment_of(self.line.stamp)?,
            latest: self.latest,
            object: stored_object(alloc, &self.line)?,
        })
    }

    fn next(&self, alloc: Global) -> Result<Next<VersionId>, Trouble> {
        Ok(Next {
            name: text_of(alloc, self.line.key.as_slice())?,
            id: Some(id_of(self.line.id)),
        })
    }

    fn next_past(alloc: Global, name: &[u8]) -> Result<Next<VersionId>, Trouble> {
        Ok(Next {
            name: text_of(alloc, name)?,
            id: None,
        })
    }
}
