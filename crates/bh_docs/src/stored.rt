//! The members in listings of a stored object or part.

ghost use Rattle.std.specs.Prelude.{◌≡◌, IfOk};
ghost use Rattle.serde_json.specs.View.{view};
ghost use Rattle.bh_docs.specs.Members.{shown_data};
ghost use Rattle.bh_docs.specs.Pages.{stored_data};

use crate::document::{Shown, object_of, with_shown};
use bh_types::moment::Moment;
use serde_json::Value;
use std::alloc::{AllocError, Global};

/// A stored object or part.
#[derive(Drop)]
pub struct Stored {
    pub checksum: String,
    pub modified: Moment,
    /// In bytes.
    pub size: u64,
}

impl Stored {
    /// The object with its members, and the one that names it.
    pub fn value(&self, alloc: Global, name: &str, shown: &Shown<'_>) -> Result<Value, AllocError>
        ensures { IfOk result (λ value. view value ≡ stored_data name.now (shown_data shown.now) self.now) }
    {
        let document = object_of(
            alloc,
            &[
                ("ChecksumSHA256", Shown::Text(self.checksum.as_str())),
                ("LastModified", Shown::At(self.modified)),
                ("Size", Shown::Count(self.size)),
            ],
        )?;
        with_shown(alloc, document, name, shown)
    }
}
