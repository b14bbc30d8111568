//! Common prefixes of keys.

use crate::document::{Listed, Shown, object_of};
use serde_json::Value;
use std::alloc::{AllocError, Global};

/// The keys of a listing that share a part up to the delimiter, grouped under one name.
#[derive(Drop)]
pub struct CommonPrefix {
    pub prefix: String,
}

impl Listed for CommonPrefix {
    ghost use Rattle.bh_docs.specs.Heads.{prefix_data};

    ghost shown = { prefix_data };

    fn value(&self, alloc: Global) -> Result<Value, AllocError> {
        object_of(alloc, &[("Prefix", Shown::Text(self.prefix.as_str()))])
    }
}
