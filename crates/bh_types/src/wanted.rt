use crate::id::VersionId;

/// The version of a key in a request.
#[derive(Clone, Copy, PartialEq, Eq)]
pub enum Wanted {
    /// No id is given: the newest version.
    Current,
    /// The version or marker with this id.
    Named(VersionId),
    /// The given text is not an id, so no version has it.
    Unknown,
}

/// A part in the request to complete an upload.
#[derive(Clone, PartialEq, Eq, Drop)]
pub struct Named {
    /// The part's number.
    pub number: u32,
    /// The checksum that the part must have, in base64, if one is given.
    pub sum: Option<String>,
}
