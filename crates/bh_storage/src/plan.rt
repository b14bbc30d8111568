use bh_types::names::TenantName;

/// The remaining bytes of an object's range.
#[derive(Drop)]
pub struct Plan {
    pub tenant: TenantName,
    /// The entry number of the object's version.
    pub body: u64,
    /// The next block's place in the body, counted from 0.
    pub place: u64,
    /// How many bytes to skip, of this block and of those after it.
    pub skip: u64,
    /// The maximum number of bytes to return.
    pub left: u64,
}
