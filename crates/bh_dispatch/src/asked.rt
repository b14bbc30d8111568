//! The common arguments of operations.
use bh_types::limits::Limits;
use bh_types::moment::Moment;
use bh_types::names::TenantName;

/// The caller of an operation, and the time.
#[derive(Drop)]
pub struct Asked<'a> {
    /// The limits that the host was created with.
    pub limits: Limits,
    pub tenant: &'a TenantName,
    pub at: Moment,
}
