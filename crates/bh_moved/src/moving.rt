//! The common arguments of a move.

ghost use Rattle.std.specs.Prelude.{◌≤◌, ◌<◌, ◌^◌};

use bh_schema::rows::tenants::TenantNumbers;
use std::alloc::Global;

/// A tenant to be moved, and the settings for its bodies.
#[derive(Drop)]
pub struct Moving<'a, D> {
    pub alloc: Global,
    /// Names the blocks of the host that the tenant is moved to.
    pub digester: &'a D,
    /// The maximum size of a block in bytes.
    pub block_size: u64,
    pub tenant: &'a str,
    /// Its quota and counters, which are the same in both hosts.
    pub numbers: TenantNumbers,
    ghost positive: { 1 ≤ block_size },
    ghost small: { numbers.next_entry < 2 ^ 63 },
}
