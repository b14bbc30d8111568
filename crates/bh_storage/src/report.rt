/// The result of a sweep.
#[derive(Clone, Copy, PartialEq, Eq)]
pub struct SweepReport {
    /// How many stale uploads were removed.
    pub uploads: u32,
    /// How many unreferenced blocks were removed.
    pub blocks: u32,
    /// Whether nothing more is due.
    pub complete: bool,
}

/// A tenant, as it is described to an operator.
#[derive(Drop)]
pub struct TenantReport {
    pub name: String,
    /// The maximum bytes of its versions and parts.
    pub quota: u64,
    /// The bytes of its versions and parts.
    pub used: u64,
    /// Its number of access keys.
    pub keys: u64,
}

/// The sizes of what all tenants have stored.
#[derive(Clone, Copy, PartialEq, Eq)]
pub struct StoreReport {
    /// The number of blocks, which all have different bytes.
    pub blocks: u64,
    /// Their bytes.
    pub stored: u64,
    /// The bytes of all bodies; a block counts once for each reference.
    pub referred: u128,
    /// The number of blocks whose digest an earlier, different block had.
    pub clashes: u64,
}
