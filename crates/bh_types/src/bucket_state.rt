ghost use Rattle.std.specs.Prelude.{◌≡◌, ◌≢◌, IfSome, IfNone};

/// A bucket's versioning state, as in S3.
#[derive(Clone, Copy, PartialEq, Eq)]
pub enum BucketState {
    /// A new bucket: each key has at most one version, `null`.
    Unversioned,
    /// Each put adds a numbered version, and keeps the others.
    Enabled,
    /// Each put replaces the version `null`, and keeps the numbered ones.
    Suspended,
}

impl BucketState {
    ghost use Rattle.bh_types.specs.BucketStates.{state_number};
    ghost use Rattle.bh_types.specs.declared.bucket_state.BucketState.{BucketState as State};

    /// Its number in a table's column: 0, 1 or 2.
    pub fn number(self) -> u64
        ensures { result ≡ state_number self }
    {
        match self {
            BucketState::Unversioned => 0,
            BucketState::Enabled => 1,
            BucketState::Suspended => 2,
        }
    }

    /// The state with a column's number, or `None` if no state has it.
    pub fn from_number(number: u64) -> Option<BucketState>
        ensures value { IfSome result (λ state. state_number state ≡ number) }
        ensures none { IfNone result ((state : State) → state_number state ≢ number) }
    {
        match number {
            0 => Some(BucketState::Unversioned),
            1 => Some(BucketState::Enabled),
            2 => Some(BucketState::Suspended),
            _ => None,
        }
    }
}
