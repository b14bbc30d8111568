ghost use Rattle.std.specs.Prelude.{◌≡◌};
ghost use Rattle.bh_model.specs.Entries as spec;

use bh_types::bucket_state::BucketState;
use bh_types::id::VersionId;

/// The id of a new entry in a bucket of this state; `next` is the tenant's next version number.
pub fn new_id(state: BucketState, next: u64) -> VersionId
    ensures { result ≡ spec.new_id state next }
{
    match state {
        BucketState::Enabled => VersionId::Numbered(next),
        BucketState::Unversioned | BucketState::Suspended => VersionId::Null,
    }
}
