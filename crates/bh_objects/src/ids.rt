ghost use Rattle.std.specs.Prelude.{◌≡◌, ◌≢◌, ◌<◌, ◌^◌, ℕ, IfSome, IfNone};
ghost use Rattle.bh_model.specs.Entries as entries;
ghost use Rattle.bh_model.specs.Operations as machine;
ghost use Rattle.bh_view.specs.Put as put;
ghost use Rattle.bh_view.specs.View as view;

use bh_model::entries::new_id;
use bh_types::bucket_state::BucketState;
use bh_types::counters::COUNTER_END;
use bh_types::id::VersionId;

/// The column `id` of a new entry: 0, which is `null`, unless versions are numbered.
pub fn row_number(mode: BucketState, version: u64) -> u64
    ensures { result ≡ put.row_number mode version }
{
    match mode {
        BucketState::Unversioned => 0,
        BucketState::Enabled => version,
        BucketState::Suspended => 0,
    }
}

/// The version id in the column `id`.
pub fn id_of(number: u64) -> VersionId
    ensures { result ≡ view.id_of number }
{
    if number == 0 {
        VersionId::Null
    } else {
        VersionId::Numbered(number)
    }
}

/// The column `id` of rows with a version id, or `None` if no row can have it.
pub fn number_of(id: VersionId) -> Option<u64>
    ensures some { IfSome result (λ n. (view.id_of n ≡ id) × (n < 2 ^ 62)) }
    ensures none { IfNone result ((n : ℕ) → n < 2 ^ 62 → view.id_of n ≢ id) }
{
    match id {
        VersionId::Null => Some(0),
        VersionId::Numbered(number) => {
            if 0 < number && number < COUNTER_END {
                Some(number)
            } else {
                None
            }
        }
    }
}

/// The returned id of an entry; `None` if its bucket never had versions.
pub fn told_id(mode: BucketState, id: VersionId) -> Option<VersionId>
    ensures { result ≡ machine.id_told mode id }
{
    match mode {
        BucketState::Unversioned => None,
        BucketState::Enabled => Some(id),
        BucketState::Suspended => Some(id),
    }
}

/// The returned id of a new entry in a bucket of this state; `next` is the tenant's next version
/// number.
pub fn new_id_told(mode: BucketState, next: u64) -> Option<VersionId>
    ensures { result ≡ machine.id_told mode (entries.new_id mode next) }
{
    told_id(mode, new_id(mode, next))
}
