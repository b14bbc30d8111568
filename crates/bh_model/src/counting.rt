ghost use Rattle.std.specs.Prelude.{◌≡◌};
ghost use Rattle.bh_model.specs.Counting as spec;

use bh_types::bucket_state::BucketState;
use bh_types::counters::{COUNTER_END, Counters};
use bh_types::refusal::Refusal;

/// The counters after a new version or delete marker in a bucket of this state took its numbers: an
/// entry number and, if versions are numbered, a version number. Fails with
/// [`Refusal::CounterExhausted`] if one of these is exhausted.
pub fn after_entry(state: BucketState, counters: Counters) -> Result<Counters, Refusal>
    ensures { result ≡ spec.after_entry state counters }
{
    let is_numbered = state == BucketState::Enabled;
    if counters.entry == COUNTER_END || (is_numbered && counters.version == COUNTER_END) {
        return Err(Refusal::CounterExhausted);
    }
    Ok(Counters {
        version: counters.version + u64::from(is_numbered),
        upload: counters.upload,
        entry: counters.entry + 1,
    })
}
