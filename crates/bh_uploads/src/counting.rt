ghost use Rattle.std.specs.Prelude.{◌≡◌, ◌<◌, ◌^◌, IfOk};
ghost use Rattle.bh_uploads.specs.Found as spec;

use bh_types::counters::COUNTER_END;
use bh_types::refusal::Refusal;

/// A counter's next number. Fails with [`Refusal::CounterExhausted`] if there is none.
pub fn given(next: u64) -> Result<u64, Refusal>
    ensures value { result ≡ spec.given next }
    ensures small { IfOk result (λ n. n < 2 ^ 62) }
{
    if next < COUNTER_END {
        Ok(next)
    } else {
        Err(Refusal::CounterExhausted)
    }
}
