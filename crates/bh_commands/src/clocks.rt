//! A command's clock, compared with its host's last stamp.

ghost use Rattle.std.specs.Prelude.{◌≡◌, IfOk, IfSome};
ghost use Rattle.bh_commands.specs.Clocks as spec;

use bh_connection::{Clock, MachineClock};
use bh_maintenance::remarks::DAY;
use bh_types::moment::LAST_READING;
use bh_words::Leap;
use std::io;

/// The given time, or the machine's clock, in whole seconds since 1970.
pub fn reading_of(rt: &HostRuntime, at: Option<u64>) -> io::Result<u64>
    ensures { IfOk result (λ reading. IfSome at (λ given. reading ≡ given)) }
{
    if let Some(reading) = at {
        return Ok(reading);
    }
    MachineClock(rt).seconds()
}

/// Whether a reading is more than `seconds` seconds after the last stamp, if there is one.
fn is_after(latest: u64, reading: u64, seconds: u64) -> bool
    ensures { result ≡ spec.is_after latest reading seconds }
{
    latest > 0 && reading.saturating_sub(latest) > seconds
}

/// Whether a reading is too far ahead of the last stamp. A reading past the clock's range isn't:
/// the host refuses it, and nothing changes.
pub(crate) fn leaps(leap: Leap, latest: u64, reading: u64) -> bool
    ensures { result ≡ spec.leaps leap latest reading }
{
    match leap {
        Leap::Any => false,
        Leap::Days(days) => {
            reading <= LAST_READING && is_after(latest, reading, u64::from(days) * DAY)
        }
    }
}
