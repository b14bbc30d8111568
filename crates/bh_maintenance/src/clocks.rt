//! Whether an exported file's last stamp is too far ahead of the clock and of the other host's.

ghost use Rattle.std.specs.Prelude.{◌≡◌};
ghost use Rattle.bh_maintenance.specs.Clocks as spec;

use crate::remarks::DAY;
use bh_words::Leap;

/// A reading of the machine's clock, in seconds since 1970, and how far a stamp may be ahead of it
/// and of a host's last stamp.
#[derive(Clone, Copy)]
pub struct ClockRead {
    pub reading: u64,
    pub leap: Leap,
}

/// Whether a stamp is too far after a moment, both in seconds since 1970.
pub(crate) fn is_beyond(leap: Leap, moment: u64, stamp: u64) -> bool
    ensures { result ≡ spec.is_beyond leap moment stamp }
{
    match leap {
        Leap::Any => false,
        Leap::Days(days) => stamp.saturating_sub(moment) > u64::from(days) * DAY,
    }
}

/// The later of the clock and a host's last stamp, in seconds since 1970.
pub(crate) fn moment_of(clock: ClockRead, latest: u64) -> u64
    ensures { result ≡ spec.moment_of clock latest }
{
    clock.reading.max(latest)
}
