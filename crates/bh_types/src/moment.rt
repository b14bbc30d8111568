ghost use Rattle.std.specs.Prelude.{◌≡◌, ◌≢◌, ◌↔◌, ◌≤◌, ◌<◌, ◌*◌, ℕ, pos, Some, None, IsTrue, IfOk, IfSome, IfNone};
ghost use Rattle.std.specs.String.{string_bytes};
ghost use Rattle.std.specs.Option.{SomeIff};
ghost use Rattle.jiff.specs.Words.{epoch_day, date_text, time_text};
ghost use Rattle.bh_types.specs.Moments as spec;

use jiff::civil::{Date, Time, date};
use jiff::fmt::temporal::DateTimePrinter;
use jiff::{Timestamp, ToSpan};
use std::alloc::{AllocError, Global};
use std::marker::Model;

/// The last moment, in seconds since 1970: 9923-11-16T14:13:20Z.
pub const LAST_MOMENT: u64 = 251_000_000_000;

/// The last valid reading of a clock, in seconds since 1970. Moments that are computed from
/// readings may be later.
pub const LAST_READING: u64 = 250_000_000_000;

const SECONDS_A_DAY: u64 = 86_400;

/// A moment: seconds since 1970-01-01T00:00:00Z, as POSIX counts them, 0 to [`LAST_MOMENT`].
#[derive(Clone, Copy, Debug, PartialEq, Eq, PartialOrd, Ord)]
pub struct Moment {
    seconds: u64,
}

impl Model for Moment {
    ghost use Rattle.std.specs.Prelude.{ℕ, ◌≤◌};

    ghost Value = { ℕ };

    ghost view = { λ m. m.seconds };

    ghost invariant = { λ m. m.seconds ≤ 251_000_000_000 };

    ghost inverse = { λ n. record { seconds = n } };
}

impl Moment {
    /// The moment, or `None` after [`LAST_MOMENT`].
    pub fn new(seconds: u64) -> Option<Moment>
        ensures { SomeIff result (seconds ≤ 251_000_000_000) seconds }
    {
        if seconds <= LAST_MOMENT {
            Some(Moment { seconds })
        } else {
            None
        }
    }

    /// The moment of a clock's reading, or `None` after [`LAST_READING`].
    pub fn from_reading(seconds: u64) -> Option<Moment>
        ensures { SomeIff result (seconds ≤ 250_000_000_000) seconds }
    {
        if seconds <= LAST_READING {
            Some(Moment { seconds })
        } else {
            None
        }
    }

    /// Parses a moment in exactly the form that [`moment_text`] writes, or returns `None`. It
    /// allocates nothing.
    pub fn read(text: &str) -> Option<Moment>
        ensures is { result ≡ spec.moment_of text.now }
        ensures value { IfSome result (λ m. spec.moment_text m ≡ text.now) }
        ensures none { IfNone result ((m : ℕ) → m ≤ 251_000_000_000 → text.now ≢ spec.moment_text m) }
    {
        let parsed = text.parse::<Timestamp>();
        let Ok(timestamp) = parsed else {
            return None;
        };
        let Some(moment) = moment_at(timestamp) else {
            return None;
        };
        // The reader takes other forms too.
        if is_print(timestamp, text) {
            Some(moment)
        } else {
            None
        }
    }

    /// Seconds since 1970.
    pub fn seconds(self) -> u64
        ensures value { result ≡ self }
        ensures valid { self ≤ 251_000_000_000 }
    {
        self.seconds
    }
}

/// The moment as `YYYY-MM-DDTHH:MM:SSZ`, in UTC (RFC 3339, section 5.6). Fails if memory runs out.
pub fn moment_text(alloc: Global, moment: Moment) -> Result<String, AllocError>
    ensures { IfOk result (λ text. string_bytes text ≡ spec.moment_text moment) }
{
    let seconds = moment.seconds();
    let date = day_after((seconds / SECONDS_A_DAY) as u32);
    let time = clock((seconds % SECONDS_A_DAY) as u32);
    format!(in alloc; "{date}T{time}Z")
}

/// The moment of an instant, or `None` if it has a fraction of a second, or is before 1970 or after
/// [`LAST_MOMENT`].
fn moment_at(timestamp: Timestamp) -> Option<Moment>
    ensures value { IfSome result (λ m. timestamp.nanosecond ≡ pos (m * 1_000_000_000)) }
    ensures found { (m : ℕ) → m ≤ 251_000_000_000 → timestamp.nanosecond ≡ pos (m * 1_000_000_000) → result ≡ Some m }
{
    let seconds = timestamp.as_second();
    if seconds < 0 || timestamp.subsec_nanosecond() != 0 {
        return None;
    }
    Moment::new(seconds as u64)
}

/// Whether a text is the print of an instant that is a moment.
fn is_print(timestamp: Timestamp, text: &str) -> bool
    ensures { (m : ℕ) → m ≤ 251_000_000_000 → timestamp.nanosecond ≡ pos (m * 1_000_000_000)
        → IsTrue result ↔ (spec.moment_text m ≡ text.now) }
{
    let printed = DateTimePrinter::new().timestamp_text(timestamp.to_plain());
    printed.as_str() == text
}

/// When an upload that began at a moment becomes stale under a rule of `days` days. It is the
/// midnight, in UTC, at the end of the day that is `days` days later. S3 rounds `x-amz-abort-date`
/// so.
pub fn abort_moment(begun: Moment, days: u16) -> Moment
    requires begun { begun ≤ 250_000_000_000 }
    requires low { 1 ≤ days }
    requires high { days ≤ 3650 }
    ensures { result ≡ spec.abort_moment begun days }
{
    let day = (begun.seconds() / SECONDS_A_DAY) as u32;
    Moment {
        seconds: midnight(day + u32::from(days) + 1),
    }
}

/// 1 January 1970.
fn epoch() -> Date
    ensures { epoch_day result ≡ pos 0 }
{
    date(1970, 1, 1)
}

/// The first second of the date `days` days after 1 January 1970, in seconds since then.
fn midnight(days: u32) -> u64
    requires { days ≤ 2_932_896 }
    ensures { result ≡ 86400 * days }
{
    let passed = epoch().duration_until(date_after(days));
    passed.as_secs() as u64
}

/// The date `days` days after 1 January 1970, up to the calendar's last, 9999-12-31.
fn date_after(days: u32) -> Date
    requires { days ≤ 2_932_896 }
    ensures { epoch_day result ≡ pos days }
{
    let span = i64::from(days).days();
    match epoch().checked_add(span) {
        Ok(found) => found,
        Err(_) => unreachable!(),
    }
}

/// The date `days` days after 1 January 1970, by the calendar of `specs`.
fn day_after(days: u32) -> Date
    requires { days ≤ 2_932_896 }
    ensures { date_text result ≡ spec.day_text (spec.day_at days) }
{
    date_after(days)
}

/// The time of a second of the day.
fn clock(second: u32) -> Time
    requires { second < 86400 }
    ensures { time_text None result ≡ spec.time_text second }
{
    match Time::new(
        (second / 3600) as i8,
        (second / 60 % 60) as i8,
        (second % 60) as i8,
        0,
    ) {
        Ok(time) => time,
        Err(_) => unreachable!(),
    }
}
