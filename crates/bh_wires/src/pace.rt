//! A clock that leaps ahead while a server runs. A reading that is too far ahead is taken as one that
//! is out of range, so that nothing is stamped with it: stamps don't go back.

ghost use Rattle.std.specs.Prelude.{◌≡◌, true};
ghost use Rattle.bh_wires.specs.Pace.{accepted, is_ahead, is_behind, is_in_range, taken_as, measured_by};

use bh_types::moment::LAST_READING;

/// A reading that was accepted, and how many seconds the machine ran then.
#[derive(Clone, Copy)]
pub struct Accepted {
    pub reading: u64,
    pub at: u64,
}

/// The pace of a clock: what its readings are measured by.
#[derive(Clone, Copy)]
pub struct Pace {
    /// Of those that were accepted, the one that was furthest ahead.
    last: Option<Accepted>,
    /// By how many seconds a reading may be ahead of it, beside those that passed since.
    step: u64,
    /// Whether the last reading was further ahead.
    is_away: bool,
}

impl Pace {
    pub fn new(step: u64) -> Pace {
        Pace {
            last: None,
            step,
            is_away: false,
        }
    }

    /// What a reading is taken for after the machine ran `now` seconds: itself, or one that is out of
    /// range.
    pub fn take(&mut self, reading: u64, now: u64) -> u64
        ensures taken { result ≡ taken_as reading self.old.last now self.old.step }
        ensures last { self.new.last ≡ measured_by reading self.old.last now self.old.step }
        ensures step { self.new.step ≡ self.old.step }
        ensures away { self.new.is_away ≡ is_ahead reading self.old.last now self.old.step }
    {
        let taken = taken_for(reading, self.last, now, self.step);
        self.is_away = runs_away(reading, self.last, now, self.step);
        self.last = next_last(reading, self.last, now, self.step);
        taken
    }

    /// Takes a reading as right, after the machine ran `now` seconds: the next ones are measured by it
    /// alone. Returns whether it did: one that is out of range isn't taken.
    pub fn accept(&mut self, reading: u64, now: u64) -> bool
        ensures accepted { self.new ≡ accepted self.old reading now }
        ensures told { result ≡ is_in_range reading }
        ensures taken { result ≡ true → taken_as reading self.new.last now self.new.step ≡ reading }
    {
        if reading > LAST_READING {
            return false;
        }
        self.last = Some(Accepted { reading, at: now });
        self.is_away = false;
        true
    }

    /// Whether the last reading was too far ahead.
    pub fn is_away(&self) -> bool
        ensures { result ≡ self.now.is_away }
    {
        self.is_away
    }
}

/// Whether a reading is too far ahead.
fn runs_away(reading: u64, last: Option<Accepted>, now: u64, step: u64) -> bool
    ensures { result ≡ is_ahead reading last now step }
{
    match last {
        Some(last) => {
            let passed = now.saturating_sub(last.at);
            let most = last.reading.saturating_add(passed).saturating_add(step);
            most < reading
        }
        None => false,
    }
}

/// What a reading is taken for: itself, or one that is out of range.
pub fn taken_for(reading: u64, last: Option<Accepted>, now: u64, step: u64) -> u64
    ensures { result ≡ taken_as reading last now step }
{
    if runs_away(reading, last, now, step) {
        u64::MAX
    } else {
        reading
    }
}

/// Whether a reading is less far ahead than the one that it is measured by.
fn falls_back(reading: u64, last: Option<Accepted>, now: u64) -> bool
    ensures { result ≡ is_behind reading last now }
{
    match last {
        Some(last) => match last.reading.checked_add(now.saturating_sub(last.at)) {
            Some(due) => reading < due,
            None => true,
        },
        None => false,
    }
}

/// What the next readings are measured by.
fn next_last(reading: u64, last: Option<Accepted>, now: u64, step: u64) -> Option<Accepted>
    ensures { result ≡ measured_by reading last now step }
{
    if runs_away(reading, last, now, step)
        || reading > LAST_READING
        || falls_back(reading, last, now)
    {
        last
    } else {
        Some(Accepted { reading, at: now })
    }
}
