//! For how long answers that have no room may hold everybody up.

ghost use Rattle.std.specs.Prelude.{◌≡◌, ◌≤◌, ◌+◌, ◌-◌, ◌*◌, min};
ghost use Rattle.bh_stage.specs.Patience.{left_at, full_at};

/// How many milliseconds in a second, all answers together.
const MOST: u64 = 250;

const SECOND: u64 = 1_000;

/// What is left of the milliseconds for which answers without room in files may wait for their sockets,
/// while every other connection waits for them. All answers have them together.
#[derive(Drop)]
pub(crate) struct Patience {
    /// When it was full for the first time, and for the last time.
    began: u64,
    since: u64,
    left: u64,
    /// How much of it was spent in all.
    spent: u64,
    ghost in_turn: { began ≤ since },
    ghost bounded: { 4 * (spent + left) ≤ 1000 + (since - began) },
}

impl Patience {
    /// It is full at that time of the clock.
    pub(crate) fn new(now: u64) -> Patience
        ensures left { result.left ≡ 250 }
        ensures since { result.since ≡ now }
    {
        Patience {
            began: now,
            since: now,
            left: MOST,
            spent: 0,
        }
    }

    /// A second after it was full it is full again.
    pub(crate) fn refill(&mut self, now: u64)
        ensures left { self.new.left ≡ left_at self.old.since self.old.left now }
        ensures since { self.new.since ≡ full_at self.old.since now }
        ensures spent { self.new.spent ≡ self.old.spent }
    {
        if now.saturating_sub(self.since) >= SECOND {
            self.since = now;
            self.left = MOST;
        }
    }

    /// An answer waited for so many milliseconds.
    pub(crate) fn spend(&mut self, milliseconds: u64)
        ensures left { self.new.left ≡ self.old.left - milliseconds }
        ensures since { self.new.since ≡ self.old.since }
        ensures spent { self.new.spent ≡ self.old.spent + min milliseconds self.old.left }
    {
        let spent = milliseconds.min(self.left);
        self.left -= spent;
        self.spent += spent;
    }

    /// For how many milliseconds the next answer may wait.
    pub(crate) fn left(&self) -> u64
        ensures { result ≡ self.now.left }
    {
        self.left
    }
}
