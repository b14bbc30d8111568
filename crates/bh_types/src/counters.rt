ghost use Rattle.std.specs.Prelude.{◌↔◌, IsTrue};
ghost use Rattle.std.specs.Option.{SomeIff};
ghost use Rattle.bh_types.specs.Counts.{AreCounters, IsNext};

use std::marker::Model;

/// The value of a counter whose last number, 2^62 - 1, was given.
pub const COUNTER_END: u64 = 1 << 62;

/// The next number of each of a tenant's counters, from 1; [`COUNTER_END`] if the counter is
/// exhausted.
#[derive(Clone, Copy, PartialEq, Eq)]
pub struct Counters {
    /// For numbered version ids.
    pub version: u64,
    /// For upload ids.
    pub upload: u64,
    /// For versions, markers and parts, in the order of their creation.
    pub entry: u64,
}

impl Model for Counters {
    ghost use Rattle.bh_types.specs.Counts.{Counts, AreCounters};

    ghost Value = { Counts };

    ghost view = { λ c. record { version = c.version; upload = c.upload; entry = c.entry } };

    ghost invariant = { λ c. AreCounters c.version c.upload c.entry };

    ghost inverse = { λ c. record { version = c.version; upload = c.upload; entry = c.entry } };
}

impl Counters {
    /// The counters, or `None` if one is outside of 1 to [`COUNTER_END`].
    pub fn new(version: u64, upload: u64, entry: u64) -> Option<Counters>
        ensures { SomeIff result (AreCounters version upload entry)
            (record { version = version; upload = upload; entry = entry }) }
    {
        if is_next(version) && is_next(upload) && is_next(entry) {
            Some(Counters {
                version,
                upload,
                entry,
            })
        } else {
            None
        }
    }
}

fn is_next(n: u64) -> bool
    ensures { IsTrue result ↔ IsNext n }
{
    1 <= n && n <= COUNTER_END
}
