//! Up to where each pack is written, seen, standing and kept.

ghost use Rattle.std.specs.Prelude.{◌≡◌, ◌≢◌, ◌+◌, ℕ, OnOk, OnErr};
ghost use Rattle.bh_shelf.specs.Marks.{no_ends, ends_of, all_kept, all_stood, kept_alone, written_to, ends_at, kept_of};

use bh_packs::trouble::Trouble;
use std::alloc::Global;

/// Up to where one pack is written, stands, is seen and is kept. What was appended for a transaction that
/// was rolled back is written, and no longer seen.
#[derive(Clone, Copy)]
pub struct Ends {
    pub kept: usize,
    pub seen: usize,
    pub stood: usize,
    pub written: usize,
}

impl Ends {
    /// Nothing of a pack is written.
    const NONE: Ends = Ends {
        kept: 0,
        seen: 0,
        stood: 0,
        written: 0,
    };
}

/// The ends of each pack, by its number.
#[derive(Drop)]
pub struct Marks {
    pub ends: Vec<Ends>,
}

impl Marks {
    /// Of no pack anything is written.
    pub(crate) fn new(alloc: Global) -> Marks
        ensures { (n : ℕ) → ends_of result n ≡ no_ends }
    {
        Marks {
            ends: Vec::new(alloc),
        }
    }

    /// So many bytes were written to a pack from here on, and are seen. An error if it wasn't written up to
    /// here.
    pub(crate) fn write(&mut self, pack: usize, from: usize, size: usize) -> Result<(), Trouble>
        ensures from { OnOk result ((ends_of self.old pack).written ≡ from) }
        ensures written { OnOk result (ends_of self.new pack ≡ written_to (from + size) (ends_of self.old pack)) }
        ensures others { (n : ℕ) → n ≢ pack → ends_of self.new n ≡ ends_of self.old n }
        ensures failed { OnErr result ((n : ℕ) → ends_of self.new n ≡ ends_of self.old n) }
    {
        self.reach(pack)?;
        let Some(end) = from.checked_add(size) else {
            return Err(Trouble::Full);
        };
        if pack >= self.ends.len() || self.ends[pack].written != from {
            return Err(Trouble::Outside);
        }
        self.ends[pack].seen = end;
        self.ends[pack].written = end;
        Ok(())
    }

    /// A pack was opened at a mark: all before it is kept. An error if there is no room for its ends.
    pub(crate) fn open(&mut self, pack: usize, mark: usize) -> Result<(), Trouble>
        ensures opened { OnOk result (ends_of self.new pack ≡ ends_at mark) }
        ensures others { (n : ℕ) → n ≢ pack → ends_of self.new n ≡ ends_of self.old n }
        ensures failed { OnErr result ((n : ℕ) → ends_of self.new n ≡ ends_of self.old n) }
    {
        if pack >= self.ends.len() {
            return Err(Trouble::Full);
        }
        self.ends[pack] = Ends {
            kept: mark,
            seen: mark,
            stood: mark,
            written: mark,
        };
        Ok(())
    }

    /// All that is seen and stands is kept.
    pub(crate) fn keep(&mut self)
        ensures { (n : ℕ) → ends_of self.new n ≡ all_kept (ends_of self.old n) }
    {
        for number in 0..self.ends.len() {
            self.keep_at(number);
        }
    }

    /// All that is written stands.
    pub(crate) fn stand(&mut self)
        ensures { (n : ℕ) → ends_of self.new n ≡ all_stood (ends_of self.old n) }
    {
        for number in 0..self.ends.len() {
            self.stand_at(number);
        }
    }

    /// No more is seen than is kept.
    pub(crate) fn forget(&mut self)
        ensures { (n : ℕ) → ends_of self.new n ≡ kept_alone (ends_of self.old n) }
    {
        for number in 0..self.ends.len() {
            self.forget_at(number);
        }
    }

    /// Nothing of a pack is written any more.
    pub(crate) fn clear(&mut self, pack: usize)
        ensures cleared { ends_of self.new pack ≡ no_ends }
        ensures others { (n : ℕ) → n ≢ pack → ends_of self.new n ≡ ends_of self.old n }
    {
        if pack < self.ends.len() {
            self.ends[pack] = Ends::NONE;
        }
    }

    fn keep_at(&mut self, pack: usize)
        ensures kept { ends_of self.new pack ≡ all_kept (ends_of self.old pack) }
        ensures others { (n : ℕ) → n ≢ pack → ends_of self.new n ≡ ends_of self.old n }
    {
        if pack < self.ends.len() {
            let ends = self.ends[pack];
            self.ends[pack].kept = ends.seen.min(ends.stood);
        }
    }

    fn stand_at(&mut self, pack: usize)
        ensures stood { ends_of self.new pack ≡ all_stood (ends_of self.old pack) }
        ensures others { (n : ℕ) → n ≢ pack → ends_of self.new n ≡ ends_of self.old n }
    {
        if pack < self.ends.len() {
            self.ends[pack].stood = self.ends[pack].written;
        }
    }

    fn forget_at(&mut self, pack: usize)
        ensures kept { ends_of self.new pack ≡ kept_alone (ends_of self.old pack) }
        ensures others { (n : ℕ) → n ≢ pack → ends_of self.new n ≡ ends_of self.old n }
    {
        if pack < self.ends.len() {
            self.ends[pack].seen = self.ends[pack].kept;
        }
    }

    /// Up to where a pack is kept.
    pub(crate) fn kept_to(&self, pack: usize) -> usize
        ensures { result ≡ kept_of self.now pack }
    {
        if pack < self.ends.len() {
            self.ends[pack].kept
        } else {
            0
        }
    }

    /// Makes room for the ends of a pack.
    pub(crate) fn reach(&mut self, pack: usize) -> Result<(), Trouble>
        ensures { (n : ℕ) → ends_of self.new n ≡ ends_of self.old n }
    {
        let Some(count) = pack.checked_add(1) else {
            return Err(Trouble::Full);
        };
        for reached in self.ends.len()..count {
            self.add()?;
        }
        Ok(())
    }

    fn add(&mut self) -> Result<(), Trouble>
        ensures { (n : ℕ) → ends_of self.new n ≡ ends_of self.old n }
    {
        match self.ends.push(Ends::NONE) {
            Ok(()) => Ok(()),
            Err(_) => Err(Trouble::Memory),
        }
    }
}
