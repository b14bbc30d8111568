//! Sums over rows, by name.

ghost use Rattle.std.specs.Prelude.{◌≡◌, ℕ, ◌+◌, if◌then◌else◌, IsTrue, IfOk, OnOk};
ghost use Rattle.bh_tables.specs.Bodies.{Name, same_name};
ghost use Rattle.bh_check.specs.Sums.{kept_at, Keeps, IsSumOf, total, name_in, amount_in};

use bh_stored::cells::{bytes_in, number_in};
use bh_stored::failure::Failure;
use sqlite_value::row::Row;
use std::alloc::{AllocError, Global};
use std::collections::BTreeMap;

/// The amount that a row adds.
#[derive(Clone, Copy)]
pub enum Amount {
    /// 1, to count rows.
    One,
    /// The number in this column.
    Number(usize),
    /// The number of bytes in this column.
    Length(usize),
    /// 1 if the number in this column is this one, otherwise 0.
    Is(usize, u64),
}

/// How rows are grouped and added up.
#[derive(Clone, Copy)]
pub struct Grouping {
    /// The column of the name's text or bytes.
    pub text: usize,
    /// The column of the name's number; a name without one has 0.
    pub number: Option<usize>,
    pub amount: Amount,
}

/// A sum for each name, which is bytes and a number; 0 if nothing was added.
#[derive(Drop)]
pub struct Sums {
    totals: BTreeMap<(Vec<u8>, u64), u64>,
}

impl Sums {
    #[tactic(auto, unfolding(crate::specs::Sums::kept_at))]
    pub fn new(alloc: Global) -> Sums
        ensures { Keeps (λ _. 0) result }
    {
        Sums {
            totals: BTreeMap::new(alloc),
        }
    }

    #[tactic(auto, unfolding(crate::specs::Sums::kept_at))]
    /// The sum at a key.
    fn kept(&self, key: &(Vec<u8>, u64)) -> u64
        ensures { result ≡ kept_at self.now key.now }
    {
        match self.totals.get(key) {
            Some(total) => *total,
            None => 0,
        }
    }

    /// The sum of a name.
    pub fn at(&self, alloc: Global, text: &[u8], number: u64) -> Result<u64, AllocError>
        ensures { IfOk result (λ n. (of : Name → ℕ) → Keeps of self.now → n ≡ of (text.now, number)) }
    {
        let key = (Vec::from_slice(alloc, text)?, number);
        Ok(self.kept(&key))
    }

    /// Adds to the sum of a name, unless it would exceed 2^64 - 1.
    pub fn add(
        &mut self,
        alloc: Global,
        text: &[u8],
        number: u64,
        amount: u64,
    ) -> Result<bool, AllocError>
        ensures { IfOk result (λ fits. IsTrue fits → (of : Name → ℕ) → Keeps of self.old
            → Keeps (λ q. of q + (if same_name (text.now, number) q then amount else 0)) self.new) }
    {
        let key = (Vec::from_slice(alloc, text)?, number);
        let Some(total) = self.kept(&key).checked_add(amount) else {
            return Ok(false);
        };
        self.totals.insert(key, total)?;
        Ok(true)
    }

    /// Adds to the sum of each row's name, unless one would exceed 2^64 - 1.
    pub fn add_rows(&mut self, alloc: Global, rows: &[Row], by: Grouping) -> Result<(), Failure>
        ensures { OnOk result ((of : Name → ℕ) → Keeps of self.old
            → Keeps (λ q. of q + total (name_in by) (amount_in by) rows.now q) self.new) }
    {
        for row in rows {
            let text = bytes_in(row, by.text);
            if !self.add(alloc, text, by.number_of(row), by.amount_of(row))? {
                return Err(Failure::TooMuch);
            }
        }
        Ok(())
    }
}

/// 1 if the condition holds, otherwise 0.
pub(crate) fn one_if(is: bool) -> u64
    ensures { result ≡ (if is then 1 else 0) }
{
    if is { 1 } else { 0 }
}

impl Grouping {
    /// The number of a row's name.
    fn number_of(self, row: &Row) -> u64
        ensures { result ≡ (name_in self row.now).1 }
    {
        match self.number {
            Some(at) => number_in(row, at),
            None => 0,
        }
    }

    /// The amount that a row adds.
    fn amount_of(self, row: &Row) -> u64
        ensures { result ≡ amount_in self row.now }
    {
        match self.amount {
            Amount::One => 1,
            Amount::Number(at) => number_in(row, at),
            Amount::Length(at) => bytes_in(row, at).len() as u64,
            Amount::Is(at, number) => one_if(number_in(row, at) == number),
        }
    }
}

/// The sum of each name.
pub fn sums_of(alloc: Global, rows: &[Row], by: Grouping) -> Result<Sums, Failure>
    ensures { IfOk result (IsSumOf (name_in by) (amount_in by) rows.now) }
{
    let mut sums = Sums::new(alloc);
    sums.add_rows(alloc, rows, by)?;
    Ok(sums)
}

/// The place of the first row of each name, counted from 1, without any promise.
pub fn first_places(alloc: Global, rows: &[Row], by: Grouping) -> Result<Sums, Failure> {
    let mut places = Sums::new(alloc);
    for at in 0..rows.len() {
        let text = bytes_in(&rows[at], by.text);
        let number = by.number_of(&rows[at]);
        let known = places.at(alloc, text, number)?;
        if known == 0 && !places.add(alloc, text, number, at as u64 + 1)? {
            return Err(Failure::TooMuch);
        }
    }
    Ok(places)
}
