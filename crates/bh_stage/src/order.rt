//! The connections whose requests are whole, in the order in which they became so.

ghost use Rattle.std.specs.Prelude.{◌≡◌, ◌++◌, ◌∷◌, [], map, IfSome, IfNone, IfOk, OnOk};

use http_server::Log;
use std::alloc::{AllocError, Global};
use std::collections::VecDeque;

/// A connection's number, which no other one has, and its key.
#[derive(Clone, Copy, PartialEq, Eq)]
pub struct Turn {
    pub number: u64,
    pub key: usize,
}

/// The connections whose requests are whole and weren't handed over.
#[derive(Drop)]
pub struct Order {
    queue: VecDeque<Turn>,
    /// The record of those that became whole.
    became: Log<u64, usize>,
    /// The record of those that were handed over.
    handed: Log<u64, usize>,
    ghost in_order: { became.items ≡ handed.items ++ map (λ t. (t.number, t.key)) queue.items },
}

impl Order {
    /// With room for so many.
    pub fn new(alloc: Global, places: usize) -> Result<Order, AllocError>
        ensures { IfOk result (λ o. o.became.items ≡ []) }
    {
        Ok(Order {
            queue: VecDeque::with_capacity(alloc, places)?,
            became: Log::new(),
            handed: Log::new(),
        })
    }

    pub fn is_empty(&self) -> bool {
        self.queue.is_empty()
    }

    /// The one that is handed over next, if there is one.
    pub fn first(&self) -> Option<Turn> {
        self.queue.front().copied()
    }

    /// A connection's request became whole.
    pub fn push(&mut self, turn: Turn) -> Result<(), AllocError>
        ensures handed { self.new.handed ≡ self.old.handed }
        ensures became { OnOk result (self.new.became.items ≡ self.old.became.items ++ (turn.number, turn.key) ∷ []) }
    {
        if self.queue.push_back(turn).is_err() {
            return Err(AllocError);
        }
        self.became = self.became.and(&turn.number, &turn.key);
        Ok(())
    }

    /// The one that is handed over now, which became whole before all others that wait.
    pub fn next(&mut self) -> Option<Turn>
        ensures became { self.new.became ≡ self.old.became }
        ensures some { IfSome result (λ t. self.new.handed.items ≡ self.old.handed.items ++ (t.number, t.key) ∷ []) }
        ensures none { IfNone result (self.new.handed ≡ self.old.handed) }
    {
        let turn = self.queue.pop_front()?;
        self.handed = self.handed.and(&turn.number, &turn.key);
        Some(turn)
    }
}
