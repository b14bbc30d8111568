//! Which connection gives its place to the next one, where there are as many as may be.

ghost use Rattle.std.specs.Prelude.{◌≡◌, ◌≢◌, ◌≤◌, ◌++◌, ◌∷◌, [], length, take, drop, true, IfSome, IfOk, OnOk, OnErr};
ghost use Rattle.slab.specs.Slab.{get};
ghost use Rattle.bh_stage.specs.Places as spec;
ghost use Rattle.bh_stage.specs.Places.{IsAwaited, HaveBegun, coming, oldest, first_key};

use crate::connection::{Awaited, Connection};
use crate::order::Turn;
use bh_link::ends::Source;
use slab::Slab;
use std::alloc::{AllocError, Global};
use std::collections::VecDeque;

/// Connections whose requests come, in the order in which they came. Some may be gone, or their requests
/// whole. To find the oldest one costs the same however many there are: each is put into the line, passed
/// and taken out of it once. Where those that are gone leave, no more are passed again than came since.
#[derive(Drop)]
pub(crate) struct Places {
    came: VecDeque<Turn>,
    /// How many of the first were passed: they had a head, or were gone.
    begun: usize,
    /// Before more wait, those that are gone leave.
    most: usize,
    ghost within: { begun ≤ length came.items },
}

impl Places {
    /// For so many connections, and as many that are gone.
    pub(crate) fn new(alloc: Global, connections: usize) -> Result<Places, AllocError>
        ensures { IfOk result (λ places. places.came.items ≡ []) }
    {
        let most = connections.saturating_mul(2);
        Ok(Places {
            came: VecDeque::with_capacity(alloc, most)?,
            begun: 0,
            most,
        })
    }

    /// A connection came.
    pub(crate) fn push<R: Source, W>(
        &mut self,
        turn: Turn,
        connections: &Slab<Connection<R, W>>,
    ) -> Result<(), AllocError>
        ensures came { OnOk result (coming connections.now self.new.came.items
            ≡ coming connections.now (self.old.came.items ++ turn ∷ [])) }
        ensures stay { OnErr result (coming connections.now self.new.came.items ≡ coming connections.now self.old.came.items) }
        ensures begun { HaveBegun connections.now (take self.old.begun self.old.came.items)
            → HaveBegun connections.now (take self.new.begun self.new.came.items) }
    {
        self.make_room(connections);
        if self.came.push_back(turn).is_err() {
            return Err(AllocError);
        }
        Ok(())
    }

    /// The one that gives its place to the next: the oldest one without a head, or else the oldest one
    /// whose request comes.
    pub(crate) fn first<R: Source, W>(
        &mut self,
        connections: &Slab<Connection<R, W>>,
    ) -> Option<usize>
        ensures awaited { IfSome result (λ key. IsAwaited (get connections.now key)) }
        ensures oldest { result ≡ oldest connections.now (drop self.old.begun self.old.came.items) self.old.came.items }
        ensures stay { coming connections.now self.new.came.items ≡ coming connections.now self.old.came.items }
        ensures begun { HaveBegun connections.now (take self.old.begun self.old.came.items)
            → HaveBegun connections.now (take self.new.begun self.new.came.items) }
    {
        match self.first_new(connections) {
            Some(key) => Some(key),
            None => self.first_coming(connections),
        }
    }

    /// The oldest one without a head. Those before it are passed.
    fn first_new<R: Source, W>(&mut self, connections: &Slab<Connection<R, W>>) -> Option<usize>
        ensures awaited { IfSome result (λ key. IsAwaited (get connections.now key)) }
        ensures first { result ≡ first_key connections.now (spec.lacks_head connections.now)
            (drop self.old.begun self.old.came.items) }
        ensures came { self.new.came ≡ self.old.came }
        ensures begun { HaveBegun connections.now (take self.old.begun self.old.came.items)
            → HaveBegun connections.now (take self.new.begun self.new.came.items) }
    {
        'passing: while self.begun < self.came.len() {
            let turn = self.came[self.begun];
            if lacks_head(turn, connections) {
                return Some(turn.key);
            }
            self.begun += 1;
        }
        None
    }

    /// The oldest one whose request comes. Those before it leave.
    fn first_coming<R: Source, W>(&mut self, connections: &Slab<Connection<R, W>>) -> Option<usize>
        ensures awaited { IfSome result (λ key. IsAwaited (get connections.now key)) }
        ensures first { result ≡ first_key connections.now (spec.is_coming connections.now) self.old.came.items }
        ensures stay { coming connections.now self.new.came.items ≡ coming connections.now self.old.came.items }
        ensures begun { HaveBegun connections.now (take self.old.begun self.old.came.items)
            → HaveBegun connections.now (take self.new.begun self.new.came.items) }
    {
        'leaving: while !self.came.is_empty() {
            let turn = self.came[0];
            if is_coming(turn, connections) {
                return Some(turn.key);
            }
            self.begun = self.begun.saturating_sub(1);
            let _ = self.came.pop_front();
        }
        None
    }

    /// If there are as many as may be, those leave that are gone, or whose requests are whole. The others
    /// are passed again.
    fn make_room<R: Source, W>(&mut self, connections: &Slab<Connection<R, W>>)
        ensures stay { coming connections.now self.new.came.items ≡ coming connections.now self.old.came.items }
        ensures begun { HaveBegun connections.now (take self.old.begun self.old.came.items)
            → HaveBegun connections.now (take self.new.begun self.new.came.items) }
    {
        if self.came.len() < self.most {
            return;
        }
        self.begun = 0;
        self.came.retain(|turn| is_coming(*turn, connections));
    }
}

/// Whether the connection of a turn is there, and has no head.
fn lacks_head<R: Source, W>(turn: Turn, connections: &Slab<Connection<R, W>>) -> bool
    ensures is { result ≡ spec.lacks_head connections.now turn }
    ensures awaited { result ≡ true → IsAwaited (get connections.now turn.key) }
{
    match awaited_of(turn, connections) {
        Awaited::Head => true,
        Awaited::Rest | Awaited::Nothing => false,
    }
}

/// Whether it is there, and its request comes.
fn is_coming<R: Source, W>(turn: Turn, connections: &Slab<Connection<R, W>>) -> bool
    ensures is { result ≡ spec.is_coming connections.now turn }
    ensures awaited { result ≡ true → IsAwaited (get connections.now turn.key) }
{
    match awaited_of(turn, connections) {
        Awaited::Head | Awaited::Rest => true,
        Awaited::Nothing => false,
    }
}

/// What is awaited of the connection of a turn.
fn awaited_of<R: Source, W>(turn: Turn, connections: &Slab<Connection<R, W>>) -> Awaited
    ensures is { result ≡ spec.awaited_of (get connections.now turn.key) turn.number }
    ensures awaited { result ≢ Awaited.Nothing → IsAwaited (get connections.now turn.key) }
{
    match connections.get(turn.key) {
        Some(connection) if connection.number == turn.number => connection.awaited(),
        Some(_) | None => Awaited::Nothing,
    }
}
