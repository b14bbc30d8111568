//! The meaning of the tables' rows: the state of each tenant's private machine, and which tables
//! are sound.
//!
//! `specs/View` has the state that a tenant's rows represent, `specs/Sound` the invariants of each
//! row, and `proofs/` a lemma for each change of a table. By it the rows that a statement writes
//! represent the machine's next state, and the tables stay sound.
#![tactic(auto)]

pub mod laws;
