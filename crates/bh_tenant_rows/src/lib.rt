//! The rows of one tenant: reading all of them, and the tables after they are added to others.
#![tactic(auto)]

pub mod reads;
