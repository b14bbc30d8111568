//! Events of a host and orders of its operators, and the lines that encode them.
#![tactic(auto)]

pub mod event;
pub mod flaw;
pub mod given;
pub mod line;
pub mod name;
pub mod operator;
pub mod order;
