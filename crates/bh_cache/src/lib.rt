//! A cache of blocks, beside their rows.
#![tactic(auto)]

pub mod blocks;
