//! Packs of which little is named, emptied step by step: the blocks in them get other places.
#![tactic(auto)]

pub mod compaction;
mod moving;
mod rows;
