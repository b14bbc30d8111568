//! Pages of listings.
#![tactic(auto)]

pub mod gathering;
pub mod laws;
pub mod names;
pub mod places;
pub mod reading;
pub mod uploads;
pub mod versions;
