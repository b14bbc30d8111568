//! The line that tells a server an operator's order.
#![tactic(auto)]

mod objects;
mod texts;

pub use texts::order_text;
