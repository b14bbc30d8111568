//! The host's HTTP/1.1: parses the bytes of requests or refuses them, finds whose they are, and
//! encodes responses.
#![tactic(auto)]

pub mod arriving;
pub mod body;
pub mod credentials;
pub mod encode;
pub mod fields;
pub mod fixed;
mod framing;
mod head;
pub mod laws;
pub mod read;
pub mod request;
pub mod response;
pub mod values;

pub use http::StatusCode;
