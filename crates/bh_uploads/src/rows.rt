//! The SQL statements on uploads and parts, one function each, and the values of their rows.

pub mod kept;
pub mod parts;
pub mod uploads;
