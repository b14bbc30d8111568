//! Creates a host of buckets in an empty database.
#![tactic(auto)]

mod fill;
mod host;
mod tables;

pub use fill::make;
pub use host::{CreateError, create};
pub use tables::{
    create_first_tables, create_fourth_tables, create_second_tables, create_third_tables,
};
