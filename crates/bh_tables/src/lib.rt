//! The tables of a host of buckets: the schema as a value, a typed record for the rows of each
//! table, and the meaning of each SQL statement on them. It has only definitions and lemmas, for
//! the crates above.
#![tactic(auto)]
