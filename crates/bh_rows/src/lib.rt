//! The effect of a SQL statement on one table's typed rows: definitions and lemmas for any table,
//! which the crates above use for each of their statements. It has no code of its own.
#![tactic(auto)]
