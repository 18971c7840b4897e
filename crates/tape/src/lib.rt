// Document 01's tape: a record is read at a cursor, and the pool of `trail` is filled.
#![tactic(auto)]

pub mod fields;
pub mod pool;
pub mod reader;
