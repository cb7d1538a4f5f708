//! The part `pending`: each matched pair that waits for its settlement, in order of settlement day and number.
pub mod pair;
pub mod row;
pub mod walk;
