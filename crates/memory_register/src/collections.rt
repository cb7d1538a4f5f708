//! Keys, and the numbers that stand at them.
pub mod numbers_at;
pub mod numbers_by_key;
pub mod tail_number;
