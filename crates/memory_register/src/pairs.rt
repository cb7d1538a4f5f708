//! Look-ups of unmatched instructions.
pub mod match_key;
pub mod opposites;
