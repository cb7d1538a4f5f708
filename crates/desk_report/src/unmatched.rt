//! The part `unmatched`: each unmatched instruction, with the least-numbered unmatched instruction that is near to it.
pub mod first_numbers;
pub mod near;
pub mod reading;
pub mod rows;
pub mod walk;
