//! Look-ups of entries.
pub mod first_numbers;
pub mod keys;
pub mod known;
pub mod next_securities;
pub mod registered;
