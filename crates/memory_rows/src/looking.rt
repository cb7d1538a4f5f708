//! Look-ups in the lists.
pub mod by_number;
pub mod due_pairs;
pub mod messages;
pub mod next_holding;
pub mod opposites;
pub mod totals;
