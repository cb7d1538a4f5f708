//! The history of the desk: its entries, and the pairs of its instructions.
pub mod entry;
pub mod formed;
pub mod instructed;
pub mod keyed;
pub mod opposite;
pub mod pair;
pub mod same;
pub mod standing;
