//! The rows of the parts, and how each is written: as compact JSON, and in lines of aligned text.
pub mod balances;
pub mod object;
pub mod pending;
pub mod text;
pub mod unmatched;
pub mod values;
pub mod writing;
