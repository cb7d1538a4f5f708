//! Messages and texts as they are written.
pub mod confirmation;
pub mod digits;
pub mod holdings;
pub mod lines;
pub mod pieces;
pub mod statement_row;
pub mod status;
