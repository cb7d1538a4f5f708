//! The rows, and how each is written: as compact JSON, and in lines of aligned text.
pub mod journal;
mod json;
mod text;
pub mod writing;
