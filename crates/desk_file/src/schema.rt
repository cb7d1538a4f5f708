//! Whether the schema of a database is the desk's.
mod checks;
mod columns;
pub mod ours;
mod tables;
