//! Whether the tables are those of an accepted history.
pub mod auditing;
pub mod progress;
mod register;
pub mod rest;
mod taking;
