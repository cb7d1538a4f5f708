//! What the desk answers.
pub mod answering;
pub mod head;
pub mod outgoing;
pub mod questions;
pub mod statement;
pub mod summing;
pub mod telling;
pub mod total;
pub mod writing;
