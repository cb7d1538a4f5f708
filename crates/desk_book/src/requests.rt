//! What is asked of the desk, and how it is read.
pub mod command;
pub mod flat;
pub mod form;
pub mod lanes;
pub mod line;
pub mod member;
pub mod object;
pub mod operation;
pub mod question;
pub mod scanning;
pub mod script;
pub mod task;
