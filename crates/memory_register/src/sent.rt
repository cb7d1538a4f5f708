//! Look-ups of sent messages.
pub mod addressed;
pub mod confirmations;
pub mod heading;
pub mod messages;
