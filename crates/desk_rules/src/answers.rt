//! What the desk decides, answers and sends.
pub mod messages;
pub mod replies;
pub mod reply;
pub mod verdict;
