//! Why a text is no operator's command.
pub mod fault;
pub mod member;
pub mod other;
pub mod reading;
pub mod value;
