//! Why a line of a script asks nothing.
pub mod fault;
pub mod form;
pub mod reading;
