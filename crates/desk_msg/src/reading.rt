//! Reading a message from the fields of a block.
pub mod confirmed;
pub mod find;
pub mod function;
pub mod message;
pub mod profile;
pub mod refusal;
pub mod rows;
pub mod value;
