//! Changes of the lists.
pub mod appending;
pub mod changes;
pub mod entries;
pub mod recording;
pub mod requests;
pub mod settling;
pub mod shift;
pub mod standings;
pub mod tried;
pub mod trimming;
