//! The register that is two.
mod calls;
mod copies;
mod course;
pub mod mirrored_register;
mod told;
mod waiting;
