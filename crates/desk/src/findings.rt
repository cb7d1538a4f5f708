//! What is found in a script by its answers: its lines, what the answers tell, which line has which, and why.
mod finding;
mod json;
mod reason;
mod told;

pub use finding::{Explained, findings_in, tell_report};
pub use json::report_json;
pub use told::told_in;
