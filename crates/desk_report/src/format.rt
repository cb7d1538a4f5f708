//! How a report is written.

/// How a report is written.
#[derive(Clone, Copy)]
pub enum Format {
    /// For people: lines of aligned text
    Text,
    /// For programs: compact JSON
    Json,
}
