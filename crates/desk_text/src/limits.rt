//! The limits of a text, each said once.

/// The most bytes of a text that is read.
pub const LONGEST_TEXT: usize = 65_536;

/// The most sequences that are open at once.
pub const DEEPEST: usize = 16;

/// The most characters of a sequence's name.
pub const LONGEST_NAME: usize = 16;
