//! The limits of a connection, each said once. A body has `desk_text::LONGEST_TEXT` bytes at most, as a message's text has.

use desk_text::LONGEST_TEXT;

/// A head has to be whole within so many bytes.
pub const LONGEST_HEAD: usize = 8192;

/// The most fields of a head.
pub const MOST_FIELDS: usize = 64;

/// The most digits of a body's length.
pub const MOST_LENGTH_DIGITS: usize = 10;

/// The most bytes of a request, head and body.
pub const LONGEST_REQUEST: usize = LONGEST_HEAD + LONGEST_TEXT;
