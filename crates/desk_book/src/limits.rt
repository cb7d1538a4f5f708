//! The limits of scripts, and of commands that are read straight from their bytes, each said once. A message's text, and a command's, has `desk_text::LONGEST_TEXT` bytes at most.

/// The most bytes of a script.
pub const LONGEST_SCRIPT: usize = 16_777_216;

/// The most bytes of a line outside bodies.
pub const LONGEST_LINE: usize = 1024;

/// The most digits of the number of a sent message, as a line writes it.
pub const MOST_DIGITS: usize = 9;

/// So many digits write a number that fits in 64 bits, whatever they are.
pub const LONGEST_NUMBER: usize = 18;

/// The most members of an object that is read straight from its bytes: no operation has more.
pub const MOST_MEMBERS: usize = 5;

/// The most bytes of a name or a text that is read straight from its bytes: as many as an account has.
pub const LONGEST_MEMBER: usize = 35;

/// So many bytes of white space in a row are passed over at most where a command is read straight from its bytes.
pub const LONGEST_SPACE: usize = 64;
