//! Block 4 of ISO 15022 texts: bytes from strangers become fields or the first fault, and fields become bytes.
//!
//! `read_block` gives the fields of a text exactly where it is a block of at most `LONGEST_TEXT` bytes, and else the one
//! fault that the text has, with its line. `BlockWriter` writes the one canonical text of the parts it is given, and
//! `reads_back` says that this text is a block of just these fields.
//!
//! Begin with specs/BlockGrammar.antt (the tree of a block and its lines), then Fields, BlockFault and Written; the
//! laws above them are in `laws`. specs/Seen.antt says how contracts see what was read.
#![tactic(auto)]

mod faults;
mod fields;
mod laws;
mod limits;
mod lines;
mod reading;
mod scanning;
mod spelling;
mod writing;

pub use faults::TextFault;
pub use fields::{Block, Field};
pub use laws::{line_ends, one_fault, one_line, one_tree, parts_add_up, reads_back, right_lines};
pub use limits::{DEEPEST, LONGEST_NAME, LONGEST_TEXT};
pub use lines::{Line, read_line};
pub use reading::read_block;
pub use spelling::{is_name, is_tag, is_value};
pub use writing::BlockWriter;
