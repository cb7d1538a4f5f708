//! The words of the program: what those of its command line ask for, its helps, and what the numbers mean that it tells in
//! place of an answer.
//!
//! `call_of` reads the words, which `parser` parses; `helps` has the texts of help. `CAUSES` has each refusal and each fault that has
//! a number, with its words; `topic_of` finds what an answer's words name, and `write_topic` writes what is told of it.
#![tactic(auto)]

mod calls;
mod causes;
mod helps;
mod laws;
mod parser;
mod topics;
mod writing;

pub use calls::{Call, call_of};
pub use causes::{CAUSES, Cause, cause_of};
pub use helps::NO_TEXT;
pub use laws::told_in_words;
pub use topics::{
    COMMANDS, Detail, FIELDS, NO_ANSWER, OTHERS, Other, Quoted, Topic, details_of, topic_of,
};
pub use writing::write_topic;
