//! What is read from and what is written to, where it is said whether a read or a write may fail.
//!
//! Of a reader or a writer of std nothing is said where it gives an error, so that code over any of them might tell a
//! failure for no reason. Code over any `Source` and any `Sink` can tell one only where theirs may fail.
//!
//! `read_whole` reads all that a source gives, and `read_more` once (`reading.rt`). What goes to a sink waits in an `Outbox`
//! (`outbox.rt`, specs/Waiting.antt) until there is as much as is written at once, and `backward.rt` makes short texts in room
//! that is there.
#![tactic(auto)]

mod backward;
mod fault;
mod outbox;
mod reading;
mod sink;
mod source;

pub use backward::{DIGITS, number_before, text_before};
pub use fault::InputFault;
pub use outbox::{Outbox, PIECE};
pub use reading::{CHUNK, LONGEST_READ, read_more, read_whole};
pub use sink::Sink;
pub use source::Source;
