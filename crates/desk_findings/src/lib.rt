//! Why a text is no operator's command, and why a line of a script asks nothing.
//!
//! `why_no_command` tells the first of specs/CommandFaults.antt that fits, which is true of the text, exactly where
//! `desk_book::read_command` reads none; `why_no_request` tells the first of specs/LineFaults.antt, exactly where
//! `desk_book::first_item` finds a bad line. What the faults are called is for people, and no clause says it.
#![tactic(auto)]

mod commands;
mod lines;

pub use commands::fault::{CommandFault, MemberFault, TextFault, write_command_fault};
pub use commands::member::{Member, NumberMember, Operation, TextMember};
pub use commands::other::other_member;
pub use commands::reading::{command_reference, why_no_command};
pub use lines::fault::{LineFault, write_line_fault};
pub use lines::form::{Form, Named};
pub use lines::reading::why_no_request;
