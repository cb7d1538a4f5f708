//! The accepted entries with their replies, in the table `register` of the desk's tables in SQL.
//!
//! `add_entry` puts one entry more behind the others; `entry_count`, `entry_at` and `reply_at` say how many there are, and
//! what the one of a number is and was answered; `finding.rt` looks entries up by something else than a number, by the
//! statements of `texts.rt`. Begin with specs/Columns.antt, what each column says of an entry, and specs/Entries.antt, when
//! the table holds a list of entries.
//!
//! `compared.rt` reads the table again, number by number, beside what entries with their replies would write: `found_at`
//! tells whether the row of a number is that of a well-formed entry with its reply, which it hands out; a row is looked up
//! once, and compared whole. So they stand in each version of the file (specs/Told.antt, `told.rt`). `has_no_other` tells whether there is a row of another number (specs/Found.antt).
#![tactic(auto)]

mod adding;
mod columns;
mod compared;
mod entry;
mod finding;
mod instruction;
mod keyed;
mod kind;
mod looking;
mod opposite;
mod places;
mod texts;
mod told;
mod values;

pub use adding::add_entry;
pub use compared::{Found, found_at, has_no_other};
pub use finding::{
    is_participant, kind_of, last_run, next_opposite, number_of, owner_of, security_after,
};
pub use kind::{
    ACCOUNT, CANCELLATION, INSTRUCTION, ISSUE, PARTICIPANT, PAY_IN, PAY_OUT, REDEMPTION, RUN,
    SECURITY,
};
pub use looking::{entry_at, entry_count, reply_at};
