//! The journal of a desk: its accepted entries in the order of their numbers, each with how it fares by now and the messages that
//! were sent because of it, from any register to any sink.
//!
//! `write_journal` (`walk.rt`) walks over the entries to learn what each of them caused to be sent (`sending.rt`, `keys.rt`), and
//! then writes a row as soon as it is read (`outcomes.rt`, `runs.rt`), and keeps none. It only reads: the register holds after it
//! what it held before.
//!
//! - `rows` has the rows: a `JournalRow` with its `Outcome` (`rows/journal.rt`), and how it is written (`write_journal_row`), for
//!   people in lines of aligned text, for programs as compact JSON by specs/JournalData.antt.
//! - `texts` reads numbers back out of texts that the desk itself wrote: of a confirmation its number among all sent messages
//!   (`message_number`), of the reply to a run how many pairs it settled and how many it left (`run_counts`).
//!
//! Begin with specs/Journal.antt (which rows are told), specs/Outcomes.antt (how an entry fares), specs/Runs.antt (what a run did)
//! and specs/Messages.antt (what was sent because of an entry); specs/Sending.antt has the words of private contracts.
#![tactic(auto)]

mod keys;
mod outcomes;
mod rows;
mod runs;
mod sending;
mod texts;
mod walk;

pub use texts::confirmation::message_number;
pub use texts::run::run_counts;
pub use walk::write_journal;
