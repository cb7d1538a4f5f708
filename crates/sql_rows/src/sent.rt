//! The table `sent`, of the messages that were sent.
//!
//! What was sent is a list, in the order in which it was sent: the table has a row for each message, with its number in
//! that order. No index lists the messages to one participant: the one of a place among them is found by walking from each to
//! the next, and a confirmation by walking the table. A call fails as its statements do (`statement.rt` of `sql_tables`), and
//! with DatabaseCorrupt where a row says nothing that the table would say.
//!
//! `has_sent` in `compared.rt` says whether the table is exactly the list of what a register in memory has sent. Each number has
//! one look-up, of the whole row (`compared/rows.rt`), so that no more than one row is in memory at a time; the register, one of
//! `Messages` of `desk_register`, gives the message by its number.
pub mod compared;
mod counting;
pub mod messages;
mod reading;
