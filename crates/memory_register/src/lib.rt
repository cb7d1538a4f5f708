//! The register in memory: the rows with look-ups beside them, so that no request walks the entries.
//!
//! `ListRegister`, in `list_register.rt`, keeps the `Rows` of `memory_rows` and meets the law of `desk_register`; contracts see
//! it by `view_of_lists`, the view of its rows. `calls.rt` has its calls. `known` has what is found by a key: `keys` the number
//! of the first entry with each key, and `registered` the participants, accounts, securities, currencies and runs. `opposites`
//! finds unmatched instructions by what opposite ones have in common (`match_key`). `messages` finds what was sent, by the
//! headings of the messages (`heading`): `addressed` what was sent to a participant, and `confirmations` what confirms an
//! instruction; `numbered` tells a message by its number among all. Which matched pairs are due, and which stay short,
//! `memory_short` knows. `ahead` keeps rows that a statement asks for next, and `sums` those that the totals do
//! (`next_securities`), until something changes. `noting` puts into the look-ups what a call adds, `tidying` takes out what a
//! call or `back` ends. `first_numbers`, `numbers_at` and `numbers_by_key` have the maps and sets beneath, and `tail_number`
//! what keys are compared by first. Begin with specs/Indexed.antt, then `calls.rt`.
#![tactic(auto)]

mod ahead;
mod calls;
mod collections;
mod entries;
mod in_memory;
mod list_register;
mod noting;
mod numbered;
mod pairs;
mod sent;
mod sums;
mod tidying;

pub use list_register::ListRegister;
