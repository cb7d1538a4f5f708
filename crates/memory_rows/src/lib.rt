//! What a register in memory keeps: the rows of its entries, standings, balances and messages, and how they are taken back.
//!
//! `Rows`, in `rows.rt`, is seen by contracts through `view_of_rows` of specs/RowsView.antt, in the words of the law of
//! `desk_register`. `calls.rt` is what changes it, `reading.rt` what is asked of it. `lists.rt` has the lists, with the changes
//! that `back` undoes, and `balance_key.rt` what a balance is of; `changes.rt` makes each, undoes it, and keeps it for good,
//! balances by `recording`. All that changes goes through it: `appending`, `requests`, `standings`, `balances`, `settling` and
//! `messages`; `trimming` takes off the memory that a kept text does not need. The rest only reads: `by_number` the entries,
//! `entries` what one entry says, `next_holding` and `totals` the balances in order. Begin with `calls.rt`.
#![tactic(auto)]

mod balance_key;
mod balances;
mod calls;
mod changing;
mod lists;
mod looking;
mod reading;
mod rows;

pub use changing::tried::Tried;
pub use rows::Rows;
