//! The three tables of amounts: `balance`, `cash` and `total`.
//!
//! `has_amounts` in `compared.rt` compares them with what a register in memory has, both ways. Each row has an amount of 0, or the
//! one that the register has under the row's key (`compared/table.rt`, `row.rt`). And what the register has is recorded
//! (`compared/recorded.rt`): what each account of its entries holds, the cash of each participant, what is outstanding of each
//! security that is issued or redeemed, and what is paid in of each currency. So a balance of 0 may have a row or none.
pub mod calls;
pub mod compared;
pub mod holdings;
pub mod key;
mod reading;
mod statements;
pub mod summing;
