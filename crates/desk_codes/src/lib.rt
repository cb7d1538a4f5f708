//! The codes of a securities message: ISIN, BIC, currency, decimal number, day, reference and account.
//!
//! Each type is Copy, takes no memory, and can only hold a well-formed code: to have one is to know
//! that it was checked. Contracts see a code as the list of its bytes (a currency as itself), and
//! equality and order are those of the bytes. Begin with `Isin` in `isin.rt`; what the words of the contracts mean stands in
//! specs/, a module a code.
#![tactic(auto)]

mod account;
mod bic;
mod characters;
mod currency;
mod day;
mod fault;
mod isin;
mod laws;
mod number;
mod reference;
mod short_text;
mod words;
mod written;

pub use account::AccountId;
pub use bic::Bic;
pub use characters::{are_code_chars, are_digits, split_at};
pub use currency::{CURRENCIES, Ccy};
pub use day::Day;
pub use fault::CodeFault;
pub use isin::{Isin, check_digit};
pub use laws::{every_currency, one_check_digit, one_value, shortest_spelling, written_spells};
pub use number::{NumberFault, read_number};
pub use reference::Reference;
pub use written::{NumberText, write_number};
