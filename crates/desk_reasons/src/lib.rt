//! Why a text is refused as a message, in words: which of the mistakes that one answer stands for it was.
//!
//! `reason_of_message` tells the answer, the line and the reason exactly where `read_instruction_text` of desk_msg refuses
//! the text; the readers know nothing of it. `write_reason` writes a reason as a sentence.
//!
//! Begin with specs/Told.antt (what is told of a text), then a module a reader: Numbers, Amounts, Values and so on,
//! each a table of its reasons of which the first that holds is told; specs/Words.antt has the words.
#![tactic(auto)]

mod amounts;
mod blocks;
mod characters;
mod codes;
mod fields;
mod lines;
mod numbers;
mod quantities;
mod reasons;
mod rows;
mod told;
mod values;
mod words;
mod writing;

pub use reasons::{
    AccountReason, AmountReason, BlockReason, CurrencyReason, DayReason, FunctionReason,
    KindReason, LineReason, MissingReason, NestingReason, NumberReason, PartyReason,
    QuantityReason, Reason, ReferenceReason, SecurityReason, SettlementReason, ShapeReason,
    ValueReason,
};
pub use told::{Told, reason_of_message};
pub use writing::write_reason;
