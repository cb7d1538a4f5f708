//! What stands at this moment, told whole or in parts: the report that an operator asks for.
//!
//! Begin with `Part` and `Parts` in `part.rt`. `write_report`, in `report.rt`, writes the parts that are asked for straight to a
//! writer, row by row, for people in lines of aligned text or as one JSON object. No row is kept, and the register holds after it
//! what it held before. What the object is says specs/Report.antt, by what specs/Pending.antt, Unmatched.antt, Accounts.antt and
//! Cash.antt say of their parts: which rows there are, and in which order. `laws.rt` says that there is one such list.
//!
//! - `rows` has the rows of all parts: what each tells (`rows/pending.rt`, `unmatched.rt`, `balances.rt`), and how it is written;
//!   as JSON by specs/RowData.antt. An `Object` is made member by member (`rows/object.rt`).
//! - `pending`: the matched pairs that wait for their settlement, with what is lacking of each now.
//! - `unmatched`: the instructions without a mate, each with the nearest one to it, and what differs between the two. For that
//!   `first_numbers.rt` notes by what the nearest are found (`near.rt`).
//! - `accounts` and `cash`: what each account holds, and what each participant has. `sums` writes the totals, for people.
#![tactic(auto)]

mod accounts;
mod cash;
mod entries;
mod format;
mod holdings;
mod laws;
mod part;
mod pending;
mod report;
mod rows;
mod sums;
mod unmatched;

pub use accounts::write_accounts;
pub use cash::write_cash;
pub use format::Format;
pub use laws::{nearest_differs, one_accounts, one_pending};
pub use part::{Part, Parts};
pub use pending::walk::write_pending;
pub use report::write_report;
pub use rows::object::{Object, amount_value, ccy_value, optional_number, reason_code};
pub use unmatched::walk::write_unmatched;
