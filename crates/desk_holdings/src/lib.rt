//! The walk over an account's holdings: what a statement of holdings is made of, row by row, from any register to any sink;
//! and the statement itself, written so from any register to any `Sink`.
//!
//! `holdings_rows` tells a sink each security of which an account holds some, in the order of the ISINs, with how much it
//! holds and how the security is counted; it keeps no rows, so it takes no memory of its own, however much is held. It only
//! reads: the register holds after it what it held before. `holds_registered` gives its condition to whoever keeps the tables
//! of accepted entries, and `one_statement` says that an account has one list of such rows. `write_statement` writes each row
//! as soon as it is read, of the day that `one_statement_day` says there is one of.
//!
//! Begin with specs/Holdings.antt (which rows are an account's holdings), then specs/Taking.antt (what a sink took) and
//! specs/Statement.antt (what a statement tells).
#![tactic(auto)]

mod laws;
mod statement;
mod walk;

pub use laws::{holds_registered, one_statement, one_statement_day};
pub use statement::write_statement;
pub use walk::holdings_rows;
