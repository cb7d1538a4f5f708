//! The rows of the desk's tables in SQL beside those of its entries: what is recorded of amounts, where instructions stand, and
//! what messages were sent.
//!
//! Each of the three is a module with what writes its tables and looks a row up, and with `compared`, which tells whether they say
//! exactly what a register in memory has; a register or a device that fails is told as that (specs/Audits.antt of `sql_tables`).
//!
//! - `amounts`: what accounts hold of securities, what participants have of currencies, and what is outstanding of a security or
//!   was paid in of a currency. `amount` looks an amount up, `take` takes some off where there is as much, and `put` puts some on;
//!   `next_holding` walks over what an account holds, and `held` and `held_cash` add up what all accounts hold and what all
//!   participants have. Begin with specs/Amounts.antt, what the tables say, and specs/Changes.antt, what a call makes of it; for
//!   `has_amounts` with specs/Said.antt.
//! - `standings`: where each instruction stands. Begin with specs/Standings.antt, which says what the rows are, and what is
//!   recorded in them; for `has_standings` with specs/StandingsTold.antt.
//! - `sent`: the messages, in the order in which they were sent. Begin with specs/Messages.antt; for `has_sent` with
//!   specs/SentTold.antt.
#![tactic(auto)]

mod amounts;
mod sent;
mod standings;

pub use amounts::calls::{amount, put, take};
pub use amounts::compared::has_amounts;
pub use amounts::holdings::next_holding;
pub use amounts::key::{AmountKey, Ledger};
pub use amounts::summing::{held, held_cash};
pub use sent::compared::has_sent;
pub use sent::messages::{add_sent, confirmation_of, sent_at, sent_count};
pub use standings::calls::{add_standing, ask, next_matched, set_standing, set_state, standing};
pub use standings::compared::has_standings;
