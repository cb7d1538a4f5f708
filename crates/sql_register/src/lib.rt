//! The register in SQL: `SqlRegister`, over the desk's tables in any `Session`, as a connection of the library `sqlite` is one,
//! meets the law of `desk_register`.
//!
//! `sql_register.rt` has the struct, `making.rt` makes one in a database that has no table, or over tables that are a desk's,
//! and `calls.rt` has the calls of the law: each is one function over a session, whose end `fault.rt` tells of the register.
//! `looking` finds what stands in one row, `walking` what is found among many, `appending`, `pairing`, `settling` and `cancelling`
//! change, `posting` says what an entry moves, `undoing` takes a transaction back, and `numbers` says which numbers the tables can
//! hold. Nothing is known of the tables beside them. Begin with specs/Content.antt, what the tables say, and specs/Holds.antt, what they keep true.
#![tactic(auto)]

mod appending;
mod calls;
mod cancelling;
mod fault;
mod looking;
mod making;
mod numbers;
mod pairing;
mod posting;
mod settling;
mod sql_register;
mod undoing;
mod walking;

pub use fault::Failures;
pub use making::has_no_table;
pub use sql_register::SqlRegister;
pub use sql_tables::session::Session;
