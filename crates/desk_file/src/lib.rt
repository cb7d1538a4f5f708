//! A desk's file: opened, read into a register in memory, and kept beside it.
//!
//! There is one way in. `adopt` takes a connection over, and `open_file` opens a file: a database that has no table gets the
//! desk's; one that is that of an accepted history is opened, and its content told by contract; any other is refused, by an
//! `OpenFault` with its number, and none of these is (specs/Desks.antt). What is opened is a `MirroredRegister`; `adopt_tables`
//! and `open_tables` keep its tables alone. What is not opened is handed back (specs/Left.antt). Begin with
//! specs/Opened.antt, then `opening.rt`.
//!
//! Whether a schema is the desk's, and nothing else, is decided in `schema`: `is_desk` compares it with the outlines of tables
//! and indexes in `sql_tables`, and `has_desk_tables` says what the rows of such a database are (specs/Forms.antt there).
//! `open_in_order` opens a file, whose rows then stand in order (specs/Order.antt there).
//!
//! Whether the tables are those of an accepted history is decided in `audit`, beside a register in memory that is filled from
//! them. `read_register` takes each entry into the register, in the order of their numbers; the register decides on it and gives
//! the reply that is compared with the kept one: what it held of them all is an accepted history, and the table is that list,
//! with no row beside. Each row is looked up once, and compared whole with the one that its entry and reply would write; a
//! `Progress` is told how far it is. The crates of the other tables compare them with the register (`rest.rt`).
//! `is_desk_by_parts` says that a database is one of the desk's, in all that is promised of such (`Becomes` of `sql_register`),
//! where each table, by itself, says what the register does. Begin with specs/Audited.antt, then `auditing.rt`.
//!
//! `mirror` has the register that is two: one in memory, which answers what is asked, and the tables, which hold what is
//! changed. `MirroredRegister` meets the law of `desk_register` whatever the device under the tables does: what it shows is what
//! memory holds. `calls.rt` has its calls; `course.rt` says how far a group of changes has come, `waiting.rt` which tries of a
//! pair leave the tables alone, and `told.rt` what the tables are told of the others. Begin with specs/Mirrored.antt, then
//! `mirrored_register.rt`.
#![tactic(auto)]

mod audit;
mod fault;
mod files;
mod laws;
mod mirror;
mod opening;
mod reopening;
mod schema;
mod tables;
mod taking;
mod version;

pub use audit::auditing::{Audited, audit as audit_tables, audit_version};
pub use audit::progress::{Progress, Silent};
pub use audit::rest::Table;
pub use fault::{
    Difference, OpenFault, fault_of, fault_of_audit, fault_of_files, fault_of_opening,
};
pub use files::{is_caught, open_in_order};
pub use laws::{found_again, is_desk_by_parts, is_live, opens_again};
pub use mirror::mirrored_register::MirroredRegister;
pub use opening::{adopt, open_file};
pub use reopening::{give_up, reopen};
pub use schema::ours::{has_desk_tables, is_desk};
pub use tables::{adopt_tables, open_tables};
pub use taking::tell_version;
pub use version::version_said;
