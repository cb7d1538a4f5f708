//! The desk's tables in SQL: which they are and of which version, how a call on them ends, what begins and ends a
//! transaction, what a row that is shown holds, and whether it says what memory says.
//!
//! `statement.rt` runs a text that changes rows of a table, or reads some, and `rows.rt` reads what is shown; every call on
//! the tables is made of these and of `control.rt`, over any `Session` (`session.rt`), as the library's connection is one.
//! Begin with `tables.rt`, the tables, and specs/Ends.antt, how a call ends. Proofs on the statements of one table, whichever it
//! is, cite proofs/QueryLemmas.antt, what queries show, EditLemmas.antt, what edits do, and ValueLemmas.antt, how values compare.
//!
//! The crate of a table compares it with a register in memory too (`compared.rt` there), by what stands here. `AuditFault`
//! in `fault.rt` tells why a comparison gave no answer, and specs/Audits.antt how one ends, for the tables and for the
//! register. `same_row` in `compared.rt` compares a row that is shown with values as they are bound, and `has_version` the
//! table `version` with a version of the file (`versions.rt`). specs/Order.antt and Forms.antt say what the rows of a file are that was opened. A
//! table of numbered rows is computed, number by number (specs/Numbered.antt), and proofs/RowLemmas.antt says when what a
//! query shows makes it the table, ByNumberLemmas.antt when look-ups of each number do (specs/ByNumber.antt).
#![tactic(auto)]

pub mod compared;
pub mod control;
pub mod fault;
pub mod making;
pub mod rows;
pub mod session;
pub mod statement;
pub mod tables;
pub mod values;
pub mod version;
pub mod versions;
