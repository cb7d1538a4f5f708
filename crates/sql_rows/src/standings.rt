//! The table `state`, which says where each instruction stands. Each text stands in a private function.
//!
//! `has_standings` in `compared.rt` says whether the table is well formed and says exactly what the content of a register in
//! memory does. It reads the table whole, asks the register of each number, and compares row by row.
pub mod calls;
pub mod compared;
mod states;
