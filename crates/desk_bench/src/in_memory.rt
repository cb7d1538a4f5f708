//! A new desk over the register in memory.

use desk_book::Desk;
use desk_rules::MOST_ENTRIES;
use memory_register::ListRegister;
use std::alloc::Global;

/// A desk that has no entry.
pub fn new_desk(alloc: Global) -> Desk<ListRegister> {
    Desk::new(ListRegister::new(alloc, MOST_ENTRIES))
}
