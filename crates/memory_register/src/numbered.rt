//! What was sent, by its number among all.

use crate::list_register::ListRegister;
use desk_register::{Fault, Messages};
use desk_rules::Sent;
use std::alloc::Global;

impl Messages for ListRegister {
    fn message(&mut self, alloc: Global, number: u64) -> Result<Option<Sent>, Fault> {
        self.held.message(alloc, number)
    }
}
