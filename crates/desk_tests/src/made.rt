//! A new desk over a register in memory, and what a register tells.
ghost use Rattle.std.specs.Prelude.{◌≡◌, ◌≤◌, IfOk, Ok};
ghost use Rattle.desk_rules.specs.declared.limits.TheConstants.{MOST_ENTRIES};

use desk_book::Desk;
use memory_register::ListRegister;
use std::alloc::Global;
use std::test::Fail;

/// A desk that has no entry, and may hold so many.
pub fn new_desk(alloc: Global, limit: u64) -> Desk<ListRegister>
    requires { limit ≤ MOST_ENTRIES }
{
    Desk::new(ListRegister::new(alloc, limit))
}

/// What a register or the engine told. A fault is a failure.
pub fn given<T: Drop, E: Drop>(told: Result<T, E>) -> Result<T, Fail>
    ensures { IfOk result (λ value. told ≡ Ok value) }
{
    Ok(told.ok().ok_or("a fault")?)
}
