//! That there is nothing under the register that could fail or lie.
ghost use Rattle.std.specs.Prelude.{refl};

use crate::list_register::ListRegister;
use desk_register::MemoryRegister;

impl MemoryRegister for ListRegister {
    ghost is_in_memory = { refl };

    ghost has_no_device = { λ _. record { honest = tt; sure = tt; device_honest = tt; device_sure = tt; failures = refl } };
}
