//! Registers in memory.
ghost use Rattle.std.specs.Prelude.{◌≡◌, true};
ghost use Rattle.desk_register.specs.Device.{HasNoDevice};

use crate::register::Register;

/// A register in memory: there is nothing under it that could fail or lie.
pub trait MemoryRegister: Register + Drop {
    ghost is_in_memory: { Self.in_memory ≡ true };

    ghost has_no_device: { (register : Self) → HasNoDevice (Self.view register) };
}
