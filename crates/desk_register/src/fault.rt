//! Why a walk broke off.

use crate::register::Fault;
use desk_msg::SinkFault;

/// Why a walk broke off.
#[derive(Clone, Copy)]
pub enum WalkFault {
    /// The sink did not take a row.
    Sink(SinkFault),
    /// 60: want of memory in a call of the register.
    Memory,
    /// 61: the device failed in a call of the register, or the store answered what it cannot hold.
    Storage,
}

impl From<Fault> for WalkFault {
    ghost use Rattle.std.specs.Prelude.{◌≡◌};
    ghost use Rattle.desk_register.specs.Ends.{broken_off};

    ghost from_gives = { λ fault broken. broken ≡ broken_off fault };

    fn from(fault: Fault) -> WalkFault {
        match fault {
            Fault::Memory => WalkFault::Memory,
            Fault::Storage => WalkFault::Storage,
        }
    }
}

impl From<SinkFault> for WalkFault {
    ghost use Rattle.std.specs.Prelude.{◌≡◌};
    ghost use Rattle.desk_register.specs.declared.fault.WalkFault.TheVariants.{Sink};

    ghost from_gives = { λ fault broken. broken ≡ Sink fault };

    fn from(fault: SinkFault) -> WalkFault {
        WalkFault::Sink(fault)
    }
}
