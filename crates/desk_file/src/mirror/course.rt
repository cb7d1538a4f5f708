//! How a register that is two fares.
ghost use Rattle.std.specs.Prelude.{◌≡◌};
ghost use Rattle.desk_file.specs.Course.{IsAfter, IsCopied, fallen_phase};

use desk_register::Fault;
use std::alloc::AllocError;

/// How far a group of changes has come.
#[derive(Clone, Copy)]
pub enum Phase {
    /// No `begin` is open.
    Idle,
    /// One is open, and every call since went well.
    Begun,
    /// One is open, and a call since has failed.
    Failed,
    /// The tables did not go back, so that nothing is known of them.
    Lost,
}

impl Phase {
    /// A call has failed.
    fn fall(&mut self)
        ensures { self.new ≡ fallen_phase self.old }
    {
        if matches!(*self, Phase::Begun) {
            *self = Phase::Failed;
        }
    }

    /// The copy of what both are to keep; want of memory is told as a fault.
    pub(crate) fn copied<T>(&mut self, given: Result<T, AllocError>) -> Result<T, Fault>
        ensures { IsCopied given result self.old self.new }
    {
        match given {
            Ok(copy) => Ok(copy),
            Err(_) => {
                self.fall();
                Err(Fault::Memory)
            }
        }
    }

    /// The end of a call of one of the two, as the register's own.
    pub(crate) fn after<T>(&mut self, given: Result<T, Fault>) -> Result<T, Fault>
        ensures same { result ≡ given }
        ensures after { IsAfter given self.old self.new }
    {
        if given.is_err() {
            self.fall();
        }
        given
    }
}
