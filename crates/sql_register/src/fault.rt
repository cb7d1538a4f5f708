//! What a call on the tables gave, as it is told of the register, and what failed so far.
ghost use Rattle.std.specs.Prelude.{◌≡◌};
ghost use Rattle.desk_register.specs.View.{fallen};
ghost use Rattle.sql_register.specs.Told.{IsTold, fault_for};

use desk_register::{Fault, Stage};
use sqlite::{Error, ErrorCode};

/// The calls on the tables that failed, but for want of memory, as the library told them. They are for people to be told of: no
/// clause speaks of them.
#[derive(Clone, Copy)]
pub struct Failures {
    /// How many there were
    pub count: u64,
    /// What the last one met; of those behind an earlier one that closed the database, what that one met
    pub last: Option<Error>,
}

impl Failures {
    /// None.
    pub fn none() -> Failures {
        Failures {
            count: 0,
            last: None,
        }
    }

    /// One more, which met this, where it was not want of memory.
    pub(crate) fn add(&mut self, error: Error) {
        if let Fault::Memory = fault_of(error) {
            return;
        }
        self.count = self.count.saturating_add(1);
        self.last = match (error, self.last) {
            (Error::SqliteFailure(ErrorCode::Closed), Some(last)) => Some(last),
            _ => Some(error),
        };
    }
}

/// The stage after a call that failed.
fn fallen(stage: Stage) -> Stage
    ensures { result ≡ fallen stage }
{
    match stage {
        Stage::Idle => Stage::Idle,
        Stage::Begun | Stage::Failed => Stage::Failed,
    }
}

/// How a call failed, as it is told of the register: want of memory, or the device.
pub fn fault_of(error: Error) -> Fault
    ensures { result ≡ fault_for error }
{
    match error {
        Error::SqliteFailure(ErrorCode::OutOfMemory | ErrorCode::TooBig | ErrorCode::NoRowid) =>
            Fault::Memory,
        _ => Fault::Storage,
    }
}

/// What a call on the tables gave, as it is told of the register: where the call failed, so does what was begun.
pub fn told<T>(
    stage: &mut Stage,
    failures: &mut Failures,
    given: Result<T, Error>,
) -> Result<T, Fault>
    ensures { IsTold given result stage.old stage.new }
{
    match given {
        Ok(value) => Ok(value),
        Err(error) => {
            failures.add(error);
            *stage = fallen(*stage);
            Err(fault_of(error))
        }
    }
}
