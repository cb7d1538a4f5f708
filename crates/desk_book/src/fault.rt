//! Why a request has no answer, and why a script was not played.
ghost use Rattle.std.specs.Prelude.{◌≡◌};
ghost use Rattle.desk_book.specs.WrittenAnswers.{status_of_fault, text_of_fault};

use desk_msg::SinkFault;
use desk_register::{Fault as RegisterFault, WalkFault};
use desk_streams::InputFault;
use thiserror::Error;

/// Why a request has no answer. Its number is 60, 61 or 62.
#[derive(Clone, Copy, Debug, PartialEq, Eq, Error)]
pub enum Fault {
    /// A growth of memory was refused. Nothing has changed.
    #[error("fault 60")]
    Memory,
    /// The device under the tables failed. Nothing has changed.
    #[error("fault 61")]
    Storage,
    /// It cannot be shown that the tables are as before, so this desk answers nothing any more.
    #[error("fault 62")]
    Closed,
}

impl From<RegisterFault> for Fault {
    ghost use Rattle.desk_book.specs.Answering.{fault_of_register};

    ghost from_gives = { λ of_register fault. fault ≡ fault_of_register of_register };

    fn from(fault: RegisterFault) -> Fault {
        match fault {
            RegisterFault::Memory => Fault::Memory,
            RegisterFault::Storage => Fault::Storage,
        }
    }
}

impl Fault {
    /// The status that it is answered with, as HTTP counts: 503 for want of memory, else 500.
    pub fn status(self) -> u16
        ensures { result ≡ status_of_fault self }
    {
        match self {
            Fault::Memory => 503,
            Fault::Storage | Fault::Closed => 500,
        }
    }

    /// The text that it is answered with.
    pub fn text(self) -> &'static str
        ensures { result.now ≡ text_of_fault self }
    {
        match self {
            Fault::Memory => "fault 60",
            Fault::Storage => "fault 61",
            Fault::Closed => "fault 62",
        }
    }
}

/// Why an answer was not written to its end. The desk is closed after `Closed` and `Lost`, and after no other; no table of one that
/// is open has changed.
#[derive(Clone, Copy, Debug, PartialEq, Eq, Error)]
pub enum ToFault {
    /// The writer failed, or took no byte. Nothing is said of what was written.
    #[error("writing failed")]
    WriteFailed,
    /// 60: a growth of memory was refused. What was written, if anything, is a front of the answer.
    #[error("fault 60")]
    Memory,
    /// 61: the device under the tables failed. What was written, if anything, is a front of the answer.
    #[error("fault 61")]
    Storage,
    /// 62: the desk was closed when it was asked. Nothing was written.
    #[error("fault 62")]
    Closed,
    /// 62: a growth of memory was refused or the device failed, and it cannot be shown that the tables are as before: the desk is
    /// closed from then on. What was written, if anything, is a front of the answer.
    #[error("fault 62")]
    Lost,
}

impl From<WalkFault> for ToFault {
    ghost use Rattle.desk_book.specs.RowByRow.{fault_of_walk};

    ghost from_gives = { λ walk fault. fault ≡ fault_of_walk walk };

    fn from(fault: WalkFault) -> ToFault {
        match fault {
            WalkFault::Sink(SinkFault::Write) => ToFault::WriteFailed,
            WalkFault::Sink(SinkFault::Memory) | WalkFault::Memory => ToFault::Memory,
            WalkFault::Storage => ToFault::Storage,
        }
    }
}

/// Why a script was not played to its end.
#[derive(Clone, Copy, Debug, PartialEq, Eq, Error)]
pub enum PlayFault {
    /// The reader failed; nothing was asked. An interrupted read counts as failed.
    #[error("reading failed")]
    ReadFailed,
    /// The writer failed, or took no byte. What was asked before stands.
    #[error("writing failed")]
    WriteFailed,
    /// The script has more than `LONGEST_SCRIPT` bytes; nothing was asked.
    #[error("the script is too long")]
    TooLong,
    /// There was no room for the script; nothing was read.
    #[error("out of memory")]
    Memory,
}

impl From<InputFault> for PlayFault {
    ghost use Rattle.desk_book.specs.Played.{unplayed};

    ghost from_gives = { λ input fault. fault ≡ unplayed input };

    fn from(fault: InputFault) -> PlayFault {
        match fault {
            InputFault::Memory => PlayFault::Memory,
            InputFault::ReadFailed => PlayFault::ReadFailed,
            InputFault::TooLong => PlayFault::TooLong,
        }
    }
}
