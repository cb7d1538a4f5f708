//! Why a work came to no end.

use desk_book::{Fault as DeskFault, PlayFault, ToFault};
use desk_codes::CodeFault;
use desk_file::OpenFault;
use desk_register::Fault;
use sqlite::{Error, ErrorCode};
use std::alloc::{AllocError, AllocFailed};
use std::io;

/// Why a work came to no end.
#[derive(Clone, Copy, Debug)]
pub enum Failure {
    /// A name that the work begins with is not of its form.
    Form,
    /// A growth of memory was refused.
    Memory,
    /// The device under a register failed.
    Storage,
    /// A database was not opened.
    Unopened(OpenFault),
    /// A command was refused.
    Refused,
    /// The script that is played first could not be played.
    Setup,
    /// The reader of a script failed, or the script is too long.
    Input,
    /// A file was not read, or what was to be printed was not.
    Stream,
}

impl From<AllocError> for Failure {
    fn from(_error: AllocError) -> Failure {
        Failure::Memory
    }
}

impl<X: Drop> From<AllocFailed<X>> for Failure {
    fn from(_error: AllocFailed<X>) -> Failure {
        Failure::Memory
    }
}

impl From<Fault> for Failure {
    fn from(fault: Fault) -> Failure {
        match fault {
            Fault::Memory => Failure::Memory,
            Fault::Storage => Failure::Storage,
        }
    }
}

impl From<OpenFault> for Failure {
    fn from(fault: OpenFault) -> Failure {
        Failure::Unopened(fault)
    }
}

impl From<DeskFault> for Failure {
    fn from(fault: DeskFault) -> Failure {
        match fault {
            DeskFault::Memory => Failure::Memory,
            DeskFault::Storage | DeskFault::Closed => Failure::Storage,
        }
    }
}

impl From<PlayFault> for Failure {
    fn from(fault: PlayFault) -> Failure {
        match fault {
            PlayFault::Memory => Failure::Memory,
            PlayFault::ReadFailed | PlayFault::TooLong => Failure::Input,
            PlayFault::WriteFailed => Failure::Stream,
        }
    }
}

impl From<ToFault> for Failure {
    fn from(fault: ToFault) -> Failure {
        match fault {
            ToFault::WriteFailed => Failure::Stream,
            ToFault::Memory => Failure::Memory,
            ToFault::Storage | ToFault::Closed | ToFault::Lost => Failure::Storage,
        }
    }
}

impl From<CodeFault> for Failure {
    fn from(_fault: CodeFault) -> Failure {
        Failure::Form
    }
}

impl From<Error> for Failure {
    fn from(error: Error) -> Failure {
        match error {
            Error::SqliteFailure(ErrorCode::OutOfMemory) => Failure::Memory,
            _ => Failure::Storage,
        }
    }
}

impl From<io::Error> for Failure {
    fn from(error: io::Error) -> Failure {
        if error.kind() == io::ErrorKind::OutOfMemory {
            Failure::Memory
        } else {
            Failure::Stream
        }
    }
}
