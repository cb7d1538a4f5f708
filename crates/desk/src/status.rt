//! How a run ends: its exit status, and the failures that are told in place of an answer.
ghost use Rattle.std.specs.Prelude.{◌≡◌, ◌≢◌, ◌++◌, codes, true, IfOk, OnErr};
ghost use Rattle.std.specs.Io.KnownBytes.{Appends};
ghost use Rattle.std.specs.Process.{exit_status};
ghost use Rattle.desk_words.specs.Causes.{TellsCause};
ghost use Rattle.desk.specs.Status.{IsFailureTold, failure_line, status_number};

use desk_book::ToFault;
use desk_file::OpenFault;
use desk_streams::{InputFault, Sink};
use std::io;
use std::process::ExitCode;

/// The exit status of the program.
#[derive(Clone, Copy)]
pub enum Status {
    /// What was asked for was done
    Done = 0,
    /// The code, the message or the question was refused
    Refused = 1,
    /// The words fit no subcommand
    Usage = 2,
    /// Memory, the reader, the writer or the file of the desk failed, or the file is none of a desk's
    Fault = 3,
}

impl From<Status> for ExitCode {
    ghost from_gives = { λ status code. exit_status code ≡ status_number status };

    fn from(status: Status) -> ExitCode {
        ExitCode::from(status as u8)
    }
}

/// What is told in place of an answer.
#[derive(Clone, Copy)]
pub enum Failure {
    /// The file is none of a desk's
    NotOurFile,
    /// The file is one of another version
    OtherVersion,
    /// Memory is wanting
    Memory,
    /// The file failed, or cannot be opened
    Storage,
    /// The desk is closed
    Closed,
    /// The reader or a folder failed, or a script is too long
    Input,
}

impl From<InputFault> for Failure {
    ghost use Rattle.desk.specs.Input.{failure_of};

    ghost from_gives = { λ fault failure. failure ≡ failure_of fault };

    fn from(fault: InputFault) -> Failure {
        match fault {
            InputFault::Memory => Failure::Memory,
            InputFault::ReadFailed | InputFault::TooLong => Failure::Input,
        }
    }
}

impl From<OpenFault> for Failure {
    ghost use Rattle.desk.specs.Status.{failure_of_opening};

    ghost from_gives = { λ fault failure. failure ≡ failure_of_opening fault };

    fn from(fault: OpenFault) -> Failure {
        match fault {
            OpenFault::NotOurFile(_) => Failure::NotOurFile,
            OpenFault::OtherVersion => Failure::OtherVersion,
            OpenFault::Memory => Failure::Memory,
            OpenFault::Storage => Failure::Storage,
        }
    }
}

impl From<io::Error> for Failure {
    ghost use Rattle.desk.specs.DropAnswer.{IsFolderFailure};

    ghost from_gives = { λ error failure. IsFolderFailure failure };

    fn from(error: io::Error) -> Failure {
        match error.kind() {
            io::ErrorKind::OutOfMemory => Failure::Memory,
            _ => Failure::Input,
        }
    }
}

/// Writes a failure's line, and gives the status of a fault.
pub fn tell_failure<W: Sink>(failure: Failure, writer: &mut W) -> io::Result<Status>
    ensures told { IfOk result (λ status. IsFailureTold failure status (Appends (W.contents writer.old) (W.contents writer.new))) }
    ensures failed { OnErr result (W.may_fail ≡ true) }
{
    writer.put(line_of(failure))?;
    Ok(Status::Fault)
}

/// The line of a failure, which tells a cause of the catalogue, or that the input failed.
fn line_of(failure: Failure) -> &'static [u8]
    ensures line { result.now ≡ failure_line failure ++ codes "\n" }
    ensures explained { failure ≢ Failure.Input → TellsCause (failure_line failure) }
{
    match failure {
        Failure::NotOurFile => b"fault 50\n",
        Failure::OtherVersion => b"fault 51\n",
        Failure::Memory => b"fault 60\n",
        Failure::Storage => b"fault 61\n",
        Failure::Closed => b"fault 62\n",
        Failure::Input => b"fault io\n",
    }
}
