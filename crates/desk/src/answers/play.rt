//! `desk play`.
ghost use Rattle.std.specs.Prelude.{◌≡◌, true, false, Ok, Err, IfOk, OnErr, OnOk};
ghost use Rattle.std.specs.Io.KnownBytes.{Appends};
ghost use Rattle.desk_rules.specs.Books.{Books};
ghost use Rattle.desk_rules.specs.declared.limits.TheConstants.{MOST_ENTRIES};
ghost use Rattle.desk_engine.specs.Applied.{no_books};
ghost use Rattle.desk_engine.specs.Ready.{IsReady};
ghost use Rattle.memory_register.specs.ListsView.{view_of_lists};
ghost use Rattle.desk_register.specs.View.{IsLater};
ghost use Rattle.desk.specs.Left.{IsLeft};
ghost use Rattle.desk.specs.PlayAnswer.{AreHeld, IsPlayAnswer, IsPlayTold, KeptBy, PlaysFrom};

use crate::status::{Failure, Status, tell_failure};
use desk_book::{Desk, PlayFault};
use desk_register::Register;
use desk_rules::MOST_ENTRIES;
use desk_streams::{Sink, Source};
use memory_register::ListRegister;
use std::alloc::Global;
use std::io;

/// Plays a script from the reader on a new desk in memory. It is done where the script was played, whatever its
/// answers; `fault 60` tells that memory is wanting for the script, and `fault io` that the reader failed or the
/// script is too long. Where the writer failed nothing more is written.
pub fn answer_play<R: Source, W: Sink>(
    alloc: Global,
    reader: &mut R,
    writer: &mut W,
) -> io::Result<Status>
    ensures told { IfOk result (λ status. IsPlayAnswer no_books (R.remaining reader.old) (reader.new ≡ reader.old) R.may_fail status (Appends (W.contents writer.old) (W.contents writer.new))) }
    ensures failed { OnErr result (W.may_fail ≡ true) }
{
    let memory = ListRegister::new(alloc, MOST_ENTRIES);
    play_on(alloc, memory, reader, writer)
}

/// The same on the desk of a register in memory.
pub fn play_on<R: Source, W: Sink>(
    alloc: Global,
    memory: ListRegister,
    reader: &mut R,
    writer: &mut W,
) -> io::Result<Status>
    requires ready { IsReady false (view_of_lists memory) }
    requires room { (view_of_lists memory).room ≡ MOST_ENTRIES }
    ensures told { (books : Books) → KeptBy (view_of_lists memory) books
        → IfOk result (λ status. IsPlayAnswer books (R.remaining reader.old) (reader.new ≡ reader.old) R.may_fail status (Appends (W.contents writer.old) (W.contents writer.new))) }
    ensures failed { OnErr result (W.may_fail ≡ true) }
{
    let mut desk = Desk::new(memory);
    tell_played(desk.play(alloc, reader, writer), writer)
}

/// Tells what a script came to that was played, or why it was not.
fn tell_played<W: Sink>(played: Result<(), PlayFault>, writer: &mut W) -> io::Result<Status>
    requires { played ≡ Err PlayFault.WriteFailed → W.may_fail ≡ true }
    ensures told { IfOk result (λ status. IsPlayTold played status (writer.new ≡ writer.old) (Appends (W.contents writer.old) (W.contents writer.new))) }
    ensures done { OnOk played (result ≡ Ok Status.Done) }
    ensures failed { OnErr result (W.may_fail ≡ true) }
{
    match played {
        Ok(()) => Ok(Status::Done),
        Err(PlayFault::Memory) => tell_failure(Failure::Memory, writer),
        Err(PlayFault::ReadFailed) => tell_failure(Failure::Input, writer),
        Err(PlayFault::TooLong) => tell_failure(Failure::Input, writer),
        Err(PlayFault::WriteFailed) => Err(io::Error::from(io::ErrorKind::WriteZero)),
    }
}

/// Plays a script from the reader on a desk that is open.
pub fn play_desk<D: Register + Drop, R: Source, W: Sink>(
    alloc: Global,
    desk: &mut Desk<D>,
    reader: &mut R,
    writer: &mut W,
) -> io::Result<Status>
    requires { desk.old.is_closed ≡ false }
    ensures played { PlaysFrom (D.view desk.old.register).room (AreHeld (D.view desk.old.register) (D.view desk.new.register)) (IsLeft desk.new.is_closed (D.view desk.new.register)) (R.remaining reader.old) (reader.new ≡ reader.old) R.may_fail result (Appends (W.contents writer.old) (W.contents writer.new)) }
    ensures later { IsLater (D.view desk.old.register) (D.view desk.new.register) }
    ensures failed { OnErr result (W.may_fail ≡ true) }
{
    let played = desk.play(alloc, reader, writer);
    tell_played(played, writer)
}
