//! `desk holdings` and `desk sums`.
ghost use Rattle.std.specs.Prelude.{◌≡◌, ◌≢◌, true, false, Err, IfOk, OnErr};
ghost use Rattle.std.specs.Io.KnownBytes.{Appends};
ghost use Rattle.desk_register.specs.View.{IsLater};
ghost use Rattle.desk_book.specs.Held.{Holds, IfHolds};
ghost use Rattle.desk_book.specs.WrittenTo.{WritesAsked, leaves_closed};
ghost use Rattle.desk.specs.Left.{IsLeft};
ghost use Rattle.desk.specs.PlayAnswer.{AreHeld};
ghost use Rattle.desk.specs.ReportAnswer.{asked_for, status_of_answer, IsBrokenOff, IsReportTold, ReportsFrom};

use crate::status::{Failure, Status, tell_failure};
use desk_book::{Desk, Head, ToFault};
use desk_codes::Bic;
use desk_register::Register;
use desk_streams::Sink;
use std::alloc::Global;
use std::io;

/// Prints what an account of a participant holds, or the totals of all where none is named, by a desk that is open: the answer to
/// such a question, in a line. A fault within it ends the line there, and is told in a line of its own. Where the writer failed
/// nothing more is written.
pub fn report_desk<D: Register + Drop, W: Sink>(
    alloc: Global,
    desk: &mut Desk<D>,
    owner: Option<Bic>,
    account: &[u8],
    writer: &mut W,
) -> io::Result<Status>
    requires { desk.old.is_closed ≡ false }
    ensures reported { ReportsFrom (D.view desk.old.register).room (AreHeld (D.view desk.old.register) (D.view desk.new.register)) (IsLeft desk.new.is_closed (D.view desk.new.register)) (asked_for owner account.now) result (Appends (W.contents writer.old) (W.contents writer.new)) }
    ensures later { IsLater (D.view desk.old.register) (D.view desk.new.register) }
    ensures failed { OnErr result (W.may_fail ≡ true) }
{
    let written = write_report(alloc, desk, owner, account, writer);
    tell_written(written, writer)
}

/// Writes the answer to what is asked for.
fn write_report<D: Register + Drop, W: Sink>(
    alloc: Global,
    desk: &mut Desk<D>,
    owner: Option<Bic>,
    account: &[u8],
    writer: &mut W,
) -> Result<Head, ToFault>
    ensures written { IfHolds D.view desk.old desk.new (λ books.
        WritesAsked (D.view desk.old.register).room books (asked_for owner account.now) result (W.contents writer.old) (W.contents writer.new)) }
    ensures keeps { IfHolds D.view desk.old desk.new (Holds desk.new.is_closed (D.view desk.new.register)) }
    ensures later { IsLater (D.view desk.old.register) (D.view desk.new.register) }
    ensures open { desk.old.is_closed ≡ false → result ≢ Err ToFault.Closed }
    ensures told { desk.new.is_closed ≡ leaves_closed result }
    ensures unwritten { result ≡ Err ToFault.WriteFailed → W.may_fail ≡ true }
{
    match owner {
        Some(owner) => desk.holdings_to(alloc, owner, account, writer),
        None => desk.sums_to(alloc, writer),
    }
}

/// Ends the line of an answer that was written, or of a front of it, behind which it tells why it ends there.
fn tell_written<W: Sink>(written: Result<Head, ToFault>, writer: &mut W) -> io::Result<Status>
    requires { written ≡ Err ToFault.WriteFailed → W.may_fail ≡ true }
    ensures told { IfOk result (λ status. IsReportTold written status (Appends (W.contents writer.old) (W.contents writer.new))) }
    ensures failed { OnErr result (W.may_fail ≡ true) }
{
    match written {
        Ok(head) => {
            writer.put(b"\n")?;
            Ok(status_of(head))
        }
        Err(ToFault::WriteFailed) => Err(io::Error::from(io::ErrorKind::WriteZero)),
        Err(ToFault::Memory) => break_off(Failure::Memory, writer),
        Err(ToFault::Storage) => break_off(Failure::Storage, writer),
        Err(ToFault::Closed | ToFault::Lost) => break_off(Failure::Closed, writer),
    }
}

/// The exit status of an answer.
fn status_of(head: Head) -> Status
    ensures { result ≡ status_of_answer head.status }
{
    if head.status == 200 {
        Status::Done
    } else {
        Status::Refused
    }
}

/// Ends a line within an answer, and tells why.
fn break_off<W: Sink>(failure: Failure, writer: &mut W) -> io::Result<Status>
    ensures told { IfOk result (λ status. IsBrokenOff failure status (Appends (W.contents writer.old) (W.contents writer.new))) }
    ensures failed { OnErr result (W.may_fail ≡ true) }
{
    writer.put(b"\n")?;
    tell_failure(failure, writer)
}
