//! `desk report` and `desk journal`.
ghost use Rattle.std.specs.Prelude.{◌≡◌, true, false, Err, IfErr, IfOk, OnErr, unwrap_or};
ghost use Rattle.std.specs.Io.KnownBytes.{Appends};
ghost use Rattle.desk_rules.specs.Books.{Books};
ghost use Rattle.desk_rules.specs.declared.limits.TheConstants.{MOST_ENTRIES};
ghost use Rattle.desk_engine.specs.Applied.{Keeps};
ghost use Rattle.desk_register.specs.Ends.{at_register};
ghost use Rattle.desk_engine.specs.Ready.{IsReady, KeepsFormed};
ghost use Rattle.desk_book.specs.RowByRow.{WritesText};
ghost use Rattle.memory_register.specs.ListsView.{view_of_lists};
ghost use Rattle.desk_file.specs.Opened.{IsReadyFor, view_of_both};
ghost use Rattle.desk_register.specs.View.{IfTrusted, IsLater, IsRead};
ghost use Rattle.desk_register.specs.declared.register.Stage.TheVariants.{Idle};
ghost use Rattle.sqlite.specs.State.{HasCleanDisk};
ghost use Rattle.desk.specs.Left.{TablesSay};
ghost use Rattle.desk.specs.PlayAnswer.{KeptBy};
ghost use Rattle.desk.specs.OverviewAnswer.{IsAfterScript, IsBrokenOffAs, IsOverviewAnswer, IsOverviewEnd, IsOverviewFrom, IsShownText, MayPlayNone, failure_of_played, line_end};

use crate::status::{Failure, Status, tell_failure};
use crate::store::connection_of;
use desk_book::{Desk, PlayFault};
use desk_file::MirroredRegister;
use desk_journal::write_journal;
use desk_msg::SinkFault;
use desk_register::{Register, WalkFault};
use desk_report::{Format, Parts, write_report};
use desk_rules::MOST_ENTRIES;
use desk_streams::{Sink, Source};
use memory_register::ListRegister;
use sql_register::{Session, SqlRegister};
use std::alloc::Global;
use std::io;

/// What is shown of a desk.
#[derive(Clone, Copy)]
pub enum Shown {
    /// What stands at this moment: these parts of it
    Report(Parts),
    /// The accepted entries from a number on, or all of them
    Journal(Option<u32>),
}

/// Plays a script from the reader on a new desk in memory, and prints what is to be shown of it then. `fault 60` tells that memory
/// is wanting for the script, or, behind what was printed, for a row; `fault io` that the reader failed or the script is too long.
/// Where the writer failed nothing more is written.
pub fn answer_overview<R: Source, W: Sink>(
    alloc: Global,
    shown: Shown,
    format: Format,
    reader: &mut R,
    writer: &mut W,
) -> io::Result<Status>
    ensures told { IfOk result (λ status. IsOverviewAnswer shown format (R.remaining reader.old) (reader.new ≡ reader.old) R.may_fail status (Appends (W.contents writer.old) (W.contents writer.new))) }
    ensures failed { OnErr result (W.may_fail ≡ true) }
{
    match register_after(alloc, reader) {
        Ok(mut register) => tell_overview(alloc, &mut register, shown, format, writer),
        Err(failure) => tell_failure(failure, writer),
    }
}

/// The register of a desk in memory on which a script from the reader was played.
fn register_after<R: Source>(alloc: Global, reader: &mut R) -> Result<ListRegister, Failure>
    ensures after { IfOk result (λ register. IsAfterScript (R.remaining reader.old) (view_of_lists register)) }
    ensures none { IfErr result (MayPlayNone (R.remaining reader.old) (reader.new ≡ reader.old) R.may_fail) }
{
    let mut desk = Desk::new(ListRegister::new(alloc, MOST_ENTRIES));
    match desk.play(alloc, reader, &mut io::sink()) {
        Ok(()) => Ok(desk.into_register()),
        Err(fault) => Err(failure_of(fault)),
    }
}

/// What is told where a script was not played whose answers go nowhere: such a writer does not fail.
fn failure_of(fault: PlayFault) -> Failure
    ensures { result ≡ failure_of_played fault }
{
    match fault {
        PlayFault::Memory | PlayFault::WriteFailed => Failure::Memory,
        PlayFault::ReadFailed | PlayFault::TooLong => Failure::Input,
    }
}

/// Prints what is to be shown of tables with a register in memory beside them, of which the connection is given back.
pub fn show_on_both<S: Session + Drop, W: Sink>(
    alloc: Global,
    both: MirroredRegister<ListRegister, SqlRegister<S>>,
    shown: Shown,
    format: Format,
    writer: &mut W,
) -> (io::Result<Status>, S)
    requires { IsReadyFor MOST_ENTRIES (view_of_both S.state both) }
    ensures told { (books : Books) → KeptBy (view_of_both S.state both) books
        → IfOk result.0 (λ status. IsOverviewFrom format shown books status (Appends (W.contents writer.old) (W.contents writer.new))) }
    ensures left { (books : Books) → KeptBy (view_of_both S.state both) books → TablesSay (S.state result.1) books }
    ensures clean { HasCleanDisk (S.state result.1) → HasCleanDisk (S.state both.tables.connection) }
    ensures failed { OnErr result.0 (W.may_fail ≡ true) }
{
    let mut both = both;
    let told = tell_overview(alloc, &mut both, shown, format, writer);
    (told, connection_of(both))
}

/// Prints what is to be shown of the desk of a register.
fn tell_overview<D: Register, W: Sink>(
    alloc: Global,
    register: &mut D,
    shown: Shown,
    format: Format,
    writer: &mut W,
) -> io::Result<Status>
    requires ready { IsReady false (D.view register.old) }
    ensures told { (books : Books) → (D.view register.new).is_honest → (D.view register.old).room ≡ MOST_ENTRIES → KeepsFormed MOST_ENTRIES books (D.view register.old).content
        → IfOk result (λ status. IsOverviewFrom format shown books status (Appends (W.contents writer.old) (W.contents writer.new))) }
    ensures stage { (D.view register.new).stage ≡ Idle }
    ensures later { IsLater (D.view register.old) (D.view register.new) }
    ensures same { (D.view register.new).is_honest → (D.view register.new).is_sure → (D.view register.new).content ≡ (D.view register.old).content }
    ensures failed { OnErr result (W.may_fail ≡ true) }
{
    let written = write_shown(alloc, register, shown, format, writer);
    tell_end(written, format, writer)
}

/// Writes what is shown of the desk of a register.
fn write_shown<R: Register, W: Sink>(
    alloc: Global,
    register: &mut R,
    shown: Shown,
    format: Format,
    writer: &mut W,
) -> Result<(), WalkFault>
    requires ready { IsReady false (R.view register.old) }
    ensures written { format ≡ Format.Json → (books : Books) → IfTrusted (R.view register.old) (R.view register.new) (Keeps (R.view register.old).room books (R.view register.old).content
        → WritesText (IsShownText books (R.view register.old).content shown) result (W.contents writer.old) (W.contents writer.new)) }
    ensures read { IsRead (at_register result) (R.view register.old) (R.view register.new) }
    ensures unwritten { result ≡ Err (WalkFault.Sink SinkFault.Write) → W.may_fail ≡ true }
{
    match shown {
        Shown::Report(parts) => write_report(alloc, register, parts, format, writer),
        Shown::Journal(from) => write_journal(alloc, register, number_of(from), format, writer),
    }
}

/// The number of the first entry that is told.
fn number_of(from: Option<u32>) -> u64
    ensures { result ≡ unwrap_or from 1 }
{
    match from {
        Some(number) => u64::from(number),
        None => 1,
    }
}

/// Ends what was written, or a front of it, behind which it tells why it ends there.
fn tell_end<W: Sink>(
    written: Result<(), WalkFault>,
    format: Format,
    writer: &mut W,
) -> io::Result<Status>
    requires { written ≡ Err (WalkFault.Sink SinkFault.Write) → W.may_fail ≡ true }
    ensures told { IfOk result (λ status. IsOverviewEnd written format status (Appends (W.contents writer.old) (W.contents writer.new))) }
    ensures failed { OnErr result (W.may_fail ≡ true) }
{
    match written {
        Ok(()) => {
            end_line(format, writer)?;
            Ok(Status::Done)
        }
        Err(WalkFault::Sink(SinkFault::Write)) => Err(io::Error::from(io::ErrorKind::WriteZero)),
        Err(WalkFault::Sink(SinkFault::Memory) | WalkFault::Memory) => {
            break_off(Failure::Memory, format, writer)
        }
        Err(WalkFault::Storage) => break_off(Failure::Storage, format, writer),
    }
}

/// Ends the line in the middle, and tells why.
fn break_off<W: Sink>(failure: Failure, format: Format, writer: &mut W) -> io::Result<Status>
    ensures told { IfOk result (λ status. IsBrokenOffAs failure format status (Appends (W.contents writer.old) (W.contents writer.new))) }
    ensures failed { OnErr result (W.may_fail ≡ true) }
{
    end_line(format, writer)?;
    tell_failure(failure, writer)
}

/// Ends the line of a JSON object; lines of text have their own ends.
fn end_line<W: Sink>(format: Format, writer: &mut W) -> io::Result<()>
    ensures ended { IfOk result (λ done. Appends (W.contents writer.old) (W.contents writer.new) (line_end format)) }
    ensures failed { OnErr result (W.may_fail ≡ true) }
{
    match format {
        Format::Json => writer.put(b"\n"),
        Format::Text => Ok(()),
    }
}
