//! Answers that are written straight to a writer from an open desk's register, and what is left of it then.
ghost use Rattle.std.specs.Prelude.{◌≡◌, ◌≢◌, true, false, Err};
ghost use Rattle.desk_rules.specs.Books.{Books};
ghost use Rattle.desk_register.specs.View.{IfTrusted, IsRead};
ghost use Rattle.desk_register.specs.Ends.{at_register};
ghost use Rattle.desk_engine.specs.Applied.{Keeps};
ghost use Rattle.desk_engine.specs.Ready.{IsReady};
ghost use Rattle.desk_book.specs.RowByRow.{EndsWriting, IsReported, Leaves, Shown, told_of_walk};
ghost use Rattle.desk_book.specs.WrittenTo.{Writes};

use crate::answers::head::Head;
use crate::answers::statement::write_holdings;
use crate::answers::summing::write_sums;
use crate::fault::ToFault;
use desk_codes::{AccountId, Bic};
use desk_engine::{Failure, recover};
use desk_msg::SinkFault;
use desk_register::{Fault, Register, Stage, WalkFault};
use desk_streams::Sink;
use std::alloc::Global;

/// What is told row by row.
#[derive(Clone, Copy)]
pub enum Report {
    /// What this participant's account holds; None for a text that names no account
    Holdings(Bic, Option<AccountId>),
    /// The desk's totals
    Totals,
}

/// Writes a report to a writer, and sees what is left of the register: whether it can be shown that it holds what it held.
pub fn tell_to<R: Register, W: Sink>(
    alloc: Global,
    register: &mut R,
    report: Report,
    writer: &mut W,
) -> Result<Head, ToFault>
    requires ready { IsReady false (R.view register.old) }
    ensures written { (books : Books) → (R.view register.new).is_honest → Keeps (R.view register.old).room books (R.view register.old).content
        → Writes (IsReported (R.view register.old).room books report) result (W.contents writer.old) (W.contents writer.new) }
    ensures ends { EndsWriting result (R.view register.old) (R.view register.new) }
    ensures in_memory { R.in_memory ≡ true → result ≢ Err ToFault.Lost }
    ensures unwritten { result ≡ Err ToFault.WriteFailed → W.may_fail ≡ true }
{
    let written = write_report(alloc, register, report, writer);
    if is_lost_by(alloc, register, &written) {
        return Err(ToFault::Lost);
    }
    Ok(written?)
}

/// Writes a report to a writer.
fn write_report<R: Register, W: Sink>(
    alloc: Global,
    register: &mut R,
    report: Report,
    writer: &mut W,
) -> Result<Head, WalkFault>
    requires ready { IsReady false (R.view register.old) }
    ensures written { (books : Books) → IfTrusted (R.view register.old) (R.view register.new) (Keeps (R.view register.old).room books (R.view register.old).content
        → Writes (IsReported (R.view register.old).room books report) (told_of_walk result) (W.contents writer.old) (W.contents writer.new)) }
    ensures read { IsRead (at_register result) (R.view register.old) (R.view register.new) }
    ensures unwritten { result ≡ Err (WalkFault.Sink SinkFault.Write) → W.may_fail ≡ true }
{
    match report {
        Report::Holdings(owner, account) => write_holdings(alloc, register, owner, account, writer),
        Report::Totals => write_sums(alloc, register, writer),
    }
}

/// Whether the register is lost after a walk. Where a call of it failed it is tried; else each call went well.
fn is_lost_by<R: Register>(
    alloc: Global,
    register: &mut R,
    written: &Result<Head, WalkFault>,
) -> bool
    requires { (R.view register.old).stage ≡ Stage.Idle }
    ensures leaves { Leaves (at_register written.now) result (R.view register.old) (R.view register.new) }
    ensures in_memory { R.in_memory ≡ true → result ≡ false }
{
    match written {
        Ok(_) | Err(WalkFault::Sink(_)) => false,
        Err(WalkFault::Memory) => is_lost_after(alloc, register, Fault::Memory),
        Err(WalkFault::Storage) => is_lost_after(alloc, register, Fault::Storage),
    }
}

/// Whether the register is lost after a fault with no `begin` open: what it shows is tried.
fn is_lost_after<R: Register>(alloc: Global, register: &mut R, fault: Fault) -> bool
    requires { (R.view register.old).stage ≡ Stage.Idle }
    ensures shown { Shown result (R.view register.old) (R.view register.new) }
    ensures in_memory { R.in_memory ≡ true → result ≡ false }
{
    match recover(alloc, register, fault) {
        Failure::Undone(_) => false,
        Failure::Lost => true,
    }
}
