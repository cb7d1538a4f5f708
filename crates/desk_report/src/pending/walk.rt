//! The walk over the pairs that wait.
ghost use Rattle.std.specs.Prelude.{◌≡◌, ◌≢◌, true, false, codes, Err, IfOk, IsOk};
ghost use Rattle.desk_register.specs.View.{IfTrusted, IsRead};
ghost use Rattle.desk_register.specs.Ends.{at_register};
ghost use Rattle.desk_engine.specs.Ready.{IsReady};
ghost use Rattle.desk_book.specs.RowByRow.{WritesText};
ghost use Rattle.desk_report.specs.Pending.{IsPendingText};
ghost use Rattle.desk_report.specs.PendingReading.{AreDated, IsPairAfter, IsWaitingPair, WritesPair};

use crate::format::Format;
use crate::pending::row::pending_pair;
use crate::rows::writing::write_pending_pair;
use desk_codes::Day;
use desk_msg::SinkFault;
use desk_register::{Fault, Register, Stage, WalkFault};
use desk_rules::Place;
use desk_streams::Sink;
use std::alloc::Global;

/// 31 December 9999, after which there is no day.
fn last_day() -> Day
    ensures { result ≡ codes "99991231" }
{
    Day::read(b"99991231").unwrap()
}

/// The place of the first matched pair after one, or of the first of all; None where there is none.
fn next_pair<R: Register>(
    alloc: Global,
    register: &mut R,
    last: Option<Place>,
) -> Result<Option<Place>, Fault>
    requires stage { (R.view register.old).stage ≡ Stage.Idle }
    requires dated { IfTrusted (R.view register.old) (R.view register.old) (AreDated (R.view register.old).content) }
    ensures next { IfTrusted (R.view register.old) (R.view register.new) (IfOk result (λ next. IsPairAfter (R.view register.old).content last next)) }
    ensures read { IsRead result (R.view register.old) (R.view register.new) }
    ensures in_memory { R.in_memory ≡ true → IsOk result }
{
    register.due_pair_after(alloc, last_day(), last)
}

/// Writes the row of the matched pair of a place.
fn write_pair<R: Register, W: Sink>(
    alloc: Global,
    register: &mut R,
    format: Format,
    place: Place,
    is_later: bool,
    writer: &mut W,
) -> Result<(), WalkFault>
    requires stage { (R.view register.old).stage ≡ Stage.Idle }
    requires known { IfTrusted (R.view register.old) (R.view register.old) (IsWaitingPair (R.view register.old).content place) }
    ensures written { format ≡ Format.Json → IfTrusted (R.view register.old) (R.view register.new) (WritesPair (R.view register.old).content place is_later result (W.contents writer.old) (W.contents writer.new)) }
    ensures read { IsRead (at_register result) (R.view register.old) (R.view register.new) }
    ensures in_memory { R.in_memory ≡ true → result ≢ Err WalkFault.Memory }
    ensures unwritten { result ≡ Err (WalkFault.Sink SinkFault.Write) → W.may_fail ≡ true }
{
    let row = pending_pair(alloc, register, place)?;
    write_pending_pair(alloc, format, &row, is_later, writer)
}

/// Writes the rows of the pairs that wait for their settlement, in order of settlement day and number, each as soon as it is
/// read: as JSON with a comma between two, or in lines of text, of which nothing is promised. For a register that keeps the
/// tables of an open desk. Only reading calls are made, six at most for each row and two more, and no row is kept.
///
/// Sink: the writer failed, or memory was wanting for a row. Memory and Storage: a call of the register failed, or, Storage, a
/// store does not show what it holds: where a place has no matched pair, or where there are more pairs than entries. After an
/// `Err` what was written, if anything, is a front of the rows; where the writer failed, nothing is said of it.
pub fn write_pending<R: Register, W: Sink>(
    alloc: Global,
    register: &mut R,
    format: Format,
    writer: &mut W,
) -> Result<(), WalkFault>
    requires ready { IsReady false (R.view register.old) }
    ensures written { format ≡ Format.Json → IfTrusted (R.view register.old) (R.view register.new) (WritesText (IsPendingText (R.view register.old).content) result (W.contents writer.old) (W.contents writer.new)) }
    ensures read { IsRead (at_register result) (R.view register.old) (R.view register.new) }
    ensures in_memory { R.in_memory ≡ true → result ≢ Err WalkFault.Memory }
    ensures unwritten { result ≡ Err (WalkFault.Sink SinkFault.Write) → W.may_fail ≡ true }
{
    let count = register.count(alloc)?;
    let mut last = None;
    'pairs: for _told in 0..count {
        let Some(place) = next_pair(alloc, register, last)? else {
            return Ok(());
        };
        write_pair(alloc, register, format, place, last.is_some(), writer)?;
        last = Some(place);
    }
    // there are fewer pairs than entries
    match next_pair(alloc, register, last)? {
        None => Ok(()),
        Some(_) => Err(WalkFault::Storage),
    }
}
