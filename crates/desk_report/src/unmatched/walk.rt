//! The walk over the unmatched instructions, row by row.
ghost use Rattle.std.specs.Prelude.{◌≡◌, ◌≢◌, true, false, Err, length};
ghost use Rattle.std.specs.BTreeMap.{IsEmpty};
ghost use Rattle.desk_register.specs.View.{IfTrusted, IsRead};
ghost use Rattle.desk_register.specs.Ends.{at_register};
ghost use Rattle.desk_engine.specs.Ready.{IsReady};
ghost use Rattle.desk_book.specs.RowByRow.{WritesText};
ghost use Rattle.desk_report.specs.FirstNumbers.{AreFirst};
ghost use Rattle.desk_report.specs.Unmatched.{IsUnmatchedText, unmatched_row};
ghost use Rattle.desk_report.specs.UnmatchedWriting.{WritesIf};

use crate::format::Format;
use crate::rows::writing::write_unmatched_instruction;
use crate::unmatched::first_numbers::note_first;
use crate::unmatched::near::NearKey;
use crate::unmatched::rows::row;
use desk_msg::SinkFault;
use desk_register::{Register, Stage, WalkFault};
use desk_streams::Sink;
use std::alloc::Global;
use std::collections::BTreeMap;

/// Writes the row of a number, where an unmatched instruction has it. Gives whether a row was written up to here.
fn write_number<R: Register, W: Sink>(
    alloc: Global,
    register: &mut R,
    format: Format,
    numbers: &BTreeMap<NearKey, u64>,
    number: u64,
    is_later: bool,
    writer: &mut W,
) -> Result<bool, WalkFault>
    requires stage { (R.view register.old).stage ≡ Stage.Idle }
    requires first { IfTrusted (R.view register.old) (R.view register.old) (AreFirst numbers.now (R.view register.old).content (length (R.view register.old).content.register)) }
    ensures written { format ≡ Format.Json → IfTrusted (R.view register.old) (R.view register.new) (WritesIf result (unmatched_row (R.view register.old).content number) is_later (W.contents writer.old) (W.contents writer.new)) }
    ensures read { IsRead (at_register result) (R.view register.old) (R.view register.new) }
    ensures in_memory { R.in_memory ≡ true → result ≢ Err WalkFault.Memory }
    ensures unwritten { result ≡ Err (WalkFault.Sink SinkFault.Write) → W.may_fail ≡ true }
{
    let Some(row) = row(alloc, register, numbers, number)? else {
        return Ok(is_later);
    };
    write_unmatched_instruction(alloc, format, &row, is_later, writer)?;
    Ok(true)
}

/// Writes the rows of the entries' numbers.
fn write_rows<R: Register, W: Sink>(
    alloc: Global,
    register: &mut R,
    format: Format,
    count: u64,
    numbers: &BTreeMap<NearKey, u64>,
    writer: &mut W,
) -> Result<(), WalkFault>
    requires stage { (R.view register.old).stage ≡ Stage.Idle }
    requires entries { IfTrusted (R.view register.old) (R.view register.old) (count ≡ length (R.view register.old).content.register) }
    requires first { IfTrusted (R.view register.old) (R.view register.old) (AreFirst numbers.now (R.view register.old).content count) }
    ensures written { format ≡ Format.Json → IfTrusted (R.view register.old) (R.view register.new) (WritesText (IsUnmatchedText (R.view register.old).content) result (W.contents writer.old) (W.contents writer.new)) }
    ensures read { IsRead (at_register result) (R.view register.old) (R.view register.new) }
    ensures in_memory { R.in_memory ≡ true → result ≢ Err WalkFault.Memory }
    ensures unwritten { result ≡ Err (WalkFault.Sink SinkFault.Write) → W.may_fail ≡ true }
{
    let mut is_later = false;
    'numbers: for before in 0..count {
        is_later = write_number(
            alloc,
            register,
            format,
            numbers,
            before + 1,
            is_later,
            writer,
        )?;
    }
    Ok(())
}

/// Writes the rows by a map that is empty, and is filled first.
fn write_by<R: Register, W: Sink>(
    alloc: Global,
    register: &mut R,
    format: Format,
    numbers: &mut BTreeMap<NearKey, u64>,
    writer: &mut W,
) -> Result<(), WalkFault>
    requires stage { (R.view register.old).stage ≡ Stage.Idle }
    requires empty { IsEmpty numbers.old }
    ensures written { format ≡ Format.Json → IfTrusted (R.view register.old) (R.view register.new) (WritesText (IsUnmatchedText (R.view register.old).content) result (W.contents writer.old) (W.contents writer.new)) }
    ensures read { IsRead (at_register result) (R.view register.old) (R.view register.new) }
    ensures in_memory { R.in_memory ≡ true → result ≢ Err WalkFault.Memory }
    ensures unwritten { result ≡ Err (WalkFault.Sink SinkFault.Write) → W.may_fail ≡ true }
{
    let count = register.count(alloc)?;
    note_first(alloc, register, count, numbers)?;
    write_rows(alloc, register, format, count, numbers, writer)
}

/// Writes the rows of all unmatched instructions in the order of their numbers, each with the nearest one to it: as JSON one
/// behind another with a comma between two, or as lines of text. With no `begin` open. Only reading calls are made, in two
/// walks over the entries: the first keeps a key and a number for each unmatched instruction at most, the second writes each
/// row as soon as it is read, and keeps none.
///
/// Sink: the writer failed, or memory was wanting for the keys or for a row. Memory and Storage: a call of the register
/// failed, or, Storage, a store does not show what it holds. After an `Err` what was written, if anything, is a front of the
/// rows; where the writer failed, nothing is said of it.
pub fn write_unmatched<R: Register, W: Sink>(
    alloc: Global,
    register: &mut R,
    format: Format,
    writer: &mut W,
) -> Result<(), WalkFault>
    requires ready { IsReady false (R.view register.old) }
    ensures written { format ≡ Format.Json → IfTrusted (R.view register.old) (R.view register.new) (WritesText (IsUnmatchedText (R.view register.old).content) result (W.contents writer.old) (W.contents writer.new)) }
    ensures read { IsRead (at_register result) (R.view register.old) (R.view register.new) }
    ensures in_memory { R.in_memory ≡ true → result ≢ Err WalkFault.Memory }
    ensures unwritten { result ≡ Err (WalkFault.Sink SinkFault.Write) → W.may_fail ≡ true }
{
    let mut numbers = BTreeMap::new(alloc);
    write_by(alloc, register, format, &mut numbers, writer)
}
