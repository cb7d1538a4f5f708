//! A report, written part by part.
ghost use Rattle.std.specs.Prelude.{◌≡◌, ◌≢◌, ◌++◌, true, false, Err, IfErr, Ok, OnErr, OnOk};
ghost use Rattle.std.specs.Io.KnownBytes.{Appends};
ghost use Rattle.serde_json.specs.Written.{comma_if};
ghost use Rattle.desk_rules.specs.Books.{Books};
ghost use Rattle.desk_register.specs.View.{IfTrusted, IsRead};
ghost use Rattle.desk_engine.specs.Applied.{Keeps};
ghost use Rattle.desk_register.specs.Ends.{at_register};
ghost use Rattle.desk_engine.specs.Ready.{IsReady};
ghost use Rattle.desk_book.specs.RowByRow.{WritesText};
ghost use Rattle.desk_report.specs.Report.{IsReportText};
ghost use Rattle.desk_report.specs.ReportWritten.{AreMembersText, AreRowsOf, IsMemberText, IsPartText, label_of};

use crate::accounts::write_accounts;
use crate::cash::write_cash;
use crate::format::Format;
use crate::part::{Part, Parts};
use crate::pending::walk::write_pending;
use crate::sums::write_sum_lines;
use crate::unmatched::walk::write_unmatched;
use desk_book::{write_row, write_sums, write_text};
use desk_msg::SinkFault;
use desk_register::{Register, Stage, WalkFault};
use desk_streams::Sink;
use std::alloc::Global;

/// The parts in the order of their names, as JSON has them.
const BY_NAME: [Part; 5] = [
    Part::Accounts,
    Part::Cash,
    Part::Pending,
    Part::Sums,
    Part::Unmatched,
];

/// The parts in the order in which people read them.
const FOR_PEOPLE: [Part; 5] = [
    Part::Pending,
    Part::Unmatched,
    Part::Accounts,
    Part::Cash,
    Part::Sums,
];

/// Writes the parts that are asked for straight to a writer, each row as soon as it is read; no row is kept. As JSON they are the
/// members of one object; as text each has a heading, its name, and an empty line stands between two.
///
/// Sink: the writer failed, or memory was wanting for a row or for the numbers of unmatched instructions. Memory and Storage: a
/// call of the register failed, or, Storage, a store does not show what it holds. After an `Err` what was written as JSON, if
/// anything, is a front of the report; where the writer failed, nothing is said of it.
pub fn write_report<R: Register, W: Sink>(
    alloc: Global,
    register: &mut R,
    parts: Parts,
    format: Format,
    writer: &mut W,
) -> Result<(), WalkFault>
    requires ready { IsReady false (R.view register.old) }
    ensures written { format ≡ Format.Json → (books : Books) → IfTrusted (R.view register.old) (R.view register.new) (Keeps (R.view register.old).room books (R.view register.old).content
        → WritesText (IsReportText books (R.view register.old).content parts) result (W.contents writer.old) (W.contents writer.new)) }
    ensures read { IsRead (at_register result) (R.view register.old) (R.view register.new) }
    ensures unwritten { result ≡ Err (WalkFault.Sink SinkFault.Write) → W.may_fail ≡ true }
{
    match format {
        Format::Json => write_object(alloc, register, parts, writer),
        Format::Text => write_lines(alloc, register, parts, writer),
    }
}

/// Writes the parts that are asked for as the members of a JSON object.
fn write_object<R: Register, W: Sink>(
    alloc: Global,
    register: &mut R,
    parts: Parts,
    writer: &mut W,
) -> Result<(), WalkFault>
    requires ready { IsReady false (R.view register.old) }
    ensures written { (books : Books) → IfTrusted (R.view register.old) (R.view register.new) (Keeps (R.view register.old).room books (R.view register.old).content
        → WritesText (IsReportText books (R.view register.old).content parts) result (W.contents writer.old) (W.contents writer.new)) }
    ensures read { IsRead (at_register result) (R.view register.old) (R.view register.new) }
    ensures unwritten { result ≡ Err (WalkFault.Sink SinkFault.Write) → W.may_fail ≡ true }
{
    write_text(writer, b"{")?;
    write_members(alloc, register, parts, writer)?;
    write_text(writer, b"}")
}

/// Writes the parts that are asked for as members, one after another.
fn write_members<R: Register, W: Sink>(
    alloc: Global,
    register: &mut R,
    parts: Parts,
    writer: &mut W,
) -> Result<(), WalkFault>
    requires ready { IsReady false (R.view register.old) }
    ensures written { (books : Books) → IfTrusted (R.view register.old) (R.view register.new) (Keeps (R.view register.old).room books (R.view register.old).content
        → WritesText (AreMembersText books (R.view register.old).content parts) result (W.contents writer.old) (W.contents writer.new)) }
    ensures read { IsRead (at_register result) (R.view register.old) (R.view register.new) }
    ensures unwritten { result ≡ Err (WalkFault.Sink SinkFault.Write) → W.may_fail ≡ true }
{
    let mut is_later = false;
    'parts: for index in 0..BY_NAME.len() {
        let part = BY_NAME[index];
        if parts.asks(part) {
            write_member(alloc, register, part, is_later, writer)?;
            is_later = true;
        }
    }
    Ok(())
}

/// Writes a part as a member, behind a comma where members stand before it.
fn write_member<R: Register, W: Sink>(
    alloc: Global,
    register: &mut R,
    part: Part,
    is_later: bool,
    writer: &mut W,
) -> Result<(), WalkFault>
    requires ready { IsReady false (R.view register.old) }
    ensures written { (books : Books) → IfTrusted (R.view register.old) (R.view register.new) (Keeps (R.view register.old).room books (R.view register.old).content
        → WritesText (IsMemberText books (R.view register.old).content part is_later) result (W.contents writer.old) (W.contents writer.new)) }
    ensures read { IsRead (at_register result) (R.view register.old) (R.view register.new) }
    ensures unwritten { result ≡ Err (WalkFault.Sink SinkFault.Write) → W.may_fail ≡ true }
{
    write_label(writer, part, is_later)?;
    write_value(alloc, register, part, writer)
}

/// Writes the name of a part as that of a member, behind a comma where members stand before it.
fn write_label<W: Sink>(writer: &mut W, part: Part, is_later: bool) -> Result<(), WalkFault>
    ensures written { OnOk result (Appends (W.contents writer.old) (W.contents writer.new) (comma_if is_later ++ label_of part)) }
    ensures fault { IfErr result (λ fault. fault ≡ WalkFault.Sink SinkFault.Write) }
    ensures unwritten { OnErr result (W.may_fail ≡ true) }
{
    write_row(writer, is_later, part.label())
}

/// Writes what a part tells: the array of its rows, or the object of the sums.
fn write_value<R: Register, W: Sink>(
    alloc: Global,
    register: &mut R,
    part: Part,
    writer: &mut W,
) -> Result<(), WalkFault>
    requires ready { IsReady false (R.view register.old) }
    ensures written { (books : Books) → IfTrusted (R.view register.old) (R.view register.new) (Keeps (R.view register.old).room books (R.view register.old).content
        → WritesText (IsPartText books (R.view register.old).content part) result (W.contents writer.old) (W.contents writer.new)) }
    ensures read { IsRead (at_register result) (R.view register.old) (R.view register.new) }
    ensures unwritten { result ≡ Err (WalkFault.Sink SinkFault.Write) → W.may_fail ≡ true }
{
    match part {
        Part::Sums => write_totals(alloc, register, writer),
        Part::Accounts | Part::Cash | Part::Pending | Part::Unmatched => {
            write_array(alloc, register, part, writer)
        }
    }
}

/// Writes the object of the sums.
fn write_totals<R: Register, W: Sink>(
    alloc: Global,
    register: &mut R,
    writer: &mut W,
) -> Result<(), WalkFault>
    requires ready { IsReady false (R.view register.old) }
    ensures written { (books : Books) → IfTrusted (R.view register.old) (R.view register.new) (Keeps (R.view register.old).room books (R.view register.old).content
        → WritesText (IsPartText books (R.view register.old).content Part.Sums) result (W.contents writer.old) (W.contents writer.new)) }
    ensures read { IsRead (at_register result) (R.view register.old) (R.view register.new) }
    ensures unwritten { result ≡ Err (WalkFault.Sink SinkFault.Write) → W.may_fail ≡ true }
{
    write_sums(alloc, register, writer)?;
    Ok(())
}

/// Writes the array of a part's rows.
fn write_array<R: Register, W: Sink>(
    alloc: Global,
    register: &mut R,
    part: Part,
    writer: &mut W,
) -> Result<(), WalkFault>
    requires ready { IsReady false (R.view register.old) }
    ensures written { (books : Books) → IfTrusted (R.view register.old) (R.view register.new) (Keeps (R.view register.old).room books (R.view register.old).content → part ≢ Part.Sums
        → WritesText (IsPartText books (R.view register.old).content part) result (W.contents writer.old) (W.contents writer.new)) }
    ensures read { IsRead (at_register result) (R.view register.old) (R.view register.new) }
    ensures unwritten { result ≡ Err (WalkFault.Sink SinkFault.Write) → W.may_fail ≡ true }
{
    write_text(writer, b"[")?;
    write_rows(alloc, register, part, Format::Json, writer)?;
    write_text(writer, b"]")
}

/// Writes the rows of a part; of the sums in lines alone.
fn write_rows<R: Register, W: Sink>(
    alloc: Global,
    register: &mut R,
    part: Part,
    format: Format,
    writer: &mut W,
) -> Result<(), WalkFault>
    requires ready { IsReady false (R.view register.old) }
    ensures written { format ≡ Format.Json → (books : Books) → IfTrusted (R.view register.old) (R.view register.new) (Keeps (R.view register.old).room books (R.view register.old).content
        → part ≢ Part.Sums → WritesText (AreRowsOf books (R.view register.old).content part) result (W.contents writer.old) (W.contents writer.new)) }
    ensures read { IsRead (at_register result) (R.view register.old) (R.view register.new) }
    ensures unwritten { result ≡ Err (WalkFault.Sink SinkFault.Write) → W.may_fail ≡ true }
{
    match part {
        Part::Accounts => write_accounts(alloc, register, format, writer),
        Part::Cash => write_cash(alloc, register, format, writer),
        Part::Pending => write_pending(alloc, register, format, writer),
        Part::Unmatched => write_unmatched(alloc, register, format, writer),
        Part::Sums => write_sum_lines(alloc, register, writer),
    }
}

/// Writes the parts that are asked for as lines of text.
fn write_lines<R: Register, W: Sink>(
    alloc: Global,
    register: &mut R,
    parts: Parts,
    writer: &mut W,
) -> Result<(), WalkFault>
    requires ready { IsReady false (R.view register.old) }
    ensures read { IsRead (at_register result) (R.view register.old) (R.view register.new) }
    ensures unwritten { result ≡ Err (WalkFault.Sink SinkFault.Write) → W.may_fail ≡ true }
{
    let mut is_later = false;
    'parts: for index in 0..FOR_PEOPLE.len() {
        let part = FOR_PEOPLE[index];
        if parts.asks(part) {
            write_part(alloc, register, part, is_later, writer)?;
            is_later = true;
        }
    }
    Ok(())
}

/// Writes a part as lines below its name, behind an empty line where parts stand before it.
fn write_part<R: Register, W: Sink>(
    alloc: Global,
    register: &mut R,
    part: Part,
    is_later: bool,
    writer: &mut W,
) -> Result<(), WalkFault>
    requires ready { IsReady false (R.view register.old) }
    ensures read { IsRead (at_register result) (R.view register.old) (R.view register.new) }
    ensures unwritten { result ≡ Err (WalkFault.Sink SinkFault.Write) → W.may_fail ≡ true }
{
    write_heading(writer, part, is_later)?;
    write_rows(alloc, register, part, Format::Text, writer)
}

/// Writes the name of a part in a line, behind an empty one where parts stand before it.
fn write_heading<W: Sink>(writer: &mut W, part: Part, is_later: bool) -> Result<(), WalkFault>
    ensures register { at_register result ≡ Ok tt }
    ensures unwritten { result ≡ Err (WalkFault.Sink SinkFault.Write) → W.may_fail ≡ true }
{
    if is_later {
        write_text(writer, b"\n")?;
    }
    write_text(writer, part.name().as_bytes())?;
    write_text(writer, b"\n")
}
