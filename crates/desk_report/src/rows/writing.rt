//! Rows on their way to a writer.
ghost use Rattle.std.specs.Prelude.{◌≡◌, true, false, Ok, Err, IfOk, string_bytes};
ghost use Rattle.serde_json.specs.Data.{Data};
ghost use Rattle.serde_json.specs.View.{view};
ghost use Rattle.serde_json.specs.Written.{compact_text, has_float};
ghost use Rattle.desk_register.specs.Ends.{at_register};
ghost use Rattle.desk_report.specs.RowData.{account_data, cash_data, pending_data, unmatched_data};
ghost use Rattle.desk_report.specs.RowWritten.{WritesRow};

use crate::format::Format;
use crate::rows::balances::{AccountRow, CashRow};
use crate::rows::pending::PendingPair;
use crate::rows::text::{
    account_text, cash_row_text, cash_total_text, pending_text, security_total_text, unmatched_text,
};
use crate::rows::unmatched::UnmatchedInstruction;
use crate::rows::values::{account_value, cash_value, pending_value, unmatched_value};
use desk_book::{CashTotal, SecurityTotal, write_row, write_text};
use desk_msg::SinkFault;
use desk_register::WalkFault;
use desk_streams::Sink;
use serde_json::Value;
use std::alloc::{AllocError, Global};

/// A value's text.
fn value_text(alloc: Global, value: Result<Value, AllocError>) -> Result<String, AllocError>
    ensures { (told : Data) → IfOk value (λ value. view value ≡ told) → has_float told ≡ false → IfOk result (λ text. string_bytes text ≡ compact_text told) }
{
    value?.to_string(alloc)
}

/// Writes a row as JSON, behind a comma where rows stand before it.
fn write_value<W: Sink>(
    alloc: Global,
    value: Result<Value, AllocError>,
    is_later: bool,
    writer: &mut W,
) -> Result<(), WalkFault>
    ensures written { (told : Data) → IfOk value (λ value. view value ≡ told) → has_float told ≡ false
        → WritesRow told is_later result (W.contents writer.old) (W.contents writer.new) }
    ensures register { at_register result ≡ Ok tt }
    ensures unwritten { result ≡ Err (WalkFault.Sink SinkFault.Write) → W.may_fail ≡ true }
{
    let Ok(text) = value_text(alloc, value) else {
        return Err(WalkFault::Sink(SinkFault::Memory));
    };
    write_row(writer, is_later, text.as_bytes())
}

/// Writes lines of text.
fn write_lines<W: Sink>(lines: Result<String, AllocError>, writer: &mut W) -> Result<(), WalkFault>
    ensures register { at_register result ≡ Ok tt }
    ensures unwritten { result ≡ Err (WalkFault.Sink SinkFault.Write) → W.may_fail ≡ true }
{
    let Ok(lines) = lines else {
        return Err(WalkFault::Sink(SinkFault::Memory));
    };
    write_text(writer, lines.as_bytes())
}

/// Writes a pair that waits: as JSON behind a comma where rows stand before it, or in three lines.
///
/// Sink: the writer failed, or memory was wanting for the row.
pub fn write_pending_pair<W: Sink>(
    alloc: Global,
    format: Format,
    row: &PendingPair,
    is_later: bool,
    writer: &mut W,
) -> Result<(), WalkFault>
    ensures written { format ≡ Format.Json → WritesRow (pending_data row.now) is_later result (W.contents writer.old) (W.contents writer.new) }
    ensures register { at_register result ≡ Ok tt }
    ensures unwritten { result ≡ Err (WalkFault.Sink SinkFault.Write) → W.may_fail ≡ true }
{
    match format {
        Format::Json => write_value(alloc, pending_value(alloc, row), is_later, writer),
        Format::Text => write_lines(pending_text(alloc, row), writer),
    }
}

/// Writes an unmatched instruction: as JSON behind a comma where rows stand before it, or in three lines.
///
/// Sink: the writer failed, or memory was wanting for the row.
pub fn write_unmatched_instruction<W: Sink>(
    alloc: Global,
    format: Format,
    row: &UnmatchedInstruction,
    is_later: bool,
    writer: &mut W,
) -> Result<(), WalkFault>
    ensures written { format ≡ Format.Json → WritesRow (unmatched_data row.now) is_later result (W.contents writer.old) (W.contents writer.new) }
    ensures register { at_register result ≡ Ok tt }
    ensures unwritten { result ≡ Err (WalkFault.Sink SinkFault.Write) → W.may_fail ≡ true }
{
    match format {
        Format::Json => write_value(alloc, unmatched_value(alloc, row), is_later, writer),
        Format::Text => write_lines(unmatched_text(alloc, row), writer),
    }
}

/// Writes what an account holds of a security, or that it holds nothing: as JSON behind a comma where rows stand before it, or
/// in a line.
///
/// Sink: the writer failed, or memory was wanting for the row.
pub fn write_account_row<W: Sink>(
    alloc: Global,
    format: Format,
    row: &AccountRow,
    is_later: bool,
    writer: &mut W,
) -> Result<(), WalkFault>
    ensures written { format ≡ Format.Json → WritesRow (account_data row.now) is_later result (W.contents writer.old) (W.contents writer.new) }
    ensures register { at_register result ≡ Ok tt }
    ensures unwritten { result ≡ Err (WalkFault.Sink SinkFault.Write) → W.may_fail ≡ true }
{
    match format {
        Format::Json => write_value(alloc, account_value(alloc, row), is_later, writer),
        Format::Text => write_lines(account_text(alloc, row), writer),
    }
}

/// Writes what a participant has of a currency: as JSON behind a comma where rows stand before it, or in a line.
///
/// Sink: the writer failed, or memory was wanting for the row.
pub fn write_cash_row<W: Sink>(
    alloc: Global,
    format: Format,
    row: &CashRow,
    is_later: bool,
    writer: &mut W,
) -> Result<(), WalkFault>
    ensures written { format ≡ Format.Json → WritesRow (cash_data row.now) is_later result (W.contents writer.old) (W.contents writer.new) }
    ensures register { at_register result ≡ Ok tt }
    ensures unwritten { result ≡ Err (WalkFault.Sink SinkFault.Write) → W.may_fail ≡ true }
{
    match format {
        Format::Json => write_value(alloc, cash_value(alloc, row), is_later, writer),
        Format::Text => write_lines(cash_row_text(alloc, row), writer),
    }
}

/// Writes the total of a currency in a line, for people.
///
/// Sink: the writer failed, or memory was wanting for the line.
pub fn write_cash_total<W: Sink>(
    alloc: Global,
    total: &CashTotal,
    writer: &mut W,
) -> Result<(), WalkFault>
    ensures register { at_register result ≡ Ok tt }
    ensures unwritten { result ≡ Err (WalkFault.Sink SinkFault.Write) → W.may_fail ≡ true }
{
    write_lines(cash_total_text(alloc, total), writer)
}

/// Writes the total of a security in a line, for people.
///
/// Sink: the writer failed, or memory was wanting for the line.
pub fn write_security_total<W: Sink>(
    alloc: Global,
    total: &SecurityTotal,
    writer: &mut W,
) -> Result<(), WalkFault>
    ensures register { at_register result ≡ Ok tt }
    ensures unwritten { result ≡ Err (WalkFault.Sink SinkFault.Write) → W.may_fail ≡ true }
{
    write_lines(security_total_text(alloc, total), writer)
}
