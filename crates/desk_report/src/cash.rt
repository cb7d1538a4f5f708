//! What each participant has in cash.
ghost use Rattle.std.specs.Prelude.{◌≡◌, ◌≢◌, ◌∷◌, [], true, false, is_some, Err};
ghost use Rattle.desk_rules.specs.Content.{history_of};
ghost use Rattle.desk_rules.specs.History.{entry_at};
ghost use Rattle.desk_register.specs.View.{IfTrusted, IsRead};
ghost use Rattle.desk_register.specs.Ends.{at_register};
ghost use Rattle.desk_engine.specs.Ready.{IsReady};
ghost use Rattle.desk_book.specs.RowByRow.{WritesText};
ghost use Rattle.desk_report.specs.RowData.{cash_data};
ghost use Rattle.desk_report.specs.Cash.{IsCashText, balance_rows, cash_rows, currencies};
ghost use Rattle.desk_report.specs.RowsWriting.{WritesRows, rows_at};

use crate::entries::entry_of;
use crate::format::Format;
use crate::rows::balances::CashRow;
use crate::rows::writing::write_cash_row;
use desk_codes::{Bic, CURRENCIES, Ccy};
use desk_msg::SinkFault;
use desk_register::{Register, Stage, WalkFault};
use desk_rules::Entry;
use desk_streams::Sink;
use std::alloc::Global;

/// Writes what each participant has in cash, in minor units: participant by participant, in the order of their registration,
/// and each currency of which one has some, in the order of the letters. Only the rows are written, each as soon as it is
/// read: as JSON with a comma between two, or a line for each. With no `begin` open. Only reading calls are made.
///
/// Sink: the writer failed, or memory was wanting for a row. Memory and Storage: a call of the register failed; Storage also
/// where a store has no entry of a number up to its count. After an `Err` what was written, if anything, is a front of the
/// rows; where the writer failed, nothing is said of it.
pub fn write_cash<R: Register, W: Sink>(
    alloc: Global,
    register: &mut R,
    format: Format,
    writer: &mut W,
) -> Result<(), WalkFault>
    requires ready { IsReady false (R.view register.old) }
    ensures written { format ≡ Format.Json → IfTrusted (R.view register.old) (R.view register.new) (WritesText (IsCashText (R.view register.old).content) result (W.contents writer.old) (W.contents writer.new)) }
    ensures read { IsRead (at_register result) (R.view register.old) (R.view register.new) }
    ensures in_memory { R.in_memory ≡ true → result ≢ Err WalkFault.Memory }
    ensures unwritten { result ≡ Err (WalkFault.Sink SinkFault.Write) → W.may_fail ≡ true }
{
    let count = register.count(alloc)?;
    let mut is_later = false;
    'entries: for index in 0..count {
        is_later = write_entry(alloc, register, format, index + 1, is_later, writer)?;
    }
    Ok(())
}

/// Writes the rows of the participant that the entry of a number registers, if it registers one. Gives whether a row was
/// written up to here.
fn write_entry<R: Register, W: Sink>(
    alloc: Global,
    register: &mut R,
    format: Format,
    number: u64,
    is_later: bool,
    writer: &mut W,
) -> Result<bool, WalkFault>
    requires stage { (R.view register.old).stage ≡ Stage.Idle }
    requires known { IfTrusted (R.view register.old) (R.view register.old) (is_some (entry_at (history_of (R.view register.old).content) number) ≡ true) }
    ensures written { format ≡ Format.Json → IfTrusted (R.view register.old) (R.view register.new)
        (WritesRows cash_data (rows_at (cash_rows (R.view register.old).content) (history_of (R.view register.old).content) number) is_later result (W.contents writer.old) (W.contents writer.new)) }
    ensures read { IsRead (at_register result) (R.view register.old) (R.view register.new) }
    ensures in_memory { R.in_memory ≡ true → result ≢ Err WalkFault.Memory }
    ensures unwritten { result ≡ Err (WalkFault.Sink SinkFault.Write) → W.may_fail ≡ true }
{
    match entry_of(alloc, register, number)? {
        Entry::Participant { bic, .. } => {
            write_balances(alloc, register, format, bic, is_later, writer)
        }
        _ => Ok(is_later),
    }
}

/// Writes what a participant has of each currency. Gives whether a row was written up to here.
fn write_balances<R: Register, W: Sink>(
    alloc: Global,
    register: &mut R,
    format: Format,
    bic: Bic,
    is_later: bool,
    writer: &mut W,
) -> Result<bool, WalkFault>
    requires stage { (R.view register.old).stage ≡ Stage.Idle }
    ensures written { format ≡ Format.Json → IfTrusted (R.view register.old) (R.view register.new)
        (WritesRows cash_data (balance_rows (R.view register.old).content bic currencies) is_later result (W.contents writer.old) (W.contents writer.new)) }
    ensures read { IsRead (at_register result) (R.view register.old) (R.view register.new) }
    ensures in_memory { R.in_memory ≡ true → result ≢ Err WalkFault.Memory }
    ensures unwritten { result ≡ Err (WalkFault.Sink SinkFault.Write) → W.may_fail ≡ true }
{
    let mut is_later = is_later;
    'currencies: for index in 0..CURRENCIES.len() {
        is_later = write_balance(
            alloc,
            register,
            format,
            bic,
            CURRENCIES[index],
            is_later,
            writer,
        )?;
    }
    Ok(is_later)
}

/// Writes what a participant has of a currency, if it has some. Gives whether a row was written up to here.
fn write_balance<R: Register, W: Sink>(
    alloc: Global,
    register: &mut R,
    format: Format,
    bic: Bic,
    ccy: Ccy,
    is_later: bool,
    writer: &mut W,
) -> Result<bool, WalkFault>
    requires stage { (R.view register.old).stage ≡ Stage.Idle }
    ensures written { format ≡ Format.Json → IfTrusted (R.view register.old) (R.view register.new)
        (WritesRows cash_data (balance_rows (R.view register.old).content bic (ccy ∷ [])) is_later result (W.contents writer.old) (W.contents writer.new)) }
    ensures read { IsRead (at_register result) (R.view register.old) (R.view register.new) }
    ensures in_memory { R.in_memory ≡ true → result ≢ Err WalkFault.Memory }
    ensures unwritten { result ≡ Err (WalkFault.Sink SinkFault.Write) → W.may_fail ≡ true }
{
    let amount = register.cash(alloc, bic, ccy)?;
    if amount == 0 {
        return Ok(is_later);
    }
    write_cash_row(
        alloc,
        format,
        &CashRow { bic, ccy, amount },
        is_later,
        writer,
    )?;
    Ok(true)
}
