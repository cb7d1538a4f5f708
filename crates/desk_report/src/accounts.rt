//! What each account holds.
ghost use Rattle.std.specs.Prelude.{◌≡◌, ◌≢◌, ℕ, List, true, false, is_some, Err};
ghost use Rattle.desk_msg.specs.declared.writing.statement_row.StatementRow.{StatementRow};
ghost use Rattle.desk_rules.specs.Content.{history_of};
ghost use Rattle.desk_rules.specs.History.{entry_at};
ghost use Rattle.desk_register.specs.View.{IfTrusted, IsRead};
ghost use Rattle.desk_register.specs.Ends.{at_register};
ghost use Rattle.desk_holdings.specs.Holdings.{AreHoldings, HoldsRegistered};
ghost use Rattle.desk_engine.specs.Ready.{IsReady};
ghost use Rattle.desk_book.specs.RowByRow.{WritesText};
ghost use Rattle.desk_report.specs.RowData.{account_data};
ghost use Rattle.desk_report.specs.Accounts.{AreHeld, HoldRegistered, IsAccountsText, account_rows, rows_of};
ghost use Rattle.desk_report.specs.RowsWriting.{IsRows, WritesRows, rows_at};

use crate::entries::entry_of;
use crate::format::Format;
use crate::holdings::write_holdings;
use crate::rows::balances::AccountRow;
use crate::rows::writing::write_account_row;
use desk_codes::{AccountId, Bic};
use desk_msg::SinkFault;
use desk_register::{Register, Stage, WalkFault};
use desk_rules::Entry;
use desk_streams::Sink;
use std::alloc::Global;

/// Writes each account with its owner and what it holds, in units or by face amount: account by account, in the order of their
/// registration, and each security of which one holds some, in the order of the ISINs; an account that holds nothing has one
/// row. Only the rows are written, each as soon as it is read: as JSON with a comma between two, or a line for each. With no
/// `begin` open. Only reading calls are made.
///
/// Sink: the writer failed, or memory was wanting for a row. Memory and Storage: a call of the register failed; Storage also
/// where a store does not show what it holds: where it has no entry of a number up to its count, where a holding is not above
/// the one before, or of no registered security, or where there are more holdings than entries. After an `Err` what was
/// written, if anything, is a front of the rows; where the writer failed, nothing is said of it.
pub fn write_accounts<R: Register, W: Sink>(
    alloc: Global,
    register: &mut R,
    format: Format,
    writer: &mut W,
) -> Result<(), WalkFault>
    requires ready { IsReady false (R.view register.old) }
    ensures written { format ≡ Format.Json → IfTrusted (R.view register.old) (R.view register.new) (WritesText (IsAccountsText (R.view register.old).content) result (W.contents writer.old) (W.contents writer.new)) }
    ensures read { IsRead (at_register result) (R.view register.old) (R.view register.new) }
    ensures in_memory { R.in_memory ≡ true → result ≢ Err WalkFault.Memory }
    ensures unwritten { result ≡ Err (WalkFault.Sink SinkFault.Write) → W.may_fail ≡ true }
{
    let count = register.count(alloc)?;
    let mut is_later = false;
    'entries: for index in 0..count {
        is_later = write_entry(alloc, register, format, index + 1, is_later, writer)?;
    }
    Ok(())
}

/// Writes the rows of the account that the entry of a number registers, if it registers one. Gives whether a row was written
/// up to here.
fn write_entry<R: Register, W: Sink>(
    alloc: Global,
    register: &mut R,
    format: Format,
    number: u64,
    is_later: bool,
    writer: &mut W,
) -> Result<bool, WalkFault>
    requires stage { (R.view register.old).stage ≡ Stage.Idle }
    requires known { IfTrusted (R.view register.old) (R.view register.old) (is_some (entry_at (history_of (R.view register.old).content) number) ≡ true) }
    requires registered { IfTrusted (R.view register.old) (R.view register.old) (HoldRegistered (R.view register.old).content) }
    ensures written { format ≡ Format.Json → IfTrusted (R.view register.old) (R.view register.new) ((held : List ℕ → List StatementRow) → AreHeld (R.view register.old).content held
        → WritesRows account_data (rows_at (account_rows held) (history_of (R.view register.old).content) number) is_later result (W.contents writer.old) (W.contents writer.new)) }
    ensures read { IsRead (at_register result) (R.view register.old) (R.view register.new) }
    ensures in_memory { R.in_memory ≡ true → result ≢ Err WalkFault.Memory }
    ensures unwritten { result ≡ Err (WalkFault.Sink SinkFault.Write) → W.may_fail ≡ true }
{
    match entry_of(alloc, register, number)? {
        Entry::Account { bic, account, .. } => {
            write_account(alloc, register, format, account, bic, is_later, writer)?;
            Ok(true)
        }
        _ => Ok(is_later),
    }
}

/// Writes the rows of an account.
fn write_account<R: Register, W: Sink>(
    alloc: Global,
    register: &mut R,
    format: Format,
    account: AccountId,
    owner: Bic,
    is_later: bool,
    writer: &mut W,
) -> Result<(), WalkFault>
    requires stage { (R.view register.old).stage ≡ Stage.Idle }
    requires registered { IfTrusted (R.view register.old) (R.view register.old) (HoldsRegistered (R.view register.old).content account) }
    ensures written { format ≡ Format.Json → IfTrusted (R.view register.old) (R.view register.new) ((held : List StatementRow) → AreHoldings (R.view register.old).content account held
        → WritesText (IsRows account_data (rows_of owner account held) is_later) result (W.contents writer.old) (W.contents writer.new)) }
    ensures read { IsRead (at_register result) (R.view register.old) (R.view register.new) }
    ensures in_memory { R.in_memory ≡ true → result ≢ Err WalkFault.Memory }
    ensures unwritten { result ≡ Err (WalkFault.Sink SinkFault.Write) → W.may_fail ≡ true }
{
    let holds_some = write_holdings(alloc, register, format, account, owner, is_later, writer)?;
    if holds_some {
        return Ok(());
    }
    let row = AccountRow {
        account,
        owner,
        holding: None,
    };
    write_account_row(alloc, format, &row, is_later, writer)
}
