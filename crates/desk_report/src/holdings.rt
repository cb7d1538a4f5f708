//! The walk over what an account holds.
ghost use Rattle.std.specs.Prelude.{◌≡◌, ◌≢◌, true, false, Err, IfOk, List, map};
ghost use Rattle.desk_msg.specs.declared.writing.statement_row.StatementRow.{StatementRow};
ghost use Rattle.desk_register.specs.View.{IfTrusted, IsRead};
ghost use Rattle.desk_register.specs.Ends.{at_register};
ghost use Rattle.desk_holdings.specs.Holdings.{AreHoldings, HoldsRegistered};
ghost use Rattle.desk_holdings.specs.Walking.{IsNextRow};
ghost use Rattle.desk_report.specs.RowData.{account_data};
ghost use Rattle.desk_report.specs.Accounts.{holding_row};
ghost use Rattle.desk_report.specs.RowsWriting.{WritesHoldings};

use crate::format::Format;
use crate::rows::balances::AccountRow;
use crate::rows::writing::write_account_row;
use desk_codes::{AccountId, Bic, Isin};
use desk_msg::{SinkFault, StatementRow};
use desk_register::{Fault, Register, Stage, WalkFault, is_above};
use desk_streams::Sink;
use std::alloc::Global;

/// An account's first holding above a security, or above none; None where there is none. A store that answers a holding which
/// is not above the security, or whose security is not registered, does not show what it holds: it is given up as one that
/// failed.
fn next_holding<R: Register>(
    alloc: Global,
    register: &mut R,
    account: AccountId,
    last: Option<Isin>,
) -> Result<Option<StatementRow>, Fault>
    requires stage { (R.view register.old).stage ≡ Stage.Idle }
    requires registered { IfTrusted (R.view register.old) (R.view register.old) (HoldsRegistered (R.view register.old).content account) }
    ensures next { IfTrusted (R.view register.old) (R.view register.new) (IfOk result (λ row. IsNextRow (R.view register.old).content account last row)) }
    ensures read { IsRead result (R.view register.old) (R.view register.new) }
    ensures in_memory { R.in_memory ≡ true → result ≢ Err Fault.Memory }
{
    let Some(holding) = register.holding_after(alloc, account, last)? else {
        return Ok(None);
    };
    if !is_above(&last, &holding.isin) {
        return Err(Fault::Storage);
    }
    let Some(kind) = register.security(alloc, holding.isin)? else {
        return Err(Fault::Storage);
    };
    Ok(Some(StatementRow {
        isin: holding.isin,
        kind,
        quantity: holding.quantity,
    }))
}

/// Writes a row for each security of which an account holds some, in the order of the ISINs. Gives whether there is one. With
/// no `begin` open.
///
/// Sink: the writer failed, or memory was wanting for a row. Memory and Storage: a call of the register failed; Storage also
/// where a store does not show what it holds: where a holding is not above the one before, or of no registered security, or
/// where there are more holdings than entries.
pub fn write_holdings<R: Register, W: Sink>(
    alloc: Global,
    register: &mut R,
    format: Format,
    account: AccountId,
    owner: Bic,
    is_later: bool,
    writer: &mut W,
) -> Result<bool, WalkFault>
    requires stage { (R.view register.old).stage ≡ Stage.Idle }
    requires registered { IfTrusted (R.view register.old) (R.view register.old) (HoldsRegistered (R.view register.old).content account) }
    ensures written { format ≡ Format.Json → IfTrusted (R.view register.old) (R.view register.new) ((held : List StatementRow) → AreHoldings (R.view register.old).content account held
        → WritesHoldings owner account held is_later result (W.contents writer.old) (W.contents writer.new)) }
    ensures read { IsRead (at_register result) (R.view register.old) (R.view register.new) }
    ensures in_memory { R.in_memory ≡ true → result ≢ Err WalkFault.Memory }
    ensures unwritten { result ≡ Err (WalkFault.Sink SinkFault.Write) → W.may_fail ≡ true }
{
    let count = register.count(alloc)?;
    let mut last = None;
    let mut comes_later = is_later;
    'holdings: for _told in 0..count {
        let Some(held) = next_holding(alloc, register, account, last)? else {
            return Ok(last.is_some());
        };
        last = Some(held.isin);
        let row = AccountRow {
            account,
            owner,
            holding: Some(held),
        };
        write_account_row(alloc, format, &row, comes_later, writer)?;
        comes_later = true;
    }
    // there are no more holdings than entries
    match register.holding_after(alloc, account, last)? {
        None => Ok(last.is_some()),
        Some(_) => Err(WalkFault::Storage),
    }
}
