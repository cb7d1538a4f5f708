//! The walk over an account's holdings.
ghost use Rattle.std.specs.Prelude.{◌≡◌, ◌≢◌, true, Err, IfOk};
ghost use Rattle.desk_register.specs.View.{IfTrusted, IsRead};
ghost use Rattle.desk_register.specs.Ends.{at_register};
ghost use Rattle.desk_holdings.specs.Holdings.{HoldsRegistered};
ghost use Rattle.desk_holdings.specs.Taking.{Took};
ghost use Rattle.desk_holdings.specs.Walking.{IsNextRow};

use desk_codes::{AccountId, Isin};
use desk_msg::{RowSink, SinkFault, StatementRow};
use desk_register::{Fault, Register, Stage, WalkFault, is_above};
use std::alloc::Global;

/// The row of an account's first holding above a security, or above none; None where there is none. A store that answers
/// a holding which is not above the security, or whose security is not registered, does not show what it holds: it is given
/// up as one that failed.
fn next_row<R: Register>(
    alloc: Global,
    register: &mut R,
    account: AccountId,
    last: Option<Isin>,
) -> Result<Option<StatementRow>, Fault>
    requires stage { (R.view register.old).stage ≡ Stage.Idle }
    requires registered { IfTrusted (R.view register.old) (R.view register.old) (HoldsRegistered (R.view register.old).content account) }
    ensures next { IfTrusted (R.view register.old) (R.view register.new) (IfOk result (λ row. IsNextRow (R.view register.old).content account last row)) }
    ensures read { IsRead result (R.view register.old) (R.view register.new) }
    ensures in_memory { R.in_memory ≡ true → result ≢ Err Fault.Memory }
{
    let Some(holding) = register.holding_after(alloc, account, last)? else {
        return Ok(None);
    };
    if !is_above(&last, &holding.isin) {
        return Err(Fault::Storage);
    }
    let Some(kind) = register.security(alloc, holding.isin)? else {
        return Err(Fault::Storage);
    };
    Ok(Some(StatementRow {
        isin: holding.isin,
        kind,
        quantity: holding.quantity,
    }))
}

/// Tells a sink what an account holds, row by row: each security of which it holds some, in the order of the ISINs. With no
/// `begin` open. Only reading calls are made, two for each row and two more, and no row is kept. An account that does not
/// exist holds nothing.
///
/// Sink: the sink did not take a row; it took those before. Memory and Storage: a call of the register failed; the sink
/// took the rows before it. Storage is also the answer where a store does not show what it holds: where a holding is not
/// above the one before, or of no registered security, or where there are more holdings than entries.
pub fn holdings_rows<R: Register, S: RowSink>(
    alloc: Global,
    register: &mut R,
    account: AccountId,
    sink: &mut S,
) -> Result<(), WalkFault>
    requires stage { (R.view register.old).stage ≡ Stage.Idle }
    requires registered { IfTrusted (R.view register.old) (R.view register.old) (HoldsRegistered (R.view register.old).content account) }
    ensures took { Took S.took account result (R.view register.old) (R.view register.new) sink.old sink.new }
    ensures read { IsRead (at_register result) (R.view register.old) (R.view register.new) }
    ensures in_memory { R.in_memory ≡ true → result ≢ Err WalkFault.Memory }
    ensures unwritten { result ≡ Err (WalkFault.Sink SinkFault.Write) → S.may_fail ≡ true }
{
    let count = register.count(alloc)?;
    let mut last = None;
    'holdings: for _told in 0..count {
        let Some(row) = next_row(alloc, register, account, last)? else {
            return Ok(());
        };
        last = Some(row.isin);
        sink.take(row)?;
    }
    // there are no more holdings than entries
    match register.holding_after(alloc, account, last)? {
        None => Ok(()),
        Some(_) => Err(WalkFault::Storage),
    }
}
