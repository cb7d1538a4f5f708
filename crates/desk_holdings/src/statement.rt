//! The statement of an account's holdings, written.
ghost use Rattle.std.specs.Prelude.{◌≡◌, ◌≢◌, true, codes, Err, IfOk, IsOk};
ghost use Rattle.desk_rules.specs.Content.{history_of};
ghost use Rattle.desk_rules.specs.Facts.{last_run};
ghost use Rattle.desk_register.specs.View.{IfRead, IfTrusted, IsRead};
ghost use Rattle.desk_register.specs.Ends.{at_register};
ghost use Rattle.desk_holdings.specs.Holdings.{HoldsRegistered};
ghost use Rattle.desk_holdings.specs.Statement.{IsStatementDay, Writes};

use crate::walk::holdings_rows;
use desk_codes::{AccountId, Day};
use desk_msg::{HoldingsWriter, SinkFault};
use desk_register::{Fault, Register, Stage, WalkFault};
use desk_streams::Sink;
use std::alloc::Global;

/// 1 January 1970.
fn first_day() -> Day
    ensures { result ≡ codes "19700101" }
{
    Day::read(b"19700101").unwrap()
}

/// The day of a statement: that of the last run, or 1 January 1970 before any.
fn statement_day<R: Register>(alloc: Global, register: &mut R) -> Result<Day, Fault>
    ensures day { IfRead (R.view register.old) (R.view register.new) (IfOk result (IsStatementDay (last_run (history_of (R.view register.old).content)))) }
    ensures read { IsRead result (R.view register.old) (R.view register.new) }
    ensures in_memory { R.in_memory ≡ true → IsOk result }
{
    let day = register.last_run(alloc)?;
    Ok(day.unwrap_or(first_day()))
}

/// Writes the statement of holdings, MT535, of what an account holds now straight to a writer: a row for each security of
/// which it holds some, in the order of the ISINs, of the day of the last run (1 January 1970 before any), and after as many
/// entries as there are. With no `begin` open. Only reading calls are made, and no row is kept. An account that does not
/// exist holds nothing.
///
/// Sink: the writer failed, or memory was wanted for a row or for the end of the statement. Memory and Storage: a call of
/// the register failed, or, Storage, a store does not show what it holds, as in `holdings_rows`. After an `Err` what was
/// written, if anything, is a front of the statement; where the writer failed, nothing is said of it.
pub fn write_statement<R: Register, W: Sink>(
    alloc: Global,
    register: &mut R,
    account: AccountId,
    writer: &mut W,
) -> Result<(), WalkFault>
    requires stage { (R.view register.old).stage ≡ Stage.Idle }
    requires registered { IfTrusted (R.view register.old) (R.view register.old) (HoldsRegistered (R.view register.old).content account) }
    ensures written { Writes account result (R.view register.old) (R.view register.new) (W.contents writer.old) (W.contents writer.new) }
    ensures read { IsRead (at_register result) (R.view register.old) (R.view register.new) }
    ensures in_memory { R.in_memory ≡ true → result ≢ Err WalkFault.Memory }
    ensures unwritten { result ≡ Err (WalkFault.Sink SinkFault.Write) → W.may_fail ≡ true }
{
    let limit = register.limit();
    let entries = register.count(alloc)?.min(limit);
    let day = statement_day(alloc, register)?;
    let mut statement = HoldingsWriter::new(alloc, writer, entries, day, &account);
    holdings_rows(alloc, register, account, &mut statement)?;
    statement.finish()?;
    Ok(())
}
