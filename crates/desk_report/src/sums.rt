//! The totals in lines of aligned text, for people. (As JSON `desk_book` writes them.)
ghost use Rattle.std.specs.Prelude.{◌≡◌, ◌≢◌, true, Err};
ghost use Rattle.desk_register.specs.View.{IsRead};
ghost use Rattle.desk_register.specs.Ends.{at_register};

use crate::rows::writing::{write_cash_total, write_security_total};
use desk_book::{CashTotal, SecurityTotal};
use desk_codes::{CURRENCIES, Ccy, Isin};
use desk_msg::SinkFault;
use desk_register::{Register, Stage, WalkFault};
use desk_streams::Sink;
use std::alloc::Global;

/// Writes a line for each currency that was paid in, and one for each registered security.
///
/// The faults are those of `write_report`.
pub fn write_sum_lines<R: Register, W: Sink>(
    alloc: Global,
    register: &mut R,
    writer: &mut W,
) -> Result<(), WalkFault>
    requires stage { (R.view register.old).stage ≡ Stage.Idle }
    ensures read { IsRead (at_register result) (R.view register.old) (R.view register.new) }
    ensures in_memory { R.in_memory ≡ true → result ≢ Err WalkFault.Memory }
    ensures unwritten { result ≡ Err (WalkFault.Sink SinkFault.Write) → W.may_fail ≡ true }
{
    write_currencies(alloc, register, writer)?;
    write_securities(alloc, register, writer)
}

/// Writes a line for each currency that was paid in.
fn write_currencies<R: Register, W: Sink>(
    alloc: Global,
    register: &mut R,
    writer: &mut W,
) -> Result<(), WalkFault>
    requires stage { (R.view register.old).stage ≡ Stage.Idle }
    ensures read { IsRead (at_register result) (R.view register.old) (R.view register.new) }
    ensures in_memory { R.in_memory ≡ true → result ≢ Err WalkFault.Memory }
    ensures unwritten { result ≡ Err (WalkFault.Sink SinkFault.Write) → W.may_fail ≡ true }
{
    'currencies: for index in 0..CURRENCIES.len() {
        write_currency(alloc, register, CURRENCIES[index], writer)?;
    }
    Ok(())
}

/// Writes the line of a currency, if any of it was paid in.
fn write_currency<R: Register, W: Sink>(
    alloc: Global,
    register: &mut R,
    ccy: Ccy,
    writer: &mut W,
) -> Result<(), WalkFault>
    requires stage { (R.view register.old).stage ≡ Stage.Idle }
    ensures read { IsRead (at_register result) (R.view register.old) (R.view register.new) }
    ensures in_memory { R.in_memory ≡ true → result ≢ Err WalkFault.Memory }
    ensures unwritten { result ≡ Err (WalkFault.Sink SinkFault.Write) → W.may_fail ≡ true }
{
    let Some(net) = register.paid(alloc, ccy)? else {
        return Ok(());
    };
    let held = register.held_cash(alloc, ccy)?;
    write_cash_total(alloc, &CashTotal { ccy, held, net }, writer)
}

/// Writes a line for each registered security.
fn write_securities<R: Register, W: Sink>(
    alloc: Global,
    register: &mut R,
    writer: &mut W,
) -> Result<(), WalkFault>
    requires stage { (R.view register.old).stage ≡ Stage.Idle }
    ensures read { IsRead (at_register result) (R.view register.old) (R.view register.new) }
    ensures in_memory { R.in_memory ≡ true → result ≢ Err WalkFault.Memory }
    ensures unwritten { result ≡ Err (WalkFault.Sink SinkFault.Write) → W.may_fail ≡ true }
{
    let count = register.count(alloc)?;
    let mut last = None;
    'securities: for _told in 0..count {
        let Some(isin) = register.security_after(alloc, last)? else {
            return Ok(());
        };
        write_security(alloc, register, isin, writer)?;
        last = Some(isin);
    }
    Ok(())
}

/// Writes the line of a security.
fn write_security<R: Register, W: Sink>(
    alloc: Global,
    register: &mut R,
    isin: Isin,
    writer: &mut W,
) -> Result<(), WalkFault>
    requires stage { (R.view register.old).stage ≡ Stage.Idle }
    ensures read { IsRead (at_register result) (R.view register.old) (R.view register.new) }
    ensures in_memory { R.in_memory ≡ true → result ≢ Err WalkFault.Memory }
    ensures unwritten { result ≡ Err (WalkFault.Sink SinkFault.Write) → W.may_fail ≡ true }
{
    let held = register.held(alloc, isin)?;
    let outstanding = register.outstanding(alloc, isin)?;
    let total = SecurityTotal {
        isin,
        held,
        outstanding,
    };
    write_security_total(alloc, &total, writer)
}
