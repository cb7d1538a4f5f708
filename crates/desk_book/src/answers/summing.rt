//! The totals of a register's currencies and securities, written row by row as they are read. It only reads.
ghost use Rattle.std.specs.Prelude.{◌≡◌, ◌∷◌, ◌++◌, List, ℕ, Bool, true, is_some, Err, IfOk, OnOk};
ghost use Rattle.desk_rules.specs.Books.{Books};
ghost use Rattle.desk_rules.specs.Content.{history_of};
ghost use Rattle.desk_rules.specs.Facts.{kind_of};
ghost use Rattle.desk_register.specs.View.{IfTrusted, IsRead};
ghost use Rattle.desk_register.specs.Ends.{at_register};
ghost use Rattle.desk_engine.specs.Applied.{Keeps};
ghost use Rattle.desk_book.specs.Answered.{IsToldSums};
ghost use Rattle.desk_book.specs.RowByRow.{IsCashText, IsSecuritiesText, WritesCurrency, WritesSecurity, WritesText, told_of_walk};
ghost use Rattle.desk_book.specs.Totals.{IsTotal, TotalsCash};
ghost use Rattle.desk_book.specs.WrittenTo.{Writes};

use crate::answers::head::Head;
use crate::answers::total::{CashTotal, SecurityTotal, write_cash_row, write_security_row};
use crate::answers::writing::write_text;
use desk_codes::{CURRENCIES, Ccy, Isin};
use desk_msg::SinkFault;
use desk_register::{Fault, Register, Stage, WalkFault};
use desk_streams::Sink;
use std::alloc::Global;

/// Writes the totals of all currencies that were paid in and of all securities, each row as soon as it is read. No row is
/// kept. With no `begin` open.
pub fn write_sums<R: Register, W: Sink>(
    alloc: Global,
    register: &mut R,
    writer: &mut W,
) -> Result<Head, WalkFault>
    requires stage { (R.view register.old).stage ≡ Stage.Idle }
    ensures written { (books : Books) → IfTrusted (R.view register.old) (R.view register.new) (Keeps (R.view register.old).room books (R.view register.old).content
        → Writes (λ reply. IsToldSums books reply books) (told_of_walk result) (W.contents writer.old) (W.contents writer.new)) }
    ensures read { IsRead (at_register result) (R.view register.old) (R.view register.new) }
    ensures unwritten { result ≡ Err (WalkFault.Sink SinkFault.Write) → W.may_fail ≡ true }
{
    write_text(writer, b"{\"cash\":[")?;
    write_currencies(alloc, register, writer)?;
    write_text(writer, b"],\"securities\":[")?;
    write_securities(alloc, register, writer)?;
    write_text(writer, b"]}")?;
    Ok(Head {
        status: 200,
        mt: None,
    })
}

/// Writes the rows of the currencies that were paid in, in the order of their letters.
fn write_currencies<R: Register, W: Sink>(
    alloc: Global,
    register: &mut R,
    writer: &mut W,
) -> Result<(), WalkFault>
    requires stage { (R.view register.old).stage ≡ Stage.Idle }
    ensures written { (books : Books) → IfTrusted (R.view register.old) (R.view register.new) (Keeps (R.view register.old).room books (R.view register.old).content
        → WritesText (IsCashText (R.view register.old).content) result (W.contents writer.old) (W.contents writer.new)) }
    ensures read { IsRead (at_register result) (R.view register.old) (R.view register.new) }
    ensures unwritten { result ≡ Err (WalkFault.Sink SinkFault.Write) → W.may_fail ≡ true }
{
    let mut is_later = false;
    'currencies: for index in 0..CURRENCIES.len() {
        is_later = write_currency(alloc, register, CURRENCIES[index], is_later, writer)?;
    }
    Ok(())
}

/// Writes the row of a currency, if any of it was paid in. Gives whether a row was written up to here.
fn write_currency<R: Register, W: Sink>(
    alloc: Global,
    register: &mut R,
    ccy: Ccy,
    is_later: bool,
    writer: &mut W,
) -> Result<bool, WalkFault>
    requires stage { (R.view register.old).stage ≡ Stage.Idle }
    ensures written { IfTrusted (R.view register.old) (R.view register.new) (WritesCurrency (R.view register.old).content ccy is_later result (W.contents writer.old) (W.contents writer.new)) }
    ensures read { IsRead (at_register result) (R.view register.old) (R.view register.new) }
    ensures unwritten { result ≡ Err (WalkFault.Sink SinkFault.Write) → W.may_fail ≡ true }
{
    let Some(total) = cash_total(alloc, register, ccy)? else {
        return Ok(is_later);
    };
    write_cash_row(writer, is_later, &total)?;
    Ok(true)
}

/// The total of a currency; None where none of it was ever paid in. It has one where all of it was paid out.
fn cash_total<R: Register>(
    alloc: Global,
    register: &mut R,
    ccy: Ccy,
) -> Result<Option<CashTotal>, Fault>
    requires stage { (R.view register.old).stage ≡ Stage.Idle }
    ensures total { IfTrusted (R.view register.old) (R.view register.new) (IfOk result (λ total. TotalsCash (R.view register.old).content ccy total)) }
    ensures read { IsRead result (R.view register.old) (R.view register.new) }
{
    let Some(net) = register.paid(alloc, ccy)? else {
        return Ok(None);
    };
    let held = register.held_cash(alloc, ccy)?;
    Ok(Some(CashTotal { ccy, held, net }))
}

/// Writes the rows of all securities, in the order of their bytes.
fn write_securities<R: Register, W: Sink>(
    alloc: Global,
    register: &mut R,
    writer: &mut W,
) -> Result<(), WalkFault>
    requires stage { (R.view register.old).stage ≡ Stage.Idle }
    ensures written { (books : Books) → IfTrusted (R.view register.old) (R.view register.new) (Keeps (R.view register.old).room books (R.view register.old).content
        → WritesText (IsSecuritiesText (R.view register.old).content) result (W.contents writer.old) (W.contents writer.new)) }
    ensures read { IsRead (at_register result) (R.view register.old) (R.view register.new) }
    ensures unwritten { result ≡ Err (WalkFault.Sink SinkFault.Write) → W.may_fail ≡ true }
{
    let count = register.count(alloc)?;
    let mut last = None;
    'securities: for _told in 0..count {
        let Some(isin) = register.security_after(alloc, last)? else {
            return Ok(());
        };
        write_security(alloc, register, isin, last.is_some(), writer)?;
        last = Some(isin);
    }
    Ok(())
}

/// Writes the row of a registered security.
fn write_security<R: Register, W: Sink>(
    alloc: Global,
    register: &mut R,
    isin: Isin,
    is_later: bool,
    writer: &mut W,
) -> Result<(), WalkFault>
    requires stage { (R.view register.old).stage ≡ Stage.Idle }
    ensures written { IfTrusted (R.view register.old) (R.view register.new) (is_some (kind_of (history_of (R.view register.old).content) isin) ≡ true
        → WritesSecurity (R.view register.old).content isin is_later result (W.contents writer.old) (W.contents writer.new)) }
    ensures read { IsRead (at_register result) (R.view register.old) (R.view register.new) }
    ensures unwritten { result ≡ Err (WalkFault.Sink SinkFault.Write) → W.may_fail ≡ true }
{
    let total = security_total(alloc, register, isin)?;
    write_security_row(writer, is_later, &total)
}

/// The total of a registered security.
fn security_total<R: Register>(
    alloc: Global,
    register: &mut R,
    isin: Isin,
) -> Result<SecurityTotal, Fault>
    requires stage { (R.view register.old).stage ≡ Stage.Idle }
    ensures isin { IfOk result (λ total. total.isin ≡ isin) }
    ensures total { IfTrusted (R.view register.old) (R.view register.new) (is_some (kind_of (history_of (R.view register.old).content) isin) ≡ true
        → IfOk result (λ total. IsTotal (R.view register.old).content total)) }
    ensures read { IsRead result (R.view register.old) (R.view register.new) }
{
    let held = register.held(alloc, isin)?;
    let outstanding = register.outstanding(alloc, isin)?;
    Ok(SecurityTotal {
        isin,
        held,
        outstanding,
    })
}
