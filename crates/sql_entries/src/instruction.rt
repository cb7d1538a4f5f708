//! The instruction that a shown row says.
ghost use Rattle.std.specs.Prelude.{◌≡◌, ◌≤◌, ◌<◌, ℕ, Option, IfOk, IfErr, IsOk, true, length, pos, nat_le};
ghost use Rattle.sqlite.specs.declared.error.ErrorCode.TheVariants.{OutOfMemory};
ghost use Rattle.sqlite_value.specs.Order.{column};
ghost use Rattle.sqlite_value.specs.declared.value.Value.TheVariants.{Int};
ghost use Rattle.desk_codes.specs.Number.{written_number};
ghost use Rattle.desk_msg.specs.MessageType.{is_instruction, number_of_type};
ghost use Rattle.desk_msg.specs.declared.instruction.Cash.{Cash as Amount};
ghost use Rattle.desk_msg.specs.declared.instruction.Instruction.{Instruction as Said};
ghost use Rattle.desk_msg.specs.declared.mt.Mt.{Mt as MessageType};
ghost use Rattle.sql_tables.specs.Ends.{IsCorrupt};
ghost use Rattle.sql_entries.specs.Unread.{IsUnread};
ghost use Rattle.sql_entries.specs.Reading.{SaysCash, SaysInstruction};
ghost use Rattle.desk_rules.specs.Spelt.{IsInstructionSpelt};

use crate::places::{
    ACCOUNT, AMOUNT, BIC, CURRENCY, DAY, ISIN, MT, PLACE, QUANTITY, REFERENCE, SETTLEMENT, UNIT,
};
use desk_codes::write_number;
use desk_msg::{Cash, Instruction, Mt};
use sql_tables::rows::{
    account_at, bic_at, currency_at, day_at, isin_at, kind_at, mt_at, number_at, reference_at,
    settlement_at, text_at,
};
use sql_tables::values::CORRUPT;
use sqlite::{Error, ErrorCode, Row};
use std::alloc::Global;

/// The longest number, in characters, the comma counted.
const LONGEST: usize = 15;

/// Whether a number that is no 0, in minor units, is written in as many characters as a message has for one.
fn is_short(alloc: Global, value: u64, decimals: usize) -> Result<bool, Error>
    requires { decimals ≤ 3 }
    ensures value { IfOk result (λ short. short ≡ nat_le (length (written_number value decimals)) 15) }
    ensures err { IfErr result (λ e. e ≡ Error.SqliteFailure OutOfMemory) }
{
    match write_number(alloc, value, decimals) {
        Ok(text) => Ok(text.len() <= LONGEST),
        Err(_) => Err(Error::SqliteFailure(ErrorCode::OutOfMemory)),
    }
}

/// The type of an instruction.
pub(crate) fn type_in(row: &Row) -> Result<Mt, Error>
    ensures says { IfOk result (λ mt. column row.now MT ≡ Int (pos (number_of_type mt))) }
    ensures instructs { IfOk result (λ mt. is_instruction mt ≡ true) }
    ensures all { (mt : MessageType) → 15 < length row.now → column row.now MT ≡ Int (pos (number_of_type mt)) → is_instruction mt ≡ true → IsOk result }
    ensures fails { 15 < length row.now → IfErr result IsCorrupt }
{
    let mt = mt_at(row, MT)?;
    if !mt.is_instruction() {
        return Err(CORRUPT);
    }
    Ok(mt)
}

/// A settlement amount; None where there is none.
fn cash_in(alloc: Global, row: &Row) -> Result<Option<Cash>, Error>
    ensures says { IfOk result (λ cash. SaysCash row.now cash) }
    ensures all { (cash : Option Amount) → 15 < length row.now → SaysCash row.now cash → IfErr result (λ e. e ≡ Error.SqliteFailure OutOfMemory) }
    ensures fails { 15 < length row.now → IfErr result IsUnread }
{
    if text_at(row, CURRENCY)?.is_empty() {
        return Ok(None);
    }
    let ccy = currency_at(row, CURRENCY)?;
    let amount = number_at(row, AMOUNT)?;
    if amount == 0 || !is_short(alloc, amount, ccy.decimals())? {
        return Err(CORRUPT);
    }
    Ok(Some(Cash { ccy, amount }))
}

/// A quantity of an instruction.
fn quantity_in(alloc: Global, row: &Row) -> Result<u64, Error>
    ensures says { IfOk result (λ quantity. column row.now QUANTITY ≡ Int (pos quantity)) }
    ensures some { IfOk result (λ quantity. 0 < quantity) }
    ensures short { IfOk result (λ quantity. length (written_number quantity 0) ≤ 15) }
    ensures all { (q : ℕ) → 15 < length row.now → column row.now QUANTITY ≡ Int (pos q) → 0 < q → length (written_number q 0) ≤ 15 → IfErr result (λ e. e ≡ Error.SqliteFailure OutOfMemory) }
    ensures fails { 15 < length row.now → IfErr result IsUnread }
{
    let quantity = number_at(row, QUANTITY)?;
    if quantity == 0 || !is_short(alloc, quantity, 0)? {
        return Err(CORRUPT);
    }
    Ok(quantity)
}

/// The instruction.
pub(crate) fn instruction_in(alloc: Global, row: &Row) -> Result<Instruction, Error>
    ensures says { IfOk result (λ instruction. SaysInstruction row.now instruction) }
    ensures all { (i : Said) → 15 < length row.now → SaysInstruction row.now i → IsInstructionSpelt i → IfErr result (λ e. e ≡ Error.SqliteFailure OutOfMemory) }
    ensures fails { 15 < length row.now → IfErr result IsUnread }
{
    let mt = type_in(row)?;
    let cash = cash_in(alloc, row)?;
    if cash.is_some() != mt.is_against_payment() {
        return Err(CORRUPT);
    }
    Ok(Instruction {
        mt,
        reference: reference_at(row, REFERENCE)?,
        day: day_at(row, DAY)?,
        isin: isin_at(row, ISIN)?,
        kind: kind_at(row, UNIT)?,
        quantity: quantity_in(alloc, row)?,
        account: account_at(row, ACCOUNT)?,
        settlement: settlement_at(row, SETTLEMENT)?,
        counterparty: bic_at(row, BIC)?,
        place: bic_at(row, PLACE)?,
        cash,
    })
}
