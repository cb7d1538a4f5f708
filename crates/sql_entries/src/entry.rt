//! The entry that a shown row says.
ghost use Rattle.std.specs.Prelude.{◌≡◌, ◌≢◌, ◌<◌, length, IfOk, IsOk};
ghost use Rattle.sqlite_value.specs.Order.{column};
ghost use Rattle.sqlite_value.specs.declared.value.Value.TheVariants.{Int, Text as Words};
ghost use Rattle.std.specs.Prelude.{pos};
ghost use Rattle.std.specs.Prelude.{ℕ, List, IfErr};
ghost use Rattle.sqlite.specs.declared.error.ErrorCode.TheVariants.{OutOfMemory};
ghost use Rattle.desk_msg.specs.declared.instruction.CancelOrder.{CancelOrder as Order};
ghost use Rattle.desk_msg.specs.declared.instruction.Kind.{Kind as QuantityType};
ghost use Rattle.desk_rules.specs.declared.history.entry.Entry.{Entry as AnyEntry};
ghost use Rattle.desk_rules.specs.declared.history.entry.Entry.TheVariants.{Participant, Account, Security, Cancel, Run};
ghost use Rattle.desk_rules.specs.declared.history.entry.Movement.{Movement as Moved};
ghost use Rattle.desk_rules.specs.declared.history.entry.Payment.{Payment as Paid};
ghost use Rattle.desk_rules.specs.declared.history.entry.RunRule.{RunRule as Rule};
ghost use Rattle.sql_entries.specs.Columns.{kind_number, number_of_rule};
ghost use Rattle.sql_tables.specs.Ends.{IsCorrupt};
ghost use Rattle.sql_entries.specs.Unread.{IsUnread};
ghost use Rattle.sql_entries.specs.Reading.{Says, SaysMovement, SaysOf, SaysPayment, SaysRun};
ghost use Rattle.desk_rules.specs.Spelt.{IsMovementSpelt, IsPaymentSpelt, IsSpelt};

use crate::instruction::{instruction_in, type_in};
use crate::kind;
use crate::places::{
    ACCOUNT, AMOUNT, BIC, CURRENCY, DAY, ISIN, KIND, PREVIOUS, QUANTITY, REFERENCE, RULE, SENDER,
    UNIT,
};
use desk_msg::CancelOrder;
use desk_rules::{Entry, MOST_PAID, MOST_QUANTITY, Movement, Payment, RunRule};
use sql_tables::rows::{
    account_at, bic_at, currency_at, day_at, isin_at, kind_at, number_at, reference_at,
};
use sql_tables::values::CORRUPT;
use sqlite::{Error, Row};
use std::alloc::Global;

/// Of an issue or a redemption.
fn movement_in(row: &Row) -> Result<Movement, Error>
    ensures says { IfOk result (λ movement. SaysMovement row.now movement) }
    ensures all { (m : Moved) → 15 < length row.now → SaysMovement row.now m → IsMovementSpelt m → IsOk result }
    ensures fails { 15 < length row.now → IfErr result IsCorrupt }
{
    let quantity = number_at(row, QUANTITY)?;
    if quantity == 0 || quantity > MOST_QUANTITY {
        return Err(CORRUPT);
    }
    Ok(Movement {
        reference: reference_at(row, REFERENCE)?,
        account: account_at(row, ACCOUNT)?,
        isin: isin_at(row, ISIN)?,
        quantity,
    })
}

/// Of a pay in or a pay out.
fn payment_in(row: &Row) -> Result<Payment, Error>
    ensures says { IfOk result (λ payment. SaysPayment row.now payment) }
    ensures all { (p : Paid) → 15 < length row.now → SaysPayment row.now p → IsPaymentSpelt p → IsOk result }
    ensures fails { 15 < length row.now → IfErr result IsCorrupt }
{
    let amount = number_at(row, AMOUNT)?;
    if amount == 0 || amount > MOST_PAID {
        return Err(CORRUPT);
    }
    Ok(Payment {
        reference: reference_at(row, REFERENCE)?,
        bic: bic_at(row, BIC)?,
        ccy: currency_at(row, CURRENCY)?,
        amount,
    })
}

fn participant_in(row: &Row) -> Result<Entry, Error>
    ensures says { IfOk result (λ entry. SaysOf 1 row.now entry) }
    ensures all { (reference bic : List ℕ) → 15 < length row.now → Says row.now (Participant reference bic) → IsSpelt (Participant reference bic) → IsOk result }
    ensures fails { 15 < length row.now → IfErr result IsCorrupt }
{
    Ok(Entry::Participant {
        reference: reference_at(row, REFERENCE)?,
        bic: bic_at(row, BIC)?,
    })
}

fn account_in(row: &Row) -> Result<Entry, Error>
    ensures says { IfOk result (λ entry. SaysOf 2 row.now entry) }
    ensures all { (reference bic account : List ℕ) → 15 < length row.now → Says row.now (Account reference bic account) → IsSpelt (Account reference bic account) → IsOk result }
    ensures fails { 15 < length row.now → IfErr result IsCorrupt }
{
    Ok(Entry::Account {
        reference: reference_at(row, REFERENCE)?,
        bic: bic_at(row, BIC)?,
        account: account_at(row, ACCOUNT)?,
    })
}

fn security_in(row: &Row) -> Result<Entry, Error>
    ensures says { IfOk result (λ entry. SaysOf 3 row.now entry) }
    ensures all { (reference isin : List ℕ) (kind : QuantityType) → 15 < length row.now → Says row.now (Security reference isin kind) → IsSpelt (Security reference isin kind) → IsOk result }
    ensures fails { 15 < length row.now → IfErr result IsCorrupt }
{
    Ok(Entry::Security {
        reference: reference_at(row, REFERENCE)?,
        isin: isin_at(row, ISIN)?,
        kind: kind_at(row, UNIT)?,
    })
}

fn cancellation_in(row: &Row) -> Result<Entry, Error>
    ensures says { IfOk result (λ entry. SaysOf 9 row.now entry) }
    ensures all { (sender : List ℕ) (order : Order) → 15 < length row.now → Says row.now (Cancel sender order) → IsSpelt (Cancel sender order) → IsOk result }
    ensures fails { 15 < length row.now → IfErr result IsCorrupt }
{
    Ok(Entry::Cancel {
        sender: bic_at(row, SENDER)?,
        order: CancelOrder {
            mt: type_in(row)?,
            reference: reference_at(row, REFERENCE)?,
            previous: reference_at(row, PREVIOUS)?,
        },
    })
}

fn rule_in(row: &Row) -> Result<RunRule, Error>
    ensures value { IfOk result (λ rule. column row.now RULE ≡ Int (pos (number_of_rule rule))) }
    ensures all { (rule : Rule) → RULE < length row.now → column row.now RULE ≡ Int (pos (number_of_rule rule)) → IsOk result }
    ensures fails { RULE < length row.now → IfErr result IsCorrupt }
{
    match number_at(row, RULE)? {
        1 => Ok(RunRule::OnePass),
        2 => Ok(RunRule::Passes),
        _ => Err(CORRUPT),
    }
}

/// A run of this rule, which a row says by other columns than its reference and its day.
pub(crate) fn run_of(row: &Row, rule: RunRule) -> Result<Entry, Error>
    ensures says { IfOk result (λ entry. SaysRun row.now rule entry) }
    ensures all { (reference day : List ℕ) → 15 < length row.now → column row.now REFERENCE ≡ Words reference → column row.now DAY ≡ Words day → IsSpelt (Run reference day rule) → IsOk result }
    ensures fails { 15 < length row.now → IfErr result IsCorrupt }
{
    Ok(Entry::Run {
        reference: reference_at(row, REFERENCE)?,
        day: day_at(row, DAY)?,
        rule,
    })
}

fn run_in(row: &Row) -> Result<Entry, Error>
    ensures says { IfOk result (λ entry. SaysOf 10 row.now entry) }
    ensures all { (reference day : List ℕ) (rule : Rule) → 15 < length row.now → Says row.now (Run reference day rule) → IsSpelt (Run reference day rule) → IsOk result }
    ensures fails { 15 < length row.now → IfErr result IsCorrupt }
{
    run_of(row, rule_in(row)?)
}

/// The entry of the operator's.
fn command_in(row: &Row, kind: u64) -> Result<Entry, Error>
    ensures says { IfOk result (λ entry. SaysOf kind row.now entry) }
    ensures all { (entry : AnyEntry) → kind ≢ 8 → kind ≢ 9 → 15 < length row.now → SaysOf kind row.now entry → IsSpelt entry → IsOk result }
    ensures fails { 15 < length row.now → IfErr result IsCorrupt }
{
    match kind {
        kind::PARTICIPANT => participant_in(row),
        kind::ACCOUNT => account_in(row),
        kind::SECURITY => security_in(row),
        kind::ISSUE => Ok(Entry::Issue(movement_in(row)?)),
        kind::REDEMPTION => Ok(Entry::Redeem(movement_in(row)?)),
        kind::PAY_IN => Ok(Entry::PayIn(payment_in(row)?)),
        kind::PAY_OUT => Ok(Entry::PayOut(payment_in(row)?)),
        kind::RUN => run_in(row),
        _ => Err(CORRUPT),
    }
}

/// The entry that a shown row says, in its first sixteen columns. What says none is told as a damaged database.
pub fn entry_in(alloc: Global, row: &Row) -> Result<Entry, Error>
    ensures kind { IfOk result (λ entry. column row.now KIND ≡ Int (pos (kind_number entry))) }
    ensures says { IfOk result (λ entry. Says row.now entry) }
    ensures all { (entry : AnyEntry) → 15 < length row.now → column row.now KIND ≡ Int (pos (kind_number entry)) → Says row.now entry → IsSpelt entry → IfErr result (λ e. e ≡ Error.SqliteFailure OutOfMemory) }
    ensures fails { 15 < length row.now → IfErr result IsUnread }
{
    match number_at(row, KIND)? {
        kind::INSTRUCTION => Ok(Entry::Instruct {
            sender: bic_at(row, SENDER)?,
            instruction: instruction_in(alloc, row)?,
        }),
        kind::CANCELLATION => cancellation_in(row),
        other => command_in(row, other),
    }
}
