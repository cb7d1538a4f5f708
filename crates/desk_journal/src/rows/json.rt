//! Rows as JSON.
ghost use Rattle.std.specs.Prelude.{◌≡◌, map, IfOk, string_bytes};
ghost use Rattle.serde_json.specs.Data.{array, string};
ghost use Rattle.serde_json.specs.View.{view, items_of};
ghost use Rattle.serde_json.specs.Written.{compact_text};
ghost use Rattle.desk_report.specs.RowData.{or_null};
ghost use Rattle.desk_journal.specs.JournalData.{account_data, cancel_data, command_data, instruct_data, journal_data, key_data, movement_data, order_data, outcome_data, participant_data, payment_data, run_data, security_data, sender_data, state_data};

use crate::rows::journal::{JournalRow, MessageKey, Outcome};
use desk_codes::{AccountId, Bic, Day, Isin};
use desk_msg::{CancelOrder, Instruction, Kind, Reason};
use desk_report::{Object, amount_value, ccy_value, optional_number, reason_code};
use desk_rules::{Entry, Movement, Payment, Sender};
use serde_json::Value;
use std::alloc::{AllocError, Global};

/// A day, or null where there is none.
fn optional_day(alloc: Global, day: Option<Day>) -> Result<Value, AllocError>
    ensures { IfOk result (λ value. view value ≡ or_null string day) }
{
    match day {
        Some(day) => Value::try_from_str(alloc, day.as_str()),
        None => Ok(Value::Null),
    }
}

/// The sender of an entry; null for the operator.
fn sender_value(alloc: Global, sender: &Sender) -> Result<Value, AllocError>
    ensures { IfOk result (λ value. view value ≡ sender_data sender.now) }
{
    match sender {
        Sender::Operator => Ok(Value::Null),
        Sender::Participant(bic) => Value::try_from_str(alloc, bic.as_str()),
    }
}

/// A security issued to an account, or redeemed from it.
fn movement_value(alloc: Global, op: &str, movement: &Movement) -> Result<Value, AllocError>
    ensures { IfOk result (λ value. view value ≡ movement_data op.now movement.now) }
{
    let object = Object::new(alloc)
        .text("account", movement.account.as_str())?
        .text("isin", movement.isin.as_str())?
        .text("op", op)?
        .number("quantity", movement.quantity)?;
    Ok(object.into_value())
}

/// Cash paid in, or paid out.
fn payment_value(alloc: Global, op: &str, payment: &Payment) -> Result<Value, AllocError>
    ensures { IfOk result (λ value. view value ≡ payment_data op.now payment.now) }
{
    let object = Object::new(alloc)
        .number("amount", payment.amount)?
        .text("bic", payment.bic.as_str())?
        .text("ccy", payment.ccy.as_str())?
        .text("op", op)?;
    Ok(object.into_value())
}

/// An instruction of a participant.
fn instruct_value(alloc: Global, instruction: &Instruction) -> Result<Value, AllocError>
    ensures { IfOk result (λ value. view value ≡ instruct_data instruction.now) }
{
    let object = Object::new(alloc)
        .text("account", instruction.account.as_str())?
        .with("amount", Ok(amount_value(instruction.cash)))?
        .with("ccy", ccy_value(alloc, instruction.cash))?
        .text("counterparty", instruction.counterparty.as_str())?
        .text("day", instruction.day.as_str())?
        .text("isin", instruction.isin.as_str())?
        .text("kind", instruction.kind.as_str())?
        .number("mt", u64::from(instruction.mt.number()))?
        .text("op", "instruct")?
        .number("quantity", instruction.quantity)?;
    Ok(object.into_value())
}

/// A participant that is registered.
fn participant_value(alloc: Global, bic: &Bic) -> Result<Value, AllocError>
    ensures { IfOk result (λ value. view value ≡ participant_data bic.now) }
{
    let object = Object::new(alloc)
        .text("bic", bic.as_str())?
        .text("op", "participant")?;
    Ok(object.into_value())
}

/// An account that is registered.
fn account_value(alloc: Global, bic: &Bic, account: &AccountId) -> Result<Value, AllocError>
    ensures { IfOk result (λ value. view value ≡ account_data bic.now account.now) }
{
    let object = Object::new(alloc)
        .text("account", account.as_str())?
        .text("bic", bic.as_str())?
        .text("op", "account")?;
    Ok(object.into_value())
}

/// A security that is registered.
fn security_value(alloc: Global, isin: &Isin, kind: Kind) -> Result<Value, AllocError>
    ensures { IfOk result (λ value. view value ≡ security_data isin.now kind) }
{
    let object = Object::new(alloc)
        .text("isin", isin.as_str())?
        .text("kind", kind.as_str())?
        .text("op", "security")?;
    Ok(object.into_value())
}

/// A participant's order to cancel.
fn order_value(alloc: Global, order: &CancelOrder) -> Result<Value, AllocError>
    ensures { IfOk result (λ value. view value ≡ order_data order.now) }
{
    let object = Object::new(alloc)
        .number("mt", u64::from(order.mt.number()))?
        .text("op", "cancel")?
        .text("previous", order.previous.as_str())?;
    Ok(object.into_value())
}

/// A run.
fn run_value(alloc: Global, day: &Day) -> Result<Value, AllocError>
    ensures { IfOk result (λ value. view value ≡ run_data day.now) }
{
    let object = Object::new(alloc)
        .text("day", day.as_str())?
        .text("op", "run")?;
    Ok(object.into_value())
}

/// What an entry asks for.
fn command_value(alloc: Global, entry: &Entry) -> Result<Value, AllocError>
    ensures { IfOk result (λ value. view value ≡ command_data entry.now) }
{
    match entry {
        Entry::Participant { bic, .. } => participant_value(alloc, bic),
        Entry::Account { bic, account, .. } => account_value(alloc, bic, account),
        Entry::Security { isin, kind, .. } => security_value(alloc, isin, *kind),
        Entry::Issue(movement) => movement_value(alloc, "issue", movement),
        Entry::Redeem(movement) => movement_value(alloc, "redeem", movement),
        Entry::PayIn(payment) => payment_value(alloc, "payin", payment),
        Entry::PayOut(payment) => payment_value(alloc, "payout", payment),
        Entry::Instruct { instruction, .. } => instruct_value(alloc, instruction),
        Entry::Cancel { order, .. } => order_value(alloc, order),
        Entry::Run { day, .. } => run_value(alloc, day),
    }
}

/// How a settled instruction fares: the run that settled it, and its mate.
fn settled_value(
    alloc: Global,
    mate: Option<u64>,
    run: Option<u64>,
    day: Option<Day>,
) -> Result<Value, AllocError>
    ensures { IfOk result (λ value. view value ≡ outcome_data (Outcome.Settled mate run day)) }
{
    let object = Object::new(alloc)
        .with("day", optional_day(alloc, day))?
        .with("entry", Ok(optional_number(run)))?
        .with("mate", Ok(optional_number(mate)))?
        .text("state", "settled")?;
    Ok(object.into_value())
}

/// How a cancellation fares.
fn cancel_value(alloc: Global, instruction: Option<u64>, state: &str) -> Result<Value, AllocError>
    ensures { IfOk result (λ value. view value ≡ cancel_data instruction state.now) }
{
    let object = Object::new(alloc)
        .with("instruction", Ok(optional_number(instruction)))?
        .text("state", state)?;
    Ok(object.into_value())
}

/// How what has no more to tell than its state fares.
fn state_value(alloc: Global, state: &str) -> Result<Value, AllocError>
    ensures { IfOk result (λ value. view value ≡ state_data state.now) }
{
    let object = Object::new(alloc).text("state", state)?;
    Ok(object.into_value())
}

/// How a matched instruction fares: its mate, and why the pair waits.
fn matched_value(alloc: Global, mate: Option<u64>, reason: Reason) -> Result<Value, AllocError>
    ensures { IfOk result (λ value. view value ≡ outcome_data (Outcome.Matched mate reason)) }
{
    let object = Object::new(alloc)
        .with("mate", Ok(optional_number(mate)))?
        .text("reason", reason_code(reason))?
        .text("state", "matched")?;
    Ok(object.into_value())
}

/// How a cancelled instruction fares.
fn cancelled_value(alloc: Global, mate: Option<u64>) -> Result<Value, AllocError>
    ensures { IfOk result (λ value. view value ≡ outcome_data (Outcome.Cancelled mate)) }
{
    let object = Object::new(alloc)
        .with("mate", Ok(optional_number(mate)))?
        .text("state", "cancelled")?;
    Ok(object.into_value())
}

/// What a run did.
fn ran_value(alloc: Global, settled: u64, waiting: u64) -> Result<Value, AllocError>
    ensures { IfOk result (λ value. view value ≡ outcome_data (Outcome.Ran settled waiting)) }
{
    let object = Object::new(alloc)
        .number("settled", settled)?
        .text("state", "ran")?
        .number("waiting", waiting)?;
    Ok(object.into_value())
}

/// How an entry fares by now.
fn outcome_value(alloc: Global, outcome: &Outcome) -> Result<Value, AllocError>
    ensures { IfOk result (λ value. view value ≡ outcome_data outcome.now) }
{
    match outcome {
        Outcome::Booked => state_value(alloc, "booked"),
        Outcome::Unmatched => state_value(alloc, "unmatched"),
        Outcome::Matched { mate, reason } => matched_value(alloc, *mate, *reason),
        Outcome::Settled { mate, run, day } => settled_value(alloc, *mate, *run, *day),
        Outcome::Cancelled { mate } => cancelled_value(alloc, *mate),
        Outcome::CancelDone { instruction } => cancel_value(alloc, *instruction, "done"),
        Outcome::CancelWaits { instruction } => cancel_value(alloc, *instruction, "waits"),
        Outcome::CancelLate { instruction } => cancel_value(alloc, *instruction, "late"),
        Outcome::Ran { settled, waiting } => ran_value(alloc, *settled, *waiting),
    }
}

/// A message that was sent.
fn key_value(alloc: Global, key: &MessageKey) -> Result<Value, AllocError>
    ensures { IfOk result (λ value. view value ≡ key_data key.now) }
{
    let object = Object::new(alloc)
        .text("bic", key.bic.as_str())?
        .number("mt", u64::from(key.mt))?
        .number("number", key.number)?;
    Ok(object.into_value())
}

/// The messages that were sent because of an entry.
fn keys_value(alloc: Global, messages: &[MessageKey]) -> Result<Value, AllocError>
    ensures { IfOk result (λ value. view value ≡ array (items_of (map key_data messages.now))) }
{
    let mut keys = Vec::new(alloc);
    for message in messages {
        keys.push(key_value(alloc, message)?)?;
    }
    Ok(Value::Array(keys))
}

/// An accepted entry, how it fares by now, and the messages that were sent because of it.
fn journal_value(
    alloc: Global,
    row: &JournalRow,
    messages: &[MessageKey],
) -> Result<Value, AllocError>
    ensures { IfOk result (λ value. view value ≡ journal_data row.now messages.now) }
{
    let reference = row.entry.reference();
    let sender = row.entry.sender();
    let object = Object::new(alloc)
        .with("command", command_value(alloc, &row.entry))?
        .with("messages", keys_value(alloc, messages))?
        .number("number", row.number)?
        .with("outcome", outcome_value(alloc, &row.outcome))?
        .text("ref", reference.as_str())?
        .with("sender", sender_value(alloc, &sender))?;
    Ok(object.into_value())
}

/// An accepted entry, how it fares by now, and the messages that were sent because of it, as text.
#[tactic(auto, using(crate::proofs::NumberLemmas::row_known))]
pub fn journal_json(
    alloc: Global,
    row: &JournalRow,
    messages: &[MessageKey],
) -> Result<String, AllocError>
    ensures { IfOk result (λ text. string_bytes text ≡ compact_text (journal_data row.now messages.now)) }
{
    journal_value(alloc, row, messages)?.to_string(alloc)
}
