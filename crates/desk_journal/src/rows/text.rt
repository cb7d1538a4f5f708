//! Rows as lines of aligned text, for people.
ghost use Rattle.std.specs.Prelude.{◌≤◌};

use crate::rows::journal::{JournalRow, MessageKey, Outcome};
use desk_codes::{Day, NumberText};
use desk_msg::{Cash, Instruction, Reason};
use desk_report::reason_code;
use desk_rules::{Entry, Movement, Payment, Sender};
use std::alloc::{AllocError, Global};

/// A number as messages spell it.
fn number_text(alloc: Global, value: u64, decimals: usize) -> Result<String, AllocError>
    requires { decimals ≤ 3 }
{
    let number = NumberText::of(value, decimals);
    let digits = std::str::from_utf8(number.as_bytes()).unwrap_or("");
    String::from_str(alloc, digits)
}

/// The number of an entry, or that there is none.
fn entry_text(alloc: Global, number: Option<u64>) -> Result<String, AllocError> {
    match number {
        Some(number) => format!(in alloc; "{}", number),
        None => String::from_str(alloc, "none"),
    }
}

/// A day, or that there is none.
fn day_text(alloc: Global, day: Option<Day>) -> Result<String, AllocError> {
    match day {
        Some(day) => String::from_str(alloc, day.as_str()),
        None => String::from_str(alloc, "none"),
    }
}

/// Who sent an entry.
fn sender_text(alloc: Global, sender: Sender) -> Result<String, AllocError> {
    match sender {
        Sender::Operator => String::from_str(alloc, "operator"),
        Sender::Participant(bic) => String::from_str(alloc, bic.as_str()),
    }
}

/// What is paid, or that nothing is.
fn cash_text(alloc: Global, cash: Option<Cash>) -> Result<String, AllocError> {
    let Some(cash) = cash else {
        return String::from_str(alloc, "free of payment");
    };
    let amount = number_text(alloc, cash.amount, cash.ccy.decimals())?;
    format!(in alloc; "for {} {}", cash.ccy.as_str(), amount.as_str())
}

/// A security issued to an account, or redeemed from it.
fn movement_text(
    alloc: Global,
    does: &str,
    towards: &str,
    movement: &Movement,
) -> Result<String, AllocError> {
    let quantity = number_text(alloc, movement.quantity, 0)?;
    format!(in alloc;
        "{} {} {} {} {}",
        does,
        quantity.as_str(),
        movement.isin.as_str(),
        towards,
        movement.account.as_str()
    )
}

/// Cash paid in, or paid out.
fn payment_text(
    alloc: Global,
    does: &str,
    towards: &str,
    payment: &Payment,
) -> Result<String, AllocError> {
    let amount = number_text(alloc, payment.amount, payment.ccy.decimals())?;
    format!(in alloc;
        "{} {} {} {} {}",
        does,
        payment.ccy.as_str(),
        amount.as_str(),
        towards,
        payment.bic.as_str()
    )
}

/// What an instruction moves, between whom, and what is paid for it.
fn instruct_text(alloc: Global, instruction: &Instruction) -> Result<String, AllocError> {
    let is_delivery = instruction.mt.is_delivery();
    let does = if is_delivery { "delivers" } else { "receives" };
    let own = if is_delivery { "from" } else { "to" };
    let other = if is_delivery { "to" } else { "from" };
    let quantity = number_text(alloc, instruction.quantity, 0)?;
    let cash = cash_text(alloc, instruction.cash)?;
    let moved = format!(in alloc;
        "MT{} {} {} {} {}",
        instruction.mt.as_str(),
        does,
        instruction.kind.as_str(),
        quantity.as_str(),
        instruction.isin.as_str()
    )?;
    format!(in alloc;
        "{} {} {} {} {} on {}, {}",
        moved.as_str(),
        own,
        instruction.account.as_str(),
        other,
        instruction.counterparty.as_str(),
        instruction.day.as_str(),
        cash.as_str()
    )
}

/// What an entry asks for.
fn command_text(alloc: Global, entry: &Entry) -> Result<String, AllocError> {
    match entry {
        Entry::Participant { bic, .. } => format!(in alloc; "participant {}", bic.as_str()),
        Entry::Account { bic, account, .. } => format!(in alloc;
            "account {} of {}",
            account.as_str(),
            bic.as_str()
        ),
        Entry::Security { isin, kind, .. } => format!(in alloc;
            "security {} {}",
            isin.as_str(),
            kind.as_str()
        ),
        Entry::Issue(movement) => movement_text(alloc, "issue", "to", movement),
        Entry::Redeem(movement) => movement_text(alloc, "redeem", "from", movement),
        Entry::PayIn(payment) => payment_text(alloc, "pay in", "to", payment),
        Entry::PayOut(payment) => payment_text(alloc, "pay out", "from", payment),
        Entry::Instruct { instruction, .. } => instruct_text(alloc, instruction),
        Entry::Cancel { order, .. } => format!(in alloc;
            "MT{} cancels {}",
            order.mt.as_str(),
            order.previous.as_str()
        ),
        Entry::Run { day, .. } => format!(in alloc; "settlement run {}", day.as_str()),
    }
}

/// How a matched instruction fares that waits.
fn matched_text(alloc: Global, mate: Option<u64>, reason: Reason) -> Result<String, AllocError> {
    let mate = entry_text(alloc, mate)?;
    format!(in alloc; "matched with {}, {}", mate.as_str(), reason_code(reason))
}

/// How a settled instruction fares.
fn settled_text(
    alloc: Global,
    mate: Option<u64>,
    run: Option<u64>,
    day: Option<Day>,
) -> Result<String, AllocError> {
    let mate = entry_text(alloc, mate)?;
    let run = entry_text(alloc, run)?;
    let day = day_text(alloc, day)?;
    format!(in alloc;
        "settled {} in entry {}, matched with {}",
        day.as_str(),
        run.as_str(),
        mate.as_str()
    )
}

/// How a cancelled instruction fares.
fn cancelled_text(alloc: Global, mate: Option<u64>) -> Result<String, AllocError> {
    match mate {
        Some(mate) => format!(in alloc; "cancelled, matched with {}", mate),
        None => String::from_str(alloc, "cancelled"),
    }
}

/// How a cancellation fares: words, the number of its instruction, and words behind it.
fn cancel_text(
    alloc: Global,
    front: &str,
    instruction: Option<u64>,
    behind: &str,
) -> Result<String, AllocError> {
    let instruction = entry_text(alloc, instruction)?;
    format!(in alloc; "{} {}{}", front, instruction.as_str(), behind)
}

/// How an entry fares by now.
fn outcome_text(alloc: Global, outcome: &Outcome) -> Result<String, AllocError> {
    match outcome {
        Outcome::Booked => String::from_str(alloc, "booked"),
        Outcome::Unmatched => String::from_str(alloc, "unmatched"),
        Outcome::Matched { mate, reason } => matched_text(alloc, *mate, *reason),
        Outcome::Settled { mate, run, day } => settled_text(alloc, *mate, *run, *day),
        Outcome::Cancelled { mate } => cancelled_text(alloc, *mate),
        Outcome::CancelDone { instruction } => {
            cancel_text(alloc, "entry", *instruction, " is cancelled")
        }
        Outcome::CancelWaits { instruction } => cancel_text(
            alloc,
            "waits for the other side of entry",
            *instruction,
            "",
        ),
        Outcome::CancelLate { instruction } => {
            cancel_text(alloc, "entry", *instruction, " was settled")
        }
        Outcome::Ran { settled, waiting } => format!(in alloc;
            "settled {} waiting {}",
            *settled, *waiting
        ),
    }
}

/// The line of a message that was sent.
fn key_text(alloc: Global, key: &MessageKey) -> Result<String, AllocError> {
    format!(in alloc;
        "            {} to {:<11}  number {}\n",
        key.mt,
        key.bic.as_str(),
        key.number
    )
}

/// An accepted entry: who sent it, what it asks for and how it fares by now; and a line for each message that was sent because
/// of it.
pub fn journal_text(
    alloc: Global,
    row: &JournalRow,
    messages: &[MessageKey],
) -> Result<String, AllocError> {
    let sender = sender_text(alloc, row.entry.sender())?;
    let reference = row.entry.reference();
    let command = command_text(alloc, &row.entry)?;
    let outcome = outcome_text(alloc, &row.outcome)?;
    let mut lines = format!(in alloc;
        "{:>10}  {:<11}  {:<16}  {}: {}\n",
        row.number,
        sender.as_str(),
        reference.as_str(),
        command.as_str(),
        outcome.as_str()
    )?;
    for message in messages {
        let line = key_text(alloc, message)?;
        lines.push_str(line.as_str())?;
    }
    Ok(lines)
}
