//! That an entry is well formed, of any value of its type: each of its texts is a code, which has its form by its type.
ghost use Rattle.desk_codes.specs.Reference.{IsReference};
ghost use Rattle.desk_rules.specs.WellFormed.{IsWellFormed};
ghost use Rattle.desk_rules.specs.Spelt.{IsInstructionSpelt, IsMovementSpelt, IsPaymentSpelt, IsSpelt};

use crate::history::entry::{Entry, Movement, Payment};
use desk_msg::{CancelOrder, Instruction};

/// The texts of a movement are codes.
fn spelt_movement(movement: &Movement)
    ensures { IsMovementSpelt movement.now }
{
    let _reference = movement.reference.as_bytes();
    let _account = movement.account.as_bytes();
    let _isin = movement.isin.as_bytes();
}

/// The texts of a payment are codes.
fn spelt_payment(payment: &Payment)
    ensures { IsPaymentSpelt payment.now }
{
    let _reference = payment.reference.as_bytes();
    let _bic = payment.bic.as_bytes();
}

/// The texts of an instruction are codes.
fn spelt_instruction(instruction: &Instruction)
    ensures { IsInstructionSpelt instruction.now }
{
    let _reference = instruction.reference.as_bytes();
    let _day = instruction.day.write();
    let _isin = instruction.isin.as_bytes();
    let _account = instruction.account.as_bytes();
    let _settlement = instruction.settlement.as_bytes();
    let _counterparty = instruction.counterparty.as_bytes();
    let _place = instruction.place.as_bytes();
}

/// The references of a cancellation are codes.
fn spelt_cancellation(order: &CancelOrder)
    ensures reference { IsReference order.now.reference }
    ensures previous { IsReference order.now.previous }
{
    let _reference = order.reference.as_bytes();
    let _previous = order.previous.as_bytes();
}

/// The texts of an entry are codes.
fn spelt(entry: &Entry)
    ensures { IsSpelt entry.now }
{
    match entry {
        Entry::Participant { reference, bic } => {
            let _reference = reference.as_bytes();
            let _bic = bic.as_bytes();
        }
        Entry::Account {
            reference,
            bic,
            account,
        } => {
            let _reference = reference.as_bytes();
            let _bic = bic.as_bytes();
            let _account = account.as_bytes();
        }
        Entry::Security {
            reference,
            isin,
            kind: _,
        } => {
            let _reference = reference.as_bytes();
            let _isin = isin.as_bytes();
        }
        Entry::Issue(movement) | Entry::Redeem(movement) => spelt_movement(movement),
        Entry::PayIn(payment) | Entry::PayOut(payment) => spelt_payment(payment),
        Entry::Instruct {
            sender,
            instruction,
        } => {
            let _sender = sender.as_bytes();
            spelt_instruction(instruction);
        }
        Entry::Cancel { sender, order } => {
            let _sender = sender.as_bytes();
            spelt_cancellation(order);
        }
        Entry::Run {
            reference,
            day,
            rule: _,
        } => {
            let _reference = reference.as_bytes();
            let _day = day.write();
        }
    }
}

/// An entry is well formed, wherever it was taken from.
#[tactic(auto, using(crate::proofs::Readable::spelt_formed))]
pub fn well_formed(entry: &Entry)
    ensures { IsWellFormed entry.now }
{
    spelt(entry);
}
