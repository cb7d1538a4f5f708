//! The row of a pair that waits.
ghost use Rattle.std.specs.Prelude.{◌≡◌, ◌≢◌, true, Err, IfOk};
ghost use Rattle.desk_register.specs.View.{IfTrusted, IsRead};
ghost use Rattle.desk_report.specs.Pending.{IsPendingRow, cash_lacking, lacking_of, securities_lacking};
ghost use Rattle.desk_report.specs.PendingReading.{IsWaitingPair, row_with, side_with};

use crate::pending::pair::{Leg, WaitingPair, waiting_pair};
use crate::rows::pending::{PendingPair, Side};
use desk_msg::Reason;
use desk_register::{Fault, Register, Stage};
use desk_rules::{Instructed, Place};
use std::alloc::Global;

/// How much of the security is lacking on the deliverer's account.
fn securities_lacking<R: Register>(
    alloc: Global,
    register: &mut R,
    delivery: &Instructed,
) -> Result<u64, Fault>
    requires stage { (R.view register.old).stage ≡ Stage.Idle }
    ensures value { IfTrusted (R.view register.old) (R.view register.new) (IfOk result (λ lacking. lacking ≡ securities_lacking (R.view register.old).content delivery.now)) }
    ensures read { IsRead result (R.view register.old) (R.view register.new) }
    ensures in_memory { R.in_memory ≡ true → result ≢ Err Fault.Memory }
{
    let instruction = &delivery.instruction;
    let held = register.position(alloc, instruction.account, instruction.isin)?;
    Ok(instruction.quantity.saturating_sub(held))
}

/// How much cash the receiver has too little of, in minor units.
fn cash_lacking<R: Register>(
    alloc: Global,
    register: &mut R,
    receipt: &Instructed,
) -> Result<u64, Fault>
    requires stage { (R.view register.old).stage ≡ Stage.Idle }
    ensures value { IfTrusted (R.view register.old) (R.view register.new) (IfOk result (λ lacking. lacking ≡ cash_lacking (R.view register.old).content receipt.now.sender receipt.now.instruction.cash)) }
    ensures read { IsRead result (R.view register.old) (R.view register.new) }
    ensures in_memory { R.in_memory ≡ true → result ≢ Err Fault.Memory }
{
    let Some(cash) = receipt.instruction.cash else {
        return Ok(0);
    };
    let held = register.cash(alloc, receipt.sender, cash.ccy)?;
    Ok(cash.amount.saturating_sub(held))
}

/// How much is lacking now of what the last try found too little of; None where no run has tried the pair.
fn lacking_now<R: Register>(
    alloc: Global,
    register: &mut R,
    reason: Reason,
    delivery: &Instructed,
    receipt: &Instructed,
) -> Result<Option<u64>, Fault>
    requires stage { (R.view register.old).stage ≡ Stage.Idle }
    ensures value { IfTrusted (R.view register.old) (R.view register.new) (IfOk result (λ lacking. lacking ≡ lacking_of (R.view register.old).content reason delivery.now receipt.now)) }
    ensures read { IsRead result (R.view register.old) (R.view register.new) }
    ensures in_memory { R.in_memory ≡ true → result ≢ Err Fault.Memory }
{
    match reason {
        Reason::Future => Ok(None),
        Reason::Lack => Ok(Some(securities_lacking(alloc, register, delivery)?)),
        Reason::Money => Ok(Some(cash_lacking(alloc, register, receipt)?)),
    }
}

/// A side of a row.
fn side_of(leg: &Leg) -> Side
    ensures { result ≡ side_with leg.now }
{
    Side {
        number: leg.number,
        bic: leg.instructed.sender,
        reference: leg.instructed.instruction.reference,
        account: leg.instructed.instruction.account,
        is_cancel_requested: leg.standing.cancel_requested,
    }
}

/// The row of a pair, of which so much is lacking.
fn row_of(pair: &WaitingPair, lacking: Option<u64>) -> PendingPair
    ensures { result ≡ row_with pair.now lacking }
{
    let terms = &pair.later.instruction;
    PendingPair {
        day: terms.day,
        reason: pair.reason,
        lacking,
        isin: terms.isin,
        kind: terms.kind,
        quantity: terms.quantity,
        cash: terms.cash,
        deliverer: side_of(&pair.deliverer),
        receiver: side_of(&pair.receiver),
    }
}

/// The row of the matched pair of a place.
pub fn pending_pair<R: Register>(
    alloc: Global,
    register: &mut R,
    place: Place,
) -> Result<PendingPair, Fault>
    requires stage { (R.view register.old).stage ≡ Stage.Idle }
    requires known { IfTrusted (R.view register.old) (R.view register.old) (IsWaitingPair (R.view register.old).content place) }
    ensures value { IfTrusted (R.view register.old) (R.view register.new) (IfOk result (λ row. IsPendingRow (R.view register.old).content place row)) }
    ensures read { IsRead result (R.view register.old) (R.view register.new) }
    ensures in_memory { R.in_memory ≡ true → result ≢ Err Fault.Memory }
{
    let pair = waiting_pair(alloc, register, place)?;
    let lacking = lacking_now(
        alloc,
        register,
        pair.reason,
        &pair.deliverer.instructed,
        &pair.receiver.instructed,
    )?;
    Ok(row_of(&pair, lacking))
}
