//! The operations, each by the members that it must have and no others.
ghost use Rattle.std.specs.Prelude.{◌≡◌, ℕ, List, Some, codes, IfSome, IfNone};
ghost use Rattle.desk_codes.specs.Currency.{letters_of};
ghost use Rattle.desk_codes.specs.Reference.{IsReference};
ghost use Rattle.desk_msg.specs.declared.instruction.Kind.{Kind};
ghost use Rattle.desk_rules.specs.declared.history.entry.Movement.{Movement as MovementValue};
ghost use Rattle.desk_rules.specs.declared.history.entry.Payment.{Payment as PaymentValue};
ghost use Rattle.desk_rules.specs.declared.history.entry.Entry.TheVariants.{Participant, Account, Security, Issue, Redeem, PayIn, PayOut, Run};
ghost use Rattle.desk_rules.specs.declared.history.entry.RunRule.TheVariants.{Passes};
ghost use Rattle.desk_book.specs.Command.{IsCommand, movement_object, payment_object};
ghost use Rattle.desk_book.specs.Forms.{SpellsBic};
ghost use Rattle.desk_book.specs.Members.{text_at};
ghost use Rattle.desk_rules.specs.WellFormed.{IsMovement};

use crate::requests::member::{
    account_in, amount_in, ccy_in, day_in, isin_in, kind_in, party_in, quantity_in, reference_in,
};
use crate::requests::object::Object;
use desk_rules::{Entry, Movement, Payment, RunRule};

/// A new participant: `op`, `ref`, `bic`.
pub fn participant<O: Object>(object: &O) -> Option<Entry>
    requires { text_at (codes "op") (O.value object.now) ≡ Some (codes "participant") }
    ensures read { IfSome result (λ entry. IsCommand (O.value object.now) entry) }
    ensures refused { IfNone result ((reference bic : List ℕ)
        → ¬ IsCommand (O.value object.now) (Participant reference bic)) }
{
    if object.member_count()? != 3 {
        return None;
    }
    let reference = reference_in(object)?;
    let bic = party_in(object)?;
    Some(Entry::Participant { reference, bic })
}

/// A new account of a participant: `op`, `ref`, `bic`, `account`.
pub fn account<O: Object>(object: &O) -> Option<Entry>
    requires { text_at (codes "op") (O.value object.now) ≡ Some (codes "account") }
    ensures read { IfSome result (λ entry. IsCommand (O.value object.now) entry) }
    ensures refused { IfNone result ((reference bic account : List ℕ)
        → ¬ IsCommand (O.value object.now) (Account reference bic account)) }
{
    if object.member_count()? != 4 {
        return None;
    }
    let reference = reference_in(object)?;
    let bic = party_in(object)?;
    let account = account_in(object)?;
    Some(Entry::Account {
        reference,
        bic,
        account,
    })
}

/// A new security: `op`, `ref`, `isin`, `kind`.
pub fn security<O: Object>(object: &O) -> Option<Entry>
    requires { text_at (codes "op") (O.value object.now) ≡ Some (codes "security") }
    ensures read { IfSome result (λ entry. IsCommand (O.value object.now) entry) }
    ensures refused { IfNone result ((reference isin : List ℕ) (kind : Kind)
        → ¬ IsCommand (O.value object.now) (Security reference isin kind)) }
{
    if object.member_count()? != 4 {
        return None;
    }
    let reference = reference_in(object)?;
    let isin = isin_in(object)?;
    let kind = kind_in(object)?;
    Some(Entry::Security {
        reference,
        isin,
        kind,
    })
}

/// What is issued or redeemed: `op`, `ref`, `account`, `isin`, `quantity`.
fn movement<O: Object>(object: &O) -> Option<Movement>
    ensures read { IfSome result (λ movement. IsMovement movement) }
    ensures object { IfSome result (λ movement. (op : List ℕ) → text_at (codes "op") (O.value object.now) ≡ Some op
        → O.value object.now ≡ movement_object op movement.reference movement.account movement.isin movement.quantity) }
    ensures refused { IfNone result ((op : List ℕ) (movement : MovementValue) → IsMovement movement
        → ¬ (O.value object.now ≡ movement_object op movement.reference movement.account movement.isin movement.quantity)) }
{
    if object.member_count()? != 5 {
        return None;
    }
    let reference = reference_in(object)?;
    let account = account_in(object)?;
    let isin = isin_in(object)?;
    let quantity = quantity_in(object)?;
    Some(Movement {
        reference,
        account,
        isin,
        quantity,
    })
}

/// What is paid in or out: `op`, `ref`, `bic`, `ccy`, `amount`.
fn payment<O: Object>(object: &O) -> Option<Payment>
    ensures read { IfSome result (λ payment. IsReference payment.reference) }
    ensures object { IfSome result (λ payment. (op : List ℕ) → text_at (codes "op") (O.value object.now) ≡ Some op
        → (name : List ℕ) × SpellsBic name payment.bic
        × (O.value object.now ≡ payment_object op payment.reference name (letters_of payment.ccy) payment.amount)) }
    ensures refused { IfNone result ((op name : List ℕ) (payment : PaymentValue) → SpellsBic name payment.bic → IsReference payment.reference
        → ¬ (O.value object.now ≡ payment_object op payment.reference name (letters_of payment.ccy) payment.amount)) }
{
    if object.member_count()? != 5 {
        return None;
    }
    let reference = reference_in(object)?;
    let bic = party_in(object)?;
    let ccy = ccy_in(object)?;
    let amount = amount_in(object)?;
    Some(Payment {
        reference,
        bic,
        ccy,
        amount,
    })
}

/// A security issued to an account.
pub fn issue<O: Object>(object: &O) -> Option<Entry>
    requires { text_at (codes "op") (O.value object.now) ≡ Some (codes "issue") }
    ensures read { IfSome result (λ entry. IsCommand (O.value object.now) entry) }
    ensures refused { IfNone result ((movement : MovementValue)
        → ¬ IsCommand (O.value object.now) (Issue movement)) }
{
    let movement = movement(object)?;
    Some(Entry::Issue(movement))
}

/// A security redeemed from an account.
pub fn redeem<O: Object>(object: &O) -> Option<Entry>
    requires { text_at (codes "op") (O.value object.now) ≡ Some (codes "redeem") }
    ensures read { IfSome result (λ entry. IsCommand (O.value object.now) entry) }
    ensures refused { IfNone result ((movement : MovementValue)
        → ¬ IsCommand (O.value object.now) (Redeem movement)) }
{
    let movement = movement(object)?;
    Some(Entry::Redeem(movement))
}

/// Cash paid in by a participant.
pub fn pay_in<O: Object>(object: &O) -> Option<Entry>
    requires { text_at (codes "op") (O.value object.now) ≡ Some (codes "payin") }
    ensures read { IfSome result (λ entry. IsCommand (O.value object.now) entry) }
    ensures refused { IfNone result ((payment : PaymentValue)
        → ¬ IsCommand (O.value object.now) (PayIn payment)) }
{
    let payment = payment(object)?;
    Some(Entry::PayIn(payment))
}

/// Cash paid out to a participant.
pub fn pay_out<O: Object>(object: &O) -> Option<Entry>
    requires { text_at (codes "op") (O.value object.now) ≡ Some (codes "payout") }
    ensures read { IfSome result (λ entry. IsCommand (O.value object.now) entry) }
    ensures refused { IfNone result ((payment : PaymentValue)
        → ¬ IsCommand (O.value object.now) (PayOut payment)) }
{
    let payment = payment(object)?;
    Some(Entry::PayOut(payment))
}

/// A settlement run in passes: `op`, `ref`, `day`.
pub fn run<O: Object>(object: &O) -> Option<Entry>
    requires { text_at (codes "op") (O.value object.now) ≡ Some (codes "run") }
    ensures read { IfSome result (λ entry. IsCommand (O.value object.now) entry) }
    ensures refused { IfNone result ((reference day : List ℕ)
        → ¬ IsCommand (O.value object.now) (Run reference day Passes)) }
{
    if object.member_count()? != 3 {
        return None;
    }
    let reference = reference_in(object)?;
    let day = day_in(object)?;
    Some(Entry::Run {
        reference,
        day,
        rule: RunRule::Passes,
    })
}
