//! Why an entry whose key is new is refused: the first check that fails.
ghost use Rattle.std.specs.Prelude.{◌≡◌, ◌+◌, nat_lt, not, is_some, List, [], ◌∷◌, IfOk, bytes_eq, option_map, true, IsOk};
ghost use Rattle.desk_codes.specs.Number.{number_of};
ghost use Rattle.desk_register.specs.Looked.{IsPaid};
ghost use Rattle.desk_register.specs.View.{IsRead};
ghost use Rattle.desk_rules.specs.Balances.{paid_in, paid_out};
ghost use Rattle.desk_register.specs.Checked.{checks_in, first_refusal, is_cancelled_state, is_settled_state};
ghost use Rattle.desk_engine.specs.Decision.{Reading};
ghost use Rattle.desk_msg.specs.Depository.{desk_bic};
ghost use Rattle.desk_rules.specs.Content.{history_of};
ghost use Rattle.desk_rules.specs.Verdict.{check};
ghost use Rattle.desk_rules.specs.Facts.{is_after, is_of_kind, is_owner, is_participant, kind_of, last_run, owner_of};

use crate::naming::instruction_named;
use desk_codes::{AccountId, Bic, Day, Isin};
use desk_msg::{CancelOrder, DESK_BIC, Instruction, Kind};
use desk_register::{Fault, Register};
use desk_rules::{Entry, MOST_PAID, MOST_QUANTITY, Movement, Payment, Refusal, Standing, State};
use std::alloc::Global;

fn is_of_kind(kind: Kind, found: Option<Kind>) -> bool
    ensures { result ≡ is_of_kind kind found }
{
    match (kind, found) {
        (Kind::Unit, Some(Kind::Unit)) | (Kind::FaceAmount, Some(Kind::FaceAmount)) => true,
        _ => false,
    }
}

fn is_owner(bic: &Bic, owner: Option<Bic>) -> bool
    ensures { result ≡ is_owner bic.now owner }
{
    match owner {
        Some(owner) => owner == *bic,
        None => false,
    }
}

fn is_desk(place: &Bic) -> bool
    ensures { result ≡ bytes_eq place.now desk_bic }
{
    place.as_bytes() == DESK_BIC
}

/// Whether a day is before that of the last run.
fn goes_back(last: Option<Day>, day: Day) -> bool
    ensures { result ≡ is_after (option_map number_of last) (number_of day) }
{
    match last {
        Some(last) => day.yyyymmdd() < last.yyyymmdd(),
        None => false,
    }
}

/// Why a participant is refused.
fn refuse_participant<R: Register>(
    alloc: Global,
    register: &mut R,
    bic: Bic,
) -> Result<Option<Refusal>, Fault>
    ensures value { Reading (R.view register.old) (R.view register.new) (λ c. IfOk result (λ r.
        r ≡ first_refusal (check (is_participant (history_of c) bic) Refusal.Exists ∷ []))) }
    ensures read { IsRead result (R.view register.old) (R.view register.new) }
    ensures in_memory { R.in_memory ≡ true → IsOk result }
{
    if register.participant(alloc, bic)? {
        return Ok(Some(Refusal::Exists));
    }
    Ok(None)
}

/// Why an account is refused.
fn refuse_account<R: Register>(
    alloc: Global,
    register: &mut R,
    bic: Bic,
    account: AccountId,
) -> Result<Option<Refusal>, Fault>
    ensures value { Reading (R.view register.old) (R.view register.new) (λ c. IfOk result (λ r.
        r ≡ first_refusal (check (is_some (owner_of (history_of c) account)) Refusal.Exists ∷ check (not (is_participant (history_of c) bic)) Refusal.ParticipantUnknown ∷ []))) }
    ensures read { IsRead result (R.view register.old) (R.view register.new) }
    ensures in_memory { R.in_memory ≡ true → IsOk result }
{
    if register.owner(alloc, account)?.is_some() {
        return Ok(Some(Refusal::Exists));
    }
    if register.participant(alloc, bic)? {
        return Ok(None);
    }
    Ok(Some(Refusal::ParticipantUnknown))
}

/// Why a security is refused.
fn refuse_security<R: Register>(
    alloc: Global,
    register: &mut R,
    isin: Isin,
) -> Result<Option<Refusal>, Fault>
    ensures value { Reading (R.view register.old) (R.view register.new) (λ c. IfOk result (λ r.
        r ≡ first_refusal (check (is_some (kind_of (history_of c) isin)) Refusal.Exists ∷ []))) }
    ensures read { IsRead result (R.view register.old) (R.view register.new) }
    ensures in_memory { R.in_memory ≡ true → IsOk result }
{
    if register.security(alloc, isin)?.is_some() {
        return Ok(Some(Refusal::Exists));
    }
    Ok(None)
}

/// Why an issue is refused.
fn refuse_issue<R: Register>(
    alloc: Global,
    register: &mut R,
    movement: &Movement,
) -> Result<Option<Refusal>, Fault>
    ensures value { Reading (R.view register.old) (R.view register.new) (λ c. IfOk result (λ r.
        r ≡ first_refusal (checks_in c (Entry.Issue movement.now)))) }
    ensures read { IsRead result (R.view register.old) (R.view register.new) }
    ensures in_memory { R.in_memory ≡ true → IsOk result }
{
    if register.owner(alloc, movement.account)?.is_none() {
        return Ok(Some(Refusal::AccountUnknown));
    }
    if register.security(alloc, movement.isin)?.is_none() {
        return Ok(Some(Refusal::SecurityUnknown));
    }
    if register.outstanding(alloc, movement.isin)? > MOST_QUANTITY - movement.quantity {
        return Ok(Some(Refusal::OverLimit));
    }
    Ok(None)
}

/// Why a redemption is refused.
fn refuse_redemption<R: Register>(
    alloc: Global,
    register: &mut R,
    movement: &Movement,
) -> Result<Option<Refusal>, Fault>
    ensures value { Reading (R.view register.old) (R.view register.new) (λ c. IfOk result (λ r.
        r ≡ first_refusal (checks_in c (Entry.Redeem movement.now)))) }
    ensures read { IsRead result (R.view register.old) (R.view register.new) }
    ensures in_memory { R.in_memory ≡ true → IsOk result }
{
    if register.owner(alloc, movement.account)?.is_none() {
        return Ok(Some(Refusal::AccountUnknown));
    }
    if register.security(alloc, movement.isin)?.is_none() {
        return Ok(Some(Refusal::SecurityUnknown));
    }
    if register.position(alloc, movement.account, movement.isin)? < movement.quantity {
        return Ok(Some(Refusal::NotEnough));
    }
    Ok(None)
}

/// Whether a payment would take what is paid in of its currency, less what is paid out, over the limit.
fn is_over_limit(payment: &Payment, paid: Option<u64>) -> bool
    ensures { (history : List Entry) → IsPaid history payment.now.ccy paid
        → result ≡ nat_lt (paid_out history payment.now.ccy + MOST_PAID) (paid_in history payment.now.ccy + payment.now.amount) }
{
    match paid {
        Some(paid) => paid > MOST_PAID - payment.amount,
        None => false,
    }
}

/// Why a pay in is refused.
fn refuse_pay_in<R: Register>(
    alloc: Global,
    register: &mut R,
    payment: &Payment,
) -> Result<Option<Refusal>, Fault>
    ensures value { Reading (R.view register.old) (R.view register.new) (λ c. IfOk result (λ r.
        r ≡ first_refusal (checks_in c (Entry.PayIn payment.now)))) }
    ensures read { IsRead result (R.view register.old) (R.view register.new) }
    ensures in_memory { R.in_memory ≡ true → IsOk result }
{
    if !register.participant(alloc, payment.bic)? {
        return Ok(Some(Refusal::ParticipantUnknown));
    }
    let paid = register.paid(alloc, payment.ccy)?;
    if is_over_limit(payment, paid) {
        return Ok(Some(Refusal::OverLimit));
    }
    Ok(None)
}

/// Why a pay out is refused.
fn refuse_pay_out<R: Register>(
    alloc: Global,
    register: &mut R,
    payment: &Payment,
) -> Result<Option<Refusal>, Fault>
    ensures value { Reading (R.view register.old) (R.view register.new) (λ c. IfOk result (λ r.
        r ≡ first_refusal (checks_in c (Entry.PayOut payment.now)))) }
    ensures read { IsRead result (R.view register.old) (R.view register.new) }
    ensures in_memory { R.in_memory ≡ true → IsOk result }
{
    if !register.participant(alloc, payment.bic)? {
        return Ok(Some(Refusal::ParticipantUnknown));
    }
    if register.cash(alloc, payment.bic, payment.ccy)? < payment.amount {
        return Ok(Some(Refusal::NotEnough));
    }
    Ok(None)
}

/// Why an instruction of a participant is refused.
fn refuse_instruction<R: Register>(
    alloc: Global,
    register: &mut R,
    sender: &Bic,
    instruction: &Instruction,
) -> Result<Option<Refusal>, Fault>
    ensures value { Reading (R.view register.old) (R.view register.new) (λ c. IfOk result (λ r.
        r ≡ first_refusal (checks_in c (Entry.Instruct sender.now instruction.now)))) }
    ensures read { IsRead result (R.view register.old) (R.view register.new) }
    ensures in_memory { R.in_memory ≡ true → IsOk result }
{
    if !is_desk(&instruction.place) {
        return Ok(Some(Refusal::PlaceNotUs));
    }
    let kind = register.security(alloc, instruction.isin)?;
    if kind.is_none() {
        return Ok(Some(Refusal::UnknownSecurity));
    }
    if !is_of_kind(instruction.kind, kind) {
        return Ok(Some(Refusal::KindDiffers));
    }
    if !is_owner(sender, register.owner(alloc, instruction.account)?) {
        return Ok(Some(Refusal::AccountNotSenders));
    }
    if !register.participant(alloc, instruction.counterparty)? {
        return Ok(Some(Refusal::CounterpartyUnknown));
    }
    Ok(None)
}

/// Why the cancellation is refused of an instruction that stands so.
fn refuse_by_standing(standing: &Standing) -> Option<Refusal>
    ensures { result ≡ first_refusal (check (is_cancelled_state standing.now.state) Refusal.AlreadyCancelled
        ∷ check (is_settled_state standing.now.state) Refusal.AlreadySettled ∷ check standing.now.cancel_requested Refusal.CancellationWaits ∷ []) }
{
    match standing.state {
        State::Cancelled => Some(Refusal::AlreadyCancelled),
        State::Settled => Some(Refusal::AlreadySettled),
        _ if standing.cancel_requested => Some(Refusal::CancellationWaits),
        _ => None,
    }
}

/// Why a cancellation is refused.
fn refuse_cancellation<R: Register>(
    alloc: Global,
    register: &mut R,
    sender: &Bic,
    order: &CancelOrder,
) -> Result<Option<Refusal>, Fault>
    ensures value { Reading (R.view register.old) (R.view register.new) (λ c. IfOk result (λ r.
        r ≡ first_refusal (checks_in c (Entry.Cancel sender.now order.now)))) }
    ensures read { IsRead result (R.view register.old) (R.view register.new) }
    ensures in_memory { R.in_memory ≡ true → IsOk result }
{
    let Some(number) = instruction_named(alloc, register, sender, order)? else {
        return Ok(Some(Refusal::NoSuchInstruction));
    };
    let standing = register.standing(alloc, number)?;
    Ok(refuse_by_standing(&standing))
}

/// Why a run is refused.
fn refuse_run<R: Register>(
    alloc: Global,
    register: &mut R,
    day: Day,
) -> Result<Option<Refusal>, Fault>
    ensures value { Reading (R.view register.old) (R.view register.new) (λ c. IfOk result (λ r.
        r ≡ first_refusal (check (is_after (last_run (history_of c)) (number_of day)) Refusal.DayGoesBack ∷ []))) }
    ensures read { IsRead result (R.view register.old) (R.view register.new) }
    ensures in_memory { R.in_memory ≡ true → IsOk result }
{
    let last = register.last_run(alloc)?;
    if goes_back(last, day) {
        return Ok(Some(Refusal::DayGoesBack));
    }
    Ok(None)
}

/// Why an entry whose key is new is refused, were there room for it.
pub fn refuse<R: Register>(
    alloc: Global,
    register: &mut R,
    entry: &Entry,
) -> Result<Option<Refusal>, Fault>
    ensures value { Reading (R.view register.old) (R.view register.new) (λ c. IfOk result (λ r. r ≡ first_refusal (checks_in c entry.now))) }
    ensures read { IsRead result (R.view register.old) (R.view register.new) }
    ensures in_memory { R.in_memory ≡ true → IsOk result }
{
    match entry {
        Entry::Participant { bic, .. } => refuse_participant(alloc, register, *bic),
        Entry::Account { bic, account, .. } => refuse_account(alloc, register, *bic, *account),
        Entry::Security { isin, .. } => refuse_security(alloc, register, *isin),
        Entry::Issue(movement) => refuse_issue(alloc, register, movement),
        Entry::Redeem(movement) => refuse_redemption(alloc, register, movement),
        Entry::PayIn(payment) => refuse_pay_in(alloc, register, payment),
        Entry::PayOut(payment) => refuse_pay_out(alloc, register, payment),
        Entry::Instruct {
            sender,
            instruction,
        } => refuse_instruction(alloc, register, sender, instruction),
        Entry::Cancel { sender, order } => refuse_cancellation(alloc, register, sender, order),
        Entry::Run { day, .. } => refuse_run(alloc, register, *day),
    }
}
