//! What a register has, beside what is recorded: key by key, and entry by entry.
ghost use Rattle.std.specs.Prelude.{◌≡◌, ◌≤◌, length, All, IsTrue, IfOk};
ghost use Rattle.desk_rules.specs.Content.{history_of};
ghost use Rattle.desk_register.specs.View.{IfTrusted};
ghost use Rattle.sql_rows.specs.Amounts.{AreAmounts};
ghost use Rattle.sql_tables.specs.Calls.{Soundly, tables};
ghost use Rattle.sql_tables.specs.Audits.{Audits, AuditsForCause, Consults};
ghost use Rattle.sql_rows.specs.Recorded.{AreAllRecorded, AreHoldingsRecorded, IsCashRecorded, IsEntryRecorded, IsNumberRecorded, IsPaidRecorded, IsRecorded, SaysAll};

use crate::amounts::calls::amount;
use crate::amounts::compared::said::is_said;
use crate::amounts::key::AmountKey;
use desk_codes::{AccountId, Bic, CURRENCIES, Ccy};
use desk_register::{Register, Stage};
use desk_rules::{Entry, Movement};
use sql_tables::fault::AuditFault;
use sql_tables::session::Session;
use std::alloc::Global;

/// Whether what a register has under a key is recorded.
fn is_recorded<S: Session, R: Register>(
    alloc: Global,
    conn: &mut S,
    register: &mut R,
    key: &AmountKey,
) -> Result<bool, AuditFault>
    requires stage { (R.view register.old).stage ≡ Stage.Idle }
    ensures says { Soundly S.state conn.old conn.new (IfTrusted (R.view register.old) (R.view register.new) (AreAmounts (tables S.state conn.old)
        → IfOk result (λ so. IsTrue so → IsRecorded (tables S.state conn.old) (R.view register.old).content key.now))) }
    ensures exact { Soundly S.state conn.old conn.new (IfTrusted (R.view register.old) (R.view register.new)
        (SaysAll (tables S.state conn.old) (R.view register.old).content → IfOk result (λ so. IsTrue so))) }
    ensures look { Audits S.state conn.old conn.new result }
    ensures blame { Soundly S.state conn.old conn.new (AreAmounts (tables S.state conn.old) → AuditsForCause S.state conn.old conn.new result) }
    ensures read { Consults result (R.view register.old) (R.view register.new) }
{
    let recorded = amount(conn, key)?;
    let so = is_said(alloc, register, key, recorded)?;
    Ok(so)
}

/// Whether so it is of all that an account holds. Of more securities than there are entries it can hold none.
fn are_holdings_recorded<S: Session, R: Register>(
    alloc: Global,
    conn: &mut S,
    register: &mut R,
    account: AccountId,
    count: u64,
) -> Result<bool, AuditFault>
    requires stage { (R.view register.old).stage ≡ Stage.Idle }
    ensures says { Soundly S.state conn.old conn.new (IfTrusted (R.view register.old) (R.view register.new) (AreAmounts (tables S.state conn.old)
        → IfOk result (λ so. IsTrue so → AreHoldingsRecorded (tables S.state conn.old) (R.view register.old).content account))) }
    ensures exact { Soundly S.state conn.old conn.new (IfTrusted (R.view register.old) (R.view register.new)
        (SaysAll (tables S.state conn.old) (R.view register.old).content → length (history_of (R.view register.old).content) ≤ count → IfOk result (λ so. IsTrue so))) }
    ensures look { Audits S.state conn.old conn.new result }
    ensures blame { Soundly S.state conn.old conn.new (AreAmounts (tables S.state conn.old) → AuditsForCause S.state conn.old conn.new result) }
    ensures read { Consults result (R.view register.old) (R.view register.new) }
{
    let mut last = None;
    for _told in 0..count {
        let Some(holding) = register.holding_after(alloc, account, last)? else {
            return Ok(true);
        };
        if !is_recorded(
            alloc,
            conn,
            register,
            &AmountKey::Balance(account, holding.isin),
        )? {
            return Ok(false);
        }
        last = Some(holding.isin);
    }
    let beyond = register.holding_after(alloc, account, last)?;
    Ok(beyond.is_none())
}

/// Whether so it is of what a participant has of each of some currencies.
fn are_cash_recorded<S: Session, R: Register>(
    alloc: Global,
    conn: &mut S,
    register: &mut R,
    bic: Bic,
    ccys: &[Ccy],
) -> Result<bool, AuditFault>
    requires stage { (R.view register.old).stage ≡ Stage.Idle }
    ensures says { Soundly S.state conn.old conn.new (IfTrusted (R.view register.old) (R.view register.new) (AreAmounts (tables S.state conn.old)
        → IfOk result (λ so. IsTrue so → All (λ ccy. IsRecorded (tables S.state conn.old) (R.view register.old).content (AmountKey.Cash bic ccy)) ccys.now))) }
    ensures exact { Soundly S.state conn.old conn.new (IfTrusted (R.view register.old) (R.view register.new)
        (SaysAll (tables S.state conn.old) (R.view register.old).content → IfOk result (λ so. IsTrue so))) }
    ensures look { Audits S.state conn.old conn.new result }
    ensures blame { Soundly S.state conn.old conn.new (AreAmounts (tables S.state conn.old) → AuditsForCause S.state conn.old conn.new result) }
    ensures read { Consults result (R.view register.old) (R.view register.new) }
{
    for ccy in ccys {
        if !is_recorded(alloc, conn, register, &AmountKey::Cash(bic, *ccy))? {
            return Ok(false);
        }
    }
    Ok(true)
}

/// Whether so it is of what a participant has of each currency.
#[tactic(auto, using(crate::proofs::AmountWalkLemmas::each_cash))]
fn is_cash_recorded<S: Session, R: Register>(
    alloc: Global,
    conn: &mut S,
    register: &mut R,
    bic: Bic,
) -> Result<bool, AuditFault>
    requires stage { (R.view register.old).stage ≡ Stage.Idle }
    ensures says { Soundly S.state conn.old conn.new (IfTrusted (R.view register.old) (R.view register.new) (AreAmounts (tables S.state conn.old)
        → IfOk result (λ so. IsTrue so → IsCashRecorded (tables S.state conn.old) (R.view register.old).content bic))) }
    ensures exact { Soundly S.state conn.old conn.new (IfTrusted (R.view register.old) (R.view register.new)
        (SaysAll (tables S.state conn.old) (R.view register.old).content → IfOk result (λ so. IsTrue so))) }
    ensures look { Audits S.state conn.old conn.new result }
    ensures blame { Soundly S.state conn.old conn.new (AreAmounts (tables S.state conn.old) → AuditsForCause S.state conn.old conn.new result) }
    ensures read { Consults result (R.view register.old) (R.view register.new) }
{
    are_cash_recorded(alloc, conn, register, bic, &CURRENCIES)
}

/// Whether so it is of what is paid in of each of some currencies.
fn are_paid_recorded<S: Session, R: Register>(
    alloc: Global,
    conn: &mut S,
    register: &mut R,
    ccys: &[Ccy],
) -> Result<bool, AuditFault>
    requires stage { (R.view register.old).stage ≡ Stage.Idle }
    ensures says { Soundly S.state conn.old conn.new (IfTrusted (R.view register.old) (R.view register.new) (AreAmounts (tables S.state conn.old)
        → IfOk result (λ so. IsTrue so → All (λ ccy. IsRecorded (tables S.state conn.old) (R.view register.old).content (AmountKey.Currency ccy)) ccys.now))) }
    ensures exact { Soundly S.state conn.old conn.new (IfTrusted (R.view register.old) (R.view register.new)
        (SaysAll (tables S.state conn.old) (R.view register.old).content → IfOk result (λ so. IsTrue so))) }
    ensures look { Audits S.state conn.old conn.new result }
    ensures blame { Soundly S.state conn.old conn.new (AreAmounts (tables S.state conn.old) → AuditsForCause S.state conn.old conn.new result) }
    ensures read { Consults result (R.view register.old) (R.view register.new) }
{
    for ccy in ccys {
        if !is_recorded(alloc, conn, register, &AmountKey::Currency(*ccy))? {
            return Ok(false);
        }
    }
    Ok(true)
}

/// Whether so it is of what is paid in of each currency.
#[tactic(auto, using(crate::proofs::AmountWalkLemmas::each_paid))]
pub fn is_paid_recorded<S: Session, R: Register>(
    alloc: Global,
    conn: &mut S,
    register: &mut R,
) -> Result<bool, AuditFault>
    requires stage { (R.view register.old).stage ≡ Stage.Idle }
    ensures says { Soundly S.state conn.old conn.new (IfTrusted (R.view register.old) (R.view register.new) (AreAmounts (tables S.state conn.old)
        → IfOk result (λ so. IsTrue so → IsPaidRecorded (tables S.state conn.old) (R.view register.old).content))) }
    ensures exact { Soundly S.state conn.old conn.new (IfTrusted (R.view register.old) (R.view register.new)
        (SaysAll (tables S.state conn.old) (R.view register.old).content → IfOk result (λ so. IsTrue so))) }
    ensures look { Audits S.state conn.old conn.new result }
    ensures blame { Soundly S.state conn.old conn.new (AreAmounts (tables S.state conn.old) → AuditsForCause S.state conn.old conn.new result) }
    ensures read { Consults result (R.view register.old) (R.view register.new) }
{
    are_paid_recorded(alloc, conn, register, &CURRENCIES)
}

/// Whether so it is of what is outstanding of the security that is moved.
fn is_outstanding_recorded<S: Session, R: Register>(
    alloc: Global,
    conn: &mut S,
    register: &mut R,
    movement: &Movement,
) -> Result<bool, AuditFault>
    requires stage { (R.view register.old).stage ≡ Stage.Idle }
    ensures says { Soundly S.state conn.old conn.new (IfTrusted (R.view register.old) (R.view register.new) (AreAmounts (tables S.state conn.old)
        → IfOk result (λ so. IsTrue so → IsRecorded (tables S.state conn.old) (R.view register.old).content (AmountKey.Security movement.now.isin)))) }
    ensures exact { Soundly S.state conn.old conn.new (IfTrusted (R.view register.old) (R.view register.new)
        (SaysAll (tables S.state conn.old) (R.view register.old).content → IfOk result (λ so. IsTrue so))) }
    ensures look { Audits S.state conn.old conn.new result }
    ensures blame { Soundly S.state conn.old conn.new (AreAmounts (tables S.state conn.old) → AuditsForCause S.state conn.old conn.new result) }
    ensures read { Consults result (R.view register.old) (R.view register.new) }
{
    is_recorded(alloc, conn, register, &AmountKey::Security(movement.isin))
}

/// Whether so it is of what an entry registers, issues or redeems.
fn is_entry_recorded<S: Session, R: Register>(
    alloc: Global,
    conn: &mut S,
    register: &mut R,
    entry: &Entry,
    count: u64,
) -> Result<bool, AuditFault>
    requires stage { (R.view register.old).stage ≡ Stage.Idle }
    ensures says { Soundly S.state conn.old conn.new (IfTrusted (R.view register.old) (R.view register.new) (AreAmounts (tables S.state conn.old)
        → IfOk result (λ so. IsTrue so → IsEntryRecorded (tables S.state conn.old) (R.view register.old).content entry.now))) }
    ensures exact { Soundly S.state conn.old conn.new (IfTrusted (R.view register.old) (R.view register.new)
        (SaysAll (tables S.state conn.old) (R.view register.old).content → length (history_of (R.view register.old).content) ≤ count → IfOk result (λ so. IsTrue so))) }
    ensures look { Audits S.state conn.old conn.new result }
    ensures blame { Soundly S.state conn.old conn.new (AreAmounts (tables S.state conn.old) → AuditsForCause S.state conn.old conn.new result) }
    ensures read { Consults result (R.view register.old) (R.view register.new) }
{
    match entry {
        Entry::Participant { bic, .. } => is_cash_recorded(alloc, conn, register, *bic),
        Entry::Account { account, .. } => {
            are_holdings_recorded(alloc, conn, register, *account, count)
        }
        Entry::Issue(movement) => is_outstanding_recorded(alloc, conn, register, movement),
        Entry::Redeem(movement) => is_outstanding_recorded(alloc, conn, register, movement),
        _ => Ok(true),
    }
}

/// Whether so it is of the entry of a number.
fn is_number_recorded<S: Session, R: Register>(
    alloc: Global,
    conn: &mut S,
    register: &mut R,
    number: u64,
    count: u64,
) -> Result<bool, AuditFault>
    requires stage { (R.view register.old).stage ≡ Stage.Idle }
    ensures says { Soundly S.state conn.old conn.new (IfTrusted (R.view register.old) (R.view register.new) (AreAmounts (tables S.state conn.old)
        → IfOk result (λ so. IsTrue so → IsNumberRecorded (tables S.state conn.old) (R.view register.old).content number))) }
    ensures exact { Soundly S.state conn.old conn.new (IfTrusted (R.view register.old) (R.view register.new)
        (SaysAll (tables S.state conn.old) (R.view register.old).content → length (history_of (R.view register.old).content) ≤ count → IfOk result (λ so. IsTrue so))) }
    ensures look { Audits S.state conn.old conn.new result }
    ensures blame { Soundly S.state conn.old conn.new (AreAmounts (tables S.state conn.old) → AuditsForCause S.state conn.old conn.new result) }
    ensures read { Consults result (R.view register.old) (R.view register.new) }
{
    let entry = register.entry(alloc, number)?;
    match entry.as_ref() {
        Some(entry) => is_entry_recorded(alloc, conn, register, entry, count),
        None => Ok(true),
    }
}

/// Whether so it is of all entries.
#[tactic(auto, using(crate::proofs::AmountWalkLemmas::all_first))]
pub fn are_entries_recorded<S: Session, R: Register>(
    alloc: Global,
    conn: &mut S,
    register: &mut R,
) -> Result<bool, AuditFault>
    requires stage { (R.view register.old).stage ≡ Stage.Idle }
    ensures says { Soundly S.state conn.old conn.new (IfTrusted (R.view register.old) (R.view register.new) (AreAmounts (tables S.state conn.old)
        → IfOk result (λ so. IsTrue so → AreAllRecorded (tables S.state conn.old) (R.view register.old).content))) }
    ensures exact { Soundly S.state conn.old conn.new (IfTrusted (R.view register.old) (R.view register.new)
        (SaysAll (tables S.state conn.old) (R.view register.old).content → IfOk result (λ so. IsTrue so))) }
    ensures look { Audits S.state conn.old conn.new result }
    ensures blame { Soundly S.state conn.old conn.new (AreAmounts (tables S.state conn.old) → AuditsForCause S.state conn.old conn.new result) }
    ensures read { Consults result (R.view register.old) (R.view register.new) }
{
    let count = register.count(alloc)?;
    for before in 0..count {
        if !is_number_recorded(alloc, conn, register, before + 1, count)? {
            return Ok(false);
        }
    }
    Ok(true)
}
