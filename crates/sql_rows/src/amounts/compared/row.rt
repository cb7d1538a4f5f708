//! A row that is shown, beside what a register has.
ghost use Rattle.std.specs.Prelude.{◌≡◌, ◌<◌, ◌^◌, ℕ, List, Some, pos, codes, length, All, IsTrue, IfOk, IfSome, IsSome};
ghost use Rattle.sqlite.specs.Order.{column};
ghost use Rattle.sqlite.specs.declared.types.Value.TheVariants.{Int, Text as Words};
ghost use Rattle.desk_codes.specs.Account.{IsAccount};
ghost use Rattle.desk_codes.specs.Bic.{IsBic};
ghost use Rattle.desk_codes.specs.CheckDigit.{IsIsin};
ghost use Rattle.desk_codes.specs.Currency.{letters_of};
ghost use Rattle.desk_codes.specs.declared.currency.Ccy.{Ccy};
ghost use Rattle.desk_register.specs.View.{IfTrusted, IsRead};
ghost use Rattle.sql_rows.specs.declared.amounts.key.AmountKey.{AmountKey as Key};
ghost use Rattle.sql_rows.specs.Said.{IsReadable};
ghost use Rattle.sql_rows.specs.Shown.{ShowsKey, ShowsReadable, ShowsTrue};

use crate::amounts::compared::said::is_said;
use crate::amounts::key::{AmountKey, Ledger};
use desk_register::{Fault, Register, Stage};
use sql_tables::rows::{account_at, bic_at, currency_at, isin_at, text_at};
use sqlite::Row;
use sqlite::types::ValueRef;
use std::alloc::Global;

/// The account and the security that a row shows.
fn balance_key(row: &Row) -> Option<AmountKey>
    ensures shows { IfSome result (ShowsKey Ledger.Balance row.now) }
    ensures all { (account isin : List ℕ) → 1 < length row.now → column row.now 0 ≡ Words account → column row.now 1 ≡ Words isin → IsAccount account → IsIsin isin → IsSome result }
{
    match (account_at(row, 0), isin_at(row, 1)) {
        (Ok(account), Ok(isin)) => Some(AmountKey::Balance(account, isin)),
        _ => None,
    }
}

/// The participant and the currency that a row shows.
fn cash_key(row: &Row) -> Option<AmountKey>
    ensures shows { IfSome result (ShowsKey Ledger.Cash row.now) }
    ensures all { (bic : List ℕ) (ccy : Ccy) → 1 < length row.now → column row.now 0 ≡ Words bic → column row.now 1 ≡ Words (letters_of ccy) → IsBic bic → IsSome result }
{
    match (bic_at(row, 0), currency_at(row, 1)) {
        (Ok(bic), Ok(ccy)) => Some(AmountKey::Cash(bic, ccy)),
        _ => None,
    }
}

/// The security that a row of the totals shows.
fn security_key(row: &Row) -> Option<AmountKey>
    requires { column row.now 0 ≡ Words (codes "security") }
    ensures shows { IfSome result (ShowsKey Ledger.Total row.now) }
    ensures all { (isin : List ℕ) → 1 < length row.now → column row.now 1 ≡ Words isin → IsIsin isin → IsSome result }
{
    match isin_at(row, 1) {
        Ok(isin) => Some(AmountKey::Security(isin)),
        Err(_) => None,
    }
}

/// The currency that a row of the totals shows.
fn currency_key(row: &Row) -> Option<AmountKey>
    requires { column row.now 0 ≡ Words (codes "currency") }
    ensures shows { IfSome result (ShowsKey Ledger.Total row.now) }
    ensures all { (ccy : Ccy) → 1 < length row.now → column row.now 1 ≡ Words (letters_of ccy) → IsSome result }
{
    match currency_at(row, 1) {
        Ok(ccy) => Some(AmountKey::Currency(ccy)),
        Err(_) => None,
    }
}

/// The security or the currency that a row shows.
fn total_key(row: &Row) -> Option<AmountKey>
    ensures shows { IfSome result (ShowsKey Ledger.Total row.now) }
    ensures securities { (isin : List ℕ) → 1 < length row.now → column row.now 0 ≡ Words (codes "security") → column row.now 1 ≡ Words isin → IsIsin isin → IsSome result }
    ensures currencies { (ccy : Ccy) → 1 < length row.now → column row.now 0 ≡ Words (codes "currency") → column row.now 1 ≡ Words (letters_of ccy) → IsSome result }
{
    let Ok(subject) = text_at(row, 0) else {
        return None;
    };
    if subject == b"security".as_slice() {
        return security_key(row);
    }
    if subject == b"currency".as_slice() {
        return currency_key(row);
    }
    None
}

/// The key that a row of a table shows; None where its texts are those of none.
fn key_shown(ledger: Ledger, row: &Row) -> Option<AmountKey>
    ensures shows { IfSome result (ShowsKey ledger row.now) }
    ensures all { (key : Key) → 1 < length row.now → ShowsKey ledger row.now key → IsReadable key → IsSome result }
{
    match ledger {
        Ledger::Balance => balance_key(row),
        Ledger::Cash => cash_key(row),
        Ledger::Total => total_key(row),
    }
}

/// The amount that a row shows; None where it is below 0.
fn amount_shown(row: &Row) -> Option<u64>
    ensures value { IfSome result (λ amount. column row.now 2 ≡ Int (pos amount)) }
    ensures small { IfSome result (λ amount. amount < 2 ^ 63) }
    ensures all { (amount : ℕ) → 2 < length row.now → column row.now 2 ≡ Int (pos amount) → result ≡ Some amount }
{
    match row.get_ref(2) {
        Ok(ValueRef::Int(number)) if number >= 0 => Some(number as u64),
        _ => None,
    }
}

/// Whether a row of a table shows an amount of 0, or what a register has under its key.
fn shows_true<R: Register>(
    alloc: Global,
    register: &mut R,
    ledger: Ledger,
    row: &Row,
) -> Result<bool, Fault>
    requires stage { (R.view register.old).stage ≡ Stage.Idle }
    ensures shows { IfTrusted (R.view register.old) (R.view register.new) (IfOk result (λ so. IsTrue so → ShowsTrue (R.view register.old).content ledger row.now)) }
    ensures exact { IfTrusted (R.view register.old) (R.view register.new) (IfOk result (λ so. ShowsReadable (R.view register.old).content ledger row.now → IsTrue so)) }
    ensures read { IsRead result (R.view register.old) (R.view register.new) }
{
    let Some(amount) = amount_shown(row) else {
        return Ok(false);
    };
    if amount == 0 {
        return Ok(true);
    }
    match key_shown(ledger, row) {
        Some(key) => is_said(alloc, register, &key, Some(amount)),
        None => Ok(false),
    }
}

/// Whether each row of a table shows an amount of 0, or what a register has under its key.
pub fn show_true<R: Register>(
    alloc: Global,
    register: &mut R,
    ledger: Ledger,
    rows: &[Row],
) -> Result<bool, Fault>
    requires stage { (R.view register.old).stage ≡ Stage.Idle }
    ensures show { IfTrusted (R.view register.old) (R.view register.new) (IfOk result (λ so. IsTrue so → All (ShowsTrue (R.view register.old).content ledger) rows.now)) }
    ensures exact { IfTrusted (R.view register.old) (R.view register.new) (IfOk result (λ so. All (ShowsReadable (R.view register.old).content ledger) rows.now → IsTrue so)) }
    ensures read { IsRead result (R.view register.old) (R.view register.new) }
{
    for row in rows {
        if !shows_true(alloc, register, ledger, row)? {
            return Ok(false);
        }
    }
    Ok(true)
}
