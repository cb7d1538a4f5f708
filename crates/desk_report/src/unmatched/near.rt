//! What instructions that are near to each other have in common, and in what they differ.
ghost use Rattle.std.specs.Prelude.{◌≡◌};
ghost use Rattle.desk_report.specs.NearKeys.{key_of, near_key};
ghost use Rattle.desk_report.specs.Unmatched.{amounts_differ, currencies_differ, differences_of, nearest_told};

use crate::rows::unmatched::{Differences, Nearest};
use desk_codes::{Bic, Isin};
use desk_msg::Cash;
use desk_rules::Instructed;

/// What instructions that are near to one have in common, as they have it.
#[derive(Clone, Copy, PartialEq, Eq, PartialOrd, Ord)]
pub struct NearKey {
    pub isin: Isin,
    pub sender: Bic,
    pub counterparty: Bic,
    pub delivers: bool,
}

/// An instruction's key.
pub fn key_of(one: &Instructed) -> NearKey
    ensures { result ≡ key_of one.now }
{
    NearKey {
        isin: one.instruction.isin,
        sender: one.sender,
        counterparty: one.instruction.counterparty,
        delivers: one.instruction.mt.is_delivery(),
    }
}

/// The key of the instructions that are near to one.
pub fn near_key(one: &Instructed) -> NearKey
    ensures { result ≡ near_key one.now }
{
    NearKey {
        isin: one.instruction.isin,
        sender: one.instruction.counterparty,
        counterparty: one.sender,
        delivers: !one.instruction.mt.is_delivery(),
    }
}

/// Whether both are against payment, in different currencies.
fn currencies_differ(one: Option<Cash>, other: Option<Cash>) -> bool
    ensures { result ≡ currencies_differ one other }
{
    match (one, other) {
        (Some(a), Some(b)) => a.ccy != b.ccy,
        _ => false,
    }
}

/// Whether both are against payment in one currency, for different amounts.
fn amounts_differ(one: Option<Cash>, other: Option<Cash>) -> bool
    ensures { result ≡ amounts_differ one other }
{
    match (one, other) {
        (Some(a), Some(b)) => a.ccy == b.ccy && a.amount != b.amount,
        _ => false,
    }
}

/// In what two instructions differ that are near to each other.
fn differences(one: &Instructed, other: &Instructed) -> Differences
    ensures { result ≡ differences_of one.now other.now }
{
    let a = &one.instruction;
    let b = &other.instruction;
    Differences {
        kind: a.kind != b.kind,
        quantity: a.quantity != b.quantity,
        day: a.day != b.day,
        payment: a.mt.is_against_payment() != b.mt.is_against_payment(),
        currency: currencies_differ(a.cash, b.cash),
        amount: amounts_differ(a.cash, b.cash),
    }
}

/// What is told of the instruction of a number that is nearest to one.
pub fn nearest_told(one: &Instructed, number: u64, other: &Instructed) -> Nearest
    ensures { result ≡ nearest_told one.now number other.now }
{
    let differs = differences(one, other);
    Nearest {
        number,
        reference: other.instruction.reference,
        differs,
    }
}
