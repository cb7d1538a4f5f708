//! What two opposite instructions have in common.
ghost use Rattle.std.specs.Prelude.{◌≡◌};
ghost use Rattle.memory_register.specs.Open.{amount_of, ccy_of, key_of, wanted_key};

use desk_codes::{Bic, Ccy, Day, Isin};
use desk_msg::{Cash, Kind};
use desk_rules::Instructed;

/// What two opposite instructions have in common, as one of them has it.
#[derive(Clone, Copy, PartialEq, Eq, PartialOrd, Ord)]
pub struct MatchKey {
    pub quantity: u64,
    /// 0 without cash
    pub amount: u64,
    pub isin: Isin,
    pub day: Day,
    pub sender: Bic,
    pub counterparty: Bic,
    pub delivers: bool,
    pub is_paid: bool,
    pub kind: Kind,
    /// That of the cash; without cash always the same
    pub ccy: Ccy,
}

fn amount_of(cash: Option<Cash>) -> u64
    ensures { result ≡ amount_of cash }
{
    match cash {
        Some(cash) => cash.amount,
        None => 0,
    }
}

fn ccy_of(cash: Option<Cash>) -> Ccy
    ensures { result ≡ ccy_of cash }
{
    match cash {
        Some(cash) => cash.ccy,
        None => Ccy::Chf,
    }
}

/// An instruction's key.
pub fn key_of(i: &Instructed) -> MatchKey
    ensures { result ≡ key_of i.now }
{
    MatchKey {
        quantity: i.instruction.quantity,
        amount: amount_of(i.instruction.cash),
        isin: i.instruction.isin,
        day: i.instruction.day,
        sender: i.sender,
        counterparty: i.instruction.counterparty,
        delivers: i.instruction.mt.is_delivery(),
        is_paid: i.instruction.mt.is_against_payment(),
        kind: i.instruction.kind,
        ccy: ccy_of(i.instruction.cash),
    }
}

/// The key of the instructions that are opposite to one.
pub fn wanted_key(i: &Instructed) -> MatchKey
    ensures { result ≡ wanted_key i.now }
{
    MatchKey {
        sender: i.instruction.counterparty,
        counterparty: i.sender,
        delivers: !i.instruction.mt.is_delivery(),
        ..key_of(i)
    }
}
