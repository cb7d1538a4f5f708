//! What the other columns say of an entry.
ghost use Rattle.std.specs.Prelude.{◌≡◌, ◌<◌, ◌≤◌, ◌^◌, []};
ghost use Rattle.sql_entries.specs.Columns.{blank, columns_of, number_of_rule};
ghost use Rattle.sql_entries.specs.Filled.{columns_in};
ghost use Rattle.desk_rules.specs.declared.history.entry.Entry.TheVariants.{Instruct, Issue, PayIn};

use desk_msg::Instruction;
use desk_rules::{Entry, Movement, Payment, RunRule};
use sql_tables::values::{amount, currency_text};

/// A value for each column, borrowed from an entry.
#[derive(Clone, Copy)]
pub(crate) struct Filled<'a> {
    pub(crate) bic: &'a [u8],
    pub(crate) account: &'a [u8],
    pub(crate) isin: &'a [u8],
    pub(crate) unit: &'a [u8],
    pub(crate) quantity: u64,
    pub(crate) currency: &'a [u8],
    pub(crate) amount: u64,
    pub(crate) day: &'a [u8],
    pub(crate) rule: u64,
    pub(crate) mt: u16,
    pub(crate) settlement: &'a [u8],
    pub(crate) place: &'a [u8],
    pub(crate) previous: &'a [u8],
}

/// Each column empty, or 0.
fn blank<'a>() -> Filled<'a>
    ensures { columns_in result ≡ blank }
{
    Filled {
        bic: b"",
        account: b"",
        isin: b"",
        unit: b"",
        quantity: 0,
        currency: b"",
        amount: 0,
        day: b"",
        rule: 0,
        mt: 0,
        settlement: b"",
        place: b"",
        previous: b"",
    }
}

/// The number of a run's rule.
fn number_of_rule(rule: RunRule) -> u64
    ensures rule { result ≡ number_of_rule rule }
    ensures few { result ≤ 2 }
{
    match rule {
        RunRule::OnePass => 1,
        RunRule::Passes => 2,
    }
}

/// The quantity of an instruction.
pub(crate) fn quantity(instruction: &Instruction) -> u64
    ensures quantity { result ≡ instruction.now.quantity }
    ensures fits { result < 2 ^ 63 }
{
    instruction.quantity
}

/// Of an issue and of a redemption.
fn moved(movement: &Movement) -> Filled<'_>
    ensures columns { columns_in result ≡ columns_of (Issue movement.now) }
    ensures quantity { result.quantity < 2 ^ 63 }
    ensures amount { result.amount < 2 ^ 63 }
    ensures rule { result.rule < 2 ^ 63 }
{
    Filled {
        account: movement.account.as_bytes(),
        isin: movement.isin.as_bytes(),
        quantity: movement.quantity,
        ..blank()
    }
}

/// Of a pay in and of a pay out.
fn paid(payment: &Payment) -> Filled<'_>
    ensures columns { columns_in result ≡ columns_of (PayIn payment.now) }
    ensures quantity { result.quantity < 2 ^ 63 }
    ensures amount { result.amount < 2 ^ 63 }
    ensures rule { result.rule < 2 ^ 63 }
{
    Filled {
        bic: payment.bic.as_bytes(),
        currency: payment.ccy.as_bytes(),
        amount: payment.amount,
        ..blank()
    }
}

/// Of an instruction.
fn instructed(instruction: &Instruction) -> Filled<'_>
    ensures columns { columns_in result ≡ columns_of (Instruct [] instruction.now) }
    ensures quantity { result.quantity < 2 ^ 63 }
    ensures amount { result.amount < 2 ^ 63 }
    ensures rule { result.rule < 2 ^ 63 }
{
    Filled {
        bic: instruction.counterparty.as_bytes(),
        account: instruction.account.as_bytes(),
        isin: instruction.isin.as_bytes(),
        unit: instruction.kind.as_str().as_bytes(),
        quantity: quantity(instruction),
        currency: currency_text(&instruction.cash),
        amount: amount(&instruction.cash),
        day: instruction.day.as_bytes(),
        mt: instruction.mt.number(),
        settlement: instruction.settlement.as_bytes(),
        place: instruction.place.as_bytes(),
        ..blank()
    }
}

/// What the columns say of an entry.
pub(crate) fn filled_by(entry: &Entry) -> Filled<'_>
    ensures columns { columns_in result ≡ columns_of entry.now }
    ensures quantity { result.quantity < 2 ^ 63 }
    ensures amount { result.amount < 2 ^ 63 }
    ensures rule { result.rule < 2 ^ 63 }
{
    match entry {
        Entry::Participant { bic, .. } => Filled {
            bic: bic.as_bytes(),
            ..blank()
        },
        Entry::Account { bic, account, .. } => Filled {
            bic: bic.as_bytes(),
            account: account.as_bytes(),
            ..blank()
        },
        Entry::Security { isin, kind, .. } => Filled {
            isin: isin.as_bytes(),
            unit: kind.as_str().as_bytes(),
            ..blank()
        },
        Entry::Issue(movement) | Entry::Redeem(movement) => moved(movement),
        Entry::PayIn(payment) | Entry::PayOut(payment) => paid(payment),
        Entry::Instruct { instruction, .. } => instructed(instruction),
        Entry::Cancel { order, .. } => Filled {
            mt: order.mt.number(),
            previous: order.previous.as_bytes(),
            ..blank()
        },
        Entry::Run { day, rule, .. } => Filled {
            day: day.as_bytes(),
            rule: number_of_rule(*rule),
            ..blank()
        },
    }
}
