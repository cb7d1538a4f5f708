//! Whether two values have the same content. Written out for its contract, by which such values are one: where a type
//! keeps conditions, that rests on a condition having one proof (proofs/SameContent.antt).
ghost use Rattle.std.specs.Prelude.{◌≡◌, ◌↔◌, IsTrue};
ghost use Rattle.desk_rules.specs.History.{as_asked};

use crate::history::entry::{Entry, Movement, Payment};
use desk_msg::{CancelOrder, Cash, Instruction};

fn same_movement(a: Movement, b: Movement) -> bool
    ensures { IsTrue result ↔ (a ≡ b) }
{
    if a.reference != b.reference {
        return false;
    }
    if a.account != b.account {
        return false;
    }
    if a.isin != b.isin {
        return false;
    }
    a.quantity == b.quantity
}

fn same_payment(a: Payment, b: Payment) -> bool
    ensures { IsTrue result ↔ (a ≡ b) }
{
    if a.reference != b.reference {
        return false;
    }
    if a.bic != b.bic {
        return false;
    }
    if a.ccy != b.ccy {
        return false;
    }
    a.amount == b.amount
}

fn same_order(a: CancelOrder, b: CancelOrder) -> bool
    ensures { IsTrue result ↔ (a ≡ b) }
{
    if a.mt != b.mt {
        return false;
    }
    if a.reference != b.reference {
        return false;
    }
    a.previous == b.previous
}

fn same_amount(a: Cash, b: Cash) -> bool
    ensures { IsTrue result ↔ (a ≡ b) }
{
    a.ccy == b.ccy && a.amount == b.amount
}

/// Whether two amounts of cash are one, or both are absent.
pub fn same_cash(a: Option<Cash>, b: Option<Cash>) -> bool
    ensures { IsTrue result ↔ (a ≡ b) }
{
    match (a, b) {
        (None, None) => true,
        (Some(a), Some(b)) => same_amount(a, b),
        (None, Some(_)) | (Some(_), None) => false,
    }
}

fn same_instruction(a: Instruction, b: Instruction) -> bool
    ensures { IsTrue result ↔ (a ≡ b) }
{
    if a.mt != b.mt {
        return false;
    }
    if a.reference != b.reference {
        return false;
    }
    if a.day != b.day {
        return false;
    }
    if a.isin != b.isin {
        return false;
    }
    if a.kind != b.kind {
        return false;
    }
    if a.quantity != b.quantity {
        return false;
    }
    if a.account != b.account {
        return false;
    }
    if a.settlement != b.settlement {
        return false;
    }
    if a.counterparty != b.counterparty {
        return false;
    }
    if a.place != b.place {
        return false;
    }
    same_cash(a.cash, b.cash)
}

/// Whether two entries are the same command with the same content. The rule of a run is no part of the command.
pub fn same_entry(a: &Entry, b: &Entry) -> bool
    ensures { IsTrue result ↔ (as_asked a.now ≡ as_asked b.now) }
{
    match (a, b) {
        (
            Entry::Participant { reference, bic },
            Entry::Participant {
                reference: r,
                bic: x,
            },
        ) => reference == r && bic == x,
        (
            Entry::Account {
                reference,
                bic,
                account,
            },
            Entry::Account {
                reference: r,
                bic: x,
                account: y,
            },
        ) => { reference == r && bic == x && account == y }
        (
            Entry::Security {
                reference,
                isin,
                kind,
            },
            Entry::Security {
                reference: r,
                isin: x,
                kind: k,
            },
        ) => { reference == r && isin == x && kind == k }
        (Entry::Issue(a), Entry::Issue(b)) => same_movement(*a, *b),
        (Entry::Redeem(a), Entry::Redeem(b)) => same_movement(*a, *b),
        (Entry::PayIn(a), Entry::PayIn(b)) => same_payment(*a, *b),
        (Entry::PayOut(a), Entry::PayOut(b)) => same_payment(*a, *b),
        (
            Entry::Instruct {
                sender,
                instruction,
            },
            Entry::Instruct {
                sender: s,
                instruction: i,
            },
        ) => { sender == s && same_instruction(*instruction, *i) }
        (
            Entry::Cancel { sender, order },
            Entry::Cancel {
                sender: s,
                order: o,
            },
        ) => sender == s && same_order(*order, *o),
        (
            Entry::Run { reference, day, .. },
            Entry::Run {
                reference: r,
                day: d,
                ..
            },
        ) => reference == r && day == d,
        _ => false,
    }
}
