//! What an entry posts: an amount, to a balance and to the total of all such balances.
ghost use Rattle.std.specs.Prelude.{◌≡◌};
ghost use Rattle.sql_register.specs.Posting.{posting_of, posting_of_movement, posting_of_payment};

use desk_rules::{Entry, Movement, Payment};
use sql_rows::AmountKey;

/// Whether an amount is put on, or taken off.
#[derive(Clone, Copy)]
pub enum Direction {
    Credit,
    Debit,
}

/// An amount that is put on a balance and on its total, or taken off both.
#[derive(Clone, Copy)]
pub struct Posting {
    pub balance: AmountKey,
    pub total: AmountKey,
    pub amount: u64,
    pub direction: Direction,
}

/// A quantity of a security, on an account and on what is outstanding.
fn posting_of_movement(movement: &Movement, direction: Direction) -> Posting
    ensures { result ≡ posting_of_movement movement.now direction }
{
    Posting {
        balance: AmountKey::Balance(movement.account, movement.isin),
        total: AmountKey::Security(movement.isin),
        amount: movement.quantity,
        direction,
    }
}

/// Cash, on a participant's balance and on what is paid of the currency.
fn posting_of_payment(payment: &Payment, direction: Direction) -> Posting
    ensures { result ≡ posting_of_payment payment.now direction }
{
    Posting {
        balance: AmountKey::Cash(payment.bic, payment.ccy),
        total: AmountKey::Currency(payment.ccy),
        amount: payment.amount,
        direction,
    }
}

/// What an entry posts; None where it moves nothing.
pub fn posting_of(entry: &Entry) -> Option<Posting>
    ensures { result ≡ posting_of entry.now }
{
    match entry {
        Entry::Issue(movement) => Some(posting_of_movement(movement, Direction::Credit)),
        Entry::Redeem(movement) => Some(posting_of_movement(movement, Direction::Debit)),
        Entry::PayIn(payment) => Some(posting_of_payment(payment, Direction::Credit)),
        Entry::PayOut(payment) => Some(posting_of_payment(payment, Direction::Debit)),
        _ => None,
    }
}
